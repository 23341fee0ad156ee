use crate::byte_in::ByteIn;
use crate::device::Device;
use std::io;
use std::io::Read;

impl<D: Read> ByteIn for Device<D> {
    ghost bytes_left = { λ d. D.remaining d.inner };

    ghost failure_count = { λ d. d.failures };

    ghost spent_count = { λ d. d.spent };

    fn read(&mut self, buffer: &mut [u8]) -> io::Result<usize> {
        let result = self.inner.read(buffer);
        self.spent = self.spent.saturating_add(1);
        match &result {
            Ok(count) => self.spent = self.spent.saturating_add(*count as u64),
            Err(_) => self.failures = self.failures.saturating_add(1),
        }
        result
    }

    fn failures(&self) -> u64 {
        self.failures
    }

    fn spent(&self) -> u64 {
        self.spent
    }
}
