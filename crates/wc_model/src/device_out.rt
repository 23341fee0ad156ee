use crate::byte_out::ByteOut;
use crate::device::Device;
use std::io;
use std::io::Write;

impl<D: Write> ByteOut for Device<D> {
    ghost bytes_taken = { λ d. D.contents d.inner };

    ghost failure_count = { λ d. d.failures };

    fn write(&mut self, chunk: &[u8]) -> io::Result<usize> {
        let result = self.inner.write(chunk);
        let failed = match &result {
            Ok(count) => *count == 0 && !chunk.is_empty(),
            Err(_) => true,
        };
        if failed {
            self.failures = self.failures.saturating_add(1);
        }
        result
    }

    fn failures(&self) -> u64 {
        self.failures
    }
}
