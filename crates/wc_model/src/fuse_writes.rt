//! What a writer for tests takes.
ghost use Rattle.std.specs.Prelude.{◌≡◌, [], length, Some, IfOk};
ghost use Rattle.wc_model.specs.Run.Fuses.{taken_by};

use crate::byte_out::ByteOut;
use crate::fuse_out::FuseOut;
use std::alloc::{AllocError, Global};
use std::io;

impl FuseOut {
    /// A writer that takes at most `per_call` bytes in a call, and `in_all` in all its calls. Memory alone is
    /// refused.
    pub fn new(alloc: Global, per_call: usize, in_all: usize) -> Result<Self, AllocError>
        ensures empty { IfOk result (λ fuse. taken_by fuse ≡ []) }
        ensures buffer { IfOk result (λ fuse. length fuse.buffer.items ≡ in_all) }
        ensures step { IfOk result (λ fuse. fuse.per_call ≡ per_call) }
        ensures failures { IfOk result (λ fuse. fuse.failures ≡ 0) }
    {
        let buffer = vec![in alloc; 0u8; in_all]?;
        Ok(FuseOut {
            buffer,
            taken: 0,
            per_call,
            failures: 0,
        })
    }

    /// What it took, in order.
    pub fn written(&self) -> &[u8]
        ensures { result.now ≡ taken_by self.now }
    {
        &self.buffer[..self.taken]
    }
}

impl ByteOut for FuseOut {
    ghost bytes_taken = { λ fuse. Some (taken_by fuse) };

    ghost failure_count = { λ fuse. fuse.failures };

    fn write(&mut self, chunk: &[u8]) -> io::Result<usize> {
        let left = self.buffer.len() - self.taken;
        let count = chunk.len().min(self.per_call).min(left);
        if count == 0 && !chunk.is_empty() {
            self.failures = self.failures.saturating_add(1);
            if left == 0 {
                return Err(io::Error::from(io::ErrorKind::BrokenPipe));
            }
            return Ok(0);
        }
        self.buffer[self.taken..self.taken + count].copy_from_slice(&chunk[..count]);
        self.taken += count;
        Ok(count)
    }

    fn failures(&self) -> u64 {
        self.failures
    }
}
