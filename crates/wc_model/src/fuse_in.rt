ghost use Rattle.std.specs.Prelude.{◌≡◌, ◌++◌, Some};
ghost use Rattle.wc_model.specs.Run.Fuses.{repeated, fuse_bytes, has_burnt_in};

use crate::byte_in::ByteIn;
use std::io;
use std::io::Read;

/// A reader for tests: it hands out a head, then a chunk n times, one in each read that has space for
/// it, and then ends or fails at each call.
#[derive(Drop)]
pub struct FuseIn<'t> {
    pub(crate) left: &'t [u8],
    pub(crate) chunk: &'t [u8],
    pub(crate) times: u32,
    pub(crate) fails: bool,
    pub(crate) failures: u64,
    pub(crate) spent: u64,
}

impl<'t> FuseIn<'t> {
    /// A reader of `head` and then `chunk`, `times` times; if `fails`, each read after them is an error,
    /// else they end there.
    pub fn new(head: &'t [u8], chunk: &'t [u8], times: u32, fails: bool) -> Self
        ensures bytes { fuse_bytes result ≡ head.entry.now ++ repeated chunk.entry.now times }
        ensures end { result.fails ≡ fails }
        ensures failures { result.failures ≡ 0 }
        ensures spent { result.spent ≡ 0 }
    {
        FuseIn {
            left: head,
            chunk,
            times,
            fails,
            failures: 0,
            spent: 0,
        }
    }

    /// Takes up the next chunk if nothing is left of the one before.
    fn take_up(&mut self)
        ensures bytes { fuse_bytes self.new ≡ fuse_bytes self.old }
        ensures counts { (self.new.failures ≡ self.old.failures)
            × (self.new.spent ≡ self.old.spent) }
        ensures burnt { has_burnt_in self.new }
    {
        if self.left.is_empty() && self.times > 0 {
            self.left = self.chunk;
            self.times -= 1;
        }
    }
}

impl<'t> ByteIn for FuseIn<'t> {
    ghost bytes_left = { λ fuse. Some (fuse_bytes fuse) };

    ghost failure_count = { λ fuse. fuse.failures };

    ghost spent_count = { λ fuse. fuse.spent };

    fn read(&mut self, buffer: &mut [u8]) -> io::Result<usize> {
        self.take_up();
        self.spent = self.spent.saturating_add(1);
        if self.left.is_empty() && self.fails {
            self.failures = self.failures.saturating_add(1);
            return Err(io::Error::from(io::ErrorKind::BrokenPipe));
        }
        let result = self.left.read(buffer);
        match &result {
            Ok(count) => self.spent = self.spent.saturating_add(*count as u64),
            Err(_) => self.failures = self.failures.saturating_add(1),
        }
        result
    }

    fn failures(&self) -> u64 {
        self.failures
    }

    fn spent(&self) -> u64 {
        self.spent
    }
}
