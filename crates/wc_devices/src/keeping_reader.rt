ghost use Rattle.std.specs.Prelude.{◌≡◌, ◌+◌, ◌≤◌, ◌⊎◌, [], IsErrAnd, IsTrue, false, length};
ghost use Rattle.std.specs.Io.{ReadsAtMost};
ghost use Rattle.std.specs.Io.KnownBytes.{ReadConsumes};
ghost use Rattle.std.specs.IoError.{error_kind};
ghost use Rattle.wc_devices.specs.Inside.{Extends, has_lacked, kept, kept_capacity, keeping_inner};

use std::alloc::Global;
use std::io;
use std::io::{ErrorKind, Read};

/// A reader that keeps the bytes that it reads. Memory for them comes first: if it is refused, the read is out of memory
/// (`OutOfMemory`) and takes nothing from the reader inside.
#[derive(Drop)]
pub struct KeepingReader<D> {
    inner: D,
    kept: Vec<u8>,
    lacked: bool,
}

impl<D> KeepingReader<D> {
    /// One that has read nothing.
    pub fn new(alloc: Global, inner: D) -> KeepingReader<D>
        ensures inner { keeping_inner result ≡ inner }
        ensures nothing { kept result ≡ [] }
        ensures memory { has_lacked result ≡ false }
    {
        KeepingReader {
            inner,
            kept: Vec::new(alloc),
            lacked: false,
        }
    }

    /// The reader inside.
    pub fn get_ref(&self) -> &D
        ensures { result.now ≡ keeping_inner self.now }
    {
        &self.inner
    }

    /// All bytes that were read.
    pub fn bytes_read(&self) -> &[u8]
        ensures { result.now ≡ kept self.now }
    {
        self.kept.as_slice()
    }

    /// Whether a read was out of memory for the bytes to keep.
    pub fn has_lacked(&self) -> bool
        ensures { result ≡ has_lacked self.now }
    {
        self.lacked
    }
}

impl<D: Read> Read for KeepingReader<D> {
    ghost remaining = { λ k. D.remaining (keeping_inner k) };

    fn read(&mut self, buffer: &mut [u8]) -> io::Result<usize>
        ensures bound { ReadsAtMost result buffer.new }
        ensures bytes { ReadConsumes (D.remaining (keeping_inner self.old))
            (D.remaining (keeping_inner self.new)) result buffer.new }
        ensures kept { Extends (kept self.old) (kept self.new) result buffer.new }
        // It lacks memory only if some was refused, and then it says so and the reader inside is not asked.
        ensures lacks { IsTrue (has_lacked self.new) → IsTrue (has_lacked self.old)
            ⊎ IsErrAnd result (λ error. error_kind error ≡ ErrorKind.OutOfMemory)
            × (keeping_inner self.new ≡ keeping_inner self.old) }
        ensures enough { length (kept self.old) + length buffer.old ≤ kept_capacity self.old
            → has_lacked self.new ≡ has_lacked self.old }
        ensures there { has_lacked self.new ≡ false
            → length (kept self.old) + length buffer.old ≤ kept_capacity self.new }
        ensures lacked { IsTrue (has_lacked self.old) → IsTrue (has_lacked self.new) }
    {
        if self.kept.reserve(buffer.len()).is_err() {
            self.lacked = true;
            return Err(io::Error::from(ErrorKind::OutOfMemory));
        }
        let count = self.inner.read(buffer)?;
        let (read, _) = buffer.split_at(count);
        let _kept = self.kept.extend_from_slice(read);
        Ok(count)
    }
}
