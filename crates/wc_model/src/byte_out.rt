ghost use Rattle.std.specs.Prelude.{◌≡◌, ℕ, List, Option, None};
ghost use Rattle.std.specs.Io.{WritesAtMost};
ghost use Rattle.std.specs.Io.KnownBytes.{WriteAppends};
ghost use Rattle.wc_model.specs.Run.Devices.{failures_after_write};

use std::io;

/// A writer that counts what failed. `write` is that of `std::io::Write`.
pub trait ByteOut {
    /// The bytes that the writer took so far, if they are known.
    ghost bytes_taken: { Self → Option (List ℕ) } = { λ _. None };

    /// The number of calls of `write` that failed, up to the greatest number of 64 bits.
    ghost failure_count: { Self → ℕ };

    /// Takes a prefix of `chunk`, and returns the number of bytes. To take none of a chunk that has
    /// some is a failed call, as is an error.
    fn write(&mut self, chunk: &[u8]) -> io::Result<usize>
        ensures bound { WritesAtMost result chunk.now }
        // A failed call takes none.
        ensures bytes { WriteAppends (bytes_taken self.old)
            (bytes_taken self.new) result chunk.now }
        ensures failures { failure_count self.new
            ≡ failures_after_write (failure_count self.old) result chunk.now };

    /// The number of calls of `write` that failed. It stops at the greatest value.
    fn failures(&self) -> u64
        ensures { result ≡ failure_count self.now };
}
