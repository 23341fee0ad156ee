ghost use Rattle.std.specs.Prelude.{◌≡◌, ℕ, List, Option, None};
ghost use Rattle.std.specs.Io.{ReadsAtMost};
ghost use Rattle.std.specs.Io.KnownBytes.{ReadConsumes};
ghost use Rattle.wc_model.specs.Run.Devices.{failures_after_read, spent_after_read};

use std::io;

/// A reader that counts what it did. `read` is that of `std::io::Read`.
pub trait ByteIn {
    /// The bytes that reads will give from here on, if they are known.
    ghost bytes_left: { Self → Option (List ℕ) } = { λ _. None };

    /// The number of calls of `read` that failed, up to the greatest number of 64 bits.
    ghost failure_count: { Self → ℕ };

    /// The bytes given and the calls of `read`, up to the greatest number of 64 bits.
    ghost spent_count: { Self → ℕ };

    /// Reads into the start of `buffer`, and returns the number of bytes. 0 is the end, or no space.
    fn read(&mut self, buffer: &mut [u8]) -> io::Result<usize>
        ensures bound { ReadsAtMost result buffer.new }
        // A failed call takes none.
        ensures bytes { ReadConsumes (bytes_left self.old) (bytes_left self.new) result buffer.new }
        ensures failures { failure_count self.new
            ≡ failures_after_read (failure_count self.old) result }
        ensures spent { spent_count self.new ≡ spent_after_read (spent_count self.old) result };

    /// The number of calls of `read` that failed. It stops at the greatest value.
    fn failures(&self) -> u64
        ensures { result ≡ failure_count self.now };

    /// The bytes given and the calls of `read`. It stops at the greatest value.
    fn spent(&self) -> u64
        ensures { result ≡ spent_count self.now };
}
