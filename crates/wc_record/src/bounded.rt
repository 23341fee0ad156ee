ghost use Rattle.std.specs.Prelude.{◌≡◌, true, false, option_map, Ok, IsErr};
ghost use Rattle.std.specs.Io.{ReadsAtMost};
ghost use Rattle.std.specs.Io.KnownBytes.{ReadConsumes};
ghost use Rattle.wc_model.specs.Run.Devices.{failures_after_read};
ghost use Rattle.wc_record.specs.Cutting.{is_exhausted, cut_from, is_cut, log_start};
ghost use Rattle.wc_record.specs.Reading.{borrowed, borrowed_bytes};

use crate::place::LogPlace;
use memchr::memchr_iter;
use std::io::{self, Read};
use wc_model::{ByteIn, MOST_SPENT};

/// Whether as much of a log was read as may be: 134217728 bytes and calls since the start, or a
/// count at its end. Both are counts of `ByteIn::spent`, the first of when the reader was borrowed.
pub fn is_exhausted(start: u64, spent: u64) -> bool
    ensures { result ≡ is_exhausted start spent }
{
    spent == u64::MAX || spent.saturating_sub(start) >= MOST_SPENT
}

/// A reader that is borrowed, the count at which it was, and the place at which it is. It ends in a
/// record that has more than three fields: such a record is refused, so that nothing after its
/// third field counts.
#[derive(Drop)]
pub(crate) struct LimitedReader<'r, R> {
    pub(crate) reader: &'r mut R,
    pub(crate) start: u64,
    place: LogPlace,
    given: ReadBytes,
}

impl<'r, R: ByteIn> LimitedReader<'r, R> {
    /// The reader of a log, of which nothing is read yet.
    pub(crate) fn new(reader: &'r mut R, start: u64) -> LimitedReader<'r, R>
        ensures bytes { borrowed_bytes R.bytes_left result
            ≡ option_map (cut_from log_start) (R.bytes_left reader.old) }
        ensures borrowed { borrowed result ≡ reader.old }
        ensures start { result.start ≡ start }
    {
        LimitedReader {
            reader,
            start,
            place: LogPlace::new(),
            given: ReadBytes::new(),
        }
    }

    /// Reads, up to the cut, which is not reached yet, unless as much was read as may be.
    #[inline(always)]
    fn read_on(&mut self, buffer: &mut [u8]) -> io::Result<usize>
        requires { is_cut self.old.place ≡ false }
        ensures bound { ReadsAtMost result buffer.new }
        ensures bytes { ReadConsumes (borrowed_bytes R.bytes_left self.old)
            (borrowed_bytes R.bytes_left self.new) result buffer.new }
        // What is exhausted reads no further.
        ensures exhausted { is_exhausted self.old.start (R.spent_count self.old.reader.now) ≡ true
            → IsErr result × (self.new.reader.now ≡ self.old.reader.now) }
        ensures failures { is_exhausted self.old.start (R.spent_count self.old.reader.now) ≡ false
            → R.failure_count self.new.reader.now
            ≡ failures_after_read (R.failure_count self.old.reader.now) result }
        ensures start { self.new.start ≡ self.old.start }
    {
        if is_exhausted(self.start, self.reader.spent()) {
            return Err(io::Error::from(io::ErrorKind::Other));
        }
        match self.reader.read(buffer) {
            Ok(given) => {
                let count = self.place.walk(&buffer[..given]);
                self.given.note(&buffer[..count]);
                Ok(count)
            }
            Err(fault) => Err(fault),
        }
    }
}

impl<R> LimitedReader<'_, R> {
    /// Whether the row that ends directly before that byte of the log ends with a line feed. One in quotes that are open at the
    /// log's end ends no row.
    pub(crate) fn ends_line(&self, byte: u64) -> bool {
        self.given.ends_line(byte) && !(self.place.is_in_quotes() && self.given.is_end(byte))
    }
}

impl<'r, R: ByteIn> Read for LimitedReader<'r, R> {
    ghost remaining = { λ b. option_map (cut_from b.place) (R.bytes_left b.reader.now) };

    fn read(&mut self, buffer: &mut [u8]) -> io::Result<usize>
        ensures bound { ReadsAtMost result buffer.new }
        ensures bytes { ReadConsumes (borrowed_bytes R.bytes_left self.old)
            (borrowed_bytes R.bytes_left self.new) result buffer.new }
        // Nothing after the cut is read.
        ensures cut { is_cut self.old.place ≡ true
            → (result ≡ Ok 0) × (self.new.reader.now ≡ self.old.reader.now) }
        // What is exhausted reads no further.
        ensures exhausted { is_cut self.old.place ≡ false
            → is_exhausted self.old.start (R.spent_count self.old.reader.now) ≡ true
            → IsErr result × (self.new.reader.now ≡ self.old.reader.now) }
        ensures failures { is_cut self.old.place ≡ false
            → is_exhausted self.old.start (R.spent_count self.old.reader.now) ≡ false
            → R.failure_count self.new.reader.now
            ≡ failures_after_read (R.failure_count self.old.reader.now) result }
        ensures start { self.new.start ≡ self.old.start }
    {
        if self.place.is_cut() {
            return Ok(0);
        }
        self.read_on(buffer)
    }
}

/// As many words of 64 bits as the 8192 bytes have that `csv` takes from its reader at once.
const CHUNK_WORDS: usize = 128;

/// What a log's reader gave: the number of bytes, and of the last chunk its length, its last byte and a bit for each CR. It
/// takes no memory that could be refused.
#[derive(Drop)]
struct ReadBytes {
    total: u64,
    length: usize,
    last: u8,
    returns: [u64; CHUNK_WORDS],
}

impl ReadBytes {
    /// Nothing yet.
    fn new() -> ReadBytes {
        ReadBytes {
            total: 0,
            length: 0,
            last: 0,
            returns: [0; CHUNK_WORDS],
        }
    }

    /// Notes a chunk in place of the one before.
    fn note(&mut self, chunk: &[u8]) {
        let Some(last) = chunk.last() else {
            return;
        };
        self.total = self.total.saturating_add(chunk.len() as u64);
        self.length = chunk.len();
        self.last = *last;
        self.returns = [0; CHUNK_WORDS];
        for place in memchr_iter(b'\r', chunk) {
            if let Some(word) = self.returns.get_mut(place / 64) {
                *word |= 1 << (place % 64);
            }
        }
    }

    /// Whether the row that ends directly before that place, counted from 0, ends with a line feed. One that ends before the
    /// last byte does so, unless it ends with a CR.
    pub(crate) fn ends_line(&self, place: u64) -> bool {
        if self.is_end(place) {
            return self.last == b'\n';
        }
        let following = self.total.saturating_sub(place) as usize;
        let Some(before) = self.length.checked_sub(following.saturating_add(1)) else {
            return false;
        };
        let word = self.returns.get(before / 64).copied().unwrap_or(0);
        word >> (before % 64) & 1 == 0
    }

    /// Whether nothing was given after that place.
    fn is_end(&self, place: u64) -> bool {
        place >= self.total
    }
}
