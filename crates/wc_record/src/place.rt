ghost use Rattle.std.specs.Prelude.{◌≡◌, ◌≤◌, ◌<◌, ◌+◌, length, true};
ghost use Rattle.wc_record.specs.Cutting.{AreUnquotedLines, Cuts, Passes, after, after_opening, after_plain, is_cut, is_outside, log_start, record_start};

use memchr::{memchr, memrchr};

/// The number of bytes of a record that are read, whatever they are.
const MOST_READ: u32 = 65536;

/// What the next byte may be.
#[derive(Clone, Copy, PartialEq, Eq)]
pub(crate) enum ByteState {
    /// The first of a log, where a byte order mark may be.
    LogStart,
    /// The second of a byte order mark.
    SecondOfMark,
    /// Its third.
    ThirdOfMark,
    /// The first of a record or of a field, or one after quotes that closed: here a quote opens
    /// quotes.
    Opening,
    /// One of a field, where a quote is a byte as any other.
    Plain,
    /// One in quotes, where a comma and a line's end are bytes as any other.
    Quoted,
}

/// The place in the bytes of a log at which a reader is.
#[derive(Clone, Copy, PartialEq, Eq)]
pub(crate) struct LogPlace {
    /// What the next byte may be.
    pub(crate) byte_state: ByteState,
    /// The number of fields of the current record that have ended, 3 if there are more.
    pub(crate) ended: u8,
    /// The number of its bytes that were read, 65536 if there are more.
    pub(crate) size: u32,
}

/// The place of these parts.
#[inline(always)]
fn place_of(byte_state: ByteState, ended: u8, size: u32) -> LogPlace
    ensures { result ≡ record { byte_state = byte_state; ended = ended; size = size } }
{
    LogPlace {
        byte_state,
        ended,
        size,
    }
}

/// The place before the first byte of a record.
#[inline(always)]
fn at_record() -> LogPlace
    ensures { result ≡ record_start }
{
    place_of(ByteState::Opening, 0, 0)
}

/// The place after a byte that opens no quotes, outside of them.
#[inline(always)]
fn following_plain(ended: u8, size: u32, byte: u8) -> LogPlace
    ensures { result ≡ after_plain ended size byte }
{
    if byte == b',' {
        place_of(ByteState::Opening, ended.saturating_add(1).min(3), size)
    } else if byte == b'\r' || byte == b'\n' {
        at_record()
    } else {
        place_of(ByteState::Plain, ended, size)
    }
}

/// The place after a byte that may open quotes.
#[inline(always)]
fn following_opening(ended: u8, size: u32, byte: u8) -> LogPlace
    ensures { result ≡ after_opening ended size byte }
{
    if byte == b'"' {
        place_of(ByteState::Quoted, ended, size)
    } else {
        following_plain(ended, size, byte)
    }
}

/// The number of bytes up to and including the last line feed, if no quote is among all of them.
fn unquoted_lines(bytes: &[u8]) -> usize
    ensures { AreUnquotedLines bytes.now result }
{
    if let Some(_) = memchr(b'"', bytes) {
        return 0;
    }
    match memrchr(b'\n', bytes) {
        Some(last) => last + 1,
        None => 0,
    }
}

impl LogPlace {
    /// The place before the first byte of a log.
    pub(crate) fn new() -> LogPlace
        ensures { result ≡ log_start }
    {
        place_of(ByteState::LogStart, 0, 0)
    }

    /// Whether no more is read of the current record: it has more than three fields, however it
    /// goes on.
    #[inline(always)]
    pub(crate) fn is_cut(self) -> bool
        ensures { result ≡ is_cut self }
    {
        self.ended >= 3 && self.size >= MOST_READ
    }

    /// Whether it is in quotes that are open.
    pub(crate) fn is_in_quotes(self) -> bool {
        self.byte_state == ByteState::Quoted
    }

    /// The place after this byte.
    #[inline(always)]
    fn following(self, byte: u8) -> LogPlace
        ensures { result ≡ after self byte }
    {
        let size = self.size.saturating_add(1).min(MOST_READ);
        let byte_state = match self.byte_state {
            ByteState::Opening => return following_opening(self.ended, size, byte),
            ByteState::Plain => return following_plain(self.ended, size, byte),
            ByteState::Quoted if byte == b'"' => ByteState::Opening,
            ByteState::Quoted => ByteState::Quoted,
            ByteState::LogStart if byte == 0xef => ByteState::SecondOfMark,
            ByteState::LogStart => return following_opening(self.ended, size, byte),
            ByteState::SecondOfMark if byte == 0xbb => ByteState::ThirdOfMark,
            ByteState::SecondOfMark => return following_plain(self.ended, size, byte),
            ByteState::ThirdOfMark if byte == 0xbf => return at_record(),
            ByteState::ThirdOfMark => return following_plain(self.ended, size, byte),
        };
        place_of(byte_state, self.ended, size)
    }

    /// Whether no quotes are open here, and no byte order mark.
    #[inline(always)]
    fn is_outside(self) -> bool
        ensures { result ≡ is_outside self.byte_state }
    {
        matches!(self.byte_state, ByteState::Opening | ByteState::Plain)
    }

    /// The number of these bytes that are on lines that end in them, which can neither be cut nor
    /// hold a quote: after those a record starts.
    #[inline(always)]
    fn whole_lines(self, bytes: &[u8]) -> usize
        ensures passes { 0 < result → Passes self bytes.now result record_start }
        ensures bound { result ≤ length bytes.now }
    {
        if self.is_outside() && bytes.len() < MOST_READ.saturating_sub(self.size) as usize {
            unquoted_lines(bytes)
        } else {
            0
        }
    }

    /// Goes over these bytes up to the cut, one by one, and returns their number.
    fn walk_on(&mut self, bytes: &[u8]) -> usize
        ensures cuts { Cuts self.old bytes.now result self.new }
        ensures bound { result ≤ length bytes.now }
        ensures stops { result < length bytes.now → is_cut self.new ≡ true }
    {
        for (index, byte) in bytes.iter().enumerate() {
            if self.is_cut() {
                return index;
            }
            *self = self.following(*byte);
        }
        bytes.len()
    }

    /// Goes over these bytes up to the cut, and returns their number.
    pub(crate) fn walk(&mut self, bytes: &[u8]) -> usize
        ensures cuts { Cuts self.old bytes.now result self.new }
        ensures bound { result ≤ length bytes.now }
        ensures stops { result < length bytes.now → is_cut self.new ≡ true }
    {
        let lines = self.whole_lines(bytes);
        if lines == 0 {
            return self.walk_on(bytes);
        }
        *self = at_record();
        lines + self.walk_on(&bytes[lines..])
    }
}
