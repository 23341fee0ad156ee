ghost use Rattle.std.specs.Prelude.{◌≡◌, ◌≢◌, ◌+◌, ◌<◌, Err, IfErr, IsErrAnd, IsOk, None, OnOk, Some};
ghost use Rattle.std.specs.Io.{ReadsAtMost, WritesAtMost};
ghost use Rattle.std.specs.Io.KnownBytes.{Keeps, ReadConsumes, WriteAppends};
ghost use Rattle.std.specs.IoError.{error_kind};
ghost use Rattle.wc_devices.specs.Inside.{last_cause, retry_inner};

use std::fs::File;
use std::io;
use std::io::{ErrorKind, Read, Write};

/// How often a call that was interrupted is tried again.
const ATTEMPTS: u32 = 16;

/// How often a call may still be tried again. Only `again` counts down, and only for an interruption.
#[derive(Drop)]
pub(crate) struct Attempts {
    left: u32,
}

impl Attempts {
    /// Those of a call that has not been tried again: 16.
    pub(crate) fn new() -> Attempts
        ensures { result.left ≡ 16 }
    {
        Attempts { left: ATTEMPTS }
    }

    /// Decides whether a call that failed is tried again. It is (`Ok`) after an interruption, as long as attempts are left.
    /// Any other failure is the answer as it is. An interruption with no attempt left is a time-out (`TimedOut`), which
    /// no caller tries again.
    pub(crate) fn again(&mut self, error: io::Error) -> io::Result<()>
        ensures counted { OnOk result (self.old.left ≡ self.new.left + 1) }
        ensures again { error_kind error ≡ ErrorKind.Interrupted → 0 < self.old.left → IsOk result }
        ensures gives_up { error_kind error ≡ ErrorKind.Interrupted → self.old.left ≡ 0
            → IsErrAnd result (λ answer. error_kind answer ≡ ErrorKind.TimedOut) }
        ensures failed { error_kind error ≢ ErrorKind.Interrupted → result ≡ Err error }
        ensures retried { IfErr result (λ answer. error_kind answer ≢ ErrorKind.Interrupted) }
    {
        if error.kind() != ErrorKind::Interrupted {
            return Err(error);
        }
        if self.left == 0 {
            return Err(io::Error::new(ErrorKind::TimedOut, "interrupted too many times in a row"));
        }
        self.left -= 1;
        Ok(())
    }
}

/// Makes a call, again after an interruption, which is never the answer.
macro_rules! again {
    ($call:expr) => {{
        let mut attempts = Attempts::new();
        'tries: loop {
            match $call {
                Ok(done) => return Ok(done),
                Err(error) => attempts.again(error)?,
            }
        }
    }};
}

/// Reads, again after an interruption, which is never the answer. How often `reader` is called is not in the contract, since
/// the library's `Read::read` does not say when it fails; `Attempts::again` says when there is one more call.
pub fn read_again<D: Read>(reader: &mut D, buffer: &mut [u8]) -> io::Result<usize>
    ensures bound { ReadsAtMost result buffer.new }
    ensures bytes { ReadConsumes (D.remaining reader.old) (D.remaining reader.new)
        result buffer.new }
    ensures retried { IfErr result (λ error. error_kind error ≢ ErrorKind.Interrupted) }
{
    again!(reader.read(buffer))
}

/// Opens a file for reading, again after an interruption, which is never the answer.
pub fn open_again(rt: &HostRuntime, path: &str) -> io::Result<File>
    ensures retried { IfErr result (λ error. error_kind error ≢ ErrorKind.Interrupted) }
{
    again!(File::open(rt, path))
}

/// Writes, again after an interruption, which is never the answer.
pub(crate) fn write_again<D: Write>(writer: &mut D, chunk: &[u8]) -> io::Result<usize>
    ensures bound { WritesAtMost result chunk.now }
    ensures bytes { WriteAppends (D.contents writer.old) (D.contents writer.new)
        result chunk.now }
    ensures retried { IfErr result (λ error. error_kind error ≢ ErrorKind.Interrupted) }
{
    again!(writer.write(chunk))
}

/// Flushes, again after an interruption, which is never the answer.
pub(crate) fn flush_again<D: Write>(writer: &mut D) -> io::Result<()>
    ensures bytes { Keeps (D.contents writer.old) (D.contents writer.new) }
    ensures retried { IfErr result (λ error. error_kind error ≢ ErrorKind.Interrupted) }
{
    again!(writer.flush())
}

/// The answer of a call, whose cause is kept if it failed.
macro_rules! keeping_cause {
    ($retry:ident, $call:expr) => {
        match $call {
            Ok(done) => Ok(done),
            Err(error) => {
                $retry.cause = Some(error);
                Err(error)
            }
        }
    };
}

/// A reader or a writer that tries a call again after an interruption, at most 16 times, and keeps why it failed last. An
/// interruption is never the answer: when the last try is interrupted too, the answer is a time-out (`TimedOut`).
#[derive(Drop)]
pub struct Retry<D> {
    inner: D,
    cause: Option<io::Error>,
}

impl<D> Retry<D> {
    /// One that has not failed.
    pub fn new(inner: D) -> Retry<D>
        ensures inner { retry_inner result ≡ inner }
        ensures cause { last_cause result ≡ None }
    {
        Retry { inner, cause: None }
    }

    /// Why it failed last, if it did.
    pub fn cause(&self) -> Option<io::Error>
        ensures { result ≡ last_cause self.now }
    {
        self.cause
    }
}

impl<D: Read> Read for Retry<D> {
    ghost remaining = { λ n. D.remaining (retry_inner n) };

    fn read(&mut self, buffer: &mut [u8]) -> io::Result<usize>
        ensures bound { ReadsAtMost result buffer.new }
        ensures bytes { ReadConsumes (D.remaining (retry_inner self.old))
            (D.remaining (retry_inner self.new)) result buffer.new }
        ensures last_cause { IfErr result (λ error. last_cause self.new ≡ Some error) }
        ensures steady { OnOk result (last_cause self.new ≡ last_cause self.old) }
        ensures retried { IfErr result (λ error. error_kind error ≢ ErrorKind.Interrupted) }
    {
        keeping_cause!(self, read_again(&mut self.inner, buffer))
    }
}

impl<D: Write> Write for Retry<D> {
    ghost contents = { λ n. D.contents (retry_inner n) };

    fn write(&mut self, chunk: &[u8]) -> io::Result<usize>
        ensures bound { WritesAtMost result chunk.now }
        ensures bytes { WriteAppends (D.contents (retry_inner self.old))
            (D.contents (retry_inner self.new)) result chunk.now }
        ensures last_cause { IfErr result (λ error. last_cause self.new ≡ Some error) }
        ensures steady { OnOk result (last_cause self.new ≡ last_cause self.old) }
        ensures retried { IfErr result (λ error. error_kind error ≢ ErrorKind.Interrupted) }
    {
        keeping_cause!(self, write_again(&mut self.inner, chunk))
    }

    fn flush(&mut self) -> io::Result<()>
        ensures bytes { Keeps (D.contents (retry_inner self.old))
            (D.contents (retry_inner self.new)) }
        ensures last_cause { IfErr result (λ error. last_cause self.new ≡ Some error) }
        ensures steady { OnOk result (last_cause self.new ≡ last_cause self.old) }
        ensures retried { IfErr result (λ error. error_kind error ≢ ErrorKind.Interrupted) }
    {
        keeping_cause!(self, flush_again(&mut self.inner))
    }
}
