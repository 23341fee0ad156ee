//! Readers and writers around others: what they hand on, and what they keep.
use std::alloc::Global;
use std::io;
use std::io::{Read, Write};
use wc_devices::{KeepingReader, OutputBuffer, Retry};

/// A reader and writer that is interrupted three times, and then fails.
#[derive(Drop)]
struct InterruptedDevice {
    left: u32,
}

/// The error of the next call.
fn next_error(calls: &mut InterruptedDevice) -> io::Error {
    if calls.left == 0 {
        return io::Error::from(io::ErrorKind::BrokenPipe);
    }
    calls.left -= 1;
    io::Error::from(io::ErrorKind::Interrupted)
}

impl Read for InterruptedDevice {
    fn read(&mut self, _buffer: &mut [u8]) -> io::Result<usize> {
        Err(next_error(self))
    }
}

impl Write for InterruptedDevice {
    fn write(&mut self, _chunk: &[u8]) -> io::Result<usize> {
        Err(next_error(self))
    }

    fn flush(&mut self) -> io::Result<()> {
        Err(next_error(self))
    }
}

/// Whether this is the error of the last call.
fn is_broken(cause: Option<io::Error>) -> bool {
    match cause {
        Some(error) => error.kind() == io::ErrorKind::BrokenPipe,
        None => false,
    }
}

/// The number of bytes a call moved; nothing if it failed.
fn count_of(answer: io::Result<usize>) -> Option<usize> {
    match answer {
        Ok(count) => Some(count),
        Err(_) => None,
    }
}

/// Whether the next read into two bytes gives this many.
fn reads(reader: &mut KeepingReader<&[u8]>, count: usize) -> bool {
    let mut buffer = [0_u8; 2];
    count_of(reader.read(&mut buffer)) == Some(count)
}

/// Whether a reader of three bytes keeps what it reads.
fn keeps_what_it_reads(reader: &mut KeepingReader<&[u8]>) -> bool {
    reader.bytes_read().is_empty()
        && reads(reader, 2)
        && reads(reader, 1)
        && reads(reader, 0)
        && reader.bytes_read() == b"abc".as_slice()
        && reader.get_ref().is_empty()
        && !reader.has_lacked()
}

#[test]
fn a_reader_keeps_what_it_reads(rt: HostRuntime) {
    let bytes: &[u8] = b"abc";
    let mut reader = KeepingReader::new(rt.alloc(), bytes);
    assert!(rt; keeps_what_it_reads(&mut reader));
}

/// Whether a read fails.
fn fails_to_read(calls: &mut Retry<InterruptedDevice>) -> bool {
    let mut buffer = [0_u8; 2];
    count_of(calls.read(&mut buffer)).is_none()
}

/// Whether a read and a write fail, and the cause is then that of the last call.
fn are_tried_again(calls: &mut Retry<InterruptedDevice>) -> bool {
    let before = is_broken(calls.cause());
    let read = fails_to_read(calls) && is_broken(calls.cause());
    let written = count_of(calls.write(b"abc")).is_none() && is_broken(calls.cause());
    !before && read && written
}

#[test]
fn calls_are_tried_again(rt: HostRuntime) {
    let mut calls = Retry::new(InterruptedDevice { left: 3 });
    assert!(rt; are_tried_again(&mut calls));
}

/// Whether the next read fails, by the error of the last call or by another.
fn fails_by_the_last(calls: &mut Retry<InterruptedDevice>, last: bool) -> bool {
    fails_to_read(calls) && is_broken(calls.cause()) == last
}

/// Whether a flush fails, and the cause is then that of the last call.
fn fails_to_flush(calls: &mut Retry<InterruptedDevice>) -> bool {
    calls.flush().is_err() && is_broken(calls.cause())
}

#[test]
fn an_interrupted_flush_is_tried_again(rt: HostRuntime) {
    let mut calls = Retry::new(InterruptedDevice { left: 3 });
    assert!(rt; fails_to_flush(&mut calls));
}

#[test]
fn interruptions_have_a_bound(rt: HostRuntime) {
    let mut calls = Retry::new(InterruptedDevice { left: 16 });
    assert!(rt; fails_by_the_last(&mut calls, true));
    let mut more_calls = Retry::new(InterruptedDevice { left: 17 });
    assert!(rt; fails_by_the_last(&mut more_calls, false));
    assert!(rt; fails_by_the_last(&mut more_calls, true));
}

/// Whether the writer inside has taken these bytes, and no others.
fn has_taken(writer: &OutputBuffer<Vec<u8>>, wanted: &[u8]) -> bool {
    writer.get_ref().as_slice() == wanted
}

/// Whether a writer with a buffer of four bytes takes these, and the writer inside has then taken those.
fn takes(writer: &mut OutputBuffer<Vec<u8>>, bytes: &[u8], inside: &[u8]) -> bool {
    count_of(writer.write(bytes)) == Some(bytes.len()) && has_taken(writer, inside)
}

/// Whether it hands all on when it is flushed.
fn is_flushed(writer: &mut OutputBuffer<Vec<u8>>, inside: &[u8]) -> bool {
    writer.flush().is_ok() && has_taken(writer, inside)
}

/// Whether a writer with a buffer of four bytes passes bytes on when it has no more space, and when it is flushed.
fn gathers_all(writer: &mut OutputBuffer<Vec<u8>>) -> bool {
    takes(writer, b"abc", b"")
        && takes(writer, b"de", b"abc")
        && is_flushed(writer, b"abcde")
        && takes(writer, b"fghij", b"abcdefghij")
}

/// Whether there is such a writer.
fn gathers(alloc: Global) -> bool {
    match OutputBuffer::new(alloc, Vec::new(alloc), 4) {
        Ok(mut writer) => gathers_all(&mut writer),
        Err(_) => false,
    }
}

/// Whether a writer that could not hand its bytes on takes no more.
fn takes_no_more(writer: &mut OutputBuffer<InterruptedDevice>) -> bool {
    let taken = count_of(writer.write(b"abc")) == Some(3);
    let failed = writer.flush().is_err() && writer.empty().is_err();
    taken && failed && count_of(writer.write(b"d")).is_none()
}

/// Whether there is such a writer.
fn stays_failed(alloc: Global) -> bool {
    match OutputBuffer::new(alloc, InterruptedDevice { left: 0 }, 4) {
        Ok(mut writer) => takes_no_more(&mut writer),
        Err(_) => false,
    }
}

#[test]
fn a_writer_gathers_what_it_takes(rt: HostRuntime) {
    assert!(rt; gathers(rt.alloc()));
}

#[test]
fn nothing_is_taken_after_a_failure(rt: HostRuntime) {
    assert!(rt; stays_failed(rt.alloc()));
}

/// Whether a write is passed on.
fn is_write_passed_on(writer: &mut Retry<Vec<u8>>) -> bool {
    count_of(writer.write(b"abc")) == Some(3) && writer.cause().is_none()
}

/// Whether a read is passed on.
fn is_read_passed_on(reader: &mut Retry<&[u8]>) -> bool {
    let mut buffer = [0_u8; 2];
    count_of(reader.read(&mut buffer)) == Some(2) && buffer == *b"ab"
}

#[test]
fn bytes_are_passed_on(rt: HostRuntime) {
    let mut writer = Retry::new(Vec::new(rt.alloc()));
    assert!(rt; is_write_passed_on(&mut writer));
    let bytes: &[u8] = b"abc";
    let mut reader = Retry::new(bytes);
    assert!(rt; is_read_passed_on(&mut reader));
}
