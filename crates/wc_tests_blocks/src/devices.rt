//! Readers and writers that count, numbers that wrap, words without letter case, and what faults say.
use std::alloc::Global;
use std::io;
use std::io::{Read, Write};
use wc_model::{ByteIn, ByteOut, Device, Fault, WriteFault, is_word, wrap32};

/// A reader and writer whose calls all fail.
#[derive(Drop)]
struct BrokenDevice;

impl Read for BrokenDevice {
    fn read(&mut self, _buffer: &mut [u8]) -> io::Result<usize> {
        Err(io::Error::from(io::ErrorKind::BrokenPipe))
    }
}

impl Write for BrokenDevice {
    fn write(&mut self, _chunk: &[u8]) -> io::Result<usize> {
        Err(io::Error::from(io::ErrorKind::BrokenPipe))
    }

    fn flush(&mut self) -> io::Result<()> {
        Ok(())
    }
}

/// A writer that takes nothing.
#[derive(Drop)]
struct Full;

impl Write for Full {
    fn write(&mut self, _chunk: &[u8]) -> io::Result<usize> {
        Ok(0)
    }

    fn flush(&mut self) -> io::Result<()> {
        Ok(())
    }
}

/// The number of bytes a read gives; nothing if it fails.
fn count_read<R: ByteIn>(reader: &mut R, buffer: &mut [u8]) -> Option<usize> {
    match reader.read(buffer) {
        Ok(count) => Some(count),
        Err(_) => None,
    }
}

/// The number of bytes of a chunk a write takes; nothing if it fails.
fn count_written<W: ByteOut>(writer: &mut W, chunk: &[u8]) -> Option<usize> {
    match writer.write(chunk) {
        Ok(count) => Some(count),
        Err(_) => None,
    }
}

/// Three bytes are read in two chunks, and each call and byte is counted.
fn are_read_and_counted() -> bool {
    let text: &[u8] = b"abc";
    let mut device = Device::new(text);
    let mut buffer = [0; 2];
    let first = count_read(&mut device, &mut buffer) == Some(2) && buffer == [97, 98];
    let rest = count_read(&mut device, &mut buffer) == Some(1)
        && count_read(&mut device, &mut buffer) == Some(0);
    first && rest && device.spent() == 6 && ByteIn::failures(&device) == 0
}

/// A reader that fails twice has failed twice.
fn failed_reads_are_reported() -> bool {
    let mut device = Device::new(BrokenDevice);
    let mut buffer = [0; 2];
    let failed = count_read(&mut device, &mut buffer).is_none()
        && count_read(&mut device, &mut buffer).is_none();
    failed && ByteIn::failures(&device) == 2 && device.spent() == 2
}

/// Three bytes are written in two chunks.
fn are_written(alloc: Global) -> bool {
    let mut device = Device::new(Vec::new(alloc));
    let written = count_written(&mut device, b"ab") == Some(2)
        && count_written(&mut device, b"c") == Some(1);
    written && ByteOut::failures(&device) == 0 && device.get_ref().as_slice() == b"abc".as_slice()
}

/// A writer that fails, and one that takes none of a byte, have failed; to take nothing of nothing is not a failure.
fn failed_writes_are_reported() -> bool {
    let mut broken = Device::new(BrokenDevice);
    let failed = count_written(&mut broken, b"a").is_none() && ByteOut::failures(&broken) == 1;
    let mut full = Device::new(Full);
    let none = count_written(&mut full, b"a") == Some(0)
        && count_written(&mut full, b"") == Some(0);
    failed && none && ByteOut::failures(&full) == 1
}

/// Whether a writer's fault says these words of itself.
fn write_fault_says(alloc: Global, words: &str) -> bool {
    let fault = WriteFault;
    match format!(in alloc; "{fault}") {
        Ok(said) => said.as_bytes() == words.as_bytes(),
        Err(_) => false,
    }
}

/// Whether a fault says these words of itself.
fn says(alloc: Global, fault: Fault, words: &str) -> bool {
    match format!(in alloc; "{fault}") {
        Ok(said) => said.as_bytes() == words.as_bytes(),
        Err(_) => false,
    }
}

#[test]
fn faults_say_what_they_are(rt: HostRuntime) {
    let refused = Fault::Refused {
        number: 403,
        place: 6,
    };
    assert!(rt; says(rt.alloc(), refused, "refused 403 6"));
    assert!(rt; says(rt.alloc(), Fault::Memory, "out of memory"));
    assert!(rt; write_fault_says(rt.alloc(), "write fault"));
}

#[test]
fn numbers_wrap(rt: HostRuntime) {
    assert!(rt; wrap32(2147483647) == 2147483647 && wrap32(2147483648) == -2147483648);
    assert!(rt; wrap32(-2147483649) == 2147483647 && wrap32(1 << 40) == 0 && wrap32(-7) == -7);
}

#[test]
fn words_have_no_letter_case(rt: HostRuntime) {
    assert!(rt; is_word(b"End_Var", b"END_VAR") && is_word(b"", b""));
    assert!(rt;
        !is_word(b"END_VA", b"END_VAR") && !is_word(b"END-VAR", b"END_VAR") && !is_word(b"@", b"`")
    );
}

#[test]
fn bytes_are_read_and_counted(rt: HostRuntime) {
    assert!(rt; are_read_and_counted());
}

#[test]
fn failed_reads_are_counted(rt: HostRuntime) {
    assert!(rt; failed_reads_are_reported());
}

#[test]
fn bytes_are_written(rt: HostRuntime) {
    assert!(rt; are_written(rt.alloc()));
}

#[test]
fn failed_writes_are_counted(rt: HostRuntime) {
    assert!(rt; failed_writes_are_reported());
}
