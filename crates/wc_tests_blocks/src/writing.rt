//! All of a text is written, and the devices that fail in tests.
use std::alloc::Global;
use wc_model::{ByteIn, ByteOut, FuseIn, FuseOut, WriteFault, write_whole};

/// Whether a text is written so by a writer, and these bytes are then there.
fn writes(writer: &mut FuseOut, answer: Result<(), WriteFault>, written: &[u8]) -> bool {
    let given = write_whole(writer, b"S 0 2 0");
    let failures = if answer.is_ok() { 0 } else { 1 };
    given == answer && writer.failures() == failures && writer.written() == written
}

/// Whether a text is written so by a writer of n bytes a call and in all, and these bytes are then there.
fn is_written(
    alloc: Global,
    per_call: usize,
    in_all: usize,
    answer: Result<(), WriteFault>,
    written: &[u8],
) -> bool {
    match FuseOut::new(alloc, per_call, in_all) {
        Ok(mut writer) => writes(&mut writer, answer, written),
        Err(_) => false,
    }
}

/// Whether the next read gives this chunk.
fn gives(reader: &mut FuseIn<'_>, chunk: &[u8]) -> bool {
    let mut buffer = [0; 2];
    match reader.read(&mut buffer) {
        Ok(count) => buffer.get(..count) == Some(chunk),
        Err(_) => false,
    }
}

/// A reader of a head and of two chunks gives them.
fn gives_its_chunks(reader: &mut FuseIn<'_>) -> bool {
    let first = gives(reader, b"ab") && gives(reader, b"xy") && gives(reader, b"z");
    first && gives(reader, b"xy") && gives(reader, b"z") && reader.failures() == 0
}

/// A reader fails, twice as it is asked twice.
fn fails_twice(reader: &mut FuseIn<'_>) -> bool {
    let mut buffer = [0; 2];
    reader.read(&mut buffer).is_err() && reader.read(&mut buffer).is_err()
}

/// A reader of a head and of two chunks, which then fails, twice as it is asked twice.
fn gives_its_chunks_and_fails() -> bool {
    let mut reader = FuseIn::new(b"ab", b"xyz", 2, true);
    let given = gives_its_chunks(&mut reader);
    let failed = fails_twice(&mut reader);
    given && failed && reader.failures() == 2 && reader.spent() == 15
}

/// A reader of nothing that ends.
fn ends() -> bool {
    let mut reader = FuseIn::new(b"", b"", 3, false);
    gives(&mut reader, b"") && reader.failures() == 0 && reader.spent() == 1
}

#[test]
fn all_of_a_text_is_written(rt: HostRuntime) {
    assert!(rt; is_written(rt.alloc(), 1, 7, Ok(()), b"S 0 2 0"));
}

#[test]
fn a_prefix_is_written_before_a_fault(rt: HostRuntime) {
    assert!(rt; is_written(rt.alloc(), 2, 5, Err(WriteFault), b"S 0 2"));
    assert!(rt; is_written(rt.alloc(), 0, 5, Err(WriteFault), b""));
}

#[test]
fn a_fuse_gives_its_chunks_and_fails(rt: HostRuntime) {
    assert!(rt; gives_its_chunks_and_fails());
}

#[test]
fn a_fuse_ends(rt: HostRuntime) {
    assert!(rt; ends());
}
