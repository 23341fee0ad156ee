//! What a job is read into, and its sections.
use std::alloc::Global;
use wc_job::{ReadFault, read_whole, sections};
use wc_model::{ByteIn, Device, FuseIn};

/// The text is read as it is.
fn is_read(alloc: Global, text: &[u8]) -> bool {
    let mut device = Device::new(text);
    match read_whole(alloc, &mut device) {
        Ok(bytes) => bytes.as_slice() == text && device.failures() == 0,
        Err(_) => false,
    }
}

/// As many letters as a test wants in one chunk.
static LETTERS: [u8; 5000] = [b'x'; 5000];

/// A reader of a head of n letters, then n times a chunk of n, which then ends or fails.
fn letters(head: usize, chunk: usize, times: u32, fails: bool) -> Option<FuseIn<'static>> {
    match (LETTERS.get(..head), LETTERS.get(..chunk)) {
        (Some(head), Some(chunk)) => Some(FuseIn::new(head, chunk, times, fails)),
        _ => None,
    }
}

/// The number of bytes a reader still gives.
fn bytes_after(reader: &mut FuseIn<'_>) -> usize {
    let mut buffer = [0; 16];
    match reader.read(&mut buffer) {
        Ok(count) => count,
        Err(_) => 0,
    }
}

/// N bytes of the reader are read, and none are after them.
fn reads(alloc: Global, reader: Option<FuseIn<'_>>, count: usize) -> bool {
    let Some(mut reader) = reader else {
        return false;
    };
    match read_whole(alloc, &mut reader) {
        Ok(bytes) => bytes.len() == count
            && reader.failures() == 0
            && bytes_after(&mut reader) == 0,
        Err(_) => false,
    }
}

/// What a fault is called.
fn fault_name(fault: ReadFault) -> &'static str {
    match fault {
        ReadFault::TooLong => "too long",
        ReadFault::Read => "read",
        ReadFault::Memory => "memory",
    }
}

/// The reader is refused so; it failed so often, and n bytes are left after what was read.
fn refuses(
    alloc: Global,
    reader: Option<FuseIn<'_>>,
    fault: &str,
    failures: u64,
    following: usize,
) -> bool {
    let Some(mut reader) = reader else {
        return false;
    };
    match read_whole(alloc, &mut reader) {
        Ok(_) => false,
        Err(raised) => fault_name(raised) == fault
            && reader.failures() == failures
            && bytes_after(&mut reader) == following,
    }
}

/// Bytes that are read as they are.
const KNOWN: [&[u8]; 3] = [b"", b"@plate\n", b"\0\r\n\xff"];

#[test]
fn known_bytes(rt: HostRuntime) {
    for text in &KNOWN {
        assert!(rt; is_read(rt.alloc(), text));
    }
}

/// Readers of letters that end, each with the number of bytes that are read.
const CHUNKS: [(usize, usize, u32, usize); 3] = [
    (4, 7, 1428, 10000),
    (0, 5000, 2, 10000),
    (3576, 5000, 209, 1048576),
];

#[test]
fn chunks_up_to_the_longest(rt: HostRuntime) {
    for (head, chunk, times, count) in &CHUNKS {
        assert!(rt; reads(rt.alloc(), letters(*head, *chunk, *times, false), *count));
    }
}

/// Readers of more letters than a job may have, each with whether it fails then and the number of bytes that are left.
const TOO_LONG: [(usize, usize, u32, bool, usize); 3] = [
    (3577, 5000, 209, false, 0),
    (580, 4000, 262, false, 3),
    (577, 4000, 262, true, 0),
];

#[test]
fn a_job_that_is_too_long_is_read_no_further(rt: HostRuntime) {
    for (head, chunk, times, fails, following) in &TOO_LONG {
        let reader = letters(*head, *chunk, *times, *fails);
        assert!(rt; refuses(rt.alloc(), reader, "too long", 0, *following));
    }
}

/// Readers of letters that fail after them.
const FAILING: [(usize, usize, u32); 3] = [(0, 5, 1000), (0, 0, 0), (576, 4000, 262)];

#[test]
fn a_reader_of_a_job_that_fails(rt: HostRuntime) {
    for (head, chunk, times) in &FAILING {
        assert!(rt;
            refuses(
                rt.alloc(),
                letters(*head, *chunk, *times, true),
                "read",
                1,
                0
            )
        );
    }
}

/// The job has these sections.
fn are_sections(job: &[u8], plate: &[u8], program: &[u8], log: &[u8]) -> bool {
    match sections(job) {
        Ok(found) => found.plate == plate && found.program == program && found.log == log,
        Err(_) => false,
    }
}

/// Jobs, each with its plate, its program and its log.
const JOBS: [(&[u8], &[u8], &[u8], &[u8]); 5] = [
    (
        b"@plate\na = 1\n@program\nP\n@log\nms\n0\n",
        b"a = 1\n",
        b"P\n",
        b"ms\n0\n",
    ),
    (
        b"@plate\r\na\r\n@program\r\nP\r\n@log\r\nms\r\n0",
        b"a\r\n",
        b"P\r\n",
        b"ms\r\n0",
    ),
    (
        b"@plate\n@log\n@plate\n@program\r\n@program\n@log\n@log\n@program\n",
        b"@log\n@plate\n",
        b"@program\n",
        b"@log\n@program\n",
    ),
    (b"@plate\n@program\n@log\n", b"", b"", b""),
    (
        b"@plate\n @program\n@program \n@program\r\r\n@program\n\n@log\n@log",
        b" @program\n@program \n@program\r\r\n",
        b"\n",
        b"@log",
    ),
];

#[test]
fn three_sections(rt: HostRuntime) {
    for (job, plate, program, log) in &JOBS {
        assert!(rt; are_sections(job, plate, program, log));
    }
}

/// The job has these two programs, and this log.
fn are_programs(job: &[u8], program: &[u8], next: Option<&[u8]>, log: &[u8]) -> bool {
    match sections(job) {
        Ok(found) => found.program == program && found.next == next && found.log == log,
        Err(_) => false,
    }
}

#[test]
fn next_section(rt: HostRuntime) {
    let plain = b"@plate\n@program\nP\n@next\nQ\n@log\nms\n";
    assert!(rt; are_programs(plain, b"P\n", Some(b"Q\n"), b"ms\n"));
    let twice = b"@plate\n@next\n@program\n@next\r\n@next\n@log\n@next\n";
    assert!(rt; are_programs(twice, b"", Some(b"@next\n"), b"@next\n"));
    let alongside = b"@plate\n@program\n @next\n@next \n@log\n@next\n";
    assert!(rt; are_programs(alongside, b" @next\n@next \n", None, b"@next\n"));
}
