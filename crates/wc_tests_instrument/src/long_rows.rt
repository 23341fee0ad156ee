//! Rows with more than three fields: of such a row at most 65536 bytes are read.
use crate::logs::{refusal, rows_left};
use std::alloc::{AllocError, Global};
use wc_model::{ByteIn, FuseIn};
use wc_record::{LogFault, Rows};

/// N rows of a log come before this fault, and its reader, which fails after these bytes, failed so often.
fn ends_with(
    alloc: Global,
    head: &[u8],
    chunk: &[u8],
    times: u32,
    count: u32,
    fault: Option<LogFault>,
) -> bool {
    let mut device = FuseIn::new(head, chunk, times, true);
    let mut rows = Rows::new(alloc, &mut device);
    let (found, raised) = rows_left(&mut rows, 100);
    drop(rows);
    let failures = if fault == Some(LogFault::Read) { 1 } else { 0 };
    found == count && raised == fault && device.failures() == failures
}

/// How much of a log is read until it is refused at that row; 0 if it is not.
fn spent_until(alloc: Global, head: &[u8], chunk: &[u8], fault: Option<LogFault>) -> u64 {
    let mut device = FuseIn::new(head, chunk, 1000000, false);
    let mut rows = Rows::new(alloc, &mut device);
    let (_, raised) = rows_left(&mut rows, 100);
    drop(rows);
    if raised == fault { device.spent() } else { 0 }
}

/// A log's heading row, blank lines, and at that byte the start of a row that ends three fields.
fn row_at(alloc: Global, start: usize) -> Result<Vec<u8, Global>, AllocError> {
    let mut text = Vec::new(alloc);
    text.extend_from_slice(b"ms,kind,data\n")?;
    for _ in 13..start {
        text.extend_from_slice(b"\n")?;
    }
    text.extend_from_slice(b"0,S,,")?;
    Ok(text)
}

/// A row of commas that starts at that byte is cut.
fn is_cut_at(alloc: Global, start: usize) -> bool {
    match row_at(alloc, start) {
        Ok(text) => ends_with(alloc, &text, b",", 90000, 0, refusal(601, 2)),
        Err(_) => false,
    }
}

#[test]
fn a_row_of_commas(rt: HostRuntime) {
    let spent = spent_until(rt.alloc(), b"ms,kind,data\n0,S,\n", b",", refusal(601, 3));
    assert!(rt; spent > 0 && spent < 200000);
}

/// The fault of a row that is cut.
const CUT: Option<LogFault> = Some(LogFault::Refused {
    number: 601,
    place: 2,
});

/// The fault of a reader.
const FAILED: Option<LogFault> = Some(LogFault::Read);

/// What a log has: its head, what is after it and how often; and how it ends: after how many rows, and with which fault.
type Long = (
    &'static str,
    &'static [u8],
    &'static [u8],
    u32,
    u32,
    Option<LogFault>,
);

/// Logs with long rows.
const LONG: [Long; 8] = [
    (
        "a fault after what is read",
        b"ms,kind,data\n0,S,,",
        b"x",
        90000,
        0,
        CUT,
    ),
    (
        "a fault in a short row",
        b"ms,kind,data\n0,S,,",
        b"x",
        50000,
        0,
        FAILED,
    ),
    (
        "a fault in the third field",
        b"ms,kind,data\n0,L,",
        b"00",
        45000,
        0,
        FAILED,
    ),
    (
        "commas in quotes",
        b"ms,kind,data\n0,S,\"",
        b",",
        90000,
        0,
        FAILED,
    ),
    (
        "commas after quotes",
        b"ms,kind,data\n0,\"S,\",\"a\"\",\",",
        b"x",
        90000,
        0,
        CUT,
    ),
    (
        "lines in quotes",
        b"ms,kind,data\n0,\"S\r\n\",x,",
        b"x",
        90000,
        0,
        CUT,
    ),
    (
        "rows that end in two bytes",
        b"ms,kind,data\r\n",
        b"0,S,\r\n",
        50,
        50,
        FAILED,
    ),
    (
        "quotes after a mark",
        b"\xef\xbb\xbf\"m,s\",kind,data",
        b"x",
        90000,
        0,
        FAILED,
    ),
];

#[test]
fn logs_with_long_rows(rt: HostRuntime) {
    for (what, head, chunk, times, count, fault) in &LONG {
        assert!(rt;
            ends_with(rt.alloc(), head, chunk, *times, *count, *fault),
            "{what}"
        );
    }
}

#[test]
fn a_long_third_field(rt: HostRuntime) {
    assert!(rt; spent_until(rt.alloc(), b"ms,kind,data\n0,L,", b"00", refusal(606, 2)) > 80000);
}

#[test]
fn a_row_that_is_cut_at_the_buffers_end(rt: HostRuntime) {
    assert!(rt; is_cut_at(rt.alloc(), 8192));
}

#[test]
fn a_row_that_is_cut_after_the_buffers_end(rt: HostRuntime) {
    assert!(rt; is_cut_at(rt.alloc(), 8193));
}
