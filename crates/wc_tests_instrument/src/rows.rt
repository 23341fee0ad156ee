//! The rows of a log, one by one.
use std::alloc::Global;
use wc_model::{ByteIn, Device};
use wc_record::{HeadKind, LogFault, Row, RowKind, Rows};

/// A log with a row of each kind, blank lines, quotes, and counts and moments at their ends.
const EACH_KIND: &[u8] =
    b"ms,kind,data\r\n\r\n0,C,-8388608\r\n\n5,L,0a5A0d\n\"5\",\"I\",\"fF01\"\n0000000000006,S,\n7,L,\n7,P,\n8,C,-0\n1099511627775,C,0008388607";

/// What a row brings: its kind in a letter, its number, and its bytes.
fn brought(kind: &RowKind) -> (u8, i64, &[u8]) {
    match kind {
        RowKind::Counts(counts) => (b'C', i64::from(*counts), b""),
        RowKind::Bytes(bytes) => (b'L', 0, bytes.as_slice()),
        RowKind::Inputs(inputs) => (b'I', i64::from(*inputs), b""),
        RowKind::Scan => (b'S', 0, b""),
        RowKind::Change => (b'P', 0, b""),
    }
}

/// What was read is a row of this number and this moment, and brings this.
fn is_row(
    next: &Result<Option<Row>, LogFault>,
    number: u32,
    ms: u64,
    wanted: (u8, i64),
    bytes: &[u8],
) -> bool {
    match next {
        Ok(Some(row)) => {
            let (kind, value, own) = brought(&row.kind);
            row.number == number && row.ms == ms && (kind, value) == wanted && own == bytes
        }
        _ => false,
    }
}

/// The next row has this number and this moment, and brings this.
fn is_next<R: ByteIn>(
    rows: &mut Rows<'_, R>,
    number: u32,
    ms: u64,
    wanted: (u8, i64),
    bytes: &[u8],
) -> bool {
    is_row(&rows.next(), number, ms, wanted, bytes)
}

/// No row is left, however often one is asked for.
fn has_ended<R: ByteIn>(rows: &mut Rows<'_, R>) -> bool {
    for _ in 0..3 {
        match rows.next() {
            Ok(None) => {}
            _ => return false,
        }
    }
    true
}

/// The rows are these: the number, the moment, the kind with its number, and the bytes of each.
fn are_rows<R: ByteIn>(rows: &mut Rows<'_, R>, wanted: &[(u32, u64, (u8, i64), &[u8])]) -> bool {
    for (number, ms, kind, bytes) in wanted {
        if !is_next(rows, *number, *ms, *kind, bytes) {
            return false;
        }
    }
    has_ended(rows)
}

/// The rows of a log are these, and its reader has not failed.
fn has_rows(alloc: Global, log: &[u8], wanted: &[(u32, u64, (u8, i64), &[u8])]) -> bool {
    let mut device = Device::new(log);
    let mut rows = Rows::new(alloc, &mut device);
    let right = are_rows(&mut rows, wanted);
    drop(rows);
    right && device.failures() == 0
}

#[test]
fn rows_of_each_kind(rt: HostRuntime) {
    let wanted = [
        (2, 0, (b'C', -8388608), b"".as_slice()),
        (3, 5, (b'L', 0), b"\nZ\r".as_slice()),
        (4, 5, (b'I', 0xff01), b"".as_slice()),
        (5, 6, (b'S', 0), b"".as_slice()),
        (6, 7, (b'L', 0), b"".as_slice()),
        (7, 7, (b'P', 0), b"".as_slice()),
        (8, 8, (b'C', 0), b"".as_slice()),
        (9, 1099511627775, (b'C', 8388607), b"".as_slice()),
    ];
    assert!(rt; has_rows(rt.alloc(), EACH_KIND, &wanted));
}

/// Rows with bytes, longer and shorter ones.
const BYTES: &[u8] = b"ms,kind,data\n0,L,0a5a0d\n0,L,41\n1,S,\n2,L,\n3,L,0d0d0d0d\n";

#[test]
fn rows_own_their_bytes(rt: HostRuntime) {
    let wanted = [
        (2, 0, (b'L', 0), b"\nZ\r".as_slice()),
        (3, 0, (b'L', 0), b"A".as_slice()),
        (4, 1, (b'S', 0), b"".as_slice()),
        (5, 2, (b'L', 0), b"".as_slice()),
        (6, 3, (b'L', 0), b"\r\r\r\r".as_slice()),
    ];
    assert!(rt; has_rows(rt.alloc(), BYTES, &wanted));
}

/// The head of the next row has this number; if it is one of bytes, these are borrowed with it.
fn is_next_head<R: ByteIn>(rows: &mut Rows<'_, R>, number: u32, bytes: Option<&[u8]>) -> bool {
    match rows.next_head() {
        Ok(Some(head)) => match bytes {
            Some(bytes) => matches!(head.kind, HeadKind::Bytes) && rows.bytes() == bytes,
            None => head.number == number && matches!(head.kind, HeadKind::Scan),
        },
        _ => false,
    }
}

/// What was read is a row that brings a request.
fn is_request(next: &Result<Option<Row>, LogFault>) -> bool {
    match next {
        Ok(Some(row)) => brought(&row.kind) == (b'L', 0, b"\nZ\r".as_slice()),
        _ => false,
    }
}

/// Heads and rows of the rest of one log, in turn.
fn is_rest_in_turn<R: ByteIn>(rows: &mut Rows<'_, R>) -> bool {
    is_next_head(rows, 3, Some(b"A"))
        && is_next_head(rows, 4, None)
        && is_next(rows, 5, 2, (b'L', 0), b"")
        && is_next_head(rows, 6, Some(b"\r\r\r\r"))
        && has_ended(rows)
}

/// Heads and rows of one log, in turn: a row that was read before keeps its bytes.
fn in_turn<R: ByteIn>(rows: &mut Rows<'_, R>) -> bool {
    let first = rows.next();
    let rest = is_rest_in_turn(rows);
    is_request(&first) && rest
}

/// Heads and rows of a log, in turn.
fn are_in_turn(alloc: Global, log: &[u8]) -> bool {
    let mut device = Device::new(log);
    let mut rows = Rows::new(alloc, &mut device);
    let right = in_turn(&mut rows);
    drop(rows);
    right
}

#[test]
fn heads_and_rows_in_turn(rt: HostRuntime) {
    assert!(rt; are_in_turn(rt.alloc(), BYTES));
}
