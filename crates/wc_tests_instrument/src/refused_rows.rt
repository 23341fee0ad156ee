//! The row that is reported if a log is refused: the line on which it starts, and its fields.
use crate::logs::rows_left;
use std::alloc::Global;
use wc_model::Device;
use wc_record::{RefusedRow, Rows};

/// The row at which a log ends.
fn last_row(alloc: Global, text: &[u8]) -> RefusedRow {
    let mut reported = RefusedRow::new(alloc);
    let mut device = Device::new(text);
    let mut rows = Rows::new(alloc, &mut device);
    let _left = rows_left(&mut rows, 100);
    rows.report(alloc, &mut reported);
    drop(rows);
    reported
}

/// It starts on that line, has n fields, and its last field is this.
fn is_reported(alloc: Global, text: &[u8], line: u32, count: usize, last: &[u8]) -> bool {
    let reported = last_row(alloc, text);
    let field = reported.field(count.saturating_sub(1)).unwrap_or_default();
    reported.line() == line && reported.len() == count && field == last
}

/// Logs, each with the line, the number of fields and the last field of the row at which it ends.
const REPORTED: [(&[u8], u32, usize, &[u8]); 6] = [
    (b"", 1, 0, b""),
    (b"ms,kind,data\n\n0,S\n", 3, 2, b"S"),
    (b"ms,kind,data\r\n\r\n0,S,x\r\n1,S,\r\n", 3, 3, b"x"),
    (b"ms,kind,data\n0,S,\"x\ny\"\n", 2, 3, b"x\ny"),
    (b"ms,kind,data\n0,S,\"x\n", 2, 3, b"x\n"),
    (b"ms,kind,data\n0,X,", 2, 3, b""),
];

#[test]
fn a_refused_row_is_reported(rt: HostRuntime) {
    for (text, line, count, last) in &REPORTED {
        assert!(rt; is_reported(rt.alloc(), text, *line, *count, last));
    }
}
