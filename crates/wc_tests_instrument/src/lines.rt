//! The lines of the report.
use std::alloc::Global;
use wc_model::{Outputs, Steps, put_bytes};
use wc_report::{put_answer_line, put_hex, put_number, put_scan_line, put_signed};

/// Outputs with these bits and words.
fn outputs(bits: u16, words: [i32; 4]) -> Outputs {
    Outputs { bits, words }
}

/// The lines and parts of lines that are put.
const LINES: &[u8] =
    b"L 1 0a\nS 18446744073709551615 4294967295 a0f5 -2147483648 -2147483648 -2147483648 -2147483648\nL 7 0a3f0d\nV 18446744073709551615-900ff";

/// Lines and parts of lines are put, and then there.
fn are_put(text: &mut Vec<u8>) -> bool {
    let longest = outputs(0xa0f5, [-2147483648; 4]);
    put_scan_line(text, u64::MAX, Steps(u32::MAX), &longest).is_ok()
        && put_answer_line(text, 7, b"\n?\r").is_ok()
        && put_bytes(text, b"V ").is_ok()
        && put_number(text, u64::MAX).is_ok()
        && put_signed(text, -9).is_ok()
        && put_hex(text, &[0, 255]).is_ok()
        && text.as_slice() == LINES
}

/// Lines and parts of lines are put after a text.
fn are_lines_after_a_text(alloc: Global) -> bool {
    match Vec::from_slice(alloc, b"L 1 0a\n") {
        Ok(mut text) => are_put(&mut text),
        Err(_) => false,
    }
}

#[test]
fn lines_come_after_a_text(rt: HostRuntime) {
    assert!(rt; are_lines_after_a_text(rt.alloc()));
}
