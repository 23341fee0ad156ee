//! The line over a writer that takes 25 bytes, or none.
use crate::instrument::at_rest;
use std::alloc::{AllocError, Global};
use wc_indicator::Indicator;
use wc_model::{ByteOut, FuseOut};
use wc_sma::{Line, WriteFault};

/// Feeds a chunk to the line.
fn feed<W: ByteOut>(
    line: &mut Line,
    chunk: &[u8],
    indicator: &mut Indicator,
    writer: &mut W,
) -> Result<(), WriteFault> {
    line.feed(chunk, indicator, writer)
}

/// The zero is set and answered, and 5 bytes of the answer to `W` are out; then the line has failed.
fn fails_at_the_second_answer(
    line: &mut Line,
    indicator: &mut Indicator,
    writer: &mut FuseOut,
) -> bool {
    let first = feed(line, b"\nZ\r\nW\r", indicator, writer) == Err(WriteFault);
    let written = writer.written() == b"\nZ1G       0.000kg \r\nZ1G ".as_slice();
    first && written && indicator.gross() == Some(0) && writer.failures() == 1
}

/// A tare that would be accepted is not acted on by a line that has failed, and nothing is written.
fn acts_no_more(line: &mut Line, indicator: &mut Indicator, writer: &mut FuseOut) -> bool {
    for _ in 0..4 {
        indicator.sample(42000);
    }
    let refused = feed(line, b"\nT\r", indicator, writer) == Err(WriteFault);
    refused && writer.written().len() == 25 && !indicator.tare_active()
}

/// Over a writer that takes 25 bytes.
fn over_25_bytes(alloc: Global) -> Result<bool, AllocError> {
    let mut writer = FuseOut::new(alloc, 100, 25)?;
    let Ok(mut indicator) = at_rest(alloc, 22000) else {
        return Ok(false);
    };
    let mut line = Line::new();
    let failed = fails_at_the_second_answer(&mut line, &mut indicator, &mut writer);
    Ok(failed && acts_no_more(&mut line, &mut indicator, &mut writer))
}

/// Over a writer that takes none, the first request is acted on, and nothing is written.
fn over_no_byte(alloc: Global) -> Result<bool, AllocError> {
    let mut writer = FuseOut::new(alloc, 0, 25)?;
    let Ok(mut indicator) = at_rest(alloc, 22000) else {
        return Ok(false);
    };
    let mut line = Line::new();
    let failed = feed(&mut line, b"\nZ\r\nT\r", &mut indicator, &mut writer) == Err(WriteFault);
    let zeroed = indicator.gross() == Some(0) && !indicator.tare_active();
    Ok(failed && zeroed && writer.written().is_empty() && writer.failures() == 1)
}

#[test]
fn a_feed_over_a_writer_of_25_bytes(rt: HostRuntime) {
    assert!(rt; over_25_bytes(rt.alloc()) == Ok(true));
}

#[test]
fn a_feed_over_a_writer_of_no_byte(rt: HostRuntime) {
    assert!(rt; over_no_byte(rt.alloc()) == Ok(true));
}
