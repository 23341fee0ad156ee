//! Answers of the line over writers that are slow, or fail.
use crate::requests::at_rest;
use std::alloc::{AllocError, Global};
use wc_indicator::Indicator;
use wc_model::{ByteOut, Device, FuseOut};
use wc_sma::{Line, WriteFault};

/// A writer of a byte at a time is given all.
fn slow_is_given_all(alloc: Global) -> Result<bool, AllocError> {
    let mut writer = FuseOut::new(alloc, 1, 100)?;
    let Ok(mut indicator) = at_rest(alloc, 60000) else {
        return Ok(false);
    };
    let fed = Line::new().feed(b"\nW\r\n?\r", &mut indicator, &mut writer);
    let written = writer.written() == b"\n 1G       1.250kg \r\n?\r".as_slice();
    Ok(fed.is_ok() && written && writer.failures() == 0)
}

/// The line refuses to go on.
fn fails<W: ByteOut>(
    line: &mut Line,
    chunk: &[u8],
    indicator: &mut Indicator,
    writer: &mut W,
) -> bool {
    line.feed(chunk, indicator, writer) == Err(WriteFault)
}

/// A writer with space for 25 bytes fails at the second answer, and from then on: no later request is acted on.
fn fails_at_the_second_answer(line: &mut Line, indicator: &mut Indicator) -> bool {
    let mut buffer = [0; 25];
    let mut device = Device::new(buffer.as_mut_slice());
    let first = fails(line, b"\nW\r\nT\r\nC\r", indicator, &mut device);
    let tared = indicator.tare_active();
    let again = fails(line, b"\nC\r", indicator, &mut device);
    let failed = ByteOut::failures(&device) == 1;
    let written = buffer.as_slice() == b"\n 1G       1.250kg \r\n 1N ".as_slice();
    first && again && failed && written && tared && indicator.tare_active()
}

/// A line with a load on the scale fails so at the second answer.
fn fails_at_the_second_answer_at_rest(alloc: Global) -> bool {
    match at_rest(alloc, 60000) {
        Ok(mut indicator) => fails_at_the_second_answer(&mut Line::new(), &mut indicator),
        Err(_) => false,
    }
}

/// A writer that takes nothing fails once an answer comes; the request was acted on.
fn fails_once_an_answer_comes<W: ByteOut>(
    line: &mut Line,
    indicator: &mut Indicator,
    writer: &mut W,
) -> bool {
    let before = line.feed(b"garbage\nT", indicator, writer) == Ok(());
    let not_yet = !indicator.tare_active();
    let then = fails(line, b"\r\nC\r", indicator, writer);
    let empty = fails(line, b"", indicator, writer);
    before && not_yet && then && empty && indicator.tare_active() && writer.failures() == 1
}

/// A line with a load on the scale fails so once an answer comes.
fn fails_once_an_answer_comes_at_rest(alloc: Global) -> bool {
    let mut buffer = [0; 0];
    let mut device = Device::new(buffer.as_mut_slice());
    match at_rest(alloc, 60000) {
        Ok(mut indicator) => {
            fails_once_an_answer_comes(&mut Line::new(), &mut indicator, &mut device)
        }
        Err(_) => false,
    }
}

#[test]
fn a_slow_writer(rt: HostRuntime) {
    assert!(rt; slow_is_given_all(rt.alloc()) == Ok(true));
}

#[test]
fn a_writer_that_fails(rt: HostRuntime) {
    assert!(rt; fails_at_the_second_answer_at_rest(rt.alloc()));
}

#[test]
fn a_writer_that_takes_nothing(rt: HostRuntime) {
    assert!(rt; fails_once_an_answer_comes_at_rest(rt.alloc()));
}
