//! Requests on the line, and their answers.
use std::alloc::Global;
use wc_indicator::Indicator;
use wc_model::{Device, Fault};
use wc_plate::plate;
use wc_sma::{Line, Mode, RequestOutcome, answer};

/// The plate of 15 kg in steps of 5 g: 3000 intervals of 200 counts, and 4 samples in the window.
const FIFTEEN_KILOGRAMS: &[u8] =
    b"unit = \"kg\"\ndecimals = 3\nmax = 15000\ne = 5\nzero_counts = 10000\nspan_counts = 600000\nwindow = 4\n";

/// Requests among garbage: an LF that starts over, ESC, CR outside a request, unknown texts.
const STREAM: &[u8] =
    b"A\n\nW\r\nW\x1bW\r\r\n\r\nw\r\nWW\r\nT\rgarbage\nM\r\nZ\nC\r\x1b\nZ\r\n\n\r\n?\r\nT\x1b\n";

/// An indicator on which a load of these counts rests.
pub(crate) fn at_rest(alloc: Global, counts: i32) -> Result<Indicator, Fault> {
    let read = plate(alloc, FIFTEEN_KILOGRAMS)?;
    let mut indicator = Indicator::new(alloc, read)?;
    for _ in 0..4 {
        if counts >= -8388608 && counts <= 8388607 {
            indicator.sample(counts);
        }
    }
    Ok(indicator)
}

/// Appends to `out` what the line answers to a chunk, and says whether it could.
fn answers(line: &mut Line, indicator: &mut Indicator, chunk: &[u8], out: &mut Vec<u8>) -> bool {
    let mut device = Device::new(out);
    line.feed(chunk, indicator, &mut device).is_ok()
}

/// What the line answers to the stream if it comes in two chunks, the first of n bytes; nothing if it can't.
fn answers_in_chunks(alloc: Global, cut: usize) -> Vec<u8> {
    let mut out = Vec::new(alloc);
    if let (Ok(mut indicator), Some(first), Some(second)) = (
        at_rest(alloc, 20000),
        STREAM.get(..cut),
        STREAM.get(cut..),
    ) {
        let mut line = Line::new();
        let early = answers(&mut line, &mut indicator, first, &mut out);
        let late = answers(&mut line, &mut indicator, second, &mut out);
        if !early || !late {
            out.clear();
        }
    }
    out
}

/// However the stream is cut in two, it is answered as the whole is.
fn are_all_cuts_alike(alloc: Global) -> bool {
    let whole = answers_in_chunks(alloc, 0);
    for cut in 0..=STREAM.len() {
        let found = answers_in_chunks(alloc, cut);
        if found.as_slice() != whole.as_slice() {
            return false;
        }
    }
    whole.len() == 115
}

/// With a load of 1.250 kg the answer in this mode to this is these bytes.
fn is_answer(alloc: Global, mode: Mode, asked: RequestOutcome, wanted: &[u8; 20]) -> bool {
    match at_rest(alloc, 60000) {
        Ok(indicator) => answer(&indicator, mode, asked) == *wanted,
        Err(_) => false,
    }
}

/// The line says which request is open, and the indicator at which loads it was zeroed and tared and what its window holds.
fn are_both_known(line: &Line, indicator: &Indicator) -> bool {
    let open = match line.open_request() {
        Some(text) => text.as_slice() == b"??".as_slice(),
        None => false,
    };
    let loads = indicator.zero_load() == Some(11000) && indicator.tare_load() == Some(71000);
    open && loads && indicator.window().as_slice() == [71000; 4].as_slice()
}

/// After a zero at 11000 counts, a tare at 71000 and a request that is open, the indicator and the line say so.
fn is_state_reported(line: &mut Line, indicator: &mut Indicator, out: &mut Vec<u8>) -> bool {
    let zeroed = answers(line, indicator, b"\nZ\r", out);
    for _ in 0..4 {
        indicator.sample(71000);
    }
    let tared = answers(line, indicator, b"\nT\r\nWx", out);
    zeroed && tared && are_both_known(line, indicator)
}

/// Whether the state of a line and of an indicator at 11000 counts is reported.
fn is_state_reported_at_rest(alloc: Global) -> bool {
    match at_rest(alloc, 11000) {
        Ok(mut indicator) => {
            is_state_reported(&mut Line::new(), &mut indicator, &mut Vec::new(alloc))
        }
        Err(_) => false,
    }
}

#[test]
fn a_state_is_reported(rt: HostRuntime) {
    assert!(rt; is_state_reported_at_rest(rt.alloc()));
}

#[test]
fn streams_are_cut_anywhere(rt: HostRuntime) {
    assert!(rt; are_all_cuts_alike(rt.alloc()));
}

/// Answers, each after the mode and what is asked for.
const ANSWERS: [(Mode, RequestOutcome, &[u8; 20]); 3] = [
    (
        Mode::Shown,
        RequestOutcome::Plain,
        b"\n 1G       1.250kg \r",
    ),
    (
        Mode::Tare,
        RequestOutcome::ZeroRefused,
        b"\nE1T       0.000kg \r",
    ),
    (
        Mode::Shown,
        RequestOutcome::TareRefused,
        b"\nT1G       1.250kg \r",
    ),
];

#[test]
fn one_answer(rt: HostRuntime) {
    for (mode, asked, wanted) in &ANSWERS {
        assert!(rt; is_answer(rt.alloc(), *mode, *asked, wanted));
    }
}
