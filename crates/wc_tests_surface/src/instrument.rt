//! The calls of the plate, the indicator and the line's answers.
ghost use Rattle.std.specs.Prelude.{◌≤ℤ◌, pos};

use std::alloc::Global;
use wc_indicator::{Indicator, Refused};
use wc_model::{Fault, Image};
use wc_plate::{Plate, plate};
use wc_record::image;
use wc_sma::{Mode, RequestOutcome, answer};

/// A scale of 15 kg with intervals of 5 g, 200 counts each.
pub(crate) const PLATE: &[u8] =
    b"unit = \"kg\"\ndecimals = 3\nmax = 15000\ne = 5\nzero_counts = 10000\nspan_counts = 600000\nwindow = 4\n";

/// A plate's text as a plate.
pub(crate) fn plate_of(alloc: Global, text: &[u8]) -> Result<Plate, Fault> {
    plate(alloc, text)
}

/// The readers of a plate.
fn has_its_keys(plate: &Plate) -> bool {
    let unit: [u8; 3] = plate.unit();
    let format: (i32, i32, i32, i32) = (plate.decimals(), plate.max(), plate.e(), plate.n());
    let counts: (i32, i32, i32) = (plate.zero_counts(), plate.span_counts(), plate.window());
    unit == *b"kg " && format == (3, 15000, 5, 3000) && counts == (10000, 600000, 4)
}

/// An indicator of the plate with four samples of these counts.
pub(crate) fn at_rest(alloc: Global, counts: i32) -> Result<Indicator, Fault>
    requires { (pos 0 ≤ℤ counts) × (counts ≤ℤ pos 8388607) }
{
    let plate = match plate(alloc, PLATE) {
        Ok(plate) => plate,
        Err(fault) => return Err(fault),
    };
    match Indicator::new(alloc, plate) {
        Ok(mut indicator) => {
            for _ in 0..4 {
                indicator.sample(counts);
            }
            Ok(indicator)
        }
        Err(fault) => Err(fault),
    }
}

/// Its readers at 1.250 kg.
fn reads(indicator: &Indicator) -> bool {
    let weights: (Option<i32>, Option<i32>, Option<i32>) = (
        indicator.gross(),
        indicator.net(),
        indicator.shown(),
    );
    let tare: (i32, bool) = (indicator.tare_value(), indicator.tare_active());
    let states: (bool, bool, bool) = (indicator.stable(), indicator.over(), indicator.under());
    let valid: (bool, bool) = (indicator.centre(), indicator.valid());
    let values = weights == (Some(1250), Some(1250), Some(1250)) && tare == (0, false);
    values && states == (true, false, false) && valid == (false, true)
}

/// What a scan sees, and the line's answer of 20 bytes.
fn is_seen(indicator: &Indicator) -> bool {
    let seen: Image = image(indicator, 3);
    let bytes: [u8; 20] = answer(indicator, Mode::Shown, RequestOutcome::Plain);
    let format = *b"\n 1G       1.250kg \r";
    let plate: &Plate = indicator.plate();
    seen.inputs == 3 && seen.weights == [1250, 1250, 0] && bytes == format && plate.e() == 5
}

/// Zero is too far away, the tare is set and cleared.
fn takes_commands(indicator: &mut Indicator) -> bool {
    let zero: Result<(), Refused> = indicator.set_zero();
    let tare: Result<(), Refused> = indicator.set_tare();
    let tared = indicator.tare_value() == 1250 && indicator.net() == Some(0);
    indicator.clear_tare();
    zero == Err(Refused::Range) && tare == Ok(()) && tared && !indicator.tare_active()
}

/// The calls of an indicator in turn.
fn indicates(alloc: Global) -> bool {
    match at_rest(alloc, 60000) {
        Ok(mut indicator) => {
            reads(&indicator) && is_seen(&indicator) && takes_commands(&mut indicator)
        }
        Err(_) => false,
    }
}

#[test]
fn the_instrument_answers(rt: HostRuntime) {
    match plate_of(rt.alloc(), PLATE) {
        Ok(plate) => assert!(rt; has_its_keys(&plate)),
        Err(_) => assert!(rt; false),
    }
    assert!(rt; indicates(rt.alloc()));
}
