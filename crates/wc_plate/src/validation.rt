ghost use Rattle.std.specs.Prelude.{◌≡◌, ◌≤◌, ◌*◌, ◌*ℤ◌, ◌≤ℤ◌, ◌&&◌, pos, int_le, int_div, nat_le, is_some, IfSome, IsTrue};
ghost use Rattle.std.specs.List.{list_any};
ghost use Rattle.wc_model.specs.Instrument.Plates.{grams_of, allowed_intervals, least_sample, greatest_sample};
ghost use Rattle.wc_model.specs.Instrument.PlateTable as plate;
ghost use Rattle.wc_plate.specs.Broken.{Validates};
ghost use Rattle.wc_plate.specs.KeyFaults.{written_seen};

use crate::broken::BrokenRule;
use crate::kept::Plate;
use crate::keys::KeyValues;
use wc_model::{GREATEST_COUNTS, LEAST_COUNTS};

/// The line's three bytes for a unit.
fn line_unit(text: &str) -> Option<[u8; 3]>
    ensures { result ≡ plate.line_unit text.now }
{
    match text {
        "g" => Some(*b"g  "),
        "kg" => Some(*b"kg "),
        "t" => Some(*b"t  "),
        _ => None,
    }
}

/// A number from `low` to `high`.
fn between(low: u32, high: u32, number: i64) -> Option<u32>
    ensures fits { is_some result ≡ plate.is_between (pos low) (pos high) number }
    ensures same { IfSome result (λ x. (number ≡ pos x) × (low ≤ x) × (x ≤ high)) }
{
    let number = u32::try_from(number).ok()?;
    (low <= number && number <= high).then_some(number)
}

/// Counts that can be a sample.
fn sample(counts: i64) -> Option<i32>
    ensures fits { is_some result ≡ plate.is_between least_sample greatest_sample counts }
    ensures same { IfSome result (λ x. counts ≡ x) }
{
    let counts = i32::try_from(counts).ok()?;
    (LEAST_COUNTS <= counts && counts <= GREATEST_COUNTS).then_some(counts)
}

/// Whether this number of decimals allows the scale interval.
fn is_allowed(decimals: u32, e: i64) -> bool
    ensures allowed { result
        ≡ list_any (λ allowed. int_le e (pos allowed) && int_le (pos allowed) e)
        (allowed_intervals decimals) }
    ensures few { IsTrue result → (pos 1 ≤ℤ e) × (e ≤ℤ pos 50) }
{
    match e {
        1 | 2 | 5 => true,
        10 | 20 | 50 => decimals == 0 || decimals == 3,
        _ => false,
    }
}

/// A scale interval in grams, with 1 as one of the unit.
fn grams_in(unit: [u8; 3], e: i64) -> i64
    requires { (pos 0 ≤ℤ e) × (e ≤ℤ pos 50) }
    ensures { result ≡ e *ℤ pos (grams_of unit) }
{
    match &unit {
        b"t  " => e * 1000000,
        b"kg " => e * 1000,
        _ => e,
    }
}

/// A scale interval that is allowed and at least 5 g.
fn interval(unit: [u8; 3], decimals: u32, e: i64) -> Option<u32>
    requires { decimals ≤ 3 }
    ensures fits { is_some result ≡ plate.is_interval unit decimals e }
    ensures same { IfSome result (λ x. (e ≡ pos x) × (1 ≤ x) × (x ≤ 50)) }
{
    if is_allowed(decimals, e) && 5 * 10i64.pow(decimals) <= grams_in(unit, e) {
        Some(e as u32)
    } else {
        None
    }
}

/// Whether a scale interval is allowed with a unit, as the line writes it, and n decimals, 3 at most.
pub fn allows_interval(unit: [u8; 3], decimals: u32, e: i64) -> bool
    ensures { result ≡ (nat_le decimals 3 && plate.is_interval unit decimals e) }
{
    decimals <= 3 && interval(unit, decimals, e).is_some()
}

/// The number of intervals the greatest load is, if it is a whole number of them and in range. A load below
/// zero fails the range.
fn count(max: i64, e: u32) -> Option<u32>
    requires { 1 ≤ e }
    ensures fits { is_some result ≡ plate.is_count max (pos e) }
    ensures same { IfSome result
        (λ n. (max ≡ pos (n * e)) × (int_div max (pos e) ≡ pos n) × (n ≤ 10000)) }
{
    let (e, n) = (e as i64, max / e as i64);
    let is_count = max % e <= 0 && n >= 500 && n <= 10000;
    is_count.then_some(u32::try_from(n).ok()?)
}

/// The plate of what is written, or the first rule that it breaks.
pub(crate) fn validate_written(written: &KeyValues) -> Result<Plate, BrokenRule<'static>>
    ensures { Validates (written_seen written.now) result }
{
    let unit = line_unit(written.unit).ok_or(BrokenRule::Unit)?;
    let decimals = between(0, 3, written.decimals).ok_or(BrokenRule::Decimals)?;
    let e = interval(unit, decimals, written.e).ok_or(BrokenRule::Interval { unit, decimals })?;
    let Some(n) = count(written.max, e) else {
        return Err(BrokenRule::Load { e });
    };
    let zero_counts = sample(written.zero_counts).ok_or(BrokenRule::ZeroCounts)?;
    let Some(span_counts) = between(4 * n, 8000000, written.span_counts) else {
        return Err(BrokenRule::SpanCounts { n });
    };
    let window = between(2, 16, written.window).ok_or(BrokenRule::Window)?;
    Ok(Plate {
        unit,
        decimals,
        max: n * e,
        e,
        n,
        zero_counts,
        span_counts,
        window,
    })
}
