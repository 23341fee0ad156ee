ghost use Rattle.std.specs.Prelude.{◌≡◌, ◌≤◌, ◌^◌, ◌<◌, ◌*ℤ◌, ◌*◌, pos, unsigned_abs};
ghost use Rattle.wc_model.specs.Instrument.Rounding.{nearest, nearest_above_zero};

/// The number of spans `amount` comes to, to the nearest, a tie upward.
fn nearest_above_zero(amount: u64, span: u32) -> u64
    requires amount { amount < 2 ^ 60 }
    requires span { 0 < span }
    ensures { result ≡ nearest_above_zero amount span }
{
    let span = u64::from(span);
    (2 * amount + span) / (2 * span)
}

/// Counts as a whole number of intervals, of which the span has n: the nearest, a tie away from zero.
pub(crate) fn intervals(counts: i32, n: u32, span: u32) -> i64
    requires count { n ≤ 10000 }
    requires span { (0 < span) × (n ≤ span) }
    ensures nearest { result ≡ nearest (counts *ℤ pos n) span }
    ensures few { unsigned_abs result ≤ unsigned_abs counts }
{
    let magnitude = u64::from(counts.unsigned_abs());
    let distance = nearest_above_zero(magnitude * u64::from(n), span) as i64;
    if counts < 0 { -distance } else { distance }
}
