ghost use Rattle.std.specs.Prelude.{◌≡◌, ◌≤◌, ◌-◌};
ghost use Rattle.wc_model.specs.Language.Blocks.{elapsed, preset};

/// The preset time: PT, or 0 if it is negative.
#[inline(always)]
pub(crate) fn preset(pt: i32) -> u64
    ensures { result ≡ preset pt }
{
    if pt < 0 { 0 } else { pt as u64 }
}

/// The time since a moment, up to the preset time.
#[inline(always)]
pub(crate) fn elapsed(pt: i32, start: u64, now: u64) -> i32
    requires { start ≤ now }
    ensures { result ≡ elapsed pt start now }
{
    if pt < 0 {
        0
    } else if now - start < pt as u64 {
        (now - start) as i32
    } else {
        pt
    }
}
