ghost use Rattle.std.specs.Prelude.{◌≡◌};
ghost use Rattle.wc_scale.specs.About.{HasNothingOfPath, HasNothingOfUnit, IsPathStatus, IsUnitStatus, RefusesText, ReportsTooSmall, ReportsNoUnit, ReportsPath, ReportsUnit};

use std::alloc::Global;
use wc_scale::{PathAnswer, UnitAnswer, about, path};

/// What is reported about a unit of a program's text, counted in text order from 0.
#[unsafe(no_mangle)]
pub extern "C" fn narbeddo_about(alloc: Global, text: &[u8], unit: u32) -> UnitAnswer
    ensures reported { ReportsUnit text.now unit result }
    ensures no_unit { ReportsNoUnit text.now unit result.text }
    ensures status { IsUnitStatus result.text.status }
    ensures refused { RefusesText text.now result.text }
    ensures nothing { HasNothingOfUnit result }
{
    about(alloc, text, unit)
}

/// The lines of a unit's worst path, put into the buffer.
#[unsafe(no_mangle)]
pub extern "C" fn narbeddo_path(
    alloc: Global,
    text: &[u8],
    unit: u32,
    buffer: &mut [u32],
) -> PathAnswer
    ensures reported { ReportsPath text.now unit buffer.new result }
    ensures kept { ¬ (result.text.status ≡ 0) → buffer.new ≡ buffer.old }
    ensures no_unit { ReportsNoUnit text.now unit result.text }
    ensures too_small { ReportsTooSmall text.now unit buffer.old result }
    ensures status { IsPathStatus result.text.status }
    ensures refused { RefusesText text.now result.text }
    ensures nothing { HasNothingOfPath result }
{
    path(alloc, text, unit, buffer)
}
