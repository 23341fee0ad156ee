ghost use Rattle.std.specs.Prelude.{◌≡◌, ◌<◌, ◌-◌, ◌⊎◌, drop, length, min, replicate, take};
ghost use Rattle.wc_model.specs.Language.Views.{text_view};
ghost use Rattle.wc_scale.specs.About.{HasNoUnit, HasNothingOfPath, HasNothingOfUnit, IsPathStatus, IsPathReported, IsTooLong, IsUnitStatus, IsUnitReported, RefusesText, ReportsTooSmall, ReportsNoUnit, ReportsPath, ReportsUnit};

use crate::results::{
    DONE, NO_MEMORY, NO_UNIT, PathAnswer, Refusal, TOO_SMALL, UnitAnswer, of_fault, only,
};
use std::alloc::Global;
use wc_controller::load;
use wc_cost::Loaded;

/// Nothing of a unit.
fn no_unit(text: Refusal) -> UnitAnswer
    ensures text { result.text ≡ text }
    ensures nothing { HasNothingOfUnit result }
{
    UnitAnswer {
        text,
        units: 0,
        bound: 0,
        length: 0,
        name: [0; 32],
    }
}

/// The first 32 bytes of a name, and zeros after them.
fn name_buffer(name: &[u8]) -> [u8; 32]
    ensures name { take (min 32 (length name.now)) result ≡ take 32 name.now }
    ensures zeros { drop (min 32 (length name.now)) result
        ≡ replicate (32 - min 32 (length name.now)) 0 }
{
    let mut buffer = [0; 32];
    let count = 32_usize.min(name.len());
    buffer[..count].copy_from_slice(&name[..count]);
    buffer
}

/// What is reported about a unit of a loaded text.
fn unit_answer(loaded: &Loaded<'_>, unit: u32) -> UnitAnswer
    ensures reported { result.text.status ≡ 0
        → IsUnitReported (text_view loaded.now.source) unit result }
    ensures no_unit { result.text.status ≡ 10 → HasNoUnit (text_view loaded.now.source) unit }
    ensures status { (result.text.status ≡ 0) ⊎ (result.text.status ≡ 10) }
    ensures nothing { HasNothingOfUnit result }
{
    let units = loaded.units();
    let at = unit as usize;
    if at >= units {
        return no_unit(only(NO_UNIT));
    }
    let spelled = loaded.name(at).as_bytes();
    UnitAnswer {
        text: only(DONE),
        units: units.min(4294967295) as u32,
        bound: loaded.bound(at),
        length: 32_usize.min(spelled.len()) as u32,
        name: name_buffer(spelled),
    }
}

/// What is reported about a unit of a program's text, counted in text order from 0: its name, its bound, and the number of
/// units. The text is freed again.
pub fn about(alloc: Global, text: &[u8], unit: u32) -> UnitAnswer
    ensures reported { ReportsUnit text.now unit result }
    ensures no_unit { ReportsNoUnit text.now unit result.text }
    ensures status { IsUnitStatus result.text.status }
    ensures refused { RefusesText text.now result.text }
    ensures nothing { HasNothingOfUnit result }
{
    match load(alloc, text) {
        Ok(loaded) => unit_answer(&loaded, unit),
        Err(fault) => no_unit(of_fault(fault)),
    }
}

/// Nothing of a path, but the number of lines it has.
fn no_path(text: Refusal, length: u32) -> PathAnswer
    ensures text { result.text ≡ text }
    ensures length { result.length ≡ length }
{
    PathAnswer { text, length }
}

/// Puts the worst path of a unit of a loaded text into the buffer, if it fits.
fn path_answer(alloc: Global, loaded: &Loaded<'_>, unit: u32, buffer: &mut [u32]) -> PathAnswer
    ensures reported { result.text.status ≡ 0
        → IsPathReported (text_view loaded.now.source) unit buffer.new result }
    ensures kept { ¬ (result.text.status ≡ 0) → buffer.new ≡ buffer.old }
    ensures no_unit { result.text.status ≡ 10 → HasNoUnit (text_view loaded.now.source) unit }
    ensures too_small { result.text.status ≡ 11
        → IsTooLong (text_view loaded.now.source) unit buffer.old result }
    ensures status { ¬ (result.text.status ≡ 1) }
    ensures statuses { IsPathStatus result.text.status }
    ensures nothing { HasNothingOfPath result }
{
    let at = unit as usize;
    if at >= loaded.units() {
        return no_path(only(NO_UNIT), 0);
    }
    match loaded.worst_path(alloc, at) {
        Ok(lines) => {
            let length = lines.len().min(4294967295) as u32;
            if lines.len() > buffer.len() || lines.len() > 4294967295 {
                return no_path(only(TOO_SMALL), length);
            }
            buffer[..lines.len()].copy_from_slice(lines.as_slice());
            no_path(only(DONE), length)
        }
        Err(_) => no_path(only(NO_MEMORY), 0),
    }
}

/// The lines of a unit's worst path, put into the buffer, and their number. The text is freed again.
pub fn path(alloc: Global, text: &[u8], unit: u32, buffer: &mut [u32]) -> PathAnswer
    ensures reported { ReportsPath text.now unit buffer.new result }
    ensures kept { ¬ (result.text.status ≡ 0) → buffer.new ≡ buffer.old }
    ensures no_unit { ReportsNoUnit text.now unit result.text }
    ensures too_small { ReportsTooSmall text.now unit buffer.old result }
    ensures status { IsPathStatus result.text.status }
    ensures refused { RefusesText text.now result.text }
    ensures nothing { HasNothingOfPath result }
{
    match load(alloc, text) {
        Ok(loaded) => path_answer(alloc, &loaded, unit, buffer),
        Err(fault) => no_path(of_fault(fault), 0),
    }
}
