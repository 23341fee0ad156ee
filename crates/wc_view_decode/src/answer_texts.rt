ghost use Rattle.std.specs.Prelude.{◌≡◌, ◌≤◌, ◌==◌, length};
ghost use Rattle.std.specs.List.{prefix_len};
ghost use Rattle.wc_view_decode.specs.declared.answer.LineAnswer.TheVariants.{Weight};
ghost use Rattle.wc_view_decode.specs.AnswerTexts.{answer_text, kind_text, motion_text, status_text, unit_text};
ghost use Rattle.wc_view_decode.specs.Formats.{Puts};

use crate::answer::{LineAnswer, WeightAnswer};
use wc_model::{Fault, put_bytes};
use wc_sma::{MassUnit, Status, WeightKind};

/// The symbol of a unit.
pub fn unit_text(unit: MassUnit) -> &'static str
    ensures { result.now ≡ unit_text unit }
{
    match unit {
        MassUnit::Gram => "g",
        MassUnit::Kilogram => "kg",
        MassUnit::Tonne => "t",
    }
}

/// Which weight it is, with a space before it and a comma after it.
pub fn kind_text(kind: WeightKind) -> &'static str
    ensures { result.now ≡ kind_text kind }
{
    match kind {
        WeightKind::Gross => " gross, ",
        WeightKind::Net => " net, ",
        WeightKind::Tare => " tare, ",
    }
}

/// Whether it moves.
pub fn motion_text(is_stable: bool) -> &'static str
    ensures { result.now ≡ motion_text is_stable }
{
    if is_stable { "stable" } else { "in motion" }
}

/// The status after a comma, or nothing if all is normal.
pub fn status_text(status: Status) -> &'static str
    ensures { result.now ≡ status_text status }
{
    match status {
        Status::Normal => "",
        Status::CentreOfZero => ", centre of zero",
        Status::Over => ", over",
        Status::Under => ", under",
        Status::NoSample => ", no sample",
        Status::ZeroRefused => ", zero refused",
        Status::TareRefused => ", tare refused",
    }
}

/// The number of leading spaces.
fn spaces_before(weight: &[u8]) -> usize
    ensures spaces { result ≡ prefix_len (λ byte. byte == 32) weight.now }
    ensures within { result ≤ length weight.now }
{
    weight.iter().take_while(|byte| **byte == b' ').count()
}

/// Appends the words for a weight to a text.
fn put_reading(text: &mut Vec<u8>, reading: &WeightAnswer) -> Result<(), Fault>
    ensures { Puts text.old text.new result (answer_text (Weight reading.now)) }
{
    let (_spaces, weight) = reading.weight.split_at(spaces_before(&reading.weight));
    put_bytes(text, weight)?;
    put_bytes(text, b" ")?;
    put_bytes(text, unit_text(reading.unit).as_bytes())?;
    put_bytes(text, kind_text(reading.kind).as_bytes())?;
    put_bytes(text, motion_text(reading.is_stable).as_bytes())?;
    put_bytes(text, status_text(reading.status).as_bytes())
}

/// Appends the words for an answer to a text. `Memory` is the only fault.
pub(crate) fn put_answer(text: &mut Vec<u8>, answer: &LineAnswer) -> Result<(), Fault>
    ensures { Puts text.old text.new result (answer_text answer.now) }
{
    match answer {
        LineAnswer::Weight(reading) => put_reading(text, reading),
        LineAnswer::NotUnderstood => put_bytes(text, b"not understood"),
    }
}
