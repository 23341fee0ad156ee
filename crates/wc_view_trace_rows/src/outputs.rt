ghost use Rattle.std.specs.Prelude.{◌≡◌, ◌∷◌, option_to_list, map};
ghost use Rattle.wc_view_trace_rows.specs.Items.{IsNumberAt};
ghost use Rattle.wc_view_trace_rows.specs.Rows.{output_view, outputs_of, value_held};

use wc_machine::Machine;
use wc_model::{Kind, Place, StandardBlock, Value};
use wc_store::SlotStore;

/// An output of a standard block: its place among those of an instance, counted from 0, its name in capital letters, as the
/// standard has it, and its kind.
#[derive(Clone, Copy)]
pub struct BlockOutput {
    pub number: u16,
    pub name: &'static str,
    pub kind: Kind,
}

/// The outputs of a standard block, in the order of their places (IEC 61131-3:2003, 2.5.2.3).
pub fn outputs_of(block: StandardBlock) -> (BlockOutput, Option<BlockOutput>)
    ensures { output_view result.0 ∷ map output_view (option_to_list result.1) ≡ outputs_of block }
{
    let output = |number, name, kind| BlockOutput { number, name, kind };
    let bit = Kind::Bool;
    match block {
        StandardBlock::RTrig => (output(1, "Q", bit), None),
        StandardBlock::Sr | StandardBlock::Rs => (output(2, "Q1", bit), None),
        StandardBlock::Ctu => (output(3, "Q", bit), Some(output(4, "CV", Kind::Dint))),
        StandardBlock::Ton | StandardBlock::Tof | StandardBlock::Tp => {
            (output(2, "Q", bit), Some(output(3, "ET", Kind::Time)))
        }
    }
}

/// The number at a place of the program's frame.
pub fn number_in(machine: &Machine<'_, SlotStore>, place: usize) -> Option<i32>
    ensures { IsNumberAt machine.now place result }
{
    let Ok(place) = u16::try_from(place) else {
        return None;
    };
    i32::try_from(machine.number(Place(place))?).ok()
}

/// The value of a kind whose number it is, as a store keeps it: a DINT if the kind is not known.
pub fn value_of(kind: Option<Kind>, number: i32) -> Value
    ensures { result ≡ value_held kind number }
{
    match kind {
        Some(Kind::Bool) => Value::Bool(number != 0),
        Some(Kind::Time) => Value::Time(number),
        Some(Kind::Dint) | None => Value::Dint(number),
    }
}
