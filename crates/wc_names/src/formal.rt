ghost use Rattle.std.specs.Prelude.{◌≡◌, List, Some, option_and_then};
ghost use Rattle.wc_model.specs.Definitions.{formal_named, passes, VariableType, members_of, name_of, ProgramUnit};
ghost use Rattle.wc_names.specs.Numbered.{numbered_formal, numbered_type};
ghost use Rattle.wc_names.specs.RepresentsText.{Represents};

use crate::declared_type::DeclaredType;
use crate::member::member_of;
use crate::naming::{is_input, is_result};
use crate::unit_table::UnitTable;
use wc_model::{Direction, Kind, Section};

/// An input or an output of an instance.
#[derive(Clone, Copy, PartialEq, Eq)]
pub struct FormalSlot {
    pub kind: Kind,
    /// Its place, counted from the first place of the instance.
    pub place: u16,
}

/// Whether a call's list may name a variable of a section: as an input or as an output.
fn passes(direction: Direction, section: Section) -> bool
    ensures { result ≡ passes direction section }
{
    match direction {
        Direction::Into => is_input(section),
        Direction::OutOf => is_result(section),
    }
}

/// The input or output of that name of what has this type.
pub(crate) fn formal_of<'a>(
    units: &[UnitTable<'a>],
    declared: DeclaredType,
    direction: Direction,
    name: &[u8],
) -> Option<FormalSlot>
    ensures { (before : List ProgramUnit) (u : ProgramUnit) (type : VariableType)
        → Represents units.now before u
        → numbered_type before type ≡ Some declared
        → result ≡ option_and_then (numbered_formal before type)
        (formal_named direction (members_of before type) (name_of name.now)) }
{
    let member = member_of(units, declared, name)?;
    if !passes(direction, member.section) {
        return None;
    }
    let kind = member.kind?;
    let place = member.place?;
    Some(FormalSlot { kind, place })
}
