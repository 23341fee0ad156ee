ghost use Rattle.std.specs.Prelude.{◌≡◌, List, [], ◌∷◌, IfSome, option_map, length};
ghost use Rattle.std.specs.List.{position_from};
ghost use Rattle.wc_model.specs.Definitions.{VariableType, member_named, members_of, same_name, standard_members, name_of, ProgramUnit, same_path, standard_fields, unit_places};
ghost use Rattle.wc_built_in.specs.Fields.{is_named, member_seen, value_kind};
ghost use Rattle.wc_names.specs.Members.{found_seen, kind_numbered, row_seen};
ghost use Rattle.wc_names.specs.Numbered.{number_within, numbered_type};
ghost use Rattle.wc_names.specs.RepresentsText.{Represents, first_place, row_named};

use crate::declared_type::DeclaredType;
use crate::lookup::{number_after, row};
use crate::unit_table::UnitTable;
use wc_built_in::field_named;
use wc_model::{Kind, Section, SlotKind, StandardBlock};

/// A name that can follow an instance and a dot.
#[derive(Clone, Copy)]
pub(crate) struct Member {
    pub(crate) section: Section,
    /// Its kind; an instance has none.
    pub(crate) kind: Option<Kind>,
    /// Its place, counted from the first of the instance; an instance has none.
    pub(crate) place: Option<u16>,
}

/// The kind of what has this type.
pub(crate) fn kind_of(declared: DeclaredType) -> Option<Kind>
    ensures { result ≡ kind_numbered declared }
{
    match declared {
        DeclaredType::Elementary(kind) => Some(kind),
        _ => None,
    }
}

/// The kind of what a slot of a standard function block holds for a text to read.
fn value_kind(slot: SlotKind) -> Option<Kind>
    ensures { result ≡ value_kind slot }
{
    match slot {
        SlotKind::Bool => Some(Kind::Bool),
        SlotKind::Dint => Some(Kind::Dint),
        SlotKind::Time => Some(Kind::Time),
        SlotKind::Moment | SlotKind::Phase => None,
    }
}

/// Whether a text can name a field of a standard function block that is in this section.
fn is_named(section: Section) -> bool
    ensures { result ≡ is_named section }
{
    !matches!(section, Section::Own)
}

/// The input or output of that name of a standard function block.
fn standard_member(block: StandardBlock, name: &[u8]) -> Option<Member>
    ensures seen { option_map found_seen result
        ≡ option_map member_seen (member_named (standard_members block) (name_of name.now)) }
    ensures place { IfSome result
        (λ m. m.place
        ≡ position_from (λ f. same_name f.0 (name_of name.now)) 0 (standard_fields block)) }
{
    let found = field_named(block, name)?;
    if !is_named(found.field.section) {
        return None;
    }
    Some(Member {
        section: found.field.section,
        kind: value_kind(found.field.slot),
        place: Some(found.number),
    })
}

/// The member of that name of a function block of the text.
fn block_member<'a>(units: &[UnitTable<'a>], block: usize, name: &[u8]) -> Option<Member>
    ensures seen { (before : List ProgramUnit) (u : ProgramUnit) (h : Represents units.now before u)
        → block ≡ length before
        → option_map found_seen result
        ≡ option_map row_seen (row_named h.table.names h.table.rows.items (name_of name.now)) }
    ensures place { (before : List ProgramUnit) (u : ProgramUnit) → Represents units.now before u
        → block ≡ length before
        → IfSome result
        (λ m. m.place
        ≡ position_from (λ e. same_path e.0 (name_of name.now ∷ [])) (first_place u)
        (unit_places before u)) }
{
    let row = row(units, block, name)?;
    Some(Member {
        section: row.section,
        kind: kind_of(row.declared),
        place: number_after(units, row, &[]),
    })
}

/// The member of that name of what has this type.
pub(crate) fn member_of<'a>(
    units: &[UnitTable<'a>],
    declared: DeclaredType,
    name: &[u8],
) -> Option<Member>
    ensures seen { (before : List ProgramUnit) (u : ProgramUnit) (type : VariableType)
        → Represents units.now before u → numbered_type before type ≡ Some declared
        → option_map found_seen result
        ≡ option_map member_seen (member_named (members_of before type) (name_of name.now)) }
    ensures place { (before : List ProgramUnit) (u : ProgramUnit) (type : VariableType)
        → Represents units.now before u → numbered_type before type ≡ Some declared
        → IfSome result
        (λ m. m.place ≡ number_within before type (name_of name.now ∷ [])) }
{
    match declared {
        DeclaredType::Elementary(_) => None,
        DeclaredType::Standard(block) => standard_member(block, name),
        DeclaredType::Block(block) => block_member(units, block, name),
    }
}
