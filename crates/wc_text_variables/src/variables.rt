ghost use Rattle.std.specs.Prelude.{◌≡◌, IfOk, IsOkUnless, drop, map, option_and_then, slice_get, is_none};
ghost use Rattle.wc_built_in.specs.Fields.{is_named, value_kind};
ghost use Rattle.wc_model.specs.Definitions.{member_named, standard_members, location_of, name_of, Path as Named, text_view};
ghost use Rattle.wc_text_variables.specs.Names.{is_address, is_hidden, is_hidden_field, parts_in, variable_at_location, variable_named};

use std::alloc::{AllocError, Global};
use wc_built_in::field_named;
use wc_cost::Loaded;
use wc_model::{Fault, Kind, Path, Place, Section, SlotKind, StandardBlock, or_memory};
use wc_names::DeclaredType;

/// A variable of a program.
#[derive(Clone, Copy)]
pub struct NamedVariable {
    /// The place of its value in the program's frame.
    pub place: Place,
    /// The kind of its values.
    pub kind: Kind,
}

/// The kind of the values that a place holds. What a timer keeps for itself is not a value.
fn value_kind(kind: SlotKind) -> Option<Kind>
    ensures { result ≡ value_kind kind }
{
    match kind {
        SlotKind::Bool => Some(Kind::Bool),
        SlotKind::Dint => Some(Kind::Dint),
        SlotKind::Time => Some(Kind::Time),
        SlotKind::Moment | SlotKind::Phase => None,
    }
}

/// The kind of the values of the place with that number.
fn kind_at(kinds: &[SlotKind], place: Place) -> Option<Kind>
    ensures { result ≡ option_and_then value_kind (slice_get kinds.now place.0) }
{
    value_kind(*kinds.get(usize::from(place.0))?)
}

/// The variable at the place that a path names in a program.
fn variable_at_location(loaded: &Loaded<'_>, path: &Path<'_>) -> Option<NamedVariable>
    ensures { result
        ≡ option_and_then (variable_at_location (text_view loaded.now.source))
        (location_of path.now) }
{
    // A program is loaded, so its text has a last unit.
    let _units = loaded.units();
    let place = loaded.place(path)?;
    let kind = kind_at(loaded.kinds(), place)?;
    Some(NamedVariable { place, kind })
}

/// Whether texts can name what is declared in a section of a standard block.
fn is_named(section: Section) -> bool
    ensures { result ≡ is_named section }
{
    !matches!(section, Section::Own)
}

/// Whether texts cannot name a field of a standard block.
fn is_hidden_field(block: StandardBlock, field: &[u8]) -> bool
    ensures { result ≡ is_none (member_named (standard_members block) (name_of field.now)) }
{
    match field_named(block, field) {
        Some(found) => !is_named(found.field.section),
        None => true,
    }
}

/// Whether the names of a path, from that number on, cannot name a field of a standard block.
fn is_hidden_at(block: StandardBlock, names: &[&[u8]], index: usize) -> bool
    ensures { result
        ≡ is_hidden_field block (map (λ name. name_of name.now) (drop index names.now)) }
{
    match names.get(index) {
        Some(field) => is_hidden_field(block, field),
        None => false,
    }
}

/// Whether the names of a path lead to a field of a standard block that texts cannot name.
fn leads_to_hidden(loaded: &Loaded<'_>, names: &[&[u8]]) -> bool
    ensures { result ≡ is_hidden (text_view loaded.now.source)
        (Named (map (λ name. name_of name.now) names.now)) }
{
    let tables = loaded.checked().tables();
    let mut unit = loaded.units().saturating_sub(1);
    for index in 0..names.len() {
        let Some(name) = names.get(index) else {
            return false;
        };
        let Some(located) = tables.variable(unit, name) else {
            return false;
        };
        match located.declared {
            DeclaredType::Block(block) => unit = block,
            DeclaredType::Standard(block) => return is_hidden_at(block, names, index + 1),
            DeclaredType::Elementary(_) => return false,
        }
    }
    false
}

/// The parts of a name, which are between its dots.
fn parts_of<'n>(alloc: Global, name: &'n [u8]) -> Result<Vec<&'n [u8]>, AllocError>
    ensures { IfOk result (λ parts. map (λ part. part.now) parts.items ≡ parts_in name.now) }
{
    name.split(|byte| *byte == b'.').collect(alloc)
}

/// Whether a name is an address.
fn is_address(name: &[u8]) -> bool
    ensures { result ≡ is_address name.now }
{
    name.first().is_some_and(|byte| *byte == b'%')
}

/// What a name means in a program: `fill`, `dose.timer.ET` through instances of blocks, or a directly represented variable as
/// `%QX0.3`, in letters of either case. None if the program has no such variable, or texts cannot name it: what a standard block
/// keeps for itself is hidden. `Memory` is the only fault. (The profile's own.)
pub fn variable_named(
    alloc: Global,
    loaded: &Loaded<'_>,
    name: &[u8],
) -> Result<Option<NamedVariable>, Fault>
    ensures means { IfOk result
        (λ watched. watched ≡ variable_named (text_view loaded.now.source) name.now) }
    ensures memory { IsOkUnless result Fault.Memory }
{
    if is_address(name) {
        return Ok(variable_at_location(loaded, &Path::Address(name)));
    }
    let parts = or_memory(parts_of(alloc, name))?;
    if leads_to_hidden(loaded, &parts) {
        return Ok(None);
    }
    Ok(variable_at_location(loaded, &Path::Names(&parts)))
}
