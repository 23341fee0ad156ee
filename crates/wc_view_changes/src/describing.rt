ghost use Rattle.std.specs.Prelude.{◌≡◌, ◌++◌, ◌∷◌, [], List, Option, OnOk, IsOkUnless, option_and_then, option_map};
ghost use Rattle.wc_model.specs.Definitions.{name_of, Scope, text_view};
ghost use Rattle.wc_model.specs.declared.source.Initial.{Initial};
ghost use Rattle.wc_model.specs.declared.source.Unit.{Unit as CodeUnit};
ghost use Rattle.wc_view_changes.specs.ChangeReport.{note_on, pass_text};
ghost use Rattle.wc_view_changes.specs.Shown.{shape_view, has_shape, declared_in, declared_of};
ghost use Rattle.wc_view_changes.specs.Sides.{IsAt, IsSide, lines_between, numbered_side, side_found, variable_lines};

use crate::lines::{put_first, put_kept, put_lost, put_note};
use crate::shape::{
    FrameEntry, first_value, is_kept, is_line, literal_of, other_literal, other_type, type_text,
    unit_of,
};
use wc_model::{Decl, Fault, Value, put_bytes};
use wc_names::DeclaredType;
use wc_verify::Checked;

/// Whose variables are listed.
#[derive(Clone, Copy)]
pub(crate) enum Pass {
    /// Those of the new text: each keeps its value or begins with its first one.
    New,
    /// Those of the old text, if they are lost.
    Old,
    /// Those of the new text that keep their value though their first one is another than before: as objects, or in words.
    Notes(bool),
}

/// Two texts that are gone through side by side.
#[derive(Clone, Copy)]
pub(crate) struct Texts<'a, 'b, 'c, 'd> {
    pub pass: Pass,
    /// The text whose variables are listed.
    pub own: &'a Checked<'b>,
    /// The text next to it.
    pub other: &'c Checked<'d>,
}

/// The units of two texts to which the same names lead, by their numbers.
#[derive(Clone, Copy)]
pub(crate) struct UnitPair {
    /// In the text whose variables are listed.
    pub unit: usize,
    /// In the text next to it, if there is one.
    pub other: Option<usize>,
}

/// What has the name in the other text.
#[derive(Clone, Copy)]
struct Counterpart {
    /// The unit to which the names before have led.
    unit: Option<usize>,
    /// Its type.
    declared: Option<DeclaredType>,
}

/// Puts the note on a variable that keeps its value, if its first one is another than before.
fn describe_first(
    out: &mut Vec<u8>,
    texts: Texts<'_, '_, '_, '_>,
    as_objects: bool,
    path: (&[u8], &[u8]),
    shape: FrameEntry,
    there: Counterpart,
) -> Result<(), Fault>
    ensures note { OnOk result ((side : Option Scope)
        → IsSide (text_view texts.entry.other.now.source) there.unit side
        → there.declared ≡ numbered_side side (name_of path.entry.1.now)
        → out.new.items ≡ out.old.items
        ++ note_on as_objects (has_shape there.declared (shape_view shape))
        (path.entry.0.now ++ path.entry.1.now) (shape_view shape)
        (option_and_then (λ f. f.first) (side_found side (name_of path.entry.1.now ∷ [])))) }
    ensures memory { IsOkUnless result Fault.Memory }
{
    if !is_kept(shape, there.declared) {
        return Ok(());
    }
    let FrameEntry::Plain(kind, value) = shape else {
        return Ok(());
    };
    let before = first_value(kind, other_literal(texts.other, there.unit, path.1));
    put_note(out, as_objects, path, value, before)
}

/// Puts the line of a variable of one place, or of a standard block's instance: of the new text, that it keeps its value, or begins
/// with its first one and why; of the old text, if it is lost; or the note on it.
fn describe_shape(
    out: &mut Vec<u8>,
    texts: Texts<'_, '_, '_, '_>,
    path: (&[u8], &[u8]),
    shape: FrameEntry,
    there: Counterpart,
) -> Result<(), Fault>
    ensures line { OnOk result ((side : Option Scope)
        → IsSide (text_view texts.entry.other.now.source) there.unit side
        → there.declared ≡ numbered_side side (name_of path.entry.1.now)
        → out.new.items ≡ out.old.items
        ++ pass_text texts.entry.pass (has_shape there.declared (shape_view shape))
        (path.entry.0.now ++ path.entry.1.now) (shape_view shape)
        (side_found side (name_of path.entry.1.now ∷ []))) }
    ensures memory { IsOkUnless result Fault.Memory }
{
    match texts.pass {
        Pass::New if is_kept(shape, there.declared) => put_kept(out, path),
        Pass::New => {
            let was = type_text(texts.other, there.declared);
            put_first(out, path, shape, was)
        }
        Pass::Old if is_line(there.declared) => Ok(()),
        Pass::Old => put_lost(out, path, shape),
        Pass::Notes(as_objects) => describe_first(out, texts, as_objects, path, shape, there),
    }
}

/// Puts the lines of what a declared name of a unit of a text adds. The names that lead to the unit, each with a dot after it,
/// are borrowed for those that lead further, and are as before.
#[cycle(describing)]
fn describe_variable(
    out: &mut Vec<u8>,
    texts: Texts<'_, '_, '_, '_>,
    names: &mut Vec<u8>,
    units: UnitPair,
    name: &[u8],
    literal: Option<Value>,
) -> Result<(), Fault>
    ensures lines { OnOk result ((side : Option Scope) (before : List CodeUnit) (u : CodeUnit)
        (initial : Option Initial)
        → IsSide (text_view texts.entry.other.now.source) units.other side
        → IsAt texts.entry.own.now.source units.unit before u
        → literal ≡ option_map (λ i. i.value) initial
        → out.new.items ≡ out.old.items
        ++ variable_lines texts.entry.pass side before u names.old.items
        (record { name = name.now; initial = initial })) }
    ensures names { OnOk result (names.new.items ≡ names.old.items) }
    ensures memory { IsOkUnless result Fault.Memory }
{
    let Some(located) = texts.own.tables().variable(units.unit, name) else {
        return Ok(());
    };
    let there = Counterpart {
        unit: units.other,
        declared: other_type(texts.other, units.other, name),
    };
    match located.declared {
        DeclaredType::Elementary(kind) => {
            let shape = FrameEntry::Plain(kind, first_value(kind, literal));
            describe_shape(out, texts, (names.as_slice(), name), shape, there)
        }
        DeclaredType::Standard(block) => {
            let shape = FrameEntry::Instance(block);
            describe_shape(out, texts, (names.as_slice(), name), shape, there)
        }
        DeclaredType::Block(block) => {
            // A block precedes the unit that has its instance, so only what has no place is passed over.
            if units.unit <= block || texts.own.tables().size(block) == 0 {
                return Ok(());
            }
            let length = names.len();
            put_bytes(names, name)?;
            put_bytes(names, b".")?;
            let inner = UnitPair {
                unit: block,
                other: unit_of(there.declared),
            };
            describe_unit(out, texts, names, inner)?;
            names.truncate(length);
            Ok(())
        }
    }
}

/// Puts the lines of what a declaration of a unit of a text adds.
#[cycle(describing)]
fn describe_declaration(
    out: &mut Vec<u8>,
    texts: Texts<'_, '_, '_, '_>,
    names: &mut Vec<u8>,
    units: UnitPair,
    declaration: &Decl<'_>,
) -> Result<(), Fault>
    ensures lines { OnOk result ((side : Option Scope) (before : List CodeUnit) (u : CodeUnit)
        → IsSide (text_view texts.entry.other.now.source) units.other side
        → IsAt texts.entry.own.now.source units.unit before u
        → out.new.items ≡ out.old.items
        ++ lines_between texts.entry.pass side before u names.old.items
        (declared_in declaration.now)) }
    ensures names { OnOk result (names.new.items ≡ names.old.items) }
    ensures memory { IsOkUnless result Fault.Memory }
{
    let literal = literal_of(declaration);
    for word in &declaration.names {
        describe_variable(out, texts, names, units, word.text, literal)?;
    }
    Ok(())
}

/// Puts the lines of the variables of a unit of a text, next to the unit of the other text to which the same names lead.
#[cycle(describing)]
pub(crate) fn describe_unit(
    out: &mut Vec<u8>,
    texts: Texts<'_, '_, '_, '_>,
    names: &mut Vec<u8>,
    units: UnitPair,
) -> Result<(), Fault>
    ensures lines { OnOk result ((side : Option Scope) (before : List CodeUnit) (u : CodeUnit)
        → IsSide (text_view texts.entry.other.now.source) units.other side
        → IsAt texts.entry.own.now.source units.unit before u
        → out.new.items ≡ out.old.items
        ++ lines_between texts.entry.pass side before u names.old.items (declared_of u)) }
    ensures names { OnOk result (names.new.items ≡ names.old.items) }
    ensures memory { IsOkUnless result Fault.Memory }
{
    let Some(u) = texts.own.source().units.get(units.unit) else {
        return Ok(());
    };
    for declaration in &u.declarations {
        describe_declaration(out, texts, names, units, declaration)?;
    }
    Ok(())
}
