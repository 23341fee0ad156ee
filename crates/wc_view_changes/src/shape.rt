ghost use Rattle.std.specs.Prelude.{◌≡◌, ℕ, Option, [], ◌∷◌, option_map};
ghost use Rattle.std.specs.List.{list_any};
ghost use Rattle.wc_model.specs.Definitions.{same_name, Name, name_of, Scope, first_content, text_view, unit_view};
ghost use Rattle.wc_model.specs.Language.Store as store;
ghost use Rattle.wc_model.specs.declared.source.Initial.{Initial};
ghost use Rattle.wc_view_changes.specs.ChangeReport.{initial_of};
ghost use Rattle.wc_view_changes.specs.ChangeReport as texts;
ghost use Rattle.wc_view_changes.specs.Shown.{shape_view, has_shape};
ghost use Rattle.wc_view_changes.specs.Sides.{IsSide, line_numbered, numbered_side, side_found, side_initial, unit_numbered};

use wc_model::{Decl, Kind, StandardBlock, Unit, Value, is_word};
use wc_names::DeclaredType;
use wc_verify::Checked;

/// What is in a frame under one name.
#[derive(Clone, Copy)]
pub(crate) enum FrameEntry {
    /// A variable of an elementary type, with its first value.
    Plain(Kind, Value),
    /// An instance of a standard function block.
    Instance(StandardBlock),
}

/// Whether what had this type in the old text keeps its value in this form.
pub(crate) fn is_kept(shape: FrameEntry, was: Option<DeclaredType>) -> bool
    ensures { result ≡ has_shape was (shape_view shape) }
{
    let Some(declared) = was else {
        return false;
    };
    match shape {
        FrameEntry::Plain(kind, _) => declared == DeclaredType::Elementary(kind),
        FrameEntry::Instance(block) => declared == DeclaredType::Standard(block),
    }
}

/// What a variable of this kind has at first, with a literal or without.
pub(crate) fn first_value(kind: Kind, literal: Option<Value>) -> Value
    ensures { (initial : Option Initial) → literal ≡ option_map (λ i. i.value) initial
        → store.Plain result ≡ first_content kind initial }
{
    match (kind, literal) {
        (Kind::Bool, Some(Value::Bool(true) | Value::Dint(1))) => Value::Bool(true),
        (Kind::Bool, _) => Value::Bool(false),
        (Kind::Dint, Some(Value::Dint(number))) => Value::Dint(number),
        (Kind::Dint, _) => Value::Dint(0),
        (Kind::Time, Some(Value::Time(time))) => Value::Time(time),
        (Kind::Time, _) => Value::Time(0),
    }
}

/// An elementary type, as a text spells it.
pub(crate) fn kind_text(kind: Kind) -> &'static [u8]
    ensures { result.now ≡ texts.kind_text kind }
{
    match kind {
        Kind::Bool => b"BOOL",
        Kind::Dint => b"DINT",
        Kind::Time => b"TIME",
    }
}

/// A standard function block, as a text spells it.
pub(crate) fn block_text(block: StandardBlock) -> &'static [u8]
    ensures { result.now ≡ texts.block_text block }
{
    match block {
        StandardBlock::RTrig => b"R_TRIG",
        StandardBlock::Sr => b"SR",
        StandardBlock::Rs => b"RS",
        StandardBlock::Ctu => b"CTU",
        StandardBlock::Ton => b"TON",
        StandardBlock::Tof => b"TOF",
        StandardBlock::Tp => b"TP",
    }
}

/// The type of what has this form, as a text spells it.
pub(crate) fn shape_type(shape: FrameEntry) -> &'static [u8]
    ensures { result.now ≡ texts.shape_type (shape_view shape) }
{
    match shape {
        FrameEntry::Plain(kind, _) => kind_text(kind),
        FrameEntry::Instance(block) => block_text(block),
    }
}

/// The type that a name has in the other text, in the unit at which the names before it have led.
pub(crate) fn other_type(
    other: &Checked<'_>,
    unit: Option<usize>,
    name: &[u8],
) -> Option<DeclaredType>
    ensures { (side : Option Scope) → IsSide (text_view other.now.source) unit side
        → result ≡ numbered_side side (name_of name.now) }
{
    let located = other.tables().variable(unit?, name)?;
    Some(located.declared)
}

/// Whether a declaration has a name, in whichever letter case.
fn declares(declaration: &Decl<'_>, name: &[u8]) -> bool
    ensures { result ≡ list_any (λ word. same_name (name_of word.text.now) (name_of name.now))
        declaration.now.names.items }
{
    declaration
        .names
        .iter()
        .any(|word| is_word(word.text, name))
}

/// The literal after `:=` in a declaration.
pub(crate) fn literal_of(declaration: &Decl<'_>) -> Option<Value>
    ensures { result ≡ option_map (λ i. i.value) declaration.now.initial }
{
    declaration.initial.map(|initial| initial.value)
}

/// The literal that a unit has after a name.
fn literal_in(unit: &Unit<'_>, name: &[u8]) -> Option<Value>
    ensures { result ≡ option_map (λ i. i.value)
        (initial_of (unit_view unit.now) (name_of name.now)) }
{
    for declaration in &unit.declarations {
        if declares(declaration, name) {
            return literal_of(declaration);
        }
    }
    None
}

/// The literal that the other text has after a name, in the unit at which the names before it have led.
pub(crate) fn other_literal(other: &Checked<'_>, unit: Option<usize>, name: &[u8]) -> Option<Value>
    ensures { (side : Option Scope) → IsSide (text_view other.now.source) unit side
        → result ≡ option_map (λ i. i.value) (side_initial side (name_of name.now)) }
{
    literal_in(other.source().units.get(unit?)?, name)
}

/// The type that a name has in the other text, if it has one, as a text spells it.
pub(crate) fn type_text<'o>(other: &Checked<'o>, declared: Option<DeclaredType>) -> Option<&'o [u8]>
    ensures { (unit : Option ℕ) (side : Option Scope) (name : Name)
        → IsSide (text_view other.now.source) unit side
        → declared ≡ numbered_side side name
        → option_map (λ spelled. spelled.now) result
        ≡ option_map (λ f. f.type) (side_found side (name ∷ [])) }
{
    match declared? {
        DeclaredType::Elementary(kind) => Some(kind_text(kind)),
        DeclaredType::Standard(block) => Some(block_text(block)),
        DeclaredType::Block(number) => Some(other.source().units.get(number)?.name.text),
    }
}

/// The unit of a block of the text, if the type is one.
pub(crate) fn unit_of(declared: Option<DeclaredType>) -> Option<usize>
    ensures { result ≡ unit_numbered declared }
{
    match declared {
        Some(DeclaredType::Block(number)) => Some(number),
        _ => None,
    }
}

/// Whether what has this type has a line: a variable of an elementary type, or an instance of a standard block.
pub(crate) fn is_line(declared: Option<DeclaredType>) -> bool
    ensures { result ≡ line_numbered declared }
{
    match declared {
        Some(DeclaredType::Elementary(_) | DeclaredType::Standard(_)) => true,
        _ => false,
    }
}
