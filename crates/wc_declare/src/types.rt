ghost use Rattle.std.specs.Prelude.{◌≡◌, List, Some, IfSome, is_some, option_map, length};
ghost use Rattle.wc_model.specs.Definitions.{places_of_type, block_named, elementary_types, named_in, Name, name_of, standard_fields, ProgramUnit, Text};
ghost use Rattle.wc_names.specs.{is_elementary, type_at};
ghost use Rattle.wc_declare.specs.SoFar.{AreUnitsOf};

use wc_built_in::{elementary_type, standard_block, standard_fields};
use wc_model::StandardBlock;
use wc_names::{DeclaredType, Names, UnitTable};

/// What is kept while a text is checked.
#[derive(Drop)]
pub(crate) struct Units<'a> {
    /// The names of all function blocks of the text.
    pub(crate) blocks: Names<'a>,
    /// The names of the units so far, numbered in text order.
    pub(crate) names: Names<'a>,
    /// The tables of the units so far.
    pub(crate) tables: Vec<UnitTable<'a>>,
}

/// The number of the function block of that name among the units so far.
pub(crate) fn block<'a>(units: &Units<'a>, name: &[u8]) -> Option<usize>
    ensures { (text : Text) (before : List ProgramUnit) → AreUnitsOf text before units.now
        → result ≡ option_map (λ found. length found.1) (block_named before (name_of name.now)) }
{
    let number = units.names.number(name)?;
    let table = units.tables.get(number)?;
    if table.is_block { Some(number) } else { None }
}

/// The type of that name after the units so far.
pub(crate) fn type_at<'a>(units: &Units<'a>, name: &[u8]) -> Option<DeclaredType>
    ensures declared { (text : Text) (before : List ProgramUnit) → AreUnitsOf text before units.now
        → result ≡ type_at before (name_of name.now) }
    ensures elementary { IfSome result
        (λ declared. is_elementary declared
        ≡ is_some (named_in elementary_types (name_of name.now))) }
{
    if let Some(kind) = elementary_type(name) {
        return Some(DeclaredType::Elementary(kind));
    }
    if let Some(block) = standard_block(name) {
        return Some(DeclaredType::Standard(block));
    }
    let number = block(units, name)?;
    Some(DeclaredType::Block(number))
}

/// The number of places an instance of a standard function block has.
pub(crate) fn standard_size(block: StandardBlock) -> u16
    ensures { result ≡ length (standard_fields block) }
{
    standard_fields(block).len() as u16
}

/// The number of places a variable of a type has.
pub(crate) fn width<'a>(units: &Units<'a>, declared: DeclaredType) -> u16
    ensures { (text : Text) (before : List ProgramUnit) (name : Name)
        → AreUnitsOf text before units.now → type_at before name ≡ Some declared
        → result ≡ places_of_type before name }
{
    match declared {
        DeclaredType::Elementary(_) => 1,
        DeclaredType::Standard(block) => standard_size(block),
        DeclaredType::Block(number) => match units.tables.get(number) {
            Some(table) => table.size,
            None => 0,
        },
    }
}
