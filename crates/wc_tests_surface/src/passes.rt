//! The five passes, each with what it takes and gives.
ghost use Rattle.std.specs.Prelude.{◌<◌, length};

use std::alloc::Global;
use wc_controller::load;
use wc_cost::{Loaded, cost};
use wc_declare::{Field, Tables, tables};
use wc_lexer::{Shape, Token, tokens};
use wc_model::{Fault, Kind, Path, Place, Section, Source};
use wc_reader::read;
use wc_verify::{Checked, verify};

/// A block that counts rising edges, and a program with two instances of it.
pub(crate) const COUNTING: &[u8] =
    b"FUNCTION_BLOCK Cnt\nVAR_INPUT IN : BOOL; END_VAR\nVAR_OUTPUT N : DINT; END_VAR\nVAR e : R_TRIG; END_VAR\n\
    CAL e(CLK := IN)\nLD e.Q\nRETCN\nLD N\nADD 1\nST N\nEND_FUNCTION_BLOCK\nPROGRAM P\nVAR a, b : Cnt; END_VAR\n\
    CAL a(IN := %IX0.0)\nCAL b(IN := %IX0.1)\nLD a.N\nST %QD0\nLD b.N\nST %QD1\nEND_PROGRAM\n";

/// The tokens of a text.
fn tokens_of<'a>(alloc: Global, text: &'a [u8]) -> Result<Vec<Token<'a>>, Fault> {
    tokens(alloc, text)
}

/// The first token is the text's first word.
fn has_tokens(alloc: Global) -> bool {
    match tokens_of(alloc, COUNTING) {
        Ok(found) => match found.first() {
            Some(first) => {
                let shape = first.shape == Shape::Identifier;
                shape
                    && first.text == b"FUNCTION_BLOCK".as_slice()
                    && first.start == 0
                    && first.line == 1
            }
            None => false,
        },
        Err(_) => false,
    }
}

/// The tree of a text.
fn source_of<'a>(alloc: Global, text: &'a [u8]) -> Result<Source<'a>, Fault> {
    read(alloc, text)
}

/// The tree has a block and a program.
fn has_units(alloc: Global) -> bool {
    match source_of(alloc, COUNTING) {
        Ok(source) => source.units.len() == 2,
        Err(_) => false,
    }
}

/// The tables of a tree.
fn tables_of<'a>(alloc: Global, source: &Source<'a>) -> Result<Tables<'a>, Fault> {
    tables(alloc, source)
}

/// The plain variables of a unit.
fn fields_of<'t, 'a>(tables: &'t Tables<'a>, unit: usize) -> &'t [Field<'a>]
    requires { unit < length tables.now.units.items }
{
    tables.fields(unit)
}

/// The place of a path in a unit.
fn place_in(tables: &Tables<'_>, unit: usize, path: &Path<'_>) -> Option<Place> {
    tables.place(unit, path)
}

/// The block has an input and an output; the program has the addresses and two instances.
fn has_places(tables: &Tables<'_>) -> bool {
    if tables.units() < 2 {
        return false;
    }
    let named = match fields_of(tables, 0).last() {
        Some(field) => {
            let kind = field.kind == Kind::Dint && field.section == Section::Output;
            field.name == b"N".as_slice() && kind && field.place == Place(1)
        }
        None => false,
    };
    let counted = place_in(tables, 1, &Path::Names(&[b"b", b"N"])) == Some(Place(51));
    named && counted && place_in(tables, 1, &Path::Address(b"%IX0.1")) == Some(Place(1))
}

/// The text has its tables.
fn is_tabled(alloc: Global) -> bool {
    match source_of(alloc, COUNTING) {
        Ok(source) => match tables_of(alloc, &source) {
            Ok(tables) => has_places(&tables),
            Err(_) => false,
        },
        Err(_) => false,
    }
}

/// A text that breaks no rule of the first four passes.
fn checked_of<'a>(alloc: Global, text: &'a [u8]) -> Result<Checked<'a>, Fault> {
    let source = match read(alloc, text) {
        Ok(source) => source,
        Err(fault) => return Err(fault),
    };
    match tables(alloc, &source) {
        Ok(tables) => verify(alloc, source, tables),
        Err(fault) => Err(fault),
    }
}

/// What is checked keeps its tree and its tables.
fn keeps_both(checked: &Checked<'_>) -> bool {
    let source: &Source<'_> = checked.source();
    let tables: &Tables<'_> = checked.tables();
    source.units.len() == 2 && tables.units() == 2
}

/// The cost pass.
fn cost_of<'a>(alloc: Global, checked: Checked<'a>) -> Result<Loaded<'a>, Fault> {
    cost(alloc, checked)
}

/// The text is checked, and then has a cost.
fn is_costed(alloc: Global) -> bool {
    match checked_of(alloc, COUNTING) {
        Ok(checked) => keeps_both(&checked) && cost_of(alloc, checked).is_ok(),
        Err(_) => false,
    }
}

/// All five passes.
pub(crate) fn loaded_of<'a>(alloc: Global, text: &'a [u8]) -> Result<Loaded<'a>, Fault> {
    load(alloc, text)
}

/// The text passes all five.
fn is_loaded(alloc: Global) -> bool {
    loaded_of(alloc, COUNTING).is_ok()
}

#[test]
fn passes_succeed(rt: HostRuntime) {
    assert!(rt; has_tokens(rt.alloc()));
    assert!(rt; has_units(rt.alloc()));
    assert!(rt; is_tabled(rt.alloc()));
    assert!(rt; is_costed(rt.alloc()));
    assert!(rt; is_loaded(rt.alloc()));
}
