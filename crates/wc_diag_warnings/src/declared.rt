ghost use Rattle.std.specs.Prelude.{◌≡◌, OnOk};
ghost use Rattle.wc_model.specs.Definitions.{declared_by, variables_of, name_of, declaration_view, unit_view};
ghost use Rattle.wc_diag_warnings.specs.Seen.{uses_view, variable_view, Warns};
ghost use Rattle.wc_diag_warnings.specs.Warnings.{warning_at, declared_warnings, instance_number, is_timer, number_by, use_number, variable_number};

use crate::used::Uses;
use crate::warning::Warning;
use std::alloc::AllocError;
use wc_built_in::{elementary_type, standard_block};
use wc_model::{Decl, Section, StandardBlock, Unit, UnitKind, Word};

/// The warning of a variable that is neither read nor written, only written, or only read.
fn use_number(read: bool, written: bool, first: bool) -> Option<u8>
    ensures { result ≡ use_number read written first }
{
    if !read {
        Some(if written { 2 } else { 1 })
    } else if !written && !first {
        Some(3)
    } else {
        None
    }
}

/// The warning of a variable that is not an instance. A block's inputs are written by its callers, its outputs read by them.
fn variable_number(
    kind: UnitKind,
    section: Section,
    first: bool,
    read: bool,
    written: bool,
) -> Option<u8>
    ensures { result ≡ variable_number kind section first read written }
{
    match (kind, section) {
        (UnitKind::FunctionBlock, Section::Input) => if read { None } else { Some(2) },
        (UnitKind::FunctionBlock, Section::Output) => if written { None } else { Some(5) },
        _ => use_number(read, written, first),
    }
}

/// Whether it is a timer, which has a time PT.
fn is_timer(block: Option<StandardBlock>) -> bool
    ensures { result ≡ is_timer block }
{
    matches!(
        block,
        Some(StandardBlock::Tp | StandardBlock::Ton | StandardBlock::Tof)
    )
}

/// The warning of an instance.
fn instance_number(timer: bool, called: bool, given: bool) -> Option<u8>
    ensures { result ≡ instance_number timer called given }
{
    if !called {
        Some(4)
    } else if timer && !given {
        Some(6)
    } else {
        None
    }
}

/// The warning of a name that a unit declares.
fn number_of(kind: UnitKind, declaration: &Decl<'_>, word: Word<'_>, uses: &Uses<'_>) -> Option<u8>
    ensures { result
        ≡ number_by kind (uses_view uses.now) (variable_view declaration.now word.entry) }
{
    let name = word.text;
    let type_name = declaration.type_name.text;
    match elementary_type(type_name) {
        Some(_) => variable_number(
            kind,
            declaration.section,
            declaration.initial.is_some(),
            uses.read.contains(name),
            uses.written.contains(name),
        ),
        None => instance_number(
            is_timer(standard_block(type_name)),
            uses.called.contains(name),
            uses.given.contains(name),
        ),
    }
}

/// Adds the warning of that number, if there is one.
pub(crate) fn warn<'a>(
    warnings: &mut Vec<Warning<'a>>,
    number: Option<u8>,
    line: u32,
    name: &'a [u8],
) -> Result<(), AllocError>
    ensures added { OnOk result (Warns warnings.old.items warnings.new.items
        (warning_at number line (name_of name.now))) }
{
    match number {
        Some(number) => Ok(warnings.push(Warning { number, line, name })?),
        None => Ok(()),
    }
}

/// Adds the warnings of a declaration.
fn warn_declaration<'a>(
    warnings: &mut Vec<Warning<'a>>,
    kind: UnitKind,
    declaration: &Decl<'a>,
    uses: &Uses<'_>,
) -> Result<(), AllocError>
    ensures added { OnOk result (Warns warnings.old.items warnings.new.items
        (declared_warnings kind (uses_view uses.now)
        (declared_by (declaration_view declaration.now)))) }
{
    for word in &declaration.names {
        let number = number_of(kind, declaration, *word, uses);
        warn(warnings, number, word.line, word.text)?;
    }
    Ok(())
}

/// Adds the warnings of what a unit declares.
pub(crate) fn warn_declared<'a>(
    warnings: &mut Vec<Warning<'a>>,
    unit: &Unit<'a>,
    uses: &Uses<'_>,
) -> Result<(), AllocError>
    ensures added { OnOk result (Warns warnings.old.items warnings.new.items
        (declared_warnings unit.now.kind (uses_view uses.now)
        (variables_of (unit_view unit.now)))) }
{
    for declaration in &unit.declarations {
        warn_declaration(warnings, unit.kind, declaration, uses)?;
    }
    Ok(())
}
