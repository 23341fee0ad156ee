ghost use Rattle.std.specs.Prelude.{◌≡◌, ◌≤◌, ◌∷◌, [], drop, length, IfOk, List, None, OnOk};
ghost use Rattle.wc_laws_grammar.specs.Moves as moves;
ghost use Rattle.wc_model.specs.Definitions.{ProgramUnit, unit_view, word_view, Position};
ghost use Rattle.wc_model.specs.declared.source.Section.{Section};
ghost use Rattle.wc_text_bodies.specs.Several.{GoesOn};
ghost use Rattle.wc_text_lines.specs.Words.{marks_of};

use std::alloc::{AllocError, Global};
use wc_lexer::{Shape, Token};
use wc_model::{Decl, Section, Unit, Word};
use wc_text_lines::{ends_section, word};

/// The number of tokens an empty line has: none if the tokens do not begin with a line's end.
#[inline(always)]
pub(crate) fn empty_line(tokens: &[Token]) -> usize
    ensures at_line { (p : Position)
        → GoesOn (moves.AtLine p) (marks_of tokens.now) (moves.AtLine p)
        (marks_of (drop result tokens.now)) }
    ensures declaring { (units : List ProgramUnit) (unit : ProgramUnit) (section : Section)
        → GoesOn (moves.Declaring units unit section moves.Undeclared) (marks_of tokens.now)
        (moves.Declaring units unit section moves.Undeclared) (marks_of (drop result tokens.now)) }
    ensures within { result ≤ length tokens.now }
{
    match tokens {
        [first, ..] if matches!(first.shape, Shape::LineEnd) => 1,
        _ => 0,
    }
}

/// Adds a declaration of one name with no value after a unit's others.
fn add_plain<'a>(
    alloc: Global,
    unit: &mut Unit<'a>,
    section: Section,
    name: Word<'a>,
    type_name: Word<'a>,
) -> Result<(), AllocError>
    ensures { OnOk result
        (unit_view unit.new
        ≡ moves.with_declaration (unit_view unit.old) section (word_view name.entry ∷ [])
        (word_view type_name.entry) None) }
{
    let mut names = Vec::new(alloc);
    names.push(name)?;
    unit.declarations.push(Decl {
        section,
        names,
        type_name,
        initial: None,
    })?;
    Ok(())
}

/// Reads a declaration of one name with no value, and returns the number of its tokens: none if
/// no such declaration is here.
#[inline(always)]
fn take_plain<'a>(
    alloc: Global,
    unit: &mut Unit<'a>,
    section: Section,
    tokens: &[Token<'a>],
) -> Result<usize, AllocError>
    ensures goes_on { IfOk result
        (λ taken. (units : List ProgramUnit)
        → GoesOn (moves.Declaring units (unit_view unit.old) section moves.Undeclared)
        (marks_of tokens.now) (moves.Declaring units (unit_view unit.new) section moves.Undeclared)
        (marks_of (drop taken tokens.now))) }
    ensures within { IfOk result (λ taken. taken ≤ length tokens.now) }
{
    let [name, colon, type_name, end, ..] = tokens else {
        return Ok(0);
    };
    let (Shape::Identifier, Shape::Colon, Shape::Identifier, Shape::Semicolon) = (
        name.shape,
        colon.shape,
        type_name.shape,
        end.shape,
    ) else {
        return Ok(0);
    };
    if ends_section(name.text) {
        return Ok(0);
    }
    add_plain(alloc, unit, section, word(*name), word(*type_name))?;
    Ok(4)
}

/// Reads a declaration of one name with no value and a line's end, if each is here, and returns
/// the number of their tokens.
#[inline(always)]
pub fn take_declaration<'a>(
    alloc: Global,
    unit: &mut Unit<'a>,
    section: Section,
    tokens: &[Token<'a>],
) -> Result<usize, AllocError>
    ensures goes_on { IfOk result
        (λ taken. (units : List ProgramUnit)
        → GoesOn (moves.Declaring units (unit_view unit.old) section moves.Undeclared)
        (marks_of tokens.now) (moves.Declaring units (unit_view unit.new) section moves.Undeclared)
        (marks_of (drop taken tokens.now))) }
    ensures within { IfOk result (λ taken. taken ≤ length tokens.now) }
{
    let taken = take_plain(alloc, unit, section, tokens)?;
    let (_, following) = tokens.split_at(taken);
    Ok(taken + empty_line(following))
}
