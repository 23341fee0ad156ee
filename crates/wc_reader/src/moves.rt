ghost use Rattle.std.specs.Prelude.{◌≡◌, Bool, IfOk, IfSome, List, OnOk, map, option_map};
ghost use Rattle.wc_laws_grammar.specs.Moves as moves;
ghost use Rattle.wc_laws_grammar.specs.Words.{found, unit_kinds};
ghost use Rattle.wc_model.specs.Definitions.{name_of, ProgramUnit, unit_view};
ghost use Rattle.wc_text_bodies.specs.Views.{IsCounted, position_view, declaring_view, section_view};
ghost use Rattle.wc_reader.specs.TextViews.{IsStateCounted, line_place_view, place_view, state_view};
ghost use Rattle.wc_text_lines.specs.Words.{symbol_view};

use crate::body_moves::place_move;
use crate::text_state::{BodyPlace, LinePlace, TextState};
use std::alloc::{AllocError, Global};
use wc_lexer::{Shape, Token};
use wc_model::{Section, Unit, UnitKind};
use wc_text_bodies::{Body, DeclarationState, SectionPlace, body_start, declaration_move};
use wc_text_lines::{unit_kind, word};

/// After a unit's first word, if the token is one.
fn at_first_word<'a>(token: Token<'a>) -> Option<TextState<'a>>
    ensures following { (units : List ProgramUnit)
        → option_map (state_view units) result
        ≡ option_map (λ kind. moves.Unnamed units kind token.entry.line)
        (found unit_kinds (name_of token.entry.text.now)) }
    ensures counted { IfSome result (λ it. IsStateCounted it) }
{
    match unit_kind(token.text) {
        Some(kind) => Some(TextState::Unnamed(kind, token.line)),
        None => None,
    }
}

/// After a token between units.
#[inline(always)]
fn outside<'a>(token: Token<'a>) -> Option<TextState<'a>>
    ensures following { (units : List ProgramUnit) (colon : Bool)
        → option_map (state_view units) result
        ≡ moves.move (moves.Outside units) (symbol_view token.entry) token.entry.line colon }
    ensures counted { IfSome result (λ it. IsStateCounted it) }
{
    match token.shape {
        Shape::LineEnd => Some(TextState::Outside),
        Shape::Identifier => at_first_word(token),
        _ => None,
    }
}

/// After the token that follows a unit's first word: its name.
fn at_name<'a>(alloc: Global, kind: UnitKind, line: u32, token: Token<'a>) -> Option<TextState<'a>>
    ensures following { (units : List ProgramUnit) (colon : Bool)
        → option_map (state_view units) result
        ≡ moves.move (moves.Unnamed units kind line)
        (symbol_view token.entry) token.entry.line colon }
    ensures counted { IfSome result (λ it. IsStateCounted it) }
{
    match token.shape {
        Shape::Identifier => {
            let unit = Unit {
                kind,
                line,
                name: word(token),
                declarations: Vec::new(alloc),
                body: Vec::new(alloc),
            };
            Some(TextState::InBody(body_start(alloc, unit), LinePlace::AtLine))
        }
        _ => None,
    }
}

/// In a section, or at the start of the body after it.
#[inline(always)]
fn section_state<'a>(
    alloc: Global,
    unit: Unit<'a>,
    section: Section,
    place: SectionPlace<'a>,
) -> TextState<'a>
    ensures following { (units : List ProgramUnit)
        → state_view units result
        ≡ section_view units (unit_view unit.entry) section place.entry }
    ensures counted { IsStateCounted result }
{
    match place {
        SectionPlace::WithinSection(state) => TextState::Declaring(unit, section, state),
        SectionPlace::AfterSection => {
            TextState::InBody(body_start(alloc, unit), LinePlace::AtLine)
        }
    }
}

/// After one more token of a section.
#[inline(always)]
fn in_section<'a>(
    alloc: Global,
    unit: Unit<'a>,
    section: Section,
    state: DeclarationState<'a>,
    token: Token<'a>,
) -> Result<Option<TextState<'a>>, AllocError>
    ensures following { IfOk result
        (λ next. (units : List ProgramUnit)
        → option_map (state_view units) next
        ≡ moves.declaration_move units (unit_view unit.entry) section (declaring_view state.entry)
        (symbol_view token.entry) token.entry.line) }
    ensures counted { IfOk result (λ next. IfSome next (λ it. IsStateCounted it)) }
{
    let mut unit = unit;
    match declaration_move(alloc, &mut unit, section, state, token)? {
        Some(place) => Ok(Some(section_state(alloc, unit, section, place))),
        None => Ok(None),
    }
}

/// Adds the unit whose body is done to the whole ones.
fn end_unit<'a>(units: &mut Vec<Unit<'a>, Global>, body: Body<'a>) -> Result<(), AllocError>
    ensures { OnOk result
        (moves.Outside (map unit_view units.new.items)
        ≡ moves.after_unit (position_view (map unit_view units.old.items) body.entry)) }
{
    let Body { unit, done, .. } = body;
    let Unit {
        kind,
        line,
        name,
        declarations,
        ..
    } = unit;
    units.push(Unit {
        kind,
        line,
        name,
        declarations,
        body: done,
    })?;
    Ok(())
}

/// How far the text has been read whose body has been read so far, if it goes on. A unit that is
/// done is added to the whole ones.
#[inline(always)]
fn body_state<'a>(
    units: &mut Vec<Unit<'a>, Global>,
    body: Body<'a>,
    place: Option<BodyPlace<'a>>,
) -> Result<Option<TextState<'a>>, AllocError>
    requires { IfSome place (λ it. IsCounted body) }
    ensures following { IfOk result
        (λ state.
        option_map (state_view (map unit_view units.new.items)) state
        ≡ option_map (place_view (position_view (map unit_view units.old.items) body.entry))
        place.entry) }
    ensures counted { IfOk result (λ state. IfSome state (λ it. IsStateCounted it)) }
{
    match place {
        Some(BodyPlace::Within(place)) => Ok(Some(TextState::InBody(body, place))),
        Some(BodyPlace::InSection(section)) => Ok(Some(TextState::Declaring(
            body.unit,
            section,
            DeclarationState::Undeclared,
        ))),
        Some(BodyPlace::AfterUnit) => {
            end_unit(units, body)?;
            Ok(Some(TextState::Outside))
        }
        None => Ok(None),
    }
}

/// After one more token of a body.
#[inline(always)]
fn in_body<'a>(
    alloc: Global,
    units: &mut Vec<Unit<'a>, Global>,
    body: Body<'a>,
    place: LinePlace<'a>,
    token: Token<'a>,
    colon: bool,
) -> Result<Option<TextState<'a>>, AllocError>
    requires { IsCounted body }
    ensures following { IfOk result
        (λ next.
        option_map (state_view (map unit_view units.new.items)) next
        ≡ moves.move
        (line_place_view (position_view (map unit_view units.old.items) body.entry) place.entry)
        (symbol_view token.entry) token.entry.line colon) }
    ensures counted { IfOk result (λ next. IfSome next (λ it. IsStateCounted it)) }
{
    let mut body = body;
    let next = place_move(alloc, &mut body, place, token, colon)?;
    body_state(units, body, next)
}

/// After one more token; none if no text goes on so. `colon` says whether a colon follows it. A
/// unit that the token ends is added to the whole ones.
#[inline(always)]
pub(crate) fn text_move<'a>(
    alloc: Global,
    units: &mut Vec<Unit<'a>, Global>,
    state: TextState<'a>,
    token: Token<'a>,
    colon: bool,
) -> Result<Option<TextState<'a>>, AllocError>
    requires { IsStateCounted state }
    ensures following { IfOk result
        (λ next.
        option_map (state_view (map unit_view units.new.items)) next
        ≡ moves.move (state_view (map unit_view units.old.items) state.entry)
        (symbol_view token.entry) token.entry.line colon) }
    ensures counted { IfOk result (λ next. IfSome next (λ it. IsStateCounted it)) }
{
    match state {
        TextState::Outside => Ok(outside(token)),
        TextState::Unnamed(kind, line) => Ok(at_name(alloc, kind, line, token)),
        TextState::Declaring(unit, section, state) => in_section(
            alloc, unit, section, state, token,
        ),
        TextState::InBody(body, place) => in_body(alloc, units, body, place, token, colon),
    }
}
