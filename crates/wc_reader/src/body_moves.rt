ghost use Rattle.std.specs.Prelude.{◌≡◌, ◌∷◌, ℕ, Bool, IfOk, IfSome, List, OnOk, Some, option_map};
ghost use Rattle.wc_laws_grammar.specs.Moves as moves;
ghost use Rattle.wc_model.specs.Text.Marks as marks;
ghost use Rattle.wc_model.specs.Text.Positions as positions;
ghost use Rattle.wc_model.specs.Language.Tree.{ProgramUnit};
ghost use Rattle.wc_text_lines.specs.LineViews.{started_view, in_line_view, line_state_view};
ghost use Rattle.wc_text_bodies.specs.Views.{IsCounted, position_view};
ghost use Rattle.wc_reader.specs.TextViews.{LeadsOn, line_place_view, place_view};
ghost use Rattle.wc_text_lines.specs.Words.{symbol_view};

use crate::text_state::{BodyPlace, LinePlace};
use std::alloc::{AllocError, Global};
use wc_lexer::{Shape, Token};
use wc_text_bodies::{Body, add_label, add_shape, close, section_of_word};
use wc_text_lines::{
    InLine, LineState, StartedLine, at_start, at_start_inside, ends_unit, line_move,
};

/// On the line of an instruction, or after its end.
#[inline(always)]
fn in_line_place<'a>(
    alloc: Global,
    body: &mut Body<'a>,
    started: StartedLine<'a>,
    state: InLine<'a>,
) -> Result<LinePlace<'a>, AllocError>
    requires { IsCounted body.old }
    ensures following { IfOk result
        (λ place. (units : List ProgramUnit)
        → line_place_view (position_view units body.new) place
        ≡ moves.on_line (position_view units body.old)
        (in_line_view (started_view started.entry) state.entry)) }
    ensures counted { OnOk result (IsCounted body.new) }
{
    match state {
        InLine::Formed(line_shape, true) => {
            add_shape(alloc, body, started, line_shape)?;
            Ok(LinePlace::AtLine)
        }
        state => Ok(LinePlace::OnLine(LineState::Instructing(started, state))),
    }
}

/// On a line, or after its end.
#[inline(always)]
fn line_place<'a>(
    alloc: Global,
    body: &mut Body<'a>,
    line: LineState<'a>,
) -> Result<LinePlace<'a>, AllocError>
    requires { IsCounted body.old }
    ensures following { IfOk result
        (λ place. (units : List ProgramUnit)
        → line_place_view (position_view units body.new) place
        ≡ moves.on_line (position_view units body.old) (line_state_view line.entry)) }
    ensures counted { OnOk result (IsCounted body.new) }
{
    match line {
        LineState::LabelAlone(label) => {
            add_label(body, label)?;
            Ok(LinePlace::AtLine)
        }
        LineState::Instructing(started, state) => in_line_place(alloc, body, started, state),
        line => Ok(LinePlace::OnLine(line)),
    }
}

/// On a line, or after its end, if a line goes on so.
#[inline(always)]
fn on_line<'a>(
    alloc: Global,
    body: &mut Body<'a>,
    line: Option<LineState<'a>>,
) -> Result<Option<BodyPlace<'a>>, AllocError>
    requires { IsCounted body.old }
    ensures following { LeadsOn body.old body.new result
        (λ p. moves.started_line p (option_map line_state_view line.entry)) }
    ensures counted { IfOk result (λ next. IfSome next (λ place. IsCounted body.new)) }
{
    match line {
        Some(line) => match line_place(alloc, body, line) {
            Ok(place) => Ok(Some(BodyPlace::Within(place))),
            Err(error) => Err(error),
        },
        None => Ok(None),
    }
}

/// After the first word of a line of a body with no parenthesis open, which no colon follows: it
/// may end the unit, or begin a section.
#[inline(always)]
fn at_body_word<'a>(
    alloc: Global,
    body: &mut Body<'a>,
    token: Token<'a>,
) -> Result<Option<BodyPlace<'a>>, AllocError>
    requires counted { IsCounted body.old }
    requires identifier { symbol_view token ≡ marks.Identifier token.text.now }
    ensures following { LeadsOn body.old body.new result
        (λ p. moves.word_move p token.entry.text.now token.entry.line) }
    ensures counted { IfOk result (λ next. IfSome next (λ place. IsCounted body.new)) }
{
    if ends_unit(token.text, body.unit.kind) {
        return Ok(Some(BodyPlace::AfterUnit));
    }
    match section_of_word(&body.done, token.text) {
        Some(section) => Ok(Some(BodyPlace::InSection(section))),
        None => on_line(alloc, body, at_start(token, false)),
    }
}

/// After the first token of a line of a body with no parenthesis open, other than a line end.
#[inline(always)]
fn at_body_line<'a>(
    alloc: Global,
    body: &mut Body<'a>,
    token: Token<'a>,
    colon: bool,
) -> Result<Option<BodyPlace<'a>>, AllocError>
    requires { IsCounted body.old }
    ensures following { LeadsOn body.old body.new result
        (λ p. moves.body_move p (symbol_view token.entry) token.entry.line colon) }
    ensures counted { IfOk result (λ next. IfSome next (λ place. IsCounted body.new)) }
{
    if colon {
        return on_line(alloc, body, at_start(token, true));
    }
    match token.shape {
        Shape::Identifier => at_body_word(alloc, body, token),
        _ => on_line(alloc, body, at_start(token, false)),
    }
}

/// After the first token of a line in parentheses, other than a line end.
#[inline(always)]
fn at_inside_line<'a>(
    alloc: Global,
    body: &mut Body<'a>,
    token: Token<'a>,
) -> Result<Option<BodyPlace<'a>>, AllocError>
    requires { IsCounted body.old }
    ensures following { IfOk result
        (λ next.
        (units : List ProgramUnit) (innermost : positions.Opening) (outer : List positions.Opening)
        → (position_view units body.old).openings ≡ innermost ∷ outer
        → option_map (place_view (position_view units body.new)) next
        ≡ moves.inside_move (position_view units body.old) innermost outer
        (symbol_view token.entry) token.entry.line) }
    ensures counted { IfOk result (λ next. IfSome next (λ place. IsCounted body.new)) }
{
    match token.shape {
        Shape::Closing => {
            if close(body, token.line)? {
                Ok(Some(BodyPlace::Within(LinePlace::Closed)))
            } else {
                Ok(None)
            }
        }
        _ => on_line(alloc, body, at_start_inside(token)),
    }
}

/// After one more token at the start of a line.
#[inline(always)]
fn at_line<'a>(
    alloc: Global,
    body: &mut Body<'a>,
    token: Token<'a>,
    colon: bool,
) -> Result<Option<BodyPlace<'a>>, AllocError>
    requires { IsCounted body.old }
    ensures following { LeadsOn body.old body.new result
        (λ p. moves.move (moves.AtLine p) (symbol_view token.entry) token.entry.line colon) }
    ensures counted { IfOk result (λ next. IfSome next (λ place. IsCounted body.new)) }
{
    match token.shape {
        Shape::LineEnd => Ok(Some(BodyPlace::Within(LinePlace::AtLine))),
        _ => {
            if body.openings.is_empty() {
                at_body_line(alloc, body, token, colon)
            } else {
                at_inside_line(alloc, body, token)
            }
        }
    }
}

/// After one more token of a line that has started.
#[inline(always)]
fn along_line<'a>(
    alloc: Global,
    body: &mut Body<'a>,
    line: LineState<'a>,
    token: Token<'a>,
) -> Result<Option<BodyPlace<'a>>, AllocError>
    requires { IsCounted body.old }
    ensures following { IfOk result
        (λ next. (units : List ProgramUnit) (colon : Bool)
        → option_map (place_view (position_view units body.new)) next
        ≡ moves.move (moves.OnLine (position_view units body.old) (line_state_view line.entry))
        (symbol_view token.entry) token.entry.line colon) }
    ensures counted { IfOk result (λ next. IfSome next (λ place. IsCounted body.new)) }
{
    let line = line_move(alloc, line, token)?;
    on_line(alloc, body, line)
}

/// After the token that follows a `)`: the line's end.
fn after_closing<'a>(token: Token<'a>) -> Option<BodyPlace<'a>>
    ensures { (p : positions.Position) (line : ℕ) (colon : Bool)
        → option_map (place_view p) result
        ≡ moves.move (moves.Closed p) (symbol_view token.entry) line colon }
{
    match token.shape {
        Shape::LineEnd => Some(BodyPlace::Within(LinePlace::AtLine)),
        _ => None,
    }
}

/// After one more token of a body; none if no body goes on so. `colon` says whether a colon
/// follows it.
#[inline(always)]
pub(crate) fn place_move<'a>(
    alloc: Global,
    body: &mut Body<'a>,
    place: LinePlace<'a>,
    token: Token<'a>,
    colon: bool,
) -> Result<Option<BodyPlace<'a>>, AllocError>
    requires { IsCounted body.old }
    ensures following { LeadsOn body.old body.new result
        (λ p. moves.move (line_place_view p place.entry) (symbol_view token.entry) token.entry.line
        colon) }
    ensures counted { IfOk result (λ next. IfSome next (λ place. IsCounted body.new)) }
{
    match place {
        LinePlace::AtLine => at_line(alloc, body, token, colon),
        LinePlace::OnLine(line) => along_line(alloc, body, line, token),
        LinePlace::Closed => Ok(after_closing(token)),
    }
}
