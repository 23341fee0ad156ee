ghost use Rattle.std.specs.Prelude.{◌≡◌, ◌==◌, ◌+◌, ◌∷◌, [], length, min, IfOk, OnOk, MatchOption, List, Some, option_map, Option, None, true, if◌then◌else◌};
ghost use Rattle.wc_laws_grammar.specs.LineMoves as lines;
ghost use Rattle.wc_laws_grammar.specs.Moves as moves;
ghost use Rattle.wc_model.specs.Definitions.{most_lines, name_of, ProgramUnit, lines_view, term_view, unit_view, word_view};
ghost use Rattle.wc_model.specs.Text.Positions as positions;
ghost use Rattle.wc_text_lines.specs.LineViews.{started_view, shape_view, step_view};
ghost use Rattle.wc_text_bodies.specs.Views.{IsCounted, position_view, opening_view, openings_view};

use crate::tree_lines::{label_line, nested_line, step_line};
use std::alloc::{AllocError, Global};
use std::mem;
use wc_model::{Line, MOST_LINES, Operand, Operator, Section, Unit, Word};
use wc_text_lines::{LineShape, StartedLine, Step, section_named};

/// A parenthesis that is open.
#[derive(Drop)]
pub struct Opening<'a> {
    /// The lines before it in its list.
    pub before: Vec<Line<'a>, Global>,
    /// The label and the line of its operator.
    pub started: StartedLine<'a>,
    pub operator: Operator,
    /// What the short form loads first.
    pub operand: Option<Operand<'a>>,
}

/// How far a unit's body has been read: the start of a line.
#[derive(Drop)]
pub struct Body<'a> {
    /// The unit, whose body is empty still.
    pub unit: Unit<'a>,
    /// The parentheses that are open, the innermost last.
    pub openings: Vec<Opening<'a>, Global>,
    /// The lines that are done in the innermost of them, or else in the body.
    pub done: Vec<Line<'a>, Global>,
    /// The number of the unit's lines before it, up to 1024.
    pub count: usize,
}

/// A body of which nothing has been read.
pub fn body_start<'a>(alloc: Global, unit: Unit<'a>) -> Body<'a>
    ensures start { (units : List ProgramUnit)
        → position_view units result ≡ moves.body_start units (unit_view unit.entry) }
    ensures counted { IsCounted result }
{
    Body {
        unit,
        openings: Vec::new(alloc),
        done: Vec::new(alloc),
        count: 0,
    }
}

/// One line more, as far as lines are counted.
fn one_more(count: usize) -> usize
    ensures { result ≡ min (count + 1) most_lines }
{
    if count < MOST_LINES {
        count + 1
    } else {
        MOST_LINES
    }
}

/// Adds a label alone after a body's lines.
#[inline(always)]
pub fn add_label<'a>(body: &mut Body<'a>, label: Word<'a>) -> Result<(), AllocError>
    requires { IsCounted body.old }
    ensures following { OnOk result
        ((units : List ProgramUnit)
        → position_view units body.new
        ≡ moves.after_line (position_view units body.old)
        (lines.LabelAlone (word_view label.entry))) }
    ensures counted { OnOk result (IsCounted body.new) }
{
    body.done.push(label_line(label))?;
    Ok(())
}

/// Adds an instruction after a body's lines.
#[inline(always)]
pub fn add_step<'a>(
    body: &mut Body<'a>,
    started: StartedLine<'a>,
    step: Step<'a>,
) -> Result<(), AllocError>
    requires { IsCounted body.old }
    ensures following { OnOk result
        ((units : List ProgramUnit)
        → position_view units body.new
        ≡ moves.after_line (position_view units body.old)
        (lines.Instructs (option_map word_view started.entry.label) started.entry.line
        (step_view step.entry))) }
    ensures counted { OnOk result (IsCounted body.new) }
{
    body.done.push(step_line(started, step))?;
    body.count = one_more(body.count);
    Ok(())
}

/// Adds an opening line after a body's lines.
fn add_opening<'a>(
    alloc: Global,
    body: &mut Body<'a>,
    started: StartedLine<'a>,
    operator: Operator,
    operand: Option<Operand<'a>>,
) -> Result<(), AllocError>
    requires { IsCounted body.old }
    ensures following { OnOk result
        ((units : List ProgramUnit)
        → position_view units body.new
        ≡ moves.after_line (position_view units body.old)
        (lines.Opens (option_map word_view started.entry.label) started.entry.line operator
        (option_map term_view operand.entry))) }
    ensures counted { OnOk result (IsCounted body.new) }
{
    let before = mem::replace(&mut body.done, Vec::new(alloc));
    body.openings.push(Opening {
        before,
        started,
        operator,
        operand,
    })?;
    body.count = one_more(body.count);
    Ok(())
}

/// Adds the line of an instruction after a body's lines.
#[inline(always)]
pub fn add_shape<'a>(
    alloc: Global,
    body: &mut Body<'a>,
    started: StartedLine<'a>,
    line_shape: LineShape<'a>,
) -> Result<(), AllocError>
    requires { IsCounted body.old }
    ensures following { OnOk result
        ((units : List ProgramUnit)
        → position_view units body.new
        ≡ moves.after_line (position_view units body.old)
        (shape_view (started_view started.entry) line_shape.entry)) }
    ensures counted { OnOk result (IsCounted body.new) }
{
    match line_shape {
        LineShape::Instructs(step) => add_step(body, started, step),
        LineShape::Opens(operator, operand) => add_opening(alloc, body, started, operator, operand),
    }
}

/// Whether a parenthesis holds something.
pub(crate) fn has_content<'a>(opening: &Opening<'a>, done: &[Line<'a>]) -> bool
    requires { moves.are_no_lines (lines_view done.now) ≡ (length done.now == 0) }
    ensures { result
        ≡ moves.has_content (opening_view opening.now).operand (lines_view done.now) }
{
    match opening.operand {
        Some(_) => true,
        None => !done.is_empty(),
    }
}

/// Closes the innermost parenthesis at its `)`, and says whether there is one that holds something.
pub fn close<'a>(body: &mut Body<'a>, close: u32) -> Result<bool, AllocError>
    requires { IsCounted body.old }
    ensures following { IfOk result
        (λ closed.
        (units : List ProgramUnit) (innermost : positions.Opening) (outer : List positions.Opening)
        → (position_view units body.old).openings ≡ innermost ∷ outer
        → (if closed then Some (moves.Closed (position_view units body.new)) else None)
        ≡ moves.closing_move (position_view units body.old) innermost outer close) }
    ensures counted { IfOk result (λ closed. closed ≡ true → IsCounted body.new) }
{
    match body.openings.pop() {
        None => Ok(false),
        Some(opening) => {
            if has_content(&opening, &body.done) {
                let Opening {
                    before,
                    started,
                    operator,
                    operand,
                } = opening;
                let inside = mem::replace(&mut body.done, before);
                body.done
                    .push(nested_line(started, operator, operand, inside, close))?;
                body.count = one_more(body.count);
                Ok(true)
            } else {
                Ok(false)
            }
        }
    }
}

/// The innermost of the parentheses that are open.
pub(crate) fn innermost<'b, 'a>(openings: &'b [Opening<'a>]) -> Option<&'b Opening<'a>>
    ensures { MatchOption result (openings_view [] openings.now ≡ [])
        (λ it. (outer : List positions.Opening)
        × (openings_view [] openings.now ≡ opening_view it.now ∷ outer)) }
{
    match openings.split_last() {
        Some((last, _)) => Some(last),
        None => None,
    }
}

/// Whether the unit has as many lines as it may.
pub fn is_full(body: &Body) -> bool
    requires { IsCounted body.now }
    ensures { (units : List ProgramUnit)
        → result ≡ moves.is_full (position_view units body.now) }
{
    body.count >= MOST_LINES
}

/// The section that a word begins, if no line of the body has come.
pub fn section_of_word(done: &[Line], text: &[u8]) -> Option<Section>
    requires { moves.are_no_lines (lines_view done.now) ≡ (length done.now == 0) }
    ensures { result ≡ moves.section_of_word (lines_view done.now) (name_of text.now) }
{
    if done.is_empty() {
        section_named(text)
    } else {
        None
    }
}
