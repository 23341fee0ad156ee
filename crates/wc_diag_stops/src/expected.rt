ghost use Rattle.std.specs.Prelude.{◌≡◌, List};
ghost use Rattle.wc_text_bodies.specs.Views.{position_view, declaring_view};
ghost use Rattle.wc_laws_grammar.specs.LineMoves as lines;
ghost use Rattle.wc_text_lines.specs.LineViews.{in_line_view, item_view, line_state_view};
ghost use Rattle.wc_model.specs.Language.Tree.{ProgramUnit};
ghost use Rattle.wc_diag_stops.specs.Allowed.{allowed, allowed_at_line, allowed_in_declaration, allowed_in_list, allowed_on_line};
ghost use Rattle.wc_diag_stops.specs.Listed.{ListsAll, ListsNoOther};
ghost use Rattle.wc_reader.specs.TextViews.{line_place_view, reading_view};

use wc_diag_texts::Expected;
use wc_reader::{LinePlace, Progress, TextState, has_program};
use wc_text_bodies::{Body, DeclarationState};
use wc_text_lines::{InLine, InList, LineShape, LineState, OperandOf, OperandOperator};

/// In a section of declarations.
fn in_declaration(state: &DeclarationState) -> Expected
    ensures { result ≡ allowed_in_declaration (declaring_view state.now) }
{
    match state {
        DeclarationState::Undeclared => Expected::NameOrEndVar,
        DeclarationState::AfterNames(_) => Expected::CommaOrColon,
        DeclarationState::AfterComma(_) => Expected::Name,
        DeclarationState::AfterColon(_) => Expected::TypeName,
        DeclarationState::AfterType(..) => Expected::AssignOrSemicolon,
        DeclarationState::AfterAssign(..) => Expected::Literal,
        DeclarationState::AfterValue(..) => Expected::Semicolon,
    }
}

/// In the list of a call.
fn in_list(item: &InList) -> Expected
    ensures { result ≡ allowed_in_list (item_view item.now) }
{
    match item {
        InList::AtFirst => Expected::FormalOrClosing,
        InList::AtNext => Expected::Formal,
        InList::AtAssign(_) => Expected::AssignOrArrow,
        InList::AtValue(_) => Expected::Operand,
        InList::AtEnd => Expected::CommaOrClosing,
    }
}

/// In an instruction.
fn in_instruction(state: &InLine) -> Expected
    ensures { (started : lines.StartedLine) → result
        ≡ allowed_on_line (in_line_view started state.now) }
{
    match state {
        InLine::Operated(OperandOperator::Applies(_)) => Expected::OperandOrOpening,
        InLine::Operated(OperandOperator::Loads(_) | OperandOperator::Stores(_)) =>
            Expected::Operand,
        InLine::Jumped(_) => Expected::Label,
        InLine::Called(_) => Expected::Instance,
        InLine::Instanced(..) => Expected::OpeningOrLineEnd,
        InLine::Listing(_, item) => in_list(item),
        InLine::Named(OperandOf::OfArgument(..), _, false) => Expected::CommaPointOrClosing,
        InLine::Named(_, _, false) => Expected::PointOrLineEnd,
        InLine::Named(_, _, true) => Expected::Field,
        InLine::Formed(LineShape::Opens(_, None), false) => Expected::OperandOrLineEnd,
        InLine::Formed(..) => Expected::LineEnd,
    }
}

/// On a line that has started.
fn on_line(line: &LineState) -> Expected
    ensures { result ≡ allowed_on_line (line_state_view line.now) }
{
    match line {
        LineState::Worded(_) => Expected::LabelColon,
        LineState::Labelled(_) => Expected::InstructionOrLineEnd,
        LineState::LabelAlone(_) => Expected::LineEnd,
        LineState::Instructing(_, state) => in_instruction(state),
    }
}

/// At the start of a line.
fn at_line(body: &Body) -> Expected
    ensures { (units : List ProgramUnit)
        → result ≡ allowed_at_line (position_view units body.now).openings }
{
    if body.openings.is_empty() {
        Expected::Instruction
    } else {
        Expected::InstructionOrClosing
    }
}

/// In a body.
fn in_body(body: &Body, place: &LinePlace) -> Expected
    ensures { (units : List ProgramUnit)
        → result ≡ allowed (line_place_view (position_view units body.now) place.now) }
{
    match place {
        LinePlace::AtLine => at_line(body),
        LinePlace::OnLine(line) => on_line(line),
        LinePlace::Closed => Expected::LineEnd,
    }
}

/// What could come next in a text that has been read so far.
pub(crate) fn expected_at(reading: &Progress) -> Expected
    ensures { result ≡ allowed (reading_view reading.now) }
{
    match &reading.state {
        TextState::Outside if has_program(&reading.units) => Expected::Nothing,
        TextState::Outside => Expected::UnitWord,
        TextState::Unnamed(..) => Expected::UnitName,
        TextState::Declaring(_, _, state) => in_declaration(state),
        TextState::InBody(body, place) => in_body(body, place),
    }
}

/// What the sentence about an unexpected token lists is exact: each token with which the text goes on is in the list, but for the
/// end of a line where lines may end anywhere; and none that is in the list is unexpected.
pub fn the_list_is_exact()
    ensures all { ListsAll }
    ensures no_other { ListsNoOther }
{}
