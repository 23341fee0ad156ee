ghost use Rattle.std.specs.Prelude.{◌≡◌, ◌++◌, List, map, option_map, flat_map};
ghost use Rattle.wc_model.specs.Definitions.{Check, first_broken, body_name_checks, label_checks, operand_checks, term_checks, is_block, Lines, ProgramUnit, assignment_view, line_view, lines_view, term_view, word_view, Validates};
ghost use Rattle.wc_declare.specs.SoFar.{TakesNoMemory};

use wc_built_in::{is_reserved, variable_at};
use wc_model::{Argument, Fault, Instr, Line, Operand, Word};

/// A refusal.
pub(crate) fn refusal(number: u16, place: u32) -> Fault
    ensures { result ≡ Fault.Refused number place }
{
    Fault::Refused { number, place }
}

/// Checks a label by 307.
fn validate_label<'a>(label: Option<Word<'a>>) -> Result<(), Fault>
    ensures validated { (rest : List Check)
        → Validates (first_broken (label_checks (option_map word_view label.entry) ++ rest))
        (first_broken rest) result }
    ensures refuses { TakesNoMemory result }
{
    match label {
        Some(word) if is_reserved(word.text) => Err(refusal(307, word.line)),
        _ => Ok(()),
    }
}

/// Checks an operand: an address by 305 in a block, by 304 elsewhere.
fn validate_operand<'a>(in_block: bool, operand: &Operand<'a>) -> Result<(), Fault>
    ensures validated { (unit : ProgramUnit) (rest : List Check) → in_block ≡ is_block unit
        → Validates (first_broken (term_checks unit (term_view operand.now) ++ rest))
        (first_broken rest) result }
    ensures refuses { TakesNoMemory result }
{
    match operand {
        Operand::Address(word) if in_block => Err(refusal(305, word.line)),
        Operand::Address(word) if variable_at(word.text).is_none() => {
            Err(refusal(304, word.line))
        }
        _ => Ok(()),
    }
}

/// Checks the values of a call's arguments.
fn validate_arguments<'a>(in_block: bool, arguments: &[Argument<'a>]) -> Result<(), Fault>
    ensures validated { (unit : ProgramUnit) (rest : List Check) → in_block ≡ is_block unit
        → Validates
        (first_broken
        (flat_map (λ a. term_checks unit a.actual) (map assignment_view arguments.now) ++ rest))
        (first_broken rest) result }
    ensures refuses { TakesNoMemory result }
{
    for argument in arguments {
        validate_operand(in_block, &argument.value)?;
    }
    Ok(())
}

/// Checks the operand of an opening line, if there is one.
fn validate_first<'a>(in_block: bool, operand: &Option<Operand<'a>>) -> Result<(), Fault>
    ensures validated { (unit : ProgramUnit) (rest : List Check) → in_block ≡ is_block unit
        → Validates (first_broken (operand_checks unit (option_map term_view operand.now) ++ rest))
        (first_broken rest) result }
    ensures refuses { TakesNoMemory result }
{
    match operand {
        Some(operand) => validate_operand(in_block, operand),
        None => Ok(()),
    }
}

/// Checks a line with the lines inside it: each label and address.
fn validate_line<'a>(in_block: bool, line: &Line<'a>) -> Result<(), Fault>
    ensures validated { (unit : ProgramUnit) (others : Lines) (rest : List Check)
        → in_block ≡ is_block unit
        → Validates (first_broken (body_name_checks unit (line_view line.now others) ++ rest))
        (first_broken (body_name_checks unit others ++ rest)) result }
    ensures refuses { TakesNoMemory result }
{
    validate_label(line.label)?;
    let Some(instr) = &line.instr else {
        return Ok(());
    };
    match instr {
        Instr::Load { operand, .. } => validate_operand(in_block, operand),
        Instr::Store { target, .. } => validate_operand(in_block, target),
        Instr::Apply { operand, .. } => validate_operand(in_block, operand),
        Instr::Call { arguments, .. } => validate_arguments(in_block, arguments),
        Instr::Defer {
            operand,
            inside,
            ..
        } => {
            validate_first(in_block, operand)?;
            for inner in inside {
                validate_line(in_block, inner)?;
            }
            Ok(())
        }
        Instr::Not { .. } | Instr::Jump { .. } | Instr::Return { .. } => Ok(()),
    }
}

/// Checks the lines of a body: each label and address.
pub(crate) fn validate_body<'a>(in_block: bool, lines: &[Line<'a>]) -> Result<(), Fault>
    ensures validated { (unit : ProgramUnit) (rest : List Check) → in_block ≡ is_block unit
        → Validates (first_broken (body_name_checks unit (lines_view lines.now) ++ rest))
        (first_broken rest) result }
    ensures refuses { TakesNoMemory result }
{
    for line in lines {
        validate_line(in_block, line)?;
    }
    Ok(())
}
