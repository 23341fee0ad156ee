ghost use Rattle.std.specs.Prelude.{◌≡◌, Bool, List, Option, OnOk, IsOkUnless, option_map};
ghost use Rattle.wc_model.specs.Definitions.{BodyLine, jumps_to, leaves, step_leaves, Name, name_of, Word, Return};
ghost use Rattle.wc_verify.specs.Instructions.{AsksAhead, SaysAhead, instr_line};
ghost use Rattle.wc_verify.specs.Bodies.{is_target, jumped_row, row_named};

use crate::edges::with_way;
use crate::labels::{LabelRow, Labels};
use wc_model::{Condition, Fault, Instr, Kind};

/// Where a jump goes on, as it is spelled.
pub(crate) fn target<'a>(instr: &Instr<'a>) -> Option<&'a [u8]>
    ensures jumps { (label : Option Word) (name : Name)
        → jumps_to (instr_line instr.now label) name
        ≡ is_target (option_map (λ t. name_of t.now) result) name }
    ensures asks { (label : Option Word) (ahead : Bool) (following : List BodyLine)
        → AsksAhead (option_map (λ t. name_of t.now) result) ahead following
        → SaysAhead (instr_line instr.now label) ahead following }
{
    match instr {
        Instr::Jump { label, .. } => Some(*label),
        _ => None,
    }
}

/// Whether a return or a jump always acts.
fn is_always(condition: Condition) -> bool
    ensures { result ≡ step_leaves (Return condition) }
{
    matches!(condition, Condition::Always)
}

/// Whether the next line is never reached from an instruction.
pub(crate) fn leaves(instr: &Instr<'_>) -> bool
    ensures { (label : Option Word) → leaves (instr_line instr.now label) ≡ result }
{
    match instr {
        Instr::Jump { condition, .. } => is_always(*condition),
        Instr::Return { condition, .. } => is_always(*condition),
        _ => false,
    }
}

/// Keeps a jump, if an instruction is one, with the kind of the result that it brings to its label.
pub(crate) fn note<'a>(
    labels: &mut Labels<'a>,
    target: Option<&'a [u8]>,
    kind: Option<Kind>,
) -> Result<(), Fault>
    ensures rows { OnOk result
        ((name : Name)
        → row_named labels.new name
        ≡ jumped_row (is_target (option_map (λ t. name_of t.now) target.entry) name) kind
        (row_named labels.old name)) }
    ensures memory { IsOkUnless result Fault.Memory }
{
    let Some(name) = target else {
        return Ok(());
    };
    let row = labels.row(name);
    let jumped = LabelRow {
        way: with_way(kind, row.way),
        ..row
    };
    labels.set(name, jumped)
}
