ghost use Rattle.std.specs.Prelude.{◌≡◌, ◌++◌, List, Option, map, Some, if◌then◌else◌};
ghost use Rattle.wc_model.specs.Definitions.{line_rules, Check, first_broken, BodyLine, PlainLine, kind_after, name_of, Scope, assignment_view, term_view, Validates};
ghost use Rattle.wc_model.specs.Language.Tree.{Word, Load, Store, Apply, Jump, Call};
ghost use Rattle.wc_verify.specs.Instructions.{GoesOn, StepGoesOn, step_ahead};
ghost use Rattle.wc_verify.specs.Seeing.{IsScope};

use crate::calls::validate_call;
use crate::refusals::{first_of, refuse, unless, validate_condition};
use crate::seen::see;
use crate::steps::{validate_apply, validate_load, validate_store};
use std::alloc::Global;
use wc_built_in::kind_after_operator;
use wc_model::{Argument, Condition, Fault, Kind, Operand, Operator, StoreKind};
use wc_names::Tables;

/// What follows a line that is checked: the kind of the result after it.
pub(crate) fn kind_following(
    validated: Result<(), Fault>,
    after: Option<Kind>,
) -> Result<Option<Kind>, Fault>
    ensures { (scope : Scope) (line : BodyLine) (following : List BodyLine) (kind : Option Kind)
        (more : List Check)
        → Validates (first_broken (line_rules scope line following kind ++ more))
        (first_broken more) validated → after ≡ kind_after scope line kind
        → GoesOn scope line following kind more result }
{
    validated?;
    Ok(after)
}

/// The kind of the result after LD or LDN.
fn kind_loaded(negated: bool, kind: Option<Kind>) -> Option<Kind>
    ensures { result ≡ (if negated then Some Kind.Bool else kind) }
{
    if negated { Some(Kind::Bool) } else { kind }
}

/// LD and LDN.
pub(crate) fn load<'a>(
    tables: &Tables<'a>,
    unit: usize,
    negated: bool,
    operand: &Operand<'a>,
    line: u32,
) -> Result<Option<Kind>, Fault>
    ensures { (scope : Scope) (kind : Option Kind) → IsScope tables.now unit scope
        → StepGoesOn scope line (Load negated (term_view operand.now)) kind result }
{
    let seen = see(tables, unit, operand);
    let after = kind_loaded(negated, seen.kind);
    kind_following(refuse(validate_load(negated, seen), line), after)
}

/// ST, STN, S and R.
pub(crate) fn store<'a>(
    tables: &Tables<'a>,
    unit: usize,
    storing: StoreKind,
    target: &Operand<'a>,
    line: u32,
    kind: Option<Kind>,
) -> Result<Option<Kind>, Fault>
    ensures { (scope : Scope) → IsScope tables.now unit scope
        → StepGoesOn scope line (Store storing (term_view target.now)) kind result }
{
    let seen = see(tables, unit, target);
    kind_following(refuse(validate_store(storing, seen, kind), line), kind)
}

/// An operator with its operand.
pub(crate) fn apply<'a>(
    tables: &Tables<'a>,
    unit: usize,
    operator: Operator,
    operand: &Operand<'a>,
    line: u32,
    kind: Option<Kind>,
) -> Result<Option<Kind>, Fault>
    ensures { (scope : Scope) → IsScope tables.now unit scope
        → StepGoesOn scope line (Apply operator (term_view operand.now)) kind result }
{
    let seen = see(tables, unit, operand);
    let after = kind_after_operator(operator, kind);
    kind_following(
        refuse(validate_apply(operator, operand, seen, kind), line),
        after,
    )
}

/// A jump: 406 if its label is not ahead, and then the condition.
pub(crate) fn jump(
    is_ahead: bool,
    condition: Condition,
    label: &[u8],
    line: u32,
    kind: Option<Kind>,
) -> Result<Option<Kind>, Fault>
    ensures { (scope : Scope) (word : Option Word) (following : List BodyLine) (more : List Check)
        → step_ahead (Jump condition (name_of label.now)) is_ahead following
        → GoesOn scope
        (PlainLine word line (Jump condition (name_of label.now))) following kind more result }
{
    let _label = label;
    let broken = first_of(unless(is_ahead, 406), validate_condition(condition, kind));
    kind_following(refuse(broken, line), kind)
}

/// A call.
pub(crate) fn call<'a>(
    alloc: Global,
    tables: &Tables<'a>,
    unit: usize,
    condition: Condition,
    instance: &[u8],
    arguments: &[Argument<'a>],
    line: u32,
    kind: Option<Kind>,
) -> Result<Option<Kind>, Fault>
    ensures { (scope : Scope) → IsScope tables.now unit scope
        → StepGoesOn scope line
        (Call condition (name_of instance.now) (map assignment_view arguments.now)) kind result }
{
    let validated = validate_call(
        alloc, tables, unit, condition, instance, arguments, line, kind,
    );
    kind_following(validated, kind)
}
