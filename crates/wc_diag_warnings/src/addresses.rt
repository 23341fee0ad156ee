ghost use Rattle.std.specs.Prelude.{◌≡◌, ◌<◌, ℕ, Bool, false, IfSome, nat_eq, option_map};
ghost use Rattle.std.specs.List.{list_any};
ghost use Rattle.std.specs.Option.{option_map_or};
ghost use Rattle.wc_built_in.specs.Fields.{direct_at};
ghost use Rattle.wc_model.specs.Definitions.{DirectVariable, term_view};
ghost use Rattle.wc_diag_warnings.specs.Uses.{is_direct, is_such, reads_valid, reads_weight, stores};
ghost use Rattle.wc_diag_warnings.specs.Seen.{event_view};

use crate::events::{Action, Event};
use wc_built_in::variable_at;
use wc_model::Operand;

/// The number of the first output among the directly represented variables; the outputs are the last of them.
pub(crate) const FIRST_OUTPUT: u8 = 25;

/// The number of the directly represented variable that an operand is.
fn direct_of(operand: &Operand<'_>) -> Option<u8>
    ensures such { (test : DirectVariable → Bool)
        → is_such test (option_map direct_at result) ≡ is_direct test (term_view operand.now) }
    ensures small { IfSome result (λ number. number < 45) }
{
    match operand {
        Operand::Address(word) => variable_at(word.text),
        Operand::Literal(_) | Operand::Name(_) | Operand::Field { .. } => None,
    }
}

/// The number of the directly represented variable that the event stores.
pub(crate) fn stored_variable(event: &Event<'_>) -> Option<u8>
    ensures number { (number : ℕ)
        → option_map_or (nat_eq number) result false ≡ stores number (event_view event.now) }
    ensures small { IfSome result (λ number. number < 45) }
{
    match &event.action {
        Action::Store(target) => direct_of(target),
        _ => None,
    }
}

/// Whether the event reads a weight, `%ID0` to `%ID2`.
pub(crate) fn reads_weight(event: &Event<'_>) -> bool
    ensures { result ≡ reads_weight (event_view event.now) }
{
    match &event.action {
        Action::Read(operand) => matches!(direct_of(operand), Some(22..=24)),
        _ => false,
    }
}

/// Whether the event reads `%IX1.5`, which says that there is an indication.
fn reads_valid(event: &Event<'_>) -> bool
    ensures { result ≡ reads_valid (event_view event.now) }
{
    match &event.action {
        Action::Read(operand) => direct_of(operand) == Some(21),
        _ => false,
    }
}

/// Whether some event reads `%IX1.5`.
pub(crate) fn is_asked(events: &[Event<'_>]) -> bool
    ensures { result ≡ list_any (λ event. reads_valid (event_view event)) events.now }
{
    events.iter().any(|event| reads_valid(event))
}
