ghost use Rattle.std.specs.Prelude.{◌≡◌, ◌∷◌};
ghost use Rattle.wc_model.specs.Definitions.{PlateData, SetZero, SetTare, History};
ghost use Rattle.wc_model.specs.Instrument.Answers as answers;
ghost use Rattle.wc_indicator.specs.Kept.{RepresentsHistory, Reports};
ghost use Rattle.wc_sma.specs.Replies.{asked_view, reply_bytes};
ghost use Rattle.wc_sma.specs.Feeding.{Adds};
ghost use Rattle.wc_sma.specs.Seen.{command_view};

use crate::answers::{Mode, RequestOutcome};
use crate::command::Command;
use wc_indicator::Indicator;

/// What the line answers to a request.
#[derive(Clone, Copy)]
pub(crate) enum Reply {
    /// The status and this weight, and what it is an answer to.
    Weight(Mode, RequestOutcome),
    Unknown,
}

/// Sets zero, and says what the answer is to.
fn set_zero(indicator: &mut Indicator) -> RequestOutcome
    ensures adds { Adds (λ history. SetZero ∷ history) indicator.old indicator.new }
    ensures asked { Reports answers.asked_zero indicator.old (asked_view result) }
{
    match indicator.set_zero() {
        Ok(()) => RequestOutcome::Plain,
        Err(_) => RequestOutcome::ZeroRefused,
    }
}

/// Takes a tare, and says what the answer is to.
fn take_tare(indicator: &mut Indicator) -> RequestOutcome
    ensures adds { Adds (λ history. SetTare ∷ history) indicator.old indicator.new }
    ensures asked { Reports answers.asked_tare indicator.old (asked_view result) }
{
    match indicator.set_tare() {
        Ok(()) => RequestOutcome::Plain,
        Err(_) => RequestOutcome::TareRefused,
    }
}

/// Acts on a request, and gives the reply, which gives the indication after it.
pub(crate) fn act(command: Command, indicator: &mut Indicator) -> Reply
    ensures adds { Adds (answers.after_command (command_view command)) indicator.old
        indicator.new }
    ensures answer { (p : PlateData) (history : History) → RepresentsHistory indicator.old p history
        → reply_bytes p (answers.after_command (command_view command) history) result
        ≡ answers.answer_to p (command_view command) history }
{
    match command {
        Command::AskWeight => Reply::Weight(Mode::Shown, RequestOutcome::Plain),
        Command::Zero => Reply::Weight(Mode::Shown, set_zero(indicator)),
        Command::TakeTare => Reply::Weight(Mode::Shown, take_tare(indicator)),
        Command::AskTare => Reply::Weight(Mode::Tare, RequestOutcome::Plain),
        Command::Clear => {
            indicator.clear_tare();
            Reply::Weight(Mode::Shown, RequestOutcome::Plain)
        }
        Command::Unknown => Reply::Unknown,
    }
}
