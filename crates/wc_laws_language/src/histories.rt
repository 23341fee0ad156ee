//! Laws of the histories of the standard blocks over a change of the program. Each function has an
//! empty body: its clause is the law.
ghost use Rattle.wc_laws_language.specs.HistoryLaws.{ACallAddsToTheHistory, HistoriesGoOnOverAChange};

/// The fields of an instance of a standard block that fit a history of calls fit it with the next call more after that call,
/// whatever its inputs are.
pub fn a_call_adds_to_the_history()
    ensures { ACallAddsToTheHistory }
{}

/// An instance of a standard block that a change keeps has the history after it that it had before, and its next call adds to
/// this.
pub fn histories_go_on_over_a_change()
    ensures { HistoriesGoOnOverAChange }
{}
