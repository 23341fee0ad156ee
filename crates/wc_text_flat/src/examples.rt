ghost use Rattle.wc_text_flat.specs.Lowered.{IsLowered};
ghost use Rattle.wc_text_flat.specs.Examples.{lowered_scope, lowered_body, lowered_code, jump_runs, jump_ran, parenthesis_runs, parenthesis_ran, timer_runs, timer_ran, call_runs, call_ran, stray_runs, double_runs, moment_runs, unopened_runs};
ghost use Rattle.std.specs.Prelude.{◌≡◌, Some, None};

/// A jump passes over the lines between.
pub fn jump_passes_over()
    ensures { jump_runs ≡ Some jump_ran }
{}

/// A deferred operator acts at its `)`, with an operand on the opening line and without.
pub fn parentheses_defer()
    ensures { parenthesis_runs ≡ Some parenthesis_ran }
{}

/// A call of a TON assigns its arguments, and then acts on the six places of the instance.
pub fn timer_is_called()
    ensures { timer_runs ≡ Some timer_ran }
{}

/// A call of a block of the text runs its code at the instance's places.
pub fn block_is_called()
    ensures { call_runs ≡ Some call_ran }
{}

/// A place that is not there, a 2 stored to a BOOL, the load of a moment, and a `)` that closes nothing have no
/// meaning.
pub fn nothing_else_has_a_meaning()
    ensures place { stray_runs ≡ None }
    ensures bit { double_runs ≡ None }
    ensures moment { moment_runs ≡ None }
    ensures closing { unopened_runs ≡ None }
{}

/// Loads, a jump over a parenthesis, a store and a call of a TON, lowered in a program's frame.
pub fn body_is_lowered()
    ensures { IsLowered lowered_scope lowered_body lowered_code }
{}
