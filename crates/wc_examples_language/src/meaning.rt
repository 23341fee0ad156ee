ghost use Rattle.std.specs.Prelude.{◌≡◌, [], ◌∷◌, pos, negsuc};
ghost use Rattle.wc_examples_language.specs.Programs.{copies_an_input, does_nothing, keeps_a_conjunction, counts_to_two, may_jump, always_jumps, divides_minus_seven, passes_the_greatest, passes_the_longest_time, long_format, short_format};
ghost use Rattle.wc_examples_language.specs.Refused.{two_counters};
ghost use Rattle.wc_examples_language.specs.Showing.{shown_by, scan, shows};
ghost use Rattle.wc_examples_language.specs.Timers.{on_delay};

/// An input is copied to an output in two steps.
pub fn input_is_copied()
    ensures { shown_by copies_an_input (scan 0 1 ∷ []) ≡ shows 2 1 (pos 0) (pos 0) ∷ [] }
{}

/// An empty body takes no step and leaves the outputs.
pub fn nothing_is_done()
    ensures { shown_by does_nothing (scan 0 0 ∷ []) ≡ shows 0 0 (pos 0) (pos 0) ∷ [] }
{}

/// Variables keep their values from scan to scan, and STN stores the negation.
pub fn conjunction_is_kept()
    ensures { shown_by keeps_a_conjunction (scan 0 3 ∷ scan 1 1 ∷ [])
        ≡ shows 6 2 (pos 0) (pos 0) ∷ shows 6 0 (pos 0) (pos 0) ∷ [] }
{}

/// DIV truncates toward zero, and MOD has the sign of the dividend.
pub fn minus_seven_is_divided()
    ensures { shown_by divides_minus_seven (scan 0 0 ∷ [])
        ≡ shows 6 0 (negsuc 2) (negsuc 0) ∷ [] }
{}

/// A sum above the greatest number wraps to the least, and so does the least divided by -1.
pub fn greatest_is_passed()
    ensures { shown_by passes_the_greatest (scan 0 0 ∷ [])
        ≡ shows 6 0 (negsuc 2147483647) (negsuc 2147483647) ∷ [] }
{}

/// A TIME wraps as a DINT does.
pub fn longest_time_is_passed()
    ensures { shown_by passes_the_longest_time (scan 0 0 ∷ [])
        ≡ shows 4 1 (pos 0) (pos 0) ∷ [] }
{}

/// A deferred AND combines at its `)`: the opening line and the `)` count one each.
pub fn parenthesis_defers()
    ensures { shown_by long_format (scan 0 4 ∷ scan 1 5 ∷ [])
        ≡ shows 6 0 (pos 0) (pos 0) ∷ shows 6 1 (pos 0) (pos 0) ∷ [] }
{}

/// The short form loads its operand first, in one step less.
pub fn short_parenthesis_defers()
    ensures { shown_by short_format (scan 0 4 ∷ scan 1 5 ∷ [])
        ≡ shows 5 0 (pos 0) (pos 0) ∷ shows 5 1 (pos 0) (pos 0) ∷ [] }
{}

/// A conditional jump that does not act, and then one that does.
pub fn jump_may_act()
    ensures { shown_by may_jump (scan 0 0 ∷ scan 1 1 ∷ [])
        ≡ shows 5 1 (pos 0) (pos 0) ∷ shows 3 1 (pos 0) (pos 0) ∷ [] }
{}

/// What a jump passes over is not executed and not counted.
pub fn jump_passes_over()
    ensures { shown_by always_jumps (scan 0 0 ∷ []) ≡ shows 3 0 (pos 2) (pos 0) ∷ [] }
{}

/// A timer is TRUE from 500 ms on, until its preset time is raised to 1 s.
pub fn ton_delays()
    ensures { shown_by on_delay (scan 0 1 ∷ scan 499 1 ∷ scan 500 1 ∷ scan 600 3 ∷ [])
        ≡ shows 8 0 (pos 0) (pos 0) ∷ shows 8 0 (pos 0) (pos 0) ∷ shows 8 1 (pos 0) (pos 0)
        ∷ shows 10 0 (pos 0) (pos 0) ∷ [] }
{}

/// A counter counts edges to its preset value, and is reset.
pub fn counter_counts()
    ensures { shown_by counts_to_two
        (scan 0 1 ∷ scan 1 1 ∷ scan 2 0 ∷ scan 3 1 ∷ scan 4 3 ∷ [])
        ≡ shows 9 0 (pos 1) (pos 0) ∷ shows 9 0 (pos 1) (pos 0) ∷ shows 9 0 (pos 1) (pos 0)
        ∷ shows 9 1 (pos 2) (pos 0) ∷ shows 9 0 (pos 0) (pos 0) ∷ [] }
{}

/// Two instances of a block keep their own variables.
pub fn instances_are_apart()
    ensures { shown_by two_counters (scan 0 1 ∷ scan 10 1 ∷ scan 20 2 ∷ [])
        ≡ shows 21 0 (pos 1) (pos 0) ∷ shows 18 0 (pos 1) (pos 0) ∷ shows 21 0 (pos 1) (pos 1)
        ∷ [] }
{}
