ghost use Rattle.std.specs.Prelude.{◌≡◌, [], ◌∷◌, pos, true, false, Some, reverse};
ghost use Rattle.wc_examples_language.specs.Timers.{all_hold, field, lowered_calls, negative_calls, outputs, phases, pulse_calls, pulses, pulses_moved, pulses_no_more, raised_calls, times};
ghost use Rattle.wc_examples_language.specs.Showing.{shown_by, scan, shows};
ghost use Rattle.wc_model.specs.Definitions.{TpFields, carried, FitsTp, Moment, Phase};

/// TP by its step: a pulse of the preset time, whatever IN does in it, and no other before IN is FALSE.
pub fn pulse_steps()
    ensures outputs { outputs pulse_calls ≡ true ∷ true ∷ false ∷ false ∷ true ∷ [] }
    ensures times { times pulse_calls ≡ pos 0 ∷ pos 50 ∷ pos 100 ∷ pos 0 ∷ pos 0 ∷ [] }
    ensures phases { phases pulse_calls ≡ 1 ∷ 1 ∷ 2 ∷ 0 ∷ 1 ∷ [] }
{}

/// TP by its history: the fields that fit the same calls have these outputs.
pub fn pulse_is_reported()
    ensures { (f : TpFields) → FitsTp (reverse pulse_calls) f
        → (f.q ≡ true) × (f.et ≡ pos 0) × (f.start ≡ 130) }
{}

/// A PT that is lowered in a pulse ends it; one that is raised after the end begins nothing.
pub fn lowered_preset_ends_the_pulse()
    ensures outputs { outputs lowered_calls ≡ true ∷ false ∷ false ∷ false ∷ [] }
    ensures times { times lowered_calls ≡ pos 0 ∷ pos 40 ∷ pos 200 ∷ pos 0 ∷ [] }
    ensures reported { (f : TpFields) → FitsTp (reverse lowered_calls) f
        → (f.q ≡ false) × (f.phase ≡ 0) }
{}

/// A PT that is raised in a pulse draws it out; with IN FALSE at the end the timer is ready at once.
pub fn raised_preset_draws_the_pulse_out()
    ensures outputs { outputs raised_calls ≡ true ∷ true ∷ true ∷ false ∷ true ∷ [] }
    ensures times { times raised_calls ≡ pos 0 ∷ pos 99 ∷ pos 299 ∷ pos 0 ∷ pos 0 ∷ [] }
    ensures phases { phases raised_calls ≡ 1 ∷ 1 ∷ 1 ∷ 0 ∷ 1 ∷ [] }
    ensures reported { (f : TpFields) → FitsTp (reverse raised_calls) f
        → (f.q ≡ true) × (f.start ≡ 301) }
{}

/// A negative PT is 0: the pulse is over at the call that begins it.
pub fn negative_preset_is_zero()
    ensures outputs { outputs negative_calls ≡ false ∷ false ∷ false ∷ true ∷ [] }
    ensures phases { phases negative_calls ≡ 2 ∷ 2 ∷ 0 ∷ 1 ∷ [] }
{}

/// A program with a TP: five scans of six steps.
pub fn tp_pulses()
    ensures { shown_by pulses
        (scan 0 1 ∷ scan 50 0 ∷ scan 100 1 ∷ scan 120 0 ∷ scan 130 1 ∷ [])
        ≡ shows 6 1 (pos 0) (pos 0) ∷ shows 6 1 (pos 0) (pos 0) ∷ shows 6 0 (pos 0) (pos 0)
        ∷ shows 6 0 (pos 0) (pos 0) ∷ shows 6 1 (pos 0) (pos 0) ∷ [] }
{}

/// A text that takes the place of another keeps phase and start of its TP; a TOF in its place starts over.
pub fn pulse_is_carried()
    ensures phase { carried pulses (all_hold (Phase 2)) pulses_moved (field "phase")
        ≡ Some (Phase 2) }
    ensures start { carried pulses (all_hold (Moment 130)) pulses_moved (field "start")
        ≡ Some (Moment 130) }
    ensures another_phase { carried pulses (all_hold (Phase 2)) pulses_no_more (field "phase")
        ≡ Some (Phase 0) }
    ensures another_start { carried pulses (all_hold (Moment 130)) pulses_no_more (field "start")
        ≡ Some (Moment 0) }
{}
