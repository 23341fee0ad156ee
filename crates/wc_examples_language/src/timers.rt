ghost use Rattle.std.specs.Prelude.{◌≡◌, [], ◌∷◌, map, pos, true, false};
ghost use Rattle.wc_examples_language.specs.Timers.{new_tof, tof_run, five_calls, five_reported};
ghost use Rattle.wc_model.specs.Definitions.{TofFields, FitsTof};

/// TOF by its step: TRUE until the preset time has passed since IN fell.
pub fn off_delay_steps()
    ensures outputs { map (λ f. f.q) (tof_run new_tof five_calls)
        ≡ false ∷ true ∷ true ∷ true ∷ false ∷ [] }
    ensures times { map (λ f. f.et) (tof_run new_tof five_calls)
        ≡ pos 0 ∷ pos 0 ∷ pos 0 ∷ pos 99 ∷ pos 100 ∷ [] }
{}

/// TOF by its history: the fields that fit the same five calls have these outputs.
pub fn off_delay_is_reported()
    ensures { (f : TofFields) → FitsTof five_reported f → (f.q ≡ false) × (f.et ≡ pos 100) }
{}
