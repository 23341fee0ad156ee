ghost use Rattle.std.specs.Prelude.{◌≡◌, [], ◌∷◌, map, filter, true, false, flat_map};
ghost use Rattle.wc_examples_language.specs.Programs.{each_block, all_rs, rs_call};
ghost use Rattle.wc_model.specs.Definitions.{RsFields, rs_step, same_block, FitsRs};

/// RS by its step, over S, R1 and Q1 in the order of the binary numbers: reset is dominant.
pub fn rs_has_its_table()
    ensures { map (λ f. (rs_step f).q1) all_rs
        ≡ false ∷ true ∷ false ∷ false ∷ true ∷ true ∷ false ∷ false ∷ [] }
{}

/// RS by its history: the last call with S or R1 TRUE decides, and with both it resets.
pub fn rs_is_reported()
    ensures never { (f : RsFields) → FitsRs (rs_call false false ∷ []) f → f.q1 ≡ false }
    ensures set { (f : RsFields)
        → FitsRs (rs_call false false ∷ rs_call true false ∷ rs_call false true ∷ []) f
        → f.q1 ≡ true }
    ensures both { (f : RsFields)
        → FitsRs (rs_call false false ∷ rs_call true true ∷ rs_call true false ∷ []) f
        → f.q1 ≡ false }
{}

/// Each standard block is the same as itself, and as no other.
pub fn no_two_blocks_are_the_same()
    ensures { flat_map (λ a. filter (same_block a) each_block) each_block ≡ each_block }
{}
