//! What a scan sees (rows are written newest first).

ghost use Rattle.std.specs.Prelude.{◌≡◌, ◌+◌, pos, [], ◌∷◌, codes};
ghost use Rattle.wc_model.specs.Definitions.{image_after, Counts, Inputs};
ghost use Rattle.wc_examples_instrument.specs.Worked.{plate_of_15_kg, four_rows, rows_from, asks};

/// Nothing at first; 5 kg, stable and valid; the same under a tare; over, in motion and not valid, so that no weight is seen.
pub fn images_of_a_weighing()
    ensures first { image_after plate_of_15_kg []
        ≡ record { inputs = 0; status = 0; weights = pos 0 ∷ pos 0 ∷ pos 0 ∷ [] } }
    ensures gross { image_after plate_of_15_kg (rows_from 0 (four_rows (pos 210000)))
        ≡ record { inputs = 0; status = 1 + 32; weights = pos 5000 ∷ pos 5000 ∷ pos 0 ∷ [] } }
    ensures tare { image_after plate_of_15_kg
        (rows_from 0 (asks (codes "T") ∷ four_rows (pos 210000)))
        ≡ record { inputs = 0; status = 1 + 16 + 32; weights = pos 5000 ∷ pos 0 ∷ pos 5000 ∷ [] } }
    ensures over { image_after plate_of_15_kg
        (rows_from 0 (Counts (pos 611900) ∷ asks (codes "T") ∷ four_rows (pos 210000)))
        ≡ record { inputs = 0; status = 2 + 16; weights = pos 0 ∷ pos 0 ∷ pos 0 ∷ [] } }
{}

/// The inputs are those of the last row that has any.
pub fn last_inputs()
    ensures { image_after plate_of_15_kg (rows_from 0 (Inputs 5 ∷ Inputs 4 ∷ []))
        ≡ record { inputs = 5; status = 0; weights = pos 0 ∷ pos 0 ∷ pos 0 ∷ [] } }
{}
