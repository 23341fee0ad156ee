//! The answers to `W`: gross weights near zero and near Max, in motion, and with no sample.

ghost use Rattle.std.specs.Prelude.{◌≡◌, pos, [], ◌∷◌, ◌++◌, codes};
ghost use Rattle.wc_model.specs.Run.Rows.{Counts};
ghost use Rattle.wc_examples_instrument.specs.Worked.{plate_of_15_kg, plate_of_2500_g, four_rows, asks, replies, framed};

/// 50 counts above zero are the centre of zero; 51 are not, though 0.000 is shown.
pub fn centre_of_zero()
    ensures centre { replies plate_of_15_kg (four_rows (pos 10050) ++ asks (codes "W") ∷ [])
        ≡ framed (codes "Z1G       0.000kg ") }
    ensures alongside { replies plate_of_15_kg (four_rows (pos 10051) ++ asks (codes "W") ∷ [])
        ≡ framed (codes " 1G       0.000kg ") }
{}

/// Half an interval rounds away from zero on either side.
pub fn half_an_interval()
    ensures above { replies plate_of_15_kg (four_rows (pos 10100) ++ asks (codes "W") ∷ [])
        ≡ framed (codes " 1G       0.005kg ") }
    ensures below { replies plate_of_15_kg (four_rows (pos 9900) ++ asks (codes "W") ∷ [])
        ≡ framed (codes " 1G      -0.005kg ") }
{}

/// 15.045 kg is the last weight below the upper edge.
pub fn upper_edge()
    ensures below { replies plate_of_15_kg (four_rows (pos 611899) ++ asks (codes "W") ∷ [])
        ≡ framed (codes " 1G      15.045kg ") }
    ensures at { replies plate_of_15_kg (four_rows (pos 611900) ++ asks (codes "W") ∷ [])
        ≡ framed (codes "O1G  ----------kg ") }
{}

/// After one sample the weight is in motion.
pub fn in_motion()
    ensures { replies plate_of_15_kg (Counts (pos 60000) ∷ asks (codes "W") ∷ [])
        ≡ framed (codes " 1GM      1.250kg ") }
{}

/// Before the first sample there is no weight.
pub fn no_sample()
    ensures weight { replies plate_of_15_kg (asks (codes "W") ∷ [])
        ≡ framed (codes "I1GM ----------kg ") }
    ensures tare { replies plate_of_15_kg (asks (codes "T") ∷ [])
        ≡ framed (codes "T1GM ----------kg ") }
{}

/// A plate in grams with no decimals writes no point.
pub fn whole_grams()
    ensures { replies plate_of_2500_g
        (Counts (pos 4) ∷ Counts (pos 4) ∷ asks (codes "W") ∷ [])
        ≡ framed (codes " 1G           5g  ") }
{}
