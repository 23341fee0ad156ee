//! Zero commands: accepted up to 2 % of the span around the calibrated zero, 12000 counts.

ghost use Rattle.std.specs.Prelude.{◌≡◌, pos, [], ◌∷◌, ◌++◌, codes};
ghost use Rattle.wc_model.specs.Definitions.{SetZero, zero_point, zero_refusal, Motion, Range};
ghost use Rattle.wc_examples_instrument.specs.Worked.{plate_of_15_kg, four_of, four_rows, asks, replies, framed};

/// At 22000 counts a zero command is accepted.
pub fn zero_at_22000()
    ensures refusal { zero_refusal plate_of_15_kg (four_of (pos 22000)) ≡ None }
    ensures zero_point { zero_point plate_of_15_kg (SetZero ∷ four_of (pos 22000)) ≡ pos 22000 }
    ensures answer { replies plate_of_15_kg (four_rows (pos 22000) ++ asks (codes "Z") ∷ [])
        ≡ framed (codes "Z1G       0.000kg ") }
{}

/// At 22001 counts it is refused for its range, and the weight stays 0.300 kg.
pub fn zero_at_22001()
    ensures refusal { zero_refusal plate_of_15_kg (four_of (pos 22001)) ≡ Some Range }
    ensures zero_point { zero_point plate_of_15_kg (SetZero ∷ four_of (pos 22001)) ≡ pos 10000 }
    ensures answer { replies plate_of_15_kg (four_rows (pos 22001) ++ asks (codes "Z") ∷ [])
        ≡ framed (codes "E1G       0.300kg ") }
{}

/// With no sample it is refused for motion, which is tested first.
pub fn zero_without_a_sample()
    ensures { zero_refusal plate_of_15_kg [] ≡ Some Motion }
{}

/// Above the upper edge it is refused, and the answer carries ten `-`.
pub fn zero_above_the_edge()
    ensures { replies plate_of_15_kg (four_rows (pos 611900) ++ asks (codes "Z") ∷ [])
        ≡ framed (codes "E1G  ----------kg ") }
{}
