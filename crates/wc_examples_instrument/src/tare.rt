//! Tare commands, and what they leave.

ghost use Rattle.std.specs.Prelude.{◌≡◌, ◌++◌, pos, [], ◌∷◌, codes, drop};
ghost use Rattle.wc_model.specs.Definitions.{SetTare, gross, net, tare_value};
ghost use Rattle.wc_examples_instrument.specs.Worked.{plate_of_15_kg, four_of, four_rows, asks, replies, framed};

/// At zero a tare command is refused; at Max it is accepted, and `M` gives 15.000 kg.
pub fn tare_of_max()
    ensures at_zero { replies plate_of_15_kg (four_rows (pos 10000) ++ asks (codes "T") ∷ [])
        ≡ framed (codes "T1G       0.000kg ") }
    ensures at_max { replies plate_of_15_kg (four_rows (pos 10000) ++ asks (codes "T") ∷ []
        ++ four_rows (pos 610000) ++ asks (codes "T") ∷ asks (codes "W") ∷ asks (codes "M") ∷ [])
        ≡ framed (codes "T1G       0.000kg ") ++ framed (codes " 1N       0.000kg ")
        ++ framed (codes " 1N       0.000kg ")
        ++ framed (codes " 1T      15.000kg ") }
{}

/// A tare in motion is refused, of a load that a scale at rest would take: here the window is not full.
pub fn tare_in_motion()
    ensures { replies plate_of_15_kg
        (drop 1 (four_rows (pos 210000)) ++ asks (codes "T") ∷ asks (codes "C") ∷ [])
        ≡ framed (codes "T1GM      5.000kg ") ++ framed (codes " 1GM      5.000kg ") }
{}

/// A tare at 5 kg shows 2.500 kg net under 7.5 kg; a zero command there is refused; a second tare takes the place of the
/// first; the empty scale then shows -7.500 kg, and a zero command ends the tare.
pub fn tare_and_zero()
    ensures { replies plate_of_15_kg (four_rows (pos 210000) ++ asks (codes "T") ∷ []
        ++ four_rows (pos 310000) ++ asks (codes "W") ∷ asks (codes "Z") ∷ asks (codes "T")
        ∷ asks (codes "M") ∷ []
        ++ four_rows (pos 10000) ++ asks (codes "W") ∷ asks (codes "Z") ∷ [])
        ≡ framed (codes " 1N       0.000kg ")
        ++ framed (codes " 1N       2.500kg ") ++ framed (codes "E1N       2.500kg ")
        ++ framed (codes " 1N       0.000kg ")
        ++ framed (codes " 1T       7.500kg ")
        ++ framed (codes "Z1N      -7.500kg ") ++ framed (codes "Z1G       0.000kg ") }
{}

/// Gross, net and tare value are rounded each by itself: a tare of half an interval under a load of one interval gives
/// 0.005 kg three times.
pub fn rounded_apart()
    ensures gross { gross plate_of_15_kg (four_of (pos 10200) ++ SetTare ∷ four_of (pos 10100))
        ≡ Some (pos 5) }
    ensures net { net plate_of_15_kg (four_of (pos 10200) ++ SetTare ∷ four_of (pos 10100))
        ≡ Some (pos 5) }
    ensures tare { tare_value plate_of_15_kg
        (four_of (pos 10200) ++ SetTare ∷ four_of (pos 10100))
        ≡ pos 5 }
    ensures answers { replies plate_of_15_kg (four_rows (pos 10100) ++ asks (codes "T") ∷ []
        ++ four_rows (pos 10200) ++ asks (codes "W") ∷ asks (codes "M") ∷ [])
        ≡ framed (codes " 1N       0.000kg ") ++ framed (codes " 1N       0.005kg ")
        ++ framed (codes " 1T       0.005kg ") }
{}

/// A clear ends the tare, and the net weight is gross again.
pub fn clear()
    ensures { replies plate_of_15_kg
        (four_rows (pos 210000) ++ asks (codes "T") ∷ asks (codes "C") ∷ [])
        ≡ framed (codes " 1N       0.000kg ") ++ framed (codes " 1G       5.000kg ") }
{}
