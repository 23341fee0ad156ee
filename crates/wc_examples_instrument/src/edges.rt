//! Where the indication ends, at the top and at the bottom.

ghost use Rattle.std.specs.Prelude.{◌≡◌, pos, negsuc, IsTrue, IsFalse};
ghost use Rattle.wc_model.specs.Instrument.Indication.{gross, gross_intervals, is_over, is_under};
ghost use Rattle.wc_examples_instrument.specs.Worked.{plate_of_15_kg, four_of};

/// The last load below the upper edge: 601899 counts are 3009 intervals, 9 above Max.
pub fn not_over_below_the_upper_edge()
    ensures weight { gross plate_of_15_kg (four_of (pos 611899)) ≡ Some (pos 15045) }
    ensures over { IsFalse (is_over plate_of_15_kg (four_of (pos 611899))) }
{}

/// One count more rounds to 3010 intervals: over, and no weight.
pub fn over_at_the_upper_edge()
    ensures weight { gross plate_of_15_kg (four_of (pos 611900)) ≡ None }
    ensures over { IsTrue (is_over plate_of_15_kg (four_of (pos 611900))) }
{}

/// The last load above the lower edge: 20 intervals below zero.
pub fn not_under_above_the_lower_edge()
    ensures weight { gross plate_of_15_kg (four_of (pos 5901)) ≡ Some (negsuc 99) }
    ensures under { IsFalse (is_under plate_of_15_kg (four_of (pos 5901))) }
{}

/// One count less rounds to 21 intervals below zero: under, and no weight.
pub fn under_at_the_lower_edge()
    ensures intervals { gross_intervals plate_of_15_kg (four_of (pos 5900)) ≡ negsuc 20 }
    ensures weight { gross plate_of_15_kg (four_of (pos 5900)) ≡ None }
    ensures under { IsTrue (is_under plate_of_15_kg (four_of (pos 5900))) }
{}
