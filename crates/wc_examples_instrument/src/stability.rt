//! When the scale is stable: the spread of the last four samples is at most half an interval, 100 counts.

ghost use Rattle.std.specs.Prelude.{pos, IsTrue, IsFalse, [], ◌∷◌, replicate};
ghost use Rattle.wc_model.specs.Definitions.{Sample, is_stable};
ghost use Rattle.wc_examples_instrument.specs.Worked.{plate_of_15_kg};

/// 10101, 10000, 10000, 10000: a spread of 101 counts is motion (histories are written newest first).
pub fn spread_of_101_counts()
    ensures { IsFalse (is_stable plate_of_15_kg
        (Sample (pos 10000) ∷ Sample (pos 10000) ∷ Sample (pos 10000) ∷ Sample (pos 10101) ∷ [])) }
{}

/// A fifth sample of 10000 puts 10101 out of the window.
pub fn fifth_sample()
    ensures { IsTrue (is_stable plate_of_15_kg
        (Sample (pos 10000) ∷ Sample (pos 10000) ∷ Sample (pos 10000) ∷ Sample (pos 10000)
        ∷ Sample (pos 10101) ∷ [])) }
{}

/// 10100, 10000, 10050, 10020: a spread of 100 counts is stable.
pub fn spread_of_100_counts()
    ensures { IsTrue (is_stable plate_of_15_kg
        (Sample (pos 10020) ∷ Sample (pos 10050) ∷ Sample (pos 10000) ∷ Sample (pos 10100) ∷ [])) }
{}

/// Three samples are never stable.
pub fn three_samples()
    ensures { IsFalse (is_stable plate_of_15_kg (replicate 3 (Sample (pos 10000)))) }
{}
