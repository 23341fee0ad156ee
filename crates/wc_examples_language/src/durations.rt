//! Durations in milliseconds, and what does not have their form.
ghost use Rattle.std.specs.Prelude.{◌≡◌, codes, neg_ℤ, pos, Err, Ok};
ghost use Rattle.wc_model.specs.Text.Shapes.{Duration, shape_of};

/// Units fall, the first part may overflow, and one underscore may be between parts.
pub fn durations_are_the_sum_of_their_parts()
    ensures all_units { shape_of (codes "T#1d2h3m4s5ms") ≡ Ok (Duration (pos 93784005)) }
    ensures overflow { shape_of (codes "T#25h") ≡ Ok (Duration (pos 90000000)) }
    ensures underscore { shape_of (codes "T#1m_30s") ≡ Ok (Duration (pos 90000)) }
    ensures either_case { shape_of (codes "t#5S") ≡ Ok (Duration (pos 5000)) }
{}

/// The last part may have a point, and a minus may precede the parts.
pub fn durations_have_fractions_and_a_sign()
    ensures tenth { shape_of (codes "T#0.1h") ≡ Ok (Duration (pos 360000)) }
    ensures zeros { shape_of (codes "T#1.5000s") ≡ Ok (Duration (pos 1500)) }
    ensures minus { shape_of (codes "T#-1.5s") ≡ Ok (Duration (neg_ℤ (pos 1500))) }
{}

/// The greatest and the least duration, and the neighbour of the greatest.
pub fn durations_have_32_bits()
    ensures greatest { shape_of (codes "TIME#24d20h31m23s647ms") ≡ Ok (Duration (pos 2147483647)) }
    ensures least { shape_of (codes "T#-24d20h31m23s648ms")
        ≡ Ok (Duration (neg_ℤ (pos 2147483648))) }
    ensures above { shape_of (codes "TIME#24d20h31m23s648ms") ≡ Err 106 }
{}

/// An overflow after the first part, units that rise, and a fraction of a millisecond.
pub fn other_formats_are_no_durations()
    ensures overflow { shape_of (codes "T#1h60m") ≡ Err 106 }
    ensures rising { shape_of (codes "T#1s2m") ≡ Err 106 }
    ensures twice { shape_of (codes "T#1s2s") ≡ Err 106 }
    ensures too_fine { shape_of (codes "t#1.5ms") ≡ Err 106 }
    ensures too_fine_seconds { shape_of (codes "T#1.0005s") ≡ Err 106 }
    ensures point_before_the_last { shape_of (codes "T#1.5m30s") ≡ Err 106 }
    ensures point_alone { shape_of (codes "T#1s.") ≡ Err 106 }
    ensures no_digits { shape_of (codes "T#1.s") ≡ Err 106 }
    ensures underscore { shape_of (codes "T#1.5_0s") ≡ Err 106 }
    ensures two_underscores { shape_of (codes "T#1m__30s") ≡ Err 106 }
    ensures no_unit { shape_of (codes "T#5") ≡ Err 106 }
    ensures nothing { shape_of (codes "T#") ≡ Err 106 }
{}

/// Underscores are not among the 12 digits; leading zeros are, and digits after the point are not.
pub fn durations_have_at_most_12_digits()
    ensures twelve { shape_of (codes "T#000000000001ms") ≡ Ok (Duration (pos 1)) }
    ensures underscores { shape_of (codes "T#0_000_000_000_01ms") ≡ Ok (Duration (pos 1)) }
    ensures thirteen { shape_of (codes "T#0000000000001ms") ≡ Err 106 }
    ensures fraction { shape_of (codes "T#000000000001.500000000s") ≡ Ok (Duration (pos 1500)) }
    ensures long_fraction { shape_of (codes "T#1.5000000000s") ≡ Err 106 }
{}
