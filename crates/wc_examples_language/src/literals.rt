//! Whole-number literals, and what has none of their forms.
ghost use Rattle.std.specs.Prelude.{◌≡◌, codes, pos, negsuc, neg_ℤ, Err, Ok, true, false};
ghost use Rattle.wc_model.specs.Text.Shapes.{Whole, Truth, shape_of};

/// Decimal digits, with a sign or without.
pub fn decimal_numbers_have_their_value()
    ensures plain { shape_of (codes "7") ≡ Ok (Whole (pos 7)) }
    ensures minus { shape_of (codes "-7") ≡ Ok (Whole (negsuc 6)) }
    ensures plus { shape_of (codes "+1") ≡ Ok (Whole (pos 1)) }
    ensures minus_zero { shape_of (codes "-0") ≡ Ok (Whole (pos 0)) }
    ensures underscore { shape_of (codes "0_1") ≡ Ok (Whole (pos 1)) }
{}

/// The least and the greatest number of 32 bits are literals, and their neighbours are not.
pub fn numbers_have_32_bits()
    ensures greatest { shape_of (codes "2147483647") ≡ Ok (Whole (pos 2147483647)) }
    ensures above { shape_of (codes "2147483648") ≡ Err 105 }
    ensures least { shape_of (codes "-2147483648") ≡ Ok (Whole (neg_ℤ (pos 2147483648))) }
    ensures below { shape_of (codes "-2147483649") ≡ Err 105 }
{}

/// Numbers in base 2, 8 and 16, with letters in either case.
pub fn based_numbers_have_their_value()
    ensures greatest { shape_of (codes "16#7FFFFFFF") ≡ Ok (Whole (pos 2147483647)) }
    ensures small_letters { shape_of (codes "16#7fffffff") ≡ Ok (Whole (pos 2147483647)) }
    ensures zero { shape_of (codes "16#0") ≡ Ok (Whole (pos 0)) }
    ensures binary { shape_of (codes "2#1010_0001") ≡ Ok (Whole (pos 161)) }
    ensures octal { shape_of (codes "8#17") ≡ Ok (Whole (pos 15)) }
{}

/// Too great a number, two underscores, a point, letters, a sign alone, other bases, and a base with a sign.
pub fn other_formats_are_no_numbers()
    ensures above { shape_of (codes "16#80000000") ≡ Err 105 }
    ensures underscores { shape_of (codes "1__0") ≡ Err 105 }
    ensures last_underscore { shape_of (codes "1_") ≡ Err 105 }
    ensures point { shape_of (codes "1.5") ≡ Err 105 }
    ensures letter { shape_of (codes "5a") ≡ Err 105 }
    ensures sign { shape_of (codes "-") ≡ Err 105 }
    ensures base { shape_of (codes "5#6") ≡ Err 105 }
    ensures digit { shape_of (codes "2#2") ≡ Err 105 }
    ensures signed_base { shape_of (codes "-16#1") ≡ Err 105 }
{}

/// BOOL#0 and BOOL#1 are truth values in either letter case; other values and other types are refused.
pub fn typed_literals()
    ensures truth { shape_of (codes "BOOL#1") ≡ Ok (Truth true) }
    ensures falsehood { shape_of (codes "BOOL#0") ≡ Ok (Truth false) }
    ensures small_letters { shape_of (codes "bool#1") ≡ Ok (Truth true) }
    ensures two { shape_of (codes "BOOL#2") ≡ Err 105 }
    ensures other_type { shape_of (codes "INT#5") ≡ Err 105 }
    ensures long_type { shape_of (codes "abcdefghijklmnopqrstuvwxyzabcdefg#1") ≡ Err 105 }
{}
