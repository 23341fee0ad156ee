//! Identifiers, and what does not have their form.
ghost use Rattle.std.specs.Prelude.{◌≡◌, codes, Err, Ok};
ghost use Rattle.wc_model.specs.Text.Shapes.{Identifier, shape_of};

/// Letters, digits and single underscores, up to 32 of them.
pub fn identifiers()
    ensures word { shape_of (codes "END_PROGRAM") ≡ Ok Identifier }
    ensures underscore { shape_of (codes "_a1") ≡ Ok Identifier }
    ensures longest { shape_of (codes "abcdefghijklmnopqrstuvwxyzabcdef") ≡ Ok Identifier }
{}

/// Two underscores in a row, one at the end, and 33 letters.
pub fn no_identifiers()
    ensures two_underscores { shape_of (codes "a__b") ≡ Err 104 }
    ensures last_underscore { shape_of (codes "a_") ≡ Err 104 }
    ensures underscore { shape_of (codes "_") ≡ Err 104 }
    ensures too_long { shape_of (codes "abcdefghijklmnopqrstuvwxyzabcdefg") ≡ Err 104 }
{}
