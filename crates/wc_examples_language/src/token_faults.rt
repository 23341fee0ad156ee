//! Texts with a fault: its number and its line.
ghost use Rattle.std.specs.Prelude.{codes, ◌++◌, ◌∷◌, []};
ghost use Rattle.wc_model.specs.Text.Tokens.{IsFirstTokenFault};
ghost use Rattle.wc_examples_language.specs.Spelled.{lines};

/// A `#` of no literal, `=` and `>` alone, and a CR that is not directly before an LF.
pub fn bytes_that_belong_to_nothing()
    ensures hash { IsFirstTokenFault (codes "#") 101 1 }
    ensures hash_after_operator { IsFirstTokenFault (codes "&N#5") 101 1 }
    ensures hash_after_address { IsFirstTokenFault (codes "%IX0.0#") 101 1 }
    ensures greater { IsFirstTokenFault (codes ":=>") 101 1 }
    ensures equal { IsFirstTokenFault (codes "a=b") 101 1 }
    ensures star { IsFirstTokenFault (codes "*") 101 1 }
    ensures last_return { IsFirstTokenFault (codes "a" ++ 13 ∷ []) 101 1 }
    ensures two_returns { IsFirstTokenFault (codes "a" ++ 13 ∷ 13 ∷ 10 ∷ []) 101 1 }
    ensures second_line { IsFirstTokenFault (lines (codes "LD a") (codes "ST {")) 101 2 }
{}

/// The line is that of the opening, and a comment in a comment is a fault of its own.
pub fn comments_that_do_not_close()
    ensures nested { IsFirstTokenFault (codes "(* a (* b *)") 103 1 }
    ensures short { IsFirstTokenFault (codes "(*)") 102 1 }
    ensures nested_without_end { IsFirstTokenFault (codes "(* (*") 103 1 }
    ensures later_line { IsFirstTokenFault
        (lines (codes "a") (lines (codes "(* b") (codes "c"))) 102 2 }
    ensures nested_later { IsFirstTokenFault (lines (codes "(* a") (codes "(* b *)")) 103 1 }
{}

/// Malformed identifiers, numbers and durations, at the line of their first byte.
pub fn malformed_lexemes()
    ensures identifier { IsFirstTokenFault (codes "a__b") 104 1 }
    ensures lone_sign { IsFirstTokenFault (codes "- 5") 105 1 }
    ensures number { IsFirstTokenFault (codes "1.5") 105 1 }
    ensures type_name { IsFirstTokenFault (codes "INT#5") 105 1 }
    ensures duration { IsFirstTokenFault
        (lines (codes "PROGRAM P") (lines (codes "LD T#1.0005s") (codes "END_PROGRAM"))) 106 2 }
    ensures after_a_comment { IsFirstTokenFault (lines (codes "(*") (codes "*) a_")) 104 2 }
    ensures first_of_two { IsFirstTokenFault (codes "a_ #") 104 1 }
{}
