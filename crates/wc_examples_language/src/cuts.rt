//! Whole texts, cut into their tokens.
ghost use Rattle.std.specs.Prelude.{codes, pos, negsuc, true, ◌++◌, ◌∷◌, []};
ghost use Rattle.wc_model.specs.Text.Shapes.{Address, And, AndNot, Assign, Arrow, Closing, Colon, Comma, Duration, Identifier, LineEnd, Opening, Point, Semicolon, Truth, Whole};
ghost use Rattle.wc_model.specs.Text.Tokens.{IsCut};
ghost use Rattle.wc_examples_language.specs.Spelled.{lines, token};

/// `&` directly followed by N is one operator if the identifier ends there, and else `&` and an identifier.
pub fn ampersand_n()
    ensures operator { IsCut (codes "&N x")
        (token AndNot (codes "&N") 0 1 ∷ token Identifier (codes "x") 3 1 ∷ []) }
    ensures small_letter { IsCut
        (codes "&n(") (token AndNot (codes "&n") 0 1 ∷ token Opening (codes "(") 2 1 ∷ []) }
    ensures identifier { IsCut (codes "&Nx")
        (token And (codes "&") 0 1 ∷ token Identifier (codes "Nx") 1 1 ∷ []) }
    ensures parted { IsCut (codes "& N")
        (token And (codes "&") 0 1 ∷ token Identifier (codes "N") 2 1 ∷ []) }
{}

/// A program of four lines: each token with its place and its line.
pub fn a_program()
    ensures { IsCut
        (lines (codes "PROGRAM P")
        (lines (codes "LD %IX0.0") (lines (codes "ST %QX0.0") (codes "END_PROGRAM"))))
        (token Identifier (codes "PROGRAM") 0 1 ∷ token Identifier (codes "P") 8 1 ∷ token LineEnd
        (10 ∷ []) 9 1 ∷ token Identifier (codes "LD") 10 2 ∷ token Address
        (codes "%IX0.0") 13 2 ∷ token LineEnd (10 ∷ []) 19 2 ∷ token Identifier
        (codes "ST") 20 3 ∷ token Address (codes "%QX0.0") 23 3 ∷ token LineEnd
        (10 ∷ []) 29 3 ∷ token Identifier (codes "END_PROGRAM") 30 4 ∷ []) }
{}

/// Tokens need no space between them.
pub fn no_space_is_asked_for()
    ensures number { IsCut (codes "LD-7")
        (token Identifier (codes "LD") 0 1 ∷ token (Whole (negsuc 6)) (codes "-7") 2 1 ∷ []) }
    ensures address { IsCut (codes "ST%QD0")
        (token Identifier (codes "ST") 0 1 ∷ token Address (codes "%QD0") 2 1 ∷ []) }
    ensures marks { IsCut (codes "t(IN:=x,Q=>y);")
        (token Identifier (codes "t") 0 1 ∷ token Opening
        (codes "(") 1 1 ∷ token Identifier (codes "IN") 2 1 ∷ token Assign
        (codes ":=") 4 1 ∷ token Identifier (codes "x") 6 1 ∷ token Comma
        (codes ",") 7 1 ∷ token Identifier (codes "Q") 8 1 ∷ token Arrow
        (codes "=>") 9 1 ∷ token Identifier (codes "y") 11 1 ∷ token Closing
        (codes ")") 12 1 ∷ token Semicolon (codes ";") 13 1 ∷ []) }
    ensures label { IsCut (codes "L:t.Q")
        (token Identifier (codes "L") 0 1 ∷ token Colon (codes ":") 1 1 ∷ token Identifier
        (codes "t") 2 1 ∷ token Point (codes ".") 3 1 ∷ token Identifier (codes "Q") 4 1 ∷ []) }
{}

/// Literals in a line, with their values.
pub fn literals()
    ensures whole { IsCut (codes "16#1F") (token (Whole (pos 31)) (codes "16#1F") 0 1 ∷ []) }
    ensures duration { IsCut (codes "T#-1.5s")
        (token (Duration (negsuc 1499)) (codes "T#-1.5s") 0 1 ∷ []) }
    ensures truth { IsCut (codes "BOOL#1") (token (Truth true) (codes "BOOL#1") 0 1 ∷ []) }
{}

/// Spaces, tabs, CR directly before LF and comments are between tokens; a line feed inside a comment counts for line numbers alone.
pub fn blanks()
    ensures nothing { IsCut [] [] }
    ensures line_end { IsCut (codes "a" ++ 13 ∷ 10 ∷ 9 ∷ codes "b")
        (token Identifier (codes "a") 0 1 ∷ token LineEnd (10 ∷ []) 2 1 ∷ token Identifier
        (codes "b") 4 2 ∷ []) }
    ensures comment { IsCut (codes "a(* b; # *)c")
        (token Identifier (codes "a") 0 1 ∷ token Identifier (codes "c") 11 1 ∷ []) }
    ensures stars { IsCut (codes "(***)a") (token Identifier (codes "a") 5 1 ∷ []) }
    ensures comment_of_two_lines { IsCut (lines (codes "(* a") (codes "b *) x"))
        (token Identifier (codes "x") 10 2 ∷ []) }
{}
