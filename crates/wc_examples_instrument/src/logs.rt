//! Logs that are read, and logs that are refused, with the number and the row. The first row is counted.

ghost use Rattle.std.specs.Prelude.{◌≡◌, negsuc, [], ◌∷◌, codes, replicate};
ghost use Rattle.wc_model.specs.Definitions.{log_of, with_row, refused_at, Counts, Bytes, Inputs, Change};
ghost use Rattle.wc_examples_instrument.specs.Worked.{log_with_rows, three_fields, scan_row};

/// An empty log has no first row; neither has one that begins otherwise.
pub fn first_row_missing()
    ensures empty { log_of [] ≡ refused_at 601 1 }
    ensures other { log_of (three_fields (codes "ms") (codes "Kind") (codes "data") ∷ [])
        ≡ refused_at 601 1 }
    ensures short { log_of ((codes "ms" ∷ codes "kind" ∷ []) ∷ []) ≡ refused_at 601 1 }
{}

/// A first row alone is a log of no rows.
pub fn no_rows()
    ensures { log_with_rows [] ≡ record { rows = []; refusal = None } }
{}

/// A row of each kind.
pub fn each_kind()
    ensures { log_with_rows
        (three_fields (codes "0") (codes "C") (codes "-0042")
        ∷ three_fields (codes "007") (codes "L") (codes "0a5A")
        ∷ three_fields (codes "7") (codes "I") (codes "00fF")
        ∷ three_fields (codes "8") (codes "S") []
        ∷ three_fields (codes "8") (codes "P") []
        ∷ [])
        ≡ record {
          rows = record { number = 2; ms = 0; brings = Counts (negsuc 41) }
              ∷ record { number = 3; ms = 7; brings = Bytes (10 ∷ 90 ∷ []) }
              ∷ record { number = 4; ms = 7; brings = Inputs 255 }
              ∷ scan_row 5 8
              ∷ record { number = 6; ms = 8; brings = Change }
              ∷ [];
          refusal = None;
        } }
{}

/// Each check refuses a log of one row after its heading row.
pub fn one_refused_row()
    ensures odd_hex { log_with_rows (three_fields (codes "0") (codes "L") (codes "0A5") ∷ [])
        ≡ refused_at 606 2 }
    ensures data_on_scan { log_with_rows (three_fields (codes "0") (codes "S") (codes "x") ∷ [])
        ≡ refused_at 608 2 }
    ensures data_on_change { log_with_rows (three_fields (codes "0") (codes "P") (codes "x") ∷ [])
        ≡ refused_at 608 2 }
    ensures counts { log_with_rows (three_fields (codes "0") (codes "C") (codes "8388608") ∷ [])
        ≡ refused_at 605 2 }
    ensures kind { log_with_rows (three_fields (codes "0") (codes "X") [] ∷ [])
        ≡ refused_at 604 2 }
    ensures two_fields { log_with_rows ((codes "0" ∷ codes "S" ∷ []) ∷ [])
        ≡ refused_at 601 2 }
    ensures moment { log_with_rows (three_fields (codes "1099511627776") (codes "S") [] ∷ [])
        ≡ refused_at 602 2 }
{}

/// More data at fault: a plus sign, no digit, an empty moment, three digits of inputs, and a kind in small letters.
pub fn more_refused_rows()
    ensures plus { log_with_rows (three_fields (codes "0") (codes "C") (codes "+0") ∷ [])
        ≡ refused_at 605 2 }
    ensures no_digit { log_with_rows (three_fields (codes "0") (codes "C") (codes "-") ∷ [])
        ≡ refused_at 605 2 }
    ensures no_moment { log_with_rows (three_fields [] (codes "S") [] ∷ []) ≡ refused_at 602 2 }
    ensures inputs { log_with_rows (three_fields (codes "0") (codes "I") (codes "00F") ∷ [])
        ≡ refused_at 606 2 }
    ensures small { log_with_rows (three_fields (codes "0") (codes "s") [] ∷ [])
        ≡ refused_at 604 2 }
{}

/// A moment before the last row's is refused at its row, and the row before it holds; equal moments are accepted.
pub fn row_order()
    ensures back { log_with_rows
        (three_fields (codes "5") (codes "S") []
        ∷ three_fields (codes "4") (codes "S") []
        ∷ [])
        ≡ with_row (scan_row 2 5) (refused_at 603 3) }
    ensures equal { log_with_rows
        (three_fields (codes "5") (codes "S") []
        ∷ three_fields (codes "5") (codes "S") []
        ∷ [])
        ≡ record { rows = scan_row 2 5 ∷ scan_row 3 5 ∷ []; refusal = None } }
{}

/// A chunk of the line has at most 4096 bytes.
pub fn longest_chunk()
    ensures whole { log_with_rows (three_fields (codes "0") (codes "L") (replicate 8192 48) ∷ [])
        ≡ with_row (record { number = 2; ms = 0; brings = Bytes (replicate 4096 0) })
        (record { rows = []; refusal = None }) }
    ensures longer { log_with_rows (three_fields (codes "0") (codes "L") (replicate 8194 48) ∷ [])
        ≡ refused_at 606 2 }
{}
