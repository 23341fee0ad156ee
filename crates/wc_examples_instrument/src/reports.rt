//! What runs write.

ghost use Rattle.std.specs.Prelude.{◌≡◌, ◌++◌, pos, negsuc, [], ◌∷◌, codes};
ghost use Rattle.wc_model.specs.Definitions.{ScanLine, AnswerLine, line_text, line_report, report, report_last, Bytes, Change, Inputs, Scan};
ghost use Rattle.wc_examples_instrument.specs.Worked.{plate_of_15_kg, four_rows, rows_from, scan_row, lines_text, log_with_rows, three_fields, copies_first_input, counts_scans};

/// A scan's line: moment, steps, four digits of bits, four words.
pub fn scan_line()
    ensures { line_text
        (ScanLine 600 10
        (record { bits = 41394; words = pos 5000 ∷ negsuc 2147483647 ∷ pos 0 ∷ negsuc 0 ∷ [] }))
        ≡ codes "S 600 10 a1b2 5000 -2147483648 0 -1" ++ 10 ∷ [] }
{}

/// An answer's line: moment, bytes in hexadecimal.
pub fn answer_line()
    ensures { line_text (AnswerLine 0 (10 ∷ 63 ∷ 13 ∷ []))
        ≡ codes "L 0 0a3f0d" ++ 10 ∷ [] }
{}

/// One row of inputs and one scan: one line.
pub fn first_report()
    ensures { report plate_of_15_kg copies_first_input tt (rows_from 2 (Inputs 1 ∷ Scan ∷ []))
        ≡ lines_text (codes "S 0 2 0001 0 0 0 0" ∷ []) }
{}

/// A zero command cut over two rows with a scan between: the scan's line, then the answer's.
pub fn cut_request_and_scan()
    ensures with_program { report plate_of_15_kg copies_first_input tt
        (rows_from 2 (four_rows (pos 10100))
        ++ record { number = 6; ms = 400; brings = Bytes (10 ∷ 90 ∷ []) } ∷ scan_row 7 410
        ∷ record { number = 8; ms = 420; brings = Bytes (13 ∷ []) } ∷ [])
        ≡ lines_text (codes "S 410 2 0000 0 0 0 0"
        ∷ codes "L 420 0a5a314720202020202020302e3030306b67200d" ∷ []) }
    ensures without { line_report plate_of_15_kg (rows_from 2 (four_rows (pos 10100))
        ++ record { number = 6; ms = 400; brings = Bytes (10 ∷ 90 ∷ []) } ∷ scan_row 7 410
        ∷ record { number = 8; ms = 420; brings = Bytes (13 ∷ []) } ∷ [])
        ≡ lines_text (codes "L 420 0a5a314720202020202020302e3030306b67200d" ∷ []) }
    ensures last_scan { report_last 1 plate_of_15_kg copies_first_input tt
        (rows_from 2 (four_rows (pos 10100))
        ++ record { number = 6; ms = 400; brings = Bytes (10 ∷ 90 ∷ []) } ∷ scan_row 7 410
        ∷ record { number = 8; ms = 420; brings = Bytes (13 ∷ []) } ∷ [])
        ≡ lines_text (codes "L 420 0a5a314720202020202020302e3030306b67200d"
        ∷ codes "S 410 2 0000 0 0 0 0" ∷ []) }
{}

/// A log of one sample and four chunks on the line, from its records to its report.
pub fn unknown_texts()
    ensures { line_report plate_of_15_kg
        (log_with_rows (three_fields (codes "0") (codes "C") (codes "60000")
        ∷ three_fields (codes "0") (codes "L") (codes "0a5a1b0d")
        ∷ three_fields (codes "0") (codes "L") (codes "0a0d")
        ∷ three_fields (codes "0") (codes "L") (codes "0a770d")
        ∷ three_fields (codes "0") (codes "L") (codes "410a0a570d") ∷ [])).rows
        ≡ lines_text (codes "L 0 0a3f0d" ∷ codes "L 0 0a3f0d"
        ∷ codes "L 0 0a2031474d202020202020312e3235306b67200d" ∷ []) }
{}

/// The rows before a refused one are run.
pub fn rows_before_a_refusal()
    ensures { report plate_of_15_kg copies_first_input tt
        (log_with_rows
        (three_fields (codes "5") (codes "S") [] ∷ three_fields (codes "4")
        (codes "S") [] ∷ [])).rows
        ≡ lines_text (codes "S 5 2 0000 0 0 0 0" ∷ []) }
{}

/// The state goes from scan to scan, and a ring of two keeps the last two.
pub fn scans_in_a_row()
    ensures all { report plate_of_15_kg counts_scans 0
        (scan_row 2 0 ∷ scan_row 3 5 ∷ scan_row 4 5 ∷ [])
        ≡ lines_text (codes "S 0 1 0000 1 0 0 0" ∷ codes "S 5 1 0000 2 0 0 0"
        ∷ codes "S 5 1 0000 3 0 0 0" ∷ []) }
    ensures last_two { report_last 2 plate_of_15_kg counts_scans 0
        (scan_row 2 0 ∷ scan_row 3 5 ∷ scan_row 4 5 ∷ [])
        ≡ lines_text (codes "S 5 1 0000 2 0 0 0" ∷ codes "S 5 1 0000 3 0 0 0" ∷ []) }
{}

/// A change between two scans has no line, and the scan after it goes on from what the change makes of the state.
pub fn a_change_between_scans()
    ensures { report plate_of_15_kg counts_scans 0
        (rows_from 2 (Scan ∷ Change ∷ Scan ∷ []))
        ≡ lines_text (codes "S 0 1 0000 1 0 0 0" ∷ codes "S 0 1 0000 102 0 0 0" ∷ []) }
{}
