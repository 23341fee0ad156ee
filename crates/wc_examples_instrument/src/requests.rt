//! Which texts a stream asks for, and how a request that is cut is answered.

ghost use Rattle.std.specs.Prelude.{◌≡◌, ◌++◌, pos, [], ◌∷◌, codes};
ghost use Rattle.wc_model.specs.Definitions.{requests, requests_in, Counts, Bytes, Scan};
ghost use Rattle.wc_examples_instrument.specs.Worked.{plate_of_15_kg, four_rows, replies, framed};

/// ESC aborts a request; an empty text is one; an LF starts over.
pub fn texts_of_streams()
    ensures aborted { requests (10 ∷ 90 ∷ 27 ∷ 13 ∷ []) ≡ [] }
    ensures empty { requests (10 ∷ 13 ∷ []) ≡ [] ∷ [] }
    ensures again { requests (65 ∷ 10 ∷ 10 ∷ 87 ∷ 13 ∷ 13 ∷ []) ≡ codes "W" ∷ [] }
    ensures two { requests (10 ∷ codes "W" ++ 13 ∷ 10 ∷ codes "Z" ++ 13 ∷ [])
        ≡ codes "W" ∷ codes "Z" ∷ [] }
{}

/// A request belongs to the chunk that has its CR.
pub fn request_cut()
    ensures first { requests_in [] (10 ∷ 90 ∷ []) ≡ [] }
    ensures second { requests_in (10 ∷ 90 ∷ []) (13 ∷ []) ≡ codes "Z" ∷ [] }
{}

/// An aborted request has no answer; an empty text and a small letter are answered `?`; a byte before LF is skipped.
pub fn unknown_texts()
    ensures { replies plate_of_15_kg
        (Counts (pos 60000) ∷ Bytes (10 ∷ 90 ∷ 27 ∷ 13 ∷ []) ∷ Bytes (10 ∷ 13 ∷ [])
        ∷ Bytes (10 ∷ 119 ∷ 13 ∷ []) ∷ Bytes (65 ∷ 10 ∷ 87 ∷ 13 ∷ []) ∷ [])
        ≡ framed (codes "?") ++ framed (codes "?") ++ framed (codes " 1GM      1.250kg ") }
{}

/// A zero command cut over two rows with a scan between acts at its CR.
pub fn request_cut_over_a_scan()
    ensures { replies plate_of_15_kg
        (four_rows (pos 10100) ++ Bytes (10 ∷ 90 ∷ []) ∷ Scan ∷ Bytes (13 ∷ []) ∷ [])
        ≡ framed (codes "Z1G       0.000kg ") }
{}
