//! Tables of keys that are a plate, and tables that are refused. Apart from what a row names, the keys are those of 15
//! kg in steps of 5 g with 600000 counts.

ghost use Rattle.std.specs.Prelude.{◌≡◌, ◌++◌, pos, negsuc, [], ◌∷◌, codes, take};
ghost use Rattle.wc_model.specs.Instrument.PlateTable.{plate_of, Text, Whole, Other};
ghost use Rattle.wc_examples_instrument.specs.Worked.{plate_of_15_kg, plate_table, refusal_of_table};

/// The plate of 15 kg is read.
pub fn plate_is_read()
    ensures { plate_of (Some (plate_table (codes "kg") (pos 3) (pos 15000) (pos 5) (pos 600000)))
        ≡ Ok plate_of_15_kg }
{}

/// No TOML; a key too many; a key too few; a key of the wrong kind, before any range.
pub fn keys_at_fault()
    ensures no_toml { plate_of None ≡ Err 501 }
    ensures eighth { refusal_of_table
        ((codes "zero", Whole (pos 1)) ∷ plate_table (codes "kg") (pos 3) (pos 15000) (pos 5)
        (pos 600000)) ≡ 502 }
    ensures no_window { refusal_of_table
        (take 6 (plate_table (codes "kg") (pos 3) (pos 15000) (pos 5) (pos 600000))) ≡ 502 }
    ensures kind { refusal_of_table
        (take 6 (plate_table (codes "lb") (pos 9) (pos 15000) (pos 5) (pos 600000))
        ++ (codes "window", Other) ∷ []) ≡ 502 }
    ensures text { refusal_of_table
        (take 6 (plate_table (codes "kg") (pos 3) (pos 15000) (pos 5) (pos 600000))
        ++ (codes "window", Text (codes "4")) ∷ []) ≡ 502 }
{}

/// Units are compared with case; decimals are 0 to 3.
pub fn unit_and_decimals()
    ensures unit { refusal_of_table
        (plate_table (codes "Kg") (pos 3) (pos 15000) (pos 5) (pos 600000)) ≡ 503 }
    ensures decimals { refusal_of_table
        (plate_table (codes "kg") (pos 4) (pos 15000) (pos 5) (pos 600000)) ≡ 504 }
    ensures negative { refusal_of_table
        (plate_table (codes "kg") (negsuc 0) (pos 15000) (pos 5) (pos 600000)) ≡ 504 }
{}

/// An interval of 3 is not valid; 1 g is below 5 g, and so is 2 g; 5 g in steps of a gram are accepted.
pub fn intervals()
    ensures three { refusal_of_table
        (plate_table (codes "kg") (pos 3) (pos 15000) (pos 3) (pos 600000)) ≡ 505 }
    ensures one_gram { refusal_of_table
        (plate_table (codes "kg") (pos 3) (pos 15000) (pos 1) (pos 600000)) ≡ 505 }
    ensures two_grams { refusal_of_table
        (plate_table (codes "g") (pos 0) (pos 2500) (pos 2) (pos 600000)) ≡ 505 }
    ensures five_grams { refusal_of_table
        (plate_table (codes "g") (pos 0) (pos 2500) (pos 5) (pos 600000)) ≡ 0 }
{}

/// Max is a whole number of intervals, from 500 to 10000 of them.
pub fn greatest_loads()
    ensures not_whole { refusal_of_table
        (plate_table (codes "kg") (pos 3) (pos 15001) (pos 5) (pos 600000)) ≡ 506 }
    ensures too_few { refusal_of_table
        (plate_table (codes "g") (pos 0) (pos 2495) (pos 5) (pos 600000)) ≡ 506 }
    ensures too_many { refusal_of_table
        (plate_table (codes "kg") (pos 3) (pos 50005) (pos 5) (pos 600000)) ≡ 506 }
{}

/// The span has at least 4 counts an interval.
pub fn spans()
    ensures enough { refusal_of_table
        (plate_table (codes "t") (pos 3) (pos 10000) (pos 1) (pos 40000)) ≡ 0 }
    ensures too_few { refusal_of_table
        (plate_table (codes "t") (pos 3) (pos 10000) (pos 1) (pos 39999)) ≡ 507 }
{}

/// A window has 2 to 16 samples.
pub fn windows()
    ensures { refusal_of_table
        (take 6 (plate_table (codes "kg") (pos 3) (pos 15000) (pos 5) (pos 600000))
        ++ (codes "window", Whole (pos 1)) ∷ []) ≡ 508 }
{}
