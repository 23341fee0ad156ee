ghost use Rattle.std.specs.Prelude.{◌≡◌, codes, true, false};
ghost use Rattle.wc_examples_instrument.specs.Changes.{old_text, new_text, other_kinds, plain, field};
ghost use Rattle.wc_model.specs.Definitions.{keeps, OutputWord, Direct};

/// A variable of the same name and kind keeps its value, and so does each field of a timer of the same name; a new variable
/// is as it is declared.
pub fn same_names_keep_their_values()
    ensures variable { keeps old_text new_text (plain (codes "n")) ≡ true }
    ensures timer { keeps old_text new_text (field (codes "t") (codes "start")) ≡ true }
    ensures output { keeps old_text new_text (Direct (OutputWord 0)) ≡ true }
    ensures new_variable { keeps old_text new_text (plain (codes "k")) ≡ false }
{}

/// A variable of another kind does not keep its value, and no field of another block does.
pub fn other_kinds_start_again()
    ensures variable { keeps old_text other_kinds (plain (codes "n")) ≡ false }
    ensures timer { keeps old_text other_kinds (field (codes "t") (codes "in")) ≡ false }
    ensures no_place { keeps old_text other_kinds (field (codes "n") (codes "in")) ≡ false }
{}
