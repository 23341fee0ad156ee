ghost use Rattle.std.specs.Prelude.{◌≡◌, [], ◌∷◌, pos};
ghost use Rattle.wc_examples_language.specs.CallOutputs.{counts_given_out, feeds_a_counter, goes_where_it_came_from, resets_itself};
ghost use Rattle.wc_examples_language.specs.Showing.{shown_by, scan, shows};

/// Outputs are written after the block's body, wherever they are in the list: a counter of seven
/// steps, its line, three inputs, its body and two outputs.
pub fn outputs_of_a_call_are_given_out()
    ensures { shown_by counts_given_out
        (scan 0 1 ∷ scan 1 1 ∷ scan 2 0 ∷ scan 3 1 ∷ scan 4 3 ∷ [])
        ≡ shows 7 0 (pos 1) (pos 0) ∷ shows 7 0 (pos 1) (pos 0) ∷ shows 7 0 (pos 1) (pos 0)
        ∷ shows 7 1 (pos 2) (pos 0) ∷ shows 7 0 (pos 0) (pos 0) ∷ [] }
{}

/// An output may go to an input of the very instance that is called: the next call takes it.
pub fn output_may_go_to_its_own_instance()
    ensures { shown_by resets_itself (scan 0 1 ∷ scan 1 0 ∷ scan 2 1 ∷ [])
        ≡ shows 7 1 (pos 0) (pos 0) ∷ shows 7 0 (pos 0) (pos 0) ∷ shows 7 1 (pos 0) (pos 0) ∷ [] }
{}

/// An output may go to an input of another instance.
pub fn output_may_go_to_another_instance()
    ensures { shown_by feeds_a_counter (scan 0 1 ∷ scan 1 1 ∷ scan 2 0 ∷ scan 3 1 ∷ [])
        ≡ shows 8 0 (pos 1) (pos 0) ∷ shows 8 0 (pos 1) (pos 0) ∷ shows 8 0 (pos 1) (pos 0)
        ∷ shows 8 0 (pos 2) (pos 0) ∷ [] }
{}

/// An output may go to a variable that is an argument of the same call: it is read before.
pub fn output_may_go_to_an_argument()
    ensures { shown_by goes_where_it_came_from (scan 0 0 ∷ scan 1 0 ∷ scan 2 0 ∷ [])
        ≡ shows 7 1 (pos 0) (pos 0) ∷ shows 7 0 (pos 0) (pos 0) ∷ shows 7 1 (pos 0) (pos 0) ∷ [] }
{}
