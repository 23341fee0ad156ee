ghost use Rattle.std.specs.Prelude.{◌≡◌, [], ◌∷◌, None, Some, pos, false};
ghost use Rattle.wc_examples_language.specs.Refused.{two_counters, refused, doing, with_timer, with_number, with_counter, two_kinds_at_a_label};
ghost use Rattle.wc_examples_language.specs.Timers.{on_delay};
ghost use Rattle.wc_examples_language.specs.Writing.{at, var, dot, num, yes', ld, st, op, jump, call, arg, out, labelled};
ghost use Rattle.wc_model.specs.Definitions.{body_fault, End, Load, Nested};
ghost use Rattle.wc_model.specs.declared.operator.Condition.TheVariants.{Always};
ghost use Rattle.wc_model.specs.declared.operator.Operator.TheVariants.{And, Div, Eq};

/// A label that one way in reaches with a BOOL and another with a DINT has no result.
pub fn label_kinds_must_agree()
    ensures { body_fault two_kinds_at_a_label ≡ refused 403 6 }
{}

/// Names and results in BOOL logic.
pub fn simple_bodies_are_refused()
    ensures no_result { body_fault (doing (op 2 And (at 2 "%ix0.0") End)) ≡ refused 403 2 }
    ensures unknown_name { body_fault (doing (ld 2 (var "x") End)) ≡ refused 401 2 }
    ensures not_writable { body_fault (doing (ld 2 (at 2 "%ix0.0") (st 3 (at 3 "%ix0.1") End)))
        ≡ refused 404 3 }
    ensures other_kind { body_fault (doing (ld 2 (num (pos 1)) (st 3 (at 3 "%qx0.0") End)))
        ≡ refused 402 3 }
{}

/// Divisors are literals other than 0, and the name comes before the divisor.
pub fn divisors_are_refused()
    ensures variable_divisor { body_fault
        (with_number (ld 3 (num (pos 7)) (op 4 Div (var "d") End))) ≡ refused 408 4 }
    ensures zero_divisor { body_fault
        (with_number (ld 3 (num (pos 7)) (op 4 Div (num (pos 0)) End))) ≡ refused 408 4 }
    ensures unknown_divisor { body_fault (with_number (ld 3 (num (pos 7)) (op 4 Div (var "x") End)))
        ≡ refused 401 4 }
    ensures deferred { body_fault
        (doing (ld 2 (num (pos 5)) (Nested None 3 Div None (ld 4 (num (pos 2)) End) 5 End)))
        ≡ refused 408 3 }
{}

/// 0 and 1 are BOOLs next to a BOOL, and nowhere else.
pub fn literals_are_validated_by_their_place()
    ensures alongside_a_dint { body_fault (doing (ld 2 (num (pos 1)) (op 3 And yes' End)))
        ≡ refused 402 3 }
    ensures equal_to_a_bool { body_fault (doing (ld 2 (num (pos 1)) (op 3 Eq yes' End)))
        ≡ refused 402 3 }
    ensures two_is_no_bool { body_fault (doing (ld 2 yes' (op 3 Eq (num (pos 2)) End)))
        ≡ refused 402 3 }
    ensures one_is_one { body_fault (doing (ld 2 yes' (op 3 And (num (pos 1)) End))) ≡ None }
{}

/// A jump goes ahead, to a label that comes later in the body.
pub fn jumps_go_ahead()
    ensures backward { body_fault (doing (labelled 2 "l" (Load false yes') (jump 3 Always "l" End)))
        ≡ refused 406 3 }
    ensures unreached { body_fault
        (doing (jump 2 Always "l" (st 3 (at 3 "%qx0.0") (labelled 4 "l" (Load false yes') End))))
        ≡ refused 403 3 }
    ensures given_twice { body_fault
        (doing (labelled 2 "l" (Load false yes') (labelled 3 "l" (Load false yes') End)))
        ≡ refused 407 3 }
{}

/// The fields of an instance: inputs are written, outputs read, the others have no name here.
pub fn fields_are_guarded()
    ensures input_read { body_fault (with_timer (ld 3 (dot "t" "in") End)) ≡ refused 405 3 }
    ensures output_written { body_fault (with_timer (ld 3 yes' (st 4 (dot "t" "q") End)))
        ≡ refused 404 4 }
    ensures hidden { body_fault (with_timer (ld 3 (dot "t" "run") End)) ≡ refused 401 3 }
    ensures whole_instance { body_fault (with_timer (ld 3 (var "t") End)) ≡ refused 402 3 }
    ensures inner_instance { body_fault (with_counter (ld 14 (dot "a" "e") End))
        ≡ refused 405 14 }
    ensures block_output { body_fault (with_counter (ld 14 (num (pos 1)) (st 15 (dot "a" "n") End)))
        ≡ refused 404 15 }
{}

/// Arguments name inputs, each once.
pub fn arguments_are_guarded()
    ensures no_input { body_fault (with_timer (call 3 "t" (arg "q" yes' ∷ []) End))
        ≡ refused 409 3 }
    ensures twice { body_fault
        (with_timer (call 3 "t" (arg "in" yes' ∷ arg "in" yes' ∷ []) End))
        ≡ refused 410 3 }
    ensures no_instance { body_fault (with_number (call 3 "d" [] End)) ≡ refused 402 3 }
{}

/// Outputs of a call: an output of the block, each once, written where it may be written, of its
/// kind; the items of the list are checked in their written order.
pub fn outputs_are_guarded()
    ensures no_output { body_fault (with_timer (call 3 "t" (out "in" (at 3 "%qx0.0") ∷ []) End))
        ≡ refused 409 3 }
    ensures twice { body_fault
        (with_timer
        (call 3 "t" (out "q" (at 3 "%qx0.0") ∷ out "q" (at 3 "%qx0.1") ∷ []) End))
        ≡ refused 410 3 }
    ensures unknown { body_fault (with_timer (call 3 "t" (out "q" (var "x") ∷ []) End))
        ≡ refused 401 3 }
    ensures literal { body_fault (with_timer (call 3 "t" (out "q" yes' ∷ []) End))
        ≡ refused 404 3 }
    ensures input_bit { body_fault (with_timer (call 3 "t" (out "q" (at 3 "%ix0.0") ∷ []) End))
        ≡ refused 404 3 }
    ensures other_kind { body_fault (with_timer (call 3 "t" (out "et" (at 3 "%qx0.0") ∷ []) End))
        ≡ refused 402 3 }
    ensures whole_instance { body_fault (with_timer (call 3 "t" (out "q" (var "t") ∷ []) End))
        ≡ refused 402 3 }
    ensures first_is_reported { body_fault
        (with_timer (call 3 "t" (out "et" (at 3 "%qx0.0") ∷ arg "q" yes' ∷ []) End))
        ≡ refused 402 3 }
    ensures then_the_next { body_fault
        (with_timer (call 3 "t" (arg "q" yes' ∷ out "et" (at 3 "%qx0.0") ∷ []) End))
        ≡ refused 409 3 }
    ensures own_input { body_fault (with_timer (call 3 "t" (out "q" (dot "t" "in") ∷ []) End))
        ≡ None }
{}

/// The inner result at a `)` is of the outer kind: 1 is a DINT there.
pub fn inner_result_is_of_the_outer_kind()
    ensures { body_fault (doing (ld 2 yes' (Nested None 3 And (Some (num (pos 1))) End 4 End)))
        ≡ refused 402 4 }
{}

/// The larger programs break no rule on bodies.
pub fn larger_programs_are_accepted()
    ensures timer { body_fault on_delay ≡ None }
    ensures counters { body_fault two_counters ≡ None }
{}
