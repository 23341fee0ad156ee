ghost use Rattle.std.specs.Prelude.{◌≡◌, ◌^◌, pos, negsuc, Ok};
ghost use Rattle.wc_model.specs.Definitions.{apply, wrap};
ghost use Rattle.wc_model.specs.declared.operator.Operator.TheVariants.{Div, Mod};
ghost use Rattle.wc_model.specs.declared.value.Value.TheVariants.{Dint};

/// One past the greatest number of 32 bits is the least, and the other way round.
pub fn numbers_wrap()
    ensures greatest_stays { wrap (pos 2147483647) ≡ pos 2147483647 }
    ensures past_the_greatest { wrap (pos 2147483648) ≡ negsuc 2147483647 }
    ensures least_stays { wrap (negsuc 2147483647) ≡ negsuc 2147483647 }
    ensures below_the_least { wrap (negsuc 2147483648) ≡ pos 2147483647 }
    ensures a_whole_turn { wrap (pos (2 ^ 32)) ≡ pos 0 }
{}

/// Division truncates toward zero, and the remainder has the dividend's sign.
pub fn negatives_are_divided()
    ensures quotient { apply Div (Dint (negsuc 6)) (Dint (pos 2)) ≡ Ok (Dint (negsuc 2)) }
    ensures remainder { apply Mod (Dint (negsuc 6)) (Dint (pos 2)) ≡ Ok (Dint (negsuc 0)) }
    ensures by_a_negative { apply Div (Dint (pos 7)) (Dint (negsuc 1)) ≡ Ok (Dint (negsuc 2)) }
    ensures with_the_dividends_sign { apply Mod (Dint (pos 7)) (Dint (negsuc 1))
        ≡ Ok (Dint (pos 1)) }
    ensures least_by_minus_one { apply Div (Dint (negsuc 2147483647)) (Dint (negsuc 0))
        ≡ Ok (Dint (negsuc 2147483647)) }
    ensures no_rest_of_the_least { apply Mod (Dint (negsuc 2147483647)) (Dint (negsuc 0))
        ≡ Ok (Dint (pos 0)) }
{}
