ghost use Rattle.std.specs.Prelude.{◌≡◌, [], ◌∷◌, map, codes, None, false};
ghost use Rattle.wc_examples_language.specs.Refused.{counting_block, two_counters, refused, declaring, doing, starts_at_two};
ghost use Rattle.wc_examples_language.specs.Writing.{at, ld, declares, labelled, yes'};
ghost use Rattle.wc_model.specs.Definitions.{reserved_words, type_words, declaration_fault, End, Load};
ghost use Rattle.wc_model.specs.declared.source.Section.TheVariants.{Own, Input};

/// Names: a variable declared twice in either letter case, a reserved word, a reserved label.
pub fn names_are_refused()
    ensures twice { declaration_fault
        (declaring (declares Own 2 "d" "dint" ∷ declares Own 3 "d" "bool" ∷ [])) ≡ refused 301 3 }
    ensures reserved { declaration_fault (declaring (declares Own 2 "add" "dint" ∷ []))
        ≡ refused 307 2 }
    ensures reserved_label { declaration_fault (doing (labelled 2 "ld" (Load false yes') End))
        ≡ refused 307 2 }
{}

/// The words that name no unit, no variable and no label, and those of them that are types.
pub fn words_are_kept()
    ensures reserved { reserved_words
        ≡ map codes
        ("ld" ∷ "ldn" ∷ "st" ∷ "stn" ∷ "s" ∷ "r" ∷ "and" ∷ "andn" ∷ "or" ∷ "orn" ∷ "xor" ∷ "xorn"
        ∷ "add" ∷ "sub" ∷ "mul" ∷ "div" ∷ "mod" ∷ "gt" ∷ "ge" ∷ "eq" ∷ "ne" ∷ "le" ∷ "lt"
        ∷ "not" ∷ "ret" ∷ "retc" ∷ "retcn" ∷ "jmp" ∷ "jmpc" ∷ "jmpcn" ∷ "cal" ∷ "calc" ∷ "calcn"
        ∷ "function_block" ∷ "end_function_block" ∷ "program" ∷ "end_program"
        ∷ "var_input" ∷ "var_output" ∷ "var" ∷ "end_var"
        ∷ "bool" ∷ "dint" ∷ "time" ∷ "true" ∷ "false"
        ∷ "ton" ∷ "tof" ∷ "tp" ∷ "ctu" ∷ "r_trig" ∷ "sr" ∷ "rs"
        ∷ "function" ∷ "end_function" ∷ "var_in_out" ∷ "var_global" ∷ "var_external" ∷ "var_temp"
        ∷ "constant" ∷ "retain" ∷ "at" ∷ []) }
    ensures types { type_words
        ≡ map codes
        ("bool" ∷ "dint" ∷ "time"
        ∷ "ton" ∷ "tof" ∷ "tp" ∷ "ctu" ∷ "r_trig" ∷ "sr" ∷ "rs" ∷ []) }
{}

/// Types: one that there is not, an instance that is not a variable of its own, a first value of another kind.
pub fn types_are_refused()
    ensures unknown { declaration_fault (declaring (declares Own 2 "d" "foo" ∷ []))
        ≡ refused 302 2 }
    ensures not_own { declaration_fault (declaring (declares Input 2 "t" "ton" ∷ []))
        ≡ refused 302 2 }
    ensures pulse_timer { declaration_fault (declaring (declares Own 2 "t" "tp" ∷ [])) ≡ None }
    ensures reset_dominant { declaration_fault (declaring (declares Own 2 "b" "rs" ∷ [])) ≡ None }
    ensures no_own_pulse_timer { declaration_fault (declaring (declares Input 2 "t" "tp" ∷ []))
        ≡ refused 302 2 }
    ensures no_bit { declaration_fault (declaring (starts_at_two ∷ [])) ≡ refused 303 2 }
    ensures names_come_first { declaration_fault
        (declaring (declares Own 2 "d" "dint" ∷ declares Own 3 "d" "foo" ∷ [])) ≡ refused 301 3 }
{}

/// Addresses: one that there is not.
pub fn addresses_are_refused()
    ensures sixteenth { declaration_fault (doing (ld 2 (at 2 "%ix0.16") End)) ≡ refused 304 2 }
    ensures leading_zero { declaration_fault (doing (ld 2 (at 2 "%ix0.01") End)) ≡ refused 304 2 }
    ensures without_x { declaration_fault (doing (ld 2 (at 2 "%i0.1") End)) ≡ None }
{}

/// A text with a block and two instances breaks no rule on declarations; a block named before it is closed does.
pub fn blocks_come_first()
    ensures in_order { declaration_fault two_counters ≡ None }
    ensures in_itself { declaration_fault (counting_block ∷ []) ≡ None }
{}
