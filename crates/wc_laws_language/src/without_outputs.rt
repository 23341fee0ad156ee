//! Laws on what a change of the language left as it was: a call whose list gives no output out, and
//! a text all of whose calls are such, is what it was before outputs could be given out. Each
//! function has an empty body: its clause is the law.
ghost use Rattle.std.specs.Prelude.{◌≡◌, None, Some};
ghost use Rattle.wc_model.specs.Definitions.{first_broken, declaration_fault};
ghost use Rattle.wc_laws_language.specs.CheckLaws.{ACheckPrintsWhatItPrinted, AUnitHasTheWorstPathItHad};
ghost use Rattle.wc_laws_language.specs.DeclarationLaws.{AnOldTextStaysAsItIs, DeclarationsIgnoreDirections, OutputsAddOnlyTheirAddresses, OutputsFailOnlyByTheirAddresses, gives_nowhere, text_output_checks, without_outputs};
ghost use Rattle.wc_laws_language.specs.CallLaws.{ACallHasThePathsItHad, ACallIsValidatedAsItWas, ACallMeansWhatItDid, AnInputIsSpelledAsItWas};
ghost use Rattle.wc_laws_language.specs.TextLaws.{ATextIsValidatedAsItWas, ATextIsSpelledAsItWas, ATextIsTooLongWhereItWas, ATextMeansWhatItDid, AUnitHasTheBoundItHad, AUnitHasThePathsItHad};

/// A call that gives no output out does what it did.
pub fn a_call_means_what_it_did()
    ensures { ACallMeansWhatItDid }
{}

/// A call that gives no output out has the paths that it had, so its bound and its worst path are the same.
pub fn a_call_has_the_paths_it_had()
    ensures { ACallHasThePathsItHad }
{}

/// A call that gives no output out is checked as it was.
pub fn a_call_is_validated_as_it_was()
    ensures { ACallIsValidatedAsItWas }
{}

/// An input of a call is spelled as it was.
pub fn an_input_is_spelled_as_it_was()
    ensures { AnInputIsSpelledAsItWas }
{}

/// A text that gives no output out means at each scan what it did: the same outcome, trace and store.
pub fn a_text_means_what_it_did()
    ensures { ATextMeansWhatItDid }
{}

/// Each unit of such a text has the paths that it had.
pub fn a_unit_has_the_paths_it_had()
    ensures { AUnitHasThePathsItHad }
{}

/// Each unit of such a text has the bound that it had.
pub fn a_unit_has_the_bound_it_had()
    ensures { AUnitHasTheBoundItHad }
{}

/// The last pass refuses such a text if it did: by 411, at the first unit that may take more steps than a unit may.
pub fn a_text_is_too_long_where_it_was()
    ensures { ATextIsTooLongWhereItWas }
{}

/// The bodies of such a text are checked by the rules by which they were, so their first fault is the same.
pub fn a_text_is_validated_as_it_was()
    ensures { ATextIsValidatedAsItWas }
{}

/// Such a text is spelled by the tokens by which it was, and by no others.
pub fn a_text_is_spelled_as_it_was()
    ensures { ATextIsSpelledAsItWas }
{}

/// Each unit of such a text has the worst path that it had, with the same lines.
pub fn a_unit_has_the_worst_path_it_had()
    ensures { AUnitHasTheWorstPathItHad }
{}

/// A check of such a text prints what it printed: of each unit the name, the bound and, if asked for, the worst path.
pub fn a_check_prints_what_it_printed()
    ensures { ACheckPrintsWhatItPrinted }
{}

/// The pass on declarations (refusals 301 to 308) does not look at the direction of an argument: of any text it asks what it
/// asks of the text in which each output is written as an input.
pub fn declarations_ignore_directions()
    ensures { DeclarationsIgnoreDirections }
{}

/// Outputs add to the rules of that pass those on their addresses (304 and 305), and no others.
pub fn outputs_add_only_their_addresses()
    ensures { OutputsAddOnlyTheirAddresses }
{}

/// The first fault of that pass is that of the text without its outputs, or one at an address to which an output goes.
pub fn outputs_fail_only_by_their_addresses()
    ensures { OutputsFailOnlyByTheirAddresses }
{}

/// Taking out the outputs of a text that gives none out, or writing them as inputs, leaves it as it is.
pub fn an_old_text_stays_as_it_is()
    ensures { AnOldTextStaysAsItIs }
{}

/// An output to an address that there is not: 304 at its line. Without the output the same text has no fault in that pass.
pub fn an_output_to_no_address_is_refused()
    ensures refused { declaration_fault gives_nowhere ≡ Some (record { number = 304; line = 3 }) }
    ensures by_the_output { first_broken (text_output_checks gives_nowhere)
        ≡ Some (record { number = 304; line = 3 }) }
    ensures without_it { declaration_fault (without_outputs gives_nowhere) ≡ None }
{}
