//! Laws about the definitions of the language: jumps, blocks, paths and bounds; a text whose bodies
//! break no rule is never stuck; histories of the standard blocks over a change of the program; and
//! what outputs of a call left as it was. Each function has an empty body: its clause is the law.
#![tactic(auto)]

mod histories;
mod soundness;
mod without_outputs;

ghost use Rattle.wc_laws_language.specs.Laws.{WrapIsTheOnlyOne, JumpGoesOnAhead, ReturnEndsTheBody, ATextKeepsItsPlaces, RTrigKeepsItsHistory, SrKeepsItsHistory, RsKeepsItsHistory, CtuKeepsItsHistory, TonKeepsItsHistory, TofKeepsItsHistory, TpKeepsItsHistory, FirstFaultIsFirst, WorstPathIsLongest, EachUnitHasAWorstPath, EachLoadedUnitHasABound, AUnitHasOneBound, ThePrintedBoundIsThePrograms, NoRunIsLongerThanThePaths};

pub use histories::{a_call_adds_to_the_history, histories_go_on_over_a_change};
pub use soundness::{
    a_standard_block_is_kept_whole, a_text_for_itself_is_no_change, carried_store_holds_its_kinds,
    loaded_text_is_never_stuck, no_run_is_ever_stuck, spelled_text_nests_simply,
    verified_text_is_never_stuck,
};
pub use without_outputs::{
    a_call_has_the_paths_it_had, a_call_is_validated_as_it_was, a_call_means_what_it_did,
    a_check_prints_what_it_printed, a_text_is_spelled_as_it_was, a_text_is_too_long_where_it_was,
    a_text_is_validated_as_it_was, a_text_means_what_it_did, a_unit_has_the_bound_it_had,
    a_unit_has_the_paths_it_had, a_unit_has_the_worst_path_it_had, an_input_is_spelled_as_it_was,
    an_old_text_stays_as_it_is, an_output_to_no_address_is_refused, declarations_ignore_directions,
    outputs_add_only_their_addresses, outputs_fail_only_by_their_addresses,
};

/// Arithmetic wraps to the one number of 32 bits that is equal modulo 2^32.
pub fn wrap_is_the_only_one()
    ensures { WrapIsTheOnlyOne }
{}

/// A jump goes on at the first later line that carries its label.
pub fn jump_goes_on_ahead()
    ensures { JumpGoesOnAhead }
{}

/// A return ends its body: what follows it does nothing.
pub fn return_ends_the_body()
    ensures { ReturnEndsTheBody }
{}

/// A text that is replaced by itself keeps each of its places.
pub fn a_text_keeps_its_places()
    ensures { ATextKeepsItsPlaces }
{}

/// R_TRIG: the step agrees with what the history of calls says.
pub fn r_trig_keeps_its_history()
    ensures { RTrigKeepsItsHistory }
{}

/// SR: the step agrees with what the history of calls says.
pub fn sr_keeps_its_history()
    ensures { SrKeepsItsHistory }
{}

/// RS: the step agrees with what the history of calls says.
pub fn rs_keeps_its_history()
    ensures { RsKeepsItsHistory }
{}

/// CTU: the step agrees with what the history of calls says.
pub fn ctu_keeps_its_history()
    ensures { CtuKeepsItsHistory }
{}

/// TON: the step agrees with what the history of calls says.
pub fn ton_keeps_its_history()
    ensures { TonKeepsItsHistory }
{}

/// TOF: the step agrees with what the history of calls says.
pub fn tof_keeps_its_history()
    ensures { TofKeepsItsHistory }
{}

/// TP: the step agrees with what the history of calls says.
pub fn tp_keeps_its_history()
    ensures { TpKeepsItsHistory }
{}

/// The first fault of a pass breaks a rule at its place, and no earlier place breaks one.
pub fn first_fault_is_first()
    ensures { FirstFaultIsFirst }
{}

/// A worst path is a path of its unit, and none is longer.
pub fn worst_path_is_longest()
    ensures { WorstPathIsLongest }
{}

/// Each unit has a worst path, unless it has no path at all.
pub fn each_unit_has_a_worst_path()
    ensures { EachUnitHasAWorstPath }
{}

/// Each unit of a text that is loaded from its bytes has a bound within the limit, also one that nobody calls.
pub fn each_loaded_unit_has_a_bound()
    ensures { EachLoadedUnitHasABound }
{}

/// A unit has one bound at most.
pub fn a_unit_has_one_bound()
    ensures { AUnitHasOneBound }
{}

/// The number that a check prints for the last unit of a text is the bound of its program, within which each scan keeps.
pub fn the_printed_bound_is_the_programs()
    ensures { ThePrintedBoundIsThePrograms }
{}

/// No run of a program executes more items than its longest path has.
pub fn no_run_is_longer_than_the_paths()
    ensures { NoRunIsLongerThanThePaths }
{}
