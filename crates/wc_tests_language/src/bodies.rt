//! Texts that are verified.
use crate::texts::check;
use std::alloc::Global;
use wc_model::Fault;
use wc_verify::Checked;

/// The number of units a verified text has, and the number of places the second of them.
fn unit_and_slot_counts(checked: &Result<Checked<'_>, Fault>) -> (usize, usize) {
    match checked {
        Ok(checked) => (checked.source().units.len(), checked.tables().size(1)),
        Err(_) => (0, 0),
    }
}

/// The number of units of a text, and the number of places of the second, if it is accepted.
fn counts_of(alloc: Global, text: &[u8]) -> (usize, usize) {
    unit_and_slot_counts(&check(alloc, text))
}

#[test]
fn a_verified_text_is_kept(rt: HostRuntime) {
    let text =
        b"FUNCTION_BLOCK B\nVAR_INPUT i : BOOL; END_VAR\nEND_FUNCTION_BLOCK\nPROGRAM P\nVAR a : B; END_VAR\nEND_PROGRAM\n";
    assert!(rt; counts_of(rt.alloc(), text) == (2, 46));
}
