//! A program that is changed between two scans: which place of the old one each place carries on.

use crate::texts::load_text;
use std::alloc::Global;
use wc_cost::Loaded;
use wc_model::{Fault, Place};

/// It counts from 5 on, and a timer of a tenth of a second runs.
const COUNTING: &[u8] =
    b"PROGRAM P\nVAR n : DINT := 5; t : TON; END_VAR\nLD n\nADD 1\nST n\nST %QD0\n\
    CAL t(IN := %IX0.0, PT := T#100ms)\nLD t.Q\nST %QX0.0\nEND_PROGRAM\n";

/// The same timer and number in another order, with other first values, and one variable more.
const SUMMING: &[u8] =
    b"PROGRAM Q\nVAR t : TON; N : DINT := 50; k : DINT := 7; END_VAR\nLD n\nADD k\nST %QD0\n\
    CAL t(IN := %IX0.0, PT := T#100ms)\nLD t.Q\nST %QX0.0\nEND_PROGRAM\n";

/// The old place whose value a place of a text keeps; nothing if there is no such place.
fn carried_place(new: &Loaded<'_>, old: &Loaded<'_>, place: u16) -> Option<Place> {
    if usize::from(place) < new.size() {
        new.carry(old, Place(place))
    } else {
        None
    }
}

/// The places of the summing program carry on those of the counting one: an address, a field, a number that is
/// elsewhere, and nothing for what is new.
fn are_carried(new: &Loaded<'_>, old: &Loaded<'_>) -> bool {
    let address = carried_place(new, old, 44) == Some(Place(44));
    let field = carried_place(new, old, 50) == Some(Place(51));
    let number = carried_place(new, old, 51) == Some(Place(45));
    new.size() == 53 && address && field && number && carried_place(new, old, 52).is_none()
}

/// Both were loaded, and the places of the one carry on those of the other.
fn are_carried_from(new: &Result<Loaded<'_>, Fault>, old: &Result<Loaded<'_>, Fault>) -> bool {
    match (new, old) {
        (Ok(new), Ok(old)) => are_carried(new, old),
        _ => false,
    }
}

/// The same for the summing program and the counting one.
fn are_carried_over(alloc: Global) -> bool {
    are_carried_from(&load_text(alloc, SUMMING), &load_text(alloc, COUNTING))
}

#[test]
fn places_are_carried_by_name(rt: HostRuntime) {
    assert!(rt; are_carried_over(rt.alloc()));
}
