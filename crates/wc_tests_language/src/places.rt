//! The places of a loaded text, and the frame that its program begins with.
use crate::texts::load_text;
use wc_cost::Loaded;
use wc_model::{Fault, Path, Place, SlotKind};

/// A block of two places, and a program with a timer, an instance of the block and plain variables.
const PLANT: &[u8] =
    b"FUNCTION_BLOCK Next\nVAR_INPUT x : DINT; END_VAR\nVAR_OUTPUT y : DINT := 9; END_VAR\nLD X\nADD 1\nST y\nEND_FUNCTION_BLOCK\nPROGRAM P\nVAR t : TON; a : Next; n : DINT := -7; b : BOOL := 1; p : TIME := T#2s; END_VAR\nCAL a(x := n)\nLD b\nCALCN t(IN := 1, PT := p)\nEND_PROGRAM";

/// Names in the program's frame, each with its place, if it has one.
const PLACES: [(&[&[u8]], Option<Place>); 5] = [
    (&[b"t", b"start"], Some(Place(50))),
    (&[b"A", b"y"], Some(Place(52))),
    (&[b"N"], Some(Place(53))),
    (&[b"a"], None),
    (&[b"x"], None),
];

/// Each name in the program's frame is at its place, or nowhere.
fn are_at_places(loaded: &Loaded<'_>) -> bool {
    for (names, wanted) in &PLACES {
        if loaded.place(&Path::Names(names)) != *wanted {
            return false;
        }
    }
    true
}

/// The first and the last of the addresses are at these places.
fn are_addresses_at_places(loaded: &Loaded<'_>) -> bool {
    let first = loaded.place(&Path::Address(b"%IX0.0")) == Some(Place(0));
    first && loaded.place(&Path::Address(b"%qd3")) == Some(Place(44))
}

/// From a place on, the frame has n places of this kind and this first number.
fn holds(loaded: &Loaded<'_>, first: usize, count: usize, kind: SlotKind, number: i64) -> bool {
    for index in 0..count {
        let at = first.saturating_add(index);
        if loaded.kinds().get(at) != Some(&kind) || loaded.initials().get(at) != Some(&number) {
            return false;
        }
    }
    true
}

/// The places of the frame: the first of some, how many they are, their kind and their first number.
const PARTS: [(usize, usize, SlotKind, i64); 15] = [
    (0, 22, SlotKind::Bool, 0),
    (22, 3, SlotKind::Dint, 0),
    (25, 16, SlotKind::Bool, 0),
    (41, 4, SlotKind::Dint, 0),
    (45, 1, SlotKind::Bool, 0),
    (46, 1, SlotKind::Time, 0),
    (47, 1, SlotKind::Bool, 0),
    (48, 1, SlotKind::Time, 0),
    (49, 1, SlotKind::Bool, 0),
    (50, 1, SlotKind::Moment, 0),
    (51, 1, SlotKind::Dint, 0),
    (52, 1, SlotKind::Dint, 9),
    (53, 1, SlotKind::Dint, -7),
    (54, 1, SlotKind::Bool, 1),
    (55, 1, SlotKind::Time, 2000),
];

/// The frame is that of the text.
fn begins_so(loaded: &Loaded<'_>) -> bool {
    for (first, count, kind, number) in &PARTS {
        if !holds(loaded, *first, *count, *kind, *number) {
            return false;
        }
    }
    loaded.kinds().len() == 56 && loaded.initials().len() == 56
}

/// Places and frame of what is loaded are right.
fn are_right(loaded: &Result<Loaded<'_>, Fault>) -> bool {
    match loaded {
        Ok(loaded) => {
            are_at_places(loaded) && are_addresses_at_places(loaded) && begins_so(loaded)
        }
        Err(_) => false,
    }
}

#[test]
fn places_are_the_programs(rt: HostRuntime) {
    assert!(rt; are_right(&load_text(rt.alloc(), PLANT)));
}
