//! Declarations of texts: names, types, frames and places.
use crate::texts::tables_of;
use std::alloc::Global;
use wc_declare::{DeclaredType, Entity, FormalSlot, Frame, Tables, VariablePlace};
use wc_model::{Direction, Fault, Kind, Operand, Path, Place, SlotKind, StandardBlock, Word};

/// A block of ten places, and a program with a timer, two instances of the block and plain variables.
const PLANT: &[u8] =
    b"FUNCTION_BLOCK Dose\nVAR_INPUT x : BOOL; y : DINT; END_VAR\nVAR_OUTPUT z : TIME; END_VAR\nVAR c : CTU; w : BOOL; END_VAR\nEND_FUNCTION_BLOCK\nPROGRAM P\nVAR a : BOOL; t : TON; one, two : DOSE; n : DINT := 5; END_VAR\nEND_PROGRAM";

/// Names of a block and a program, each after its unit, and with its place, if it has one.
const PLACES: [(usize, &[&[u8]], Option<Place>); 9] = [
    (0, &[b"Z"], Some(Place(2))),
    (1, &[b"A"], Some(Place(45))),
    (1, &[b"n"], Some(Place(72))),
    (1, &[b"m"], None),
    (1, &[b"T", b"start"], Some(Place(51))),
    (1, &[b"one", b"x"], Some(Place(52))),
    (1, &[b"two", b"x"], Some(Place(62))),
    (1, &[b"two", b"c", b"m"], Some(Place(70))),
    (1, &[b"two"], None),
];

/// Each name of a block and a program is at its place, or nowhere.
fn are_at_places(tables: &Tables<'_>) -> bool {
    for (unit, names, wanted) in &PLACES {
        if tables.place(*unit, &Path::Names(names)) != *wanted {
            return false;
        }
    }
    true
}

/// Addresses have places in a program, and none in a block.
fn are_addresses_at_places(tables: &Tables<'_>) -> bool {
    let first = tables.place(1, &Path::Address(b"%IX0.0")) == Some(Place(0));
    let last = tables.place(1, &Path::Address(b"%qd3")) == Some(Place(44));
    first && last && tables.place(0, &Path::Address(b"%IX0.0")) == None
}

/// The number of plain variables a unit has, and the place of the last; nothing of no unit.
fn fields(tables: &Tables<'_>, unit: usize) -> Option<(usize, Option<Place>)> {
    if unit >= tables.units() {
        return None;
    }
    let fields = tables.fields(unit);
    match fields.last() {
        Some(field) => Some((fields.len(), Some(field.place))),
        None => Some((0, None)),
    }
}

/// Block and program have their sizes and their plain variables.
fn have_sizes(tables: &Tables<'_>) -> bool {
    let block = tables.size(0) == 10 && fields(tables, 0) == Some((4, Some(Place(9))));
    let program = tables.size(1) == 73 && fields(tables, 1) == Some((2, Some(Place(72))));
    block && program && fields(tables, 2) == None
}

/// The inputs and outputs of a timer and of the block have their kinds and places, and neither is the other.
fn have_formals(tables: &Tables<'_>) -> bool {
    let timer = DeclaredType::Standard(StandardBlock::Ton);
    let pt = FormalSlot {
        kind: Kind::Time,
        place: 1,
    };
    let y = FormalSlot {
        kind: Kind::Dint,
        place: 1,
    };
    let (into, out_of) = (Direction::Into, Direction::OutOf);
    let timers = tables.formal(timer, into, b"pt") == Some(pt)
        && tables.formal(timer, into, b"Q") == None
        && tables.formal(timer, out_of, b"pt") == None;
    let block = DeclaredType::Block(0);
    timers
        && tables.formal(block, into, b"Y") == Some(y)
        && tables.formal(block, into, b"z") == None
}

/// Variables of the program have their type, and their places begin there.
fn begin_somewhere(tables: &Tables<'_>) -> bool {
    let timer = VariablePlace {
        declared: DeclaredType::Standard(StandardBlock::Ton),
        first: 46,
    };
    let two = VariablePlace {
        declared: DeclaredType::Block(0),
        first: 62,
    };
    let own = tables.variable(1, b"T") == Some(timer) && tables.variable(1, b"two") == Some(two);
    own && tables.variable(0, b"two") == None
}

/// What is at a place of the program, and is of this kind.
fn entity_at(kind: Kind, readable: bool, writable: bool, place: u16) -> Option<Entity> {
    Some(Entity {
        kind: Some(kind),
        readable,
        writable,
        place: Some(Place(place)),
    })
}

/// The names of the program represent these. An instance is there, but has no kind and no place: to load or store it is a
/// fault of its kind.
fn are_named(tables: &Tables<'_>) -> bool {
    let instance = Entity {
        kind: None,
        readable: true,
        writable: true,
        place: None,
    };
    let own = tables.entity(1, &Operand::Name(b"N")) == entity_at(Kind::Dint, true, true, 72);
    let timer = tables.entity(1, &Operand::Name(b"t")) == Some(instance);
    own && timer && tables.entity(1, &Operand::Name(b"x")) == None
}

/// An input of an instance is written, and its output read; an address of an input is read.
fn are_guarded(tables: &Tables<'_>) -> bool {
    let x = Operand::Field {
        instance: b"two",
        field: b"x",
    };
    let z = Operand::Field {
        instance: b"ONE",
        field: b"z",
    };
    let address = Word {
        text: b"%ix0.3",
        line: 1,
    };
    let input = tables.entity(1, &x) == entity_at(Kind::Bool, false, true, 62);
    let output = tables.entity(1, &z) == entity_at(Kind::Time, true, false, 54);
    let bit = tables.entity(1, &Operand::Address(address)) == entity_at(Kind::Bool, true, false, 3);
    input && output && bit
}

/// The kind of a place of a frame, and the number that it holds at first.
fn slot_of(frame: &Result<Frame, Fault>, place: usize) -> Option<(SlotKind, i64)> {
    match frame {
        Ok(frame) => match (frame.kinds.get(place), frame.initials.get(place)) {
            (Some(kind), Some(number)) => Some((*kind, *number)),
            _ => None,
        },
        Err(_) => None,
    }
}

/// The kind of a place of a unit's frame, and the number that it holds at first.
fn slot(alloc: Global, tables: &Tables<'_>, unit: usize, place: usize) -> Option<(SlotKind, i64)> {
    slot_of(&tables.frame(alloc, unit), place)
}

/// Places of the frames of block and program: the unit, the place, its kind and its first number, if it is there.
const SLOTS: [(usize, usize, Option<(SlotKind, i64)>); 6] = [
    (1, 0, Some((SlotKind::Bool, 0))),
    (1, 24, Some((SlotKind::Dint, 0))),
    (1, 51, Some((SlotKind::Moment, 0))),
    (1, 72, Some((SlotKind::Dint, 5))),
    (1, 73, None),
    (0, 2, Some((SlotKind::Time, 0))),
];

/// The frames have these places.
fn have_slots(
    alloc: Global,
    tables: &Tables<'_>,
    slots: &[(usize, usize, Option<(SlotKind, i64)>)],
) -> bool {
    for (unit, place, wanted) in slots {
        if slot(alloc, tables, *unit, *place) != *wanted {
            return false;
        }
    }
    true
}

/// All that the tables of the block and the program say.
fn are_right(alloc: Global, tables: &Result<Tables<'_>, Fault>) -> bool {
    match tables {
        Ok(tables) => {
            let places = are_at_places(tables) && are_addresses_at_places(tables);
            let inside = have_sizes(tables) && have_formals(tables) && begin_somewhere(tables);
            let names = are_named(tables) && are_guarded(tables);
            places && inside && names && have_slots(alloc, tables, &SLOTS)
        }
        Err(_) => false,
    }
}

/// All that the tables of their text say.
fn are_right_for_the_text(alloc: Global) -> bool {
    are_right(alloc, &tables_of(alloc, PLANT))
}

#[test]
fn names_represent_what_is_declared(rt: HostRuntime) {
    assert!(rt; are_right_for_the_text(rt.alloc()));
}

/// Variables with initial values.
const INITIAL: &[u8] =
    b"PROGRAM P\nVAR a : BOOL := 1; b : TIME := T#-1s; c : BOOL := TRUE; d : TOF; END_VAR\nEND_PROGRAM";

/// What the frame of the program with initial values has of them.
const FIRST_VALUES: [(usize, usize, Option<(SlotKind, i64)>); 4] = [
    (0, 45, Some((SlotKind::Bool, 1))),
    (0, 46, Some((SlotKind::Time, -1000))),
    (0, 47, Some((SlotKind::Bool, 1))),
    (0, 52, Some((SlotKind::Phase, 0))),
];

/// The frame has these first values.
fn have_first_values(alloc: Global, tables: &Result<Tables<'_>, Fault>) -> bool {
    match tables {
        Ok(tables) => have_slots(alloc, tables, &FIRST_VALUES),
        Err(_) => false,
    }
}

/// The frame of the text has these first values.
fn are_first_values(alloc: Global) -> bool {
    have_first_values(alloc, &tables_of(alloc, INITIAL))
}

#[test]
fn frames_have_first_values(rt: HostRuntime) {
    assert!(rt; are_first_values(rt.alloc()));
}

/// A text is refused so.
fn is_refused(alloc: Global, text: &[u8], number: u16, place: u32) -> bool {
    match tables_of(alloc, text) {
        Ok(_) => false,
        Err(fault) => fault == Fault::Refused { number, place },
    }
}

#[test]
fn names_are_refused(rt: HostRuntime) {
    let twice = b"PROGRAM P\nVAR a : BOOL;\nA : DINT; END_VAR\nEND_PROGRAM";
    assert!(rt; is_refused(rt.alloc(), twice, 301, 3));
}
