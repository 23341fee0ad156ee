//! A change of the program: it is made if memory is granted, and else the old machine is as it was.
use crate::machines::scan;
use crate::passes::loaded_of;
use std::alloc::Global;
use wc_cost::Loaded;
use wc_machine::Machine;
use wc_model::{Fault, Outputs, Steps};
use wc_store::SlotStore;

/// It counts from 5 on, and a timer of a tenth of a second runs.
const OLD: &[u8] = b"PROGRAM P\nVAR n : DINT := 5; t : TON; END_VAR\nLD n\nADD 1\nST n\nST %QD0\n\
    CAL t(IN := %IX0.0, PT := T#100ms)\nLD t.Q\nST %QX0.0\nEND_PROGRAM\n";

/// The same timer and number in another order, with other first values, and one variable more.
const NEXT: &[u8] =
    b"PROGRAM Q\nVAR t : TON; N : DINT := 50; k : DINT := 7; END_VAR\nLD n\nADD k\nST %QD0\n\
    CAL t(IN := %IX0.0, PT := T#100ms)\nLD t.Q\nST %QX0.0\nEND_PROGRAM\n";

/// A machine that scanned at 0 and 60 ms.
fn scanned_twice<'a>(alloc: Global, text: &'a [u8]) -> Result<Machine<'a, SlotStore>, Fault> {
    match loaded_of(alloc, text) {
        Ok(loaded) => match Machine::new(alloc, loaded) {
            Ok(mut machine) => {
                let _first = scan(&mut machine, 0);
                let _second = scan(&mut machine, 60);
                Ok(machine)
            }
            Err(fault) => Err(fault),
        },
        Err(fault) => Err(fault),
    }
}

/// The change of a machine.
fn change<'a>(
    alloc: Global,
    machine: Machine<'a, SlotStore>,
    next: Loaded<'a>,
) -> Result<Machine<'a, SlotStore>, (Machine<'a, SlotStore>, Fault)> {
    machine.change(alloc, next)
}

/// The next scan of a changed machine adds 7 to the number that was kept, and the timer that runs on ends.
fn goes_on(machine: &mut Machine<'_, SlotStore>) -> bool {
    let steps = scan(machine, 100);
    let outputs = machine.outputs();
    steps == Some(Steps(9)) && outputs.bits == 1 && outputs.words == [14, 0, 0, 0]
}

/// What a machine shows: its outputs, its last time and its bound.
fn state_of(machine: &Machine<'_, SlotStore>) -> (Outputs, u64, u32) {
    (machine.outputs(), machine.last(), machine.bound())
}

/// A machine has the same outputs, last time and bound as another, and the same next scan.
fn are_alike(one: &mut Machine<'_, SlotStore>, other: &mut Machine<'_, SlotStore>) -> bool {
    let same = state_of(one) == state_of(other);
    let steps = scan(one, 100) == scan(other, 100);
    same && steps && one.outputs() == other.outputs()
}

/// Changes a machine: whether the change was made and goes on rightly.
fn is_changed<'a>(alloc: Global, machine: Machine<'a, SlotStore>, next: Loaded<'a>) -> bool {
    match change(alloc, machine, next) {
        Ok(mut machine) => goes_on(&mut machine),
        Err(_) => false,
    }
}

/// Changes a machine: whether the change was made, or the old machine came back as the other one is.
fn is_changed_or_back<'a>(
    alloc: Global,
    machine: Machine<'a, SlotStore>,
    other: &mut Machine<'a, SlotStore>,
    next: Loaded<'a>,
) -> bool {
    match change(alloc, machine, next) {
        Ok(_) => true,
        Err((mut back, fault)) => fault == Fault::Memory && are_alike(&mut back, other),
    }
}

/// The machine of the old text, changed to the next.
fn next_goes_on(alloc: Global) -> bool {
    let Ok(machine) = scanned_twice(alloc, OLD) else {
        return false;
    };
    match loaded_of(alloc, NEXT) {
        Ok(next) => is_changed(alloc, machine, next),
        Err(_) => false,
    }
}

/// A machine of the old text, next to another one, is asked for the change.
fn comes_back_as(alloc: Global, other: &mut Machine<'static, SlotStore>) -> bool {
    let Ok(machine) = scanned_twice(alloc, OLD) else {
        return false;
    };
    match loaded_of(alloc, NEXT) {
        Ok(next) => is_changed_or_back(alloc, machine, other, next),
        Err(_) => false,
    }
}

/// Two machines of the old text, of which one is asked for the change.
fn comes_back_as_it_was(alloc: Global) -> bool {
    match scanned_twice(alloc, OLD) {
        Ok(mut other) => comes_back_as(alloc, &mut other),
        Err(_) => false,
    }
}

#[test]
fn change_succeeds(rt: HostRuntime) {
    assert!(rt; next_goes_on(rt.alloc()));
}

#[test]
fn a_machine_that_is_handed_back_is_as_it_was(rt: HostRuntime) {
    assert!(rt; comes_back_as_it_was(rt.alloc()));
}
