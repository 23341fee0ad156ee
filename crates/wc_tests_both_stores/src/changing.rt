//! A change that may be refused memory.
use std::alloc::Global;
use wc_controller::load;
use wc_cost::Loaded;
use wc_machine::Machine;
use wc_model::{Fault, Image, Outputs, Steps};
use wc_store::SlotStore;

/// What a change came to.
#[derive(Clone, Copy)]
pub(crate) enum Change {
    /// A text or a machine was not to be had, so it was not asked for.
    Unloaded,
    /// It was made.
    Made,
    /// The old machine came back as it was.
    HandedBack,
    /// The old machine came back, and it is not as it was.
    Spoiled,
}

/// One scan with the first input set, if its time is not before the last.
fn scan(machine: &mut Machine<'_, SlotStore>, ms: u64) -> Option<(Steps, Outputs)> {
    if ms < machine.last() || ms > 1_099_511_627_775 {
        return None;
    }
    let image = Image {
        inputs: 1,
        status: 0,
        weights: [0, 0, 0],
    };
    let steps = machine.scan(ms, &image);
    Some((steps, machine.outputs()))
}

/// What a machine shows: its outputs, its last time and its bound.
fn state_of(machine: &Machine<'_, SlotStore>) -> (Outputs, u64, u32) {
    (machine.outputs(), machine.last(), machine.bound())
}

/// Whether two machines have the same outputs, last time and bound, and the same next scan.
fn are_alike(one: &mut Machine<'_, SlotStore>, other: &mut Machine<'_, SlotStore>) -> bool {
    state_of(one) == state_of(other) && scan(one, 100) == scan(other, 100)
}

/// Asks one of two machines that are alike for a change.
fn change_one<'a>(
    alloc: Global,
    machine: Machine<'a, SlotStore>,
    other: &mut Machine<'_, SlotStore>,
    next: Loaded<'a>,
) -> Change {
    match machine.change(alloc, next) {
        Ok(_) => Change::Made,
        Err((mut back, fault)) => {
            if fault == Fault::Memory && are_alike(&mut back, other) {
                Change::HandedBack
            } else {
                Change::Spoiled
            }
        }
    }
}

/// A machine over a text that has made one scan.
fn machine_of<'a>(alloc: Global, text: &'a [u8]) -> Result<Machine<'a, SlotStore>, Fault> {
    match load(alloc, text) {
        Ok(loaded) => match Machine::new(alloc, loaded) {
            Ok(mut machine) => {
                let _scan = scan(&mut machine, 10);
                Ok(machine)
            }
            Err(fault) => Err(fault),
        },
        Err(fault) => Err(fault),
    }
}

/// Asks a machine over a text, of which another is the like, for the change to the next.
fn change_first(
    alloc: Global,
    program: &[u8],
    other: &mut Machine<'_, SlotStore>,
    next: &[u8],
) -> Change {
    let Ok(machine) = machine_of(alloc, program) else {
        return Change::Unloaded;
    };
    match load(alloc, next) {
        Ok(next) => change_one(alloc, machine, other, next),
        Err(_) => Change::Unloaded,
    }
}

/// Asks a machine over a text for the change to the next.
pub(crate) fn change_of(alloc: Global, program: &[u8], next: &[u8]) -> Change {
    match machine_of(alloc, program) {
        Ok(mut other) => change_first(alloc, program, &mut other, next),
        Err(_) => Change::Unloaded,
    }
}
