//! The calls of a machine, over both stores.
use crate::passes::{COUNTING, loaded_of};
use std::alloc::Global;
use wc_cost::Loaded;
use wc_machine::Machine;
use wc_model::{Fault, Image, Outputs, Steps};
use wc_store::{NamedStore, SlotStore, Store};

/// A machine over a loaded text.
fn machine_over<'a, S: Store>(alloc: Global, loaded: Loaded<'a>) -> Result<Machine<'a, S>, Fault> {
    Machine::<'a, S>::new(alloc, loaded)
}

/// One scan with the first input set, if its time is not before the last.
pub(crate) fn scan<S: Store>(machine: &mut Machine<'_, S>, now: u64) -> Option<Steps> {
    if now < machine.last() || now > 1_099_511_627_775 {
        return None;
    }
    let image = Image {
        inputs: 1,
        status: 0,
        weights: [0, 0, 0],
    };
    Some(machine.scan(now, &image))
}

/// A scan takes 21 instructions of at most 24, and counts one edge.
fn counts_one_edge<S: Store>(machine: &mut Machine<'_, S>) -> bool {
    let steps = scan(machine, 7);
    let outputs: Outputs = machine.outputs();
    let numbers: (u64, u32) = (machine.last(), machine.bound());
    steps == Some(Steps(21)) && outputs.words == [1, 0, 0, 0] && numbers == (7, 24)
}

/// The same over one store.
fn scans<S: Store>(alloc: Global) -> bool {
    match loaded_of(alloc, COUNTING) {
        Ok(loaded) => match machine_over::<S>(alloc, loaded) {
            Ok(mut machine) => counts_one_edge(&mut machine),
            Err(_) => false,
        },
        Err(_) => false,
    }
}

#[test]
fn machines_scan(rt: HostRuntime) {
    assert!(rt; scans::<SlotStore>(rt.alloc()));
    assert!(rt; scans::<NamedStore>(rt.alloc()));
}
