//! One log over two stores.
ghost use Rattle.std.specs.Prelude.{◌≡◌, IfOk};

use std::alloc::Global;
use wc_controller::{RunFault, load, run};
use wc_cost::Loaded;
use wc_job::Sections;
use wc_machine::Machine;
use wc_model::{Device, Fault};
use wc_plate::{Plate, plate};
use wc_store::{NamedStore, SlotStore, Store};

/// The next program of a job, if it has one.
fn load_next<'a>(alloc: Global, next: Option<&'a [u8]>) -> Result<Option<Loaded<'a>>, Fault> {
    match next {
        Some(text) => match load(alloc, text) {
            Ok(loaded) => Ok(Some(loaded)),
            Err(fault) => Err(fault),
        },
        None => Ok(None),
    }
}

/// A machine over a text that has made no scan.
fn machine_of<'a, S: Store>(alloc: Global, text: &'a [u8]) -> Result<Machine<'a, S>, Fault>
    ensures { IfOk result (λ machine. machine.last ≡ 0) }
{
    match load(alloc, text) {
        Ok(loaded) => Machine::new(alloc, loaded),
        Err(fault) => Err(fault),
    }
}

/// Runs a job's log over one store.
fn run_over<'a, S: Store>(
    alloc: Global,
    plate: &Plate,
    job: &Sections<'a>,
    writer: &mut Device<Vec<u8>>,
) -> Result<u32, RunFault> {
    let machine = machine_of::<S>(alloc, job.program)?;
    let next = load_next(alloc, job.next)?;
    run(
        alloc,
        plate,
        Some(machine),
        next,
        &mut Device::new(job.log),
        writer,
    )
}

/// Whether a run ended by a fault that is not a refusal. Its reader and writer are in memory, so memory is the cause.
fn is_cut_short(answer: Result<u32, RunFault>) -> bool {
    match answer {
        Ok(_) => false,
        Err(RunFault::Refused { .. }) => false,
        Err(_) => true,
    }
}

/// Runs a job's log over both stores: what the first wrote is in the writer, and the answer is that of both. It is
/// `None` if they differ.
pub(crate) fn report_of_both(
    alloc: Global,
    job: &Sections<'_>,
    report: &mut Device<Vec<u8>>,
) -> Option<Result<u32, RunFault>> {
    let plate = match plate(alloc, job.plate) {
        Ok(plate) => plate,
        Err(fault) => return Some(Err(RunFault::from(fault))),
    };
    let mut other = Device::new(Vec::new(alloc));
    let answer = run_over::<SlotStore>(alloc, &plate, job, report);
    let named = run_over::<NamedStore>(alloc, &plate, job, &mut other);
    // A run that is out of memory, for itself or for what it writes, has nothing to be compared with.
    if is_cut_short(answer) || is_cut_short(named) {
        return Some(Err(RunFault::Memory));
    }
    if answer == named && report.get_ref().as_slice() == other.get_ref().as_slice() {
        Some(answer)
    } else {
        None
    }
}
