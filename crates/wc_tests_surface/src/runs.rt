//! The calls of the front end: a check, a run, the last scans, a job.
ghost use Rattle.std.specs.Prelude.{◌≡◌, ◌≤◌, IfOk, IfSome};

use crate::instrument::{PLATE, plate_of};
use crate::passes::{COUNTING, loaded_of};
use std::alloc::Global;
use wc_controller::{RunFault, check, job, run, run_last};
use wc_cost::Loaded;
use wc_machine::Machine;
use wc_model::{ByteIn, ByteOut, Device, Fault, FuseIn};
use wc_plate::Plate;
use wc_store::{NamedStore, SlotStore, Store};

/// A program that copies an input, as a job with one scan.
const JOB: &[u8] =
    b"@plate\nunit = \"kg\"\ndecimals = 3\nmax = 15000\ne = 5\nzero_counts = 10000\nspan_counts = 600000\nwindow = 4\n\
    @program\nPROGRAM P\nLD %IX0.0\nST %QX0.0\nEND_PROGRAM\n@log\nms,kind,data\n0,I,0001\n0,S,\n";

/// Answers a job.
fn job_of<R: ByteIn, W: ByteOut>(alloc: Global, reader: &mut R, writer: &mut W) -> u8 {
    job(alloc, reader, writer)
}

/// Checks a text.
fn check_of<W: ByteOut>(
    alloc: Global,
    text: &[u8],
    paths: bool,
    writer: &mut W,
) -> Result<(), RunFault> {
    check(alloc, text, paths, writer)
}

/// A machine that has made no scan.
fn machine_of<'a, S: Store>(alloc: Global, text: &'a [u8]) -> Result<Machine<'a, S>, Fault>
    ensures { IfOk result (λ machine. machine.last ≡ 0) }
{
    match loaded_of(alloc, text) {
        Ok(loaded) => Machine::new(alloc, loaded),
        Err(fault) => Err(fault),
    }
}

/// Runs a log.
fn run_of<'a, S: Store, R: ByteIn, W: ByteOut>(
    alloc: Global,
    plate: &Plate,
    machine: Option<Machine<'a, S>>,
    next: Option<Loaded<'a>>,
    reader: &mut R,
    writer: &mut W,
) -> Result<u32, RunFault>
    requires { IfSome machine (λ m. m.last ≡ 0) }
{
    run(alloc, plate, machine, next, reader, writer)
}

/// Runs a log and prints the last scans.
fn run_last_of<'a, S: Store, R: ByteIn, W: ByteOut>(
    alloc: Global,
    last: u16,
    plate: &Plate,
    machine: Option<Machine<'a, S>>,
    next: Option<Loaded<'a>>,
    reader: &mut R,
    writer: &mut W,
) -> Result<u32, RunFault>
    requires few { (1 ≤ last) × (last ≤ 1000) }
    requires first { IfSome machine (λ m. m.last ≡ 0) }
{
    run_last(alloc, last, plate, machine, next, reader, writer)
}

/// The first job prints its scan.
fn prints_its_scan(alloc: Global) -> bool {
    let mut reader = Device::new(JOB);
    let mut writer = Device::new(Vec::new(alloc));
    let status = job_of(alloc, &mut reader, &mut writer);
    status == 0 && writer.get_ref().as_slice() == b"S 0 2 0001 0 0 0 0\n".as_slice()
}

/// The units' bounds are printed.
fn prints_bounds(alloc: Global) -> bool {
    let mut writer = Device::new(Vec::new(alloc));
    let answer = check_of(alloc, COUNTING, false, &mut writer);
    answer == Ok(())
        && writer.get_ref().as_slice() == b"unit Cnt cost 8\nunit P cost 24\n".as_slice()
}

/// A log of three scans, of which the first and the last come after an edge.
pub(crate) const LOG: &[u8] = b"ms,kind,data\n0,I,0001\n0,S,\n10,S,\n20,I,0002\n20,S,\n";

/// What is printed of its scans.
pub(crate) const SCANS: &[u8] =
    b"S 0 21 0000 1 0 0 0\nS 10 18 0000 1 0 0 0\nS 20 21 0000 1 1 0 0\n";

/// A run of five rows was answered, and wrote these bytes.
fn has_written(answer: Result<u32, RunFault>, writer: &Device<Vec<u8>>, bytes: &[u8]) -> bool {
    answer == Ok(5) && writer.get_ref().as_slice() == bytes
}

/// Runs the log over a store.
fn run_counting<S: Store>(
    alloc: Global,
    plate: &Plate,
    writer: &mut Device<Vec<u8>>,
) -> Result<u32, RunFault> {
    match machine_of::<S>(alloc, COUNTING) {
        Ok(machine) => {
            run_of(
                alloc,
                plate,
                Some(machine),
                None,
                &mut Device::new(LOG),
                writer,
            )
        }
        Err(fault) => Err(RunFault::from(fault)),
    }
}

/// Over a store all scans are printed.
fn prints_all<S: Store>(alloc: Global, plate: &Plate) -> bool {
    let mut writer = Device::new(Vec::new(alloc));
    let answer = run_counting::<S>(alloc, plate, &mut writer);
    has_written(answer, &writer, SCANS)
}

/// Runs the log over a store and prints the last scan.
fn run_last_counting<S: Store>(
    alloc: Global,
    plate: &Plate,
    writer: &mut Device<Vec<u8>>,
) -> Result<u32, RunFault> {
    match machine_of::<S>(alloc, COUNTING) {
        Ok(machine) => run_last_of(
            alloc,
            1,
            plate,
            Some(machine),
            None,
            &mut Device::new(LOG),
            writer,
        ),
        Err(fault) => Err(RunFault::from(fault)),
    }
}

/// Over a store the last scan is printed.
fn prints_the_last<S: Store>(alloc: Global, plate: &Plate) -> bool {
    let mut writer = Device::new(Vec::new(alloc));
    let answer = run_last_counting::<S>(alloc, plate, &mut writer);
    has_written(answer, &writer, b"S 20 21 0000 1 1 0 0\n")
}

/// Over both stores.
fn prints_over_both(alloc: Global) -> bool {
    let Ok(plate) = plate_of(alloc, PLATE) else {
        return false;
    };
    let slots = prints_all::<SlotStore>(alloc, &plate)
        && prints_the_last::<SlotStore>(alloc, &plate);
    slots && prints_all::<NamedStore>(alloc, &plate) && prints_the_last::<NamedStore>(alloc, &plate)
}

/// A log of a hundred thousand scans whose reader then fails: the run ends in a read fault, after it has printed scans.
fn prints_before_it_fails(alloc: Global) -> bool {
    let Ok(plate) = plate_of(alloc, PLATE) else {
        return false;
    };
    let Ok(machine) = machine_of::<SlotStore>(alloc, COUNTING) else {
        return false;
    };
    let mut reader = FuseIn::new(b"ms,kind,data\n", b"0,S,\n", 100000, true);
    let mut writer = Device::new(Vec::new(alloc));
    let answer = run_of(alloc, &plate, Some(machine), None, &mut reader, &mut writer);
    answer == Err(RunFault::Read)
        && writer
            .get_ref()
            .as_slice()
            .starts_with(b"S 0 18 0000 0 0 0 0\n")
}

#[test]
fn first_job_succeeds(rt: HostRuntime) {
    assert!(rt; prints_its_scan(rt.alloc()));
}

#[test]
fn a_check_prints_bounds(rt: HostRuntime) {
    assert!(rt; prints_bounds(rt.alloc()));
}

#[test]
fn a_run_prints_over_both_stores(rt: HostRuntime) {
    assert!(rt; prints_over_both(rt.alloc()));
}

#[test]
fn rows_before_a_failed_read_are_printed(rt: HostRuntime) {
    assert!(rt; prints_before_it_fails(rt.alloc()));
}
