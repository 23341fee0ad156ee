//! The commands over the inputs of a run: its report, and its last scans.
ghost use Rattle.std.specs.Prelude.{◌≤◌};

use crate::instrument::PLATE;
use crate::passes::COUNTING;
use crate::runs::{LOG, SCANS};
use std::alloc::Global;
use wc_controller::{Ending, RefusedRow, RunInputs, last_files, report_files};
use wc_model::{ByteIn, ByteOut, Device};

/// A reader of bytes in memory.
type Bytes = Device<&'static [u8]>;

/// The inputs of a run with a program and no next one.
fn inputs() -> RunInputs<Bytes, Bytes, Bytes, Bytes> {
    RunInputs {
        plate: Device::new(PLATE),
        program: Some(Device::new(COUNTING)),
        next: None,
        log: Device::new(LOG),
    }
}

/// Writes the report of a run.
fn report_of<P: ByteIn, T: ByteIn, N: ByteIn, L: ByteIn, W: ByteOut>(
    alloc: Global,
    inputs: &mut RunInputs<P, T, N, L>,
    writer: &mut W,
) -> Ending {
    report_files(alloc, inputs, writer, &mut RefusedRow::new(alloc))
}

/// Writes the last scans of a run.
fn last_of<P: ByteIn, T: ByteIn, N: ByteIn, L: ByteIn, W: ByteOut>(
    alloc: Global,
    last: u16,
    inputs: &mut RunInputs<P, T, N, L>,
    writer: &mut W,
) -> Ending
    requires few { (1 ≤ last) × (last ≤ 1000) }
{
    last_files(alloc, last, inputs, writer, &mut RefusedRow::new(alloc))
}

/// All scans are written.
fn reports_all(alloc: Global) -> bool {
    let mut writer = Device::new(Vec::new(alloc));
    let ending = report_of(alloc, &mut inputs(), &mut writer);
    ending == Ending::Done && writer.get_ref().as_slice() == SCANS
}

/// The last scan is written alone.
fn reports_the_last(alloc: Global) -> bool {
    let mut writer = Device::new(Vec::new(alloc));
    let ending = last_of(alloc, 1, &mut inputs(), &mut writer);
    ending == Ending::Done && writer.get_ref().as_slice() == b"S 20 21 0000 1 1 0 0\n".as_slice()
}

#[test]
fn a_run_of_files_reports(rt: HostRuntime) {
    assert!(rt; reports_all(rt.alloc()) && reports_the_last(rt.alloc()));
}
