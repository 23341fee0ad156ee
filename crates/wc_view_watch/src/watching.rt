ghost use Rattle.std.specs.Prelude.{◌≡◌, ◌≤◌, ◌+◌, true, false, length, IfErr, IfOk, IfSome};
ghost use Rattle.wc_controller.specs.{IsAt, RunsAs, TakesInputs, writer_of, OfPrograms};
ghost use Rattle.wc_record.specs.Reported.{fields_reported};
ghost use Rattle.wc_view_watch.specs.Plans.{watch_observed, IsFirstUnknown};

use crate::names::{UnknownName, within};
use crate::watcher::Watcher;
use std::alloc::Global;
use wc_controller::{Ending, Input, RefusedRow, RunInputs, run_files};
use wc_model::{ByteIn, ByteOut};

/// What is watched of a run, and which of its scans are written.
#[derive(Clone, Copy)]
pub struct WatchChoice<'n> {
    /// The names of variables, between commas.
    pub names: &'n [u8],
    /// The number of last scans that are written alone, 1 to 1000; every scan, if there is none.
    pub last: Option<u16>,
    /// Only those scans are written that leave other values than the scan before.
    pub changes: bool,
}

/// Whether a run did not begin for a name that was to be watched.
pub fn is_at_names(ending: &Ending) -> bool
    ensures names { result ≡ true → IsAt Input.Names ending.now }
    ensures others { result ≡ false → ¬ (IsAt Input.Names ending.now) }
{
    match ending {
        Ending::Refused { input, .. } | Ending::ReadFault { input } => *input == Input::Names,
        Ending::Done | Ending::WriteFault | Ending::NoMemory => false,
    }
}

/// Runs a log with a program as `run_files` does, and watches variables: it writes the report, with the scans that are chosen,
/// and after the line of each scan one with the values of the variables. The first scan is one at which they change. That line
/// begins with `V` and the milliseconds, and has each name with `=` and the value in the store that the scan left, as the
/// language writes it; the names are as they are spelled in the list, which has commas between them. A name is an address, or leads from the program
/// through instances to a variable or to an input or output of a standard block, with a dot after each instance. If the
/// program may change, a name may be that of a variable of the first or of the next program; a line has the names of the
/// program that runs.
///
/// The first name of the list that no program has is refused before the first row, and the line of the refusal is written. A
/// write fault and out of memory end the run, as they end that of a report.
pub fn watch_files<P: ByteIn, T: ByteIn, N: ByteIn, L: ByteIn, W: ByteOut>(
    alloc: Global,
    choice: WatchChoice<'_>,
    inputs: &mut RunInputs<P, T, N, L>,
    writer: &mut W,
    reported: &mut RefusedRow,
) -> Result<Ending, UnknownName>
    requires few { IfSome choice.last (λ n. (1 ≤ n) × (n ≤ 1000)) }
    // The name is the first one of the list that no program has.
    ensures unknown { IfErr result (λ name. OfPrograms inputs.old.program inputs.old.next
        (λ logic. IsFirstUnknown choice.entry.names.now logic name)) }
    ensures inside { IfErr result
        (λ name. name.start + name.length ≤ length choice.entry.names.now) }
    // It is refused before the log is read.
    ensures unread { IfErr result (λ name. inputs.new.log ≡ inputs.old.log) }
    // If a name is unknown, no run begins: `RunsAs` allows then the line of that refusal alone.
    ensures runs { IfOk result (λ ending. RunsAs
        (watch_observed choice.entry.names.now choice.entry.changes choice.entry.last)
        inputs.old inputs.new (fields_reported reported.new) ending
        (writer_of W.bytes_taken W.failure_count writer.old)
        (writer_of W.bytes_taken W.failure_count writer.new)) }
    // So no ending names them.
    ensures named { IfOk result (λ ending. ¬ (IsAt Input.Names ending)) }
    ensures taken { TakesInputs inputs.old inputs.new }
{
    let Ok(mut watcher) = Watcher::new(alloc, choice) else {
        return Ok(Ending::NoMemory);
    };
    let ending = run_files(alloc, &mut watcher, inputs, writer, reported);
    if is_at_names(&ending) {
        return Err(within(watcher.names.unknown(), choice.names));
    }
    Ok(ending)
}
