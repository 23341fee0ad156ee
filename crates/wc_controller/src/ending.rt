ghost use Rattle.std.specs.Prelude.{◌≡◌, ℕ};
ghost use Rattle.wc_controller.specs.Endings.{EndsAfter, EndsRefused, ReportsFailures, ReportsWriteFaults, ending_of, raised, status_of};

use std::alloc::Global;
use wc_job::Input;
use wc_model::{ByteOut, write_whole};
use wc_report::refused_line;
use wc_run::RunFault;

/// Why a command stopped, and the input that was being read or answered then.
#[derive(Clone, Copy, PartialEq, Eq)]
pub struct InputFault {
    pub input: Input,
    pub fault: RunFault,
}

/// How a command ended.
#[derive(Clone, Copy, PartialEq, Eq)]
pub enum Ending {
    /// All was read, done and written.
    Done,
    /// An input breaks a rule: the line of the refusal was written last.
    Refused {
        input: Input,
        /// The rule's number, by the list of refusals.
        number: u16,
        /// The line or row that breaks it, counted from 1; 0 if no line does.
        place: u32,
    },
    /// An input's reader failed, or as much of the log was read as may be.
    ReadFault {
        input: Input,
    },
    /// The writer failed, or took nothing.
    WriteFault,
    NoMemory,
}

impl Ending {
    /// The ending of what was done, or of what stopped it, if no line of a refusal is to be written.
    pub fn of(answer: Result<(), InputFault>) -> Ending
        ensures { result ≡ ending_of answer }
    {
        let InputFault { input, fault } = match answer {
            Ok(()) => return Ending::Done,
            Err(stopped) => stopped,
        };
        match fault {
            RunFault::Refused { number, place } => Ending::Refused {
                input,
                number,
                place,
            },
            RunFault::Read => Ending::ReadFault { input },
            RunFault::Write => Ending::WriteFault,
            RunFault::Memory => Ending::NoMemory,
        }
    }

    /// The exit status: 0 if all was done, 1 if something was refused, 3 if a device
    /// failed, 4 when out of memory.
    pub fn status(&self) -> u8
        ensures { result ≡ status_of self.now }
    {
        match self {
            Ending::Done => 0,
            Ending::Refused { .. } => 1,
            Ending::ReadFault { .. } | Ending::WriteFault => 3,
            Ending::NoMemory => 4,
        }
    }
}

/// The ending of a refusal, whose line is written after what is there.
fn end_refused<W: ByteOut>(
    alloc: Global,
    input: Input,
    number: u16,
    place: u32,
    writer: &mut W,
) -> Ending
    ensures ends { EndsRefused input number place result (W.bytes_taken writer.old)
        (W.bytes_taken writer.new) }
    ensures failures { ReportsFailures result (W.failure_count writer.old)
        (W.failure_count writer.new) }
{
    let line = match refused_line(alloc, number, place) {
        Ok(line) => line,
        Err(_) => return Ending::NoMemory,
    };
    match write_whole(writer, &line) {
        Ok(()) => Ending::Refused {
            input,
            number,
            place,
        },
        Err(_) => Ending::WriteFault,
    }
}

/// The ending of what was done, or of what stopped it: a refusal's line is written after what
/// is there.
pub fn end<W: ByteOut>(alloc: Global, answer: Result<(), InputFault>, writer: &mut W) -> Ending
    ensures ends { EndsAfter answer result (W.bytes_taken writer.old)
        (W.bytes_taken writer.new) }
    ensures failures { (before : ℕ)
        → ReportsWriteFaults (raised answer) before (W.failure_count writer.old)
        → ReportsFailures result before (W.failure_count writer.new) }
{
    let InputFault { input, fault } = match answer {
        Ok(()) => return Ending::Done,
        Err(stopped) => stopped,
    };
    match fault {
        RunFault::Refused { number, place } => end_refused(alloc, input, number, place, writer),
        RunFault::Read => Ending::ReadFault { input },
        RunFault::Write => Ending::WriteFault,
        RunFault::Memory => Ending::NoMemory,
    }
}
