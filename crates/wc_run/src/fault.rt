ghost use Rattle.std.specs.Prelude.{◌≡◌};
ghost use Rattle.wc_run.specs.Doing.{from_fault, from_log_fault};
ghost use Rattle.wc_run.specs.declared.fault.RunFault.TheVariants.{Memory, Write};

use std::alloc::AllocError;
use thiserror::Error;
use wc_model::{Fault, WriteFault};
use wc_record::LogFault;

/// Why a run or a check did not end well.
#[derive(Clone, Copy, PartialEq, Eq, Debug, Error)]
pub enum RunFault {
    /// The input breaks a rule.
    #[error("refused {number} {place}")]
    Refused {
        /// The rule's number, by the list of refusals.
        number: u16,
        /// The line or row that breaks it, counted from 1; 0 if no line does.
        place: u32,
    },
    /// The reader failed, or as much was read as may be.
    #[error("read fault")]
    Read,
    /// The writer failed, or took nothing.
    #[error("write fault")]
    Write,
    /// Memory was refused.
    #[error("out of memory")]
    Memory,
}

impl From<Fault> for RunFault {
    ghost from_gives = { λ fault given. given ≡ from_fault fault };

    fn from(fault: Fault) -> RunFault {
        match fault {
            Fault::Refused { number, place } => RunFault::Refused { number, place },
            Fault::Memory => RunFault::Memory,
        }
    }
}

impl From<LogFault> for RunFault {
    ghost from_gives = { λ fault given. given ≡ from_log_fault fault };

    fn from(fault: LogFault) -> RunFault {
        match fault {
            LogFault::Refused { number, place } => RunFault::Refused { number, place },
            LogFault::Read => RunFault::Read,
            LogFault::Memory => RunFault::Memory,
        }
    }
}

impl From<WriteFault> for RunFault {
    ghost from_gives = { λ fault given. given ≡ Write };

    fn from(_fault: WriteFault) -> RunFault {
        RunFault::Write
    }
}

impl From<AllocError> for RunFault {
    ghost from_gives = { λ error given. given ≡ Memory };

    fn from(_error: AllocError) -> RunFault {
        RunFault::Memory
    }
}
