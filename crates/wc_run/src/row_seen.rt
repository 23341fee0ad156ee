use std::alloc::Global;
use std::io;
use wc_machine::SeenLine;
use wc_model::ByteOut;
use wc_record::{Record, RowHead};

/// A scan that was done.
#[derive(Drop)]
pub struct ScanSeen {
    /// Its moment, its steps and its outputs.
    pub record: Record,
    /// The items that it executed, in order, if the observer looks at them.
    pub lines: Option<Vec<SeenLine>>,
}

/// A row that was done, and what it brought.
#[derive(Drop)]
pub struct RowSeen<'a> {
    /// The row's number, moment and kind.
    pub row: RowHead,
    /// Its line bytes; of a row of another kind they say nothing.
    pub bytes: &'a [u8],
    /// What the line answered; empty if it answered nothing.
    pub answer: &'a [u8],
    /// The scan of a scan row, if there is a program.
    pub scan: Option<ScanSeen>,
}

/// What the line answers to a row. The buffer is kept from row to row, so that a row takes no
/// memory if it is large enough.
#[derive(Drop)]
pub(crate) struct Answers {
    pub(crate) bytes: Vec<u8>,
    pub(crate) failures: u64,
}

impl Answers {
    /// No answers, and no buffer. It takes no memory.
    pub(crate) fn new(alloc: Global) -> Answers {
        Answers {
            bytes: Vec::new(alloc),
            failures: 0,
        }
    }
}

impl ByteOut for Answers {
    ghost use Rattle.std.specs.Prelude.{Some};

    ghost bytes_taken = { λ answers. Some answers.bytes.items };

    ghost failure_count = { λ answers. answers.failures };

    fn write(&mut self, chunk: &[u8]) -> io::Result<usize> {
        match self.bytes.extend_from_slice(chunk) {
            Ok(()) => Ok(chunk.len()),
            Err(_) => {
                self.failures = self.failures.saturating_add(1);
                Err(io::Error::from(io::ErrorKind::OutOfMemory))
            }
        }
    }

    fn failures(&self) -> u64 {
        self.failures
    }
}
