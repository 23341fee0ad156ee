ghost use Rattle.std.specs.Prelude.{◌≡◌, ◌<◌, ◌≤◌, ◌-◌, Some, drop, length, replicate, take};
ghost use Rattle.wc_scale.specs.Calls.{RefusesByte, TakesByte};
ghost use Rattle.wc_scale.specs.LineCalls.{CustomersCallsHaveNoPart, EachCallIsAStep, LegalCallsDecide};

use crate::results::{Answer, CLOSED, DONE, LINE_FAILED};
use crate::scale::Scale;
use std::io;
use wc_model::ByteOut;

/// A buffer for one answer of the line. It takes no memory.
#[derive(Drop)]
pub(crate) struct AnswerBuffer {
    pub(crate) bytes: [u8; 20],
    pub(crate) taken: usize,
    pub(crate) failures: u64,
    ghost whole: { length bytes ≡ 20 },
    ghost within: { taken ≤ 20 },
    ghost zeros: { drop taken bytes ≡ replicate (20 - taken) 0 },
    // A write fails only if the buffer is full.
    ghost full: { 0 < failures → taken ≡ 20 },
}

impl AnswerBuffer {
    /// An empty buffer.
    fn new() -> AnswerBuffer
        ensures empty { result.taken ≡ 0 }
        ensures works { result.failures ≡ 0 }
    {
        AnswerBuffer {
            bytes: [0; 20],
            taken: 0,
            failures: 0,
        }
    }
}

impl ByteOut for AnswerBuffer {
    ghost bytes_taken = { λ buffer. Some (take buffer.taken buffer.bytes) };

    ghost failure_count = { λ buffer. buffer.failures };

    fn write(&mut self, chunk: &[u8]) -> io::Result<usize> {
        let left = self.bytes.len() - self.taken;
        let count = chunk.len().min(left);
        if count == 0 && !chunk.is_empty() {
            self.failures = self.failures.saturating_add(1);
            return Ok(0);
        }
        self.bytes[self.taken..self.taken + count].copy_from_slice(&chunk[..count]);
        self.taken += count;
        Ok(count)
    }

    fn failures(&self) -> u64 {
        self.failures
    }
}

/// No answer, for this reason.
fn no_answer(status: u32) -> Answer
    ensures { result ≡ record { status = status; length = 0; bytes = replicate 20 0 } }
{
    Answer {
        status,
        length: 0,
        bytes: [0; 20],
    }
}

/// The answer that is in the buffer.
fn answer_in(buffer: &AnswerBuffer) -> Answer
    ensures status { result.status ≡ 0 }
    ensures length { result.length ≡ buffer.now.taken }
    ensures bytes { result.bytes ≡ buffer.now.bytes }
{
    let bytes = buffer.bytes;
    Answer {
        status: DONE,
        length: buffer.taken as u32,
        bytes,
    }
}

impl Scale {
    /// Takes a byte on the line, and gives the answer to the request that it completes. It takes no memory.
    pub fn byte(&mut self, byte: u8) -> Answer
        ensures taken { TakesByte self.old self.new byte result }
        ensures refused { RefusesByte self.old self.new result }
    {
        match &mut self.opened {
            Some(opened) => {
                let mut buffer = AnswerBuffer::new();
                match opened.feed(&[byte], &mut buffer) {
                    Ok(()) => answer_in(&buffer),
                    Err(_) => no_answer(LINE_FAILED),
                }
            }
            None => no_answer(CLOSED),
        }
    }
}

/// Each call of a scale that is open, by its clauses, leaves the legal state and answers the bytes that its step does.
pub fn each_call_is_a_step()
    ensures { EachCallIsAStep }
{}

/// The answers to any list of calls are those to the list without loads, changes, inputs and scans, and the legal state after it
/// is that after this list.
pub fn the_customers_calls_have_no_part()
    ensures { CustomersCallsHaveNoPart }
{}

/// Two scales of one plate that are called alike, but for loads, changes, inputs and scans, answer the same bytes.
pub fn legal_calls_decide()
    ensures { LegalCallsDecide }
{}
