ghost use Rattle.std.specs.Prelude.{◌≡◌, ◌⊎◌, ℕ, List, [], ◌∷◌, false, Option, option_map, IfOk, IfErr, IsErr, OnErr, OnOk};
ghost use Rattle.wc_laws_instrument.specs.Preludes.{text_kept};
ghost use Rattle.wc_model.specs.Definitions.{PlateData, History, open_request, HasFailedSince, TakesPrefix};
ghost use Rattle.wc_model.specs.Instrument.Answers as answers;
ghost use Rattle.std.specs.Io.KnownBytes.{Appends};
ghost use Rattle.wc_indicator.specs.Kept.{RepresentsHistory};
ghost use Rattle.wc_sma.specs.Seen.{seen_in, command_view, completes};
ghost use Rattle.wc_sma.specs.Feeding.{RepresentsBytes, HasFailed, Adds, Feeds, Fails};

use crate::acting::{Reply, act};
use crate::answers::answer;
use crate::command::{Command, RequestStart, after_byte, command_of};
use arrayvec::ArrayVec;
use wc_indicator::Indicator;
use wc_model::{ByteOut, WriteFault, write_whole};

/// The line: what it knows of the request that is open, and whether it has failed.
#[derive(Drop)]
pub struct Line {
    pub(crate) started: Option<RequestStart>,
    failed: bool,
}

/// The request that a byte completes.
pub(crate) fn completed_request(started: Option<RequestStart>, byte: u8) -> Option<RequestStart>
    ensures { (text : Option (List ℕ)) → started ≡ option_map seen_in text
        → result ≡ option_map seen_in (completes byte text) }
{
    if byte == b'\r' { started } else { None }
}

/// Acts on a request and writes its answer.
fn serve<W: ByteOut>(
    command: Command,
    indicator: &mut Indicator,
    writer: &mut W,
) -> Result<(), WriteFault>
    ensures adds { Adds (answers.after_command (command_view command)) indicator.old
        indicator.new }
    ensures whole { IfOk result
        (λ done. (p : PlateData) (history : History) → RepresentsHistory indicator.old p history
        → Appends (W.bytes_taken writer.old) (W.bytes_taken writer.new)
        (answers.answer_to p (command_view command) history)) }
    ensures steady { IfOk result (λ done. W.failure_count writer.new ≡ W.failure_count writer.old) }
    ensures prefix { IfErr result
        (λ e. (p : PlateData) (history : History) → RepresentsHistory indicator.old p history
        → TakesPrefix (W.bytes_taken writer.old) (W.bytes_taken writer.new)
        (answers.answer_to p (command_view command) history)) }
    ensures device { IfErr result
        (λ e. HasFailedSince (W.failure_count writer.old) (W.failure_count writer.new)) }
{
    match act(command, indicator) {
        Reply::Weight(mode, asked) => write_whole(writer, &answer(indicator, mode, asked)),
        Reply::Unknown => write_whole(writer, b"\n?\r"),
    }
}

/// The text of which this is known, as far as it matters: two question marks represent any of two
/// bytes or more.
fn kept_text(seen: RequestStart) -> ArrayVec<u8, 2>
    ensures { (text : List ℕ) → seen ≡ seen_in text → result.items ≡ text_kept text }
{
    let mut text = ArrayVec::new();
    match seen {
        RequestStart::Nothing => {}
        RequestStart::One(byte) => text.push(byte),
        RequestStart::More => {
            text.push(b'?');
            text.push(b'?');
        }
    }
    text
}

impl Line {
    /// A line on which nothing has come.
    pub fn new() -> Line
        ensures { RepresentsBytes result [] }
    {
        Line {
            started: None,
            failed: false,
        }
    }

    /// Takes one byte.
    fn take_byte<W: ByteOut>(
        &mut self,
        byte: u8,
        indicator: &mut Indicator,
        writer: &mut W,
    ) -> Result<(), WriteFault>
        requires { self.old.failed ≡ false }
        ensures feeds { OnOk result
            (Feeds self.old indicator.old (W.bytes_taken writer.old) self.new indicator.new
            (W.bytes_taken writer.new) (byte ∷ [])) }
        ensures works { IfOk result (λ done. self.new.failed ≡ false) }
        ensures steady { IfOk result
            (λ done. W.failure_count writer.new ≡ W.failure_count writer.old) }
        ensures fails { OnErr result
            (Fails self.old indicator.old (W.bytes_taken writer.old) self.new indicator.new
            (W.bytes_taken writer.new) (byte ∷ [])) }
        ensures device { IfErr result
            (λ e. HasFailedSince (W.failure_count writer.old) (W.failure_count writer.new)) }
    {
        let request = completed_request(self.started, byte);
        self.started = after_byte(self.started, byte);
        match request {
            Some(seen) => match serve(command_of(seen), indicator, writer) {
                Ok(()) => Ok(()),
                Err(fault) => {
                    self.failed = true;
                    Err(fault)
                }
            },
            None => Ok(()),
        }
    }

    /// Takes a chunk of the stream, acts on the requests that it completes and writes their answers, in order. If an
    /// answer could not be written in full, the line has failed: its request was acted on, those after it are not, and
    /// each later call answers `WriteFault` and does nothing.
    pub fn feed<W: ByteOut>(
        &mut self,
        chunk: &[u8],
        indicator: &mut Indicator,
        writer: &mut W,
    ) -> Result<(), WriteFault>
        ensures feeds { IfOk result
            (λ done.
            Feeds self.old indicator.old (W.bytes_taken writer.old) self.new indicator.new
            (W.bytes_taken writer.new) chunk.now) }
        ensures fails { IfErr result
            (λ e.
            Fails self.old indicator.old (W.bytes_taken writer.old) self.new indicator.new
            (W.bytes_taken writer.new) chunk.now) }
        ensures steady { IfOk result
            (λ done. W.failure_count writer.new ≡ W.failure_count writer.old) }
        // A line that has failed changes nothing.
        ensures failed { HasFailed self.old
            → IsErr result × (self.new ≡ self.old) × (indicator.new ≡ indicator.old)
            × (writer.new ≡ writer.old) }
        ensures device { IfErr result
            (λ e. HasFailed self.old
            ⊎ HasFailedSince (W.failure_count writer.old) (W.failure_count writer.new)) }
    {
        if self.failed {
            return Err(WriteFault);
        }
        for byte in chunk {
            self.take_byte(*byte, indicator, writer)?;
        }
        Ok(())
    }

    /// The text so far of the request that is open, if one is, as far as it matters. A text of two
    /// bytes or more is not a command, whatever it goes on with: two question marks represent it.
    pub fn open_request(&self) -> Option<ArrayVec<u8, 2>>
        ensures { (before : List ℕ) → RepresentsBytes self.now before
            → option_map (λ text. text.items) result ≡ option_map text_kept (open_request before) }
    {
        Some(kept_text(self.started?))
    }
}
