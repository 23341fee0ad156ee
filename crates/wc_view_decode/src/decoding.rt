ghost use Rattle.std.specs.Prelude.{◌≡◌, ◌<◌, ◌^◌, IfErr, IfOk, IsErrOf, length};
ghost use Rattle.wc_view_decode.specs.Decoding.{DecodesAll, HasReadCause, is_exhausted};
ghost use Rattle.wc_view_decode.specs.Formats.{heading};
ghost use Rattle.wc_view_decode.specs.Running.{DecodesChunk, DecodesRest, Ends, ReadsChunk, ReadsOr, WritesOnly, WritesOr, WritesText};
ghost use Rattle.wc_model.specs.Run.Writing.{HasFailedSince};

use crate::decoder::{Decoder, finish, take_bytes};
use crate::format::{DecodeFault, DecodeFormat};
use std::alloc::Global;
use wc_model::{ByteIn, ByteOut, write_whole};

/// The number of bytes read at once.
const CHUNK: usize = 4096;

/// The most bytes and calls that are spent on a report.
const MOST_SPENT: u64 = 2147483648;

/// Whether as much was read as may be.
fn is_exhausted(start: u64, spent: u64) -> bool
    ensures { result ≡ is_exhausted start spent }
{
    spent == u64::MAX || spent.saturating_sub(start) >= MOST_SPENT
}

/// Reads once into a buffer, up to the limit: the number of bytes, 0 at the end.
fn read_chunk<R: ByteIn>(input: &mut R, start: u64, buffer: &mut [u8]) -> Result<usize, DecodeFault>
    requires { 0 < length buffer.old }
    ensures chunk { ReadsChunk (R.bytes_left input.old) (R.bytes_left input.new) result buffer.new }
    ensures steady { IfOk result (λ n. R.failure_count input.new ≡ R.failure_count input.old) }
    ensures spends { IfOk result (λ n. (R.spent_count input.old < R.spent_count input.new)
        × (R.spent_count input.old < 2 ^ 64)) }
    ensures fault { IfErr result (λ fault. fault ≡ DecodeFault.Read) }
    ensures cause { IfErr result (λ fault. HasReadCause (R.failure_count input.old)
        (R.failure_count input.new) start (R.spent_count input.new)) }
{
    if is_exhausted(start, input.spent()) {
        return Err(DecodeFault::Read);
    }
    input.read(buffer).map_err(|_| DecodeFault::Read)
}

/// Writes a text.
fn write_text<W: ByteOut>(output: &mut W, text: &[u8]) -> Result<(), DecodeFault>
    ensures text { WritesText (W.bytes_taken output.old) (W.bytes_taken output.new) result
        text.now }
    ensures faults { WritesOnly result (W.failure_count output.old) (W.failure_count output.new) }
{
    write_whole(output, text).map_err(|_| DecodeFault::Write)
}

/// Decodes a chunk of a report, and writes what is said of it.
fn decode_chunk<W: ByteOut>(
    alloc: Global,
    decoder: &mut Decoder,
    chunk: &[u8],
    output: &mut W,
) -> Result<(), DecodeFault>
    ensures format { decoder.new.format ≡ decoder.old.format }
    ensures chunk { DecodesChunk decoder.old decoder.new chunk.now result
        (W.bytes_taken output.old) (W.bytes_taken output.new) }
    ensures faults { WritesOnly result (W.failure_count output.old) (W.failure_count output.new) }
{
    let mut text = Vec::new(alloc);
    match take_bytes(alloc, decoder, chunk, &mut text) {
        Ok(()) => write_text(output, &text),
        Err(_) => Err(DecodeFault::Memory),
    }
}

/// Writes what is missing at a report's end.
fn finish_report<W: ByteOut>(
    alloc: Global,
    decoder: &Decoder,
    output: &mut W,
) -> Result<(), DecodeFault>
    ensures ends { Ends decoder.now result (W.bytes_taken output.old) (W.bytes_taken output.new) }
    ensures faults { WritesOnly result (W.failure_count output.old) (W.failure_count output.new) }
{
    let mut text = Vec::new(alloc);
    match finish(decoder, &mut text) {
        Ok(()) => write_text(output, &text),
        Err(_) => Err(DecodeFault::Memory),
    }
}

/// Decodes a report with the decoder in its initial state.
fn decode_rest<R: ByteIn, W: ByteOut>(
    alloc: Global,
    decoder: &mut Decoder,
    input: &mut R,
    output: &mut W,
) -> Result<(), DecodeFault>
    ensures rest { DecodesRest decoder.old result (R.bytes_left input.old) (R.bytes_left input.new)
        (W.bytes_taken output.old) (W.bytes_taken output.new) }
    ensures read { ReadsOr result (R.failure_count input.old) (R.failure_count input.new)
        (R.spent_count input.old) (R.spent_count input.new) }
    ensures write { WritesOr result (W.failure_count output.old) (W.failure_count output.new) }
{
    let start = input.spent();
    let mut buffer = [0; CHUNK];
    'chunks: loop {
        let count = read_chunk(input, start, &mut buffer)?;
        if count == 0 {
            return finish_report(alloc, decoder, output);
        }
        decode_chunk(alloc, decoder, &buffer[..count], output)?;
    }
}

/// The line before all others.
fn heading(format: DecodeFormat) -> &'static [u8]
    ensures { result.now ≡ heading format }
{
    match format {
        DecodeFormat::Text => b"",
        DecodeFormat::Table => {
            b"ms,kind,steps,q0,q1,q2,q3,q4,q5,q6,q7,q8,q9,q10,q11,q12,q13,q14,q15,d0,d1,d2,d3,answer\n"
        }
    }
}

/// Decodes a report line by line: for each scan, answer and refusal what it says, for people or as a row of a table after a
/// heading; a line that is not of a report is passed on after a mark. A chunk of at most 4096 bytes is read, decoded and
/// written before more is read, so no more is kept than a line of 65536 bytes; one that is longer is passed on as it comes.
/// `Read` comes only if a read failed or as much was read as may be (2147483648 bytes and calls), `Write` only if a
/// write failed; at a fault a prefix of what is said of the lines that were read is written.
pub fn decode<R: ByteIn, W: ByteOut>(
    alloc: Global,
    input: &mut R,
    output: &mut W,
    format: DecodeFormat,
) -> Result<(), DecodeFault>
    // Each line of the report is written as what it says.
    ensures decoded { DecodesAll format result (R.bytes_left input.old) (R.bytes_left input.new)
        (W.bytes_taken output.old) (W.bytes_taken output.new) }
    ensures read { IsErrOf result DecodeFault.Read
        → HasReadCause (R.failure_count input.old) (R.failure_count input.new)
        (R.spent_count input.old) (R.spent_count input.new) }
    ensures reader { ¬ IsErrOf result DecodeFault.Read
        → R.failure_count input.new ≡ R.failure_count input.old }
    ensures write { IsErrOf result DecodeFault.Write
        → HasFailedSince (W.failure_count output.old) (W.failure_count output.new) }
    ensures steady { ¬ IsErrOf result DecodeFault.Write
        → W.failure_count output.new ≡ W.failure_count output.old }
{
    let mut decoder = Decoder {
        format,
        line: Vec::new(alloc),
        is_long: false,
    };
    write_text(output, heading(format))?;
    decode_rest(alloc, &mut decoder, input, output)
}
