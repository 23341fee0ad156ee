ghost use Rattle.std.specs.Prelude.{◌≡◌, ◌<◌, ◌≤◌, length, take, IfOk, IfErr};
ghost use Rattle.std.specs.Io.KnownBytes.{Appends, Keeps};
ghost use Rattle.wc_model.specs.Run.Writing.{HasFailedSince, TakesPrefix};

use crate::byte_out::ByteOut;
use thiserror::Error;

/// The writer failed, or took nothing of what it was given.
#[derive(Clone, Copy, PartialEq, Eq, Debug, Error)]
#[error("write fault")]
pub struct WriteFault;

/// Has the writer take a prefix of a chunk that has bytes, and returns their number.
fn write_some<W: ByteOut>(writer: &mut W, chunk: &[u8]) -> Result<usize, WriteFault>
    requires { 0 < length chunk.now }
    ensures some { IfOk result (λ n. (0 < n) × (n ≤ length chunk.now)) }
    ensures taken { IfOk result
        (λ n. Appends (W.bytes_taken writer.old) (W.bytes_taken writer.new) (take n chunk.now)) }
    ensures steady { IfOk result (λ n. W.failure_count writer.new ≡ W.failure_count writer.old) }
    ensures kept { IfErr result
        (λ e. Keeps (W.bytes_taken writer.old) (W.bytes_taken writer.new)) }
    ensures device { IfErr result
        (λ e. HasFailedSince (W.failure_count writer.old) (W.failure_count writer.new)) }
{
    match writer.write(chunk) {
        Ok(0) | Err(_) => Err(WriteFault),
        Ok(count) => Ok(count),
    }
}

/// Has the writer take all of a text, in as many calls as it needs. `WriteFault` comes if a call failed; the writer has
/// then taken a prefix of the text, not all of it, and is asked no further. It takes no memory.
pub fn write_whole<W: ByteOut>(writer: &mut W, text: &[u8]) -> Result<(), WriteFault>
    ensures whole { IfOk result
        (λ done. Appends (W.bytes_taken writer.old) (W.bytes_taken writer.new) text.now) }
    ensures steady { IfOk result
        (λ done. W.failure_count writer.new ≡ W.failure_count writer.old) }
    ensures prefix { IfErr result
        (λ e. TakesPrefix (W.bytes_taken writer.old) (W.bytes_taken writer.new) text.now) }
    ensures device { IfErr result
        (λ e. HasFailedSince (W.failure_count writer.old) (W.failure_count writer.new)) }
{
    let mut at = 0;
    while at < text.len() {
        let count = write_some(writer, &text[at..])?;
        at += count;
    }
    Ok(())
}
