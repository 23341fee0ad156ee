ghost use Rattle.std.specs.Prelude.{◌≡◌, ◌≤◌, ◌++◌, ◌∷◌, [], decimal, drop, IfOk, IsOkUnless, OnOk};
ghost use Rattle.wc_model.specs.Definitions.{refused_text, AnswerLine, ScanLine, line_text, path_line, unit_line};

use crate::backward;
use crate::numbers::{put_hex, spaced_lines};
use std::alloc::Global;
use wc_model::{Fault, Outputs, Steps, or_memory, put_bytes};

/// Appends the line of a scan to a text: `S`, its moment in milliseconds, its steps, the bits of `%QX0` in four hexadecimal
/// digits, and the words `%QD0` to `%QD3`, with a space between and a line feed at the end. Each value of each type can be
/// written. After `Memory`, its only fault, a prefix of the line may follow the text.
pub fn put_scan_line(
    text: &mut Vec<u8>,
    ms: u64,
    steps: Steps,
    outputs: &Outputs,
) -> Result<(), Fault>
    ensures text { OnOk result
        (text.new.items ≡ text.old.items ++ line_text (ScanLine ms steps.0 outputs.now)) }
    ensures memory { IsOkUnless result Fault.Memory }
{
    let mut buffer = [0; SCAN_CAPACITY];
    let start = scan_backward(ms, steps, outputs, &mut buffer);
    put_bytes(text, &buffer[start..])
}

/// A size that is enough for each line of a scan.
const SCAN_CAPACITY: usize = 144;

/// Writes the line of a scan at the end of its buffer, and returns where it starts.
fn scan_backward(
    ms: u64,
    steps: Steps,
    outputs: &Outputs,
    buffer: &mut [u8; SCAN_CAPACITY],
) -> usize
    ensures within { result ≤ 144 }
    ensures text { drop result buffer.new ≡ line_text (ScanLine ms steps.0 outputs.now) }
{
    let [first, second, third, fourth] = &outputs.words;
    let at = backward::put_byte(b'\n', buffer, SCAN_CAPACITY);
    let at = backward::put_signed(fourth, buffer, at);
    let at = backward::put_signed(third, buffer, at);
    let at = backward::put_signed(second, buffer, at);
    let at = backward::put_signed(first, buffer, at);
    let at = backward::put_word(outputs.bits, buffer, at);
    let at = backward::put_number(u64::from(steps.0), buffer, at);
    let at = backward::put_number(ms, buffer, at);
    backward::put_byte(b'S', buffer, at)
}

/// Appends the line of an answer to a text: `L`, the moment of its row in milliseconds, and its bytes, two hexadecimal
/// digits for each, with a space between and a line feed at the end. An answer of no bytes has no digits. After `Memory`, its
/// only fault, a prefix of the line may follow the text.
pub fn put_answer_line(text: &mut Vec<u8>, ms: u64, bytes: &[u8]) -> Result<(), Fault>
    ensures text { OnOk result
        (text.new.items ≡ text.old.items ++ line_text (AnswerLine ms bytes.now)) }
    ensures memory { IsOkUnless result Fault.Memory }
{
    let mut buffer = [0; HEAD_CAPACITY];
    let start = head_backward(ms, &mut buffer);
    put_bytes(text, &buffer[start..])?;
    put_hex(text, bytes)?;
    match text.push(b'\n') {
        Ok(()) => Ok(()),
        Err(_) => Err(Fault::Memory),
    }
}

/// A size that is enough for the start of each line of an answer: its letter, two spaces and 20 digits.
const HEAD_CAPACITY: usize = 23;

/// Writes the start of the line of an answer, up to its digits, at the end of its buffer, and returns where it starts.
fn head_backward(ms: u64, buffer: &mut [u8; HEAD_CAPACITY]) -> usize
    ensures within { result ≤ 23 }
    ensures text { drop result buffer.new ≡ 76 ∷ 32 ∷ (decimal ms ++ (32 ∷ [])) }
{
    let at = backward::put_byte(b' ', buffer, HEAD_CAPACITY);
    let at = backward::put_number(ms, buffer, at);
    backward::put_byte(b'L', buffer, at)
}

/// The line of a refusal: `refused`, its number and its place, a line or row counted from 1 or 0 for none, with a space
/// between and a line feed at the end. `Memory` is the only fault.
pub fn refused_line(alloc: Global, number: u16, place: u32) -> Result<Vec<u8>, Fault>
    ensures text { IfOk result (λ text. text.items ≡ refused_text number place) }
    ensures memory { IsOkUnless result Fault.Memory }
{
    let text = or_memory(format!(in alloc; "refused {number} {place}\n"))?;
    Ok(text.into_bytes())
}

/// The line of a unit: `unit`, its name as it is spelled, `cost` and its bound in steps, with a space between and a line
/// feed at the end. `Memory` is the only fault.
pub fn unit_line(alloc: Global, name: &[u8], bound: u32) -> Result<Vec<u8>, Fault>
    ensures text { IfOk result (λ text. text.items ≡ unit_line name.now bound) }
    ensures memory { IsOkUnless result Fault.Memory }
{
    let mut text = or_memory(Vec::from_slice(alloc, b"unit "))?;
    or_memory(text.extend_from_slice(name))?;
    let cost = or_memory(format!(in alloc; " cost {bound}\n"))?;
    or_memory(text.extend_from_slice(cost.as_bytes()))?;
    Ok(text)
}

/// The line of a unit's worst path: `path`, and the numbers of its lines in order of execution, each after a space, with a
/// line feed at the end. A path of no lines has no numbers. `Memory` is the only fault.
pub fn path_line(alloc: Global, lines: &[u32]) -> Result<Vec<u8>, Fault>
    ensures text { IfOk result (λ text. text.items ≡ path_line lines.now) }
    ensures memory { IsOkUnless result Fault.Memory }
{
    let numbers = spaced_lines(alloc, lines)?;
    let text = or_memory(format!(in alloc; "path{numbers}\n"))?;
    Ok(text.into_bytes())
}
