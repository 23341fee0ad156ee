ghost use Rattle.std.specs.Prelude.{◌≡◌, ◌<◌, ◌∷◌, [], false, length, IsOkUnless};
ghost use Rattle.wc_view_decode.specs.Decoding.{longest_line};
ghost use Rattle.wc_view_decode.specs.Formats.{Puts, closing, is_shown, opening, passed_on, unknown};
ghost use Rattle.wc_view_decode.specs.Running.{Finishes, PutsLine, TakesBytes};

use crate::entry_formats::put_entry;
use crate::format::DecodeFormat;
use crate::lines::line_entry;
use std::alloc::Global;
use wc_model::{Fault, put_bytes};
use wc_report::put_hex;

/// The most bytes before the line feed of a line that is looked at.
const LONGEST_LINE: usize = 65536;

/// A decoder: the current line, as far as it was read, or that it is too long and written as it comes.
#[derive(Drop)]
pub(crate) struct Decoder {
    pub(crate) format: DecodeFormat,
    pub(crate) line: Vec<u8>,
    pub(crate) is_long: bool,
}

/// Appends what precedes a line that is not of a report to a text.
fn put_opening(text: &mut Vec<u8>, format: DecodeFormat) -> Result<(), Fault>
    ensures { Puts text.old text.new result (opening format) }
{
    match format {
        DecodeFormat::Text => put_bytes(text, b"? "),
        DecodeFormat::Table => put_bytes(text, b",?,,,,,,,,,,,,,,,,,,,,,,\""),
    }
}

/// Appends what follows such a line to a text.
fn put_closing(text: &mut Vec<u8>, format: DecodeFormat) -> Result<(), Fault>
    ensures { Puts text.old text.new result (closing format) }
{
    match format {
        DecodeFormat::Text => put_bytes(text, b"\n"),
        DecodeFormat::Table => put_bytes(text, b"\"\n"),
    }
}

/// Whether a byte is printable ASCII other than the backslash with which one begins that is shown by its digits.
fn is_shown(byte: u8) -> bool
    ensures { result ≡ is_shown byte }
{
    byte >= 32 && byte <= 126 && byte != b'\\'
}

/// Appends a byte of such a line to a text: for people nothing on which a terminal acts.
fn put_passed(text: &mut Vec<u8>, format: DecodeFormat, byte: u8) -> Result<(), Fault>
    ensures { Puts text.old text.new result (passed_on format (byte ∷ [])) }
{
    match format {
        DecodeFormat::Text if is_shown(byte) => put_bytes(text, &[byte]),
        DecodeFormat::Text => {
            put_bytes(text, b"\\x")?;
            put_hex(text, &[byte])
        }
        DecodeFormat::Table if byte == b'"' => put_bytes(text, b"\"\""),
        DecodeFormat::Table => put_bytes(text, &[byte]),
    }
}

/// Appends bytes of such a line to a text.
fn put_passed_on(text: &mut Vec<u8>, format: DecodeFormat, bytes: &[u8]) -> Result<(), Fault>
    ensures { Puts text.old text.new result (passed_on format bytes.now) }
{
    for byte in bytes {
        put_passed(text, format, *byte)?;
    }
    Ok(())
}

/// Appends a line that is not of a report to a text.
fn put_unknown(text: &mut Vec<u8>, format: DecodeFormat, line: &[u8]) -> Result<(), Fault>
    ensures { Puts text.old text.new result (unknown format line.now) }
{
    put_opening(text, format)?;
    put_passed_on(text, format, line)?;
    put_closing(text, format)
}

/// Appends what is written for a line with its line feed to a text.
fn put_line(
    alloc: Global,
    format: DecodeFormat,
    line: &[u8],
    text: &mut Vec<u8>,
) -> Result<(), Fault>
    requires { 0 < length line.now }
    ensures line { PutsLine format line.now result text.old.items text.new.items }
    ensures memory { IsOkUnless result Fault.Memory }
{
    match line_entry(alloc, line)? {
        Some(entry) => put_entry(text, format, &entry),
        None => put_unknown(text, format, &line[..line.len() - 1]),
    }
}

/// Takes the line feed of the current line.
fn end_line(alloc: Global, decoder: &mut Decoder, text: &mut Vec<u8>) -> Result<(), Fault>
    requires { decoder.old.is_long ≡ false }
    ensures { TakesBytes decoder.old decoder.new (10 ∷ []) result text.old.items text.new.items }
{
    put_bytes(&mut decoder.line, b"\n")?;
    put_line(alloc, decoder.format, &decoder.line, text)?;
    decoder.line.clear();
    Ok(())
}

/// Writes a line that is too long as far as it was read.
fn begin_long(decoder: &mut Decoder, byte: u8, text: &mut Vec<u8>) -> Result<(), Fault>
    requires short { decoder.old.is_long ≡ false }
    requires full { length decoder.old.line.items ≡ longest_line }
    requires inside { ¬ (byte ≡ 10) }
    ensures { TakesBytes decoder.old decoder.new (byte ∷ []) result text.old.items text.new.items }
{
    put_opening(text, decoder.format)?;
    put_passed_on(text, decoder.format, &decoder.line)?;
    put_passed(text, decoder.format, byte)?;
    decoder.line.clear();
    decoder.is_long = true;
    Ok(())
}

/// Takes a byte of a report.
fn take_byte(
    alloc: Global,
    decoder: &mut Decoder,
    byte: u8,
    text: &mut Vec<u8>,
) -> Result<(), Fault>
    ensures { TakesBytes decoder.old decoder.new (byte ∷ []) result text.old.items text.new.items }
{
    if decoder.is_long {
        if byte != b'\n' {
            return put_passed(text, decoder.format, byte);
        }
        decoder.is_long = false;
        return put_closing(text, decoder.format);
    }
    if byte == b'\n' {
        return end_line(alloc, decoder, text);
    }
    if decoder.line.len() == LONGEST_LINE {
        return begin_long(decoder, byte, text);
    }
    put_bytes(&mut decoder.line, &[byte])
}

/// Takes bytes of a report, and appends what is written of them to a text. `Memory` is the only fault.
pub(crate) fn take_bytes(
    alloc: Global,
    decoder: &mut Decoder,
    bytes: &[u8],
    text: &mut Vec<u8>,
) -> Result<(), Fault>
    ensures { TakesBytes decoder.old decoder.new bytes.now result text.old.items text.new.items }
{
    for byte in bytes {
        take_byte(alloc, decoder, *byte, text)?;
    }
    Ok(())
}

/// Appends what is missing at a report's end to a text. `Memory` is the only fault.
pub(crate) fn finish(decoder: &Decoder, text: &mut Vec<u8>) -> Result<(), Fault>
    ensures finishes { Finishes decoder.now result text.old.items text.new.items }
    ensures memory { IsOkUnless result Fault.Memory }
{
    if decoder.is_long {
        return put_closing(text, decoder.format);
    }
    if decoder.line.is_empty() {
        return Ok(());
    }
    put_unknown(text, decoder.format, &decoder.line)
}
