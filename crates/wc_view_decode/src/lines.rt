// A field that is not a number is read as one all the same: what is read is written again and compared.
ghost use Rattle.std.specs.Prelude.{◌≡◌, ◌<◌, ◌≤◌, ◌^◌, ℕ, ℤ, List, FitsSigned, IfOk, IsOkUnless, decimal, length, nat_lt, option_map, slice_index, true};
ghost use Rattle.std.specs.Fmt.{signed_decimal};
ghost use Rattle.std.specs.List.{prefix_len};
ghost use Rattle.hex.specs.Hex.{IsBytes};
ghost use Rattle.wc_diag_texts.specs.Numbers.{is_refusal};
ghost use Rattle.wc_view_decode.specs.Lines.{CutsField, words_text, AreContentOf, AreWords, InRange, IsEntryOf, RefusalContent, ScanContent, content_text, entry_content, refusal_content, scan_content};
ghost use Rattle.wc_model.specs.Run.Hex.{hex_of_bytes, hex_of_word};
ghost use Rattle.wc_model.specs.declared.image.Outputs.{Outputs};
ghost use mir.Syntax.{w32};

use crate::answer::{RefusalRow, ReportEntry, ScanRow};
use crate::frames::answers_of;
use hex::FromHexError;
use std::alloc::Global;
use std::str;
use wc_model::{Fault, Outputs, Steps};
use wc_report::{put_answer_line, put_scan_line, refused_line};

/// The number of bytes before the first space or line feed.
fn field_length(text: &[u8]) -> usize
    ensures first { result ≡ prefix_len (λ byte. nat_lt 32 byte) text.now }
    ensures within { result ≤ length text.now }
{
    text.iter().take_while(|byte| **byte > b' ').count()
}

/// The first field, and what follows the space or the line feed that ends it.
fn cut_field(text: &[u8]) -> (&[u8], &[u8])
    ensures { CutsField text.now result.0.now result.1.now }
{
    let (field, rest) = text.split_at(field_length(text));
    (field, rest.get(1..).unwrap_or(rest))
}

/// The number of a field.
fn number(field: &[u8]) -> u64
    ensures { (n : ℕ) → n < 2 ^ 64 → field.now ≡ decimal n → result ≡ n }
{
    let text = str::from_utf8(field).unwrap_or("");
    text.parse::<u64>().unwrap_or(0)
}

/// The same in 32 bits.
fn small_number(field: &[u8]) -> u32
    ensures { (n : ℕ) → n < 2 ^ 32 → field.now ≡ decimal n → result ≡ n }
{
    u32::try_from(number(field)).unwrap_or(0)
}

/// The moment of a field: none is above 1099511627775.
fn moment(field: &[u8]) -> u64
    ensures within { result < 2 ^ 40 }
    ensures number { (n : ℕ) → n < 2 ^ 40 → field.now ≡ decimal n → result ≡ n }
{
    let ms = number(field);
    if ms < 1 << 40 { ms } else { 0 }
}

/// The number of a refusal, of which there is one.
fn refusal_number(field: &[u8]) -> u16
    ensures known { is_refusal result ≡ true }
    ensures number { (n : ℕ) → is_refusal n ≡ true → field.now ≡ decimal n → result ≡ n }
{
    let number = u16::try_from(number(field)).unwrap_or(0);
    let is_known = wc_diag_texts::entry_of(number).is_some();
    if is_known { number } else { 101 }
}

/// The word of a field.
fn signed_number(field: &[u8]) -> i32
    ensures fits { FitsSigned w32 result }
    ensures number { (z : ℤ) → FitsSigned w32 z → field.now ≡ signed_decimal z → result ≡ z }
{
    let text = str::from_utf8(field).unwrap_or("");
    text.parse::<i32>().unwrap_or(0)
}

/// The bits of a field.
fn bits(field: &[u8]) -> u16
    ensures { (word : ℕ) → word < 2 ^ 16 → field.now ≡ hex_of_word word → result ≡ word }
{
    let mut bytes = [0; 2];
    let _whole = hex::decode_to_slice(field, &mut bytes);
    u16::from_be_bytes(bytes)
}

/// The four words of a line.
fn words_in(text: &[u8]) -> [i32; 4]
    ensures fits { AreWords result }
    ensures words { (words : List ℤ) → AreWords words → text.now ≡ words_text words
        → result ≡ words }
{
    let (first, rest) = cut_field(text);
    let (second, rest) = cut_field(rest);
    let (third, rest) = cut_field(rest);
    let (fourth, _end) = cut_field(rest);
    [
        signed_number(first),
        signed_number(second),
        signed_number(third),
        signed_number(fourth),
    ]
}

/// The scan of a line, if it is one.
fn scan_in(line: &[u8]) -> ScanRow
    ensures range { InRange (scan_content result) }
    ensures scan { (ms steps : ℕ) (outputs : Outputs) → InRange (ScanContent ms steps outputs)
        → line.now ≡ content_text (ScanContent ms steps outputs)
        → scan_content result ≡ ScanContent ms steps outputs }
{
    let (_mark, rest) = cut_field(line);
    let (ms, rest) = cut_field(rest);
    let (steps, rest) = cut_field(rest);
    let (word, rest) = cut_field(rest);
    ScanRow {
        ms: moment(ms),
        steps: Steps(small_number(steps)),
        outputs: Outputs {
            bits: bits(word),
            words: words_in(rest),
        },
    }
}

/// The scan of a line that starts with S.
fn scan_entry(alloc: Global, line: &[u8]) -> Result<Option<ReportEntry>, Fault>
    requires { slice_index line.now 0 ≡ 83 }
    ensures { IsEntryOf result line.now }
{
    let row = scan_in(line);
    let mut text = Vec::new(alloc);
    put_scan_line(&mut text, row.ms, row.steps, &row.outputs)?;
    Ok((text.as_slice() == line).then_some(ReportEntry::Scan(row)))
}

/// The refusal of a line, if it is one.
fn refusal_in(line: &[u8]) -> RefusalRow
    ensures range { InRange (refusal_content result) }
    ensures refusal { (number place : ℕ) → InRange (RefusalContent number place)
        → line.now ≡ content_text (RefusalContent number place)
        → refusal_content result ≡ RefusalContent number place }
{
    let (_mark, rest) = cut_field(line);
    let (number, rest) = cut_field(rest);
    let (place, _end) = cut_field(rest);
    RefusalRow {
        number: refusal_number(number),
        place: small_number(place),
    }
}

/// The refusal of a line that starts with r.
fn refusal_entry(alloc: Global, line: &[u8]) -> Result<Option<ReportEntry>, Fault>
    requires { slice_index line.now 0 ≡ 114 }
    ensures { IsEntryOf result line.now }
{
    let row = refusal_in(line);
    let text = refused_line(alloc, row.number, row.place)?;
    Ok((text.as_slice() == line).then_some(ReportEntry::Refusal(row)))
}

/// The bytes of a field.
fn bytes_in(alloc: Global, field: &[u8]) -> Result<Vec<u8>, Fault>
    ensures bytes { IfOk result (λ given. (bytes : List ℕ) → IsBytes bytes
        → field.now ≡ hex_of_bytes bytes → given.items ≡ bytes) }
    ensures memory { IsOkUnless result Fault.Memory }
{
    match hex::decode(alloc, field) {
        Ok(bytes) => Ok(bytes),
        Err(fault) => match fault {
            FromHexError::OutOfMemory => Err(Fault::Memory),
            _ => Ok(Vec::new(alloc)),
        },
    }
}

/// The answers of a row, if its bytes are answers.
fn entry_of(alloc: Global, ms: u64, bytes: &[u8]) -> Result<Option<ReportEntry>, Fault>
    ensures reported { IfOk result (λ found. AreContentOf ms
        (option_map entry_content found) bytes.now) }
    ensures memory { IsOkUnless result Fault.Memory }
{
    match answers_of(alloc, bytes)? {
        Some(answers) if !answers.is_empty() => Ok(Some(ReportEntry::Answers(ms, answers))),
        _ => Ok(None),
    }
}

/// The answers of a line that starts with L.
fn answers_entry(alloc: Global, line: &[u8]) -> Result<Option<ReportEntry>, Fault>
    requires { slice_index line.now 0 ≡ 76 }
    ensures { IsEntryOf result line.now }
{
    let (_mark, rest) = cut_field(line);
    let (ms, rest) = cut_field(rest);
    let (digits, _end) = cut_field(rest);
    let ms = moment(ms);
    let bytes = bytes_in(alloc, digits)?;
    let mut text = Vec::new(alloc);
    put_answer_line(&mut text, ms, &bytes)?;
    if text.as_slice() == line {
        entry_of(alloc, ms, &bytes)
    } else {
        Ok(None)
    }
}

/// What a line with its line feed says, or none if it is not a line of a report.
pub(crate) fn line_entry(alloc: Global, line: &[u8]) -> Result<Option<ReportEntry>, Fault>
    ensures { IsEntryOf result line.now }
{
    match line {
        [b'S', ..] => scan_entry(alloc, line),
        [b'L', ..] => answers_entry(alloc, line),
        [b'r', ..] => refusal_entry(alloc, line),
        _ => Ok(None),
    }
}
