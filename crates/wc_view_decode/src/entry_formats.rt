ghost use Rattle.std.specs.Prelude.{◌≡◌, ◌<◌, ◌++◌, decimal};
ghost use Rattle.std.specs.Fmt.{signed_decimal};
ghost use Rattle.wc_view_decode.specs.declared.format.DecodeFormat.TheVariants.{Table, Text};
ghost use Rattle.wc_view_decode.specs.Lines.{entry_content};
ghost use Rattle.wc_view_decode.specs.Formats.{Puts, answer_line, answer_lines, bit_text, bits_text, decoded, is_bit_on, named_words, none_text, refusal_line, refusal_mark, scan_line, scan_prefix, word_names};

use crate::answer::{LineAnswer, RefusalRow, ReportEntry, ScanRow};
use crate::answer_texts::put_answer;
use crate::format::DecodeFormat;
use wc_model::{Fault, put_bytes};
use wc_report::{put_number, put_signed};

/// Appends a number after its label to a text.
fn put_number_after(text: &mut Vec<u8>, label: &[u8], number: u64) -> Result<(), Fault>
    ensures { Puts text.old text.new result (label.now ++ decimal number) }
{
    put_bytes(text, label)?;
    put_number(text, number)
}

/// Whether a bit is set.
fn is_bit_on(bits: u16, index: u16) -> bool
    requires { index < 16 }
    ensures { result ≡ is_bit_on bits index }
{
    (bits >> index) % 2 == 1
}

/// What says that no bit is set, if none is.
fn none_text(format: DecodeFormat, bits: u16) -> &'static [u8]
    ensures { result.now ≡ none_text format bits }
{
    match (format, bits) {
        (DecodeFormat::Text, 0) => b" none",
        _ => b"",
    }
}

/// Appends the name of a bit to a text, if it is set, or its column.
fn put_bit(text: &mut Vec<u8>, format: DecodeFormat, bits: u16, index: u16) -> Result<(), Fault>
    requires { index < 16 }
    ensures { Puts text.old text.new result (bit_text format bits index) }
{
    match (format, is_bit_on(bits, index)) {
        (DecodeFormat::Text, true) => put_number_after(text, b" %QX0.", u64::from(index)),
        (DecodeFormat::Text, false) => Ok(()),
        (DecodeFormat::Table, true) => put_bytes(text, b",1"),
        (DecodeFormat::Table, false) => put_bytes(text, b",0"),
    }
}

/// Appends the names of the bits that are set to a text, or the columns of all.
#[tactic(auto, unfolding(crate::specs::Formats::bits_text))]
fn put_bits(text: &mut Vec<u8>, format: DecodeFormat, bits: u16) -> Result<(), Fault>
    ensures { Puts text.old text.new result (bits_text format bits) }
{
    put_bytes(text, none_text(format, bits))?;
    for index in 0..16 {
        put_bit(text, format, bits, index)?;
    }
    Ok(())
}

/// Appends a word after its name to a text.
fn put_word(text: &mut Vec<u8>, name: &[u8], word: &i32) -> Result<(), Fault>
    ensures { Puts text.old text.new result (name.now ++ signed_decimal word.now) }
{
    put_bytes(text, name)?;
    put_signed(text, i64::from(*word))
}

/// Appends the words by name to a text.
fn put_words(text: &mut Vec<u8>, words: &[i32; 4]) -> Result<(), Fault>
    ensures { Puts text.old text.new result (named_words (word_names Text) words.now) }
{
    let [first, second, third, fourth] = words;
    put_word(text, b"  %QD0 ", first)?;
    put_word(text, b"  %QD1 ", second)?;
    put_word(text, b"  %QD2 ", third)?;
    put_word(text, b"  %QD3 ", fourth)
}

/// Appends the columns of the words to a text.
fn put_word_columns(text: &mut Vec<u8>, words: &[i32; 4]) -> Result<(), Fault>
    ensures { Puts text.old text.new result (named_words (word_names Table) words.now) }
{
    let [first, second, third, fourth] = words;
    put_word(text, b",", first)?;
    put_word(text, b",", second)?;
    put_word(text, b",", third)?;
    put_word(text, b",", fourth)
}

/// Appends the moment, the steps and the bits of a scan to a text.
fn put_scan_prefix(text: &mut Vec<u8>, row: &ScanRow) -> Result<(), Fault>
    ensures { Puts text.old text.new result
        (scan_prefix row.now.ms row.now.steps.0 row.now.outputs) }
{
    put_number_after(text, b"S ", row.ms)?;
    put_number_after(text, b"  ", u64::from(row.steps.0))?;
    put_bytes(text, b" steps  on:")?;
    put_bits(text, DecodeFormat::Text, row.outputs.bits)
}

/// Appends an answer to a text.
fn put_one_answer(
    text: &mut Vec<u8>,
    format: DecodeFormat,
    ms: u64,
    answer: &LineAnswer,
) -> Result<(), Fault>
    ensures { Puts text.old text.new result (answer_line format ms answer.now) }
{
    match format {
        DecodeFormat::Text => {
            put_number_after(text, b"L ", ms)?;
            put_bytes(text, b"  ")?;
            put_answer(text, answer)?;
            put_bytes(text, b"\n")
        }
        DecodeFormat::Table => {
            put_number(text, ms)?;
            put_bytes(text, b",L,,,,,,,,,,,,,,,,,,,,,,\"")?;
            put_answer(text, answer)?;
            put_bytes(text, b"\"\n")
        }
    }
}

/// Appends answers to a text, each on a line of its own.
fn put_answers(
    text: &mut Vec<u8>,
    format: DecodeFormat,
    ms: u64,
    answers: &[LineAnswer],
) -> Result<(), Fault>
    ensures { Puts text.old text.new result (answer_lines format ms answers.now) }
{
    for answer in answers {
        put_one_answer(text, format, ms, answer)?;
    }
    Ok(())
}

/// What precedes the number of a refusal.
fn refusal_mark(format: DecodeFormat) -> &'static [u8]
    ensures { result.now ≡ refusal_mark format }
{
    match format {
        DecodeFormat::Text => b"refused ",
        DecodeFormat::Table => b",refused,,,,,,,,,,,,,,,,,,,,,,",
    }
}

/// Appends a refusal to a text.
fn put_refusal(text: &mut Vec<u8>, format: DecodeFormat, row: &RefusalRow) -> Result<(), Fault>
    ensures { Puts text.old text.new result (refusal_line format row.now.number row.now.place) }
{
    put_number_after(text, refusal_mark(format), u64::from(row.number))?;
    put_number_after(text, b" ", u64::from(row.place))?;
    put_bytes(text, b"\n")
}

/// Appends a scan to a text.
fn put_scan(text: &mut Vec<u8>, format: DecodeFormat, row: &ScanRow) -> Result<(), Fault>
    ensures { Puts text.old text.new result
        (scan_line format row.now.ms row.now.steps.0 row.now.outputs) }
{
    match format {
        DecodeFormat::Text => {
            put_scan_prefix(text, row)?;
            put_words(text, &row.outputs.words)?;
            put_bytes(text, b"\n")
        }
        DecodeFormat::Table => {
            put_number(text, row.ms)?;
            put_number_after(text, b",S,", u64::from(row.steps.0))?;
            put_bits(text, format, row.outputs.bits)?;
            put_word_columns(text, &row.outputs.words)?;
            put_bytes(text, b",\n")
        }
    }
}

/// Appends what a line says to a text. `Memory` is the only fault.
pub(crate) fn put_entry(
    text: &mut Vec<u8>,
    format: DecodeFormat,
    entry: &ReportEntry,
) -> Result<(), Fault>
    ensures { Puts text.old text.new result (decoded format (entry_content entry.now)) }
{
    match entry {
        ReportEntry::Scan(row) => put_scan(text, format, row),
        ReportEntry::Answers(ms, answers) => put_answers(text, format, *ms, answers),
        ReportEntry::Refusal(row) => put_refusal(text, format, row),
    }
}
