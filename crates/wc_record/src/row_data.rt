ghost use Rattle.std.specs.Prelude.{◌≡◌, IfOk, ◌∷◌, [], option_map, Some};
ghost use Rattle.wc_model.specs.Run.Log.{row_data_of, first_row, has_fields, row_of_fields};
ghost use Rattle.wc_model.specs.Run.Log as log;
ghost use Rattle.wc_model.specs.Run.Rows as rows;
ghost use Rattle.wc_record.specs.Views.{BringsInRange, IsDataInRange, Says, SaysData, head_data_view, SaysRow, three_of, fields_view};
ghost use Rattle.csv.specs.Records.{fields_of};

use crate::numbers::{counts, inputs_word, line_chunk, moment};
use crate::row_head::{HeadKind, RowHead};
use csv::ByteRecord;

/// Why fields are not a row.
pub(crate) enum RowFault {
    /// They break the rule of this number.
    Refused(u16),
    Memory,
}

/// The fault of fields that break the rule of this number. It is separate, so that a row that breaks none does not pay for it.
#[cold]
#[inline(never)]
fn refusal(rule: u16) -> RowFault
    ensures { result ≡ RowFault.Refused rule }
{
    RowFault::Refused(rule)
}

/// A sample.
#[inline(always)]
fn sample(text: &[u8]) -> Result<HeadKind, RowFault>
    ensures says { Says result (log.brings_or 605 rows.Counts (log.counts_of text.now)) }
    ensures range { BringsInRange result }
{
    match counts(text) {
        Some(counts) => Ok(HeadKind::Counts(counts)),
        None => Err(refusal(605)),
    }
}

/// Bytes on the line, which are in the buffer then.
#[inline(always)]
fn line_bytes(buffer: &mut Vec<u8>, text: &[u8]) -> Result<HeadKind, RowFault>
    ensures says { SaysData buffer.new.items result
        (log.brings_or 606 rows.Bytes (log.line_chunk_of text.now)) }
    ensures range { IfOk result (λ kind. IsDataInRange (head_data_view buffer.new.items kind)) }
{
    match line_chunk(buffer, text) {
        Ok(true) => Ok(HeadKind::Bytes),
        Ok(false) => Err(refusal(606)),
        Err(_) => Err(RowFault::Memory),
    }
}

/// Inputs.
#[inline(always)]
fn inputs(text: &[u8]) -> Result<HeadKind, RowFault>
    ensures says { Says result (log.brings_or 606 rows.Inputs (log.inputs_word_of text.now)) }
    ensures range { BringsInRange result }
{
    match inputs_word(text) {
        Some(inputs) => Ok(HeadKind::Inputs(inputs)),
        None => Err(refusal(606)),
    }
}

/// What a kind and its data bring; bytes are in the buffer then. A scan and a change of the program have no data.
#[inline(always)]
fn row_data(buffer: &mut Vec<u8>, kind: &[u8], text: &[u8]) -> Result<HeadKind, RowFault>
    ensures says { SaysData buffer.new.items result (row_data_of kind.now text.now) }
    ensures range { IfOk result (λ kind. IsDataInRange (head_data_view buffer.new.items kind)) }
{
    match kind {
        b"C" => sample(text),
        b"L" => line_bytes(buffer, text),
        b"I" => inputs(text),
        b"S" if text.is_empty() => Ok(HeadKind::Scan),
        b"S" => Err(refusal(608)),
        b"P" if text.is_empty() => Ok(HeadKind::Change),
        b"P" => Err(refusal(608)),
        _ => Err(refusal(604)),
    }
}

/// The three fields of a row.
#[derive(Drop)]
struct RowFields<'f> {
    moment: &'f [u8],
    kind: &'f [u8],
    text: &'f [u8],
}

/// The fields of a record of three.
#[inline(always)]
fn three_fields(row: &ByteRecord) -> Option<RowFields<'_>>
    ensures { option_map fields_view result ≡ three_of (fields_of row.now) }
{
    if row.len() != 3 {
        return None;
    }
    let moment = row.get(0)?;
    let kind = row.get(1)?;
    let text = row.get(2)?;
    Some(RowFields { moment, kind, text })
}

/// Whether the text is that of the first row's field.
fn is_first(moment: &[u8], kind: &[u8], text: &[u8]) -> bool
    ensures { result ≡ has_fields first_row (moment.now ∷ kind.now ∷ text.now ∷ []) }
{
    matches!(moment, b"ms") && matches!(kind, b"kind") && matches!(text, b"data")
}

/// Whether the record is the first row of a log, `ms,kind,data`.
pub(crate) fn is_first_row(row: &ByteRecord) -> bool
    ensures { result ≡ has_fields first_row (fields_of row.now) }
{
    match three_fields(row) {
        Some(fields) => is_first(fields.moment, fields.kind, fields.text),
        None => false,
    }
}

/// The row of that number that a record writes, whose bytes are in the buffer then, if the last
/// row's moment was `last`, 0 before any.
#[inline(always)]
pub(crate) fn row_in(
    buffer: &mut Vec<u8>,
    row: &ByteRecord,
    number: u32,
    last: u64,
) -> Result<RowHead, RowFault>
    ensures says { SaysRow buffer.new.items result
        (row_of_fields number (Some last) (fields_of row.now)) }
    ensures range { IfOk result (λ read. IsDataInRange
        (head_data_view buffer.new.items read.kind)) }
{
    let Some(fields) = three_fields(row) else {
        return Err(RowFault::Refused(601));
    };
    let Some(ms) = moment(fields.moment) else {
        return Err(RowFault::Refused(602));
    };
    if ms < last {
        return Err(RowFault::Refused(603));
    }
    match row_data(buffer, fields.kind, fields.text) {
        Ok(kind) => Ok(RowHead { number, ms, kind }),
        Err(fault) => Err(fault),
    }
}
