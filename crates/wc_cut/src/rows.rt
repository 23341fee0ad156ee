ghost use Rattle.std.specs.Prelude.{◌≡◌, ◌++◌, ◌/◌, ◌%◌, ◌∷◌, [], IsOkUnless, OnOk, map, option_map, replicate};
ghost use Rattle.wc_cut.specs.Cuts.{data_text, line_of, lines_of};
ghost use Rattle.wc_laws_instrument.specs.Preludes.{input_rows, load_rows, prelude_of, request_rows};
ghost use Rattle.wc_model.specs.Run.Rows.{Counts};
ghost use Rattle.wc_run.specs.OpenScales.{state_view};
ghost use Rattle.wc_record.specs.Views.{head_data_view};

use arrayvec::ArrayVec;
use wc_model::put_bytes;
use wc_record::HeadKind;
use wc_report::{put_hex, put_number, put_signed};
use wc_run::{Prelude, RunFault};

/// The two bytes of a word, the high one first.
fn word_bytes(word: u16) -> [u8; 2]
    ensures { result ≡ (word / 256) ∷ (word % 256) ∷ [] }
{
    word.to_be_bytes()
}

/// Puts the kind and the data of a row after a text, each after a comma.
fn put_data(text: &mut Vec<u8>, kind: HeadKind, bytes: &[u8]) -> Result<(), RunFault>
    ensures text { OnOk result
        (text.new.items ≡ text.old.items ++ data_text (head_data_view bytes.now kind)) }
    ensures memory { IsOkUnless result RunFault.Memory }
{
    match kind {
        HeadKind::Counts(counts) => {
            put_bytes(text, b",C,")?;
            put_signed(text, i64::from(counts))?;
        }
        HeadKind::Bytes => {
            put_bytes(text, b",L,")?;
            put_hex(text, bytes)?;
        }
        HeadKind::Inputs(inputs) => {
            put_bytes(text, b",I,")?;
            put_hex(text, &word_bytes(inputs))?;
        }
        HeadKind::Scan => put_bytes(text, b",S,")?,
        HeadKind::Change => put_bytes(text, b",P,")?,
    }
    Ok(())
}

/// Puts a row of this time after a text.
pub(crate) fn put_row(
    text: &mut Vec<u8>,
    ms: u64,
    kind: HeadKind,
    bytes: &[u8],
) -> Result<(), RunFault>
    ensures text { OnOk result
        (text.new.items ≡ text.old.items ++ line_of ms (head_data_view bytes.now kind)) }
    ensures memory { IsOkUnless result RunFault.Memory }
{
    put_number(text, ms)?;
    put_data(text, kind, bytes)?;
    put_bytes(text, b"\n")?;
    Ok(())
}

/// Puts the rows of samples after a text.
fn put_samples(text: &mut Vec<u8>, ms: u64, samples: &[i32]) -> Result<(), RunFault>
    ensures text { OnOk result
        (text.new.items ≡ text.old.items ++ lines_of ms (map Counts samples.now)) }
    ensures memory { IsOkUnless result RunFault.Memory }
{
    for sample in samples {
        put_row(text, ms, HeadKind::Counts(*sample), &[])?;
    }
    Ok(())
}

/// Puts the rows of a load that stays for as many samples as the window holds after a text.
fn put_load(text: &mut Vec<u8>, ms: u64, window: usize, counts: i32) -> Result<(), RunFault>
    ensures text { OnOk result
        (text.new.items ≡ text.old.items ++ lines_of ms (replicate window (Counts counts))) }
    ensures memory { IsOkUnless result RunFault.Memory }
{
    for _turn in 0..window {
        put_row(text, ms, HeadKind::Counts(counts), &[])?;
    }
    Ok(())
}

/// Puts the rows of a load and of the request that is made at it after a text, if there is such a
/// load.
fn put_command(
    text: &mut Vec<u8>,
    ms: u64,
    window: usize,
    letter: u8,
    load: Option<i32>,
) -> Result<(), RunFault>
    ensures text { OnOk result
        (text.new.items ≡ text.old.items ++ lines_of ms (load_rows window (letter ∷ []) load)) }
    ensures memory { IsOkUnless result RunFault.Memory }
{
    match load {
        Some(counts) => {
            put_load(text, ms, window, counts)?;
            put_row(text, ms, HeadKind::Bytes, &[b'\n', letter, b'\r'])
        }
        None => Ok(()),
    }
}

/// Puts the row of the inputs after a text, unless they are those of a new scale.
fn put_inputs(text: &mut Vec<u8>, ms: u64, inputs: u16) -> Result<(), RunFault>
    ensures text { OnOk result
        (text.new.items ≡ text.old.items ++ lines_of ms (input_rows inputs)) }
    ensures memory { IsOkUnless result RunFault.Memory }
{
    if inputs == 0 {
        return Ok(());
    }
    put_row(text, ms, HeadKind::Inputs(inputs), &[])
}

/// Puts the row of the bytes of an open request after a text, if one is open.
fn put_request(
    text: &mut Vec<u8>,
    ms: u64,
    request: &Option<ArrayVec<u8, 2>>,
) -> Result<(), RunFault>
    ensures text { OnOk result (text.new.items
        ≡ text.old.items ++ lines_of ms (request_rows (option_map (λ t. t.items) request.now))) }
    ensures memory { IsOkUnless result RunFault.Memory }
{
    let Some(started) = request else {
        return Ok(());
    };
    put_number(text, ms)?;
    // The line feed that opened it goes first.
    put_bytes(text, b",L,0a")?;
    put_hex(text, started)?;
    put_bytes(text, b"\n")?;
    Ok(())
}

/// Puts the rows of a prelude after a text, each at this time.
pub(crate) fn put_prelude(text: &mut Vec<u8>, ms: u64, prelude: &Prelude) -> Result<(), RunFault>
    ensures text { OnOk result (text.new.items
        ≡ text.old.items ++ lines_of ms (prelude_of prelude.now.window (state_view prelude.now))) }
    ensures memory { IsOkUnless result RunFault.Memory }
{
    put_command(text, ms, prelude.window, b'Z', prelude.zero)?;
    put_command(text, ms, prelude.window, b'T', prelude.tare)?;
    put_samples(text, ms, &prelude.samples)?;
    put_inputs(text, ms, prelude.inputs)?;
    put_request(text, ms, &prelude.request)
}
