ghost use Rattle.std.specs.Prelude.{◌≡◌, ◌≤◌, ◌+◌, ◌*◌, ◌-◌, ◌++◌, ◌∷◌, [], IsOkUnless, OnOk, drop, length, take};
ghost use Rattle.std.specs.Str.{is_utf8};
ghost use Rattle.wc_view_trace_rows.specs.Columns.{first_columns, fitted, line_shown, ShownLinesAreSafe, shown, shown_first, single_spaces};
ghost use Rattle.wc_view_changes.specs.Shown.{Puts};

use wc_diag_texts::{characters, hidden_length};
use wc_model::{Fault, put_bytes};

/// The number of bytes of a text that take that many columns.
fn bytes_of(text: &[u8], columns: usize) -> usize
    ensures prefix { take result text.now ≡ first_columns columns text.now }
    ensures within { result ≤ length text.now }
{
    let mut left = columns;
    for (index, byte) in text.iter().enumerate() {
        if matches!(byte, 0x80..=0xBF) {
            continue;
        }
        if left == 0 {
            return index;
        }
        left = left.saturating_sub(1);
    }
    text.len()
}

/// The byte that is shown of a character on which a terminal would act, or of any other byte: a control character is not sent to
/// a terminal, and of a text that is not UTF-8 no byte is that is not ASCII.
fn first_shown(length: usize, byte: u8, is_utf8: bool) -> u8
    ensures { result ≡ shown_first is_utf8 length byte }
{
    match byte {
        _ if length > 0 => b'?',
        b'\t' => b' ',
        0..32 | 127 => b'?',
        128.. if !is_utf8 => b'?',
        _ => byte,
    }
}

/// Puts a byte, unless it is a space that follows a space.
fn put_single(text: &mut Vec<u8>, before: u8, byte: u8) -> Result<(), Fault>
    ensures { Puts text.old text.new result (single_spaces before (byte ∷ [])) }
{
    if byte == b' ' && before == b' ' {
        return Ok(());
    }
    put_bytes(text, &[byte])
}

/// Puts bytes as they are shown, and a single space for several.
fn put_shown(text: &mut Vec<u8>, bytes: &[u8]) -> Result<(), Fault>
    ensures { Puts text.old text.new result (shown bytes.now) }
{
    let is_utf8 = str::from_utf8(bytes).is_ok();
    let (mut before, mut hidden) = (b' ', 0_usize);
    for (index, byte) in bytes.iter().enumerate() {
        if hidden > 0 {
            hidden = hidden.saturating_sub(1);
            continue;
        }
        let length = hidden_length(bytes.split_at(index).1);
        let shown = first_shown(length, *byte, is_utf8);
        put_single(text, before, shown)?;
        hidden = length.saturating_sub(1);
        before = shown;
    }
    Ok(())
}

/// What a text has from there on.
pub(crate) fn bytes_from(text: &[u8], start: usize) -> &[u8]
    ensures { result.now ≡ drop start text.now }
{
    text.get(start..).unwrap_or(b"")
}

/// Fits what a text has from there on into that many columns: if it does not, its first part is left, and two dots.
fn fit(text: &mut Vec<u8>, start: usize, columns: usize) -> Result<(), Fault>
    requires { start ≤ length text.old.items }
    ensures fits { OnOk result (text.new.items
        ≡ take start text.old.items ++ fitted columns (drop start text.old.items)) }
    ensures memory { IsOkUnless result Fault.Memory }
{
    let put = bytes_from(text, start);
    if characters(put) <= columns {
        return Ok(());
    }
    let kept = bytes_of(put, columns.saturating_sub(2));
    text.truncate(start + kept);
    put_bytes(text, b"..")
}

/// Puts a line of the text without the blanks at its ends. If it does not fit into that many columns
/// its first part is put, and two dots.
pub(crate) fn put_line(text: &mut Vec<u8>, line: &[u8], columns: usize) -> Result<(), Fault>
    ensures { Puts text.old text.new result (line_shown columns line.now) }
{
    let start = text.len();
    put_shown(text, line.trim_ascii())?;
    fit(text, start, columns)
}

/// A line of a text, whatever bytes it has, is shown with no control character, also none above ASCII, and with no end of a line, no
/// character that turns the direction of writing and none without a width.
pub fn shown_lines_are_safe()
    ensures { ShownLinesAreSafe }
{}
