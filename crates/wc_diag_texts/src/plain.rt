ghost use Rattle.std.specs.Prelude.{◌≡◌, ◌≤◌, IfOk, length};
ghost use Rattle.std.specs.Str.{is_utf8};
ghost use Rattle.wc_diag_texts.specs.Plain.{characters, column_of, is_calm, is_control, passes, space_for_tab, starts_acting, with_spaces};

use crate::acting::hidden_length;
use std::alloc::{AllocError, Global};

/// The number of characters of a UTF-8 text.
pub fn characters(text: &[u8]) -> usize
    ensures count { result ≡ characters text.now }
    ensures within { result ≤ length text.now }
{
    text.iter()
        .filter(|byte| !matches!(byte, 0x80..=0xBF))
        .count()
}

/// The column of a place of a line, counted from 1.
pub fn column_of(line: &[u8], place: usize) -> usize
    requires { place ≤ length line.now }
    ensures { result ≡ column_of line.now place }
{
    if is_text(line) {
        let (before, _) = line.split_at(place);
        characters(before) + 1
    } else {
        place + 1
    }
}

/// Whether a byte is a control character of ASCII.
fn is_control(byte: u8) -> bool
    ensures { result ≡ is_control byte }
{
    byte < 32 || byte == 127
}

/// Whether the first character of a UTF-8 text is a control character, or a terminal or an editor would act on it, or it is not seen.
fn starts_acting(text: &[u8]) -> bool
    ensures { result ≡ starts_acting text.now }
{
    match text {
        [byte, ..] => is_control(*byte) || hidden_length(text) > 0,
        [] => false,
    }
}

/// Whether no character of a UTF-8 text is a control character, or acts so.
fn is_calm(text: &[u8]) -> bool
    ensures { result ≡ is_calm text.now }
{
    for index in 0..text.len() {
        if starts_acting(text.split_at(index).1) {
            return false;
        }
    }
    true
}

/// Whether a text is UTF-8.
fn is_text(bytes: &[u8]) -> bool
    ensures { result ≡ is_utf8 bytes.now }
{
    str::from_utf8(bytes).is_ok()
}

/// Whether bytes are shown as they are.
pub fn passes(bytes: &[u8]) -> bool
    ensures { result ≡ passes bytes.now }
{
    is_calm(bytes) && is_text(bytes)
}

/// A tab as a space.
fn space_for_tab(byte: u8) -> u8
    ensures { result ≡ space_for_tab byte }
{
    if byte == b'\t' { b' ' } else { byte }
}

/// A text with spaces for its tabs.
pub fn with_spaces(alloc: Global, text: &[u8]) -> Result<Vec<u8>, AllocError>
    ensures { IfOk result (λ bytes. bytes.items ≡ with_spaces text.now) }
{
    let mut bytes = Vec::new(alloc);
    for byte in text {
        bytes.push(space_for_tab(*byte))?;
    }
    Ok(bytes)
}
