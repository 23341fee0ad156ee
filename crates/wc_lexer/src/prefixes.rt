ghost use Rattle.std.specs.Prelude.{◌≡◌, ◌≤◌, ◌==◌, length, true, drop, false, not, take, MatchOption};
ghost use Rattle.std.specs.Char.{is_ascii_alphabetic, is_ascii_alphanumeric};
ghost use Rattle.std.specs.List.{after_first, before_first, list_any, position_or_len, prefix_len};
ghost use Rattle.wc_model.specs.Definitions.{begins, is_address_character, is_identifier_character, is_number_character, has_single_underscores};

use crate::characters::{is_address_character, is_identifier_character, is_number_character};

/// The number of characters of an identifier at the start.
pub(crate) fn identifier_length(text: &[u8]) -> usize
    ensures longest { result ≡ prefix_len is_identifier_character text.now }
    ensures within { result ≤ length text.now }
{
    text.iter()
        .take_while(|byte| is_identifier_character(**byte))
        .count()
}

/// The number of characters of a number at the start.
pub(crate) fn number_length(text: &[u8]) -> usize
    ensures longest { result ≡ prefix_len is_number_character text.now }
    ensures within { result ≤ length text.now }
{
    text.iter()
        .take_while(|byte| is_number_character(**byte))
        .count()
}

/// The number of characters of an address at the start.
pub(crate) fn address_length(text: &[u8]) -> usize
    ensures longest { result ≡ prefix_len is_address_character text.now }
    ensures within { result ≤ length text.now }
{
    text.iter()
        .take_while(|byte| is_address_character(**byte))
        .count()
}

/// The number of letters at the start.
pub(crate) fn letters_length(text: &[u8]) -> usize
    ensures longest { result ≡ prefix_len is_ascii_alphabetic text.now }
    ensures within { result ≤ length text.now }
{
    text.iter()
        .take_while(|byte| byte.is_ascii_alphabetic())
        .count()
}

/// The number of bytes that are not letters at the start.
pub(crate) fn letterless_length(text: &[u8]) -> usize
    ensures longest { result ≡ prefix_len (λ byte. not (is_ascii_alphabetic byte)) text.now }
    ensures within { result ≤ length text.now }
{
    text.iter()
        .take_while(|byte| !byte.is_ascii_alphabetic())
        .count()
}

/// The number of bytes before the first such byte.
pub(crate) fn length_before(text: &[u8], mark: u8) -> usize
    ensures first { result ≡ position_or_len (λ byte. byte == mark) text.now }
    ensures within { result ≤ length text.now }
{
    text.iter().take_while(|byte| **byte != mark).count()
}

#[tactic(auto, using(crate::proofs::Cuts::cut_none, crate::proofs::Cuts::cut_some))]
/// What precedes the first such byte and what follows it, if there is one.
pub(crate) fn cut_at(text: &[u8], mark: u8) -> Option<(&[u8], &[u8])>
    ensures { MatchOption result (list_any (λ byte. byte == mark) text.now ≡ false)
        (λ cut. (list_any (λ byte. byte == mark) text.now ≡ true)
        × (cut.0.now ≡ before_first (λ byte. byte == mark) text.now)
        × (cut.1.now ≡ after_first (λ byte. byte == mark) text.now)) }
{
    let (before, rest) = text.split_at(length_before(text, mark));
    match rest {
        [_, after @ ..] => Some((before, after)),
        [] => None,
    }
}

/// The text starts with that byte.
pub(crate) fn begins_with(text: &[u8], mark: u8) -> bool
    ensures { result ≡ begins (λ byte. byte == mark) text.now }
{
    match text {
        [first, ..] => *first == mark,
        [] => false,
    }
}

/// What follows the first byte.
pub(crate) fn following_first(text: &[u8]) -> &[u8]
    ensures { result.now ≡ drop 1 text.now }
{
    match text {
        [_, after @ ..] => after,
        [] => text,
    }
}

/// A letter or a digit is here.
#[inline(always)]
fn begins_plain(text: &[u8]) -> bool
    ensures { result ≡ begins is_ascii_alphanumeric text.now }
{
    match text {
        [first, ..] => first.is_ascii_alphanumeric(),
        [] => false,
    }
}

/// The number of characters of an identifier at the start, and whether their underscores are
/// single.
#[inline(always)]
pub(crate) fn identifier_prefix(text: &[u8]) -> (usize, bool)
    ensures longest { result.0 ≡ prefix_len is_identifier_character text.now }
    ensures within { result.0 ≤ length text.now }
    ensures single { result.1 ≡ has_single_underscores (take result.0 text.now) }
{
    let mut count = 0;
    let mut single = true;
    let mut rest = text;
    while let [first, after @ ..] = rest {
        if !first.is_ascii_alphabetic() {
            if *first == b'_' {
                if !begins_plain(after) {
                    single = false;
                }
            } else if !first.is_ascii_digit() {
                return (count, single);
            }
        }
        count += 1;
        rest = after;
    }
    (count, single)
}
