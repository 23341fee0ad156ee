ghost use Rattle.std.specs.Prelude.{◌≡◌, ◌+◌, ◌≤◌, length};
ghost use Rattle.wc_laws_grammar.specs.Sights.{hash_reach, is_mark_before, reach, signed_reach, value_reach, word_reach};
ghost use Rattle.wc_lexer.specs.Views.{mark_reach_of};

use crate::Shape;
use crate::characters::{is_sign, mark, may_occur_before, starts_identifier};
use crate::prefixes::{address_length, identifier_length, number_length};

/// How long the value of a typed literal is.
fn value_length(text: &[u8]) -> usize
    ensures longest { result ≡ value_reach text.now }
    ensures within { result ≤ length text.now }
{
    match text {
        [b'-', number @ ..] => 1 + number_length(number),
        _ => number_length(text),
    }
}

/// How long a `#` and what it takes are, if one is here.
fn hash_length(text: &[u8]) -> usize
    ensures longest { result ≡ hash_reach text.now }
    ensures within { result ≤ length text.now }
{
    match text {
        [b'#', value @ ..] => 1 + value_length(value),
        _ => 0,
    }
}

/// How long an identifier or a typed literal is.
fn word_length(text: &[u8]) -> usize
    ensures longest { result ≡ word_reach text.now }
    ensures within { result ≤ length text.now }
{
    let (run, rest) = text.split_at(identifier_length(text));
    run.len() + hash_length(rest)
}

/// How long a sign with the number after it is.
fn signed_length(after: &[u8]) -> usize
    ensures longest { result ≡ signed_reach after.now }
    ensures within { result ≤ length after.now + 1 }
{
    match after {
        [first, ..] if first.is_ascii_digit() => 1 + number_length(after),
        _ => 1,
    }
}

/// The bytes are a mark that may precede the rest.
fn is_mark_before(spelling: &[u8], after: &[u8]) -> bool
    ensures { result ≡ is_mark_before spelling.now after.now }
{
    match mark(spelling) {
        Some(shape) => may_occur_before(shape, after),
        None => false,
    }
}

/// The length of the mark that is here.
fn mark_length(text: &[u8]) -> usize
    ensures longest { result ≡ mark_reach_of text.now }
    ensures within { result ≤ length text.now }
{
    match text {
        [first, second, after @ ..] if is_mark_before(&[*first, *second], after) => 2,
        [first, after @ ..] if is_mark_before(&[*first], after) => 1,
        _ => 0,
    }
}

/// The length of the longest lexeme that is here, 0 if there is none.
pub(crate) fn lexeme_length(text: &[u8]) -> usize
    ensures longest { result ≡ reach text.now }
    ensures within { result ≤ length text.now }
{
    let [first, after @ ..] = text else {
        return 0;
    };
    if starts_identifier(*first) {
        word_length(text)
    } else if first.is_ascii_digit() {
        number_length(text)
    } else if is_sign(*first) {
        signed_length(after)
    } else if *first == b'%' {
        1 + address_length(after)
    } else {
        mark_length(text)
    }
}
