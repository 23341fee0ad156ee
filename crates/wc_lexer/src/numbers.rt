ghost use Rattle.std.specs.Prelude.{◌≡◌, ◌≤◌, ◌+◌, ◌*◌, ◌||◌, if◌then◌else◌, neg_ℤ, pos, option_and_then};
ghost use Rattle.std.specs.Char.{digit_value, is_digit};
ghost use Rattle.std.specs.List.{list_all};
ghost use Rattle.wc_lexer.specs.Numbers.{within_64_bits};
ghost use Rattle.wc_model.specs.Definitions.{begins, is_underscore, are_digits, digits_of, has_single_underscores, value_of_digits, base_of, unsigned_of, whole_number_of, within_32_bits};

use crate::prefixes::{begins_with, cut_at, following_first};

/// The value of a digit or a letter, 36 for any other byte.
fn digit_value(byte: u8) -> u64
    ensures { result ≡ digit_value byte }
{
    match byte {
        b'0'..=b'9' => u64::from(byte - b'0'),
        b'A'..=b'Z' => u64::from(byte - b'A') + 10,
        b'a'..=b'z' => u64::from(byte - b'a') + 10,
        _ => 36,
    }
}

/// The byte is a digit of that base.
#[inline(always)]
pub(crate) fn is_digit(byte: u8, base: u64) -> bool
    ensures { result ≡ is_digit byte base }
{
    digit_value(byte) < base
}

/// After each underscore comes another character.
pub(crate) fn has_single_underscores(text: &[u8]) -> bool
    ensures { result ≡ has_single_underscores text.now }
{
    let mut rest = text;
    while let [first, after @ ..] = rest {
        if *first == b'_' && !matches!(after, [next, ..] if *next != b'_') {
            return false;
        }
        rest = after;
    }
    true
}

/// The text starts with a digit of that base.
fn begins_with_digit(base: u64, text: &[u8]) -> bool
    ensures { result ≡ begins (λ byte. is_digit byte base) text.now }
{
    match text {
        [first, ..] => is_digit(*first, base),
        [] => false,
    }
}

/// The text holds digits of that base and underscores alone.
fn has_only_digits(base: u64, text: &[u8]) -> bool
    ensures { result ≡ list_all (λ byte. is_digit byte base || is_underscore byte) text.now }
{
    text.iter()
        .all(|byte| is_digit(*byte, base) || *byte == b'_')
}

/// The text is digits of that base with single underscores between them.
pub(crate) fn are_digits(base: u64, text: &[u8]) -> bool
    ensures { result ≡ are_digits base text.now }
{
    begins_with_digit(base, text) && has_only_digits(base, text) && has_single_underscores(text)
}

/// The number with one digit more, if it has 64 bits.
#[inline(always)]
pub(crate) fn with_digit(number: u64, base: u64, digit: u8) -> Option<u64>
    ensures { result ≡ within_64_bits (number * base + digit_value digit) }
{
    number.checked_mul(base)?.checked_add(digit_value(digit))
}

/// The number that the digits write, if it has 64 bits; underscores say nothing.
pub(crate) fn value_of_digits(base: u64, text: &[u8]) -> Option<u64>
    requires { 1 ≤ base }
    ensures { result ≡ within_64_bits (value_of_digits base text.now) }
{
    let mut value = 0_u64;
    let mut rest = text;
    while let [first, after @ ..] = rest {
        if *first != b'_' {
            value = with_digit(value, base, *first)?;
        }
        rest = after;
    }
    Some(value)
}

/// The number that such digits write, if it has 64 bits.
pub(crate) fn digits(base: u64, text: &[u8]) -> Option<u64>
    requires { 1 ≤ base }
    ensures { result ≡ option_and_then within_64_bits (digits_of base text.now) }
{
    if are_digits(base, text) {
        value_of_digits(base, text)
    } else {
        None
    }
}

/// The base that precedes a `#`.
fn base(text: &[u8]) -> Option<u64>
    ensures { result ≡ base_of text.now }
{
    match text {
        b"2" => Some(2),
        b"8" => Some(8),
        b"16" => Some(16),
        _ => None,
    }
}

/// The value of a number without a sign, if it has 64 bits.
fn unsigned_number(text: &[u8]) -> Option<u64>
    ensures { result ≡ option_and_then within_64_bits (unsigned_of text.now) }
{
    match cut_at(text, b'#') {
        Some((before, after)) => match base(before) {
            Some(base) if base >= 1 => digits(base, after),
            _ => None,
        },
        None => digits(10, text),
    }
}

/// The number of that size and sign, if it has 32 bits.
pub(crate) fn signed_number(negative: bool, size: u64) -> Option<i32>
    ensures { result ≡ within_32_bits (if negative then neg_ℤ (pos size) else pos size) }
{
    if size < 1 << 31 {
        let number = size as i32;
        Some(if negative { -number } else { number })
    } else if negative && size == 1 << 31 {
        Some(i32::MIN)
    } else {
        None
    }
}

/// The number of that size and sign, if there is one and it has 32 bits.
pub(crate) fn number_in_32_bits(negative: bool, size: Option<u64>) -> Option<i32>
    ensures { result
        ≡ option_and_then
        (λ number. within_32_bits (if negative then neg_ℤ (pos number) else pos number)) size }
{
    signed_number(negative, size?)
}

/// The value of a whole-number literal.
pub(crate) fn whole_number(text: &[u8]) -> Option<i32>
    ensures { result ≡ whole_number_of text.now }
{
    if begins_with(text, b'-') {
        number_in_32_bits(true, digits(10, following_first(text)))
    } else if begins_with(text, b'+') {
        number_in_32_bits(false, digits(10, following_first(text)))
    } else {
        number_in_32_bits(false, unsigned_number(text))
    }
}
