ghost use Rattle.std.specs.Prelude.{◌≡◌, ◌≤◌, ◌≤ℤ◌, ◌<◌, ◌^◌, ◌-◌, length, map, if◌then◌else◌, nat_lt, true, Some, None, IfOk, IfSome};
ghost use Rattle.std.specs.Char.{is_ascii_digit};
ghost use Rattle.std.specs.Int.Digits.{number_from_digits};
ghost use Rattle.std.specs.List.{list_all};
ghost use Rattle.wc_model.specs.Definitions.{least_sample, greatest_sample, number_within, moment_of, whole_of, counts_of, line_chunk_of, inputs_word_of};

use std::alloc::AllocError;
use wc_model::{GREATEST_COUNTS, LAST_MOMENT, LEAST_COUNTS};

/// The value of a byte as a digit, 10 or more if it is none. It is computed in the width of the number that it is added to, so
/// that the byte is extended once.
#[inline(always)]
fn digit_value(byte: u8) -> u64
    ensures digit { nat_lt result 10 ≡ is_ascii_digit byte }
    ensures value { result < 10 → result ≡ byte - 48 }
{
    u64::from(byte).wrapping_sub(48)
}

/// The number that at most thirteen digits write, and none if a byte is not a digit.
#[inline(always)]
fn value_of_digits(text: &[u8]) -> Option<u64>
    requires { length text.now ≤ 13 }
    ensures value { result
        ≡ (if list_all is_ascii_digit text.now
        then Some (number_from_digits 10 (map (λ digit. digit - 48) text.now)) else None) }
    ensures few { IfSome result (λ number. number < 10 ^ length text.now) }
{
    let mut value = 0_u64;
    let mut rest = text;
    while let [first, after @ ..] = rest {
        let digit = digit_value(*first);
        if digit >= 10 {
            return None;
        }
        value = value * 10 + digit;
        rest = after;
    }
    Some(value)
}

/// The number that 1 to n digits write.
#[tactic(auto, using(crate::proofs::DigitValues::ten_rises))]
#[inline(always)]
fn number_within(most: usize, text: &[u8]) -> Option<u64>
    requires { most ≤ 13 }
    ensures value { result ≡ number_within most text.now }
    ensures few { IfSome result (λ number. number < 10 ^ most) }
{
    if text.is_empty() || text.len() > most {
        return None;
    }
    value_of_digits(text)
}

/// The moment of a row: 1 to 13 digits, below 2^40.
#[inline(always)]
pub(crate) fn moment(text: &[u8]) -> Option<u64>
    ensures { result ≡ moment_of text.now }
{
    match number_within(13, text) {
        Some(ms) if ms <= LAST_MOMENT => Some(ms),
        _ => None,
    }
}

/// A whole number: 1 to 10 digits, with `-` before them if it is negative.
#[inline(always)]
fn whole(text: &[u8]) -> Option<i64>
    ensures { result ≡ whole_of text.now }
{
    let [first, rest @ ..] = text else {
        return None;
    };
    if *first == b'-' {
        Some(-(number_within(10, rest)? as i64))
    } else {
        Some(number_within(10, text)? as i64)
    }
}

/// Counts: a whole number in the range of a sample.
#[inline(always)]
pub(crate) fn counts(text: &[u8]) -> Option<i32>
    ensures value { result ≡ counts_of text.now }
    ensures range { IfSome result
        (λ counts. (least_sample ≤ℤ counts) × (counts ≤ℤ greatest_sample)) }
{
    let (least, greatest) = (i64::from(LEAST_COUNTS), i64::from(GREATEST_COUNTS));
    match whole(text) {
        Some(counts) if counts >= least && counts <= greatest => Some(counts as i32),
        _ => None,
    }
}

/// Puts the line bytes that a text of hexadecimal digits writes into the buffer, if it writes at
/// most 4096: whether it does. No memory is taken if the buffer is large enough.
#[inline(never)]
pub(crate) fn line_chunk(buffer: &mut Vec<u8>, text: &[u8]) -> Result<bool, AllocError>
    ensures chunk { IfOk result
        (λ found. (if found then Some buffer.new.items else None) ≡ line_chunk_of text.now) }
    ensures few { IfOk result (λ found. found ≡ true → length buffer.new.items ≤ 4096) }
{
    if text.len() > 8192 {
        return Ok(false);
    }
    buffer.resize(text.len() / 2, 0)?;
    match hex::decode_to_slice(text, buffer.as_mut_slice()) {
        Ok(()) => Ok(true),
        Err(_) => Ok(false),
    }
}

/// The inputs that four hexadecimal digits write.
pub(crate) fn inputs_word(text: &[u8]) -> Option<u16>
    ensures { result ≡ inputs_word_of text.now }
{
    let mut word = [0; 2];
    match hex::decode_to_slice(text, &mut word) {
        Ok(()) => Some(u16::from_be_bytes(word)),
        Err(_) => None,
    }
}
