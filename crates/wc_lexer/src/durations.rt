ghost use Rattle.std.specs.Prelude.{◌≡◌, ◌^◌, ◌-◌, ◌*◌, ◌+◌, ◌∷◌, ◌<◌, ◌≤◌, ◌&&◌, ◌||◌, IfSome, if◌then◌else◌, drop, map, length, option_map, option_and_then, count_by, not};
ghost use Rattle.std.specs.Bool.{nat_le, nat_lt, then_some};
ghost use Rattle.std.specs.Char.{is_ascii_digit};
ghost use Rattle.std.specs.List.{before_first, list_all, list_any};
ghost use Rattle.std.specs.Str.Parse.{digits_value};
ghost use Rattle.wc_lexer.specs.Numbers.{IsParsedPart, IsParsedSum, are_later, parsed_fraction, within_64_bits};
ghost use Rattle.wc_model.specs.Definitions.{begins, is_empty, is_point, is_underscore, are_digits, value_of_digits, are_duration_parts, billionths, duration_of, duration_parts, milliseconds_of, parts_of, unit_named, without_separator};

use crate::numbers::{are_digits, signed_number, value_of_digits};
use crate::prefixes::{
    begins_with, cut_at, following_first, length_before, letterless_length, letters_length,
};
use wc_model::is_word;

/// A unit of time.
#[derive(Clone, Copy)]
struct TimeUnit {
    /// How long it is.
    milliseconds: u64,
    /// Below what number it counts after a greater unit.
    below: u64,
}

/// A part of a duration.
#[derive(Clone, Copy)]
struct ParsedPart {
    /// How long its unit is.
    milliseconds: u64,
    /// Below what number its unit counts after a greater one.
    below: u64,
    /// Its whole number.
    whole: u64,
    has_point: bool,
    /// How long it is, in billionths of a millisecond.
    billionths: u64,
}

/// The unit with these letters, in either case.
fn unit_named(letters: &[u8]) -> Option<TimeUnit>
    ensures named { result
        ≡ option_map (λ unit. record { milliseconds = unit.milliseconds; below = unit.below })
        (unit_named letters.now) }
    ensures positive { IfSome result (λ unit. 1 ≤ unit.milliseconds) }
{
    let (milliseconds, below) = if is_word(letters, b"d") {
        (86_400_000, 0)
    } else if is_word(letters, b"h") {
        (3_600_000, 24)
    } else if is_word(letters, b"m") {
        (60_000, 60)
    } else if is_word(letters, b"s") {
        (1_000, 60)
    } else if is_word(letters, b"ms") {
        (1, 1_000)
    } else {
        return None;
    };
    Some(TimeUnit {
        milliseconds,
        below,
    })
}

/// The number of characters the digits have, without underscores.
fn digit_count(text: &[u8]) -> usize
    ensures { result ≡ count_by (λ byte. not (is_underscore byte)) text.now }
{
    text.iter().filter(|byte| **byte != b'_').count()
}

/// The whole number of a part, if it has 64 bits.
fn whole(text: &[u8]) -> Option<u64>
    ensures { result
        ≡ option_and_then within_64_bits
        (then_some
        (are_digits 10 text.now && nat_le (count_by (λ byte. not (is_underscore byte)) text.now) 12)
        (value_of_digits 10 text.now)) }
{
    if are_digits(10, text) && digit_count(text) <= 12 {
        value_of_digits(10, text)
    } else {
        None
    }
}

/// The number of billionths the last of n digits after a point counts for.
fn last_digit_billionths(count: usize) -> u64
    requires { count ≤ 9 }
    ensures { result ≡ 10 ^ (9 - count) }
{
    match count {
        0 => 1_000_000_000,
        1 => 100_000_000,
        2 => 10_000_000,
        3 => 1_000_000,
        4 => 100_000,
        5 => 10_000,
        6 => 1_000,
        7 => 100,
        8 => 10,
        _ => 1,
    }
}

/// Digits alone.
fn has_digits_alone(text: &[u8]) -> bool
    ensures { result ≡ list_all is_ascii_digit text.now }
{
    text.iter().all(|byte| byte.is_ascii_digit())
}

/// The product, if it has 64 bits.
fn product(number: u64, times: u64) -> Option<u64>
    ensures { result ≡ within_64_bits (number * times) }
{
    number.checked_mul(times)
}

/// The sum, if it has 64 bits.
fn sum(number: u64, more: u64) -> Option<u64>
    ensures { result ≡ within_64_bits (number + more) }
{
    number.checked_add(more)
}

/// The billionths that the digits after a point write, if they have 64 bits.
fn fraction(text: &[u8]) -> Option<u64>
    ensures { result
        ≡ option_and_then within_64_bits
        (then_some
        (nat_le 1 (length text.now) && nat_le
        (length text.now) 9 && list_all is_ascii_digit text.now)
        (digits_value 10 text.now * 10 ^ (9 - length text.now))) }
{
    if 1 <= text.len() && text.len() <= 9 && has_digits_alone(text) {
        product(
            value_of_digits(10, text)?,
            last_digit_billionths(text.len()),
        )
    } else {
        None
    }
}

/// A duration's first part, as its number and its letters, and what follows it.
fn first_part(text: &[u8]) -> (&[u8], &[u8], &[u8])
    requires { 1 ≤ length text.now }
    ensures first { parts_of text.now
        ≡ record { number = result.0.now; letters = result.1.now } ∷ parts_of result.2.now }
    ensures shorter { length result.2.now < length text.now }
{
    let (number, following) = text.split_at(letterless_length(text));
    let (letters, rest) = following.split_at(letters_length(following));
    (number, letters, rest)
}

/// How long n units and billionths of one are, in billionths of a millisecond, if the
/// number has 64 bits.
fn billionths(whole: u64, fraction: u64, milliseconds: u64) -> Option<u64>
    requires { 1 ≤ milliseconds }
    ensures { result ≡ within_64_bits ((whole * 10 ^ 9 + fraction) * milliseconds) }
{
    let whole = product(whole, 1_000_000_000)?;
    let number = sum(whole, fraction)?;
    product(number, milliseconds)
}

/// The number has a point.
fn has_point(number: &[u8]) -> bool
    ensures { result ≡ list_any is_point number.now }
{
    number.iter().any(|byte| *byte == b'.')
}

/// What precedes the point, all if there is none.
fn before_point(number: &[u8]) -> &[u8]
    ensures { result.now ≡ before_first is_point number.now }
{
    let (before, _) = number.split_at(length_before(number, b'.'));
    before
}

/// The billionths after the point, none if there is no point.
fn fraction_of(number: &[u8]) -> Option<u64>
    ensures { result ≡ parsed_fraction number.now }
{
    match cut_at(number, b'.') {
        Some((_, after)) => fraction(after),
        None => Some(0),
    }
}

/// What a part says.
fn parse_duration_part(number: &[u8], letters: &[u8]) -> Option<ParsedPart>
    ensures { IsParsedPart (record { number = number.now; letters = letters.now }) result }
{
    let unit = unit_named(letters)?;
    let whole = whole(before_point(number))?;
    let fraction = fraction_of(number)?;
    let billionths = billionths(whole, fraction, unit.milliseconds)?;
    Some(ParsedPart {
        milliseconds: unit.milliseconds,
        below: unit.below,
        whole,
        has_point: has_point(number),
        billionths,
    })
}

/// The number without an underscore before it.
fn without_separator(number: &[u8]) -> &[u8]
    ensures { result.now ≡ drop (if begins is_underscore number.now then 1 else 0) number.now }
{
    match number {
        [b'_', after @ ..] => after,
        _ => number,
    }
}

/// Nothing is left.
fn is_last(rest: &[u8]) -> bool
    ensures { result ≡ is_empty rest.now }
{
    match rest {
        [] => true,
        _ => false,
    }
}

/// The part may follow a part with a unit so long.
fn may_occur_after(part: ParsedPart, above: u64, is_last: bool) -> bool
    ensures { result
        ≡
        (nat_lt part.whole part.below && nat_lt part.milliseconds above &&
        (not part.has_point || is_last)) }
{
    part.whole < part.below && part.milliseconds < above && (!part.has_point || is_last)
}

/// The first part may precede others, or is the last.
fn may_occur_first(part: ParsedPart, is_last: bool) -> bool
    ensures { result ≡ (not part.has_point || is_last) }
{
    !part.has_point || is_last
}

/// The billionths of the parts after a part with a unit so long.
fn later_billionths(text: &[u8], above: u64) -> Option<u64>
    ensures { IsParsedSum (are_later above (map without_separator (parts_of text.now)))
        (billionths (map without_separator (parts_of text.now))) result }
{
    if text.is_empty() {
        return Some(0);
    }
    let (number, letters, rest) = first_part(text);
    let first = parse_duration_part(without_separator(number), letters)?;
    if !may_occur_after(first, above, is_last(rest)) {
        return None;
    }
    sum(
        first.billionths,
        later_billionths(rest, first.milliseconds)?,
    )
}

/// The billionths of all parts.
fn all_billionths(text: &[u8]) -> Option<u64>
    ensures { IsParsedSum (are_duration_parts (duration_parts text.now))
        (billionths (duration_parts text.now)) result }
{
    if text.is_empty() {
        return None;
    }
    let (number, letters, rest) = first_part(text);
    let first = parse_duration_part(number, letters)?;
    if !may_occur_first(first, is_last(rest)) {
        return None;
    }
    sum(
        first.billionths,
        later_billionths(rest, first.milliseconds)?,
    )
}

/// The milliseconds of the parts with that sign.
fn milliseconds(negative: bool, text: &[u8]) -> Option<i32>
    ensures { result ≡ milliseconds_of negative (duration_parts text.now) }
{
    let sum = all_billionths(text)?;
    if sum % 1_000_000_000 == 0 {
        signed_number(negative, sum / 1_000_000_000)
    } else {
        None
    }
}

/// The milliseconds of a duration, as it is written after its `#`.
pub(crate) fn duration(text: &[u8]) -> Option<i32>
    ensures { result ≡ duration_of text.now }
{
    if begins_with(text, b'-') {
        milliseconds(true, following_first(text))
    } else {
        milliseconds(false, text)
    }
}
