ghost use Rattle.std.specs.Prelude.{◌≡◌, ◌≤◌, ◌+◌, ◌∷◌, IfSome, length, true};
ghost use Rattle.std.specs.Char.{is_ascii_digit};
ghost use Rattle.wc_lexer.specs.Numbers.{IsPlain, IsUnsigned};
ghost use Rattle.wc_model.specs.Text.Characters.{begins};

use crate::characters::is_number_character;
use crate::numbers::{is_digit, with_digit};

/// More digits are not read so.
const MOST_DIGITS: usize = 16;

/// How many digits of that base are at the start, and what they write, if no other character of a
/// number follows them.
#[inline(always)]
fn plain_digits(base: u64, text: &[u8]) -> Option<(usize, u64)>
    requires { base ≤ 36 }
    ensures plain { IfSome result (λ digits. IsPlain base text.now digits.0 digits.1) }
    ensures within { IfSome result (λ digits. digits.0 ≤ length text.now) }
{
    let mut count = 0;
    let mut value = 0_u64;
    let mut rest = text;
    while let [first, after @ ..] = rest {
        if !is_digit(*first, base) {
            if is_number_character(*first) {
                return None;
            }
            return Some((count, value));
        }
        if count == MOST_DIGITS {
            return None;
        }
        let Some(next) = with_digit(value, base, *first) else {
            return None;
        };
        value = next;
        count += 1;
        rest = after;
    }
    Some((count, value))
}

/// How many characters a number has whose hexadecimal digits follow a `16#`, and which it is.
#[inline(always)]
fn hexadecimal(digits: &[u8]) -> Option<(usize, u64)>
    ensures read { IfSome result
        (λ number. IsUnsigned (49 ∷ 54 ∷ 35 ∷ digits.now) number.0 number.1) }
    ensures within { IfSome result (λ number. number.0 ≤ length digits.now + 3) }
{
    let Some((count, size)) = plain_digits(16, digits) else {
        return None;
    };
    if count == 0 {
        return None;
    }
    Some((count + 3, size))
}

/// How many characters the number without a sign has that is here, and which it is, if it is plain:
/// decimal digits alone, or hexadecimal ones after a `16#`.
#[inline(always)]
pub(crate) fn plain_number(text: &[u8]) -> Option<(usize, u64)>
    requires { begins is_ascii_digit text.now ≡ true }
    ensures read { IfSome result (λ number. IsUnsigned text.now number.0 number.1) }
    ensures within { IfSome result (λ number. number.0 ≤ length text.now) }
{
    match text {
        [b'1', b'6', b'#', digits @ ..] => hexadecimal(digits),
        _ => plain_digits(10, text),
    }
}
