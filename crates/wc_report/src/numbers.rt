ghost use Rattle.std.specs.Prelude.{◌≡◌, ◌*◌, ◌<◌, ◌++◌, decimal, IfOk, IsOkUnless, OnOk, length, string_bytes};
ghost use Rattle.std.specs.Char.{digit_char};
ghost use Rattle.std.specs.Fmt.{signed_decimal};
ghost use Rattle.wc_model.specs.Definitions.{hex_of_bytes, spaced_lines};

use itoa::Buffer;
use std::alloc::Global;
use wc_model::{Fault, or_memory, put_bytes};

/// Appends a number in decimal digits to a text. `Memory` is the only fault.
pub fn put_number(text: &mut Vec<u8>, number: u64) -> Result<(), Fault>
    ensures digits { OnOk result (text.new.items ≡ text.old.items ++ decimal number) }
    ensures memory { IsOkUnless result Fault.Memory }
{
    let mut buffer = Buffer::new();
    put_bytes(text, buffer.format(number).as_bytes())
}

/// Appends a number in decimal digits to a text, with a sign before it if it is negative. `Memory` is the only fault.
pub fn put_signed(text: &mut Vec<u8>, number: i64) -> Result<(), Fault>
    ensures digits { OnOk result (text.new.items ≡ text.old.items ++ signed_decimal number) }
    ensures memory { IsOkUnless result Fault.Memory }
{
    let mut signed = Buffer::new();
    put_bytes(text, signed.format(number).as_bytes())
}

/// The numbers of lines in decimal digits, each after a space. `Memory` is the only fault.
pub(crate) fn spaced_lines(alloc: Global, lines: &[u32]) -> Result<String, Fault>
    ensures lines { IfOk result (λ text. string_bytes text ≡ spaced_lines lines.now) }
    ensures memory { IsOkUnless result Fault.Memory }
{
    let mut text = String::new(alloc);
    for line in lines {
        or_memory(write!(text, " {line}"))?;
    }
    Ok(text)
}

/// The digit of a number, a small letter from ten on.
#[inline(always)]
fn digit(number: u8) -> u8
    requires { number < 16 }
    ensures { result ≡ digit_char number }
{
    if number < 10 {
        b'0' + number
    } else {
        b'a' - 10 + number
    }
}

/// Writes two digits for each of these bytes. They are computed, not looked up in a table, so that the compiler can write
/// those of sixteen bytes at once.
fn write_digits(bytes: &[u8], digits: &mut [u8])
    requires { length digits.old ≡ 2 * length bytes.now }
    ensures { digits.new ≡ hex_of_bytes bytes.now }
{
    for index in 0..bytes.len() {
        let byte = bytes[index];
        digits[2 * index] = digit(byte / 16);
        digits[2 * index + 1] = digit(byte % 16);
    }
}

/// Puts the hexadecimal digits of these bytes after a text, two small ones for each. `Memory` is the only fault; a part of the
/// digits may follow the text then.
pub fn put_hex(text: &mut Vec<u8>, bytes: &[u8]) -> Result<(), Fault>
    ensures digits { OnOk result (text.new.items ≡ text.old.items ++ hex_of_bytes bytes.now) }
    ensures memory { IsOkUnless result Fault.Memory }
{
    or_memory(text.reserve(2 * bytes.len()))?;
    let start = text.len();
    or_memory(text.resize(start + 2 * bytes.len(), 0))?;
    write_digits(bytes, text.slice_mut(start..));
    Ok(())
}
