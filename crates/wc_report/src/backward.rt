// A text that is put together from its end: what is there so far are the bytes of the buffer from a place on.
ghost use Rattle.std.specs.Prelude.{◌≡◌, ◌≤◌, ◌+◌, ◌∷◌, ◌++◌, length, decimal, drop};
ghost use Rattle.std.specs.Fmt.{signed_decimal};
ghost use Rattle.wc_model.specs.Run.Hex.{hex_of_word};

use itoa::write_digits;

/// Puts a byte before the text, and returns where the text then starts.
pub(crate) fn put_byte(byte: u8, buffer: &mut [u8], end: usize) -> usize
    requires { (1 ≤ end) × (end ≤ length buffer.old) }
    ensures start { result + 1 ≡ end }
    ensures text { drop result buffer.new ≡ byte ∷ drop end buffer.old }
{
    let start = end - 1;
    buffer[start] = byte;
    start
}

/// Puts a number in decimal digits before the text, and a space before it, and returns where the text then starts.
#[tactic(auto, using(crate::proofs::Digits::short_decimal))]
pub(crate) fn put_number(number: u64, buffer: &mut [u8], end: usize) -> usize
    requires { (21 ≤ end) × (end ≤ length buffer.old) }
    ensures start { (result ≤ end) × (end ≤ result + 21) }
    ensures text { drop result buffer.new ≡ 32 ∷ (decimal number ++ drop end buffer.old) }
{
    let start = write_digits(number, buffer, end);
    put_byte(b' ', buffer, start)
}

/// Puts a number that may be negative before the text, and a space before it, and returns where the text then starts.
#[tactic(auto, using(crate::proofs::Digits::short_decimal))]
pub(crate) fn put_signed(number: &i32, buffer: &mut [u8], end: usize) -> usize
    requires { (22 ≤ end) × (end ≤ length buffer.old) }
    ensures start { (result ≤ end) × (end ≤ result + 22) }
    ensures text { drop result buffer.new ≡ 32 ∷ (signed_decimal number.now
        ++ drop end buffer.old) }
{
    let start = write_digits(u64::from(number.unsigned_abs()), buffer, end);
    if *number < 0 {
        let sign = put_byte(b'-', buffer, start);
        return put_byte(b' ', buffer, sign);
    }
    put_byte(b' ', buffer, start)
}

/// The four hexadecimal digits of a word, its high byte first.
fn word_digits(word: u16) -> [u8; 4]
    ensures { result ≡ hex_of_word word }
{
    let mut digits = [0; 4];
    let _whole = hex::encode_to_slice(word.to_be_bytes(), &mut digits);
    digits
}

/// Puts the four hexadecimal digits of a word before the text, and a space before them, and returns where the text then starts.
pub(crate) fn put_word(word: u16, buffer: &mut [u8], end: usize) -> usize
    requires { (5 ≤ end) × (end ≤ length buffer.old) }
    ensures start { result + 5 ≡ end }
    ensures text { drop result buffer.new ≡ 32 ∷ (hex_of_word word ++ drop end buffer.old) }
{
    let [first, second, third, fourth] = word_digits(word);
    let at = put_byte(fourth, buffer, end);
    let at = put_byte(third, buffer, at);
    let at = put_byte(second, buffer, at);
    let at = put_byte(first, buffer, at);
    put_byte(b' ', buffer, at)
}
