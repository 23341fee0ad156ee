ghost use Rattle.std.specs.Prelude.{◌≡◌, ◌<◌, ◌∷◌, [], length, slice_index, option_map, is_some, IfSome, bytes_eq};
ghost use Rattle.std.specs.Char.{to_ascii_lowercase};
ghost use Rattle.std.specs.List.{list_any};
ghost use Rattle.wc_model.specs.Definitions.{numeral, spellings, variable_at, name_of};
ghost use Rattle.wc_built_in.specs.Fields.{direct_at, first_variable, only_number};

/// Whether a text is `%`, the letter, X or not, the byte, a point and the bit.
fn is_bit(text: &[u8], letter: u8, byte: u8, bit: u8) -> bool
    requires { bit < 16 }
    ensures { result
        ≡ list_any (bytes_eq (name_of text.now))
        ((37 ∷ to_ascii_lowercase letter ∷ 120 ∷ to_ascii_lowercase byte ∷ 46 ∷ numeral bit) ∷
        (37 ∷ to_ascii_lowercase letter ∷ to_ascii_lowercase byte ∷ 46 ∷ numeral bit) ∷ []) }
{
    if bit < 10 {
        text.eq_ignore_ascii_case(&[b'%', letter, b'X', byte, b'.', b'0' + bit])
            || text.eq_ignore_ascii_case(&[b'%', letter, byte, b'.', b'0' + bit])
    } else {
        text.eq_ignore_ascii_case(&[b'%', letter, b'X', byte, b'.', b'1', b'0' + (bit - 10)])
            || text.eq_ignore_ascii_case(&[b'%', letter, byte, b'.', b'1', b'0' + (bit - 10)])
    }
}

/// Whether a text is the address of the directly represented variable of that number, in the order of a program's
/// frame.
fn is_address(text: &[u8], number: u8) -> bool
    requires { number < 45 }
    ensures { result ≡ list_any (bytes_eq (name_of text.now)) (spellings (direct_at number)) }
{
    if number < 16 {
        is_bit(text, b'I', b'0', number)
    } else if number < 22 {
        is_bit(text, b'I', b'1', number - 16)
    } else if number < 25 {
        text.eq_ignore_ascii_case(&[b'%', b'I', b'D', b'0' + (number - 22)])
    } else if number < 41 {
        is_bit(text, b'Q', b'0', number - 25)
    } else {
        text.eq_ignore_ascii_case(&[b'%', b'Q', b'D', b'0' + (number - 41)])
    }
}

/// The byte at a place, as a small letter.
fn small_at(text: &[u8], place: usize) -> u8
    requires { place < length text.now }
    ensures { result ≡ slice_index (name_of text.now) place }
{
    text[place].to_ascii_lowercase()
}

/// The number of the first variable whose address has these three after its `%`.
fn first_variable(letter: u8, kind: u8, byte: u8) -> u8
    ensures first { result ≡ first_variable letter kind byte }
    ensures small { result < 42 }
{
    match (letter == b'i', kind == b'd') {
        (true, true) => 22,
        (true, false) if kind == b'1' || byte == b'1' => 16,
        (true, false) => 0,
        (false, true) => 41,
        (false, false) => 25,
    }
}

/// The only number that a text can have as an address: of its first variable, and of one digit or two. A text that is
/// not an address may give any.
fn only_number(text: &[u8]) -> u8
    ensures { result ≡ only_number (name_of text.now) }
{
    let length = text.len();
    if length < 4 {
        return 45;
    }
    let first = first_variable(small_at(text, 1), small_at(text, 2), small_at(text, 3));
    let tens = if small_at(text, length - 2) == b'1' {
        10
    } else {
        0
    };
    first + tens + small_at(text, length - 1) % 16
}

/// The number of the directly represented variable that an address names, in the order of a program's frame.
pub fn variable_at(text: &[u8]) -> Option<u8>
    ensures variable { option_map direct_at result ≡ variable_at (name_of text.now) }
    ensures small { IfSome result (λ number. number < 45) }
    ensures found { is_some result ≡ is_some (variable_at (name_of text.now)) }
{
    let number = only_number(text);
    if number < 45 && is_address(text, number) {
        Some(number)
    } else {
        None
    }
}
