ghost use Rattle.std.specs.Prelude.{◌≡◌, ◌≤◌, ◌+◌, ◌*◌, ◌-◌, slice_index};
ghost use Rattle.wc_diag_texts.specs.Plain.{acting_length, four_act, is_acting, three_act, two_act};

/// Whether a terminal or an editor acts on the character of that number above ASCII, or it is not seen: a control character, an
/// end of a line, and each with Unicode's property Default_Ignorable_Code_Point, as those that turn the direction of writing.
fn is_acting(code: u32) -> bool
    ensures { result ≡ is_acting code }
{
    matches!(
        code,
        0x80..=0x9F | 0xAD | 0x34F | 0x61C | 0x115F..=0x1160 | 0x17B4..=0x17B5 | 0x180B..=0x180F
            | 0x200B..=0x200F | 0x2028..=0x202E | 0x2060..=0x206F | 0x3164 | 0xFE00..=0xFE0F | 0xFEFF
            | 0xFFA0 | 0xFFF0..=0xFFF8 | 0x1BCA0..=0x1BCA3 | 0x1D173..=0x1D17A | 0xE0000..=0xE0FFF
    )
}

/// The number of a character with one byte more.
fn with_byte(number: u32, byte: u8) -> u32
    requires { number ≤ 4194303 }
    ensures number { result ≡ number * 64 + (byte - 128) }
    ensures within { result ≤ number * 64 + 127 }
{
    number * 64 + u32::from(byte.saturating_sub(0x80))
}

/// Whether these two bytes are such a character.
fn two_act(first: u8, second: u8) -> bool
    ensures { result ≡ two_act first second }
{
    let lead = u32::from(first.saturating_sub(0xC0));
    let code = with_byte(lead, second);
    matches!((first, second), (0xC2..=0xDF, 0x80..=0xBF)) && is_acting(code)
}

/// Whether these three bytes are such a character.
fn three_act(first: u8, second: u8, third: u8) -> bool
    ensures { result ≡ three_act first second third }
{
    let lead = u32::from(first.saturating_sub(0xE0));
    let code = with_byte(with_byte(lead, second), third);
    matches!((first, second), (0xE0..=0xEF, 0x80..=0xBF))
        && matches!(third, 0x80..=0xBF)
        && code >= 0x800
        && is_acting(code)
}

/// Whether these four bytes are such a character.
fn four_act(first: u8, second: u8, third: u8, fourth: u8) -> bool
    ensures { result ≡ four_act first second third fourth }
{
    let lead = u32::from(first.saturating_sub(0xF0));
    let code = with_byte(with_byte(with_byte(lead, second), third), fourth);
    matches!((first, second), (0xF0..=0xF4, 0x80..=0xBF))
        && matches!((third, fourth), (0x80..=0xBF, 0x80..=0xBF))
        && code >= 0x10000
        && is_acting(code)
}

/// The byte of a text at a place, 0 after its end.
fn byte_at(text: &[u8], place: usize) -> u8
    ensures { result ≡ slice_index text.now place }
{
    text.get(place).map_or(0, |byte| *byte)
}

/// The number of bytes of the character at the start of a UTF-8 text if a terminal or an editor would act on it, or it is not seen,
/// and it is not ASCII; else 0.
pub fn hidden_length(text: &[u8]) -> usize
    ensures { result ≡ acting_length text.now }
{
    let (first, second) = (byte_at(text, 0), byte_at(text, 1));
    let (third, fourth) = (byte_at(text, 2), byte_at(text, 3));
    if two_act(first, second) {
        2
    } else if three_act(first, second, third) {
        3
    } else if four_act(first, second, third, fourth) {
        4
    } else {
        0
    }
}
