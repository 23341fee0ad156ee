ghost use Rattle.std.specs.Prelude.{◌≡◌, ◌≤◌, length, take};
ghost use Rattle.std.specs.Char.{to_ascii_lowercase};
ghost use Rattle.std.specs.Cmp.{partial_equiv_from_equiv};
ghost use Rattle.wc_model.specs.Definitions.{same_name, name_of};
ghost use Rattle.wc_names.specs.Keys.{caseless, fed_name, mix, name_number, name_of_key, same_key, same_key_fed, same_key_laws, word_of};

use std::hash::{Hash, Hasher};

/// A name as a key of a map or a set. It borrows the text; names are compared without regard to letter case.
#[derive(Clone, Copy)]
pub struct Key<'a> {
    /// As it is spelled.
    pub text: &'a [u8],
}

/// Whether two spellings are one name. Most are spelled alike, which takes several bytes at once.
fn same_name(a: &[u8], b: &[u8]) -> bool
    ensures { result ≡ same_name (name_of a.now) (name_of b.now) }
{
    a == b || a.eq_ignore_ascii_case(b)
}

/// A byte as it is hashed: a letter is the same in either case.
fn caseless(byte: u8) -> u8
    ensures { result ≡ caseless (to_ascii_lowercase byte) }
{
    byte | 32
}

/// A number with one word more. It is turned, so that the last bytes of words count for all that follow.
fn mix(number: u64, word: u64) -> u64
    ensures { result ≡ mix number word }
{
    (number ^ word)
        .wrapping_mul(0x9e3779b97f4a7c15)
        .rotate_left(26)
}

/// The first eight bytes of a text as one word.
fn first_word(text: &[u8]) -> u64
    requires { 8 ≤ length text.now }
    ensures { result ≡ word_of (take 8 (name_of text.now)) }
{
    let Some(word) = text.first_chunk::<8>() else {
        return 0;
    };
    u64::from_le_bytes([
        caseless(word[0]),
        caseless(word[1]),
        caseless(word[2]),
        caseless(word[3]),
        caseless(word[4]),
        caseless(word[5]),
        caseless(word[6]),
        caseless(word[7]),
    ])
}

/// The number of a name, without regard to letter case: what is hashed of it. Eight bytes are one word, and each of the
/// last ones is one.
fn name_number(text: &[u8]) -> u64
    ensures { result ≡ name_number (name_of text.now) }
{
    let mut number = 0xcbf29ce484222325_u64;
    let mut at = 0_usize;
    while at < text.len() {
        if text.len() - at < 8 {
            number = mix(number, u64::from(caseless(text[at])));
            at += 1;
        } else {
            number = mix(number, first_word(&text[at..]));
            at += 8;
        }
    }
    number
}

impl<'a> PartialEq for Key<'a> {
    ghost eq = { same_key };

    ghost laws = { partial_equiv_from_equiv same_key_laws };

    fn eq(&self, other: &Key<'a>) -> bool {
        same_name(other.text, self.text)
    }
}

impl<'a> Eq for Key<'a> {
    ghost laws = { same_key_laws };
}

impl<'a> Hash for Key<'a> {
    ghost hash_input = { λ key. fed_name (name_of_key key) };

    ghost respects_eq = { same_key_fed };

    fn hash<H: Hasher>(&self, state: &mut H) {
        state.write_u64(name_number(self.text));
    }
}
