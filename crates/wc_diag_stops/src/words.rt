ghost use Rattle.std.specs.Prelude.{◌≡◌, length, min, take, drop};
ghost use Rattle.std.specs.List.{prefix_len};
ghost use Rattle.wc_diag_stops.specs.ReadingSpans.{IsAt};
ghost use Rattle.wc_diag_stops.specs.Words.{first_word, is_word_byte};

use wc_model::is_word;

/// What comes after that number of bytes.
pub fn following(text: &[u8], start: usize) -> &[u8]
    ensures { result.now ≡ drop (min start (length text.now)) text.now }
{
    let (_, rest) = text.split_at(start.min(text.len()));
    rest
}

/// The first bytes, up to that number.
pub fn prefix(text: &[u8], end: usize) -> &[u8]
    ensures { result.now ≡ take (min end (length text.now)) text.now }
{
    let (first, _) = text.split_at(end.min(text.len()));
    first
}

/// That number of bytes, from a place on.
pub fn bytes_at(text: &[u8], start: usize, length: usize) -> &[u8]
    ensures { IsAt text.now start result.now }
{
    prefix(following(text, start), length)
}

/// The number of bytes at the start of both that are the same letters.
pub fn same_prefix(a: &[u8], b: &[u8]) -> usize {
    a.iter()
        .zip(b.iter())
        .take_while(|(a, b)| a.eq_ignore_ascii_case(b))
        .count()
}

/// The number of bytes at the end of both that are the same letters.
fn same_end(a: &[u8], b: &[u8]) -> usize {
    a.iter()
        .rev()
        .zip(b.iter().rev())
        .take_while(|(a, b)| a.eq_ignore_ascii_case(b))
        .count()
}

/// Whether the first two letters of both are the same, exchanged.
fn are_exchanged(a: &[u8], b: &[u8]) -> bool {
    match (a, b) {
        ([first, next, ..], [other, last, ..]) => {
            first.eq_ignore_ascii_case(last) && next.eq_ignore_ascii_case(other)
        }
        _ => false,
    }
}

/// How two names differ that are near, the less the nearer they are: 0, by letter case alone; 1, by two neighbours that are exchanged;
/// 2, by a letter that one of them has more; 3, by one other letter of at least three. Nothing, if they are not near.
pub fn difference(a: &[u8], b: &[u8]) -> Option<u8> {
    let (shorter, longer) = (a.len().min(b.len()), a.len().max(b.len()));
    let start = same_prefix(a, b);
    let same = start.saturating_add(same_end(a, b)).min(shorter);
    match longer.saturating_sub(same) {
        _ if shorter < 2 => None,
        0 => Some(0),
        1 if shorter < longer => Some(2),
        1 if shorter > 2 => Some(3),
        2 if a.len() == b.len() && are_exchanged(following(a, start), following(b, start)) => Some(
            1,
        ),
        _ => None,
    }
}

/// Whether two names are near.
pub fn is_near(a: &[u8], b: &[u8]) -> bool {
    difference(a, b).is_some()
}

/// Whether a text is one of these words. Letter case is not significant.
pub fn is_among(words: &[u8], text: &[u8]) -> bool {
    words
        .split(|byte| *byte == b' ')
        .any(|word| is_word(word, text))
}

/// Whether a byte is a letter, a digit or an underscore.
fn is_word_byte(byte: u8) -> bool
    ensures { result ≡ is_word_byte byte }
{
    byte.is_ascii_alphanumeric() || byte == b'_'
}

/// The number of letters, digits and underscores at the start of some bytes.
fn word_length(text: &[u8]) -> usize
    ensures { result ≡ prefix_len is_word_byte text.now }
{
    text.iter().take_while(|byte| is_word_byte(**byte)).count()
}

/// The first word of some bytes, after white space.
pub fn first_word(text: &[u8]) -> &[u8]
    ensures { result.now ≡ first_word text.now }
{
    let text = text.trim_ascii_start();
    prefix(text, word_length(text))
}
