ghost use Rattle.std.specs.Prelude.{◌≡◌, ◌≤◌, count_by, if◌then◌else◌, length};
ghost use Rattle.wc_laws_grammar.specs.Sights.{opens_comment, starts_space};
ghost use Rattle.wc_model.specs.Definitions.{from_bracket, starts_with_bracket, begins, is_line_feed};

use memchr::{memchr_iter, memchr2};

/// A comment opens here.
pub(crate) fn opens_comment(text: &[u8]) -> bool
    ensures { result ≡ opens_comment text.now }
{
    matches!(text, [b'(', b'*', ..])
}

/// A space, a tab, or a CR before LF is here.
pub(crate) fn starts_space(text: &[u8]) -> bool
    ensures { result ≡ starts_space text.now }
{
    matches!(text, [b' ' | b'\t', ..] | [b'\r', b'\n', ..])
}

/// What opens or closes a comment is here.
fn starts_with_bracket(text: &[u8]) -> bool
    ensures { result ≡ starts_with_bracket text.now }
{
    text.starts_with(b"(*") || text.starts_with(b"*)")
}

/// What is left from the first byte on that may begin a `(*` or a `*)`.
fn from_bracket_byte(text: &[u8]) -> &[u8]
    ensures kept { from_bracket result.now ≡ from_bracket text.now }
    ensures within { length result.now ≤ length text.now }
{
    if let [b'(' | b'*', ..] = text {
        return text;
    }
    let place = match memchr2(b'(', b'*', text) {
        Some(place) => place,
        None => text.len(),
    };
    let (_, rest) = text.split_at(place);
    rest
}

/// What is left from the first `(*` or `*)` on.
pub(crate) fn from_bracket(text: &[u8]) -> &[u8]
    ensures { result.now ≡ from_bracket text.now }
{
    let mut rest = text;
    while let [_, after @ ..] = rest {
        if starts_with_bracket(rest) {
            return rest;
        }
        rest = from_bracket_byte(after);
    }
    rest
}

/// The number of line feeds at the start, 1 or none.
#[inline(always)]
pub(crate) fn first_feeds(text: &[u8]) -> usize
    ensures { result ≡ (if begins is_line_feed text.now then 1 else 0) }
{
    match text {
        [b'\n', ..] => 1,
        _ => 0,
    }
}

/// The number of line feeds the text has.
pub(crate) fn line_feeds(text: &[u8]) -> usize
    ensures counted { result ≡ count_by is_line_feed text.now }
    ensures within { result ≤ length text.now }
{
    memchr_iter(b'\n', text).count()
}
