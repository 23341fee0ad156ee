ghost use Rattle.std.specs.Prelude.{◌≡◌, ◌≤◌, ◌<◌, ◌-◌, ◌==◌, IfSome, MatchOption, count_by, length, option_map, slice_index, Some};
ghost use Rattle.std.specs.List.{position_or_len};
ghost use Rattle.wc_diag_spans.specs.Lines.{AreLinesAbove, HasBelow, IsOneLine, column_at, line_of_number, without_return};

use memchr::{memchr, memchr_iter, memrchr};
use wc_diag_stops::{following, prefix};

/// The number of bytes before the first line feed.
pub(crate) fn line_length(text: &[u8]) -> usize
    ensures first { result ≡ position_or_len (λ byte. byte == 10) text.now }
    ensures within { result ≤ length text.now }
{
    // An empty line is handled here, since a search costs more.
    if !text.is_empty() && text[0] == b'\n' {
        return 0;
    }
    match memchr(b'\n', text) {
        Some(place) => place,
        None => text.len(),
    }
}

/// A line without the CR at its end.
fn without_return(line: &[u8]) -> &[u8]
    ensures { result.now ≡ without_return line.now }
{
    if line.is_empty() {
        return line;
    }
    let last = line.len() - 1;
    if line[last] == b'\r' {
        return prefix(line, last);
    }
    line
}

/// What is below the first line, if it ends with LF.
fn below_line(text: &[u8]) -> Option<&[u8]>
    ensures { MatchOption result (IsOneLine text.now) (λ below. HasBelow text.now below.now) }
{
    let place = line_length(text);
    if place < text.len() {
        Some(following(text, place + 1))
    } else {
        None
    }
}

/// The number of bytes whose line feeds are counted together: no more than a byte can count.
const CHUNK: usize = 240;

/// The number of bytes of the whole lines in the first bytes of a text; 0 if the first line is longer.
fn lines_size(text: &[u8]) -> usize
    ensures ends { 0 < result → slice_index text.now (result - 1) ≡ 10 }
    ensures within { result ≤ length text.now }
    ensures few { result ≤ 240 }
{
    match memrchr(b'\n', prefix(text, CHUNK)) {
        Some(last) => last + 1,
        None => 0,
    }
}

/// The number of line feeds. It is counted in a byte, and the loop has no branch inside, so that the compiler counts those of
/// sixteen bytes at once.
fn line_feeds(text: &[u8]) -> usize
    requires { length text.now ≤ 240 }
    ensures counted { result ≡ count_by (λ byte. byte == 10) text.now }
    ensures within { result ≤ length text.now }
{
    let mut feeds = 0_u8;
    for index in 0..text.len() {
        feeds += u8::from(text[index] == b'\n');
    }
    usize::from(feeds)
}

/// The number of the whole lines in the first bytes, if there are some and no more than `most`, and what is below them.
fn pass_first_lines(text: &[u8], most: usize) -> Option<(usize, &[u8])>
    ensures above { IfSome result (λ found. AreLinesAbove text.now found.0 found.1.now) }
    ensures few { IfSome result (λ found. found.0 ≤ most) }
{
    let size = lines_size(text);
    let count = line_feeds(prefix(text, size));
    if size == 0 || count > most {
        return None;
    }
    Some((count, following(text, size)))
}

/// Passes lines many at a time, at most that number: how many, and what is below them.
fn pass_lines(text: &[u8], most: usize) -> (usize, &[u8])
    ensures above { AreLinesAbove text.now result.0 result.1.now }
    ensures few { result.0 ≤ most }
{
    let (mut passed, mut rest) = (0, text);
    for _chunk in 0..text.len() {
        match pass_first_lines(rest, most - passed) {
            Some((count, below)) => {
                passed += count;
                rest = below;
            }
            None => return (passed, rest),
        }
    }
    (passed, rest)
}

/// The line of that number, counted from 1, without its end; `None` if the text has none.
pub fn line_at(text: &[u8], number: u32) -> Option<&[u8]>
    ensures { option_map (λ line. line.now) result ≡ line_of_number number text.now }
{
    if number == 0 {
        return None;
    }
    let above = number as usize - 1;
    let (passed, mut rest) = pass_lines(text, above);
    for _passed in passed..above {
        match below_line(rest) {
            Some(below) => rest = below,
            None => return None,
        }
    }
    Some(without_return(prefix(rest, line_length(rest))))
}

/// The number of bytes of its line before a place.
pub fn column_at(text: &[u8], place: usize) -> usize
    ensures { result ≡ column_at text.now place }
{
    let above = prefix(text, place);
    for count in 0..above.len() {
        if above[above.len() - count - 1] == b'\n' {
            return count;
        }
    }
    above.len()
}

/// The number of the line that a place is on, counted from 1.
pub(crate) fn line_of(text: &[u8], place: usize) -> u32 {
    let feeds = memchr_iter(b'\n', prefix(text, place)).count();
    feeds.saturating_add(1).min(1048577) as u32
}
