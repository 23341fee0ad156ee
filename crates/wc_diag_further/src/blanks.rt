ghost use Rattle.std.specs.Prelude.{◌≡◌, map};
ghost use Rattle.wc_diag_further.specs.Further.{IsMended, blank_of};

use crate::marks::{Mark, Marks};

/// Bytes that are taken out: the first, counted from 0, and their number, the lines of the first and the last, and what they are.
#[derive(Clone, Copy)]
pub(crate) struct Blank {
    pub(crate) place: (usize, usize),
    pub(crate) lines: (u32, u32),
    pub(crate) mark: Mark,
}

/// Writes spaces over all bytes but line feeds.
fn blank_all(text: &mut [u8])
    ensures { text.new ≡ map blank_of text.old }
{
    for byte in text.iter_mut() {
        *byte = if *byte == b'\n' { b'\n' } else { b' ' };
    }
}

/// Takes these bytes out of a text.
fn write_blank(text: &mut [u8], blank: Blank)
    ensures { IsMended text.old text.new }
{
    let start = blank.place.0.min(text.len());
    let (_, rest) = text.split_at_mut(start);
    let length = blank.place.1.min(rest.len());
    let (slice, _) = rest.split_at_mut(length);
    blank_all(slice);
}

/// Takes all of these bytes out of a text.
pub(crate) fn blank_each(text: &mut [u8], blanks: &[Blank])
    ensures { IsMended text.old text.new }
{
    for some in blanks {
        write_blank(text, *some);
    }
}

/// Marks the lines of all of these bytes.
pub(crate) fn mark_each(broken: &mut Marks, blanks: &[Blank]) {
    for some in blanks {
        broken.set_all(some.lines.0, some.lines.1, some.mark);
    }
}
