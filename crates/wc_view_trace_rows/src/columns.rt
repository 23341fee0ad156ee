ghost use Rattle.std.specs.Prelude.{◌≡◌, ◌-◌, drop, length, decimal};
ghost use Rattle.wc_view_trace_rows.specs.Columns.{prefix, gap, spaces};
ghost use Rattle.wc_view_changes.specs.Shown.{Puts};

use crate::shown::{bytes_from, put_line};
use wc_diag_texts::characters;
use wc_model::{Fault, put_bytes};
use wc_report::put_number;

/// The column at which the result of a row starts, counted from 0.
pub(crate) const RESULT: usize = 44;

/// The number of columns of a line number.
const NUMBER: usize = 6;

/// Puts that many spaces.
fn put_spaces(text: &mut Vec<u8>, count: usize) -> Result<(), Fault>
    ensures { Puts text.old text.new result (spaces count) }
{
    for _space in 0..count {
        put_bytes(text, b" ")?;
    }
    Ok(())
}

/// Puts spaces up to a column of the row that starts there, and two at least. `Memory` is the only fault.
pub(crate) fn put_gap(text: &mut Vec<u8>, start: usize, column: usize) -> Result<(), Fault>
    ensures { Puts text.old text.new result (gap column (drop start text.old.items)) }
{
    let there = characters(bytes_from(text, start));
    put_spaces(text, column.saturating_sub(there).max(2))
}

/// The number of spaces before a number in six columns.
fn spaces_before(number: u32) -> usize
    ensures { result ≡ 6 - length (decimal number) }
{
    match number {
        0..10 => 5,
        10..100 => 4,
        100..1_000 => 3,
        1_000..10_000 => 2,
        10_000..100_000 => 1,
        _ => 0,
    }
}

/// Puts the start of a row: the number of the line and its text, or spaces for a part of a call. What a block of the text executes
/// is two columns further right for each call, 8 at most. `Memory` is the only fault.
pub(crate) fn put_place(
    text: &mut Vec<u8>,
    number: Option<u32>,
    depth: u32,
    line: &[u8],
) -> Result<(), Fault>
    ensures { Puts text.old text.new result (prefix number depth line.now) }
{
    let indent = 2 + 2 * depth.min(8) as usize;
    let Some(number) = number else {
        return put_spaces(text, NUMBER + indent);
    };
    put_spaces(text, spaces_before(number))?;
    put_number(text, u64::from(number))?;
    put_spaces(text, indent)?;
    let columns = RESULT.saturating_sub(NUMBER + indent + 2);
    put_line(text, line, columns)
}
