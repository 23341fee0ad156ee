ghost use Rattle.std.specs.Prelude.{◌≡◌, ◌++◌, IsOkUnless, OnOk, decimal};
ghost use Rattle.wc_view_trace_rows.specs.Scans.{heading, none_chosen, steps_line};
ghost use Rattle.wc_view_changes.specs.Shown.{Puts};

use wc_model::{Fault, put_bytes};
use wc_report::put_number;

/// Puts a number between two texts.
fn put_between(text: &mut Vec<u8>, before: &[u8], number: u64, after: &[u8]) -> Result<(), Fault>
    ensures { Puts text.old text.new result (before.now ++ (decimal number ++ after.now)) }
{
    put_bytes(text, before)?;
    put_number(text, number)?;
    put_bytes(text, after)
}

/// Puts the heading of a scan: its number among those of the run, from 1, its moment in milliseconds, and whether the next program
/// has replaced the first. `Memory` is the only fault.
pub(crate) fn put_heading(
    text: &mut Vec<u8>,
    number: u32,
    ms: u64,
    is_changed: bool,
) -> Result<(), Fault>
    ensures { Puts text.old text.new result (heading number ms is_changed) }
{
    put_between(text, b"scan ", u64::from(number), b" at ")?;
    if is_changed {
        return put_between(text, b"", ms, b" ms, next program\n");
    }
    put_between(text, b"", ms, b" ms\n")
}

/// Puts that none of the scans was chosen, of which there are that many. `Memory` is the only fault.
pub fn put_none_chosen(text: &mut Vec<u8>, scans: u32) -> Result<(), Fault>
    ensures puts { OnOk result (text.new.items ≡ text.old.items ++ none_chosen scans) }
    ensures memory { IsOkUnless result Fault.Memory }
{
    if scans == 0 {
        return put_bytes(text, b"the log has no scan\n");
    }
    put_between(text, b"none of ", u64::from(scans), b" scans is chosen\n")
}

/// Puts the number of steps a scan took, and the most that one takes. `Memory` is the only fault.
pub(crate) fn put_steps(text: &mut Vec<u8>, steps: usize, bound: u32) -> Result<(), Fault>
    ensures { Puts text.old text.new result (steps_line steps bound) }
{
    put_between(text, b"steps ", steps as u64, b" of at most ")?;
    put_between(text, b"", u64::from(bound), b"\n")
}
