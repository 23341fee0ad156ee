ghost use Rattle.std.specs.Prelude.{◌≡◌, ◌≤◌, ◌++◌, ◌∷◌, [], IsOkUnless, OnOk, drop, length, take};
ghost use Rattle.wc_view_trace_rows.specs.Columns.{result_column, with_cell, written_column};
ghost use Rattle.wc_view_trace_rows.specs.Rows.{has_written, is_argument, is_part, output_text, output_view, outputs_shown, result_cell, row_of, written_cell, written_text};
ghost use Rattle.wc_view_trace_rows.specs.Scans.{AreRows, PutsScan};
ghost use Rattle.wc_view_changes.specs.Shown.{Puts};

use crate::columns::{RESULT, put_gap, put_place};
use crate::item::Item;
use crate::items::Items;
use crate::legend::Legend;
use crate::outputs::{BlockOutput, outputs_of, value_of};
use crate::shown_scan::ShownScan;
use crate::steps::{put_heading, put_steps};
use std::alloc::Global;
use wc_machine::{Machine, SeenLine};
use wc_model::{Code, Fault, put_bytes};
use wc_store::SlotStore;
use wc_view_changes::put_value;

/// The column at which what a row writes starts, counted from 0.
const WRITTEN: usize = 58;

/// Whether a flat line is an item of a call's list.
pub fn is_argument(line: &Code) -> bool
    ensures { result ≡ is_argument line.now }
{
    matches!(
        line,
        Code::ArgumentNumber { .. } | Code::ArgumentPlace { .. }
    )
}

/// Whether a flat line is a part of a call, and no line of a body itself.
fn is_part(line: &Code) -> bool
    ensures { result ≡ is_part line.now }
{
    match line {
        Code::Standard { .. } | Code::Body { .. } => true,
        _ => is_argument(line),
    }
}

/// Puts an output of a standard block, if it has a number.
fn put_output(text: &mut Vec<u8>, output: &BlockOutput, number: Option<i32>) -> Result<(), Fault>
    ensures { Puts text.old text.new result (output_text (output_view output.now) number) }
{
    let Some(number) = number else {
        return Ok(());
    };
    put_bytes(text, b" ")?;
    put_bytes(text, output.name.as_bytes())?;
    put_bytes(text, b"=")?;
    put_value(text, value_of(Some(output.kind), number))
}

/// Puts the outputs of the standard block that an item has called, after its last call.
fn put_last_outputs(text: &mut Vec<u8>, item: &Item) -> Result<(), Fault>
    ensures { Puts text.old text.new result
        (outputs_shown item.now.seen.line item.now.is_last_call
        (item.now.first ∷ item.now.second ∷ [])) }
{
    let (first, second) = match item.seen.line {
        Code::Standard { block, .. } if item.is_last_call => outputs_of(block),
        _ => return Ok(()),
    };
    put_output(text, &first, item.first)?;
    match second {
        Some(second) => put_output(text, &second, item.second),
        None => Ok(()),
    }
}

/// Puts what an item writes: a place and its value, or that a standard block is called, with the
/// outputs after its last call in the scan.
fn put_written(text: &mut Vec<u8>, legend: &Legend, item: &Item) -> Result<(), Fault>
    ensures { Puts text.old text.new result
        (written_text legend.now item.now item.now.seen.written) }
{
    if let Some(note) = &item.said.note {
        put_bytes(text, legend.name(note))?;
    }
    if let Some(number) = item.seen.written {
        put_bytes(text, b" := ")?;
        return put_value(text, value_of(item.said.written, number));
    }
    put_bytes(text, b"()")?;
    put_last_outputs(text, item)
}

/// Whether a row says what its item writes.
fn has_written(seen: &SeenLine) -> bool
    ensures { result ≡ has_written seen.now.line seen.now.written }
{
    matches!(seen.line, Code::Standard { .. }) || seen.written.is_some()
}

/// Puts the result of an item at its column of the row that starts there, if it is shown.
fn put_result(text: &mut Vec<u8>, start: usize, item: &Item) -> Result<(), Fault>
    requires { start ≤ length text.old.items }
    ensures puts { OnOk result (text.new.items ≡ take start text.old.items
        ++ with_cell result_column (result_cell item.now) (drop start text.old.items)) }
    ensures memory { IsOkUnless result Fault.Memory }
{
    let Some(number) = item.seen.result else {
        return Ok(());
    };
    if is_part(&item.seen.line) {
        return Ok(());
    }
    put_gap(text, start, RESULT)?;
    put_value(text, value_of(item.said.result, number))
}

/// Puts what an item writes at its column of the row that starts there, if it writes.
fn put_if_written(
    text: &mut Vec<u8>,
    start: usize,
    legend: &Legend,
    item: &Item,
) -> Result<(), Fault>
    requires { start ≤ length text.old.items }
    ensures puts { OnOk result (text.new.items ≡ take start text.old.items
        ++ with_cell written_column (written_cell legend.now item.now) (drop start text.old.items)) }
    ensures memory { IsOkUnless result Fault.Memory }
{
    if has_written(&item.seen) {
        put_gap(text, start, WRITTEN)?;
        return put_written(text, legend, item);
    }
    Ok(())
}

/// Puts the row of an item.
fn put_row(text: &mut Vec<u8>, legend: &Legend, item: &Item) -> Result<(), Fault>
    ensures puts { OnOk result (text.new.items ≡ text.old.items ++ row_of legend.now item.now) }
    ensures memory { IsOkUnless result Fault.Memory }
{
    let start = text.len();
    let seen = &item.seen;
    let number = (!is_part(&seen.line)).then_some(seen.source);
    put_place(text, number, seen.depth, legend.line(seen.source))?;
    put_result(text, start, item)?;
    put_if_written(text, start, legend, item)?;
    put_bytes(text, b"\n")
}

/// Puts the rows of the items that a scan executed.
fn put_rows(
    alloc: Global,
    text: &mut Vec<u8>,
    legend: &Legend,
    machine: &Machine<'_, SlotStore>,
    lines: &[SeenLine],
) -> Result<(), Fault>
    ensures puts { OnOk result
        (AreRows legend.now machine.now lines.now text.old.items text.new.items) }
    ensures memory { IsOkUnless result Fault.Memory }
{
    let mut items = Items::new(alloc, legend, lines)?;
    for (index, seen) in lines.iter().enumerate() {
        let item = items.next(alloc, legend, machine, index + 1, seen)?;
        put_row(text, legend, &item)?;
    }
    Ok(())
}

/// Puts the rows of a scan at the end of a text: a heading, a row for each item that it executed,
/// in order, and their number. `Memory` is the only fault; some of the rows may then have
/// been put.
pub fn put_scan(
    alloc: Global,
    text: &mut Vec<u8>,
    legend: &Legend,
    machine: &Machine<'_, SlotStore>,
    scan: &ShownScan<'_>,
) -> Result<(), Fault>
    ensures puts { OnOk result
        (PutsScan legend.now machine.now scan.now text.old.items text.new.items) }
    ensures memory { IsOkUnless result Fault.Memory }
{
    put_heading(text, scan.number, scan.ms, scan.is_changed)?;
    put_rows(alloc, text, legend, machine, scan.lines)?;
    put_steps(text, scan.lines.len(), machine.bound())
}
