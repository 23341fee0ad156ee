ghost use Rattle.std.specs.Prelude.{◌≡◌, ◌∷◌, [], OnOk};
ghost use Rattle.wc_view_trace.specs.Members.{Adds};
ghost use Rattle.wc_view_trace.specs.Items.{done_by, item_tokens, noted_member, output_members, outputs_if_last, written_members};
ghost use Rattle.wc_view_trace.specs.Scans.{WritesArray, WritesItems};
ghost use Rattle.wc_view_trace_rows.specs.Rows.{outputs_of};

use crate::members::{write_name, write_number, write_number_of_kind};
use json::Writer;
use std::alloc::{AllocError, Global};
use wc_machine::{Machine, SeenLine};
use wc_model::{Code, StandardBlock};
use wc_store::SlotStore;
use wc_view_trace_rows::{Item, Items, Legend, outputs_of};

/// Writes the name that is noted of an item, if there is one.
fn write_noted(
    writer: &mut Writer,
    member: &str,
    legend: &Legend,
    item: &Item,
) -> Result<(), AllocError>
    ensures { Adds writer.old writer.new result
        (noted_member member.now legend.now item.now.said.note) }
{
    match &item.said.note {
        Some(note) => write_name(writer, member, legend.name(note)),
        None => Ok(()),
    }
}

/// Writes the variable that an item has written, and the value.
fn write_written(
    alloc: Global,
    writer: &mut Writer,
    legend: &Legend,
    item: &Item,
) -> Result<(), AllocError>
    ensures { Adds writer.old writer.new result (written_members legend.now item.now) }
{
    let (Some(note), Some(number)) = (item.said.note, item.seen.written) else {
        return Ok(());
    };
    write_name(writer, "variable", legend.name(&note))?;
    write_number_of_kind(alloc, writer, "value", item.said.written, Some(number))
}

/// Writes a member for each output of the standard block that an item has called.
fn write_outputs(
    alloc: Global,
    writer: &mut Writer,
    block: StandardBlock,
    item: &Item,
) -> Result<(), AllocError>
    ensures { Adds writer.old writer.new result
        (output_members (outputs_of block) (item.now.first ∷ item.now.second ∷ [])) }
{
    let (first, second) = outputs_of(block);
    write_number_of_kind(alloc, writer, first.name, Some(first.kind), item.first)?;
    let Some(second) = second else {
        return Ok(());
    };
    write_number_of_kind(alloc, writer, second.name, Some(second.kind), item.second)
}

/// Writes the outputs of a standard block as an object, if the scan does not call it again.
fn write_last_outputs(
    alloc: Global,
    writer: &mut Writer,
    block: StandardBlock,
    item: &Item,
) -> Result<(), AllocError>
    ensures { Adds writer.old writer.new result
        (outputs_if_last block item.now item.now.is_last_call) }
{
    if !item.is_last_call {
        return Ok(());
    }
    writer.key("outputs")?;
    writer.begin_object()?;
    write_outputs(alloc, writer, block, item)?;
    writer.end_object()
}

/// Writes what an item did: the body of a standard block, an item of a call's list, a call, or any other line.
fn write_done(
    alloc: Global,
    writer: &mut Writer,
    legend: &Legend,
    item: &Item,
) -> Result<(), AllocError>
    ensures { Adds writer.old writer.new result (done_by legend.now item.now item.now.seen.line) }
{
    match item.seen.line {
        Code::Standard { block, .. } => {
            write_noted(writer, "block", legend, item)?;
            write_last_outputs(alloc, writer, block, item)
        }
        Code::ArgumentNumber { .. } | Code::ArgumentPlace { .. } => {
            write_written(alloc, writer, legend, item)
        }
        Code::Call { .. } => {
            write_number_of_kind(alloc, writer, "result", item.said.result, item.seen.result)?;
            write_noted(writer, "call", legend, item)
        }
        _ => {
            write_number_of_kind(alloc, writer, "result", item.said.result, item.seen.result)?;
            write_written(alloc, writer, legend, item)
        }
    }
}

/// Writes an item: its line of the text, at what depth of calls it was executed, and what it did.
fn write_item(
    alloc: Global,
    writer: &mut Writer,
    legend: &Legend,
    item: &Item,
) -> Result<(), AllocError>
    ensures { Adds writer.old writer.new result (item_tokens legend.now item.now) }
{
    writer.begin_object()?;
    write_number(writer, "line", u64::from(item.seen.source))?;
    write_number(writer, "depth", u64::from(item.seen.depth))?;
    write_done(alloc, writer, legend, item)?;
    writer.end_object()
}

/// Writes the items that a scan executed, in order.
fn write_each(
    alloc: Global,
    writer: &mut Writer,
    legend: &Legend,
    machine: &Machine<'_, SlotStore>,
    lines: &[SeenLine],
) -> Result<(), AllocError>
    ensures before { writer.new.before ≡ writer.old.before }
    ensures tokens { OnOk result
        (WritesItems legend.now machine.now lines.now writer.old.tokens writer.new.tokens) }
{
    let Ok(mut items) = Items::new(alloc, legend, lines) else {
        return Err(AllocError);
    };
    for (index, seen) in lines.iter().enumerate() {
        let Ok(item) = items.next(alloc, legend, machine, index + 1, seen) else {
            return Err(AllocError);
        };
        write_item(alloc, writer, legend, &item)?;
    }
    Ok(())
}

/// Writes the items that a scan executed as an array.
pub(crate) fn write_items(
    alloc: Global,
    writer: &mut Writer,
    legend: &Legend,
    machine: &Machine<'_, SlotStore>,
    lines: &[SeenLine],
) -> Result<(), AllocError>
    ensures before { writer.new.before ≡ writer.old.before }
    ensures tokens { OnOk result
        (WritesArray legend.now machine.now lines.now writer.old.tokens writer.new.tokens) }
{
    writer.key("items")?;
    writer.begin_array()?;
    write_each(alloc, writer, legend, machine, lines)?;
    writer.end_array()
}
