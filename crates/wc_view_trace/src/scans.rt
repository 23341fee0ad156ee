ghost use Rattle.std.specs.Prelude.{◌≡◌, ◌++◌, ◌∷◌, [], IfOk, IsOkUnless, OnOk};
ghost use Rattle.json.specs.Lex.{tokens};
ghost use Rattle.json.specs.Print.{print};
ghost use Rattle.wc_view_trace.specs.Members.{Adds};
ghost use Rattle.wc_view_trace.specs.Scans.{IsEndObject, IsScanObject, PutsEnd, PutsScan, WritesScan, end_tokens, head_tokens, program_of, tail_tokens};

use crate::image::write_image;
use crate::items::write_items;
use crate::members::{write_integers, write_number};
use json::Writer;
use std::alloc::{AllocError, Global};
use wc_machine::Machine;
use wc_model::{Fault, Outputs, or_memory, put_bytes};
use wc_store::SlotStore;
use wc_view_trace_rows::{Legend, ShownScan};

/// Which program a scan ran: 1, or 2 after the change.
fn program_of(is_changed: bool) -> u64
    ensures { result ≡ program_of is_changed }
{
    if is_changed { 2 } else { 1 }
}

/// Writes the number of a scan, its moment, and which program it ran.
fn write_head(writer: &mut Writer, scan: &ShownScan<'_>) -> Result<(), AllocError>
    ensures before { writer.new.before ≡ writer.old.before }
    ensures tokens { OnOk result (writer.new.tokens ≡ writer.old.tokens ++ head_tokens scan.now) }
{
    writer.begin_object()?;
    write_number(writer, "scan", u64::from(scan.number))?;
    write_number(writer, "ms", scan.ms)?;
    write_number(writer, "program", program_of(scan.is_changed))
}

/// Writes the items that a scan executed and the most that one executes, and the outputs that it left.
fn write_tail(
    writer: &mut Writer,
    steps: usize,
    bound: u32,
    outputs: &Outputs,
) -> Result<(), AllocError>
    ensures { Adds writer.old writer.new result (tail_tokens steps bound outputs.now) }
{
    write_number(writer, "steps", steps as u64)?;
    write_number(writer, "bound", u64::from(bound))?;
    write_number(writer, "outputs", u64::from(outputs.bits))?;
    write_integers(writer, "words", &outputs.words)?;
    writer.end_object()
}

/// Writes the object of a scan.
fn write_scan(
    alloc: Global,
    writer: &mut Writer,
    legend: &Legend,
    machine: &Machine<'_, SlotStore>,
    scan: &ShownScan<'_>,
) -> Result<(), AllocError>
    ensures before { writer.new.before ≡ writer.old.before }
    ensures tokens { OnOk result
        (WritesScan legend.now machine.now scan.now writer.old.tokens writer.new.tokens) }
{
    write_head(writer, scan)?;
    write_image(writer, machine)?;
    write_items(alloc, writer, legend, machine, scan.lines)?;
    write_tail(writer, scan.lines.len(), machine.bound(), &scan.outputs)
}

/// What was written, as a line with its line feed.
fn line_of(writer: Writer) -> Result<Vec<u8>, AllocError>
    requires { writer.before ≡ [] }
    ensures all { IfOk result (λ bytes. bytes.items ≡ print writer.tokens ++ 10 ∷ []) }
    ensures reads { tokens (print writer.tokens) ≡ writer.tokens }
{
    let mut bytes = writer.into_inner();
    bytes.push(b'\n')?;
    Ok(bytes)
}

/// The object of a scan on a line.
fn scan_line(
    alloc: Global,
    legend: &Legend,
    machine: &Machine<'_, SlotStore>,
    scan: &ShownScan<'_>,
) -> Result<Vec<u8>, AllocError>
    ensures { IfOk result
        (λ bytes. IsScanObject legend.now machine.now scan.now bytes.items) }
{
    let mut writer = Writer::new(Vec::new(alloc));
    write_scan(alloc, &mut writer, legend, machine, scan)?;
    line_of(writer)
}

/// Puts a scan at the end of a text as a JSON object on a line of its own. `Memory` is the only fault; a prefix of the line may
/// then follow the text.
pub fn put_object(
    alloc: Global,
    text: &mut Vec<u8>,
    legend: &Legend,
    machine: &Machine<'_, SlotStore>,
    scan: &ShownScan<'_>,
) -> Result<(), Fault>
    ensures puts { OnOk result
        (PutsScan legend.now machine.now scan.now text.old.items text.new.items) }
    ensures memory { IsOkUnless result Fault.Memory }
{
    let line = or_memory(scan_line(alloc, legend, machine, scan))?;
    put_bytes(text, &line)
}

/// Writes the last object.
fn write_end(writer: &mut Writer, scans: u32, shown: u32) -> Result<(), AllocError>
    requires { writer.old.tokens ≡ [] }
    ensures before { writer.new.before ≡ writer.old.before }
    ensures tokens { OnOk result (writer.new.tokens ≡ end_tokens scans shown) }
{
    writer.begin_object()?;
    write_number(writer, "scans", u64::from(scans))?;
    write_number(writer, "shown", u64::from(shown))?;
    writer.end_object()
}

/// The last object on a line.
fn end_line(alloc: Global, scans: u32, shown: u32) -> Result<Vec<u8>, AllocError>
    ensures { IfOk result (λ bytes. IsEndObject scans shown bytes.items) }
{
    let mut writer = Writer::new(Vec::new(alloc));
    write_end(&mut writer, scans, shown)?;
    line_of(writer)
}

/// Puts the number of scans a run had, and the number of them that were shown, as such an object. `Memory` is the only fault;
/// a prefix of the line may then follow the text.
pub fn put_end_object(
    alloc: Global,
    text: &mut Vec<u8>,
    scans: u32,
    shown: u32,
) -> Result<(), Fault>
    ensures puts { OnOk result (PutsEnd scans shown text.old.items text.new.items) }
    ensures memory { IsOkUnless result Fault.Memory }
{
    let line = or_memory(end_line(alloc, scans, shown))?;
    put_bytes(text, &line)
}
