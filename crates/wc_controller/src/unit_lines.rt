ghost use Rattle.std.specs.Prelude.{◌<◌, length, IfOk, IsOkUnless};
ghost use Rattle.wc_controller.specs.Checking.{AreLinesAt, IsPathPartAt, WritesReport};
ghost use Rattle.wc_model.specs.Definitions.{text_view, IsUnitReport};
ghost use Rattle.wc_run.specs.Runs.{ReportsWrites};

use std::alloc::Global;
use wc_cost::Loaded;
use wc_model::{ByteOut, write_whole};
use wc_report::{path_line, unit_line};
use wc_run::RunFault;

/// The line of the worst path of a unit by its place, if paths are asked for.
fn path_at(
    alloc: Global,
    loaded: &Loaded<'_>,
    paths: bool,
    unit: usize,
) -> Result<Vec<u8>, RunFault>
    requires { unit < length loaded.now.codes }
    ensures part { IfOk result
        (λ part. IsPathPartAt paths (text_view loaded.now.source) unit part.items) }
    ensures memory { IsOkUnless result RunFault.Memory }
{
    if !paths {
        return Ok(Vec::new(alloc));
    }
    let lines = loaded.worst_path(alloc, unit)?;
    Ok(path_line(alloc, &lines)?)
}

/// The lines of a unit by its place.
fn lines_at(
    alloc: Global,
    loaded: &Loaded<'_>,
    paths: bool,
    unit: usize,
) -> Result<Vec<u8>, RunFault>
    requires { unit < length loaded.now.codes }
    ensures lines { IfOk result
        (λ lines. AreLinesAt paths (text_view loaded.now.source) unit lines.items) }
    ensures memory { IsOkUnless result RunFault.Memory }
{
    let mut lines = unit_line(alloc, loaded.name(unit).as_bytes(), loaded.bound(unit))?;
    let path = path_at(alloc, loaded, paths, unit)?;
    lines.extend_from_slice(&path)?;
    Ok(lines)
}

/// The lines of all units, in the text's order. `Memory` is the only fault.
pub fn text_of_units(alloc: Global, loaded: &Loaded<'_>, paths: bool) -> Result<Vec<u8>, RunFault>
    ensures report { IfOk result
        (λ lines. IsUnitReport paths (text_view loaded.now.source) lines.items) }
    ensures memory { IsOkUnless result RunFault.Memory }
{
    let mut report = Vec::new(alloc);
    for unit in 0..loaded.units() {
        let lines = lines_at(alloc, loaded, paths, unit)?;
        report.extend_from_slice(&lines)?;
    }
    Ok(report)
}

/// Writes for each unit of a text that is loaded, in the text's order, a line with its name and its bound; with `paths` the
/// lines of its worst path after it. `Write` comes only if the writer failed in this call; a prefix of the report is then
/// written. `Memory` means out of memory, before anything is written. There is no other fault.
pub fn write_units<W: ByteOut>(
    alloc: Global,
    loaded: &Loaded<'_>,
    paths: bool,
    writer: &mut W,
) -> Result<(), RunFault>
    ensures report { WritesReport paths (text_view loaded.now.source) result
        (W.bytes_taken writer.old) (W.bytes_taken writer.new) }
    ensures failures { ReportsWrites result (W.failure_count writer.old)
        (W.failure_count writer.new) }
{
    let lines = text_of_units(alloc, loaded, paths)?;
    write_whole(writer, &lines)?;
    Ok(())
}
