ghost use Rattle.std.specs.Prelude.{◌≡◌, ℕ, ◌≤◌, List, IfErr, IfOk, IsOkUnless, length};
ghost use Rattle.wc_names.specs.RepresentsText.{AreTables};
ghost use Rattle.wc_text_flat.specs.{sources_of, worst_of, IsLowered, flat_length};
ghost use Rattle.wc_model.specs.Definitions.{Scope, text_view, unit_view};
ghost use Rattle.wc_cost.specs.LoadedTexts.{IsCosted};
ghost use Rattle.wc_cost.specs.LoadedInside.{bounds_of};
ghost use Rattle.wc_cost.specs.Faultless.{IsFaultless, LoadsUnits, Measures, MeasuresUnit};
ghost use Rattle.wc_cost.specs.Lowerable.{IsLowerable};
ghost use Rattle.wc_cost.specs.PathLengths.{AreSmall};
ghost use Rattle.wc_verify.specs.Seeing.{IsScope};

use crate::body::flat_body;
use crate::loaded::Loaded;
use crate::path_lengths::path_lengths;
use std::alloc::Global;
use wc_model::{Code, Fault, MOST_STEPS, Source, Unit};
use wc_names::Tables;
use wc_verify::Checked;

/// A unit's lowered body.
#[derive(Drop)]
pub(crate) struct LoweredUnit {
    /// Its flat lines.
    pub(crate) code: Vec<Code>,
    /// The line of the text at which each of them is.
    pub(crate) lines: Vec<u32>,
    /// The length of the unit's longest path.
    pub(crate) bound: u32,
}

/// The length of the worst path through a body.
fn longest(alloc: Global, units: &[LoweredUnit], code: &[Code]) -> Result<u64, Fault>
    ensures longest { IfOk result
        (λ steps. AreSmall (bounds_of units.now) → length code.now ≤ 65536 → (sources : List ℕ)
        → steps ≡ (worst_of (bounds_of units.now) code.now sources).steps) }
    ensures memory { IsOkUnless result Fault.Memory }
{
    let path_lengths = path_lengths(alloc, units, code)?;
    match path_lengths.first() {
        Some(way) => Ok(*way),
        None => Ok(0),
    }
}

/// A lowered body with its bound, or 411 at the unit's line.
fn with_bound(code: Vec<Code>, lines: Vec<u32>, steps: u64, line: u32) -> Result<LoweredUnit, Fault>
    ensures measured { (bounds : List ℕ) (scope : Scope)
        → IsLowered scope scope.unit.body code.items
        → lines.items ≡ sources_of scope.unit.body
        → steps ≡ (worst_of bounds code.items (sources_of scope.unit.body)).steps
        → line ≡ scope.unit.line → MeasuresUnit bounds scope result }
    // It takes no memory, so a refusal is not reported as out of memory.
    ensures refuses { IfErr result (λ fault. fault ≡ Fault.Memory → ⊥) }
{
    if steps > MOST_STEPS {
        return Err(Fault::Refused {
            number: 411,
            place: line,
        });
    }
    Ok(LoweredUnit {
        code,
        lines,
        bound: steps as u32,
    })
}

/// A unit lowered and measured after those before it, or 411.
fn lower_unit<'a>(
    alloc: Global,
    tables: &Tables<'a>,
    number: usize,
    unit: &Unit<'a>,
    units: &[LoweredUnit],
) -> Result<LoweredUnit, Fault>
    ensures { (scope : Scope) → IsScope tables.now number scope → scope.unit ≡ unit_view unit.now
        → IsLowerable scope scope.unit.body → flat_length scope.unit.body ≤ 65536
        → AreSmall (bounds_of units.now) → MeasuresUnit (bounds_of units.now) scope result }
{
    let flat = flat_body(alloc, tables, number, &unit.body)?;
    let (code, lines) = flat.into_lines();
    let steps = longest(alloc, units, &code)?;
    with_bound(code, lines, steps, unit.line)
}

/// The units of a text lowered and measured one after the other, or 411 at the first that is too
/// long.
fn lower_units<'a>(
    alloc: Global,
    tables: &Tables<'a>,
    source: &Source<'a>,
) -> Result<Vec<LoweredUnit>, Fault>
    ensures { AreTables tables.now (text_view source.now) → IsFaultless (text_view source.now)
        → LoadsUnits (text_view source.now) result }
{
    let mut units = Vec::new(alloc);
    for (number, unit) in source.units.iter().enumerate() {
        let lowered = lower_unit(alloc, tables, number, unit, &units)?;
        let Ok(()) = units.push(lowered) else {
            return Err(Fault::Memory);
        };
    }
    Ok(units)
}

/// Measures the units of a text that breaks no rule on declarations and bodies: 411 at the first unit
/// that may take more than 1000000 steps, at the line of its first keyword. The lines of the text are
/// passed on alone, so they may be places as well.
pub fn measure<'a>(alloc: Global, source: &Source<'a>, tables: &Tables<'a>) -> Result<(), Fault>
    ensures { AreTables tables.now (text_view source.now) → IsFaultless (text_view source.now)
        → Measures (text_view source.now) result }
{
    lower_units(alloc, tables, source)?;
    Ok(())
}

/// Lowers a verified text, and measures each unit. 411 at the first unit that may take more than
/// 1000000 steps, at the line of its first keyword; `Memory` if an allocation is refused.
pub fn cost<'a>(alloc: Global, checked: Checked<'a>) -> Result<Loaded<'a>, Fault>
    ensures { IsCosted (text_view checked.entry.source) checked.entry.source result }
{
    let units = lower_units(alloc, checked.tables(), checked.source())?;
    let last = units.len().saturating_sub(1);
    let frame = checked.tables().frame(alloc, last)?;
    Ok(Loaded {
        checked,
        units,
        kinds: frame.kinds,
        initials: frame.initials,
    })
}
