ghost use Rattle.std.specs.Prelude.{◌≡◌, ℕ, ◌+◌, ◌++◌, ◌≤◌, List, IfOk, OnOk, IsOkUnless, if◌then◌else◌, length, slice_index};
ghost use Rattle.wc_text_flat.specs.FlatPaths.{Worst, from_line, line_worst, turned, worst_of};
ghost use Rattle.wc_cost.specs.LoadedInside.{bounds_of};
ghost use Rattle.wc_cost.specs.PathLengths.{AreAfter, AreSmall, ArePathLengths, and_then, is_own, own_source, own_steps};

use crate::units::LoweredUnit;
use std::alloc::Global;
use wc_model::{Code, Condition, Fault, or_memory};

/// The length of the path from the line of that number among those after a place.
fn way_from(path_lengths: &[u64], next: usize, number: usize) -> u64
    ensures { result ≡ slice_index path_lengths.now (next + number) }
{
    let Some(at) = next.checked_add(number) else {
        return 0;
    };
    match path_lengths.get(at) {
        Some(way) => *way,
        None => 0,
    }
}

/// Whether the path on which a conditional acts is the worst one; if it is no longer than the
/// other, it is not.
fn acts(condition: Condition, acting: u64, passing: u64) -> bool
    ensures { (a p : Worst) → a.steps ≡ acting → p.steps ≡ passing
        → turned condition a p ≡ (if result then a else p) }
{
    match condition {
        Condition::Always => true,
        Condition::IfTrue => passing < acting,
        Condition::IfFalse => passing < acting,
    }
}

/// The number of lines the worst path of a conditional passes over: one number if it acts, another
/// if it goes on to the next line of the text.
fn choose(
    path_lengths: &[u64],
    next: usize,
    condition: Condition,
    acting: usize,
    passing: usize,
) -> usize
    ensures { (rest : List Worst) → AreAfter path_lengths.now next rest
        → turned condition (from_line rest acting) (from_line rest passing)
        ≡ from_line rest result }
{
    let act = acts(
        condition,
        way_from(path_lengths, next, acting),
        way_from(path_lengths, next, passing),
    );
    if act { acting } else { passing }
}

/// The number of lines after a line that its worst path passes over.
fn lines_passed(path_lengths: &[u64], next: usize, line: &Code) -> usize
    ensures { (bounds : List ℕ) (source : ℕ) (rest : List Worst)
        → AreAfter path_lengths.now next rest
        → line_worst bounds source rest line.now
        ≡ and_then bounds source line.now (from_line rest result) }
{
    match line {
        Code::Jump { condition, skip } => choose(path_lengths, next, *condition, *skip as usize, 0),
        Code::Return { condition } => choose(path_lengths, next, *condition, path_lengths.len(), 0),
        Code::Call { condition, skip } => choose(path_lengths, next, *condition, 0, *skip as usize),
        _ => 0,
    }
}

/// The number of steps a line takes itself: what is called takes its unit's.
fn cost(units: &[LoweredUnit], line: &Code) -> u64
    ensures { result ≡ own_steps (bounds_of units.now) line.now }
{
    let Code::Body { unit, .. } = line else {
        return 1;
    };
    match units.get(usize::from(*unit)) {
        Some(unit) => u64::from(unit.bound),
        None => 0,
    }
}

/// The length of the worst path from a line, from those after it.
fn way(units: &[LoweredUnit], path_lengths: &[u64], next: usize, line: &Code) -> u64
    ensures { (source : ℕ) (rest : List Worst) → AreAfter path_lengths.now next rest
        → (line_worst (bounds_of units.now) source rest line.now).steps
        ≤ 18446744073709551615
        → result ≡ (line_worst (bounds_of units.now) source rest line.now).steps }
{
    let skip = lines_passed(path_lengths, next, line);
    cost(units, line).saturating_add(way_from(path_lengths, next, skip))
}

/// The length of the worst path from each flat line to the end of its body.
pub(crate) fn path_lengths(
    alloc: Global,
    units: &[LoweredUnit],
    code: &[Code],
) -> Result<Vec<u64>, Fault>
    ensures path_lengths { IfOk result
        (λ path_lengths. AreSmall (bounds_of units.now) → length code.now ≤ 65536
        → ArePathLengths (bounds_of units.now) code.now path_lengths.items) }
    ensures memory { IsOkUnless result Fault.Memory }
{
    let count = code.len();
    let mut path_lengths = or_memory(vec![in alloc; 0_u64; count])?;
    for index in (0..count).rev() {
        if let Some(line) = code.get(index) {
            path_lengths[index] = way(units, &path_lengths, index + 1, line);
        }
    }
    Ok(path_lengths)
}

/// Whether a line is one of the body itself: arguments and what is called are not.
fn is_own(line: &Code) -> bool
    ensures { result ≡ is_own line.now }
{
    match line {
        Code::ArgumentNumber { .. } => false,
        Code::ArgumentPlace { .. } => false,
        Code::Standard { .. } => false,
        Code::Body { .. } => false,
        _ => true,
    }
}

/// The line of the text of a flat line.
fn source_at(sources: &[u32], index: usize) -> u32
    ensures { result ≡ slice_index sources.now index }
{
    sources.get(index).map_or(0, |source| *source)
}

/// Adds the line of the text of a flat line, if that is one of the body itself.
fn list(lines: &mut Vec<u32>, line: &Code, source: u32) -> Result<(), Fault>
    ensures listed { OnOk result (lines.new.items ≡ lines.old.items ++ own_source line.now source) }
    ensures memory { IsOkUnless result Fault.Memory }
{
    if !is_own(line) {
        return Ok(());
    }
    let Ok(()) = lines.push(source) else {
        return Err(Fault::Memory);
    };
    Ok(())
}

/// The lines of the text on the worst path through a body, in order, from the lengths of its paths.
pub(crate) fn worst_lines(
    alloc: Global,
    path_lengths: &[u64],
    code: &[Code],
    sources: &[u32],
) -> Result<Vec<u32>, Fault>
    ensures lines { IfOk result
        (λ lines. (bounds : List ℕ) → ArePathLengths bounds code.now path_lengths.now
        → lines.items ≡ (worst_of bounds code.now sources.now).lines) }
    ensures memory { IsOkUnless result Fault.Memory }
{
    let mut lines = Vec::new(alloc);
    let mut left: usize = 0;
    for index in 0..code.len() {
        if left > 0 {
            left -= 1;
            continue;
        }
        let Some(line) = code.get(index) else {
            continue;
        };
        list(&mut lines, line, source_at(sources, index))?;
        left = lines_passed(path_lengths, index + 1, line);
    }
    Ok(lines)
}
