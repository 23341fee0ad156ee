ghost use Rattle.std.specs.Prelude.{◌≡◌, ◌<◌, ◌+◌, [], ℕ, List, IfOk, IsOkUnless, OnOk, if◌then◌else◌, length, slice_index};
ghost use Rattle.wc_view_trace_rows.specs.Items.{AreLastCalls, block_of, is_call_at};
ghost use Rattle.wc_view_trace_rows.specs.Levels.{levels_after, levels_view};
ghost use Rattle.wc_view_trace_rows.specs.Rows.{outputs_of};
ghost use Rattle.wc_view_trace_rows.specs.Scans.{AreShown, IsItem};

use crate::item::Item;
use crate::legend::Legend;
use crate::levels::Levels;
use crate::outputs::{number_in, outputs_of};
use std::alloc::Global;
use wc_machine::{Machine, SeenLine};
use wc_model::{Code, Fault, StandardBlock, or_memory};
use wc_store::SlotStore;

/// Which item of a scan made the last call of each standard block. After that call the outputs of
/// the block are those that the scan leaves, since a program cannot write them.
#[derive(Drop)]
struct LastCalls {
    /// For each place of the program's frame the number of the item, from 1, that made the last
    /// call of the block whose fields start there; 0 if none did.
    items: Vec<usize>,
}

/// A standard block and the first place of its instance in the program's frame, if an item is the
/// body of one.
fn block_of(seen: &SeenLine) -> Option<(StandardBlock, usize)>
    ensures { result ≡ block_of seen.now }
{
    match seen.line {
        Code::Standard { block, at } => Some((block, seen.base.saturating_add(usize::from(at.0)))),
        _ => None,
    }
}

/// Keeps the number of an item at the place of the standard block whose body it is, if it is one.
fn mark(items: &mut Vec<usize>, seen: &SeenLine, number: usize)
    ensures count { length items.new.items ≡ length items.old.items }
    ensures marks { (place : ℕ) → place < length items.old.items → slice_index items.new.items place
        ≡ (if is_call_at place
        (block_of seen.now) then number else slice_index items.old.items place) }
{
    let Some((_, place)) = block_of(seen) else {
        return;
    };
    if place < items.len() {
        items[place] = number;
    }
}

impl LastCalls {
    /// Finds the last calls among the items of a scan, for a frame of that many places.
    fn find(alloc: Global, places: usize, lines: &[SeenLine]) -> Result<LastCalls, Fault>
        ensures finds { IfOk result (λ calls. AreLastCalls calls.items.items places lines.now) }
        ensures memory { IsOkUnless result Fault.Memory }
    {
        let mut items = or_memory(vec![in alloc; 0_usize; places])?;
        for (index, seen) in lines.iter().enumerate() {
            mark(&mut items, seen, index + 1);
        }
        Ok(LastCalls { items })
    }
}

/// What is known while the items of a scan are gone through in order.
#[derive(Drop)]
pub struct Items {
    levels: Levels,
    calls: LastCalls,
}

/// The numbers of the outputs of a standard block whose instance begins there, if they are shown.
fn numbers_of(
    machine: &Machine<'_, SlotStore>,
    block: StandardBlock,
    base: usize,
    is_shown: bool,
) -> (Option<i32>, Option<i32>)
    ensures { AreShown machine.now base (outputs_of block) is_shown result.0 result.1 }
{
    if !is_shown {
        return (None, None);
    }
    let (first, second) = outputs_of(block);
    let one = number_in(machine, base.saturating_add(usize::from(first.number)));
    let other = match second {
        Some(second) => number_in(machine, base.saturating_add(usize::from(second.number))),
        None => None,
    };
    (one, other)
}

impl Items {
    /// Before the first item of a scan. `Memory` is the only fault.
    pub fn new(alloc: Global, legend: &Legend, lines: &[SeenLine]) -> Result<Items, Fault>
        ensures calls { IfOk result (λ items.
            AreLastCalls items.calls.items.items (length legend.now.kinds.items) lines.now) }
        ensures levels { IfOk result (λ items. levels_view items.levels ≡ []) }
        ensures memory { IsOkUnless result Fault.Memory }
    {
        let calls = LastCalls::find(alloc, legend.kinds.len(), lines)?;
        Ok(Items {
            levels: Levels {
                levels: Vec::new(alloc),
            },
            calls,
        })
    }

    /// The next item, which has that number among those of the scan, from 1. `Memory` is the only
    /// fault.
    pub fn next(
        &mut self,
        alloc: Global,
        legend: &Legend,
        machine: &Machine<'_, SlotStore>,
        number: usize,
        seen: &SeenLine,
    ) -> Result<Item, Fault>
        ensures item { IfOk result (λ item. (lines : List SeenLine)
            → AreLastCalls self.old.calls.items.items (length legend.now.kinds.items) lines
            → IsItem legend.now machine.now lines number seen.now
            (levels_view self.old.levels) item) }
        ensures levels { OnOk result
            (levels_view self.new.levels
            ≡ levels_after legend.now seen.now (levels_view self.old.levels)) }
        ensures calls { self.new.calls ≡ self.old.calls }
        ensures memory { IsOkUnless result Fault.Memory }
    {
        let mut item = Item {
            seen: *seen,
            said: self.levels.follow(alloc, legend, seen)?,
            is_last_call: false,
            first: None,
            second: None,
        };
        if let Some((block, place)) = block_of(seen) {
            let last = self.calls.items.get(place);
            item.is_last_call = last.is_some_and(|last| *last == number);
            let (first, second) = numbers_of(machine, block, place, item.is_last_call);
            item.first = first;
            item.second = second;
        }
        Ok(item)
    }
}
