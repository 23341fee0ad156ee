ghost use Rattle.std.specs.Prelude.{◌≡◌, ◌+◌, ◌≤◌, length};
ghost use Rattle.wc_store.specs.Inside.{with_four};

use crate::store::Store;
use std::alloc::Global;
use std::marker::Model;
use wc_model::{Fault, Place, SlotKind, or_memory};

/// A store of plain numbers: a read and a write are an index each. The kinds are kept next to them.
#[derive(Drop)]
pub struct SlotStore {
    numbers: Vec<i64>,
    kinds: Vec<SlotKind>,
}

impl Model for SlotStore {
    ghost use Rattle.wc_store.specs.Inside.{SlotNumbers, slots_view, AreSlotsSound};

    ghost Value = { SlotNumbers };

    ghost view = { slots_view };

    ghost invariant = { AreSlotsSound };
}

/// Writes four numbers one after another.
#[inline(always)]
fn write_four(numbers: &mut [i64], at: usize, a: i64, b: i64, c: i64, d: i64)
    requires { at + 4 ≤ length numbers.old }
    ensures { numbers.new ≡ with_four numbers.old at a b c d }
{
    numbers[at] = a;
    numbers[at + 1] = b;
    numbers[at + 2] = c;
    numbers[at + 3] = d;
}

impl Store for SlotStore {
    ghost slot_kinds = { λ store. store.kinds };

    ghost numbers = { λ store. store.numbers };

    fn make(alloc: Global, kinds: &[SlotKind]) -> Result<Self, Fault> {
        let numbers = or_memory(vec![in alloc; 0_i64; kinds.len()])?;
        let kinds = or_memory(Vec::from_slice(alloc, kinds))?;
        Ok(SlotStore { numbers, kinds })
    }

    fn size(&self) -> usize {
        self.numbers.len()
    }

    #[inline(always)]
    fn get(&self, place: Place) -> i64 {
        self.get_at(usize::from(place.0))
    }

    #[inline(always)]
    fn set(&mut self, place: Place, number: i64) {
        self.set_at(usize::from(place.0), number);
    }

    #[inline(always)]
    fn get_at(&self, at: usize) -> i64 {
        self.numbers[at]
    }

    #[inline(always)]
    fn set_at(&mut self, at: usize, number: i64) {
        self.numbers[at] = number;
    }

    #[inline(always)]
    fn set_four(&mut self, at: usize, a: i64, b: i64, c: i64, d: i64) {
        write_four(self.numbers.as_mut_slice(), at, a, b, c, d);
    }
}
