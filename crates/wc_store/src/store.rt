ghost use Rattle.std.specs.Prelude.{◌≡◌, ◌+◌, ◌<◌, ◌≤◌, List, ℤ, Some, pos, IfOk, IsOkUnless, length, replicate, slice_get, slice_set};
ghost use Rattle.wc_model.specs.declared.kind.SlotKind.{SlotKind};
ghost use Rattle.wc_store.specs.Inside.{IsInRangeAt, with_four};

use std::alloc::Global;
use wc_model::{Fault, Place, SlotKind};

/// A frame's numbers: one for each place, in the range of the place's kind. BOOL is 0 or 1, a moment and a
/// TIME are milliseconds.
pub trait Store: Drop + Sized {
    /// The kinds of the places, in their order.
    ghost slot_kinds: { Self → List SlotKind };

    /// Their numbers, in the same order.
    ghost numbers: { Self → List ℤ };

    /// A store of places of these kinds, all 0. `Memory` is its only fault; no later call takes memory.
    fn make(alloc: Global, kinds: &[SlotKind]) -> Result<Self, Fault>
        ensures kinds { IfOk result (λ store. slot_kinds store ≡ kinds.now) }
        ensures zero { IfOk result (λ store. numbers store ≡ replicate (length kinds.now) (pos 0)) }
        ensures memory { IsOkUnless result Fault.Memory };

    /// The number of places.
    fn size(&self) -> usize
        ensures kinds { result ≡ length (slot_kinds self.now) }
        ensures numbers { result ≡ length (numbers self.now) };

    /// The number at a place.
    fn get(&self, place: Place) -> i64
        requires { place.0 < length (slot_kinds self.now) }
        ensures number { slice_get (numbers self.now) place.0 ≡ Some result }
        ensures range { IsInRangeAt (slot_kinds self.now) place.0 result };

    /// Writes a number that is in the place's range. No other place changes.
    fn set(&mut self, place: Place, number: i64)
        requires place { place.0 < length (slot_kinds self.old) }
        requires range { IsInRangeAt (slot_kinds self.old) place.0 number }
        ensures numbers { numbers self.new ≡ slice_set (numbers self.old) place.0 number }
        ensures kinds { slot_kinds self.new ≡ slot_kinds self.old };

    /// The number at the place with this index, counted from 0. A store for which an index is cheaper than a place
    /// has a body of its own.
    #[inline(always)]
    fn get_at(&self, at: usize) -> i64
        requires place { at < length (slot_kinds self.now) }
        requires fits { at < 65536 }
        ensures number { slice_get (numbers self.now) at ≡ Some result }
        ensures range { IsInRangeAt (slot_kinds self.now) at result }
    {
        self.get(Place(at as u16))
    }

    /// Writes a number that is in its range to the place with this index, counted from 0. No other place changes.
    #[inline(always)]
    fn set_at(&mut self, at: usize, number: i64)
        requires place { at < length (slot_kinds self.old) }
        requires fits { at < 65536 }
        requires range { IsInRangeAt (slot_kinds self.old) at number }
        ensures numbers { numbers self.new ≡ slice_set (numbers self.old) at number }
        ensures kinds { slot_kinds self.new ≡ slot_kinds self.old }
    {
        self.set(Place(at as u16), number);
    }

    /// Writes four numbers to places that follow one another, each in its place's range. No other place changes.
    #[inline(always)]
    fn set_four(&mut self, at: usize, a: i64, b: i64, c: i64, d: i64)
        requires places { at + 4 ≤ length (slot_kinds self.old) }
        requires fit { at + 4 ≤ 65536 }
        requires first { IsInRangeAt (slot_kinds self.old) at a }
        requires second { IsInRangeAt (slot_kinds self.old) (at + 1) b }
        requires third { IsInRangeAt (slot_kinds self.old) (at + 2) c }
        requires fourth { IsInRangeAt (slot_kinds self.old) (at + 3) d }
        ensures numbers { numbers self.new ≡ with_four (numbers self.old) at a b c d }
        ensures kinds { slot_kinds self.new ≡ slot_kinds self.old }
    {
        self.set_at(at, a);
        self.set_at(at + 1, b);
        self.set_at(at + 2, c);
        self.set_at(at + 3, d);
    }
}
