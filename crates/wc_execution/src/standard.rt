ghost use Rattle.std.specs.Prelude.{◌≡◌, ◌+◌, ◌≤◌, ℕ, List, Some, drop, length, IsSome, ⊤};
ghost use Rattle.wc_execution.specs.Lines.{AreBefore, AreSlots, slots_of};
ghost use Rattle.wc_model.specs.Definitions.{Name, Content, greatest_moment};
ghost use Rattle.wc_model.specs.declared.block.StandardBlock.{StandardBlock};
ghost use Rattle.wc_text_flat.specs.NumberBlocks.{block_called, field_numbers, with_numbers};

use wc_blocks::{Ctu, RTrig, Rs, Sr, Tof, Ton, Tp};
use wc_model::StandardBlock;
use wc_store::Store;

/// A standard block whose fields are in a store, each in a place of its own, in their order.
pub(crate) trait StoredBlock: Copy + Sized {
    /// Which block it is.
    ghost block: { StandardBlock };

    /// How many of its fields are inputs. They come first, and a call leaves them as they are.
    ghost inputs: { ℕ };

    /// What its fields hold.
    ghost contents: { Self → List (Name × Content) };

    /// What they hold after a call at a time in milliseconds.
    ghost called: { ℕ → Self → List (Name × Content) };

    /// The time that a timer keeps; 0 for the others.
    ghost start: { Self → ℕ } = { λ _. 0 };

    /// That the numbers of its fields are in the ranges of their places.
    ghost is_in_range: { Self → Type 0 } = { λ _. ⊤ };

    /// The fields of the block whose places begin there.
    fn fields_at<S: Store>(store: &S, at: usize) -> Self
        requires capacity { length (S.slot_kinds store.now) ≤ 65536 }
        requires slots { AreSlots (slots_of block) (S.slot_kinds store.now) at }
        ensures called { (now : ℕ)
            → block_called block now (S.slot_kinds store.now) (S.numbers store.now) at
            ≡ Some (with_numbers (S.numbers store.now) (at + inputs)
            (drop inputs (field_numbers (called now result)))) }
        ensures start { (now : ℕ) → AreBefore now (S.slot_kinds store.now) (S.numbers store.now)
            → start result ≤ now };

    /// One call of the block at a time in milliseconds.
    fn call_at(&mut self, now: u64)
        requires moment { now ≤ greatest_moment }
        requires forward { start self.old ≤ now }
        ensures called { contents self.new ≡ called now self.old }
        ensures start { start self.new ≤ now }
        ensures range { is_in_range self.new };

    /// Writes the fields that a call may change: all but the inputs.
    fn set_fields<S: Store>(self, store: &mut S, at: usize)
        requires capacity { length (S.slot_kinds store.old) ≤ 65536 }
        requires slots { AreSlots (slots_of block) (S.slot_kinds store.old) at }
        requires range { is_in_range self }
        ensures numbers { S.numbers store.new ≡ with_numbers (S.numbers store.old) (at + inputs)
            (drop inputs (field_numbers (contents self))) }
        ensures kinds { S.slot_kinds store.new ≡ S.slot_kinds store.old }
        ensures moments { (now : ℕ) → start self ≤ now
            → AreBefore now (S.slot_kinds store.old) (S.numbers store.old)
            → AreBefore now (S.slot_kinds store.new) (S.numbers store.new) };
}

/// Calls the block of this type whose places begin there, at a time in milliseconds.
#[inline(always)]
pub(crate) fn call<B: StoredBlock, S: Store>(store: &mut S, at: usize, now: u64)
    requires capacity { length (S.slot_kinds store.old) ≤ 65536 }
    requires slots { AreSlots (slots_of B.block) (S.slot_kinds store.old) at }
    requires moment { now ≤ greatest_moment }
    requires forward { AreBefore now (S.slot_kinds store.old) (S.numbers store.old) }
    ensures called { block_called B.block now (S.slot_kinds store.old) (S.numbers store.old) at
        ≡ Some (S.numbers store.new) }
    ensures kinds { S.slot_kinds store.new ≡ S.slot_kinds store.old }
    ensures moments { AreBefore now (S.slot_kinds store.new) (S.numbers store.new) }
{
    let mut block = B::fields_at(store, at);
    block.call_at(now);
    block.set_fields(store, at);
}

/// Calls the standard block whose places begin there, at a moment in milliseconds. It is inlined: as a call it costs a program of
/// standard blocks an eighth of a scan.
#[inline(always)]
pub(crate) fn call_standard<S: Store>(store: &mut S, block: StandardBlock, at: usize, now: u64)
    requires capacity { length (S.slot_kinds store.old) ≤ 65536 }
    requires there { IsSome
        (block_called block now (S.slot_kinds store.old) (S.numbers store.old) at) }
    requires moment { now ≤ greatest_moment }
    requires forward { AreBefore now (S.slot_kinds store.old) (S.numbers store.old) }
    ensures called { block_called block now (S.slot_kinds store.old) (S.numbers store.old) at
        ≡ Some (S.numbers store.new) }
    ensures kinds { S.slot_kinds store.new ≡ S.slot_kinds store.old }
    ensures moments { AreBefore now (S.slot_kinds store.new) (S.numbers store.new) }
{
    match block {
        StandardBlock::RTrig => call::<RTrig, S>(store, at, now),
        StandardBlock::Sr => call::<Sr, S>(store, at, now),
        StandardBlock::Rs => call::<Rs, S>(store, at, now),
        StandardBlock::Ctu => call::<Ctu, S>(store, at, now),
        StandardBlock::Ton => call::<Ton, S>(store, at, now),
        StandardBlock::Tof => call::<Tof, S>(store, at, now),
        StandardBlock::Tp => call::<Tp, S>(store, at, now),
    }
}
