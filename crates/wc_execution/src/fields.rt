ghost use Rattle.std.specs.Prelude.{◌≡◌, ◌≤◌, ℕ, Some, pos, true, length, slice_get, slice_set};
ghost use Rattle.wc_text_flat.specs.NumberBlocks.{is_slot, number_from};
ghost use Rattle.wc_execution.specs.Lines.{AreBefore};
ghost use Rattle.wc_model.specs.Language.Frames.{bit_number};
ghost use Rattle.wc_model.specs.declared.kind.SlotKind.TheVariants as slots;
ghost use Rattle.wc_model.specs.Definitions.{greatest_moment};

use wc_store::Store;

/// A BOOL of a block.
#[inline(always)]
pub(crate) fn truth_at<S: Store>(store: &S, at: usize) -> bool
    requires capacity { length (S.slot_kinds store.now) ≤ 65536 }
    requires kind { is_slot slots.Bool (slice_get (S.slot_kinds store.now) at) ≡ true }
    ensures { number_from slots.Bool (S.slot_kinds store.now) (S.numbers store.now) at 0
        ≡ Some (bit_number result) }
{
    store.get_at(at) == 1
}

/// A DINT of a block.
#[inline(always)]
pub(crate) fn count_at<S: Store>(store: &S, at: usize) -> i32
    requires capacity { length (S.slot_kinds store.now) ≤ 65536 }
    requires kind { is_slot slots.Dint (slice_get (S.slot_kinds store.now) at) ≡ true }
    ensures { number_from slots.Dint (S.slot_kinds store.now) (S.numbers store.now) at 0
        ≡ Some result }
{
    store.get_at(at) as i32
}

/// A TIME of a block, in milliseconds.
#[inline(always)]
pub(crate) fn time_at<S: Store>(store: &S, at: usize) -> i32
    requires capacity { length (S.slot_kinds store.now) ≤ 65536 }
    requires kind { is_slot slots.Time (slice_get (S.slot_kinds store.now) at) ≡ true }
    ensures { number_from slots.Time (S.slot_kinds store.now) (S.numbers store.now) at 0
        ≡ Some result }
{
    store.get_at(at) as i32
}

/// The moment that a timer keeps, in milliseconds.
#[inline(always)]
pub(crate) fn moment_at<S: Store>(store: &S, at: usize) -> u64
    requires capacity { length (S.slot_kinds store.now) ≤ 65536 }
    requires kind { is_slot slots.Moment (slice_get (S.slot_kinds store.now) at) ≡ true }
    ensures number { number_from slots.Moment (S.slot_kinds store.now) (S.numbers store.now) at 0
        ≡ Some (pos result) }
    ensures before { (now : ℕ) → AreBefore now (S.slot_kinds store.now) (S.numbers store.now)
        → result ≤ now }
{
    store.get_at(at) as u64
}

/// The phase that a timer keeps, 0 to 2.
#[inline(always)]
pub(crate) fn phase_at<S: Store>(store: &S, at: usize) -> u8
    requires capacity { length (S.slot_kinds store.now) ≤ 65536 }
    requires kind { is_slot slots.Phase (slice_get (S.slot_kinds store.now) at) ≡ true }
    ensures { number_from slots.Phase (S.slot_kinds store.now) (S.numbers store.now) at 0
        ≡ Some (pos result) }
{
    store.get_at(at) as u8
}

/// Writes a BOOL of a block.
#[inline(always)]
pub(crate) fn set_truth<S: Store>(store: &mut S, at: usize, truth: bool)
    requires capacity { length (S.slot_kinds store.old) ≤ 65536 }
    requires kind { is_slot slots.Bool (slice_get (S.slot_kinds store.old) at) ≡ true }
    ensures number { S.numbers store.new ≡ slice_set (S.numbers store.old) at (bit_number truth) }
    ensures kinds { S.slot_kinds store.new ≡ S.slot_kinds store.old }
    ensures moments { (now : ℕ) → AreBefore now (S.slot_kinds store.old) (S.numbers store.old)
        → AreBefore now (S.slot_kinds store.new) (S.numbers store.new) }
{
    store.set_at(at, i64::from(truth));
}

/// Writes a DINT of a block.
#[inline(always)]
pub(crate) fn set_count<S: Store>(store: &mut S, at: usize, count: i32)
    requires capacity { length (S.slot_kinds store.old) ≤ 65536 }
    requires kind { is_slot slots.Dint (slice_get (S.slot_kinds store.old) at) ≡ true }
    ensures number { S.numbers store.new ≡ slice_set (S.numbers store.old) at count }
    ensures kinds { S.slot_kinds store.new ≡ S.slot_kinds store.old }
    ensures moments { (now : ℕ) → AreBefore now (S.slot_kinds store.old) (S.numbers store.old)
        → AreBefore now (S.slot_kinds store.new) (S.numbers store.new) }
{
    store.set_at(at, i64::from(count));
}

/// Writes a TIME of a block.
#[inline(always)]
pub(crate) fn set_time<S: Store>(store: &mut S, at: usize, time: i32)
    requires capacity { length (S.slot_kinds store.old) ≤ 65536 }
    requires kind { is_slot slots.Time (slice_get (S.slot_kinds store.old) at) ≡ true }
    ensures number { S.numbers store.new ≡ slice_set (S.numbers store.old) at time }
    ensures kinds { S.slot_kinds store.new ≡ S.slot_kinds store.old }
    ensures moments { (now : ℕ) → AreBefore now (S.slot_kinds store.old) (S.numbers store.old)
        → AreBefore now (S.slot_kinds store.new) (S.numbers store.new) }
{
    store.set_at(at, i64::from(time));
}

/// Writes the moment that a timer keeps.
#[inline(always)]
pub(crate) fn set_moment<S: Store>(store: &mut S, at: usize, moment: u64)
    requires capacity { length (S.slot_kinds store.old) ≤ 65536 }
    requires kind { is_slot slots.Moment (slice_get (S.slot_kinds store.old) at) ≡ true }
    requires range { moment ≤ greatest_moment }
    ensures number { S.numbers store.new ≡ slice_set (S.numbers store.old) at (pos moment) }
    ensures kinds { S.slot_kinds store.new ≡ S.slot_kinds store.old }
    ensures moments { (now : ℕ) → moment ≤ now
        → AreBefore now (S.slot_kinds store.old) (S.numbers store.old)
        → AreBefore now (S.slot_kinds store.new) (S.numbers store.new) }
{
    store.set_at(at, moment as i64);
}

/// Writes the phase that a timer keeps.
#[inline(always)]
pub(crate) fn set_phase<S: Store>(store: &mut S, at: usize, phase: u8)
    requires capacity { length (S.slot_kinds store.old) ≤ 65536 }
    requires kind { is_slot slots.Phase (slice_get (S.slot_kinds store.old) at) ≡ true }
    requires range { phase ≤ 2 }
    ensures number { S.numbers store.new ≡ slice_set (S.numbers store.old) at (pos phase) }
    ensures kinds { S.slot_kinds store.new ≡ S.slot_kinds store.old }
    ensures moments { (now : ℕ) → AreBefore now (S.slot_kinds store.old) (S.numbers store.old)
        → AreBefore now (S.slot_kinds store.new) (S.numbers store.new) }
{
    store.set_at(at, i64::from(phase));
}
