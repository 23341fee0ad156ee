ghost use Rattle.std.specs.Prelude.{◌≡◌, ◌≤◌, ℕ, Some, IsSome, false, length, true, []};
ghost use Rattle.wc_text_flat.specs.{negated_number, number_stored, number_written};
ghost use Rattle.wc_execution.specs.Lines.{held, loaded, negated_if, passed, stored, written, AreBefore, here_at, no_calls, state_of, IsStorable, IsWritable};
ghost use Rattle.wc_model.specs.declared.operator.StoreKind.TheVariants as stores;

use crate::operators::truth;
use wc_model::{Code, Place, StoreKind};
use wc_store::Store;

/// The negation of a number that is 0 or 1.
#[inline(always)]
pub(crate) fn negated_number(number: i32) -> i32
    requires { IsSome (negated_number number) }
    ensures { negated_number number ≡ Some result }
{
    i32::from(!truth(number))
}

/// The number, or the negation of one that is 0 or 1, with no branch.
#[inline(always)]
fn negated_where(negated: bool, number: i32) -> i32
    requires { IsSome (negated_if negated number) }
    ensures { negated_if negated number ≡ Some result }
{
    number ^ i32::from(negated)
}

/// The number at a place of the instance that begins at `base`.
#[inline(always)]
pub(crate) fn read<S: Store>(store: &S, base: usize, place: Place) -> i32
    requires capacity { length (S.slot_kinds store.now) ≤ 65536 }
    requires there { IsSome (held base (S.slot_kinds store.now) (S.numbers store.now) place) }
    ensures { held base (S.slot_kinds store.now) (S.numbers store.now) place ≡ Some result }
{
    store.get_at(base + place.0 as usize) as i32
}

/// Writes a number to a place of the instance that begins at `base`.
#[inline(always)]
pub(crate) fn write<S: Store>(store: &mut S, base: usize, place: Place, number: i32)
    requires capacity { length (S.slot_kinds store.old) ≤ 65536 }
    requires there { IsSome
        (written base (S.slot_kinds store.old) (S.numbers store.old) place number) }
    ensures numbers { written base (S.slot_kinds store.old) (S.numbers store.old) place number
        ≡ Some (S.numbers store.new) }
    ensures kinds { S.slot_kinds store.new ≡ S.slot_kinds store.old }
    ensures moments { (now : ℕ) → AreBefore now (S.slot_kinds store.old) (S.numbers store.old)
        → AreBefore now (S.slot_kinds store.new) (S.numbers store.new) }
{
    store.set_at(base + place.0 as usize, i64::from(number));
}

/// LD and LDN of a place.
#[inline(always)]
pub(crate) fn load<S: Store>(store: &S, base: usize, negated: bool, place: Place) -> i32
    requires capacity { length (S.slot_kinds store.now) ≤ 65536 }
    requires there { IsSome
        (loaded base (S.slot_kinds store.now) (S.numbers store.now) negated place) }
    ensures { loaded base (S.slot_kinds store.now) (S.numbers store.now) negated place
        ≡ Some result }
{
    negated_where(negated, read(store, base, place))
}

/// Whether it is the negation that is stored.
#[inline(always)]
fn negates(storing: StoreKind) -> bool
    ensures plain { storing ≡ stores.Result → result ≡ false }
    ensures negated { storing ≡ stores.Negation → result ≡ true }
{
    match storing {
        StoreKind::Negation => true,
        _ => false,
    }
}

/// ST, STN, S and R.
#[inline(always)]
pub(crate) fn put<S: Store>(
    store: &mut S,
    base: usize,
    storing: StoreKind,
    place: Place,
    current: i32,
)
    requires capacity { length (S.slot_kinds store.old) ≤ 65536 }
    requires there { IsSome
        (stored base (S.slot_kinds store.old) (S.numbers store.old) storing place current) }
    ensures numbers { stored base (S.slot_kinds store.old) (S.numbers store.old) storing place
        current ≡ Some (S.numbers store.new) }
    ensures kinds { S.slot_kinds store.new ≡ S.slot_kinds store.old }
    ensures moments { (now : ℕ) → AreBefore now (S.slot_kinds store.old) (S.numbers store.old)
        → AreBefore now (S.slot_kinds store.new) (S.numbers store.new) }
{
    match storing {
        StoreKind::Result | StoreKind::Negation => {
            write(store, base, place, negated_where(negates(storing), current));
        }
        StoreKind::Set => {
            if truth(current) {
                write(store, base, place, 1);
            }
        }
        StoreKind::Reset => {
            if truth(current) {
                write(store, base, place, 0);
            }
        }
    }
}

/// An argument that is at a place.
#[inline(always)]
pub(crate) fn pass<S: Store>(store: &mut S, base: usize, place: Place, target: Place)
    requires capacity { length (S.slot_kinds store.old) ≤ 65536 }
    requires there { IsSome
        (passed base (S.slot_kinds store.old) (S.numbers store.old) place target) }
    ensures numbers { passed base (S.slot_kinds store.old) (S.numbers store.old) place target
        ≡ Some (S.numbers store.new) }
    ensures kinds { S.slot_kinds store.new ≡ S.slot_kinds store.old }
    ensures moments { (now : ℕ) → AreBefore now (S.slot_kinds store.old) (S.numbers store.old)
        → AreBefore now (S.slot_kinds store.new) (S.numbers store.new) }
{
    let number = read(store, base, place);
    write(store, base, target, number);
}

/// What ST, STN, S and R write of a result: S and R nothing if it is FALSE.
fn number_stored(storing: StoreKind, current: i32) -> Option<i32>
    requires { IsStorable storing current }
    ensures { result ≡ number_stored storing current }
{
    match storing {
        StoreKind::Result => Some(current),
        StoreKind::Negation => Some(negated_number(current)),
        StoreKind::Set => { if truth(current) { Some(1) } else { None } }
        StoreKind::Reset => { if truth(current) { Some(0) } else { None } }
    }
}

/// The number that a line is going to write to the place that it names. It stays a call: where nobody asks for the
/// number, what only reads is compiled to nothing, but once it is inlined its choice by the line would stay.
#[inline(never)]
pub fn number_written<S: Store>(store: &S, current: i32, line: &Code, base: usize) -> Option<i32>
    requires capacity { length (S.slot_kinds store.now) ≤ 65536 }
    requires there { IsWritable base (S.slot_kinds store.now) (S.numbers store.now) current
        line.now }
    ensures { result ≡ number_written (here_at base 0 (S.slot_kinds store.now) no_calls)
        (state_of current [] (S.numbers store.now)) line.now }
{
    match *line {
        Code::Store { storing, .. } => number_stored(storing, current),
        Code::ArgumentNumber { number, .. } => Some(number),
        Code::ArgumentPlace { place, .. } => Some(read(store, base, place)),
        _ => None,
    }
}
