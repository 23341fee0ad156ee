//! Both stores of a frame's numbers, through their trait, and over the same writes.
ghost use Rattle.std.specs.Prelude.{◌≡◌, ◌<◌, ◌≤◌, length, true};
ghost use Rattle.wc_model.specs.Language.Frames.{IsInRange};
ghost use Rattle.wc_store.specs.Inside.{IsInRangeAt};

use std::alloc::Global;
use wc_model::{Fault, Place, SlotKind};
use wc_store::{NamedStore, SlotStore, Store};

/// A frame with two places of each kind.
const KINDS: [SlotKind; 10] = [
    SlotKind::Bool,
    SlotKind::Dint,
    SlotKind::Time,
    SlotKind::Moment,
    SlotKind::Phase,
    SlotKind::Phase,
    SlotKind::Moment,
    SlotKind::Time,
    SlotKind::Dint,
    SlotKind::Bool,
];

/// Whether a number is in the range of a kind.
fn fits(kind: SlotKind, number: i64) -> bool
    ensures { result ≡ true → IsInRange kind number }
{
    match kind {
        SlotKind::Bool => number >= 0 && number <= 1,
        SlotKind::Dint => number >= -2147483648 && number <= 2147483647,
        SlotKind::Time => number >= -2147483648 && number <= 2147483647,
        SlotKind::Moment => number >= 0 && number <= 1099511627775,
        SlotKind::Phase => number >= 0 && number <= 2,
    }
}

/// Whether a number is in the range of the kind at a place.
fn fits_at(kinds: &[SlotKind], place: usize, number: i64) -> bool
    requires { place < length kinds.now }
    ensures { result ≡ true → IsInRangeAt kinds.now place number }
{
    fits(kinds[place], number)
}

/// A number in the range of a kind, made of any number.
fn within(kind: SlotKind, any: u64) -> i64 {
    match kind {
        SlotKind::Bool => (any % 2) as i64,
        SlotKind::Dint => (any % 4294967296) as i64 - 2147483648,
        SlotKind::Time => (any % 4294967296) as i64 - 2147483648,
        SlotKind::Moment => (any % 1099511627776) as i64,
        SlotKind::Phase => (any % 3) as i64,
    }
}

/// Writes a number if the place is there and the number is in its range, and says whether.
fn put<S: Store>(store: &mut S, kinds: &[SlotKind], place: u16, number: i64) -> bool
    requires { S.slot_kinds store.old ≡ kinds.now }
    ensures { S.slot_kinds store.new ≡ kinds.now }
{
    let at = usize::from(place);
    if at < kinds.len() {
        if fits_at(kinds, at, number) {
            if at % 2 == 0 {
                store.set(Place(place), number);
            } else {
                store.set_at(at, number);
            }
            return true;
        }
    }
    false
}

/// Whether a place holds a number, by the place and by its number.
fn holds<S: Store>(store: &S, place: u16, number: i64) -> bool {
    let at = usize::from(place);
    at < store.size() && store.get(Place(place)) == number && store.get_at(at) == number
}

/// Writes to the first four places at once if the numbers are in their ranges, and says whether.
fn put_four<S: Store>(store: &mut S, kinds: &[SlotKind], numbers: &[i64; 4]) -> bool
    requires { S.slot_kinds store.old ≡ kinds.now }
    ensures { S.slot_kinds store.new ≡ kinds.now }
{
    let [a, b, c, d] = *numbers;
    if kinds.len() >= 4 {
        if fits_at(kinds, 0, a)
            && fits_at(kinds, 1, b)
            && fits_at(kinds, 2, c)
            && fits_at(kinds, 3, d)
        {
            store.set_four(0, a, b, c, d);
            return true;
        }
    }
    false
}

/// A store holds 0 at first; what is written is read, and no other place changes.
fn keeps_numbers<S: Store>(store: &mut S, kinds: &[SlotKind]) -> bool
    requires { S.slot_kinds store.old ≡ kinds.now }
    ensures { S.slot_kinds store.new ≡ kinds.now }
{
    let zero = store.size() == kinds.len() && holds(store, 1, 0) && holds(store, 3, 0);
    let dint = put(store, kinds, 1, -2147483648) && holds(store, 1, -2147483648);
    let moment = put(store, kinds, 3, 1099511627775) && holds(store, 3, 1099511627775);
    let last = put(store, kinds, 9, 1) && holds(store, 9, 1) && !holds(store, 10, 0);
    let kept = holds(store, 1, -2147483648) && holds(store, 2, 0);
    zero && dint && moment && last && kept
}

/// After that, what is written to four places at once is read, and no other place changes.
fn keeps_four<S: Store>(store: &mut S, kinds: &[SlotKind]) -> bool
    requires { S.slot_kinds store.old ≡ kinds.now }
{
    let four = put_four(store, kinds, &[1, -5, 6, 7]) && holds(store, 0, 1);
    let following = holds(store, 1, -5) && holds(store, 2, 6) && holds(store, 3, 7);
    four && following && holds(store, 9, 1)
}

/// Both in turn.
fn keeps_all<S: Store>(store: &mut S, kinds: &[SlotKind]) -> bool
    requires { S.slot_kinds store.old ≡ kinds.now }
{
    keeps_numbers(store, kinds) && keeps_four(store, kinds)
}

/// Each call of a store: 0 at first; what is written is read, and no other place changes.
fn each_call<S: Store>(alloc: Global, kinds: &[SlotKind]) -> Result<bool, Fault>
    requires { length kinds.now ≤ 65536 }
{
    match S::make(alloc, kinds) {
        Ok(mut store) => Ok(keeps_all(&mut store, kinds)),
        Err(fault) => Err(fault),
    }
}

#[test]
fn each_store_keeps_what_is_written(rt: HostRuntime) {
    assert!(rt; each_call::<NamedStore>(rt.alloc(), &KINDS) == Ok(true));
    assert!(rt; each_call::<SlotStore>(rt.alloc(), &KINDS) == Ok(true));
}

/// A store of these kinds after n pseudo-random writes, and whether all of them were in range.
fn after_writes<S: Store>(
    alloc: Global,
    kinds: &[SlotKind],
    writes: u32,
) -> Result<(S, bool), Fault>
    requires { length kinds.now ≤ 65536 }
{
    let mut store = match S::make(alloc, kinds) {
        Ok(store) => store,
        Err(fault) => return Err(fault),
    };
    let mut all = true;
    let mut any = 1_u64;
    for step in 0..writes {
        any = any
            .wrapping_mul(6364136223846793005)
            .wrapping_add(1442695040888963407);
        let place = ((any / 4294967296) % 10) as u16;
        if usize::from(place) < kinds.len() {
            let number = within(kinds[usize::from(place)], any / 65536);
            let written = put(&mut store, kinds, place, number);
            all = all && written;
        }
    }
    Ok((store, all))
}

/// Whether two stores of n places hold the same numbers.
fn agree<A: Store, B: Store>(one: &A, other: &B, places: u16) -> bool {
    let count = usize::from(places);
    if one.size() != count || other.size() != count {
        return false;
    }
    for place in 0..places {
        if one.get(Place(place)) != other.get(Place(place)) {
            return false;
        }
    }
    true
}

/// Both stores were made, all writes were in range, and both hold the same numbers.
fn are_made_alike(
    named: &Result<(NamedStore, bool), Fault>,
    slots: &Result<(SlotStore, bool), Fault>,
) -> bool {
    match (named, slots) {
        (Ok(named), Ok(slots)) => named.1 && slots.1 && agree(&named.0, &slots.0, 10),
        _ => false,
    }
}

/// Both stores hold the same numbers after n writes.
fn agree_after(alloc: Global, writes: u32) -> bool {
    are_made_alike(
        &after_writes(alloc, &KINDS, writes),
        &after_writes(alloc, &KINDS, writes),
    )
}

/// Numbers of writes.
const WRITES: [u32; 6] = [0, 1, 2, 10, 100, 5000];

#[test]
fn both_stores_agree(rt: HostRuntime) {
    for writes in &WRITES {
        assert!(rt; agree_after(rt.alloc(), *writes));
    }
}
