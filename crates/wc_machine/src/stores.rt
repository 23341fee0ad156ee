ghost use Rattle.std.specs.Prelude.{◌≡◌, ◌≤◌, ℕ, IfOk, IsOkUnless, length};
ghost use Rattle.wc_execution.specs.Lines.{AreBefore};
ghost use Rattle.wc_laws_language.specs.FirstNumbers.{AreFirst};
ghost use Rattle.wc_machine.specs.Machines.{AreCarried};
ghost use Rattle.wc_model.specs.Definitions.{slot_kinds, text_view};
ghost use Rattle.wc_text_flat.specs.Contents.{frame_of_text};

use std::alloc::Global;
use wc_cost::Loaded;
use wc_model::{Fault, Place, SlotKind};
use wc_store::Store;

/// The store with the first numbers at its places.
fn with_initials<S: Store>(store: S, initials: &[i64]) -> S
    requires first { AreFirst (S.slot_kinds store) initials.now }
    requires numbers { length (S.numbers store) ≡ length initials.now }
    requires capacity { length initials.now ≤ 65536 }
    requires moments { AreBefore 0 (S.slot_kinds store) (S.numbers store) }
    ensures numbers { S.numbers result ≡ initials.now }
    ensures kinds { S.slot_kinds result ≡ S.slot_kinds store }
    ensures moments { AreBefore 0 (S.slot_kinds result) (S.numbers result) }
{
    let mut store = store;
    for at in 0..initials.len() {
        store.set_at(at, initials[at]);
    }
    store
}

/// A store of these kinds that holds the first numbers. `Memory` is its only fault.
pub(crate) fn first_store<S: Store>(
    alloc: Global,
    kinds: &[SlotKind],
    initials: &[i64],
) -> Result<S, Fault>
    requires count { length initials.now ≡ length kinds.now }
    requires first { AreFirst kinds.now initials.now }
    requires capacity { length kinds.now ≤ 65536 }
    ensures numbers { IfOk result (λ store. S.numbers store ≡ initials.now) }
    ensures kinds { IfOk result (λ store. S.slot_kinds store ≡ kinds.now) }
    ensures moments { IfOk result (λ store. AreBefore 0 (S.slot_kinds store) (S.numbers store)) }
    ensures memory { IsOkUnless result Fault.Memory }
{
    let store = S::make(alloc, kinds)?;
    Ok(with_initials(store, initials))
}

/// The store of a new text's first numbers, with the old text's numbers at the places that keep them.
pub(crate) fn carried_over<S: Store>(
    first: S,
    loaded: &Loaded<'_>,
    old: &Loaded<'_>,
    old_store: &S,
) -> S
    requires kinds { S.slot_kinds first
        ≡ slot_kinds (frame_of_text (text_view loaded.now.source)) }
    requires numbers { length (S.numbers first)
        ≡ length (frame_of_text (text_view loaded.now.source)) }
    requires capacity { length (S.slot_kinds first) ≤ 65536 }
    requires old_kinds { S.slot_kinds old_store.now
        ≡ slot_kinds (frame_of_text (text_view old.now.source)) }
    ensures kinds { S.slot_kinds result ≡ S.slot_kinds first }
    ensures numbers { AreCarried (text_view old.now.source) (text_view loaded.now.source)
        (S.numbers old_store.now) (S.numbers first) (S.numbers result) }
    ensures moments { (last : ℕ) → AreBefore last (S.slot_kinds first) (S.numbers first)
        → AreBefore last (S.slot_kinds old_store.now) (S.numbers old_store.now)
        → AreBefore last (S.slot_kinds result) (S.numbers result) }
{
    let mut store = first;
    for at in 0..loaded.size() {
        let place = Place(at as u16);
        if let Some(from) = loaded.carry(old, place) {
            let number = old_store.get_at(from.0 as usize);
            store.set_at(at, number);
        }
    }
    store
}
