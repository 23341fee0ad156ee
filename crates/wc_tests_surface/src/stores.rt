//! The four calls of a store, over both stores.
ghost use Rattle.std.specs.Prelude.{◌≡◌, IfOk};

use std::alloc::Global;
use wc_model::{Fault, Place, SlotKind, wrap32};
use wc_store::{NamedStore, SlotStore, Store};

/// A store of two places.
fn make_store<S: Store>(alloc: Global, kinds: &[SlotKind]) -> Result<S, Fault>
    ensures { IfOk result (λ store. S.slot_kinds store ≡ kinds.now) }
{
    S::make(alloc, kinds)
}

/// What is written to a place is read there, and the other stays 0.
fn is_a_store<S: Store>(alloc: Global) -> bool {
    match make_store::<S>(alloc, &[SlotKind::Bool, SlotKind::Dint]) {
        Ok(mut store) => {
            let size: usize = store.size();
            store.set(Place(1), -5);
            let numbers: (i64, i64) = (store.get(Place(0)), store.get(Place(1)));
            size == 2 && numbers == (0, -5)
        }
        Err(_) => false,
    }
}

#[test]
fn stores_keep_numbers(rt: HostRuntime) {
    assert!(rt; is_a_store::<NamedStore>(rt.alloc()));
    assert!(rt; is_a_store::<SlotStore>(rt.alloc()));
    assert!(rt; wrap32(4294967295) == -1);
}
