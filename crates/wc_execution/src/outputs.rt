ghost use Rattle.std.specs.Prelude.{◌≡◌, ◌+◌, ◌*◌, ◌^◌, ◌<◌, ◌≤◌, ℕ, ℤ, Some, map, sum, pos, length, slice_get};
ghost use Rattle.wc_execution.specs.Lines.{AreAll};
ghost use Rattle.wc_model.specs.Language.DirectVariables.{numbers_below};
ghost use Rattle.wc_model.specs.declared.kind.SlotKind.TheVariants as slots;

use crate::fields::{count_at, truth_at};
use wc_model::{Outputs, Place};
use wc_store::Store;

/// The output bits, bit i for `%QX0.i`, which are at the places from 25 on.
fn bits<S: Store>(store: &S) -> u16
    requires slots { AreAll slots.Bool (S.slot_kinds store.now) 25 16 }
    requires capacity { length (S.slot_kinds store.now) ≤ 65536 }
    ensures { (on : ℕ → ℕ)
        → ((i : ℕ) → i < 16 → slice_get (S.numbers store.now) (25 + i) ≡ Some (pos (on i)))
        → result ≡ sum (map (λ i. 2 ^ i * on i) (numbers_below 16)) }
{
    let mut bits = 0;
    for bit in 0_u8..16 {
        if truth_at(store, 25 + usize::from(bit)) {
            bits += 1 << bit;
        }
    }
    bits
}

/// What is at the outputs.
pub fn read_outputs<S: Store>(store: &S) -> Outputs
    requires bits { AreAll slots.Bool (S.slot_kinds store.now) 25 16 }
    requires words { AreAll slots.Dint (S.slot_kinds store.now) 41 4 }
    requires capacity { length (S.slot_kinds store.now) ≤ 65536 }
    ensures bits { (on : ℕ → ℕ)
        → ((i : ℕ) → i < 16 → slice_get (S.numbers store.now) (25 + i) ≡ Some (pos (on i)))
        → result.bits ≡ sum (map (λ i. 2 ^ i * on i) (numbers_below 16)) }
    ensures words { (word : ℕ → ℤ)
        → ((i : ℕ) → i < 4 → slice_get (S.numbers store.now) (41 + i) ≡ Some (word i))
        → result.words ≡ map word (numbers_below 4) }
{
    Outputs {
        bits: bits(store),
        words: [
            count_at(store, 41),
            count_at(store, 42),
            count_at(store, 43),
            count_at(store, 44),
        ],
    }
}

/// The number at a place, if the store has that place.
pub fn number_at<S: Store>(store: &S, place: Place) -> Option<i64>
    ensures { result ≡ slice_get (S.numbers store.now) place.0 }
{
    let at = usize::from(place.0);
    if at < store.size() {
        Some(store.get_at(at))
    } else {
        None
    }
}
