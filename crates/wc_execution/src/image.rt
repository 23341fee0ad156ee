ghost use Rattle.std.specs.Prelude.{◌≡◌, ◌+◌, ◌<◌, ◌≤◌, ℕ, ℤ, List, ◌++◌, map, drop, pos, length, slice_index_or};
ghost use Rattle.wc_text_flat.specs.Contents.{with_image_numbers};
ghost use Rattle.wc_execution.specs.Lines.{AreAll, AreBefore};
ghost use Rattle.wc_model.specs.Definitions.{numbers_below, bit_number, is_bit_set};
ghost use Rattle.wc_model.specs.declared.kind.SlotKind.TheVariants as slots;
ghost use Rattle.wc_store.specs.Inside.{with_four};

use crate::fields::{set_count, set_truth};
use wc_model::Image;
use wc_store::Store;

/// Four bits as numbers, the lowest first.
#[derive(Clone, Copy)]
struct FourBits(i64, i64, i64, i64);

/// Those of each number below 16.
static ROWS: [FourBits; 16] = [
    FourBits(0, 0, 0, 0),
    FourBits(1, 0, 0, 0),
    FourBits(0, 1, 0, 0),
    FourBits(1, 1, 0, 0),
    FourBits(0, 0, 1, 0),
    FourBits(1, 0, 1, 0),
    FourBits(0, 1, 1, 0),
    FourBits(1, 1, 1, 0),
    FourBits(0, 0, 0, 1),
    FourBits(1, 0, 0, 1),
    FourBits(0, 1, 0, 1),
    FourBits(1, 1, 0, 1),
    FourBits(0, 0, 1, 1),
    FourBits(1, 0, 1, 1),
    FourBits(0, 1, 1, 1),
    FourBits(1, 1, 1, 1),
];

/// The lowest four bits.
#[inline(always)]
fn four_bits(bits: u16) -> FourBits
    ensures first { result.0 ≡ bit_number (is_bit_set bits 0) }
    ensures second { result.1 ≡ bit_number (is_bit_set bits 1) }
    ensures third { result.2 ≡ bit_number (is_bit_set bits 2) }
    ensures fourth { result.3 ≡ bit_number (is_bit_set bits 3) }
{
    ROWS[usize::from(bits % 16)]
}

/// Copies the lowest four bits to the places from `first` on.
#[inline(always)]
fn copy_four<S: Store>(store: &mut S, first: usize, bits: u16)
    requires slots { AreAll slots.Bool (S.slot_kinds store.old) first 4 }
    requires capacity { length (S.slot_kinds store.old) ≤ 65536 }
    ensures numbers { S.numbers store.new ≡ with_four (S.numbers store.old) first
        (bit_number (is_bit_set bits 0)) (bit_number (is_bit_set bits 1))
        (bit_number (is_bit_set bits 2)) (bit_number (is_bit_set bits 3)) }
    ensures kinds { S.slot_kinds store.new ≡ S.slot_kinds store.old }
    ensures moments { (now : ℕ) → AreBefore now (S.slot_kinds store.old) (S.numbers store.old)
        → AreBefore now (S.slot_kinds store.new) (S.numbers store.new) }
{
    let four = four_bits(bits);
    store.set_four(first, four.0, four.1, four.2, four.3);
}

/// Copies the sixteen bits of the inputs to the first places, four at a time.
fn copy_inputs<S: Store>(store: &mut S, inputs: u16)
    requires slots { AreAll slots.Bool (S.slot_kinds store.old) 0 16 }
    requires within { 16 ≤ length (S.numbers store.old) }
    requires capacity { length (S.slot_kinds store.old) ≤ 65536 }
    ensures numbers { S.numbers store.new
        ≡ map (λ i. bit_number (is_bit_set inputs i)) (numbers_below 16)
        ++ drop 16 (S.numbers store.old) }
    ensures kinds { S.slot_kinds store.new ≡ S.slot_kinds store.old }
    ensures moments { (now : ℕ) → AreBefore now (S.slot_kinds store.old) (S.numbers store.old)
        → AreBefore now (S.slot_kinds store.new) (S.numbers store.new) }
{
    for four in 0..4 {
        copy_four(store, 4 * four, inputs >> (4 * four));
    }
}

/// Copies the lowest bits to the places from `first` on.
fn copy_bits<S: Store>(store: &mut S, first: usize, count: u8, bits: u16)
    requires few { count ≤ 16 }
    requires slots { AreAll slots.Bool (S.slot_kinds store.old) first count }
    requires within { first + count ≤ length (S.numbers store.old) }
    requires capacity { length (S.slot_kinds store.old) ≤ 65536 }
    requires near { first < 64 }
    ensures numbers { (prefix rest : List ℤ) → length prefix ≡ first
        → S.numbers store.old ≡ prefix ++ rest
        → S.numbers store.new
        ≡ prefix ++ map (λ i. bit_number (is_bit_set bits i)) (numbers_below count)
        ++ drop count rest }
    ensures size { length (S.numbers store.new) ≡ length (S.numbers store.old) }
    ensures kinds { S.slot_kinds store.new ≡ S.slot_kinds store.old }
    ensures moments { (now : ℕ) → AreBefore now (S.slot_kinds store.old) (S.numbers store.old)
        → AreBefore now (S.slot_kinds store.new) (S.numbers store.new) }
{
    for bit in 0..count {
        set_truth(store, first + usize::from(bit), (bits >> bit) % 2 == 1);
    }
}

/// Copies the weights to the places from `first` on.
fn copy_weights<S: Store>(store: &mut S, first: usize, weights: &[i32; 3])
    requires slots { AreAll slots.Dint (S.slot_kinds store.old) first 3 }
    requires within { first + 3 ≤ length (S.numbers store.old) }
    requires capacity { length (S.slot_kinds store.old) ≤ 65536 }
    requires near { first < 64 }
    ensures numbers { (prefix rest : List ℤ) → length prefix ≡ first
        → S.numbers store.old ≡ prefix ++ rest
        → S.numbers store.new
        ≡ prefix ++ map (λ i. slice_index_or weights.now i (pos 0)) (numbers_below 3)
        ++ drop 3 rest }
    ensures size { length (S.numbers store.new) ≡ length (S.numbers store.old) }
    ensures kinds { S.slot_kinds store.new ≡ S.slot_kinds store.old }
    ensures moments { (now : ℕ) → AreBefore now (S.slot_kinds store.old) (S.numbers store.old)
        → AreBefore now (S.slot_kinds store.new) (S.numbers store.new) }
{
    for number in 0..3 {
        set_count(store, first + number, weights[number]);
    }
}

/// Copies the process image to the places of the inputs, which are the first.
pub fn copy_image<S: Store>(store: &mut S, image: &Image)
    requires inputs { AreAll slots.Bool (S.slot_kinds store.old) 0 22 }
    requires weights { AreAll slots.Dint (S.slot_kinds store.old) 22 3 }
    requires within { 25 ≤ length (S.numbers store.old) }
    requires capacity { length (S.slot_kinds store.old) ≤ 65536 }
    ensures numbers { S.numbers store.new ≡ with_image_numbers image.now (S.numbers store.old) }
    ensures kinds { S.slot_kinds store.new ≡ S.slot_kinds store.old }
    ensures moments { (now : ℕ) → AreBefore now (S.slot_kinds store.old) (S.numbers store.old)
        → AreBefore now (S.slot_kinds store.new) (S.numbers store.new) }
{
    copy_inputs(store, image.inputs);
    copy_bits(store, 16, 6, u16::from(image.status));
    copy_weights(store, 22, &image.weights);
}
