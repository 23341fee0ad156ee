//! Programs scan by scan, over both stores.
ghost use Rattle.std.specs.Prelude.{◌≡◌};

use crate::texts::load_text;
use std::alloc::Global;
use wc_machine::Machine;
use wc_model::{Fault, Image, Outputs, Place, Steps};
use wc_store::{NamedStore, SlotStore, Store};

/// The inputs, and a scale that shows nothing.
fn image(inputs: u16) -> Image
    ensures { result.status ≡ 0 }
{
    Image {
        inputs,
        status: 0,
        weights: [0, 0, 0],
    }
}

/// A scan of the inputs if its moment is not before the last: its steps and what is at the outputs.
fn scan<S: Store>(machine: &mut Machine<'_, S>, ms: u64, inputs: u16) -> Option<(Steps, Outputs)> {
    if ms < machine.last() || ms > 1_099_511_627_775 {
        return None;
    }
    let steps = machine.scan(ms, &image(inputs));
    Some((steps, machine.outputs()))
}

/// Steps, bits and words of scans with each of the inputs, at each hundredth of a second, mixed into one number.
fn mixed_scans<S: Store>(machine: &mut Machine<'_, S>, all: &[u16]) -> i64 {
    let mut mix = i64::from(machine.bound());
    let mut ms = 0_u64;
    for inputs in all {
        if let Some((steps, outputs)) = scan(machine, ms, *inputs) {
            mix = mix.wrapping_mul(1000003).wrapping_add(i64::from(steps.0));
            mix = mix
                .wrapping_mul(1000003)
                .wrapping_add(i64::from(outputs.bits));
            for word in outputs.words {
                mix = mix.wrapping_mul(1000003).wrapping_add(i64::from(word));
            }
        }
        ms = ms.saturating_add(10);
    }
    mix
}

/// The scans of a machine mixed into one number, if it was made.
fn mixed_if_made<S: Store>(made: &mut Result<Machine<'_, S>, Fault>, all: &[u16]) -> Option<i64> {
    match made {
        Ok(machine) => Some(mixed_scans(machine, all)),
        Err(_) => None,
    }
}

/// The scans of a text over a store mixed into one number; nothing if the text is refused.
fn mixed_over<S: Store>(alloc: Global, text: &[u8], all: &[u16]) -> Option<i64> {
    match load_text(alloc, text) {
        Ok(loaded) => mixed_if_made(&mut Machine::<S>::new(alloc, loaded), all),
        Err(_) => None,
    }
}

/// Over both stores the scans of a text leave the same.
fn agree(alloc: Global, text: &[u8], all: &[u16]) -> bool {
    let found = mixed_over::<SlotStore>(alloc, text, all);
    found.is_some() && mixed_over::<NamedStore>(alloc, text, all) == found
}

/// Numbers, bits, jumps and parentheses.
const OPERATORS: &[u8] =
    b"PROGRAM P\nVAR a, b : BOOL; END_VAR\nLD %IX0.0\nAND(\nLD %IX0.1\nOR %IX0.2\n)\nSTN a\nXORN %IX0.3\nS %QX0.0\nLDN a\nR %QX0.1\nJMPC L\nLD -7\nDIV 2\nST %QD0\nMOD 2\nST %QD1\nGT -3\nST b\nL: LD 2147483647\nADD( %QD0\nMUL 65537\n)\nST %QD2\nLD b\nRETCN\nST %QX0.2\nEND_PROGRAM";

/// Standard blocks.
const BLOCKS: &[u8] =
    b"PROGRAM P\nVAR c : CTU; t : TON; o : TOF; e : R_TRIG; k : SR; END_VAR\nCAL c(CU := %IX0.0, R := %IX0.1, PV := 2)\nCAL t(IN := %IX0.0, PT := T#20ms)\nCAL o(IN := %IX0.0, PT := T#20ms)\nCAL e(CLK := %IX0.0)\nCAL k(S1 := e.Q, R := %IX0.1)\nLD c.Q\nST %QX0.0\nLD c.CV\nST %QD0\nLD t.Q\nST %QX0.1\nLD o.Q\nST %QX0.2\nLD k.Q1\nST %QX0.3\nEND_PROGRAM";

/// Blocks of the text's own, one inside the other.
const INSTANCES: &[u8] =
    b"FUNCTION_BLOCK A\nVAR_INPUT x : DINT; END_VAR\nVAR_OUTPUT y : DINT := 3; END_VAR\nLD y\nADD x\nST y\nEND_FUNCTION_BLOCK\nFUNCTION_BLOCK B\nVAR_OUTPUT z : DINT; END_VAR\nVAR p, q : A; END_VAR\nCAL p(x := 1)\nCAL q(x := 10)\nLD p.y\nADD q.y\nST z\nEND_FUNCTION_BLOCK\nPROGRAM P\nVAR m, n : B; END_VAR\nCAL m\nLD %IX0.0\nCALC n\nLD m.z\nST %QD0\nLD n.z\nST %QD1\nEND_PROGRAM";

#[test]
fn both_stores_are_scanned_alike(rt: HostRuntime) {
    let all = [0, 1, 1, 3, 5, 6, 15, 8, 1, 0, 0, 2, 0, 1, 1, 1];
    assert!(rt; agree(rt.alloc(), OPERATORS, &all));
    assert!(rt; agree(rt.alloc(), BLOCKS, &all));
    assert!(rt; agree(rt.alloc(), INSTANCES, &all));
}

/// What is at the outputs, and at some places: the second output bit, the second word, and a place after the last.
fn has_seen(machine: &Machine<'_, SlotStore>) -> bool {
    let outputs = machine.outputs();
    let right = outputs.bits == 3 && outputs.words == [5000, -5, 2147483647, 0];
    let bit = machine.number(Place(26)) == Some(1) && machine.number(Place(27)) == Some(0);
    let word = machine.number(Place(42)) == Some(-5) && machine.number(Place(45)).is_none();
    right && bit && word
}

/// A machine of a program that copies what it sees of a scale.
fn sees(machine: &mut Machine<'_, SlotStore>) -> bool {
    let seen = Image {
        inputs: 0,
        status: 33,
        weights: [5000, -5, 2147483647],
    };
    if machine.last() > 7 {
        return false;
    }
    let steps = machine.scan(7, &seen);
    has_seen(machine) && steps == Steps(10) && machine.last() == 7
}

/// Whether a machine sees the image, if it was made.
fn sees_if_made(made: &mut Result<Machine<'_, SlotStore>, Fault>) -> bool {
    match made {
        Ok(machine) => sees(machine),
        Err(_) => false,
    }
}

/// A machine of the program's text copies what it sees.
fn is_seen(alloc: Global) -> bool {
    let text =
        b"PROGRAM P\nLD %IX1.0\nST %QX0.0\nLD %IX1.5\nST %QX0.1\nLD %ID0\nST %QD0\nLD %ID1\nST %QD1\nLD %ID2\nST %QD2\nEND_PROGRAM";
    match load_text(alloc, text) {
        Ok(loaded) => sees_if_made(&mut Machine::new(alloc, loaded)),
        Err(_) => false,
    }
}

#[test]
fn the_image_is_there_before_the_scan(rt: HostRuntime) {
    assert!(rt; is_seen(rt.alloc()));
}
