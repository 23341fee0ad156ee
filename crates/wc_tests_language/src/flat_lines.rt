//! The flat lines of units.
use crate::texts::load_text;
use std::alloc::Global;
use wc_cost::Loaded;
use wc_model::{Code, Fault, Operator, Place, StandardBlock, StoreKind};

/// A block of two places, and a program with a timer, an instance of the block and plain variables.
const PLANT: &[u8] =
    b"FUNCTION_BLOCK Next\nVAR_INPUT x : DINT; END_VAR\nVAR_OUTPUT y : DINT := 9; END_VAR\nLD X\nADD 1\nST y\nEND_FUNCTION_BLOCK\nPROGRAM P\nVAR t : TON; a : Next; n : DINT := -7; b : BOOL := 1; p : TIME := T#2s; END_VAR\nCAL a(x := n)\nLD b\nCALCN t(IN := 1, PT := p)\nEND_PROGRAM";

/// The block's lines: its input, one added, its output.
fn is_next(code: &[Code]) -> bool {
    match code {
        [
            Code::LoadPlace {
                negated: false,
                place: Place(0),
            },
            Code::ApplyNumber {
                operator: Operator::Add,
                number: 1,
            },
            Code::Store {
                storing: StoreKind::Result,
                target: Place(1),
            },
        ] => true,
        _ => false,
    }
}

/// A call that passes over n lines if it is not made.
fn is_call(line: Option<&Code>, wanted: u32) -> bool {
    match line {
        Some(Code::Call { skip, .. }) => *skip == wanted,
        _ => false,
    }
}

/// The body of the timer at its first place.
fn is_timer(line: Option<&Code>) -> bool {
    match line {
        Some(
            Code::Standard {
                block: StandardBlock::Ton,
                at,
            },
        ) => at.0 == 45,
        _ => false,
    }
}

/// A call of the block with one input, a load, and a call of the timer with two.
fn is_program(code: &[Code]) -> bool {
    let calls = is_call(code.first(), 2) && is_call(code.get(4), 3);
    calls && is_timer(code.get(7)) && code.len() == 8
}

/// Both units are lowered so.
fn are_flat(loaded: &Loaded<'_>) -> bool {
    loaded.units() == 2 && is_next(loaded.code(0)) && is_program(loaded.code(1))
}

/// Both units of what is loaded are lowered so.
fn is_flat(loaded: &Result<Loaded<'_>, Fault>) -> bool {
    match loaded {
        Ok(loaded) => are_flat(loaded),
        Err(_) => false,
    }
}

/// Both units of a text are lowered so.
fn is_text_flat(alloc: Global, text: &[u8]) -> bool {
    is_flat(&load_text(alloc, text))
}

#[test]
fn calls_are_lowered(rt: HostRuntime) {
    assert!(rt; is_text_flat(rt.alloc(), PLANT));
}
