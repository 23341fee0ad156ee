//! Texts, read into their trees.
use std::alloc::Global;
use wc_model::{Fault, Source};
use wc_reader::read;

/// The number of units that were read, and those of the declarations and of the lines in no parenthesis that the first has.
fn parts(read: &Result<Source<'_>, Fault>) -> Option<(usize, usize, usize)> {
    match read {
        Ok(source) => match source.units.first() {
            Some(unit) => Some((source.units.len(), unit.declarations.len(), unit.body.len())),
            None => None,
        },
        Err(_) => None,
    }
}

/// The text is read, and has n units; the first has n declarations, and n lines that are in no parenthesis.
fn has_parts(alloc: Global, text: &[u8], units: usize, declarations: usize, lines: usize) -> bool {
    parts(&read(alloc, text)) == Some((units, declarations, lines))
}

#[test]
fn a_program_is_read(rt: HostRuntime) {
    let copy = b"\n\nPROGRAM P\nLD %IX0.0\nST %QX0.0\nEND_PROGRAM\n\n";
    assert!(rt; has_parts(rt.alloc(), copy, 1, 0, 2));
    let blocks = b"FUNCTION_BLOCK A VAR END_VAR END_FUNCTION_BLOCK program P LD true\nend_program";
    assert!(rt; has_parts(rt.alloc(), blocks, 2, 0, 0));
    let labels = b"PROGRAM P\nVAR:\nEND_PROGRAM: LD 1\nLD:LD x.y\nEND_PROGRAM";
    assert!(rt; has_parts(rt.alloc(), labels, 1, 0, 3));
    let parts =
        b"PROGRAM P\nVAR_INPUT a, b : BOOL := TRUE; c : INT; END_VAR\nL: LD a\nAND( b\nOR t.Q\n)\nCALC t(IN := 5,\nPT := T#1s\n)\nEND_PROGRAM";
    assert!(rt; has_parts(rt.alloc(), parts, 1, 2, 3));
}
