//! What is suspicious of texts that the verifier accepts.
use crate::texts::check;
use std::alloc::Global;
use wc_diag_warnings::{Warning, find_warnings};
use wc_model::{Fault, Source};
use wc_reader::read;

/// A warning as its number, its line and its name.
type Row = (u8, u32, &'static [u8]);

/// The warnings that were found are these.
fn are_rows(found: &Result<Vec<Warning<'_>>, Fault>, rows: &[Row]) -> bool {
    match found {
        Ok(found) => {
            for at in 0..rows.len() {
                let (number, line, name) = rows[at];
                if found.get(at) != Some(&Warning { number, line, name }) {
                    return false;
                }
            }
            found.len() == rows.len()
        }
        Err(_) => false,
    }
}

/// A text was read, and its warnings are these.
fn has_warnings(alloc: Global, read: &Result<Source<'_>, Fault>, rows: &[Row]) -> bool {
    match read {
        Ok(source) => are_rows(&find_warnings(alloc, source), rows),
        Err(_) => false,
    }
}

/// The text is accepted, and its warnings are these.
fn is_warned(alloc: Global, text: &[u8], rows: &[Row]) -> bool {
    check(alloc, text).is_ok() && has_warnings(alloc, &read(alloc, text), rows)
}

#[test]
fn names_that_do_nothing(rt: HostRuntime) {
    let text = b"FUNCTION_BLOCK B
VAR_INPUT a, b : BOOL; END_VAR
VAR_OUTPUT c, d : BOOL; END_VAR
LD A
ST C
END_FUNCTION_BLOCK
PROGRAM P
VAR
  x, y : DINT; z : DINT := 3;
  w : DINT;
  one, two : B;
  t, u, v : TON;
END_VAR
LD z
ADD w
ST X
CAL One(a := %IX0.0)
CAL t(IN := one.c)
LD T#1s
ST u.PT
CAL U
CAL v(PT := t.ET)
END_PROGRAM
";
    let rows: [Row; 7] = [
        (2, 2, b"b"),
        (5, 3, b"d"),
        (2, 9, b"x"),
        (1, 9, b"y"),
        (3, 10, b"w"),
        (4, 11, b"two"),
        (6, 12, b"t"),
    ];
    assert!(rt; is_warned(rt.alloc(), text, &rows));
}

#[test]
fn lines_and_outputs(rt: HostRuntime) {
    let text = b"PROGRAM P
LD %IX0.0
ST %Q0.1
JMPCN off
LD 1
ST %QD0
JMP on
LD 7
ST %QD1
off: LD 0
ST %QD0
on:
LD %IX0.1
ST %QX0.1
S %QX0.2
R %QX0.2
RET
LD 8
ST %QD2
END_PROGRAM
";
    let rows: [Row; 3] = [(7, 8, b""), (8, 14, b"%QX0.1"), (7, 18, b"")];
    assert!(rt; is_warned(rt.alloc(), text, &rows));
}

#[test]
fn weights_unasked(rt: HostRuntime) {
    let text = b"PROGRAM P\nLD %ID1\nADD(%ID0\n)\nST %QD0\nEND_PROGRAM\n";
    assert!(rt; is_warned(rt.alloc(), text, &[(9, 2, b"%ID1")]));
    let text = b"PROGRAM P\nLD %ID1\nST %QD0\nLD %I1.5\nST %QX0.0\nEND_PROGRAM\n";
    assert!(rt; is_warned(rt.alloc(), text, &[]));
}
