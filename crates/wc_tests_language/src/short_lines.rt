//! Short lines, which the reader takes in place, next to the same after a label, which it goes over token by token.
ghost use Rattle.std.specs.Prelude.{◌≤◌};

use std::alloc::Global;
use wc_model::{Condition, Decl, Fault, Instr, Line, Operand, Operator, Source, StoreKind, Value};
use wc_reader::read;

/// What an operand is: a number for its form, and its value or the number of letters it has.
fn operand_numbers(operand: &Operand<'_>) -> (u8, i64) {
    match operand {
        Operand::Literal(value) => match value {
            Value::Bool(truth) => (1, i64::from(*truth)),
            Value::Dint(number) => (2, i64::from(*number)),
            Value::Time(time) => (3, i64::from(*time)),
        },
        Operand::Address(word) => (4, word.text.len() as i64),
        Operand::Name(name) => (5, name.len() as i64),
        Operand::Field { .. } => (6, 0),
    }
}

/// A number for a condition.
fn condition_number(condition: Condition) -> u8
    ensures { result ≤ 2 }
{
    match condition {
        Condition::Always => 0,
        Condition::IfTrue => 1,
        Condition::IfFalse => 2,
    }
}

/// A number for what is stored.
fn storing_number(storing: StoreKind) -> u8
    ensures { result ≤ 3 }
{
    match storing {
        StoreKind::Result => 0,
        StoreKind::Negation => 1,
        StoreKind::Set => 2,
        StoreKind::Reset => 3,
    }
}

/// What an instruction is: a number for its word, its operand and its line.
fn numbers(instr: &Instr<'_>) -> (u8, (u8, i64), u32) {
    match instr {
        Instr::Load {
            negated,
            operand,
            line,
        } => (10 + u8::from(*negated), operand_numbers(operand), *line),
        Instr::Store {
            storing,
            target,
            line,
        } => (
            20 + storing_number(*storing),
            operand_numbers(target),
            *line,
        ),
        Instr::Apply {
            operator,
            operand,
            line,
        } => (
            30 + u8::from(*operator == Operator::Add),
            operand_numbers(operand),
            *line,
        ),
        Instr::Jump {
            condition,
            label,
            line,
        } => (
            40 + condition_number(*condition),
            (5, label.len() as i64),
            *line,
        ),
        Instr::Call {
            condition,
            arguments,
            line,
            ..
        } => (
            50 + condition_number(*condition),
            (7, arguments.len() as i64),
            *line,
        ),
        _ => (0, (0, 0), 0),
    }
}

/// The line at that place of the body of the first unit, counted from 0.
fn line_at<'s, 'a>(read: &'s Result<Source<'a>, Fault>, place: usize) -> Option<&'s Line<'a>> {
    match read {
        Ok(source) => match source.units.first() {
            Some(unit) => unit.body.get(place),
            None => None,
        },
        Err(_) => None,
    }
}

/// The instruction that is at that place of the program's body, counted from 0.
fn instruction_at(alloc: Global, text: &[u8], place: usize) -> (u8, (u8, i64), u32) {
    match line_at(&read(alloc, text), place) {
        Some(line) => match &line.instr {
            Some(instr) => numbers(instr),
            None => (4, (0, 0), 0),
        },
        None => (1, (0, 0), 0),
    }
}

/// The number of letters and the line of the label at that place of the program's body.
fn label_at(alloc: Global, text: &[u8], place: usize) -> (usize, u32) {
    match line_at(&read(alloc, text), place) {
        Some(line) => match line.label {
            Some(label) => (label.text.len(), label.line),
            None => (0, 0),
        },
        None => (0, 1),
    }
}

/// The declaration at that place of the first unit.
fn nth_declaration<'s, 'a>(
    read: &'s Result<Source<'a>, Fault>,
    place: usize,
) -> Option<&'s Decl<'a>> {
    match read {
        Ok(source) => match source.units.first() {
            Some(unit) => unit.declarations.get(place),
            None => None,
        },
        Err(_) => None,
    }
}

/// The number of letters that the name and the type of the declaration at that place of a text have, and their lines.
fn declaration_at(alloc: Global, text: &[u8], place: usize) -> (usize, u32, usize, u32) {
    match nth_declaration(&read(alloc, text), place) {
        Some(declaration) => {
            let word = declaration.type_name;
            match declaration.names.first() {
                Some(name) => (name.text.len(), name.line, word.text.len(), word.line),
                None => (0, 4, 0, 0),
            }
        }
        None => (0, 1, 0, 0),
    }
}

/// Texts, each with a place of its body and the instruction there.
const OPERATORS: [(&[u8], usize, (u8, (u8, i64), u32)); 7] = [
    (b"PROGRAM P\nLDN abc\nEND_PROGRAM", 0, (11, (5, 3), 2)),
    (b"PROGRAM P\nL: LDN abc\nEND_PROGRAM", 0, (11, (5, 3), 2)),
    (b"PROGRAM P\nLD %IX0.7\nEND_PROGRAM", 0, (10, (4, 6), 2)),
    (b"PROGRAM P\nL: LD %IX0.7\nEND_PROGRAM", 0, (10, (4, 6), 2)),
    (b"PROGRAM P\nLD 1\nADD -5\nEND_PROGRAM", 1, (31, (2, -5), 3)),
    (
        b"PROGRAM P\nLD T#2s\nAND TRUE\nEND_PROGRAM",
        0,
        (10, (3, 2000), 2),
    ),
    (
        b"PROGRAM P\nLD T#2s\nAND TRUE\nEND_PROGRAM",
        1,
        (30, (1, 1), 3),
    ),
];

#[test]
fn an_operator_and_its_operand_are_a_line(rt: HostRuntime) {
    for (text, place, wanted) in &OPERATORS {
        assert!(rt; instruction_at(rt.alloc(), text, *place) == *wanted);
    }
}

/// The instructions at these places of the program's body are these.
fn are_instructions(alloc: Global, text: &[u8], rows: &[(usize, (u8, (u8, i64), u32))]) -> bool {
    for (place, wanted) in rows {
        if instruction_at(alloc, text, *place) != *wanted {
            return false;
        }
    }
    true
}

#[test]
fn what_is_stored_is_a_line(rt: HostRuntime) {
    let text = b"PROGRAM P\nST abcd\nSTN b\nS c\nR %QX0.0\nL: R a\nEND_PROGRAM";
    let rows = [
        (0, (20, (5, 4), 2)),
        (1, (21, (5, 1), 3)),
        (2, (22, (5, 1), 4)),
        (3, (23, (4, 6), 5)),
        (4, (23, (5, 1), 6)),
    ];
    assert!(rt; are_instructions(rt.alloc(), text, &rows));
}

#[test]
fn a_jump_and_its_label_are_a_line(rt: HostRuntime) {
    let text = b"PROGRAM P\nJMP on\nJMPC off\n\nJMPCN o\nL: JMPCN on\nEND_PROGRAM";
    let rows = [
        (0, (40, (5, 2), 2)),
        (1, (41, (5, 3), 3)),
        (2, (42, (5, 1), 5)),
        (3, (42, (5, 2), 6)),
    ];
    assert!(rt; are_instructions(rt.alloc(), text, &rows));
}

#[test]
fn a_label_alone_is_a_line(rt: HostRuntime) {
    let text = b"PROGRAM P\n\non:\noff: LD 1\nEND_PROGRAM";
    assert!(rt; label_at(rt.alloc(), text, 0) == (2, 3));
    assert!(rt; label_at(rt.alloc(), text, 1) == (3, 4));
    let rows = [(0, (4, (0, 0), 0)), (1, (10, (2, 1), 4))];
    assert!(rt; are_instructions(rt.alloc(), text, &rows));
}

#[test]
fn a_call_and_its_list_are_a_line(rt: HostRuntime) {
    let text =
        b"PROGRAM P\nCAL a(x := 1, y := b, z := %IX0.0)\nCALC a(x := 1)\nCALCN a\nL: CALCN a(x := 1, y := b)\nEND_PROGRAM";
    let rows = [
        (0, (50, (7, 3), 2)),
        (1, (51, (7, 1), 3)),
        (2, (52, (7, 0), 4)),
        (3, (52, (7, 2), 5)),
    ];
    assert!(rt; are_instructions(rt.alloc(), text, &rows));
}

#[test]
fn a_name_and_its_type_are_a_declaration(rt: HostRuntime) {
    let text =
        b"PROGRAM P\nVAR abc : BOOL;\nde : DINT;\nf\n: TON; g : BOOL := TRUE;\nEND_VAR\nEND_PROGRAM";
    assert!(rt; declaration_at(rt.alloc(), text, 0) == (3, 2, 4, 2));
    assert!(rt; declaration_at(rt.alloc(), text, 1) == (2, 3, 4, 3));
    assert!(rt; declaration_at(rt.alloc(), text, 2) == (1, 4, 3, 5));
    assert!(rt; declaration_at(rt.alloc(), text, 3) == (1, 5, 4, 5));
}
