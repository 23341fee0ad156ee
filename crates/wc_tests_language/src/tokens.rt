//! The tokens of texts.
use std::alloc::Global;
use wc_lexer::{Shape, Token, tokens};
use wc_model::Fault;

/// The shapes of tokens are these.
fn are_shapes(found: &[Token<'_>], wanted: &[Shape]) -> bool {
    if found.len() != wanted.len() {
        return false;
    }
    for at in 0..wanted.len() {
        if found[at].shape != wanted[at] {
            return false;
        }
    }
    true
}

/// The shapes of a text's tokens are these.
fn has_shapes(alloc: Global, text: &[u8], wanted: &[Shape]) -> bool {
    match tokens(alloc, text) {
        Ok(found) => are_shapes(&found, wanted),
        Err(_) => false,
    }
}

/// The text is refused so.
fn is_refused(alloc: Global, text: &[u8], number: u16, place: u32) -> bool {
    match tokens(alloc, text) {
        Ok(_) => false,
        Err(fault) => fault == Fault::Refused { number, place },
    }
}

/// The token of that number of a text with comments is this.
fn is_token(alloc: Global, number: usize, wanted: Token<'_>) -> bool {
    match tokens(alloc, b"LD (* a\nb *) %IX0.0 \r\n&n7 := -5") {
        Ok(found) => found.len() == 7 && found.get(number) == Some(&wanted),
        Err(_) => false,
    }
}

/// Tokens of that text, each after its number.
const SLICES: [(usize, Token<'static>); 5] = [
    (
        0,
        Token {
            shape: Shape::Identifier,
            text: b"LD",
            start: 0,
            line: 1,
        },
    ),
    (
        1,
        Token {
            shape: Shape::Address,
            text: b"%IX0.0",
            start: 13,
            line: 2,
        },
    ),
    (
        2,
        Token {
            shape: Shape::LineEnd,
            text: b"\n",
            start: 21,
            line: 2,
        },
    ),
    (
        3,
        Token {
            shape: Shape::And,
            text: b"&",
            start: 22,
            line: 3,
        },
    ),
    (
        6,
        Token {
            shape: Shape::Whole(-5),
            text: b"-5",
            start: 29,
            line: 3,
        },
    ),
];

#[test]
fn tokens_are_slices(rt: HostRuntime) {
    for (number, wanted) in &SLICES {
        assert!(rt; is_token(rt.alloc(), *number, *wanted));
    }
}

/// Literals, each with the shape of its token.
const LITERALS: [(&[u8], Shape); 10] = [
    (b"16#7FFFFFFF", Shape::Whole(2147483647)),
    (b"T#1d2h3m4s5ms", Shape::Duration(93784005)),
    (b"T#25h", Shape::Duration(90000000)),
    (b"T#1m_30s", Shape::Duration(90000)),
    (b"T#0.1h", Shape::Duration(360000)),
    (b"T#1.5000s", Shape::Duration(1500)),
    (b"T#-1.5s", Shape::Duration(-1500)),
    (b"TIME#24d20h31m23s647ms", Shape::Duration(2147483647)),
    (b"T#-24d20h31m23s648ms", Shape::Duration(-2147483648)),
    (b"bool#1", Shape::Truth(true)),
];

#[test]
fn literals_have_values(rt: HostRuntime) {
    for (text, shape) in &LITERALS {
        assert!(rt; has_shapes(rt.alloc(), text, &[*shape]));
    }
}

#[test]
fn wrong_lexemes_are_refused(rt: HostRuntime) {
    assert!(rt; is_refused(rt.alloc(), b"\nBOOL#2", 105, 2));
}

#[test]
fn ampersand_n_ends_where_a_name_does(rt: HostRuntime) {
    assert!(rt; has_shapes(rt.alloc(), b"&N x", &[Shape::AndNot, Shape::Identifier]));
    assert!(rt; has_shapes(rt.alloc(), b"&Nx", &[Shape::And, Shape::Identifier]));
    assert!(rt; has_shapes(rt.alloc(), b"& N", &[Shape::And, Shape::Identifier]));
}
