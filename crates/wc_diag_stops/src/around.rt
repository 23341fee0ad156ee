ghost use Rattle.std.specs.Prelude.{◌≡◌, map};
ghost use Rattle.wc_diag_stops.specs.Stopping.{exchanged};

use std::mem;
use wc_lexer::{Shape, Token};

/// The bytes of a token; none if there is none.
pub fn text_of<'a>(token: Option<&Token<'a>>) -> &'a [u8] {
    token.map(|token| token.text).unwrap_or(b"")
}

/// The bytes of a token that is a word; none if it is none.
pub fn word_of<'a>(token: Option<&Token<'a>>) -> &'a [u8] {
    text_of(token.filter(|token| matches!(token.shape, Shape::Identifier)))
}

/// Whether a token is there and has that shape.
pub fn is_shape(token: Option<&Token<'_>>, shape: Shape) -> bool {
    token.is_some_and(|token| token.shape == shape)
}

/// Whether a token ends a line.
pub fn is_line_end(token: &Token<'_>) -> bool {
    matches!(token.shape, Shape::LineEnd)
}

/// The tokens after the last line end.
pub fn last_line<'a, 't>(tokens: &'t [Token<'a>]) -> &'t [Token<'a>] {
    tokens
        .rsplit(|token| is_line_end(token))
        .next()
        .unwrap_or(tokens)
}

/// The tokens up to the last that ends no line.
pub fn without_line_ends<'a, 't>(tokens: &'t [Token<'a>]) -> &'t [Token<'a>] {
    let count = tokens
        .iter()
        .rev()
        .take_while(|token| is_line_end(token))
        .count();
    let (some, _) = tokens.split_at(tokens.len().saturating_sub(count));
    some
}

/// The first word of a line after its label, if it has one.
pub fn operator_on<'a>(line: &[Token<'a>]) -> &'a [u8] {
    match line {
        [_, colon, ..] if colon.shape == Shape::Colon => text_of(line.get(2)),
        _ => text_of(line.first()),
    }
}

/// Exchanges the lines of tokens with their places: a walk that yields lines then yields places.
/// A second time takes it back.
pub fn exchange(tokens: &mut [Token])
    ensures { tokens.new ≡ map exchanged tokens.old }
{
    for token in tokens.iter_mut() {
        mem::swap(&mut token.start, &mut token.line);
    }
}
