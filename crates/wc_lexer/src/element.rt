ghost use Rattle.std.specs.Prelude.{◌≡◌, ◌+◌, ◌≤◌, ◌==◌, length, true};
ghost use Rattle.std.specs.Char.{is_ascii_digit};
ghost use Rattle.wc_lexer.specs.Views.{IsWithin, sight_of};
ghost use Rattle.wc_laws_grammar.specs.Sights.{sight, sight_by_reach, sight_in_comment, reach};
ghost use Rattle.wc_model.specs.Definitions.{from_bracket, begins, starts_identifier};

use crate::Shape;
use crate::lengths::lexeme_length;
use crate::numbers::signed_number;
use crate::plain_numbers::plain_number;
use crate::prefixes::{begins_with, following_first, identifier_prefix};
use crate::shapes::{is_name, shape};
use crate::spaces::{from_bracket, opens_comment, starts_space};

/// What is at a place of a text.
#[derive(Clone, Copy, PartialEq, Eq)]
pub(crate) enum LexicalElement {
    /// A space, a tab, or a CR before LF.
    Space,
    /// A comment of that many bytes.
    Comment(usize),
    /// A token of that many bytes.
    Lexeme(usize, Shape),
    /// The fault of that number.
    Fault(u16),
}

/// What a comment's inside says.
fn comment(inside: &[u8]) -> LexicalElement
    ensures sight { sight_of result ≡ sight_in_comment inside.now (from_bracket inside.now) }
    ensures within { IsWithin (length inside.now + 2) result }
{
    match from_bracket(inside) {
        [] => LexicalElement::Fault(102),
        [b'*', after @ ..] => LexicalElement::Comment(2 + (inside.len() - after.len()) + 1),
        _ => LexicalElement::Fault(103),
    }
}

/// The longest lexeme that is here, by its length and its shape.
#[inline(never)]
fn any_lexeme(text: &[u8]) -> LexicalElement
    ensures sight { sight_of result ≡ sight_by_reach (reach text.now) text.now }
    ensures within { IsWithin (length text.now) result }
{
    let count = lexeme_length(text);
    if count == 0 {
        return LexicalElement::Fault(101);
    }
    match shape(&text[..count]) {
        Ok(shape) => LexicalElement::Lexeme(count, shape),
        Err(number) => LexicalElement::Fault(number),
    }
}

/// The same, outlined: the space for its answer is then not prepared unless it is
/// called.
#[inline(always)]
fn parse_rare_lexeme(text: &[u8]) -> LexicalElement
    ensures sight { sight_of result ≡ sight_by_reach (reach text.now) text.now }
    ensures within { IsWithin (length text.now) result }
{
    let found = any_lexeme(text);
    found
}

/// The identifier or the typed literal that is here.
#[inline(always)]
fn word(text: &[u8]) -> LexicalElement
    requires { begins starts_identifier text.now ≡ true }
    ensures sight { sight_of result ≡ sight_by_reach (reach text.now) text.now }
    ensures within { IsWithin (length text.now) result }
{
    let (count, has_single) = identifier_prefix(text);
    let (_, rest) = text.split_at(count);
    if begins_with(rest, b'#') {
        return parse_rare_lexeme(text);
    }
    if !is_name(count, has_single) {
        return parse_rare_lexeme(text);
    }
    LexicalElement::Lexeme(count, Shape::Identifier)
}

/// The number without a sign that is here. A plain one is read in one pass.
#[inline(never)]
fn any_number(text: &[u8]) -> LexicalElement
    requires { begins is_ascii_digit text.now ≡ true }
    ensures sight { sight_of result ≡ sight_by_reach (reach text.now) text.now }
    ensures within { IsWithin (length text.now) result }
{
    let Some((count, size)) = plain_number(text) else {
        return parse_rare_lexeme(text);
    };
    match signed_number(false, size) {
        Some(value) => LexicalElement::Lexeme(count, Shape::Whole(value)),
        None => parse_rare_lexeme(text),
    }
}

/// The same, outlined: the space for its answer is then not prepared unless it is
/// called.
#[inline(always)]
fn number(text: &[u8]) -> LexicalElement
    requires { begins is_ascii_digit text.now ≡ true }
    ensures sight { sight_of result ≡ sight_by_reach (reach text.now) text.now }
    ensures within { IsWithin (length text.now) result }
{
    let found = any_number(text);
    found
}

/// What is here, whatever it is.
#[inline(never)]
fn any_element(text: &[u8]) -> LexicalElement
    requires { 1 ≤ length text.now }
    ensures sight { sight_of result ≡ sight text.now }
    ensures within { IsWithin (length text.now) result }
{
    if opens_comment(text) {
        comment(&text[2..])
    } else if starts_space(text) {
        LexicalElement::Space
    } else {
        any_lexeme(text)
    }
}

/// The same, outlined: the space for its answer is then not prepared unless it is
/// called.
#[inline(always)]
fn other_element(text: &[u8]) -> LexicalElement
    requires { 1 ≤ length text.now }
    ensures sight { sight_of result ≡ sight text.now }
    ensures within { IsWithin (length text.now) result }
{
    let found = any_element(text);
    found
}

/// A `:=` or a `:`.
#[inline(always)]
fn colon(text: &[u8]) -> LexicalElement
    requires { begins (λ byte. byte == 58) text.now ≡ true }
    ensures sight { sight_of result ≡ sight text.now }
    ensures within { IsWithin (length text.now) result }
{
    let after = following_first(text);
    if begins_with(after, b'=') {
        LexicalElement::Lexeme(2, Shape::Assign)
    } else {
        LexicalElement::Lexeme(1, Shape::Colon)
    }
}

/// What is here. The first byte decides most of it at once.
#[inline(always)]
pub(crate) fn first_element(text: &[u8]) -> LexicalElement
    requires { 1 ≤ length text.now }
    ensures sight { sight_of result ≡ sight text.now }
    ensures within { IsWithin (length text.now) result }
{
    match text {
        [b' ' | b'\t', ..] => LexicalElement::Space,
        [b'\n', ..] => LexicalElement::Lexeme(1, Shape::LineEnd),
        [b':', ..] => colon(text),
        [b')', ..] => LexicalElement::Lexeme(1, Shape::Closing),
        [b',', ..] => LexicalElement::Lexeme(1, Shape::Comma),
        [b'.', ..] => LexicalElement::Lexeme(1, Shape::Point),
        [b';', ..] => LexicalElement::Lexeme(1, Shape::Semicolon),
        [b'_' | b'A'..=b'Z' | b'a'..=b'z', ..] => word(text),
        [b'0'..=b'9', ..] => number(text),
        _ => other_element(text),
    }
}
