ghost use Rattle.std.specs.Prelude.{◌≡◌, if◌then◌else◌, ok_or};
ghost use Rattle.std.specs.List.{list_any};
ghost use Rattle.wc_lexer.specs.Views.{is_name_so, validation_view};
ghost use Rattle.wc_model.specs.Definitions.{is_hash, name_of, duration_shape, identifier_shape, literal_shape, number_shape, shape_of, truth_shape, typed_shape, mark_of};

use crate::Shape;
use crate::characters::{is_sign, mark, starts_identifier};
use crate::durations::duration;
use crate::numbers::{has_single_underscores, whole_number};
use crate::prefixes::cut_at;
use wc_model::{LONGEST_NAME, is_word};

/// An identifier of that length, with single underscores or not, is a name.
#[inline(always)]
pub(crate) fn is_name(length: usize, has_single: bool) -> bool
    ensures { result ≡ is_name_so length has_single }
{
    length <= LONGEST_NAME && has_single
}

/// An identifier is no longer than a name, and has single underscores.
fn identifier_shape(lexeme: &[u8]) -> Result<Shape, u16>
    ensures { validation_view result ≡ identifier_shape lexeme.now }
{
    if is_name(lexeme.len(), has_single_underscores(lexeme)) {
        Ok(Shape::Identifier)
    } else {
        Err(104)
    }
}

/// A number has one of the forms of whole-number literals.
fn number_shape(lexeme: &[u8]) -> Result<Shape, u16>
    ensures { validation_view result ≡ number_shape lexeme.now }
{
    match whole_number(lexeme) {
        Some(value) => Ok(Shape::Whole(value)),
        None => Err(105),
    }
}

/// `BOOL#0` and `BOOL#1` are truth values.
fn truth_shape(value: &[u8]) -> Result<Shape, u16>
    ensures { validation_view result ≡ truth_shape value.now }
{
    match value {
        b"0" => Ok(Shape::Truth(false)),
        b"1" => Ok(Shape::Truth(true)),
        _ => Err(105),
    }
}

/// `T#` and `TIME#` precede durations.
fn duration_shape(value: &[u8]) -> Result<Shape, u16>
    ensures { validation_view result ≡ duration_shape value.now }
{
    match duration(value) {
        Some(milliseconds) => Ok(Shape::Duration(milliseconds)),
        None => Err(106),
    }
}

/// A literal by its type's name and what follows the `#`.
fn typed_shape(name: &[u8], value: &[u8]) -> Result<Shape, u16>
    ensures { validation_view result ≡ typed_shape (name_of name.now) value.now }
{
    if is_word(name, b"bool") {
        truth_shape(value)
    } else if is_word(name, b"t") || is_word(name, b"time") {
        duration_shape(value)
    } else {
        Err(105)
    }
}

/// An identifier, or a typed literal if it holds a `#`.
fn word_shape(lexeme: &[u8]) -> Result<Shape, u16>
    ensures { validation_view result
        ≡
        (if list_any is_hash lexeme.now then literal_shape lexeme.now
        else identifier_shape lexeme.now) }
{
    match cut_at(lexeme, b'#') {
        Some((name, value)) => typed_shape(name, value),
        None => identifier_shape(lexeme),
    }
}

/// A mark.
fn mark_shape(lexeme: &[u8]) -> Result<Shape, u16>
    ensures { validation_view result ≡ ok_or (mark_of lexeme.now) 101 }
{
    match mark(lexeme) {
        Some(shape) => Ok(shape),
        None => Err(101),
    }
}

/// The shape of a lexeme, or the number of its fault.
pub(crate) fn shape(lexeme: &[u8]) -> Result<Shape, u16>
    ensures { validation_view result ≡ shape_of lexeme.now }
{
    match lexeme {
        [first, ..] if starts_identifier(*first) => word_shape(lexeme),
        [first, ..] if first.is_ascii_digit() || is_sign(*first) => number_shape(lexeme),
        [b'%', ..] => Ok(Shape::Address),
        _ => mark_shape(lexeme),
    }
}
