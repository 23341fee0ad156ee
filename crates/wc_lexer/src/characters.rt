ghost use Rattle.std.specs.Prelude.{◌≡◌, option_map};
ghost use Rattle.wc_lexer.specs.Views.{shape_view};
ghost use Rattle.wc_model.specs.Definitions.{is_address_character, is_identifier_character, is_number_character, is_sign, starts_identifier, may_occur_before, mark_of};

use crate::Shape;

/// An identifier starts with a letter or an underscore.
pub(crate) fn starts_identifier(byte: u8) -> bool
    ensures { result ≡ starts_identifier byte }
{
    byte.is_ascii_alphabetic() || byte == b'_'
}

/// An identifier goes on with letters, digits and underscores.
pub(crate) fn is_identifier_character(byte: u8) -> bool
    ensures { result ≡ is_identifier_character byte }
{
    byte.is_ascii_alphanumeric() || byte == b'_'
}

/// A number goes on with letters, digits, underscores, `#` and points.
pub(crate) fn is_number_character(byte: u8) -> bool
    ensures { result ≡ is_number_character byte }
{
    is_identifier_character(byte) || byte == b'#' || byte == b'.'
}

/// An address goes on with letters, digits and points.
pub(crate) fn is_address_character(byte: u8) -> bool
    ensures { result ≡ is_address_character byte }
{
    byte.is_ascii_alphanumeric() || byte == b'.'
}

/// `+` and `-` are the signs of numbers.
pub(crate) fn is_sign(byte: u8) -> bool
    ensures { result ≡ is_sign byte }
{
    byte == b'+' || byte == b'-'
}

/// The mark that is spelled so.
pub(crate) fn mark(spelling: &[u8]) -> Option<Shape>
    ensures { option_map shape_view result ≡ mark_of spelling.now }
{
    match spelling {
        b"&" => Some(Shape::And),
        b"&N" | b"&n" => Some(Shape::AndNot),
        b"(" => Some(Shape::Opening),
        b")" => Some(Shape::Closing),
        b"," => Some(Shape::Comma),
        b":" => Some(Shape::Colon),
        b";" => Some(Shape::Semicolon),
        b"." => Some(Shape::Point),
        b":=" => Some(Shape::Assign),
        b"=>" => Some(Shape::Arrow),
        b"\n" => Some(Shape::LineEnd),
        _ => None,
    }
}

/// `&N` ends if no character of an identifier follows, and `(` before `*` opens a comment.
pub(crate) fn may_occur_before(shape: Shape, after: &[u8]) -> bool
    ensures { result ≡ may_occur_before (shape_view shape) after.now }
{
    match (shape, after) {
        (Shape::AndNot, [first, ..]) => !is_identifier_character(*first),
        (Shape::Opening, [first, ..]) => *first != b'*',
        _ => true,
    }
}
