ghost use Rattle.std.specs.Prelude.{◌≡◌, is_some};
ghost use Rattle.wc_model.specs.Definitions.{is_among, reserved_words, type_words, elementary_types, named_in, standard_blocks, name_of};
ghost use Rattle.wc_built_in.specs.Keywords.{elementary_for, standard_for, type_for};

use crate::keyword::Keyword;
use crate::keywords::keyword_named;
use wc_model::{Kind, StandardBlock};

/// The elementary type that a word represents.
fn elementary_for(keyword: Keyword) -> Option<Kind>
    ensures { result ≡ elementary_for keyword }
{
    match keyword {
        Keyword::Elementary(kind) => Some(kind),
        _ => None,
    }
}

/// The elementary type of that name.
pub fn elementary_type(text: &[u8]) -> Option<Kind>
    ensures { result ≡ named_in elementary_types (name_of text.now) }
{
    elementary_for(keyword_named(text)?)
}

/// The standard function block that a word represents.
fn standard_for(keyword: Keyword) -> Option<StandardBlock>
    ensures { result ≡ standard_for keyword }
{
    match keyword {
        Keyword::Standard(block) => Some(block),
        _ => None,
    }
}

/// The standard function block of that name.
pub fn standard_block(text: &[u8]) -> Option<StandardBlock>
    ensures { result ≡ named_in standard_blocks (name_of text.now) }
{
    standard_for(keyword_named(text)?)
}

/// Whether a word represents a type.
fn is_type(keyword: Keyword) -> bool
    ensures { result ≡ is_some (type_for keyword) }
{
    matches!(keyword, Keyword::Elementary(_) | Keyword::Standard(_))
}

/// Whether a name is a type in every text.
pub fn is_type_word(text: &[u8]) -> bool
    ensures { result ≡ is_among type_words (name_of text.now) }
{
    keyword_named(text).is_some_and(is_type)
}

/// Whether it is a reserved word, which names no unit and no variable.
pub fn is_reserved(text: &[u8]) -> bool
    ensures { result ≡ is_among reserved_words (name_of text.now) }
{
    keyword_named(text).is_some()
}
