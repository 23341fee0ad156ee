ghost use Rattle.std.specs.Prelude.{◌≤◌, IfOk, length, map};
ghost use Rattle.wc_lexer.specs.Views.{token_view};
ghost use Rattle.wc_model.specs.Definitions.{text_view, IsCut, most_bytes};
ghost use Rattle.wc_diag_stops.specs.ReadingSpans.{AreReadByPlaces};

use std::alloc::Global;
use wc_diag_stops::exchange;
use wc_lexer::{Token, tokens};
use wc_model::{Fault, Source};
use wc_reader::read_tokens;

/// A text that was read with the places of its tokens for their lines.
#[derive(Drop)]
pub struct SpannedSource<'a> {
    pub tokens: Vec<Token<'a>>,
    /// What they spell; each line in it is the byte at which a token starts.
    pub source: Source<'a>,
}

/// What tokens spell with their places for their lines; the tokens stay as they are.
fn read_placed<'a>(
    alloc: Global,
    text: &[u8],
    tokens: &mut [Token<'a>],
) -> Result<Source<'a>, Fault>
    requires short { length text.now ≤ most_bytes }
    requires cut { IsCut text.now (map token_view tokens.old) }
    ensures { IfOk result
        (λ source. AreReadByPlaces text.now tokens.new (text_view source)) }
{
    exchange(tokens);
    let read = read_tokens(alloc, tokens, text.len() as u32);
    exchange(tokens);
    read
}

/// The tree of a text, in which each line is the place of its token: the passes after reading hand
/// lines on alone, so on this tree they report places. It is the pass of `read`, over tokens having
/// their places for their lines; the error is that of `read`, at a place, or out of memory.
pub fn read_by_places<'a>(alloc: Global, text: &'a [u8]) -> Result<SpannedSource<'a>, Fault>
    ensures { IfOk result
        (λ spanned_source. AreReadByPlaces text.now spanned_source.tokens.items
        (text_view spanned_source.source)) }
{
    let mut tokens = tokens(alloc, text)?;
    let source = read_placed(alloc, text, &mut tokens)?;
    Ok(SpannedSource { tokens, source })
}
