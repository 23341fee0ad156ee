ghost use Rattle.std.specs.Prelude.{◌≡◌, ◌+◌, ◌≤◌, IfErr, IfOk, length, map};
ghost use Rattle.wc_lexer.specs.Spans.{Names, StopsAt, stuck_length};
ghost use Rattle.wc_lexer.specs.Views.{token_view};
ghost use Rattle.wc_model.specs.Text.Tokens.{IsCut, most_bytes};

use crate::element::{LexicalElement, first_element};
use crate::lengths::lexeme_length;
use crate::spaces::{first_feeds, line_feeds, opens_comment};
use crate::{Stop, Token};
use std::alloc::Global;
use wc_model::{Fault, MOST_BYTES};

/// The number of bytes of the slice at which a text can't be cut further.
fn stuck_length(text: &[u8]) -> usize
    ensures counted { result ≡ stuck_length text.now }
    ensures within { result ≤ length text.now + 2 }
{
    if opens_comment(text) {
        return 2;
    }
    let count = lexeme_length(text);
    if count == 0 { 1 } else { count }
}

/// The fault of that number on that line, with the slice at which a text can't be cut further.
fn stop_at(number: u16, line: u32, place: usize, rest: &[u8]) -> Stop
    requires { place + length rest.now ≤ most_bytes }
    ensures { result ≡ record {
      fault = Fault.Refused number line;
      start = place;
      length = stuck_length rest.now;
    } }
{
    Stop {
        fault: Fault::Refused {
            number,
            place: line,
        },
        start: place as u32,
        length: stuck_length(rest) as u32,
    }
}

/// A fault that no slice causes.
fn stop_without_slice(fault: Fault) -> Stop
    ensures { result ≡ record { fault = fault; start = 0; length = 0 } }
{
    Stop {
        fault,
        start: 0,
        length: 0,
    }
}

/// The tokens of a text, or its first fault with the slice at which it is: the byte that belongs
/// to nothing, the opening of the comment, or the malformed lexeme.
pub fn tokens_or_stop<'a>(alloc: Global, text: &'a [u8]) -> Result<Vec<Token<'a>>, Stop>
    ensures cut { IfOk result
        (λ tokens. (length text.now ≤ most_bytes) × IsCut text.now (map token_view tokens.items)) }
    ensures stopped { IfErr result (λ stop. StopsAt text.now stop.fault stop.start stop.length) }
{
    if text.len() > MOST_BYTES {
        return Err(stop_without_slice(Fault::Refused {
            number: 107,
            place: 0,
        }));
    }
    let mut tokens = Vec::new(alloc);
    let mut start = 0_usize;
    let mut line = 1_u32;
    while start < text.len() {
        let (_, rest) = text.split_at(start);
        let (count, feeds) = match first_element(rest) {
            LexicalElement::Fault(number) => return Err(stop_at(number, line, start, rest)),
            LexicalElement::Space => (1, 0),
            LexicalElement::Comment(count) => {
                let (comment, _) = rest.split_at(count);
                (count, line_feeds(comment))
            }
            LexicalElement::Lexeme(count, shape) => {
                let (lexeme, _) = rest.split_at(count);
                let token = Token {
                    shape,
                    text: lexeme,
                    start: start as u32,
                    line,
                };
                if tokens.push(token).is_err() {
                    return Err(stop_without_slice(Fault::Memory));
                }
                (count, first_feeds(rest))
            }
        };
        line += feeds as u32;
        start += count;
    }
    Ok(tokens)
}

/// The tokens of a text, or its first fault. `Err(Memory)` means out of memory: no text that is
/// too long is reported so, and none that has no token before its first fault.
pub fn tokens<'a>(alloc: Global, text: &'a [u8]) -> Result<Vec<Token<'a>>, Fault>
    ensures cut { IfOk result
        (λ tokens. (length text.now ≤ most_bytes) × IsCut text.now (map token_view tokens.items)) }
    ensures refused { IfErr result (λ fault. Names text.now fault) }
{
    match tokens_or_stop(alloc, text) {
        Ok(tokens) => Ok(tokens),
        Err(stop) => Err(stop.fault),
    }
}
