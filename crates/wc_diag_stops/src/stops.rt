ghost use Rattle.std.specs.Prelude.{◌≡◌, ◌==◌, ◌≤◌, ◌<◌, IfNone, IfOk, IfSome, find, length, map, nat_lt, option_copied};
ghost use Rattle.std.specs.List.{prefix_len};
ghost use Rattle.wc_lexer.specs.Spans.{StopsAt};
ghost use Rattle.wc_lexer.specs.Views.{token_view};
ghost use Rattle.wc_text_lines.specs.Words.{marks_of};
ghost use Rattle.wc_model.specs.Definitions.{last_line, IsCut, most_bytes};
ghost use Rattle.wc_reader.specs.TextViews.{IsStateCounted, reading_view};
ghost use Rattle.wc_text_bodies.specs.Views.{walk};
ghost use Rattle.wc_diag_stops.specs.Allowed.{allowed_with};
ghost use Rattle.wc_diag_stops.specs.ReadingSpans.{AreBefore, AreThoseRead, AreUpTo, IsReadByPlaces, StopsReading, is_left_out, length_of, line_of, offending_at, start_of, token_at, token_before, word_or_token};
ghost use Rattle.wc_diag_stops.specs.Stopping.{IsAllowedAs, IsStopAt, ReadsText, ReportsRaised};

use crate::around::exchange;
use crate::expected::expected_at;
use crate::span::RefusalSpan;
use crate::words::prefix;
use std::alloc::{AllocError, Global};
use wc_diag_texts::Expected;
use wc_lexer::{Token, tokens, tokens_or_stop};
use wc_model::{Fault, is_word};
use wc_reader::{Progress, at_text_end, last_line, read_at, reading_start, take_lines};

/// A fault that is found, and what could be there.
#[derive(Clone, Copy)]
struct FaultAt {
    fault: Fault,
    expected: Expected,
}

/// Where the reading of these tokens stops; nothing if they are read. As the reader does, it takes
/// short lines in one step: there is no fault in them.
fn fault_at<'a>(
    alloc: Global,
    reading: &mut Progress<'a>,
    tokens: &[Token<'a>],
    last: u32,
) -> Option<FaultAt>
    requires { IsStateCounted reading.old.state }
    ensures read { IfNone result
        (ReadsText (walk (reading_view reading.old) (marks_of tokens.now) last)) }
    ensures stopped { IfSome result
        (λ raised.
        ReportsRaised (walk (reading_view reading.old) (marks_of tokens.now) last) raised.fault
        raised.expected) }
    // At the end no memory is taken.
    ensures memory { IfSome result (λ raised. raised.fault ≡ Fault.Memory
        → 0 < length tokens.now) }
{
    let mut place = 0;
    while place < tokens.len() {
        let expected = expected_at(reading);
        if let Err(fault) = read_at(alloc, reading, tokens, place) {
            return Some(FaultAt { fault, expected });
        }
        let Ok(next) = take_lines(alloc, reading, tokens, place + 1) else {
            let fault = Fault::Memory;
            return Some(FaultAt { fault, expected });
        };
        place = next;
    }
    let expected = expected_at(reading);
    match at_text_end(alloc, reading, last) {
        Ok(_) => None,
        Err(fault) => Some(FaultAt { fault, expected }),
    }
}

/// The token that starts at a byte.
fn token_at<'a, 't>(tokens: &'t [Token<'a>], start: u32) -> Option<&'t Token<'a>>
    ensures { option_copied result ≡ token_at tokens.now start }
{
    tokens.iter().find(|token| token.start == start)
}

/// What could be there is reported if a token is unexpected.
fn reported_expected(number: u16, expected: Expected) -> Expected
    ensures { result ≡ allowed_with number expected }
{
    match number {
        201 => expected,
        _ => Expected::Nothing,
    }
}

/// The number of tokens before a byte.
fn count_before(tokens: &[Token<'_>], start: u32) -> usize
    ensures { result ≡ prefix_len (λ token. nat_lt token.start start) tokens.now }
{
    tokens
        .iter()
        .take_while(|token| token.start < start)
        .count()
}

/// The last token before a byte.
fn token_before<'a, 't>(tokens: &'t [Token<'a>], start: u32) -> Option<&'t Token<'a>>
    ensures { option_copied result ≡ token_before tokens.now start }
{
    tokens.get(count_before(tokens, start).saturating_sub(1))
}

/// A word, if the token after it is on its line; else that token.
fn word_or_token<'a, 't>(
    word: Option<&'t Token<'a>>,
    token: Option<&'t Token<'a>>,
) -> Option<&'t Token<'a>>
    ensures { option_copied result
        ≡ word_or_token (option_copied word.entry) (option_copied token.entry) }
{
    match (word, token) {
        (Some(word), Some(token)) if word.line == token.line => Some(word),
        (_, token) => token,
    }
}

/// Whether a token is a word after VAR of which this language has none.
fn is_left_out(token: &Token<'_>) -> bool
    ensures { result ≡ is_left_out token.now }
{
    is_word(b"CONSTANT", token.text)
        || is_word(b"RETAIN", token.text)
        || is_word(b"PERSISTENT", token.text)
}

/// The offending token if one is found at a byte.
fn offending_at<'a, 't>(
    tokens: &'t [Token<'a>],
    place: u32,
    expected: Expected,
) -> Option<&'t Token<'a>>
    ensures { option_copied result ≡ offending_at tokens.now place expected }
{
    let (word, token) = (token_before(tokens, place), token_at(tokens, place));
    match (expected, word) {
        (Expected::LabelColon, _) => word_or_token(word, token),
        (Expected::CommaOrColon, Some(other)) if is_left_out(other) => word_or_token(word, token),
        _ => token,
    }
}

/// The line of the token that starts at a byte; if there is none, the last line.
fn line_at(text: &[u8], tokens: &[Token<'_>], place: u32) -> u32
    requires { length text.now ≤ most_bytes }
    ensures { result ≡ line_of (token_at tokens.now place) (last_line text.now) }
{
    match token_at(tokens, place) {
        Some(token) => token.line,
        None => last_line(text),
    }
}

/// Where the offending slice starts, and its number of bytes.
fn offending_slice(text: &[u8], offending: Option<&Token<'_>>) -> (usize, usize)
    ensures start { result.0 ≡ start_of (option_copied offending.entry) (length text.now) }
    ensures length { result.1 ≡ length_of (option_copied offending.entry) }
{
    match offending {
        Some(token) => (token.start as usize, token.text.len()),
        None => (text.len(), 0),
    }
}

/// What is found in these tokens, with its line and its slice.
fn stop_at(text: &[u8], tokens: &[Token<'_>], raised: FaultAt) -> RefusalSpan
    requires { length text.now ≤ most_bytes }
    ensures { IsStopAt text.now tokens.now raised.fault raised.expected result }
{
    match raised.fault {
        Fault::Refused { number, place } => {
            let expected = reported_expected(number, raised.expected);
            let (start, length) = offending_slice(text, offending_at(tokens, place, expected));
            let place = line_at(text, tokens, place);
            RefusalSpan {
                expected,
                ..RefusalSpan::new(Fault::Refused { number, place }, start, length)
            }
        }
        Fault::Memory => RefusalSpan::new(Fault::Memory, 0, 0),
    }
}

/// Where the reading of a text with these tokens stops; nothing if it is read.
fn stop_in(alloc: Global, text: &[u8], tokens: &mut [Token<'_>]) -> Option<RefusalSpan>
    requires short { length text.now ≤ most_bytes }
    requires cut { IsCut text.now (map token_view tokens.old) }
    ensures stopped { IfSome result
        (λ stop. StopsReading text.now stop.fault stop.start stop.length stop.expected) }
    ensures allowed { IfSome result (λ stop. IsAllowedAs stop.fault stop.expected) }
    ensures read { IfNone result (IsReadByPlaces text.now) }
    ensures kept { tokens.new ≡ tokens.old }
{
    exchange(tokens);
    let last = text.len() as u32;
    let raised = fault_at(alloc, &mut reading_start(alloc), tokens, last);
    exchange(tokens);
    match raised {
        Some(raised) => Some(stop_at(text, tokens, raised)),
        None => None,
    }
}

/// Where the reading of a text stops, and its tokens.
#[derive(Drop)]
pub struct StoppedText<'a> {
    /// The refusal, with its slice and what could be there.
    pub span: RefusalSpan,
    /// The tokens of the text; of one that can't be cut further at the slice those before it.
    pub tokens: Vec<Token<'a>>,
}

/// A text that can't be cut further at a slice, with the tokens before that.
fn stopped_at<'a>(
    alloc: Global,
    text: &'a [u8],
    span: RefusalSpan,
) -> Result<StoppedText<'a>, AllocError>
    requires stops { StopsAt text.now span.fault span.start span.length }
    requires allowed { IsAllowedAs span.fault span.expected }
    ensures stopped { IfOk result (λ stopped. StopsReading text.now stopped.span.fault
        stopped.span.start stopped.span.length stopped.span.expected) }
    ensures allowed { IfOk result
        (λ stopped. IsAllowedAs stopped.span.fault stopped.span.expected) }
    ensures tokens { IfOk result
        (λ stopped. AreBefore text.now stopped.span.start stopped.tokens.items) }
    ensures those { IfOk result
        (λ stopped. AreThoseRead text.now stopped.span.fault stopped.span.start
        stopped.span.length stopped.span.expected stopped.tokens.items) }
{
    match tokens(alloc, prefix(text, span.start)) {
        Ok(tokens) => Ok(StoppedText { span, tokens }),
        Err(Fault::Memory) => Err(AllocError),
        Err(Fault::Refused { .. }) => Ok(StoppedText {
            span,
            tokens: Vec::new(alloc),
        }),
    }
}

/// Where the reading of a text stops, and what could be there, with its tokens; nothing if it is read. It is the
/// same pass as that of `read`, over tokens that have their places for their lines. The error is out of memory.
pub fn stop_of<'a>(alloc: Global, text: &'a [u8]) -> Result<Option<StoppedText<'a>>, AllocError>
    ensures stopped { IfOk result (λ found. IfSome found
        (λ stopped. StopsReading text.now stopped.span.fault stopped.span.start
        stopped.span.length stopped.span.expected)) }
    ensures allowed { IfOk result (λ found. IfSome found
        (λ stopped. IsAllowedAs stopped.span.fault stopped.span.expected)) }
    ensures tokens { IfOk result (λ found. IfSome found
        (λ stopped. AreUpTo text.now stopped.span.start stopped.tokens.items)) }
    ensures those { IfOk result (λ found. IfSome found
        (λ stopped. AreThoseRead text.now stopped.span.fault stopped.span.start
        stopped.span.length stopped.span.expected stopped.tokens.items)) }
    ensures read { IfOk result (λ found. IfNone found (IsReadByPlaces text.now)) }
{
    match tokens_or_stop(alloc, text) {
        Ok(mut tokens) => match stop_in(alloc, text, &mut tokens) {
            Some(span) => Ok(Some(StoppedText { span, tokens })),
            None => Ok(None),
        },
        Err(stop) => {
            let span = RefusalSpan::new(stop.fault, stop.start as usize, stop.length as usize);
            match stopped_at(alloc, text, span) {
                Ok(stopped) => Ok(Some(stopped)),
                Err(error) => Err(error),
            }
        }
    }
}
