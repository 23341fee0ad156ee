ghost use Rattle.std.specs.Prelude.{◌≡◌, ◌==◌, ◌+◌, ◌≤◌, length, option_copied};
ghost use Rattle.std.specs.List.{position_or_len};
ghost use Rattle.wc_diag_places.specs.OperandTokens.{is_listed, is_point, is_shape, length_of_operand, line_at, list_end, operand_of, operator_of, opens, start_of_operand, tokens_at, tokens_from};

use wc_diag_stops::Slice;
use wc_diag_texts::Case;
use wc_lexer::{Shape, Token};

/// A token is a point.
pub(crate) fn is_point(token: Option<&Token<'_>>) -> bool
    ensures { result ≡ is_point (option_copied token.entry) }
{
    matches!(token, Some(token) if matches!(token.shape, Shape::Point))
}

/// A token closes a list.
pub(crate) fn is_closing(token: &Token<'_>) -> bool
    ensures { result ≡ is_shape Shape.Closing token.now.shape }
{
    matches!(token.shape, Shape::Closing)
}

/// The number of tokens before the one that starts at a byte.
fn count_before(tokens: &[Token<'_>], place: u32) -> usize
    ensures first { result ≡ position_or_len (λ token. token.start == place) tokens.now }
    ensures within { result ≤ length tokens.now }
{
    let above = tokens.iter().take_while(|token| token.start != place);
    above.count()
}

/// The tokens from the one that starts at a byte on.
pub fn tokens_from<'a, 't>(tokens: &'t [Token<'a>], place: u32) -> &'t [Token<'a>]
    ensures { result.now ≡ tokens_from tokens.now place }
{
    let (_, rest) = tokens.split_at(count_before(tokens, place));
    rest
}

/// That number of tokens from an index on.
pub fn tokens_at<'a, 't>(tokens: &'t [Token<'a>], from: usize, count: usize) -> &'t [Token<'a>]
    ensures { result.now ≡ tokens_at tokens.now from count }
{
    let (_, rest) = tokens.split_at(from.min(tokens.len()));
    let (operand_tokens, _) = rest.split_at(count.min(rest.len()));
    operand_tokens
}

/// The operator of an instruction.
pub fn operator_of<'a, 't>(tokens: &'t [Token<'a>]) -> &'t [Token<'a>]
    ensures { result.now ≡ operator_of tokens.now }
{
    tokens_at(tokens, 0, 1)
}

/// Whether an instruction opens a parenthesis.
pub fn opens(tokens: &[Token<'_>]) -> bool
    ensures { result ≡ opens tokens.now }
{
    matches!(tokens.get(1), Some(token) if matches!(token.shape, Shape::Opening))
}

/// The operand of an instruction.
pub fn operand_of<'a, 't>(tokens: &'t [Token<'a>]) -> &'t [Token<'a>]
    ensures { result.now ≡ operand_of tokens.now }
{
    let index = if opens(tokens) { 2 } else { 1 };
    let has_field = is_point(tokens.get(index + 1));
    tokens_at(tokens, index, if has_field { 3 } else { 1 })
}

/// In which way an operand is nothing that may be there: as a field of an instance, or not.
pub fn case_of_operand(operand: &[Token<'_>]) -> Case {
    if operand.len() > 1 {
        Case::Field
    } else {
        Case::Plain
    }
}

/// Whether an instruction has a list: it is a call, then.
pub fn is_listed(tokens: &[Token<'_>]) -> bool
    ensures { result ≡ is_listed tokens.now }
{
    matches!(tokens.get(2), Some(token) if matches!(token.shape, Shape::Opening))
}

/// Where the list of a call ends.
pub(crate) fn list_end(tokens: &[Token<'_>]) -> usize
    ensures { result ≡ list_end tokens.now }
{
    tokens.iter().take_while(|token| !is_closing(token)).count()
}

/// The line of a token; 0 if there is none.
pub fn line_at(token: Option<&Token<'_>>) -> u32
    ensures { result ≡ line_at (option_copied token.entry) }
{
    token.map_or(0, |token| token.line)
}

/// Where a slice starts, and its number of bytes.
pub fn span_of(operand_tokens: &[Token<'_>]) -> (usize, usize)
    ensures start { result.0 ≡ start_of_operand operand_tokens.now }
    ensures length { result.1 ≡ length_of_operand operand_tokens.now }
{
    match (operand_tokens.first(), operand_tokens.last()) {
        (Some(first), Some(last)) => {
            let start = first.start as usize;
            let end = last.start as usize + last.text.len();
            (start, end.saturating_sub(start))
        }
        _ => (0, 0),
    }
}

/// The bytes of some tokens, if there are any.
pub(crate) fn slice_of(operand_tokens: &[Token<'_>]) -> Option<Slice> {
    let line = operand_tokens.first()?.line;
    let (start, length) = span_of(operand_tokens);
    Some(Slice {
        start,
        length,
        line,
    })
}
