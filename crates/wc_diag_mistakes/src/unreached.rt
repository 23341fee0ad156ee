ghost use Rattle.std.specs.Prelude.{◌≡◌, ◌↔◌, ◌<◌, ◌≤◌, ℕ, IsTrue, IfNone, IfSome, length};
ghost use Rattle.wc_diag_mistakes.specs.Unreached.{FollowsLeaving, IsDeclaredOnce, IsLeft, IsUnreached, count_above, declares, is_colon_shape, is_frame, keyword_of, leaves, may_pass};

use wc_built_in::{Keyword, keyword_named};
use wc_lexer::{Shape, Token};
use wc_model::{Condition, UnitKind, is_word};

/// The number of tokens on the lines above one.
fn count_above(tokens: &[Token<'_>], line: u32) -> usize
    ensures count { result ≡ count_above tokens.now line }
    ensures within { result ≤ length tokens.now }
{
    tokens.iter().take_while(|token| token.line < line).count()
}

/// What a token represents, if it is a reserved word.
fn keyword_of(token: &Token<'_>) -> Option<Keyword>
    ensures { result ≡ keyword_of token.now }
{
    keyword_named(token.text)
}

/// Whether this word begins or ends a unit or a section.
fn is_frame(word: Option<Keyword>) -> bool
    ensures { result ≡ is_frame word }
{
    matches!(
        word,
        Some(
            Keyword::UnitStart(_)
                | Keyword::UnitEnd(_)
                | Keyword::SectionStart(_)
                | Keyword::SectionEnd
        )
    )
}

/// Whether a token is a colon.
fn is_colon(token: &Token<'_>) -> bool
    ensures { result ≡ is_colon_shape token.now.shape }
{
    matches!(token.shape, Shape::Colon)
}

/// Whether a token is the colon of a label, or begins or ends a unit or a section.
fn may_pass(token: &Token<'_>) -> bool
    ensures { result ≡ may_pass token.now }
{
    is_colon(token) || is_frame(keyword_of(token))
}

/// Whether a token is the operator of an instruction that leaves.
fn leaves(token: &Token<'_>) -> bool
    ensures { result ≡ leaves token.now }
{
    matches!(
        keyword_of(token),
        Some(Keyword::Jump(Condition::Always) | Keyword::Return(Condition::Always))
    )
}

/// Whether some tokens leave by a jump or a return, after which none may pass: the last that does either decides.
fn leaves_in(tokens: &[Token<'_>]) -> bool
    ensures { IsTrue result ↔ IsLeft tokens.now }
{
    for index in (0..tokens.len()).rev() {
        if leaves(&tokens[index]) {
            return true;
        }
        if may_pass(&tokens[index]) {
            return false;
        }
    }
    false
}

/// Whether a line of a body surely follows a jump or a return, and no label is between: nothing leads to it but its own label.
pub fn follows_leaving(tokens: &[Token<'_>], line: u32) -> bool
    ensures { IsTrue result ↔ FollowsLeaving tokens.now line }
{
    let (above, _) = tokens.split_at(count_above(tokens, line));
    leaves_in(above)
}

/// Whether surely nothing leads to a line of a body.
pub fn is_unreached(tokens: &[Token<'_>], line: u32) -> bool
    ensures { IsTrue result ↔ IsUnreached tokens.now line }
{
    let (_, below) = tokens.split_at(count_above(tokens, line));
    !below.get(1).is_some_and(is_colon) && follows_leaving(tokens, line)
}

/// Whether the token at an index declares a function block of that name.
fn declares(tokens: &[Token<'_>], name: &[u8], index: usize) -> bool
    requires { index < length tokens.now }
    ensures { result ≡ declares tokens.now name.now index }
{
    match (tokens.get(index), tokens.get(index + 1)) {
        // The name first, since few tokens have it.
        (Some(word), Some(token)) if is_word(token.text, name) => matches!(
            keyword_of(word),
            Some(Keyword::UnitStart(UnitKind::FunctionBlock))
        ),
        _ => false,
    }
}

/// The line on which a text declares a function block, if surely one line does so.
pub fn block_line(tokens: &[Token<'_>], name: &[u8]) -> Option<u32>
    ensures found { IfSome result (IsDeclaredOnce tokens.now name.now) }
    ensures none { IfNone result ((line : ℕ) → IsDeclaredOnce tokens.now name.now line → ⊥) }
{
    let mut found = None;
    for index in 0..tokens.len() {
        if declares(tokens, name, index) {
            if found.is_some() {
                return None;
            }
            found = Some(tokens[index].line);
        }
    }
    found
}
