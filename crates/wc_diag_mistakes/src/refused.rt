ghost use Rattle.std.specs.Prelude.{◌≡◌};
ghost use Rattle.wc_diag_mistakes.specs.Offending.{count_before, offending_text, tokens_after, tokens_before};

use crate::types::{Family, family_of};
use std::alloc::{AllocError, Global};
use wc_built_in::{Keyword, elementary_type, keyword_named};
use wc_diag_stops::{
    RefusalSpan, Slice, is_line_end, last_line, prefix, text_of, without_line_ends, word_of,
};
use wc_lexer::{Shape, Token};
use wc_model::{LONGEST_NAME, Unit, UnitKind};

/// What is said with values of a text, if something is. The error is out of memory.
pub type Sentence = Option<Result<String, AllocError>>;

/// What is said; no text, if nothing is.
pub fn said_text(alloc: Global, said: Sentence) -> Result<String, AllocError> {
    said.unwrap_or(Ok(String::new(alloc)))
}

/// Bytes as words, if there are some, and no more than a name has: what is longer is not printed.
pub fn words(text: &[u8]) -> Option<&str> {
    if text.is_empty() || text.len() > LONGEST_NAME {
        return None;
    }
    str::from_utf8(text).ok()
}

/// A text that is refused, by its tokens and its tree.
#[derive(Clone, Copy)]
pub struct RefusedText<'a, 't> {
    /// From which what is said of it takes its memory.
    pub alloc: Global,
    /// Its tokens; those before the malformed lexeme, if it has one.
    pub tokens: &'t [Token<'a>],
    /// The index of the first offending one, or of the first after the offending slice; their number, if none is there.
    pub index: usize,
    /// The bytes from the malformed lexeme on; none, if it has none.
    pub lexeme: &'a [u8],
    /// What it was read into, with places for lines; nothing if it was not read.
    pub units: &'t [Unit<'a>],
    /// The number of the refusal.
    pub number: u16,
    /// Its offending slice.
    pub span: RefusalSpan,
}

/// The number of tokens before a place.
fn count_before(tokens: &[Token<'_>], place: usize) -> usize
    ensures { result ≡ count_before tokens.now place }
{
    tokens
        .iter()
        .take_while(|token| (token.start as usize) < place)
        .count()
}

impl<'a, 't> RefusedText<'a, 't> {
    /// A text with these tokens that is refused at a span of a tree, or of none.
    pub fn new(
        alloc: Global,
        tokens: &'t [Token<'a>],
        lexeme: &'a [u8],
        units: &'t [Unit<'a>],
        number: u16,
        span: RefusalSpan,
    ) -> RefusedText<'a, 't>
        ensures index { result.index ≡ count_before tokens.now span.start }
        ensures tokens { result.tokens.now ≡ tokens.now }
        ensures lexeme { result.lexeme.now ≡ lexeme.now }
        ensures span { result.span ≡ span }
    {
        RefusedText {
            alloc,
            tokens,
            index: count_before(tokens, span.start),
            lexeme,
            units,
            number,
            span,
        }
    }

    /// The first of the offending tokens, or the malformed lexeme; no bytes, if there is none.
    pub fn token(&self) -> &'a [u8]
        ensures { result.now ≡ offending_text self.now }
    {
        match self.tokens.get(self.index) {
            Some(token) => token.text,
            None => prefix(self.lexeme, self.span.length),
        }
    }

    /// The tokens before it.
    pub fn before(&self) -> &'t [Token<'a>]
        ensures { result.now ≡ tokens_before self.now }
    {
        let (before, _) = self.tokens.split_at(self.index.min(self.tokens.len()));
        before
    }

    /// The tokens after it.
    pub fn after(&self) -> &'t [Token<'a>]
        ensures { result.now ≡ tokens_after self.now }
    {
        let next = self.index.saturating_add(1).min(self.tokens.len());
        let (_, after) = self.tokens.split_at(next);
        after
    }

    /// The token before it that ends no line.
    pub fn previous(&self) -> Option<&'t Token<'a>> {
        without_line_ends(self.before()).last()
    }

    /// The token after it that ends no line.
    pub fn next(&self) -> Option<&'t Token<'a>> {
        self.after().iter().find(|token| !is_line_end(token))
    }

    /// The word before it; no bytes, if another token is there.
    pub fn word_before(&self) -> &'a [u8] {
        word_of(self.previous())
    }

    /// The tokens before it on its line.
    pub(crate) fn line_before(&self) -> &'t [Token<'a>] {
        last_line(self.before())
    }

    /// Whether it is the first on its line, which is not the first of the text.
    pub(crate) fn begins_line(&self) -> bool {
        self.before().last().is_some_and(is_line_end)
    }

    /// The number of its line; 0, if it is no token.
    pub fn line(&self) -> u32 {
        self.tokens.get(self.index).map_or(0, |token| token.line)
    }

    /// The label before it, if one is there.
    pub fn label_before(&self) -> Option<&'t Token<'a>> {
        match without_line_ends(self.before()) {
            [.., label, colon] if matches!(colon.shape, Shape::Colon) => Some(label),
            _ => None,
        }
    }

    /// What the unit is that last begins before it, if one does.
    pub fn unit_kind(&self) -> Option<UnitKind> {
        let mut before = self.before().iter().rev();
        before.find_map(|token| match keyword_named(word_of(Some(token)))? {
            Keyword::UnitStart(kind) => Some(kind),
            _ => None,
        })
    }

    /// Whether the unit around it is the program.
    pub fn is_in_program(&self) -> bool {
        matches!(self.unit_kind(), Some(UnitKind::Program))
    }

    /// The tokens from the first offending one on, also if it is on a line below.
    fn offending_tokens(&self) -> &'t [Token<'a>] {
        let start = self.span.below.map_or(self.span.start, |below| below.start);
        let from = count_before(self.tokens, start);
        self.tokens.get(from..).unwrap_or(self.tokens)
    }

    /// The first offending token, also if it is on a line below.
    pub fn offending(&self) -> &'a [u8] {
        text_of(self.offending_tokens().first())
    }

    /// The name after the point, if a field is offending; else no bytes.
    pub fn field(&self) -> &'a [u8] {
        match self.offending_tokens() {
            [_, point, field, ..] if matches!(point.shape, Shape::Point) => field.text,
            _ => b"",
        }
    }

    /// Whether it is one token, and no name with a field.
    pub fn names_one(&self) -> bool {
        self.span.length == self.token().len()
    }

    /// The token of the text that a slice begins with, if there is one.
    pub fn word_at(&self, slice: Option<Slice>) -> Option<&'a str> {
        let index = count_before(self.tokens, slice?.start);
        words(text_of(self.tokens.get(index)))
    }

    /// The block of the instance that is referred to, if it is a block.
    pub fn block(&self) -> Option<&'a str> {
        let block = self.word_at(self.span.block);
        block.filter(|block| elementary_type(block.as_bytes()).is_none())
    }

    /// Whether it is what a call names.
    pub fn is_called(&self) -> bool {
        matches!(keyword_named(self.word_before()), Some(Keyword::Call(_)))
    }

    /// The operator before it; no bytes, if another token is there.
    pub(crate) fn operator(&self) -> &'a [u8] {
        match self.previous() {
            Some(token) if matches!(token.shape, Shape::And) => b"AND",
            Some(token) if matches!(token.shape, Shape::AndNot) => b"ANDN",
            token => word_of(token),
        }
    }

    /// Whether the operator before it stores.
    pub(crate) fn is_stored(&self) -> bool {
        matches!(
            family_of(self.operator()),
            Family::Store | Family::StoreNegated | Family::Set
        )
    }

    /// Whether it is to be set: the target of a store, or in the list of a call the name of an input or what takes an output.
    pub fn sets(&self) -> bool {
        self.span
            .formal
            .map_or(self.is_stored(), |_| !self.span.is_passed)
    }
}
