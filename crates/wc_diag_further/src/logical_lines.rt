use std::alloc::{AllocError, Global};
use wc_built_in::{Keyword, keyword_named};
use wc_diag_stops::{is_shape, text_of};
use wc_lexer::{Shape, Token};

/// In which part of a text a line is.
#[derive(Clone, Copy, PartialEq, Eq)]
pub(crate) enum Region {
    /// Outside all units; a section or a function there is one line.
    Outside,
    /// It is the head or the end of a unit.
    Head,
    /// It is the words that begin a section, or END_VAR.
    Edge,
    /// In a section: it is a declaration.
    Section,
    /// In the body of a unit: it is an instruction, with its label.
    Body,
    /// After the word of a unit or a section that can't be there.
    Lost,
}

/// An instruction or a declaration, however many lines of the text it has: where it is, its tokens, the first and the last of these
/// lines, and whether all of its parentheses are closed; of a declaration, whether it has a semicolon.
#[derive(Clone, Copy)]
pub(crate) struct LogicalLine<'a, 't> {
    pub(crate) region: Region,
    pub(crate) all: &'t [Token<'a>],
    pub(crate) first: u32,
    pub(crate) last: u32,
    pub(crate) is_closed: bool,
}

/// The number of tokens before the first one of that shape; that of all if there is none.
pub(crate) fn before(some: &[Token<'_>], shape: Shape) -> usize {
    some.iter().take_while(|token| token.shape != shape).count()
}

/// The tokens from an index up to another one.
pub(crate) fn slice<'a, 't>(some: &'t [Token<'a>], from: usize, to: usize) -> &'t [Token<'a>] {
    let (prefix, _) = some.split_at(to.min(some.len()));
    prefix.split_at(from.min(prefix.len())).1
}

/// The number of tokens above a line of the text.
pub(crate) fn above(some: &[Token<'_>], line: u32) -> usize {
    some.iter().take_while(|token| token.line < line).count()
}

/// Whether a token of that shape is among these.
pub(crate) fn has(some: &[Token<'_>], shape: Shape) -> bool {
    some.iter().any(|token| token.shape == shape)
}

impl<'a, 't> LogicalLine<'a, 't> {
    /// Whether it has a label.
    pub(crate) fn has_label(&self) -> bool {
        self.region == Region::Body
            && is_shape(self.all.first(), Shape::Identifier)
            && is_shape(self.all.get(1), Shape::Colon)
    }

    /// Its tokens after its label.
    pub(crate) fn after_label(&self) -> &'t [Token<'a>] {
        let label = if self.has_label() { 2 } else { 0 };
        slice(self.all, label, self.all.len())
    }

    /// Its tokens after its last semicolon.
    pub(crate) fn after_semicolon(&self) -> &'t [Token<'a>] {
        let mut slices = self.all.rsplit(|token| token.shape == Shape::Semicolon);
        slices.next().unwrap_or(&[])
    }

    /// The meaning of its first word after its label.
    pub(crate) fn operator(&self) -> Option<Keyword> {
        keyword_named(text_of(self.after_label().first()))
    }
}

/// Whether a word begins a section that this language does not have, as VAR_TEMP.
pub(crate) fn is_foreign_section(word: &[u8]) -> bool {
    matches!(word, [b'V' | b'v', b'A' | b'a', b'R' | b'r', b'_', ..])
        && !matches!(keyword_named(word), Some(Keyword::SectionStart(_)))
}

/// Whether a line outside all units goes on: it begins with FUNCTION or the word of a section, and its END is not there yet.
fn is_inside(line: &[Token<'_>]) -> bool {
    let (word, last) = (text_of(line.first()), text_of(line.last()));
    let (start, end) = (word.get(..3).unwrap_or(&[]), last.get(4..7).unwrap_or(&[]));
    matches!(keyword_named(word), Some(Keyword::Kept)) && !end.eq_ignore_ascii_case(start)
}

/// The lines that are cut so far, and the one that begins at a token.
#[derive(Drop)]
struct LineCutter<'a, 't> {
    tokens: &'t [Token<'a>],
    lines: Vec<LogicalLine<'a, 't>>,
    region: Region,
    from: usize,
    open: usize,
}

impl<'a, 't> LineCutter<'a, 't> {
    /// Ends the line before a token. One without tokens is none.
    fn end(&mut self, to: usize) -> Result<(), AllocError> {
        let all = slice(self.tokens, self.from, to);
        if let (Some(first), Some(last)) = (all.first(), all.last()) {
            self.lines.push(LogicalLine {
                region: self.region,
                all,
                first: first.line,
                last: last.line,
                is_closed: match self.region {
                    Region::Section => has(all, Shape::Semicolon),
                    _ => self.open == 0,
                },
            })?;
        }
        self.from = to;
        self.open = 0;
        Ok(())
    }

    /// Where a word of a unit or a section can be, where it is and where what follows is; nothing if there is another token, or a label.
    fn frame_at(&self, index: usize) -> Option<(Region, Region, Region)> {
        let word = text_of(self.tokens.get(index));
        // all such words begin with one of these
        let keyword = match word.first() {
            Some(b'E' | b'e' | b'F' | b'f' | b'P' | b'p' | b'V' | b'v') => keyword_named(word),
            _ => return None,
        };
        let is_first = self.region == Region::Body && self.from == index;
        let start = (Region::Body, Region::Edge, Region::Section);
        let frame = match keyword {
            Some(Keyword::UnitStart(_)) => (Region::Outside, Region::Head, Region::Body),
            Some(Keyword::UnitEnd(_)) => (Region::Body, Region::Head, Region::Outside),
            Some(Keyword::SectionEnd) => (Region::Section, Region::Edge, Region::Body),
            Some(Keyword::SectionStart(_)) => start,
            _ if is_first && is_foreign_section(word) => start,
            _ => return None,
        };
        let is_inside = self.region == Region::Outside && frame.1 == Region::Edge;
        let is_label = is_shape(self.tokens.get(index.saturating_add(1)), Shape::Colon);
        let is_other = is_inside || is_label || self.region == Region::Lost;
        if is_other { None } else { Some(frame) }
    }

    /// Whether a line end ends the line: not before the semicolon of a declaration, nor inside parentheses.
    fn ends_at(&self, index: usize) -> bool {
        let line = slice(self.tokens, self.from, index);
        match self.region {
            Region::Section => line.is_empty() || has(line, Shape::Semicolon),
            Region::Outside => !is_inside(line),
            _ => self.open == 0,
        }
    }

    /// Takes a token of that shape. A word of a unit or a section ends the line before it, and what follows is in another part.
    fn take(&mut self, index: usize, shape: Shape) -> Result<(), AllocError> {
        let after = index.saturating_add(1);
        if let Some((at, own, then)) = self.frame_at(index) {
            self.end(index)?;
            if self.region != at {
                self.region = Region::Lost;
                return Ok(());
            }
            let next = keyword_named(text_of(self.tokens.get(after)));
            let is_long = at == Region::Outside || matches!(next, Some(Keyword::Kept));
            let length = if is_long { 2 } else { 1 };
            self.region = own;
            self.end(index.saturating_add(length))?;
            self.region = then;
            return Ok(());
        }
        match shape {
            Shape::Opening => self.open = self.open.saturating_add(1),
            Shape::Closing => self.open = self.open.saturating_sub(1),
            Shape::LineEnd if self.ends_at(index) => {
                self.end(index)?;
                self.from = self.from.max(after);
            }
            _ => {}
        }
        Ok(())
    }
}

/// The lines of a text with these tokens.
pub(crate) fn logical_lines<'a, 't>(
    alloc: Global,
    tokens: &'t [Token<'a>],
) -> Result<Vec<LogicalLine<'a, 't>>, AllocError> {
    let mut cutter = LineCutter {
        tokens,
        lines: Vec::new(alloc),
        region: Region::Outside,
        from: 0,
        open: 0,
    };
    for (index, token) in tokens.iter().enumerate() {
        cutter.take(index, token.shape)?;
    }
    cutter.end(tokens.len())?;
    Ok(cutter.lines)
}
