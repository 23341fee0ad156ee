use crate::blanks::Blank;
use crate::logical_lines::{LogicalLine, Region, above, before, has, is_foreign_section, slice};
use crate::marks::{Mark, Marks};
use indexmap::IndexMap;
use std::alloc::{AllocError, Global};
use wc_built_in::{Keyword, is_reserved, keyword_named};
use wc_diag_stops::{is_operator, is_shape, text_of};
use wc_lexer::{Shape, Token};
use wc_model::{Condition, Section};
use wc_names::Key;

/// What is taken out for a fault of a text with these lines, and the names that are then unknown with whether each may be that of a unit.
#[derive(Drop)]
struct TakenOut<'a, 't> {
    faulty: Faulty<'t>,
    lines: &'t [LogicalLine<'a, 't>],
    blanks: Vec<Blank>,
    names: IndexMap<Key<'a>, bool>,
}

/// Which lines a fault is on: one, or those that are marked.
#[derive(Clone, Copy)]
pub(crate) struct Faulty<'m> {
    pub(crate) number: u16,
    pub(crate) line: Option<u32>,
    pub(crate) marks: &'m Marks,
}

impl<'m> Faulty<'m> {
    /// Whether a fault is on one of these lines.
    fn is_on(&self, first: u32, last: u32) -> bool {
        match self.line {
            Some(line) => first <= line && line <= last,
            None => self.marks.has(first, last, Mark::Uncut),
        }
    }
}

/// Those of the tokens of a logical line that are on these lines of the text.
fn on_lines<'a, 't>(some: &'t [Token<'a>], first: u32, last: u32) -> &'t [Token<'a>] {
    let end = above(some, last.saturating_add(1));
    slice(some, above(some, first), end)
}

/// What is taken out of an instruction, and the parenthesis that ends it, if it is taken out alone: of one in parentheses a line inside,
/// or the lines that open and close it. A list that is not closed is taken out up to the fault.
fn parts_of<'a, 't>(
    line: &LogicalLine<'a, 't>,
    faulty: Faulty<'_>,
    is_call: bool,
) -> (&'t [Token<'a>], &'t [Token<'a>]) {
    let some = line.after_label();
    let none = slice(some, 0, 0);
    let Some(number) = faulty.line else {
        return (some, none);
    };
    if is_call {
        let end = if line.is_closed { line.last } else { number };
        return (on_lines(some, 0, end), none);
    }
    let here = on_lines(some, number, number);
    let closing = on_lines(some, line.last, line.last);
    let is_inner = line.first < number && !has(here, Shape::Opening) && !has(here, Shape::Closing);
    let is_framed = line.first == number && number < line.last;
    match faulty.number {
        201 if !line.is_closed => (here, none),
        201 if is_framed && is_shape(closing.first(), Shape::Closing) => (here, closing),
        204..=207 => (some, none),
        _ if is_inner => (here, none),
        _ => (some, none),
    }
}

/// Whether a token is a word that can be a name.
fn is_name(token: &Token<'_>) -> bool {
    token.shape == Shape::Identifier && !is_reserved(token.text)
}

/// Whether an instruction begins with a word that is no operator.
fn is_foreign(some: &[Token<'_>]) -> bool {
    is_shape(some.first(), Shape::Identifier) && !is_operator(text_of(some.first()))
}

/// Whether the names of a declaration that can't be read are seen: each is a word before a comma or a colon, up to the first colon
/// no two are next to one another and no point is, each line has a colon or ends with a comma, and none has two colons.
fn shows_names(some: &[Token<'_>]) -> bool {
    let (mut colon, mut was_name) = (0_u32, false);
    for (index, token) in some.iter().enumerate() {
        let next = some.get(index.saturating_add(1));
        let is_last = is_shape(next, Shape::Colon) || is_shape(next, Shape::Comma);
        let is_word = is_name(token);
        let is_unsure = match token.shape {
            _ if is_word => was_name && colon == 0,
            Shape::Colon if colon == token.line => true,
            Shape::Point if colon == 0 => true,
            Shape::Address => index == 0,
            _ => index == 0 || is_last,
        };
        if token.shape == Shape::Colon {
            colon = token.line;
        }
        let goes_on = matches!(token.shape, Shape::Comma | Shape::LineEnd);
        let is_line = next.is_none() || is_shape(next, Shape::LineEnd);
        if is_unsure || is_line && !goes_on && colon != token.line {
            return false;
        }
        was_name = is_word;
    }
    colon > 0
}

impl<'a, 't> TakenOut<'a, 't> {
    /// Takes tokens out, but for the first bytes. With a colon there may be a label among them.
    fn take(&mut self, some: &[Token<'a>], skipped: usize, mark: Mark) -> Result<(), AllocError> {
        let (Some(first), Some(last)) = (some.first(), some.last()) else {
            return Ok(());
        };
        let start = (first.start as usize).saturating_add(skipped);
        let end = (last.start as usize).saturating_add(last.text.len());
        let (place, lines) = ((start, end.saturating_sub(start)), (first.line, last.line));
        let is_labelled = mark <= Mark::Taken && has(some, Shape::Colon);
        let mark = if is_labelled { Mark::Unlabelled } else { mark };
        Ok(self.blanks.push(Blank { place, lines, mark })?)
    }

    /// Keeps the names among some tokens, but for TRUE and FALSE.
    fn keep_names(&mut self, some: &[Token<'a>], is_unit: bool) -> Result<(), AllocError> {
        for token in some.iter().filter(|token| token.shape == Shape::Identifier) {
            if !matches!(keyword_named(token.text), Some(Keyword::Truth(_))) {
                let is_unit = is_unit || self.is_named(&[*token], true);
                self.names.insert(Key { text: token.text }, is_unit)?;
            }
        }
        Ok(())
    }

    /// Whether one of these names is among some tokens, or one that may be that of a unit.
    fn is_named(&self, some: &[Token<'a>], is_unit: bool) -> bool {
        some.iter().any(|token| {
            let found = self.names.get(&Key { text: token.text });
            token.shape == Shape::Identifier && found.is_some_and(|found| *found || !is_unit)
        })
    }

    /// Whether a word is a label.
    fn is_label(&self, word: &[u8]) -> bool {
        let mut labelled = self.lines.iter().filter(|line| line.has_label());
        labelled.any(|line| text_of(line.all.first()).eq_ignore_ascii_case(word))
    }

    /// Takes each declaration with one of these names of units, and each instruction whose operator is known with one of all of them among
    /// its operands.
    fn take_named(&mut self) -> Result<(), AllocError> {
        for line in self.lines {
            let some = line.after_label();
            match line.region {
                Region::Section if self.is_named(some, true) => self.keep_names(some, false)?,
                Region::Body if is_foreign(some) => continue,
                Region::Body if self.is_named(some.get(1..).unwrap_or(&[]), false) => {}
                _ => continue,
            }
            self.take(some, 0, Mark::Taken)?;
        }
        Ok(())
    }

    /// Takes each parenthesis that is not closed out of an instruction, with the word before it and the rest of its line. Of a fault on
    /// another line nothing is taken out, but it is known.
    fn take_unpaired(&mut self, some: &[Token<'a>]) -> Result<(), AllocError> {
        let number = self.faulty.line.unwrap_or(0);
        self.take(on_lines(some, number, number), usize::MAX, Mark::Taken)?;
        let (mut closings, mut end) = (0_usize, some.len());
        for (index, token) in some.iter().enumerate().rev() {
            match token.shape {
                Shape::LineEnd => end = index,
                Shape::Closing => closings = closings.saturating_add(1),
                Shape::Opening if closings > 0 => closings = closings.saturating_sub(1),
                Shape::Opening => {
                    let start = index.saturating_sub(1);
                    self.take(slice(some, start, end), 0, Mark::Unpaired)?;
                    end = start;
                }
                _ => {}
            }
        }
        Ok(())
    }

    /// What is taken out with these tokens of an instruction, which may be a word alone that is no operator.
    fn mark_of(&self, line: &LogicalLine<'_, '_>, part: &[Token<'_>], is_word: bool) -> Mark {
        let is_lone = line.is_closed
            && part.len() == line.after_label().len()
            && self.faulty.line.is_some();
        let is_aside = match line.operator() {
            // a word more before an operator is no store and no call
            _ if is_operator(text_of(part.get(1))) => false,
            // a store to a label may be a jump
            Some(Keyword::Store(_)) => {
                !matches!(self.faulty.number, 402..=404) && !self.is_label(text_of(part.get(1)))
            }
            Some(Keyword::Call(condition)) => {
                condition == Condition::Always && has(part, Shape::Opening)
            }
            _ => false,
        };
        match self.faulty.number {
            206 => Mark::Unpaired,
            _ if is_word && line.has_label() => Mark::Unlabelled,
            0..=299 if !is_shape(part.first(), Shape::Identifier) => Mark::Unlabelled,
            _ if is_lone && is_aside => Mark::Aside,
            _ => Mark::Taken,
        }
    }

    /// Takes an instruction with a fault out, without its label, if it can stay. Nothing is taken out of a declaration outside all sections.
    fn take_instruction(&mut self, line: &LogicalLine<'a, '_>) -> Result<(), AllocError> {
        let (all, some, is_label) = (line.all, line.after_label(), line.has_label());
        let is_other = !is_operator(text_of(some.first()));
        let is_typed = is_label && is_other || is_shape(all.get(1), Shape::Comma);
        if self.faulty.number < 300 && is_typed && is_shape(all.last(), Shape::Semicolon) {
            return Ok(());
        }
        if matches!(self.faulty.number, 307 | 407) && is_label {
            let label = all.get(..2).unwrap_or(&[]);
            self.keep_names(label, false)?;
            return self.take(label, 0, Mark::Unlabelled);
        }
        let is_call = matches!(line.operator(), Some(Keyword::Call(_)));
        if !line.is_closed && !is_call && self.faulty.number != 201 {
            return self.take_unpaired(some);
        }
        let (part, closing) = parts_of(line, self.faulty, is_call);
        // a word that is no operator may be a label whose colon is missing, or the rest of one that has its colon too early
        let is_word = self.faulty.number < 300
            && is_other
            && line.is_closed
            && part.len() == some.len();
        if is_word {
            self.keep_names(part.get(..1).unwrap_or(&[]), false)?;
        }
        let mark = self.mark_of(line, part, is_word);
        self.take(part, 0, mark)?;
        self.take(closing, 0, mark)
    }

    /// Takes a declaration with a fault out, or at first its initial value alone. Nothing is taken out of an instruction in a section.
    fn take_declaration(&mut self, line: &LogicalLine<'a, '_>) -> Result<(), AllocError> {
        let some = line.all;
        let is_named = is_shape(some.get(1), Shape::Colon) || is_shape(some.get(1), Shape::Comma);
        if is_operator(text_of(some.first())) && !is_named {
            return Ok(());
        }
        let (from, to) = (before(some, Shape::Assign), before(some, Shape::Semicolon));
        let is_cut = self.faulty.line.is_some();
        let least = if is_cut { Mark::Aside } else { Mark::Unnamed };
        let was_taken = self.faulty.marks.any(line.first, line.last, least);
        let is_alone = line.first == line.last && from < to && to.saturating_add(1) == some.len();
        if matches!(self.faulty.number, 201 | 303) && is_alone && !was_taken {
            return self.take(some.get(from..to).unwrap_or(&[]), 0, Mark::Aside);
        }
        let is_sure = match self.faulty.number {
            201 => is_cut && !was_taken && shows_names(some),
            number => !matches!(number, 301 | 307),
        };
        self.keep_names(some, false)?;
        self.take(some, 0, if is_sure { Mark::Taken } else { Mark::Unnamed })
    }

    /// Takes a line outside all units out, which may be the head of one. An instruction or a section there lacks the head of its unit.
    fn take_outside(&mut self, line: &LogicalLine<'a, '_>) -> Result<(), AllocError> {
        let word = text_of(line.all.first());
        let is_lost = matches!(self.lines.last(), Some(last) if last.region == Region::Lost);
        let is_inside = is_operator(word)
            || matches!(line.operator(), Some(Keyword::SectionStart(_)));
        if is_lost && self.faulty.line.is_some() || is_inside {
            return Ok(());
        }
        let is_section = is_foreign_section(word);
        let head = on_lines(line.all, line.first, line.first);
        let head = slice(head, 0, before(head, Shape::Colon));
        self.keep_names(if is_section { line.all } else { head }, !is_section)?;
        self.take(line.all, 0, Mark::Taken)
    }

    /// Takes a line out if a fault is on it, before the line of the text that the next one begins on: whether it is the beginning of a
    /// section, which is refused at what follows it, as a declaration that is not ended.
    fn take_faulty(&mut self, line: &LogicalLine<'a, '_>, next: u32) -> Result<bool, AllocError> {
        let is_cut = self.faulty.line.is_some();
        let is_here = self.faulty.is_on(line.first, line.last);
        let is_before = is_cut && self.faulty.number < 300 && self.faulty.is_on(line.first, next);
        if !is_here && !is_before {
            return Ok(false);
        }
        let word = text_of(line.all.first());
        match line.region {
            Region::Edge if is_before && (line.all.len() > 1 || is_foreign_section(word)) => {
                // VAR stays, or END_VAR; of a section that was VAR no input or output is missing
                let (length, mark) = match keyword_named(word) {
                    Some(Keyword::SectionEnd) => (7, Mark::Section),
                    Some(Keyword::SectionStart(Section::Own)) => (3, Mark::Taken),
                    _ => (3, Mark::Section),
                };
                self.take(line.all, length, mark)?;
                return Ok(true);
            }
            Region::Section if is_here || is_before && !line.is_closed => {
                self.take_declaration(line)?;
                return Ok(!is_here);
            }
            Region::Section if is_before => {
                // words after the last semicolon are read with the next line
                let more = line.after_semicolon();
                self.keep_names(more, false)?;
                self.take(more, 0, Mark::Aside)?;
            }
            Region::Body if is_here => self.take_instruction(line)?,
            Region::Outside if self.faulty.is_on(line.first, line.first) => {
                self.take_outside(line)?
            }
            _ => {}
        }
        Ok(false)
    }
}

/// What is taken out of a text with these lines, so that it is read on: each with a fault, and each instruction with a name that is
/// unknown then; nothing if what follows could not be read.
pub(crate) fn taken_out<'a, 't>(
    alloc: Global,
    lines: &'t [LogicalLine<'a, 't>],
    faulty: Faulty<'t>,
) -> Result<Option<Vec<Blank>>, AllocError> {
    let mut taken = TakenOut {
        faulty,
        lines,
        blanks: Vec::new(alloc),
        names: IndexMap::new(alloc),
    };
    for (index, line) in lines.iter().enumerate() {
        // after the last declaration, if it is not ended, END_VAR may be read as its type
        let is_open = line.region == Region::Section && !line.is_closed;
        let after = if is_open { 2 } else { 1 };
        let next = lines.get(index.saturating_add(after)).unwrap_or(line);
        if taken.take_faulty(line, next.first)? {
            break;
        }
    }
    if taken.blanks.is_empty() && faulty.line.is_some() {
        return Ok(None);
    }
    if !taken.names.is_empty() {
        taken.take_named()?;
    }
    Ok(Some(taken.blanks))
}
