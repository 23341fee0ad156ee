ghost use Rattle.std.specs.Prelude.{◌≡◌, ◌+◌, ◌==◌, ◌≤◌, ◌<◌, ◌∷◌, IfErr, IfOk, IfSome, List, OnOk, Some, count_by, drop, false, length, map};
ghost use Rattle.wc_laws_grammar.specs.Moves as moves;
ghost use Rattle.wc_laws_grammar.specs.Moves.{at_first, colon_next};
ghost use Rattle.wc_model.specs.Definitions.{Mark, IsRead, last_line, mark_of_token, IsCut, most_bytes, ProgramUnit, text_view};
ghost use Rattle.wc_lexer.specs.Views.{token_view};
ghost use Rattle.wc_reader.specs.Reported.{IsRefusedAs, IsUnexpected, StopsWith, ReportsReading};
ghost use Rattle.wc_text_bodies.specs.Several.{GoesOn};
ghost use Rattle.wc_text_bodies.specs.Views.{walk};
ghost use Rattle.wc_reader.specs.TextViews.{IsUndeclared, IsStateCounted, reading_view, state_view};
ghost use Rattle.wc_text_lines.specs.Words.{marks_of, symbol_view};

use crate::ends::at_text_end;
use crate::faults::fault_at;
use crate::moves::text_move;
use crate::text_state::{LinePlace, Progress, TextState};
use std::alloc::{AllocError, Global};
use std::mem;
use wc_lexer::{Shape, Token, tokens};
use wc_model::{Fault, Section, Source};
use wc_text_bodies::{DeclarationState, take_declaration, take_line_and_call};

/// Whether the next token is a colon.
#[inline(always)]
fn is_colon_next(tokens: &[Token]) -> bool
    ensures { result ≡ colon_next (marks_of tokens.now) false }
{
    match tokens.first() {
        Some(token) => matches!(token.shape, Shape::Colon),
        None => false,
    }
}

/// Goes on after a token with which nothing else is wrong, or says that it is unexpected.
#[inline(always)]
fn move_on<'a>(
    alloc: Global,
    reading: &mut Progress<'a>,
    token: Token<'a>,
    colon: bool,
) -> Result<(), Fault>
    requires { IsStateCounted reading.old.state }
    ensures goes_on { OnOk result
        (Some (reading_view reading.new)
        ≡ moves.move (reading_view reading.old)
        (symbol_view token.entry) token.entry.line colon) }
    ensures stops { IfErr result
        (λ fault.
        IsUnexpected
        (moves.move (reading_view reading.old) (symbol_view token.entry) token.entry.line colon)
        token.entry.line fault) }
    ensures counted { OnOk result (IsStateCounted reading.new.state) }
{
    let state = mem::replace(&mut reading.state, TextState::Outside);
    match text_move(alloc, &mut reading.units, state, token, colon) {
        Ok(next) => match next {
            Some(next) => {
                reading.state = next;
                Ok(())
            }
            None => Err(Fault::Refused {
                number: 201,
                place: token.line,
            }),
        },
        Err(_) => Err(Fault::Memory),
    }
}

/// Goes on after one more token, or says what is wrong with it. `colon` says whether a colon
/// follows it.
#[inline(always)]
fn read_token<'a>(
    alloc: Global,
    reading: &mut Progress<'a>,
    token: Token<'a>,
    colon: bool,
) -> Result<(), Fault>
    requires { IsStateCounted reading.old.state }
    ensures goes_on { OnOk result
        ((following : List Mark) → colon_next following false ≡ colon
        → GoesOn (reading_view reading.old) (mark_of_token (token_view token.entry) ∷ following)
        (reading_view reading.new) following) }
    ensures stops { IfErr result
        (λ fault. (following : List Mark) → colon_next following false ≡ colon
        → StopsWith (reading_view reading.old) (mark_of_token (token_view token.entry) ∷ following)
        fault) }
    ensures counted { OnOk result (IsStateCounted reading.new.state) }
{
    match fault_at(reading, token, colon) {
        Some(fault) => Err(fault),
        None => move_on(alloc, reading, token, colon),
    }
}

/// Goes on after the token at that index, or says what is wrong with it.
#[inline(always)]
pub fn read_at<'a>(
    alloc: Global,
    reading: &mut Progress<'a>,
    tokens: &[Token<'a>],
    index: usize,
) -> Result<(), Fault>
    requires counted { IsStateCounted reading.old.state }
    requires within { index < length tokens.now }
    ensures goes_on { OnOk result
        (GoesOn (reading_view reading.old) (marks_of (drop index tokens.now))
        (reading_view reading.new) (marks_of (drop (index + 1) tokens.now))) }
    ensures stops { IfErr result
        (λ fault.
        StopsWith (reading_view reading.old) (marks_of (drop index tokens.now)) fault) }
    ensures counted { OnOk result (IsStateCounted reading.new.state) }
{
    let following = &tokens[index + 1..];
    read_token(alloc, reading, tokens[index], is_colon_next(following))
}

/// The section in which a declaration may begin here.
#[inline(always)]
fn section_at(state: &TextState) -> Option<Section>
    ensures { IfSome result (λ section. IsUndeclared state.now section) }
{
    match state {
        TextState::Declaring(_, section, DeclarationState::Undeclared) => Some(*section),
        _ => None,
    }
}

/// Reads a short line of a section in place, and returns the number of its tokens: none if no
/// such line is here.
#[inline(always)]
fn take_in_section<'a>(
    alloc: Global,
    state: &mut TextState<'a>,
    section: Section,
    tokens: &[Token<'a>],
) -> Result<usize, AllocError>
    requires { IsUndeclared state.old section }
    ensures goes_on { IfOk result
        (λ taken. (units : List ProgramUnit)
        → GoesOn (state_view units state.old) (marks_of tokens.now) (state_view units state.new)
        (marks_of (drop taken tokens.now))) }
    ensures counted { OnOk result (IsStateCounted state.new) }
    ensures within { IfOk result (λ taken. taken ≤ length tokens.now) }
{
    match state {
        TextState::Declaring(unit, ..) => take_declaration(alloc, unit, section, tokens),
        _ => Ok(0),
    }
}

/// Reads a short line in place, and returns the number of its tokens: none if no such line is
/// here.
#[inline(always)]
fn take_prefix<'a>(
    alloc: Global,
    state: &mut TextState<'a>,
    tokens: &[Token<'a>],
) -> Result<usize, AllocError>
    requires { IsStateCounted state.old }
    ensures goes_on { IfOk result
        (λ taken. (units : List ProgramUnit)
        → GoesOn (state_view units state.old) (marks_of tokens.now) (state_view units state.new)
        (marks_of (drop taken tokens.now))) }
    ensures counted { OnOk result (IsStateCounted state.new) }
    ensures within { IfOk result (λ taken. taken ≤ length tokens.now) }
{
    if let Some(section) = section_at(state) {
        return take_in_section(alloc, state, section, tokens);
    }
    match state {
        TextState::InBody(body, LinePlace::AtLine) => take_line_and_call(alloc, body, tokens),
        _ => Ok(0),
    }
}

/// Reads short lines in place from that index on, as many as are there, and says where the next
/// token is.
pub fn take_lines<'a>(
    alloc: Global,
    reading: &mut Progress<'a>,
    tokens: &[Token<'a>],
    from: usize,
) -> Result<usize, AllocError>
    requires counted { IsStateCounted reading.old.state }
    requires within { from ≤ length tokens.now }
    ensures goes_on { IfOk result
        (λ next.
        GoesOn (reading_view reading.old) (marks_of (drop from tokens.now))
        (reading_view reading.new) (marks_of (drop next tokens.now))) }
    ensures counted { OnOk result (IsStateCounted reading.new.state) }
    ensures on { IfOk result (λ next. from ≤ next) }
    ensures within { IfOk result (λ next. next ≤ length tokens.now) }
{
    let mut place = from;
    for _index in from..tokens.len() {
        let (_, left) = tokens.split_at(place);
        let taken = take_prefix(alloc, &mut reading.state, left)?;
        if taken == 0 {
            return Ok(place);
        }
        place += taken;
    }
    Ok(place)
}

/// The text that goes on from here with these tokens, or the first fault in them.
fn read_on<'a>(
    alloc: Global,
    reading: &mut Progress<'a>,
    tokens: &[Token<'a>],
    last_line: u32,
) -> Result<Source<'a>, Fault>
    requires { IsStateCounted reading.old.state }
    ensures reported { ReportsReading
        (walk (reading_view reading.old) (marks_of tokens.now) last_line).reported result }
    // At the end no memory is taken.
    ensures memory { IfErr result (λ fault. fault ≡ Fault.Memory → 0 < length tokens.now) }
{
    let mut place = 0;
    while place < tokens.len() {
        if let Err(fault) = read_at(alloc, reading, tokens, place) {
            return Err(fault);
        }
        place = match take_lines(alloc, reading, tokens, place + 1) {
            Ok(next) => next,
            Err(_) => return Err(Fault::Memory),
        };
    }
    at_text_end(alloc, reading, last_line)
}

/// A text of which nothing has been read.
pub fn reading_start<'a>(alloc: Global) -> Progress<'a>
    ensures start { reading_view result ≡ at_first }
    ensures counted { IsStateCounted result.state }
{
    Progress {
        units: Vec::new(alloc),
        state: TextState::Outside,
    }
}

/// The text that the tokens spell, or the first fault in them.
pub fn read_tokens<'a>(
    alloc: Global,
    tokens: &[Token<'a>],
    last_line: u32,
) -> Result<Source<'a>, Fault>
    ensures reported { ReportsReading (walk at_first
        (marks_of tokens.now) last_line).reported result }
    // With no token no memory is taken.
    ensures memory { IfErr result (λ fault. fault ≡ Fault.Memory → 0 < length tokens.now) }
{
    let mut reading = reading_start(alloc);
    read_on(alloc, &mut reading, tokens, last_line)
}

/// The number of line feeds the text has.
fn line_feeds(text: &[u8]) -> usize
    ensures counted { result ≡ count_by (λ byte. byte == 10) text.now }
    ensures within { result ≤ length text.now }
{
    text.iter().filter(|byte| **byte == b'\n').count()
}

/// The number of the text's last line.
pub fn last_line(text: &[u8]) -> u32
    requires { length text.now ≤ most_bytes }
    ensures { result ≡ last_line text.now }
{
    1 + line_feeds(text) as u32
}

/// What follows a place of the text, up to its end.
fn following(text: &[u8], place: usize) -> &[u8]
    ensures { result.now ≡ drop place text.now }
{
    let (_, rest) = text.split_at(place.min(text.len()));
    rest
}

/// The number of the text's last line, from its tokens: line feeds are counted only after the start of the last one.
fn line_at_end(text: &[u8], tokens: &[Token]) -> u32
    requires short { length text.now ≤ most_bytes }
    requires cut { IsCut text.now (map token_view tokens.now) }
    ensures { result ≡ last_line text.now }
{
    match tokens.split_last() {
        Some((last, _)) => last.line + line_feeds(following(text, last.start as usize)) as u32,
        None => last_line(text),
    }
}

/// The text as a tree (IEC 61131-3:2003, annex B), or its first fault. `Err(Refused)` has the
/// number and line of the first fault in text order, by the list of refusals: 101 to 107 of its
/// tokens, 201 to 208 of what they spell; the text is then read as no tree. `Err(Memory)` means
/// out of memory: no text that is too long is reported so, and none that has no token before its
/// first fault.
pub fn read<'a>(alloc: Global, text: &'a [u8]) -> Result<Source<'a>, Fault>
    ensures read { IfOk result (λ source. IsRead text.now (text_view source)) }
    ensures refused { IfErr result (λ fault. IsRefusedAs text.now fault) }
{
    let tokens = tokens(alloc, text)?;
    let last_line = line_at_end(text, &tokens);
    read_tokens(alloc, &tokens, last_line)
}
