ghost use Rattle.std.specs.Prelude.{◌≡◌, IfOk, IfSome, OnOk, nat_lt};
ghost use Rattle.wc_diag_further.specs.Further.{IsFoundOf, IsMendedFrom, IsFound};

use crate::blanks::{Blank, blank_each, mark_each};
use crate::extents::{Faulty, taken_out};
use crate::following::may_follow;
use crate::logical_lines::logical_lines;
use crate::marks::{Mark, Marks};
use crate::plates::{Remedy, mend, plate_mending};
use std::alloc::{AllocError, Global};
use wc_controller::load;
use wc_lexer::{tokens, tokens_or_stop};
use wc_model::Fault;
use wc_plate::plate;

/// A refusal: its number and its place.
#[derive(Clone, Copy)]
pub struct LineFault {
    /// The number, from the list of refusals.
    pub number: u16,
    /// The line of the text, counted from 1; of a plate 0.
    pub place: u32,
}

/// The number of texts that are tried for one further refusal at most.
const MOST_STEPS: usize = 20;

/// What is found of a text without what was refused before.
#[derive(Clone, Copy)]
pub enum Found {
    /// It is refused so.
    Refused(LineFault),
    /// It is accepted: nothing else is wrong.
    Accepted,
    /// It cannot be read on, so more may be wrong.
    Hidden,
}

/// A program text or a plate that is refused, without what was refused so far but for the last fault.
#[derive(Drop)]
pub struct Further {
    text: Vec<u8>,
    is_plate: bool,
    /// The keys of a plate that are given other values, the last of them for the last fault.
    given: Vec<Remedy>,
    broken: Marks,
    /// Whether there are lines that could not be cut, of which only the malformed slices are taken out.
    is_uncut: bool,
    /// What is to be taken out for the last fault; nothing if the text cannot be read on then.
    blanks: Option<Vec<Blank>>,
}

/// What is found of a plate or of a program as it is. The error is out of memory.
fn found_in(alloc: Global, text: &[u8], is_plate: bool) -> Result<Found, AllocError>
    ensures { IfOk result (IsFound is_plate text.now) }
{
    let found = if is_plate {
        plate(alloc, text).map(|_| Found::Accepted)
    } else {
        load(alloc, text).map(|_| Found::Accepted)
    };
    found.or_else(|fault| match fault {
        Fault::Memory => Err(AllocError),
        Fault::Refused { number, place } => Ok(Found::Refused(LineFault { number, place })),
    })
}

/// The slice at which a text cannot be cut into tokens; nothing if the rest is not read on without it.
fn uncut(alloc: Global, text: &[u8], fault: LineFault) -> Result<Option<Vec<Blank>>, AllocError> {
    match tokens_or_stop(alloc, text) {
        Err(stop) if stop.fault == Fault::Memory => Err(AllocError),
        Err(stop) if !matches!(fault.number, 102 | 103 | 107) => {
            let (_, rest) = text.split_at((stop.start as usize).min(text.len()));
            let mut line = rest.split(|byte| *byte == b'\n');
            // a comment of other tools is taken out whole, and nothing of its line is missing then
            let (length, mark) = match line.next() {
                Some(comment) if comment.starts_with(b"//") => (comment.len(), Mark::None),
                _ => (stop.length as usize, Mark::Uncut),
            };
            let (place, lines) = ((stop.start as usize, length), (fault.place, fault.place));
            Ok(Some(vec![in alloc; Blank { place, lines, mark }]?))
        }
        _ => Ok(None),
    }
}

/// What is to be taken out for a fault, nothing if the text cannot be read on then; and whether the fault is one of its own. Lines
/// that could not be cut are taken out once all of the text can be.
fn mending_of(
    alloc: Global,
    text: &[u8],
    broken: &Marks,
    fault: LineFault,
    is_uncut: bool,
    given: &mut Vec<Remedy>,
) -> Result<(Option<Vec<Blank>>, bool), AllocError> {
    let (number, line) = (fault.number, fault.place);
    if number > 500 {
        return plate_mending(alloc, text, given);
    }
    if number < 200 {
        let blanks = uncut(alloc, text, fault)?;
        return Ok((blanks, !broken.any(line, line, Mark::Taken)));
    }
    // what is too long, or a unit that has no head or no end
    if matches!(number, 202 | 203 | 208 | 306 | 411) {
        return Ok((None, number > 203));
    }
    // a text with a later refusal has tokens
    let Ok(tokens) = tokens(alloc, text) else {
        return Err(AllocError);
    };
    let lines = logical_lines(alloc, &tokens)?;
    let faulty = Faulty {
        number: if is_uncut { 201 } else { number },
        line: if is_uncut { None } else { Some(line) },
        marks: broken,
    };
    let blanks = taken_out(alloc, &lines, faulty)?;
    let is_known = is_uncut || blanks.is_none() || broken.any(line, line, Mark::Taken);
    let is_own = !is_known && !may_follow(&tokens, &lines, broken, number, line);
    Ok((blanks, is_own))
}

impl Further {
    /// A text that is refused so. The error is out of memory.
    pub fn new(alloc: Global, text: &[u8], fault: LineFault) -> Result<Further, AllocError>
        ensures text { IfOk result (λ further. further.text.items ≡ text.now) }
        ensures kind { IfOk result (λ further. further.is_plate ≡ nat_lt 500 fault.number) }
    {
        let kept = Vec::from_slice(alloc, text)?;
        let (broken, mut given): (Marks, Vec<Remedy>) = (Marks::new(alloc, text)?, Vec::new(alloc));
        let (blanks, _) = mending_of(alloc, text, &broken, fault, false, &mut given)?;
        Ok(Further {
            text: kept,
            is_plate: fault.number > 500,
            given,
            broken,
            is_uncut: fault.number < 200,
            blanks,
        })
    }

    /// The text: what was taken out is spaces, so lines and columns are those of the text that was given.
    pub fn text(&self) -> &[u8]
        ensures { result.now ≡ self.now.text.items }
    {
        &self.text
    }

    /// Takes out what was refused last, and says what is found then; nothing if it is refused, but what is missing may be why.
    fn step(&mut self, alloc: Global) -> Result<Option<Found>, AllocError>
        ensures mended { OnOk result (IsMendedFrom self.old self.new) }
        ensures found { IfOk result (λ found. IfSome found (IsFoundOf self.new)) }
    {
        let Some(blanks) = self.blanks.take() else {
            return Ok(Some(Found::Hidden));
        };
        blank_each(&mut self.text, &blanks);
        mark_each(&mut self.broken, &blanks);
        mend(&mut self.text, self.is_plate, &self.given)?;
        let found = found_in(alloc, &self.text, self.is_plate)?;
        let Found::Refused(fault) = found else {
            return Ok(Some(found));
        };
        let (text, broken, given) = (&self.text, &self.broken, &mut self.given);
        let (blanks, is_own) = mending_of(alloc, text, broken, fault, self.is_uncut, given)?;
        self.is_uncut = fault.number < 200;
        self.blanks = blanks;
        Ok(is_own.then_some(found))
    }

    /// The next refusal that is one of its own, or that the text is then accepted, or cannot be read on. The error is out of memory.
    pub fn next(&mut self, alloc: Global) -> Result<Found, AllocError>
        ensures mended { OnOk result (IsMendedFrom self.old self.new) }
        ensures found { IfOk result (IsFoundOf self.new) }
    {
        for _ in 0..MOST_STEPS {
            if let Some(found) = self.step(alloc)? {
                return Ok(found);
            }
        }
        Ok(Found::Hidden)
    }
}
