// Answers in the bytes of a row.
ghost use Rattle.std.specs.Prelude.{◌≡◌, length, option_map, IfOk, IsOkUnless};
ghost use Rattle.std.specs.List.{list_all};
ghost use Rattle.wc_view_decode.specs.AnswerBytes.{IsAnswer, answer_bytes, is_framed, is_weight_byte, AreAnswersOf, IsAnswerOf, IsFirstAnswer, AnswersAreRead};

use crate::answer::{LineAnswer, WeightAnswer};
use std::alloc::Global;
use wc_model::Fault;
use wc_sma::{MassUnit, Status, WeightKind, stable_of_letter};

/// The number of bytes an answer with a weight has.
const READING_LENGTH: usize = 20;

/// The answer to a request that is not valid.
const NOT_UNDERSTOOD: &[u8] = b"\n?\r";

/// Whether these bytes may be a weight.
fn is_weight(weight: &[u8]) -> bool
    ensures { result ≡ list_all is_weight_byte weight.now }
{
    weight.iter().all(|byte| *byte == b' '
        || *byte == b'-'
        || *byte == b'.'
        || byte.is_ascii_digit())
}

/// Whether twenty bytes have what each answer with a weight has, and bytes of a weight.
fn is_framed(frame: &[u8]) -> bool
    requires { length frame.now ≡ 20 }
    ensures { result ≡ is_framed frame.now }
{
    frame[0] == b'\n'
        && frame[2] == b'1'
        && frame[5] == b' '
        && frame[19] == b'\r'
        && is_weight(&frame[6..16])
}

/// The answer with a weight that twenty bytes are.
fn weight_in(frame: &[u8]) -> Option<LineAnswer>
    requires { length frame.now ≡ 20 }
    ensures { IsAnswerOf result frame.now }
{
    if !is_framed(frame) {
        return None;
    }
    let mut weight = [0; 10];
    weight.copy_from_slice(&frame[6..16]);
    Some(LineAnswer::Weight(WeightAnswer {
        status: Status::of_letter(frame[1])?,
        kind: WeightKind::of_letter(frame[3])?,
        is_stable: stable_of_letter(frame[4])?,
        weight,
        unit: MassUnit::of_letters(&frame[16..19])?,
    }))
}

/// The answer at the start of these bytes, if there is one.
pub fn first_answer(bytes: &[u8]) -> Option<LineAnswer>
    ensures { IsFirstAnswer result bytes.now }
{
    if bytes.starts_with(NOT_UNDERSTOOD) {
        return Some(LineAnswer::NotUnderstood);
    }
    if bytes.len() < READING_LENGTH {
        return None;
    }
    weight_in(&bytes[..READING_LENGTH])
}

/// The number of bytes an answer has.
pub fn answer_length(answer: &LineAnswer) -> usize
    ensures { IsAnswer answer.now → result ≡ length (answer_bytes answer.now) }
{
    match answer {
        LineAnswer::Weight(_) => READING_LENGTH,
        LineAnswer::NotUnderstood => NOT_UNDERSTOOD.len(),
    }
}

/// The answers that these bytes are, if they are answers.
pub(crate) fn answers_of(alloc: Global, bytes: &[u8]) -> Result<Option<Vec<LineAnswer>>, Fault>
    ensures answers { IfOk result
        (λ found. AreAnswersOf (option_map (λ answers. answers.items) found) bytes.now) }
    ensures memory { IsOkUnless result Fault.Memory }
{
    let mut answers = Vec::new(alloc);
    let mut rest = bytes;
    while !rest.is_empty() {
        let answer = match first_answer(rest) {
            None => return Ok(None),
            Some(answer) => answer,
        };
        let Ok(()) = answers.push(answer) else {
            return Err(Fault::Memory);
        };
        rest = &rest[answer_length(&answer)..];
    }
    Ok(Some(answers))
}

/// Each answer that the line gives is read back, as what is so of the scale; those to requests as one answer each.
pub fn answers_of_the_line_are_read()
    ensures { AnswersAreRead }
{}
