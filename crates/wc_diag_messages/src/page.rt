ghost use Rattle.std.specs.Prelude.{◌≡◌, IfOk, IfSome, OnOk, is_some};
ghost use Rattle.wc_diag_messages.specs.Locations.{Writes};
ghost use Rattle.wc_diag_messages.specs.Paged.{ReportsPage, answer_line, help_lines, number_line, page_line, plate_line, raised_lines, shown_line};
ghost use Rattle.wc_diag_texts.specs.Numbers.{is_from, is_refusal};

use std::alloc::{AllocError, Global};
use wc_diag_texts::{Entry, Message, entry_of, warning_of};

/// The plate of which the pages of plates speak.
fn plate_a() -> &'static str {
    "unit = \"kg\" / decimals = 3 / max = 15000 / e = 5 / zero_counts = 10000 / span_counts = 600000 / window = 4"
}

/// Writes a line of a page: what it says, and its words.
fn write_line(message: &mut Message, name: &str, words: &str) -> Result<(), AllocError>
    ensures { OnOk result (Writes message.old message.new (page_line name.now words.now)) }
{
    message.say(name)?;
    message.say(": ")?;
    message.say(words)?;
    message.end_line()
}

/// Writes a line of words alone.
fn write_words(message: &mut Message, words: &str) -> Result<(), AllocError>
    ensures { OnOk result (Writes message.old message.new (shown_line words.now)) }
{
    message.say(words)?;
    message.end_line()
}

/// Writes what to write instead, and a usual text with the text mended.
fn write_help(message: &mut Message, hint: &str, usual: &[&str]) -> Result<(), AllocError>
    ensures { OnOk result
        (Writes message.old message.new (help_lines hint.now (λ line. line.now) usual.now)) }
{
    write_line(message, "help", hint)?;
    for line in usual {
        write_words(message, line)?;
    }
    Ok(())
}

/// Writes the number, and what it means.
fn write_number(message: &mut Message, number: u16, reported: &str) -> Result<(), AllocError>
    ensures { OnOk result (Writes message.old message.new (number_line number reported.now)) }
{
    message.count(number as usize)?;
    write_line(message, "", reported)
}

/// Writes where it is raised, its place, and a smallest input.
fn write_raised(message: &mut Message, entry: &Entry) -> Result<(), AllocError>
    ensures { OnOk result (Writes message.old message.new (raised_lines entry.now)) }
{
    write_line(message, "pass", entry.pass)?;
    write_line(message, "place", entry.place)?;
    write_line(message, "example (` / ` is a line end)", entry.input)
}

/// Writes the plate of which the pages of its refusals speak.
fn write_plate(message: &mut Message, number: u16, plate: &str) -> Result<(), AllocError>
    ensures { OnOk result (Writes message.old message.new (plate_line number plate.now)) }
{
    if number >= 503 && number <= 508 {
        return write_line(message, "plate A", plate);
    }
    Ok(())
}

/// Writes how the smallest input is answered.
fn write_answer(message: &mut Message, number: u16, place: u32) -> Result<(), AllocError>
    ensures { OnOk result (Writes message.old message.new (answer_line number place)) }
{
    message.say("its answer: refused ")?;
    message.count(number as usize)?;
    message.say(" ")?;
    message.count(place as usize)?;
    message.end_line()
}

/// The page of a refusal, as it is printed.
fn page_message(alloc: Global, entry: &Entry) -> Result<Message, AllocError>
    ensures { IfOk result (λ message. ReportsPage entry.now.number message.bytes.items) }
{
    let plate = plate_a();
    let mut message = Message::new(alloc);
    write_number(&mut message, entry.number, entry.sentence)?;
    write_raised(&mut message, entry)?;
    write_plate(&mut message, entry.number, plate)?;
    write_answer(&mut message, entry.number, entry.answer)?;
    write_help(&mut message, entry.hint, entry.usual)?;
    Ok(message)
}

/// The page of a refusal, if there is one of that number: what it means, where it is raised, a smallest input with its
/// answer, what to write instead, and of a program a usual text with the text mended. The error is out of memory.
pub fn page(alloc: Global, number: u16) -> Result<Option<Message>, AllocError>
    ensures known { IfOk result (λ page. is_some page ≡ is_refusal number) }
    ensures reported { IfOk result
        (λ page. IfSome page (λ message. ReportsPage number message.bytes.items)) }
{
    match entry_of(number) {
        Some(entry) => Ok(Some(page_message(alloc, entry)?)),
        None => Ok(None),
    }
}

/// The page of a warning, if there is one of that number. The error is out of memory.
pub fn warning_page(alloc: Global, number: u8) -> Result<Option<Message>, AllocError>
    ensures { IfOk result (λ page. is_some page ≡ is_from 1 9 number) }
{
    let Some(warning) = warning_of(u16::from(number)) else {
        return Ok(None);
    };
    let mut message = Message::new(alloc);
    message.say("W")?;
    write_number(&mut message, warning.number, warning.sentence)?;
    write_line(&mut message, "place", warning.place)?;
    write_line(&mut message, "example (` / ` is a line end)", warning.input)?;
    write_help(&mut message, warning.hint, warning.usual)?;
    Ok(Some(message))
}
