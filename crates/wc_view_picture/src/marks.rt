use crate::sheet::{Sheet, Tenths, exactly, put};
use crate::view::{BASE, TOP, View};
use std::fmt::Write;
use std::str;
use wc_sma::Status;
use wc_view_columns::{Events, Request};
use wc_view_decode::{LineAnswer, kind_text, motion_text, status_text, unit_text};

/// Where the letters of marks are, and those of marks that are close to others.
const LETTERS: Tenths = Tenths(670);

const HIGHER_LETTERS: Tenths = Tenths(550);

/// How often each was done to zero, tare and program in some time, with its letter and its words. A cross after a letter
/// says that it was refused.
fn marks_of(events: &Events) -> [(u32, &'static str, &'static str); 6] {
    [
        (events.zeros, "Z", "zero set"),
        (events.zeros_refused, "Z×", "zero refused"),
        (events.tares, "T", "tare set"),
        (events.tares_refused, "T×", "tare refused"),
        (events.clears, "C", "tare cleared"),
        (events.changes, "P", "program changed"),
    ]
}

/// How often something was done.
fn count_of(events: &Events) -> u32 {
    let mut count = 0_u32;
    for (number, _letter, _words) in marks_of(events) {
        count = count.saturating_add(number);
    }
    count
}

/// Puts when something was done, of several the last, and what in words, each after a comma; and the bound that holds after a
/// change of the program.
fn put_title(out: &mut Sheet, view: &View<'_>, events: &Events) {
    if let Some(ms) = events.marked {
        let before = if count_of(events) > 1 { "up to " } else { "" };
        put!(out, "{before}{}", exactly(ms));
    }
    for (count, _letter, words) in marks_of(events) {
        match count {
            0 => {}
            1 => put!(out, ", {words}"),
            _ => put!(out, ", {words} {count} times"),
        }
    }
    if let Some(next) = view.next {
        if events.changes != 0 {
            put!(out, ", bound {}", next.bound);
        }
    }
}

/// Puts the mark of a column over the height of the curves, with its letters at a height above.
fn put_mark(out: &mut Sheet, view: &View<'_>, index: usize, events: &Events, y: Option<Tenths>) {
    let x = view.x(index);
    let look = match (events.zeros, events.tares, events.clears, events.changes) {
        (0, 0, 0, 0) => "refused",
        _ => "mark",
    };
    put!(out, "<g class=\"{look}\"><title>");
    put_title(out, view, events);
    put!(out, "</title><path d=\"M{x} {BASE}V{TOP}\"/>");
    if let Some(y) = y {
        put!(out, "<text x=\"{x}\" y=\"{y}\">");
        for (count, letter, _words) in marks_of(events) {
            if count != 0 {
                put!(out, "{letter}");
            }
        }
        put!(out, "</text>");
    }
    put!(out, "</g>\n");
}

/// Puts the marks of zero, tare and program; letters that are close go up by a line, or have no space.
pub(crate) fn put_marks(out: &mut Sheet, view: &View<'_>) {
    let (mut low, mut high) = (Tenths(0), Tenths(0));
    for (index, column) in view.columns.iter().enumerate() {
        if count_of(&column.events) != 0 {
            let x = view.x(index);
            let next = x.plus(200);
            let y = if low.0 <= x.0 {
                low = next;
                Some(LETTERS)
            } else if high.0 <= x.0 {
                high = next;
                Some(HIGHER_LETTERS)
            } else {
                None
            };
            put_mark(out, view, index, &column.events, y);
        }
    }
}

/// The space that a letter takes, in tenths.
const LETTER: u64 = 110;

/// Puts a request with its answer in words, the weight without the blanks before it.
fn put_answered(out: &mut Sheet, request: &Request) {
    put!(out, "{}", exactly(request.ms));
    let Some(LineAnswer::Weight(reading)) = &request.answer else {
        put!(out, ": not understood");
        return;
    };
    let weight = str::from_utf8(reading.weight.trim_ascii_start()).unwrap_or("");
    let (unit, kind) = (unit_text(reading.unit), kind_text(reading.kind));
    let (motion, status) = (motion_text(reading.is_stable), status_text(reading.status));
    put!(out, ": {} → ", char::from(request.command.letter()));
    put!(out, "{weight} {unit}{kind}{motion}{status}");
    // What a report says of a scale with no sample, a picture says of that moment.
    if matches!(reading.status, Status::NoSample) {
        put!(out, " yet");
    }
}

/// Puts a stroke for each column with a request, with the last as its title, and its letter if there is space for it.
pub(crate) fn put_requests(out: &mut Sheet, view: &View<'_>, top: Tenths, height: u64) {
    let (base, middle) = (top.plus(height), top.plus(height / 2));
    let end = middle.plus(45);
    let mut free = 0_u64;
    for (index, column) in view.columns.iter().enumerate() {
        if let Some(request) = &column.events.last {
            let x = view.x(index);
            put!(out, "<g class=\"request\"><title>");
            if column.events.requests > 1 {
                put!(out, "{} requests, the last at ", column.events.requests);
            }
            put_answered(out, request);
            put!(out, "</title><path d=\"M{x} {base}V{end}\"/>");
            if free <= x.0 {
                let letter = char::from(request.command.letter());
                put!(out, "<text x=\"{x}\" y=\"{middle}\">{letter}</text>");
                free = x.plus(LETTER).0;
            }
            put!(out, "</g>\n");
        }
    }
}
