ghost use Rattle.std.specs.Prelude.{◌≡◌, ◌≤◌, ◌==◌, ◌||◌, ◌++◌, bytes_eq, codes, length};
ghost use Rattle.std.specs.List.{position_or_len};
ghost use Rattle.wc_job.specs.Views.{BeginsWithLine, parted_view, result_view, found_view, heading_view, line_length, sections_view};
ghost use Rattle.wc_model.specs.Run.JobSections.{is_heading, part_at, sections_in, sections_of, sections_with_next, sections_with_program, whole_lines};

use crate::parts::{Sections, SplitLine};
use wc_model::LONGEST_JOB;

/// A heading.
#[derive(Clone, Copy)]
enum Heading {
    Plate,
    Program,
    Next,
    Log,
}

/// The text is one of two.
fn is_either(text: &[u8], one: &[u8], other: &[u8]) -> bool
    ensures { result ≡ (bytes_eq text.now one.now || bytes_eq text.now other.now) }
{
    text == one || text == other
}

/// The line is this heading: its word, then LF or CRLF, and nothing else.
fn is_heading(heading: Heading, line: &[u8]) -> bool
    ensures { result ≡ is_heading (heading_view heading) line.now }
{
    match heading {
        Heading::Plate => is_either(line, b"@plate\n", b"@plate\r\n"),
        Heading::Program => is_either(line, b"@program\n", b"@program\r\n"),
        Heading::Next => is_either(line, b"@next\n", b"@next\r\n"),
        Heading::Log => is_either(line, b"@log\n", b"@log\r\n"),
    }
}

/// The number of bytes before the first LF.
fn length_before_end(text: &[u8]) -> usize
    ensures first { result ≡ position_or_len (λ byte. byte == 10) text.now }
    ensures within { result ≤ length text.now }
{
    text.iter().take_while(|byte| **byte != b'\n').count()
}

/// The number of bytes the first line has, with its LF if it has one.
fn line_length(text: &[u8]) -> usize
    ensures longest { result ≡ line_length text.now }
    ensures within { result ≤ length text.now }
{
    (length_before_end(text) + 1).min(text.len())
}

/// The first line with its LF, and what follows it. Both are empty only if the text is.
fn first_line(text: &[u8]) -> (&[u8], &[u8])
    ensures whole { text.now ≡ result.0.now ++ result.1.now }
    ensures line { BeginsWithLine text.now result.0.now result.1.now }
{
    text.split_at(line_length(text))
}

/// What precedes and follows the first line that is this heading.
fn part_at<'a>(heading: Heading, text: &'a [u8]) -> Option<SplitLine<'a>>
    ensures { parted_view result ≡ part_at (heading_view heading) (whole_lines text.now) }
{
    let mut start = 0_usize;
    while start < text.len() {
        let (before, rest) = text.split_at(start);
        let (line, after) = first_line(rest);
        if is_heading(heading, line) {
            return Some(SplitLine {
                section: before,
                rest: after,
            });
        }
        start += line.len();
    }
    None
}

/// The sections of a plate, of what is between the headings of program and log, and of a log.
fn with_programs<'a>(plate: &'a [u8], between: &'a [u8], log: &'a [u8]) -> Sections<'a>
    ensures { sections_view result ≡ sections_with_next plate.entry.now between.entry.now
        log.entry.now (part_at (codes "@next") (whole_lines between.entry.now)) }
{
    match part_at(Heading::Next, between) {
        None => Sections {
            plate,
            program: between,
            next: None,
            log,
        },
        Some(cut) => Sections {
            plate,
            program: cut.section,
            next: Some(cut.rest),
            log,
        },
    }
}

/// The sections after the first heading.
fn sections_after<'a>(text: &'a [u8]) -> Option<Sections<'a>>
    ensures { found_view result
        ≡ sections_with_program (part_at (codes "@program") (whole_lines text.now)) }
{
    let plate = part_at(Heading::Program, text)?;
    let programs = part_at(Heading::Log, plate.rest)?;
    Some(with_programs(plate.section, programs.section, programs.rest))
}

/// The sections of a text whose first line is the first heading.
fn sections_in<'a>(text: &'a [u8]) -> Option<Sections<'a>>
    ensures { found_view result ≡ sections_in (whole_lines text.now) }
{
    let (first, rest) = first_line(text);
    if is_heading(Heading::Plate, first) {
        sections_after(rest)
    } else {
        None
    }
}

/// The sections of a job of at most 1048576 bytes: what is between `@plate`, its first line, the first line `@program`
/// after it, the first line `@log` after that one, and the end; and, if a line `@next` is between `@program` and
/// `@log`, the next program after the first such line. A heading is alone on its line and ends with LF or CRLF.
/// 702 if the job is longer, 701 if a heading is missing. It takes no memory. (The form is the profile's own.)
pub fn sections<'a>(bytes: &'a [u8]) -> Result<Sections<'a>, u16>
    ensures { result_view result ≡ sections_of bytes.now }
{
    if bytes.len() > LONGEST_JOB {
        return Err(702);
    }
    sections_in(bytes).ok_or(701)
}
