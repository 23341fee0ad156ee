ghost use Rattle.std.specs.Prelude.{◌≡◌, ◌≤◌, ◌+◌, IfNone, IfSome, option_map};
ghost use Rattle.wc_diag_messages.specs.Locations.{IsBelow, line_ends, text_of};
ghost use Rattle.wc_model.specs.Run.JobSections.{sections_of};

use wc_job::{Input, sections};

/// A section of a job.
#[derive(Clone, Copy)]
pub struct JobSection<'a> {
    pub text: &'a [u8],
    /// The number of lines of the job above them.
    pub above: u32,
}

/// The number of line feeds.
fn line_feeds(text: &[u8]) -> usize
    ensures { result ≡ line_ends text.now }
{
    text.iter().filter(|byte| **byte == b'\n').count()
}

/// The number of lines above what follows a section and the heading after it.
fn after_heading(above: u32, section: &[u8]) -> u32
    ensures { above ≤ 2097152 → line_ends section.now ≤ 1048576
        → result ≡ above + line_ends section.now + 1 }
{
    let feeds = line_feeds(section).min(1048576) as u32;
    above.saturating_add(feeds).saturating_add(1)
}

/// The number of lines above the log, from the number above what follows the program and the heading after it.
fn above_log(above: u32, next: Option<&[u8]>) -> u32
    ensures none { IfNone next.entry (result ≡ above) }
    ensures next { IfSome next.entry (λ text. above ≤ 2097152 → line_ends text.now ≤ 1048576
        → result ≡ above + line_ends text.now + 1) }
{
    match next {
        Some(text) => after_heading(above, text),
        None => above,
    }
}

/// The section of a job that is this part, if the job has its headings.
pub fn section_of(job: &[u8], part: Input) -> Option<JobSection<'_>>
    ensures text { option_map (λ section. section.text.now) result
        ≡ text_of part (sections_of job.now) }
    ensures above { IfSome result (λ section. IsBelow job.now part section.above) }
{
    let Ok(found) = sections(job) else {
        return None;
    };
    let program = after_heading(1, found.plate);
    let next = after_heading(program, found.program);
    let (text, above) = match part {
        Input::Job | Input::Names => return None,
        Input::Plate => (found.plate, 1),
        Input::Program => (found.program, program),
        Input::Next => match found.next {
            Some(text) => (text, next),
            None => return None,
        },
        Input::Log => (found.log, above_log(next, found.next)),
    };
    Some(JobSection { text, above })
}
