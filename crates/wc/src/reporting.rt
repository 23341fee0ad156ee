use crate::session::Session;
use std::alloc::{AllocError, Global};
use std::io;
use std::io::Write;
use wc_controller::{Ending, Input, RefusedRow};
use wc_diag_further::{Found, Further, LineFault};
use wc_diag_messages::{
    Evidence, JobSection, RefusalDetails, Severity, left_out_message, refusal_message, section_of,
    shown_text,
};
use wc_view_watch::UnknownName;

/// A file by its path, with the bytes that were read of it.
#[derive(Clone, Copy)]
pub(crate) struct ReadFile<'a> {
    pub(crate) path: &'a str,
    pub(crate) bytes: &'a [u8],
}

/// Where the inputs of a command come from: a job on standard input, with its bytes, or files. A log is
/// read row by row, and not kept.
#[derive(Clone, Copy)]
pub(crate) enum Sources<'a> {
    Job {
        bytes: &'a [u8],
    },
    Program {
        program: ReadFile<'a>,
        next: Option<ReadFile<'a>>,
    },
    Files {
        plate: Option<ReadFile<'a>>,
        program: Option<ReadFile<'a>>,
        next: Option<ReadFile<'a>>,
        log: Option<ReadFile<'a>>,
    },
    /// The list of names after `--watch`, of which one is unknown.
    Names {
        list: &'a [u8],
        unknown: UnknownName,
        program: &'a [u8],
    },
}

impl<'a> Sources<'a> {
    /// The file of an input, if it comes from one.
    fn file(&self, input: Input) -> Option<ReadFile<'a>> {
        match self {
            Sources::Program { program, next } => match input {
                Input::Next => *next,
                _ => Some(*program),
            },
            Sources::Files {
                plate,
                program,
                next,
                log,
            } => match input {
                Input::Plate => *plate,
                Input::Next => *next,
                Input::Log => *log,
                _ => *program,
            },
            _ => None,
        }
    }

    /// The path of an input if it comes from a file, or the option that it comes from.
    fn path(&self, input: Input) -> Option<&'a str> {
        match self {
            Sources::Names { .. } => Some("--watch"),
            _ => Some(self.file(input)?.path),
        }
    }

    /// The text of an input, if it has one, and the number of lines above it in what is named.
    pub(crate) fn text(&self, input: Input) -> Option<JobSection<'a>> {
        if let Sources::Job { bytes } = self {
            return section_of(bytes, input);
        }
        let text = self.file(input)?.bytes;
        Some(JobSection { text, above: 0 })
    }
}

/// The name of an input of a job, which comes from standard input.
fn section(input: Input) -> &'static str {
    match input {
        Input::Job | Input::Names => "standard input",
        Input::Plate => "standard input, section @plate",
        Input::Program => "standard input, section @program",
        Input::Next => "standard input, section @next",
        Input::Log => "standard input, section @log",
    }
}

/// What is available of an input that is refused, and the number of lines above it in what is named.
fn evidence_of<'a>(
    sources: &Sources<'a>,
    row: &'a RefusedRow,
    input: Input,
) -> (Evidence<'a>, u32) {
    if let Sources::Names {
        list,
        unknown,
        program,
    } = sources
    {
        let names = Evidence::Names {
            list,
            start: unknown.start,
            length: unknown.length,
            program,
        };
        return (names, 0);
    }
    let Some(section) = sources.text(input) else {
        return (Evidence::Nothing, 0);
    };
    match input {
        Input::Log if row.line() == 0 => (Evidence::Nothing, 0),
        Input::Log => (
            Evidence::Row(row),
            section.above.saturating_add(row.line().saturating_sub(1)),
        ),
        _ => (Evidence::Text(section.text), section.above),
    }
}

/// Which input is refused and where, with what is available of it.
fn refusal_of<'a>(
    sources: &Sources<'a>,
    row: &'a RefusedRow,
    input: Input,
    fault: LineFault,
) -> RefusalDetails<'a> {
    let path = sources.path(input);
    let (evidence, above) = evidence_of(sources, row, input);
    RefusalDetails {
        number: fault.number,
        place: fault.place,
        part: input,
        name: path.unwrap_or("standard input").as_bytes(),
        in_job: path.is_none(),
        evidence,
        above,
    }
}

/// Why an input is refused whose text is changed, where, and what to write instead.
fn further_message(
    session: Session<'_>,
    refusal: &RefusalDetails<'_>,
    fault: LineFault,
    text: &[u8],
) -> Result<Vec<u8>, AllocError> {
    let further = RefusalDetails {
        number: fault.number,
        place: fault.place,
        evidence: Evidence::Text(text),
        ..*refusal
    };
    refusal_message(session.rt.alloc(), session.format, &further)
}

/// The number of further refusals that are printed at most.
const MOST_REFUSALS: usize = 20;

/// Keeps the place and the message of each further refusal of a text that is refused so, and after them that there are more.
fn gather_further(
    session: Session<'_>,
    refusal: &RefusalDetails<'_>,
    text: &[u8],
    messages: &mut Vec<(u32, Vec<u8>)>,
) -> Result<(), AllocError> {
    let (alloc, format) = (session.rt.alloc(), session.format);
    let RefusalDetails { number, place, .. } = *refusal;
    let mut further = Further::new(alloc, text, LineFault { number, place })?;
    for count in 0..=MOST_REFUSALS {
        let Found::Refused(fault) = further.next(alloc)? else {
            break;
        };
        if count == MOST_REFUSALS {
            let more = left_out_message(alloc, format, Severity::Error, refusal.name, 1)?;
            messages.push((u32::MAX, more))?;
            break;
        }
        let message = further_message(session, refusal, fault, further.text())?;
        messages.push((fault.place, message))?;
    }
    Ok(())
}

/// Prints what else is wrong with a text that is refused so: of a program in text order, of a plate in the order of its rules. The error
/// is out of memory, or standard error fails.
fn report_further(
    session: Session<'_>,
    refusal: &RefusalDetails<'_>,
    text: &[u8],
) -> io::Result<()> {
    let mut messages = Vec::new(session.rt.alloc());
    let gathered = gather_further(session, refusal, text, &mut messages);
    messages.sort_by_key(|message| message.0)?;
    for (_, message) in &messages {
        session.rt.stderr().write_all(message)?;
    }
    Ok(gathered?)
}

/// Prints what else is wrong with a program whose check it ended, or with a plate. The refusal is reported by then: if memory runs out or
/// standard error fails, less is listed.
fn list_further(session: Session<'_>, sources: &Sources<'_>, refusal: &RefusalDetails<'_>) {
    let is_listed = match sources {
        Sources::Program { next: None, .. } => refusal.number < 500,
        _ => matches!(refusal.number, 502..=508),
    };
    if let (true, Evidence::Text(text)) = (is_listed, refusal.evidence) {
        let _reported = report_further(session, refusal, text);
    }
}

/// Says which input could not be read, and why.
fn report_read_fault(
    rt: &HostRuntime,
    sources: &Sources<'_>,
    input: Input,
    cause: Option<io::Error>,
) -> io::Result<()> {
    let name = sources.path(input).unwrap_or(section(input));
    let name = shown_text(rt.alloc(), name.as_bytes())?;
    let name = str::from_utf8(name.as_bytes()).unwrap_or("the input");
    let is_missing = cause.is_some_and(|error| error.kind() == io::ErrorKind::NotFound);
    if is_missing {
        // no device failed: most often the name is mistyped, so that is said first
        eprintln!(rt; "error: there is no file {name}")?;
    }
    rt.eprintln("device fault")?;
    match (cause, sources) {
        _ if is_missing => Ok(()),
        (Some(error), _) => eprintln!(rt; "error: {name} can't be read: {error}"),
        // a report that is decoded has another limit than a log
        (None, Sources::Job { .. }) => {
            eprintln!(rt; "error: {name} exceeds the limit of 2147483648 bytes and reads")
        }
        (None, _) => eprintln!(rt; "error: {name} exceeds the limit of 134217728 bytes and reads"),
    }
}

/// Says that standard output could not be written, and why.
pub(crate) fn report_write_fault(rt: &HostRuntime, cause: Option<io::Error>) -> io::Result<()> {
    rt.eprintln("device fault")?;
    match cause {
        Some(error) => eprintln!(rt; "error: cannot write to standard output: {error}"),
        None => rt.eprintln("error: cannot write to standard output"),
    }
}

/// Says on standard error how a command ended, if it did not succeed, and what the system said of a read and of a write that failed.
pub(crate) fn report(
    session: Session<'_>,
    ending: Ending,
    causes: (Option<io::Error>, Option<io::Error>),
    sources: &Sources<'_>,
    row: &RefusedRow,
) -> io::Result<()> {
    match ending {
        Ending::Done => Ok(()),
        Ending::Refused {
            input,
            number,
            place,
        } => {
            let refusal = refusal_of(sources, row, input, LineFault { number, place });
            let message = refusal_message(session.rt.alloc(), session.format, &refusal)?;
            session.rt.stderr().write_all(&message)?;
            list_further(session, sources, &refusal);
            Ok(())
        }
        Ending::ReadFault { input } => report_read_fault(session.rt, sources, input, causes.0),
        Ending::WriteFault => report_write_fault(session.rt, causes.1),
        Ending::NoMemory => session.rt.eprintln("memory"),
    }
}

/// Reports that memory ran out: the exit status.
pub(crate) fn without_memory(rt: &HostRuntime) -> u8 {
    let _reported = rt.eprintln("memory");
    Ending::NoMemory.status()
}
