ghost use Rattle.std.specs.Prelude.{option_map};
ghost use Rattle.wc.specs.Commands.{Asks, IsCounted, Observes};
ghost use Rattle.wc_arguments.specs.Asked.{check, cut, decode, job};

use crate::files::{
    RunFiles, RunInputFiles, RunPaths, cause_of, kept_cause, kept_source, optional_cause,
    optional_read, optional_source, read_of,
};
use crate::noting::{with_notes, with_warnings};
use crate::observation::Observation;
use crate::output::{FlushBeforeRead, SharedWriter};
use crate::reporting::{Sources, report};
use crate::session::Session;
use std::io;
use std::io::{IsTerminal, Stdin};
use wc_arguments::ScanChoice;
use wc_controller::{Ending, Input, RefusedRow, answer_job, check_file, last_files, report_files};
use wc_cut::{TooManyRows, cut_files};
use wc_devices::{KeepingReader, Retry};
use wc_diag_texts::Format;
use wc_model::Device;
use wc_view_decode::{DecodeFault, DecodeFormat, decode as decode_report};
use wc_view_picture::show_files;
use wc_view_trace::{ScanFilter, TraceFormat, trace_files};
use wc_view_watch::{UnknownName, WatchChoice, preview_files, watch_files};

/// Writes what is still gathered, and tells how the command ended: the exit status.
fn finish(
    session: Session<'_>,
    ending: Ending,
    reading: Option<io::Error>,
    sources: &Sources<'_>,
    row: &RefusedRow,
) -> u8 {
    let (written, writing) = match session.gathered.try_borrow_mut() {
        Ok(mut gathered) => (gathered.empty().is_ok(), gathered.get_ref().cause()),
        Err(_) => (false, None),
    };
    let is_lacking = reading.is_some_and(|error| error.kind() == io::ErrorKind::OutOfMemory);
    let ending = match ending {
        _ if !written => Ending::WriteFault,
        Ending::ReadFault { .. } if is_lacking => Ending::NoMemory,
        ending => ending,
    };
    // If standard error fails there is nobody left to report to.
    let _reported = report(session, ending, (reading, writing), sources, row);
    ending.status()
}

/// Tells how a run of these files ended: the exit status.
fn finish_run(session: Session<'_>, ending: Ending, files: &RunFiles<'_>, row: &RefusedRow) -> u8 {
    finish(session, ending, files.cause(), &files.sources(), row)
}

/// Says that a job is expected, if somebody types it.
fn report_waiting(rt: &HostRuntime) {
    if rt.stdin().is_terminal() {
        let _reported = rt.eprintln(
            "reading a job from standard input until its end (Ctrl-D); `help` prints the usage",
        );
    }
}

/// Answers a job on standard input: the exit status.
pub(crate) fn run_job(session: Session<'_>, row: &mut RefusedRow) -> u8
    requires asked { Asks session job }
{
    report_waiting(session.rt);
    let input: Retry<Stdin> = Retry::new(session.rt.stdin());
    let keeping = KeepingReader::new(session.rt.alloc(), input);
    let mut reader = Device::new(FlushBeforeRead::new(session.gathered, keeping));
    let mut writer = Device::new(SharedWriter::new(session.gathered));
    let ending = answer_job(session.rt.alloc(), &mut reader, &mut writer, row);
    let keeping = reader.get_ref().get_ref();
    let reading = cause_of(keeping, keeping.get_ref().cause());
    let bytes = keeping.bytes_read();
    finish(session, ending, reading, &Sources::Job { bytes }, row)
}

/// The paths of a program that is checked, and of the one to which it is to be changed, if there is one.
#[derive(Clone, Copy)]
pub(crate) struct CheckedPaths<'a> {
    pub(crate) program: &'a str,
    pub(crate) next: Option<&'a str>,
}

/// Checks the program in a file, and the one to which it is to be changed, and says what a change keeps: the exit status.
pub(crate) fn check_programs(
    session: Session<'_>,
    row: &mut RefusedRow,
    files: CheckedPaths<'_>,
    paths: bool,
    deny: bool,
) -> u8
    requires asked { Asks session
        (check files.program.now (option_map (λ next. next.now) files.next) paths deny) }
{
    let alloc = session.rt.alloc();
    let mut reader = kept_source(session, files.program);
    let mut next_reader = optional_source(session, files.next);
    let mut writer = Device::new(SharedWriter::new(session.gathered));
    let ending = match &mut next_reader {
        Some(next) => preview_files(alloc, paths, &mut reader, next, &mut writer),
        None => check_file(alloc, paths, &mut reader, &mut writer),
    };
    let reading = kept_cause(&reader).or(optional_cause(&next_reader));
    let program = read_of(files.program, &reader);
    let next = optional_read(files.next, &next_reader);
    let sources = Sources::Program { program, next };
    let status = finish(session, ending, reading, &sources, row);
    let status = with_notes(session, status, &sources);
    with_warnings(session, status, &next.unwrap_or(program), deny)
}

/// Reports that a name to be watched is unknown in these files: the exit status.
fn refuse_name(
    session: Session<'_>,
    list: &[u8],
    unknown: UnknownName,
    files: &Sources<'_>,
    row: &RefusedRow,
) -> u8 {
    let program: &[u8] = match files.text(Input::Program) {
        Some(section) => section.text,
        None => b"",
    };
    let ending = Ending::Refused {
        input: Input::Names,
        number: 401,
        place: 0,
    };
    let names = Sources::Names {
        list,
        unknown,
        program,
    };
    finish(session, ending, None, &names, row)
}

/// The scans that the arguments choose.
fn scans_of(chosen: ScanChoice) -> ScanFilter {
    ScanFilter {
        at: chosen.at,
        scan: chosen.scan,
        from: chosen.from,
        to: chosen.to,
    }
}

/// How scans are written: for programs if refusals are.
fn trace_format(format: Format) -> TraceFormat {
    match format {
        Format::Json => TraceFormat::Json,
        Format::Long | Format::Short => TraceFormat::Text,
    }
}

/// The bytes of a list of names, if one is given.
fn bytes_of(names: Option<&str>) -> Option<&[u8]> {
    Some(names?.as_bytes())
}

/// Runs the log in these files, and writes what is observed of it. The error is a name of a list that no program has.
fn observe(
    session: Session<'_>,
    row: &mut RefusedRow,
    inputs: &mut RunInputFiles<'_>,
    observed: Observation<'_>,
) -> Result<Ending, UnknownName>
    requires count { IsCounted observed }
{
    let (alloc, format) = (session.rt.alloc(), trace_format(session.format));
    let mut writer = Device::new(SharedWriter::new(session.gathered));
    let ending = match observed {
        Observation::Watched(choice) => return watch_files(alloc, choice, inputs, &mut writer, row),
        Observation::Drawn(names) => {
            return show_files(alloc, bytes_of(names), inputs, &mut writer, row);
        }
        Observation::Traced(chosen) => {
            trace_files(alloc, scans_of(chosen), format, inputs, &mut writer, row)
        }
        Observation::Scans(Some(last)) => last_files(alloc, last, inputs, &mut writer, row),
        Observation::Scans(None) => report_files(alloc, inputs, &mut writer, row),
    };
    Ok(ending)
}

/// Runs the log in a file, with a program and a next one if they are given, and writes what is observed of it: the exit status.
pub(crate) fn observe_log(
    session: Session<'_>,
    row: &mut RefusedRow,
    paths: RunPaths<'_>,
    observed: Observation<'_>,
) -> u8
    requires asked { Observes session paths observed }
    requires count { IsCounted observed }
{
    let mut opened = RunFiles::new(session, paths);
    let list = match observed {
        Observation::Watched(choice) => choice.names,
        Observation::Drawn(names) => bytes_of(names).unwrap_or(b""),
        _ => b"",
    };
    let status = match observe(session, row, &mut opened.inputs, observed) {
        Ok(ending) => finish_run(session, ending, &opened, row),
        Err(unknown) => refuse_name(session, list, unknown, &opened.sources(), row),
    };
    match observed {
        Observation::Traced(_) | Observation::Drawn(_) => with_notes(
            session,
            status,
            &opened.sources(),
        ),
        _ => status,
    }
}

/// How a command ends that decodes a report.
fn ending_of(answer: Result<(), DecodeFault>) -> Ending {
    match answer {
        Ok(()) => Ending::Done,
        Err(DecodeFault::Read) => Ending::ReadFault { input: Input::Job },
        Err(DecodeFault::Write) => Ending::WriteFault,
        Err(DecodeFault::Memory) => Ending::NoMemory,
    }
}

/// Writes a report from standard input for people, or as a table: the exit status.
pub(crate) fn decode_lines(session: Session<'_>, row: &mut RefusedRow, table: bool) -> u8
    requires asked { Asks session (decode table) }
{
    let input: Retry<Stdin> = Retry::new(session.rt.stdin());
    let mut reader = Device::new(FlushBeforeRead::new(session.gathered, input));
    let mut writer = Device::new(SharedWriter::new(session.gathered));
    let decoding = if table {
        DecodeFormat::Table
    } else {
        DecodeFormat::Text
    };
    let answer = decode_report(session.rt.alloc(), &mut reader, &mut writer, decoding);
    let reading = reader.get_ref().get_ref().cause();
    let sources = Sources::Job { bytes: b"" };
    finish(session, ending_of(answer), reading, &sources, row)
}

/// What is said of a log that was written, and will be refused.
const TOO_MANY_ROWS: &str =
    "error: the log that was written has more than 1000000 rows (607)\nhelp: cut it after a later row: a prelude can have 52 rows";

/// Writes the log that goes on after a row of the log in a file, or after the last one: the exit status.
pub(crate) fn cut_log<'a>(
    session: Session<'_>,
    row: &mut RefusedRow,
    at: Option<u64>,
    plate: &'a str,
    log: &'a str,
) -> u8
    requires asked { Asks session (cut plate.now log.now at) }
{
    let mut opened = RunFiles::new(session, RunPaths::alone(plate, log));
    let mut writer = Device::new(SharedWriter::new(session.gathered));
    // the heading is no row: before the cut are the rows up to that one, or all
    let before = at.map_or(u64::MAX, |row| row.saturating_sub(1));
    let answer = cut_files(
        session.rt.alloc(),
        before,
        &mut opened.inputs,
        &mut writer,
        row,
    );
    let is_too_long = matches!(answer, Err(TooManyRows));
    let status = finish_run(session, answer.unwrap_or(Ending::Done), &opened, row);
    if status == 0 && is_too_long {
        let _reported = session.rt.eprintln(TOO_MANY_ROWS);
        return 1;
    }
    status
}
