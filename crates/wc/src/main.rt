//! The program: with no arguments it reads a job from standard input; else it checks a program, runs a log with one, or runs a
//! log with none.
#![tactic(auto)]

ghost use Rattle.wc.specs.Commands.{Asks};
ghost use Rattle.wc_arguments.specs.Asked.{explain as explain_asked, view};

mod commands;
mod file_source;
mod files;
mod noting;
mod observation;
mod output;
mod reporting;
mod session;

use clap::Error;
use clap::error::ErrorKind;
use commands::{CheckedPaths, check_programs, cut_log, decode_lines, observe_log, run_job};
use observation::observation_of;
use output::shared_output;
use reporting::{report_write_fault, without_memory};
use session::Session;
use std::fs::metadata;
use std::io::Write;
use std::process::ExitCode;
use std::{env, io};
use wc_arguments::{Invocation, read_arguments};
use wc_controller::RefusedRow;
use wc_diag_messages::{page_of, shown_text, warning_page};

/// The exit status if the arguments are wrong.
const USAGE_ERROR: u8 = 2;

/// The exit status if a device failed.
const DEVICE_FAULT: u8 = 3;

/// The arguments of the command line, the first of which is the program's own name.
fn arguments_given(rt: &HostRuntime) -> io::Result<Vec<String>> {
    let arguments = env::args(rt)?.collect(rt.alloc())?;
    Ok(arguments)
}

/// The exit status if the arguments could not be had.
fn end_without_arguments(rt: &HostRuntime, error: &io::Error) -> u8 {
    if error.kind() == io::ErrorKind::OutOfMemory {
        return without_memory(rt);
    }
    let _reported = rt.eprintln("error: the arguments are not valid UTF-8");
    USAGE_ERROR
}

/// Writes text on standard error, without the control characters that it may have.
fn write_shown(rt: &HostRuntime, text: &str) -> io::Result<()> {
    let text = shown_text(rt.alloc(), text.as_bytes())?;
    rt.stderr().write_all(text.as_bytes())
}

/// Says how the program is called with a word before a path, by the name by which it was called.
fn report_call(
    rt: &HostRuntime,
    what: &str,
    arguments: &[String],
    word: &str,
    path: &str,
) -> io::Result<()> {
    let called = arguments.first().map_or("wc", |called| called.as_str());
    rt.eprint(what)?;
    write_shown(rt, called)?;
    rt.eprint(word)?;
    write_shown(rt, path)?;
    rt.eprintln("")
}

/// Whether a path leads to something that can be read and is no folder. Nothing is opened: opening a pipe would wait for its writer.
fn is_readable(rt: &HostRuntime, path: &str) -> bool {
    metadata(rt, path).is_ok_and(|found| !found.is_dir())
}

/// Says what may be intended by an unknown first argument: which word takes a program, or how a job is read.
fn suggest_command(rt: &HostRuntime, arguments: &[String]) -> io::Result<()> {
    let job = "help: a job is read from standard input: ";
    match arguments.get(1) {
        Some(path) if is_readable(rt, path) && path.as_str().ends_with(".il") => {
            let check = "help: a program is checked by: ";
            report_call(rt, check, arguments, " check ", path)
        }
        Some(path) if is_readable(rt, path) => report_call(rt, job, arguments, " < ", path),
        _ => {
            rt.eprintln(
                "help: the commands are check, run, trace, show, line, cut, decode, explain and help",
            )?;
            report_call(rt, job, arguments, " < ", "job.txt")
        }
    }
}

/// Says which arguments print what a word takes.
fn report_taken(rt: &HostRuntime, arguments: &[String]) -> io::Result<()> {
    let taken = "help: the options are printed by: ";
    match arguments.get(1) {
        Some(word) if !word.as_str().starts_with("-") => {
            report_call(rt, taken, arguments, " help ", word)
        }
        _ => report_call(rt, taken, arguments, " help", ""),
    }
}

/// Says what helps if arguments are wrong.
fn report_help(rt: &HostRuntime, kind: ErrorKind, arguments: &[String]) -> io::Result<()> {
    match kind {
        ErrorKind::InvalidSubcommand => suggest_command(rt, arguments),
        ErrorKind::UnknownArgument => report_taken(rt, arguments),
        // The one number of `run` is that of last scans.
        ErrorKind::ValueValidation if arguments.iter().any(|word| word.as_str() == "run") => {
            rt.eprintln("help: --last takes a number of scans from 1 to 1000")
        }
        _ => Ok(()),
    }
}

/// Prints what is wrong with the arguments, line by line, without the control characters that an argument may have.
fn report_error(rt: &HostRuntime, error: &Error) -> io::Result<()> {
    let text = format!(in rt.alloc(); "{error}")?;
    for line in text.as_str().lines() {
        write_shown(rt, line)?;
        rt.eprintln("")?;
    }
    Ok(())
}

/// Says why a page or help was not printed: the exit status.
fn end_unprinted(rt: &HostRuntime, error: io::Error) -> u8 {
    if error.kind() == io::ErrorKind::OutOfMemory {
        return without_memory(rt);
    }
    let _reported = report_write_fault(rt, Some(error));
    DEVICE_FAULT
}

/// Prints help, the version, or what is wrong with the arguments: the exit status.
fn show(rt: &HostRuntime, error: &Error, arguments: &[String]) -> u8 {
    if error.kind() == ErrorKind::OutOfMemory {
        return without_memory(rt);
    }
    let printed = if error.use_stderr() {
        report_error(rt, error)
    } else {
        error.print(rt)
    };
    match printed {
        Ok(()) => {
            let _reported = report_help(rt, error.kind(), arguments);
            error.exit_code() as u8
        }
        Err(error) => end_unprinted(rt, error),
    }
}

/// Prints the page of a refusal, or of a warning, whose number follows a W: false if there is none of that number.
fn explain(rt: &HostRuntime, number: &str) -> io::Result<bool> {
    let page = match number.strip_prefix("W").or(number.strip_prefix("w")) {
        Some(number) => match number.parse::<u8>() {
            Ok(number) => warning_page(rt.alloc(), number)?,
            Err(_) => None,
        },
        None => match number.parse::<u16>() {
            Ok(number) => page_of(rt.alloc(), number)?,
            Err(_) => None,
        },
    };
    match page {
        Some(page) => rt.stdout().write_all(page.as_bytes())?,
        None => return Ok(false),
    }
    Ok(true)
}

/// Says that there is no page of that number.
fn report_no_page(rt: &HostRuntime, number: &str) -> io::Result<()> {
    rt.eprint("error: there is no refusal or warning ")?;
    write_shown(rt, number)?;
    rt.eprintln("")
}

/// Prints the page of a refusal or of a warning: the exit status. An unknown number is a usage error.
fn show_page(session: Session<'_>, number: &str) -> u8
    requires asked { Asks session (explain_asked number.now) }
{
    match explain(session.rt, number) {
        Ok(true) => 0,
        Ok(false) => {
            let _reported = report_no_page(session.rt, number);
            USAGE_ERROR
        }
        Err(error) => end_unprinted(session.rt, error),
    }
}

/// Does what the arguments ask for: the exit status.
fn execute(session: Session<'_>, row: &mut RefusedRow, wanted: Invocation<'_>) -> u8
    requires asked { Asks session (view wanted) }
{
    if let Some((paths, observed)) = observation_of(wanted) {
        return observe_log(session, row, paths, observed);
    }
    match wanted {
        Invocation::Job => run_job(session, row),
        Invocation::Check {
            program,
            next,
            paths,
            deny,
        } => check_programs(session, row, CheckedPaths { program, next }, paths, deny),
        Invocation::Decode { table } => decode_lines(session, row, table),
        Invocation::Explain { number } => show_page(session, number),
        Invocation::Cut { plate, log, at } => cut_log(session, row, at, plate, log),
        _ => USAGE_ERROR,
    }
}

/// Does what the arguments ask for, or says what is wrong with them. The exit status is 0 if all succeeded, 1 if something was
/// refused, 2 if the arguments are wrong, 3 if a device failed, 4 if out of memory.
fn main(rt: HostRuntime) -> ExitCode {
    let arguments = match arguments_given(&rt) {
        Ok(arguments) => arguments,
        Err(error) => return ExitCode::from(end_without_arguments(&rt, &error)),
    };
    let gathered = match shared_output(&rt) {
        Ok(gathered) => gathered,
        Err(_) => return ExitCode::from(without_memory(&rt)),
    };
    let status = match read_arguments(rt.alloc(), arguments.as_slice()) {
        Ok(request) => execute(
            Session {
                rt: &rt,
                format: request.format,
                gathered: &gathered,
                arguments: arguments.as_slice(),
            },
            &mut RefusedRow::new(rt.alloc()),
            request.wanted,
        ),
        Err(error) => show(&rt, &error, arguments.as_slice()),
    };
    ExitCode::from(status)
}
