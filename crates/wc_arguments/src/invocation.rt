ghost use Rattle.std.specs.Prelude.{◌≡◌, ◌==◌, IfOk, Some, codes, false, option_map};
ghost use Rattle.std.specs.List.{count_by};
ghost use Rattle.std.specs.Option.{option_map_or, option_to_list};
ghost use Rattle.clap.specs.Words.{FailsBy, app_of, fault_of, first_of, found_of, rows_of, subcommand_rows_of};
ghost use Rattle.wc_arguments.specs.Asked.{asked, asked_at, asked_by, fault_in, faults_of, file_in, flag_in, format_asked, format_in, format_named, number_in, texts_of, view, wide_number_in};
ghost use Rattle.wc_arguments.specs.CommandLine.{command_line};

use crate::scan_choice::ScanChoice;
use crate::table::{COMMANDS, MESSAGE, with_commands, with_options};
use crate::title::{Title, title_of};
use clap::error::ErrorKind;
use clap::{ArgMatches, Command, Error};
use std::alloc::{AllocError, Global};
use wc_diag_texts::Format;
use wc_identity::VERSION_TEXT;

/// The paths of a program, of the one that takes its place if it is changed, and of the log that is run with them.
#[derive(Clone, Copy)]
pub struct ProgramFiles<'a> {
    pub program: &'a str,
    pub next: Option<&'a str>,
    pub log: &'a str,
}

/// What the arguments of the command line ask for. Each text is the path of a file.
#[derive(Clone, Copy)]
pub enum Invocation<'a> {
    /// No arguments: a job from standard input.
    Job,
    /// The cost of each unit of a program, and its worst path if `paths` says so; with a next program that one's, and
    /// what a change to it keeps. If `deny` says so, a warning ends with the status of a refusal.
    Check {
        program: &'a str,
        next: Option<&'a str>,
        paths: bool,
        deny: bool,
    },
    /// A run of a log with a program, which prints all or a number of last scans, and with each the values of variables, if
    /// their names are given; if `changes` says so, only the scans at which these change.
    Run {
        plate: &'a str,
        files: ProgramFiles<'a>,
        last: Option<u16>,
        watch: Option<&'a str>,
        changes: bool,
    },
    /// A run of a log with a program, of which the scans that are chosen are shown item by item.
    Trace {
        plate: &'a str,
        files: ProgramFiles<'a>,
        chosen: ScanChoice,
    },
    /// A picture of a run of a log, with a program, and with the next one if it is changed, or with none; with the values of
    /// variables, if their names are given.
    Show {
        plate: &'a str,
        program: Option<&'a str>,
        next: Option<&'a str>,
        log: &'a str,
        watch: Option<&'a str>,
    },
    /// A report from standard input for people, or as a table.
    Decode {
        table: bool,
    },
    /// The page of a refusal by its number, or of a warning by its number after a W.
    Explain {
        number: &'a str,
    },
    /// A run of a log with no program.
    Line {
        plate: &'a str,
        log: &'a str,
    },
    /// The log that goes on after the row of that number, or after the last row.
    Cut {
        plate: &'a str,
        log: &'a str,
        at: Option<u64>,
    },
}

/// What the arguments ask for, and the format of a refusal's message.
#[derive(Clone, Copy)]
pub struct AskedCommand<'a> {
    pub wanted: Invocation<'a>,
    pub format: Format,
}

/// What is said of an unknown format.
const NO_FORMAT: &str = "expected long, short or json after '--message'";

/// What is said if an option is given without the one that it needs.
const NEXT_ALONE: &str = "'--next' is given without '--program'";

const WATCH_ALONE: &str = "'--watch' is given without '--program'";

const CHANGES_ALONE: &str = "'--changes' is given without '--watch'";

/// What is said if there are too many lanes.
const MANY_NAMES: &str = "'--watch' of 'show' takes at most four names";

/// The whole command line.
fn command<'a>(alloc: Global, title: Title) -> Result<Command<'a>, AllocError>
    ensures { IfOk result (λ c. app_of c ≡ command_line) }
{
    let line = Command::new(alloc, "wc")
        .version(VERSION_TEXT)
        .about(title.about)
        .display_name(title.name)?;
    let line = with_options(alloc, line, &[MESSAGE])?;
    with_commands(alloc, line, &COMMANDS)
}

/// The file after an option that must be there.
fn file<'a>(matches: &ArgMatches<'a>, name: &str) -> &'a str
    ensures { result.now ≡ file_in name.now (rows_of (found_of matches.now)) }
{
    matches.get_str(name).unwrap_or("")
}

/// The file after an option that may be there, or another text.
fn optional_file<'a>(matches: &ArgMatches<'a>, name: &str) -> Option<&'a str>
    ensures { option_map (λ path. path.now) result
        ≡ first_of name.now (rows_of (found_of matches.now)) }
{
    matches.get_str(name)
}

/// Whether a flag is given.
fn is_given(matches: &ArgMatches<'_>, name: &str) -> bool
    ensures { result ≡ flag_in name.now (rows_of (found_of matches.now)) }
{
    matches.get_one::<bool>(name).unwrap_or(false)
}

/// The number after an option, if it is given.
fn number(matches: &ArgMatches<'_>, name: &str) -> Option<u16>
    ensures { result ≡ number_in name.now (rows_of (found_of matches.now)) }
{
    matches.get_one::<u16>(name)
}

/// The number of 64 bits after an option, if it is given.
fn wide_number(matches: &ArgMatches<'_>, name: &str) -> Option<u64>
    ensures { result ≡ wide_number_in name.now (rows_of (found_of matches.now)) }
{
    matches.get_one::<u64>(name)
}

/// The files of a run.
fn program_files<'a>(matches: &ArgMatches<'a>) -> ProgramFiles<'a>
    ensures program { result.program.now
        ≡ file_in (codes "program") (rows_of (found_of matches.now)) }
    ensures next { option_map (λ path. path.now) result.next
        ≡ first_of (codes "next") (rows_of (found_of matches.now)) }
    ensures log { result.log.now ≡ file_in (codes "log") (rows_of (found_of matches.now)) }
{
    ProgramFiles {
        program: file(matches, "program"),
        next: optional_file(matches, "next"),
        log: file(matches, "log"),
    }
}

/// Which scans are to be shown.
fn chosen_scans(matches: &ArgMatches<'_>) -> ScanChoice
    ensures at { result.at ≡ wide_number_in (codes "at") (rows_of (found_of matches.now)) }
    ensures scan { result.scan ≡ wide_number_in (codes "scan") (rows_of (found_of matches.now)) }
    ensures from { result.from ≡ wide_number_in (codes "from") (rows_of (found_of matches.now)) }
    ensures to { result.to ≡ wide_number_in (codes "to") (rows_of (found_of matches.now)) }
{
    ScanChoice {
        at: wide_number(matches, "at"),
        scan: wide_number(matches, "scan"),
        from: wide_number(matches, "from"),
        to: wide_number(matches, "to"),
    }
}

/// What a word asks for.
fn wanted_by<'a>(word: &str, matches: &ArgMatches<'a>) -> Invocation<'a>
    ensures { view result ≡ asked_at word.now (rows_of (found_of matches.now)) }
{
    match word {
        "check" => Invocation::Check {
            program: file(matches, "program"),
            next: optional_file(matches, "next"),
            paths: is_given(matches, "path"),
            deny: is_given(matches, "deny-warnings"),
        },
        "run" => Invocation::Run {
            plate: file(matches, "plate"),
            files: program_files(matches),
            last: number(matches, "last"),
            watch: optional_file(matches, "watch"),
            changes: is_given(matches, "changes"),
        },
        "trace" => Invocation::Trace {
            plate: file(matches, "plate"),
            files: program_files(matches),
            chosen: chosen_scans(matches),
        },
        "show" => Invocation::Show {
            plate: file(matches, "plate"),
            program: optional_file(matches, "program"),
            next: optional_file(matches, "next"),
            log: file(matches, "log"),
            watch: optional_file(matches, "watch"),
        },
        "decode" => Invocation::Decode {
            table: is_given(matches, "csv"),
        },
        "explain" => Invocation::Explain {
            number: file(matches, "number"),
        },
        "line" => Invocation::Line {
            plate: file(matches, "plate"),
            log: file(matches, "log"),
        },
        "cut" => Invocation::Cut {
            plate: file(matches, "plate"),
            log: file(matches, "log"),
            at: wide_number(matches, "at"),
        },
        _ => Invocation::Job,
    }
}

/// What is asked for, and the text of the format that is given after the word, or else before it.
fn asked_in<'a>(matches: &ArgMatches<'a>) -> (Invocation<'a>, Option<&'a str>)
    ensures asked { view result.0 ≡ asked_by (subcommand_rows_of matches.now) }
    ensures format { option_map (λ text. text.now) result.1
        ≡ format_in (subcommand_rows_of matches.now) (rows_of (found_of matches.now)) }
{
    let before = matches.get_str("message");
    match matches.subcommand() {
        Some((word, inner)) => (wanted_by(word, inner), inner.get_str("message").or(before)),
        None => (Invocation::Job, before),
    }
}

/// The format of that name.
fn format_named(text: &str) -> Option<Format>
    ensures { result ≡ format_named text.now }
{
    match text {
        "long" => Some(Format::Long),
        "short" => Some(Format::Short),
        "json" => Some(Format::Json),
        _ => None,
    }
}

/// The format that a text names, the long one if none is given.
fn format_of(text: Option<&str>) -> Option<Format>
    ensures { result ≡ option_map_or format_named
        (option_map (λ given. given.now) text.entry) (Some Format.Long) }
{
    match text {
        Some(text) => format_named(text),
        None => Some(Format::Long),
    }
}

/// The number of commas in a list.
fn commas(list: &[u8]) -> usize
    ensures { result ≡ count_by (λ byte. byte == 44) list.now }
{
    list.iter().filter(|byte| **byte == b',').count()
}

/// What is wrong with the options together, if anything is, and the kind of that fault.
fn usage_fault(wanted: &Invocation<'_>) -> Option<(ErrorKind, &'static str)>
    ensures { option_to_list (option_map (λ fault. fault.0) result) ≡ faults_of (view wanted.now) }
{
    let lacking = ErrorKind::MissingRequiredArgument;
    match wanted {
        Invocation::Show {
            program: None,
            next: Some(_),
            ..
        } => Some((lacking, NEXT_ALONE)),
        Invocation::Show {
            program: None,
            watch: Some(_),
            ..
        } => Some((lacking, WATCH_ALONE)),
        Invocation::Run {
            watch: None,
            changes: true,
            ..
        } => Some((lacking, CHANGES_ALONE)),
        Invocation::Show {
            watch: Some(names),
            ..
        } if commas(names.as_bytes()) > 3 => Some((ErrorKind::InvalidValue, MANY_NAMES)),
        _ => None,
    }
}

/// What the command line reads of these arguments, and the format they name; or a fault in them, or help or the version that
/// was asked for.
fn read_by<'a>(
    line: &mut Command<'a>,
    arguments: &'a [String],
) -> Result<(Invocation<'a>, Option<Format>), Error>
    requires { app_of line.old ≡ command_line }
    ensures asked { IfOk result (λ read. view read.0 ≡ asked (texts_of arguments.now)) }
    ensures format { IfOk result (λ read. read.1 ≡ format_asked (texts_of arguments.now)) }
    ensures refused { FailsBy (fault_of command_line (texts_of arguments.now)) result }
{
    match line.try_get_matches_from_mut(arguments) {
        Ok(matches) => {
            let (wanted, text) = asked_in(&matches);
            Ok((wanted, format_of(text)))
        }
        Err(error) => Err(error),
    }
}

/// What the command line reads of these arguments; or a fault in them, one of their format or a missing option too.
fn asked_by<'a>(line: &mut Command<'a>, arguments: &'a [String]) -> Result<AskedCommand<'a>, Error>
    requires { app_of line.old ≡ command_line }
    ensures asked { IfOk result (λ request. view request.wanted ≡ asked (texts_of arguments.now)) }
    ensures format { IfOk result (λ request. format_asked (texts_of arguments.now)
        ≡ Some request.format) }
    ensures refused { FailsBy (fault_in (texts_of arguments.now)) result }
{
    let (wanted, format) = match read_by(line, arguments) {
        Ok(read) => read,
        Err(error) => return Err(error),
    };
    match format {
        Some(format) => match usage_fault(&wanted) {
            Some((kind, what)) => Err(line.error(kind, what)?),
            None => Ok(AskedCommand { wanted, format }),
        },
        None => Err(line.error(ErrorKind::InvalidValue, NO_FORMAT)?),
    }
}

/// What these arguments ask for, the first of which is the program's own name; or a fault in them, or help or the version that
/// was asked for.
pub fn read_arguments<'a>(alloc: Global, arguments: &'a [String]) -> Result<AskedCommand<'a>, Error>
    ensures asked { IfOk result (λ request. view request.wanted ≡ asked (texts_of arguments.now)) }
    ensures format { IfOk result (λ request. format_asked (texts_of arguments.now)
        ≡ Some request.format) }
    ensures refused { FailsBy (fault_in (texts_of arguments.now)) result }
{
    let mut line = command(alloc, title_of(arguments))?;
    asked_by(&mut line, arguments)
}
