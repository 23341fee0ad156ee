ghost use Rattle.std.specs.Prelude.{◌≡◌, IfOk, false};
ghost use Rattle.clap.specs.Words.{App, rule_of};
ghost use Rattle.wc_arguments.specs.CommandLine.{Takes, value_argument};
ghost use Rattle.wc_arguments.specs.Table.{row_rule, with_options, with_commands, command_of};

use clap::{Arg, ArgAction, Command, value_parser};
use std::alloc::{AllocError, Global};

/// How an option is given, and what it takes, by what its value is called.
#[derive(Clone, Copy)]
pub(crate) enum OptionKind<'a> {
    /// By its place, a text that must be given.
    Place(&'a str),
    /// After its name, a text that must be given.
    File(&'a str),
    /// After its name, a text that may be given.
    Value(&'a str),
    /// After its name, a count of scans that may be given.
    Scans(&'a str),
    /// After its name, a number of 64 bits that may be given.
    WideNumber(&'a str),
    /// Its name alone.
    Flag,
}

/// An option of a word, and what is said of it.
#[derive(Clone, Copy)]
pub(crate) struct OptionRow<'a> {
    kind: OptionKind<'a>,
    name: &'a str,
    help: &'a str,
}

/// A word with its options in their order, and what is said of it.
#[derive(Clone, Copy)]
pub(crate) struct CommandRow<'a> {
    name: &'a str,
    about: &'a str,
    options: &'a [OptionRow<'a>],
}

/// An argument that has a value.
fn value_argument<'a>(alloc: Global, row: &OptionRow<'a>, value: &'a str) -> Arg<'a>
    ensures rule { rule_of result ≡ value_argument row.now.name.now }
    ensures local { result.global ≡ false }
{
    Arg::new(alloc, row.name).value_name(value).help(row.help)
}

/// The argument of a row.
fn argument<'a>(alloc: Global, row: &OptionRow<'a>) -> Arg<'a>
    ensures rule { rule_of result ≡ row_rule row.now }
    ensures local { result.global ≡ false }
{
    match row.kind {
        OptionKind::Place(value) => value_argument(alloc, row, value).required(true),
        OptionKind::File(value) => value_argument(alloc, row, value)
            .long(row.name)
            .required(true),
        OptionKind::Value(value) => value_argument(alloc, row, value).long(row.name),
        OptionKind::Scans(value) => value_argument(alloc, row, value)
            .long(row.name)
            .value_parser(value_parser!(u16).range(1..=1000)),
        OptionKind::WideNumber(value) => value_argument(alloc, row, value)
            .long(row.name)
            .value_parser(value_parser!(u64)),
        OptionKind::Flag => Arg::new(alloc, row.name)
            .long(row.name)
            .action(ArgAction::SetTrue)
            .help(row.help),
    }
}

/// A word with these options more.
pub(crate) fn with_options<'a>(
    alloc: Global,
    mut word: Command<'a>,
    rows: &[OptionRow<'a>],
) -> Result<Command<'a>, AllocError>
    ensures { (app : App) → Takes app word.entry → IfOk result (Takes (with_options app rows.now)) }
{
    for row in rows {
        word = word.arg(argument(alloc, row))?;
    }
    Ok(word)
}

/// The word of a row.
fn command_of<'a>(alloc: Global, row: &CommandRow<'a>) -> Result<Command<'a>, AllocError>
    ensures { IfOk result (Takes (command_of row.now)) }
{
    let word = Command::new(alloc, row.name).about(row.about);
    with_options(alloc, word, row.options)
}

/// A command line with these words more.
pub(crate) fn with_commands<'a>(
    alloc: Global,
    mut line: Command<'a>,
    rows: &[CommandRow<'a>],
) -> Result<Command<'a>, AllocError>
    ensures { (app : App) → Takes app line.entry
        → IfOk result (Takes (with_commands app rows.now)) }
{
    for row in rows {
        let word = command_of(alloc, row)?;
        line = line.subcommand(word)?;
    }
    Ok(line)
}

const PLATE: OptionRow<'static> = OptionRow {
    kind: OptionKind::File("FILE"),
    name: "plate",
    help: "The plate: the scale's unit, capacity, interval, counts and window (TOML)",
};

const LOG: OptionRow<'static> = OptionRow {
    kind: OptionKind::File("FILE"),
    name: "log",
    help: "The log: samples, line bytes, inputs and scans (CSV)",
};

const PROGRAM: OptionRow<'static> = OptionRow {
    kind: OptionKind::File("FILE"),
    name: "program",
    help: "The program text (Instruction List)",
};

/// The option of the next program of a run.
const NEXT: OptionRow<'static> = OptionRow {
    kind: OptionKind::Value("FILE"),
    name: "next",
    help: "The next program, to which a row of kind P changes (Instruction List)",
};

/// The option that chooses the format of a refusal's message.
pub(crate) const MESSAGE: OptionRow<'static> = OptionRow {
    kind: OptionKind::Value("FORMAT"),
    name: "message",
    help: "The format of messages: long (the default), short or json",
};

pub(crate) const COMMANDS: [CommandRow<'static>; 8] = [
    CommandRow {
        name: "check",
        about: "Check a program, and print the greatest number of steps of each unit",
        options: &[
            OptionRow {
                kind: OptionKind::Place("PROGRAM"),
                name: "program",
                help: "The program text (Instruction List)",
            },
            OptionRow {
                kind: OptionKind::Value("FILE"),
                name: "next",
                help: "The next program: print its steps, and which values a change to it keeps",
            },
            OptionRow {
                kind: OptionKind::Flag,
                name: "path",
                help: "Also print the lines of a longest path of each unit",
            },
            OptionRow {
                kind: OptionKind::Flag,
                name: "deny-warnings",
                help: "End with status 1 if there is a warning",
            },
            MESSAGE,
        ],
    },
    CommandRow {
        name: "run",
        about: "Run a log with a program: print each scan, and each answer of the line",
        options: &[
            PLATE,
            PROGRAM,
            NEXT,
            LOG,
            OptionRow {
                kind: OptionKind::Scans("N"),
                name: "last",
                help: "Print only the last N scans (1 to 1000), after the answers of the line",
            },
            OptionRow {
                kind: OptionKind::Value("NAME,.."),
                name: "watch",
                help: "Print the values of these variables after each scan, such as filling,t.ET",
            },
            OptionRow {
                kind: OptionKind::Flag,
                name: "changes",
                help: "Print only the scans at which a value of these variables has changed",
            },
            MESSAGE,
        ],
    },
    CommandRow {
        name: "trace",
        about: "Run a log with a program, and show its scans line by line",
        options: &[
            PLATE,
            PROGRAM,
            NEXT,
            LOG,
            OptionRow {
                kind: OptionKind::WideNumber("MS"),
                name: "at",
                help: "Show only the scans at this time in ms (the --at of cut is a row)",
            },
            OptionRow {
                kind: OptionKind::WideNumber("N"),
                name: "scan",
                help: "Show only the scan of this number, counted from 1",
            },
            OptionRow {
                kind: OptionKind::WideNumber("MS"),
                name: "from",
                help: "Show no scan before this time in ms",
            },
            OptionRow {
                kind: OptionKind::WideNumber("MS"),
                name: "to",
                help: "Show no scan after this time in ms",
            },
            MESSAGE,
        ],
    },
    CommandRow {
        name: "show",
        about: "Run a log, and write a picture of it (SVG)",
        options: &[
            PLATE,
            OptionRow {
                kind: OptionKind::Value("FILE"),
                name: "program",
                help: "The program text (Instruction List); without it the log runs with no program",
            },
            NEXT,
            LOG,
            OptionRow {
                kind: OptionKind::Value("NAME,.."),
                name: "watch",
                help: "Draw the values of these variables too, at most four, such as filling,t.ET",
            },
            MESSAGE,
        ],
    },
    CommandRow {
        name: "line",
        about: "Run a log with no program: print each answer of the line",
        options: &[PLATE, LOG, MESSAGE],
    },
    CommandRow {
        name: "cut",
        about: "Write the rest of a log, with a prelude that restores the scale (a program starts over)",
        options: &[
            PLATE,
            LOG,
            OptionRow {
                kind: OptionKind::WideNumber("ROW"),
                name: "at",
                help: "Cut after this row, by default the last (the --at of trace is a time)",
            },
            MESSAGE,
        ],
    },
    CommandRow {
        name: "decode",
        about: "Read the report of a run from standard input, and write it for people",
        options: &[OptionRow {
            kind: OptionKind::Flag,
            name: "csv",
            help: "Write a table for a spreadsheet (CSV)",
        }],
    },
    CommandRow {
        name: "explain",
        about: "Explain a refusal or a warning: what it means, an example, and what to write",
        options: &[OptionRow {
            kind: OptionKind::Place("NUMBER"),
            name: "number",
            help: "The number of a refusal, such as 403, or of a warning, such as W3",
        }],
    },
];
