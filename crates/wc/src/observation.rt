ghost use Rattle.std.specs.Prelude.{◌≡◌, IfSome, Option, Some, option_map};
ghost use Rattle.clap.specs.Words.{Text};
ghost use Rattle.wc.specs.Commands.{IsCounted, observed_of, observed_with};
ghost use Rattle.wc_arguments.specs.Asked.{run, view};

use crate::files::RunPaths;
use wc_arguments::{Invocation, ScanChoice};
use wc_view_watch::WatchChoice;

/// What is written of a run of a log.
#[derive(Clone, Copy)]
pub(crate) enum Observation<'a> {
    /// The report: of every scan, or of a number of last ones.
    Scans(Option<u16>),
    /// The values of variables.
    Watched(WatchChoice<'a>),
    /// The scans that are chosen, item by item.
    Traced(ScanChoice),
    /// A picture, with the variables of a list of names if one is given.
    Drawn(Option<&'a str>),
}

/// What a run with these options is to write: the values of variables, if their names are given, else the scans. Nothing of options
/// that the command line refuses.
fn run_observation<'a>(
    last: Option<u16>,
    watch: Option<&'a str>,
    changes: bool,
) -> Option<Observation<'a>>
    ensures count { IfSome result (λ observed. IsCounted observed) }
    ensures asked { IfSome result (λ observed. (plate program log : Text) (next : Option Text)
        → observed_with observed plate (Some program) next log
        ≡ Some (run plate program next log last
        (option_map (λ list. list.now) watch.entry) changes)) }
{
    if last.is_some_and(|number| number < 1 || number > 1000) {
        return None;
    }
    match watch {
        Some(names) => {
            let names = names.as_bytes();
            Some(Observation::Watched(WatchChoice {
                names,
                last,
                changes,
            }))
        }
        None if changes => None,
        None => Some(Observation::Scans(last)),
    }
}

/// The files of the run that the arguments ask for, and what is to be written of it; nothing if they ask for something else.
pub(crate) fn observation_of<'a>(wanted: Invocation<'a>) -> Option<(RunPaths<'a>, Observation<'a>)>
    ensures count { IfSome result (λ found. IsCounted found.1) }
    ensures asked { IfSome result
        (λ found. observed_of found.0 found.1 ≡ Some (view wanted.entry)) }
{
    match wanted {
        Invocation::Run {
            plate,
            files,
            last,
            watch,
            changes,
        } => {
            let observed = run_observation(last, watch, changes)?;
            Some((RunPaths::with_program(plate, files), observed))
        }
        Invocation::Trace {
            plate,
            files,
            chosen,
        } => {
            Some((
                RunPaths::with_program(plate, files),
                Observation::Traced(chosen),
            ))
        }
        Invocation::Show {
            plate,
            program,
            next,
            log,
            watch,
        } => {
            let paths = RunPaths {
                plate,
                program,
                next,
                log,
            };
            Some((paths, Observation::Drawn(watch)))
        }
        Invocation::Line { plate, log } => {
            Some((RunPaths::alone(plate, log), Observation::Scans(None)))
        }
        _ => None,
    }
}
