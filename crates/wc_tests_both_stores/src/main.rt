//! A program for the repository's scripts. It reads a job from standard input, runs its log over both stores, and prints
//! the report and the refusal if both are the same. If the job has a next program it also asks a machine for that
//! change, and says on standard error whether it was made, or how the machine that came back answers.
#![tactic(auto)]

mod changing;
mod comparing;

use changing::{Change, change_of};
use comparing::report_of_both;
use std::alloc::Global;
use std::io;
use std::io::Write;
use std::process::ExitCode;
use wc_controller::{Input, RunFault, read_input};
use wc_job::{Sections, sections};
use wc_model::Device;

/// The exit status if the stores differ, or a machine that came back is not as it was.
const DIFFERS: u8 = 9;

/// Writes the line of a refusal.
fn print_refusal(rt: &HostRuntime, number: u16, place: u32) -> io::Result<()> {
    println!(rt; "refused {number} {place}")
}

/// Prints what both stores gave: the exit status.
fn print_report(rt: &HostRuntime, report: &[u8], answer: Result<u32, RunFault>) -> u8 {
    if rt.stdout().write_all(report).is_err() {
        return 3;
    }
    match answer {
        Ok(_) => 0,
        Err(RunFault::Refused { number, place }) => match print_refusal(rt, number, place) {
            Ok(()) => 1,
            Err(_) => 3,
        },
        Err(RunFault::Memory) => 4,
        Err(_) => 3,
    }
}

/// Runs a job over both stores and prints what both gave: the exit status.
fn run_job(rt: &HostRuntime, job: &Sections<'_>) -> u8 {
    let mut report = Device::new(Vec::new(rt.alloc()));
    match report_of_both(rt.alloc(), job, &mut report) {
        Some(answer) => print_report(rt, report.get_ref(), answer),
        None => {
            let _said = rt.eprintln("the stores differ");
            DIFFERS
        }
    }
}

/// Says what a change to the next program came to: the exit status.
fn say_change(rt: &HostRuntime, change: Change) -> u8 {
    let (text, status) = match change {
        Change::Unloaded => ("change: not asked for", 0),
        Change::Made => ("change: made", 0),
        Change::HandedBack => ("change: refused, and the machine is as it was", 0),
        Change::Spoiled => ("change: refused, and the machine is not as it was", DIFFERS),
    };
    let _said = rt.eprintln(text);
    status
}

/// Runs a job, and asks for the change to its next program, if it has one: the exit status.
fn answer_job(rt: &HostRuntime, job: &Sections<'_>) -> u8 {
    let changed = match job.next {
        Some(next) => say_change(rt, change_of(rt.alloc(), job.program, next)),
        None => 0,
    };
    if changed != 0 {
        return changed;
    }
    run_job(rt, job)
}

/// Answers the bytes of a job: the exit status.
fn answer_bytes(rt: &HostRuntime, bytes: &[u8]) -> u8 {
    match sections(bytes) {
        Ok(job) => answer_job(rt, &job),
        Err(number) => match print_refusal(rt, number, 0) {
            Ok(()) => 1,
            Err(_) => 3,
        },
    }
}

fn main(rt: HostRuntime) -> ExitCode {
    let mut input = Device::new(rt.stdin());
    let status = match read_input(rt.alloc(), Input::Job, &mut input) {
        Ok(bytes) => answer_bytes(&rt, &bytes),
        Err(stopped) => print_report(&rt, b"", Err(stopped.fault)),
    };
    ExitCode::from(status)
}
