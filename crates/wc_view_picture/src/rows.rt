ghost use Rattle.std.specs.Prelude.{◌≡◌, ◌∷◌, ◌++◌, [], ℕ, List, OnOk, Option, is_some, option_map};
ghost use Rattle.wc_model.specs.Definitions.{inputs_with, Logic, answer_line};
ghost use Rattle.wc_record.specs.Views.{head_data_view};
ghost use Rattle.wc_run.specs.Observing.{lines_of_scan};
ghost use Rattle.wc_view_columns.specs.Held.{Held, IsStateOf};
ghost use Rattle.wc_view_columns.specs.{Row, row_at};
ghost use Rattle.wc_view_picture.specs.Seen.{IsTimeOf, change_of, most_of, most_with, outputs_with, scan_in};

use crate::view::ScanSteps;
use std::alloc::{AllocError, Global};
use wc_model::Outputs;
use wc_record::HeadKind;
use wc_run::ScanSeen;
use wc_view_columns::{Column, Events, TimeLine};

/// The inputs after a row of this kind.
pub(crate) fn inputs_after(kind: HeadKind, inputs: u16) -> u16
    ensures { (bytes : List ℕ) → result ≡ inputs_with (head_data_view bytes kind) inputs }
{
    match kind {
        HeadKind::Inputs(new) => new,
        HeadKind::Counts(_) | HeadKind::Bytes | HeadKind::Scan | HeadKind::Change => inputs,
    }
}

/// The outputs after a row: those of its scan, if it has one.
pub(crate) fn outputs_after(scan: &Option<ScanSeen>, outputs: Outputs) -> Outputs
    ensures { (ms : ℕ) (answer : List ℕ) → result
        ≡ outputs_with (answer_line ms answer ++ lines_of_scan scan.now) outputs }
{
    match scan {
        Some(scan) => scan.record.outputs,
        None => outputs,
    }
}

/// The steps of the program that runs after a row: those of the row's scan too, if it has one.
pub(crate) fn steps_after(scan: &Option<ScanSeen>, running: Option<ScanSteps>) -> Option<ScanSteps>
    ensures { (ms : ℕ) (answer : List ℕ) → most_of result
        ≡ option_map (most_with (answer_line ms answer ++ lines_of_scan scan.now))
        (most_of running) }
{
    let Some(scan) = scan else {
        return running;
    };
    let ScanSteps { most, bound } = running?;
    Some(ScanSteps {
        most: most.max(scan.record.steps),
        bound,
    })
}

/// The scan of a row, if it has one.
pub(crate) fn scan_of(scan: &Option<ScanSeen>) -> Events
    ensures { (ms : ℕ) (answer : List ℕ) → result
        ≡ scan_in (answer_line ms answer ++ lines_of_scan scan.now) }
{
    let mut events = Events::none();
    if let Some(scan) = scan {
        events.scan(scan.record.steps);
    }
    events
}

/// A change of the program, if one runs.
pub(crate) fn change_of(runs: bool, ms: u64) -> Events
    ensures { (logic : Option Logic) → runs ≡ is_some logic → result ≡ change_of ms logic }
{
    let mut events = Events::none();
    if runs {
        events.changes = 1;
        events.marked = Some(ms);
    }
    events
}

/// Keeps a row in the columns; they are allocated at the first one.
pub(crate) fn keep(
    alloc: Global,
    line: &mut Option<TimeLine>,
    ms: u64,
    row: Column,
) -> Result<(), AllocError>
    ensures { OnOk result ((rows : List Row) (held : Held) → IsTimeOf rows line.old
        → IsStateOf (held ∷ []) row.state
        → IsTimeOf (rows ++ (row_at ms held row ∷ [])) line.new) }
{
    match line {
        Some(line) => line.take(ms, row),
        None => {
            let mut first = TimeLine::new(alloc)?;
            first.take(ms, row);
            *line = Some(first);
        }
    }
    Ok(())
}
