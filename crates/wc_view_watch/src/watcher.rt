ghost use Rattle.std.specs.Prelude.{◌≡◌, ◌≤◌, ◌++◌, ◌∷◌, List, [], ℕ, IfOk, IfSome, IsOkUnless, None, OnOk, Option, Some, option_copied};
ghost use Rattle.wc_model.specs.Say.ProgramReport.{Logic};
ghost use Rattle.wc_run.specs.Observing.{row_of, line_of_record};
ghost use Rattle.wc_view_watch.specs.Plans.{end_text, is_written, last_values, line_with_values, row_text, scans_so_far, values_of, written_now};
ghost use Rattle.wc_view_watch.specs.Watching.{FitLogic, IsNew, KeepsLast, KeepsValues, OfRow, RunsLogic, WatchesAs};

use crate::last_texts::LastTexts;
use crate::last_values::LastValues;
use crate::watched_names::WatchedNames;
use crate::watching::WatchChoice;
use std::alloc::Global;
use wc_machine::Machine;
use wc_model::{ByteOut, Fault, put_bytes};
use wc_record::Record;
use wc_run::{LogScale, Observer, Program, RowSeen, RunFault, put_answer, put_record, write_text};
use wc_store::SlotStore;

/// The number of bytes the line of a scan has at most, and the number each name has at most besides its own.
const SCAN: usize = 96;

const ALONGSIDE: usize = 24;

/// Observes a run, and writes its report and after the line of each scan one with the values that are watched.
#[derive(Drop)]
pub(crate) struct Watcher<'n> {
    alloc: Global,
    list: &'n [u8],
    pub(crate) names: WatchedNames<'n>,
    number: Option<u16>,
    changes: bool,
    last: Option<LastTexts>,
    values: LastValues,
    text: Vec<u8>,
    scan: Vec<u8>,
}

/// The number of bytes the text of a scan has at most, with the values of these names.
fn scan_length(list: &[u8]) -> usize {
    let commas = list.iter().filter(|byte| **byte == b',').count();
    let names = commas.saturating_add(1).saturating_mul(ALONGSIDE);
    list.len().saturating_add(SCAN).saturating_add(names)
}

/// Space for the last n scans, if these are asked for.
fn last_texts(alloc: Global, number: Option<u16>, length: usize) -> Result<Option<LastTexts>, Fault>
    requires { IfSome number (λ n. (1 ≤ n) × (n ≤ 1000)) }
    ensures empty { IfOk result (λ last. KeepsLast last number []) }
    ensures memory { IsOkUnless result Fault.Memory }
{
    let Some(number) = number else {
        return Ok(None);
    };
    Ok(Some(LastTexts::new(alloc, number, length)?))
}

/// Puts the line of a scan, and if a program runs that of its values.
fn put_scan(
    text: &mut Vec<u8>,
    names: &WatchedNames<'_>,
    scan: &Record,
    machine: Option<&Machine<'_, SlotStore>>,
) -> Result<(), RunFault>
    ensures puts { (list : List ℕ) (logic : Option Logic) → FitLogic names.now list logic
        → RunsLogic (option_copied machine.entry) logic
        → OnOk result (text.new.items
        ≡ text.old.items ++ line_with_values list logic (line_of_record scan.now)) }
    ensures memory { IsOkUnless result RunFault.Memory }
{
    put_record(text, scan)?;
    if let Some(machine) = machine {
        names.put_line(text, scan.ms, machine)?;
    }
    Ok(())
}

/// Whether a scan is written that this machine has made: every scan is, or if only changes are wanted one that leaves other values
/// than the scan before. `Memory` is the only fault.
fn is_written(
    changes: bool,
    values: &mut LastValues,
    names: &WatchedNames<'_>,
    machine: Option<&Machine<'_, SlotStore>>,
) -> Result<bool, RunFault>
    ensures written { (list : List ℕ) (logic : Option Logic) (before : Option (List ℕ))
        → FitLogic names.now list logic → RunsLogic (option_copied machine.entry) logic
        → KeepsValues changes values.old before
        → IfOk result (λ written. written ≡ is_written changes before (values_of list logic)) }
    ensures keeps { (list : List ℕ) (logic : Option Logic)
        → FitLogic names.now list logic → RunsLogic (option_copied machine.entry) logic
        → OnOk result (KeepsValues changes values.new (values_of list logic)) }
    ensures memory { IsOkUnless result RunFault.Memory }
{
    if !changes {
        return Ok(true);
    }
    let Some(machine) = machine else {
        values.there = false;
        return Ok(true);
    };
    Ok(values.keep(names, machine)?)
}

impl<'n> Watcher<'n> {
    /// Before the first program is known. `Memory` is the only fault.
    pub(crate) fn new(alloc: Global, choice: WatchChoice<'n>) -> Result<Watcher<'n>, Fault>
        requires few { IfSome choice.last (λ n. (1 ≤ n) × (n ≤ 1000)) }
        ensures watches { IfOk result (λ watcher. (watcher.list.now ≡ choice.entry.names.now)
            × (watcher.number ≡ choice.entry.last) × (watcher.changes ≡ choice.entry.changes)) }
        ensures empty { IfOk result IsNew }
        ensures memory { IsOkUnless result Fault.Memory }
    {
        Ok(Watcher {
            alloc,
            list: choice.names,
            names: WatchedNames::new(alloc),
            number: choice.last,
            changes: choice.changes,
            last: last_texts(alloc, choice.last, scan_length(choice.names))?,
            values: LastValues::new(alloc),
            text: Vec::new(alloc),
            scan: Vec::new(alloc),
        })
    }

    /// Keeps the text of a scan, or appends it to the text of the row.
    fn keep_scan(&mut self) -> Result<(), RunFault>
        ensures same { WatchesAs self.old self.new }
        ensures keeps { OnOk result ((scans : List (List ℕ))
            → KeepsLast self.old.last self.old.number scans
            → KeepsLast self.new.last self.old.number (scans ++ self.old.scan.items ∷ [])) }
        ensures text { OnOk result ((scans : List (List ℕ))
            → KeepsLast self.old.last self.old.number scans
            → self.new.text.items
            ≡ self.old.text.items ++ written_now self.old.number self.old.scan.items) }
        ensures names { self.new.names ≡ self.old.names }
        ensures values { self.new.values ≡ self.old.values }
        ensures memory { IsOkUnless result RunFault.Memory }
    {
        match &mut self.last {
            Some(last) => last.keep(&self.scan)?,
            None => put_bytes(&mut self.text, &self.scan)?,
        }
        Ok(())
    }

    /// Puts what is written of a row.
    fn put_row(
        &mut self,
        seen: &RowSeen<'_>,
        scale: &LogScale<'_, SlotStore>,
    ) -> Result<(), RunFault>
        ensures same { WatchesAs self.old self.new }
        ensures names { self.new.names ≡ self.old.names }
        ensures text { OnOk result (OfRow self.old seen.now scale.now (λ plate logic past.
            self.new.text.items ≡ row_text self.old.list.now self.old.changes self.old.number plate
            logic past (row_of seen.now))) }
        ensures scans { OnOk result (OfRow self.old seen.now scale.now (λ plate logic past.
            KeepsLast self.new.last self.old.number (scans_so_far self.old.list.now
            self.old.changes plate logic (row_of seen.now ∷ past)))) }
        ensures values { OnOk result (OfRow self.old seen.now scale.now (λ plate logic past.
            KeepsValues self.new.changes self.new.values
            (last_values self.old.list.now plate logic (row_of seen.now ∷ past)))) }
        ensures memory { IsOkUnless result RunFault.Memory }
    {
        self.text.clear();
        self.scan.clear();
        put_answer(&mut self.text, seen)?;
        let Some(scan) = &seen.scan else {
            return Ok(());
        };
        let machine = scale.machine();
        if !is_written(self.changes, &mut self.values, &self.names, machine)? {
            return Ok(());
        }
        put_scan(&mut self.scan, &self.names, &scan.record, machine)?;
        self.keep_scan()
    }

    /// Puts what is written at the end.
    fn put_end(&mut self) -> Result<(), RunFault>
        ensures text { OnOk result ((scans : List (List ℕ))
            → KeepsLast self.old.last self.old.number scans
            → self.new.text.items ≡ end_text self.old.number scans) }
        ensures memory { IsOkUnless result RunFault.Memory }
    {
        self.text.clear();
        if let Some(last) = &self.last {
            last.put_all(&mut self.text)?;
        }
        Ok(())
    }
}

impl<W: ByteOut> Observer<SlotStore, W> for Watcher<'_> {
    ghost use Rattle.std.specs.Prelude.{◌≡◌, ⊤, false};
    ghost use Rattle.wc_view_watch.specs.Plans.{watch_plan, begins_with};
    ghost use Rattle.wc_view_watch.specs.Watching.{HasSeen, HasRefused, IsNew};

    ghost settings = { λ _. tt };

    ghost plan = { λ watcher. watch_plan watcher.list.now watcher.changes watcher.number };

    ghost begins = { λ watcher logic. begins_with watcher.list.now logic };

    ghost has_refused = { λ old new logic. HasRefused old.list.now new.names logic };

    ghost is_new = { λ watcher. IsNew watcher };

    ghost has_seen = { λ watcher plate logic past. HasSeen watcher plate logic past };

    ghost looks = { λ watcher ms looked. looked ≡ false };

    ghost has_ended = { λ _ _ _ _ _ _ _ _. ⊤ };

    fn begin(
        &mut self,
        first: Option<Program<'_, '_>>,
        next: Option<Program<'_, '_>>,
    ) -> Result<(), RunFault> {
        self.names.begin(self.alloc, self.list, first, next)
    }

    fn looks_at(&self, _ms: u64) -> bool {
        false
    }

    fn see(
        &mut self,
        seen: &RowSeen<'_>,
        scale: &LogScale<'_, SlotStore>,
        writer: &mut W,
    ) -> Result<(), RunFault> {
        self.names.turn(seen);
        self.put_row(seen, scale)?;
        write_text(&self.text, writer)
    }

    fn end(&mut self, _refused: Option<(u16, u32)>, writer: &mut W) -> Result<(), RunFault> {
        self.put_end()?;
        write_text(&self.text, writer)
    }
}
