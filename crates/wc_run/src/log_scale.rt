ghost use Rattle.std.specs.Prelude.{◌≡◌, ◌<◌, ◌^◌, ◌++◌, ℕ, [], ◌∷◌, None, Option, IfErr, IfOk, IfSome, IsOkUnless, OnOk, option_copied, true};
ghost use Rattle.wc_model.specs.Definitions.{PlateData, Past, Counts, Bytes, Inputs, Scan, Change, Logic, answer_line};
ghost use Rattle.wc_record.specs.Views.{IsDataInRange, head_data_view, head_view};
ghost use Rattle.wc_run.specs.Logics.{IsAt, lines_of_row};
ghost use Rattle.wc_run.specs.Observing.{AreItems, IsLookedAt, items_of, lines_of_scan};
ghost use Rattle.wc_run.specs.Runs.{IsFaultAt};
ghost use Rattle.wc_run.specs.Representation.{IsNotAfter, Represents};
ghost use Rattle.wc_run.specs.Doing.{Gives, GivesItems, RunsRow, StopsAtRow, TakesRow, row_at};

use crate::fault::RunFault;
use crate::open_scale::OpenScale;
use crate::row_seen::{Answers, ScanSeen};
use std::alloc::Global;
use wc_cost::Loaded;
use wc_indicator::Indicator;
use wc_machine::Machine;
use wc_plate::Plate;
use wc_record::{HeadKind, RowHead};
use wc_store::Store;

/// A scale on which a log is run: an open scale, and the next program, if one is left. A row does
/// what a call of the open scale does.
#[derive(Drop)]
pub struct LogScale<'a, S: Store> {
    alloc: Global,
    opened: OpenScale<'a, S>,
    next: Option<Loaded<'a>>,
}

impl<'a, S: Store> LogScale<'a, S> {
    /// A scale to which no row has come. `Memory` is the only fault.
    pub fn new(
        alloc: Global,
        plate: &Plate,
        machine: Option<Machine<'a, S>>,
        next: Option<Loaded<'a>>,
    ) -> Result<LogScale<'a, S>, RunFault>
        ensures represents { IfOk result
            (λ scale. (logic : Option Logic) → IsAt machine.entry next.entry logic
            → Represents scale plate.now logic []) }
        ensures machine { IfOk result (λ scale. scale.opened.machine ≡ machine.entry) }
        ensures memory { IsOkUnless result RunFault.Memory }
    {
        let opened = OpenScale::new(alloc, plate, machine)?;
        Ok(LogScale {
            alloc,
            opened,
            next,
        })
    }

    /// The indicator.
    pub fn indicator(&self) -> &Indicator
        ensures { result.now ≡ self.now.opened.indicator }
    {
        self.opened.indicator()
    }

    /// The open scale.
    pub fn open_scale(&self) -> &OpenScale<'a, S>
        ensures { result.now ≡ self.now.opened }
    {
        &self.opened
    }

    /// The machine, if there is one.
    pub fn machine(&self) -> Option<&Machine<'a, S>>
        ensures { option_copied result ≡ self.now.opened.machine }
    {
        self.opened.machine()
    }

    /// Does a row, with the bytes that are borrowed with it. The line's answer is gathered; a
    /// scan is given, with the items that it executes if they are looked at.
    #[inline(always)]
    pub(crate) fn take(
        &mut self,
        answers: &mut Answers,
        looks: bool,
        row: RowHead,
        bytes: &[u8],
    ) -> Result<Option<ScanSeen>, RunFault>
        requires in_range { IsDataInRange (head_data_view bytes.now row.kind) }
        requires early { row.ms < 2 ^ 40 }
        requires in_order { IsNotAfter self.old row.ms }
        ensures represents { OnOk result
            ((plate : PlateData) (logic : Option Logic) (past : Past)
            → Represents self.old plate logic past
            → Represents self.new plate logic (head_view bytes.now row ∷ past)) }
        ensures lines { IfOk result
            (λ scan. (plate : PlateData) (logic : Option Logic) (past : Past)
            → Represents self.old plate logic past
            → lines_of_row plate logic past (head_view bytes.now row)
            ≡ answer_line row.ms answers.new.bytes.items ++ lines_of_scan scan) }
        ensures items { IfOk result
            (λ scan. (plate : PlateData) (logic : Option Logic) (past : Past)
            → Represents self.old plate logic past
            → IfSome scan (λ done. AreItems plate logic past (head_view bytes.now row)
            (items_of done))) }
        ensures looked { IfOk result (λ scan. IsLookedAt scan looks) }
        ensures runs { OnOk result (RunsRow self.old (head_view bytes.now row)) }
        ensures place { IfErr result (IsFaultAt row.number) }
        ensures stops { IfErr result
            (λ fault. StopsAtRow self.old (head_view bytes.now row) fault) }
        ensures in_order { OnOk result (IsNotAfter self.new row.ms) }
    {
        answers.bytes.clear();
        match row.kind {
            HeadKind::Counts(counts) => {
                self.take_sample(counts);
                Ok(None)
            }
            HeadKind::Bytes => {
                self.take_bytes(answers, bytes)?;
                Ok(None)
            }
            HeadKind::Inputs(inputs) => {
                self.take_inputs(inputs);
                Ok(None)
            }
            HeadKind::Scan => self.take_scan(looks, row.ms),
            HeadKind::Change => {
                self.take_change(row.number)?;
                Ok(None)
            }
        }
    }

    /// Takes a sample.
    #[inline(always)]
    fn take_sample(&mut self, counts: i32)
        requires { IsDataInRange (Counts counts) }
        ensures takes { (ms : ℕ) → TakesRow self.old self.new ms (Counts counts) }
        ensures machine { self.new.opened.machine ≡ self.old.opened.machine }
    {
        self.opened.sample(counts);
    }

    /// Takes bytes on the line; what is answered is gathered after no other answers.
    #[inline(always)]
    fn take_bytes(&mut self, answers: &mut Answers, bytes: &[u8]) -> Result<(), RunFault>
        requires empty { answers.old.bytes.items ≡ [] }
        ensures takes { OnOk result ((ms : ℕ)
            → TakesRow self.old self.new ms (Bytes bytes.now)) }
        ensures lines { OnOk result
            ((ms : ℕ) → Gives self.old ms (Bytes bytes.now) answers.new.bytes.items None) }
        ensures machine { self.new.opened.machine ≡ self.old.opened.machine }
        ensures memory { IsOkUnless result RunFault.Memory }
    {
        match self.opened.feed(bytes, answers) {
            Ok(()) => Ok(()),
            Err(_) => Err(RunFault::Memory),
        }
    }

    /// Takes the inputs from now on.
    #[inline(always)]
    fn take_inputs(&mut self, inputs: u16)
        ensures takes { (ms : ℕ) → TakesRow self.old self.new ms (Inputs inputs) }
        ensures machine { self.new.opened.machine ≡ self.old.opened.machine }
    {
        self.opened.inputs(inputs);
    }

    /// Does a scan if there is a machine.
    #[inline(always)]
    fn take_scan(&mut self, looks: bool, ms: u64) -> Result<Option<ScanSeen>, RunFault>
        requires early { ms < 2 ^ 40 }
        requires in_order { IsNotAfter self.old ms }
        ensures takes { TakesRow self.old self.new ms Scan }
        ensures lines { IfOk result (λ scan. Gives self.old ms Scan [] scan) }
        ensures items { IfOk result (λ scan. GivesItems self.old ms Scan scan) }
        ensures looked { IfOk result (λ scan. IsLookedAt scan looks) }
        ensures in_order { IsNotAfter self.new ms }
        ensures memory { IsOkUnless result RunFault.Memory }
    {
        if looks {
            return self.look_at(ms);
        }
        match self.opened.scan(ms) {
            Some(record) => Ok(Some(ScanSeen {
                record,
                lines: None,
            })),
            None => Ok(None),
        }
    }

    /// Does a scan if there is a machine, and gives the items that it executes. `Memory` means out of memory for these.
    #[cold]
    #[inline(never)]
    fn look_at(&mut self, ms: u64) -> Result<Option<ScanSeen>, RunFault>
        requires early { ms < 2 ^ 40 }
        requires in_order { IsNotAfter self.old ms }
        ensures takes { TakesRow self.old self.new ms Scan }
        ensures lines { IfOk result (λ scan. Gives self.old ms Scan [] scan) }
        ensures items { IfOk result (λ scan. GivesItems self.old ms Scan scan) }
        ensures looked { IfOk result (λ scan. IsLookedAt scan true) }
        ensures in_order { IsNotAfter self.new ms }
        ensures memory { IsOkUnless result RunFault.Memory }
    {
        match self.opened.trace(self.alloc, ms) {
            Some((record, seen)) => {
                let lines = seen?;
                Ok(Some(ScanSeen {
                    record,
                    lines: Some(lines),
                }))
            }
            None => Ok(None),
        }
    }

    /// Takes the next program if there is a machine. The answer is copied here, so that a row of
    /// another kind clears no space for it.
    #[inline(always)]
    fn take_change(&mut self, number: u32) -> Result<(), RunFault>
        ensures takes { OnOk result ((ms : ℕ) → TakesRow self.old self.new ms Change) }
        ensures runs { OnOk result ((ms : ℕ) → RunsRow self.old (row_at number ms Change)) }
        ensures place { IfErr result (IsFaultAt number) }
        ensures stops { IfErr result
            (λ fault. (ms : ℕ) → StopsAtRow self.old (row_at number ms Change) fault) }
        ensures in_order { OnOk result
            ((ms : ℕ) → IsNotAfter self.old ms → IsNotAfter self.new ms) }
    {
        match self.change_program(number) {
            Ok(()) => Ok(()),
            Err(fault) => Err(fault),
        }
    }

    /// Takes the next program if there is a machine.
    #[cold]
    #[inline(never)]
    fn change_program(&mut self, number: u32) -> Result<(), RunFault>
        ensures takes { OnOk result ((ms : ℕ) → TakesRow self.old self.new ms Change) }
        ensures runs { OnOk result ((ms : ℕ) → RunsRow self.old (row_at number ms Change)) }
        ensures place { IfErr result (IsFaultAt number) }
        ensures stops { IfErr result
            (λ fault. (ms : ℕ) → StopsAtRow self.old (row_at number ms Change) fault) }
        ensures in_order { OnOk result
            ((ms : ℕ) → IsNotAfter self.old ms → IsNotAfter self.new ms) }
    {
        if !self.opened.has_program() {
            return Ok(());
        }
        match self.next.take() {
            Some(next) => match self.opened.change(self.alloc, next) {
                Ok(()) => Ok(()),
                Err(_) => Err(RunFault::Memory),
            },
            None => Err(RunFault::Refused {
                number: 609,
                place: number,
            }),
        }
    }
}
