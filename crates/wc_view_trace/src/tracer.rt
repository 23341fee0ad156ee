ghost use Rattle.std.specs.Prelude.{◌≡◌, IfOk, IsOkUnless, OnOk};
ghost use Rattle.wc_run.specs.Observing.{items_of, row_of};
ghost use Rattle.wc_view_trace.specs.Traces.{IsEndOf, counted_on};
ghost use Rattle.wc_view_trace.specs.Tracers.{CountsAs, Follows, IsFresh, IsLegendFor, IsSame, PutsItems, PutsScan, ShowsAs, Turns};

use crate::scans::{put_end_object, put_object};
use crate::tracing::{ScanFilter, TraceFormat};
use std::alloc::Global;
use wc_machine::Machine;
use wc_model::ByteOut;
use wc_record::HeadKind;
use wc_run::{LogScale, Observer, Program, RowSeen, RunFault, ScanSeen, write_text};
use wc_store::SlotStore;
use wc_view_trace_rows::{Legend, ShownScan, put_none_chosen, put_scan};

/// Observes a run, and writes the items of the scans that are chosen.
#[derive(Drop)]
pub(crate) struct Tracer {
    alloc: Global,
    chosen: ScanFilter,
    format: TraceFormat,
    legend: Option<Legend>,
    next: Option<Legend>,
    scans: u32,
    shown: u32,
    is_changed: bool,
    text: Vec<u8>,
}

/// The legend of a program, if there is one.
fn legend_of(alloc: Global, program: Option<Program<'_, '_>>) -> Result<Option<Legend>, RunFault>
    ensures legend { IfOk result (λ legend. IsLegendFor legend program.entry) }
    ensures memory { IsOkUnless result RunFault.Memory }
{
    match program {
        Some(program) => Ok(Some(Legend::new(alloc, program.text, program.loaded)?)),
        None => Ok(None),
    }
}

impl Tracer {
    /// Before the first scan.
    pub(crate) fn new(alloc: Global, chosen: ScanFilter, format: TraceFormat) -> Tracer
        ensures chosen { result.chosen ≡ chosen }
        ensures format { result.format ≡ format }
        ensures fresh { IsFresh result }
    {
        Tracer {
            alloc,
            chosen,
            format,
            legend: None,
            next: None,
            scans: 0,
            shown: 0,
            is_changed: false,
            text: Vec::new(alloc),
        }
    }

    /// At a change of the program the legend of the next one takes the place of the first.
    fn turn(&mut self, seen: &RowSeen<'_>)
        ensures same { IsSame self.old self.new }
        ensures counts { CountsAs self.old self.new }
        ensures turns { Turns (row_of seen.now).brings self.old self.new }
    {
        if let HeadKind::Change = seen.row.kind {
            self.legend = self.next.take();
            self.is_changed = true;
        }
    }

    /// Puts a scan into the text if there is a legend, and counts it as shown.
    fn put(
        &mut self,
        machine: &Machine<'_, SlotStore>,
        scan: &ShownScan<'_>,
    ) -> Result<(), RunFault>
        ensures same { IsSame self.old self.new }
        ensures legends { ShowsAs self.old self.new }
        ensures scans { self.new.scans ≡ self.old.scans }
        ensures shown { self.new.shown ≡ counted_on self.old.shown }
        ensures puts { OnOk result (PutsScan self.old.format self.old.legend machine.now scan.now
            self.old.text.items self.new.text.items) }
        ensures memory { IsOkUnless result RunFault.Memory }
    {
        self.shown = self.shown.saturating_add(1);
        let Some(legend) = &self.legend else {
            return Ok(());
        };
        match self.format {
            TraceFormat::Text => put_scan(self.alloc, &mut self.text, legend, machine, scan)?,
            TraceFormat::Json => put_object(self.alloc, &mut self.text, legend, machine, scan)?,
        }
        Ok(())
    }

    /// Counts a scan, and puts it into the text if its items were looked at.
    fn count(&mut self, machine: &Machine<'_, SlotStore>, scan: &ScanSeen) -> Result<(), RunFault>
        ensures same { IsSame self.old self.new }
        ensures legends { ShowsAs self.old self.new }
        ensures scans { self.new.scans ≡ counted_on self.old.scans }
        ensures puts { OnOk result (PutsItems self.old self.new machine.now scan.now
            (items_of scan.now) self.old.text.items self.new.text.items) }
        ensures memory { IsOkUnless result RunFault.Memory }
    {
        self.scans = self.scans.saturating_add(1);
        let Some(lines) = &scan.lines else {
            return Ok(());
        };
        let shown = ShownScan {
            number: self.scans,
            ms: scan.record.ms,
            is_changed: self.is_changed,
            outputs: scan.record.outputs,
            lines,
        };
        self.put(machine, &shown)
    }

    /// Makes the text of a row: that of its scan, if it is chosen.
    fn follow(
        &mut self,
        seen: &RowSeen<'_>,
        scale: &LogScale<'_, SlotStore>,
    ) -> Result<(), RunFault>
        ensures same { IsSame self.old self.new }
        ensures legends { ShowsAs self.old self.new }
        ensures follows { OnOk result (Follows self.old self.new scale.now.opened.machine
            seen.now.scan self.new.text.items) }
        ensures memory { IsOkUnless result RunFault.Memory }
    {
        self.text.clear();
        let (Some(scan), Some(machine)) = (&seen.scan, scale.machine()) else {
            return Ok(());
        };
        self.count(machine, scan)
    }

    /// Makes the text of what is said after the last row.
    fn put_end(&mut self) -> Result<(), RunFault>
        ensures puts { OnOk result (IsEndOf self.old.format self.old.scans self.old.shown
            self.new.text.items) }
        ensures memory { IsOkUnless result RunFault.Memory }
    {
        self.text.clear();
        let (scans, shown) = (self.scans, self.shown);
        match self.format {
            TraceFormat::Json => put_end_object(self.alloc, &mut self.text, scans, shown)?,
            TraceFormat::Text if self.shown == 0 => put_none_chosen(&mut self.text, self.scans)?,
            TraceFormat::Text => {}
        }
        Ok(())
    }
}

impl<W: ByteOut> Observer<SlotStore, W> for Tracer {
    ghost use Rattle.std.specs.Prelude.{⊤, false};
    ghost use Rattle.wc_run.specs.Reports.{silent_plan};
    ghost use Rattle.wc_view_trace.specs.Traces.{HasTraced, Tracing};
    ghost use Rattle.wc_view_trace.specs.Tracers.{IsFresh, IsTracing, Looks, tracing_of};

    ghost Settings = { Tracing };

    ghost settings = { tracing_of };

    ghost plan = { λ tracer. silent_plan };

    ghost speaks = { false };

    ghost is_new = { IsFresh };

    ghost has_seen = { λ tracer plate logic past. ⊤ };

    ghost looks = { Looks };

    ghost has_written = { λ tracer. IsTracing (tracing_of tracer) tracer };

    ghost has_ended = { λ _. HasTraced };

    fn begin(
        &mut self,
        first: Option<Program<'_, '_>>,
        next: Option<Program<'_, '_>>,
    ) -> Result<(), RunFault> {
        self.legend = legend_of(self.alloc, first)?;
        self.next = legend_of(self.alloc, next)?;
        Ok(())
    }

    fn looks_at(&self, ms: u64) -> bool {
        self.chosen.has(self.scans.saturating_add(1), ms)
    }

    fn see(
        &mut self,
        seen: &RowSeen<'_>,
        scale: &LogScale<'_, SlotStore>,
        writer: &mut W,
    ) -> Result<(), RunFault> {
        self.turn(seen);
        self.follow(seen, scale)?;
        write_text(&self.text, writer)
    }

    fn end(&mut self, refused: Option<(u16, u32)>, writer: &mut W) -> Result<(), RunFault> {
        if refused.is_some() {
            return Ok(());
        }
        self.put_end()?;
        write_text(&self.text, writer)
    }
}
