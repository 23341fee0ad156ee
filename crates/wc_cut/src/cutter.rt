ghost use Rattle.std.specs.Prelude.{◌≡◌, ◌++◌, ◌-◌, IsOkUnless, List, OnOk, Option, length, ℕ};
ghost use Rattle.wc_cut.specs.Cuts.{cut_plan, heading_text, lines_of};
ghost use Rattle.wc_cut.specs.KeptRows.{IsNew, kept_rows};
ghost use Rattle.wc_laws_instrument.specs.Preludes.{load_rows, prelude_of};
ghost use Rattle.wc_model.specs.Run.Log.{most_rows};
ghost use Rattle.wc_run.specs.OpenScales.{state_view};

use crate::rows::{put_prelude, put_row};
use std::alloc::Global;
use wc_model::{ByteOut, MOST_ROWS, put_bytes};
use wc_run::{LogScale, Observer, Prelude, Program, RowSeen, RunFault, write_text};
use wc_store::SlotStore;

/// What is left of a capacity after the rows of a load and of the request that is made at it, if there is such a load.
fn after_load(capacity: u64, window: usize, load: Option<i32>) -> u64
    ensures { (letter : List ℕ) → result ≡ capacity - length (load_rows window letter load) }
{
    match load {
        Some(_) => capacity.saturating_sub(window as u64).saturating_sub(1),
        None => capacity,
    }
}

/// What is left of a capacity after the rows of a prelude.
fn after_prelude(capacity: u64, prelude: &Prelude) -> u64
    ensures { result ≡ capacity - length (prelude_of prelude.now.window (state_view prelude.now)) }
{
    let zero_left = after_load(capacity, prelude.window, prelude.zero);
    let tare_left = after_load(zero_left, prelude.window, prelude.tare);
    let samples_left = tare_left.saturating_sub(prelude.samples.len() as u64);
    let inputs_left = samples_left.saturating_sub(u64::from(prelude.inputs != 0));
    inputs_left.saturating_sub(u64::from(prelude.request.is_some()))
}

/// The first number of rows that are too many after a prelude, or after none.
fn capacity_after(prelude: &Option<Prelude>) -> u64
    ensures { result ≡ most_rows - length (kept_rows prelude.now) }
{
    match prelude {
        Some(prelude) => after_prelude(u64::from(MOST_ROWS), prelude),
        None => u64::from(MOST_ROWS),
    }
}

/// Observes a run, and writes the log that goes on after some of its rows.
#[derive(Drop)]
pub(crate) struct Cutter {
    count: u64,
    left: u64,
    opened: bool,
    time: u64,
    prelude: Option<Prelude>,
    text: Vec<u8>,
    /// The first number of further rows that are too many for a log.
    pub(crate) capacity: u64,
}

impl Cutter {
    /// Before the first row, with n rows before the cut. It takes no memory.
    pub(crate) fn new(alloc: Global, count: u64) -> Cutter
        ensures count { result.count ≡ count }
        ensures new { IsNew result }
    {
        Cutter {
            count,
            left: count,
            opened: false,
            time: 0,
            prelude: None,
            text: Vec::new(alloc),
            capacity: u64::from(MOST_ROWS),
        }
    }

    /// Puts the heading and the prelude of the rows so far, in the place of what was put before.
    fn put_opening(&mut self) -> Result<(), RunFault>
        ensures text { OnOk result (self.new.text.items
            ≡ heading_text ++ lines_of self.old.time (kept_rows self.old.prelude)) }
        ensures count { self.new.count ≡ self.old.count }
        ensures left { self.new.left ≡ self.old.left }
        ensures capacity { OnOk result
            (self.new.capacity ≡ most_rows - length (kept_rows self.old.prelude)) }
        ensures memory { IsOkUnless result RunFault.Memory }
    {
        self.text.clear();
        put_bytes(&mut self.text, b"ms,kind,data\n")?;
        self.capacity = capacity_after(&self.prelude);
        match &self.prelude {
            Some(prelude) => put_prelude(&mut self.text, self.time, prelude),
            None => Ok(()),
        }
    }
}

impl<W: ByteOut> Observer<SlotStore, W> for Cutter {
    ghost use Rattle.std.specs.Prelude.{◌≡◌, ℕ, false};
    ghost use Rattle.wc_cut.specs.Cuts.{cut_plan};
    ghost use Rattle.wc_cut.specs.KeptRows.{HasCounted, HasSeen, IsNew};

    ghost Settings = { ℕ };

    ghost settings = { λ cutter. cutter.count };

    ghost plan = { λ cutter. cut_plan cutter.count };

    ghost is_new = { λ cutter. IsNew cutter };

    ghost has_seen = { λ cutter plate logic past. HasSeen cutter plate past };

    ghost looks = { λ _ ms looked. looked ≡ false };

    ghost has_ended = { λ cutter count _ _ plate _ rows refusal.
        HasCounted cutter count plate rows refusal };

    fn begin(
        &mut self,
        _first: Option<Program<'_, '_>>,
        _next: Option<Program<'_, '_>>,
    ) -> Result<(), RunFault> {
        Ok(())
    }

    fn looks_at(&self, _ms: u64) -> bool {
        false
    }

    fn see(
        &mut self,
        seen: &RowSeen<'_>,
        scale: &LogScale<'_, SlotStore>,
        writer: &mut W,
    ) -> Result<(), RunFault> {
        if self.left > 0 {
            self.left -= 1;
            self.time = seen.row.ms;
            self.prelude = Some(scale.open_scale().prelude());
            return Ok(());
        }
        if self.opened {
            self.text.clear();
        } else {
            self.put_opening()?;
            self.opened = true;
        }
        put_row(&mut self.text, seen.row.ms, seen.row.kind, seen.bytes)?;
        self.capacity = self.capacity.saturating_sub(1);
        write_text(&self.text, writer)
    }

    fn end(&mut self, refused: Option<(u16, u32)>, writer: &mut W) -> Result<(), RunFault> {
        if self.opened || refused.is_some() {
            return Ok(());
        }
        self.put_opening()?;
        write_text(&self.text, writer)
    }
}
