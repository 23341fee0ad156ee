ghost use Rattle.std.specs.Prelude.{◌≡◌, ◌≤◌, [], IfOk, IsOkUnless};
ghost use Rattle.wc_run.specs.Reports.{HoldsScans, KeepsScan};

use crate::fault::RunFault;
use crate::log_scale::LogScale;
use crate::observer::Observer;
use crate::program::Program;
use crate::report::{last_text, put_answer, write_text};
use crate::row_seen::{RowSeen, ScanSeen};
use std::alloc::Global;
use wc_model::ByteOut;
use wc_record::Recorder;
use wc_store::Store;

/// Writes the report of a run with the last n of its scans: the answers as their rows come, and after the last row, or
/// the last before a refused one, the lines of those scans. Each scan is kept as a record in a ring until then.
#[derive(Drop)]
pub struct LastScans {
    alloc: Global,
    text: Vec<u8>,
    number: u16,
    recorder: Recorder,
}

impl LastScans {
    /// Before the first row, with space for n scans, 1 to 1000. `Memory` is the only fault.
    pub fn new(alloc: Global, number: u16) -> Result<LastScans, RunFault>
        requires some { 1 ≤ number }
        requires few { number ≤ 1000 }
        ensures number { IfOk result (λ scans. scans.number ≡ number) }
        ensures holds { IfOk result (λ scans. HoldsScans scans.recorder number []) }
        ensures memory { IsOkUnless result RunFault.Memory }
    {
        Ok(LastScans {
            alloc,
            text: Vec::new(alloc),
            number,
            recorder: Recorder::new(alloc, number)?,
        })
    }
}

/// Keeps the record of a scan, if there is one.
#[inline(always)]
fn keep_scan(recorder: &mut Recorder, scan: &Option<ScanSeen>)
    ensures { KeepsScan recorder.old recorder.new scan.now }
{
    if let Some(scan) = scan {
        recorder.keep(scan.record);
    }
}

impl<S: Store, W: ByteOut> Observer<S, W> for LastScans {
    ghost use Rattle.std.specs.Prelude.{◌≡◌, ⊤, [], false};
    ghost use Rattle.wc_run.specs.Reports.{HoldsScans, last_plan, lines_so_far};

    ghost settings = { λ _. tt };

    ghost plan = { λ scans. last_plan scans.number };

    ghost is_new = { λ scans. HoldsScans scans.recorder scans.number [] };

    ghost has_seen = { λ scans plate logic past.
        HoldsScans scans.recorder scans.number (lines_so_far plate logic past) };

    ghost looks = { λ _ ms looked. looked ≡ false };

    ghost has_ended = { λ _ _ _ _ _ _ _ _. ⊤ };

    fn begin(
        &mut self,
        _first: Option<Program<'_, '_>>,
        _next: Option<Program<'_, '_>>,
    ) -> Result<(), RunFault> {
        Ok(())
    }

    #[inline(always)]
    fn looks_at(&self, _ms: u64) -> bool {
        false
    }

    #[inline(always)]
    fn see(
        &mut self,
        seen: &RowSeen<'_>,
        _scale: &LogScale<'_, S>,
        writer: &mut W,
    ) -> Result<(), RunFault> {
        keep_scan(&mut self.recorder, &seen.scan);
        self.text.clear();
        put_answer(&mut self.text, seen)?;
        write_text(&self.text, writer)
    }

    fn end(&mut self, _refused: Option<(u16, u32)>, writer: &mut W) -> Result<(), RunFault> {
        let text = last_text(self.alloc, &self.recorder)?;
        write_text(&text, writer)
    }
}
