ghost use Rattle.std.specs.Prelude.{◌≡◌, ◌<◌, ◌≤◌, ◌^◌, ℕ, IfOk, IfSome, IsOkUnless, is_some};
ghost use Rattle.wc_machine.specs.{RepresentsText, text_of, IsSeen};
ghost use Rattle.wc_model.specs.Definitions.{IsProgramBound, Store as Contents, Text};
ghost use Rattle.wc_run.specs.Scanning.{EndsScan, LeavesScan, RecordsScan, Scans, Sees};
ghost use Rattle.wc_run.specs.OpenScales.{HasNoProgram, IsNotAfter, IsScannedAt};

use crate::open_scale::OpenScale;
use std::alloc::Global;
use wc_machine::{Machine, SeenLine};
use wc_model::{Fault, Image};
use wc_record::{Record, image};
use wc_store::Store;

/// Does one scan of an image at a time in milliseconds, with what is seen of each item.
fn trace_at<S: Store>(
    alloc: Global,
    ms: u64,
    image: &Image,
    machine: &mut Machine<'_, S>,
) -> (Record, Result<Vec<SeenLine>, Fault>)
    requires not_before { machine.old.last ≤ ms }
    requires early { ms < 2 ^ 40 }
    requires status { image.now.status < 64 }
    ensures leaves { LeavesScan machine.old machine.new ms image.now }
    ensures records { RecordsScan machine.old ms image.now result.0 }
    ensures within { (n : ℕ) → IsProgramBound (text_of machine.old) n → result.0.steps ≤ n }
    ensures last { machine.new.last ≡ ms }
    ensures ends { EndsScan machine.old ms image.now }
    ensures seen { (text : Text) (store : Contents) → RepresentsText machine.old text store
        → IfOk result.1 (λ lines. IsSeen text store image.now ms lines.items) }
    ensures memory { IsOkUnless result.1 Fault.Memory }
{
    let (steps, lines) = machine.trace(alloc, ms, image);
    let record = Record {
        ms,
        steps: steps.0,
        outputs: machine.outputs(),
    };
    (record, lines)
}

impl<'a, S: Store> OpenScale<'a, S> {
    /// Scans as `scan` does, and gives with the record what was seen of each item that the scan executed, in order. If there is no
    /// memory for what was seen, the scan is done all the same, and `Memory` is in place of the lines.
    pub fn trace(
        &mut self,
        alloc: Global,
        ms: u64,
    ) -> Option<(Record, Result<Vec<SeenLine>, Fault>)>
        requires early { ms < 2 ^ 40 }
        requires in_order { IsNotAfter self.old ms }
        ensures there { is_some result ≡ is_some self.old.machine }
        ensures scans { IfSome result (λ traced. Scans self.old self.new ms traced.0) }
        ensures seen { IfSome result (λ traced. Sees self.old ms traced.1) }
        ensures memory { IfSome result (λ traced. IsOkUnless traced.1 Fault.Memory) }
        ensures last { IsScannedAt self.new ms }
        ensures none { HasNoProgram self.old → self.new ≡ self.old }
    {
        match &mut self.machine {
            Some(machine) => {
                let image = image(&self.indicator, self.inputs);
                Some(trace_at(alloc, ms, &image, machine))
            }
            None => None,
        }
    }
}
