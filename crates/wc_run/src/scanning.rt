ghost use Rattle.std.specs.Prelude.{◌≡◌, ◌<◌, ◌≤◌, ◌^◌, ℕ, IfSome, is_some};
ghost use Rattle.wc_machine.specs.Machines.{text_of};
ghost use Rattle.wc_model.specs.Language.Paths.{IsProgramBound};
ghost use Rattle.wc_run.specs.Scanning.{EndsScan, LeavesScan, RecordsScan, Scans};
ghost use Rattle.wc_run.specs.OpenScales.{HasNoProgram, IsNotAfter, IsScannedAt};

use crate::open_scale::OpenScale;
use wc_machine::Machine;
use wc_model::Image;
use wc_record::{Record, image};
use wc_store::Store;

/// Does one scan of an image at a time in milliseconds.
#[inline(always)]
fn scan_at<S: Store>(ms: u64, image: &Image, machine: &mut Machine<'_, S>) -> Record
    requires not_before { machine.old.last ≤ ms }
    requires early { ms < 2 ^ 40 }
    requires status { image.now.status < 64 }
    ensures leaves { LeavesScan machine.old machine.new ms image.now }
    ensures records { RecordsScan machine.old ms image.now result }
    ensures within { (n : ℕ) → IsProgramBound (text_of machine.old) n → result.steps ≤ n }
    ensures last { machine.new.last ≡ ms }
    ensures ends { EndsScan machine.old ms image.now }
{
    let steps = machine.scan(ms, image);
    let outputs = machine.outputs();
    Record {
        ms,
        steps: steps.0,
        outputs,
    }
}

impl<'a, S: Store> OpenScale<'a, S> {
    /// Scans the program once, at a time in milliseconds, and gives the scan's record. The scan sees the inputs and the indicator
    /// as they are. If no program is loaded nothing is done, and there is no record. It takes no memory.
    #[inline(always)]
    pub fn scan(&mut self, ms: u64) -> Option<Record>
        requires early { ms < 2 ^ 40 }
        requires in_order { IsNotAfter self.old ms }
        ensures there { is_some result ≡ is_some self.old.machine }
        ensures scans { IfSome result (Scans self.old self.new ms) }
        ensures last { IsScannedAt self.new ms }
        ensures none { HasNoProgram self.old → self.new ≡ self.old }
    {
        match &mut self.machine {
            Some(machine) => {
                let image = image(&self.indicator, self.inputs);
                Some(scan_at(ms, &image, machine))
            }
            None => None,
        }
    }
}
