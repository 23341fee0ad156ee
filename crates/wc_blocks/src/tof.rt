ghost use Rattle.std.specs.Prelude.{◌≡◌, ◌≤◌, List, false, pos, [], ◌∷◌};
ghost use Rattle.wc_blocks.specs.Views.{tof_view};
ghost use Rattle.wc_laws_language.specs.Laws.{tof_call};
ghost use Rattle.wc_model.specs.Definitions.{tof_falling, tof_released, tof_step, FitsTof, TimerCall};

use crate::elapsed::{elapsed, preset};
use wc_model::LAST_MOMENT;

/// TOF, an off-delay timer (IEC 61131-3:2003, table 38). PT is read at each call, and a run starts at the
/// first call that sees it: the profile's own.
#[derive(Clone, Copy, Default, PartialEq, Eq)]
pub struct Tof {
    /// IN.
    pub input: bool,
    /// PT, in milliseconds; a negative one counts as 0.
    pub pt: i32,
    /// Q: IN is TRUE, or has not been FALSE for PT yet.
    pub q: bool,
    /// ET, the time for which IN has been FALSE, up to PT.
    pub et: i32,
    /// 0 if IN was never TRUE, 1 if it is, 2 if it is FALSE since `start`; more counts as 2.
    pub phase: u8,
    /// The moment of the first call with IN FALSE, in milliseconds.
    pub start: u64,
}

impl Tof {
    /// A block that has not been called: all fields are FALSE or 0.
    pub fn new() -> Tof
        ensures fields { tof_view result
            ≡ record { input = false; pt = pos 0; q = false; et = pos 0; phase = 0; start = 0 } }
        ensures history { FitsTof [] (tof_view result) }
    {
        Tof::default()
    }

    /// IN is FALSE, since the moment `start`.
    #[inline(always)]
    fn fall_from(&mut self, now: u64, start: u64)
        requires { start ≤ now }
        ensures { tof_view self.new ≡ tof_falling (tof_view self.old) now start }
    {
        self.q = now - start < preset(self.pt);
        self.et = elapsed(self.pt, start, now);
        self.phase = 2;
        self.start = start;
    }

    /// A call with IN FALSE.
    #[inline(always)]
    fn release(&mut self, now: u64)
        requires { self.old.start ≤ now }
        ensures { tof_view self.new ≡ tof_released self.old.phase (tof_view self.old) now }
    {
        match self.phase {
            0 => {
                self.q = false;
                self.et = 0;
            }
            1 => self.fall_from(now, now),
            _ => self.fall_from(now, self.start),
        }
    }

    /// One call at a moment, with the inputs as they are set.
    #[inline(always)]
    pub fn call(&mut self, now: u64)
        requires moment { now ≤ LAST_MOMENT }
        requires forward { self.old.start ≤ now }
        ensures step { tof_view self.new ≡ tof_step now (tof_view self.old) }
        ensures history { (calls : List TimerCall) → FitsTof calls (tof_view self.old)
            → FitsTof (tof_call now (tof_view self.old) ∷ calls) (tof_view self.new) }
        ensures start { self.new.start ≤ now }
        ensures phase { self.new.phase ≤ 2 }
    {
        if self.input {
            self.q = true;
            self.et = 0;
            self.phase = 1;
        } else {
            self.release(now);
        }
    }
}
