ghost use Rattle.std.specs.Prelude.{◌≡◌, ◌≤◌, List, false, pos, [], ◌∷◌};
ghost use Rattle.wc_blocks.specs.Views.{ton_view};
ghost use Rattle.wc_laws_language.specs.Laws.{ton_call};
ghost use Rattle.wc_model.specs.Definitions.{ton_running, ton_step, FitsTon, TimerCall};

use crate::elapsed::{elapsed, preset};
use wc_model::LAST_MOMENT;

/// TON, an on-delay timer (IEC 61131-3:2003, table 38). PT is read at each call, and a run starts at the
/// first call that sees it: the profile's own.
#[derive(Clone, Copy, Default, PartialEq, Eq)]
pub struct Ton {
    /// IN.
    pub input: bool,
    /// PT, in milliseconds; a negative one counts as 0.
    pub pt: i32,
    /// Q: IN has been TRUE for PT.
    pub q: bool,
    /// ET, the time for which IN has been TRUE, up to PT.
    pub et: i32,
    /// Whether IN was TRUE at the call before.
    pub run: bool,
    /// The moment of the first call of the run, in milliseconds.
    pub start: u64,
}

impl Ton {
    /// A block that has not been called: all fields are FALSE or 0.
    pub fn new() -> Ton
        ensures fields { ton_view result
            ≡ record { input = false; pt = pos 0; q = false; et = pos 0; run = false; start = 0 } }
        ensures history { FitsTon [] (ton_view result) }
    {
        Ton::default()
    }

    /// IN is TRUE, since the moment `start`.
    #[inline(always)]
    fn run_from(&mut self, now: u64, start: u64)
        requires { start ≤ now }
        ensures { ton_view self.new ≡ ton_running (ton_view self.old) now start }
    {
        self.q = now - start >= preset(self.pt);
        self.et = elapsed(self.pt, start, now);
        self.run = true;
        self.start = start;
    }

    /// One call at a moment, with the inputs as they are set.
    #[inline(always)]
    pub fn call(&mut self, now: u64)
        requires moment { now ≤ LAST_MOMENT }
        requires forward { self.old.start ≤ now }
        ensures step { ton_view self.new ≡ ton_step now (ton_view self.old) }
        ensures history { (calls : List TimerCall) → FitsTon calls (ton_view self.old)
            → FitsTon (ton_call now (ton_view self.old) ∷ calls) (ton_view self.new) }
        ensures start { self.new.start ≤ now }
    {
        if !self.input {
            self.q = false;
            self.et = 0;
            self.run = false;
        } else if self.run {
            self.run_from(now, self.start);
        } else {
            self.run_from(now, now);
        }
    }
}
