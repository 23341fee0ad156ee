ghost use Rattle.std.specs.Prelude.{◌≡◌, ◌≤◌, List, false, pos, [], ◌∷◌};
ghost use Rattle.wc_blocks.specs.Views.{tp_view};
ghost use Rattle.wc_laws_language.specs.Laws.{tp_call};
ghost use Rattle.wc_model.specs.Definitions.{tp_started, tp_idle, tp_over, tp_step, FitsTp, TimerCall};

use crate::elapsed::preset;
use wc_model::LAST_MOMENT;

/// TP, a pulse timer (IEC 61131-3:2003, table 38). PT is read at each call, and a pulse begins at the first
/// call that sees IN: the profile's own.
#[derive(Clone, Copy, Default, PartialEq, Eq)]
pub struct Tp {
    /// IN.
    pub input: bool,
    /// PT, in milliseconds; a negative one counts as 0.
    pub pt: i32,
    /// Q: a pulse began, and PT has not passed since.
    pub q: bool,
    /// ET, the time since the pulse began, and PT after its end until IN is FALSE.
    pub et: i32,
    /// 0 if no pulse has started, 1 if one is on, 2 if it is over and IN has not been FALSE since; more
    /// counts as 2.
    pub phase: u8,
    /// The moment of the call that began the pulse, in milliseconds.
    pub start: u64,
}

impl Tp {
    /// A block that has not been called: all fields are FALSE or 0.
    pub fn new() -> Tp
        ensures fields { tp_view result
            ≡ record { input = false; pt = pos 0; q = false; et = pos 0; phase = 0; start = 0 } }
        ensures history { FitsTp [] (tp_view result) }
    {
        Tp::default()
    }

    /// No pulse is on, and the next call with IN TRUE begins one.
    #[inline(always)]
    fn rest(&mut self)
        ensures { tp_view self.new ≡ tp_idle (tp_view self.old) }
    {
        self.q = false;
        self.et = 0;
        self.phase = 0;
    }

    /// The pulse that began at the moment `start` is over.
    #[inline(always)]
    fn end(&mut self, start: u64)
        ensures { tp_view self.new ≡ tp_over (tp_view self.old) start }
    {
        if self.input {
            self.q = false;
            self.et = if self.pt < 0 { 0 } else { self.pt };
            self.phase = 2;
            self.start = start;
        } else {
            self.rest();
        }
    }

    /// The pulse that began at the moment `start` is on, or its end has come.
    #[inline(always)]
    fn pulse_from(&mut self, now: u64, start: u64)
        requires { start ≤ now }
        ensures { tp_view self.new ≡ tp_started (tp_view self.old) now start }
    {
        if now - start < preset(self.pt) {
            self.q = true;
            self.et = (now - start) as i32;
            self.phase = 1;
            self.start = start;
        } else {
            self.end(start);
        }
    }

    /// One call at a moment, with the inputs as they are set.
    #[inline(always)]
    pub fn call(&mut self, now: u64)
        requires moment { now ≤ LAST_MOMENT }
        requires forward { self.old.start ≤ now }
        ensures step { tp_view self.new ≡ tp_step now (tp_view self.old) }
        ensures history { (calls : List TimerCall) → FitsTp calls (tp_view self.old)
            → FitsTp (tp_call now (tp_view self.old) ∷ calls) (tp_view self.new) }
        ensures start { self.new.start ≤ now }
        ensures phase { self.new.phase ≤ 2 }
    {
        match self.phase {
            0 => {
                if self.input {
                    self.pulse_from(now, now);
                } else {
                    self.rest();
                }
            }
            1 => self.pulse_from(now, self.start),
            _ => self.end(self.start),
        }
    }
}
