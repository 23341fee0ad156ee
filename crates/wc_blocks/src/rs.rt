ghost use Rattle.std.specs.Prelude.{◌≡◌, List, false, [], ◌∷◌};
ghost use Rattle.wc_blocks.specs.Views.{rs_view};
ghost use Rattle.wc_laws_language.specs.Laws.{rs_call};
ghost use Rattle.wc_model.specs.Definitions.{rs_step, FitsRs, RsCall};

/// RS, a bistable whose reset is dominant (IEC 61131-3:2003, table 34).
#[derive(Clone, Copy, Default, PartialEq, Eq)]
pub struct Rs {
    /// S, which sets if R1 is FALSE.
    pub s: bool,
    /// R1, which resets.
    pub r1: bool,
    /// Q1, what was set and not reset since.
    pub q1: bool,
}

impl Rs {
    /// A block that has not been called: all fields are FALSE.
    pub fn new() -> Rs
        ensures fields { rs_view result ≡ record { s = false; r1 = false; q1 = false } }
        ensures history { FitsRs [] (rs_view result) }
    {
        Rs::default()
    }

    /// One call, with the inputs as they are set.
    #[inline(always)]
    pub fn call(&mut self)
        ensures step { rs_view self.new ≡ rs_step (rs_view self.old) }
        ensures history { (calls : List RsCall) → FitsRs calls (rs_view self.old)
            → FitsRs (rs_call (rs_view self.old) ∷ calls) (rs_view self.new) }
    {
        self.q1 = !self.r1 && (self.s || self.q1);
    }
}
