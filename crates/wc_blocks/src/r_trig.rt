ghost use Rattle.std.specs.Prelude.{◌≡◌, List, Bool, false, [], ◌∷◌};
ghost use Rattle.wc_blocks.specs.Views.{r_trig_view};
ghost use Rattle.wc_model.specs.Definitions.{r_trig_step, FitsRTrig};

/// R_TRIG, a rising edge detector (IEC 61131-3:2003, table 35).
#[derive(Clone, Copy, Default, PartialEq, Eq)]
pub struct RTrig {
    /// CLK, the input whose edge is looked for.
    pub clk: bool,
    /// Q: CLK is TRUE at this call and was not at the one before.
    pub q: bool,
    /// CLK at the call before.
    pub m: bool,
}

impl RTrig {
    /// A block that has not been called: all fields are FALSE.
    pub fn new() -> RTrig
        ensures fields { r_trig_view result ≡ record { clk = false; q = false; m = false } }
        ensures history { FitsRTrig [] (r_trig_view result) }
    {
        RTrig::default()
    }

    /// One call, with the input as it is set.
    #[inline(always)]
    pub fn call(&mut self)
        ensures step { r_trig_view self.new ≡ r_trig_step (r_trig_view self.old) }
        ensures history { (clks : List Bool) → FitsRTrig clks (r_trig_view self.old)
            → FitsRTrig (self.old.clk ∷ clks) (r_trig_view self.new) }
    {
        self.q = self.clk && !self.m;
        self.m = self.clk;
    }
}
