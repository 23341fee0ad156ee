ghost use Rattle.std.specs.Prelude.{◌≡◌, List, false, [], ◌∷◌};
ghost use Rattle.wc_blocks.specs.Views.{sr_view};
ghost use Rattle.wc_laws_language.specs.Laws.{sr_call};
ghost use Rattle.wc_model.specs.Definitions.{sr_step, FitsSr, SrCall};

/// SR, a bistable whose set is dominant (IEC 61131-3:2003, table 34).
#[derive(Clone, Copy, Default, PartialEq, Eq)]
pub struct Sr {
    /// S1, which sets.
    pub s1: bool,
    /// R, which resets if S1 is FALSE.
    pub r: bool,
    /// Q1, what was set and not reset since.
    pub q1: bool,
}

impl Sr {
    /// A block that has not been called: all fields are FALSE.
    pub fn new() -> Sr
        ensures fields { sr_view result ≡ record { s1 = false; r = false; q1 = false } }
        ensures history { FitsSr [] (sr_view result) }
    {
        Sr::default()
    }

    /// One call, with the inputs as they are set.
    #[inline(always)]
    pub fn call(&mut self)
        ensures step { sr_view self.new ≡ sr_step (sr_view self.old) }
        ensures history { (calls : List SrCall) → FitsSr calls (sr_view self.old)
            → FitsSr (sr_call (sr_view self.old) ∷ calls) (sr_view self.new) }
    {
        self.q1 = self.s1 || (!self.r && self.q1);
    }
}
