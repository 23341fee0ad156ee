ghost use Rattle.std.specs.Prelude.{◌≡◌, List, false, pos, [], ◌∷◌};
ghost use Rattle.wc_blocks.specs.Views.{ctu_view};
ghost use Rattle.wc_laws_language.specs.Laws.{ctu_call};
ghost use Rattle.wc_model.specs.Definitions.{ctu_count, ctu_step, CtuCall, FitsCtu};

/// CTU, an up counter (IEC 61131-3:2003, table 36). It counts in DINT, which is the profile's own.
#[derive(Clone, Copy, Default, PartialEq, Eq)]
pub struct Ctu {
    /// CU, whose rising edges are counted.
    pub cu: bool,
    /// R, which sets the count to 0.
    pub r: bool,
    /// PV, the count at which Q becomes TRUE.
    pub pv: i32,
    /// Q: the count is at least PV.
    pub q: bool,
    /// CV, the count; it stops at 2147483647.
    pub cv: i32,
    /// CU at the call before.
    pub m: bool,
}

impl Ctu {
    /// A block that has not been called: all fields are FALSE or 0.
    pub fn new() -> Ctu
        ensures fields { ctu_view result
            ≡ record { cu = false; r = false; pv = pos 0; q = false; cv = pos 0; m = false } }
        ensures history { FitsCtu [] (ctu_view result) }
    {
        Ctu::default()
    }

    /// The count after a call with these inputs.
    #[inline(always)]
    fn count(&self) -> i32
        ensures { result ≡ ctu_count (ctu_view self.now) }
    {
        if self.r {
            0
        } else if self.cu && !self.m && self.cv < i32::MAX {
            self.cv + 1
        } else {
            self.cv
        }
    }

    /// One call, with the inputs as they are set.
    #[inline(always)]
    pub fn call(&mut self)
        ensures step { ctu_view self.new ≡ ctu_step (ctu_view self.old) }
        ensures history { (calls : List CtuCall) → FitsCtu calls (ctu_view self.old)
            → FitsCtu (ctu_call (ctu_view self.old) ∷ calls) (ctu_view self.new) }
    {
        let count = self.count();
        self.cv = count;
        self.m = self.cu;
        self.q = count >= self.pv;
    }
}
