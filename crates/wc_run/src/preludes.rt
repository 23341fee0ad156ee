ghost use Rattle.std.specs.Prelude.{◌≡◌, Option};
ghost use Rattle.wc_laws_instrument.specs.Preludes.{BringsBack, prelude_of, state_of};
ghost use Rattle.wc_model.specs.Definitions.{PlateData, Past};
ghost use Rattle.wc_run.specs.Representation.{came_by};
ghost use Rattle.wc_run.specs.OpenScales.{Came, Running, Represents, state_view};

use crate::open_scale::OpenScale;
use arrayvec::ArrayVec;
use wc_store::Store;

/// What brings a new scale of the same plate to the state of this one: the zero, the tare, the last
/// samples, the digital inputs and the open request. It has no part of a program.
#[derive(Drop)]
pub struct Prelude {
    /// The number of samples the window holds, 2 to 16.
    pub window: usize,
    /// The sample at which zero is set, if the zero point is not the calibrated zero: as many of it
    /// as the window holds, and a `Z` request.
    pub zero: Option<i32>,
    /// The sample at which the tare is taken, if one is active: as many of it as the window holds,
    /// and a `T` request.
    pub tare: Option<i32>,
    /// The last samples, the oldest first; fewer than the window holds only if no more have come.
    pub samples: ArrayVec<i32, 16>,
    /// The digital inputs; bit i is `%IX0.i`.
    pub inputs: u16,
    /// The text so far of the request that is open, if one is; `??` represents any text of two
    /// bytes or more.
    pub request: Option<ArrayVec<u8, 2>>,
}

impl<'a, S: Store> OpenScale<'a, S> {
    /// What is kept of all that has come.
    fn kept_state(&self) -> Prelude
        ensures state { (plate : PlateData) (came : Came) → Represents self.now plate came
            → state_view result ≡ state_of plate came.history came.bytes came.inputs }
        ensures window { (plate : PlateData) (came : Came) → Represents self.now plate came
            → result.window ≡ plate.window }
    {
        Prelude {
            window: self.indicator.plate().window() as usize,
            zero: self.indicator.zero_load(),
            tare: self.indicator.tare_load(),
            samples: self.indicator.window(),
            inputs: self.inputs,
            request: self.line.open_request(),
        }
    }

    /// What brings a new scale of this plate to the state of this one, whatever has come. It takes
    /// no memory.
    pub fn prelude(&self) -> Prelude
        ensures state { (plate : PlateData) (came : Came) → Represents self.now plate came
            → state_view result ≡ state_of plate came.history came.bytes came.inputs }
        ensures window { (plate : PlateData) (came : Came) → Represents self.now plate came
            → result.window ≡ plate.window }
        // Rows that bring it can be put in the place of those that have come: whatever follows goes
        // on as it would have.
        ensures brings_back { (plate : PlateData) (past : Past) (program : Option Running)
            → Represents self.now plate (came_by past program)
            → BringsBack plate past (prelude_of result.window (state_view result)) }
    {
        self.kept_state()
    }
}
