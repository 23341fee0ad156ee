ghost use Rattle.wc_laws_instrument.specs.Preludes as prelude;
ghost use Rattle.wc_model.specs.Instrument.Indication as indication;
ghost use Rattle.wc_indicator.specs.Kept.{Reports};

use crate::Indicator;
use arrayvec::ArrayVec;

impl Indicator {
    /// The sample at which zero was set, if the zero point is not the calibrated zero.
    pub fn zero_load(&self) -> Option<i32>
        ensures { Reports (λ p history. prelude.moved_zero p
            (indication.zero_point p history)) self.now
            result }
    {
        (self.zero != self.plate.zero_counts()).then_some(self.zero)
    }

    /// The sample at which the tare was taken, if one is active.
    pub fn tare_load(&self) -> Option<i32>
        ensures { Reports (λ p history. prelude.tare_load (indication.zero_point p history)
            (indication.active_tare p history)) self.now result }
    {
        match self.tare {
            Some(tare) => Some(self.zero + tare),
            None => None,
        }
    }

    /// The last samples, the oldest first: as many as the window holds, or all if fewer have come.
    pub fn window(&self) -> ArrayVec<i32, 16>
        ensures { Reports indication.window_of self.now result.items }
    {
        let mut window = ArrayVec::new();
        let (first, second) = self.latest.as_slices();
        let _first = window.try_extend_from_slice(first);
        let _second = window.try_extend_from_slice(second);
        window
    }
}
