ghost use Rattle.std.specs.Prelude.{◌≡◌, ◌∷◌, IfErr};
ghost use Rattle.wc_model.specs.Definitions.{PlateData, SetZero, SetTare, ClearTare, History};
ghost use Rattle.wc_model.specs.Instrument.Indication as indication;
ghost use Rattle.wc_indicator.specs.Kept.{RepresentsHistory, Reports};
ghost use Rattle.wc_indicator.specs.Refusals.{reported_by, refusal_view};

use crate::Indicator;
use crate::refused::{Refused, refused_unless};

impl Indicator {
    /// Whether the load is within 2 % of the greatest load of the calibrated zero.
    fn near_zero(&self) -> bool
        ensures { Reports indication.is_near_zero self.now result }
    {
        let distance = (self.present_counts() - self.plate.zero_counts()).unsigned_abs();
        50 * u64::from(distance) <= self.plate.span_counts() as u64
    }

    /// Whether the gross weight lies from one interval to the greatest load.
    fn can_be_tared(&self) -> bool
        ensures { Reports indication.can_be_tared self.now result }
    {
        let gross = self.gross_intervals();
        1 <= gross && gross <= i64::from(self.plate.n())
    }

    /// Why a zero command would be refused now.
    fn zero_refusal(&self) -> Option<Refused>
        ensures { Reports indication.zero_refusal self.now (reported_by result) }
    {
        refused_unless(self.stable(), self.near_zero())
    }

    /// Why a tare command would be refused now.
    fn tare_refusal(&self) -> Option<Refused>
        ensures { Reports indication.tare_refusal self.now (reported_by result) }
    {
        refused_unless(self.stable(), self.can_be_tared())
    }

    /// Sets zero at the present load, and ends the tare. `Motion` if the scale is not stable, else `Range` if
    /// the load is farther than 2 % of the greatest load from the calibrated zero (OIML R 76-1:2006, 4.5.1 and 4.5.4).
    pub fn set_zero(&mut self) -> Result<(), Refused>
        ensures represents { (p : PlateData) (history : History)
            → RepresentsHistory self.old p history
            → RepresentsHistory self.new p (SetZero ∷ history) }
        ensures refused { Reports indication.zero_refusal self.old (refusal_view result) }
        // A refused command changes nothing.
        ensures same { IfErr result (λ refused. self.new ≡ self.old) }
    {
        match self.zero_refusal() {
            Some(refused) => Err(refused),
            None => {
                self.zero = self.present_counts();
                self.tare = None;
                Ok(())
            }
        }
    }

    /// Takes the load above the zero point for the tare, unrounded, in place of any tare before. `Motion` if the
    /// scale is not stable, else `Range` if the gross weight is below one interval or above the greatest load
    /// (OIML R 76-1:2006, 4.6.4, 4.6.8 and 4.6.10).
    pub fn set_tare(&mut self) -> Result<(), Refused>
        ensures represents { (p : PlateData) (history : History)
            → RepresentsHistory self.old p history
            → RepresentsHistory self.new p (SetTare ∷ history) }
        ensures refused { Reports indication.tare_refusal self.old (refusal_view result) }
        // A refused command changes nothing.
        ensures same { IfErr result (λ refused. self.new ≡ self.old) }
    {
        match self.tare_refusal() {
            Some(refused) => Err(refused),
            None => {
                self.tare = Some(self.from_zero());
                Ok(())
            }
        }
    }

    /// Ends the tare, also in motion.
    pub fn clear_tare(&mut self)
        ensures { (p : PlateData) (history : History) → RepresentsHistory self.old p history
            → RepresentsHistory self.new p (ClearTare ∷ history) }
    {
        self.tare = None;
    }
}
