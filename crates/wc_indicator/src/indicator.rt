ghost use Rattle.std.specs.Prelude.{◌≡◌, ◌≤ℤ◌, ◌∷◌, [], IfOk, IsOkUnless, unsigned_abs, ◌≤◌, ◌^◌};
ghost use Rattle.wc_model.specs.Definitions.{least_sample, greatest_sample, PlateData, Sample, History};
ghost use Rattle.wc_model.specs.Instrument.Indication as indication;
ghost use Rattle.wc_indicator.specs.Kept.{RepresentsHistory, Reports, IsCount, IsDifference};

use crate::rounding::intervals;
use crate::spread::spread;
use circular_buffer::HeapCircularBuffer;
use std::alloc::Global;
use std::marker::Model;
use wc_model::{Fault, or_memory};
use wc_plate::Plate;

/// An indicator: what it shows is a function of its plate and of all that has come to it.
#[derive(Drop)]
pub struct Indicator {
    pub(crate) plate: Plate,
    pub(crate) latest: HeapCircularBuffer<i32>,
    pub(crate) last: Option<i32>,
    pub(crate) zero: i32,
    pub(crate) tare: Option<i32>,
}

impl Model for Indicator {
    ghost use Rattle.wc_indicator.specs.Kept.{IndicatorState, kept_view, IsIndicatorSound};

    ghost Value = { IndicatorState };

    ghost view = { kept_view };

    ghost invariant = { IsIndicatorSound };
}

impl Indicator {
    /// An indicator to which nothing has come. `Memory` is its only fault.
    pub fn new(alloc: Global, plate: Plate) -> Result<Indicator, Fault>
        ensures represents { IfOk result (λ indicator. RepresentsHistory indicator plate []) }
        ensures memory { IsOkUnless result Fault.Memory }
    {
        let window = plate.window() as usize;
        let zero = plate.zero_counts();
        Ok(Indicator {
            plate,
            latest: or_memory(HeapCircularBuffer::with_capacity(alloc, window))?,
            last: None,
            zero,
            tare: None,
        })
    }

    /// Takes a sample of the sensor.
    pub fn sample(&mut self, counts: i32)
        requires { (least_sample ≤ℤ counts) × (counts ≤ℤ greatest_sample) }
        ensures { (p : PlateData) (history : History) → RepresentsHistory self.old p history
            → RepresentsHistory self.new p (Sample counts ∷ history) }
    {
        self.latest.push_back(counts);
        self.last = Some(counts);
    }

    /// The plate.
    pub fn plate(&self) -> &Plate
        ensures { (p : PlateData) (history : History) → RepresentsHistory self.now p history
            → result.now ≡ p }
    {
        &self.plate
    }

    /// The last sample, and the calibrated zero before any.
    pub(crate) fn present_counts(&self) -> i32
        ensures reported { Reports indication.present_counts self.now result }
        ensures range { IsCount result }
    {
        self.last.unwrap_or(self.plate.zero_counts())
    }

    /// The last sample, counted from the zero point.
    pub(crate) fn from_zero(&self) -> i32
        ensures reported { Reports indication.from_zero self.now result }
        ensures range { IsDifference result }
    {
        self.present_counts() - self.zero
    }

    /// The tare in counts, 0 while none is active.
    fn tare_counts(&self) -> i32
        ensures reported { Reports indication.tare_counts self.now result }
        ensures range { IsDifference result }
    {
        self.tare.unwrap_or(0)
    }

    /// Counts as a whole number of intervals, the nearest.
    fn intervals_of(&self, counts: i32) -> i64
        requires { unsigned_abs counts ≤ 2 ^ 25 }
        ensures reported { Reports (λ p history. indication.intervals_of p counts) self.now result }
        ensures few { unsigned_abs result ≤ 2 ^ 25 }
    {
        intervals(
            counts,
            self.plate.n() as u32,
            self.plate.span_counts() as u32,
        )
    }

    /// A number of intervals in units of the last decimal.
    fn in_units(&self, intervals: i64) -> i32
        requires { unsigned_abs intervals ≤ 2 ^ 25 }
        ensures { Reports (λ p history. indication.in_units p intervals) self.now result }
    {
        (intervals * i64::from(self.plate.e())) as i32
    }

    /// The gross weight in intervals.
    pub(crate) fn gross_intervals(&self) -> i64
        ensures reported { Reports indication.gross_intervals self.now result }
        ensures few { unsigned_abs result ≤ 2 ^ 25 }
    {
        self.intervals_of(self.from_zero())
    }

    /// The net weight in intervals, rounded by itself.
    fn net_intervals(&self) -> i64
        ensures reported { Reports indication.net_intervals self.now result }
        ensures few { unsigned_abs result ≤ 2 ^ 25 }
    {
        self.intervals_of(self.from_zero() - self.tare_counts())
    }

    /// The tare value, rounded by itself.
    pub fn tare_value(&self) -> i32
        ensures { Reports indication.tare_value self.now result }
    {
        self.in_units(self.intervals_of(self.tare_counts()))
    }

    /// Whether a tare is active.
    pub fn tare_active(&self) -> bool
        ensures { Reports indication.is_tare_active self.now result }
    {
        self.tare.is_some()
    }

    /// Whether the gross weight is above the greatest load by more than 9 intervals.
    pub fn over(&self) -> bool
        ensures { Reports indication.is_over self.now result }
    {
        self.last.is_some() && self.gross_intervals() > i64::from(self.plate.n()) + 9
    }

    /// Whether the gross weight is below zero by more than 20 intervals.
    pub fn under(&self) -> bool
        ensures { Reports indication.is_under self.now result }
    {
        self.last.is_some() && self.gross_intervals() < -20
    }

    /// Whether there is an indication: a sample has come, and it is neither over nor under.
    pub fn valid(&self) -> bool
        ensures { Reports indication.is_valid self.now result }
    {
        self.last.is_some() && !(self.over() || self.under())
    }

    /// Whether the gross weight is within a quarter of an interval of zero.
    pub fn centre(&self) -> bool
        ensures { Reports indication.is_centre_of_zero self.now result }
    {
        let distance = u64::from(self.from_zero().unsigned_abs()) * self.plate.n() as u64;
        self.last.is_some() && 4 * distance <= self.plate.span_counts() as u64
    }

    /// Whether the load is at rest: as many samples as the window holds have come, and that many of the last lie
    /// within half an interval.
    pub fn stable(&self) -> bool
        ensures { Reports indication.is_stable self.now result }
    {
        let spread = u64::from(spread(&self.latest));
        self.latest.is_full()
            && 2 * spread * self.plate.n() as u64 <= self.plate.span_counts() as u64
    }

    /// The gross weight, in units of the last decimal, if there is an indication.
    pub fn gross(&self) -> Option<i32>
        ensures { Reports indication.gross self.now result }
    {
        self.valid()
            .then_some(self.in_units(self.gross_intervals()))
    }

    /// The net weight, in units of the last decimal, if there is an indication.
    pub fn net(&self) -> Option<i32>
        ensures { Reports indication.net self.now result }
    {
        self.valid().then_some(self.in_units(self.net_intervals()))
    }

    /// What is shown: the net weight while a tare is active, else the gross weight.
    pub fn shown(&self) -> Option<i32>
        ensures { Reports indication.shown self.now result }
    {
        if self.tare_active() {
            self.net()
        } else {
            self.gross()
        }
    }
}
