ghost use Rattle.std.specs.Prelude.{◌≡◌, pos};
ghost use Rattle.wc_model.specs.Instrument.Plates.{IsPlate};

use std::marker::Model;

/// What is written on an instrument. Every plate keeps the ranges of a class III instrument.
#[derive(Clone, Copy)]
pub struct Plate {
    pub(crate) unit: [u8; 3],
    pub(crate) decimals: u32,
    pub(crate) max: u32,
    pub(crate) e: u32,
    pub(crate) n: u32,
    pub(crate) zero_counts: i32,
    pub(crate) span_counts: u32,
    pub(crate) window: u32,
}

impl Model for Plate {
    ghost use Rattle.wc_model.specs.Instrument.Plates.{PlateData};

    ghost Value = { PlateData };

    ghost use Rattle.wc_plate.specs.Kept.{plate_kept, fields_of, IsKept};

    ghost view = { plate_kept };

    ghost inverse = { fields_of };

    ghost invariant = { IsKept };
}

impl Plate {
    /// The unit, as the line writes it.
    pub fn unit(&self) -> [u8; 3]
        ensures unit { result ≡ self.now.unit }
        ensures ranges { IsPlate self.now }
    {
        self.unit
    }

    /// The number of digits after the point.
    pub fn decimals(&self) -> i32
        ensures decimals { result ≡ pos self.now.decimals }
        ensures ranges { IsPlate self.now }
    {
        self.decimals as i32
    }

    /// The greatest load, in units of the last decimal.
    pub fn max(&self) -> i32
        ensures max { result ≡ pos self.now.max }
        ensures ranges { IsPlate self.now }
    {
        self.max as i32
    }

    /// The scale interval, in units of the last decimal.
    pub fn e(&self) -> i32
        ensures e { result ≡ pos self.now.e }
        ensures ranges { IsPlate self.now }
    {
        self.e as i32
    }

    /// The number of scale intervals.
    pub fn n(&self) -> i32
        ensures n { result ≡ pos self.now.n }
        ensures ranges { IsPlate self.now }
    {
        self.n as i32
    }

    /// The sample at no load.
    pub fn zero_counts(&self) -> i32
        ensures zero_counts { result ≡ self.now.zero_counts }
        ensures ranges { IsPlate self.now }
    {
        self.zero_counts
    }

    /// The counts from no load to the greatest.
    pub fn span_counts(&self) -> i32
        ensures span_counts { result ≡ pos self.now.span_counts }
        ensures ranges { IsPlate self.now }
    {
        self.span_counts as i32
    }

    /// The number of samples stability looks at.
    pub fn window(&self) -> i32
        ensures window { result ≡ pos self.now.window }
        ensures ranges { IsPlate self.now }
    {
        self.window as i32
    }
}
