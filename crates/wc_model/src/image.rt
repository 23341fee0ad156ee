/// What a scan sees of the inputs and the indicator.
#[derive(Clone, Copy, PartialEq, Eq)]
pub struct Image {
    /// `%IX0.0` to `%IX0.15`; bit i is `%IX0.i`.
    pub inputs: u16,
    /// `%IX1.0` to `%IX1.5`: stable, over, under, centre of zero, tare active, valid; below 64.
    pub status: u8,
    /// `%ID0` to `%ID2`: gross, net and tare value in units of the last decimal.
    pub weights: [i32; 3],
}

/// What a scan leaves at the outputs.
#[derive(Clone, Copy, PartialEq, Eq)]
pub struct Outputs {
    /// `%QX0.0` to `%QX0.15`; bit i is `%QX0.i`.
    pub bits: u16,
    /// `%QD0` to `%QD3`.
    pub words: [i32; 4],
}

/// The number of items a scan executed.
#[derive(Clone, Copy, PartialEq, Eq)]
pub struct Steps(pub u32);
