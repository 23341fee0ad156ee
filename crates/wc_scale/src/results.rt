ghost use Rattle.std.specs.Prelude.{◌≡◌};
ghost use Rattle.wc_scale.specs.Opening.{ReportsFault};

use wc_model::Fault;

/// The call did what it is for.
pub const DONE: u32 = 0;
/// A text breaks a rule; its number and its place are next to the status.
pub const REFUSED: u32 = 1;
/// There is no memory for what the text needs.
pub const NO_MEMORY: u32 = 2;
/// The scale has no plate: it was never opened, or was closed.
pub const CLOSED: u32 = 3;
/// The scale has a plate already.
pub const ALREADY_OPEN: u32 = 4;
/// No program is loaded.
pub const NO_PROGRAM: u32 = 5;
/// A sample is below -8388608 or above 8388607.
pub const COUNTS_OUT_OF_RANGE: u32 = 6;
/// A moment is above 1099511627775.
pub const MOMENT_OUT_OF_RANGE: u32 = 7;
/// A moment is before that of the last scan.
pub const MOMENT_BACK: u32 = 8;
/// An answer did not fit its buffer. No byte on the line of an open scale comes to this.
pub const LINE_FAILED: u32 = 9;
/// The text has no unit of this number.
pub const NO_UNIT: u32 = 10;
/// The buffer is too small for all lines of a path.
pub const TOO_SMALL: u32 = 11;
/// The program has no variable of this name.
pub const NO_VARIABLE: u32 = 12;

/// What comes of a text: a status, and of a text that is refused the rule's number and the place.
#[repr(C)]
#[derive(Clone, Copy)]
pub struct Refusal {
    pub status: u32,
    /// The number of the rule that the text breaks, 0 if it is not refused.
    pub number: u32,
    /// The line that breaks it, counted from 1; 0 if no line does.
    pub place: u32,
}

/// What comes of a byte on the line: a status, and the answer to the request that it completes.
#[repr(C)]
#[derive(Clone, Copy)]
pub struct Answer {
    pub status: u32,
    /// The number of bytes the answer has, 0 if the byte completes no request.
    pub length: u32,
    /// Its bytes, and zeros after them.
    pub bytes: [u8; 20],
}

/// What comes of a scan: a status, the number of steps it took, and the outputs that it leaves.
#[repr(C)]
#[derive(Clone, Copy)]
pub struct Scanned {
    pub status: u32,
    /// The number of steps the scan took.
    pub steps: u32,
    /// `%QX0.0` to `%QX0.15`; bit i is `%QX0.i`.
    pub bits: u32,
    /// `%QD0` to `%QD3`.
    pub words: [i32; 4],
}

/// What the indicator shows: a status, six flags, and three weights in units of the last decimal.
#[repr(C)]
#[derive(Clone, Copy)]
pub struct Reading {
    pub status: u32,
    /// Stable, over, under, centre of zero, tare active, valid, the lowest bit first.
    pub flags: u32,
    /// Gross, net and tare, each 0 if there is no indication.
    pub weights: [i32; 3],
}

/// What brings a new scale of the same plate to the state of a scale: a status, and the samples, commands, inputs and bytes that
/// do it.
#[repr(C)]
#[derive(Clone, Copy)]
pub struct PreludeAnswer {
    pub status: u32,
    /// The number of samples the window holds, 2 to 16.
    pub window: u32,
    /// 1 if zero is set at `zero`: as many samples of it as the window holds, and a `Z` request. Else 0.
    pub has_zero: u32,
    /// The sample at which zero is set.
    pub zero: i32,
    /// 1 if the tare is taken at `tare`: as many samples of it as the window holds, and a `T` request. Else 0.
    pub has_tare: u32,
    /// The sample at which the tare is taken.
    pub tare: i32,
    /// The number of last samples.
    pub count: u32,
    /// They, the oldest first, and zeros after them.
    pub samples: [i32; 16],
    /// The digital inputs; bit i is `%IX0.i`.
    pub inputs: u32,
    /// The number of bytes the request has that is open, 0 if none is.
    pub length: u32,
    /// They, and zeros after them.
    pub request: [u8; 3],
}

/// What is engraved on the scale: a status, and of its plate what a display needs besides a weight.
#[repr(C)]
#[derive(Clone, Copy)]
pub struct Engraved {
    pub status: u32,
    /// The unit in three bytes, as the line writes it: `g`, `kg` or `t`, and spaces after it; zeros of a closed scale.
    pub unit: [u8; 3],
    /// The number of digits a weight has after its point, 0 to 3.
    pub decimals: i32,
    /// The greatest load (Max), in units of the last decimal.
    pub max: i32,
    /// The scale interval (e), in units of the last decimal.
    pub e: i32,
}

/// The digest of the plate of a scale, and a status.
#[repr(C)]
#[derive(Clone, Copy)]
pub struct PlateDigest {
    pub status: u32,
    /// SHA-256 of the plate's lines; zeros of a closed scale.
    pub bytes: [u8; 32],
}

/// The value of a variable of the program: a status, the kind of the value, and its number.
#[repr(C)]
#[derive(Clone, Copy)]
pub struct VariableRead {
    pub status: u32,
    /// 1 of a BOOL, 2 of a DINT, 3 of a TIME; 0 if there is no value.
    pub kind: u32,
    /// A BOOL is 0 or 1, a DINT its number, a TIME its milliseconds; it is 0 if there is no value.
    pub number: i64,
}

/// What is reported about one unit of a program's text.
#[repr(C)]
#[derive(Clone, Copy)]
pub struct UnitAnswer {
    /// What comes of the text.
    pub text: Refusal,
    /// The number of units the text has; the program is the last.
    pub units: u32,
    /// The number of steps the unit takes at most.
    pub bound: u32,
    /// The number of bytes the unit's name has.
    pub length: u32,
    /// Its name as it is spelled, and zeros after it.
    pub name: [u8; 32],
}

/// What is reported about the worst path of a unit.
#[repr(C)]
#[derive(Clone, Copy)]
pub struct PathAnswer {
    /// What comes of the text.
    pub text: Refusal,
    /// The number of lines the path has.
    pub length: u32,
}

/// A text about which this status says all.
pub(crate) fn only(status: u32) -> Refusal
    ensures status { result.status ≡ status }
    ensures number { result.number ≡ 0 }
    ensures place { result.place ≡ 0 }
{
    Refusal {
        status,
        number: 0,
        place: 0,
    }
}

/// What a fault says of a text.
pub(crate) fn of_fault(fault: Fault) -> Refusal
    ensures { ReportsFault fault result }
{
    match fault {
        Fault::Refused { number, place } => Refusal {
            status: REFUSED,
            number: u32::from(number),
            place,
        },
        Fault::Memory => only(NO_MEMORY),
    }
}
