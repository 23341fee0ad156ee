/// A standard function block (IEC 61131-3:2003, 2.5.2.3).
#[derive(Clone, Copy, PartialEq, Eq)]
pub enum StandardBlock {
    /// R_TRIG, rising edge detector.
    RTrig,
    /// SR, bistable whose set is dominant.
    Sr,
    /// RS, bistable whose reset is dominant.
    Rs,
    /// CTU, up counter, in DINT.
    Ctu,
    /// TON, on-delay timer.
    Ton,
    /// TOF, off-delay timer.
    Tof,
    /// TP, pulse timer.
    Tp,
}
