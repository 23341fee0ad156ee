/// Which scans of a run are to be shown: those that meet each given condition, and all if none is given.
#[derive(Clone, Copy)]
pub struct ScanChoice {
    /// The moment of the scan in milliseconds.
    pub at: Option<u64>,
    /// The number of the scan among those of the run, counted from 1.
    pub scan: Option<u64>,
    /// The first moment in milliseconds.
    pub from: Option<u64>,
    /// The last moment in milliseconds.
    pub to: Option<u64>,
}
