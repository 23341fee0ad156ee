use wc_model::{Outputs, Steps};
use wc_sma::{MassUnit, Status, WeightKind};

/// What an answer with a weight says.
#[derive(Clone, Copy)]
pub struct WeightAnswer {
    pub status: Status,
    pub kind: WeightKind,
    pub is_stable: bool,
    /// The weight as the line writes it: right-justified, ten `-` if there is none.
    pub weight: [u8; 10],
    pub unit: MassUnit,
}

/// An answer of the line.
#[derive(Clone, Copy)]
pub enum LineAnswer {
    Weight(WeightAnswer),
    /// The request is not one that the line knows.
    NotUnderstood,
}

/// The scan of a line.
#[derive(Clone, Copy)]
pub(crate) struct ScanRow {
    pub(crate) ms: u64,
    pub(crate) steps: Steps,
    pub(crate) outputs: Outputs,
}

/// The refusal of a line.
#[derive(Clone, Copy)]
pub(crate) struct RefusalRow {
    pub(crate) number: u16,
    pub(crate) place: u32,
}

/// What a line of a report says.
#[derive(Drop)]
pub(crate) enum ReportEntry {
    Scan(ScanRow),
    /// The time in milliseconds, and the answers.
    Answers(u64, Vec<LineAnswer>),
    Refusal(RefusalRow),
}
