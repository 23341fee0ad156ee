ghost use Rattle.std.specs.Prelude.{◌≡◌, IfOk};
ghost use Rattle.wc_record.specs.Views.{head_view, row_view};

use crate::row_kind::{Row, RowKind};
use std::alloc::{AllocError, Global};

/// The head of a row of a log: its number, its moment and its kind. The bytes of a `Bytes` row are
/// borrowed by `Rows::bytes` until the next row is read.
#[derive(Clone, Copy)]
pub struct RowHead {
    /// The row's number; that of the first row, `ms,kind,data`, is 1. At most 1000000.
    pub number: u32,
    /// The row's moment in milliseconds, below 2^40 and not before that of the row before it.
    pub ms: u64,
    /// What the row brings, without its bytes.
    pub kind: HeadKind,
}

/// What a row of a log brings, without the bytes of a `Bytes` row.
#[derive(Clone, Copy)]
pub enum HeadKind {
    /// A sample of the sensor, -8388608..8388607.
    Counts(i32),
    /// Bytes on the line, at most 4096, borrowed by `Rows::bytes` until the next row is read.
    Bytes,
    /// The inputs from now on; bit i is `%IX0.i`.
    Inputs(u16),
    Scan,
    /// A change to the next program.
    Change,
}

/// The row of that head and those bytes. Only a `Bytes` row takes memory, a copy of them.
pub(crate) fn owned_row(alloc: Global, head: RowHead, bytes: &[u8]) -> Result<Row, AllocError>
    ensures { IfOk result (λ row. row_view row ≡ head_view bytes.now head) }
{
    let kind = match head.kind {
        HeadKind::Counts(counts) => RowKind::Counts(counts),
        HeadKind::Bytes => RowKind::Bytes(Vec::from_slice(alloc, bytes)?),
        HeadKind::Inputs(inputs) => RowKind::Inputs(inputs),
        HeadKind::Scan => RowKind::Scan,
        HeadKind::Change => RowKind::Change,
    };
    let (number, ms) = (head.number, head.ms);
    Ok(Row { number, ms, kind })
}
