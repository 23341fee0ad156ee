use crate::sheet::{Tenths, Weight};
use std::str;
use wc_plate::Plate;
use wc_sma::MassUnit;
use wc_view_columns::{Column, TimeLine, join, whole};
use wc_view_decode::unit_text;

/// Where the curves begin and end: at the left, at the right, above and below.
pub(crate) const LEFT: Tenths = Tenths(1300);

pub(crate) const RIGHT: Tenths = Tenths(8500);

pub(crate) const TOP: Tenths = Tenths(720);

pub(crate) const BASE: Tenths = Tenths(3120);

/// How wide and high they are, in tenths.
const WIDTH: u64 = 7200;

pub(crate) const HEIGHT: u64 = 2400;

/// The steps of a program's scans.
#[derive(Clone, Copy)]
pub struct ScanSteps {
    /// The steps of the longest scan.
    pub most: u32,
    /// The steps of the longest path: no scan takes more.
    pub bound: u32,
}

/// The height over which numbers are drawn, in tenths, and the numbers at its edges.
#[derive(Clone, Copy)]
pub(crate) struct Range {
    pub(crate) top: Tenths,
    pub(crate) height: u64,
    pub(crate) low: i64,
    pub(crate) high: i64,
}

/// The part of a length that so much of a whole is.
pub(crate) fn part(length: u64, some: u64, whole: u64) -> u64 {
    length.saturating_mul(some).checked_div(whole).unwrap_or(0)
}

impl Range {
    /// The height of the curves, with space for all weights and zero, for Max if it is not far above, and a little more.
    fn of_weights(all: Option<Column>, max: i64) -> Range {
        let weights = all.and_then(|all| join(all.state.gross, all.state.net));
        let (least, greatest) = weights.map_or((0, 0), |span| (span.least, span.greatest));
        let is_far = greatest.saturating_mul(3) < max && max < greatest.saturating_mul(100);
        let low = least.min(0);
        let high = if is_far { greatest } else { greatest.max(max) };
        let capacity = high.saturating_sub(low) / 20;
        Range {
            top: TOP,
            height: HEIGHT,
            low: low.saturating_sub(capacity),
            high: high.saturating_add(capacity).saturating_add(1),
        }
    }

    /// Where a number is.
    pub(crate) fn y(&self, number: i64) -> Tenths {
        let below = self.high.abs_diff(number.max(self.low).min(self.high));
        let whole = self.high.abs_diff(self.low.min(self.high));
        self.top.plus(part(self.height, below, whole))
    }
}

/// What is drawn, and where.
#[derive(Clone, Copy)]
pub struct View<'p> {
    pub(crate) columns: &'p [Column],
    /// All columns as one, if there are any.
    pub(crate) all: Option<Column>,
    /// The first moment in milliseconds, and the number of milliseconds of a column.
    pub(crate) start: u64,
    pub(crate) width: u64,
    /// What the plate says of weights; if no row came, nothing is known of it.
    pub(crate) max: i64,
    decimals: u32,
    pub(crate) unit: &'static str,
    /// The names of the variables that are drawn, between commas.
    names: &'p str,
    /// The height of the curves of weights, with the weights at its edges.
    pub(crate) weights: Range,
    /// The steps of the program with which a run begins, and where it was changed of the next one.
    pub(crate) first: ScanSteps,
    pub(crate) next: Option<ScanSteps>,
}

impl<'p> View<'p> {
    /// A view of what is kept of the rows, of a program that runs and of the one that it replaced. The variables of the columns have
    /// these names, between commas.
    pub fn new(
        line: Option<&'p TimeLine>,
        plate: Option<Plate>,
        before: Option<ScanSteps>,
        running: Option<ScanSteps>,
        names: &'p [u8],
    ) -> View<'p> {
        let (columns, start, width) = match line {
            Some(line) => (line.columns(), line.start(), line.width()),
            None => (&[] as &[Column], 0, 1),
        };
        let (max, decimals, unit) = plate.map_or((1, 0, ""), |plate| {
            let unit = MassUnit::of_letters(&plate.unit()).map_or("", |unit| unit_text(unit));
            (
                i64::from(plate.max()),
                plate.decimals().unsigned_abs(),
                unit,
            )
        });
        let all = whole(columns);
        let none = ScanSteps { most: 0, bound: 0 };
        View {
            columns,
            all,
            start,
            width,
            max,
            decimals,
            unit,
            names: str::from_utf8(names).unwrap_or(""),
            weights: Range::of_weights(all, max),
            first: before.or(running).unwrap_or(none),
            next: if before.is_some() { running } else { None },
        }
    }

    /// The number of milliseconds drawn.
    pub(crate) fn time(&self) -> u64 {
        let count = (self.columns.len() as u64).max(1);
        count.saturating_mul(self.width)
    }

    /// The moment at which a column begins.
    pub(crate) fn moment(&self, index: usize) -> u64 {
        let passed = (index as u64).saturating_mul(self.width);
        self.start.saturating_add(passed)
    }

    /// Where a column begins.
    pub(crate) fn x(&self, index: usize) -> Tenths {
        self.x_at(self.moment(index))
    }

    /// Where a moment is.
    pub(crate) fn x_at(&self, ms: u64) -> Tenths {
        let passed = ms.saturating_sub(self.start);
        LEFT.plus(part(WIDTH, passed, self.time()))
    }

    /// A weight in units of its last decimal.
    pub(crate) fn weight(&self, units: i64) -> Weight {
        Weight(units, self.decimals)
    }

    /// The name of the variable of that number, counted from 0.
    pub(crate) fn variable(&self, number: usize) -> &'p str {
        self.names.split(',').nth(number).unwrap_or("")
    }
}
