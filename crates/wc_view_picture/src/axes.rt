use crate::sheet::{Moment, Sheet, Tenths, put};
use crate::view::{LEFT, RIGHT, Range, TOP, View};
use std::fmt::Write;
use wc_view_columns::{Column, NumberSpan};

/// The least of 1, 2, 5, 10, 20 and so on of which at most n make up a range.
fn round_step(range: u64, most: u64) -> u64 {
    let mut power = 1_u64;
    for _digit in 0..12 {
        for factor in [1_u64, 2, 5] {
            let step = power.saturating_mul(factor);
            if step.saturating_mul(most) >= range {
                return step;
            }
        }
        power = power.saturating_mul(10);
    }
    power
}

/// The least of the usual parts of a day, in milliseconds, of which at most n make up a range.
fn time_step(range: u64, most: u64) -> u64 {
    for step in [
        1_u64, 2, 5, 10, 20, 50, 100, 200, 500, 1000, 2000, 5000, 10_000, 15_000, 30_000, 60_000,
        120_000, 300_000, 600_000, 900_000, 1_800_000, 3_600_000, 7_200_000, 10_800_000,
        21_600_000, 43_200_000,
    ] {
        if step.saturating_mul(most) >= range {
            return step;
        }
    }
    let days = range / 86_400_000;
    round_step(days.saturating_add(1), most).saturating_mul(86_400_000)
}

/// Puts a line across the curves, of that look, at a weight.
fn put_line(out: &mut Sheet, view: &View<'_>, look: &str, weight: i64) {
    let y = view.weights.y(weight);
    put!(out, "<path class=\"{look}\" d=\"M{LEFT} {y}H{RIGHT}\"/>\n");
}

/// Puts a line at each round weight, and the weight before it.
fn put_weights(out: &mut Sheet, view: &View<'_>) {
    let range = &view.weights;
    let step = round_step(range.high.abs_diff(range.low), 7).min(1 << 40) as i64;
    let first = range.low.checked_div(step).unwrap_or(0);
    for count in 0..12 {
        let units = step.saturating_mul(first.saturating_add(count));
        if units <= range.high {
            put_line(out, view, "grid", units);
            let (y, weight) = (range.y(units).plus(40), view.weight(units));
            put!(out, "<text class=\"name\" x=\"122\" y=\"{y}\">");
            put!(out, "{weight}</text>\n");
        }
    }
}

/// Puts zero and Max.
fn put_limits(out: &mut Sheet, view: &View<'_>) {
    put_line(out, view, "zero", 0);
    let (max, unit) = (view.max, view.unit);
    if unit.is_empty() {
        return;
    }
    let is_seen = max <= view.weights.high;
    if is_seen {
        put_line(out, view, "max", max);
    }
    let (y, weight) = (view.weights.y(max).plus(40), view.weight(max));
    let end = if is_seen { "" } else { ", above" };
    put!(out, "<text x=\"858\" y=\"{y}\">");
    put!(out, "Max {weight} {unit}{end}</text>\n");
}

/// Puts a line at each round moment down to the bottom, and the moment below it.
fn put_moments(out: &mut Sheet, view: &View<'_>, bottom: Tenths) {
    let step = time_step(view.time(), 6);
    let first = view.start.checked_div(step).unwrap_or(0);
    let end = view.start.saturating_add(view.time());
    for count in 0..12 {
        let ms = step.saturating_mul(first.saturating_add(count));
        if view.start <= ms && ms <= end {
            let (x, y, moment) = (view.x_at(ms), bottom.plus(140), Moment(ms, step));
            put!(out, "<path class=\"grid\" d=\"M{x} {bottom}V{TOP}\"/>\n");
            put!(out, "<text class=\"time\" x=\"{x}\" y=\"{y}\">");
            put!(out, "{moment}</text>\n");
        }
    }
}

/// Puts the axes of weight and time, zero and Max.
pub(crate) fn put_axes(out: &mut Sheet, view: &View<'_>, bottom: Tenths) {
    put!(out, "<g id=\"axes\">\n");
    put_weights(out, view);
    if !view.columns.is_empty() {
        put_moments(out, view, bottom);
    }
    put_limits(out, view);
    put!(out, "</g>\n");
}

/// A number that is drawn over time.
#[derive(Clone, Copy)]
pub(crate) enum Curve {
    Gross,
    Net,
    /// An output word.
    Word(usize),
    Variable(usize),
}

impl Curve {
    /// What it has of a column.
    pub(crate) fn span(self, column: &Column) -> Option<NumberSpan> {
        match self {
            Curve::Gross => column.state.gross,
            Curve::Net => column.state.net,
            Curve::Word(number) => column.state.words.get(number).copied(),
            Curve::Variable(number) => *column.state.variables.get(number)?,
        }
    }
}

/// Puts a stroke up or down over all that a column has reached, to where it ends.
fn put_span(out: &mut Sheet, range: &Range, span: NumberSpan) {
    if span.least < span.last {
        put!(out, "V{}", range.y(span.least));
    }
    if span.last < span.greatest {
        put!(out, "V{}", range.y(span.greatest));
    }
    put!(out, "V{}", range.y(span.last));
}

/// Goes on with a curve at a column, after what it had of the column before.
fn put_step(
    out: &mut Sheet,
    range: &Range,
    x: Tenths,
    before: Option<NumberSpan>,
    span: Option<NumberSpan>,
) {
    match (before, span) {
        (Some(before), Some(span)) if span.varies() || span.last != before.last => {
            put!(out, "H{x}");
            put_span(out, range, span);
        }
        (Some(_), None) => put!(out, "H{x}"),
        (None, Some(span)) => {
            put!(out, "M{x} {}", range.y(span.least));
            put_span(out, range, span);
        }
        _ => {}
    }
}

/// Puts the path of a curve: a stroke up or down where its number changes, else to the right.
pub(crate) fn put_curve(out: &mut Sheet, view: &View<'_>, range: &Range, curve: Curve) {
    let mut before = None;
    for (index, column) in view.columns.iter().enumerate() {
        let span = curve.span(column);
        put_step(out, range, view.x(index), before, span);
        before = span;
    }
    put_step(out, range, view.x(view.columns.len()), before, None);
}
