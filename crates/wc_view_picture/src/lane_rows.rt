use crate::axes::{Curve, put_curve};
use crate::marks::put_requests;
use crate::sheet::{Sheet, Tenths, put};
use crate::view::{BASE, LEFT, RIGHT, Range, ScanSteps, View, part};
use std::fmt::Write;
use wc_view_columns::{Column, Lane, Level};

/// Where the first lane begins.
const FIRST: Tenths = Tenths(BASE.0 + 120);

/// The space between two lanes, in tenths.
const GAP: u64 = 60;

/// The height of a lane of numbers, in tenths.
const NUMBERS: u64 = 400;

/// The height of a lane in tenths, without the gap below it.
fn height(lane: Lane) -> u64 {
    match lane {
        Lane::Word(_) | Lane::Variable(_) | Lane::Scans => NUMBERS,
        Lane::Requests => 240,
        _ => 120,
    }
}

/// Where the lanes end.
pub(crate) fn bottom_of(lanes: &[Lane]) -> Tenths {
    let mut bottom = FIRST;
    for lane in lanes {
        bottom = bottom.plus(height(*lane)).plus(GAP);
    }
    bottom
}

/// Puts the outline of what is below a lane's levels, of that look.
pub(crate) fn put_levels(
    out: &mut Sheet,
    view: &View<'_>,
    lane: Lane,
    look: &str,
    top: Tenths,
    height: u64,
) {
    let (middle, base) = (top.plus(height / 2), top.plus(height));
    put!(out, "<path class=\"{look}\" d=\"M{LEFT} {base}");
    let mut at = Level::Low;
    for (index, column) in view.columns.iter().enumerate() {
        let level = lane.level(column);
        if level != at {
            let y = match level {
                Level::Low => base,
                Level::Both => middle,
                Level::High => top,
            };
            put!(out, "H{}V{y}", view.x(index));
            at = level;
        }
    }
    let end = view.x(view.columns.len());
    put!(out, "H{end}V{base}Z\"/>\n");
}

/// Puts the lane of an output word or of a variable, between its least and its greatest number, which are at its right.
fn put_numbers(out: &mut Sheet, view: &View<'_>, all: &Column, curve: Curve, top: Tenths) {
    let Some(span) = curve.span(all) else {
        return;
    };
    let range = Range {
        top,
        height: NUMBERS,
        low: span.least,
        high: span.greatest,
    };
    put!(out, "<path class=\"curve\" d=\"");
    put_curve(out, view, &range, curve);
    let y = top.plus(240);
    put!(out, "\"/>\n<text x=\"858\" y=\"{y}\">{}", span.least);
    if span.varies() {
        put!(out, " to {}", span.greatest);
    }
    put!(out, "</text>\n");
}

/// Where n steps are in the lane of the scans, which is as high as the greatest bound.
fn steps_y(view: &View<'_>, top: Tenths, steps: u32) -> Tenths {
    let bound = view.next.unwrap_or(view.first).bound.max(view.first.bound);
    let above = part(NUMBERS, u64::from(steps), u64::from(bound));
    top.plus(NUMBERS.saturating_sub(above))
}

/// Puts a bar for each column with a scan, as high as the steps of its longest.
fn put_bars(out: &mut Sheet, view: &View<'_>, top: Tenths) {
    let base = top.plus(NUMBERS);
    put!(out, "<path class=\"bars\" d=\"");
    for (index, column) in view.columns.iter().enumerate() {
        if column.events.scans != 0 {
            let (left, next) = (view.x(index), view.x(index.saturating_add(1)));
            let right = Tenths(next.0.max(left.plus(15).0));
            let y = steps_y(view, top, column.events.steps);
            put!(out, "M{left} {base}V{y}H{right}V{base}");
        }
    }
    put!(out, "\"/>\n");
}

/// Puts the line of the bound, with a step where the program was changed.
fn put_bound(out: &mut Sheet, view: &View<'_>, top: Tenths) {
    let first = steps_y(view, top, view.first.bound);
    put!(out, "<path class=\"bound\" d=\"M{LEFT} {first}");
    if let Some(next) = view.next {
        let mut columns = view.columns.iter();
        if let Some(index) = columns.position(|column| column.events.changes != 0) {
            let y = steps_y(view, top, next.bound);
            put!(out, "H{}V{y}", view.x(index));
        }
    }
    put!(out, "H{RIGHT}\"/>\n");
}

/// Puts the lane of the scans, with the most steps of a scan and the bound, of the first program and below of the next.
fn put_scans(out: &mut Sheet, view: &View<'_>, top: Tenths) {
    put_bars(out, view, top);
    put_bound(out, view, top);
    for (below, word, steps) in [(240, "", Some(view.first)), (380, "then ", view.next)] {
        if let Some(ScanSteps { most, bound }) = steps {
            let y = top.plus(below);
            put!(out, "<text x=\"858\" y=\"{y}\">{word}{most}");
            put!(out, " of {bound}</text>\n");
        }
    }
}

fn put_name(out: &mut Sheet, view: &View<'_>, lane: Lane) {
    let name = match lane {
        Lane::Motion => "in motion",
        Lane::Over => "over",
        Lane::Under => "under",
        Lane::Invalid => "not valid",
        Lane::Requests => "requests",
        Lane::Input(number) => return put!(out, "%IX0.{number}"),
        Lane::Output(number) => return put!(out, "%QX0.{number}"),
        Lane::Word(number) => return put!(out, "%QD{number}"),
        Lane::Variable(number) => view.variable(number),
        Lane::Scans => "steps",
    };
    put!(out, "{name}");
}

/// Puts a lane, with its name and the line on which it is.
fn put_lane(out: &mut Sheet, view: &View<'_>, all: &Column, lane: Lane, top: Tenths) {
    let height = height(lane);
    let (y, base) = (top.plus(height / 2).plus(40), top.plus(height));
    put!(out, "<g data-lane=\"");
    put_name(out, view, lane);
    put!(out, "\">\n<text class=\"name\" x=\"122\" y=\"{y}\">");
    put_name(out, view, lane);
    put!(out, "</text>\n<path class=\"grid\" ");
    put!(out, "d=\"M{LEFT} {base}H{RIGHT}\"/>\n");
    match lane {
        Lane::Requests => put_requests(out, view, top, height),
        Lane::Word(number) => put_numbers(out, view, all, Curve::Word(number), top),
        Lane::Variable(number) => put_numbers(out, view, all, Curve::Variable(number), top),
        Lane::Scans => put_scans(out, view, top),
        Lane::Motion => put_levels(out, view, lane, "dots", top, height),
        Lane::Over => put_levels(out, view, lane, "rising", top, height),
        Lane::Under => put_levels(out, view, lane, "falling", top, height),
        Lane::Invalid => put_levels(out, view, lane, "crossed", top, height),
        _ => put_levels(out, view, lane, "full", top, height),
    }
    put!(out, "</g>\n");
}

/// Puts the lanes, from above.
pub(crate) fn put_lanes(out: &mut Sheet, view: &View<'_>, all: &Column, lanes: &[Lane]) {
    let mut top = FIRST;
    for lane in lanes {
        put_lane(out, view, all, *lane, top);
        top = top.plus(height(*lane)).plus(GAP);
    }
}
