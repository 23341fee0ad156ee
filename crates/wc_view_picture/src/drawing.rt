use crate::axes::{Curve, put_axes, put_curve};
use crate::lane_rows::{bottom_of, put_lanes, put_levels};
use crate::marks::put_marks;
use crate::readings::put_readings;
use crate::sheet::{Several, Sheet, Tenths, exactly, put};
use crate::view::{HEIGHT, TOP, View};
use std::alloc::{AllocError, Global};
use std::fmt::Write;
use wc_view_columns::{Column, Lane, lanes_of};

/// The looks of a picture: it takes the reader's light or dark paper, and says nothing by colour alone.
const STYLE: &str = "<style>
svg{color:#1a1a1a;font:11px sans-serif}
text{fill:currentColor}
path{fill:none;stroke:currentColor;pointer-events:none}
.paper{fill:#fff;stroke:none}
@media (prefers-color-scheme:dark){svg{color:#e6e6e6}.paper{fill:#16181b}}
rect{fill:none;pointer-events:all}
.heading{font-size:14px}
.small{opacity:.7}
.name{text-anchor:end}
.time,.mark text,.refused text,.request text{text-anchor:middle}
.curve{stroke-width:1.4}
.net{stroke-dasharray:5 3}
.grid{opacity:.2}
.zero{stroke-width:.8}
.max,.bound{stroke-dasharray:9 4;stroke-width:.8}
.mark path{stroke-dasharray:4 3;pointer-events:stroke}
.refused path{stroke-dasharray:1 3;pointer-events:stroke}
.request path{stroke-width:1.5;pointer-events:stroke}
.full{fill:currentColor;fill-opacity:.45;stroke-width:.8}
.bars{fill:currentColor;fill-opacity:.55;stroke:none}
.none{fill:currentColor;fill-opacity:.06;stroke:none}
.dots{fill:url(#dots);stroke-width:.6}
.rising{fill:url(#rising);stroke-width:.6}
.falling{fill:url(#falling);stroke-width:.6}
.crossed{fill:url(#crossed);stroke-width:.6}
</style>
<defs>
<pattern id=\"dots\" width=\"4\" height=\"4\" patternUnits=\"userSpaceOnUse\"><path d=\"M1 2H2\"/></pattern>
<pattern id=\"rising\" width=\"6\" height=\"6\" patternUnits=\"userSpaceOnUse\"><path d=\"M0 6L6 0\"/></pattern>
<pattern id=\"falling\" width=\"6\" height=\"6\" patternUnits=\"userSpaceOnUse\"><path d=\"M0 0L6 6\"/></pattern>
<pattern id=\"crossed\" width=\"6\" height=\"6\" patternUnits=\"userSpaceOnUse\"><path d=\"M0 0L6 6M0 6L6 0\"/></pattern>
</defs>
";

/// Puts what precedes all that is drawn, with the name of the picture for a reader who does not see it.
fn put_head(out: &mut Sheet, view: &View<'_>, rows: u32, bottom: Tenths) {
    let height = bottom.plus(240).0 / 10;
    put!(out, "<svg xmlns=\"http://www.w3.org/2000/svg\" viewBox=");
    put!(out, "\"0 0 1000 {height}\" width=\"1000\" ");
    put!(out, "height=\"{height}\" role=\"img\" ");
    put!(out, "aria-label=\"A run of a scale: ");
    put_counts(out, view, rows);
    put!(out, "\">\n{STYLE}<path class=\"paper\" d=\"");
    put!(out, "M0 0H1000V{height}H0Z\"/>\n");
}

/// Puts the number of rows, and what is in them.
fn put_counts(out: &mut Sheet, view: &View<'_>, rows: u32) {
    put!(out, "{}", Several(rows, "row"));
    let Some(all) = &view.all else {
        return;
    };
    let scans = Several(all.events.scans, "scan");
    let requests = Several(all.events.requests, "request");
    put!(out, " from {} on: {scans}, {requests}", exactly(view.start));
}

/// Puts the heading: the number of rows, what is in them, and which row was refused for which rule.
fn put_heading(out: &mut Sheet, view: &View<'_>, rows: u32, refusal: Option<(u16, u32)>) {
    put!(out, "<text class=\"heading\" x=\"130\" y=\"26\">");
    put_counts(out, view, rows);
    put!(out, "</text>\n<text class=\"small\" x=\"130\" y=\"42\">");
    let width = exactly(view.width);
    put!(out, "a column is {width}; point at one to read it");
    if let Some((number, row)) = refusal {
        put!(out, "; row {row} is refused ({number})");
    }
    put!(out, "</text>\n");
}

/// Puts which curve is which, at the right of the heading.
fn put_legend(out: &mut Sheet, all: &Column) {
    put!(out, "<path class=\"curve\" d=\"M858 22H886\"/>\n");
    put!(out, "<text x=\"892\" y=\"26\">gross</text>\n");
    if all.state.net.is_some() {
        put!(out, "<path class=\"curve net\" d=\"M858 38H886\"/>\n");
        put!(out, "<text x=\"892\" y=\"42\">net</text>\n");
    }
}

/// Puts the bands in which there is no weight, over the height of the curves.
fn put_bands(out: &mut Sheet, view: &View<'_>, all: &Column) {
    if !all.state.invalid {
        return;
    }
    put_levels(out, view, Lane::Invalid, "none", TOP, HEIGHT);
    put_levels(out, view, Lane::Over, "rising", TOP, HEIGHT);
    put_levels(out, view, Lane::Under, "falling", TOP, HEIGHT);
}

/// The text of a picture; of a log that has no rows the axes alone. It is bounded, since the numbers of columns and lanes are
/// bounded.
pub fn draw(
    alloc: Global,
    view: &View<'_>,
    rows: u32,
    refusal: Option<(u16, u32)>,
) -> Result<String, AllocError> {
    let lanes = match &view.all {
        Some(all) => lanes_of(alloc, all)?,
        None => Vec::new(alloc),
    };
    let mut out = Sheet {
        string: String::new(alloc),
        is_full: false,
    };
    let bottom = bottom_of(&lanes);
    put_head(&mut out, view, rows, bottom);
    if let Some(all) = &view.all {
        put_heading(&mut out, view, rows, refusal);
        put_legend(&mut out, all);
        put_bands(&mut out, view, all);
    }
    put_axes(&mut out, view, bottom);
    if let Some(all) = &view.all {
        for (look, curve) in [("gross", Curve::Gross), ("net", Curve::Net)] {
            put!(out, "<path id=\"{look}\" class=\"curve {look}\" d=\"");
            put_curve(&mut out, view, &view.weights, curve);
            put!(out, "\"/>\n");
        }
        put_readings(&mut out, view, bottom);
        put_marks(&mut out, view);
        put_lanes(&mut out, view, all, &lanes);
    }
    put!(out, "</svg>\n");
    if out.is_full {
        return Err(AllocError);
    }
    Ok(out.string)
}
