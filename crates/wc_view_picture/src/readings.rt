use crate::sheet::{Sheet, Tenths, exactly, put};
use crate::view::{TOP, View};
use std::fmt::Write;
use wc_view_columns::{NumberSpan, State};

/// Puts a weight, or from which to which, with a name before it.
fn put_weight(out: &mut Sheet, view: &View<'_>, name: &str, span: Option<NumberSpan>) {
    let Some(span) = span else {
        return;
    };
    put!(out, "\n{name} {}", view.weight(span.least));
    if span.varies() {
        put!(out, " to {}", view.weight(span.greatest));
    }
    put!(out, " {}", view.unit);
}

/// Puts what is said of the scale besides its weights.
fn put_status(out: &mut Sheet, state: &State) {
    let is_unsampled = state.invalid && !state.over && !state.under;
    for (is_so, words) in [
        (state.motion, "\nin motion"),
        (state.over, "\nover"),
        (state.under, "\nunder"),
        (is_unsampled, "\nno sample yet"),
    ] {
        if is_so {
            put!(out, "{words}");
        }
    }
}

/// Puts the inputs and the outputs, in hexadecimal digits, and the numbers of the variables that are drawn, as they were last.
fn put_ports(out: &mut Sheet, view: &View<'_>, state: &State) {
    let (inputs, outputs) = (state.inputs.last, state.outputs.last);
    put!(out, "\ninputs {inputs:04x}, outputs {outputs:04x}");
    for (number, word) in state.words.iter().enumerate() {
        if word.last != 0 {
            put!(out, "\n%QD{number} {}", word.last);
        }
    }
    for (number, variable) in state.variables.iter().enumerate() {
        if let Some(span) = variable {
            put!(out, "\n{} {}", view.variable(number), span.last);
        }
    }
}

/// Puts a reading for each stretch of columns in which the same holds, for a pointer that is there.
pub(crate) fn put_readings(out: &mut Sheet, view: &View<'_>, bottom: Tenths) {
    put!(out, "<g id=\"readings\">\n");
    let height = Tenths(bottom.0.saturating_sub(TOP.0));
    let mut first = 0_usize;
    for (index, column) in view.columns.iter().enumerate() {
        let next = index.saturating_add(1);
        let later = view.columns.get(next);
        if !later.is_some_and(|later| later.state == column.state) {
            let left = view.x(first);
            let width = Tenths(view.x(next).0.saturating_sub(left.0));
            put!(out, "<rect x=\"{left}\" y=\"{TOP}\" ");
            put!(out, "width=\"{width}\" height=\"{height}\"><title>");
            let (begin, end) = (exactly(view.moment(first)), exactly(view.moment(next)));
            put!(out, "{begin} to {end}");
            put_weight(out, view, "gross", column.state.gross);
            put_weight(out, view, "net", column.state.net);
            put_status(out, &column.state);
            put_ports(out, view, &column.state);
            put!(out, "</title></rect>\n");
            first = next;
        }
    }
    put!(out, "</g>\n");
}
