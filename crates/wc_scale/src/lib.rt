//! A scale for a maker's own program: its indicator, its line, its digital inputs and the program
//! with it in one value, which takes what comes of it call by call, and laws of lists of such
//! calls. Each call on arguments that can't be taken answers by a status and changes nothing.
#![tactic(auto)]

mod line;
mod prelude_answer;
mod programs;
mod reading;
mod results;
mod scale;
mod units;

pub use line::{each_call_is_a_step, legal_calls_decide, the_customers_calls_have_no_part};
pub use results::{
    ALREADY_OPEN, Answer, CLOSED, COUNTS_OUT_OF_RANGE, DONE, Engraved, LINE_FAILED, MOMENT_BACK,
    MOMENT_OUT_OF_RANGE, NO_MEMORY, NO_PROGRAM, NO_UNIT, NO_VARIABLE, PathAnswer, PlateDigest,
    PreludeAnswer, REFUSED, Reading, Refusal, Scanned, TOO_SMALL, UnitAnswer, VariableRead,
};
pub use scale::Scale;
pub use units::{about, path};
