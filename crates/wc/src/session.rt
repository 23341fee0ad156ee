use crate::output::StandardOutput;
use std::cell::RefCell;
use wc_diag_texts::Format;

/// What each command is given: the system, the format of a refusal's message, standard output with what is gathered for it, and the
/// arguments, which are there for the proof alone: nothing is done that they do not ask for.
#[derive(Clone, Copy)]
pub(crate) struct Session<'a> {
    pub(crate) rt: &'a HostRuntime,
    pub(crate) format: Format,
    pub(crate) gathered: &'a RefCell<StandardOutput>,
    pub(crate) arguments: &'a [String],
}
