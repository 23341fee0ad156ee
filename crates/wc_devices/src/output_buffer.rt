ghost use Rattle.std.specs.Prelude.{◌≤◌, length, vec_capacity};

/// A writer that gathers what it takes, and passes it on when it is emptied or has no space for more. What it has taken is
/// what the writer inside has, and then what is buffered. Once a call has failed, each later call fails and changes nothing.
#[derive(Drop)]
pub struct OutputBuffer<D> {
    pub(crate) inner: D,
    pub(crate) buffered: Vec<u8>,
    pub(crate) given: usize,
    pub(crate) capacity: usize,
    pub(crate) failed: bool,
    ghost within: { given ≤ length buffered.items },
    ghost fits: { length buffered.items ≤ capacity },
    ghost allocated: { capacity ≤ vec_capacity buffered },
}
