ghost use Rattle.std.specs.Prelude.{◌≤◌, length};

use std::alloc::Global;

/// A writer for tests: it takes at most n bytes in a call and m in all, and then fails. It takes
/// no memory once it is made.
#[derive(Drop)]
pub struct FuseOut {
    pub(crate) buffer: Vec<u8, Global>,
    pub(crate) taken: usize,
    pub(crate) per_call: usize,
    pub(crate) failures: u64,
    ghost within: { taken ≤ length buffer.items },
}
