/// A place of a frame, counted from 0 in the frame's order.
#[derive(Clone, Copy, PartialEq, Eq, Hash)]
pub struct Place(pub u16);

/// How a place is named. Letter case is not significant.
#[derive(Clone, Copy)]
pub enum Path<'p> {
    /// A directly represented variable (IEC 61131-3:2003, 2.4.1.1), as `%IX0.0`.
    Address(&'p [u8]),
    /// The names that lead from a unit through instances to a variable or a field. A field of a
    /// standard block that texts cannot name goes by `M`, `run`, `phase` or `start`.
    Names(&'p [&'p [u8]]),
}
