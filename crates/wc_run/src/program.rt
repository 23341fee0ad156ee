use wc_cost::Loaded;

/// A program of a run: its text, and what was loaded of it.
#[derive(Clone, Copy)]
pub struct Program<'l, 't> {
    /// The bytes of the text.
    pub text: &'t [u8],
    /// What was loaded of them.
    pub loaded: &'l Loaded<'t>,
}
