/// The sections of a job, each with the line end before the next heading.
#[derive(Clone, Copy)]
pub struct Sections<'a> {
    pub plate: &'a [u8],
    pub program: &'a [u8],
    /// The text of the next program, if it has its heading.
    pub next: Option<&'a [u8]>,
    pub log: &'a [u8],
}

/// What precedes a heading and what follows it.
#[derive(Clone, Copy)]
pub(crate) struct SplitLine<'a> {
    pub(crate) section: &'a [u8],
    pub(crate) rest: &'a [u8],
}
