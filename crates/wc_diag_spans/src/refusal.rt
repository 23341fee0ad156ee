use wc_job::Input;
use wc_record::RefusedRow;

/// What is available of what is refused.
#[derive(Clone, Copy)]
pub enum Evidence<'a> {
    /// Nothing.
    Nothing,
    /// The whole plate or program.
    Text(&'a [u8]),
    /// The row of the log.
    Row(&'a RefusedRow),
    /// A list of names on one line, of which no program has the one that is there.
    Names {
        list: &'a [u8],
        /// The first byte of the name, counted from 0.
        start: usize,
        /// The number of its bytes.
        length: usize,
        /// The text of the program; empty if it is not available.
        program: &'a [u8],
    },
}

/// A refusal, and what is available to explain it.
#[derive(Clone, Copy)]
pub struct RefusalDetails<'a> {
    /// The rule's number, by the list of refusals.
    pub number: u16,
    /// The line or the row, counted from 1 in its part; 0 if none is named.
    pub place: u32,
    /// What is refused.
    pub part: Input,
    /// What it is called: the path of a file, or `standard input`.
    pub name: &'a [u8],
    /// Whether it is a section of a job.
    pub in_job: bool,
    /// What is available of it.
    pub evidence: Evidence<'a>,
    /// The number of lines above this text or row in what is named.
    pub above: u32,
}
