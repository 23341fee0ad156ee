/// What a command reads, in the order in which it is read.
#[derive(Clone, Copy, PartialEq, Eq)]
pub enum Input {
    /// A job, of which the others are sections.
    Job,
    Plate,
    Program,
    /// The text of the next program.
    Next,
    Log,
    /// Names of variables that are to be observed: no file, but a word of the command.
    Names,
}
