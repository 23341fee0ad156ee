/// Why a scale keeps the program that it has.
#[derive(Clone, Copy, Debug, Drop, PartialEq, Eq)]
pub enum ChangeFault {
    NoProgram,
    /// There is no memory for the store of the next program.
    Memory,
}
