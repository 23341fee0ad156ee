ghost use Rattle.std.specs.Prelude.{◌≡◌, [], if◌then◌else◌};

use crate::field::Field;
use crate::names::Names;
use crate::variable::Variable;
use std::alloc::Global;

/// The names of a unit's variables, with what they represent.
#[derive(Drop)]
pub struct UnitTable<'a> {
    /// Whether the unit is a function block.
    pub is_block: bool,
    /// The variables' names, numbered in the order of declaration.
    pub names: Names<'a>,
    /// The variables, by the numbers of their names.
    pub rows: Vec<Variable>,
    /// The plain ones.
    pub fields: Vec<Field<'a>>,
    /// The number of places the unit's frame has.
    pub size: u16,
}

/// The number of directly represented variables, with which a program's frame begins.
pub(crate) const DIRECT_VARIABLES: u16 = 45;

impl<'a> UnitTable<'a> {
    /// The table of a unit with no variable.
    pub fn new(alloc: Global, is_block: bool) -> UnitTable<'a>
        ensures is_block { result.is_block ≡ is_block }
        ensures names { result.names ≡ [] }
        ensures rows { result.rows.items ≡ [] }
        ensures fields { result.fields.items ≡ [] }
        ensures size { result.size ≡ (if is_block then 0 else 45) }
    {
        UnitTable {
            is_block,
            names: Names::new(alloc),
            rows: Vec::new(alloc),
            fields: Vec::new(alloc),
            size: if is_block { 0 } else { DIRECT_VARIABLES },
        }
    }
}
