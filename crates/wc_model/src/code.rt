use crate::block::StandardBlock;
use crate::operator::{Condition, Operator, StoreKind};
use crate::place::Place;

/// One flat line of a body. Executed, it is one count, but for the body of a block of the text,
/// which counts what its own lines count.
///
/// Places are those of the unit's frame, counted from 0; an instance adds its base. BOOL is 0 or 1.
/// A jump and a call that is not made pass over the next `skip` lines.
#[derive(Clone, Copy)]
pub enum Code {
    /// LD of a literal; that of LDN is negated already.
    LoadNumber {
        number: i32,
    },
    /// LD, or LDN if negated, of a place.
    LoadPlace {
        negated: bool,
        place: Place,
    },
    /// ST, STN, S, R.
    Store {
        storing: StoreKind,
        target: Place,
    },
    /// An operator with a literal.
    ApplyNumber {
        operator: Operator,
        /// The second operand; not 0 for DIV and MOD.
        number: i32,
    },
    /// An operator with a place.
    ApplyPlace {
        operator: Operator,
        place: Place,
    },
    Not,
    /// The opening line of a deferred operator: the result is put by, and there is none.
    Open,
    /// The same in the short form, with a literal as the new result.
    OpenNumber {
        number: i32,
    },
    /// The same in the short form, with what is at a place as the new result.
    OpenPlace {
        place: Place,
    },
    /// The `)`: the result last put by, and the operator with the result as its second operand.
    Close {
        operator: Operator,
    },
    /// A jump ahead.
    Jump {
        condition: Condition,
        /// The number of flat lines it passes over.
        skip: u32,
    },
    /// The end of the body.
    Return {
        condition: Condition,
    },
    /// A call: its arguments and its block's body follow it.
    Call {
        condition: Condition,
        /// The number of flat lines passed over if it is not made.
        skip: u32,
    },
    /// A literal as an argument of the call that is being made.
    ArgumentNumber {
        /// The input's place. It precedes the number, so that a line takes 8 bytes.
        target: Place,
        number: i32,
    },
    /// What is at a place as an argument of the call that is being made.
    ArgumentPlace {
        place: Place,
        /// The input's place.
        target: Place,
    },
    /// The body of a standard block.
    Standard {
        block: StandardBlock,
        /// The first place of the instance.
        at: Place,
    },
    /// The body of a block of the text, from no result.
    Body {
        /// The block's unit, counted in text order from 0.
        unit: u16,
        /// The first place of the instance.
        at: Place,
    },
}
