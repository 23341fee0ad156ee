ghost use Rattle.std.specs.Prelude.{◌≡◌, IfSome, Some, option_map};
ghost use Rattle.wc_laws_grammar.specs.Words as words;
ghost use Rattle.wc_model.specs.Language.Names.{name_of};
ghost use Rattle.wc_text_lines.specs.Meanings.{operation_for};
ghost use Rattle.wc_text_lines.specs.Words.{operation_view, symbol_view};

use wc_built_in::{Keyword, keyword_named};
use wc_lexer::{Shape, Token};
use wc_model::{Condition, Operator, StoreKind};

/// An operator that takes an operand.
#[derive(Clone, Copy)]
pub enum OperandOperator {
    /// LD, or LDN if negated.
    Loads(bool),
    /// ST, STN, S, R.
    Stores(StoreKind),
    /// An operator that a parenthesis may defer.
    Applies(Operator),
}

/// An operator (IEC 61131-3:2003, table 52).
#[derive(Clone, Copy)]
pub enum Operation {
    /// With an operand.
    Operates(OperandOperator),
    /// NOT.
    Negates,
    /// JMP, JMPC, JMPCN.
    Jumps(Condition),
    /// CAL, CALC, CALCN.
    Calls(Condition),
    /// RET, RETC, RETCN.
    Returns(Condition),
}

/// The operator that a reserved word is.
fn operation_for(keyword: Keyword) -> Option<Operation>
    ensures { option_map operation_view result ≡ operation_for keyword }
{
    let operation = match keyword {
        Keyword::Load(negated) => Operation::Operates(OperandOperator::Loads(negated)),
        Keyword::Store(storing) => Operation::Operates(OperandOperator::Stores(storing)),
        Keyword::Apply(operator) => Operation::Operates(OperandOperator::Applies(operator)),
        Keyword::Not => Operation::Negates,
        Keyword::Jump(condition) => Operation::Jumps(condition),
        Keyword::Call(condition) => Operation::Calls(condition),
        Keyword::Return(condition) => Operation::Returns(condition),
        _ => return None,
    };
    Some(operation)
}

/// The operator that a reserved word is, whichever it is.
#[inline(never)]
fn any_operation(text: &[u8]) -> Option<Operation>
    ensures { option_map operation_view result ≡ words.found words.operations (name_of text.now) }
{
    operation_for(keyword_named(text)?)
}

/// The operator that the word is if it is one of the most frequent, in capitals. These are found without the list of words.
#[inline(always)]
fn frequent_operation(text: &[u8]) -> Option<Operation>
    ensures { IfSome result (λ operation. words.found words.operations (name_of text.now)
        ≡ Some (operation_view operation)) }
{
    match text {
        b"LD" => Some(Operation::Operates(OperandOperator::Loads(false))),
        b"ST" => Some(Operation::Operates(OperandOperator::Stores(StoreKind::Result))),
        b"AND" => Some(Operation::Operates(OperandOperator::Applies(Operator::And))),
        b"OR" => Some(Operation::Operates(OperandOperator::Applies(Operator::Or))),
        b"ADD" => Some(Operation::Operates(OperandOperator::Applies(Operator::Add))),
        b"GT" => Some(Operation::Operates(OperandOperator::Applies(Operator::Gt))),
        b"CAL" => Some(Operation::Calls(Condition::Always)),
        b"JMPC" => Some(Operation::Jumps(Condition::IfTrue)),
        _ => None,
    }
}

/// The operator that the word is.
#[inline(always)]
pub fn operation_named(text: &[u8]) -> Option<Operation>
    ensures { option_map operation_view result ≡ words.found words.operations (name_of text.now) }
{
    match frequent_operation(text) {
        Some(operation) => Some(operation),
        None => any_operation(text),
    }
}

/// The operator that the token is.
pub fn operation_of(token: Token) -> Option<Operation>
    ensures { option_map operation_view result ≡ words.operation_of (symbol_view token.entry) }
{
    match token.shape {
        Shape::Identifier => operation_named(token.text),
        Shape::And => Some(Operation::Operates(OperandOperator::Applies(Operator::And))),
        Shape::AndNot => Some(Operation::Operates(OperandOperator::Applies(Operator::Andn))),
        _ => None,
    }
}

/// Whether it is a jump, a call or a return.
pub fn is_transfer(operation: Operation) -> bool
    ensures { result ≡ words.is_transfer (operation_view operation) }
{
    !matches!(operation, Operation::Operates(_) | Operation::Negates)
}
