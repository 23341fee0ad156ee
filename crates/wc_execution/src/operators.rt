ghost use Rattle.std.specs.Prelude.{◌≡◌, ◌≤◌, Some, IsSome, pos, true, false, reverse};
ghost use Rattle.wc_text_flat.specs.NumberOperators.{bit_of, apply_number, acts};
ghost use Rattle.wc_execution.specs.Logic.{is_logic, row_of};
ghost use Rattle.wc_execution.specs.Lines.{IsClosable, IsClosed};

use arrayvec::ArrayVec;
use wc_model::{Condition, Operator};

/// Whether an operator takes BOOLs to a BOOL.
#[inline(always)]
pub(crate) fn is_logic(operator: Operator) -> bool
    ensures { result ≡ is_logic operator }
{
    match operator {
        Operator::And
        | Operator::Andn
        | Operator::Or
        | Operator::Orn
        | Operator::Xor
        | Operator::Xorn => true,
        _ => false,
    }
}

/// Where the row of an operator begins in the table.
#[inline(always)]
fn row(operator: Operator) -> u32
    ensures { result ≡ row_of operator }
{
    match operator {
        Operator::And => 0,
        Operator::Andn => 4,
        Operator::Or => 8,
        Operator::Orn => 12,
        Operator::Xor => 16,
        Operator::Xorn => 20,
        _ => 24,
    }
}

/// The number, which is 0 or 1, without its sign.
#[inline(always)]
fn unsigned_bit(number: i32) -> u32
    requires { IsSome (bit_of number) }
    ensures same { pos result ≡ number }
    ensures bit { result ≤ 1 }
{
    number as u32
}

/// `a operator b` on numbers that are 0 or 1. It is looked up in one number, in which bit 2 a + b of an operator's row is that
/// of a and b, since a branch for each operator would be mispredicted.
#[inline(always)]
pub(crate) fn logic(operator: Operator, a: i32, b: i32) -> i32
    requires kind { is_logic operator ≡ true }
    requires there { IsSome (apply_number operator a b) }
    ensures { apply_number operator a b ≡ Some result }
{
    let rows: u32 = 0b1001_0110_1101_1110_0100_1000;
    let place = row(operator) + 2 * unsigned_bit(a) + unsigned_bit(b);
    ((rows >> place) % 2) as i32
}

/// Whether a number that is 0 or 1 is 1.
#[inline(always)]
pub(crate) fn truth(number: i32) -> bool
    requires { IsSome (bit_of number) }
    ensures { bit_of number ≡ Some result }
{
    number == 1
}

/// `a operator b` on numbers.
#[inline(always)]
fn arithmetic(operator: Operator, a: i32, b: i32) -> i32
    requires kind { is_logic operator ≡ false }
    requires there { IsSome (apply_number operator a b) }
    ensures { apply_number operator a b ≡ Some result }
{
    match operator {
        Operator::Add => a.wrapping_add(b),
        Operator::Sub => a.wrapping_sub(b),
        Operator::Mul => a.wrapping_mul(b),
        Operator::Div => a.wrapping_div(b),
        Operator::Mod => a.wrapping_rem(b),
        Operator::Gt => i32::from(a > b),
        Operator::Ge => i32::from(a >= b),
        Operator::Eq => i32::from(a == b),
        Operator::Ne => i32::from(a != b),
        Operator::Le => i32::from(a <= b),
        Operator::Lt => i32::from(a < b),
        // The others are on BOOLs.
        _ => a,
    }
}

/// `a operator b`.
#[inline(always)]
pub(crate) fn apply_number(operator: Operator, a: i32, b: i32) -> i32
    requires { IsSome (apply_number operator a b) }
    ensures { apply_number operator a b ≡ Some result }
{
    if is_logic(operator) {
        logic(operator, a, b)
    } else {
        arithmetic(operator, a, b)
    }
}

/// Whether a conditional acts on a result.
#[inline(always)]
pub(crate) fn acts(condition: Condition, current: i32) -> bool
    requires { IsSome (acts condition (Some current)) }
    ensures { acts condition (Some current) ≡ Some result }
{
    match condition {
        Condition::Always => true,
        Condition::IfTrue => truth(current),
        Condition::IfFalse => !truth(current),
    }
}

/// The `)`: the result that was last put by, and the operator with the inner one.
#[inline(always)]
pub(crate) fn close(deferred: &mut ArrayVec<i32, 8>, operator: Operator, inner: i32) -> i32
    requires { IsClosable operator inner (reverse deferred.old.items) }
    ensures { IsClosed operator inner (reverse deferred.old.items) result
        (reverse deferred.new.items) }
{
    match deferred.pop() {
        Some(outer) => apply_number(operator, outer, inner),
        // Something is put by, so this is not reached.
        None => inner,
    }
}
