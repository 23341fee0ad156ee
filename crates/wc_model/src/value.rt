ghost use Rattle.std.specs.Prelude.{◌≡◌};
ghost use Rattle.wc_model.specs.Language.Values.{wrap};

/// A value with its kind (IEC 61131-3:2003, 2.3.1).
#[derive(Clone, Copy, PartialEq, Eq)]
pub enum Value {
    Bool(bool),
    /// A DINT, or a whole-number literal.
    Dint(i32),
    /// A TIME, in milliseconds.
    Time(i32),
}

/// The one number of 32 bits that equals `number` modulo 2^32: how results of arithmetic wrap.
pub fn wrap32(number: i64) -> i32
    ensures { result ≡ wrap number }
{
    (number.rem_euclid(1 << 32) as u32).cast_signed()
}
