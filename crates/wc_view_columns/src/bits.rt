ghost use Rattle.std.specs.Prelude.{◌≡◌, ◌==◌, ℕ, List, [], ◌∷◌, ◌++◌};
ghost use Rattle.std.specs.Int.{bit_at};
ghost use Rattle.wc_view_columns.specs.Columns.{bit_level};
ghost use Rattle.wc_view_columns.specs.Held.{AreBitsOf};

/// Which of sixteen bits were 1, which were 0, and how they were last.
#[derive(Clone, Copy, PartialEq, Eq)]
pub struct Bits {
    pub high: u16,
    pub low: u16,
    /// The last value.
    pub last: u16,
}

/// How a bit stood.
#[derive(Clone, Copy, PartialEq, Eq)]
pub enum Level {
    /// It was 0.
    Low,
    /// It was both.
    Both,
    /// It was 1.
    High,
}

impl Bits {
    /// The bits of one value.
    pub(crate) fn at(value: u16) -> Bits
        ensures { AreBitsOf (value ∷ []) result }
    {
        Bits {
            high: value,
            low: value ^ u16::MAX,
            last: value,
        }
    }

    /// The bits of these values and then others.
    pub(crate) fn merge(self, later: Bits) -> Bits
        ensures { (values others : List ℕ) → AreBitsOf values self → AreBitsOf others later
            → AreBitsOf (values ++ others) result }
    {
        Bits {
            high: self.high | later.high,
            low: self.low | later.low,
            last: later.last,
        }
    }

    /// How the bit of that number stood.
    pub fn level(self, number: u32) -> Level
        ensures { result ≡ bit_level self number }
    {
        match (is_set(self.high, number), is_set(self.low, number)) {
            (true, true) => Level::Both,
            (true, false) => Level::High,
            (false, _) => Level::Low,
        }
    }
}

/// Whether the bit of that number is 1.
fn is_set(value: u16, number: u32) -> bool
    ensures { result ≡ (bit_at value number == 1) }
{
    match value.checked_shr(number) {
        Some(rest) => rest % 2 == 1,
        None => false,
    }
}
