ghost use Rattle.std.specs.Prelude.{◌≡◌, ℤ, List, ◌++◌, None, Some, int_lt, option_to_list};
ghost use Rattle.std.specs.Int.{int_max, int_min};
ghost use Rattle.wc_view_columns.specs.Held.{span_of};

/// The least, the greatest and the last of some numbers.
#[derive(Clone, Copy, PartialEq, Eq)]
pub struct NumberSpan {
    pub least: i64,
    pub greatest: i64,
    pub last: i64,
}

impl NumberSpan {
    /// The span of one number.
    pub(crate) fn at(number: i64) -> NumberSpan
        ensures least { result.least ≡ number }
        ensures greatest { result.greatest ≡ number }
        ensures last { result.last ≡ number }
    {
        NumberSpan {
            least: number,
            greatest: number,
            last: number,
        }
    }

    /// The span of one number or none.
    pub(crate) fn of(number: Option<i64>) -> Option<NumberSpan>
        ensures { result ≡ span_of (option_to_list number) }
    {
        Some(NumberSpan::at(number?))
    }

    /// The span of these numbers and then others.
    pub(crate) fn merge(self, later: NumberSpan) -> NumberSpan
        ensures least { result.least ≡ int_min self.least later.least }
        ensures greatest { result.greatest ≡ int_max self.greatest later.greatest }
        ensures last { result.last ≡ later.last }
    {
        NumberSpan {
            least: self.least.min(later.least),
            greatest: self.greatest.max(later.greatest),
            last: later.last,
        }
    }

    /// Whether the numbers differ.
    pub fn varies(self) -> bool
        ensures { result ≡ int_lt self.least self.greatest }
    {
        self.least < self.greatest
    }
}

/// The span of some numbers and then others, either of which may be empty.
pub fn join(earlier: Option<NumberSpan>, later: Option<NumberSpan>) -> Option<NumberSpan>
    ensures first { earlier ≡ None → result ≡ later }
    ensures second { later ≡ None → result ≡ earlier }
    ensures both { (numbers others : List ℤ) → earlier ≡ span_of numbers → later ≡ span_of others
        → result ≡ span_of (numbers ++ others) }
{
    match (earlier, later) {
        (Some(earlier), Some(later)) => Some(earlier.merge(later)),
        (Some(span), None) => Some(span),
        (None, span) => span,
    }
}
