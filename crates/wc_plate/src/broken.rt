ghost use Rattle.std.specs.Prelude.{◌≡◌};
ghost use Rattle.wc_plate.specs.Broken as broken;

/// Which rule a table of keys breaks first, with what the rule was checked by.
#[derive(Clone, Copy)]
pub enum BrokenRule<'t> {
    /// A key that is not one of the seven, and one of these that is missing, if one is: it may be that one, spelled otherwise.
    UnknownKey {
        key: &'t str,
        missing: Option<&'static str>,
    },
    /// One of the seven that is missing.
    MissingKey {
        key: &'static str,
    },
    /// One of the seven whose value is not of its kind.
    WrongKind {
        key: &'static str,
    },
    /// The unit is not valid.
    Unit,
    /// The number of decimals is out of range.
    Decimals,
    /// The scale interval is not allowed with this unit, as the line writes it, and these decimals.
    Interval {
        unit: [u8; 3],
        decimals: u32,
    },
    /// The greatest load is not allowed with this scale interval.
    Load {
        e: u32,
    },
    /// The sample at no load is out of range.
    ZeroCounts,
    /// The counts to the greatest load are out of range, which is n scale intervals.
    SpanCounts {
        n: u32,
    },
    /// The window is out of range.
    Window,
}

impl BrokenRule<'_> {
    /// The rule's number.
    pub fn number(&self) -> u16
        ensures { result ≡ broken.number_of self.now }
    {
        match self {
            BrokenRule::UnknownKey { .. } => 502,
            BrokenRule::MissingKey { .. } => 502,
            BrokenRule::WrongKind { .. } => 502,
            BrokenRule::Unit => 503,
            BrokenRule::Decimals => 504,
            BrokenRule::Interval { .. } => 505,
            BrokenRule::Load { .. } => 506,
            BrokenRule::ZeroCounts | BrokenRule::SpanCounts { .. } => 507,
            BrokenRule::Window => 508,
        }
    }
}
