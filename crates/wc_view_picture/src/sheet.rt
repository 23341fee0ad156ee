use std::fmt;

/// The text of a picture so far. If memory for it is refused once, it keeps that until the end, so that what puts a part
/// of it has no way out of its own.
#[derive(Drop)]
pub(crate) struct Sheet {
    pub(crate) string: String,
    /// Whether memory was refused.
    pub(crate) is_full: bool,
}

/// Puts text with values in it at the end of a sheet.
macro_rules! put {
    ($out:expr, $($text:tt)+) => {{
        let written = write!($out.string, $($text)+);
        $out.is_full = $out.is_full || written.is_err();
    }};
}

pub(crate) use put;

/// A length in tenths, as `12.5`.
#[derive(Clone, Copy)]
pub(crate) struct Tenths(pub(crate) u64);

impl Tenths {
    /// That many tenths more.
    pub(crate) fn plus(self, more: u64) -> Tenths {
        Tenths(self.0.saturating_add(more))
    }
}

impl fmt::Display for Tenths {
    fn fmt<W: fmt::Write>(&self, f: &mut fmt::Formatter<W>) -> fmt::Result {
        write!(f, "{}.{}", self.0 / 10, self.0 % 10)
    }
}

/// A weight in units of its last decimal, and the number of its decimals.
#[derive(Clone, Copy)]
pub(crate) struct Weight(pub(crate) i64, pub(crate) u32);

impl fmt::Display for Weight {
    fn fmt<W: fmt::Write>(&self, f: &mut fmt::Formatter<W>) -> fmt::Result {
        let sign = if self.0 < 0 { "-" } else { "" };
        let units = self.0.unsigned_abs();
        match self.1 {
            0 => write!(f, "{sign}{units}"),
            1 => write!(f, "{sign}{}", Tenths(units)),
            2 => write!(f, "{sign}{}.{:02}", units / 100, units % 100),
            _ => write!(f, "{sign}{}.{:03}", units / 1000, units % 1000),
        }
    }
}

/// A moment in milliseconds, and the number of milliseconds of the steps in whose unit it is.
#[derive(Clone, Copy)]
pub(crate) struct Moment(pub(crate) u64, pub(crate) u64);

/// A moment in milliseconds, in a unit that leaves nothing over.
pub(crate) fn exactly(ms: u64) -> Moment {
    Moment(ms, ms)
}

impl fmt::Display for Moment {
    fn fmt<W: fmt::Write>(&self, f: &mut fmt::Formatter<W>) -> fmt::Result {
        let (ms, step) = (self.0, self.1);
        if step % 1000 != 0 {
            write!(f, "{ms} ms")
        } else if step % 60_000 != 0 || step == 0 {
            write!(f, "{} s", ms / 1000)
        } else if step % 3_600_000 != 0 {
            write!(f, "{} min", ms / 60_000)
        } else {
            write!(f, "{} h", ms / 3_600_000)
        }
    }
}

/// A number of what a word names, which is of one.
#[derive(Clone, Copy)]
pub(crate) struct Several(pub(crate) u32, pub(crate) &'static str);

impl fmt::Display for Several {
    fn fmt<W: fmt::Write>(&self, f: &mut fmt::Formatter<W>) -> fmt::Result {
        let end = if self.0 == 1 { "" } else { "s" };
        write!(f, "{} {}{end}", self.0, self.1)
    }
}
