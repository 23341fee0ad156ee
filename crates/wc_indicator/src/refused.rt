ghost use Rattle.std.specs.Prelude.{◌≡◌};
ghost use Rattle.wc_model.specs.Instrument.Indication.{refused_unless};
ghost use Rattle.wc_indicator.specs.Refusals.{reported_by};

use thiserror::Error;

/// Why a command was refused.
#[derive(Clone, Copy, PartialEq, Eq, Debug, Error)]
pub enum Refused {
    /// The scale was not stable.
    #[error("in motion")]
    Motion,
    /// It was stable, and the load was out of the command's range.
    #[error("out of range")]
    Range,
}

/// Why a command is refused, if it is: for motion first.
pub(crate) fn refused_unless(stable: bool, within: bool) -> Option<Refused>
    ensures { reported_by result ≡ refused_unless stable within }
{
    if !stable {
        Some(Refused::Motion)
    } else if !within {
        Some(Refused::Range)
    } else {
        None
    }
}
