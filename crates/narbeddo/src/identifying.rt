ghost use Rattle.wc_identity.specs.Constants.{IsThisVersion};

use wc_identity::{Identity, identify};

/// What identifies the library. It needs no scale.
#[unsafe(no_mangle)]
pub extern "C" fn narbeddo_identify() -> Identity
    ensures { IsThisVersion result }
{
    identify()
}
