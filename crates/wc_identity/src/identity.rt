ghost use Rattle.std.specs.Prelude.{◌<◌, length};
ghost use Rattle.wc_identity.specs.Constants.{IsThisVersion, IsText};

use crate::constants::{DATA_PATH, LEGAL_PART, TOOLCHAIN, VERSION};

/// What identifies the library: texts, each followed by zeros.
#[repr(C)]
#[derive(Clone, Copy)]
pub struct Identity {
    /// The version of the product.
    pub version: [u8; 16],
    /// The toolchain that the sources are for.
    pub toolchain: [u8; 48],
    /// The digest of the legally relevant sources.
    pub legal_part: [u8; 65],
    /// The digest of the sources that pass samples, line bytes and answers on.
    pub data_path: [u8; 65],
}

/// A text, and one zero or more after it.
fn with_zeros<const N: usize>(text: &str) -> [u8; N]
    requires { length text.now < N }
    ensures { IsText text.now N result }
{
    let mut bytes = [0; N];
    bytes[..text.len()].copy_from_slice(text.as_bytes());
    bytes
}

/// What identifies this version: the constants.
pub fn identify() -> Identity
    ensures { IsThisVersion result }
{
    Identity {
        version: with_zeros(VERSION),
        toolchain: with_zeros(TOOLCHAIN),
        legal_part: with_zeros(LEGAL_PART),
        data_path: with_zeros(DATA_PATH),
    }
}
