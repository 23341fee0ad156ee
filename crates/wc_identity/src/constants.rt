//! The constants that identify this version, each once: `tools/legal_digest --write` writes them.

/// Calls a macro with the version, the toolchain, and the digests of legal part and data path.
macro_rules! with_constants {
    ($macro:ident) => {
        $macro!(
            "0.1.0",
            "rattle-kit-13 logic dac8208d650f15bf",
            "4ffae1e3f501a9c6eb2b0458cb4eba15e974554c74e6c7cab54a2c9002bbd7cb",
            "a4831e2ff16d6e40b1169e84ee3c6607bfd21efdfcad288e523ef6944dbb1b3b"
        )
    };
}

macro_rules! version {
    ($version:literal, $toolchain:literal, $legal_part:literal, $data_path:literal) => {
        $version
    };
}

macro_rules! toolchain {
    ($version:literal, $toolchain:literal, $legal_part:literal, $data_path:literal) => {
        $toolchain
    };
}

macro_rules! legal_part {
    ($version:literal, $toolchain:literal, $legal_part:literal, $data_path:literal) => {
        $legal_part
    };
}

macro_rules! data_path {
    ($version:literal, $toolchain:literal, $legal_part:literal, $data_path:literal) => {
        $data_path
    };
}

macro_rules! version_text {
    ($version:literal, $toolchain:literal, $legal_part:literal, $data_path:literal) => {
        concat!(
            $version,
            " (Narbeddo)\ntoolchain ",
            $toolchain,
            "\nlegal part sha256 ",
            $legal_part,
            "\ndata path sha256 ",
            $data_path
        )
    };
}

/// The version of the product, as CHANGELOG.md has it.
pub const VERSION: &str = with_constants!(version);

/// The toolchain that the sources are for: its kit, and the sum of its logic.
pub const TOOLCHAIN: &str = with_constants!(toolchain);

/// SHA-256 over the legally relevant sources, in hexadecimal.
pub const LEGAL_PART: &str = with_constants!(legal_part);

/// SHA-256 over the sources that pass samples, line bytes and answers on, in hexadecimal.
pub const DATA_PATH: &str = with_constants!(data_path);

/// The constants in one text, for the command line.
pub const VERSION_TEXT: &str = with_constants!(version_text);
