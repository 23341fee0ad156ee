ghost use Rattle.std.specs.Prelude.{◌≡◌, IfOk, string_bytes};
ghost use Rattle.wc_diag_texts.specs.PathTexts.{empty_path_advice, paths_text};

use std::alloc::{AllocError, Global};

/// The paths to a label at which no result is defined.
#[derive(Clone, Copy)]
pub enum Paths<'a> {
    /// A label, and of each of two paths to it the line and what it brings.
    Two(&'a str, u32, &'a str, u32, &'a str),
    /// A label, and the line of a path that brings nothing to it.
    Empty(&'a str, u32),
    /// A label and its line, to which the paths are not sure.
    Unsure(&'a str, u32),
    /// A label to which no path leads.
    None(&'a str),
}

/// What is said of the paths to a label.
pub fn paths_text(alloc: Global, paths: Paths<'_>) -> Result<String, AllocError>
    ensures { IfOk result (λ text. string_bytes text ≡ paths_text paths.entry) }
{
    match paths {
        Paths::Two(label, first, brought, other, different) => format!(in alloc;
            "the current result is undefined: line {first} brings {brought} to `{label}`, line {other} brings {different}"
        ),
        Paths::Empty(label, line) => format!(in alloc;
            "the current result is undefined: line {line} brings no value to `{label}`"
        ),
        Paths::Unsure(label, line) => format!(in alloc;
            "the current result is undefined: the paths to `{label}` (line {line}) bring different types, or no value"
        ),
        Paths::None(label) => format!(in alloc;
            "there is no current result: neither a jump nor the line above leads to `{label}`"
        ),
    }
}

/// What to write if that line brings nothing to a label.
pub fn empty_path_advice(alloc: Global, line: u32) -> Result<String, AllocError>
    ensures { IfOk result (λ text. string_bytes text ≡ empty_path_advice line) }
{
    format!(in alloc; "write an LD above line {line}, or between the label and this instruction")
}
