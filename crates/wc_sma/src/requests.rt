ghost use Rattle.std.specs.Prelude.{◌≡◌, ℕ, List, [], ◌∷◌, ◌++◌, map, option_map, option_to_list};
ghost use Rattle.wc_model.specs.Definitions.{command_of, requests_in};
ghost use Rattle.wc_sma.specs.Seen.{command_view};
ghost use Rattle.wc_sma.specs.Feeding.{HasRead};

use crate::command::{Command, RequestStart, after_byte, command_of};
use crate::line::completed_request;

/// Follows the bytes of a line and acts on nothing: it says which requests they complete, as the line does that is fed them.
#[derive(Clone, Copy)]
pub struct RequestReader {
    started: Option<RequestStart>,
}

impl RequestReader {
    /// Before the first byte.
    pub fn new() -> RequestReader
        ensures { HasRead result [] }
    {
        RequestReader { started: None }
    }

    /// Takes one byte: the command of the request that it completes, if it completes one.
    pub fn take(&mut self, byte: u8) -> Option<Command>
        ensures read { (before : List ℕ) → HasRead self.old before → HasRead self.new (before
            ++ (byte ∷ [])) }
        ensures command { (before : List ℕ) → HasRead self.old before
            → option_to_list (option_map command_view result)
            ≡ map command_of (requests_in before (byte ∷ [])) }
    {
        let request = completed_request(self.started, byte);
        self.started = after_byte(self.started, byte);
        Some(command_of(request?))
    }
}
