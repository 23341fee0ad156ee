ghost use Rattle.std.specs.Prelude.{◌≡◌, ℕ, List, [], ◌∷◌, ◌++◌, Option, option_map};
ghost use Rattle.wc_model.specs.Instrument.Requests.{opened_by};
ghost use Rattle.wc_model.specs.Instrument.Answers as answers;
ghost use Rattle.wc_sma.specs.Seen.{seen_in, asked_by, command_view};

/// What the line knows of a request's text so far.
#[derive(Clone, Copy, PartialEq, Eq)]
pub(crate) enum RequestStart {
    Nothing,
    /// This byte alone.
    One(u8),
    /// More bytes than a request's text can have that is known.
    More,
}

/// What a request asks of the indicator.
#[derive(Clone, Copy, PartialEq, Eq)]
pub enum Command {
    /// The weight that is shown.
    AskWeight,
    /// Set zero.
    Zero,
    TakeTare,
    /// The tare value.
    AskTare,
    Clear,
    /// It is not a request that the line knows.
    Unknown,
}

/// What is known of the text with one byte more.
fn with_byte(seen: RequestStart, byte: u8) -> RequestStart
    ensures { (text : List ℕ) → seen ≡ seen_in text → result ≡ seen_in (text ++ (byte ∷ [])) }
{
    match seen {
        RequestStart::Nothing => RequestStart::One(byte),
        RequestStart::One(_) | RequestStart::More => RequestStart::More,
    }
}

/// What one more byte makes of the request that is open.
pub(crate) fn after_byte(started: Option<RequestStart>, byte: u8) -> Option<RequestStart>
    ensures { (text : Option (List ℕ)) → started ≡ option_map seen_in text
        → result ≡ option_map seen_in (opened_by byte text) }
{
    match byte {
        b'\n' => Some(RequestStart::Nothing),
        b'\r' | 0x1b => None,
        _ => Some(with_byte(started?, byte)),
    }
}

/// The command that a letter represents.
fn command_of_letter(letter: u8) -> Command
    ensures { command_view result ≡ asked_by (RequestStart.One letter) }
{
    match letter {
        b'W' => Command::AskWeight,
        b'Z' => Command::Zero,
        b'T' => Command::TakeTare,
        b'M' => Command::AskTare,
        b'C' => Command::Clear,
        _ => Command::Unknown,
    }
}

/// The command that a request's text spells.
pub(crate) fn command_of(seen: RequestStart) -> Command
    ensures { (text : List ℕ) → seen ≡ seen_in text → command_view result
        ≡ answers.command_of text }
{
    match seen {
        RequestStart::One(letter) => command_of_letter(letter),
        RequestStart::Nothing | RequestStart::More => Command::Unknown,
    }
}
