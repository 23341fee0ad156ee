// The fields of an answer, read back from their letters.
ghost use Rattle.std.specs.Prelude.{◌≡◌, ◌↔◌, Bool, Some, [], ◌∷◌};
ghost use Rattle.wc_model.specs.Instrument.Answers as answers;
ghost use Rattle.wc_sma.specs.Letters.{LettersAreAnswers, kind_letter, motion_letter, status_letter, unit_letters};
ghost use Rattle.wc_sma.specs.Seen.{command_view};
ghost use Rattle.wc_sma.specs.declared.command.Command.TheVariants.{Unknown};
ghost use Rattle.wc_sma.specs.declared.letters.MassUnit.{MassUnit};
ghost use Rattle.wc_sma.specs.declared.letters.Status.{Status};
ghost use Rattle.wc_sma.specs.declared.letters.WeightKind.{WeightKind};

use crate::command::Command;

/// The status that an answer gives.
#[derive(Clone, Copy)]
pub enum Status {
    /// There is an indication, and it is not at the centre of zero.
    Normal,
    /// The gross weight is within a quarter of an interval of zero.
    CentreOfZero,
    Over,
    /// Too far below zero.
    Under,
    NoSample,
    ZeroRefused,
    TareRefused,
}

/// Which weight an answer gives.
#[derive(Clone, Copy)]
pub enum WeightKind {
    Gross,
    Net,
    Tare,
}

/// The unit of mass of an answer's weight.
#[derive(Clone, Copy)]
pub enum MassUnit {
    Gram,
    Kilogram,
    Tonne,
}

impl Status {
    /// The status of this letter, if it is that of one.
    pub fn of_letter(letter: u8) -> Option<Status>
        ensures { (status : Status) → (letter ≡ status_letter status) ↔ (result ≡ Some status) }
    {
        match letter {
            b' ' => Some(Status::Normal),
            b'Z' => Some(Status::CentreOfZero),
            b'O' => Some(Status::Over),
            b'U' => Some(Status::Under),
            b'I' => Some(Status::NoSample),
            b'E' => Some(Status::ZeroRefused),
            b'T' => Some(Status::TareRefused),
            _ => None,
        }
    }
}

impl WeightKind {
    /// The kind of weight of this letter, if it is that of one.
    pub fn of_letter(letter: u8) -> Option<WeightKind>
        ensures { (kind : WeightKind) → (letter ≡ kind_letter kind) ↔ (result ≡ Some kind) }
    {
        match letter {
            b'G' => Some(WeightKind::Gross),
            b'N' => Some(WeightKind::Net),
            b'T' => Some(WeightKind::Tare),
            _ => None,
        }
    }
}

impl MassUnit {
    /// The unit of these three bytes, if they are those of one.
    pub fn of_letters(letters: &[u8]) -> Option<MassUnit>
        ensures { (unit : MassUnit) → (letters.now ≡ unit_letters unit) ↔ (result ≡ Some unit) }
    {
        match letters {
            b"g  " => Some(MassUnit::Gram),
            b"kg " => Some(MassUnit::Kilogram),
            b"t  " => Some(MassUnit::Tonne),
            _ => None,
        }
    }
}

/// Whether the letter of motion is that of stable equilibrium, if it is one.
pub fn stable_of_letter(letter: u8) -> Option<bool>
    ensures { (stable : Bool) → (letter ≡ motion_letter stable) ↔ (result ≡ Some stable) }
{
    match letter {
        b' ' => Some(true),
        b'M' => Some(false),
        _ => None,
    }
}

impl Command {
    /// The letter of the command; `?` for a request that asks for none.
    pub fn letter(self) -> u8
        ensures command { answers.command_of (result ∷ []) ≡ command_view self }
        ensures unknown { self ≡ Unknown → result ≡ 63 }
    {
        match self {
            Command::AskWeight => b'W',
            Command::Zero => b'Z',
            Command::TakeTare => b'T',
            Command::AskTare => b'M',
            Command::Clear => b'C',
            Command::Unknown => b'?',
        }
    }
}

/// The letters are just those of the line's answers: each answer has in each field the letter of what is so, and each
/// letter is that of some answer.
pub fn letters_are_those_of_answers()
    ensures { LettersAreAnswers }
{}
