ghost use Rattle.std.specs.Prelude.{◌∷◌, []};
ghost use Rattle.wc_model.specs.Instrument.Answers as answers;
ghost use Rattle.wc_indicator.specs.Kept.{Reports};
ghost use Rattle.wc_sma.specs.Replies.{mode_view, asked_view};

use crate::weight::weight_field;
use wc_indicator::Indicator;

/// Which weight is asked for.
#[derive(Clone, Copy, PartialEq, Eq)]
pub enum Mode {
    Shown,
    Tare,
}

/// What an answer is to.
#[derive(Clone, Copy, PartialEq, Eq)]
pub enum RequestOutcome {
    /// A question, or a command that was accepted.
    Plain,
    ZeroRefused,
    TareRefused,
}

/// The status of the scale.
fn scale_status(indicator: &Indicator) -> u8
    ensures { Reports answers.scale_status indicator.now (result ∷ []) }
{
    if indicator.over() {
        b'O'
    } else if indicator.under() {
        b'U'
    } else if !indicator.valid() {
        b'I'
    } else if indicator.centre() {
        b'Z'
    } else {
        b' '
    }
}

/// The status of an answer.
fn status_byte(indicator: &Indicator, asked: RequestOutcome) -> u8
    ensures { Reports (λ p history. answers.status_byte p history (asked_view asked)) indicator.now
        (result ∷ []) }
{
    match asked {
        RequestOutcome::Plain => scale_status(indicator),
        RequestOutcome::ZeroRefused => b'E',
        RequestOutcome::TareRefused => b'T',
    }
}

/// Gross, net or tare.
fn mode_byte(indicator: &Indicator, mode: Mode) -> u8
    ensures { Reports (λ p history. answers.mode_byte p history (mode_view mode)) indicator.now
        (result ∷ []) }
{
    match mode {
        Mode::Shown if indicator.tare_active() => b'N',
        Mode::Shown => b'G',
        Mode::Tare => b'T',
    }
}

/// In motion, or not.
fn motion_byte(indicator: &Indicator) -> u8
    ensures { Reports answers.motion_byte indicator.now (result ∷ []) }
{
    if indicator.stable() { b' ' } else { b'M' }
}

/// The weight that is asked for, if there is an indication.
fn weight_asked(indicator: &Indicator, mode: Mode) -> Option<i32>
    ensures { Reports
        (λ p history. answers.weight_asked p history (mode_view mode)) indicator.now result }
{
    match mode {
        Mode::Shown => indicator.shown(),
        Mode::Tare if indicator.valid() => Some(indicator.tare_value()),
        Mode::Tare => None,
    }
}

/// The twenty bytes of an answer: line feed, status, `1`, mode, motion, space, ten of weight, three of unit, carriage
/// return.
pub fn answer(indicator: &Indicator, mode: Mode, asked: RequestOutcome) -> [u8; 20]
    ensures { Reports
        (λ p history. answers.answer p history (mode_view mode) (asked_view asked))
        indicator.now result }
{
    let weight = weight_field(
        indicator.plate().decimals() as u32,
        weight_asked(indicator, mode),
    );
    let [first, second, third] = indicator.plate().unit();
    let status = status_byte(indicator, asked);
    let letter = mode_byte(indicator, mode);
    let motion = motion_byte(indicator);
    let mut bytes = [
        b'\n', status, b'1', letter, motion, b' ', b' ', b' ', b' ', b' ', b' ', b' ', b' ', b' ',
        b' ', b' ', first, second, third, b'\r',
    ];
    bytes[6..16].copy_from_slice(&weight);
    bytes
}
