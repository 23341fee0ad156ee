ghost use Rattle.std.specs.Prelude.{◌≡◌, ◌<◌, ℕ, ℤ, pos, List, [], ◌∷◌, ◌++◌, Option, Some, None, get_or, if◌then◌else◌, option_to_list};
ghost use Rattle.wc_view_columns.specs.Held.{Held, IsStateOf, held_at, span_of};
ghost use Rattle.wc_view_columns.specs.declared.span.NumberSpan.{NumberSpan};
ghost use Rattle.wc_indicator.specs.Kept.{RepresentsHistory, Reports};
ghost use Rattle.wc_model.specs.Instrument.Indication as indication;
ghost use Rattle.wc_model.specs.Definitions.{PlateData, History};

use crate::bits::Bits;
use crate::span::{NumberSpan, join};
use wc_indicator::Indicator;
use wc_model::Outputs;

/// What held at a moment, or over some of them: it holds on until a row changes it.
#[derive(Clone, Copy, PartialEq, Eq)]
pub struct State {
    /// The gross weight, if it was valid.
    pub gross: Option<NumberSpan>,
    /// The net weight, if it was valid and a tare was active.
    pub net: Option<NumberSpan>,
    /// The scale was not stable.
    pub motion: bool,
    pub over: bool,
    pub under: bool,
    /// There was no valid weight.
    pub invalid: bool,
    pub inputs: Bits,
    pub outputs: Bits,
    pub words: [NumberSpan; 4],
    /// The numbers of the variables that are drawn: none of one that no program has, or is not there.
    pub variables: [Option<NumberSpan>; 4],
}

/// The span of one word.
fn word_span(word: i32) -> NumberSpan
    ensures { Some result ≡ span_of (word ∷ []) }
{
    NumberSpan::at(i64::from(word))
}

/// The spans of four words.
fn words_of(outputs: &Outputs) -> [NumberSpan; 4]
    ensures { (other : NumberSpan) (i : ℕ) → i < 4
        → Some (get_or result i other) ≡ span_of (get_or outputs.now.words i (pos 0) ∷ []) }
{
    let words = &outputs.words;
    [
        word_span(words[0]),
        word_span(words[1]),
        word_span(words[2]),
        word_span(words[3]),
    ]
}

/// The spans of the numbers of four variables.
fn variables_of(numbers: [Option<i64>; 4]) -> [Option<NumberSpan>; 4]
    ensures { (i : ℕ) → i < 4
        → get_or result i None ≡ span_of (option_to_list (get_or numbers i None)) }
{
    let [first, second, third, fourth] = numbers;
    [
        NumberSpan::of(first),
        NumberSpan::of(second),
        NumberSpan::of(third),
        NumberSpan::of(fourth),
    ]
}

/// The spans of the numbers of some variables and then of others.
fn merge_variables(
    earlier: [Option<NumberSpan>; 4],
    later: [Option<NumberSpan>; 4],
) -> [Option<NumberSpan>; 4]
    ensures { (numbers others : ℕ → List ℤ)
        → ((i : ℕ) → i < 4 → get_or earlier i None ≡ span_of (numbers i))
        → ((i : ℕ) → i < 4 → get_or later i None ≡ span_of (others i))
        → (i : ℕ) → i < 4 → get_or result i None ≡ span_of (numbers i ++ others i) }
{
    [
        join(earlier[0], later[0]),
        join(earlier[1], later[1]),
        join(earlier[2], later[2]),
        join(earlier[3], later[3]),
    ]
}

/// A weight with 64 bits.
fn wide_weight(weight: Option<i32>) -> Option<i64>
    ensures { result ≡ weight }
{
    Some(i64::from(weight?))
}

/// The spans of some words and then of others.
fn merge_words(earlier: [NumberSpan; 4], later: [NumberSpan; 4]) -> [NumberSpan; 4]
    ensures { (words others : ℕ → List ℤ)
        → ((other : NumberSpan) (i : ℕ) → i < 4 → Some (get_or earlier i other) ≡ span_of (words i))
        → ((other : NumberSpan) (i : ℕ) → i < 4 → Some (get_or later i other) ≡ span_of (others i))
        → (other : NumberSpan) (i : ℕ) → i < 4
        → Some (get_or result i other) ≡ span_of (words i ++ others i) }
{
    [
        earlier[0].merge(later[0]),
        earlier[1].merge(later[1]),
        earlier[2].merge(later[2]),
        earlier[3].merge(later[3]),
    ]
}

/// The net weight while a tare is active.
fn net_of(indicator: &Indicator) -> Option<i32>
    ensures { Reports
        (λ p history.
        if indication.is_tare_active p history then indication.net p history else None)
        indicator.now result }
{
    if indicator.tare_active() {
        indicator.net()
    } else {
        None
    }
}

impl State {
    /// What holds at an indicator, with these inputs and outputs, and these numbers of variables.
    pub fn at(
        indicator: &Indicator,
        inputs: u16,
        outputs: &Outputs,
        variables: [Option<i64>; 4],
    ) -> State
        ensures { (p : PlateData) (history : History) (numbers : List (Option ℤ))
            → RepresentsHistory indicator.now p history
            → ((i : ℕ) → i < 4 → get_or variables i None ≡ get_or numbers i None)
            → IsStateOf (held_at p history inputs outputs.now numbers ∷ []) result }
    {
        State {
            gross: NumberSpan::of(wide_weight(indicator.gross())),
            net: NumberSpan::of(wide_weight(net_of(indicator))),
            motion: !indicator.stable(),
            over: indicator.over(),
            under: indicator.under(),
            invalid: !indicator.valid(),
            inputs: Bits::at(inputs),
            outputs: Bits::at(outputs.bits),
            words: words_of(outputs),
            variables: variables_of(variables),
        }
    }

    /// What held over these moments and later ones.
    pub(crate) fn merge(&self, later: &State) -> State
        ensures { (held others : List Held) → IsStateOf held self.now → IsStateOf others later.now
            → IsStateOf (held ++ others) result }
    {
        State {
            gross: join(self.gross, later.gross),
            net: join(self.net, later.net),
            motion: self.motion | later.motion,
            over: self.over | later.over,
            under: self.under | later.under,
            invalid: self.invalid | later.invalid,
            inputs: self.inputs.merge(later.inputs),
            outputs: self.outputs.merge(later.outputs),
            words: merge_words(self.words, later.words),
            variables: merge_variables(self.variables, later.variables),
        }
    }
}
