ghost use Rattle.std.specs.Prelude.{◌≡◌, ◌++◌, [], ◌∷◌, not, filter, IfOk, List, Some, None};
ghost use Rattle.wc_view_columns.specs.Columns.{AreOf, HasHappened, HasHeld, IsLevelOf, IsOfAll, IsWholeOf, level_of, all_lanes, is_shown};
ghost use Rattle.wc_view_columns.specs.Rows.{AreBoth};
ghost use Rattle.wc_view_columns.specs.Held.{Held, IsStateOf};
ghost use Rattle.wc_view_columns.specs.declared.line.Column.{Column};
ghost use Rattle.wc_view_columns.specs.declared.events.Events.{Events};

use crate::bits::Level;
use crate::line::Column;
use Lane::{Input, Invalid, Motion, Output, Over, Requests, Scans, Under, Variable, Word};
use std::alloc::{AllocError, Global};

/// What is shown of columns besides their weights.
#[derive(Clone, Copy)]
pub enum Lane {
    Motion,
    Over,
    Under,
    Invalid,
    Requests,
    /// `%IX0` of that number.
    Input(u32),
    /// `%QX0` of that number.
    Output(u32),
    /// `%QD` of that number.
    Word(usize),
    /// The variable of that number, counted from 0.
    Variable(usize),
    Scans,
}

/// High if it is so, else low.
fn level_of(is_so: bool) -> Level
    ensures { result ≡ level_of is_so (not is_so) }
{
    if is_so { Level::High } else { Level::Low }
}

impl Lane {
    /// What it is in a column, if it has two values.
    pub fn level(self, column: &Column) -> Level
        ensures { IsLevelOf self column.now result }
    {
        match self {
            Lane::Motion => level_of(column.state.motion),
            Lane::Over => level_of(column.state.over),
            Lane::Under => level_of(column.state.under),
            Lane::Invalid => level_of(column.state.invalid),
            Lane::Input(number) => column.state.inputs.level(number),
            Lane::Output(number) => column.state.outputs.level(number),
            _ => Level::Low,
        }
    }

    /// Whether something is to be seen in it: something held or happened, or a value changed.
    fn is_shown(self, all: &Column) -> bool
        ensures { result ≡ is_shown all.now self }
    {
        match self {
            Lane::Motion => all.state.motion,
            Lane::Over => all.state.over,
            Lane::Under => all.state.under,
            Lane::Invalid => all.state.invalid,
            Lane::Requests => all.events.requests != 0,
            Lane::Input(number) => matches!(all.state.inputs.level(number), Level::Both),
            Lane::Output(number) => matches!(all.state.outputs.level(number), Level::Both),
            Lane::Word(number) => match all.state.words.get(number) {
                Some(word) => word.varies(),
                None => false,
            },
            Lane::Variable(number) => match all.state.variables.get(number) {
                Some(variable) => variable.is_some(),
                None => false,
            },
            Lane::Scans => all.events.scans != 0,
        }
    }
}

/// Columns and one more as one.
fn with_column(all: Option<Column>, column: &Column) -> Column
    ensures first { all ≡ None → result ≡ column.now }
    ensures more { (before : Column) (held others : List Held) → all ≡ Some before
        → IsStateOf held before.state → IsStateOf others column.now.state
        → IsStateOf (held ++ others) result.state }
    ensures events { (before : Column) → all ≡ Some before
        → AreBoth before.events column.now.events result.events }
{
    match all {
        Some(all) => all.merge(column),
        None => *column,
    }
}

/// All columns as one; none if there are none.
pub fn whole(columns: &[Column]) -> Option<Column>
    ensures held { (held : List (List Held)) → AreOf HasHeld held columns.now
        → IsWholeOf result held }
    ensures events { (events : List (List Events)) → AreOf HasHappened events columns.now
        → IsOfAll HasHappened result events }
{
    let mut all: Option<Column> = None;
    for column in columns {
        all = Some(with_column(all, column));
    }
    all
}

/// Lanes: some, those of each kind of which there are several, by their numbers, and others.
macro_rules! lanes {
    ([$($first:ident)*] $($kind:ident $($number:literal)*;)* [$($last:ident)*]) => {
        [$($first,)* $($($kind($number),)*)* $($last,)*]
    };
}

/// All lanes, from above.
const LANES: [Lane; 46] = lanes! {
    [Motion Over Under Invalid Requests]
    Input 0 1 2 3 4 5 6 7 8 9 10 11 12 13 14 15;
    Output 0 1 2 3 4 5 6 7 8 9 10 11 12 13 14 15;
    Word 0 1 2 3;
    Variable 0 1 2 3;
    [Scans]
};

/// All lanes.
fn all_lanes() -> [Lane; 46]
    ensures { result ≡ all_lanes }
{
    LANES
}

/// Adds a lane, if something is to be seen in it.
fn add(shown: &mut Vec<Lane>, all: &Column, lane: Lane) -> Result<(), AllocError>
    ensures { IfOk result
        (λ _. shown.new.items ≡ shown.old.items ++ filter (is_shown all.now) (lane ∷ [])) }
{
    if lane.is_shown(all) {
        shown.push(lane)?;
    }
    Ok(())
}

/// The lanes in which something is to be seen, from above.
pub fn lanes_of(alloc: Global, all: &Column) -> Result<Vec<Lane>, AllocError>
    ensures { IfOk result (λ lanes. lanes.items ≡ filter (is_shown all.now) all_lanes) }
{
    let mut shown = Vec::new(alloc);
    let lanes = all_lanes();
    for lane in &lanes {
        add(&mut shown, all, *lane)?;
    }
    Ok(shown)
}
