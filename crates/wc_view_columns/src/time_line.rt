ghost use Rattle.std.specs.Prelude.{◌≡◌, ◌≤◌, ◌<◌, ◌+◌, ◌-◌, ◌^◌, List, [], ◌∷◌, ◌++◌, IfOk, length, replicate, vec_capacity};
ghost use Rattle.wc_view_columns.specs.Held.{Held, IsStateOf};
ghost use Rattle.wc_view_columns.specs.Rows.{AreFrom, AreHalved, IsPairOf, Row, column_number, holding, left_by};
ghost use Rattle.wc_view_columns.specs.TimeLines.{AreColumns, IsAsNarrow, IsTimeLineOf, KeepsColumns, row_at};

use crate::line::{COLUMNS, Column, TimeLine};
use crate::state::State;
use std::alloc::{AllocError, Global};

/// The column of that number and the one after it, if there is one, as one.
fn pair_at(columns: &[Column], index: usize) -> Column
    requires { index < length columns.now }
    ensures { IsPairOf columns.now index result }
{
    let first = &columns[index];
    match columns.get(index + 1) {
        Some(second) => first.merge(second),
        None => *first,
    }
}

/// Makes one column of two, for all of them.
fn pair_up(columns: &mut Vec<Column>)
    ensures halved { AreHalved columns.old.items columns.new.items }
    ensures capacity { vec_capacity columns.new ≡ vec_capacity columns.old }
{
    let half = columns.len().div_ceil(2);
    for index in 0..half {
        let pair = pair_at(columns, 2 * index);
        columns[index] = pair;
    }
    columns.truncate(half);
}

/// Adds columns up to a count, in which what held still holds.
fn fill(columns: &mut Vec<Column>, count: usize, held: &State)
    requires { count ≤ vec_capacity columns.old }
    ensures columns { let more = count - length columns.old.items in
        columns.new.items ≡ columns.old.items ++ replicate more (holding held.now) }
    ensures capacity { vec_capacity columns.new ≡ vec_capacity columns.old }
{
    for _number in columns.len()..count {
        columns.push_reserved(Column::holding(*held));
    }
}

impl TimeLine {
    /// Before the first row, with space for all columns.
    pub fn new(alloc: Global) -> Result<TimeLine, AllocError>
        ensures { IfOk result (λ line. IsTimeLineOf [] line) }
    {
        let columns = Vec::with_capacity(alloc, COLUMNS)?;
        Ok(TimeLine {
            columns,
            start: 0,
            power: 0,
            held: None,
        })
    }

    /// The columns, first to last.
    pub fn columns(&self) -> &[Column]
        ensures few { length result.now ≤ 720 }
        ensures all { result.now ≡ self.now.columns.items }
    {
        &self.columns
    }

    /// The first time in milliseconds.
    pub fn start(&self) -> u64
        ensures { result ≡ self.now.start }
    {
        self.start
    }

    /// The number of milliseconds a column has.
    pub fn width(&self) -> u64
        ensures { result ≡ 2 ^ self.now.power }
    {
        1_u64 << self.power
    }

    /// The number of the column of a time.
    fn number(&self, ms: u64) -> u64
        ensures { result ≡ column_number self.now.start self.now.power ms }
    {
        ms.saturating_sub(self.start) >> self.power
    }

    /// Makes the columns twice as wide.
    fn halve(&mut self)
        requires { self.old.power < 63 }
        ensures columns { KeepsColumns self.old self.new }
        ensures power { self.new.power ≡ self.old.power + 1 }
        ensures start { self.new.start ≡ self.old.start }
    {
        pair_up(&mut self.columns);
        self.power += 1;
    }

    /// Makes the columns so wide that a time has one.
    fn reach(&mut self, ms: u64)
        ensures columns { KeepsColumns self.old self.new }
        ensures within { column_number self.new.start self.new.power ms < 720 }
        ensures power { IsAsNarrow ms self.old self.new }
        ensures start { self.new.start ≡ self.old.start }
    {
        while self.number(ms) >= COLUMNS as u64 {
            self.halve();
        }
    }

    /// Takes the first row.
    fn begin(&mut self, ms: u64, row: &Column)
        ensures columns { (held : Held) → IsStateOf (held ∷ []) row.now.state
            → AreColumns (row_at ms held row.now ∷ []) self.new }
        ensures power { self.new.power ≡ self.old.power }
        ensures start { self.new.start ≡ ms }
    {
        self.start = ms;
        self.columns.clear();
        self.columns
            .push_reserved(Column::holding(row.state).merge(row));
    }

    /// Takes a row before which this held.
    fn follow(&mut self, ms: u64, held: &State, row: &Column)
        ensures columns { (rows : List Row) (after : Held) → AreColumns rows self.old
            → AreFrom self.old.start (rows ++ (row_at ms after row.now ∷ []))
            → IsStateOf (left_by rows) held.now → IsStateOf (after ∷ []) row.now.state
            → AreColumns (rows ++ (row_at ms after row.now ∷ [])) self.new }
        ensures power { IsAsNarrow ms self.old self.new }
        ensures start { self.new.start ≡ self.old.start }
    {
        self.reach(ms);
        let index = self.number(ms) as usize;
        fill(&mut self.columns, index + 1, held);
        let column = self.columns[index].merge(row);
        self.columns[index] = column;
    }

    /// Takes a row: what holds after it, and what happened at it.
    pub fn take(&mut self, ms: u64, row: Column)
        ensures { (rows : List Row) (held : Held) → IsTimeLineOf rows self.old
            → AreFrom 0 (rows ++ (row_at ms held row ∷ []))
            → IsStateOf (held ∷ []) row.state
            → IsTimeLineOf (rows ++ (row_at ms held row ∷ [])) self.new }
    {
        match self.held {
            Some(held) => self.follow(ms, &held, &row),
            None => self.begin(ms, &row),
        }
        self.held = Some(row.state);
    }
}
