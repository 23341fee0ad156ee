ghost use Rattle.std.specs.Prelude.{◌≡◌, ◌<◌, ◌≤◌, ◌++◌, List, vec_capacity, vec_len};
ghost use Rattle.wc_view_columns.specs.Rows.{AreBoth, holding};
ghost use Rattle.wc_view_columns.specs.Held.{Held, IsStateOf};

use crate::events::Events;
use crate::state::State;

/// What is kept of the time of a column.
#[derive(Clone, Copy)]
pub struct Column {
    pub state: State,
    pub events: Events,
}

impl Column {
    /// In which this held, and nothing happened.
    pub(crate) fn holding(state: State) -> Column
        ensures { result ≡ holding state }
    {
        Column {
            state,
            events: Events::none(),
        }
    }

    /// The column of this time and of the time after it.
    pub fn merge(&self, later: &Column) -> Column
        ensures state { (held others : List Held) → IsStateOf held self.now.state
            → IsStateOf others later.now.state → IsStateOf (held ++ others) result.state }
        ensures events { AreBoth self.now.events later.now.events result.events }
    {
        Column {
            state: self.state.merge(&later.state),
            events: self.events.merge(&later.events),
        }
    }
}

/// The greatest number of columns.
pub const COLUMNS: usize = 720;

/// The time of a log in columns of one width, of which there are never more than `COLUMNS`: if a time is past the last,
/// two become one.
#[derive(Drop)]
pub struct TimeLine {
    pub(crate) columns: Vec<Column>,
    /// The first time in milliseconds.
    pub(crate) start: u64,
    /// A column has 2 to this power milliseconds.
    pub(crate) power: u32,
    /// What holds since the last row.
    pub(crate) held: Option<State>,
    ghost few: { vec_len columns ≤ 720 },
    ghost space: { 720 ≤ vec_capacity columns },
    ghost narrow: { power < 64 },
}
