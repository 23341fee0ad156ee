ghost use Rattle.std.specs.Prelude.{◌≡◌, ◌<◌, ◌∷◌, ◌++◌, ℕ, List, None, OnOk, Option, get_or, is_some, option_map};
ghost use Rattle.wc_model.specs.Definitions.{PlateData, Past, line_bytes, Logic, answer_line};
ghost use Rattle.wc_run.specs.{logic_after, IsShown, lines_of_scan, row_of, Represents};
ghost use Rattle.wc_sma.specs.Feeding.{HasRead};
ghost use Rattle.wc_view_picture.specs.Seen.{AreNamesOf, HasHappened, HasSeen, IsNew, list_of, most_at, most_of, most_with, numbers_after, replaced_at};

use crate::drawing::draw;
use crate::rows::{change_of, inputs_after, keep, outputs_after, scan_of, steps_after};
use crate::view::{ScanSteps, View};
use std::alloc::{AllocError, Global};
use wc_cost::Loaded;
use wc_model::{ByteOut, Outputs};
use wc_plate::Plate;
use wc_record::HeadKind;
use wc_run::{LogScale, Observer, Program, RowSeen, RunFault, write_text};
use wc_store::SlotStore;
use wc_view_columns::{Column, Events, State, TimeLine, Tracker};
use wc_view_watch::WatchedNames;

/// Observes a run, and after its rows writes a picture of it. What is kept of them is allocated at the first one.
#[derive(Drop)]
pub(crate) struct Picture<'n> {
    alloc: Global,
    /// The names of the variables that are drawn, if there are any, and what they mean.
    list: Option<&'n [u8]>,
    pub(crate) names: WatchedNames<'n>,
    line: Option<TimeLine>,
    plate: Option<Plate>,
    inputs: u16,
    outputs: Outputs,
    /// The steps of the program that runs, if there is one.
    running: Option<ScanSteps>,
    /// The steps of the one that it replaced.
    before: Option<ScanSteps>,
    /// The bound of the one that may replace it.
    next_bound: u32,
    tracker: Tracker,
    rows: u32,
}

/// The bound of a program, which is the last unit of its text.
fn program_bound(loaded: &Loaded<'_>) -> u32 {
    match loaded.units() {
        0 => 0,
        units => loaded.bound(units - 1),
    }
}

impl<'n> Picture<'n> {
    /// Before the first row, of a run of which the variables of these names are drawn. It takes no memory.
    pub(crate) fn new(alloc: Global, list: Option<&'n [u8]>) -> Picture<'n>
        ensures new { IsNew result }
        ensures names { list_of result ≡ option_map (λ list. list.now) list.entry }
    {
        Picture {
            alloc,
            list,
            names: WatchedNames::new(alloc),
            line: None,
            plate: None,
            inputs: 0,
            outputs: Outputs {
                bits: 0,
                words: [0; 4],
            },
            running: None,
            before: None,
            next_bound: 0,
            tracker: Tracker::new(),
            rows: 0,
        }
    }

    /// What happened at a row.
    fn events(&mut self, seen: &RowSeen<'_>) -> Events
        ensures happened { (plate : PlateData) (logic : Option Logic) (past : Past)
            → IsShown seen.now plate logic past
            → HasRead self.old.tracker.requests (line_bytes past)
            → is_some self.old.running ≡ is_some logic
            → HasHappened plate logic past (row_of seen.now) (row_of seen.now).brings result }
        ensures read { (past : Past) → HasRead self.old.tracker.requests (line_bytes past)
            → HasRead self.new.tracker.requests (line_bytes (row_of seen.now ∷ past)) }
        ensures same { self.new ≡ record self.old { tracker = self.new.tracker } }
    {
        match seen.row.kind {
            HeadKind::Bytes => self.tracker.follow(seen.row.ms, seen.bytes, seen.answer),
            HeadKind::Scan => scan_of(&seen.scan),
            HeadKind::Change => change_of(self.running.is_some(), seen.row.ms),
            HeadKind::Counts(_) | HeadKind::Inputs(_) => Events::none(),
        }
    }

    /// At a change of the program the next one takes the place of the first. Counts the steps of a row's scan, for the program that
    /// then runs.
    fn turn(&mut self, seen: &RowSeen<'_>)
        ensures same { let running = self.new.running in let before = self.new.before in
            self.new ≡ record self.old { running = running; before = before } }
        ensures runs { (ms : ℕ) (answer : List ℕ) → most_of self.new.running
            ≡ option_map (most_with (answer_line ms answer ++ lines_of_scan seen.now.scan))
            (option_map (most_at (row_of seen.now).brings) (most_of self.old.running)) }
        ensures replaced { most_of self.new.before ≡ replaced_at (row_of seen.now).brings
            (most_of self.old.running) (most_of self.old.before) }
    {
        if let (HeadKind::Change, Some(_)) = (seen.row.kind, self.running) {
            self.before = self.running;
            let (most, bound) = (0, self.next_bound);
            self.running = Some(ScanSteps { most, bound });
        }
        self.running = steps_after(&seen.scan, self.running);
    }

    /// The numbers of the variables that are drawn.
    fn numbers(&self, scale: &LogScale<'_, SlotStore>) -> [Option<i64>; 4]
        ensures { (plate : PlateData) (logic : Option Logic) (past : Past)
            → Represents scale.now plate logic past
            → AreNamesOf (list_of self.now) self.now.names (logic_after plate logic past)
            → (i : ℕ) → i < 4 → get_or result i None
            ≡ get_or (numbers_after (list_of self.now) plate logic past) i None }
    {
        match self.list {
            Some(_) => self.names.numbers(scale.machine()),
            None => [None; 4],
        }
    }

    /// Keeps what a row brought.
    fn follow(
        &mut self,
        seen: &RowSeen<'_>,
        scale: &LogScale<'_, SlotStore>,
    ) -> Result<(), AllocError>
        ensures seen { OnOk result ((plate : PlateData) (logic : Option Logic) (past : Past)
            → IsShown seen.now plate logic past
            → Represents scale.now plate logic (row_of seen.now ∷ past)
            → HasSeen self.old plate logic past
            → HasSeen self.new plate logic (row_of seen.now ∷ past)) }
    {
        let indicator = scale.indicator();
        let events = self.events(seen);
        self.turn(seen);
        self.names.turn(seen);
        self.inputs = inputs_after(seen.row.kind, self.inputs);
        self.outputs = outputs_after(&seen.scan, self.outputs);
        self.rows = self.rows.saturating_add(1);
        self.plate = Some(*indicator.plate());
        let state = State::at(indicator, self.inputs, &self.outputs, self.numbers(scale));
        let row = Column { state, events };
        keep(self.alloc, &mut self.line, seen.row.ms, row)
    }
}

impl<W: ByteOut> Observer<SlotStore, W> for Picture<'_> {
    ghost use Rattle.std.specs.Prelude.{◌≡◌, ⊤, false};
    ghost use Rattle.wc_run.specs.Reports.{silent_plan};
    ghost use Rattle.wc_view_picture.specs.Seen.{HasRefused, HasSeen, IsNew, begins_with, list_of};

    ghost settings = { λ _. tt };

    ghost plan = { λ picture. silent_plan };

    ghost begins = { λ picture logic. begins_with (list_of picture) logic };

    ghost has_refused = { λ old new logic. HasRefused (list_of old) new logic };

    ghost is_new = { λ picture. IsNew picture };

    ghost has_seen = { λ picture plate logic past. HasSeen picture plate logic past };

    ghost looks = { λ picture ms looked. looked ≡ false };

    ghost has_ended = { λ _ _ _ _ _ _ _ _. ⊤ };

    ghost speaks = { false };

    fn begin(
        &mut self,
        first: Option<Program<'_, '_>>,
        next: Option<Program<'_, '_>>,
    ) -> Result<(), RunFault> {
        if let Some(first) = first {
            let bound = program_bound(first.loaded);
            self.running = Some(ScanSteps { most: 0, bound });
        }
        if let Some(next) = next {
            self.next_bound = program_bound(next.loaded);
        }
        match self.list {
            Some(list) => self.names.begin(self.alloc, list, first, next),
            None => Ok(()),
        }
    }

    fn looks_at(&self, _ms: u64) -> bool {
        false
    }

    fn see(
        &mut self,
        seen: &RowSeen<'_>,
        scale: &LogScale<'_, SlotStore>,
        _writer: &mut W,
    ) -> Result<(), RunFault> {
        Ok(self.follow(seen, scale)?)
    }

    fn end(&mut self, refused: Option<(u16, u32)>, writer: &mut W) -> Result<(), RunFault> {
        let names = self.list.unwrap_or(b"");
        let line = self.line.as_ref();
        let view = View::new(line, self.plate, self.before, self.running, names);
        let text = draw(self.alloc, &view, self.rows, refused)?;
        write_text(text.as_bytes(), writer)
    }
}
