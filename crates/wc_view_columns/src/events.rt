ghost use Rattle.std.specs.Prelude.{◌≡◌, ◌+◌, ◌≤◌, ℕ, [], ◌∷◌, ◌++◌, List, drop, length, max};
ghost use Rattle.wc_model.specs.Instrument.Requests.{requests_in};
ghost use Rattle.wc_sma.specs.Feeding.{HasRead};
ghost use Rattle.wc_view_columns.specs.Followed.{AreCounted, HasFollowed, IsMarked, after_answer, is_refusal};
ghost use Rattle.wc_view_columns.specs.Rows.{AreBoth, counted, nothing};
ghost use Rattle.wc_view_columns.specs.declared.events.Request.{Request};
ghost use Rattle.wc_view_decode.specs.AnswerBytes.{IsFirstAnswer};

use wc_sma::{Command, RequestReader, Status};
use wc_view_decode::{LineAnswer, answer_length, first_answer};

/// A request of the line that was answered.
#[derive(Clone, Copy)]
pub struct Request {
    /// The timestamp of its end in milliseconds.
    pub ms: u64,
    pub command: Command,
    /// Its answer, if one could be read.
    pub answer: Option<LineAnswer>,
}

/// Whether an answer says that its command was refused.
fn is_refusal(answer: Option<LineAnswer>) -> bool
    ensures { result ≡ is_refusal answer }
{
    match answer {
        Some(LineAnswer::Weight(reading)) => {
            matches!(reading.status, Status::ZeroRefused | Status::TareRefused)
        }
        _ => false,
    }
}

/// What happened in some time.
#[derive(Clone, Copy, Default)]
pub struct Events {
    /// How often a zero or a tare was set, each refused, and the tare cleared.
    pub zeros: u32,
    pub zeros_refused: u32,
    pub tares: u32,
    pub tares_refused: u32,
    pub clears: u32,
    /// How often the program was changed.
    pub changes: u32,
    /// When the last of these was, in milliseconds.
    pub marked: Option<u64>,
    pub scans: u32,
    /// The steps of the longest scan.
    pub steps: u32,
    pub requests: u32,
    pub last: Option<Request>,
}

impl Events {
    /// Nothing.
    pub fn none() -> Events
        ensures none { result ≡ nothing }
        ensures counts { AreCounted [] result }
    {
        Events::default()
    }

    /// These and later ones.
    pub fn merge(&self, later: &Events) -> Events
        ensures steps { result.steps ≡ max self.now.steps later.now.steps }
        ensures both { AreBoth self.now later.now result }
    {
        Events {
            zeros: self.zeros.saturating_add(later.zeros),
            zeros_refused: self.zeros_refused.saturating_add(later.zeros_refused),
            tares: self.tares.saturating_add(later.tares),
            tares_refused: self.tares_refused.saturating_add(later.tares_refused),
            clears: self.clears.saturating_add(later.clears),
            changes: self.changes.saturating_add(later.changes),
            marked: later.marked.or(self.marked),
            scans: self.scans.saturating_add(later.scans),
            steps: self.steps.max(later.steps),
            requests: self.requests.saturating_add(later.requests),
            last: later.last.or(self.last),
        }
    }

    /// One more scan of n steps.
    pub fn scan(&mut self, steps: u32)
        ensures { let scans = counted (self.old.scans + 1) in let most = max self.old.steps steps in
            self.new ≡ record self.old { scans = scans; steps = most } }
    {
        self.scans = self.scans.saturating_add(1);
        self.steps = self.steps.max(steps);
    }

    /// One more request.
    pub(crate) fn request(&mut self, request: Request)
        ensures counts { (requests : List Request) → AreCounted requests self.old
            → AreCounted (requests ++ (request ∷ [])) self.new }
    {
        self.mark(request);
        self.requests = self.requests.saturating_add(1);
        self.last = Some(request);
    }

    /// Counts that a request set a zero or a tare, was refused that, or cleared the tare, and keeps when.
    fn mark(&mut self, request: Request)
        ensures { IsMarked request.ms request.command (is_refusal request.answer) self.old
            self.new }
    {
        let before = self.marked;
        self.marked = Some(request.ms);
        match (request.command, is_refusal(request.answer)) {
            (Command::Zero, true) => self.zeros_refused = self.zeros_refused.saturating_add(1),
            (Command::Zero, false) => self.zeros = self.zeros.saturating_add(1),
            (Command::TakeTare, true) => self.tares_refused = self.tares_refused.saturating_add(1),
            (Command::TakeTare, false) => self.tares = self.tares.saturating_add(1),
            (Command::Clear, _) => self.clears = self.clears.saturating_add(1),
            _ => self.marked = before,
        }
    }
}

/// Follows the bytes of the line: which requests they complete, and how each was answered.
#[derive(Clone, Copy)]
pub struct Tracker {
    requests: RequestReader,
}

/// The answer that comes first from a place on, if one can be read, and the place after it.
fn answer_at(answers: &[u8], at: usize) -> (Option<LineAnswer>, usize)
    requires within { at ≤ length answers.now }
    ensures answer { IsFirstAnswer result.0 (drop at answers.now) }
    ensures left { drop result.1 answers.now ≡ after_answer result.0 (drop at answers.now) }
    ensures within { result.1 ≤ length answers.now }
{
    match first_answer(&answers[at..]) {
        Some(answer) => (Some(answer), at + answer_length(&answer)),
        None => (None, at),
    }
}

impl Tracker {
    /// Before the first byte.
    pub fn new() -> Tracker
        ensures { HasRead result.requests [] }
    {
        Tracker {
            requests: RequestReader::new(),
        }
    }

    /// Takes a byte, and adds the request that it completes, with the answer at that place.
    fn take(&mut self, ms: u64, byte: u8, answers: &[u8], at: &mut usize, events: &mut Events)
        requires within { at.old ≤ length answers.now }
        ensures read { (before : List ℕ) → HasRead self.old.requests before
            → HasRead self.new.requests (before ++ (byte ∷ [])) }
        ensures followed { (before : List ℕ) (texts : List (List ℕ))
            → HasRead self.old.requests before
            → HasFollowed ms texts answers.now at.old events.old
            → HasFollowed ms (texts ++ requests_in before (byte ∷ [])) answers.now at.new
            events.new }
        ensures within { at.new ≤ length answers.now }
    {
        let Some(command) = self.requests.take(byte) else {
            return;
        };
        let (answer, left) = answer_at(answers, *at);
        *at = left;
        events.request(Request {
            ms,
            command,
            answer,
        });
    }

    /// Takes the bytes of a row and the answers to the requests that they complete.
    pub fn follow(&mut self, ms: u64, bytes: &[u8], answers: &[u8]) -> Events
        ensures read { (before : List ℕ) → HasRead self.old.requests before
            → HasRead self.new.requests (before ++ bytes.now) }
        ensures followed { (before : List ℕ) → HasRead self.old.requests before
            → (at : ℕ) × HasFollowed ms (requests_in before bytes.now) answers.now at result }
    {
        let mut events = Events::none();
        let mut at = 0_usize;
        for byte in bytes {
            self.take(ms, *byte, answers, &mut at, &mut events);
        }
        events
    }
}
