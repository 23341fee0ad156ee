ghost use Rattle.std.specs.Prelude.{◌≡◌, ◌<◌, OnOk, IfOk, length, IsOkUnless};
ghost use Rattle.wc_model.specs.Language.Kinds.{kind_after_operator};
ghost use Rattle.wc_view_trace_rows.specs.Levels.{after_seen, closed, level_left, level_view, levels_after, levels_at, levels_view, note_said, opened, said_of, written_kind};

use crate::legend::Legend;
use crate::notes::Note;
use std::alloc::Global;
use wc_built_in::kind_after_operator;
use wc_machine::SeenLine;
use wc_model::{Code, Fault, Kind, Operator};

/// What is known of a body while its lines are gone through: the kind of its result, the kinds of those that are put by, and
/// the number of items of the list of its last call that were passed.
#[derive(Drop)]
pub(crate) struct BodyLevel {
    kind: Option<Kind>,
    put_by: Vec<Option<Kind>>,
    items: usize,
}

/// The bodies that are being executed, the program first.
#[derive(Drop)]
pub(crate) struct Levels {
    pub(crate) levels: Vec<BodyLevel>,
}

/// What is said of a row besides its numbers: the kind of the result, the kind of what is written, and the note of the
/// place to which it is written, or of the instance that is called.
#[derive(Clone, Copy)]
pub struct ItemNotes {
    pub result: Option<Kind>,
    pub written: Option<Kind>,
    pub note: Option<Note>,
}

impl BodyLevel {
    /// Puts the kind of the result by, and takes this one.
    #[tactic(auto, using(crate::proofs::Bodies::one_put_by))]
    fn open(&mut self, kind: Option<Kind>) -> Result<(), Fault>
        ensures opens { OnOk result (level_view self.new ≡ opened (level_view self.old) kind) }
        ensures memory { IsOkUnless result Fault.Memory }
    {
        self.put_by.push(self.kind).map_err(|_| Fault::Memory)?;
        self.kind = kind;
        Ok(())
    }

    /// Closes a parenthesis: the operator takes the result that was last put by.
    #[tactic(auto, using(crate::proofs::Bodies::one_taken, crate::proofs::Bodies::none_taken))]
    fn close(&mut self, operator: Operator)
        ensures { level_view self.new
            ≡ closed (level_view self.old) (level_view self.old).put_by
            (kind_after_operator operator) }
    {
        self.kind = kind_after_operator(operator, self.put_by.pop().flatten());
    }

    /// Passes a line: the kind of the result is the one after it then.
    fn pass(&mut self, legend: &Legend, seen: &SeenLine) -> Result<(), Fault>
        ensures passes { OnOk result
            (level_view self.new ≡ after_seen legend.now seen.now (level_view self.old)) }
        ensures memory { IsOkUnless result Fault.Memory }
    {
        match seen.line {
            Code::LoadNumber { .. } => self.kind = legend.literal_kind(seen.source),
            Code::LoadPlace { place, .. } => self.kind = legend.kind(seen.base, place),
            Code::Open => self.open(None)?,
            Code::OpenNumber { .. } => self.open(legend.literal_kind(seen.source))?,
            Code::OpenPlace { place } => self.open(legend.kind(seen.base, place))?,
            Code::ApplyNumber { operator, .. } | Code::ApplyPlace { operator, .. } => {
                self.kind = kind_after_operator(operator, self.kind);
            }
            Code::Close { operator } => self.close(operator),
            Code::Call { .. } => self.items = 0,
            Code::ArgumentNumber { .. } | Code::ArgumentPlace { .. } => {
                self.items = self.items.saturating_add(1);
            }
            _ => {}
        }
        Ok(())
    }
}

/// The kind of what a line writes.
fn written_kind(legend: &Legend, seen: &SeenLine) -> Option<Kind>
    ensures { result ≡ written_kind legend.now seen.now.base seen.now.line }
{
    match seen.line {
        Code::Store { target, .. }
        | Code::ArgumentNumber { target, .. }
        | Code::ArgumentPlace { target, .. } => legend.kind(seen.base, target),
        _ => None,
    }
}

/// The note of what a line writes to, or of the instance that it calls, after that many items of the call's list.
fn note_said(legend: &Legend, seen: &SeenLine, items: usize) -> Option<Note>
    ensures { result ≡ note_said legend.now seen.now.source items seen.now.line }
{
    match seen.line {
        Code::ArgumentNumber { .. } | Code::ArgumentPlace { .. } => legend.note(seen.source, items),
        Code::Store { .. } | Code::Call { .. } | Code::Standard { .. } => {
            legend.note(seen.source, 0)
        }
        _ => None,
    }
}

impl Levels {
    /// Goes to the body at that depth of calls; one that is deeper is left, and one that is new begins.
    fn go_to(&mut self, alloc: Global, depth: u32) -> Result<(), Fault>
        ensures there { OnOk result (depth < length self.new.levels.items) }
        ensures goes { OnOk result (levels_view self.new ≡ levels_at depth (levels_view self.old)) }
        ensures memory { IsOkUnless result Fault.Memory }
    {
        let count = depth as usize + 1;
        self.levels.truncate(count);
        for _level in self.levels.len()..count {
            let level = BodyLevel {
                kind: None,
                put_by: Vec::new(alloc),
                items: 0,
            };
            self.levels.push(level).map_err(|_| Fault::Memory)?;
        }
        Ok(())
    }

    /// Passes a row, and says what is known of it.
    pub(crate) fn follow(
        &mut self,
        alloc: Global,
        legend: &Legend,
        seen: &SeenLine,
    ) -> Result<ItemNotes, Fault>
        ensures says { IfOk result (λ said. said
            ≡ said_of legend.now seen.now (level_left legend.now seen.now (levels_view self.old))) }
        ensures follows { OnOk result
            (levels_view self.new ≡ levels_after legend.now seen.now (levels_view self.old)) }
        ensures memory { IsOkUnless result Fault.Memory }
    {
        self.go_to(alloc, seen.depth)?;
        let level = &mut self.levels[seen.depth as usize];
        level.pass(legend, seen)?;
        Ok(ItemNotes {
            result: level.kind,
            written: written_kind(legend, seen),
            note: note_said(legend, seen, level.items),
        })
    }
}
