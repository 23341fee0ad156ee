ghost use Rattle.std.specs.Prelude.{[], ◌∷◌, ◌++◌, ◌≡◌, ◌≤◌, IfOk, IsOkUnless, List, None, Some, false, if◌then◌else◌, length, ⊤};
ghost use Rattle.wc_execution.specs.Lines.{IsWritable};
ghost use Rattle.wc_machine.specs.Seeing.{Keeps, has_result, keeps_more, keeps_none, shown_line, started_line};
ghost use Rattle.wc_machine.specs.declared.seen.SeenLine.{SeenLine};

use std::alloc::Global;
use wc_execution::number_written;
use wc_model::{Code, Fault};
use wc_store::Store;

/// A flat line that a scan executed, with what it wrote and the result after it. Numbers are as a store keeps them: BOOL is 0
/// or 1, TIME milliseconds.
#[derive(Clone, Copy)]
pub struct SeenLine {
    /// At what depth of calls it was executed; 0 in the program itself.
    pub depth: u32,
    /// The line of the text at which it is; a part of a call is at the call's.
    pub source: u32,
    /// The flat line.
    pub line: Code,
    /// The first place of its instance in the program's frame.
    pub base: usize,
    /// The number that it wrote to the place that it names, if it did.
    pub written: Option<i32>,
    /// The current result after it, if there is one.
    pub result: Option<i32>,
}

/// What is known of a line before it is executed.
#[derive(Clone, Copy)]
pub(crate) struct LineStart {
    pub(crate) depth: u32,
    pub(crate) source: u32,
    pub(crate) line: Code,
    pub(crate) base: usize,
    /// What it is going to write to the place that it names.
    pub(crate) written: Option<i32>,
    /// Whether there is a result before it.
    pub(crate) present: bool,
    /// Whether there is a result after it.
    pub(crate) following: bool,
}

/// Whether there is a result after a line, if there was one before it or none. It stays a call, so that a scan that
/// nobody observes is compiled without it: inlined it is a second choice by the line next to that of `step`.
#[inline(never)]
fn has_result(present: bool, line: &Code) -> bool
    ensures { result ≡ has_result present line.now }
{
    match *line {
        Code::LoadNumber { .. } | Code::LoadPlace { .. } => true,
        Code::ApplyNumber { .. } | Code::ApplyPlace { .. } | Code::Not => true,
        Code::OpenNumber { .. } | Code::OpenPlace { .. } | Code::Close { .. } => true,
        Code::Open => false,
        _ => present,
    }
}

/// A line that is going to be executed. It reads, and does nothing else.
#[inline(always)]
pub(crate) fn start_line<S: Store>(
    store: &S,
    current: i32,
    present: bool,
    line: &Code,
    source: u32,
    base: usize,
    depth: u32,
) -> LineStart
    requires capacity { length (S.slot_kinds store.now) ≤ 65536 }
    requires there { IsWritable base (S.slot_kinds store.now) (S.numbers store.now) current
        line.now }
    ensures { result ≡ started_line depth source line.now base (S.slot_kinds store.now)
        (S.numbers store.now) present current }
{
    LineStart {
        depth,
        source,
        line: *line,
        base,
        written: number_written(store, current, line, base),
        present,
        following: has_result(present, line),
    }
}

/// Who is shown the lines that a scan executes. Whoever looks, they are executed in the same way.
pub(crate) trait LineObserver {
    /// That between these two of its states it was shown these lines.
    ghost is_shown: { Self → Self → List SeenLine → Type 0 };

    /// Shows it a line that was executed, with the number that the machine keeps after it.
    fn show(&mut self, line: &LineStart, current: i32)
        ensures shown { is_shown self.old self.new (shown_line line.now current ∷ []) };

    ghost shown_none: { (observer : Self) → is_shown observer observer [] };

    ghost shown_more: { (old between new : Self) (lines more : List SeenLine)
        → is_shown old between lines → is_shown between new more
        → is_shown old new (lines ++ more) };
}

/// Looks at no line.
#[derive(Drop)]
pub(crate) struct NoObserver;

impl LineObserver for NoObserver {
    ghost is_shown = { λ old new lines. ⊤ };

    ghost shown_none = { λ observer. tt };

    ghost shown_more = { λ old between new lines more before after. tt };

    #[inline(always)]
    fn show(&mut self, _line: &LineStart, _current: i32) {}
}

/// The lines that were seen so far.
#[derive(Drop)]
pub(crate) struct Sight {
    /// In the order in which they were executed.
    pub(crate) lines: Vec<SeenLine>,
    /// Whether memory was refused for one of them.
    pub(crate) lost: bool,
}

impl Sight {
    /// Nothing was seen yet.
    pub(crate) fn new(alloc: Global) -> Sight
        ensures kept { result.lost ≡ false }
        ensures nothing { result.lines.items ≡ [] }
    {
        Sight {
            lines: Vec::new(alloc),
            lost: false,
        }
    }

    /// The lines, if none is lost; else `Memory`.
    pub(crate) fn into_lines(self) -> Result<Vec<SeenLine>, Fault>
        ensures lines { IfOk result
            (λ lines. (self.lost ≡ false) × (lines.items ≡ self.lines.items)) }
        ensures memory { IsOkUnless result Fault.Memory }
    {
        if self.lost {
            return Err(Fault::Memory);
        }
        Ok(self.lines)
    }
}

/// A result, if there is one.
fn result_of(present: bool, current: i32) -> Option<i32>
    ensures { result ≡ if present then Some current else None }
{
    if present { Some(current) } else { None }
}

impl LineObserver for Sight {
    ghost is_shown = { Keeps };

    ghost shown_none = { keeps_none };

    ghost shown_more = { keeps_more };

    fn show(&mut self, line: &LineStart, current: i32) {
        if self.lost {
            return;
        }
        let seen = SeenLine {
            depth: line.depth,
            source: line.source,
            line: line.line,
            base: line.base,
            written: line.written,
            result: result_of(line.following, current),
        };
        match self.lines.push(seen) {
            Ok(()) => {}
            Err(_) => self.lost = true,
        }
    }
}
