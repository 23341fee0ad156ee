ghost use Rattle.std.specs.Prelude.{◌≡◌, None, OnOk, Some, []};

use std::alloc::{AllocError, Global};
use wc_diag_texts::Expected;

/// The offending bytes of a line.
#[derive(Clone, Copy, PartialEq, Eq)]
pub struct Span {
    /// The first of them, counted from 0.
    pub start: usize,
    /// Their number.
    pub length: usize,
}

/// What exactly is wrong, as far as it is sure.
#[derive(Drop)]
pub struct Diagnostic {
    /// The line that is shown, counted from 1 in the current text; 0: none.
    pub line: u32,
    /// Its bytes.
    pub shown: Vec<u8>,
    /// The offending span in it.
    pub span: Option<Span>,
    /// The slice of the text with which the headline begins; empty: none.
    pub subject: Vec<u8>,
    /// What is said of it, the headline; empty: all is in what follows, none: what the number says.
    pub sentence: Option<&'static str>,
    /// What follows the headline; empty: nothing.
    pub detail: String,
    /// What could be at the span.
    pub expected: Expected,
    /// What to write instead; empty: what the number says.
    pub hint: &'static str,
    /// What to write instead, with the available values; empty: nothing beyond the hint.
    pub advice: String,
}

impl Diagnostic {
    /// Nothing beyond what the number says, on that line.
    pub fn new(alloc: Global, line: u32) -> Diagnostic
        ensures nothing { (result.span ≡ None) × (result.shown.items ≡ []) }
        ensures line { result.line ≡ line }
    {
        Diagnostic {
            line,
            shown: Vec::new(alloc),
            span: None,
            subject: Vec::new(alloc),
            sentence: None,
            detail: String::new(alloc),
            expected: Expected::Nothing,
            hint: "",
            advice: String::new(alloc),
        }
    }

    /// Points to bytes of the line.
    pub(crate) fn point(&mut self, start: usize, length: usize)
        ensures span { self.new.span ≡ Some (record { start = start; length = length }) }
        ensures line { self.new.line ≡ self.old.line }
        ensures subject { self.new.subject.items ≡ self.old.subject.items }
        ensures shown { self.new.shown.items ≡ self.old.shown.items }
    {
        self.span = Some(Span { start, length });
    }

    /// Says that of a slice of the text.
    pub(crate) fn report(
        &mut self,
        subject: &[u8],
        sentence: Option<&'static str>,
    ) -> Result<(), AllocError>
        ensures span { self.new.span ≡ self.old.span }
        ensures line { self.new.line ≡ self.old.line }
        ensures subject { OnOk result (self.new.subject.items ≡ subject.now) }
    {
        self.subject.clear();
        self.sentence = sentence;
        self.subject.extend_from_slice(subject)?;
        Ok(())
    }
}
