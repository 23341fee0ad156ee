ghost use Rattle.std.specs.Prelude.{◌≡◌, None, false};

use wc_diag_texts::{Case, Expected};
use wc_model::{Fault, Kind};

/// The kind of a result, and the line of the text that made it.
#[derive(Clone, Copy)]
pub struct ResultKind {
    pub kind: Kind,
    /// The line, counted from 1.
    pub line: u32,
}

/// What a path brings to a label.
#[derive(Clone, Copy)]
pub enum Brought {
    /// A result of this kind.
    Kind(Kind),
    /// No result.
    Nothing,
    /// That is not sure, since the path comes from another label.
    Unsure,
}

/// A path to a label.
#[derive(Clone, Copy)]
pub struct PathToLabel {
    /// The line of the instruction from which it comes, counted from 1.
    pub line: u32,
    pub brought: Brought,
}

/// Two paths to a label that bring different results, or one that brings none.
#[derive(Clone, Copy)]
pub struct LabelPaths {
    /// The first path to the label of which is sure what it brings, if there is one.
    pub first: PathToLabel,
    /// The first other one that brings something else, if there is one.
    pub other: Option<PathToLabel>,
}

/// Bytes of a text.
#[derive(Clone, Copy)]
pub struct Slice {
    /// The first of them, counted from 0.
    pub start: usize,
    /// Their number.
    pub length: usize,
    /// Their line, counted from 1; 0 if it is not asked.
    pub line: u32,
}

/// Why a text is refused, and the slice of it at which it is.
#[derive(Clone, Copy)]
pub struct RefusalSpan {
    /// The number and the line of the fault, or out of memory.
    pub fault: Fault,
    /// Where the slice starts.
    pub start: usize,
    /// The number of its bytes; 0 if there is none.
    pub length: usize,
    /// What could be there, if a token is unexpected.
    pub expected: Expected,
    /// In which way a rule of the later passes is broken.
    pub case: Case,
    /// The line of the first of two that have one name; 0: there are no two.
    pub first: u32,
    /// The kind of the result before the slice, if it does not fit and is known.
    pub result: Option<ResultKind>,
    /// The kind of the result before the parenthesis that the slice closes, if it is known.
    pub outer: Option<ResultKind>,
    /// The paths to the label at which no result is defined, as far as they are known.
    pub paths: Option<LabelPaths>,
    /// The name of the offending input or output of a call, or of the one with the offending value.
    pub formal: Option<Slice>,
    /// Whether that is passed to the block, and not read.
    pub is_passed: bool,
    /// The type of the instance that is referred to, if its declaration names it.
    pub block: Option<Slice>,
    /// What is offending, if it is on a line below: the slice is the operator, then.
    pub below: Option<Slice>,
}

impl RefusalSpan {
    /// A fault and its slice, of which nothing more is known.
    pub fn new(fault: Fault, start: usize, length: usize) -> RefusalSpan
        ensures { result ≡ record {
          fault = fault;
          start = start;
          length = length;
          expected = Expected.Nothing;
          case = Case.Plain;
          first = 0;
          result = None;
          outer = None;
          paths = None;
          formal = None;
          is_passed = false;
          block = None;
          below = None;
        } }
    {
        RefusalSpan {
            fault,
            start,
            length,
            expected: Expected::Nothing,
            case: Case::Plain,
            first: 0,
            result: None,
            outer: None,
            paths: None,
            formal: None,
            is_passed: false,
            block: None,
            below: None,
        }
    }
}
