ghost use Rattle.std.specs.Prelude.{◌≡◌, [], List, Some, OnOk, IsOkUnless, if◌then◌else◌, ◌<◌, IfOk, option_map, ◌++◌, Option};
ghost use Rattle.wc_model.specs.Definitions.{same_name, Name, name_of, lines_of, BodyLine, label_of, carries, Scope, lines_view, word_view, label_rules, Check, first_broken, Validates};
ghost use Rattle.wc_verify.specs.Bodies.{named_rows, row_named, counted_row, row_at, entered_row, way_to, joined_edges, kind_of_way};
ghost use Rattle.wc_verify.specs.declared.labels.LabelRow.{LabelRow};
ghost use Rattle.std.specs.List.{list_any};

use crate::edges::{Way, joined_edges, kind_of};
use crate::refusals::refusal;
use indexmap::IndexMap;
use std::alloc::Global;
use std::marker::Model;
use wc_model::{Fault, Kind, Line, Word};
use wc_names::Key;

/// What is known of a label.
#[derive(Clone, Copy)]
pub(crate) struct LabelRow {
    /// The number of lines still ahead that carry it.
    pub(crate) ahead: usize,
    /// Whether a line carried it already.
    pub(crate) given: bool,
    /// What the jumps toward it agree on.
    pub(crate) way: Way,
}

/// The labels of a body, with what is known of each.
#[derive(Drop)]
pub(crate) struct Labels<'a> {
    entries: IndexMap<Key<'a>, LabelRow>,
}

impl<'a> Model for Labels<'a> {
    ghost Value = { List (Name × LabelRow) };

    ghost view = { λ l. named_rows l.entries.entries };
}

impl<'a> Labels<'a> {
    /// No labels.
    pub(crate) fn new(alloc: Global) -> Labels<'a>
        ensures { result ≡ [] }
    {
        Labels {
            entries: IndexMap::new(alloc),
        }
    }

    /// What is known of a label.
    pub(crate) fn row(&self, name: &[u8]) -> LabelRow
        ensures { result ≡ row_named self.now (name_of name.now) }
    {
        match self.entries.get(&Key { text: name }) {
            Some(row) => *row,
            None => LabelRow {
                ahead: 0,
                given: false,
                way: Way::Unseen,
            },
        }
    }

    /// Keeps what is known of a label in place of what was.
    pub(crate) fn set(&mut self, name: &'a [u8], row: LabelRow) -> Result<(), Fault>
        ensures rows { OnOk result
            ((other : Name)
            → row_named self.new other
            ≡ (if same_name (name_of name.now) other then row else row_named self.old other)) }
        ensures memory { IsOkUnless result Fault.Memory }
    {
        match self.entries.insert(Key { text: name }, row) {
            Ok(_) => Ok(()),
            Err(_) => Err(Fault::Memory),
        }
    }
}

/// Counts one more line, which may carry a label.
fn count<'a>(labels: &mut Labels<'a>, label: &Option<Word<'a>>) -> Result<(), Fault>
    requires { (name : Name) → (row_named labels.old name).ahead < usize.MAX }
    ensures counted { OnOk result
        ((name : Name)
        → row_named labels.new name
        ≡ counted_row (carries (option_map word_view label.now) name) (row_named labels.old name)) }
    ensures memory { IsOkUnless result Fault.Memory }
{
    let Some(word) = label else {
        return Ok(());
    };
    let row = labels.row(word.text);
    let counted = LabelRow {
        ahead: row.ahead + 1,
        ..row
    };
    labels.set(word.text, counted)
}

/// The labels of a body, before its first line.
pub(crate) fn count_labels<'a>(alloc: Global, lines: &Vec<Line<'a>>) -> Result<Labels<'a>, Fault>
    ensures rows { IfOk result
        (λ labels. (scope : Scope) (name : Name)
        → row_named labels name ≡ row_at scope [] (lines_of (lines_view lines.now.items)) name) }
    ensures memory { IsOkUnless result Fault.Memory }
{
    let mut labels = Labels::new(alloc);
    for line in lines {
        count(&mut labels, &line.label)?;
    }
    Ok(labels)
}

/// Enters a line, from the path above: the kind of the result before its instruction, or 407 if the line's label was given
/// already.
pub(crate) fn enter<'a>(
    labels: &mut Labels<'a>,
    label: &Option<Word<'a>>,
    above: Way,
) -> Result<Option<Kind>, Fault>
    ensures validated { (before : List BodyLine) (more : List Check)
        → ((name : Name)
        → (row_named labels.old name).given
        ≡ list_any (λ line. carries (label_of line) name) before)
        → Validates (first_broken (label_rules before (option_map word_view label.now) ++ more))
        (first_broken more) result }
    ensures kind { IfOk result
        (λ kind. kind
        ≡ kind_of_way (joined_edges above (way_to (option_map word_view label.now) labels.old))) }
    ensures entered { OnOk result
        ((name : Name)
        → row_named labels.new name
        ≡ entered_row (carries (option_map word_view label.now) name) (row_named labels.old name)) }
{
    let Some(word) = label else {
        return Ok(kind_of(joined_edges(above, Way::Unseen)));
    };
    let row = labels.row(word.text);
    if row.given {
        return Err(refusal(407, word.line));
    }
    let entered = LabelRow {
        ahead: row.ahead.saturating_sub(1),
        given: true,
        way: Way::Unseen,
    };
    labels.set(word.text, entered)?;
    Ok(kind_of(joined_edges(above, row.way)))
}
