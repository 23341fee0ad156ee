ghost use Rattle.std.specs.Prelude.{◌≡◌, ℕ, [], List, Some, OnOk, if◌then◌else◌};
ghost use Rattle.wc_model.specs.Definitions.{named_in, same_name, Name, name_of};
ghost use Rattle.wc_verify.specs.Bodies.{named_rows};

use indexmap::IndexMap;
use std::alloc::{AllocError, Global};
use std::marker::Model;
use wc_names::Key;

/// The labels of a body, with the number of flat lines from each to the last.
#[derive(Drop)]
pub(crate) struct LabelCounts<'a> {
    entries: IndexMap<Key<'a>, usize>,
}

impl<'a> Model for LabelCounts<'a> {
    ghost Value = { List (Name × ℕ) };

    ghost view = { λ l. named_rows l.entries.entries };
}

impl<'a> LabelCounts<'a> {
    /// No labels.
    pub(crate) fn new(alloc: Global) -> LabelCounts<'a>
        ensures { result ≡ [] }
    {
        LabelCounts {
            entries: IndexMap::new(alloc),
        }
    }

    /// The number of flat lines from a label to the last.
    pub(crate) fn get(&self, name: &[u8]) -> Option<usize>
        ensures { result ≡ named_in self.now (name_of name.now) }
    {
        Some(*self.entries.get(&Key { text: name })?)
    }

    /// Keeps a label with its count in place of what was kept of it.
    pub(crate) fn set(&mut self, name: &'a [u8], left: usize) -> Result<(), AllocError>
        ensures { OnOk result
            ((other : Name)
            → named_in self.new other
            ≡ (if same_name (name_of name.now) other then Some left else named_in self.old other)) }
    {
        self.entries.insert(Key { text: name }, left)?;
        Ok(())
    }
}
