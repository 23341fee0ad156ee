ghost use Rattle.std.specs.Prelude.{◌≡◌, [], ◌∷◌, ◌++◌, List, IfOk, OnErr, IsOkUnless, false, not, if◌then◌else◌, option_map, slice_get};
ghost use Rattle.std.specs.List.{position_from};
ghost use Rattle.wc_model.specs.Definitions.{is_among, same_name, Name, name_of};
ghost use Rattle.wc_names.specs.Keys.{names_of_keys};

use crate::key::Key;
use indexmap::IndexSet;
use std::alloc::Global;
use std::marker::Model;
use wc_model::Fault;

/// Different names, without regard to letter case, numbered in the order in which they came.
#[derive(Drop)]
pub struct Names<'a> {
    keys: IndexSet<Key<'a>>,
}

impl<'a> Model for Names<'a> {
    ghost Value = { List Name };

    ghost view = { λ a. names_of_keys a.keys.keys };
}

impl<'a> Names<'a> {
    /// No names.
    pub fn new(alloc: Global) -> Names<'a>
        ensures { result ≡ [] }
    {
        Names {
            keys: IndexSet::new(alloc),
        }
    }

    /// The number of a name, from 0; `None` if it is not among them.
    pub fn number(&self, name: &[u8]) -> Option<usize>
        ensures { result ≡ position_from (λ n. same_name n (name_of name.now)) 0 self.now }
    {
        self.keys.get_index_of(&Key { text: name })
    }

    /// The name of a number, as it is spelled; `None` if there is none.
    pub fn at(&self, number: usize) -> Option<&'a [u8]>
        ensures { option_map (λ name. name_of name.now) result ≡ slice_get self.now number }
    {
        let key = self.keys.get_index(number)?;
        Some(key.text)
    }

    /// Whether a name is among them.
    pub fn contains(&self, name: &[u8]) -> bool
        ensures { result ≡ is_among self.now (name_of name.now) }
    {
        self.keys.contains(&Key { text: name })
    }

    /// Adds a name if it is new, and says whether it is. Its only fault is `Fault::Memory`.
    pub fn add(&mut self, name: &'a [u8]) -> Result<bool, Fault>
        ensures new { IfOk result (λ new. new ≡ not (is_among self.old (name_of name.now))) }
        ensures names { IfOk result
            (λ new. self.new ≡ (if new then self.old ++ name_of name.now ∷ [] else self.old)) }
        ensures memory { IsOkUnless result Fault.Memory }
        // A name that is there takes no memory, so out of memory is reported for a new one alone.
        ensures fails { OnErr result (is_among self.old (name_of name.now) ≡ false) }
    {
        match self.keys.insert(Key { text: name }) {
            Ok(new) => Ok(new),
            Err(_) => Err(Fault::Memory),
        }
    }
}
