ghost use Rattle.std.specs.Prelude.{◌≡◌, ◌+◌, ◌≤◌, IfOk, IsOkUnless, length, map};
ghost use Rattle.wc_model.specs.Language.Views.{text_view};
ghost use Rattle.wc_text_variables.specs.Names.{variable_named};
ghost use Rattle.wc_view_watch.specs.Plans.{names_in};

use std::alloc::Global;
use wc_cost::Loaded;
use wc_model::Fault;
use wc_text_variables::{NamedVariable, variable_named};

/// A name of a list that no program has: where it is in the list.
#[derive(Clone, Copy, PartialEq, Eq)]
pub struct UnknownName {
    /// Its first byte, counted from 0.
    pub start: usize,
    /// The number of bytes it has.
    pub length: usize,
}

/// The names of a list, which are between its commas. `Memory` is the only fault.
pub(crate) fn names_of<'n>(alloc: Global, list: &'n [u8]) -> Result<Vec<&'n [u8]>, Fault>
    ensures names { IfOk result (λ names. map (λ name. name.now) names.items ≡ names_in list.now) }
    ensures memory { IsOkUnless result Fault.Memory }
{
    match list.split(|byte| *byte == b',').collect(alloc) {
        Ok(names) => Ok(names),
        Err(_) => Err(Fault::Memory),
    }
}

/// What each of these names means in a program, in their order. `Memory` is the only fault.
pub(crate) fn all_watched(
    alloc: Global,
    loaded: &Loaded<'_>,
    names: &[&[u8]],
) -> Result<Vec<Option<NamedVariable>>, Fault>
    ensures mean { IfOk result (λ all. all.items
        ≡ map (variable_named (text_view loaded.now.source)) (map (λ name. name.now) names.now)) }
    ensures memory { IsOkUnless result Fault.Memory }
{
    let mut all = Vec::new(alloc);
    for name in names {
        let watched = variable_named(alloc, loaded, name)?;
        all.push(watched).map_err(|_| Fault::Memory)?;
    }
    Ok(all)
}

/// A name that is in a list, or the first bytes of the list that it has.
pub fn within(name: UnknownName, list: &[u8]) -> UnknownName
    ensures inside { result.start + result.length ≤ length list.now }
    ensures same { name.start + name.length ≤ length list.now → result ≡ name }
{
    let start = name.start.min(list.len());
    UnknownName {
        start,
        length: name.length.min(list.len() - start),
    }
}
