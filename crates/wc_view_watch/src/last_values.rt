ghost use Rattle.std.specs.Prelude.{◌≡◌, List, ℕ, IfOk, IsOkUnless, None, OnOk, Option, Some};
ghost use Rattle.wc_machine.specs.Machines.{RepresentsText};
ghost use Rattle.wc_model.specs.Definitions.{Store as Contents, Text};
ghost use Rattle.wc_view_watch.specs.Plans.{differ, values_in};
ghost use Rattle.wc_view_watch.specs.Watching.{AreLookedUp, kept_values};

use crate::watched_names::WatchedNames;
use std::alloc::Global;
use std::mem::swap;
use wc_machine::Machine;
use wc_model::Fault;
use wc_store::SlotStore;

/// The values that the last scan has left, if there was one. The buffers are used again.
#[derive(Drop)]
pub(crate) struct LastValues {
    pub(crate) there: bool,
    pub(crate) values: Vec<u8>,
    next: Vec<u8>,
}

impl LastValues {
    /// Before the first scan.
    pub(crate) fn new(alloc: Global) -> LastValues
        ensures { kept_values result ≡ None }
    {
        LastValues {
            there: false,
            values: Vec::new(alloc),
            next: Vec::new(alloc),
        }
    }

    /// Whether the next values differ from those that are kept.
    fn differs(&self) -> bool
        ensures { result ≡ differ (kept_values self.now) (Some self.now.next.items) }
    {
        !self.there || self.next != self.values
    }

    /// Keeps the values that a scan has left: whether they differ from those of the scan before. `Memory` is the only fault.
    pub(crate) fn keep(
        &mut self,
        names: &WatchedNames<'_>,
        machine: &Machine<'_, SlotStore>,
    ) -> Result<bool, Fault>
        ensures differ { (list : List ℕ) (text : Text) (next : Option Text) (store : Contents)
            → AreLookedUp names.now list text next → RepresentsText machine.now text store
            → IfOk result (λ differs. differs
            ≡ differ (kept_values self.old) (Some (values_in list text store))) }
        ensures keeps { (list : List ℕ) (text : Text) (next : Option Text) (store : Contents)
            → AreLookedUp names.now list text next → RepresentsText machine.now text store
            → OnOk result (kept_values self.new ≡ Some (values_in list text store)) }
        ensures memory { IsOkUnless result Fault.Memory }
    {
        self.next.clear();
        names.put_values(&mut self.next, machine)?;
        let differs = self.differs();
        swap(&mut self.next, &mut self.values);
        self.there = true;
        Ok(differs)
    }
}
