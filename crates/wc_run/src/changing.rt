ghost use Rattle.std.specs.Prelude.{◌≡◌, Err, IfErr, IsOkUnless, OnOk};
ghost use Rattle.wc_model.specs.Language.Views.{text_view};
ghost use Rattle.wc_run.specs.Coming.{IsChangedTo};
ghost use Rattle.wc_run.specs.OpenScales.{HasNoProgram};

use crate::change_fault::ChangeFault;
use crate::open_scale::OpenScale;
use std::alloc::Global;
use wc_cost::Loaded;
use wc_store::Store;

impl<'a, S: Store> OpenScale<'a, S> {
    /// Changes the program between two scans: what is named alike in both texts keeps its value, and all else begins with its
    /// first; the time of the last scan stays. If there is a fault nothing changes.
    pub fn change(&mut self, alloc: Global, next: Loaded<'a>) -> Result<(), ChangeFault>
        ensures changed { OnOk result
            (IsChangedTo self.old self.new (text_view next.entry.source)) }
        ensures kept { IfErr result (λ fault. self.new ≡ self.old) }
        ensures none { HasNoProgram self.old → result ≡ Err ChangeFault.NoProgram }
        ensures memory { ¬ (HasNoProgram self.old) → IsOkUnless result ChangeFault.Memory }
    {
        match self.machine.take() {
            Some(machine) => match machine.change(alloc, next) {
                Ok(machine) => {
                    self.machine = Some(machine);
                    Ok(())
                }
                Err((machine, _)) => {
                    self.machine = Some(machine);
                    Err(ChangeFault::Memory)
                }
            },
            None => Err(ChangeFault::NoProgram),
        }
    }
}
