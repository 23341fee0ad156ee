ghost use Rattle.std.specs.Prelude.{IfErr, IfOk};
ghost use Rattle.wc_controller.specs.Loads.{IsNeverRefused, IsRefusedLoad, IsTheOnlyRefusal};
ghost use Rattle.wc_scale.specs.Opening.{Begins};
ghost use Rattle.wc_scale.specs.Programs.{IsChangeStatus, RefusesChange, RefusesLoad, TakesChange, TakesLoad};

use crate::results::{CLOSED, DONE, NO_MEMORY, NO_PROGRAM, Refusal, of_fault, only};
use crate::scale::Scale;
use std::alloc::Global;
use wc_controller::load;
use wc_machine::Machine;
use wc_model::Fault;
use wc_run::ChangeFault;
use wc_store::SlotStore;

/// A machine before its first scan by a program's text.
fn machine_of(alloc: Global, text: &'static [u8]) -> Result<Machine<'static, SlotStore>, Fault>
    ensures begins { IfOk result (λ machine. Begins text.now machine) }
    ensures accepted { IfOk result (λ machine. IsNeverRefused text.now) }
    ensures refused { IfErr result (λ fault. IsRefusedLoad text.now fault) }
    ensures only { IfErr result (λ fault. IsTheOnlyRefusal text.now fault) }
{
    match load(alloc, text) {
        Ok(loaded) => Machine::new(alloc, loaded),
        Err(fault) => Err(fault),
    }
}

/// The status of a change that is not made.
fn status_of(fault: ChangeFault) -> u32
    ensures { IsChangeStatus fault result }
{
    match fault {
        ChangeFault::NoProgram => NO_PROGRAM,
        ChangeFault::Memory => NO_MEMORY,
    }
}

impl Scale {
    /// Loads a program, which starts over; one that was loaded before is freed then, and stays if the text is
    /// refused.
    pub fn load(&mut self, text: &'static [u8]) -> Refusal
        ensures taken { TakesLoad self.old self.new text.now result }
        ensures refused { RefusesLoad self.old self.new text.now result }
    {
        match &mut self.opened {
            Some(opened) => match machine_of(self.alloc, text) {
                Ok(machine) => {
                    opened.load(machine);
                    only(DONE)
                }
                Err(fault) => of_fault(fault),
            },
            None => only(CLOSED),
        }
    }

    /// Changes the program between two scans: what is named alike in both texts keeps its value, and all else begins
    /// with its first. The program stays if the text is refused.
    pub fn change(&mut self, text: &'static [u8]) -> Refusal
        ensures taken { TakesChange self.old self.new text.now result }
        ensures refused { RefusesChange self.old self.new text.now result }
    {
        match &mut self.opened {
            Some(opened) => {
                if !opened.has_program() {
                    return only(NO_PROGRAM);
                }
                match load(self.alloc, text) {
                    Ok(loaded) => match opened.change(self.alloc, loaded) {
                        Ok(()) => only(DONE),
                        Err(fault) => only(status_of(fault)),
                    },
                    Err(fault) => of_fault(fault),
                }
            }
            None => only(CLOSED),
        }
    }
}
