ghost use Rattle.std.specs.Prelude.{◌≡◌, IfErr, IfOk};
ghost use Rattle.wc_scale.specs.Representation.{IsClosed, IsEmptied};
ghost use Rattle.wc_scale.specs.Calls.{RefusesInputs, RefusesOpen, RefusesSample, TakesInputs, TakesOpen, TakesSample};
ghost use Rattle.wc_scale.specs.Opening.{HasPlate, IsRefusedPlate};

use crate::results::{ALREADY_OPEN, CLOSED, COUNTS_OUT_OF_RANGE, DONE, Refusal, of_fault, only};
use std::alloc::Global;
use wc_model::{Fault, GREATEST_COUNTS, LEAST_COUNTS};
use wc_plate::plate;
use wc_run::OpenScale;
use wc_store::SlotStore;

/// A scale, open or closed.
#[derive(Drop)]
pub struct Scale {
    pub(crate) alloc: Global,
    pub(crate) opened: Option<OpenScale<'static, SlotStore>>,
}

/// A scale by a plate's text, to which nothing has come.
fn opened_by(alloc: Global, text: &[u8]) -> Result<OpenScale<'static, SlotStore>, Fault>
    ensures plate { IfOk result (λ opened. HasPlate text.now opened) }
    ensures refused { IfErr result (λ fault. IsRefusedPlate text.now fault) }
{
    match plate(alloc, text) {
        Ok(plate) => OpenScale::new(alloc, &plate, None),
        Err(fault) => Err(fault),
    }
}

impl Scale {
    /// A scale that is closed. It takes no memory; what the scale takes later is taken by this allocator.
    pub fn new(alloc: Global) -> Scale
        ensures { IsClosed result }
    {
        Scale {
            alloc,
            opened: None,
        }
    }

    /// Opens the scale by the text of its plate. Nothing has come to it then, and it has no program.
    pub fn open(&mut self, text: &[u8]) -> Refusal
        ensures taken { TakesOpen self.new text.now result }
        ensures refused { RefusesOpen self.old self.new text.now result }
    {
        if self.opened.is_some() {
            return only(ALREADY_OPEN);
        }
        match opened_by(self.alloc, text) {
            Ok(opened) => {
                self.opened = Some(opened);
                only(DONE)
            }
            Err(fault) => of_fault(fault),
        }
    }

    /// Closes the scale, and gives back all memory that it took.
    pub fn close(&mut self) -> u32
        ensures done { result ≡ 0 }
        ensures closed { IsEmptied self.new }
    {
        self.opened = None;
        DONE
    }

    /// Takes a sample of the sensor. It takes no memory.
    pub fn sample(&mut self, counts: i32) -> u32
        ensures taken { TakesSample self.old self.new counts result }
        ensures refused { RefusesSample self.old self.new counts result }
    {
        let Some(opened) = &mut self.opened else {
            return CLOSED;
        };
        if counts < LEAST_COUNTS || counts > GREATEST_COUNTS {
            return COUNTS_OUT_OF_RANGE;
        }
        opened.sample(counts);
        DONE
    }

    /// Takes the inputs from now on. It takes no memory.
    pub fn inputs(&mut self, inputs: u16) -> u32
        ensures taken { TakesInputs self.old self.new inputs result }
        ensures refused { RefusesInputs self.old self.new result }
    {
        let Some(opened) = &mut self.opened else {
            return CLOSED;
        };
        opened.inputs(inputs);
        DONE
    }
}
