ghost use Rattle.std.specs.Prelude.{◌≡◌, ◌<◌, ◌⊎◌, Option, Some, IfErr, IfOk, IsErr, IsOkUnless, OnOk, is_some, option_copied, option_map};
ghost use Rattle.wc_indicator.specs.Kept.{RepresentsHistory};
ghost use Rattle.wc_machine.specs.Machines.{RepresentsText};
ghost use Rattle.wc_model.specs.Definitions.{PlateData, HasFailedSince};
ghost use Rattle.wc_run.specs.Coming.{Answers, HasLineFailed, IsCutShortAt, IsSample, image_of, with_bytes, with_inputs, with_program, with_sample};
ghost use Rattle.wc_run.specs.OpenScales.{Came, Goes, IsRunning, Running, Represents, only_program};

use std::alloc::Global;
use wc_indicator::Indicator;
use wc_machine::Machine;
use wc_model::{ByteOut, Fault, Image, WriteFault};
use wc_plate::Plate;
use wc_record::image;
use wc_sma::Line;
use wc_store::Store;

/// A scale that is open: it has the indicator of its plate, its line and its digital inputs, and, if a program is loaded, the
/// machine that runs it.
#[derive(Drop)]
pub struct OpenScale<'a, S: Store> {
    pub(crate) indicator: Indicator,
    pub(crate) line: Line,
    pub(crate) inputs: u16,
    pub(crate) machine: Option<Machine<'a, S>>,
}

impl<'a, S: Store> OpenScale<'a, S> {
    /// A scale with a plate and a program, or none, to which nothing has come. `Memory` is its only fault.
    pub fn new(
        alloc: Global,
        plate: &Plate,
        machine: Option<Machine<'a, S>>,
    ) -> Result<OpenScale<'a, S>, Fault>
        ensures represents { IfOk result
            (λ scale. (program : Option Running) → IsRunning machine.entry program
            → Represents scale plate.now (only_program program)) }
        ensures machine { IfOk result (λ scale. scale.machine ≡ machine.entry) }
        ensures memory { IsOkUnless result Fault.Memory }
    {
        let indicator = Indicator::new(alloc, *plate)?;
        Ok(OpenScale {
            indicator,
            line: Line::new(),
            inputs: 0,
            machine,
        })
    }

    /// Takes a sample of the sensor, -8388608 to 8388607. It takes no memory.
    #[inline(always)]
    pub fn sample(&mut self, counts: i32)
        requires in_range { IsSample counts }
        ensures goes { Goes self.old self.new (with_sample counts) }
        ensures machine { self.new.machine ≡ self.old.machine }
    {
        self.indicator.sample(counts);
    }

    /// Takes bytes on the line, acts on the requests that they complete and writes their answers, in order. If an answer could
    /// not be written in full the line has failed: its request was acted on, those after it are not, and each later call
    /// answers `WriteFault` and does nothing.
    #[inline(always)]
    pub fn feed<W: ByteOut>(&mut self, bytes: &[u8], answers: &mut W) -> Result<(), WriteFault>
        ensures goes { OnOk result (Goes self.old self.new (with_bytes bytes.now)) }
        ensures answers { OnOk result
            (Answers self.old bytes.now (W.bytes_taken answers.old)
            (W.bytes_taken answers.new)) }
        ensures steady { OnOk result
            (W.failure_count answers.new ≡ W.failure_count answers.old) }
        ensures machine { self.new.machine ≡ self.old.machine }
        ensures fails { IfErr result
            (λ e.
            IsCutShortAt self.old self.new bytes.now (W.bytes_taken answers.old)
            (W.bytes_taken answers.new)) }
        // A line that has failed changes nothing.
        ensures failed { HasLineFailed self.old
            → IsErr result × (self.new ≡ self.old) × (answers.new ≡ answers.old) }
        ensures device { IfErr result
            (λ e. HasLineFailed self.old
            ⊎ HasFailedSince (W.failure_count answers.old) (W.failure_count answers.new)) }
    {
        self.line.feed(bytes, &mut self.indicator, answers)
    }

    /// Takes the digital inputs from now on; bit i is `%IX0.i`. It takes no memory.
    #[inline(always)]
    pub fn inputs(&mut self, inputs: u16)
        ensures goes { Goes self.old self.new (with_inputs inputs) }
        ensures machine { self.new.machine ≡ self.old.machine }
    {
        self.inputs = inputs;
    }

    /// Has this program from now on, in place of the one that it had.
    pub fn load(&mut self, machine: Machine<'a, S>)
        ensures represents { (running : Running)
            → RepresentsText machine.entry running.text running.store
            → Goes self.old self.new (with_program running) }
        ensures machine { self.new.machine ≡ Some machine.entry }
    {
        self.machine = Some(machine);
    }

    /// What a scan would see: the inputs, and the status and the weights of the indicator. The status is below 64. It takes no
    /// memory.
    #[inline(always)]
    pub fn image(&self) -> Image
        ensures reported { (plate : PlateData) (came : Came) → Represents self.now plate came
            → result ≡ image_of plate came }
        ensures few { result.status < 64 }
    {
        image(&self.indicator, self.inputs)
    }

    /// The indicator.
    #[inline(always)]
    pub fn indicator(&self) -> &Indicator
        ensures indicator { result.now ≡ self.now.indicator }
        ensures represents { (plate : PlateData) (came : Came) → Represents self.now plate came
            → RepresentsHistory result.now plate came.history }
    {
        &self.indicator
    }

    /// The machine that runs the program, if one is loaded.
    #[inline(always)]
    pub fn machine(&self) -> Option<&Machine<'a, S>>
        ensures { option_copied result ≡ self.now.machine }
    {
        self.machine.as_ref()
    }

    /// Whether a program is loaded.
    pub fn has_program(&self) -> bool
        ensures { result ≡ is_some self.now.machine }
    {
        self.machine.is_some()
    }

    /// The time of the program's last scan in milliseconds, 0 before the first; none if no program is loaded.
    pub fn last(&self) -> Option<u64>
        ensures { result ≡ option_map (λ machine. machine.last) self.now.machine }
    {
        Some(self.machine.as_ref()?.last())
    }
}
