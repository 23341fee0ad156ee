ghost use Rattle.std.specs.Prelude.{◌≡◌, ◌≤◌, [], ◌∷◌, ◌++◌, List, length, slice_get, option_copied, IfOk, IsOkUnless};
ghost use Rattle.wc_model.specs.Instrument.WeighingHistories.{last_items};
ghost use Rattle.wc_record.specs.Recorders.{HoldsLast};

use circular_buffer::HeapCircularBuffer;
use std::alloc::Global;
use std::marker::Model;
use wc_model::{Fault, Outputs, or_memory};

/// What is kept of a scan.
#[derive(Clone, Copy, PartialEq, Eq)]
pub struct Record {
    /// Its moment in milliseconds.
    pub ms: u64,
    /// The number of items it executed.
    pub steps: u32,
    /// What it left at the outputs.
    pub outputs: Outputs,
}

/// The records of the last scans, as many as it was made for. Its buffer is made once: keeping
/// a record takes no memory.
#[derive(Drop)]
pub struct Recorder {
    ring: HeapCircularBuffer<Record>,
}

impl Model for Recorder {
    ghost use Rattle.wc_record.specs.Recorders.{RecorderState, recorder_view, IsRecorderSound};

    ghost Value = { RecorderState };

    ghost view = { recorder_view };

    ghost invariant = { IsRecorderSound };
}

impl Recorder {
    /// A recorder of the last n scans, 1 to 1000, that has no record yet. `Memory` is its
    /// only fault.
    pub fn new(alloc: Global, number: u16) -> Result<Recorder, Fault>
        requires some { 1 ≤ number }
        requires few { number ≤ 1000 }
        ensures empty { IfOk result (λ recorder. HoldsLast recorder number []) }
        ensures memory { IsOkUnless result Fault.Memory }
    {
        let ring = or_memory(HeapCircularBuffer::with_capacity(alloc, number as usize))?;
        Ok(Recorder { ring })
    }

    /// Keeps the record of one scan more; if there is no space for it, the oldest goes. It takes
    /// no memory.
    pub fn keep(&mut self, latest: Record)
        ensures records { self.new.records
            ≡ last_items self.old.most (self.old.records ++ latest ∷ []) }
        ensures most { self.new.most ≡ self.old.most }
        // The last of all records that were kept, and not of those alone that it has.
        ensures last { (all : List Record) → HoldsLast self.old self.old.most all
            → HoldsLast self.new self.old.most (all ++ latest ∷ []) }
    {
        self.ring.push_back(latest);
    }

    /// The number of records it has, at most 1000.
    pub fn len(&self) -> usize
        ensures count { result ≡ length self.now.records }
        ensures few { result ≤ 1000 }
    {
        self.ring.len()
    }

    /// The record at an index, the oldest at 0; none from `len` on.
    pub fn get(&self, index: usize) -> Option<&Record>
        ensures { option_copied result ≡ slice_get self.now.records index }
    {
        self.ring.get(index)
    }
}
