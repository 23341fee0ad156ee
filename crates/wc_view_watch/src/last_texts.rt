ghost use Rattle.std.specs.Prelude.{◌≡◌, ◌≤◌, ◌<◌, ◌++◌, ◌∷◌, [], ℕ, List, IfOk, IsOkUnless, OnOk, flat_map, map, replicate};
ghost use Rattle.wc_model.specs.Instrument.WeighingHistories.{last_items};
ghost use Rattle.wc_view_watch.specs.Ring.{HoldsLast};

use std::alloc::Global;
use std::marker::Model;
use wc_model::{Fault, put_bytes};

/// The last n texts, in a ring. The buffers are used again, so a text that fits takes no memory.
#[derive(Drop)]
pub(crate) struct LastTexts {
    texts: Vec<Vec<u8>>,
    first: usize,
}

impl Model for LastTexts {
    ghost use Rattle.std.specs.Prelude.{map};
    ghost use Rattle.wc_view_watch.specs.Ring.{RingState};

    ghost Value = { RingState };

    ghost view = { λ ring. record { texts = map (λ text. text.items) ring.texts.items; first = ring.first } };
}

/// N empty texts, each with a buffer of that many bytes. `Memory` is the only fault.
fn empty_texts(alloc: Global, number: u16, length: usize) -> Result<Vec<Vec<u8>>, Fault>
    ensures empty { IfOk result (λ all. map (λ text. text.items) all.items ≡ replicate number []) }
    ensures memory { IsOkUnless result Fault.Memory }
{
    let mut texts = Vec::new(alloc);
    for _index in 0..number {
        let text = Vec::with_capacity(alloc, length).map_err(|_| Fault::Memory)?;
        texts.push(text).map_err(|_| Fault::Memory)?;
    }
    Ok(texts)
}

/// Appends texts to another one. `Memory` is the only fault.
fn put_texts(out: &mut Vec<u8>, texts: &[Vec<u8>]) -> Result<(), Fault>
    ensures texts { OnOk result (out.new.items
        ≡ out.old.items ++ flat_map (λ text. text) (map (λ text. text.items) texts.now)) }
    ensures memory { IsOkUnless result Fault.Memory }
{
    for text in texts {
        put_bytes(out, text)?;
    }
    Ok(())
}

impl LastTexts {
    /// No texts yet, of which the last `number` are to be kept, each in a buffer of that many bytes. `Memory` is the only fault.
    pub(crate) fn new(alloc: Global, number: u16, length: usize) -> Result<LastTexts, Fault>
        requires some { 1 ≤ number }
        ensures empty { IfOk result (λ ring. HoldsLast ring number []) }
        ensures memory { IsOkUnless result Fault.Memory }
    {
        let texts = empty_texts(alloc, number, length)?;
        Ok(LastTexts { texts, first: 0 })
    }

    /// Keeps a text in the place of the oldest one. `Memory` is the only fault.
    pub(crate) fn keep(&mut self, text: &[u8]) -> Result<(), Fault>
        ensures keeps { OnOk result ((number : ℕ) (all : List (List ℕ))
            → HoldsLast self.old number all → HoldsLast self.new number (all ++ text.now ∷ [])) }
        ensures memory { IsOkUnless result Fault.Memory }
    {
        let at = if self.first < self.texts.len() {
            self.first
        } else {
            0
        };
        let Some(oldest) = self.texts.get_mut(at) else {
            return Err(Fault::Memory);
        };
        oldest.clear();
        put_bytes(oldest, text)?;
        self.first = at + 1;
        Ok(())
    }

    /// Appends the texts that are kept to another one, from the oldest. `Memory` is the only fault.
    pub(crate) fn put_all(&self, out: &mut Vec<u8>) -> Result<(), Fault>
        ensures puts { OnOk result ((number : ℕ) (all : List (List ℕ))
            → HoldsLast self.now number all
            → out.new.items ≡ out.old.items ++ flat_map (λ text. text) (last_items number all)) }
        ensures memory { IsOkUnless result Fault.Memory }
    {
        let first = self.first.min(self.texts.len());
        put_texts(out, &self.texts[first..])?;
        put_texts(out, &self.texts[..first])
    }
}
