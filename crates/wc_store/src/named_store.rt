ghost use Rattle.std.specs.Prelude.{◌≡◌, pos};
ghost use Rattle.wc_model.specs.Language.Frames.{IsInRange};
ghost use Rattle.wc_store.specs.Inside.{number_view, tag_view};

use crate::store::Store;
use indexmap::IndexMap;
use std::alloc::Global;
use std::marker::Model;
use wc_model::{Fault, Place, SlotKind, or_memory};

/// A number with its kind.
#[derive(Clone, Copy)]
pub(crate) enum TaggedNumber {
    /// FALSE or TRUE.
    Bool(bool),
    /// A DINT.
    Dint(i32),
    /// A TIME, in milliseconds.
    Time(i32),
    /// A moment, in milliseconds.
    Moment(u64),
    /// A timer's phase.
    Phase(u8),
}

impl TaggedNumber {
    /// 0 of a kind.
    pub(crate) fn zero(kind: SlotKind) -> TaggedNumber
        ensures kind { tag_view result ≡ kind }
        ensures number { number_view result ≡ pos 0 }
    {
        match kind {
            SlotKind::Bool => TaggedNumber::Bool(false),
            SlotKind::Dint => TaggedNumber::Dint(0),
            SlotKind::Time => TaggedNumber::Time(0),
            SlotKind::Moment => TaggedNumber::Moment(0),
            SlotKind::Phase => TaggedNumber::Phase(0),
        }
    }

    /// The number by itself.
    pub(crate) fn number(self) -> i64
        requires { IsInRange (tag_view self) (number_view self) }
        ensures { result ≡ number_view self }
    {
        match self {
            TaggedNumber::Bool(truth) => i64::from(truth),
            TaggedNumber::Dint(number) => i64::from(number),
            TaggedNumber::Time(time) => i64::from(time),
            TaggedNumber::Moment(moment) => moment as i64,
            TaggedNumber::Phase(phase) => i64::from(phase),
        }
    }

    /// A number of the same kind.
    pub(crate) fn with_number(self, number: i64) -> TaggedNumber
        requires { IsInRange (tag_view self) number }
        ensures kind { tag_view result ≡ tag_view self }
        ensures number { number_view result ≡ number }
    {
        match self {
            TaggedNumber::Bool(_) => TaggedNumber::Bool(number == 1),
            TaggedNumber::Dint(_) => TaggedNumber::Dint(number as i32),
            TaggedNumber::Time(_) => TaggedNumber::Time(number as i32),
            TaggedNumber::Moment(_) => TaggedNumber::Moment(number as u64),
            TaggedNumber::Phase(_) => TaggedNumber::Phase(number as u8),
        }
    }
}

/// A store that keeps each number with its kind under the number of its place, for tests that compare stores.
#[derive(Drop)]
pub struct NamedStore {
    slots: IndexMap<usize, TaggedNumber>,
}

impl Model for NamedStore {
    ghost use Rattle.wc_store.specs.Inside.{SlotNumbers, named_view, AreNamesSound};

    ghost Value = { SlotNumbers };

    ghost view = { named_view };

    ghost invariant = { AreNamesSound };
}

impl Store for NamedStore {
    ghost slot_kinds = { λ store. store.kinds };

    ghost numbers = { λ store. store.numbers };

    fn make(alloc: Global, kinds: &[SlotKind]) -> Result<Self, Fault> {
        let mut slots = or_memory(IndexMap::with_capacity(alloc, kinds.len()))?;
        for kind in kinds {
            let place = slots.len();
            let Ok(_) = slots.insert(place, TaggedNumber::zero(*kind)) else {
                return Err(Fault::Memory);
            };
        }
        Ok(NamedStore { slots })
    }

    fn size(&self) -> usize {
        self.slots.len()
    }

    fn get(&self, place: Place) -> i64 {
        match self.slots.get(&usize::from(place.0)) {
            Some(tagged) => tagged.number(),
            // Below the size there is a number at each place, so this is not reached.
            None => 0,
        }
    }

    fn set(&mut self, place: Place, number: i64) {
        if let Some(tagged) = self.slots.get_mut(&usize::from(place.0)) {
            *tagged = tagged.with_number(number);
        }
    }
}
