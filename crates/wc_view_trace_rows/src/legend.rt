ghost use Rattle.std.specs.Prelude.{◌≡◌, ◌+◌, IfOk, IsOkUnless};
ghost use Rattle.wc_model.specs.Language.Views.{text_view};
ghost use Rattle.wc_view_trace_rows.specs.Legends.{IsLegendOf, kind_at, line_of, line_starts, literal_kind, name_of, note_of};
ghost use Rattle.wc_view_changes.specs.Shown.{Puts};

use crate::notes::{Note, Notes, note_among};
use crate::noting::note_units;
use std::alloc::Global;
use wc_cost::Loaded;
use wc_model::{Fault, Kind, Place, SlotKind, or_memory, put_bytes};

/// What a trace says of a program: the lines of a program's text, what they name, and the kinds of its places.
#[derive(Drop)]
pub struct Legend {
    text: Vec<u8>,
    starts: Vec<usize>,
    notes: Notes,
    pub(crate) kinds: Vec<SlotKind>,
}

/// Puts where the lines of a text start, and where one would start after the last.
fn put_starts(starts: &mut Vec<usize>, text: &[u8]) -> Result<(), Fault>
    ensures { Puts starts.old starts.new result (line_starts text.now) }
{
    starts.push(0).map_err(|_| Fault::Memory)?;
    for (index, byte) in text.iter().enumerate() {
        if *byte == b'\n' {
            starts.push(index + 1).map_err(|_| Fault::Memory)?;
        }
    }
    starts.push(text.len() + 1).map_err(|_| Fault::Memory)
}

impl Legend {
    /// The legend of a text that is loaded. `Memory` is the only fault.
    pub fn new(alloc: Global, text: &[u8], loaded: &Loaded<'_>) -> Result<Legend, Fault>
        ensures legend { IfOk result (λ legend. IsLegendOf legend text.now
            (text_view loaded.now.source)) }
        ensures memory { IsOkUnless result Fault.Memory }
    {
        let mut legend = Legend {
            text: Vec::new(alloc),
            starts: Vec::new(alloc),
            notes: Notes {
                notes: Vec::new(alloc),
                names: Vec::new(alloc),
            },
            kinds: Vec::new(alloc),
        };
        put_bytes(&mut legend.text, text)?;
        put_starts(&mut legend.starts, text)?;
        note_units(&mut legend.notes, loaded.checked().source())?;
        or_memory(legend.kinds.extend_from_slice(loaded.kinds()))?;
        Ok(legend)
    }

    /// The bytes of a line of the text, counted from 1, without its end.
    pub fn line(&self, number: u32) -> &[u8]
        ensures { result.now ≡ line_of self.now number }
    {
        let next = number as usize;
        if next == 0 {
            return b"";
        }
        let (Some(start), Some(next)) = (self.starts.get(next - 1), self.starts.get(next)) else {
            return b"";
        };
        self.text.get(*start..next.saturating_sub(1)).unwrap_or(b"")
    }

    /// The note of a line of that number among its notes, counted from 0.
    pub fn note(&self, line: u32, index: usize) -> Option<Note>
        ensures { result ≡ note_of self.now line index }
    {
        note_among(&self.notes.notes, line, index)
    }

    /// The kind of the literal that a line loads.
    pub(crate) fn literal_kind(&self, line: u32) -> Option<Kind>
        ensures { result ≡ literal_kind self.now line }
    {
        self.note(line, 0)?.kind
    }

    /// The name that a note speaks of.
    pub fn name(&self, note: &Note) -> &[u8]
        ensures { result.now ≡ name_of self.now note.now }
    {
        self.notes.names.get(note.start..note.end).unwrap_or(b"")
    }

    /// The kind of a place of the instance that begins there.
    pub fn kind(&self, base: usize, place: Place) -> Option<Kind>
        ensures { result ≡ kind_at self.now (base + place.0) }
    {
        match self.kinds.get(base.saturating_add(usize::from(place.0))) {
            Some(SlotKind::Bool) => Some(Kind::Bool),
            Some(SlotKind::Dint) => Some(Kind::Dint),
            Some(SlotKind::Time) => Some(Kind::Time),
            _ => None,
        }
    }
}
