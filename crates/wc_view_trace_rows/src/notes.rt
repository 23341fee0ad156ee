ghost use Rattle.std.specs.Prelude.{◌≡◌, ◌≤◌, ◌<◌, ℕ, length, slice_get, slice_index_or};
ghost use Rattle.wc_view_trace_rows.specs.Notes.{AreInOrder, note_among, of_line};
ghost use Rattle.wc_view_trace_rows.specs.declared.notes.Note.{Note as OneNote};

use wc_model::Kind;

/// What a line of the text names, besides its flat lines: of a load the kind of its literal, of a store its target, of a
/// call its instance, and after that note one for each item of its list, the inputs first.
#[derive(Clone, Copy)]
pub struct Note {
    /// The line of the text, counted from 1.
    pub line: u32,
    /// The kind of a literal that is loaded.
    pub kind: Option<Kind>,
    /// Where the name is among the names: a variable, an instance, or a field after its instance and a dot.
    pub start: usize,
    /// Where it ends.
    pub end: usize,
}

/// The notes of a text, in text order, and the names that they speak of, one after the other.
#[derive(Drop)]
pub(crate) struct Notes {
    pub(crate) notes: Vec<Note>,
    pub(crate) names: Vec<u8>,
    ghost in_order: { AreInOrder notes.items },
}

/// The number of notes of lines before that one, if they are in the order of their lines.
fn count_before(notes: &[Note], line: u32) -> usize
    ensures before { AreInOrder notes.now → (k : ℕ) (d : OneNote) → k < result
        → (slice_index_or notes.now k d).line < line }
    ensures from { AreInOrder notes.now → (k : ℕ) (d : OneNote) → result ≤ k
        → k < length notes.now → line ≤ (slice_index_or notes.now k d).line }
    ensures bound { result ≤ length notes.now }
{
    notes.partition_point(|note| note.line < line)
}

/// The note with that number among some notes, counted from 0, if it is one of that line.
fn note_at(notes: &[Note], place: usize, line: u32) -> Option<Note>
    ensures { result ≡ of_line line (slice_get notes.now place) }
{
    match notes.get(place) {
        Some(note) if note.line == line => Some(*note),
        _ => None,
    }
}

/// The note of a line with that number among those of the line, counted from 0.
pub(crate) fn note_among(notes: &[Note], line: u32, index: usize) -> Option<Note>
    ensures { AreInOrder notes.now → result ≡ note_among notes.now line index }
{
    let (_, from) = notes.split_at(count_before(notes, line));
    note_at(from, index, line)
}
