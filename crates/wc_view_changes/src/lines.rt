ghost use Rattle.std.specs.Prelude.{◌≡◌, ◌++◌, ℕ, List, Option, Some, OnOk, IsOkUnless, true, false, codes, option_map};
ghost use Rattle.std.specs.Fmt.{signed_decimal};
ghost use Rattle.wc_model.specs.Language.Store.{Plain};
ghost use Rattle.wc_view_changes.specs.ChangeReport.{content_text, line_text, lost_text, note_on, note_text};
ghost use Rattle.wc_view_changes.specs.ChangeReport as texts;
ghost use Rattle.wc_model.specs.Definitions.{content_number, kind_of};
ghost use Rattle.wc_model.specs.declared.kind.Kind.{Kind};
ghost use Rattle.wc_model.specs.declared.value.Value.{Value};
ghost use Rattle.wc_view_changes.specs.Shown as shown;
ghost use Rattle.wc_view_changes.specs.Shown.{Puts, shape_view};

use crate::shape::{FrameEntry, block_text, kind_text, shape_type};
use wc_model::{Fault, Kind, Value, put_bytes};
use wc_report::put_signed;

/// Puts a number of milliseconds as a literal.
fn put_time(out: &mut Vec<u8>, number: i64) -> Result<(), Fault>
    ensures { Puts out.old out.new result
        (codes "T#" ++ (signed_decimal number ++ codes "ms")) }
{
    put_bytes(out, b"T#")?;
    put_signed(out, number)?;
    put_bytes(out, b"ms")
}

/// Puts a value of a kind, whose number as a store keeps it is this one, as a literal of the language. `Memory` is the only
/// fault.
pub fn put_literal(out: &mut Vec<u8>, kind: Kind, number: i64) -> Result<(), Fault>
    ensures value { (value : Value) → kind_of value ≡ kind
        → number ≡ content_number (Plain value)
        → OnOk result (out.new.items ≡ out.old.items ++ content_text (Plain value)) }
    ensures memory { IsOkUnless result Fault.Memory }
{
    match kind {
        Kind::Bool if number == 0 => put_bytes(out, b"FALSE"),
        Kind::Bool => put_bytes(out, b"TRUE"),
        Kind::Dint => put_signed(out, number),
        Kind::Time => put_time(out, number),
    }
}

/// Puts a value as a literal of the language. `Memory` is the only fault.
pub fn put_value(out: &mut Vec<u8>, value: Value) -> Result<(), Fault>
    ensures value { OnOk result
        (out.new.items ≡ out.old.items ++ content_text (Plain value)) }
    ensures memory { IsOkUnless result Fault.Memory }
{
    match value {
        Value::Bool(false) => put_bytes(out, b"FALSE"),
        Value::Bool(true) => put_bytes(out, b"TRUE"),
        Value::Dint(number) => put_signed(out, i64::from(number)),
        Value::Time(time) => put_time(out, i64::from(time)),
    }
}

/// Puts a type, and the first value of what has one of its own.
fn put_shape(out: &mut Vec<u8>, shape: FrameEntry) -> Result<(), Fault>
    ensures { Puts out.old out.new result (texts.shape_text (shape_view shape)) }
{
    match shape {
        FrameEntry::Instance(block) => put_bytes(out, block_text(block)),
        FrameEntry::Plain(kind, value) => {
            put_bytes(out, kind_text(kind))?;
            put_bytes(out, b" ")?;
            put_value(out, value)
        }
    }
}

/// Puts what a line says first, and the names of its variable.
fn put_names(out: &mut Vec<u8>, word: &[u8], path: (&[u8], &[u8])) -> Result<(), Fault>
    ensures { Puts out.old out.new result
        (word.now ++ (path.entry.0.now ++ path.entry.1.now)) }
{
    put_bytes(out, word)?;
    put_bytes(out, path.0)?;
    put_bytes(out, path.1)
}

/// Puts the line of a variable that keeps its value.
pub(crate) fn put_kept(out: &mut Vec<u8>, path: (&[u8], &[u8])) -> Result<(), Fault>
    ensures line { (shape : shown.FrameEntry) (old : Option (List ℕ)) → OnOk result
        (out.new.items ≡ out.old.items
        ++ line_text true (path.entry.0.now ++ path.entry.1.now) shape old) }
    ensures memory { IsOkUnless result Fault.Memory }
{
    put_names(out, b"kept ", path)?;
    put_bytes(out, b"\n")
}

/// Puts the line of a variable that begins with its first value, and why.
pub(crate) fn put_first(
    out: &mut Vec<u8>,
    path: (&[u8], &[u8]),
    shape: FrameEntry,
    old_type: Option<&[u8]>,
) -> Result<(), Fault>
    ensures { Puts out.old out.new result
        (line_text false (path.entry.0.now ++ path.entry.1.now) (shape_view shape)
        (option_map (λ spelled. spelled.now) old_type.entry)) }
{
    put_names(out, b"first ", path)?;
    put_bytes(out, b" ")?;
    put_shape(out, shape)?;
    let Some(spelled) = old_type else {
        return put_bytes(out, b" new\n");
    };
    put_bytes(out, b" was ")?;
    put_bytes(out, spelled)?;
    put_bytes(out, b"\n")
}

/// Puts the line of a variable of the old program that is lost.
pub(crate) fn put_lost(
    out: &mut Vec<u8>,
    path: (&[u8], &[u8]),
    shape: FrameEntry,
) -> Result<(), Fault>
    ensures { Puts out.old out.new result
        (lost_text false (path.entry.0.now ++ path.entry.1.now) (shape_view shape)) }
{
    put_names(out, b"lost ", path)?;
    put_bytes(out, b" ")?;
    put_bytes(out, shape_type(shape))?;
    put_bytes(out, b"\n")
}

/// Puts bytes, and a value as a literal after them.
fn put_before(out: &mut Vec<u8>, words: &[u8], value: Value) -> Result<(), Fault>
    ensures { Puts out.old out.new result (words.now ++ content_text (Plain value)) }
{
    put_bytes(out, words)?;
    put_value(out, value)
}

/// Puts a note in words.
fn put_sentence(
    out: &mut Vec<u8>,
    path: (&[u8], &[u8]),
    first: Value,
    before: Value,
) -> Result<(), Fault>
    ensures { Puts out.old out.new result
        (note_text false (path.entry.0.now ++ path.entry.1.now) (Plain first) (Plain before)) }
{
    put_names(out, b"note: a change keeps the value of `", path)?;
    put_before(out, b"`; its first value, ", first)?;
    put_before(out, b", is not taken (it was ", before)?;
    put_bytes(out, b")\n")
}

/// Puts a note as an object (JSON).
fn put_object(
    out: &mut Vec<u8>,
    path: (&[u8], &[u8]),
    first: Value,
    before: Value,
) -> Result<(), Fault>
    ensures { Puts out.old out.new result
        (note_text true (path.entry.0.now ++ path.entry.1.now) (Plain first) (Plain before)) }
{
    put_names(out, b"{\"severity\":\"note\",\"variable\":\"", path)?;
    put_before(out, b"\",\"first\":\"", first)?;
    put_before(out, b"\",\"before\":\"", before)?;
    put_bytes(out, b"\"}\n")
}

/// Puts the note on a variable that keeps its value, if its first value is another than before.
pub(crate) fn put_note(
    out: &mut Vec<u8>,
    as_objects: bool,
    path: (&[u8], &[u8]),
    first: Value,
    before: Value,
) -> Result<(), Fault>
    ensures note { (kind : Kind) → OnOk result (out.new.items ≡ out.old.items
        ++ note_on as_objects true (path.entry.0.now ++ path.entry.1.now) (shown.Plain kind (Plain first))
        (Some (Plain before))) }
    ensures memory { IsOkUnless result Fault.Memory }
{
    if first == before {
        return Ok(());
    }
    if as_objects {
        return put_object(out, path, first, before);
    }
    put_sentence(out, path, first, before)
}
