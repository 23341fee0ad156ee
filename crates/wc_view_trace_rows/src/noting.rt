ghost use Rattle.std.specs.Prelude.{◌≡◌, ◌++◌, ◌∷◌, [], None, map, IsOkUnless, OnOk, option_map};
ghost use Rattle.wc_model.specs.Definitions.{name_of, kind_of, Lines, assignment_view, line_view, lines_view, term_view, text_view};
ghost use Rattle.wc_verify.specs.Instructions.{instr_line};
ghost use Rattle.wc_view_trace_rows.specs.Named.{Adds, IsWhole, call_named, dotted, items_named, line_named, lines_named, named_as, notes_named, opening_named, operand_named, text_named};
ghost use Rattle.wc_view_changes.specs.Shown.{Puts};

use crate::notes::{Note, Notes};
use wc_model::{Argument, Direction, Fault, Instr, Kind, Line, Operand, Source, Value, put_bytes};

impl Notes {
    /// Adds a note of a name, with a field of it if that is not empty. `Memory` is the only fault.
    fn add(&mut self, line: u32, kind: Option<Kind>, name: &[u8], field: &[u8]) -> Result<(), Fault>
        requires { IsWhole self.old }
        ensures { Adds self.old self.new result
            (named_as kind (name_of name.now) (name_of field.now) ∷ []) }
    {
        let start = self.names.len();
        put_name(&mut self.names, name, field)?;
        // The lines of a text ascend, so this is the line.
        let line = self.notes.last().map_or(line, |last| line.max(last.line));
        let note = Note {
            line,
            kind,
            start,
            end: self.names.len(),
        };
        self.notes.push(note).map_err(|_| Fault::Memory)
    }
}

/// Puts a name after others, and after it a point and a field if that is not empty.
fn put_name(names: &mut Vec<u8>, name: &[u8], field: &[u8]) -> Result<(), Fault>
    ensures { Puts names.old names.new result (dotted name.now field.now) }
{
    put_bytes(names, name)?;
    if field.is_empty() {
        return Ok(());
    }
    put_bytes(names, b".")?;
    put_bytes(names, field)
}

/// The kind of a literal.
fn kind_of(value: Value) -> Kind
    ensures { result ≡ kind_of value }
{
    match value {
        Value::Bool(_) => Kind::Bool,
        Value::Dint(_) => Kind::Dint,
        Value::Time(_) => Kind::Time,
    }
}

/// Notes what an operand names.
fn note_operand(notes: &mut Notes, line: u32, operand: &Operand<'_>) -> Result<(), Fault>
    requires { IsWhole notes.old }
    ensures { Adds notes.old notes.new result
        (operand_named (term_view operand.now) ∷ []) }
{
    match *operand {
        Operand::Literal(value) => notes.add(line, Some(kind_of(value)), b"", b""),
        Operand::Address(word) => notes.add(line, None, word.text, b""),
        Operand::Name(name) => notes.add(line, None, name, b""),
        Operand::Field { instance, field } => notes.add(line, None, instance, field),
    }
}

/// Notes the items of a call's list that have one direction, in written order.
fn note_items(
    notes: &mut Notes,
    line: u32,
    instance: &[u8],
    direction: Direction,
    arguments: &[Argument<'_>],
) -> Result<(), Fault>
    requires { IsWhole notes.old }
    ensures { Adds notes.old notes.new result
        (items_named direction (name_of instance.now) (map assignment_view arguments.now)) }
{
    for argument in arguments {
        match (direction, argument.direction) {
            (Direction::Into, Direction::Into) => notes.add(line, None, instance, argument.name)?,
            (Direction::OutOf, Direction::OutOf) => note_operand(notes, line, &argument.value)?,
            _ => {}
        }
    }
    Ok(())
}

/// Notes a call: its instance, its inputs, its outputs.
fn note_call(
    notes: &mut Notes,
    line: u32,
    instance: &[u8],
    arguments: &[Argument<'_>],
) -> Result<(), Fault>
    requires { IsWhole notes.old }
    ensures { Adds notes.old notes.new result
        (call_named (name_of instance.now) (map assignment_view arguments.now)) }
{
    notes.add(line, None, instance, b"")?;
    note_items(notes, line, instance, Direction::Into, arguments)?;
    note_items(notes, line, instance, Direction::OutOf, arguments)
}

/// Notes the operand of a line that opens a parenthesis, if it has one.
fn note_opening(notes: &mut Notes, line: u32, operand: &Option<Operand<'_>>) -> Result<(), Fault>
    requires { IsWhole notes.old }
    ensures { Adds notes.old notes.new result
        (opening_named (option_map term_view operand.now)) }
{
    match operand {
        Some(operand) => note_operand(notes, line, operand),
        None => Ok(()),
    }
}

/// Notes an instruction, and those in its parenthesis.
#[cycle(noting)]
fn note_instruction(notes: &mut Notes, instr: &Instr<'_>) -> Result<(), Fault>
    requires { IsWhole notes.old }
    ensures { Adds notes.old notes.new result
        (line_named (instr_line instr.now None)) }
{
    match instr {
        Instr::Load { operand, line, .. } => note_operand(notes, *line, operand),
        Instr::Store { target, line, .. } => note_operand(notes, *line, target),
        Instr::Defer {
            operand,
            inside,
            line,
            ..
        } => {
            note_opening(notes, *line, operand)?;
            note_lines(notes, inside)
        }
        Instr::Call {
            instance,
            arguments,
            line,
            ..
        } => note_call(notes, *line, instance, arguments),
        Instr::Apply { .. } | Instr::Not { .. } => Ok(()),
        Instr::Jump { .. } | Instr::Return { .. } => Ok(()),
    }
}

/// Notes a line, and those in its parenthesis.
#[cycle(noting)]
fn note_line(notes: &mut Notes, line: &Line<'_>) -> Result<(), Fault>
    requires { IsWhole notes.old }
    ensures named { OnOk result ((rest : Lines) → notes_named notes.new ++ lines_named rest
        ≡ notes_named notes.old ++ lines_named (line_view line.now rest)) }
    ensures within { OnOk result (IsWhole notes.new) }
    ensures memory { IsOkUnless result Fault.Memory }
{
    match &line.instr {
        Some(instr) => note_instruction(notes, instr),
        None => Ok(()),
    }
}

/// Notes lines in text order.
#[cycle(noting)]
fn note_lines(notes: &mut Notes, lines: &[Line<'_>]) -> Result<(), Fault>
    requires { IsWhole notes.old }
    ensures { Adds notes.old notes.new result
        (lines_named (lines_view lines.now)) }
{
    for line in lines {
        note_line(notes, line)?;
    }
    Ok(())
}

/// Notes all units of a text. `Memory` is the only fault.
pub(crate) fn note_units(notes: &mut Notes, source: &Source<'_>) -> Result<(), Fault>
    requires { IsWhole notes.old }
    ensures { Adds notes.old notes.new result
        (text_named (text_view source.now)) }
{
    for unit in &source.units {
        note_lines(notes, &unit.body)?;
    }
    Ok(())
}
