ghost use Rattle.std.specs.Prelude.{◌≡◌, ◌∷◌, [], map};
ghost use Rattle.wc_view_trace.specs.Members.{Adds, integer_token, integers_member, name_member, name_text, number_member, token_of_value, value_if_any};

use json::Writer;
use std::alloc::{AllocError, Global};
use wc_model::{Kind, Value};
use wc_view_trace_rows::value_of;

/// A name as a text: names in a program are ASCII.
fn name_text(name: &[u8]) -> &str
    ensures { result.now ≡ name_text name.now }
{
    match str::from_utf8(name) {
        Ok(text) => text,
        Err(_) => "",
    }
}

/// Writes a member with a number.
pub(crate) fn write_number(writer: &mut Writer, member: &str, number: u64) -> Result<(), AllocError>
    ensures { Adds writer.old writer.new result (number_member member.now number) }
{
    writer.key(member)?;
    writer.u64(number)
}

/// Writes numbers with their signs, one after another.
fn write_each(writer: &mut Writer, numbers: &[i32]) -> Result<(), AllocError>
    ensures { Adds writer.old writer.new result (map integer_token numbers.now) }
{
    for number in numbers {
        writer.i64(i64::from(*number))?;
    }
    Ok(())
}

/// Writes a member with an array of numbers with their signs.
pub(crate) fn write_integers(
    writer: &mut Writer,
    member: &str,
    numbers: &[i32],
) -> Result<(), AllocError>
    ensures { Adds writer.old writer.new result (integers_member member.now numbers.now) }
{
    writer.key(member)?;
    writer.begin_array()?;
    write_each(writer, numbers)?;
    writer.end_array()
}

/// Writes a member with a name of the program.
pub(crate) fn write_name(writer: &mut Writer, member: &str, name: &[u8]) -> Result<(), AllocError>
    ensures { Adds writer.old writer.new result (name_member member.now name.now) }
{
    writer.key(member)?;
    writer.string(name_text(name))
}

/// Writes a value: a BOOL as true or false, a DINT as a number, a TIME as a literal such as `T#100ms`.
fn write_value(alloc: Global, writer: &mut Writer, value: Value) -> Result<(), AllocError>
    ensures { Adds writer.old writer.new result (token_of_value value ∷ []) }
{
    match value {
        Value::Bool(truth) => writer.boolean(truth),
        Value::Dint(number) => writer.i64(i64::from(number)),
        Value::Time(time) => {
            let text = format!(in alloc; "T#{time}ms")?;
            writer.string(text.as_str())
        }
    }
}

/// Writes a member with the value of a kind that has that number, if there is one.
pub(crate) fn write_number_of_kind(
    alloc: Global,
    writer: &mut Writer,
    member: &str,
    kind: Option<Kind>,
    number: Option<i32>,
) -> Result<(), AllocError>
    ensures { Adds writer.old writer.new result (value_if_any member.now kind number) }
{
    let Some(number) = number else {
        return Ok(());
    };
    writer.key(member)?;
    write_value(alloc, writer, value_of(kind, number))
}
