use crate::advice::{NameUse, likely, near_name};
use std::alloc::AllocError;
use std::fmt::Write;
use wc_built_in::{standard_block, standard_fields, variable_at};
use wc_diag_mistakes::{RefusedText, Sentence, block_with, words};
use wc_diag_stops::{same_prefix, without_line_ends};
use wc_diag_texts::{Case, hint_of};
use wc_model::{Decl, Section, StandardBlock, Unit};

/// This number of bytes of a list of names is printed at most.
const LONGEST_LIST: usize = 40;

/// Nearness of short names, of which one letter may be all: the last letter differs at most.
fn is_near_member(member: &[u8], name: &[u8]) -> bool {
    let longer = member.len().max(name.len());
    longer > 1 && same_prefix(member, name).saturating_add(1) >= longer
}

/// The block of the text that has that name.
fn block_named<'a, 't>(refused: &RefusedText<'a, 't>, block: &str) -> Option<&'t Unit<'a>> {
    let mut units = refused.units.iter();
    units.find(|unit| unit.name.text.eq_ignore_ascii_case(block.as_bytes()))
}

/// The inputs of a block of the text, or its outputs, in words, with commas between, as long as they are not too long.
fn own_members(
    refused: &RefusedText<'_, '_>,
    block: &str,
    wanted: Section,
) -> Result<String, AllocError> {
    let mut names = String::new(refused.alloc);
    if let Some(unit) = block_named(refused, block) {
        for declaration in &unit.declarations {
            for name in &declaration.names {
                if declaration.section == wanted && names.len() <= LONGEST_LIST {
                    let mark = if names.is_empty() { "" } else { ", " };
                    write!(names, "{mark}{}", words(name.text).unwrap_or(""))?;
                }
            }
        }
    }
    let (word, sign) = match wanted {
        Section::Input => ("input", ":="),
        _ => ("output", "=>"),
    };
    if names.is_empty() {
        return format!(in refused.alloc; "no {word}s");
    }
    let end = if names.contains(',') { "s" } else { "" };
    format!(in refused.alloc; "the {word}{end} {names} ({sign})")
}

/// What to write for a name, after that of its instance, that a block does not have as an input or output: a near one, and what it has.
pub(crate) fn member_advice(
    refused: &RefusedText<'_, '_>,
    block: &str,
    is_input: bool,
    (instance, name): (&[u8], &[u8]),
) -> Result<String, AllocError> {
    let Some(standard) = standard_block(block.as_bytes()) else {
        let inputs = own_members(refused, block, Section::Input)?;
        let outputs = own_members(refused, block, Section::Output)?;
        return format!(in refused.alloc; "{block} has {inputs} and {outputs}");
    };
    let said = hint_of(409, Case::NotOfBlock(standard)).unwrap_or("");
    // by the names of the inputs of SR and RS it is not known which of the two is meant
    let is_sure = !is_input || !matches!(standard, StandardBlock::Sr | StandardBlock::Rs);
    let wanted = match is_input {
        true => Section::Input,
        false => Section::Output,
    };
    let mut fields = standard_fields(standard).iter();
    let near = fields.find(|field| {
        is_sure && field.section == wanted && is_near_member(field.name, name)
    });
    let Some(near) = near.and_then(|field| words(field.name)) else {
        return format!(in refused.alloc; "{said}");
    };
    let near = near.to_ascii_uppercase(refused.alloc)?;
    match words(instance) {
        None => format!(in refused.alloc; "did you mean `{near}`? {said}"),
        Some(instance) => format!(in refused.alloc; "did you mean `{instance}.{near}`? {said}"),
    }
}

/// What to write for a name before a point that is not of an instance.
pub(crate) fn point_advice(refused: &RefusedText<'_, '_>) -> Sentence {
    let (alloc, name) = (refused.alloc, words(refused.offending())?);
    let field = words(refused.field())?;
    if let Some(kind) = refused.word_at(refused.span.block) {
        return Some(format!(in alloc;
            "`{name}` is a {kind}, and has no fields: only an instance has, such as t.Q of t : TON;"
        ));
    }
    let instance = near_name(refused, name.as_bytes(), NameUse::InstanceOf);
    if let Some(near) = instance.or(near_name(refused, name.as_bytes(), NameUse::Instance)) {
        return Some(format!(in alloc; "did you mean `{near}.{field}`?"));
    }
    if standard_block(name.as_bytes()).is_some() || block_named(refused, name).is_some() {
        return Some(format!(in alloc;
            "{name} is a type: declare an instance in VAR, such as v : {name}; and write v.{field}"
        ));
    }
    Some(match block_with(field.as_bytes()) {
        Some(block) => {
            format!(in alloc; "declare the instance in VAR, such as {name} : {block};")
        }
        None if refused.is_in_program() => {
            format!(in alloc;
                "there are no global variables: write {field}, declared in VAR, without `{name}.`"
            )
        }
        None => {
            format!(in alloc;
                "a block sees no variables of other units: declare {field} in VAR_INPUT, write it without `{name}.`, and pass it in the CAL"
            )
        }
    })
}

/// The address that a number after a point is of, if it is one without its `%`.
pub(crate) fn address_advice(refused: &RefusedText<'_, '_>) -> Sentence {
    let digits = words(refused.token()).unwrap_or("");
    let [.., name, _] = without_line_ends(refused.before()) else {
        return None;
    };
    let name = words(name.text).unwrap_or("");
    let Ok(address) = format!(in refused.alloc; "%{name}.{digits}") else {
        return Some(Err(AllocError));
    };
    variable_at(address.as_bytes())?;
    likely(refused, Some(&address))
}
