use crate::members::{address_advice, member_advice, point_advice};
use std::alloc::Global;
use wc_built_in::{Keyword, elementary_type, keyword_named};
use wc_diag_mistakes::{RefusedText, Sentence, block_with, words};
use wc_diag_stops::{
    Brought, difference, first_word, following, is_near, last_line, text_of, without_line_ends,
};
use wc_diag_texts::{Case, Mistake, empty_path_advice};
use wc_lexer::Token;
use wc_model::{Decl, Section, Unit, is_word};

/// The operators.
const OPERATORS: &str =
    "LD LDN ST STN S R AND ANDN OR ORN XOR XORN NOT ADD SUB MUL DIV MOD GT GE EQ NE LE LT JMP JMPC JMPCN CAL CALC CALCN RET RETC RETCN";

/// Which of some words another may be a misspelling of, if one is near: the nearest.
fn near_word(words: &'static str, word: &[u8]) -> Option<&'static str> {
    let mut differences = 0_u8..4;
    differences.find_map(|wanted| {
        let mut others = words.split(' ');
        others.find(|other| difference(other.as_bytes(), word) == Some(wanted))
    })
}

/// What to write for what is near, if something is.
pub(crate) fn likely(refused: &RefusedText<'_, '_>, near: Option<&str>) -> Sentence {
    let near = near?;
    Some(format!(in refused.alloc; "did you mean `{near}`?"))
}

/// What to write for a word that begins a line and is neither an operator nor a keyword: one that it may be a misspelling of.
fn operator_advice(refused: &RefusedText<'_, '_>) -> Sentence {
    let word = refused.token();
    let end = match refused.is_in_program() {
        true => "END_PROGRAM",
        false => "END_FUNCTION_BLOCK",
    };
    let sections = match begins_body(refused.before()) {
        true => "VAR_INPUT VAR_OUTPUT VAR",
        false => "",
    };
    let end = Some(end).filter(|end| is_near(end.as_bytes(), word));
    let near = end.or(near_word(OPERATORS, word));
    likely(refused, near.or(near_word(sections, word)))
}

/// Whether nothing but the head of its unit or a section of declarations is last in what comes before: another section may begin there.
fn begins_body(before: &[Token<'_>]) -> bool {
    let line = last_line(without_line_ends(before));
    let first = keyword_named(text_of(line.first()));
    is_word(b"END_VAR", text_of(line.last())) || matches!(first, Some(Keyword::UnitStart(_)))
}

/// What a name that is looked for is wanted for.
#[derive(Clone, Copy, PartialEq, Eq)]
pub(crate) enum NameUse {
    /// A variable that is read.
    Value,
    /// A variable that is written: no input of its unit is.
    Target,
    /// An instance, which has fields and can be called.
    Instance,
    /// An instance of the block of that name.
    InstanceOf,
}

/// The unit that a place is in, of those that a text was read into, with places for lines; nothing if there is none.
fn unit_at<'a, 't>(units: &'t [Unit<'a>], place: usize) -> Option<&'t Unit<'a>> {
    units.iter().rev().find(|unit| unit.line as usize <= place)
}

/// The name of a declaration that is wanted, if it has one: one that is spelled almost as this one, or the first of this type.
fn near_in_declaration<'a>(
    declaration: &Decl<'a>,
    name: &[u8],
    wanted: NameUse,
) -> Option<&'a str> {
    let kind = declaration.type_name.text;
    let is_of = wanted == NameUse::InstanceOf;
    let is_instance = is_of || wanted == NameUse::Instance;
    if is_instance == elementary_type(kind).is_some()
        || is_of && !kind.eq_ignore_ascii_case(name)
        || wanted == NameUse::Target && declaration.section == Section::Input
    {
        return None;
    }
    let mut names = declaration.names.iter();
    words(names.find(|word| is_of || is_near(word.text, name))?.text)
}

/// The name that the unit around a place declares and that is wanted: of two the later one.
fn near_in_unit<'a>(
    units: &[Unit<'a>],
    name: &[u8],
    at: usize,
    wanted: NameUse,
) -> Option<&'a str> {
    let mut declarations = unit_at(units, at)?.declarations.iter().rev();
    declarations.find_map(|declaration| near_in_declaration(declaration, name, wanted))
}

/// The name that the unit around what is refused declares and that is wanted.
pub(crate) fn near_name<'a>(
    refused: &RefusedText<'a, '_>,
    name: &[u8],
    wanted: NameUse,
) -> Option<&'a str> {
    near_in_unit(refused.units, name, refused.span.start, wanted)
}

/// What to write for the name of a block in place of that of an instance: the one of the unit, or one to declare.
fn instance_advice(refused: &RefusedText<'_, '_>) -> Sentence {
    let block = words(refused.offending())?;
    let Some(instance) = near_name(refused, block.as_bytes(), NameUse::InstanceOf) else {
        return Some(format!(in refused.alloc;
            "declare an instance in VAR, such as v : {block}; and call that: CAL v(..)"
        ));
    };
    Some(format!(in refused.alloc; "did you mean `{instance}`, which is an instance of {block}?"))
}

/// What to write for what is called and not declared: a label, or an instance.
fn called_advice(refused: &RefusedText<'_, '_>) -> Sentence {
    let name = words(refused.offending())?;
    let label = near_label(refused.units, name.as_bytes(), refused.span.start);
    let block = block_with(text_of(refused.after().get(1))).unwrap_or("TON");
    Some(match label {
        Some(label) if is_word(label.as_bytes(), name.as_bytes()) => {
            format!(in refused.alloc;
                "`{label}` is a label: jump to it with JMPC {label}, or make its lines a FUNCTION_BLOCK, and call an instance"
            )
        }
        _ => format!(in refused.alloc;
            "declare the instance in VAR, such as {name} : {block}; to call lines of your own make them a FUNCTION_BLOCK above, and {name} an instance of it"
        ),
    })
}

/// Which variable of the program a watched name may be a misspelling of, if one is near. The program was read into these units;
/// the word before the first point of the name is in none of them.
pub fn watched_advice(alloc: Global, units: &[Unit<'_>], name: &[u8]) -> Sentence {
    let word = first_word(name);
    let rest = str::from_utf8(following(name, word.len())).unwrap_or("");
    let wanted = match word.len() < name.len() {
        true => NameUse::Instance,
        false => NameUse::Value,
    };
    let near = near_in_unit(units, word, usize::MAX, wanted)?;
    Some(format!(in alloc; "did you mean `{near}{rest}`?"))
}

/// The label below a place, in the same unit, that is spelled almost as this one.
fn near_label<'a>(units: &[Unit<'a>], name: &[u8], place: usize) -> Option<&'a str> {
    let lines = unit_at(units, place)?.body.iter();
    let mut labels = lines.filter_map(|line| line.label);
    let label = labels.find(|label| label.line as usize > place && is_near(label.text, name))?;
    words(label.text)
}

/// What to write for a label that no line of the body has: a near one, or a line of its own.
fn label_advice(refused: &RefusedText<'_, '_>) -> Sentence {
    let name = refused.offending();
    match near_label(refused.units, name, refused.span.start) {
        None => {
            let label = words(name).unwrap_or("label");
            Some(format!(in refused.alloc;
                "write `{label}:` at the start of a line below this jump"
            ))
        }
        near => likely(refused, near),
    }
}

/// Which type a name that is not a type may be a misspelling of, of the text or of the language.
fn type_advice(refused: &RefusedText<'_, '_>) -> Sentence {
    let (name, place) = (refused.token(), refused.span.start);
    let mut units = refused.units.iter();
    let unit = units.find(|unit| unit.line as usize <= place && is_near(unit.name.text, name));
    let own = unit.and_then(|unit| words(unit.name.text));
    let known = near_word("BOOL DINT TIME R_TRIG SR RS CTU TON TOF TP", name);
    likely(refused, own.or(known))
}

/// What to write if one path alone leads to the label before the slice, and it brings nothing.
fn path_advice(refused: &RefusedText<'_, '_>) -> Sentence {
    let paths = refused.span.paths?;
    match (paths.other, paths.first.brought) {
        (None, Brought::Nothing) => Some(empty_path_advice(refused.alloc, paths.first.line)),
        _ => None,
    }
}

/// Where END_VAR is missing, if the word before begins a section, or is almost END_VAR.
fn section_advice(refused: &RefusedText<'_, '_>) -> Sentence {
    let token = refused.previous()?;
    let (line, word) = (token.line, words(refused.word_before())?);
    if matches!(keyword_named(token.text), Some(Keyword::SectionStart(_))) {
        return Some(format!(in refused.alloc;
            "write END_VAR before the {word} of line {line}: it ends the section above"
        ));
    }
    if is_word(b"END_VAR", token.text) || !is_near(b"END_VAR", token.text) {
        return None;
    }
    Some(format!(in refused.alloc;
        "did you mean END_VAR on line {line}? `{word}` there is read as the name of a variable"
    ))
}

/// What to write for a field, or a name in the list of a call, that a block does not have.
fn name_advice(refused: &RefusedText<'_, '_>) -> Sentence {
    let Some(block) = refused.block() else {
        return point_advice(refused);
    };
    let name = refused.offending();
    Some(match refused.number {
        409 => member_advice(refused, block, refused.span.is_passed, (b"", name)),
        _ => member_advice(refused, block, refused.sets(), (name, refused.field())),
    })
}

/// What to write for a name that is not declared, by what it is used for.
fn undeclared_advice(refused: &RefusedText<'_, '_>) -> Sentence {
    let is_called = refused.span.formal.is_none() && refused.is_called();
    let wanted = match refused.sets() {
        true => NameUse::Target,
        false if is_called => NameUse::Instance,
        false => NameUse::Value,
    };
    match near_name(refused, refused.offending(), wanted) {
        None if is_called => called_advice(refused),
        near => likely(refused, near),
    }
}

/// What to write instead, with the available values; nothing beyond the hint, if nothing is found.
pub fn advice_at(refused: &RefusedText<'_, '_>, mistake: Mistake) -> Sentence {
    let token = refused.token();
    match (refused.number, mistake.case) {
        (201, Case::NoOperator) => operator_advice(refused),
        (201, Case::NoUnit) => likely(refused, near_word("PROGRAM FUNCTION_BLOCK", token)),
        (201, Case::OpenSection) => section_advice(refused),
        (201, Case::NoAddress) => address_advice(refused),
        (302, Case::Plain) => type_advice(refused),
        (401, Case::Plain) => undeclared_advice(refused),
        (401, Case::BlockType) => instance_advice(refused),
        (403, Case::AtLabel) => path_advice(refused),
        (406, Case::Plain) => label_advice(refused),
        (401, Case::Field) => name_advice(refused),
        (409, Case::NotOfBlock(_) | Case::NotOfOwnBlock) => name_advice(refused),
        _ => None,
    }
}
