//! What every text has without a declaration: reserved words, addresses, fields of standard blocks.
use wc_built_in::{
    Keyword, elementary_type, field_named, is_reserved, is_type_word, keyword_named,
    standard_block, standard_fields, variable_at,
};
use wc_model::{Condition, Kind, Operator, Section, SlotKind, StandardBlock, UnitKind};

/// The words of instructions represent what they are.
fn are_instructions() -> bool {
    matches!(keyword_named(b"Orn"), Some(Keyword::Apply(Operator::Orn)))
        && matches!(keyword_named(b"ldn"), Some(Keyword::Load(true)))
        && matches!(
            keyword_named(b"RETCN"),
            Some(Keyword::Return(Condition::IfFalse))
        )
}

/// Other words represent what they are.
fn are_other_words() -> bool {
    matches!(
        keyword_named(b"end_program"),
        Some(Keyword::UnitEnd(UnitKind::Program))
    ) && matches!(keyword_named(b"VAR_IN_OUT"), Some(Keyword::Kept))
}

/// Words that are none of these represent nothing, and a word that is reserved need not represent anything.
fn are_no_others_reserved() -> bool {
    matches!(keyword_named(b"ld1"), None)
        && matches!(keyword_named(b""), None)
        && is_reserved(b"At")
        && !is_reserved(b"att")
}

#[test]
fn reserved_words_represent_what_they_are(rt: HostRuntime) {
    assert!(rt; are_instructions() && are_other_words() && are_no_others_reserved());
}

/// Words of types are those, without letter case.
fn are_type_words() -> bool {
    matches!(elementary_type(b"Time"), Some(Kind::Time))
        && matches!(elementary_type(b"ton"), None)
        && matches!(standard_block(b"Rs"), Some(StandardBlock::Rs))
        && matches!(standard_block(b"r"), None)
        && is_type_word(b"DINT")
        && is_type_word(b"tp")
        && !is_type_word(b"true")
}

#[test]
fn type_words_represent_types(rt: HostRuntime) {
    assert!(rt; are_type_words());
}

/// The count of a CTU has its number, its section and its kind.
fn is_count_a_field() -> bool {
    match field_named(StandardBlock::Ctu, b"CV") {
        Some(found) => {
            let output = found.number == 4 && found.field.section == Section::Output;
            output && found.field.slot == SlotKind::Dint
        }
        None => false,
    }
}

/// Addresses have the numbers of their variables.
fn are_addresses() -> bool {
    matches!(variable_at(b"%ix0.15"), Some(15))
        && matches!(variable_at(b"%QD3"), Some(44))
        && matches!(variable_at(b"%IX0.16"), None)
}

/// Whether a standard block has a field of this name.
fn has_field(block: StandardBlock, name: &[u8]) -> bool {
    field_named(block, name).is_some()
}

#[test]
fn addresses_and_fields_have_their_numbers(rt: HostRuntime) {
    assert!(rt; are_addresses() && is_count_a_field() && !has_field(StandardBlock::Sr, b"q"));
    assert!(rt; standard_fields(StandardBlock::Tp).len() == 6);
}
