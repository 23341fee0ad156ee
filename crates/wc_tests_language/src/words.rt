//! What the reserved words of a line and of a unit represent, in either letter case.
use wc_model::{Section, UnitKind};
use wc_text_lines::{ends_section, operation_named, section_named, unit_kind};

/// The words of units are known.
fn are_units_known() -> bool {
    let known = matches!(unit_kind(b"Program"), Some(UnitKind::Program))
        && matches!(unit_kind(b"FUNCTION_BLOCK"), Some(UnitKind::FunctionBlock));
    known && unit_kind(b"END_PROGRAM").is_none()
}

/// The words of sections are known.
fn are_sections_known() -> bool {
    let known = matches!(section_named(b"VAR"), Some(Section::Own))
        && matches!(section_named(b"var_input"), Some(Section::Input))
        && matches!(section_named(b"VAR_OUTPUT"), Some(Section::Output));
    known && section_named(b"END_VAR").is_none()
}

#[test]
fn words_of_units_are_known(rt: HostRuntime) {
    assert!(rt; are_units_known());
    assert!(rt; operation_named(b"jmpcn").is_some() && operation_named(b"JMPNC").is_none());
}

#[test]
fn words_of_sections_are_known(rt: HostRuntime) {
    assert!(rt; are_sections_known());
    assert!(rt; ends_section(b"End_Var") && !ends_section(b"VAR"));
}
