ghost use Rattle.std.specs.Prelude.{◌≡◌, ℕ, ◌≤◌, [], ◌∷◌, ◌++◌, List, Some, option_map, OnOk, IfOk, IfErr, map, length, true, false};
ghost use Rattle.wc_model.specs.Definitions.{Check, first_broken, Variable as Declared, declared_by, Name, name_of, ProgramUnit, Text, declaration_view, name_view, unit_view, word_view, Validates};
ghost use Rattle.wc_model.specs.Language.DeclarationRules.{Taken, and_more, declaration_checks, initial_checks, is_among, is_closed_before, is_new, name_of_word, names_are_new, not_reserved, places_of_type, reserved_words, capacity_checks, suits_kind, type_checks, unit_declaration_checks};
ghost use Rattle.wc_names.specs.{is_allowed_in, is_elementary, is_plain, spelled_in, spelled_in_table, spelled_of_unit, spelled_where, AreDifferent, IsTableOf, type_at};
ghost use Rattle.wc_declare.specs.SoFar.{HasTaken, HoldsRows, IsEmptyOf, SameNames, suits_numbered, AreUnitsOf, TakesNoMemory};

use crate::body::refusal;
use crate::capacity::add_variable;
use crate::types::{Units, block, type_at, width};
use wc_built_in::{is_reserved, is_type_word};
use wc_model::{Decl, Fault, Initial, Kind, Section, Unit, Value, Word};
use wc_names::{DeclaredType, Names, UnitTable, Variable};

/// Checks a name by 307 and 301, and adds it to those that are declared.
pub(crate) fn declare_name<'a>(names: &mut Names<'a>, word: Word<'a>) -> Result<(), Fault>
    ensures validated { (known : List Name) (rest : List Check) → SameNames names.old known
        → Validates
        (first_broken
        (not_reserved (word_view word.entry) ∷ is_new known (word_view word.entry) ∷ rest))
        (first_broken rest) result }
    ensures added { OnOk result (names.new ≡ names.old ++ name_view word.entry ∷ []) }
    ensures new { OnOk result (is_among names.old (name_view word.entry) ≡ false) }
    // Only a name that breaks neither rule takes memory, so no refusal is reported as out of memory.
    ensures known { IfErr result
        (λ fault. fault ≡ Fault.Memory → is_among names.old (name_view word.entry) ≡ false) }
    ensures reserved { IfErr result
        (λ fault. fault ≡ Fault.Memory → is_among reserved_words (name_view word.entry) ≡ false) }
{
    if is_reserved(word.text) {
        return Err(refusal(307, word.line));
    }
    if names.add(word.text)? {
        Ok(())
    } else {
        Err(refusal(301, word.line))
    }
}

/// Checks the names of a declaration by 307 and 301, and adds them to those that are declared.
fn declare_names<'a>(names: &mut Names<'a>, declaration: &Decl<'a>) -> Result<(), Fault>
    ensures validated { (known : List Name) (rest : List Check) → SameNames names.old known
        → Validates
        (first_broken (names_are_new known (map word_view declaration.now.names.items) ++ rest))
        (first_broken rest) result }
    ensures added { OnOk result
        (names.new ≡ names.old ++ map name_of_word (map word_view declaration.now.names.items)) }
    ensures different { OnOk result (AreDifferent names.old → AreDifferent names.new) }
{
    for word in &declaration.names {
        declare_name(names, *word)?;
    }
    Ok(())
}

/// Whether a name is not a function block of the text that is not closed before.
fn is_closed_before<'a>(units: &Units<'a>, name: &[u8]) -> bool
    ensures { (text : Text) (before : List ProgramUnit) → AreUnitsOf text before units.now
        → result ≡ is_closed_before text before (name_of name.now) }
{
    if is_type_word(name) {
        return true;
    }
    if block(units, name).is_some() {
        return true;
    }
    !units.blocks.contains(name)
}

/// Whether a variable of the type may be in the section.
fn is_allowed_in(section: Section, declared: DeclaredType) -> bool
    ensures { result ≡ is_allowed_in section declared }
{
    matches!(declared, DeclaredType::Elementary(_)) || matches!(section, Section::Own)
}

/// Checks the type of a declaration by 308 and 302.
fn validate_type<'a>(units: &Units<'a>, declaration: &Decl<'a>) -> Result<DeclaredType, Fault>
    ensures validated { (text : Text) (before : List ProgramUnit) (rest : List Check)
        → AreUnitsOf text before units.now
        → Validates (first_broken (type_checks text before (declaration_view declaration.now)
        ++ rest))
        (first_broken rest) result }
    ensures declared { IfOk result
        (λ declared. (text : Text) (before : List ProgramUnit) → AreUnitsOf text before units.now
        → type_at before (name_view declaration.now.type_name) ≡ Some declared) }
    ensures allowed { IfOk result (λ declared. is_allowed_in declaration.now.section declared
        ≡ true) }
    ensures plain { IfOk result
        (λ declared. is_elementary declared ≡ is_plain declaration.now.type_name) }
    ensures refuses { TakesNoMemory result }
{
    let word = declaration.type_name;
    if !is_closed_before(units, word.text) {
        return Err(refusal(308, word.line));
    }
    let Some(declared) = type_at(units, word.text) else {
        return Err(refusal(302, word.line));
    };
    if is_allowed_in(declaration.section, declared) {
        Ok(declared)
    } else {
        Err(refusal(302, word.line))
    }
}

/// Whether a literal is one of the kind; a whole number 0 or 1 serves a BOOL.
fn suits_kind(kind: Kind, value: Value) -> bool
    ensures { result ≡ suits_kind kind value }
{
    match (kind, value) {
        (Kind::Bool, Value::Bool(_)) => true,
        (Kind::Bool, Value::Dint(number)) => number == 0 || number == 1,
        (Kind::Dint, Value::Dint(_)) | (Kind::Time, Value::Time(_)) => true,
        _ => false,
    }
}

/// Whether a literal is one of the type.
fn suits(declared: DeclaredType, value: Value) -> bool
    ensures { result ≡ suits_numbered declared value }
{
    match declared {
        DeclaredType::Elementary(kind) => suits_kind(kind, value),
        _ => false,
    }
}

/// Checks the value after `:=` of a declaration by 303.
fn validate_initial<'a>(declaration: &Decl<'a>, declared: DeclaredType) -> Result<(), Fault>
    ensures validated { (before : List ProgramUnit) (rest : List Check)
        → type_at before (name_view declaration.now.type_name) ≡ Some declared
        → Validates (first_broken (initial_checks before (declaration_view declaration.now)
        ++ rest))
        (first_broken rest) result }
    ensures refuses { TakesNoMemory result }
{
    let Some(initial) = declaration.initial else {
        return Ok(());
    };
    if suits(declared, initial.value) {
        Ok(())
    } else {
        Err(refusal(303, initial.line))
    }
}

/// The literal after `:=`, if one is written.
fn literal(initial: Option<Initial>) -> Option<Value>
    ensures { result ≡ option_map (λ i. i.value) initial }
{
    Some(initial?.value)
}

/// Adds the variables of a declaration, named already, after the others: 306 at the first for which there is no
/// space.
fn declare_variables<'a>(
    table: &mut UnitTable<'a>,
    declaration: &Decl<'a>,
    declared: DeclaredType,
    width: u16,
) -> Result<(), Fault>
    ensures validated { (t : Taken) (rest : List Check) → HasTaken t table.old
        → Validates
        (first_broken (capacity_checks t width (map word_view declaration.now.names.items) ++ rest))
        (first_broken rest) result }
    ensures taken { OnOk result
        ((t : Taken) → HasTaken t table.old
        → HasTaken
        (and_more t (length (map word_view declaration.now.names.items)) width) table.new) }
    ensures small { OnOk result (table.old.size ≤ 4096 → table.new.size ≤ 4096) }
    ensures held { OnOk result
        ((before : List ProgramUnit) (first : ℕ) (vs : List Declared)
        → type_at before (name_view declaration.now.type_name) ≡ Some declared
        → places_of_type before (name_view declaration.now.type_name) ≡ width
        → is_allowed_in declaration.now.section declared ≡ true
        → HoldsRows before first vs table.old
        → HoldsRows before first (vs ++ declared_by (declaration_view declaration.now)) table.new) }
    ensures spelled { OnOk result
        (spelled_in_table table.new ≡ spelled_in_table table.old
        ++ spelled_where (is_elementary declared) declaration.now.names.items) }
    ensures names { OnOk result (table.new.names ≡ table.old.names) }
    ensures is_block { OnOk result (table.new.is_block ≡ table.old.is_block) }
{
    let initial = literal(declaration.initial);
    for word in &declaration.names {
        let variable = Variable {
            section: declaration.section,
            declared,
            first: table.size,
            initial,
        };
        add_variable(table, *word, variable, width)?;
    }
    Ok(())
}

/// Checks a declaration after what its unit's table holds so far, and adds its variables.
fn validate_declaration<'a>(
    units: &Units<'a>,
    table: &mut UnitTable<'a>,
    declaration: &Decl<'a>,
) -> Result<(), Fault>
    ensures validated { (text : Text) (before : List ProgramUnit) (known : List Name) (t : Taken)
        (rest : List Check) → AreUnitsOf text before units.now → SameNames table.old.names known
        → HasTaken t table.old
        → Validates
        (first_broken
        (declaration_checks text before known t (declaration_view declaration.now) ++ rest))
        (first_broken rest) result }
    ensures taken { OnOk result
        ((text : Text) (before : List ProgramUnit) (t : Taken) → AreUnitsOf text before units.now
        → HasTaken t table.old
        → HasTaken
        (and_more t (length (map word_view declaration.now.names.items))
        (places_of_type before (name_view declaration.now.type_name))) table.new) }
    ensures small { OnOk result (table.old.size ≤ 4096 → table.new.size ≤ 4096) }
    ensures held { OnOk result
        ((text : Text) (before : List ProgramUnit) (first : ℕ) (vs : List Declared)
        → AreUnitsOf text before units.now → HoldsRows before first vs table.old
        → HoldsRows before first (vs ++ declared_by (declaration_view declaration.now)) table.new) }
    ensures spelled { OnOk result
        (spelled_in_table table.new ≡ spelled_in_table table.old ++ spelled_in declaration.now) }
    ensures names { OnOk result
        (table.new.names ≡ table.old.names
        ++ map name_of_word (map word_view declaration.now.names.items)) }
    ensures different { OnOk result (AreDifferent table.old.names → AreDifferent table.new.names) }
    ensures is_block { OnOk result (table.new.is_block ≡ table.old.is_block) }
{
    declare_names(&mut table.names, declaration)?;
    let declared = validate_type(units, declaration)?;
    validate_initial(declaration, declared)?;
    declare_variables(table, declaration, declared, width(units, declared))
}

/// Checks the declarations of a unit, and collects its variables in its table.
pub(crate) fn validate_declarations<'a>(
    units: &Units<'a>,
    table: &mut UnitTable<'a>,
    unit: &Unit<'a>,
) -> Result<(), Fault>
    ensures validated { (text : Text) (before : List ProgramUnit) (rest : List Check)
        → AreUnitsOf text before units.now → IsEmptyOf (unit_view unit.now) table.old
        → Validates (first_broken (unit_declaration_checks text before (unit_view unit.now)
        ++ rest))
        (first_broken rest) result }
    ensures table { OnOk result
        ((text : Text) (before : List ProgramUnit) → AreUnitsOf text before units.now
        → IsEmptyOf (unit_view unit.now) table.old
        → IsTableOf before (unit_view unit.now) table.new) }
    ensures spelled { OnOk result
        (spelled_in_table table.new ≡ spelled_in_table table.old ++ spelled_of_unit unit.now) }
{
    for declaration in &unit.declarations {
        validate_declaration(units, table, declaration)?;
    }
    Ok(())
}
