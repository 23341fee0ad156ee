ghost use Rattle.std.specs.Prelude.{◌≡◌, [], ◌∷◌, ◌++◌, List, OnOk, IfOk, IsOkUnless, false};
ghost use Rattle.wc_model.specs.Definitions.{Check, first_broken, is_among, is_new, not_reserved, unit_checks, is_block, Name, ProgramUnit, Text, name_view, unit_view, word_view, Validates};
ghost use Rattle.wc_declare.specs.SoFar.{SameNames, AreUnitsOf, TakesNoMemory};
ghost use Rattle.wc_names.specs.{spelled_in_table, spelled_of_unit, IsTableOf};

use crate::body::{refusal, validate_body};
use crate::declaration::validate_declarations;
use crate::types::Units;
use std::alloc::Global;
use wc_built_in::is_reserved;
use wc_model::{Fault, Unit, UnitKind, Word};
use wc_names::{Names, UnitTable};

/// Whether a unit is a function block.
pub(crate) fn is_block<'a>(unit: &Unit<'a>) -> bool
    ensures { result ≡ is_block (unit_view unit.now) }
{
    matches!(unit.kind, UnitKind::FunctionBlock)
}

/// Checks the name of a unit by 307 and 301.
fn validate_name<'a>(names: &Names<'a>, word: Word<'a>) -> Result<(), Fault>
    ensures validated { (known : List Name) (rest : List Check) → SameNames names.now known
        → Validates
        (first_broken
        (not_reserved (word_view word.entry) ∷ is_new known (word_view word.entry) ∷ rest))
        (first_broken rest) result }
    ensures new { OnOk result (is_among names.now (name_view word.entry) ≡ false) }
    ensures refuses { TakesNoMemory result }
{
    if is_reserved(word.text) {
        return Err(refusal(307, word.line));
    }
    if names.contains(word.text) {
        return Err(refusal(301, word.line));
    }
    Ok(())
}

/// Checks a unit after those so far: its name, its declarations, its body. It gives the unit's table.
pub(crate) fn validate_unit<'a>(
    alloc: Global,
    units: &Units<'a>,
    unit: &Unit<'a>,
) -> Result<UnitTable<'a>, Fault>
    ensures validated { (text : Text) (before : List ProgramUnit) (rest : List Check)
        → AreUnitsOf text before units.now
        → Validates (first_broken (unit_checks text before (unit_view unit.now) ++ rest))
        (first_broken rest) result }
    ensures table { IfOk result
        (λ table. (text : Text) (before : List ProgramUnit) → AreUnitsOf text before units.now
        → IsTableOf before (unit_view unit.now) table) }
    ensures spelled { IfOk result (λ table. spelled_in_table table ≡ spelled_of_unit unit.now) }
    ensures new { OnOk result (is_among units.now.names (name_view unit.now.name) ≡ false) }
{
    validate_name(&units.names, unit.name)?;
    let in_block = is_block(unit);
    let mut table = UnitTable::new(alloc, in_block);
    validate_declarations(units, &mut table, unit)?;
    validate_body(in_block, &unit.body)?;
    Ok(table)
}

/// Adds a unit, whose name is new, after those so far.
pub(crate) fn add_unit<'a>(
    units: &mut Units<'a>,
    name: Word<'a>,
    table: UnitTable<'a>,
) -> Result<(), Fault>
    ensures added { OnOk result
        ((text : Text) (before : List ProgramUnit) (unit : ProgramUnit)
        → AreUnitsOf text before units.old → unit.name.name ≡ name_view name.entry
        → is_among units.old.names (name_view name.entry) ≡ false
        → IsTableOf before unit table.entry → AreUnitsOf text (unit ∷ before) units.new) }
    ensures tables { OnOk result
        (units.new.tables.items ≡ units.old.tables.items ++ table.entry ∷ []) }
    ensures memory { IsOkUnless result Fault.Memory }
{
    match units.tables.push(table) {
        Ok(()) => {
            units.names.add(name.text)?;
            Ok(())
        }
        Err(refused) => {
            drop(refused);
            Err(Fault::Memory)
        }
    }
}
