ghost use Rattle.std.specs.Prelude.{◌≡◌, ◌&&◌, ◌||◌, ◌++◌, [], None, OnOk, IfOk, IsOkUnless, map};
ghost use Rattle.wc_model.specs.Definitions.{is_among, names_block_of, is_block, same_name, declaration_fault, Name, name_view, text_view, unit_view, Validates};
ghost use Rattle.wc_names.specs.{AreSpelledAs, spelled_in_table, spelled_of_unit, AreTables, AreUnits, onto};
ghost use Rattle.wc_declare.specs.SoFar.{AreUnitsOf};

use crate::types::Units;
use crate::unit::{add_unit, is_block, validate_unit};
use std::alloc::Global;
use wc_model::{Fault, Source, Unit};
use wc_names::{Names, Tables};

/// Adds the name of a unit if it is a function block.
fn add_block<'a>(names: &mut Names<'a>, unit: &Unit<'a>) -> Result<(), Fault>
    ensures added { OnOk result
        ((name : Name)
        → is_among names.new name
        ≡
        (is_among names.old name ||
        (is_block (unit_view unit.now) && same_name (name_view unit.now.name) name))) }
    ensures memory { IsOkUnless result Fault.Memory }
{
    if !is_block(unit) {
        return Ok(());
    }
    names.add(unit.name.text)?;
    Ok(())
}

/// The names of all function blocks of a text.
fn block_names<'a>(alloc: Global, source: &Source<'a>) -> Result<Names<'a>, Fault>
    ensures names { IfOk result
        (λ names. (name : Name)
        → is_among names name ≡ names_block_of (text_view source.now) name) }
    ensures memory { IsOkUnless result Fault.Memory }
{
    let mut names = Names::new(alloc);
    for unit in &source.units {
        add_block(&mut names, unit)?;
    }
    Ok(names)
}

/// Checks the units of a text one after the other, and keeps their tables.
fn validate_units<'a>(
    alloc: Global,
    units: &mut Units<'a>,
    source: &Source<'a>,
) -> Result<(), Fault>
    ensures validated { AreUnitsOf (text_view source.now) [] units.old
        → Validates (declaration_fault (text_view source.now)) None result }
    ensures tables { OnOk result
        (AreUnitsOf (text_view source.now) [] units.old
        → AreUnits (onto (text_view source.now) []) units.new.tables.items) }
    ensures spelled { OnOk result
        (map spelled_in_table units.new.tables.items
        ≡ map spelled_in_table units.old.tables.items
        ++ map spelled_of_unit source.now.units.items) }
{
    for unit in &source.units {
        let table = validate_unit(alloc, units, unit)?;
        add_unit(units, unit.name, table)?;
    }
    Ok(())
}

/// What is kept before the first unit of a text is checked.
fn no_units<'a>(alloc: Global, source: &Source<'a>) -> Result<Units<'a>, Fault>
    ensures units { IfOk result (λ units. AreUnitsOf (text_view source.now) [] units) }
    ensures none { IfOk result (λ units. units.tables.items ≡ []) }
    ensures memory { IsOkUnless result Fault.Memory }
{
    let blocks = block_names(alloc, source)?;
    Ok(Units {
        blocks,
        names: Names::new(alloc),
        tables: Vec::new(alloc),
    })
}

/// The tables of a text, or the first of the refusals 301 to 308, at its line.
pub fn tables<'a>(alloc: Global, source: &Source<'a>) -> Result<Tables<'a>, Fault>
    ensures accepted { IfOk result (λ tables. AreTables tables (text_view source.now)) }
    // The names of plain variables are the bytes of the tree, as they are spelled.
    ensures spelled { IfOk result (λ tables. AreSpelledAs tables source.now) }
    ensures validated { Validates (declaration_fault (text_view source.now)) None result }
{
    let mut units = no_units(alloc, source)?;
    validate_units(alloc, &mut units, source)?;
    Ok(Tables::new(units.tables))
}
