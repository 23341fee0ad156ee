ghost use Rattle.std.specs.Prelude.{◌≡◌, ◌+◌, ◌≤◌, [], ◌∷◌, ◌++◌, List, None, OnOk, IfErr, IfSome, IsOkUnless, true, is_some, nat_le, ◌&&◌, map};
ghost use Rattle.wc_model.specs.Definitions.{Check, asks, first_broken, Validates};
ghost use Rattle.wc_model.specs.Language.DeclarationRules.{Taken, and_more, has_capacity};
ghost use Rattle.wc_names.specs.{plain_of_field, is_elementary, spelled, spelled_in_table, spelled_where};
ghost use Rattle.wc_declare.specs.SoFar.{HasTaken, plain_of};

use crate::body::refusal;
use wc_model::{Fault, MOST_PLACES, MOST_VARIABLES, Place, Word};
use wc_names::{DeclaredType, Field, UnitTable, Variable};

/// Where the places end once a variable is added to this many variables and places, if there is space.
fn capacity(variables: usize, size: u16, width: u16) -> Option<u16>
    ensures capacity { is_some result ≡ (nat_le (variables + 1) 256 && nat_le (size + width) 4096) }
    ensures end { IfSome result (λ end. end ≡ size + width) }
    ensures small { IfSome result (λ end. end ≤ 4096) }
{
    let end = u32::from(size) + u32::from(width);
    if variables >= MOST_VARIABLES || end > MOST_PLACES {
        return None;
    }
    Some(end as u16)
}

/// Adds a variable to the plain ones if it is one.
fn push_field<'a>(
    fields: &mut Vec<Field<'a>>,
    word: Word<'a>,
    variable: Variable,
) -> Result<(), Fault>
    ensures fields { OnOk result
        (map plain_of_field fields.new.items ≡ map plain_of_field fields.old.items
        ++ plain_of word.entry variable) }
    ensures spelled { OnOk result
        (map spelled fields.new.items ≡ map spelled fields.old.items
        ++ spelled_where (is_elementary variable.declared) (word.entry ∷ [])) }
    ensures memory { IsOkUnless result Fault.Memory }
{
    let DeclaredType::Elementary(kind) = variable.declared else {
        return Ok(());
    };
    let field = Field {
        name: word.text,
        section: variable.section,
        kind,
        place: Place(variable.first),
    };
    fields.push(field).map_err(|_| Fault::Memory)
}

/// Adds a variable, named already, after the others: 306 if there is no space.
pub(crate) fn add_variable<'a>(
    table: &mut UnitTable<'a>,
    word: Word<'a>,
    variable: Variable,
    width: u16,
) -> Result<(), Fault>
    ensures validated { (t : Taken) (rest : List Check) → HasTaken t table.old
        → Validates
        (first_broken (asks 306 word.entry.line (has_capacity (and_more t 1 width)) ∷ rest))
        (first_broken rest) result }
    // Only a variable for which there is space takes memory, so 306 is not reported as out of memory.
    ensures refuses { (t : Taken) → HasTaken t table.old
        → IfErr result (λ fault. fault ≡ Fault.Memory → has_capacity (and_more t 1 width) ≡ true) }
    ensures rows { OnOk result (table.new.rows.items ≡ table.old.rows.items ++ variable ∷ []) }
    ensures fields { OnOk result
        (map plain_of_field table.new.fields.items ≡ map plain_of_field table.old.fields.items
        ++ plain_of word.entry variable) }
    ensures spelled { OnOk result
        (spelled_in_table table.new ≡ spelled_in_table table.old
        ++ spelled_where (is_elementary variable.declared) (word.entry ∷ [])) }
    ensures size { OnOk result (table.new.size ≡ table.old.size + width) }
    ensures small { OnOk result (table.new.size ≤ 4096) }
    ensures names { OnOk result (table.new.names ≡ table.old.names) }
    ensures is_block { OnOk result (table.new.is_block ≡ table.old.is_block) }
{
    let Some(end) = capacity(table.rows.len(), table.size, width) else {
        return Err(refusal(306, word.line));
    };
    let Ok(()) = table.rows.push(variable) else {
        return Err(Fault::Memory);
    };
    push_field(&mut table.fields, word, variable)?;
    table.size = end;
    Ok(())
}
