ghost use Rattle.std.specs.Prelude.{◌≡◌, ◌<◌, ◌≤◌, ℕ, None, false, Some, IfOk, IfSome, IsOkUnless, is_some, length, map, option_and_then, option_map, slice_get};
ghost use Rattle.wc_model.specs.Definitions.{formal_named, carried_within, VariableType, is_block, members_of, first_numbers, frame_of, location_of, number_of_path, place_number, plain_variables, slot_kinds, name_of, Scope, entity_of, type_of, Content, Location, Text, term_view};
ghost use Rattle.wc_laws_language.specs.FirstNumbers.{AreFirst};
ghost use Rattle.wc_names.specs.RepresentsText.{AreTables, first_number};
ghost use Rattle.wc_model.specs.declared.source.Source.{Source};
ghost use Rattle.wc_names.specs.Spelled.{AreSpelledAs, spelled, spelled_of_unit};
ghost use Rattle.wc_names.specs.Numbered.{IsUnit, StartsAt, numbered_entity, numbered_formal, numbered_type, plain_of_field};

use crate::carry::kept_number;
use crate::declared_type::DeclaredType;
use crate::entity::Entity;
use crate::field::Field;
use crate::finished::slots;
use crate::formal::{FormalSlot, formal_of};
use crate::frame::Frame;
use crate::located::VariablePlace;
use crate::lookup::{address, number, row};
use crate::naming::{entity, place_at};
use crate::unit_table::{DIRECT_VARIABLES, UnitTable};
use std::alloc::Global;
use wc_model::{Direction, Fault, Operand, Path, Place, or_memory};

/// The names of a text with what they represent. They borrow the text, not its tree.
#[derive(Drop)]
pub struct Tables<'a> {
    units: Vec<UnitTable<'a>>,
}

impl<'a> Tables<'a> {
    /// The tables of these units, in text order.
    pub fn new(units: Vec<UnitTable<'a>>) -> Tables<'a>
        ensures { result.units ≡ units.entry }
    {
        Tables { units }
    }

    /// The place that a path names in a unit's frame. Fields of standard blocks that texts cannot name go by `M`,
    /// `run`, `phase` and `start`.
    pub fn place(&self, unit: usize, path: &Path<'_>) -> Option<Place>
        ensures number { (text : Text) (scope : Scope) → AreTables self.now text
            → IsUnit text unit scope
            → option_map (λ p. p.0) result ≡ number_of_path scope path.now }
        // No other place has this number: two instances share none.
        ensures own { (text : Text) (scope : Scope) (other : Location) → AreTables self.now text
            → IsUnit text unit scope
            → IfSome result
            (λ p. place_number (frame_of scope) other ≡ Some p.0
            → location_of path.now ≡ Some other) }
    {
        match path {
            Path::Address(text) => place_at(address(&self.units, unit, text)),
            Path::Names(names) => place_at(number(&self.units, unit, names)),
        }
    }

    /// What an operand names in the body of a unit.
    pub fn entity(&self, unit: usize, operand: &Operand<'_>) -> Option<Entity>
        ensures { (text : Text) (scope : Scope) → AreTables self.now text → IsUnit text unit scope
            → result
            ≡ option_map (numbered_entity scope) (entity_of scope (term_view operand.now)) }
    {
        entity(&self.units, unit, operand)
    }

    /// The type of a variable of a unit, and where its places begin in the unit's frame.
    pub fn variable(&self, unit: usize, name: &[u8]) -> Option<VariablePlace>
        ensures known { (text : Text) (scope : Scope) → AreTables self.now text
            → IsUnit text unit scope → is_some result ≡ is_some (type_of scope (name_of name.now)) }
        ensures declared { (text : Text) (scope : Scope) → AreTables self.now text
            → IsUnit text unit scope
            → option_map (λ v. v.declared) result
            ≡ option_and_then (numbered_type scope.before) (type_of scope (name_of name.now)) }
        ensures starts { (text : Text) (scope : Scope) (type : VariableType)
            → AreTables self.now text → IsUnit text unit scope
            → type_of scope (name_of name.now) ≡ Some type
            → IfSome result (λ v. StartsAt scope (name_of name.now) type v.first) }
        ensures begins { (text : Text) (scope : Scope) → AreTables self.now text
            → IsUnit text unit scope
            → option_map (λ v. v.first) result ≡ first_number scope (name_of name.now) }
    {
        let row = row(&self.units, unit, name)?;
        Some(VariablePlace {
            declared: row.declared,
            first: row.first,
        })
    }

    /// The input or output of that name of what has this type, with its kind and its place, counted from
    /// the first place of an instance. It is `None` for other names: a block's own variables are neither.
    pub fn formal(
        &self,
        declared: DeclaredType,
        direction: Direction,
        name: &[u8],
    ) -> Option<FormalSlot>
        ensures found { (text : Text) (unit : ℕ) (scope : Scope) (type : VariableType)
            → AreTables self.now text
            → IsUnit text unit scope
            → numbered_type scope.before type ≡ Some declared
            → result ≡ option_and_then (numbered_formal scope.before type)
            (formal_named direction (members_of scope.before type) (name_of name.now)) }
        ensures known { (text : Text) (unit : ℕ) (scope : Scope) (type : VariableType)
            → AreTables self.now text
            → IsUnit text unit scope
            → numbered_type scope.before type ≡ Some declared
            → is_some result
            ≡ is_some (formal_named direction (members_of scope.before type) (name_of name.now)) }
    {
        formal_of(&self.units, declared, direction, name)
    }

    /// The number of units, as many as the text has.
    pub fn units(&self) -> usize
        ensures count { result ≡ length self.now.units.items }
        ensures text { (text : Text) → AreTables self.now text → result ≡ length text }
    {
        self.units.len()
    }

    /// The plain variables of a unit, in the order of declaration.
    pub fn fields(&self, unit: usize) -> &[Field<'a>]
        requires { unit < length self.now.units.items }
        ensures fields { (text : Text) (scope : Scope)
            → AreTables self.now text
            → IsUnit text unit scope
            → map plain_of_field result.now ≡ plain_variables scope }
        // The definitions fold letter case; the names are the bytes of the tree, as they are spelled.
        ensures spelled { (source : Source) → AreSpelledAs self.now source
            → slice_get (map spelled_of_unit source.units.items) unit
            ≡ Some (map spelled result.now) }
    {
        let table = &self.units[unit];
        table.fields.as_slice()
    }

    /// The number of places a unit's frame has.
    pub fn size(&self, unit: usize) -> usize
        ensures { (text : Text) (scope : Scope) → AreTables self.now text → IsUnit text unit scope
            → result ≡ length (frame_of scope) }
    {
        match self.units.get(unit) {
            Some(table) => usize::from(table.size),
            None => 0,
        }
    }

    /// The place in the frame of another text's program whose value a place of this text's program keeps at a change
    /// from that text to this one. It takes no memory, and looks up each name of the place's path once.
    pub fn carry(
        &self,
        unit: usize,
        old: &Tables<'_>,
        old_unit: usize,
        place: Place,
    ) -> Option<Place>
        ensures carried { (text : Text) (scope : Scope) (old_text : Text) (old_scope : Scope)
            → AreTables self.now text → IsUnit text unit scope → is_block scope.unit ≡ false
            → AreTables old.now old_text → IsUnit old_text old_unit old_scope
            → is_block old_scope.unit ≡ false → place.0 < length (frame_of scope)
            → option_map (λ p. p.0) result ≡ carried_within old_scope scope place.0 }
        // No place of the program is at two numbers.
        ensures own { (text : Text) (scope : Scope) (entry : Location × Content)
            → AreTables self.now text → IsUnit text unit scope → is_block scope.unit ≡ false
            → slice_get (frame_of scope) place.0 ≡ Some entry
            → place_number (frame_of scope) entry.0 ≡ Some place.0 }
    {
        if place.0 < DIRECT_VARIABLES {
            return Some(place);
        }
        place_at(kept_number(&self.units, unit, &old.units, old_unit, place.0))
    }

    /// The slots of a unit's frame, in the order of its places. `Memory` is its only fault.
    pub fn frame(&self, alloc: Global, unit: usize) -> Result<Frame, Fault>
        ensures kinds { (text : Text) (scope : Scope) → AreTables self.now text
            → IsUnit text unit scope
            → IfOk result (λ frame. frame.kinds.items ≡ slot_kinds (frame_of scope)) }
        ensures initials { (text : Text) (scope : Scope) → AreTables self.now text
            → IsUnit text unit scope
            → IfOk result (λ frame. frame.initials.items ≡ first_numbers (frame_of scope)) }
        ensures few { (text : Text) (scope : Scope) → AreTables self.now text
            → IsUnit text unit scope
            → IfOk result (λ frame. length frame.kinds.items ≤ 4096) }
        // Each is in the range of its slot's kind, and no timer has started.
        ensures first { IfOk result
            (λ frame. AreFirst frame.kinds.items frame.initials.items) }
        ensures memory { IsOkUnless result Fault.Memory }
    {
        or_memory(slots(alloc, &self.units, unit))
    }
}
