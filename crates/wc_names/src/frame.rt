ghost use Rattle.std.specs.Prelude.{◌≡◌, ◌+◌, ◌++◌, ◌∷◌, [], Option, Some, OnOk, length, map, option_map, pos, replicate};
ghost use Rattle.wc_model.specs.Definitions.{content_number, slot_kind_of, first_content, standard_fields, zero_of, direct_variables, kind_of_direct};
ghost use Rattle.wc_model.specs.declared.source.Initial.{Initial};
ghost use Rattle.wc_laws_language.specs.{IsFirst, slot_of_kind};
ghost use Rattle.wc_names.specs.Carrying.{HoldsFirst, IsGrown};

use std::alloc::{AllocError, Global};
use wc_built_in::standard_fields;
use wc_model::{Kind, SlotKind, StandardBlock, Value};

/// The slots of a unit's frame, in the order of its places.
#[derive(Drop)]
pub struct Frame {
    /// The kind of each.
    pub kinds: Vec<SlotKind>,
    /// The number that it holds at first: BOOL is 0 or 1, TIME is milliseconds.
    pub initials: Vec<i64>,
}

/// Adds a slot that holds a number at first.
pub(crate) fn push(frame: &mut Frame, kind: SlotKind, number: i64) -> Result<(), AllocError>
    ensures kinds { OnOk result
        (frame.new.kinds.items ≡ frame.old.kinds.items ++ kind ∷ []) }
    ensures initials { OnOk result
        (frame.new.initials.items ≡ frame.old.initials.items ++ number ∷ []) }
    ensures first { OnOk result
        (IsFirst kind number → HoldsFirst frame.old → HoldsFirst frame.new) }
{
    frame.kinds.push(kind)?;
    frame.initials.push(number)?;
    Ok(())
}

/// Adds slots of these kinds that hold 0 at first.
fn push_zeros(frame: &mut Frame, kinds: &[SlotKind]) -> Result<(), AllocError>
    ensures kinds { OnOk result
        (frame.new.kinds.items ≡ frame.old.kinds.items ++ kinds.now) }
    ensures initials { OnOk result
        (frame.new.initials.items
        ≡ frame.old.initials.items ++ replicate (length kinds.now) (pos 0)) }
    ensures first { OnOk result (HoldsFirst frame.old → HoldsFirst frame.new) }
{
    for kind in kinds {
        push(frame, *kind, 0)?;
    }
    Ok(())
}

/// The kind of the slot of a variable of this kind.
pub(crate) fn slot_of(kind: Kind) -> SlotKind
    ensures content { (initial : Option Initial)
        → result ≡ slot_kind_of (first_content kind initial) }
    ensures kind { result ≡ slot_of_kind kind }
{
    match kind {
        Kind::Bool => SlotKind::Bool,
        Kind::Dint => SlotKind::Dint,
        Kind::Time => SlotKind::Time,
    }
}

/// What a variable of this kind holds at first, with a literal or without.
pub(crate) fn first_number(kind: Kind, literal: Option<Value>) -> i64
    ensures content { (initial : Option Initial) → literal ≡ option_map (λ i. i.value) initial
        → result ≡ content_number (first_content kind initial) }
    ensures first { IsFirst (slot_of_kind kind) result }
{
    match (kind, literal) {
        (Kind::Bool, Some(Value::Bool(true))) => 1,
        (Kind::Bool, Some(Value::Dint(1))) => 1,
        (Kind::Dint, Some(Value::Dint(number))) => i64::from(number),
        (Kind::Time, Some(Value::Time(time))) => i64::from(time),
        _ => 0,
    }
}

/// Adds the slots of an instance of a standard function block.
pub(crate) fn push_standard(frame: &mut Frame, block: StandardBlock) -> Result<(), AllocError>
    ensures grown { OnOk result
        (IsGrown frame.old frame.new (map (λ f. f.1) (standard_fields block))) }
    ensures first { OnOk result (HoldsFirst frame.old → HoldsFirst frame.new) }
{
    for field in standard_fields(block) {
        push(frame, field.slot, 0)?;
    }
    Ok(())
}

/// Adds the slots of another frame.
pub(crate) fn append(frame: &mut Frame, more: &Frame) -> Result<(), AllocError>
    ensures kinds { OnOk result
        (frame.new.kinds.items ≡ frame.old.kinds.items ++ more.now.kinds.items) }
    ensures initials { OnOk result
        (frame.new.initials.items ≡ frame.old.initials.items ++ more.now.initials.items) }
    ensures first { OnOk result
        (HoldsFirst more.now → HoldsFirst frame.old → HoldsFirst frame.new) }
{
    frame.kinds.extend_from_slice(&more.kinds)?;
    frame.initials.extend_from_slice(&more.initials)?;
    Ok(())
}

/// No slots.
pub(crate) fn no_slots(alloc: Global) -> Frame
    ensures kinds { result.kinds.items ≡ [] }
    ensures initials { result.initials.items ≡ [] }
    ensures first { HoldsFirst result }
{
    Frame {
        kinds: Vec::new(alloc),
        initials: Vec::new(alloc),
    }
}

/// Adds the slots of the directly represented variables.
pub(crate) fn push_direct(frame: &mut Frame) -> Result<(), AllocError>
    ensures grown { OnOk result
        (IsGrown frame.old frame.new (map (λ v. zero_of (kind_of_direct v)) direct_variables)) }
    ensures first { OnOk result (HoldsFirst frame.old → HoldsFirst frame.new) }
{
    push_zeros(frame, &[SlotKind::Bool; 22])?;
    push_zeros(frame, &[SlotKind::Dint; 3])?;
    push_zeros(frame, &[SlotKind::Bool; 16])?;
    push_zeros(frame, &[SlotKind::Dint; 4])?;
    Ok(())
}
