ghost use types.Logic.{sem};
ghost use Rattle.std.specs.Borrow.{full_share};
ghost use Rattle.std.specs.Ptr.{lies_at};
ghost use Rattle.wc_scale.specs.contracts.scale.Scale.{the_row};
ghost use Rattle.std.specs.Prelude.{◌≡◌};
ghost use Rattle.wc_scale.specs.{ShowsNoPlate, ShowsNothing, ReportsEngraved, ReportsReading, ReportsDigest, ShowsNoDigest, HasZerosBesides, HoldsNothing, ReportsPrelude, IsClosed, RefusesValue, ReportsValue};

use wc_scale::{Engraved, PlateDigest, PreludeAnswer, Reading, Scale, VariableRead};

/// What the indicator shows. The scale stays as it is.
fn reading_of(scale: &mut Scale) -> Reading
    ensures shows { ReportsReading scale.old result }
    ensures closed { IsClosed scale.old → ShowsNothing result }
    ensures kept { scale.new ≡ scale.old }
{
    scale.reading()
}

/// What the indicator shows.
#[unsafe(no_mangle)]
pub unsafe extern "C" fn narbeddo_read(scale: *mut u8) -> Reading
    ghost before: { Scale }
    requires* { sem 𝓛 (lies_at the_row full_share scale before) }
    ensures* { ∃ₛ (λ (after : Scale). sem 𝓛 (lies_at the_row full_share scale after)
        ∗ ⌜ (ReportsReading before result) × (IsClosed before → ShowsNothing result)
        × (after ≡ before) ⌝) }
{
    reading_of(&mut *(scale as *mut Scale))
}

/// What is engraved on the scale. The scale stays as it is.
fn engraved_of(scale: &mut Scale) -> Engraved
    ensures shows { ReportsEngraved scale.old result }
    ensures closed { IsClosed scale.old → ShowsNoPlate result }
    ensures kept { scale.new ≡ scale.old }
{
    scale.engraved()
}

/// What is engraved on the scale.
#[unsafe(no_mangle)]
pub unsafe extern "C" fn narbeddo_plate(scale: *mut u8) -> Engraved
    ghost before: { Scale }
    requires* { sem 𝓛 (lies_at the_row full_share scale before) }
    ensures* { ∃ₛ (λ (after : Scale). sem 𝓛 (lies_at the_row full_share scale after)
        ∗ ⌜ (ReportsEngraved before result) × (IsClosed before → ShowsNoPlate result)
        × (after ≡ before) ⌝) }
{
    engraved_of(&mut *(scale as *mut Scale))
}

/// The digest of the plate. The scale stays as it is.
fn plate_digest_of(scale: &mut Scale) -> PlateDigest
    ensures reports { ReportsDigest scale.old result }
    ensures closed { IsClosed scale.old → ShowsNoDigest result }
    ensures kept { scale.new ≡ scale.old }
{
    scale.plate_digest()
}

/// The digest of the plate.
#[unsafe(no_mangle)]
pub unsafe extern "C" fn narbeddo_plate_digest(scale: *mut u8) -> PlateDigest
    ghost before: { Scale }
    requires* { sem 𝓛 (lies_at the_row full_share scale before) }
    ensures* { ∃ₛ (λ (after : Scale). sem 𝓛 (lies_at the_row full_share scale after)
        ∗ ⌜ (ReportsDigest before result) × (IsClosed before → ShowsNoDigest result)
        × (after ≡ before) ⌝) }
{
    plate_digest_of(&mut *(scale as *mut Scale))
}

/// What brings a new scale of the same plate to the state of the scale. The scale stays as it is.
fn prelude_of(scale: &mut Scale) -> PreludeAnswer
    ensures reports { ReportsPrelude scale.old result }
    ensures closed { IsClosed scale.old → HoldsNothing result }
    ensures zeros { HasZerosBesides result }
    ensures kept { scale.new ≡ scale.old }
{
    scale.prelude()
}

/// What brings a new scale of the same plate to the state of the scale.
#[unsafe(no_mangle)]
pub unsafe extern "C" fn narbeddo_prelude(scale: *mut u8) -> PreludeAnswer
    ghost before: { Scale }
    requires* { sem 𝓛 (lies_at the_row full_share scale before) }
    ensures* { ∃ₛ (λ (after : Scale). sem 𝓛 (lies_at the_row full_share scale after)
        ∗ ⌜ (ReportsPrelude before result) × (IsClosed before → HoldsNothing result)
        × (HasZerosBesides result) × (after ≡ before) ⌝) }
{
    prelude_of(&mut *(scale as *mut Scale))
}

/// The value of a variable of the program, by its name. The scale stays as it is.
fn value_of(scale: &mut Scale, name: &[u8]) -> VariableRead
    ensures reports { ReportsValue scale.old name.now result }
    ensures refused { RefusesValue scale.old name.now result }
    ensures kept { scale.new ≡ scale.old }
{
    scale.value(name)
}

/// The value of a variable of the program, by its name.
#[unsafe(no_mangle)]
pub unsafe extern "C" fn narbeddo_value(scale: *mut u8, name: &[u8]) -> VariableRead
    ghost before: { Scale }
    requires* { sem 𝓛 (lies_at the_row full_share scale before) }
    ensures* { ∃ₛ (λ (after : Scale). sem 𝓛 (lies_at the_row full_share scale after)
        ∗ ⌜ (ReportsValue before name.now result) × (RefusesValue before name.now result)
        × (after ≡ before) ⌝) }
{
    value_of(&mut *(scale as *mut Scale), name)
}
