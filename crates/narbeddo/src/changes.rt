ghost use types.Logic.{sem};
ghost use Rattle.std.specs.Borrow.{full_share};
ghost use Rattle.std.specs.Ptr.{lies_at};
ghost use Rattle.wc_scale.specs.contracts.scale.Scale.{the_row};
ghost use Rattle.std.specs.Prelude.{◌≡◌, []};
ghost use Rattle.wc_scale.specs.{Change, IsStep, Load, RefusesOpen, TakesOpen, RefusesChange, RefusesLoad, TakesChange, TakesLoad, IsEmptied};

use wc_scale::{Refusal, Scale};

/// Opens the scale by the text of its plate.
#[unsafe(no_mangle)]
pub unsafe extern "C" fn narbeddo_open(scale: *mut u8, plate: &[u8]) -> Refusal
    ghost before: { Scale }
    requires* { sem 𝓛 (lies_at the_row full_share scale before) }
    ensures* { ∃ₛ (λ (after : Scale). sem 𝓛 (lies_at the_row full_share scale after)
        ∗ ⌜ (TakesOpen after plate.now result) × (RefusesOpen before after plate.now result) ⌝) }
{
    (&mut *(scale as *mut Scale)).open(plate)
}

/// Closes the scale, and gives back all memory that it took.
#[unsafe(no_mangle)]
pub unsafe extern "C" fn narbeddo_close(scale: *mut u8) -> u32
    ghost before: { Scale }
    requires* { sem 𝓛 (lies_at the_row full_share scale before) }
    ensures* { ∃ₛ (λ (after : Scale). sem 𝓛 (lies_at the_row full_share scale after)
        ∗ ⌜ (result ≡ 0) × (IsEmptied after) ⌝) }
{
    (&mut *(scale as *mut Scale)).close()
}

/// Loads a program, which leaves the line as it is.
fn load_of(scale: &mut Scale, text: &'static [u8]) -> Refusal
    ensures taken { TakesLoad scale.old scale.new text.now result }
    ensures refused { RefusesLoad scale.old scale.new text.now result }
    ensures line { IsStep (Load text.now) scale.old scale.new [] }
{
    scale.load(text)
}

/// Loads a program, which starts over. Its text is not copied.
#[unsafe(no_mangle)]
pub unsafe extern "C" fn narbeddo_load(scale: *mut u8, text: &'static [u8]) -> Refusal
    ghost before: { Scale }
    requires* { sem 𝓛 (lies_at the_row full_share scale before) }
    ensures* { ∃ₛ (λ (after : Scale). sem 𝓛 (lies_at the_row full_share scale after)
        ∗ ⌜ (TakesLoad before after text.now result)
        × (RefusesLoad before after text.now result)
        × (IsStep (Load text.now) before after []) ⌝) }
{
    load_of(&mut *(scale as *mut Scale), text)
}

/// Changes the program between two scans, which leaves the line as it is.
fn change_of(scale: &mut Scale, text: &'static [u8]) -> Refusal
    ensures taken { TakesChange scale.old scale.new text.now result }
    ensures refused { RefusesChange scale.old scale.new text.now result }
    ensures line { IsStep (Change text.now) scale.old scale.new [] }
{
    scale.change(text)
}

/// Changes the program between two scans. Its text is not copied.
#[unsafe(no_mangle)]
pub unsafe extern "C" fn narbeddo_change(scale: *mut u8, text: &'static [u8]) -> Refusal
    ghost before: { Scale }
    requires* { sem 𝓛 (lies_at the_row full_share scale before) }
    ensures* { ∃ₛ (λ (after : Scale). sem 𝓛 (lies_at the_row full_share scale after)
        ∗ ⌜ (TakesChange before after text.now result)
        × (RefusesChange before after text.now result)
        × (IsStep (Change text.now) before after []) ⌝) }
{
    change_of(&mut *(scale as *mut Scale), text)
}
