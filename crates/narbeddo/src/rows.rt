ghost use types.Logic.{sem};
ghost use Rattle.std.specs.Borrow.{full_share};
ghost use Rattle.std.specs.Ptr.{lies_at};
ghost use Rattle.std.specs.Prelude.{[]};
ghost use Rattle.wc_scale.specs.{AnswersWithoutTheCustomer, Inputs, IsStep, Scan, RefusesByte, RefusesInputs, RefusesSample, RefusesScan, TakesByte, TakesInputs, TakesSample, TakesScan};
ghost use Rattle.wc_scale.specs.contracts.scale.Scale.{the_row};

use wc_scale::{Answer, Scale, Scanned};

/// Takes a sample.
#[unsafe(no_mangle)]
pub unsafe extern "C" fn narbeddo_sample(scale: *mut u8, counts: i32) -> u32
    ghost before: { Scale }
    requires* { sem 𝓛 (lies_at the_row full_share scale before) }
    ensures* { ∃ₛ (λ (after : Scale). sem 𝓛 (lies_at the_row full_share scale after)
        ∗ ⌜ (TakesSample before after counts result)
        × (RefusesSample before after counts result) ⌝) }
{
    (&mut *(scale as *mut Scale)).sample(counts)
}

/// Takes a byte on the line: whatever the customer's calls were, it is answered as without them.
fn byte_of(scale: &mut Scale, byte: u8) -> Answer
    ensures taken { TakesByte scale.old scale.new byte result }
    ensures refused { RefusesByte scale.old scale.new result }
    ensures alone { AnswersWithoutTheCustomer scale.old byte result }
{
    scale.byte(byte)
}

/// Takes a byte on the line, and gives the answer to the request that it completes.
#[unsafe(no_mangle)]
pub unsafe extern "C" fn narbeddo_byte(scale: *mut u8, byte: u8) -> Answer
    ghost before: { Scale }
    requires* { sem 𝓛 (lies_at the_row full_share scale before) }
    ensures* { ∃ₛ (λ (after : Scale). sem 𝓛 (lies_at the_row full_share scale after)
        ∗ ⌜ (TakesByte before after byte result) × (RefusesByte before after result)
        × (AnswersWithoutTheCustomer before byte result) ⌝) }
{
    byte_of(&mut *(scale as *mut Scale), byte)
}

/// Takes the inputs from now on, which leaves the line as it is.
fn inputs_of(scale: &mut Scale, inputs: u16) -> u32
    ensures taken { TakesInputs scale.old scale.new inputs result }
    ensures refused { RefusesInputs scale.old scale.new result }
    ensures line { IsStep (Inputs inputs) scale.old scale.new [] }
{
    scale.inputs(inputs)
}

/// Takes the inputs from now on.
#[unsafe(no_mangle)]
pub unsafe extern "C" fn narbeddo_inputs(scale: *mut u8, inputs: u16) -> u32
    ghost before: { Scale }
    requires* { sem 𝓛 (lies_at the_row full_share scale before) }
    ensures* { ∃ₛ (λ (after : Scale). sem 𝓛 (lies_at the_row full_share scale after)
        ∗ ⌜ (TakesInputs before after inputs result) × (RefusesInputs before after result)
        × (IsStep (Inputs inputs) before after []) ⌝) }
{
    inputs_of(&mut *(scale as *mut Scale), inputs)
}

/// Scans the program once, which leaves the line as it is.
fn scan_of(scale: &mut Scale, moment: u64) -> Scanned
    ensures taken { TakesScan scale.old scale.new moment result }
    ensures refused { RefusesScan scale.old scale.new moment result }
    ensures line { IsStep (Scan moment) scale.old scale.new [] }
{
    scale.scan(moment)
}

/// Scans the program once, at a moment in milliseconds.
#[unsafe(no_mangle)]
pub unsafe extern "C" fn narbeddo_scan(scale: *mut u8, moment: u64) -> Scanned
    ghost before: { Scale }
    requires* { sem 𝓛 (lies_at the_row full_share scale before) }
    ensures* { ∃ₛ (λ (after : Scale). sem 𝓛 (lies_at the_row full_share scale after)
        ∗ ⌜ (TakesScan before after moment result)
        × (RefusesScan before after moment result)
        × (IsStep (Scan moment) before after []) ⌝) }
{
    scan_of(&mut *(scale as *mut Scale), moment)
}
