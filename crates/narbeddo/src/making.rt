ghost use types.Logic.{sem};
ghost use Rattle.std.specs.Borrow.{full_share};
ghost use Rattle.std.specs.Ptr.{lies_at, room_at};
ghost use Rattle.std.specs.Mem.{type_size};
ghost use Rattle.std.specs.Prelude.{◌≡◌, ◌≤◌};
ghost use Rattle.wc_scale.specs.Representation.{IsClosed};
ghost use Rattle.wc_scale.specs.contracts.scale.Scale.{the_row};

use std::alloc::Global;
use wc_scale::Scale;

/// Makes a closed scale in the buffer at the pointer. It takes no memory.
#[unsafe(no_mangle)]
pub unsafe extern "C" fn narbeddo_make(alloc: Global, scale: *mut u8)
    requires* { sem 𝓛 (room_at the_row scale) }
    ensures* { ∃ₛ (λ (after : Scale). sem 𝓛 (lies_at the_row full_share scale after)
        ∗ ⌜ IsClosed after ⌝) }
{
    std::ptr::write(scale as *mut Scale, Scale::new(alloc));
}

/// The number of bytes that a scale takes, which `narbeddo_make` needs at its pointer: at most 384, as the header has it.
#[unsafe(no_mangle)]
pub extern "C" fn narbeddo_size() -> usize
    ensures exact { result ≡ type_size the_row }
    ensures most { result ≤ 384 }
{
    std::mem::size_of::<Scale>()
}
