ghost use Rattle.std.specs.Prelude.{◌≡◌, ◌++◌, Ok, Err, IsOkUnless, MatchResult, OnOk};

use crate::fault::Fault;
use std::alloc::AllocError;

/// What was made, or `Memory` if memory for it was refused.
pub fn or_memory<T>(made: Result<T, AllocError>) -> Result<T, Fault>
    ensures { MatchResult made (λ value. result ≡ Ok value) (λ error. result ≡ Err Fault.Memory) }
{
    made.map_err(|_| Fault::Memory)
}

/// Appends bytes to a text. `Memory` is the only fault.
pub fn put_bytes(text: &mut Vec<u8>, bytes: &[u8]) -> Result<(), Fault>
    ensures bytes { OnOk result (text.new.items ≡ text.old.items ++ bytes.now) }
    ensures memory { IsOkUnless result Fault.Memory }
{
    or_memory(text.extend_from_slice(bytes))
}
