ghost use Rattle.std.specs.Prelude.{◌≡◌, ℕ, IfErr, IfOk, IfSome, IsSome, option_map};
ghost use Rattle.wc_controller.specs.Endings.{ReadsPlate, RefusesLength, TakesInput, ReportsReadFaults, ReportsWriteFaults, raised};
ghost use Rattle.wc_controller.specs.Endings as endings;
ghost use Rattle.wc_controller.specs.TakenLogs.{optional_of, AreReadOf, failures_of, known_of};
ghost use Rattle.wc_job.specs.Views.{IsWhole};

use crate::ending::InputFault;
use std::alloc::Global;
use wc_job::{Input, ReadFault, read_whole};
use wc_model::ByteIn;
use wc_plate::{Plate, plate};
use wc_run::RunFault;

/// The fault of an input that was not read whole: one that is too long is refused as a job is.
fn whole_fault(fault: ReadFault) -> RunFault
    ensures { result ≡ endings.whole_fault fault }
{
    match fault {
        ReadFault::TooLong => RunFault::Refused {
            number: 702,
            place: 0,
        },
        ReadFault::Read => RunFault::Read,
        ReadFault::Memory => RunFault::Memory,
    }
}

/// All bytes of an input, at most 1048576.
pub fn read_input<R: ByteIn>(
    alloc: Global,
    input: Input,
    reader: &mut R,
) -> Result<Vec<u8>, InputFault>
    ensures whole { IfOk result (λ bytes. IsWhole (R.bytes_left reader.old) bytes.items) }
    ensures too_long { IfErr result
        (λ stopped. RefusesLength (R.bytes_left reader.old) stopped.fault) }
    ensures input { IfErr result (λ stopped. stopped.input ≡ input) }
    ensures failures { ReportsReadFaults input result (R.failure_count reader.old)
        (R.failure_count reader.new) }
    ensures taken { TakesInput (R.bytes_left reader.old) (R.bytes_left reader.new) }
{
    match read_whole(alloc, reader) {
        Ok(bytes) => Ok(bytes),
        Err(fault) => Err(InputFault {
            input,
            fault: whole_fault(fault),
        }),
    }
}

/// All bytes of an input that may be missing, at most 1048576.
pub(crate) fn read_optional<R: ByteIn>(
    alloc: Global,
    input: Input,
    reader: &mut Option<R>,
) -> Result<Option<Vec<u8>>, InputFault>
    ensures whole { IfOk result
        (λ text. AreReadOf
        (optional_of R.bytes_left R.failure_count R.spent_count reader.old)
        (option_map (λ held. held.items) text)) }
    ensures too_long { IfErr result
        (λ stopped. RefusesLength (known_of
        (optional_of R.bytes_left R.failure_count R.spent_count reader.old)) stopped.fault) }
    ensures there { IfErr result (λ stopped. IsSome
        (optional_of R.bytes_left R.failure_count R.spent_count reader.old)) }
    ensures input { IfErr result (λ stopped. stopped.input ≡ input) }
    ensures failures { ReportsReadFaults input result
        (failures_of (optional_of R.bytes_left R.failure_count R.spent_count reader.old))
        (failures_of (optional_of R.bytes_left R.failure_count R.spent_count reader.new)) }
    ensures taken { TakesInput
        (known_of (optional_of R.bytes_left R.failure_count R.spent_count reader.old))
        (known_of (optional_of R.bytes_left R.failure_count R.spent_count reader.new)) }
{
    match reader {
        Some(reader) => match read_input(alloc, input, reader) {
            Ok(text) => Ok(Some(text)),
            Err(stopped) => Err(stopped),
        },
        None => Ok(None),
    }
}

/// The text that is there, borrowed.
pub(crate) fn text_slice(text: &Option<Vec<u8>>) -> Option<&[u8]>
    ensures { option_map (λ borrowed. borrowed.now) result
        ≡ option_map (λ held. held.items) text.now }
{
    match text {
        Some(text) => Some(text.as_slice()),
        None => None,
    }
}

/// The plate that a reader gives.
pub(crate) fn read_plate<R: ByteIn>(alloc: Global, reader: &mut R) -> Result<Plate, InputFault>
    ensures plate { IfSome (R.bytes_left reader.old) (λ bytes. ReadsPlate bytes result) }
    ensures input { IfErr result (λ stopped. stopped.input ≡ Input.Plate) }
    ensures silent { (count : ℕ) → ReportsWriteFaults (raised result) count count }
    ensures failures { ReportsReadFaults Input.Plate result (R.failure_count reader.old)
        (R.failure_count reader.new) }
    ensures taken { TakesInput (R.bytes_left reader.old) (R.bytes_left reader.new) }
{
    let bytes = match read_input(alloc, Input::Plate, reader) {
        Ok(bytes) => bytes,
        Err(stopped) => return Err(stopped),
    };
    match plate(alloc, &bytes) {
        Ok(plate) => Ok(plate),
        Err(fault) => Err(InputFault {
            input: Input::Plate,
            fault: RunFault::from(fault),
        }),
    }
}
