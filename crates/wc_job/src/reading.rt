ghost use Rattle.std.specs.Prelude.{◌≡◌, ◌+◌, ◌≤◌, IfErr, IfOk, length};
ghost use Rattle.wc_job.specs.Views.{Adds, IsOverTheLimit, IsWhole, ReadsInto, TakesAtMost, failures_after};
ghost use Rattle.wc_model.specs.Definitions.{failures_after_read, longest_job};

use std::alloc::Global;
use std::io;
use thiserror::Error;
use wc_model::{ByteIn, LONGEST_JOB};

/// Why the bytes of a job are not known.
#[derive(Clone, Copy, Debug, Error)]
pub enum ReadFault {
    #[error("more than 1048576 bytes")]
    TooLong,
    #[error("read fault")]
    Read,
    #[error("out of memory")]
    Memory,
}

/// The number of bytes read at once.
const CHUNK: usize = 4096;

/// Reads into the start of the buffer, at most n bytes.
fn read_up_to<R: ByteIn>(reader: &mut R, buffer: &mut [u8], most: usize) -> io::Result<usize>
    requires { most ≤ length buffer.old }
    ensures bytes { ReadsInto most (R.bytes_left reader.old)
        (R.bytes_left reader.new) result buffer.new }
    ensures failures { R.failure_count reader.new
        ≡ failures_after_read (R.failure_count reader.old) result }
{
    reader.read(&mut buffer[..most])
}

/// Reads once, and adds what it gave. False is the end.
fn read_more<R: ByteIn>(reader: &mut R, bytes: &mut Vec<u8>) -> Result<bool, ReadFault>
    requires { length bytes.old.items ≤ longest_job }
    ensures added { Adds (R.bytes_left reader.old)
        (R.bytes_left reader.new) result bytes.old.items bytes.new.items }
    ensures failures { R.failure_count reader.new
        ≡ failures_after (R.failure_count reader.old) result }
{
    let mut buffer = [0_u8; CHUNK];
    let most = (LONGEST_JOB + 1 - bytes.len()).min(CHUNK);
    match read_up_to(reader, &mut buffer, most) {
        Err(_) => Err(ReadFault::Read),
        Ok(0) => Ok(false),
        Ok(count) => match bytes.extend_from_slice(&buffer[..count]) {
            Ok(()) => Ok(true),
            Err(_) => Err(ReadFault::Memory),
        },
    }
}

/// All bytes of a reader, if they are at most 1048576. `TooLong` if they are more, `Read` if a call of `read` failed
/// (also one that was interrupted), `Memory` if memory is refused. It reads up to the end, the first fault, or byte 1048577.
pub fn read_whole<R: ByteIn>(alloc: Global, reader: &mut R) -> Result<Vec<u8>, ReadFault>
    ensures whole { IfOk result (λ bytes. IsWhole (R.bytes_left reader.old) bytes.items) }
    ensures too_long { IfErr result (λ fault. IsOverTheLimit (R.bytes_left reader.old) fault) }
    ensures taken { TakesAtMost (longest_job + 1) (R.bytes_left reader.old)
        (R.bytes_left reader.new) }
    ensures failures { R.failure_count reader.new
        ≡ failures_after (R.failure_count reader.old) result }
{
    let mut bytes = Vec::new(alloc);
    while bytes.len() <= LONGEST_JOB {
        match read_more(reader, &mut bytes) {
            Ok(true) => {}
            Ok(false) => return Ok(bytes),
            Err(fault) => return Err(fault),
        }
    }
    Err(ReadFault::TooLong)
}
