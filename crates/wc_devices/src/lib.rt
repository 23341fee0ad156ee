//! Readers and writers around others, which give their bytes if those do: one that tries a call again after an
//! interruption and keeps why it failed, one that keeps what it read, and one that gathers what is written.
#![tactic(auto)]

mod buffered_writes;
mod keeping_reader;
mod output_buffer;
mod retry;

pub use keeping_reader::KeepingReader;
pub use output_buffer::OutputBuffer;
pub use retry::{Retry, open_again, read_again};
