ghost use Rattle.std.specs.Io.{ReadsAtMost};

use crate::output::{StandardOutput, empty_first};
use crate::session::Session;
use std::cell::RefCell;
use std::fs::File;
use std::io;
use std::io::Read;
use wc_devices::{open_again, read_again};

/// A file that a command reads. It is opened at the first read, so that files are opened one after the other. Before each
/// read the gathered output is written, so that no line waits for more input.
#[derive(Drop)]
pub(crate) struct FileSource<'a> {
    rt: &'a HostRuntime,
    gathered: &'a RefCell<StandardOutput>,
    path: &'a str,
    file: Option<File>,
    cause: Option<io::Error>,
}

impl<'a> FileSource<'a> {
    /// The file at a path, not opened yet.
    pub(crate) fn new(session: Session<'a>, path: &'a str) -> FileSource<'a> {
        FileSource {
            rt: session.rt,
            gathered: session.gathered,
            path,
            file: None,
            cause: None,
        }
    }

    /// Why it could not be opened or read, if the system said so.
    pub(crate) fn cause(&self) -> Option<io::Error> {
        self.cause
    }

    /// Opens the file, unless it is open, and reads.
    fn read_file(&mut self, buffer: &mut [u8]) -> io::Result<usize>
        ensures { ReadsAtMost result buffer.new }
    {
        if self.file.is_none() {
            self.file = Some(open_again(self.rt, self.path)?);
        }
        match &mut self.file {
            Some(file) => read_again(file, buffer),
            None => Ok(0),
        }
    }
}

impl Read for FileSource<'_> {
    fn read(&mut self, buffer: &mut [u8]) -> io::Result<usize> {
        empty_first(self.gathered)?;
        match self.read_file(buffer) {
            Ok(count) => Ok(count),
            Err(error) => {
                self.cause = Some(error);
                Err(error)
            }
        }
    }
}
