ghost use Rattle.std.specs.Prelude.{◌≡◌, None, Some};

use crate::file_source::FileSource;
use crate::reporting::{ReadFile, Sources};
use crate::session::Session;
use std::alloc::AllocError;
use std::io;
use wc_arguments::ProgramFiles;
use wc_controller::RunInputs;
use wc_devices::KeepingReader;
use wc_model::Device;

/// A file whose bytes are kept, so that a refusal shows those that were read.
pub(crate) type KeptSource<'a> = Device<KeepingReader<FileSource<'a>>>;

/// A file whose bytes are kept. It is opened at the first read.
pub(crate) fn kept_source<'a>(session: Session<'a>, path: &'a str) -> KeptSource<'a> {
    Device::new(KeepingReader::new(session.rt.alloc(), FileSource::new(session, path)))
}

/// Why a file could not be read, if the system or the lack of memory is the cause.
pub(crate) fn kept_cause(source: &KeptSource<'_>) -> Option<io::Error> {
    cause_of(source.get_ref(), source.get_ref().get_ref().cause())
}

/// Why a reader that keeps its bytes failed: no memory for these, or the cause of the reader inside.
pub(crate) fn cause_of<D>(
    keeping: &KeepingReader<D>,
    inside: Option<io::Error>,
) -> Option<io::Error> {
    if keeping.has_lacked() {
        return Some(AllocError.into());
    }
    inside
}

/// A file by its path, with the bytes that were read of it.
pub(crate) fn read_of<'a>(path: &'a str, source: &'a KeptSource<'_>) -> ReadFile<'a> {
    ReadFile {
        path,
        bytes: source.get_ref().bytes_read(),
    }
}

/// A file that may be missing. It is opened at the first read.
pub(crate) fn optional_source<'a>(
    session: Session<'a>,
    path: Option<&'a str>,
) -> Option<KeptSource<'a>> {
    Some(kept_source(session, path?))
}

/// Why such a file could not be read, if the system said so.
pub(crate) fn optional_cause(source: &Option<KeptSource<'_>>) -> Option<io::Error> {
    kept_cause(source.as_ref()?)
}

/// Such a file by its path, with the bytes that were read of it.
pub(crate) fn optional_read<'a>(
    path: Option<&'a str>,
    source: &'a Option<KeptSource<'_>>,
) -> Option<ReadFile<'a>> {
    Some(read_of(path?, source.as_ref()?))
}

/// The paths of the files of a run. With no program the line alone is run.
#[derive(Clone, Copy)]
pub(crate) struct RunPaths<'a> {
    pub(crate) plate: &'a str,
    pub(crate) program: Option<&'a str>,
    pub(crate) next: Option<&'a str>,
    pub(crate) log: &'a str,
}

impl<'a> RunPaths<'a> {
    /// The paths of a run with no program.
    pub(crate) fn alone(plate: &'a str, log: &'a str) -> RunPaths<'a>
        ensures { result ≡ record {
          plate = plate.entry;
          program = None;
          next = None;
          log = log.entry;
        } }
    {
        RunPaths {
            plate,
            program: None,
            next: None,
            log,
        }
    }

    /// The paths of a run with a program.
    pub(crate) fn with_program(plate: &'a str, files: ProgramFiles<'a>) -> RunPaths<'a>
        ensures { result ≡ record {
          plate = plate.entry;
          program = Some files.entry.program;
          next = files.entry.next;
          log = files.entry.log;
        } }
    {
        RunPaths {
            plate,
            program: Some(files.program),
            next: files.next,
            log: files.log,
        }
    }
}

/// The readers of the files of a run.
pub(crate) type RunInputFiles<'a> = RunInputs<
    KeptSource<'a>,
    KeptSource<'a>,
    KeptSource<'a>,
    Device<FileSource<'a>>,
>;

/// The files of a run: each is opened at the first read. The bytes of all but the log are kept.
#[derive(Drop)]
pub(crate) struct RunFiles<'a> {
    paths: RunPaths<'a>,
    pub(crate) inputs: RunInputFiles<'a>,
}

impl<'a> RunFiles<'a> {
    /// The files at these paths.
    pub(crate) fn new(session: Session<'a>, paths: RunPaths<'a>) -> RunFiles<'a> {
        RunFiles {
            paths,
            inputs: RunInputs {
                plate: kept_source(session, paths.plate),
                program: optional_source(session, paths.program),
                next: optional_source(session, paths.next),
                log: Device::new(FileSource::new(session, paths.log)),
            },
        }
    }

    /// Why one of the files could not be read, if the system said so.
    pub(crate) fn cause(&self) -> Option<io::Error> {
        kept_cause(&self.inputs.plate)
            .or(optional_cause(&self.inputs.program))
            .or(optional_cause(&self.inputs.next))
            .or(self.inputs.log.get_ref().cause())
    }

    /// The files by their paths, with the bytes that were read of them.
    pub(crate) fn sources(&self) -> Sources<'_> {
        Sources::Files {
            plate: Some(read_of(self.paths.plate, &self.inputs.plate)),
            program: optional_read(self.paths.program, &self.inputs.program),
            next: optional_read(self.paths.next, &self.inputs.next),
            log: Some(ReadFile {
                path: self.paths.log,
                bytes: b"",
            }),
        }
    }
}
