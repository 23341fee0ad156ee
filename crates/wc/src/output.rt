use std::alloc::AllocError;
use std::cell::RefCell;
use std::io;
use std::io::{Read, Stdout, Write};
use wc_devices::{OutputBuffer, Retry};

/// The number of bytes that are gathered before they are written.
const CHUNK: usize = 65536;

/// Standard output, and what is gathered for it.
pub(crate) type StandardOutput = OutputBuffer<Retry<Stdout>>;

/// Standard output, for which nothing is gathered yet. It is shared by the writer that gathers and by the readers that
/// have it emptied.
pub(crate) fn shared_output(rt: &HostRuntime) -> Result<RefCell<StandardOutput>, AllocError> {
    let gathered = OutputBuffer::new(rt.alloc(), Retry::new(rt.stdout()), CHUNK)?;
    Ok(RefCell::new(gathered))
}

/// A writer to what is shared.
#[derive(Drop)]
pub(crate) struct SharedWriter<'a> {
    gathered: &'a RefCell<StandardOutput>,
}

impl<'a> SharedWriter<'a> {
    /// A writer to what is gathered.
    pub(crate) fn new(gathered: &'a RefCell<StandardOutput>) -> SharedWriter<'a> {
        SharedWriter { gathered }
    }
}

impl Write for SharedWriter<'_> {
    fn write(&mut self, chunk: &[u8]) -> io::Result<usize> {
        let mut gathered = self.gathered.try_borrow_mut()?;
        gathered.write(chunk)
    }

    fn flush(&mut self) -> io::Result<()> {
        let mut gathered = self.gathered.try_borrow_mut()?;
        gathered.empty()
    }
}

/// A reader before each of whose reads what is gathered is written, so that no line waits for more input.
#[derive(Drop)]
pub(crate) struct FlushBeforeRead<'a, D> {
    gathered: &'a RefCell<StandardOutput>,
    inner: D,
}

impl<'a, D> FlushBeforeRead<'a, D> {
    /// A reader of the same bytes.
    pub(crate) fn new(gathered: &'a RefCell<StandardOutput>, inner: D) -> FlushBeforeRead<'a, D> {
        FlushBeforeRead { gathered, inner }
    }

    /// The reader inside.
    pub(crate) fn get_ref(&self) -> &D {
        &self.inner
    }
}

/// Writes what is gathered.
pub(crate) fn empty_first(gathered: &RefCell<StandardOutput>) -> io::Result<()> {
    let mut gathered = gathered.try_borrow_mut()?;
    gathered.empty()
}

impl<D: Read> Read for FlushBeforeRead<'_, D> {
    ghost remaining = { λ e. D.remaining e.inner };

    fn read(&mut self, buffer: &mut [u8]) -> io::Result<usize> {
        empty_first(self.gathered)?;
        self.inner.read(buffer)
    }
}
