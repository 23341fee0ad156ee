ghost use Rattle.std.specs.Prelude.{◌≡◌, ◌+◌, ◌<◌, ◌≤◌, [], false, IfErr, IfOk, IsFalse, Ok, OnOk, is_err, length};
ghost use Rattle.std.specs.Io.{WritesAtMost};
ghost use Rattle.std.specs.Io.KnownBytes.{Appends, Keeps, WriteAppends};
ghost use Rattle.std.specs.IoError.{error_kind};
ghost use Rattle.wc_devices.specs.Inside.{Buffers, Refuses, buffer_failed, buffer_inner, buffer_size, pending, space_left, taken};

use crate::output_buffer::OutputBuffer;
use std::alloc::{AllocError, Global};
use std::io;
use std::io::{ErrorKind, Write};

impl<D: Drop> OutputBuffer<D> {
    /// One with a buffer of n bytes, which has buffered nothing. The buffer is made here.
    pub fn new(alloc: Global, inner: D, capacity: usize) -> Result<OutputBuffer<D>, AllocError>
        ensures inner { IfOk result (λ g. buffer_inner g ≡ inner) }
        ensures nothing { IfOk result (λ g. pending g ≡ []) }
        ensures size { IfOk result (λ g. buffer_size g ≡ capacity) }
        ensures space { IfOk result (λ g. space_left g ≡ capacity) }
        ensures sound { IfOk result (λ g. buffer_failed g ≡ false) }
    {
        let buffered = Vec::with_capacity(alloc, capacity)?;
        Ok(OutputBuffer {
            inner,
            buffered,
            given: 0,
            capacity,
            failed: false,
        })
    }
}

impl<D> OutputBuffer<D> {
    /// The writer inside.
    pub fn get_ref(&self) -> &D
        ensures { result.now ≡ buffer_inner self.now }
    {
        &self.inner
    }

    /// The number of further bytes that can be buffered; an error if a call has failed.
    fn space(&self) -> io::Result<usize>
        ensures space { IfOk result (λ space. space ≡ space_left self.now) }
        ensures mark { is_err result ≡ buffer_failed self.now }
        ensures broken { IfErr result (λ error. error_kind error ≡ ErrorKind.BrokenPipe) }
    {
        if self.failed {
            return Err(io::Error::from(ErrorKind::BrokenPipe));
        }
        Ok(self.capacity.saturating_sub(self.buffered.len()))
    }
}

impl<D: Write> OutputBuffer<D> {
    /// Passes on some of what is buffered.
    fn give_some(&mut self) -> io::Result<()>
        requires { self.old.given < length self.old.buffered.items }
        ensures bytes { Keeps (taken D.contents self.old) (taken D.contents self.new) }
        ensures items { self.new.buffered.items ≡ self.old.buffered.items }
        ensures more { OnOk result (self.old.given < self.new.given) }
        ensures capacity { self.new.capacity ≡ self.old.capacity }
        ensures mark { self.new.failed ≡ self.old.failed }
    {
        let (_, rest) = self.buffered.as_slice().split_at(self.given);
        let count = self.inner.write(rest)?;
        if count == 0 {
            return Err(io::Error::from(ErrorKind::WriteZero));
        }
        self.given += count;
        Ok(())
    }

    /// Passes on all that is buffered.
    fn give_all(&mut self) -> io::Result<()>
        requires { self.old.failed ≡ false }
        ensures bytes { Keeps (taken D.contents self.old) (taken D.contents self.new) }
        ensures all { OnOk result (length self.new.buffered.items ≤ self.new.given) }
        ensures capacity { self.new.capacity ≡ self.old.capacity }
        ensures mark { self.new.failed ≡ is_err result }
    {
        while self.given < self.buffered.len() {
            if let Err(error) = self.give_some() {
                self.failed = true;
                return Err(error);
            }
        }
        Ok(())
    }

    /// Passes on all that is buffered, so that nothing is pending; or it fails, now or before, and loses nothing of it.
    pub fn empty(&mut self) -> io::Result<()>
        ensures bytes { Keeps (taken D.contents self.old) (taken D.contents self.new) }
        ensures none { OnOk result (pending self.new ≡ []) }
        ensures propagated { OnOk result (Appends (D.contents (buffer_inner self.old))
            (D.contents (buffer_inner self.new)) (pending self.old)) }
        ensures size { buffer_size self.new ≡ buffer_size self.old }
        ensures space { OnOk result (space_left self.new ≡ buffer_size self.old) }
        ensures mark { buffer_failed self.new ≡ is_err result }
        ensures refused { Refuses self.old self.new result }
    {
        self.space()?;
        self.give_all()?;
        self.buffered.clear();
        self.given = 0;
        Ok(())
    }

    /// Buffers a chunk for which there is space, all of it.
    fn keep(&mut self, chunk: &[u8]) -> io::Result<usize>
        requires { length chunk.now ≤ space_left self.old }
        ensures whole { result ≡ Ok (length chunk.now) }
        ensures inner { self.new.inner ≡ self.old.inner }
        ensures capacity { self.new.capacity ≡ self.old.capacity }
        ensures mark { self.new.failed ≡ self.old.failed }
        ensures bytes { WriteAppends (taken D.contents self.old) (taken D.contents self.new)
            result chunk.now }
    {
        match self.buffered.extend_from_slice(chunk) {
            Ok(()) => Ok(chunk.len()),
            Err(_) => Err(io::Error::from(ErrorKind::OutOfMemory)),
        }
    }

    /// Passes on a chunk at once, after which nothing is buffered.
    fn pass(&mut self, chunk: &[u8]) -> io::Result<usize>
        requires nothing { pending self.old ≡ [] }
        requires sound { self.old.failed ≡ false }
        ensures bound { WritesAtMost result chunk.now }
        ensures bytes { WriteAppends (taken D.contents self.old) (taken D.contents self.new)
            result chunk.now }
        ensures nothing { pending self.new ≡ [] }
        ensures capacity { self.new.capacity ≡ self.old.capacity }
        ensures mark { self.new.failed ≡ is_err result }
    {
        let answer = self.inner.write(chunk);
        self.failed = answer.is_err();
        answer
    }
}

impl<D: Write> Write for OutputBuffer<D> {
    ghost contents = { λ g. taken D.contents g };

    fn write(&mut self, chunk: &[u8]) -> io::Result<usize>
        ensures bound { WritesAtMost result chunk.now }
        ensures bytes { WriteAppends (taken D.contents self.old) (taken D.contents self.new)
            result chunk.now }
        ensures buffers { IsFalse (buffer_failed self.old)
            → length chunk.now ≤ space_left self.old → Buffers self.old self.new result chunk.now }
        ensures whole { length chunk.now ≤ buffer_size self.old
            → IfOk result (λ count. count ≡ length chunk.now) }
        ensures passes { buffer_size self.old < length chunk.now
            → OnOk result (pending self.new ≡ []) }
        ensures size { buffer_size self.new ≡ buffer_size self.old }
        ensures mark { buffer_failed self.new ≡ is_err result }
        ensures refused { Refuses self.old self.new result }
    {
        if chunk.len() <= self.space()? {
            return self.keep(chunk);
        }
        self.empty()?;
        // A chunk that is larger than the buffer goes on as it is, so that none takes memory.
        if chunk.len() > self.capacity {
            self.pass(chunk)
        } else {
            self.keep(chunk)
        }
    }

    fn flush(&mut self) -> io::Result<()>
        ensures bytes { Keeps (taken D.contents self.old) (taken D.contents self.new) }
        ensures none { OnOk result (pending self.new ≡ []) }
        ensures propagated { OnOk result (Appends (D.contents (buffer_inner self.old))
            (D.contents (buffer_inner self.new)) (pending self.old)) }
        ensures size { buffer_size self.new ≡ buffer_size self.old }
        ensures mark { buffer_failed self.new ≡ is_err result }
        ensures refused { Refuses self.old self.new result }
    {
        OutputBuffer::empty(self)
    }
}
