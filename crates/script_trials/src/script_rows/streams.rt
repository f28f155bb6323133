//! Readers and writers that fail.

ghost use Rattle.std.specs.Prelude.{◌≡◌, []};

use std::alloc::Global;
use std::io;
use std::io::{Read, Write};

/// Gives its bytes a few at a time, and fails at one of its reads.
#[derive(Drop)]
pub struct Tap<'a> {
    bytes: &'a [u8],
    most: usize,
    reads: usize,
    fails_at: usize,
    kind: io::ErrorKind,
}

impl<'a> Tap<'a> {
    /// Gives at most so many bytes a read, and fails so at the read with this number, counted from 1.
    pub fn new(bytes: &'a [u8], most: usize, fails_at: usize, kind: io::ErrorKind) -> Tap<'a>
        ensures { result.bytes.now ≡ bytes.now }
    {
        Tap {
            bytes,
            most,
            reads: 0,
            fails_at,
            kind,
        }
    }
}

impl Read for Tap<'_> {
    fn read(&mut self, buf: &mut [u8]) -> io::Result<usize> {
        self.reads = self.reads.saturating_add(1);
        if self.reads == self.fails_at {
            return Err(io::Error::from(self.kind));
        }
        let count = buf.len().min(self.bytes.len()).min(self.most);
        let (front, rest) = self.bytes.split_at(count);
        buf[..count].copy_from_slice(front);
        self.bytes = rest;
        Ok(count)
    }
}

/// How a sink fails.
#[derive(Clone, Copy, Debug, PartialEq, Eq)]
pub enum Failure {
    /// Its write answers an error.
    Error,
    /// Its write answers that it was interrupted.
    Interrupted,
    /// Its write takes no byte.
    Nothing,
    /// Its flush answers an error.
    Flush,
}

/// Takes a byte a write, and fails.
#[derive(Drop)]
pub struct Sink {
    bytes: Vec<u8>,
    writes: usize,
    fails_at: usize,
    failure: Failure,
}

impl Sink {
    /// Fails at the write with this number, counted from 1.
    pub fn new(alloc: Global, fails_at: usize, failure: Failure) -> Sink
        ensures { result.bytes.items ≡ [] }
    {
        Sink {
            bytes: Vec::new(alloc),
            writes: 0,
            fails_at,
            failure,
        }
    }

    /// The bytes that it took.
    pub fn taken(&self) -> &[u8]
        ensures { result.now ≡ self.now.bytes.items }
    {
        self.bytes.as_slice()
    }
}

impl Write for Sink {
    fn write(&mut self, buf: &[u8]) -> io::Result<usize> {
        self.writes = self.writes.saturating_add(1);
        if self.writes == self.fails_at {
            return match self.failure {
                Failure::Error => Err(io::Error::from(io::ErrorKind::BrokenPipe)),
                Failure::Interrupted => Err(io::Error::from(io::ErrorKind::Interrupted)),
                Failure::Nothing | Failure::Flush => Ok(0),
            };
        }
        match buf {
            [first, ..] => {
                self.bytes.push(*first)?;
                Ok(1)
            }
            [] => Ok(0),
        }
    }

    fn flush(&mut self) -> io::Result<()> {
        match self.failure {
            Failure::Flush => Err(io::Error::from(io::ErrorKind::BrokenPipe)),
            Failure::Error | Failure::Interrupted | Failure::Nothing => Ok(()),
        }
    }
}
