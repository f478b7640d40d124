//! A reader and a writer that move a few bytes per call, and fail or move nothing at one call.

ghost use Rattle.std.specs.Prelude.{◌≤◌, IfOk};

use std::io::{Error, Read, Result, Write};

/// Numbers of the system's errors: an interrupted call, and a fault of the device.
pub const ERRORS: [i32; 2] = [4, 5];

/// The calls of a fake: how many bytes each moves at most, and which one, counted from 1, stops.
#[derive(Drop)]
pub struct Calls {
    most: usize,
    error: Option<i32>,
    /// The call that stops.
    pub stops_at: usize,
    /// The number of calls so far.
    pub made: usize,
}

impl Calls {
    /// Stops at one call, which returns the error of this number, or without one moves nothing.
    /// Those after it move bytes again.
    pub fn stopping(most: usize, stops_at: usize, error: Option<i32>) -> Self {
        Calls {
            most,
            error,
            stops_at,
            made: 0,
        }
    }

    /// Never stops.
    pub fn endless(most: usize) -> Self {
        Calls::stopping(most, 0, None)
    }

    // Counts a call that could move this many bytes. Returns how many it moves.
    fn next(&mut self, bytes: usize) -> Result<usize>
        ensures { IfOk result (λ count. count ≤ bytes) }
    {
        self.made = self.made.saturating_add(1);
        if self.made != self.stops_at {
            return Ok(self.most.min(bytes));
        }
        match self.error {
            Some(number) => Err(Error::from_raw_os_error(number)),
            None => Ok(0),
        }
    }
}

/// A reader of bytes in memory, which tells contracts nothing of them.
#[derive(Drop)]
pub struct FakeReader<'a> {
    left: &'a [u8],
    /// Its reads.
    pub calls: Calls,
}

impl<'a> FakeReader<'a> {
    /// Gives `bytes`.
    pub fn new(bytes: &'a [u8], calls: Calls) -> Self {
        FakeReader { left: bytes, calls }
    }
}

impl Read for FakeReader<'_> {
    fn read(&mut self, buf: &mut [u8]) -> Result<usize> {
        let count = self.calls.next(self.left.len().min(buf.len()))?;
        buf[..count].copy_from_slice(&self.left[..count]);
        self.left = &self.left[count..];
        Ok(count)
    }
}

/// A writer that holds up to 64 bytes.
#[derive(Drop)]
pub struct FakeWriter {
    held: [u8; 64],
    count: usize,
    /// Its writes and flushes.
    pub calls: Calls,
    ghost within: { count ≤ 64 },
}

impl FakeWriter {
    /// Holds no bytes yet.
    pub fn new(calls: Calls) -> Self {
        FakeWriter {
            held: [0; 64],
            count: 0,
            calls,
        }
    }

    /// Returns the bytes that it accepted.
    pub fn taken(&self) -> &[u8] {
        &self.held[..self.count]
    }
}

impl Write for FakeWriter {
    fn write(&mut self, buf: &[u8]) -> Result<usize> {
        let count = self.calls.next(buf.len().min(64 - self.count))?;
        self.held[self.count..self.count + count].copy_from_slice(&buf[..count]);
        self.count += count;
        Ok(count)
    }

    fn flush(&mut self) -> Result<()> {
        self.calls.next(0)?;
        Ok(())
    }
}
