//! The bytes of one direction that were read and not yet passed on, in a buffer that is there only while it holds something.
ghost use Rattle.std.specs.Prelude.{◌≡◌, ◌+◌, ◌≤◌, length, IfOk};

use crate::event_loop::spares::Spares;
use std::alloc::Global;
use std::io::Read;
use std::marker::Model;
use std::{io, mem};

/// Bytes that were read and not yet passed on. Those at the front were looked at, and may be written to the other side.
#[derive(Drop)]
pub struct Inbox {
    buffer: Vec<u8>,
    // The first byte that is left, the first that was not looked at, and the end.
    start: usize,
    passed: usize,
    end: usize,
}

impl Model for Inbox {
    ghost use Rattle.std.specs.Prelude.{ℕ, List, ◌≤◌, slice_range, vec_len};

    ghost Value = { List ℕ };

    ghost view = { λ b. slice_range b.buffer.items b.start b.end };

    ghost invariant = { λ b. (b.start ≤ b.passed) × (b.passed ≤ b.end) × (b.end ≤ vec_len b.buffer) };
}

impl Inbox {
    /// Returns an inbox without bytes and without a buffer.
    pub fn new(alloc: Global) -> Inbox {
        Inbox {
            buffer: Vec::new(alloc),
            start: 0,
            passed: 0,
            end: 0,
        }
    }

    /// Returns the bytes that are left.
    pub fn bytes(&self) -> &[u8] {
        &self.buffer[self.start..self.end]
    }

    /// Returns the bytes that may be written.
    pub fn passed(&self) -> &[u8] {
        &self.buffer[self.start..self.passed]
    }

    /// Returns the bytes that were not looked at.
    pub fn unpassed(&self) -> &[u8] {
        &self.buffer[self.passed..self.end]
    }

    /// Returns whether no byte is left.
    pub fn is_empty(&self) -> bool {
        self.start == self.end
    }

    /// Returns how many bytes can be read.
    pub fn room(&self) -> usize {
        self.buffer.len() - self.end
    }

    /// Has a buffer from now on. Returns whether there was memory for it.
    pub fn provide(&mut self, alloc: Global, spares: &mut Spares) -> bool {
        if !self.buffer.is_empty() {
            return true;
        }
        match spares.take(alloc) {
            Some(buffer) => {
                *self = Inbox {
                    buffer,
                    start: 0,
                    passed: 0,
                    end: 0,
                };
                true
            }
            None => false,
        }
    }

    /// Gives the buffer back where no byte is left.
    pub fn release(&mut self, alloc: Global, spares: &mut Spares) {
        if self.is_empty() && !self.buffer.is_empty() {
            let Inbox { buffer, .. } = mem::replace(self, Inbox::new(alloc));
            spares.give(buffer);
        }
    }

    /// Forgets all bytes.
    pub fn reset(&mut self) {
        self.start = 0;
        self.passed = 0;
        self.end = 0;
    }

    /// Moves the bytes that are left to the front of the buffer.
    pub fn compact(&mut self) {
        let start = self.start;
        let end = self.end;
        let passed = self.passed;
        self.buffer.copy_within(start..end, 0);
        self.start = 0;
        self.passed = passed - start;
        self.end = end - start;
    }

    /// Reads once, as many bytes as there is room for.
    pub fn read_from<R: Read>(&mut self, reader: &mut R) -> io::Result<usize> {
        let count = read_behind(&mut self.buffer, self.end, reader)?;
        self.end += count;
        Ok(count)
    }

    /// Notes that so many more bytes may be written.
    pub fn pass(&mut self, count: usize) {
        self.passed += count.min(self.end - self.passed);
    }

    /// Notes that so many of the bytes that may be written are done with.
    pub fn consume(&mut self, count: usize) {
        self.start += count.min(self.passed - self.start);
        if self.start == self.end {
            self.reset();
        }
    }
}

// Reads once into what is behind the first `end` bytes.
fn read_behind<R: Read>(buffer: &mut [u8], end: usize, reader: &mut R) -> io::Result<usize>
    requires { end ≤ length buffer.old }
    ensures len { length buffer.new ≡ length buffer.old }
    ensures within { IfOk result (λ count. end + count ≤ length buffer.old) }
{
    reader.read(&mut buffer[end..])
}
