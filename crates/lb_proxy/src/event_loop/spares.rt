//! Buffers that are kept for connections to come.

use std::alloc::Global;

/// How many bytes a buffer has: as many as a head may have.
pub const BUFFER: usize = 65536;

// The most buffers that are kept.
const SPARES: usize = 64;

/// Buffers that nobody uses.
#[derive(Drop)]
pub struct Spares {
    buffers: Vec<Vec<u8>>,
}

impl Spares {
    /// Returns no buffers.
    pub fn new(alloc: Global) -> Spares {
        Spares {
            buffers: Vec::new(alloc),
        }
    }

    /// Takes a buffer, a new one where none is kept; `None` where memory is short.
    pub fn take(&mut self, alloc: Global) -> Option<Vec<u8>> {
        match self.buffers.pop() {
            Some(buffer) => Some(buffer),
            None => vec![in alloc; 0; BUFFER].ok(),
        }
    }

    /// Keeps a buffer, where there aren't enough.
    pub fn give(&mut self, buffer: Vec<u8>) {
        if self.buffers.len() < SPARES {
            let _ = self.buffers.push(buffer);
        }
    }
}
