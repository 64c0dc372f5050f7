//! Bytes that are too many for a file: a beginning, what is repeated, and an end.
use std::alloc::Global;
use std::io;

/// What is repeated, and how often.
#[derive(Clone, Copy)]
pub(crate) enum Fill {
    /// Nothing.
    None,
    /// A byte.
    Byte(u8, usize),
    /// A word for a backend of that weight, each at an address of its own.
    Backends(u32, u32),
}

/// Bytes that are made.
#[derive(Clone, Copy)]
pub(crate) struct Made {
    pub(crate) before: &'static [u8],
    pub(crate) fill: Fill,
    pub(crate) after: &'static [u8],
}

impl Made {
    /// Returns the bytes.
    pub(crate) fn bytes(&self, alloc: Global) -> io::Result<Vec<u8>> {
        let mut bytes = self.before.to_vec(alloc)?;
        self.push_rest(alloc, &mut bytes)?;
        Ok(bytes)
    }

    // Appends what is repeated and the end.
    fn push_rest(&self, alloc: Global, bytes: &mut Vec<u8>) -> io::Result<()> {
        match self.fill {
            Fill::None => {}
            Fill::Byte(byte, count) => push_many(alloc, bytes, byte, count)?,
            Fill::Backends(count, weight) => push_backends(alloc, bytes, count, weight)?,
        }
        bytes.extend_from_slice(self.after)?;
        Ok(())
    }
}

// Appends so many of the byte.
fn push_many(alloc: Global, bytes: &mut Vec<u8>, byte: u8, count: usize) -> io::Result<()> {
    let many = vec![in alloc; byte; count]?;
    bytes.extend_from_slice(many.as_slice())?;
    Ok(())
}

// Appends the words for so many backends, each after a space.
fn push_backends(alloc: Global, bytes: &mut Vec<u8>, count: u32, weight: u32) -> io::Result<()> {
    for number in 0..count {
        let high = number / 256 % 256;
        let low = number % 256;
        let word = format!(in alloc; " 10.0.{high}.{low}:80/{weight}")?;
        bytes.extend_from_slice(word.as_bytes())?;
    }
    Ok(())
}
