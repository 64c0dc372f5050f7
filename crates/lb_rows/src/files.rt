//! The files of a row: they lie in data/, and in the folder that the program is run in.
use std::rt::Files;
use std::{fs, io};

/// Returns the bytes of the file with that name and ending.
pub(crate) fn file<R: Files + AllocGlobal>(
    rt: &R,
    name: &str,
    ending: &str,
) -> io::Result<Vec<u8>> {
    let path = format!(in rt.alloc(); "{name}.{ending}")?;
    fs::read(rt, path)
}
