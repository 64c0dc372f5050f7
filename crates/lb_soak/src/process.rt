//! What the operating system says of this process.
use std::rt::Files;
use std::{fs, io, str};

/// How much processor time a process has used, in hundredths of a second, and how many threads it has.
#[derive(Clone, Copy)]
pub struct Process {
    pub ticks: u64,
    pub threads: u64,
}

// The number at a place of a line's words, or 0.
fn word(line: &str, place: usize) -> u64 {
    match line.split_whitespace().nth(place) {
        Some(word) => word.parse().unwrap_or(0),
        None => 0,
    }
}

// The text of a file, without what is no text.
fn text_of(bytes: &[u8]) -> &str {
    str::from_utf8(bytes).unwrap_or("")
}

impl Process {
    /// Returns what this process has used so far, and how many threads it has now.
    pub fn read<R: Files + AllocGlobal>(rt: &R) -> io::Result<Process> {
        let bytes = fs::read(rt, "/proc/self/stat")?;
        // The fields follow the name, which is in brackets.
        let fields = match text_of(&bytes).rsplit_once(')') {
            Some((_, fields)) => fields,
            None => "",
        };
        Ok(Process {
            ticks: word(fields, 11).saturating_add(word(fields, 12)),
            threads: word(fields, 17),
        })
    }
}

/// Returns how much memory of this process is resident, in KiB.
pub fn resident<R: Files + AllocGlobal>(rt: &R) -> io::Result<u64> {
    let bytes = fs::read(rt, "/proc/self/smaps_rollup")?;
    let line = text_of(&bytes)
        .lines()
        .find(|line| line.starts_with("Rss:"));
    Ok(word(line.unwrap_or(""), 1))
}
