//! A log that keeps its lines for a test, where what logs outlives the test: a worker that a run starts.
use log::kv::Source;
use log::span::Spans;
use log::{Line, Log, Metadata, Record};
use std::alloc::Global;
use std::fmt::Display;
use std::io::Write;
use std::process::Abort;
use std::sync::{Mutex, Wait};

/// A log that keeps its lines. It is copied to each worker that a run starts, so the text lives as long as the program.
#[derive(Clone, Copy)]
pub struct Noted<R> {
    rt: R,
    text: &'static Mutex<Vec<u8>>,
}

impl<R: Abort + Wait> Noted<R> {
    /// Returns a log without lines.
    pub fn new(rt: R, alloc: Global) -> Noted<R> {
        let text = Box::new(alloc, Mutex::new(Vec::new(alloc))).expect(&rt, "refused");
        Noted {
            rt,
            text: Box::leak(text),
        }
    }

    /// Returns whether these are its lines.
    pub fn said(&self, lines: &str) -> bool {
        self.text.lock(&self.rt).as_slice() == lines.as_bytes()
    }
}

impl<R: Wait> Log for Noted<R> {
    ghost use Rattle.std.specs.Prelude.{Some, true, []};

    ghost enables = { λ _ _ _. Some true };

    ghost target_of = { λ _. Some [] };

    fn enabled(&self, _metadata: &Metadata<'_>) -> bool {
        true
    }

    fn log<D: Display, K: Source, S: Spans>(&self, record: &Record<'_, D, K, S>) {
        let _ = self.text.lock(&self.rt).writeln(Line::new(record));
    }

    fn flush(&self) {}

    fn target(&self) -> &str {
        ""
    }
}
