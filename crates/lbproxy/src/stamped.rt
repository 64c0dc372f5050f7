//! Where log lines go: standard error, each with its time.

use jiff::Timestamp;
use log::kv::Source;
use log::span::Spans;
use log::{Line, Log, Metadata, Record};
use std::fmt;
use std::fmt::Display;
use std::time::Clock;

/// Writes each record to the standard error of `R`, after the time that it has.
#[derive(Clone, Copy, Debug, Drop)]
pub struct Stamped<R>(pub R);

// A line after its time, where the clock gives one.
#[derive(Drop)]
struct StampedLine<'a, 'r, D, K, S> {
    time: Option<Timestamp>,
    line: Line<'a, 'r, D, K, S>,
}

impl<'a, 'r, D: Display, K: Source, S: Spans> Display for StampedLine<'a, 'r, D, K, S> {
    fn fmt<W: fmt::Write>(&self, f: &mut fmt::Formatter<W>) -> fmt::Result {
        if let Some(time) = self.time {
            write!(f, "{time} ")?;
        }
        self.line.fmt(f)
    }
}

impl<R: Eprint + Clock> Log for Stamped<R> {
    fn enabled(&self, _metadata: &Metadata<'_>) -> bool {
        true
    }

    fn log<D: Display, K: Source, S: Spans>(&self, record: &Record<'_, D, K, S>) {
        let _ = self.0.eprintln(StampedLine {
            time: Timestamp::now(&self.0).ok(),
            line: Line::new(record),
        });
    }

    fn flush(&self) {}

    fn target(&self) -> &str {
        ""
    }
}
