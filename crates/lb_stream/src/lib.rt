//! A stream that remembers whether it has failed (`Counted`), and lines of a stream, read ahead, each within a limit.
//! What was written is flushed before each read, so that a peer which waits for an answer before it sends more has it.
#![tactic(auto)]

pub mod counted;
pub mod lines;
pub mod read_ahead;
