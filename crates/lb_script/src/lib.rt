//! Answers a script of steps line by line, one answer for each line: the step that a line asks for, the text of its answer, and the
//! selector whose kind a script chooses. A run goes over any reader and any writer, and takes no memory but for the line that it reads.
#![tactic(auto)]

pub mod backend_text;
pub mod backends;
pub mod error;
mod figures;
pub mod kinds;
pub mod listed;
pub mod numbers;
pub mod parse;
mod plain;
pub mod run;
pub mod selection;
mod session;
pub mod texts;
pub mod words;
