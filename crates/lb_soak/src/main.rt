//! What the types that threads share stand up to: `lb_soak [SECONDS]` runs groups under threads, and `lb_soak refused` makes the calls of
//! which each request for memory is refused. Without a word both are done, the first for ten seconds; the lines are always the same then.
#![tactic(auto)]

mod passes;
mod process;
mod refused;
mod refused_passes;
mod refused_subjects;
mod soak;
mod soak_groups;
mod soak_threads;

use anyhow::Error;
use log::Log;
use std::alloc::Global;
use std::env;
use std::net::Net;
use std::rt::Files;
use std::sync::Wait;
use std::thread::Threads;
use std::time::Clock;

// How long the soak takes where no word says it, in seconds.
const SECONDS: u32 = 10;

// The command line is none of this program's.
#[derive(Clone, Copy, Debug, PartialEq, Eq, thiserror::Error)]
#[error("usage: lb_soak [SECONDS | refused]")]
struct Usage {}

// Does what a word says.
fn run<
    R: Log
        + Net
        + Threads
        + Wait
        + Clock
        + Files
        + Input
        + Print
        + AllocGlobal
        + Copy
        + Send
        + Sync
        + Drop
        + 'static,
>(rt: &R, alloc: Global, word: &str) -> Result<(), Error> {
    if word == "refused" {
        return refused::run(rt, alloc);
    }
    let seconds: u32 = word.parse().map_err(|_| Usage {})?;
    soak::run(rt, alloc, seconds)
}

fn main(rt: HostRuntime) -> Result<(), Error> {
    let alloc = rt.alloc();
    let words: Vec<String> = env::args(&rt)?.skip(1).collect(alloc)?;
    match words.first() {
        Some(word) => run(&rt, alloc, word.as_str()),
        None => {
            refused::run(&rt, alloc)?;
            soak::run(&rt, alloc, SECONDS)
        }
    }
}
