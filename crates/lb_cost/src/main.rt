//! What the library's parts cost: `lb_cost WORD [WORD ..]`. The first word says what is measured, and the scripts of `bench/` print the
//! results. Without a word each is measured once in a small form, whose lines are always the same.
#![tactic(auto)]

mod board;
mod group;
mod groups;
mod health;
mod rebuilds;
mod selects;
mod shared;
mod starting;
mod words;

use anyhow::Error;
use log::Log;
use std::alloc::Global;
use std::env;
use std::sync::Wait;
use std::thread::Threads;
use std::time::Clock;
use words::Usage;

// Measures what a word says, by these numbers.
fn measure<
    R: Log
        + Threads
        + Wait
        + Clock
        + Input
        + Print
        + AllocGlobal
        + Copy
        + Send
        + Sync
        + Drop
        + 'static,
>(rt: &R, alloc: Global, word: &str, numbers: &[String]) -> Result<(), Error> {
    match word {
        "board" => board::run(rt, alloc, numbers),
        "group" => group::run(rt, alloc, numbers),
        "groups" => groups::run(rt, alloc, numbers),
        "health" => health::run(rt, alloc, numbers),
        "rebuilds" => rebuilds::run(rt, alloc, numbers),
        "selects" => selects::run(rt, alloc),
        "shared" => shared::run(rt, alloc, numbers),
        _ => Err(Usage::UnknownWord)?,
    }
}

// Measures each once, in its small form.
fn measure_all<
    R: Log
        + Threads
        + Wait
        + Clock
        + Input
        + Print
        + AllocGlobal
        + Copy
        + Send
        + Sync
        + Drop
        + 'static,
>(rt: &R, alloc: Global) -> Result<(), Error> {
    for word in ["board", "group", "health"] {
        measure(rt, alloc, word, &[])?;
    }
    selects::few(rt, alloc)?;
    shared::run(rt, alloc, &[])?;
    groups::run(rt, alloc, &[])?;
    rebuilds::run(rt, alloc, &[])
}

fn main(rt: HostRuntime) -> Result<(), Error> {
    let alloc = rt.alloc();
    let words: Vec<String> = env::args(&rt)?.skip(1).collect(alloc)?;
    match words.split_first() {
        Some((word, numbers)) => measure(&rt, alloc, word.as_str(), numbers),
        None => measure_all(&rt, alloc),
    }
}
