//! Three programs over the facade, each in a file that a reader can copy from its top to its bottom. `lb_example first`,
//! `lb_example threads` or `lb_example groups` runs one of them; without a word each is run in turn.
#![tactic(auto)]

mod first;
mod groups;
mod threads;

use anyhow::{Error, bail};
use pingora_load_balancing::health_check::TcpHealthCheck;
use std::env;
use std::rt::Env;

// Whether each of the three is to be run, in turn: the one that the first word names, or without a word all.
fn wanted<R: Env + AllocGlobal>(rt: &R) -> Result<[bool; 3], Error> {
    let words: Vec<String> = env::args(rt)?.skip(1).collect(rt.alloc())?;
    let Some((word, _)) = words.split_first() else {
        return Ok([true; 3]);
    };
    match word.as_str() {
        "first" => Ok([true, false, false]),
        "threads" => Ok([false, true, false]),
        "groups" => Ok([false, false, true]),
        _ => bail!("usage: lb_example [first | threads | groups]"),
    }
}

fn main(rt: HostRuntime) -> Result<(), Error> {
    let [runs_first, runs_threads, runs_groups] = wanted(&rt)?;
    if runs_first {
        first::run(&rt, TcpHealthCheck::new(rt))?;
    }
    if runs_threads {
        threads::run(&rt, TcpHealthCheck::new(rt))?;
    }
    if runs_groups {
        groups::run(&rt, TcpHealthCheck::new(rt))?;
    }
    Ok(())
}
