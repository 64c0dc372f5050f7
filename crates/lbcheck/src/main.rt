//! Checks one backend as a balancer would, or an answer that is in a file, and says in one line what came of it.
#![tactic(auto)]

mod arguments;
mod asked;
mod lines;
mod run;
mod stored;

use std::process::ExitCode;

fn main(rt: HostRuntime) -> ExitCode {
    match run::run(&rt) {
        Ok(status) => ExitCode::from(status),
        Err(error) => ExitCode::from(run::give_up(&rt, &error)),
    }
}
