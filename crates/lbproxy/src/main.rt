//! A proxy: it balances connections, or requests of HTTP, over pools of checked backends, by event loops, and shows its state on a page.
#![tactic(auto)]

mod arguments;
mod build;
mod check;
mod flag;
mod group;
mod pool;
mod proxy;
mod render;
mod run;
mod serve;
mod shown;
mod source;
mod stamped;
mod status;
mod threads;

use log::{Level, Logged};
use run::Asked;
use stamped::Stamped;
use std::process::ExitCode;

fn main(rt: HostRuntime) -> ExitCode {
    let logged = Logged::new(rt, Level::Info, Stamped(rt));
    let (config, until_eof) = match run::read_words(&logged) {
        Ok(Asked::Serve { config, until_eof }) => (config, until_eof),
        Ok(Asked::End(status)) => return ExitCode::from(status),
        Err(_) => return ExitCode::from(1),
    };
    let served = match build::commons(&logged, rt, rt.alloc(), &config) {
        Ok(commons) => serve::serve(logged, &rt, &commons, config, until_eof),
        Err(refusal) => Err(refusal.into()),
    };
    match served {
        Ok(()) => ExitCode::from(0),
        Err(error) => {
            let _ = eprintln!(logged; "lbproxy: {error}");
            ExitCode::from(1)
        }
    }
}
