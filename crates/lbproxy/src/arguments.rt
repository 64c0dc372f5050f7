//! The command line.
use clap::{Arg, ArgAction, Command};
use std::alloc::{AllocError, Global};

/// Returns the command.
pub fn command<'a>(alloc: Global) -> Result<Command<'a>, AllocError> {
    let config = Arg::new(alloc, "config")
        .value_name("CONFIG")
        .help("The configuration, a TOML file; docs/LBPROXY.md has what may be in it")
        .required(true)
        .action(ArgAction::Set);
    let check = Arg::new(alloc, "check")
        .long("check")
        .help("Reads the configuration, says what is wrong with it, and ends")
        .action(ArgAction::SetTrue);
    let until_eof = Arg::new(alloc, "until-eof")
        .long("until-eof")
        .help(
            "Ends when standard input does: connections in progress get their time, then status 0",
        )
        .action(ArgAction::SetTrue);
    Command::new(alloc, "lbproxy")
        .about(
            "A proxy that balances connections, or requests of HTTP, over pools of checked backends",
        )
        .arg(config)?
        .arg(check)?
        .arg(until_eof)
}
