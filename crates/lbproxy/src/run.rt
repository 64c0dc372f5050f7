//! From the words of the command line to what they ask for.
use crate::arguments::command;
use clap::{ArgMatches, Command, Error};
use lb_proxy::config::{Config, read_config};
use lb_proxy::config_fault::Fault;
use lb_proxy::position::{column_at, line_at, position_of};
use std::alloc::{AllocError, Global};
use std::rt::{Env, Files};
use std::{env, fs, io};

// The configuration that the file spells, or what is wrong with it.
fn load<R: Files + AllocGlobal>(rt: &R, path: &str) -> Result<Config, String> {
    let alloc = rt.alloc();
    match fs::read_to_string(rt, path) {
        Ok(text) => parse(alloc, path, text.as_str()),
        Err(error) => Err(said(alloc, format!(in alloc; "{path}: can't be read: {error}"))),
    }
}

// The configuration that the text spells, or what is wrong with it.
fn parse(alloc: Global, path: &str, text: &str) -> Result<Config, String> {
    let table = match toml::table_from_str(alloc, text) {
        Ok(table) => table,
        Err(error) => return Err(said(alloc, format!(in alloc; "{path}: {error}"))),
    };
    match read_config(alloc, &table) {
        Ok(config) => Ok(config),
        Err(fault) => Err(said(alloc, located(alloc, path, text, &fault))),
    }
}

// A fault with its line and its column, where the text has one.
fn located(alloc: Global, path: &str, text: &str, fault: &Fault<'_>) -> Result<String, AllocError> {
    match position_of(alloc, text.as_bytes(), fault) {
        Ok(Some(place)) => {
            let line = line_at(text.as_bytes(), place);
            let column = column_at(text.as_bytes(), place);
            format!(in alloc; "{path}: line {line}, column {column}: {fault}")
        }
        Ok(None) | Err(_) => format!(in alloc; "{path}: {fault}"),
    }
}

// What is said, as far as there is memory for it.
fn said(alloc: Global, text: Result<String, AllocError>) -> String {
    match text {
        Ok(text) => text,
        Err(_) => String::new(alloc),
    }
}

/// What the words of the command line ask for.
pub enum Asked {
    /// An end with this status.
    End(u8),
    /// A proxy, which ends where standard input does if `until_eof` is set.
    Serve { config: Config, until_eof: bool },
}

// What is asked for with these words, after the file was read.
fn answer<R: Files + Print + Eprint + AllocGlobal>(
    rt: &R,
    given: &ArgMatches<'_>,
) -> io::Result<Asked> {
    let path = given.get_str("config").unwrap_or("");
    let config = match load(rt, path) {
        Ok(config) => config,
        Err(text) => {
            let _ = eprintln!(rt; "lbproxy: {text}");
            return Ok(Asked::End(2));
        }
    };
    if given.get_flag("check") {
        println!(rt; "{path}: ok")?;
        return Ok(Asked::End(0));
    }
    Ok(Asked::Serve {
        config,
        until_eof: given.get_flag("until-eof"),
    })
}

// Prints the help, or what is wrong with the words; the answer is the exit status.
fn print_error<R: Print + Eprint>(rt: &R, error: &Error) -> io::Result<u8> {
    error.print(rt)?;
    Ok(if error.use_stderr() { 2 } else { 0 })
}

/// Returns what the words ask for; help, and what is wrong with the words or the file, is printed.
///
/// The status to end with is 0 after help and for a good file, 2 for bad words or a bad file.
pub fn read_words<R: Files + Env + Print + Eprint + AllocGlobal>(rt: &R) -> io::Result<Asked> {
    let words: Vec<String> = env::args(rt)?.collect(rt.alloc())?;
    let mut command: Command<'_> = command(rt.alloc())?;
    match command.try_get_matches_from_mut(words.as_slice()) {
        Ok(given) => answer(rt, &given),
        Err(error) => Ok(Asked::End(print_error(rt, &error)?)),
    }
}
