//! Runs every worked row and compares what comes with the answers that the rules give: a line for each, and status 1 where one
//! differs. The rows lie in data/ and in the tables: scripts, answers to a check, servers on the own loopback, passes of checks.
//! Given a number, it makes so many requests for memory and then runs the scripts that are run a step at a time, alone; who refuses the
//! program's Nth request refuses each of theirs by other numbers. Given another word, it runs the other rows of that name alone.
#![tactic(auto)]

mod answers;
mod check_tables;
mod files;
mod made;
mod passes;
mod refused;
mod refused_calls;
mod script_tables;
mod scripts;
mod server_tables;
mod servers;
mod steps;
mod streams;

use check_tables::{CHECKS, CUTS, Check, Cut, MADE_STREAMS, MadeStream};
use refused::Again;
use script_tables::{MADE_SCRIPTS, MadeScript, RETRIED, Retried, SCRIPTS};
use server_tables::{PASSES, Pass, SERVERS, Server};
use std::net::{Net, TcpListener, TcpStream};
use std::process::ExitCode;
use std::rt::{Clock, Env, Files};
use std::thread::Threads;
use std::{env, io};

// Prints a row's line; the answer is whether the row agreed.
fn report(rt: &impl Print, name: &str, agreed: io::Result<bool>) -> io::Result<bool> {
    let agreed = agreed?;
    let verdict = if agreed { "as it should be" } else { "differs" };
    println!(rt; "{name}: {verdict}")?;
    Ok(agreed)
}

// The name of the rows that are run; `None` runs all.
type Only<'a> = Option<&'a str>;

// Whether a row of this name is run.
fn is_wanted(only: Only<'_>, name: &str) -> bool {
    match only {
        Some(wanted) => wanted == name,
        None => true,
    }
}

// Each of the functions below reports the rows of its table; the answer is whether all of them agreed.
fn filed_script_rows<R: Files + Print + AllocGlobal>(
    rt: &R,
    only: Only<'_>,
    names: &[&str],
) -> io::Result<bool> {
    let mut all = true;
    for name in names {
        if is_wanted(only, name) {
            all &= report(rt, name, scripts::filed_agrees(rt, name))?;
        }
    }
    Ok(all)
}

fn made_script_rows<R: Print + AllocGlobal>(
    rt: &R,
    only: Only<'_>,
    rows: &[MadeScript],
) -> io::Result<bool> {
    let mut all = true;
    for row in rows {
        if is_wanted(only, row.name) {
            all &= report(rt, row.name, scripts::made_agrees(rt.alloc(), row))?;
        }
    }
    Ok(all)
}

fn retried_rows<R: Files + Print + AllocGlobal>(rt: &R, rows: &[Retried]) -> io::Result<bool> {
    let mut all = true;
    for row in rows {
        all &= retried_row(rt, row)?;
    }
    all &= retried_calls(rt)?;
    Ok(all)
}

fn retried_row<R: Files + Print + AllocGlobal>(rt: &R, row: &Retried) -> io::Result<bool> {
    let course = refused::retried_agrees(rt, row)?;
    report_retried(rt, row.name, course)
}

// Prints a row's line, with what was given again.
fn report_retried(rt: &impl Print, name: &str, (agreed, again): (bool, Again)) -> io::Result<bool> {
    let verdict = if agreed { "as it should be" } else { "differs" };
    match again {
        Again::Nothing => println!(rt; "{name}, a step at a time: {verdict}")?,
        Again::Step(line) => println!(rt; "{name}, line {line} given again: {verdict}")?,
        Again::Build(line) => println!(rt;
            "{name}, the build of line {line} given again: {verdict}"
        )?,
    }
    Ok(agreed)
}

// Reports the calls of a balancer, of a group and of a registry.
fn retried_calls<R: Print + AllocGlobal>(rt: &R) -> io::Result<bool> {
    let alloc = rt.alloc();
    let mut all = report_retried(
        rt,
        "the calls of a balancer",
        refused_calls::balancer_agrees(alloc),
    )?;
    all &= report_retried(
        rt,
        "the calls of a group",
        refused_calls::group_agrees(alloc),
    )?;
    all &= report_retried(
        rt,
        "the calls of a registry",
        refused_calls::registry_agrees(alloc),
    )?;
    Ok(all)
}

fn check_rows<R: Files + Print + AllocGlobal>(
    rt: &R,
    only: Only<'_>,
    checks: &[Check],
) -> io::Result<bool> {
    let mut all = true;
    for check in checks {
        all &= named_check_rows(rt, only, check)?;
    }
    Ok(all)
}

fn named_check_rows<R: Files + Print + AllocGlobal>(
    rt: &R,
    only: Only<'_>,
    check: &Check,
) -> io::Result<bool> {
    let mut all = true;
    for name in check.names {
        if is_wanted(only, name) {
            all &= report(rt, name, answers::filed_agrees(rt, name, check.asked))?;
        }
    }
    Ok(all)
}

fn cut_rows<R: Files + Print + AllocGlobal>(
    rt: &R,
    only: Only<'_>,
    rows: &[Cut],
) -> io::Result<bool> {
    let mut all = true;
    for row in rows {
        if is_wanted(only, row.name) {
            all &= report(rt, row.name, answers::cut_agrees(rt, row))?;
        }
    }
    Ok(all)
}

fn made_stream_rows<R: Print + AllocGlobal>(
    rt: &R,
    only: Only<'_>,
    rows: &[MadeStream],
) -> io::Result<bool> {
    let mut all = true;
    for row in rows {
        if is_wanted(only, row.name) {
            all &= report(rt, row.name, answers::made_agrees(rt.alloc(), row))?;
        }
    }
    Ok(all)
}

fn server_rows<R>(rt: &R, only: Only<'_>, rows: &[Server]) -> io::Result<bool>
where
    R: Net<Listener = TcpListener, Stream = TcpStream>,
    R: Threads + Clock + Files + Sync + Print + AllocGlobal,
{
    let mut all = true;
    for row in rows {
        if is_wanted(only, row.name) {
            all &= report(rt, row.name, servers::agrees(rt, row))?;
        }
    }
    Ok(all)
}

fn pass_rows<R>(rt: &R, only: Only<'_>, rows: &[Pass]) -> io::Result<bool>
where
    R: Net<Listener = TcpListener, Stream = TcpStream>,
    R: Threads + Clock + Print + AllocGlobal,
{
    let mut all = true;
    for row in rows {
        if is_wanted(only, row.name) {
            all &= report(rt, row.name, passes::agrees(rt, row))?;
        }
    }
    Ok(all)
}

// Reports the rows that need no network. Those that are run a step at a time are run with all rows alone, or with a number.
fn memory_rows<R: Files + Print + AllocGlobal>(rt: &R, only: Only<'_>) -> io::Result<bool> {
    let mut all = filed_script_rows(rt, only, SCRIPTS)?;
    if only.is_none() {
        all &= retried_rows(rt, RETRIED)?;
    }
    all &= made_script_rows(rt, only, MADE_SCRIPTS)?;
    all &= check_rows(rt, only, CHECKS)?;
    all &= cut_rows(rt, only, CUTS)?;
    all &= made_stream_rows(rt, only, MADE_STREAMS)?;
    Ok(all)
}

// Reports the rows of a name, or every row.
fn rows<R>(rt: &R, only: Only<'_>) -> io::Result<bool>
where
    R: Net<Listener = TcpListener, Stream = TcpStream>,
    R: Threads + Clock + Files + Sync + Print + AllocGlobal,
{
    let mut all = memory_rows(rt, only)?;
    all &= server_rows(rt, only, SERVERS)?;
    all &= pass_rows(rt, only, PASSES)?;
    Ok(all)
}

// The word that the program was given; that is asked again where it fails.
fn word_given<R: Env + AllocGlobal>(rt: &R) -> Option<String> {
    let mut words = match env::args(rt) {
        Ok(words) => words,
        Err(_) => env::args(rt).ok()?,
    };
    words.nth(1)
}

// Runs the scripts that are run a step at a time, after so many requests for memory.
fn rows_after<R: Files + Print + AllocGlobal>(rt: &R, requests: usize) -> io::Result<bool> {
    let mut made = Vec::with_capacity(rt.alloc(), requests)?;
    for _ in 0..requests {
        made.push(Box::new(rt.alloc(), 0u8)?)?;
    }
    retried_rows(rt, RETRIED)
}

// Runs what the word asks for.
fn rows_of<R>(rt: &R, word: &str) -> io::Result<bool>
where
    R: Net<Listener = TcpListener, Stream = TcpStream>,
    R: Threads + Clock + Files + Sync + Print + AllocGlobal,
{
    match word.parse() {
        Ok(requests) => rows_after(rt, requests),
        Err(_) => rows(rt, Some(word)),
    }
}

fn main(rt: HostRuntime) -> ExitCode {
    let agreed = match word_given(&rt) {
        Some(word) => rows_of(&rt, word.as_str()),
        None => rows(&rt, None),
    };
    match agreed {
        Ok(true) => ExitCode::from(0),
        Ok(false) | Err(_) => ExitCode::from(1),
    }
}
