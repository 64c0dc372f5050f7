//! The three commands.
use crate::arguments::command;
use crate::asked::{Accepted, Refused, accepted_of, backend_of, method_of, peer_of, request_of};
use crate::lines::{CheckLine, ReplayLine, exit_status};
use crate::stored::replay;
use clap::error::ErrorKind;
use clap::{ArgMatches, Command, Error};
use http::Request;
use lb_health_core::error::CheckError;
use lb_health_core::health_check::HealthCheck;
use lb_health_http::{HttpHealthCheck, TcpHealthCheck, request_for};
use lb_select_base::backend::Backend;
use lb_stream::counted::Counted;
use std::alloc::Global;
use std::env;
use std::io::{self, BufReader};
use std::net::{Net, TcpStream};
use std::rt::{Clock, Env};

// How many bytes of standard input are read at a time.
const INPUT_CAPACITY: usize = 65536;

// The outcome of a check.
type Outcome = Result<(), CheckError>;

// Sets what the check asks, what it accepts and how long it waits.
fn prepare<N>(
    alloc: Global,
    check: &mut HttpHealthCheck<N>,
    given: &ArgMatches<'_>,
    backend: &Backend,
) -> Result<(), Refused> {
    let accepted = accepted_of(given)?;
    check.validator = accepted.validator;
    check.max_body_bytes = accepted.max_body_bytes;
    check.port_override = given.get_one::<u16>("port");
    check.peer_template = peer_of(given);
    check.req = request_of(alloc, given, backend)?;
    Ok(())
}

// The outcome of the check, once it is prepared.
fn check_prepared<N: Net<Stream = TcpStream> + Clock>(
    alloc: Global,
    check: &mut HttpHealthCheck<N>,
    given: &ArgMatches<'_>,
    backend: &Backend,
) -> Result<Outcome, Refused> {
    prepare(alloc, check, given, backend)?;
    Ok(check.check(alloc, backend))
}

// lbcheck http: the outcome of the check.
fn check_http<R: Net<Stream = TcpStream> + Clock + AllocGlobal>(
    rt: &R,
    given: &ArgMatches<'_>,
    backend: &Backend,
) -> Result<Outcome, Refused> {
    match HttpHealthCheck::new(rt.alloc(), rt, "") {
        Ok(mut check) => check_prepared(rt.alloc(), &mut check, given, backend),
        Err(_) => Err(Refused::OutOfMemory),
    }
}

// lbcheck tcp, or lbcheck http: the outcome of the check.
fn check_backend<R: Net<Stream = TcpStream> + Clock + AllocGlobal>(
    rt: &R,
    name: &str,
    given: &ArgMatches<'_>,
) -> Result<Outcome, Refused> {
    let backend = backend_of(rt.alloc(), given)?;
    if name == "tcp" {
        Ok(TcpHealthCheck::new(rt).check(rt.alloc(), &backend))
    } else {
        check_http(rt, given, &backend)
    }
}

// The outcome of a check of standard input, and how many bytes it left unread.
fn replay_input<R: Input + AllocGlobal>(
    rt: &R,
    request: &Request<()>,
    accepted: Accepted,
) -> Result<ReplayLine, Refused> {
    let alloc = rt.alloc();
    let Ok(buffered) = BufReader::with_capacity(alloc, INPUT_CAPACITY, rt.reader()) else {
        return Err(Refused::OutOfMemory);
    };
    let mut reader = Counted::new(buffered);
    let replayed = replay(
        alloc,
        request,
        &accepted.validator,
        accepted.max_body_bytes,
        &mut reader,
    );
    Ok(ReplayLine(replayed.outcome, replayed.unread))
}

// lbcheck replay: the outcome of the check, and how many bytes it left unread.
fn check_input<R: Input + AllocGlobal>(
    rt: &R,
    given: &ArgMatches<'_>,
) -> Result<ReplayLine, Refused> {
    let accepted = accepted_of(given)?;
    let method = method_of(rt.alloc(), given)?;
    match request_for(rt.alloc(), method, "localhost") {
        Ok(request) => replay_input(rt, &request, accepted),
        Err(_) => Err(Refused::OutOfMemory),
    }
}

// Prints the line of a check; the answer is the exit status.
fn tell<R: Print>(rt: &R, outcome: Result<(), CheckError>) -> io::Result<u8> {
    println!(rt; "{}", CheckLine(outcome))?;
    Ok(exit_status(outcome))
}

// Prints why nothing was checked; the answer is the exit status.
fn refuse<R: Print + Eprint>(
    rt: &R,
    command: &mut Command<'_>,
    refused: Refused,
) -> io::Result<u8> {
    if let Refused::OutOfMemory = refused {
        return tell(rt, Err(CheckError::OutOfMemory));
    }
    let error = command.error(ErrorKind::ValueValidation, refused.text())?;
    print_error(rt, &error)
}

// Prints the help, or what is wrong with the arguments; the answer is the exit status.
fn print_error<R: Print + Eprint>(rt: &R, error: &Error) -> io::Result<u8> {
    if error.kind() == ErrorKind::OutOfMemory {
        return tell(rt, Err(CheckError::OutOfMemory));
    }
    error.print(rt)?;
    Ok(if error.use_stderr() { 2 } else { 0 })
}

/// Prints why there is no line of a check, as well as that can be said, and returns the exit status.
pub(crate) fn give_up<R: Print + Eprint>(rt: &R, error: &io::Error) -> u8 {
    match error.kind() {
        io::ErrorKind::OutOfMemory => {
            let _ = tell(rt, Err(CheckError::OutOfMemory));
            1
        }
        io::ErrorKind::InvalidData => {
            let _ = eprintln!(rt; "error: an argument is no text in UTF-8");
            2
        }
        _ => 1,
    }
}

// Prints the line of a replayed check; the answer is the exit status.
fn tell_input<R: Print>(rt: &R, line: ReplayLine) -> io::Result<u8> {
    println!(rt; "{line}")?;
    Ok(exit_status(line.0))
}

// Checks what is asked for, and prints the line of it, or what is wrong; the answer is the exit status.
fn answer<R>(rt: &R, command: &mut Command<'_>, matches: &ArgMatches<'_>) -> io::Result<u8>
where
    R: Net<Stream = TcpStream> + Clock + Input + Print + Eprint + AllocGlobal,
{
    let Some((name, given)) = matches.subcommand() else {
        return Ok(2);
    };
    let outcome = if name == "replay" {
        match check_input(rt, given) {
            Ok(line) => return tell_input(rt, line),
            Err(refused) => Err(refused),
        }
    } else {
        check_backend(rt, name, given)
    };
    match outcome {
        Ok(outcome) => tell(rt, outcome),
        Err(refused) => refuse(rt, command, refused),
    }
}

// Reads the words, checks, and prints the line of it; the answer is the exit status.
fn run_words<'a, R>(rt: &R, command: &mut Command<'a>, words: &'a [String]) -> io::Result<u8>
where
    R: Net<Stream = TcpStream> + Clock + Input + Print + Eprint + AllocGlobal,
{
    match command.try_get_matches_from_mut(words) {
        Ok(matches) => answer(rt, command, &matches),
        Err(error) => print_error(rt, &error),
    }
}

/// Reads the arguments, checks, and prints the line of it. The answer is the exit status: 0 where the check passed or the help
/// was asked for, 1 where the check failed, 2 for bad arguments.
pub(crate) fn run<R>(rt: &R) -> io::Result<u8>
where
    R: Net<Stream = TcpStream> + Clock + Env + Input + Print + Eprint + AllocGlobal,
{
    let words: Vec<String> = env::args(rt)?.collect(rt.alloc())?;
    let mut command = command(rt.alloc())?;
    run_words(rt, &mut command, words.as_slice())
}
