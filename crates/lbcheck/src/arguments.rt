//! The command line: what may be given, and the help for it.
use clap::{Arg, ArgAction, Command, value_parser};
use std::alloc::{AllocError, Global};

// What an argument is.
#[derive(Clone, Copy)]
enum Kind {
    // The address, which is given without a name.
    Address,
    Text,
    // Text, as often as it is given.
    Texts,
    Number16,
    Number64,
}

// An argument and the help for it.
#[derive(Clone, Copy)]
struct Row {
    name: &'static str,
    value: &'static str,
    help: &'static str,
    kind: Kind,
}

const ADDRESS: Row = Row {
    name: "address",
    value: "ADDR",
    help: "An address as 10.0.0.1:80 or [2001:db8::1]:80, or unix: and the path of a socket",
    kind: Kind::Address,
};

const METHOD: Row = Row {
    name: "method",
    value: "METHOD",
    help: "The method of the request, else GET",
    kind: Kind::Text,
};

const ACCEPT: Row = Row {
    name: "accept",
    value: "STATUS",
    help: "The one status that is accepted, else 200",
    kind: Kind::Number16,
};

const MAX_BODY: Row = Row {
    name: "max-body",
    value: "BYTES",
    help: "The most bytes of a body, else 1048576",
    kind: Kind::Number64,
};

// lbcheck tcp
const TCP: &[Row] = &[ADDRESS];

// lbcheck http
const HTTP: &[Row] = &[
    ADDRESS,
    Row {
        name: "host",
        value: "HOST",
        help: "The host that is asked, else the address",
        kind: Kind::Text,
    },
    Row {
        name: "path",
        value: "PATH",
        help: "The path that is asked for, else /",
        kind: Kind::Text,
    },
    METHOD,
    Row {
        name: "header",
        value: "FIELD",
        help: "A field 'NAME: VALUE' more; may be given again",
        kind: Kind::Texts,
    },
    ACCEPT,
    MAX_BODY,
    Row {
        name: "timeout",
        value: "MS",
        help: "How long to wait to connect, for a read and for a write, else 1000, and any time for a write",
        kind: Kind::Number64,
    },
    Row {
        name: "total-timeout",
        value: "MS",
        help: "How long the whole check may take, else 10000",
        kind: Kind::Number64,
    },
    Row {
        name: "port",
        value: "PORT",
        help: "The port that is checked, else the address's",
        kind: Kind::Number16,
    },
];

// lbcheck replay
const REPLAY: &[Row] = &[METHOD, ACCEPT, MAX_BODY];

fn argument<'a>(alloc: Global, row: &Row) -> Arg<'a> {
    let argument = Arg::new(alloc, row.name)
        .value_name(row.value)
        .help(row.help);
    match row.kind {
        Kind::Address => argument.required(true),
        Kind::Text => argument.long(row.name),
        Kind::Texts => argument.long(row.name).action(ArgAction::Append),
        Kind::Number16 => argument.long(row.name).value_parser(value_parser!(u16)),
        Kind::Number64 => argument.long(row.name).value_parser(value_parser!(u64)),
    }
}

// Adds the arguments.
fn with_arguments<'a>(
    alloc: Global,
    command: Command<'a>,
    rows: &[Row],
) -> Result<Command<'a>, AllocError> {
    let mut command = command;
    for row in rows {
        command = command.arg(argument(alloc, row))?;
    }
    Ok(command)
}

// The three commands: each one's name, the help for it, and its arguments.
const COMMANDS: &[(&str, &str, &[Row])] = &[
    ("tcp", "Connects to a backend, and no more", TCP),
    (
        "http",
        "Sends a request to a backend and reads its answer",
        HTTP,
    ),
    (
        "replay",
        "Checks an answer that stands on standard input",
        REPLAY,
    ),
];

fn commands<'a>(alloc: Global) -> Result<Vec<Command<'a>>, AllocError> {
    let mut commands = Vec::new(alloc);
    for (name, about, rows) in COMMANDS {
        let command = Command::new(alloc, name).about(about);
        commands.push(with_arguments(alloc, command, rows)?)?;
    }
    Ok(commands)
}

/// What may be given.
pub(crate) fn command<'a>(alloc: Global) -> Result<Command<'a>, AllocError> {
    Command::new(alloc, "lbcheck")
        .about(
            "Checks a backend as a load balancer would: it prints 'ok' or a fault, and ends with status 0 or 1",
        )
        .subcommand_required(true)
        .bin_name("lbcheck")?
        .subcommands(commands(alloc)?)
}
