//! Answers a script of steps on standard input, a line for each line, on standard output.
//! It takes no arguments; everything that matters is in the library.
#![tactic(auto)]

use lb_script::run::run_script;
use lb_stream::counted::Counted;
use std::env;
use std::io::{self, BufWriter, ErrorKind, Write};
use std::process::ExitCode;
use std::rt::Env;

// The answers to as many lines as are read at a time are written at once.
const OUTPUT_CAPACITY: usize = 65536;

const BAD_ARGUMENTS: &[u8] = b"error 0 BadArguments\n";

const OUT_OF_MEMORY: &[u8] = b"error 1 OutOfMemory\n";

// The line with which the program ends before it reads: it was given an argument, text or not, or there is no memory to say so.
fn early_end(rt: &(impl Env + AllocGlobal)) -> Option<&'static [u8]> {
    match env::args(rt) {
        Ok(arguments) => {
            if arguments.count() > 1 {
                Some(BAD_ARGUMENTS)
            } else {
                None
            }
        }
        Err(fault) if fault.kind() == ErrorKind::OutOfMemory => Some(OUT_OF_MEMORY),
        Err(_) => Some(BAD_ARGUMENTS),
    }
}

// Writes the one line, and ends with status 1.
fn end_with(rt: &impl Print, line: &[u8]) -> ExitCode {
    let mut out = io::writer(rt);
    let _ = out.write_all(line);
    let _ = out.flush();
    ExitCode::from(1)
}

fn main(rt: HostRuntime) -> ExitCode {
    if let Some(line) = early_end(&rt) {
        return end_with(&rt, line);
    }
    let Ok(buffered) = BufWriter::with_capacity(rt.alloc(), OUTPUT_CAPACITY, io::writer(&rt)) else {
        return end_with(&rt, OUT_OF_MEMORY);
    };
    let mut reader = Counted::new(rt.reader());
    let mut writer = Counted::new(buffered);
    ExitCode::from(run_script(rt.alloc(), &mut reader, &mut writer))
}
