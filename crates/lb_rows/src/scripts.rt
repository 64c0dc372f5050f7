//! Rows of scripts: a script runs here as `lbsim` runs it, over memory.
use crate::files::file;
use crate::made::Made;
use crate::script_tables::{Fails, MadeScript};
use crate::steps::run_agrees;
use crate::streams::{Sink, Source};
use lb_script::run::run_script;
use lb_stream::counted::Counted;
use std::alloc::Global;
use std::io;
use std::rt::Files;

/// Returns whether a script in a file is answered as its file of answers says, also as a list of steps.
pub(crate) fn filed_agrees<R: Files + AllocGlobal>(rt: &R, name: &str) -> io::Result<bool> {
    let script = file(rt, name, "script")?;
    let answers = file(rt, name, "answers")?;
    both_agree(rt.alloc(), script.as_slice(), answers.as_slice())
}

// Whether a script is answered so, also as a list of steps.
fn both_agree(alloc: Global, script: &[u8], answers: &[u8]) -> io::Result<bool> {
    let by_script = script_agrees(alloc, script, Fails::Nothing, answers);
    let by_steps = run_agrees(alloc, script, answers)?;
    Ok(by_script && by_steps)
}

/// Returns whether a script that is made is answered as its row says.
pub(crate) fn made_agrees(alloc: Global, row: &MadeScript) -> io::Result<bool> {
    let script = row.script.bytes(alloc)?;
    Ok(script_agrees(alloc, script.as_slice(), row.fails, row.answers))
}

// Whether a script over such streams is answered so, with the status that belongs to the answers.
fn script_agrees(alloc: Global, script: &[u8], fails: Fails, answers: &[u8]) -> bool {
    let mut reader = Counted::new(Source {
        left: script,
        fails: matches!(&fails, Fails::Read),
    });
    let mut writer = Counted::new(Sink {
        written: Vec::new(alloc),
        room: usize::MAX,
        flushes: !matches!(&fails, Fails::Flush),
    });
    let status = run_script(alloc, &mut reader, &mut writer);
    let sink = writer.into_inner();
    if sink.flushes {
        sink.written.as_slice() == answers && status == status_of(answers)
    } else {
        answers.starts_with(sink.written.as_slice()) && status == 1
    }
}

// The status of a script with these answers: 1 where the last is an error.
fn status_of(answers: &[u8]) -> u8 {
    if last_answer(answers).starts_with(b"error ") {
        1
    } else {
        0
    }
}

// The last answer, without its line feed.
fn last_answer(answers: &[u8]) -> &[u8] {
    let lines = answers.strip_suffix(b"\n").unwrap_or(answers);
    lines.rsplit(|byte| *byte == b'\n').next().unwrap_or(lines)
}

/// Returns the answers to steps: all lines but an error.
pub(crate) fn step_answers(answers: &[u8]) -> &[u8] {
    let error = if status_of(answers) == 1 {
        last_answer(answers).len() + 1
    } else {
        0
    };
    let (steps, _) = answers.split_at(answers.len().saturating_sub(error));
    steps
}
