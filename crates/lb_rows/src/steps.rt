//! Scripts as lists of steps: a world that takes them in one run answers them as the script is answered.
//! Lines are read by the script's own parser; a line that ends its script is no step.
use crate::scripts::step_answers;
use lb_script::kinds::{Chosen, Kind};
use lb_script::parse::parse;
use lb_script::texts::{Scratch, push_line};
use lb_world::answer::Answer;
use lb_world::headline::simulate;
use lb_world::step::Step;
use std::alloc::Global;
use std::io;

/// Returns whether one run of all the script's steps gives the answers to its lines.
pub(crate) fn run_agrees(alloc: Global, script: &[u8], answers: &[u8]) -> io::Result<bool> {
    let answers = step_answers(answers);
    let count = answers.iter().filter(|byte| **byte == b'\n').count();
    match steps_of(alloc, script, count)? {
        Some(steps) => steps_agree(alloc, steps, answers),
        None => Ok(false),
    }
}

// The steps of the first lines, as many as are asked for; none where a line is no step.
fn steps_of(alloc: Global, script: &[u8], count: usize) -> io::Result<Option<Vec<Step<Kind>>>> {
    let mut steps = Vec::with_capacity(alloc, count)?;
    for line in script.split(|byte| *byte == b'\n').take(count) {
        match parse(alloc, line) {
            Ok(step) => steps.push(step.into_step(alloc)?)?,
            Err(_) => return Ok(None),
        }
    }
    Ok(Some(steps))
}

// Whether a new world answers the steps so.
fn steps_agree(alloc: Global, steps: Vec<Step<Kind>>, answers: &[u8]) -> io::Result<bool> {
    match simulate::<Chosen>(alloc, steps) {
        Ok(given) => texts_agree(alloc, given.as_slice(), answers),
        Err(_) => Ok(false),
    }
}

// Whether these answers have that text.
fn texts_agree(alloc: Global, given: &[Answer], answers: &[u8]) -> io::Result<bool> {
    let mut text: Vec<u8> = Vec::new(alloc);
    let mut scratch = Scratch::new(alloc);
    for answer in given {
        push_line(alloc, &mut text, &mut scratch, answer)?;
    }
    Ok(text.as_slice() == answers)
}
