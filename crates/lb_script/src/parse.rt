//! The step that a line of a script asks for.
//! A line's first word says which kind of step it is; the words after it are read without memory, but for lists, keys and paths.
ghost use Rattle.std.specs.Prelude.{◌≡◌, option_map, IfOk};
ghost use Rattle.lb_script.specs.StepLines.{Reads, select_parts_of, select_of, other_step_of, step_of_words, step_of};
ghost use Rattle.lb_script.specs.LineSteps.{line_step_seen};
ghost use Rattle.lb_world.specs.Steps.{step_seen};

use crate::error::ScriptError;
use crate::kinds::Kind;
use crate::listed::{backend_step, group, update};
use crate::numbers::number;
use crate::selection::SelectionLine;
use crate::words::Words;
use lb_world::step::Step;
use std::alloc::{AllocError, Global};
use std::str;

/// A step that a line asks for.
#[derive(Drop)]
pub enum LineStep<'a> {
    /// A selection.
    Select(SelectionLine<'a>),
    /// Any other step.
    Other(Step<Kind>),
}

impl<'a> LineStep<'a> {
    /// Returns the step by itself, apart from the line.
    ///
    /// Memory is taken for a key.
    pub fn into_step(self, alloc: Global) -> Result<Step<Kind>, AllocError>
        ensures { IfOk result (λ step. step_seen step ≡ line_step_seen self.entry) }
    {
        match self {
            LineStep::Select(selection) => Ok(Step::Select {
                group: selection.group,
                slot: selection.slot,
                key: Vec::from_slice(alloc, selection.key)?,
                limit: selection.limit,
                words: Vec::new(alloc),
            }),
            LineStep::Other(step) => Ok(step),
        }
    }
}

/// Returns the step that the line asks for, the line given without its line feed.
///
/// A bad line where it asks for none; memory is taken where the step has a list or a path.
pub fn parse(alloc: Global, line: &[u8]) -> Result<LineStep<'_>, ScriptError>
    ensures { Reads line_step_seen (step_of line.now) result }
{
    match str::from_utf8(line) {
        Ok(text) => step(alloc, Words::of(text)),
        Err(_) => Err(ScriptError::BadLine),
    }
}

// The step that these words ask for.
fn step<'a>(alloc: Global, mut words: Words<'a>) -> Result<LineStep<'a>, ScriptError>
    ensures { Reads line_step_seen (step_of_words words.entry) result }
{
    let Some(first) = words.next() else {
        return Err(ScriptError::BadLine);
    };
    if first == "select" {
        return select(words).ok_or(ScriptError::BadLine);
    }
    match other_step(alloc, first, words) {
        Ok(step) => Ok(LineStep::Other(step)),
        Err(error) => Err(error),
    }
}

// A step that isn't a selection, by its first word.
fn other_step(alloc: Global, first: &str, words: Words<'_>) -> Result<Step<Kind>, ScriptError>
    ensures { Reads step_seen (other_step_of first.now words.entry) result }
{
    match first {
        "update" => update(alloc, words),
        "group" => group(alloc, words),
        _ => backend_step(alloc, first, words),
    }
}

fn select<'a>(words: Words<'a>) -> Option<LineStep<'a>>
    ensures { option_map line_step_seen result ≡ select_of words.entry }
{
    let ((group, slot), (key, limit)) = select_parts(words)?;
    Some(LineStep::Select(SelectionLine {
        group,
        slot: slot as usize,
        key: key.as_bytes(),
        limit: limit as usize,
    }))
}

// The group, the slot, the key and the limit.
fn select_parts<'a>(mut words: Words<'a>) -> Option<((u64, u64), (&'a str, u64))>
    ensures { option_map (λ p. (p.0, (p.1.0.now, p.1.1))) result ≡ select_parts_of words.entry }
{
    let (Some(group), Some(slot), Some(key), Some(limit), None) = (
        words.next(),
        words.next(),
        words.next(),
        words.next(),
        words.next(),
    ) else {
        return None;
    };
    if key.is_empty() {
        return None;
    }
    Some(((number(group)?, number(slot)?), (key, number(limit)?)))
}
