//! The steps that a list or a backend belongs to: their words are read with memory.
//! A group has a list of configurations, an update a list of backends.
ghost use Rattle.std.specs.Prelude.{◌≡◌};
ghost use Rattle.lb_script.specs.StepLines.{Reads, selector_kind_of, count, group_parts_of, slots_of, update_of};
ghost use Rattle.lb_script.specs.StepLines.{numbered_backend_of, load_of, backend_step_of};
ghost use Rattle.lb_world.specs.Steps.{step_seen};

use crate::backends::{backend, listings};
use crate::error::ScriptError;
use crate::kinds::Kind;
use crate::numbers::{number, wide_number};
use crate::plain::plain_step;
use crate::words::Words;
use lb_select_base::backend::Backend;
use lb_world::step::Step;
use std::alloc::Global;

/// The most slots that a script may give a group.
pub const SLOT_LIMIT: u64 = 1024;

// A group has a slot for each of its configurations.
pub(crate) fn group(alloc: Global, words: Words<'_>) -> Result<Step<Kind>, ScriptError>
    ensures { Reads step_seen (slots_of words.entry) result }
{
    let Some(((registry, gate), (kind, slots))) = group_parts(words) else {
        return Err(ScriptError::BadLine);
    };
    let configs = Vec::from_elem(alloc, kind, slots as usize)?;
    Ok(Step::Group {
        registry,
        gate,
        configs,
    })
}

// The registry, the gate, the kind of the slots and how many there are.
fn group_parts(mut words: Words<'_>) -> Option<((u64, u64), (Kind, u64))>
    ensures { result ≡ group_parts_of words.entry }
{
    let (Some(registry), Some(gate), Some(name), Some(slots), None) = (
        words.next(),
        words.next(),
        words.next(),
        words.next(),
        words.next(),
    ) else {
        return None;
    };
    Some((
        (number(registry)?, number(gate)?),
        (kind(name)?, slot_count(slots)?),
    ))
}

fn kind(word: &str) -> Option<Kind>
    ensures { result ≡ selector_kind_of word.now }
{
    match word {
        "fnv" => Some(Kind::Fnv),
        "rr" => Some(Kind::RoundRobin),
        "ketama" => Some(Kind::Ketama),
        "least" => Some(Kind::Least),
        _ => None,
    }
}

fn slot_count(word: &str) -> Option<u64>
    ensures { result ≡ count word.now }
{
    let slots = number(word)?;
    if slots <= SLOT_LIMIT {
        Some(slots)
    } else {
        None
    }
}

// An update to these backends, with their marks.
pub(crate) fn update(alloc: Global, mut words: Words<'_>) -> Result<Step<Kind>, ScriptError>
    ensures { Reads step_seen (update_of words.entry) result }
{
    let (Some(group), Some(now)) = (words.next(), words.next()) else {
        return Err(ScriptError::BadLine);
    };
    let (Some(group), Some(now)) = (number(group), wide_number(now)) else {
        return Err(ScriptError::BadLine);
    };
    let listings = listings(alloc, words)?;
    Ok(Step::Update {
        group,
        now,
        listings,
    })
}

// A step that names a backend, or one whose words are read without memory, by its first word.
pub(crate) fn backend_step(
    alloc: Global,
    first: &str,
    words: Words<'_>,
) -> Result<Step<Kind>, ScriptError>
    ensures { Reads step_seen (backend_step_of first.now words.entry) result }
{
    if first == "ready" {
        let (reader, backend) = numbered_backend(alloc, words)?;
        return Ok(Step::Ready { reader, backend });
    }
    if first == "enable" {
        let (group, backend) = numbered_backend(alloc, words)?;
        return Ok(Step::Enable { group, backend });
    }
    if first == "disable" {
        let (group, backend) = numbered_backend(alloc, words)?;
        return Ok(Step::Disable { group, backend });
    }
    if first == "load" {
        return load(alloc, words);
    }
    plain_step(first, words).ok_or(ScriptError::BadLine)
}

// A reader or a group, and a backend.
fn numbered_backend(
    alloc: Global,
    mut words: Words<'_>,
) -> Result<(u64, Option<Backend>), ScriptError>
    ensures { Reads (λ p. p) (numbered_backend_of words.entry) result }
{
    let (Some(owner), Some(word), None) = (words.next(), words.next(), words.next()) else {
        return Err(ScriptError::BadLine);
    };
    let Some(owner) = number(owner) else {
        return Err(ScriptError::BadLine);
    };
    let backend = backend(alloc, word)?;
    Ok((owner, backend))
}

// The load of a backend.
fn load(alloc: Global, mut words: Words<'_>) -> Result<Step<Kind>, ScriptError>
    ensures { Reads step_seen (load_of words.entry) result }
{
    let (Some(group), Some(word), Some(load), None) = (
        words.next(),
        words.next(),
        words.next(),
        words.next(),
    ) else {
        return Err(ScriptError::BadLine);
    };
    let (Some(group), Some(load)) = (number(group), number(load)) else {
        return Err(ScriptError::BadLine);
    };
    let backend = backend(alloc, word)?;
    Ok(Step::Load {
        group,
        backend,
        load,
    })
}
