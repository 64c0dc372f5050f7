//! The steps whose words are read without memory, by their shapes.
//! A shape is a slot, a slot with a moment, or one number; the rest have one of their own.
ghost use Rattle.std.specs.Prelude.{◌≡◌, ℕ, List, option_map};
ghost use Rattle.lb_script.specs.StepLines.{slot_of, slot_moment_of, lone_of, cell_key_of, verdict_of, starts_healthy_of};
ghost use Rattle.lb_script.specs.StepLines.{registry_of, gate_of, verdict_step_of, lone_step_of, slot_step_of, plain_step_of};
ghost use Rattle.lb_script.specs.Internal.SlotWords.{slot_word_step};
ghost use Rattle.lb_world.specs.Steps.{step_seen};

use crate::kinds::Kind;
use crate::numbers::{number, wide_number};
use crate::words::Words;
use lb_world::step::{CellKey, Step};

// A step at a slot and a moment, or a further one, by its first word.
pub(crate) fn plain_step(first: &str, words: Words<'_>) -> Option<Step<Kind>>
    ensures { option_map step_seen result ≡ plain_step_of first.now words.entry }
{
    match first {
        "ask" => {
            let ((group, slot), now) = slot_moment(words)?;
            Some(Step::Ask { group, slot, now })
        }
        "build" => {
            let ((group, slot), now) = slot_moment(words)?;
            Some(Step::Build { group, slot, now })
        }
        "failbuild" => {
            let ((group, slot), now) = slot_moment(words)?;
            Some(Step::FailBuild { group, slot, now })
        }
        _ => slot_step(first, words),
    }
}

// The steps that name a slot alone, each by its first word.
#[derive(Clone, Copy)]
enum SlotWord {
    Publish,
    Enter,
    Destroy,
    Lost,
    Abandon,
    Counts,
    Timing,
}

fn slot_word(first: &str) -> Option<SlotWord>
    ensures { (words : List (List ℕ)) → slot_step_of first.now words ≡ slot_word_step first.now result words }
{
    match first {
        "publish" => Some(SlotWord::Publish),
        "enter" => Some(SlotWord::Enter),
        "destroy" => Some(SlotWord::Destroy),
        "lost" => Some(SlotWord::Lost),
        "abandon" => Some(SlotWord::Abandon),
        "counts" => Some(SlotWord::Counts),
        "timing" => Some(SlotWord::Timing),
        _ => None,
    }
}

// A step at a slot, or a further one, by its first word.
fn slot_step(first: &str, words: Words<'_>) -> Option<Step<Kind>>
    ensures { option_map step_seen result ≡ slot_step_of first.now words.entry }
{
    let Some(word) = slot_word(first) else {
        return lone_step(first, words);
    };
    let (group, slot) = slot(words)?;
    Some(match word {
        SlotWord::Publish => Step::Publish { group, slot },
        SlotWord::Enter => Step::Enter { group, slot },
        SlotWord::Destroy => Step::Destroy { group, slot },
        SlotWord::Lost => Step::Lost { group, slot },
        SlotWord::Abandon => Step::Abandon { group, slot },
        SlotWord::Counts => Step::Counts { group, slot },
        SlotWord::Timing => Step::Timing { group, slot },
    })
}

// A step that names one number, gives a verdict or makes something, by its first word.
fn lone_step(first: &str, words: Words<'_>) -> Option<Step<Kind>>
    ensures { option_map step_seen result ≡ lone_step_of first.now words.entry }
{
    match first {
        "leave" => {
            let reader = lone(words)?;
            Some(Step::Leave { reader })
        }
        "verdict" => verdict(words),
        "targets" => {
            let registry = lone(words)?;
            Some(Step::Targets { registry })
        }
        "cancel" => {
            let group = lone(words)?;
            Some(Step::Cancel { group })
        }
        "registry" => registry(words),
        "gate" => gate(words),
        _ => None,
    }
}

// One number.
fn lone(mut words: Words<'_>) -> Option<u64>
    ensures { result ≡ lone_of words.entry }
{
    let value = number(words.next()?)?;
    match words.next() {
        None => Some(value),
        Some(_) => None,
    }
}

// A group and a slot.
fn slot(mut words: Words<'_>) -> Option<(u64, usize)>
    ensures { result ≡ slot_of words.entry }
{
    let group = number(words.next()?)?;
    let slot = number(words.next()?)?;
    match words.next() {
        None => Some((group, slot as usize)),
        Some(_) => None,
    }
}

// A group, a slot and a moment.
fn slot_moment(mut words: Words<'_>) -> Option<((u64, usize), u128)>
    ensures { result ≡ slot_moment_of words.entry }
{
    let group = number(words.next()?)?;
    let slot = number(words.next()?)?;
    let now = wide_number(words.next()?)?;
    match words.next() {
        None => Some(((group, slot as usize), now)),
        Some(_) => None,
    }
}

// The verdict of a check, for a cell.
fn verdict(mut words: Words<'_>) -> Option<Step<Kind>>
    ensures { option_map step_seen result ≡ verdict_step_of words.entry }
{
    let (Some(registry), Some(cell), Some(ok), Some(threshold), None) = (
        words.next(),
        words.next(),
        words.next(),
        words.next(),
        words.next(),
    ) else {
        return None;
    };
    Some(Step::Verdict {
        registry: number(registry)?,
        cell: number(cell)?,
        ok: is_ok(ok)?,
        threshold: number(threshold)? as usize,
    })
}

// Whether the word says that a check was passed.
fn is_ok(word: &str) -> Option<bool>
    ensures { result ≡ verdict_of word.now }
{
    match word {
        "ok" => Some(true),
        "fail" => Some(false),
        _ => None,
    }
}

fn registry(mut words: Words<'_>) -> Option<Step<Kind>>
    ensures { option_map step_seen result ≡ registry_of words.entry }
{
    let rule = cell_key(words.next()?)?;
    let healthy = starts_healthy(words)?;
    Some(Step::Registry { rule, healthy })
}

fn cell_key(word: &str) -> Option<CellKey>
    ensures { result ≡ cell_key_of word.now }
{
    match word {
        "identity" => Some(CellKey::Identity),
        "address" => Some(CellKey::Address),
        _ => None,
    }
}

// Whether cells start healthy: they do where no further word says otherwise.
fn starts_healthy(mut words: Words<'_>) -> Option<bool>
    ensures { result ≡ starts_healthy_of words.entry }
{
    let Some(word) = words.next() else {
        return Some(true);
    };
    if word == "unhealthy" && words.next().is_none() {
        Some(false)
    } else {
        None
    }
}

fn gate(mut words: Words<'_>) -> Option<Step<Kind>>
    ensures { option_map step_seen result ≡ gate_of words.entry }
{
    match words.next() {
        None => Some(Step::Gate),
        Some(_) => None,
    }
}
