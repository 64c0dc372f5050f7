//! The texts of answers, and of the last line of a script that ends early.
//! Texts are appended to bytes that are used again, so that a line takes no memory once these have grown.
ghost use Rattle.std.specs.Prelude.{◌≡◌, ◌++◌, codes, decimal, OnErr, OnOk};
ghost use Rattle.lb_select_base.specs.AddressText.{member_text};
ghost use Rattle.lb_script.specs.Texts.{readers_text, refusal_text, answer_text};

use crate::backend_text::{CAPACITY, push_backend, push_backend_line};
use crate::figures::{push_counts, push_flag, push_numbered, push_targets, push_timing, push_wide};
use lb_select_base::backend::Backend;
use lb_select_base::refusal::Refusal;
use lb_world::answer::Answer;
use std::alloc::{AllocError, Global};

/// Memory in which lines of answers are spelled before they are appended. It is used again for each; its content has no meaning.
#[derive(Drop)]
pub struct Scratch {
    spelled: Vec<u8>,
    bytes: [u8; CAPACITY],
}

impl Scratch {
    /// Returns scratch that has taken no memory yet.
    pub fn new(alloc: Global) -> Scratch {
        Scratch {
            spelled: Vec::new(alloc),
            bytes: [0; CAPACITY],
        }
    }
}

/// Appends the text of an answer and a line feed, or nothing where memory is refused.
pub fn push_line(
    alloc: Global,
    text: &mut Vec<u8>,
    scratch: &mut Scratch,
    answer: &Answer,
) -> Result<(), AllocError>
    ensures ok { OnOk result (text.new.items ≡ text.old.items ++ (answer_text answer.now ++ codes "\n")) }
    ensures none { OnErr result (text.new.items ≡ text.old.items) }
{
    match answer {
        Answer::Backend(backend, _) => push_backend_line(alloc, text, &mut scratch.bytes, backend),
        _ => push_other_line(alloc, text, &mut scratch.spelled, answer),
    }
}

// Appends any other answer. It is spelled apart, so that nothing of it is appended where memory is refused.
fn push_other_line(
    alloc: Global,
    text: &mut Vec<u8>,
    spelled: &mut Vec<u8>,
    answer: &Answer,
) -> Result<(), AllocError>
    ensures ok { OnOk result (text.new.items ≡ text.old.items ++ (answer_text answer.now ++ codes "\n")) }
    ensures none { OnErr result (text.new.items ≡ text.old.items) }
{
    spelled.clear();
    push_answer(alloc, spelled, answer)?;
    spelled.extend_from_slice(b"\n")?;
    text.extend_from_slice(spelled)
}

/// Appends the text of an answer, without a line feed.
pub fn push_answer(alloc: Global, text: &mut Vec<u8>, answer: &Answer) -> Result<(), AllocError>
    ensures { OnOk result (text.new.items ≡ text.old.items ++ answer_text answer.now) }
{
    match answer {
        Answer::Registry(n) => push_numbered(text, b"registry ", *n),
        Answer::Gate(n) => push_numbered(text, b"gate ", *n),
        Answer::Group(n) => push_numbered(text, b"group ", *n),
        Answer::Generation(n) => push_numbered(text, b"generation ", *n),
        Answer::Same(n) => push_numbered(text, b"same ", *n),
        Answer::Build(n) => push_numbered(text, b"build ", *n),
        Answer::Busy => text.extend_from_slice(b"busy"),
        Answer::Wait(moment) => push_wide(text, b"wait ", *moment),
        Answer::Idle => text.extend_from_slice(b"idle"),
        Answer::Building => text.extend_from_slice(b"building"),
        Answer::Cancelled => text.extend_from_slice(b"cancelled"),
        Answer::Built(n) => push_numbered(text, b"built ", *n),
        Answer::BuildFailed(n, refusal) => push_failure(text, *n, refusal),
        Answer::Failed(n) => push_numbered(text, b"failed ", *n),
        Answer::Lost(n) => push_numbered(text, b"lost ", *n),
        Answer::Published(n) => push_numbered(text, b"published ", *n),
        Answer::Abandoned(n) => push_numbered(text, b"abandoned ", *n),
        Answer::Reader(n, _) => push_numbered(text, b"reader ", *n),
        Answer::Ready(is_ready) => push_flag(text, *is_ready, b"yes", b"no"),
        Answer::Left(_) => text.extend_from_slice(b"left"),
        Answer::Destroyed => text.extend_from_slice(b"destroyed"),
        Answer::Backend(backend, _) => push_selected(alloc, text, backend),
        Answer::NoBackend(_) => text.extend_from_slice(b"none"),
        Answer::NotSelected(_) => push_refused(text, &Refusal::OutOfMemory),
        Answer::Flipped(has_flipped) => push_flag(text, *has_flipped, b"flipped", b"kept"),
        Answer::Done => text.extend_from_slice(b"ok"),
        Answer::Targets(list) => push_targets(alloc, text, &list.targets),
        Answer::Numbers(slot) => push_counts(text, slot),
        Answer::Timed(timing) => push_timing(text, timing),
        Answer::Refused(refusal) => push_refused(text, refusal),
    }
}

fn push_selected(alloc: Global, text: &mut Vec<u8>, backend: &Backend) -> Result<(), AllocError>
    ensures { OnOk result (text.new.items ≡ text.old.items ++ (codes "backend " ++ member_text backend.now)) }
{
    text.extend_from_slice(b"backend ")?;
    push_backend(alloc, text, backend)
}

fn push_failure(text: &mut Vec<u8>, n: u64, refusal: &Refusal) -> Result<(), AllocError>
    ensures { OnOk result (text.new.items ≡ text.old.items ++ (codes "failed " ++ decimal n ++ codes " " ++ refusal_text refusal.now)) }
{
    push_numbered(text, b"failed ", n)?;
    text.extend_from_slice(b" ")?;
    push_refusal(text, refusal)
}

fn push_refused(text: &mut Vec<u8>, refusal: &Refusal) -> Result<(), AllocError>
    ensures { OnOk result (text.new.items ≡ text.old.items ++ (codes "refused " ++ refusal_text refusal.now)) }
{
    text.extend_from_slice(b"refused ")?;
    push_refusal(text, refusal)
}

// The number and the name, and the number of readers where they are the reason.
fn push_refusal(text: &mut Vec<u8>, refusal: &Refusal) -> Result<(), AllocError>
    ensures { OnOk result (text.new.items ≡ text.old.items ++ refusal_text refusal.now) }
{
    push_numbered(text, b"", refusal.number())?;
    text.extend_from_slice(b" ")?;
    text.extend_from_slice(refusal.name().as_bytes())?;
    push_readers(text, refusal)
}

fn push_readers(text: &mut Vec<u8>, refusal: &Refusal) -> Result<(), AllocError>
    ensures { OnOk result (text.new.items ≡ text.old.items ++ readers_text refusal.now) }
{
    match refusal {
        Refusal::StillRead(readers) => push_numbered(text, b" ", *readers),
        _ => Ok(()),
    }
}
