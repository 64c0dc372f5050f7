//! The parts of answers: a word with a number, a word by a flag, and the lists of slots and of targets. A part is appended to the answer's
//! text.
ghost use Rattle.std.specs.Prelude.{◌≡◌, ◌++◌, codes, decimal, length, OnOk, if◌then◌else◌};
ghost use Rattle.lb_script.specs.Texts.{flight_text, tallies_text, counts_text, timing_text, target_text, targets_text};

use crate::backend_text::push_backend;
use itoa::Buffer;
use lb_health_core::targets::Target;
use lb_rebuild_core::answers::{Counts, Timing};
use lb_world::answer::SlotCounts;
use std::alloc::{AllocError, Global};

// Words and a number.
pub(crate) fn push_numbered(text: &mut Vec<u8>, words: &[u8], n: u64) -> Result<(), AllocError>
    ensures { OnOk result (text.new.items ≡ text.old.items ++ (words.now ++ decimal n)) }
{
    let mut buffer = Buffer::new();
    text.extend_from_slice(words)?;
    text.extend_from_slice(buffer.format(n).as_bytes())
}

// Words and a moment or a span.
pub(crate) fn push_wide(text: &mut Vec<u8>, words: &[u8], n: u128) -> Result<(), AllocError>
    ensures { OnOk result (text.new.items ≡ text.old.items ++ (words.now ++ decimal n)) }
{
    let mut buffer = Buffer::new();
    text.extend_from_slice(words)?;
    text.extend_from_slice(buffer.format(n).as_bytes())
}

// One word where the flag is set, another one where it isn't.
pub(crate) fn push_flag(
    text: &mut Vec<u8>,
    flag: bool,
    set: &[u8],
    unset: &[u8],
) -> Result<(), AllocError>
    ensures { OnOk result (text.new.items ≡ text.old.items ++ (if flag then set.now else unset.now)) }
{
    text.extend_from_slice(if flag { set } else { unset })
}

// The numbers of a slot.
pub(crate) fn push_counts(text: &mut Vec<u8>, slot: &SlotCounts) -> Result<(), AllocError>
    ensures { OnOk result (text.new.items ≡ text.old.items ++ counts_text slot.now) }
{
    push_numbered(text, b"counts newest ", slot.newest)?;
    push_numbered(text, b" served ", slot.served)?;
    push_flight(text, slot.flight)?;
    push_flag(text, slot.waiting, b" waiting 1", b" waiting 0")?;
    push_tallies(text, &slot.counts)
}

// The generation that is in flight.
fn push_flight(text: &mut Vec<u8>, flight: Option<u64>) -> Result<(), AllocError>
    ensures { OnOk result (text.new.items ≡ text.old.items ++ (codes " flight " ++ flight_text flight)) }
{
    match flight {
        Some(n) => push_numbered(text, b" flight ", n),
        None => text.extend_from_slice(b" flight -"),
    }
}

// The four counts of a slot.
fn push_tallies(text: &mut Vec<u8>, counts: &Counts) -> Result<(), AllocError>
    ensures { OnOk result (text.new.items ≡ text.old.items ++ tallies_text counts.now) }
{
    push_numbered(text, b" published ", counts.published)?;
    push_numbered(text, b" coalesced ", counts.coalesced)?;
    push_numbered(text, b" superseded ", counts.superseded)?;
    push_numbered(text, b" failed ", counts.failed)
}

// The timing of a slot's last publication, if any.
pub(crate) fn push_timing(text: &mut Vec<u8>, timing: &Option<Timing>) -> Result<(), AllocError>
    ensures { OnOk result (text.new.items ≡ text.old.items ++ timing_text timing.now) }
{
    let Some(timing) = timing else {
        return text.extend_from_slice(b"none");
    };
    push_numbered(text, b"timing ", timing.generation)?;
    push_wide(text, b" ", timing.queue)?;
    push_wide(text, b" ", timing.build)
}

// How many targets there are, and each of them.
pub(crate) fn push_targets(
    alloc: Global,
    text: &mut Vec<u8>,
    targets: &[Target],
) -> Result<(), AllocError>
    ensures { OnOk result (text.new.items
        ≡ text.old.items ++ (codes "targets " ++ decimal (length targets.now) ++ targets_text targets.now)) }
{
    push_numbered(text, b"targets ", targets.len() as u64)?;
    for target in targets {
        push_target(alloc, text, target)?;
    }
    Ok(())
}

// A target: its backend, the number of its cell, and whether that is healthy.
fn push_target(alloc: Global, text: &mut Vec<u8>, target: &Target) -> Result<(), AllocError>
    ensures { OnOk result (text.new.items ≡ text.old.items ++ target_text target.now) }
{
    text.extend_from_slice(b" ")?;
    push_backend(alloc, text, &target.backend)?;
    push_numbered(text, b"=", target.cell)?;
    push_flag(text, target.healthy, b":ok", b":bad")
}
