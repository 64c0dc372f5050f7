//! Moves the bytes of a connection between its ends as far as it goes without waiting.

use crate::event_loop::peer::{Outcome, Peer};
use crate::relay::{Relay, Side};

// How often each direction goes on in one turn; then others have theirs.
const ROUNDS: usize = 16;

/// How a turn of a connection ended.
#[derive(Clone, Copy, PartialEq, Eq)]
pub enum Turn {
    /// It waits for an event.
    Waits,
    /// It could go on.
    Ready,
    /// Nothing more is to be done.
    Over,
}

/// Moves bytes both ways until both would wait, or others are to have their turn.
pub fn pump(relay: &mut Relay, client: &mut Peer, backend: &mut Peer) -> Turn {
    for _ in 0..ROUNDS {
        let up = step(relay, Side::Client, client, backend);
        let down = step(relay, Side::Backend, backend, client);
        if up == Outcome::Broken || down == Outcome::Broken || relay.is_over() {
            return Turn::Over;
        }
        if up == Outcome::Waits && down == Outcome::Waits {
            return Turn::Waits;
        }
    }
    Turn::Ready
}

// Reads from the source once and writes to the sink once, where that can be.
fn step(relay: &mut Relay, from: Side, source: &mut Peer, sink: &mut Peer) -> Outcome {
    let read = read_once(relay, from, source);
    if read == Outcome::Broken {
        return Outcome::Broken;
    }
    let written = write_once(relay, from, sink);
    if written == Outcome::Waits {
        read
    } else {
        written
    }
}

// Reads from the source, where there is room and it may have something.
fn read_once(relay: &mut Relay, from: Side, source: &mut Peer) -> Outcome {
    if !source.readable || !relay.wants_read(from) {
        return Outcome::Waits;
    }
    let room = relay.room(from);
    let read = relay.read_from(from, &mut source.stream);
    source.after_read(&read, room)
}

// Writes to the sink what waits for it, or tells it of the end.
fn write_once(relay: &mut Relay, from: Side, sink: &mut Peer) -> Outcome {
    if relay.wants_shut(from) {
        relay.shut(from);
        return match sink.stream.end_writes() {
            Ok(()) => Outcome::Moved,
            Err(_) => Outcome::Broken,
        };
    }
    if !sink.writable || !relay.wants_write(from) {
        return Outcome::Waits;
    }
    let written = relay.write_to(from, &mut sink.stream);
    sink.after_write(&written)
}
