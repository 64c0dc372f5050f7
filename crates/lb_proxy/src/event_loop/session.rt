//! A client's connection over which requests come, one at a time.

use crate::attempts::Attempts;
use crate::config::Limits;
use crate::event_loop::heads::{Client, NOTHING};
use crate::event_loop::lane::Lane;
use crate::event_loop::peer::Peer;
use crate::event_loop::spares::Spares;
use crate::http::answer::short_answer;
use crate::http::fault::Fault;
use crate::http::request::Asked;
use std::alloc::Global;

// How long a client whose connection ends may go on sending, in milliseconds. What it sends is thrown away.
const LINGER: u64 = 1000;

/// How far a request is.
#[derive(Clone, Copy)]
pub enum Phase {
    /// The head of a request is awaited.
    Reading,
    /// A backend is selected and reached.
    Reaching,
    /// The request is passed on; the head of the answer is awaited.
    Awaiting,
    /// The answer is passed on.
    Answering {
        keeps_backend: bool,
        keeps_client: bool,
    },
    /// All is written; the client's end is awaited.
    Lingering,
}

/// The way of a request to a backend.
#[derive(Drop)]
pub struct Way {
    /// What the selection for the request takes as its key.
    pub key: Vec<u8>,
    pub attempts: Attempts,
    /// The number of the connection to the backend.
    pub link: Option<usize>,
    /// Whether that connection is to be a new one.
    pub anew: bool,
    /// Whether the request is among those that are counted at its backend.
    pub counted: bool,
}

/// A client's connection.
pub struct Session {
    /// The number of the listener that took it.
    pub listener: usize,
    pub known: Client,
    pub client: Peer,
    pub phase: Phase,
    /// From the client to the backend, and back.
    pub up: Lane,
    pub down: Lane,
    pub asked: Asked,
    pub way: Way,
    /// Whether it waits for a turn without an event.
    pub queued: bool,
    /// When something last happened, in milliseconds.
    pub active: u64,
}

impl Drop for Session {
    fn drop(self) {
        let Session {
            listener: _,
            known: _,
            client: _,
            phase: _,
            up: _,
            down: _,
            asked: _,
            way: _,
            queued: _,
            active: _,
        } = self;
    }
}

impl Way {
    // No way yet.
    fn new(alloc: Global) -> Way {
        Way {
            key: Vec::new(alloc),
            attempts: Attempts::new(alloc),
            link: None,
            anew: false,
            counted: false,
        }
    }
}

impl Session {
    /// Returns a connection over which nothing came yet.
    pub fn new(alloc: Global, listener: usize, known: Client, client: Peer, now: u64) -> Session {
        Session {
            listener,
            known,
            client,
            phase: Phase::Reading,
            up: Lane::new(alloc),
            down: Lane::new(alloc),
            asked: NOTHING,
            way: Way::new(alloc),
            queued: false,
            active: now,
        }
    }

    /// Goes on to a phase.
    pub fn enter(&mut self, phase: Phase, now: u64) {
        self.phase = phase;
        self.active = now;
    }

    /// Returns whether no request is in progress.
    pub fn is_idle(&self) -> bool {
        match self.phase {
            Phase::Reading => self.up.inbox.is_empty(),
            Phase::Reaching | Phase::Awaiting | Phase::Answering { .. } | Phase::Lingering => false,
        }
    }

    /// Returns whether the request has come whole, and nothing of it is left.
    pub fn has_come(&self) -> bool {
        self.up.body.is_done() && self.up.inbox.passed().is_empty()
    }

    /// Returns whether the connection can go on after an answer of the proxy's own.
    pub fn can_go_on(&self) -> bool {
        self.asked.keeps && self.has_come()
    }

    /// Has the client get an answer of the proxy's own, and no other.
    pub fn refuse(&mut self, fault: Fault, keeps: bool, now: u64) {
        self.down.tidy();
        self.down.inbox.reset();
        let is_written = short_answer(fault, keeps, &mut self.down.head).is_ok();
        let phase = if is_written {
            Phase::Answering {
                keeps_backend: false,
                keeps_client: keeps,
            }
        } else {
            Phase::Lingering
        };
        self.enter(phase, now);
    }

    /// Makes ready for the next request.
    pub fn begin(&mut self, alloc: Global, now: u64) {
        self.asked = NOTHING;
        self.up.begin(alloc);
        self.down.reset(alloc);
        self.way.anew = false;
        self.enter(Phase::Reading, now);
    }

    /// Gives back the buffers, whatever they hold.
    pub fn empty(&mut self, alloc: Global, spares: &mut Spares) {
        self.up.reset(alloc);
        self.down.reset(alloc);
        self.release(alloc, spares);
    }

    /// Gives back the buffers that hold nothing.
    pub fn release(&mut self, alloc: Global, spares: &mut Spares) {
        self.up.inbox.release(alloc, spares);
        self.down.inbox.release(alloc, spares);
    }

    /// Returns how long the phase may last without anything that happens, in milliseconds.
    pub fn limit(&self, limits: &Limits) -> u64 {
        match self.phase {
            Phase::Reaching => limits.connect / 1_000_000,
            Phase::Awaiting if self.up.is_done() => limits.answer / 1_000_000,
            Phase::Reading | Phase::Awaiting | Phase::Answering { .. } => limits.idle / 1_000_000,
            Phase::Lingering => LINGER,
        }
    }
}
