//! A connection of a client: its ends, its attempts to reach a backend, and the bytes on their way.

use crate::attempts::{Attempts, Next};
use crate::config::Limits;
use crate::event_loop::peer::Peer;
use crate::event_loop::pump::{Turn, pump};
use crate::relay::Relay;
use mio::event::Event;
use std::alloc::Global;

/// A connection of a client.
pub struct Connection {
    /// The number of the listener that took it.
    pub listener: usize,
    /// What a selection by the client's address takes as its key.
    pub source: Vec<u8>,
    pub client: Peer,
    /// The end of the backend that is tried or was reached.
    pub backend: Option<Peer>,
    pub attempts: Attempts,
    pub relay: Relay,
    /// Whether it waits for a turn without an event.
    pub queued: bool,
    /// When something last happened, in milliseconds.
    pub active: u64,
}

impl Drop for Connection {
    fn drop(self) {
        let _ = self.into_relay();
    }
}

impl Connection {
    /// Returns a connection of which nothing is known but its client.
    pub fn new(
        alloc: Global,
        listener: usize,
        source: Vec<u8>,
        client: Peer,
        relay: Relay,
        now: u64,
    ) -> Connection {
        Connection {
            listener,
            source,
            client,
            backend: None,
            attempts: Attempts::new(alloc),
            relay,
            queued: false,
            active: now,
        }
    }

    /// Returns the relay, and drops all else.
    pub fn into_relay(self) -> Relay {
        let Connection {
            listener: _,
            source: _,
            client: _,
            backend: _,
            attempts: _,
            relay,
            queued: _,
            active: _,
        } = self;
        relay
    }

    /// Notes what an event reports of the client's end. While a backend is tried, that puts nothing off.
    pub fn note_client(&mut self, event: &Event, now: u64) {
        if !self.is_connecting() {
            self.active = now;
        }
        self.client.note(event);
    }

    /// Notes what an event reports of the backend's end.
    pub fn note_backend(&mut self, event: &Event, now: u64) {
        self.active = now;
        if let Some(backend) = &mut self.backend {
            backend.note(event);
        }
    }

    /// Moves bytes both ways, once a backend is reached.
    pub fn turn(&mut self) -> Turn {
        match (self.attempts.next(), &mut self.backend) {
            (Next::Relay, Some(backend)) => pump(&mut self.relay, &mut self.client, backend),
            _ => Turn::Waits,
        }
    }

    /// Returns whether it waits for a backend to take the connection.
    pub fn is_connecting(&self) -> bool {
        match self.attempts.next() {
            Next::Connect => true,
            Next::Select | Next::Relay | Next::Close => false,
        }
    }

    /// Returns whether nothing has happened for longer than the limits allow.
    pub fn is_late(&self, now: u64, limits: &Limits) -> bool {
        let limit = if self.is_connecting() {
            limits.connect
        } else {
            limits.idle
        };
        now.saturating_sub(self.active) > limit / 1_000_000
    }
}
