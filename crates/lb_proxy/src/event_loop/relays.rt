//! The connections of a loop whose bytes are relayed as they come.

use crate::attempts::{AttemptEvent, Attempts, Next};
use crate::event_loop::connection::Connection;
use crate::event_loop::heads::source_of;
use crate::event_loop::peer::Peer;
use crate::event_loop::pump::Turn;
use crate::event_loop::scene::Scene;
use crate::event_loop::stream::Stream;
use crate::event_loop::tokens::{backend_token, client_token};
use crate::event_loop::upstream::{Counted, Happened, Upstream};
use crate::relay::Relay;
use log::{Log, warn};
use mio::Poll;
use mio::event::Event;
use mio::net::TcpStream;
use slab::Slab;
use std::alloc::Global;
use std::io::ErrorKind;
use std::net::{Net, SocketAddr};
use std::sync::Wait;
use std::{io, mem};

// The most relays that are kept for connections to come.
const SPARES: usize = 256;

// The steps of a connection from its start to a backend: each attempt selects and connects.
const STEPS: usize = 8;

/// The relayed connections of a loop.
#[derive(Drop)]
pub struct Relays {
    connections: Slab<Connection>,
    // Those that can go on without an event.
    ready: Vec<usize>,
    spares: Vec<Relay>,
}

impl Relays {
    /// Returns no connections.
    pub fn new(alloc: Global) -> Relays {
        Relays {
            connections: Slab::new(alloc),
            ready: Vec::new(alloc),
            spares: Vec::new(alloc),
        }
    }

    /// Returns whether there is no connection.
    pub fn is_empty(&self) -> bool {
        self.connections.is_empty()
    }

    /// Returns whether a connection can go on without an event.
    pub fn is_ready(&self) -> bool {
        !self.ready.is_empty()
    }

    /// Begins a connection of a client, and its first attempt. Returns whether there was memory for it.
    pub fn begin<R: Log + Net + Wait, U: Upstream>(
        &mut self,
        scene: &Scene<'_, R, U>,
        listener: usize,
        stream: TcpStream,
        address: SocketAddr,
    ) -> bool {
        let Ok(source) = source_of(scene.alloc, address) else {
            return false;
        };
        let Some(relay) = self.relay(scene.alloc) else {
            return false;
        };
        let client = Peer::new(Stream::Inet(stream));
        let connection = Connection::new(scene.alloc, listener, source, client, relay, scene.now);
        let Ok(key) = self.connections.insert(connection) else {
            return false;
        };
        scene.proxy.count(scene.rt, Counted::Connection);
        if self.register(scene.poll, key) {
            self.advance(scene, key);
        } else {
            self.remove(scene, key);
        }
        true
    }

    // A relay for a connection, one that is kept where there is one.
    fn relay(&mut self, alloc: Global) -> Option<Relay> {
        match self.spares.pop() {
            Some(relay) => Some(relay),
            None => Relay::new(alloc).ok(),
        }
    }

    // Has the poll report events of the client's end. Returns whether it does.
    fn register(&mut self, poll: &Poll, key: usize) -> bool {
        match self.connections.get_mut(key) {
            Some(connection) => {
                let stream = &mut connection.client.stream;
                stream.register(poll.registry(), client_token(key)).is_ok()
            }
            None => false,
        }
    }

    /// Goes on where an event of a client's end was reported.
    pub fn client_woke<R: Log + Net + Wait, U: Upstream>(
        &mut self,
        scene: &Scene<'_, R, U>,
        key: usize,
        event: &Event,
    ) {
        if let Some(connection) = self.connections.get_mut(key) {
            connection.note_client(event, scene.now);
        }
        self.go_on(scene, key);
    }

    /// Goes on where an event of a backend's end was reported.
    pub fn backend_woke<R: Log + Net + Wait, U: Upstream>(
        &mut self,
        scene: &Scene<'_, R, U>,
        key: usize,
        event: &Event,
    ) {
        if let Some(connection) = self.connections.get_mut(key) {
            connection.note_backend(event, scene.now);
        }
        self.advance(scene, key);
    }

    // Goes on with the attempts, until they have to wait or have ended.
    fn advance<R: Log + Net + Wait, U: Upstream>(&mut self, scene: &Scene<'_, R, U>, key: usize) {
        for _ in 0..STEPS {
            let Some(connection) = self.connections.get_mut(key) else {
                return;
            };
            let goes = match connection.attempts.next() {
                Next::Select => select(scene, connection),
                Next::Connect => connect(scene, key, connection),
                Next::Relay => {
                    self.go_on(scene, key);
                    return;
                }
                Next::Close => {
                    self.give_up(scene, key);
                    return;
                }
            };
            if !goes {
                return;
            }
        }
    }

    // Closes a connection for which no backend is left.
    fn give_up<R: Log + Wait, U: Upstream>(&mut self, scene: &Scene<'_, R, U>, key: usize) {
        if let Some(connection) = self.connections.get(key) {
            let listener = connection.listener;
            scene.proxy.count(scene.rt, Counted::Unserved { listener });
        }
        self.remove(scene, key);
    }

    // Moves bytes of a connection that reached a backend.
    fn go_on<R: Log + Wait, U: Upstream>(&mut self, scene: &Scene<'_, R, U>, key: usize) {
        let Some(connection) = self.connections.get_mut(key) else {
            return;
        };
        match connection.turn() {
            Turn::Waits => {}
            Turn::Ready if connection.queued => {}
            Turn::Ready => {
                connection.queued = true;
                if self.ready.push(key).is_err() {
                    self.remove(scene, key);
                }
            }
            Turn::Over => self.remove(scene, key),
        }
    }

    /// Gives those that can go on a turn each. Those that can go on after it wait for the next round.
    pub fn take_turns<R: Log + Wait, U: Upstream>(&mut self, scene: &Scene<'_, R, U>) {
        let ready = mem::replace(&mut self.ready, Vec::new(scene.alloc));
        for key in ready {
            if let Some(connection) = self.connections.get_mut(key) {
                connection.queued = false;
            }
            self.go_on(scene, key);
        }
    }

    /// Ends what took too long: attempts to connect, and connections on which nothing happens.
    pub fn look<R: Log + Net + Wait, U: Upstream>(&mut self, scene: &Scene<'_, R, U>) {
        let mut late = Vec::new(scene.alloc);
        let limits = scene.settings.limits;
        for (key, connection) in self.connections.iter() {
            if connection.is_late(scene.now, &limits) && late.push(key).is_err() {
                return;
            }
        }
        for key in late {
            self.end_late(scene, key);
        }
    }

    // Ends an attempt that took too long, or else the connection.
    fn end_late<R: Log + Net + Wait, U: Upstream>(&mut self, scene: &Scene<'_, R, U>, key: usize) {
        let Some(connection) = self.connections.get_mut(key) else {
            return;
        };
        if connection.is_connecting() {
            connection.active = scene.now;
            refuse(scene, connection);
            self.advance(scene, key);
        } else {
            self.remove(scene, key);
        }
    }

    // Ends a connection, and counts what it carried. Its relay is kept for another.
    fn remove<R: Log + Wait, U: Upstream>(&mut self, scene: &Scene<'_, R, U>, key: usize) {
        let Some(connection) = self.connections.try_remove(key) else {
            return;
        };
        scene.proxy.count(scene.rt, Counted::Freed);
        count_end(scene, &connection);
        self.keep(connection.into_relay());
    }

    // Keeps a relay for another connection, where there aren't enough.
    fn keep(&mut self, mut relay: Relay) {
        if self.spares.len() < SPARES {
            relay.reset();
            let _ = self.spares.push(relay);
        }
    }
}

// Selects a backend for the next attempt. Returns whether the attempts went on.
fn select<R: Log + Wait, U: Upstream>(
    scene: &Scene<'_, R, U>,
    connection: &mut Connection,
) -> bool {
    let selected = scene.proxy.select(
        scene.rt,
        scene.alloc,
        connection.listener,
        connection.source.as_slice(),
        &connection.attempts,
    );
    let event = match selected {
        Some(backend) => AttemptEvent::Selected(backend),
        None => AttemptEvent::NoneReady,
    };
    connection.attempts.step(event).is_ok()
}

// Begins to connect, or looks what came of it. Returns whether the attempts went on.
fn connect<R: Log + Net + Wait, U: Upstream>(
    scene: &Scene<'_, R, U>,
    key: usize,
    connection: &mut Connection,
) -> bool {
    match &connection.backend {
        None => begin_connect(scene, key, connection),
        Some(peer) if !peer.writable => false,
        Some(peer) => {
            if peer.stream.is_connected() {
                connection.attempts.step(AttemptEvent::Connected).is_ok()
            } else {
                refuse(scene, connection)
            }
        }
    }
}

// Begins to connect. Returns whether the attempts went on, as they do where it can't be begun.
fn begin_connect<R: Log + Net + Wait, U: Upstream>(
    scene: &Scene<'_, R, U>,
    key: usize,
    connection: &mut Connection,
) -> bool {
    count(scene, connection, Happened::Began);
    match open(scene.rt, scene.poll, key, &connection.attempts) {
        Ok(peer) => {
            connection.backend = Some(peer);
            false
        }
        Err(_) => refuse(scene, connection),
    }
}

// Opens a stream to the backend that was selected last.
fn open<N: Net>(net: &N, poll: &Poll, key: usize, attempts: &Attempts) -> io::Result<Peer> {
    let Some(backend) = attempts.backend() else {
        return Err(ErrorKind::NotFound.into());
    };
    let mut stream = Stream::connect(net, backend)?;
    stream.register(poll.registry(), backend_token(key))?;
    Ok(Peer::new(stream))
}

// Goes on after a backend that took no connection. Returns whether the attempts went on.
fn refuse<R: Log + Wait, U: Upstream>(
    scene: &Scene<'_, R, U>,
    connection: &mut Connection,
) -> bool {
    connection.backend = None;
    count(scene, connection, Happened::Refused);
    if let Some(backend) = connection.attempts.backend() {
        warn!(scene.rt; "{backend}: took no connection");
    }
    connection.attempts.step(AttemptEvent::Refused).is_ok()
}

// Counts what happened at the backend that was selected last.
fn count<R: Log + Wait, U: Upstream>(
    scene: &Scene<'_, R, U>,
    connection: &Connection,
    happened: Happened,
) {
    let Some(backend) = connection.attempts.backend() else {
        return;
    };
    let listener = connection.listener;
    scene
        .proxy
        .note(scene.rt, scene.alloc, listener, backend, happened);
}

// Counts the end of a connection that had begun at a backend.
fn count_end<R: Log + Wait, U: Upstream>(scene: &Scene<'_, R, U>, connection: &Connection) {
    if let Some(peer) = &connection.backend {
        let ended = Happened::Ended {
            sent: connection.client.received,
            received: peer.received,
        };
        count(scene, connection, ended);
    }
}
