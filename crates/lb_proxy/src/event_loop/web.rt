//! The HTTP connections of a loop.

use crate::event_loop::exchange::{await_answer, give_up_waiting, linger, pass_answer, read_head};
use crate::event_loop::heads::Client;
use crate::event_loop::links::Links;
use crate::event_loop::peer::Peer;
use crate::event_loop::pump::Turn;
use crate::event_loop::reach::{drop_link, end_request, reach, refuse};
use crate::event_loop::scene::Scene;
use crate::event_loop::session::{Phase, Session};
use crate::event_loop::spares::Spares;
use crate::event_loop::stream::Stream;
use crate::event_loop::tokens::session_token;
use crate::event_loop::upstream::{Counted, Upstream};
use crate::http::fault::Fault;
use log::Log;
use mio::event::Event;
use mio::net::TcpStream;
use slab::Slab;
use std::alloc::Global;
use std::mem;
use std::net::Net;
use std::sync::Wait;

// How many steps a connection makes in one turn; then others have theirs.
const STEPS: usize = 32;

/// The HTTP connections of a loop.
#[derive(Drop)]
pub struct Web {
    sessions: Slab<Session>,
    links: Links,
    // Those that can go on without an event.
    ready: Vec<usize>,
    spares: Spares,
}

impl Web {
    /// Returns no connections.
    pub fn new(alloc: Global) -> Web {
        Web {
            sessions: Slab::new(alloc),
            links: Links::new(alloc),
            ready: Vec::new(alloc),
            spares: Spares::new(alloc),
        }
    }

    /// Returns whether there is no connection of a client.
    pub fn is_empty(&self) -> bool {
        self.sessions.is_empty()
    }

    /// Returns whether a connection can go on without an event.
    pub fn is_ready(&self) -> bool {
        !self.ready.is_empty()
    }

    /// Begins a connection of a client. Returns whether there was memory for it.
    pub fn begin<R: Log + Net + Wait, U: Upstream>(
        &mut self,
        scene: &Scene<'_, R, U>,
        listener: usize,
        stream: TcpStream,
        known: Client,
    ) -> bool {
        let client = Peer::new(Stream::Inet(stream));
        let session = Session::new(scene.alloc, listener, known, client, scene.now);
        let Ok(key) = self.sessions.insert(session) else {
            return false;
        };
        scene.proxy.count(scene.rt, Counted::Connection);
        if self.register(scene, key) {
            self.turn(scene, key);
        } else {
            self.remove(scene, key);
        }
        true
    }

    // Has the poll report events of the client's end. Returns whether it does.
    fn register<R, U>(&mut self, scene: &Scene<'_, R, U>, key: usize) -> bool {
        match self.sessions.get_mut(key) {
            Some(session) => session
                .client
                .stream
                .register(scene.poll.registry(), session_token(key))
                .is_ok(),
            None => false,
        }
    }

    /// Goes on where an event of a client's end was reported.
    pub fn session_woke<R: Log + Net + Wait, U: Upstream>(
        &mut self,
        scene: &Scene<'_, R, U>,
        key: usize,
        event: &Event,
    ) {
        if let Some(session) = self.sessions.get_mut(key) {
            session.client.note(event);
        }
        self.turn(scene, key);
    }

    /// Goes on where an event of a connection to a backend was reported.
    pub fn link_woke<R: Log + Net + Wait, U: Upstream>(
        &mut self,
        scene: &Scene<'_, R, U>,
        number: usize,
        event: &Event,
    ) {
        if let Some(key) = self.links.woke(number, event) {
            self.turn(scene, key);
        }
    }

    // Makes steps until the connection waits, has ended, or others are to have their turn.
    fn turn<R: Log + Net + Wait, U: Upstream>(&mut self, scene: &Scene<'_, R, U>, key: usize) {
        for _ in 0..STEPS {
            match self.step(scene, key) {
                Turn::Ready => {}
                Turn::Waits => {
                    if let Some(session) = self.sessions.get_mut(key) {
                        session.release(scene.alloc, &mut self.spares);
                    }
                    return;
                }
                Turn::Over => {
                    self.remove(scene, key);
                    return;
                }
            }
        }
        self.queue(scene, key);
    }

    // Makes one step.
    fn step<R: Log + Net + Wait, U: Upstream>(
        &mut self,
        scene: &Scene<'_, R, U>,
        key: usize,
    ) -> Turn {
        let Some(session) = self.sessions.get_mut(key) else {
            return Turn::Waits;
        };
        match session.phase {
            Phase::Reading => read_head(scene, session, &mut self.spares),
            Phase::Reaching => reach(scene, &mut self.links, key, session),
            Phase::Awaiting => await_answer(scene, &mut self.links, session, &mut self.spares),
            Phase::Answering {
                keeps_backend,
                keeps_client,
            } => pass_answer(
                scene,
                &mut self.links,
                session,
                &mut self.spares,
                keeps_backend,
                keeps_client,
            ),
            Phase::Lingering => linger(scene, session, &mut self.spares),
        }
    }

    // Has the connection go on in the next round.
    fn queue<R: Log + Net + Wait, U: Upstream>(&mut self, scene: &Scene<'_, R, U>, key: usize) {
        let Some(session) = self.sessions.get_mut(key) else {
            return;
        };
        if session.queued {
            return;
        }
        session.queued = true;
        if self.ready.push(key).is_err() {
            self.remove(scene, key);
        }
    }

    /// Gives those that can go on a turn each, and closes what was dropped.
    pub fn take_turns<R: Log + Net + Wait, U: Upstream>(&mut self, scene: &Scene<'_, R, U>) {
        let ready = mem::replace(&mut self.ready, Vec::new(scene.alloc));
        for key in ready {
            if let Some(session) = self.sessions.get_mut(key) {
                session.queued = false;
            }
            self.turn(scene, key);
        }
        self.links.sweep();
    }

    /// Ends what took too long, and once the proxy ends what waits for a request.
    pub fn look<R: Log + Net + Wait, U: Upstream>(&mut self, scene: &Scene<'_, R, U>) {
        let limits = scene.settings.limits;
        let ends = scene.proxy.ends();
        self.links.look(scene, limits.idle / 1_000_000);
        let mut late = Vec::new(scene.alloc);
        for (key, session) in self.sessions.iter() {
            let quiet = scene.now.saturating_sub(session.active);
            let is_late = quiet > session.limit(&limits) || (ends && session.is_idle());
            if is_late && late.push(key).is_err() {
                return;
            }
        }
        for key in late {
            self.end_late(scene, key);
        }
    }

    // Ends a phase that took too long.
    fn end_late<R: Log + Net + Wait, U: Upstream>(&mut self, scene: &Scene<'_, R, U>, key: usize) {
        let Some(session) = self.sessions.get_mut(key) else {
            return;
        };
        let turn = match session.phase {
            Phase::Reading if !session.is_idle() => {
                session.refuse(Fault::RequestTimeout, false, scene.now);
                Turn::Ready
            }
            Phase::Reaching => refuse(scene, &mut self.links, session),
            Phase::Awaiting => give_up_waiting(scene, &mut self.links, session),
            Phase::Reading | Phase::Answering { .. } | Phase::Lingering => Turn::Over,
        };
        if turn == Turn::Over {
            self.remove(scene, key);
        } else {
            self.turn(scene, key);
        }
    }

    // Ends a connection, and what it has of a backend.
    fn remove<R: Log + Wait, U: Upstream>(&mut self, scene: &Scene<'_, R, U>, key: usize) {
        let Some(mut session) = self.sessions.try_remove(key) else {
            return;
        };
        scene.proxy.count(scene.rt, Counted::Freed);
        end_request(scene, &mut session);
        drop_link(&mut self.links, &mut session);
        session.empty(scene.alloc, &mut self.spares);
    }
}
