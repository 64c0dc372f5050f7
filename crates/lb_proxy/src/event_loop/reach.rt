//! The way of a request to a backend: selections and attempts, over kept connections and new ones.

use crate::attempts::{AttemptEvent, Attempts, Next};
use crate::event_loop::links::Links;
use crate::event_loop::pump::Turn;
use crate::event_loop::scene::Scene;
use crate::event_loop::session::{Phase, Session};
use crate::event_loop::upstream::{Counted, Happened, Upstream};
use crate::http::fault::Fault;
use log::{Log, warn};
use std::alloc::Global;
use std::net::Net;
use std::sync::Wait;

impl Session {
    /// Begins to look for a backend for the request.
    pub fn seek(&mut self, alloc: Global, now: u64) {
        self.way.attempts = Attempts::new(alloc);
        self.enter(Phase::Reaching, now);
    }
}

/// Goes on with the attempts to reach a backend.
pub fn reach<R: Log + Net + Wait, U: Upstream>(
    scene: &Scene<'_, R, U>,
    links: &mut Links,
    key: usize,
    session: &mut Session,
) -> Turn {
    match session.way.attempts.next() {
        Next::Select => select(scene, session),
        Next::Connect => connect(scene, links, key, session),
        Next::Relay => {
            session.enter(Phase::Awaiting, scene.now);
            Turn::Ready
        }
        Next::Close => {
            let listener = session.listener;
            scene.proxy.count(scene.rt, Counted::Unserved { listener });
            let keeps = session.can_go_on() && !scene.proxy.ends();
            session.refuse(Fault::Unavailable, keeps, scene.now);
            Turn::Ready
        }
    }
}

// Selects a backend for the next attempt.
fn select<R: Log + Wait, U: Upstream>(scene: &Scene<'_, R, U>, session: &mut Session) -> Turn {
    let selected = scene.proxy.select(
        scene.rt,
        scene.alloc,
        session.listener,
        session.way.key.as_slice(),
        &session.way.attempts,
    );
    let event = match selected {
        Some(backend) => AttemptEvent::Selected(backend),
        None => AttemptEvent::NoneReady,
    };
    step(session, event)
}

// Goes on by an event of the attempts.
fn step(session: &mut Session, event: AttemptEvent) -> Turn {
    match session.way.attempts.step(event) {
        Ok(()) => Turn::Ready,
        Err(_) => Turn::Over,
    }
}

// Takes a kept connection or begins a new one, or looks what came of it.
fn connect<R: Log + Net + Wait, U: Upstream>(
    scene: &Scene<'_, R, U>,
    links: &mut Links,
    key: usize,
    session: &mut Session,
) -> Turn {
    let Some(number) = session.way.link else {
        return begin_connect(scene, links, key, session);
    };
    let Some(link) = links.get_mut(number) else {
        return Turn::Over;
    };
    if !link.peer.writable {
        return Turn::Waits;
    }
    if link.peer.stream.is_connected() {
        count(scene, session, Happened::Asked);
        step(session, AttemptEvent::Connected)
    } else {
        refuse(scene, links, session)
    }
}

// Takes a kept connection to the backend, or begins a new one.
fn begin_connect<R: Log + Net + Wait, U: Upstream>(
    scene: &Scene<'_, R, U>,
    links: &mut Links,
    key: usize,
    session: &mut Session,
) -> Turn {
    let Some(backend) = session.way.attempts.backend() else {
        return Turn::Over;
    };
    let listener = session.listener;
    if !session.way.anew {
        if let Some(number) = links.take(key, listener, backend, !session.asked.may_repeat) {
            session.way.link = Some(number);
            count(scene, session, Happened::Resumed);
            count(scene, session, Happened::Asked);
            session.way.counted = true;
            session.enter(Phase::Awaiting, scene.now);
            return Turn::Ready;
        }
    }
    let opened = links.open(scene, key, listener, backend);
    count(scene, session, Happened::Began);
    session.way.counted = true;
    match opened {
        Ok(number) => {
            session.way.link = Some(number);
            session.active = scene.now;
            Turn::Ready
        }
        Err(_) => refuse(scene, links, session),
    }
}

/// Goes on after a backend that took no connection.
pub fn refuse<R: Log + Wait, U: Upstream>(
    scene: &Scene<'_, R, U>,
    links: &mut Links,
    session: &mut Session,
) -> Turn {
    drop_link(links, session);
    count(scene, session, Happened::Refused);
    session.way.counted = false;
    session.way.anew = false;
    session.active = scene.now;
    if let Some(backend) = session.way.attempts.backend() {
        warn!(scene.rt; "{backend}: took no connection");
    }
    step(session, AttemptEvent::Refused)
}

/// Notes that the backend answers: it took the request.
pub fn has_reached(session: &mut Session) {
    let _ = session.way.attempts.step(AttemptEvent::Connected);
}

/// Drops the connection to the backend.
pub fn drop_link(links: &mut Links, session: &mut Session) {
    if let Some(number) = session.way.link.take() {
        links.drop_link(number);
    }
}

/// Counts the end of a request at its backend.
pub fn end_request<R: Log + Wait, U: Upstream>(scene: &Scene<'_, R, U>, session: &mut Session) {
    if session.way.counted {
        session.way.counted = false;
        let ended = Happened::Ended {
            sent: session.up.sent,
            received: session.down.received,
        };
        count(scene, session, ended);
    }
}

// Counts what happened at the backend that was selected last.
fn count<R: Log + Wait, U: Upstream>(
    scene: &Scene<'_, R, U>,
    session: &Session,
    happened: Happened,
) {
    if let Some(backend) = session.way.attempts.backend() {
        let listener = session.listener;
        scene
            .proxy
            .note(scene.rt, scene.alloc, listener, backend, happened);
    }
}
