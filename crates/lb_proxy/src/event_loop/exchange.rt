//! The steps of a request: its head, the way to a backend, and what is passed on both ways.

use crate::event_loop::heads::{Answer, take_answer, take_request};
use crate::event_loop::links::Links;
use crate::event_loop::peer::{Outcome, Peer};
use crate::event_loop::pump::Turn;
use crate::event_loop::reach::{drop_link, end_request, has_reached};
use crate::event_loop::scene::Scene;
use crate::event_loop::session::{Phase, Session};
use crate::event_loop::spares::Spares;
use crate::event_loop::upstream::{Counted, Upstream};
use crate::http::fault::Fault;
use log::Log;
use std::sync::Wait;

// What came of passing a request on.
#[derive(Clone, Copy, PartialEq, Eq)]
enum Sent {
    Moved,
    Waits,
    /// The backend takes no more.
    Broken,
    /// The client sends what is no body.
    Bad,
    /// The client has ended before its request had.
    Gone,
}

/// Reads the head of a request.
pub fn read_head<R: Log + Wait, U: Upstream>(
    scene: &Scene<'_, R, U>,
    session: &mut Session,
    spares: &mut Spares,
) -> Turn {
    if session.up.fresh {
        session.up.fresh = false;
        match begin_request(scene, session) {
            Ok(true) => return Turn::Ready,
            Ok(false) => {}
            Err(fault) => {
                session.refuse(fault, false, scene.now);
                return Turn::Ready;
            }
        }
    }
    match session.up.fill(scene.alloc, spares, &mut session.client) {
        Outcome::Moved if session.up.ended => Turn::Over,
        Outcome::Moved => Turn::Ready,
        Outcome::Waits => Turn::Waits,
        Outcome::Broken => Turn::Over,
    }
}

// Begins the request whose head has come. Returns whether it has come whole.
fn begin_request<R: Log + Wait, U: Upstream>(
    scene: &Scene<'_, R, U>,
    session: &mut Session,
) -> Result<bool, Fault> {
    let request = take_request(
        scene.alloc,
        session.up.inbox.bytes(),
        &session.known,
        scene.settings.key(session.listener),
        &mut session.up.head,
        &mut session.way.key,
    )?;
    let Some(request) = request else {
        return Ok(false);
    };
    session.up.take_head(request.length, request.framing);
    session.asked = request.asked;
    scene.proxy.count(scene.rt, Counted::Request);
    session.seek(scene.alloc, scene.now);
    Ok(true)
}

/// Passes the request on, and reads the head of the answer.
pub fn await_answer<R: Log + Wait, U: Upstream>(
    scene: &Scene<'_, R, U>,
    links: &mut Links,
    session: &mut Session,
    spares: &mut Spares,
) -> Turn {
    let Some(link) = links.of(session.way.link) else {
        return Turn::Over;
    };
    if session.down.fresh {
        session.down.fresh = false;
        return match read_answer(scene, session) {
            Ok(()) => Turn::Ready,
            // A part of the head may have been written.
            Err(Fault::Unavailable) => Turn::Over,
            Err(fault) => fail(scene, links, session, fault),
        };
    }
    let sent = send(scene, session, spares, &mut link.peer);
    let read = session.down.fill(scene.alloc, spares, &mut link.peer);
    let written = session.down.flush(&mut session.client);
    if sent == Sent::Gone || written == Outcome::Broken {
        return Turn::Over;
    }
    if sent == Sent::Bad {
        return fail(scene, links, session, Fault::BadRequest);
    }
    if session.down.ended || read == Outcome::Broken {
        return lose_backend(scene, links, session);
    }
    if read == Outcome::Moved || sent == Sent::Moved || written == Outcome::Moved {
        session.active = scene.now;
        return Turn::Ready;
    }
    if sent == Sent::Broken {
        return lose_backend(scene, links, session);
    }
    Turn::Waits
}

// Reads the head of an answer, where it has come whole.
fn read_answer<R: Log + Wait, U: Upstream>(
    scene: &Scene<'_, R, U>,
    session: &mut Session,
) -> Result<(), Fault> {
    has_reached(session);
    session.down.tidy();
    let answer = take_answer(
        scene.alloc,
        session.down.inbox.bytes(),
        session.asked,
        !scene.proxy.ends(),
        &mut session.down.head,
    )?;
    if let Some(answer) = answer {
        session.down.take_head(answer.length, answer.framing);
        if !answer.is_interim {
            begin_answer(session, &answer, scene.now);
        }
    }
    Ok(())
}

// Goes on to the body of the answer.
fn begin_answer(session: &mut Session, answer: &Answer, now: u64) {
    let phase = Phase::Answering {
        keeps_backend: answer.keeps_backend,
        keeps_client: answer.keeps_client,
    };
    session.enter(phase, now);
}

// Passes on to the backend what came of the request.
fn send<R, U>(
    scene: &Scene<'_, R, U>,
    session: &mut Session,
    spares: &mut Spares,
    backend: &mut Peer,
) -> Sent {
    let mut read = Outcome::Waits;
    if !session.up.body.is_done() {
        read = session.up.fill(scene.alloc, spares, &mut session.client);
        if session.up.admit().is_err() {
            return Sent::Bad;
        }
        let is_cut = session.up.ended && !session.up.body.is_done();
        if read == Outcome::Broken || is_cut {
            return Sent::Gone;
        }
    }
    match session.up.flush(backend) {
        Outcome::Broken => Sent::Broken,
        Outcome::Moved => Sent::Moved,
        Outcome::Waits if read == Outcome::Moved => Sent::Moved,
        Outcome::Waits => Sent::Waits,
    }
}

// Answers by the proxy's own, in place of the backend.
fn fail<R: Log + Wait, U: Upstream>(
    scene: &Scene<'_, R, U>,
    links: &mut Links,
    session: &mut Session,
    fault: Fault,
) -> Turn {
    end_request(scene, session);
    drop_link(links, session);
    let keeps = fault != Fault::BadRequest && session.can_go_on() && !scene.proxy.ends();
    session.refuse(fault, keeps, scene.now);
    Turn::Ready
}

/// Answers that the backend took too long.
pub fn give_up_waiting<R: Log + Wait, U: Upstream>(
    scene: &Scene<'_, R, U>,
    links: &mut Links,
    session: &mut Session,
) -> Turn {
    fail(scene, links, session, Fault::GatewayTimeout)
}

// Goes on after a backend that ended before it answered: once more by a new connection, where a kept one had died and that does no harm.
fn lose_backend<R: Log + Wait, U: Upstream>(
    scene: &Scene<'_, R, U>,
    links: &mut Links,
    session: &mut Session,
) -> Turn {
    let is_used = match links.of(session.way.link) {
        Some(link) => link.is_used,
        None => false,
    };
    if !is_used || session.down.received > 0 || !session.asked.may_repeat {
        return fail(scene, links, session, Fault::BadGateway);
    }
    end_request(scene, session);
    drop_link(links, session);
    session.down.reset(scene.alloc);
    session.up.repeat();
    session.way.anew = true;
    session.enter(Phase::Reaching, scene.now);
    Turn::Ready
}

/// Passes the answer on, and what is left of the request.
pub fn pass_answer<R: Log + Wait, U: Upstream>(
    scene: &Scene<'_, R, U>,
    links: &mut Links,
    session: &mut Session,
    spares: &mut Spares,
    keeps_backend: bool,
    keeps_client: bool,
) -> Turn {
    let mut moved = false;
    if let Some(link) = links.of(session.way.link) {
        let sent = send(scene, session, spares, &mut link.peer);
        if sent == Sent::Bad || sent == Sent::Gone {
            return Turn::Over;
        }
        let read = read_body(scene, session, spares, &mut link.peer);
        moved = sent == Sent::Moved || read == Outcome::Moved;
    }
    match session.down.flush(&mut session.client) {
        Outcome::Broken => return Turn::Over,
        Outcome::Moved => moved = true,
        Outcome::Waits => {}
    }
    if session.down.cut && session.down.is_flushed() {
        return Turn::Over;
    }
    let has_ended = session.down.body.is_done() || session.down.ended || session.way.link.is_none();
    if has_ended && session.down.is_flushed() {
        return finish(scene, links, session, keeps_backend, keeps_client);
    }
    if !moved {
        return Turn::Waits;
    }
    session.active = scene.now;
    Turn::Ready
}

// Reads the body of the answer once. It is cut where it breaks off, ends too early, or is none.
fn read_body<R, U>(
    scene: &Scene<'_, R, U>,
    session: &mut Session,
    spares: &mut Spares,
    backend: &mut Peer,
) -> Outcome {
    let down = &mut session.down;
    if down.cut {
        return Outcome::Waits;
    }
    if down.admit().is_err() {
        down.cut = true;
        return Outcome::Waits;
    }
    if down.body.is_done() {
        return Outcome::Waits;
    }
    let read = down.fill(scene.alloc, spares, backend);
    let is_bad = down.admit().is_err();
    down.cut = is_bad || read == Outcome::Broken || (down.ended && !down.body.may_end());
    read
}

// Ends the request, and goes on to the next one, or to the end of the connection.
fn finish<R: Log + Wait, U: Upstream>(
    scene: &Scene<'_, R, U>,
    links: &mut Links,
    session: &mut Session,
    keeps_backend: bool,
    keeps_client: bool,
) -> Turn {
    end_request(scene, session);
    let is_sent = session.up.is_done();
    match session.way.link.take() {
        Some(number) if keeps_backend && is_sent && session.down.inbox.is_empty() => {
            links.keep(number, scene.now)
        }
        Some(number) => links.drop_link(number),
        None => {}
    }
    if keeps_client && session.has_come() && !scene.proxy.ends() {
        session.begin(scene.alloc, scene.now);
        return Turn::Ready;
    }
    if session.has_come() && session.up.inbox.is_empty() && !session.client.readable {
        return Turn::Over;
    }
    if session.client.stream.end_writes().is_err() {
        return Turn::Over;
    }
    session.enter(Phase::Lingering, scene.now);
    Turn::Ready
}

/// Throws away what the client sends, until it ends.
pub fn linger<R, U>(scene: &Scene<'_, R, U>, session: &mut Session, spares: &mut Spares) -> Turn {
    session.up.inbox.reset();
    match session.up.fill(scene.alloc, spares, &mut session.client) {
        Outcome::Moved if session.up.ended => Turn::Over,
        Outcome::Moved => Turn::Ready,
        Outcome::Waits if session.up.ended => Turn::Over,
        Outcome::Waits => Turn::Waits,
        Outcome::Broken => Turn::Over,
    }
}
