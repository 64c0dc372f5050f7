//! An event loop: it takes connections, reaches a backend for each, and relays bytes, without a call that waits save for events.

use crate::event_loop::heads::Client;
use crate::event_loop::listeners::{Listeners, register};
use crate::event_loop::relays::Relays;
use crate::event_loop::scene::Stage;
use crate::event_loop::settings::Settings;
use crate::event_loop::tokens::{Origin, named};
use crate::event_loop::upstream::{Counted, Upstream};
use crate::event_loop::web::Web;
use crate::mode::Mode;
use log::Log;
use mio::event::Event;
use mio::net::{TcpListener, TcpStream};
use mio::{Events, Poll};
use std::alloc::Global;
use std::io;
use std::io::ErrorKind;
use std::net::{Net, SocketAddr};
use std::sync::{Arc, Wait};
use std::time::{Clock, Duration};

// How many events a wait gives at most.
const EVENTS: usize = 1024;

// How many connections are taken before others have their turn.
const ACCEPTS: usize = 64;

// How long a wait takes at most, in milliseconds.
const TICK: u64 = 250;

/// A loop over the connections that it took.
#[derive(Drop)]
pub struct Engine<R, U> {
    stage: Stage<R, U>,
    listeners: Listeners,
    relays: Relays,
    web: Web,
    // Milliseconds of the clock when the connections were looked through last.
    looked: u64,
}

impl<R: Log + Net + Wait + Clock + Copy + Drop, U: Upstream + Drop> Engine<R, U> {
    /// Returns a loop over these listeners, which are in the order of the settings.
    pub fn new(
        rt: R,
        alloc: Global,
        proxy: Arc<U>,
        settings: Arc<Settings>,
        mut listeners: Vec<TcpListener>,
    ) -> io::Result<Engine<R, U>> {
        let poll = Poll::new(&rt)?;
        register(poll.registry(), &mut listeners)?;
        Ok(Engine {
            stage: Stage {
                rt,
                alloc,
                proxy,
                settings,
                poll,
                now: 0,
            },
            listeners: Listeners::new(listeners),
            relays: Relays::new(alloc),
            web: Web::new(alloc),
            looked: 0,
        })
    }

    /// Runs until the proxy ends and the connections have ended, or were given their time.
    pub fn run(&mut self) -> io::Result<()> {
        let rt = self.stage.rt;
        let mut events = Events::with_capacity(self.stage.alloc, EVENTS)?;
        let mut left = self.stage.settings.limits.drain / 1_000_000;
        for _ in rt.forever() {
            let before = self.stage.now;
            self.round(&mut events)?;
            if self.stage.proxy.ends() {
                self.listeners.close(self.stage.alloc);
                left = left.saturating_sub(self.stage.now.saturating_sub(before));
                if (self.relays.is_empty() && self.web.is_empty()) || left == 0 {
                    return Ok(());
                }
            }
        }
        unreachable!()
    }

    // Waits for events, and does what they allow.
    fn round(&mut self, events: &mut Events) -> io::Result<()> {
        let waits = !self.relays.is_ready() && !self.web.is_ready() && !self.listeners.hurries;
        let limit = Duration::from_millis(if waits { TICK } else { 0 });
        match self.stage.poll.poll(events, Some(limit)) {
            Err(error) if error.kind() == ErrorKind::Interrupted => return Ok(()),
            waited => waited?,
        }
        self.stage.read_clock();
        for event in events.iter() {
            self.woke(&event);
        }
        self.take_turns();
        Ok(())
    }

    // Goes on where an event was reported.
    fn woke(&mut self, event: &Event) {
        let scene = self.stage.scene();
        match named(event.token(), self.listeners.len()) {
            // Taken once all events are seen, so that none of them is for a connection that ended.
            Origin::Listener(_) => self.listeners.accepting = true,
            Origin::Client(key) => self.relays.client_woke(&scene, key, event),
            Origin::Backend(key) => self.relays.backend_woke(&scene, key, event),
            Origin::Session(key) => self.web.session_woke(&scene, key, event),
            Origin::Link(number) => self.web.link_woke(&scene, number, event),
        }
    }

    // Goes on where no event is needed, and ends what took too long.
    fn take_turns(&mut self) {
        let scene = self.stage.scene();
        self.relays.take_turns(&scene);
        self.web.take_turns(&scene);
        if self.listeners.accepting {
            self.accept_all();
        }
        self.look();
    }

    // Takes connections of every listener.
    fn accept_all(&mut self) {
        self.listeners.accepting = false;
        self.listeners.hurries = false;
        for number in 0..self.listeners.len() {
            self.accept(number);
        }
    }

    // Takes connections of a listener, up to the limit. Those that are left are taken later.
    fn accept(&mut self, number: usize) {
        for _ in 0..ACCEPTS {
            if !self.stage.proxy.reserve() {
                self.listeners.accepting = true;
                return;
            }
            if !self.accept_one(number) {
                self.stage.proxy.count(&self.stage.rt, Counted::Freed);
                return;
            }
        }
        self.listeners.accepting = true;
        self.listeners.hurries = true;
    }

    // Takes one connection of a listener, for which room was kept. Returns whether it was taken.
    fn accept_one(&mut self, number: usize) -> bool {
        match self.listeners.take(number) {
            Some((stream, address)) => self.begin(number, stream, address),
            None => false,
        }
    }

    // Begins a connection in the mode of its listener. Returns whether there was memory for it.
    fn begin(&mut self, number: usize, stream: TcpStream, address: SocketAddr) -> bool {
        let _ = stream.set_nodelay(true);
        let scene = self.stage.scene();
        match scene.settings.mode(number) {
            Mode::Tcp => self.relays.begin(&scene, number, stream, address),
            Mode::Http => match Client::of(scene.alloc, address) {
                Ok(known) => self.web.begin(&scene, number, stream, known),
                Err(_) => false,
            },
        }
    }

    // Ends what took too long, where that wasn't looked for just before.
    fn look(&mut self) {
        let scene = self.stage.scene();
        if scene.now.saturating_sub(self.looked) >= TICK {
            self.looked = scene.now;
            self.web.look(&scene);
            self.relays.look(&scene);
        }
    }
}
