//! The listeners of a loop.

use crate::event_loop::tokens::listener_token;
use mio::net::{TcpListener, TcpStream};
use mio::{Interest, Registry};
use std::alloc::Global;
use std::io;
use std::io::ErrorKind;
use std::net::SocketAddr;

/// Listeners, in the order of the settings, and what is known of connections that come.
#[derive(Drop)]
pub struct Listeners {
    listeners: Vec<TcpListener>,
    /// Whether a listener may have connections that were not taken, and whether they can be taken at once.
    pub accepting: bool,
    pub hurries: bool,
    // Whether the listeners are closed.
    closed: bool,
}

impl Listeners {
    /// Returns these listeners.
    pub fn new(listeners: Vec<TcpListener>) -> Listeners {
        Listeners {
            listeners,
            accepting: true,
            hurries: false,
            closed: false,
        }
    }

    /// Returns how many listeners there are.
    pub fn len(&self) -> usize {
        self.listeners.len()
    }

    /// Takes one connection of a listener, where one waits.
    pub fn take(&mut self, number: usize) -> Option<(TcpStream, SocketAddr)> {
        let listener = self.listeners.get(number)?;
        match listener.accept() {
            Ok(taken) => Some(taken),
            Err(error) => {
                if error.kind() != ErrorKind::WouldBlock {
                    self.accepting = true;
                }
                None
            }
        }
    }

    /// Takes no connection any more.
    pub fn close(&mut self, alloc: Global) {
        if !self.closed {
            self.closed = true;
            self.listeners = Vec::new(alloc);
        }
    }
}

/// Has the poll of this registry report connections that come.
pub fn register(registry: &Registry, listeners: &mut [TcpListener]) -> io::Result<()> {
    let mut number: usize = 0;
    for listener in listeners.iter_mut() {
        registry.register(listener, listener_token(number), Interest::READABLE)?;
        number = number.wrapping_add(1);
    }
    Ok(())
}
