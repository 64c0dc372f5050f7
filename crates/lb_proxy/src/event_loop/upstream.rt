//! What a loop asks of the proxy that it works for.

use crate::attempts::Attempts;
use lb_select_base::backend::Backend;
use log::Log;
use std::alloc::Global;
use std::sync::Wait;

/// What happened to a connection to a backend, or in http mode to a request there.
#[derive(Clone, Copy)]
pub enum Happened {
    /// A connection is tried.
    Began,
    /// The backend didn't take it.
    Refused,
    /// A request took a connection that was kept.
    Resumed,
    /// A request is sent.
    Asked,
    /// The connection or the request ended; it carried so many bytes to the backend and from it.
    Ended { sent: u64, received: u64 },
}

/// What a proxy counts of the connections of all clients.
#[derive(Clone, Copy)]
pub enum Counted {
    /// A connection was taken.
    Connection,
    /// The room that was reserved for a connection is free again: it ended, or none was taken.
    Freed,
    /// A request came.
    Request,
    /// No backend was left for a connection of this listener, or in http mode for a request.
    Unserved { listener: usize },
}

/// What a loop asks of its proxy. Listeners are named by their numbers.
pub trait Upstream {
    /// Returns a ready backend for a connection that a listener took, or for a request on it, one that was not tried.
    fn select<W: Log + Wait>(
        &self,
        rt: &W,
        alloc: Global,
        listener: usize,
        key: &[u8],
        attempts: &Attempts,
    ) -> Option<Backend>;

    /// Takes note of what happened to a connection to the backend.
    fn note<W: Log + Wait>(
        &self,
        rt: &W,
        alloc: Global,
        listener: usize,
        backend: &Backend,
        happened: Happened,
    );

    /// Returns whether the backend is in the pool of a listener.
    fn has<W: Log + Wait>(&self, rt: &W, listener: usize, backend: &Backend) -> bool;

    /// Reserves room for one more connection. Returns whether there was room.
    fn reserve(&self) -> bool;

    /// Counts what happened to a connection or a request of a client.
    fn count<W: Log>(&self, rt: &W, counted: Counted);

    /// Returns whether no connection is to be taken any more.
    fn ends(&self) -> bool;
}
