//! The attempts of one connection to reach a backend: three at most, each at a backend that was not tried before.
ghost use Rattle.std.specs.Prelude.{◌≡◌, ◌-◌, length, slice_get, List, OnOk, OnErr};
ghost use Rattle.std.specs.Option.{option_copied};
ghost use Rattle.lb_proxy.specs.Attempts.{start, after, after_all, after_selection, after_connection, was_tried, IsSelected, IsFair};
ghost use Rattle.lb_proxy.specs.declared.attempts.AttemptEvent.{AttemptEvent};

use lb_select_base::backend::Backend;
use std::alloc::{AllocError, Global};
use std::marker::Model;

/// The most attempts that a connection makes.
pub const ATTEMPT_LIMIT: usize = 3;

/// What has happened to an attempt.
#[derive(Drop)]
pub enum AttemptEvent {
    /// The selection gave this backend.
    Selected(Backend),
    /// The selection gave none.
    NoneReady,
    /// The backend refused the connection.
    Refused,
    /// The backend took the connection.
    Connected,
}

/// What is to be done next.
#[derive(Clone, Copy)]
pub enum Next {
    /// Select a backend that was not tried.
    Select,
    /// Connect to the backend that was selected last.
    Connect,
    /// Relay what both sides send.
    Relay,
    /// Close the client's connection, since no backend is left for it.
    Close,
}

/// The backends that were tried for one connection, in order, and what is to be done next.
#[derive(Drop)]
pub struct Attempts {
    tried: Vec<Backend>,
    next: Next,
}

impl Model for Attempts {
    ghost use Rattle.lb_proxy.specs.Attempts.{Attempt};

    ghost Value = { Attempt };

    ghost view = { λ a. record { tried = a.tried.items; next = a.next } };
}

impl Attempts {
    /// Returns the attempts of a new connection: none so far.
    pub fn new(alloc: Global) -> Attempts
        ensures { result ≡ start }
    {
        Attempts {
            tried: Vec::new(alloc),
            next: Next::Select,
        }
    }

    /// Returns what is to be done next.
    pub fn next(&self) -> Next
        ensures { result ≡ self.now.next }
    {
        self.next
    }

    /// Returns the backend that was tried last.
    pub fn backend(&self) -> Option<&Backend>
        ensures { option_copied result ≡ slice_get self.now.tried (length self.now.tried - 1) }
    {
        self.tried.last()
    }

    /// Returns whether a backend of this identity was tried.
    ///
    /// A selection is to pass over those.
    pub fn was_tried(&self, backend: &Backend) -> bool
        ensures { result ≡ was_tried self.now.tried backend.now }
    {
        self.tried.contains(backend)
    }

    /// Goes on by an event.
    ///
    /// An event that answers nothing that was to be done changes nothing. Memory is taken for a backend that was selected; an `Err`
    /// changes nothing.
    pub fn step(&mut self, event: AttemptEvent) -> Result<(), AllocError>
        ensures ok { OnOk result (self.new ≡ after self.old event) }
        ensures err { OnErr result (self.new ≡ self.old) }
        ensures memory { OnErr result (IsSelected event) }
    {
        match self.next {
            Next::Select => self.after_selection(event),
            Next::Connect => {
                self.after_connection(event);
                Ok(())
            }
            Next::Relay | Next::Close => Ok(()),
        }
    }

    // A selection was asked for. A backend that was tried before says that no other is left.
    fn after_selection(&mut self, event: AttemptEvent) -> Result<(), AllocError>
        ensures ok { OnOk result (self.new ≡ after_selection self.old event) }
        ensures err { OnErr result (self.new ≡ self.old) }
        ensures memory { OnErr result (IsSelected event) }
    {
        match event {
            AttemptEvent::Selected(backend) => {
                if self.was_tried(&backend) {
                    self.next = Next::Close;
                } else {
                    self.tried.push(backend)?;
                    self.next = Next::Connect;
                }
            }
            AttemptEvent::NoneReady => self.next = Next::Close,
            AttemptEvent::Refused | AttemptEvent::Connected => {}
        }
        Ok(())
    }

    // A connection to the backend that was selected last was asked for.
    fn after_connection(&mut self, event: AttemptEvent)
        ensures { self.new ≡ after_connection self.old event }
    {
        match event {
            AttemptEvent::Refused if self.tried.len() < ATTEMPT_LIMIT => self.next = Next::Select,
            AttemptEvent::Refused => self.next = Next::Close,
            AttemptEvent::Connected => self.next = Next::Relay,
            AttemptEvent::Selected(_) | AttemptEvent::NoneReady => {}
        }
    }
}

/// Whatever happens, at most three backends are tried, each of them once.
pub fn attempts_law()
    ensures { (events : List AttemptEvent) → IsFair (after_all start events) }
{}
