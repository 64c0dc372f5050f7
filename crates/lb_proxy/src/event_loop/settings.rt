//! What loops go by. It never changes while they run.

use crate::config::Limits;
use crate::key::{Key, OwnedKey};
use crate::mode::Mode;

/// What a listener does with its connections.
#[derive(Drop)]
pub struct ListenSettings {
    pub mode: Mode,
    /// What the selections for its requests take as their key.
    pub key: OwnedKey,
}

/// What the loops of a proxy go by.
#[derive(Drop)]
pub struct Settings {
    pub limits: Limits,
    /// One for each listener, in order.
    pub listens: Vec<ListenSettings>,
}

impl Settings {
    /// Returns what the listener of this number does with its connections.
    pub fn mode(&self, listener: usize) -> Mode {
        match self.listens.get(listener) {
            Some(listen) => listen.mode,
            None => Mode::Tcp,
        }
    }

    /// Returns what the selections for the requests of this listener take as their key.
    pub fn key(&self, listener: usize) -> Key<'_> {
        match self.listens.get(listener) {
            Some(listen) => listen.key.as_key(),
            None => Key::Source,
        }
    }
}
