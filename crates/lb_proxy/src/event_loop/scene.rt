//! What the steps of a connection are given.

use crate::event_loop::settings::Settings;
use mio::Poll;
use std::alloc::Global;
use std::sync::Arc;
use std::time::Clock;

/// What a loop has for the steps of all its connections.
#[derive(Drop)]
pub struct Stage<R, U> {
    pub rt: R,
    pub alloc: Global,
    pub proxy: Arc<U>,
    pub settings: Arc<Settings>,
    pub poll: Poll,
    /// Milliseconds of the clock.
    pub now: u64,
}

impl<R, U> Stage<R, U> {
    /// Returns what the steps of a connection are given.
    pub fn scene(&self) -> Scene<'_, R, U> {
        Scene {
            rt: &self.rt,
            alloc: self.alloc,
            proxy: &*self.proxy,
            settings: &*self.settings,
            poll: &self.poll,
            now: self.now,
        }
    }
}

impl<R: Clock, U> Stage<R, U> {
    /// Reads the clock; where it can't be read, the time is as before.
    pub fn read_clock(&mut self) {
        if let Ok(since) = self.rt.monotonic() {
            self.now = since
                .as_secs()
                .saturating_mul(1000)
                .saturating_add(u64::from(since.subsec_millis()));
        }
    }
}

/// What the steps of a connection are given by their loop.
#[derive(Drop)]
pub struct Scene<'a, R, U> {
    pub rt: &'a R,
    pub alloc: Global,
    pub proxy: &'a U,
    pub settings: &'a Settings,
    pub poll: &'a Poll,
    /// Milliseconds of the clock.
    pub now: u64,
}
