//! Where the backends of a pool come from: a list, or a file that is read again while the proxy runs.

use lb_proxy::config::PoolSource;
use lb_proxy::pool_file::{PoolBackend, PoolError, read_pool};
use log::{Log, error, info};
use pingora_load_balancing::discovery::{Discovered, ServiceDiscovery, Settings};
use pingora_load_balancing::{Backend, Refusal};
use std::alloc::{AllocError, Global};
use std::collections::BTreeSet;
use std::fs;
use std::rt::Files;
use std::sync::{Arc, Mutex, Wait};

// The text of a pool's file as it was read last, and what is wrong with it.
#[derive(Drop)]
struct FileText {
    text: String,
    fault: String,
}

/// The backends of a pool as a list.
#[derive(Drop)]
pub struct PoolBackends {
    /// Backends that don't change.
    fixed: Vec<Backend>,
    /// The path of the file, or nothing.
    path: String,
    file: Mutex<FileText>,
}

impl PoolBackends {
    /// Returns what the configuration names.
    pub fn new(alloc: Global, source: PoolSource) -> PoolBackends {
        let (fixed, path) = match source {
            PoolSource::Fixed(backends) => (backends, String::new(alloc)),
            PoolSource::File(path) => (Vec::new(alloc), path),
        };
        PoolBackends {
            fixed,
            path,
            file: Mutex::new(FileText {
                text: String::new(alloc),
                fault: String::new(alloc),
            }),
        }
    }

    /// Reads the file again. Returns whether it says something new; a list never does.
    ///
    /// A file that can't be read is as before, and is logged once.
    pub fn look<R: Log + Files + Wait + AllocGlobal>(&self, rt: &R, alloc: Global) -> bool {
        if self.path.is_empty() {
            return false;
        }
        match fs::read_to_string(rt, self.path.as_str()) {
            Ok(text) => {
                let mut file = self.file.lock(rt);
                let is_new = file.text.as_str() != text.as_str();
                file.text = text;
                is_new
            }
            Err(error) => {
                let said = format!(in alloc; "can't be read: {error}");
                self.note(rt, said);
                false
            }
        }
    }

    /// Returns what is wrong with the file, or nothing.
    pub fn fault<R: Wait>(&self, rt: &R) -> Result<String, AllocError> {
        self.file.lock(rt).fault.clone()
    }

    // Notes what is wrong with the file, and logs it where that is new.
    fn note<R: Log + Wait>(&self, rt: &R, said: Result<String, AllocError>) {
        let Ok(said) = said else {
            return;
        };
        let mut file = self.file.lock(rt);
        if file.fault.as_str() != said.as_str() {
            let path = self.path.as_str();
            if said.is_empty() {
                info!(rt; "{path}: read");
            } else {
                error!(rt; "{path}: {said}");
            }
            file.fault = said;
        }
    }

    // What the file said when it was read last.
    fn read<R: Wait>(&self, rt: &R, alloc: Global) -> Result<Vec<PoolBackend>, PoolError> {
        let file = self.file.lock(rt);
        read_pool(alloc, file.text.as_str())
    }
}

/// The discovery of a pool. A file that is wrong is a fault, and changes nothing.
#[derive(Drop)]
pub struct PoolDiscovery<R> {
    pub rt: R,
    pub backends: Arc<PoolBackends>,
}

impl<R: Log + Wait> ServiceDiscovery for PoolDiscovery<R> {
    fn discover(&self, alloc: Global) -> Result<Discovered, Refusal> {
        let backends = &*self.backends;
        if backends.path.is_empty() {
            return Ok((
                set_of(alloc, backends.fixed.as_slice())?,
                Settings::new(alloc),
            ));
        }
        match backends.read(&self.rt, alloc) {
            Ok(listed) => {
                backends.note(&self.rt, Ok(String::new(alloc)));
                listing(alloc, listed)
            }
            Err(error) => {
                backends.note(&self.rt, format!(in alloc; "{error}"));
                Err(Refusal::Discovery)
            }
        }
    }
}

// The set of these backends.
fn set_of(alloc: Global, backends: &[Backend]) -> Result<BTreeSet<Backend>, Refusal> {
    let mut set = BTreeSet::new(alloc);
    for backend in backends {
        set.insert(backend.copied(alloc)?)?;
    }
    Ok(set)
}

// The set of a file's backends, and which of them are enabled.
fn listing(alloc: Global, listed: Vec<PoolBackend>) -> Result<Discovered, Refusal> {
    let mut set = BTreeSet::new(alloc);
    let mut settings = Settings::new(alloc);
    for PoolBackend { backend, enabled } in listed {
        let addr = backend.addr.clone()?;
        settings.insert((addr, backend.weight), enabled)?;
        set.insert(backend)?;
    }
    Ok((set, settings))
}
