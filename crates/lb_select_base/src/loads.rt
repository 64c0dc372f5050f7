//! Loads of backends: how busy each identity is said to be, set one by one.
//! A source of words reads them, and no draw changes them.
ghost use Rattle.std.specs.Prelude.{◌≡◌};
ghost use Rattle.lb_select_base.specs.Backends.{Member};
ghost use Rattle.lb_select_base.specs.Loads.{load_in, IsLoadAnswer};

use crate::backend::Backend;
use crate::refusal::Refusal;
use std::alloc::Global;
use std::collections::BTreeMap;
use std::marker::Model;

/// Loads by identity: that of a backend is the one that was set for its identity last, and 0 where none was.
///
/// Contracts see what was set, in the order of the identities.
#[derive(Drop)]
pub struct Loads {
    // none before the first load, so that an empty one takes no memory
    table: Option<BTreeMap<Backend, u64>>,
}

impl Model for Loads {
    ghost use Rattle.std.specs.Prelude.{List, ℕ};
    ghost use Rattle.lb_select_base.specs.Backends.{Member};
    ghost use Rattle.lb_select_base.specs.Loads.{entries_of};

    ghost Value = { List (Member × ℕ) };

    ghost view = { λ l. entries_of l.table };
}

impl Loads {
    /// Returns loads that are all 0, without taking memory.
    pub fn new() -> Self
        ensures { (m : Member) → load_in result m ≡ 0 }
    {
        Loads { table: None }
    }

    /// Sets the load of a backend's identity.
    ///
    /// Refused for memory alone, and then nothing is set.
    pub fn set(&mut self, alloc: Global, backend: &Backend, load: u64) -> Result<(), Refusal>
        ensures { IsLoadAnswer (load_in self.old) backend.now load result (load_in self.new) }
    {
        let identity = backend.clone_identity(alloc)?;
        let mut table = match self.table.take() {
            Some(table) => table,
            None => BTreeMap::new(alloc),
        };
        let inserted = table.insert(identity, load);
        self.table = Some(table);
        inserted?;
        Ok(())
    }

    /// Returns the load of a backend's identity, without taking memory.
    pub fn get(&self, backend: &Backend) -> u64
        ensures { result ≡ load_in self.now backend.now }
    {
        match &self.table {
            Some(table) => table.get(backend).copied().unwrap_or(0),
            None => 0,
        }
    }
}
