//! Discovery: where the backends of a view come from.
//! A discovery gives a set and settings; of a backend that the settings omit the flag stays.
ghost use Rattle.std.specs.Prelude.{◌≡◌, ⊤, ℕ, [], List, IfOk, IsErrOf, OnErr, Err};
ghost use Rattle.std.specs.Borrow.{Bor};
ghost use Rattle.std.specs.Iterator.{Drains, IsFinite};
ghost use Rattle.lb_health_view.specs.Discoveries.{Discovers, Found, MayFault, MayLackMemory, found_of};
ghost use Rattle.lb_health_view.specs.Discoveries.{IsDiscoveryRefusal, IsLookupRefusal};
ghost use Rattle.lb_health_view.specs.RegistrySide.{settings_of};
ghost use Rattle.lb_health_view.specs.Lookups.{IsMadeOf};

use crate::lookup::gather;
use crate::view::Settings;
use lb_select_base::backend::Backend;
use lb_select_base::refusal::Refusal;
use std::alloc::Global;
use std::collections::BTreeSet;
use std::marker::Model;
use std::net::Net;

/// What a discovery gives: the backends, and which of them are enabled or disabled.
pub type Discovered = (BTreeSet<Backend>, Settings);

/// A source of backends.
pub trait ServiceDiscovery {
    /// What the discovery may return: anything, for one that doesn't say.
    ghost finds: { Self → Found → Type 0 } = { λ _ _. ⊤ };

    /// Returns the backends that are there now.
    ///
    /// A fault is `Discovery`; `OutOfMemory` where memory is refused.
    fn discover(&self, alloc: Global) -> Result<Discovered, Refusal>
        ensures { finds self.now (found_of result) };
}

/// The caller's discovery behind a box.
pub type BoxedDiscovery = Box<dyn ServiceDiscovery + Send + Sync + Drop>;

impl ServiceDiscovery for BoxedDiscovery {
    ghost finds = { λ b found. (ServiceDiscovery-box b).finds b.value found };

    fn discover(&self, alloc: Global) -> Result<Discovered, Refusal> {
        (**self).discover(alloc)
    }
}

/// A fixed set of backends, without settings. Contracts see the backends in order.
#[derive(Drop)]
pub struct Static {
    backends: BTreeSet<Backend>,
}

impl Model for Static {
    ghost use Rattle.std.specs.Prelude.{List};
    ghost use Rattle.lb_select_base.specs.Backends.{Member};

    ghost Value = { List Member };

    ghost view = { λ s. s.backends.keys };
}

impl Static {
    /// Returns the discovery of these backends.
    pub fn new(backends: BTreeSet<Backend>) -> Static
        ensures { result ≡ backends.keys }
    {
        Static { backends }
    }

    /// Returns the discovery of no backend.
    pub fn default(alloc: Global) -> Static
        ensures { result ≡ [] }
    {
        Static {
            backends: BTreeSet::new(alloc),
        }
    }

    /// Returns the backends of weight 1 at the addresses of the texts, each once.
    ///
    /// A text that std reads as a socket address has that one, and no network is asked; of another text, `host:port`, the network looks up
    /// the host, and may give any addresses.
    ///
    /// No contract says what a network gives for a name, or that a text without a host and a port has no address.
    ///
    /// # Errors
    ///
    /// `InvalidAddress` where an address has a scope id other than 0; where none has, `Discovery` where a text is no address and
    /// its host can't be looked up; and only then `OutOfMemory` where memory is refused. Each text is asked about, also after one
    /// that is refused.
    pub fn try_from_iter<'a, N: Net, I: Iterator<Item = &'a str> + Drop>(
        alloc: Global,
        net: &N,
        texts: I,
    ) -> Result<Static, Refusal>
        requires can { I.can_next texts }
        requires ends { IsFinite (I.remaining texts) }
        ensures made { (read : List (Bor (List ℕ))) × Drains I.next_gives texts read × IsMadeOf read result }
        ensures refused { OnErr result (IsLookupRefusal result) }
    {
        let mut backends = BTreeSet::new(alloc);
        let mut cause = None;
        for text in texts {
            cause = gather(alloc, net, text, &mut backends, cause);
        }
        match cause {
            Some(refusal) => Err(refusal),
            None => Ok(Static { backends }),
        }
    }

    /// Returns a copy of the backends.
    ///
    /// Refused `OutOfMemory` where there is no room for it.
    pub fn get(&self) -> Result<BTreeSet<Backend>, Refusal>
        ensures ok { IfOk result (λ set. set.keys ≡ self.now) }
        ensures refused { OnErr result (result ≡ Err Refusal.OutOfMemory) }
    {
        let copy = self.backends.clone()?;
        Ok(copy)
    }
}

impl ServiceDiscovery for Static {
    ghost use Rattle.lb_health_view.specs.Discoveries.{Stays};

    ghost finds = { Stays };

    fn discover(&self, alloc: Global) -> Result<Discovered, Refusal>
        ensures ok { IfOk result (λ found. (found.0.keys ≡ self.now) × (found.1.entries ≡ [])) }
        ensures refused { OnErr result (result ≡ Err Refusal.OutOfMemory) }
    {
        let backends = self.get()?;
        Ok((backends, Settings::new(alloc)))
    }
}

/// The discovery of a view: a fixed set, or the caller's.
#[derive(Drop)]
pub enum DiscoverySource<D = BoxedDiscovery> {
    Static(Static),
    Boxed(D),
}

impl<D: ServiceDiscovery> ServiceDiscovery for DiscoverySource<D> {
    ghost use Rattle.lb_health_view.specs.Discoveries.{FoundBy};

    ghost finds = { FoundBy D.finds };

    /// Returns the backends that the set or the caller's discovery gives now.
    ///
    /// A caller's fault becomes `Discovery`, whatever its refusal, save `OutOfMemory`.
    fn discover(&self, alloc: Global) -> Result<Discovered, Refusal>
        ensures ok { IfOk result (λ found. Discovers D.finds self.now found.0.keys (settings_of found.1.entries)) }
        ensures refused { OnErr result (IsDiscoveryRefusal result) }
        ensures fault { IsErrOf result Refusal.Discovery → MayFault D.finds self.now }
        ensures memory { IsErrOf result Refusal.OutOfMemory → MayLackMemory D.finds self.now }
    {
        match self {
            DiscoverySource::Static(backends) => backends.discover(alloc),
            DiscoverySource::Boxed(discovery) => match discovery.discover(alloc) {
                Ok(found) => Ok(found),
                Err(Refusal::OutOfMemory) => Err(Refusal::OutOfMemory),
                Err(_) => Err(Refusal::Discovery),
            },
        }
    }
}
