//! The shared types whose calls are made while memory is refused.
use crate::refused::{Call, Course, FIRST, Lists, Seen, Subject, Ticks, set_of};
use lb_background::lending::LendsToThreads;
use lb_balancer::load_balancer::LoadBalancer;
use lb_balancer_core::turn::Turn;
use lb_balancer_group::group::LoadBalancerGroup;
use lb_crowd::crowd::NoCheck;
use lb_crowd::turns::turn_by;
use lb_health_core::health_check::HealthCheck;
use lb_health_core::keys::{KeyRule, Rule};
use lb_health_view::discovery::DiscoverySource;
use lb_script::kinds::{Chosen, Kind};
use lb_select_base::backend::Backend;
use lb_select_base::refusal::Refusal;
use lb_select_base::walk::BackendSelection;
use lb_threads_core::backends::{BackendView, Backends};
use lb_threads_core::gate::SelectorRebuildGate;
use lb_threads_core::keyed::NoRule;
use lb_threads_core::registry::HealthRegistry;
use lb_threads_group::group::SharedGroup;
use std::alloc::Global;
use std::net::Net;
use std::sync::atomic::Ordering::SeqCst;
use std::sync::atomic::{AtomicBool, AtomicU64};
use std::sync::{Arc, Wait};

// How many cells the calls give, or more.
const CELLS: u64 = 8;

// How long after one turn the next one is taken, in nanoseconds.
const SECOND: u64 = 1_000_000_000;

type Registry = HealthRegistry<Rule<NoRule>, NoCheck>;

type Found = Backends<Lists, Rule<NoRule>, NoCheck>;

/// A view over a shared registry.
pub type View = BackendView<Lists, Rule<NoRule>, NoCheck>;

/// A balancer that threads may share.
pub type Balancer = LoadBalancer<Chosen, Lists, Rule<NoRule>, NoCheck>;

/// A group of one slot that threads may share, without workers.
pub type Group = LoadBalancerGroup<Chosen, Lists, Rule<NoRule>, NoCheck>;

/// A registry alone.
#[derive(Drop)]
pub struct Alone {
    registry: Registry,
}

/// How a subject is made.
#[derive(Clone, Copy)]
pub enum Way {
    /// A registry by identity, and anything else by its type's defaults.
    Plain,
    /// A registry by address.
    ByAddress,
    /// A balancer with a configuration, that of a ring.
    Configured,
    /// A balancer of texts, over a registry of its own.
    OfTexts,
}

/// A registry, and what says which list a discovery over it finds.
#[derive(Drop)]
pub struct Site<W> {
    rt: W,
    alloc: Global,
    registry: Arc<Registry>,
    other: Arc<AtomicBool>,
    // The moment of the next turn.
    moment: AtomicU64,
}

impl<W: Wait> Site<W> {
    fn new(rt: W, alloc: Global) -> Result<Site<W>, Refusal>
    where
        W: Drop,
    {
        Ok(Site {
            rt,
            alloc,
            registry: Arc::new(alloc, HealthRegistry::new(alloc)?)?,
            other: Arc::new(alloc, AtomicBool::new(false))?,
            moment: AtomicU64::new(0),
        })
    }

    // A view of a discovery over the registry.
    fn found(&self) -> Result<Found, Refusal> {
        let lists = Lists {
            other: Arc::try_clone(&self.other)?,
        };
        Backends::new_with_health_registry(
            &self.rt,
            self.alloc,
            DiscoverySource::Boxed(lists),
            Arc::try_clone(&self.registry)?,
        )
    }

    // How many targets the registry has.
    fn targets(&self) -> Option<usize> {
        target_count(&self.rt, self.alloc, &self.registry)
    }
}

// How many targets a registry has; counted again where that is refused.
fn target_count<W: Wait>(rt: &W, alloc: Global, registry: &Registry) -> Option<usize> {
    match registry.target_count(rt, alloc) {
        Ok(count) => Some(count),
        Err(_) => registry.target_count(rt, alloc).ok(),
    }
}

/// What can be made over a site.
pub trait Made: Sized {
    /// Makes it in this way, or plainly where it has no such way.
    fn make<W: Net + Wait>(site: &Site<W>, way: Way) -> Result<Self, Refusal>;
}

impl Made for Alone {
    fn make<W: Net + Wait>(site: &Site<W>, way: Way) -> Result<Alone, Refusal> {
        let registry = match way {
            Way::ByAddress => HealthRegistry::by_address(site.alloc)?,
            _ => HealthRegistry::new(site.alloc)?,
        };
        Ok(Alone { registry })
    }
}

impl Made for View {
    fn make<W: Net + Wait>(site: &Site<W>, _way: Way) -> Result<View, Refusal> {
        site.found()
    }
}

// A balancer of the texts of the first list's addresses.
fn balancer_of_texts<W: Net + Wait>(rt: &W, alloc: Global) -> Result<Balancer, Refusal> {
    let texts = FIRST.iter().map(|(address, _)| *address);
    LoadBalancer::try_from_iter(rt, alloc, texts, &mut Ticks { next: 10 })
}

impl Made for Balancer {
    fn make<W: Net + Wait>(site: &Site<W>, way: Way) -> Result<Balancer, Refusal> {
        let (rt, alloc) = (&site.rt, site.alloc);
        match way {
            Way::OfTexts => balancer_of_texts(rt, alloc),
            Way::Configured => {
                LoadBalancer::from_backends_with_config(
                    rt,
                    alloc,
                    site.found()?,
                    Some(Kind::Ketama),
                )
            }
            _ => LoadBalancer::from_backends(rt, alloc, site.found()?),
        }
    }
}

impl Made for Group {
    fn make<W: Net + Wait>(site: &Site<W>, _way: Way) -> Result<Group, Refusal> {
        let (rt, alloc) = (&site.rt, site.alloc);
        let mut configs = Vec::new(alloc);
        configs.push(None)?;
        let mut group: Group = LoadBalancerGroup::from_backends_with_configs(
            rt,
            alloc,
            site.found()?,
            configs,
        )?;
        let gate = Arc::new(alloc, SelectorRebuildGate::new(alloc)?)?;
        match group.with_rebuild_gate(rt, alloc, gate) {
            Ok(()) => Ok(group),
            Err(_) => Err(Refusal::OutOfMemory),
        }
    }
}

/// What calls are made of, over a registry of its own.
#[derive(Drop)]
pub struct Calls<W, T> {
    site: Site<W>,
    subject: T,
}

impl<W: Net + Wait + Copy + Drop, T: Made + Drop> Calls<W, T> {
    /// Makes the subject, again where memory was refused for it, and returns what came of that.
    pub fn new(rt: W, alloc: Global, way: Way) -> (Option<Calls<W, T>>, Course) {
        let made = match Site::new(rt, alloc) {
            Ok(site) => Ok(site),
            Err(_) => Site::new(rt, alloc),
        };
        let Ok(site) = made else {
            return (None, Course::new(false));
        };
        let (made, course) = made_in(&site, way);
        match made {
            Some(subject) => (Some(Calls { site, subject }), course),
            None => (None, course),
        }
    }
}

// Makes a subject, again where that was refused: then the registry has no targets.
fn made_in<W: Net + Wait, T: Made>(site: &Site<W>, way: Way) -> (Option<T>, Course) {
    match T::make(site, way) {
        Ok(subject) => (Some(subject), Course::new(true)),
        Err(_) => {
            let course = Course::made_again(site.targets() == Some(0));
            (T::make(site, way).ok(), course)
        }
    }
}

impl<W: Wait> Subject for Calls<W, Alone> {
    fn seen(&self) -> Option<Seen> {
        let (rt, alloc, registry) = (&self.site.rt, self.site.alloc, &self.subject.registry);
        let mut ready: u64 = 0;
        for cell in 0..CELLS {
            if registry.cell_ready(rt, cell) {
                ready = ready.saturating_add(1);
            }
        }
        Some(Seen {
            newest: ready,
            served: 0,
            targets: target_count(rt, alloc, registry)?,
            selected: None,
            timing: None,
        })
    }

    fn is_ready(&self, _backend: &Backend) -> bool {
        false
    }

    fn disable(&self, _backend: &Backend) {}

    fn make(&self, call: Call) -> Result<u64, Refusal> {
        let (rt, alloc) = (&self.site.rt, self.site.alloc);
        let registry = &self.subject.registry;
        match call {
            Call::Register => registry.register_view(rt, alloc),
            Call::Members(id, members) => {
                let set = set_of(alloc, members)?;
                registry.update_view(rt, alloc, id, set)?;
                Ok(0)
            }
            Call::Targets => Ok(registry.target_count(rt, alloc)? as u64),
            Call::List => Ok(registry.targets(rt, alloc)?.len() as u64),
            _ => Err(Refusal::NoSuch),
        }
    }
}

impl<W: Wait> Subject for Calls<W, View> {
    fn seen(&self) -> Option<Seen> {
        let rt = &self.site.rt;
        let members = match self.subject.get_backend(rt) {
            Ok(members) => members,
            Err(_) => self.subject.get_backend(rt).ok()?,
        };
        Some(Seen {
            newest: self.subject.generation(rt),
            served: members.len() as u64,
            targets: self.site.targets()?,
            selected: None,
            timing: None,
        })
    }

    fn is_ready(&self, backend: &Backend) -> bool {
        self.subject.ready(&self.site.rt, backend)
    }

    fn disable(&self, backend: &Backend) {
        self.subject.set_enable(&self.site.rt, backend, false);
    }

    fn make(&self, call: Call) -> Result<u64, Refusal> {
        let (rt, alloc) = (&self.site.rt, self.site.alloc);
        match call {
            Call::Update(other) => {
                self.site.other.store(other, SeqCst);
                self.subject.update(rt, alloc, |_members| ())?;
                Ok(self.subject.generation(rt))
            }
            _ => Err(Refusal::NoSuch),
        }
    }
}

impl<W: Wait> Subject for Calls<W, Balancer> {
    fn seen(&self) -> Option<Seen> {
        let (rt, alloc) = (&self.site.rt, self.site.alloc);
        let selected = match self.subject.select(rt, alloc, b"k", 1) {
            Ok(selected) => selected,
            Err(_) => self.subject.select(rt, alloc, b"k", 1).ok()?,
        };
        let newest = self.subject.backend_generation(rt);
        Some(Seen {
            newest,
            served: newest,
            targets: self.site.targets()?,
            selected: selected.map(|backend| backend.weight),
            timing: self.subject.last_update_timing(rt),
        })
    }

    fn is_ready(&self, backend: &Backend) -> bool {
        self.subject.newest_ready(&self.site.rt, backend)
    }

    fn disable(&self, backend: &Backend) {
        self.subject.flag(&self.site.rt, backend, false);
    }

    fn make(&self, call: Call) -> Result<u64, Refusal> {
        let (rt, alloc) = (&self.site.rt, self.site.alloc);
        match call {
            Call::Update(other) => {
                self.site.other.store(other, SeqCst);
                self.subject.update(rt, alloc, &mut Ticks { next: 10 })?;
                Ok(self.subject.backend_generation(rt))
            }
            Call::Load => {
                for backend in &set_of(alloc, FIRST)? {
                    self.subject.set_load(rt, alloc, backend, 7)?;
                }
                Ok(0)
            }
            _ => Err(Refusal::NoSuch),
        }
    }
}

// Takes a turn for slot 0 of a group at this moment.
fn taken<S: BackendSelection, R: KeyRule + Drop, C: HealthCheck + Drop, W: Wait>(
    rt: &W,
    alloc: Global,
    group: &SharedGroup<S, R, C>,
    now: u64,
) -> Result<Turn, Refusal> {
    let mut clock = Ticks {
        next: u128::from(now),
    };
    turn_by(rt, alloc, group, 0, &mut clock)
}

// Takes a turn for the slot of a group, a second after the last one. Returns the generation that is published.
fn turn<W: Wait>(site: &Site<W>, group: &Group) -> Result<u64, Refusal> {
    let now = site.moment.fetch_add(SECOND, SeqCst);
    match taken(&site.rt, site.alloc, &**group.shared(), now)? {
        Turn::Published(generation) => Ok(generation),
        Turn::Failed(_, refusal) => Err(refusal),
        _ => Err(Refusal::NothingBuilt),
    }
}

impl<W: Wait> Subject for Calls<W, Group> {
    fn seen(&self) -> Option<Seen> {
        let (rt, alloc) = (&self.site.rt, self.site.alloc);
        let selected = match self.subject.select(rt, alloc, 0, b"k", 1) {
            Ok(selected) => selected,
            Err(_) => self.subject.select(rt, alloc, 0, b"k", 1).ok()?,
        };
        Some(Seen {
            newest: self.subject.backend_generation(rt),
            served: self.subject.selector_generation(rt, 0)?,
            targets: self.site.targets()?,
            selected: selected.map(|backend| backend.weight),
            timing: self.subject.last_update_timing(rt),
        })
    }

    fn is_ready(&self, backend: &Backend) -> bool {
        self.subject.newest_ready(&self.site.rt, backend)
    }

    fn disable(&self, backend: &Backend) {
        self.subject.flag(&self.site.rt, backend, false);
    }

    fn make(&self, call: Call) -> Result<u64, Refusal> {
        let (rt, alloc) = (&self.site.rt, self.site.alloc);
        match call {
            Call::Update(other) => {
                self.site.other.store(other, SeqCst);
                self.subject.update(rt, alloc, &mut Ticks { next: 10 })
            }
            Call::Load => {
                for backend in &set_of(alloc, FIRST)? {
                    self.subject.set_load(rt, alloc, backend, 7)?;
                }
                Ok(0)
            }
            Call::Turn => turn(&self.site, &self.subject),
            _ => Err(Refusal::NoSuch),
        }
    }
}
