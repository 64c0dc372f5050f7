//! Which backends of a generation are ready, as words that the lanes of a slot share: one has a backend's cell and flag, and the registry
//! has one for the cell. A selection loads both, and asks group and registry where a word is lacking. Who sets a flag writes its words.
ghost use Rattle.std.specs.Prelude.{◌≡◌, ◌&&◌, IfOk, IfSome, None};
ghost use Rattle.std.specs.Arc.{arc_value};
ghost use Rattle.lb_rebuild_core.specs.GroupHistory.{members_now};
ghost use Rattle.lb_rebuild_core.specs.GroupStates.{After};
ghost use Rattle.lb_threads_core.specs.Registry.{IsRegistryOf};
ghost use Rattle.lb_threads_group.specs.Found.{FoundAt, ReadyAt, WereNewest};
ghost use Rattle.lb_threads_group.specs.Group.{IsState, NewestReadyUnder, ReadyUnder};
ghost use Rattle.lb_threads_group.specs.Kept.{IsFoundOf};
ghost use Rattle.lb_threads_group.specs.Shared.{SharedValue};

use crate::group::SharedGroup;
use crate::kept::Site;
use lb_health_core::health_check::HealthCheck;
use lb_health_core::keys::KeyRule;
use lb_health_core::registry::Registry;
use lb_rebuild::watched::Watched;
use lb_rebuild_core::group::GroupCore;
use lb_rebuild_core::retired::Reader;
use lb_select_base::backend::Backend;
use lb_select_base::walk::BackendSelection;
use lb_threads_core::cell_words::CellWords;
use lb_threads_core::flag_words::{FlagRule, FlagWords, Flagged};
use lb_threads_core::loads::LoadWords;
use lb_threads_core::lock::KeyedLock;
use lb_threads_core::marks::spread_of;
use lb_threads_core::registry::{HealthRegistry, cell_words_of, put_registry, take_registry};
use lb_threads_core::rule::LockRule;
use std::alloc::{AllocError, Global};
use std::collections::BTreeSet;
use std::marker::Model;
use std::mem::replace;
use std::snapshot::Snapshot;
use std::sync::atomic::AtomicU64;
use std::sync::atomic::Ordering::SeqCst;
use std::sync::{Arc, Wait};

/// Of what words are: the group and the registry, and the generation.
#[derive(Drop)]
pub struct Subject<S: BackendSelection, R: KeyRule + Drop, C> {
    site: Snapshot<Site<S, R, C>>,
    generation: u64,
}

/// Each word says of the backend that has its place which cell the generation has for it, and whether it is enabled, at some state of the
/// group; and whether the generation was the newest one then.
pub struct OfFound {}

impl<S: BackendSelection, R: KeyRule + Drop, C> FlagRule<Subject<S, R, C>> for OfFound {
    ghost use Rattle.lb_threads_group.specs.Found.{FlaggedAt};
    ghost use Rattle.lb_threads_group.specs.SameReadiness.{flagged-at};

    ghost told = { λ of b cell enabled is_newest. FlaggedAt of.site.value of.generation b cell enabled is_newest };

    ghost by_identity = { λ of b m cell enabled is_newest same told. flagged-at of.site.value of.generation b m cell enabled is_newest
        same told };
}

/// Whether a backend is ready for the readers of a generation, and whether that is known of the newest membership too.
#[derive(Clone, Copy)]
pub(crate) struct Finding {
    pub(crate) ready: bool,
    pub(crate) is_newest: bool,
}

// How many tickets were drawn from a selector, wrapping, with so much room that no other word shares its line of memory, nor the one beside
// it, which processors fetch with it.
#[derive(Drop)]
struct Tickets {
    before: [u64; 15],
    drawn: AtomicU64,
    after: [u64; 15],
}

/// Which backends are ready for the readers of a generation, their loads, and how many tickets they drew. Contracts see of which group,
/// registry and generation.
#[derive(Drop)]
pub struct Found<S: BackendSelection, R: KeyRule + Drop, C> {
    generation: u64,
    flags: FlagWords<Subject<S, R, C>, OfFound>,
    cells: Arc<CellWords<R>>,
    loads: Option<Arc<LoadWords>>,
    tickets: Tickets,
}

impl<S: BackendSelection, R: KeyRule + Drop, C> Model for Found<S, R, C> {
    ghost use Rattle.std.specs.Prelude.{◌≡◌};
    ghost use Rattle.std.specs.Arc.{arc_value};
    ghost use Rattle.lb_threads_group.specs.Found.{FoundValue};

    ghost Value = { FoundValue S.Config R };

    ghost view = { λ f. record { site = f.flags.site.value; generation = f.flags.generation } };

    ghost invariant = { λ f. (f.flags.generation ≡ f.generation) × (arc_value f.cells ≡ f.flags.site.value.registry) };
}

/// The words of a slot: of the generation that it serves, and of the one that is built for it. Of the newest membership it is the latter.
#[derive(Drop)]
pub struct SlotWords<S: BackendSelection, R: KeyRule + Drop, C> {
    served: Option<Arc<Found<S, R, C>>>,
    next: Option<Arc<Found<S, R, C>>>,
}

/// The words are of the lock's group.
pub struct OfSlot {}

impl<S: BackendSelection, R: KeyRule + Drop, C> LockRule<SlotWords<S, R, C>, Site<S, R, C>>
    for OfSlot {
    ghost use Rattle.lb_threads_group.specs.Kept.{IsFoundOf};

    ghost holds = { λ site words. IsFoundOf site words.served × IsFoundOf site words.next };
}

/// The lock of a slot's words.
pub type WordsLock<S, R, C> = KeyedLock<SlotWords<S, R, C>, Site<S, R, C>, OfSlot>;

impl<S: BackendSelection, R: KeyRule + Drop, C> SlotWords<S, R, C> {
    // No words.
    pub(crate) fn none() -> SlotWords<S, R, C>
        ensures { (site : SharedValue S.Config R) → IsFoundOf site result.served × IsFoundOf site result.next }
    {
        SlotWords {
            served: None,
            next: None,
        }
    }

    // The words of a generation.
    fn of(&self, generation: u64) -> Option<Arc<Found<S, R, C>>>
        ensures { (site : SharedValue S.Config R) → IsFoundOf site self.now.served → IsFoundOf site self.now.next
            → IsFoundOf site result }
    {
        match found_of(&self.next, generation) {
            Some(found) => Some(found),
            None => found_of(&self.served, generation),
        }
    }

    // Takes words of the generation that is built now, and returns what isn't needed then.
    pub(crate) fn expect(
        &mut self,
        found: Arc<Found<S, R, C>>,
        served: Option<u64>,
    ) -> Option<Arc<Found<S, R, C>>>
        ensures { (site : SharedValue S.Config R) → IsFoundOf site self.old.served → IsFoundOf site self.old.next
            → (arc_value found).site ≡ site → IsFoundOf site self.new.served × IsFoundOf site self.new.next }
    {
        let before = replace(&mut self.next, Some(found));
        match before {
            Some(before) if Some(before.generation) == served => {
                replace(&mut self.served, Some(before))
            }
            before => before,
        }
    }
}

impl<S: BackendSelection, R: KeyRule + Drop, C> Found<S, R, C> {
    // Words for readers of a generation with these members and loads, which say nothing yet of what is ready.
    fn new(
        alloc: Global,
        site: &Site<S, R, C>,
        generation: u64,
        members: &BTreeSet<Backend>,
        cells: Arc<CellWords<R>>,
        loads: Option<Arc<LoadWords>>,
    ) -> Result<Found<S, R, C>, AllocError>
        requires { arc_value cells ≡ site.now.registry }
        ensures { IfOk result (λ f. f.site ≡ site.now) }
    {
        let of = Subject {
            site: Snapshot::of(site),
            generation,
        };
        Ok(Found {
            generation,
            flags: FlagWords::new(alloc, members, &of)?,
            cells,
            loads,
            tickets: Tickets {
                before: [0; 15],
                drawn: AtomicU64::new(0),
                after: [0; 15],
            },
        })
    }

    // Returns the next ticket of the generation's selector, whose counter began at 0.
    pub(crate) fn ticket(&self) -> u64 {
        let tickets = &self.tickets;
        tickets.drawn.fetch_add(1, SeqCst)
    }

    // The loads of its backends.
    #[inline]
    pub(crate) fn loads(&self) -> Option<&LoadWords> {
        match &self.loads {
            Some(loads) => Some(&**loads),
            None => None,
        }
    }

    // The generation of its readers.
    pub(crate) fn generation(&self) -> u64
        ensures { result ≡ self.now.generation }
    {
        self.generation
    }

    // What the words say of a backend whose identity has this number.
    #[inline]
    fn said(&self, backend: &Backend, spread: u64) -> Option<Finding>
        ensures { IfSome result (λ f. FoundAt R.gives self.now.site self.now.generation backend.now f.ready f.is_newest) }
    {
        let flagged = self.flags.said(backend, spread)?;
        let healthy = self.cells.said(flagged.cell)?;
        Some(finding_of(flagged, healthy))
    }

    // Has the word of a backend say which cell it has, and whether it is enabled, as the group has it now. Returns the cell. The caller has
    // the group's lock, so that a later flag is noted later.
    fn note_flag(&self, group: &GroupCore<S>, backend: &Backend) -> Option<u64>
        requires { IsState self.now.site.core group.now }
    {
        let (cell, is_enabled) = group.cell_and_flag(self.generation, backend)?;
        let is_newest = group.newest() == self.generation;
        let flagged = Flagged {
            cell,
            is_enabled,
            is_newest,
        };
        self.flags.note(backend, flagged);
        Some(cell)
    }

    // Has each word say what the group has now.
    fn note_flags(&self, group: &GroupCore<S>)
        requires { IsState self.now.site.core group.now }
    {
        for mark in self.flags.marks() {
            if let Some(backend) = mark {
                self.note_flag(group, backend);
            }
        }
    }

    // Has the words say what group and registry have of a backend. The caller has both locks.
    pub(crate) fn note(&self, group: &GroupCore<S>, registry: &Registry<R>, backend: &Backend)
        requires group { IsState self.now.site.core group.now }
        requires registry { IsRegistryOf R.gives self.now.site.registry registry.now }
    {
        if let Some(cell) = self.note_flag(group, backend) {
            self.cells.note(cell, registry.cell_ready(cell));
        }
    }

    // Whether a backend whose identity has this number is ready in the newest membership, where the words say it of that one.
    pub(crate) fn newest_ready(&self, backend: &Backend, spread: u64) -> Option<bool>
        ensures { IfSome result (NewestReadyUnder R.gives self.now.site backend.now) }
    {
        match self.said(backend, spread) {
            Some(finding) if finding.is_newest => Some(finding.ready),
            Some(_) | None => None,
        }
    }

    // The backend of each place that has one.
    pub(crate) fn marks(&self) -> &[Option<Backend>] {
        self.flags.marks()
    }
}

// Has the words say of a backend what the group has now, or of each one for `None`.
fn note_in<S: BackendSelection, R: KeyRule + Drop, C>(
    found: &Option<Arc<Found<S, R, C>>>,
    site: &Site<S, R, C>,
    group: &GroupCore<S>,
    backend: Option<&Backend>,
)
    requires found { IsFoundOf site.now found.now }
    requires state { IsState site.now.core group.now }
{
    // For the prover alone: the `requires` speak of it.
    let _ = site;
    let Some(found) = found else {
        return;
    };
    match backend {
        Some(backend) => {
            (**found).note_flag(group, backend);
        }
        None => (**found).note_flags(group),
    }
}

// Whether a backend with this cell and this flag is ready, where the cell is this healthy.
#[inline]
fn finding_of(flagged: Flagged, healthy: bool) -> Finding
    ensures { (result.ready ≡ (flagged.is_enabled && healthy)) × (result.is_newest ≡ flagged.is_newest) }
{
    Finding {
        ready: flagged.is_enabled && healthy,
        is_newest: flagged.is_newest,
    }
}

impl<S: BackendSelection, R: KeyRule + Drop, C> SharedGroup<S, R, C> {
    // No words, for a port that asks of each backend. It borrows the group, so that the port's lifetimes are known.
    pub(crate) fn no_words(&self) -> Option<&Found<S, R, C>>
        ensures { result ≡ None }
    {
        None
    }
}

impl<S: BackendSelection, R: KeyRule + Drop, C: HealthCheck + Drop> SharedGroup<S, R, C> {
    // Has the words of each slot, and those of the newest membership, say whether a backend is enabled, or each one for `None`. The caller
    // has the group's lock.
    pub(crate) fn note_flags<W: Wait>(&self, rt: &W, group: &Watched<S>, backend: Option<&Backend>)
        requires { IsState self.now.core group.now.core }
    {
        for slot in 0..self.words.len() {
            if let Some(lock) = self.words_lock(slot) {
                let held = lock.take(rt);
                note_in(&held.value.served, &self.site, group.core(), backend);
                note_in(&held.value.next, &self.site, group.core(), backend);
                lock.put(held);
            }
        }
    }

    // The lock of a slot's words; after the slots it is that of the newest membership.
    pub(crate) fn words_lock(&self, slot: usize) -> Option<&WordsLock<S, R, C>>
        ensures { IfSome result (λ l. l.now.table.shared.key ≡ self.now) }
    {
        let _site = &self.site;
        self.words.get(slot)
    }

    // The words for readers of a generation of a slot.
    pub(crate) fn found_for<W: Wait>(
        &self,
        rt: &W,
        slot: usize,
        generation: u64,
    ) -> Option<Arc<Found<S, R, C>>>
        ensures { IsFoundOf self.now result }
    {
        let lock = self.words_lock(slot)?;
        let held = lock.take(rt);
        let found = held.value.of(generation);
        lock.put(held);
        found
    }

    // Has words for the readers of a generation that is built for a slot, if it is the newest one. It is for the thread that builds:
    // requests take what is there. Where memory is refused, they ask for each candidate.
    pub(crate) fn expect<W: Wait>(&self, rt: &W, slot: usize, generation: u64) {
        let Some(members) = self.members_of(rt, generation) else {
            return;
        };
        let Some(lock) = self.words_lock(slot) else {
            return;
        };
        let loads = self.loads.words(rt, self.alloc, generation, &members);
        let Some(found) = self.new_found(rt, generation, &members, loads) else {
            return;
        };
        let _board = &self.board;
        let mut pass = self.board.pass();
        let served = self.board.selector_generation_as(slot, &mut pass);
        let mut held = lock.take(rt);
        let unneeded = held.value.expect(found, served);
        lock.put(held);
        drop((members, unneeded));
    }

    // Returns the words of a generation that was built for a slot, which say now which of its backends are ready. It is for the thread that
    // publishes it then, so that requests needn't ask.
    pub(crate) fn note_built<W: Wait>(
        &self,
        rt: &W,
        slot: usize,
        generation: u64,
    ) -> Option<Arc<Found<S, R, C>>>
        ensures { IsFoundOf self.now result }
    {
        let found = self.found_for(rt, slot, generation)?;
        self.note_members(rt, &*found);
        Some(found)
    }

    // Words for readers of a generation with these members.
    pub(crate) fn new_found<W: Wait>(
        &self,
        rt: &W,
        generation: u64,
        members: &BTreeSet<Backend>,
        loads: Option<Arc<LoadWords>>,
    ) -> Option<Arc<Found<S, R, C>>>
        ensures { IsFoundOf self.now result }
    {
        let alloc = self.alloc;
        let site = &self.site;
        let registries: &HealthRegistry<R, C> = &*self.registry;
        let cells = cell_words_of(registries, rt, alloc, members.len()).ok()?;
        let found = Found::new(alloc, site, generation, members, cells, loads).ok()?;
        Arc::new(alloc, found).ok()
    }

    // The newest members, where they are those of this generation.
    pub(crate) fn members_of<W: Wait>(
        &self,
        rt: &W,
        generation: u64,
    ) -> Option<Arc<BTreeSet<Backend>>>
        ensures { IfSome result (λ m. WereNewest self.now (arc_value m).keys) }
    {
        let _gate = &self.gate;
        let held = self.lock.take(rt);
        held.value.founded();
        let members = self.newest_of(&held.value, generation);
        self.lock.put(held);
        members
    }

    // The newest members, where they are those of this generation. The caller has the group's lock.
    pub(crate) fn newest_of(
        &self,
        group: &Watched<S>,
        generation: u64,
    ) -> Option<Arc<BTreeSet<Backend>>>
        requires { IsState self.now.core group.now.core }
        ensures { IfSome result (λ m. WereNewest self.now (arc_value m).keys) }
    {
        newest_members(group.core(), generation)
    }

    // Whether a backend is ready for a reader of the words' generation: as its word says, and where none does, as group and registry say.
    #[inline]
    pub(crate) fn judge<W: Wait>(
        &self,
        rt: &W,
        found: &Found<S, R, C>,
        reader: &Reader<S>,
        backend: &Backend,
    ) -> bool
        requires found { (found.now.site ≡ self.now) × (found.now.generation ≡ reader.now.generation) }
        requires own { reader.now.group ≡ self.now.core.group.id }
        ensures { ReadyAt R.gives self.now reader.now.generation backend.now result }
    {
        let spread = spread_of(backend);
        match found.said(backend, spread) {
            Some(finding) if self.is_open() => finding.ready,
            _ => self.ask(rt, found, reader, backend),
        }
    }

    // Whether group and registry say that a backend is ready for a reader.
    pub(crate) fn ask_ready<W: Wait>(&self, rt: &W, reader: &Reader<S>, backend: &Backend) -> bool
        requires { reader.now.group ≡ self.now.core.group.id }
        ensures { ReadyUnder R.gives self.now reader.now backend.now result }
    {
        let registries: &HealthRegistry<R, C> = &*self.registry;
        let _gate = &self.gate;
        let held = self.lock.take(rt);
        held.value.founded();
        let cells = take_registry(registries, rt);
        let group = held.value.core();
        let ready = group.ready(reader, &cells.value, backend);
        put_registry(registries, cells);
        self.lock.put(held);
        ready
    }

    // Whether group and registry say that a backend is ready for a reader. The words say it from now on.
    #[cold]
    #[inline(never)]
    fn ask<W: Wait>(
        &self,
        rt: &W,
        found: &Found<S, R, C>,
        reader: &Reader<S>,
        backend: &Backend,
    ) -> bool
        requires found { (found.now.site ≡ self.now) × (found.now.generation ≡ reader.now.generation) }
        requires own { reader.now.group ≡ self.now.core.group.id }
        ensures { ReadyAt R.gives self.now reader.now.generation backend.now result }
    {
        let registries: &HealthRegistry<R, C> = &*self.registry;
        let _gate = &self.gate;
        let held = self.lock.take(rt);
        held.value.founded();
        let cells = take_registry(registries, rt);
        let group = held.value.core();
        let ready = group.ready(reader, &cells.value, backend);
        found.note(group, &cells.value, backend);
        put_registry(registries, cells);
        self.lock.put(held);
        ready
    }
}

// The members of a group's newest generation, where that is this one.
fn newest_members<S: BackendSelection>(
    group: &GroupCore<S>,
    generation: u64,
) -> Option<Arc<BTreeSet<Backend>>>
    ensures { IfSome result (λ m. After group.now (λ made e. (arc_value m).keys ≡ members_now e)) }
{
    if group.newest() == generation {
        group.get_backend().ok()
    } else {
        None
    }
}

// The words once more, where there are any.
pub(crate) fn again<S: BackendSelection, R: KeyRule + Drop, C>(
    found: &Option<Arc<Found<S, R, C>>>,
) -> Option<Arc<Found<S, R, C>>>
    ensures { (site : SharedValue S.Config R) → IsFoundOf site found.now → IsFoundOf site result }
{
    match found {
        Some(found) => Arc::try_clone(found).ok(),
        None => None,
    }
}

// The words, where they are of this generation.
fn found_of<S: BackendSelection, R: KeyRule + Drop, C>(
    found: &Option<Arc<Found<S, R, C>>>,
    generation: u64,
) -> Option<Arc<Found<S, R, C>>>
    ensures { (site : SharedValue S.Config R) → IsFoundOf site found.now → IsFoundOf site result }
{
    match found {
        Some(found) => {
            if found.generation == generation {
                Arc::try_clone(found).ok()
            } else {
                None
            }
        }
        None => None,
    }
}
