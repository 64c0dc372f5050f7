//! A group that threads share, behind a lock of its own.
//! Locks are taken in the order update, group, registry, gate, and but for that of an update none is held between two calls. The timing of
//! the last update has a lock of its own, which is held for one read or one write, and no other lock is taken under it.
ghost use Rattle.std.specs.Prelude.{◌≡◌, ◌+◌, All, IfErr, IfOk, length};
ghost use Rattle.std.specs.Arc.{arc_value};
ghost use Rattle.lb_threads_group.specs.Group.{UpdatedUnder};
ghost use Rattle.lb_threads_group.specs.Shared.{IsSame};

use crate::found::{SlotWords, WordsLock};
use crate::kept::{Site, SlotLanes};
use crate::newest::Newest;
use crate::noting::Noting;
use crate::numbers::{GroupNumbers, numbers_of};
use crate::port::LockedPort;
use lb_balancer_core::timings::UpdateTimings;
use lb_balancer_core::update::update_through;
use lb_health_core::health_check::{BoxedCheck, HealthCheck};
use lb_health_core::keys::{KeyRule, Rule};
use lb_health_view::discovery::ServiceDiscovery;
use lb_rebuild::board::Board;
use lb_rebuild::watched::Watched;
use lb_rebuild_core::group::GroupCore;
use lb_select_base::backend::Backend;
use lb_select_base::moments::MomentSource;
use lb_select_base::refusal::Refusal;
use lb_select_base::walk::BackendSelection;
use lb_threads_core::gate::SelectorRebuildGate;
use lb_threads_core::generators::SharedGenerator;
use lb_threads_core::keyed::NoRule;
use lb_threads_core::lanes::Lanes;
use lb_threads_core::loads::SharedLoads;
use lb_threads_core::lock::KeyedLock;
use lb_threads_core::registry::{HealthRegistry, put_registry, take_registry};
use lb_threads_core::rule::LockRule;
use lb_threads_core::wakes::Wakes;
use rand_core::Rng;
use rand_pcg::Pcg64;
use std::alloc::Global;
use std::marker::Model;
use std::snapshot::Snapshot;
use std::sync::atomic::Ordering::SeqCst;
use std::sync::atomic::{AtomicBool, AtomicU64};
use std::sync::{Arc, Mutex, Wait};

// The number of lanes of a slot, a power of two, half of them on each side: many more than the threads that select at once, so that few
// meet in one.
const LANES: usize = 256;

// The number of lanes of the newest membership's words.
const NEWEST_LANES: usize = 32;

/// The group under the lock is the one that the lock was made with, on the same board: its identity, its gate, its registry and its
/// configurations stay.
pub struct OfGroup {}

impl<S: BackendSelection> LockRule<Watched<S>, Snapshot<Watched<S>>> for OfGroup {
    ghost holds = { λ key group. IsSame key.value group };
}

// What threads share of a slot, outside the group's lock.
#[derive(Drop)]
struct SlotCounters {
    // How many tickets were drawn for those of the slot's readers for whose generation there are no words, wrapping.
    tickets: AtomicU64,
    has_worker: AtomicBool,
    // How many readers must leave the retired selector before the worker that found it read can take it out; 0 where none waits. It is
    // read and written under the group's lock alone.
    awaited_readers: AtomicU64,
}

// What threads note of a group outside its lock.
#[derive(Drop)]
pub(crate) struct Marks {
    // Whether only workers use the group now.
    let_go: AtomicBool,
    // How many threads asked for lanes of their own, wrapping.
    pub(crate) readers: AtomicU64,
}

// What threads go by outside the group's lock: the counters, the lanes and the words of the slots, the lanes of the newest membership,
// and the numbers.
struct Places<S: BackendSelection, R: KeyRule + Drop, C> {
    lines: Vec<SlotCounters>,
    lanes: Vec<SlotLanes<S, R, C>>,
    words: Vec<WordsLock<S, R, C>>,
    newest: Lanes<Newest<S, R, C>>,
    numbers: GroupNumbers<S>,
}

/// A group behind a lock, with its registry and its gate, which other groups may share, and its board outside the lock. Contracts see the
/// board, the group as it was made (which one it is, its gate and its configurations), and the registry as it was made.
pub struct SharedGroup<S: BackendSelection, R: KeyRule + Drop = Rule<NoRule>, C = BoxedCheck> {
    pub(crate) lock: KeyedLock<Watched<S>, Snapshot<Watched<S>>, OfGroup>,
    pub(crate) board: Arc<Board>,
    pub(crate) registry: Arc<HealthRegistry<R, C>>,
    pub(crate) gate: Arc<SelectorRebuildGate>,
    pub(crate) loads: SharedLoads,
    // Held by an update from its discovery to its end, so that the timing is that of the last one.
    updates: Mutex<()>,
    timing: Mutex<Option<UpdateTimings>>,
    lines: Vec<SlotCounters>,
    pub(crate) marks: Marks,
    // Whose readers the lanes have, and the lanes of each slot.
    pub(crate) site: Site<S, R, C>,
    pub(crate) lanes: Vec<SlotLanes<S, R, C>>,
    // For the words of a generation.
    pub(crate) alloc: Global,
    // The words of each slot, and after them those of the newest membership, which have lanes of their own.
    pub(crate) words: Vec<WordsLock<S, R, C>>,
    pub(crate) newest: Lanes<Newest<S, R, C>>,
    // Seeded those of the lanes; its own words are for who reads no lane.
    pub(crate) generator: SharedGenerator,
    // What readings load.
    pub(crate) numbers: GroupNumbers<S>,
}

impl<S: BackendSelection, R: KeyRule + Drop, C: Drop> Drop for SharedGroup<S, R, C> {
    fn drop(self) {
        let SharedGroup {
            lock: _,
            board: _,
            registry: _,
            gate: _,
            loads: _,
            updates: _,
            timing: _,
            lines: _,
            marks: _,
            site: _,
            lanes: _,
            alloc: _,
            words: _,
            newest: _,
            generator: _,
            numbers: _,
        } = self;
    }
}

impl<S: BackendSelection, R: KeyRule + Drop, C> Model for SharedGroup<S, R, C> {
    ghost use Rattle.std.specs.Prelude.{◌≡◌, ◌+◌, All, length};
    ghost use Rattle.std.specs.Arc.{arc_value};
    ghost use Rattle.lb_threads_group.specs.Shared.{SharedValue};

    ghost Value = { SharedValue S.Config R };

    ghost view = { λ g. record {
      board = arc_value g.board;
      core = g.lock.table.shared.key.value.core;
      registry = (arc_value g.registry).start;
    } };

    ghost invariant = { λ g. ((arc_value g.gate).id ≡ g.lock.table.shared.key.value.core.group.gate)
        × ((arc_value g.registry).start.id ≡ g.lock.table.shared.key.value.core.registry)
        × (g.lock.table.shared.key.value.board ≡ arc_value g.board)
        × ((arc_value g.board).words ≡ length g.lines.items + 1)
        × (g.site ≡ record {
          board = arc_value g.board;
          core = g.lock.table.shared.key.value.core;
          registry = (arc_value g.registry).start;
        })
        × All (λ l. All (λ lane. lane.slot ≡ g.site) l.lanes.items) g.lanes.items
        × All (λ f. f.table.shared.key ≡ g.site) g.words.items
        × (g.numbers.words.table.shared.key ≡ g.lock.table.shared.key)
        × All (λ lane. lane.slot ≡ g.site) g.newest.lanes.items };
}

impl<S: BackendSelection, R: KeyRule + Drop, C: HealthCheck + Drop> SharedGroup<S, R, C> {
    /// Returns this group, for threads, on a board of its own.
    ///
    /// Each lane has random words of its own. Those of this generator seed them, and are for passes and for who enters under the lock. All
    /// loads are 0.
    ///
    /// # Errors
    ///
    /// `OutOfMemory` where memory is refused.
    pub fn new(
        alloc: Global,
        core: GroupCore<S>,
        registry: Arc<HealthRegistry<R, C>>,
        gate: Arc<SelectorRebuildGate>,
        generator: Pcg64,
    ) -> Result<SharedGroup<S, R, C>, Refusal>
        requires gate { (arc_value gate).id ≡ core.group.gate }
        requires registry { (arc_value registry).start.id ≡ core.registry }
        ensures made { IfOk result (λ g. (g.core ≡ core) × (g.registry ≡ (arc_value registry).start)) }
        ensures words { IfOk result (λ g. g.board.words ≡ length core.group.slots + 1) }
        ensures refused { IfErr result (λ e. e ≡ Refusal.OutOfMemory) }
    {
        let (watched, board) = Watched::new(alloc, core)?;
        let key = Snapshot::of(&watched);
        let site = Site::of(&watched, &*registry);
        let lock = KeyedLock::new(alloc, watched, &key)?;
        let mut seeds = generator;
        let generator = SharedGenerator::new(seeds.next_u64());
        let Places {
            lines,
            lanes,
            words,
            newest,
            numbers,
        } = places_of(alloc, board.word_count() - 1, &site, &key, &generator)?;
        Ok(SharedGroup {
            lock,
            board,
            registry,
            gate,
            loads: SharedLoads::new(alloc),
            updates: Mutex::new(()),
            timing: Mutex::new(None),
            lines,
            marks: Marks {
                let_go: AtomicBool::new(false),
                readers: AtomicU64::new(0),
            },
            site,
            lanes,
            alloc,
            words,
            newest,
            generator,
            numbers,
        })
    }

    /// Stops the rebuilds for good, and marks the group's view for removal. It takes no memory.
    ///
    /// Selections and readings go on as before: what the slots serve, and the newest membership, keep their cells.
    pub fn cancel<W: Wait>(&self, rt: &W) {
        // `_gate`, `_board` and `founded()` are for the prover alone: they show it the group's invariant, and do nothing at run time.
        let _gate = &self.gate;
        let registries: &HealthRegistry<R, C> = &*self.registry;
        let mut held = self.lock.take(rt);
        let mut registry = take_registry(registries, rt);
        held.value.cancel(&mut registry.value);
        put_registry(registries, registry);
        self.lock.put(held);
        self.gate.wakes().wake();
    }

    /// Has workers cancel the group at their next turn. It takes no lock and no memory.
    pub fn let_go(&self) {
        self.marks.let_go.store(true, SeqCst);
        self.gate.wakes().wake();
    }

    // Whether selections go by lanes and words. Once `let_go` was called they don't, since the registry's next call releases the cells.
    #[inline]
    pub(crate) fn is_open(&self) -> bool {
        !self.is_let_go()
    }

    /// Returns whether `let_go` was called.
    pub fn is_let_go(&self) -> bool {
        self.marks.let_go.load(SeqCst)
    }

    /// Returns what wakes the workers of the group.
    pub fn wakes(&self) -> &Wakes {
        (*self.gate).wakes()
    }

    /// Returns how many slots there are.
    ///
    /// The board has a word for each, and one more for the newest generation.
    pub fn slot_count(&self) -> usize
        ensures { self.now.board.words ≡ result + 1 }
    {
        let _board = &self.board;
        self.lines.len()
    }

    /// Returns how many slots have a worker now.
    pub fn worker_count(&self) -> usize {
        let mut count: usize = 0;
        for line in self.lines.as_slice() {
            if line.has_worker.load(SeqCst) {
                count = count.saturating_add(1);
            }
        }
        count
    }

    // Returns the next ticket for readers of a slot for whose generation memory for words was refused. It goes on where the slot serves
    // another selector; else each selector has a counter of its own, with its words.
    pub(crate) fn ticket(&self, slot: usize) -> u64 {
        match self.lines.get(slot) {
            Some(line) => line.tickets.fetch_add(1, SeqCst),
            None => 0,
        }
    }

    /// Takes a slot for a worker, and returns whether it had none.
    ///
    /// `leave_slot` ends it. It takes no lock and no memory.
    pub fn claim_slot(&self, slot: usize) -> bool {
        match self.lines.get(slot) {
            Some(line) => !line.has_worker.swap(true, SeqCst),
            None => false,
        }
    }

    /// Frees the slot that `claim_slot` took.
    pub fn leave_slot(&self, slot: usize) {
        if let Some(line) = self.lines.get(slot) {
            line.has_worker.store(false, SeqCst);
        }
    }

    // Notes how many readers a retired selector of a slot still has. The caller holds the group's lock.
    pub(crate) fn await_readers(&self, slot: usize, readers: u64) {
        if let Some(line) = self.lines.get(slot) {
            line.awaited_readers.store(readers, SeqCst);
        }
    }

    // Returns whether the reader that leaves is the last of those for whom a worker waits: it left, and the selector that it was in is
    // retired. The caller holds the group's lock.
    pub(crate) fn has_last_left(&self, slot: usize, is_retired: bool, has_left: bool) -> bool {
        if !is_retired || !has_left {
            return false;
        }
        let Some(line) = self.lines.get(slot) else {
            return false;
        };
        let readers = line.awaited_readers.load(SeqCst);
        line.awaited_readers
            .store(readers.saturating_sub(1), SeqCst);
        readers == 1
    }

    // Wakes the workers, or does nothing.
    pub(crate) fn wake_if(&self, is_due: bool) {
        if is_due {
            self.wakes().wake();
        }
    }

    // Returns whether a build of a slot is under way, by any thread.
    pub(crate) fn is_building<W: Wait>(&self, rt: &W, slot: usize) -> bool {
        let _gate = &self.gate;
        let held = self.lock.take(rt);
        let flight = held.value.core().flight(slot);
        self.lock.put(held);
        matches!(flight, Some(Some(_)))
    }

    /// Discovers, and makes what was discovered the newest membership. Returns the newest generation after it.
    ///
    /// One update runs at a time. The discovery runs under the lock of updates alone. An accepted update notes how long it took.
    ///
    /// # Errors
    ///
    /// Those of `update_through`; the timing is then as before.
    pub fn update<W: Wait, D: ServiceDiscovery, K: MomentSource>(
        &self,
        rt: &W,
        alloc: Global,
        discovery: &D,
        clock: &mut K,
    ) -> Result<u64, Refusal>
        ensures { UpdatedUnder R.gives K.reads D.finds discovery.now clock.old self.now result clock.new }
    {
        let turn = self.updates.lock(rt);
        let mut noting = Noting {
            clock,
            first: None,
            last: 0,
        };
        let told = self.update_noting(rt, alloc, discovery, &mut noting);
        if told.is_ok() {
            *self.timing.lock(rt) = Some(noting.timings());
        }
        drop(turn);
        told
    }

    // Updates by a clock that notes its readings, which are those of the clock that it borrows.
    fn update_noting<'c, W: Wait, D: ServiceDiscovery, K: MomentSource>(
        &self,
        rt: &W,
        alloc: Global,
        discovery: &D,
        noting: &mut Noting<'c, K>,
    ) -> Result<u64, Refusal>
        ensures updated { UpdatedUnder R.gives K.reads D.finds discovery.now noting.old.clock.now self.now result noting.new.clock.now }
        ensures same_reference { noting.new.clock.ghost_name ≡ noting.old.clock.ghost_name }
    {
        let mut port = LockedPort {
            group: self,
            rt,
            found: self.no_words(),
            generator: &self.generator,
        };
        update_on(alloc, &mut port, discovery, noting)
    }

    /// Returns how long the last accepted update took, from its first reading of the clock to its last one; `None` before the first.
    ///
    /// It doesn't wait for an update that is under way.
    pub fn last_update_timing<W: Wait>(&self, rt: &W) -> Option<UpdateTimings> {
        *self.timing.lock(rt)
    }

    /// Sets the load of a backend's identity, for all slots.
    ///
    /// Refused `OutOfMemory` where memory is refused; nothing is set then.
    pub fn set_load<W: Wait>(
        &self,
        rt: &W,
        alloc: Global,
        backend: &Backend,
        load: u64,
    ) -> Result<(), Refusal>
        ensures { IfErr result (λ e. e ≡ Refusal.OutOfMemory) }
    {
        let _gate = &self.gate;
        self.loads.set(rt, alloc, backend, load)
    }
}

// The places of a group of so many slots, of which nothing is noted yet.
fn places_of<S: BackendSelection, R: KeyRule + Drop, C>(
    alloc: Global,
    slots: usize,
    site: &Site<S, R, C>,
    group: &Snapshot<Watched<S>>,
    seeds: &SharedGenerator,
) -> Result<Places<S, R, C>, Refusal>
    ensures count { IfOk result (λ p. length p.lines.items ≡ slots) }
    ensures lanes { IfOk result (λ p. All (λ l. All (λ lane. lane.slot ≡ site.now) l.lanes.items) p.lanes.items) }
    ensures words { IfOk result (λ p. All (λ f. f.table.shared.key ≡ site.now) p.words.items) }
    ensures newest { IfOk result (λ p. All (λ lane. lane.slot ≡ site.now) p.newest.lanes.items) }
    ensures numbers { IfOk result (λ p. p.numbers.words.table.shared.key ≡ group.now) }
    ensures refused { IfErr result (λ e. e ≡ Refusal.OutOfMemory) }
{
    let lines = lines_of(alloc, slots)?;
    let lanes = lanes_of(alloc, slots, site, seeds)?;
    // After the words of the slots come those of the newest membership.
    let words = words_of(alloc, slots.saturating_add(1), site)?;
    let newest = Lanes::new(alloc, NEWEST_LANES, site, seeds)?;
    let numbers = numbers_of(alloc, slots, group)?;
    Ok(Places {
        lines,
        lanes,
        words,
        newest,
        numbers,
    })
}

// The counters of so many slots.
fn lines_of(alloc: Global, slots: usize) -> Result<Vec<SlotCounters>, Refusal>
    ensures count { IfOk result (λ l. length l.items ≡ slots) }
    ensures refused { IfErr result (λ e. e ≡ Refusal.OutOfMemory) }
{
    let mut lines = Vec::new(alloc);
    for _ in 0..slots {
        lines.push(SlotCounters {
            tickets: AtomicU64::new(0),
            has_worker: AtomicBool::new(false),
            awaited_readers: AtomicU64::new(0),
        })?;
    }
    Ok(lines)
}

// Empty lanes for so many slots.
fn lanes_of<S: BackendSelection, R: KeyRule + Drop, C>(
    alloc: Global,
    slots: usize,
    site: &Site<S, R, C>,
    seeds: &SharedGenerator,
) -> Result<Vec<SlotLanes<S, R, C>>, Refusal>
    ensures keyed { IfOk result (λ l. All (λ s. All (λ lane. lane.slot ≡ site.now) s.lanes.items) l.items) }
    ensures refused { IfErr result (λ e. e ≡ Refusal.OutOfMemory) }
{
    let mut lanes = Vec::new(alloc);
    for _ in 0..slots {
        lanes.push(Lanes::new(alloc, LANES, site, seeds)?)?;
    }
    Ok(lanes)
}

// Locks of words for so many slots, which have none yet.
fn words_of<S: BackendSelection, R: KeyRule + Drop, C>(
    alloc: Global,
    slots: usize,
    site: &Site<S, R, C>,
) -> Result<Vec<WordsLock<S, R, C>>, Refusal>
    ensures keyed { IfOk result (λ l. All (λ f. f.table.shared.key ≡ site.now) l.items) }
    ensures refused { IfErr result (λ e. e ≡ Refusal.OutOfMemory) }
{
    let mut words = Vec::new(alloc);
    for _ in 0..slots {
        words.push(KeyedLock::new(alloc, SlotWords::none(), site)?)?;
    }
    Ok(words)
}

fn update_on<
    'g,
    'r,
    'f,
    S: BackendSelection,
    R: KeyRule + Drop,
    C: HealthCheck + Drop,
    W: Wait,
    D: ServiceDiscovery,
    K: MomentSource,
>(
    alloc: Global,
    port: &mut LockedPort<'g, 'r, 'f, S, W, R, C>,
    discovery: &D,
    clock: &mut K,
) -> Result<u64, Refusal>
    ensures { UpdatedUnder R.gives K.reads D.finds discovery.now clock.old port.old.group.now result clock.new }
{
    update_through(alloc, port, discovery, clock)
}
