//! What tests and the soak do with a group and with its handle, as traits. A function that is generic over them has none of the group's own
//! types: each function that has these takes the checker some seconds more. So the traits are implemented once, and a table of cases is
//! played by one function that is given the group.
ghost use Rattle.std.specs.Prelude.{◌≡◌, IfOk};
ghost use Rattle.lb_rebuild.specs.Pass.{BoardId};

use lb_balancer_core::timings::UpdateTimings;
use lb_balancer_core::turn::Turn;
use lb_health_view::discovery::{DiscoverySource, Static};
use lb_rebuild::board::GroupPass;
use lb_rebuild_core::answers::{Counts, Timing};
use lb_select_base::backend::Backend;
use lb_select_base::moments::MomentSource;
use lb_select_base::refusal::Refusal;
use log::Log;
use std::alloc::Global;
use std::collections::BTreeSet;
use std::sync::{Arc, Wait};

/// A group that has workers.
pub trait HasWorkers {
    /// Returns how many slots have a worker now.
    fn worker_count(&self) -> usize;
}

/// What was read of a group and of one of its slots.
#[derive(Clone, Copy, Debug, PartialEq, Eq)]
pub struct Readings {
    pub is_cancelled: bool,
    /// Whether its handle was dropped.
    pub is_let_go: bool,
    pub counts: Option<Counts>,
    pub timing: Option<Option<Timing>>,
    /// How often its gate has woken sleepers.
    pub wakes: u64,
}

/// A call of a group that threads share.
pub enum Call<'c> {
    Update(&'c DiscoverySource<Static>),
    /// An update by a port, so that no call of the group's own follows the schedule.
    Schedule(&'c DiscoverySource<Static>),
    Turn(usize),
    /// Destroys what a slot retired, and reports it.
    Destroy(usize),
    LeaveSlot(usize),
    Ready(&'c Backend),
    SetEnable(&'c Backend, bool),
    Members,
    Newest,
    Served(usize),
    Read(usize),
    /// Starts a worker for each slot that has none, of which the first can't be started, and the others are only said to be.
    StartAllButOne,
    /// Notes that the group's handle is gone.
    LetGo,
    Cancel,
}

/// What a call answers.
#[derive(Drop)]
pub enum Answer {
    Generation(Result<u64, Refusal>),
    Turn(Result<Turn, Refusal>),
    Done(Result<(), Refusal>),
    Ready(bool),
    Members(Result<Arc<BTreeSet<Backend>>, Refusal>),
    Newest(u64),
    Served(Option<u64>),
    Readings(Readings),
    /// How many workers couldn't be started.
    Missing(usize),
}

/// A group that threads share. It has few methods: each takes some seconds where a function is given the group.
pub trait AskedGroup: HasWorkers {
    /// Makes a call, by this clock where it takes one.
    fn ask<W: Wait, K: MomentSource>(
        &self,
        rt: &W,
        alloc: Global,
        call: Call<'_>,
        clock: &mut K,
    ) -> Answer;

    /// Works for a slot until the group is cancelled. Returns whether this was its worker.
    fn work<W: Log + Wait, K: MomentSource>(
        &self,
        rt: &W,
        alloc: Global,
        slot: usize,
        clock: &mut K,
    ) -> bool;

    /// Returns the first backend of a slot that `accept` takes, for the key `k` among four candidates.
    ///
    /// # Errors
    ///
    /// Those of `SharedGroup::select_with`.
    fn select_with<W: Wait, F: Fn(&Backend, bool) -> bool>(
        &self,
        rt: &W,
        alloc: Global,
        slot: usize,
        accept: &F,
    ) -> Result<Option<Backend>, Refusal>
        requires { F.IsAlwaysCallable accept.now };
}

/// A group, or its handle, with passes over it.
pub trait ByPasses {
    // The board that its passes read.
    ghost board: { Self → BoardId };

    /// Returns a new pass.
    fn pass(&self) -> GroupPass
        ensures { result.board ≡ board self.now };

    /// Joins what two passes have seen.
    fn meet<W: Wait>(&self, rt: &W, pass: &mut GroupPass, other: &mut GroupPass)
        requires pass { pass.old.board ≡ board self.now }
        requires other { other.old.board ≡ board self.now }
        ensures pass { pass.new.board ≡ board self.now }
        ensures other { other.new.board ≡ board self.now };
}

/// A group that threads share, with passes over it.
pub trait GroupByPasses: AskedGroup + ByPasses {
    /// Returns the newest generation, and what a slot serves, which is read before it.
    fn reads(&self, slot: usize, pass: &mut GroupPass) -> (u64, Option<u64>)
        requires { pass.old.board ≡ Self.board self.now }
        ensures { pass.new.board ≡ Self.board self.now };

    /// Updates the group to what is found, and has the pass see the newest generation, which is returned.
    ///
    /// # Errors
    ///
    /// Those of `SharedGroup::update`.
    fn update_as<W: Wait, K: MomentSource>(
        &self,
        rt: &W,
        alloc: Global,
        found: &DiscoverySource<Static>,
        clock: &mut K,
        pass: &mut GroupPass,
    ) -> Result<u64, Refusal>
        requires { pass.old.board ≡ Self.board self.now }
        ensures { pass.new.board ≡ Self.board self.now };
}

/// A group that threads share, with readers that enter its slots.
pub trait GroupWithReaders: AskedGroup {
    /// A reader of what a slot serves.
    type Reader;

    // Which readers are its own.
    ghost owns: { Self → Self.Reader → Type 0 };

    /// Enters the selector that a slot serves, by a new pass.
    ///
    /// # Errors
    ///
    /// Those of `SharedGroup::enter_as`. No reader has entered then.
    fn enter<W: Wait>(&self, rt: &W, slot: usize) -> Result<Self::Reader, Refusal>
        ensures { IfOk result (λ r. owns self.now r) };

    /// Returns the first of so many candidates of the selector that a reader is in.
    ///
    /// # Errors
    ///
    /// `OutOfMemory` where memory is refused.
    fn select_in<W: Wait>(
        &self,
        rt: &W,
        alloc: Global,
        reader: &Self::Reader,
        key: &[u8],
        max_iterations: usize,
    ) -> Result<Option<Backend>, Refusal>;

    /// Gives an entry back to its slot.
    fn leave<W: Wait>(&self, rt: &W, reader: Self::Reader)
        requires { owns self.now reader };
}

/// What was read of a handle and of one of its slots.
#[derive(Clone, Copy, Debug, PartialEq, Eq)]
pub struct HandleReadings {
    pub selector_count: usize,
    pub is_cancelled: bool,
    pub coalesced: Option<u64>,
    pub failed: Option<u64>,
    pub timing: Option<UpdateTimings>,
    pub worker_count: usize,
    /// Whether the slot has a timing.
    pub is_timed: bool,
}

/// A call of the backends that a handle lends.
#[derive(Clone, Copy)]
pub enum BackendsCall<'c> {
    SetEnable(&'c Backend, bool),
    Ready(&'c Backend),
    /// The newest membership.
    Members,
    /// The newest generation.
    Newest,
}

/// A call of a group's handle.
#[derive(Clone, Copy)]
pub enum HandleCall<'c> {
    Update,
    Select(usize, &'c [u8]),
    /// A selection by a new reader of the handle.
    SelectByReader(usize, &'c [u8]),
    SetLoad(&'c Backend, u64),
    OfBackends(BackendsCall<'c>),
    Newest,
    Served(usize),
    /// Whether each slot serves that generation or a later one.
    AreReadyFor(u64),
    Read(usize),
    Cancel,
}

/// What a call of a handle answers.
#[derive(Drop)]
pub enum HandleAnswer {
    Generation(Result<u64, Refusal>),
    Selected(Result<Option<Backend>, Refusal>),
    Done(Result<(), Refusal>),
    Ready(bool),
    Members(Result<Arc<BTreeSet<Backend>>, Refusal>),
    Newest(u64),
    Served(Option<u64>),
    Readings(HandleReadings),
}

/// The handle of a group.
pub trait AskedHandle {
    /// Makes a call, by this clock where it takes one. A selection looks at four candidates.
    fn ask<W: Wait, K: MomentSource>(
        &self,
        rt: &W,
        alloc: Global,
        call: HandleCall<'_>,
        clock: &mut K,
    ) -> HandleAnswer;
}

/// A call of a group's handle that goes with a pass.
#[derive(Clone, Copy)]
pub enum HandlePassCall {
    /// Updates the group, and has the pass see the newest generation, which is returned.
    Update,
    /// The newest generation, and what a slot serves, which is read before it.
    Read(usize),
    /// Whether each slot serves that generation or a later one, as the pass reads it.
    AreReadyFor(u64),
    /// Enters slot 0 as a reader, selects by it and leaves; the generation that it entered, and its first candidate.
    Visit,
}

/// What a call of a handle that goes with a pass answers.
#[derive(Drop)]
pub enum HandlePassAnswer {
    Generation(Result<u64, Refusal>),
    Read(u64, Option<u64>),
    Ready(bool),
    Visited(Result<(u64, Option<Backend>), Refusal>),
}

/// The handle of a group, with passes.
pub trait HandleByPasses: AskedHandle + ByPasses {
    /// Makes a call that goes with a pass, by this clock where it takes one.
    fn ask_as<W: Wait, K: MomentSource>(
        &self,
        rt: &W,
        alloc: Global,
        call: HandlePassCall,
        clock: &mut K,
        pass: &mut GroupPass,
    ) -> HandlePassAnswer
        requires { pass.old.board ≡ Self.board self.now }
        ensures { pass.new.board ≡ Self.board self.now };
}
