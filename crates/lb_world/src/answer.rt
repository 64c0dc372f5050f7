//! The answers of a world to its steps. Some answers contain a number more than a script prints: a reader's generation, a selection's
//! counter of tickets. A refused step has changed nothing; a selection that is refused for memory may have drawn tickets.
use lb_health_core::targets::Target;
use lb_rebuild_core::answers;
use lb_select_base::backend::Backend;
use lb_select_base::refusal::Refusal;
use std::marker::Model;

/// The numbers of a slot.
#[derive(Clone, Copy, Debug, PartialEq, Eq)]
pub struct SlotCounts {
    /// The newest generation of its group.
    pub newest: u64,
    /// The generation that it serves.
    pub served: u64,
    /// The generation that is in flight.
    pub flight: Option<u64>,
    /// Whether it waits: neither what it serves nor what is in flight is of the newest generation.
    pub waiting: bool,
    /// Its counts since its group was made.
    pub counts: answers::Counts,
}

/// The targets of a registry, in their order. Contracts see the list.
#[derive(Debug, Drop)]
pub struct TargetList {
    /// The targets.
    pub targets: Vec<Target>,
}

impl Model for TargetList {
    ghost use Rattle.std.specs.Prelude.{List};
    ghost use Rattle.lb_health_core.specs.declared.targets.Target.{Target};

    ghost Value = { List Target };

    ghost view = { λ l. l.targets.items };
}

/// The answer to a step.
#[derive(Drop)]
pub enum Answer {
    /// The number of the registry that was made.
    Registry(u64),
    /// The number of the gate that was made.
    Gate(u64),
    /// The number of the group that was made.
    Group(u64),
    /// The update changed the membership: the generation that is the newest now.
    Generation(u64),
    /// The update left the membership: the generation that is the newest still.
    Same(u64),
    /// A build of that generation was granted.
    Build(u64),
    /// The gate is not free.
    Busy,
    /// Builds of the newest generation failed; the next one is due at this moment.
    Wait(u128),
    /// The slot serves the newest generation.
    Idle,
    /// A build is in flight already.
    Building,
    /// The group is cancelled: of an ask, and of the cancellation itself.
    Cancelled,
    /// A selector of that generation was built.
    Built(u64),
    /// The build of that generation failed, for that reason.
    BuildFailed(u64, Refusal),
    /// The build of that generation failed by order.
    Failed(u64),
    /// The flight of that generation was lost.
    Lost(u64),
    /// That generation is served now.
    Published(u64),
    /// What was built of that generation is retired unserved.
    Abandoned(u64),
    /// The number of the reader that entered, and the generation that it reads.
    Reader(u64, u64),
    /// Whether the backend is ready in the generation that the reader reads.
    Ready(bool),
    /// The reader has left that generation.
    Left(u64),
    /// The retired selector was destroyed.
    Destroyed,
    /// The backend that was selected, and the counter of tickets.
    Backend(Backend, u64),
    /// No backend was selected; the counter of tickets.
    NoBackend(u64),
    /// The selection was refused for memory; the counter of tickets.
    NotSelected(u64),
    /// Whether the verdict flipped the health of its cell.
    Flipped(bool),
    /// The flag or the load was set.
    Done,
    /// The targets of the registry.
    Targets(TargetList),
    /// The numbers of the slot.
    Numbers(SlotCounts),
    /// The timing of the slot's last publication, if any.
    Timed(Option<answers::Timing>),
    /// The step was refused.
    Refused(Refusal),
}
