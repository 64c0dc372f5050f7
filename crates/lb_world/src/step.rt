//! The steps that a world takes, one for each kind of script line.
//! Registries, gates, groups and readers are named by numbers, from 0 in the order in which they were made, each kind by itself.
use lb_select_base::backend::Backend;

/// The rule by which the backends of a registry share a cell.
#[derive(Clone, Copy, Debug, PartialEq, Eq)]
pub enum CellKey {
    /// The identity of a backend: address and weight.
    Identity,
    /// The address alone.
    Address,
}

/// A backend of an update, and how it is marked.
#[derive(Drop)]
pub struct Listing {
    /// The backend, or `None` where its address was refused.
    pub backend: Option<Backend>,
    /// Whether the backend is marked as enabled or disabled, or not at all.
    pub mark: Option<bool>,
}

/// One step of a world whose selectors are configured by values of `C`. Moments are nanoseconds; a backend is `None` where its
/// address was refused.
#[derive(Drop)]
pub enum Step<C: Drop> {
    /// Makes a registry by that rule, whose cells start healthy or not. Refused for memory alone.
    Registry {
        rule: CellKey,
        healthy: bool,
    },
    /// Makes a gate. Refused for memory alone.
    Gate,
    /// Makes a group over that registry and that gate, with a slot for each configuration. Refused where the registry or the
    /// gate isn't there, where a selector over no backend can't be built, and where no number is left for a view.
    Group {
        registry: u64,
        gate: u64,
        configs: Vec<C>,
    },
    /// Updates a group to these backends, then sets the flags of the marked ones. Of two backends of one identity the first stays,
    /// and the last mark counts.
    Update {
        group: u64,
        now: u128,
        listings: Vec<Listing>,
    },
    /// Asks for a build of the group's newest generation in a slot.
    Ask {
        group: u64,
        slot: usize,
        now: u128,
    },
    /// Runs the build that was granted.
    Build {
        group: u64,
        slot: usize,
        now: u128,
    },
    /// Has the build that was granted fail.
    FailBuild {
        group: u64,
        slot: usize,
        now: u128,
    },
    /// Loses the worker of a slot's flight: what it builds will not be served.
    Lost {
        group: u64,
        slot: usize,
    },
    /// Serves what was built, and retires what was served.
    Publish {
        group: u64,
        slot: usize,
    },
    /// Retires what was built, unserved.
    Abandon {
        group: u64,
        slot: usize,
    },
    /// Enters what a slot serves, as a reader.
    Enter {
        group: u64,
        slot: usize,
    },
    /// Asks whether a backend is ready in the generation that a reader reads.
    Ready {
        reader: u64,
        backend: Option<Backend>,
    },
    /// Lets a reader leave.
    Leave {
        reader: u64,
    },
    /// Destroys what a slot retired, once no reader is in it, and reports it.
    Destroy {
        group: u64,
        slot: usize,
    },
    /// Selects a backend for `key` among the first `limit` candidates. `words` are the random words that the walk may draw:
    /// more than `limit` of them where the selector draws at random, else none is needed.
    Select {
        group: u64,
        slot: usize,
        key: Vec<u8>,
        limit: usize,
        words: Vec<u64>,
    },
    /// Gives a cell the verdict of a check, with the threshold that holds for it.
    Verdict {
        registry: u64,
        cell: u64,
        ok: bool,
        threshold: usize,
    },
    /// Enables a backend in a group.
    Enable {
        group: u64,
        backend: Option<Backend>,
    },
    /// Disables a backend in a group.
    Disable {
        group: u64,
        backend: Option<Backend>,
    },
    /// Stops the rebuilds of a group for good.
    Cancel {
        group: u64,
    },
    /// Lists the targets of a registry.
    Targets {
        registry: u64,
    },
    /// Returns the numbers of a slot.
    Counts {
        group: u64,
        slot: usize,
    },
    /// Returns the timing of a slot's last publication.
    Timing {
        group: u64,
        slot: usize,
    },
    /// Sets the load of a backend in a group, as selectors by least connections read it.
    Load {
        group: u64,
        backend: Option<Backend>,
        load: u64,
    },
}
