//! The answers of a group's calls: to an ask, to a built selector, to a selection, and the numbers of a slot. Moments and spans are in
//! nanoseconds.
use crate::job::Job;
use lb_select_base::backend::Backend;
use lb_select_base::refusal::Refusal;
use lb_select_base::walk::BackendSelection;

/// What a slot that is asked for its next build returns. The answer contains a job where there is one, so it cannot be dropped.
pub enum Ask<S: BackendSelection> {
    /// The group is cancelled; there will be no builds any more.
    Cancelled,
    /// A build of the slot is in flight.
    Building,
    /// The slot serves the newest generation.
    Nothing,
    /// Builds of the newest generation failed; the next one is due at this moment.
    NotDue(u128),
    /// The gate's permit is out, or the slot still has a lost flight or a selector that is not reported destroyed.
    Busy,
    /// The slot's build of the newest generation. The slot has the permit.
    Job(Job<S>),
}

/// What became of a selector that was built.
#[derive(Clone, Copy, Debug, PartialEq, Eq)]
pub enum Publication {
    /// The slot serves it, and this is its generation.
    Published(u64),
    /// It is retired without having been served, and this is its generation.
    Abandoned(u64),
}

/// A selection's answer, how many words it drew, and where it left the slot's counter of tickets. A selection that is refused for
/// memory may have drawn words all the same.
#[derive(Debug, Drop)]
pub struct Selection {
    /// The backend, or none, or why the selection was refused.
    pub answer: Result<Option<Backend>, Refusal>,
    /// How many words this selection drew, tickets and random ones.
    pub drawn: u64,
    /// How many tickets were drawn from the served selector so far, modulo 2^64.
    pub tickets: u64,
}

/// The four counts of a slot since its group was made.
#[derive(Clone, Copy, Debug, PartialEq, Eq)]
pub struct Counts {
    /// Selectors that were built and then served.
    pub published: u64,
    /// Memberships that came while an earlier one waited.
    pub coalesced: u64,
    /// Flights that ended unpublished after a newer membership had come.
    pub superseded: u64,
    /// Builds that failed, up to 18446744073709551615.
    pub failed: u64,
}

/// How long the last publication of a slot took.
#[derive(Clone, Copy, Debug, PartialEq, Eq)]
pub struct Timing {
    /// The generation that was published.
    pub generation: u64,
    /// From its membership to the ask for its job.
    pub queue: u128,
    /// From that ask to the end of the build.
    pub build: u128,
}
