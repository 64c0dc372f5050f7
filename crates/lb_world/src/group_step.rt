//! The steps at one group but selections, without the number of the group.
//! The backends of these are there: a step whose address was refused never comes so far.
ghost use Rattle.std.specs.Prelude.{◌≡◌};
ghost use Rattle.lb_world.specs.Answers.{has_refused as refused_among};

use crate::step::Listing;
use lb_select_base::backend::Backend;

// What a step does at its group.
#[derive(Drop)]
pub(crate) enum GroupStep<'a> {
    Update { now: u128, listings: Vec<Listing> },
    Ask { slot: usize, now: u128 },
    Build { slot: usize, now: u128 },
    FailBuild { slot: usize, now: u128 },
    Lost { slot: usize },
    Publish { slot: usize },
    Abandon { slot: usize },
    Destroy { slot: usize },
    Enable { backend: &'a Backend },
    Disable { backend: &'a Backend },
    Cancel,
    Counts { slot: usize },
    Timing { slot: usize },
    Load { backend: &'a Backend, load: u64 },
}

// Whether an address was refused.
pub(crate) fn has_refused(listings: &[Listing]) -> bool
    ensures { result ≡ refused_among listings.now }
{
    listings.iter().any(|listing| listing.backend.is_none())
}
