//! What the calls of tables answer, and what the tests of several areas make: discoveries, a clock, and backends by their addresses.
ghost use Rattle.std.specs.Prelude.{◌≡◌};

use crate::selection::fixtures::set_of;
use lb_balancer_core::timings::UpdateTimings;
use lb_balancer_core::turn::Turn;
use lb_health_view::discovery::{DiscoverySource, Static};
use lb_select_base::backend::Backend;
use lb_select_base::moments::MomentSource;
use lb_select_base::refusal::Refusal;
use std::alloc::Global;

/// Backends by address and weight.
pub(crate) type Members = &'static [(&'static str, usize)];

/// What a call returned.
#[derive(Clone, Copy, Debug, PartialEq, Eq)]
pub(crate) enum Told {
    Done,
    Flag(bool),
    Length(usize),
    Number(u64),
    /// What a worker's turn came to.
    Turned(Turn),
    /// How long the last update took.
    Took(Option<UpdateTimings>),
}

/// What a call answered.
pub(crate) type Answer = Result<Told, Refusal>;

/// The answer of a call that tells nothing.
pub(crate) const DONE: Answer = Ok(Told::Done);

/// The answer that something is so.
pub(crate) const YES: Answer = Ok(Told::Flag(true));

/// The answer that something is not so.
pub(crate) const NO: Answer = Ok(Told::Flag(false));

/// A clock that goes on by five at each reading.
#[derive(Drop)]
pub(crate) struct Ticks {
    pub(crate) next: u128,
}

impl MomentSource for Ticks {
    ghost reads = { λ s m t. m ≡ s.next };

    fn now(&mut self) -> u128 {
        let moment = self.next;
        self.next = moment.saturating_add(5);
        moment
    }
}

/// The configuration of one slot whose selector needs none.
pub(crate) fn one_slot(alloc: Global) -> Result<Vec<()>, Refusal> {
    let mut configs = Vec::new(alloc);
    configs.push(())?;
    Ok(configs)
}

/// The discovery that always answers these.
pub(crate) fn always<D>(
    alloc: Global,
    members: &[(&str, usize)],
) -> Result<DiscoverySource<D>, Refusal> {
    let set = set_of(alloc, members)?;
    Ok(DiscoverySource::Static(Static::new(set)))
}

/// Whether it is the backend of weight 1 at that address that was found, or none where none is wanted.
pub(crate) fn is_at(
    alloc: Global,
    found: &Option<Backend>,
    wanted: Option<&str>,
) -> Result<bool, Refusal> {
    match (found, wanted) {
        (Some(backend), Some(address)) => Ok(*backend == Backend::new(alloc, address)?),
        (None, None) => Ok(true),
        _ => Ok(false),
    }
}
