//! How long an update and the rebuild of a slot took, in nanoseconds.
ghost use Rattle.std.specs.Prelude.{◌≡◌, ◌-◌};

use lb_rebuild_core::answers::Timing;

/// How long the last accepted update took.
#[derive(Clone, Copy, Debug, PartialEq, Eq)]
pub struct UpdateTimings {
    /// How long the update took without the build.
    pub discovery_duration: u128,
    /// What the build of the selector took; 0 where none was built, and for groups, whose slots are built apart.
    pub build_duration: u128,
}

impl UpdateTimings {
    /// Returns the timings of an update from its start to its end, of which the build of a selector took so long.
    pub fn between(start: u128, end: u128, build_duration: u128) -> UpdateTimings
        ensures { result ≡ record { discovery_duration = end - start - build_duration; build_duration = build_duration } }
    {
        UpdateTimings {
            discovery_duration: end.saturating_sub(start).saturating_sub(build_duration),
            build_duration,
        }
    }

    /// Returns the timings of an update that built no selector, from its start to its end.
    pub fn without_build(start: u128, end: u128) -> UpdateTimings
        ensures { result ≡ record { discovery_duration = end - start; build_duration = 0 } }
    {
        UpdateTimings {
            discovery_duration: end.saturating_sub(start),
            build_duration: 0,
        }
    }
}

/// How long the last publication of a slot took.
#[derive(Clone, Copy, Debug, PartialEq, Eq)]
pub struct SelectorUpdateTimings {
    /// The generation that was published.
    pub generation: u64,
    /// From the update with its membership to the ask for its job.
    pub queue_duration: u128,
    /// From that ask to the end of the build.
    pub build_duration: u128,
}

/// Returns the timing of a slot by these names.
impl From<Timing> for SelectorUpdateTimings {
    ghost use Rattle.std.specs.Prelude.{◌≡◌};
    ghost use Rattle.lb_balancer_core.specs.Timings.{selector_timings};

    ghost from_gives = { λ t s. s ≡ selector_timings t };

    fn from(timing: Timing) -> SelectorUpdateTimings {
        SelectorUpdateTimings {
            generation: timing.generation,
            queue_duration: timing.queue,
            build_duration: timing.build,
        }
    }
}
