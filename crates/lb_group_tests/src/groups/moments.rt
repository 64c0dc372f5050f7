//! Turns and workers by clocks that go wrong: one that goes back, and one that is at the last moment there is.
ghost use Rattle.std.specs.Prelude.{◌≡◌};

use crate::asserted::assert_same;
use crate::groups::Pair;
use crate::groups::turns::too_heavy;
use lb_crowd::calls::{AskedGroup, GroupByPasses};
use lb_crowd::crowd::{crowd_in, one_backend};
use lb_crowd::group_asks;
use pingora_load_balancing::plain::Timing;
use pingora_load_balancing::port::Turn;
use pingora_load_balancing::{MomentSource, Refusal};
use std::alloc::Global;
use std::process::Abort;
use std::sync::Wait;
use std::thread::Threads;
use std::time::Clock;

/// A clock that is at one moment.
#[derive(Clone, Copy)]
pub struct At {
    moment: u128,
}

impl At {
    /// Returns a clock that is at the last moment there is.
    pub fn last() -> At {
        At { moment: LAST }
    }
}

impl MomentSource for At {
    ghost reads = { λ s m _. m ≡ s.moment };

    fn now(&mut self) -> u128 {
        self.moment
    }
}

// What is done at a moment, and what comes of it: an update to a backend of a weight, or to two of too much weight, with the newest
// generation; or a turn for slot 0.
#[derive(Clone, Copy, Debug, PartialEq, Eq)]
enum Done {
    Updated(usize, u64),
    Heavy(u64),
    Took(Turn),
}

const LAST: u128 = u128::MAX;

// At the last moment a build that failed is due again at that moment, since none comes later. The clock goes back then: a newer generation
// is due at once, whatever the moment, and a build that fails is due ten milliseconds after its own moment.
const ROWS: &[(u128, Done)] = &[
    (LAST, Done::Updated(1, 1)),
    (LAST, Done::Took(Turn::Published(1))),
    (LAST, Done::Heavy(2)),
    (LAST, Done::Took(Turn::Failed(2, Refusal::WeightTooLarge))),
    (LAST, Done::Took(Turn::Failed(2, Refusal::WeightTooLarge))),
    (LAST - 1, Done::Took(Turn::NotDue(LAST))),
    (7, Done::Updated(2, 3)),
    (5, Done::Took(Turn::Published(3))),
    (3, Done::Took(Turn::Nothing)),
    (9, Done::Heavy(4)),
    (9, Done::Took(Turn::Failed(4, Refusal::WeightTooLarge))),
    (0, Done::Took(Turn::NotDue(10_000_009))),
    (8, Done::Updated(1, 5)),
    (6, Done::Took(Turn::Published(5))),
];

// Does what the row says, and returns what came of it.
fn comes_of<G: AskedGroup, W: Wait>(
    rt: &W,
    alloc: Global,
    group: &G,
    mut clock: At,
    row: Done,
) -> Result<Done, Refusal> {
    match row {
        Done::Updated(weight, _) => {
            let found = one_backend(alloc, weight)?;
            let newest = group_asks::update(rt, alloc, group, &found, &mut clock)?;
            Ok(Done::Updated(weight, newest))
        }
        Done::Heavy(_) => {
            let found = too_heavy(alloc)?;
            let newest = group_asks::update(rt, alloc, group, &found, &mut clock)?;
            Ok(Done::Heavy(newest))
        }
        Done::Took(_) => {
            let turn = group_asks::turn(rt, alloc, group, 0, &mut clock)?;
            Ok(Done::Took(turn))
        }
    }
}

// The timing of slot 0.
fn timing_of<G: AskedGroup, W: Wait + Abort>(rt: &W, alloc: Global, group: &G) -> Option<Timing> {
    let told = group_asks::readings(rt, alloc, group, 0).expect(rt, "another answer");
    told.timing.expect(rt, "no such slot")
}

/// Turns by a clock that goes back, from the last moment on; no duration is below 0.
pub fn clock_goes_back<G: AskedGroup, W: Wait + Abort>(rt: &W, alloc: Global, group: &G) {
    for (moment, wanted) in ROWS {
        let clock = At { moment: *moment };
        let done = comes_of(rt, alloc, group, clock, *wanted);
        assert_same(rt, &done, &Ok(*wanted), wanted);
    }
    let timing = Timing {
        generation: 5,
        queue: 0,
        build: 0,
    };
    let last = comes_of(
        rt,
        alloc,
        group,
        At { moment: 6 },
        Done::Took(Turn::Nothing),
    );
    assert_eq!(rt;
        (timing_of(rt, alloc, group), last),
        (Some(timing), Ok(Done::Took(Turn::Nothing)))
    );
}

/// Four threads select and read while workers build, all at the last moment: `starts` gives workers such a clock.
pub fn at_the_last_moment<
    H,
    G: GroupByPasses + Drop + Send + Sync + 'static,
    W: Abort + Threads + Wait + Clock + Copy + Send + 'static,
    F: Fn(usize) -> usize,
>(rt: &W, alloc: Global, pair: &Pair<'_, H, G, W>, starts: &F)
    requires { F.IsAlwaysCallable starts.now }
{
    let missing = [starts(0), starts(1)];
    let holds = crowd_in(rt, alloc, pair.group, pair.other, 200, 20, &mut At::last());
    let timing = Timing {
        generation: 20,
        queue: 0,
        build: 0,
    };
    assert_eq!(rt;
        (missing, holds, timing_of(rt, alloc, &**pair.group)),
        ([0; 2], true, Some(timing))
    );
}
