//! Workers of two groups on one gate: they build during selections, one selector more than the slots at most, and end when their group
//! does.
use super::{Pair, TURNS};
use lb_crowd::calls::{AskedGroup, AskedHandle, GroupByPasses};
use lb_crowd::counted::Counts;
use lb_crowd::crowd::{crowd_in, ends, is_free, select_one, serves};
use lb_crowd::{group_asks, handle_asks};
use pingora_load_balancing::background::RuntimeClock;
use std::alloc::Global;
use std::process::Abort;
use std::sync::Wait;
use std::sync::atomic::Ordering::SeqCst;
use std::thread;
use std::thread::Threads;
use std::time::{Clock, Duration};

// Starts the workers of both groups; how many couldn't be started, and then again.
fn start<F: Fn(usize) -> usize>(starts: &F) -> [usize; 4]
    requires { F.IsAlwaysCallable starts.now }
{
    [starts(0), starts(1), starts(0), starts(1)]
}

// Whether so many builds begin within a thousand turns of ten milliseconds.
fn begins<W: Clock>(counts: &Counts<W>, builds: u64) -> bool {
    for _ in 0..TURNS {
        if counts.begun.load(SeqCst) >= builds {
            return true;
        }
        thread::sleep(&counts.rt, Duration::from_millis(10));
    }
    false
}

// Whether slot 0 selects a backend now.
fn selects<G: AskedGroup, W: Abort + Wait>(rt: &W, alloc: Global, group: &G) -> bool {
    let found = select_one(rt, alloc, group, 0).expect(rt, "refused");
    found.is_some()
}

// Whether both slots come to serve the last of fifty updates, and the workers end once the group is cancelled then.
fn serves_and_ends<G: AskedGroup, W: Wait + Clock>(rt: &W, alloc: Global, group: &G) -> bool {
    let are_served = serves(rt, alloc, group, 0, 50, TURNS)
        && serves(rt, alloc, group, 1, 50, TURNS);
    group_asks::cancel(rt, alloc, group);
    are_served && ends(rt, group, TURNS)
}

/// Four workers build what updates bring while four threads select and read, and then both groups are cancelled: no call is refused, each
/// slot comes to serve the newest, and the workers end.
pub fn served_in_a_crowd<
    H,
    G: GroupByPasses + Drop + Send + Sync + 'static,
    W: Abort + Threads + Wait + Clock + Copy + Send + 'static,
    F: Fn(usize) -> usize,
>(rt: &W, alloc: Global, pair: &Pair<'_, H, G, W>, starts: &F)
    requires { F.IsAlwaysCallable starts.now }
{
    let missing = start(starts);
    let mut clock = RuntimeClock::new(*rt);
    let mut holds = crowd_in(rt, alloc, pair.group, pair.other, 2000, 50, &mut clock);
    holds &= serves_and_ends(rt, alloc, &**pair.group);
    holds &= serves_and_ends(rt, alloc, &**pair.other);
    assert_eq!(rt; (missing, holds), ([0; 4], true));
}

// What a build of the first group that is held leaves of both: whether it has begun, nothing is selected meanwhile, it is served and
// selected once it goes on, the workers end that their dropped groups leave, and the permit is back.
fn selected_beside<H, G: AskedGroup, W: Abort + Wait + Clock>(
    rt: &W,
    alloc: Global,
    pair: &Pair<'_, H, G, W>,
) -> [bool; 7] {
    let (counts, gate, first, second) = (pair.counts, pair.gate, &**pair.group, &**pair.other);
    let has_begun = begins(counts, 5);
    let beside = selects(rt, alloc, first);
    counts.hold(false);
    let is_served = serves(rt, alloc, first, 0, 1, TURNS);
    let after = selects(rt, alloc, first);
    group_asks::let_go(rt, alloc, first);
    group_asks::let_go(rt, alloc, second);
    [
        has_begun,
        !beside,
        is_served,
        after,
        ends(rt, first, TURNS),
        ends(rt, second, TURNS),
        is_free(rt, gate),
    ]
}

/// A build of the first group that is held doesn't hold up a selection; once it goes on, what it built is served. Workers of dropped groups
/// end.
pub fn selects_beside_a_build<
    H: AskedHandle,
    G: AskedGroup,
    W: Abort + Threads + Wait + Clock + Copy + Send + 'static,
    F: Fn(usize) -> usize,
>(rt: &W, alloc: Global, pair: &Pair<'_, H, G, W>, starts: &F)
    requires { F.IsAlwaysCallable starts.now }
{
    pair.counts.hold(true);
    let missing = start(starts);
    let generation = handle_asks::update(rt, alloc, pair.first, &mut RuntimeClock::new(*rt));
    let told = selected_beside(rt, alloc, pair);
    assert_eq!(rt;
        (missing, generation == Ok(1), told),
        ([0; 4], true, [true; 7])
    );
}

// Whether the second group's workers end while a build of the first is held, that one's worker stays until then, and the permit is out; and
// whether the worker ends once the build goes on.
fn ends_after<H, G: AskedGroup, W: Wait + Clock>(rt: &W, pair: &Pair<'_, H, G, W>) -> [bool; 4] {
    let (first, second) = (&**pair.group, &**pair.other);
    let second_ends = ends(rt, second, TURNS);
    let first_stays = first.worker_count() > 0;
    let is_out = !is_free(rt, pair.gate);
    pair.counts.hold(false);
    [second_ends, first_stays, is_out, ends(rt, first, TURNS)]
}

/// Both groups are cancelled while a build of the first is held: the build is let end and is not served, its worker stays until then, and
/// the permit comes back.
pub fn cancels_a_build<
    H: AskedHandle,
    G: AskedGroup,
    W: Abort + Threads + Wait + Clock + Copy + Send + 'static,
    F: Fn(usize) -> usize,
>(rt: &W, alloc: Global, pair: &Pair<'_, H, G, W>, starts: &F)
    requires { F.IsAlwaysCallable starts.now }
{
    pair.counts.hold(true);
    let missing = start(starts);
    let generation = handle_asks::update(rt, alloc, pair.first, &mut RuntimeClock::new(*rt));
    let has_begun = begins(pair.counts, 5);
    handle_asks::cancel(rt, alloc, pair.first);
    handle_asks::cancel(rt, alloc, pair.second);
    let told = ends_after(rt, pair);
    let left = [
        has_begun && generation == Ok(1),
        handle_asks::served(rt, alloc, pair.first, 0) == Some(0),
        is_free(rt, pair.gate),
        pair.counts.live.load(SeqCst) == 4,
    ];
    assert_eq!(rt; (missing, told, left), ([0; 4], [true; 4], [true; 4]));
}
