//! Turns that the caller's thread takes for slots of groups on one gate, and their workers' last ones.
use lb_crowd::calls::AskedGroup;
use lb_crowd::crowd::{one_backend, select_one};
use lb_crowd::group_asks;
use lb_crowd::turns::Still;
use log::sink::Locked;
use log::{Level, Log, Logged};
use pingora_load_balancing::discovery::{DiscoverySource, Static};
use pingora_load_balancing::port::Turn;
use pingora_load_balancing::{Backend, MomentSource, Refusal};
use std::alloc::Global;
use std::collections::BTreeSet;
use std::process::Abort;
use std::sync::Wait;

// Updates a group to a backend of this weight; the generation.
pub(super) fn update<G: AskedGroup, W: Wait + Abort>(
    rt: &W,
    alloc: Global,
    group: &G,
    weight: usize,
) -> u64 {
    let discovery = one_backend(alloc, weight).expect(rt, "refused");
    group_asks::update(rt, alloc, group, &discovery, &mut Still {}).expect(rt, "refused")
}

// Takes a turn for a slot.
pub(super) fn turn<G: AskedGroup, W: Wait + Abort>(
    rt: &W,
    alloc: Global,
    group: &G,
    slot: usize,
) -> Turn {
    group_asks::turn(rt, alloc, group, slot, &mut Still {}).expect(rt, "refused")
}

// Whether slot 0 selects the one backend.
fn selects<G: AskedGroup, W: Wait + Abort>(rt: &W, alloc: Global, group: &G) -> bool {
    let expected = Backend::new(alloc, "1.0.0.1:80").expect(rt, "refused");
    let selected = select_one(rt, alloc, group, 0).expect(rt, "refused");
    selected.as_ref() == Some(&expected)
}

/// While what one group retired is not destroyed, the other one builds nothing; then the permit is back. A turn with nothing to do says
/// so, what was built is selected, and a cancelled group builds no more.
pub fn turns_on_one_gate<G: AskedGroup, W: Wait + Abort>(
    rt: &W,
    alloc: Global,
    first: &G,
    second: &G,
) {
    let generations = [update(rt, alloc, first, 1), update(rt, alloc, second, 1)];
    let turns = [
        turn(rt, alloc, first, 0),
        turn(rt, alloc, second, 0),
        turn(rt, alloc, first, 0),
        turn(rt, alloc, second, 0),
        turn(rt, alloc, second, 0),
    ];
    let is_selected = selects(rt, alloc, first);
    group_asks::cancel(rt, alloc, first);
    let wanted = [
        Turn::Published(1),
        Turn::Busy,
        Turn::Nothing,
        Turn::Published(1),
        Turn::Nothing,
    ];
    let last = turn(rt, alloc, first, 0);
    assert_eq!(rt;
        (generations, turns, is_selected, last),
        ([1, 1], wanted, true, Turn::Cancelled)
    );
}

// Whether a group is cancelled.
fn is_cancelled<G: AskedGroup, W: Wait + Abort>(rt: &W, alloc: Global, group: &G) -> bool {
    let told = group_asks::readings(rt, alloc, group, 0);
    told.expect(rt, "another answer").is_cancelled
}

/// A worker of a group that is dropped cancels it, and ends; what it was to build is not built. A slot that isn't there has no worker.
pub fn worker_of_one_let_go<G: AskedGroup, W: Log + Wait + Abort>(
    rt: &W,
    alloc: Global,
    group: &G,
) {
    let generation = update(rt, alloc, group, 1);
    group_asks::let_go(rt, alloc, group);
    let was_cancelled = is_cancelled(rt, alloc, group);
    let told = [
        generation == 1,
        !was_cancelled,
        group.work(rt, alloc, 0, &mut Still {}),
        is_cancelled(rt, alloc, group),
        group.worker_count() == 0,
        group_asks::served(rt, alloc, group, 0) == Some(0),
        !group.work(rt, alloc, 7, &mut Still {}),
    ];
    assert_eq!(rt; told, [true; 7]);
}

// Two backends whose weights have no sum of 64 bits, always.
pub(super) fn too_heavy(alloc: Global) -> Result<DiscoverySource<Static>, Refusal> {
    let mut backends = BTreeSet::new(alloc);
    backends.insert(Backend::new_with_weight(alloc, "1.0.0.1:80", usize::MAX)?)?;
    backends.insert(Backend::new(alloc, "1.0.0.2:80")?)?;
    Ok(DiscoverySource::Static(Static::new(backends)))
}

// A clock at whose second reading a group is dropped.
#[derive(Drop)]
struct LettingGo<'g, G, W> {
    rt: &'g W,
    alloc: Global,
    group: &'g G,
    reading: u64,
}

impl<'g, G: AskedGroup, W: Wait> MomentSource for LettingGo<'g, G, W> {
    ghost use Rattle.std.specs.Prelude.{⊤};

    ghost reads = { λ s m t. ⊤ };

    fn now(&mut self) -> u128 {
        self.reading = self.reading.saturating_add(1);
        if self.reading == 2 {
            group_asks::let_go(self.rt, self.alloc, self.group);
        }
        10
    }
}

// A worker whose first build is refused, and whose group is dropped then; whether it was the slot's worker.
fn works_once<G: AskedGroup, W: Log + Wait>(
    rt: &W,
    alloc: Global,
    group: &G,
) -> Result<bool, Refusal> {
    let heavy = too_heavy(alloc)?;
    group_asks::update(rt, alloc, group, &heavy, &mut Still {})?;
    let mut clock = LettingGo {
        rt,
        alloc,
        group,
        reading: 0,
    };
    Ok(group.work(rt, alloc, 0, &mut clock))
}

/// A build that is refused is logged, with its generation and the cause.
pub fn refused_once<G: AskedGroup, W: Wait + Abort + Copy + Drop>(
    rt: &W,
    alloc: Global,
    group: &G,
) {
    let sink = Locked::new(*rt, Vec::new(alloc));
    let has_worked = works_once(&Logged::new(*rt, Level::Debug, &sink), alloc, group);
    let text = sink.into_inner();
    let said =
        "[ERROR lb_threads_group::workers] load-balancing selector rebuild failed for generation 1: WeightTooLarge\n";
    assert_eq!(rt;
        (has_worked, text.as_slice() == said.as_bytes()),
        (Ok(true), true)
    );
}
