//! The worked rows of the runs: each event with its moment, and the action that it answers.
use crate::asserted::assert_same;
use lb_background::balancer_run::LoadBalancerRun;
use lb_background::event::{Action, Event};
use lb_background::group_run::GroupRun;
use lb_background::machine::Machine;
use lb_background::service_run::ServiceRun;
use lb_select_base::refusal::Refusal;
use std::process::Abort;

// A run of one of the three kinds.
#[derive(Drop)]
enum Run {
    Balancer(LoadBalancerRun),
    Group(GroupRun),
    Service(ServiceRun),
}

// A moment, a number that a balancer has no use for (the least generation that a group's slots serve, a service's count of targets),
// an event, and the action that is wanted.
type Answered = (u128, u64, Event, Action);

impl Run {
    fn step(&mut self, now: u128, number: u64, event: Event) -> Action {
        match self {
            Run::Balancer(run) => run.step(now, event, number),
            Run::Group(run) => run.step(now, event, number),
            Run::Service(run) => run.step(now, event, number),
        }
    }
}

fn plays(rt: &impl Abort, made: Made, steps: &[Answered]) {
    let mut run = made.run();
    for (now, number, event, wanted) in steps {
        let action = run.step(*now, *number, *event);
        assert_same(rt, &action, wanted, &(made, *now));
    }
}

// A balancer without a frequency is updated and checked once.
const ONCE: &[Answered] = &[
    (0, 0, Event::Start, Action::Update),
    (3, 0, Event::Updated(Err(Refusal::Discovery)), Action::Ready),
    (4, 0, Event::Told, Action::Check),
    (9, 0, Event::Checked, Action::Return),
];

// One with a frequency of 10 is updated again.
const AGAIN: &[Answered] = &[
    (0, 0, Event::Start, Action::Update),
    (3, 0, Event::Updated(Ok(1)), Action::Ready),
    (4, 0, Event::Told, Action::Check),
    (9, 0, Event::Checked, Action::SleepUntil(10)),
    (10, 0, Event::Woke, Action::Update),
];

// Before the start all but a shutdown is held; after a shutdown all is answered by the end.
const SHUTDOWN: &[Answered] = &[
    (0, 0, Event::Closed, Action::Hold),
    (1, 0, Event::Updated(Ok(1)), Action::Hold),
    (2, 0, Event::Shutdown, Action::Return),
    (3, 0, Event::Start, Action::Return),
    (4, 0, Event::Woke, Action::Return),
];

// A group is ready where its slots serve what was discovered.
const GROUP: &[Answered] = &[
    (0, 0, Event::Start, Action::Update),
    (2, 0, Event::Updated(Ok(1)), Action::Check),
    (
        5,
        0,
        Event::Checked,
        Action::SleepUntil(4294967295000000000),
    ),
    (7, 1, Event::Rebuilt, Action::Ready),
    (8, 1, Event::Told, Action::Return),
];

// A service without a check holds, until nobody can shut it down or it is shut down.
const HOLDS: &[Answered] = &[
    (0, 0, Event::Start, Action::Hold),
    (1, 0, Event::Woke, Action::Hold),
    (2, 0, Event::Closed, Action::Return),
];

// One with a check waits for targets.
const WAITS: &[Answered] = &[
    (0, 0, Event::Start, Action::Check),
    (2, 0, Event::Checked, Action::Ready),
    (3, 0, Event::Told, Action::WaitTargets),
    (9, 1, Event::Targets, Action::Check),
    (10, 1, Event::Checked, Action::SleepUntil(15)),
    (11, 0, Event::ViewRemoved, Action::WaitTargets),
];

const ENDS: &[Answered] = &[
    (0, 0, Event::Start, Action::Hold),
    (1, 1, Event::Targets, Action::Hold),
    (2, 1, Event::Shutdown, Action::Return),
];

const HOUR: u128 = 3_600_000_000_000;

// An hourly service checks what comes first at once, and again what comes after its last target left; it is shut down while it waits.
const HOURLY: &[Answered] = &[
    (0, 0, Event::Start, Action::Check),
    (1, 0, Event::Checked, Action::WaitTargets),
    (2, 0, Event::Woke, Action::WaitTargets),
    (5, 1, Event::Targets, Action::Check),
    (7, 1, Event::Checked, Action::SleepUntil(HOUR + 7)),
    (8, 1, Event::ViewRemoved, Action::SleepUntil(HOUR + 7)),
    (9, 0, Event::ViewRemoved, Action::WaitTargets),
    (20, 1, Event::Targets, Action::Check),
    (22, 1, Event::Checked, Action::SleepUntil(HOUR + 22)),
    (30, 0, Event::ViewRemoved, Action::WaitTargets),
    (31, 0, Event::Shutdown, Action::Return),
];

// One without a frequency waits for its first target, though nobody can shut it down, and checks once.
const FIRST_TARGET: &[Answered] = &[
    (0, 0, Event::Start, Action::WaitTargets),
    (1, 0, Event::Closed, Action::WaitTargets),
    (5, 1, Event::Targets, Action::Check),
    (7, 2, Event::Checked, Action::Ready),
    (8, 2, Event::Told, Action::Return),
];

// How a run is made.
#[derive(Clone, Copy, Debug)]
enum Made {
    /// With this frequency of updates; whether it owns checks, and whether it has a notifier.
    Balancer(Option<u128>, bool, bool),
    /// Without frequencies, with checks and a notifier.
    Group,
    /// With this frequency of checks; whether it has a check, and whether it has a notifier.
    Service(Option<u128>, bool, bool),
}

impl Made {
    fn run(self) -> Run {
        match self {
            Made::Balancer(updates, owns_checks, has_notifier) => {
                Run::Balancer(LoadBalancerRun::new(updates, None, owns_checks, has_notifier))
            }
            Made::Group => Run::Group(GroupRun::new(None, None, true, true)),
            Made::Service(checks, has_check, has_notifier) => {
                Run::Service(ServiceRun::new(checks, has_check, has_notifier))
            }
        }
    }
}

const RUNS: &[(Made, &[Answered])] = &[
    (Made::Balancer(None, true, true), ONCE),
    (Made::Balancer(Some(10), true, true), AGAIN),
    (Made::Balancer(Some(10), false, false), SHUTDOWN),
    (Made::Group, GROUP),
    (Made::Service(None, false, true), HOLDS),
    (Made::Service(None, false, true), ENDS),
    (Made::Service(Some(HOUR), true, false), HOURLY),
    (Made::Service(None, true, true), FIRST_TARGET),
    (Made::Service(Some(5), true, true), WAITS),
];

#[test]
fn runs(rt: HostRuntime) {
    for (made, steps) in RUNS {
        plays(&rt, *made, steps);
    }
}
