//! A soak. Round after round four groups on two gates and over two registries are made,
//! updated, checked, flagged and selected from by threads, and then cancelled or dropped. It ends well where no answer was wrong, every
//! permit came back and no thread stays; where groups in which nothing happens take less than a hundredth of a processor for ten seconds;
//! and, after two minutes or more, where at most a twentieth more is resident than was after one minute. A line each minute shows that it
//! goes on.
use crate::passes::pass;
use crate::process::{Process, resident};
use crate::soak_groups::{Flips, Groups, Registry, Site, settles, starts, stir};
use crate::soak_threads::{Tally, all_right, start_users};
use anyhow::Error;
use lb_select_base::refusal::Refusal;
use lb_threads_core::gate::SelectorRebuildGate;
use lb_threads_core::registry::HealthRegistry;
use log::Log;
use std::alloc::Global;
use std::rt::Files;
use std::sync::atomic::AtomicU64;
use std::sync::atomic::Ordering::SeqCst;
use std::sync::{Arc, Wait};
use std::thread::Threads;
use std::time::{Clock, Duration};
use std::{io, thread};

// How many updates a round has, and how long it sleeps after each, in milliseconds.
const UPDATES: u64 = 200;

const PAUSE: u64 = 5;

// A line shows each so many seconds that the soak goes on; what is resident after the first of them is noted.
const MINUTE: u64 = 60;

// How long groups are idle, in seconds, and how much processor time they may take in it, in hundredths of a second: less than a hundredth.
const IDLE: u64 = 10;

const IDLE_TICKS: u64 = 10;

// What went wrong.
#[derive(Clone, Copy, Debug, PartialEq, Eq, thiserror::Error)]
enum Fault {
    #[error("a worker couldn't be started")]
    Unstarted,
    #[error("an answer was wrong, a call was refused, or a reading fell")]
    Wrong,
    #[error("of what groups leave one isn't right, in the order of Groups::leave: {0:?}")]
    Left([bool; 5]),
    #[error("{0} threads are left")]
    Threads(u64),
    #[error("idle groups took {0} hundredths of a second in ten seconds")]
    Busy(u64),
    #[error("{0} KiB were resident after a minute, and {1} at the end")]
    Grown(u64, u64),
}

// What was done so far.
#[derive(Clone, Copy)]
struct Done {
    rounds: u64,
    turns: u64,
    builds: u64,
    after_a_minute: u64,
}

// Starts the workers of all groups.
fn all_start<W: Log + Threads + Wait + Clock + Copy + Send + Sync + Drop + 'static>(
    rt: &W,
    alloc: Global,
    groups: &Groups<W>,
) -> Result<(), Fault> {
    let mut are_started = true;
    for group in &groups.handles {
        are_started &= starts(rt, alloc, &**group);
    }
    if are_started {
        Ok(())
    } else {
        Err(Fault::Unstarted)
    }
}

// Updates one of the groups, in turn, and now and then checks the targets of a registry, in turn too.
fn happens<W: Log + Threads + Wait + Clock + Copy + Send + Sync + Drop>(
    rt: &W,
    alloc: Global,
    site: &Site,
    groups: &Groups<W>,
    turn: u64,
) -> Result<(), Refusal> {
    let place = (turn % 4) as usize;
    if let Some(group) = groups.handles.get(place) {
        stir(rt, alloc, &**group, turn)?;
    }
    let [registry, other] = &site.registries;
    let (registry, is_parallel) = match turn % 16 {
        3 => (registry, false),
        7 => (other, false),
        11 => (registry, true),
        15 => (other, true),
        _ => return Ok(()),
    };
    pass(rt, alloc, registry, is_parallel)
}

// All updates of a round. Two groups are cancelled then, or none.
fn stirred<W: Log + Threads + Wait + Clock + Copy + Send + Sync + Drop>(
    rt: &W,
    alloc: Global,
    site: &Site,
    groups: &Groups<W>,
    is_cancelled: bool,
) -> Result<(), Refusal> {
    for turn in 0..UPDATES {
        happens(rt, alloc, site, groups, turn)?;
        thread::sleep(rt, Duration::from_millis(PAUSE));
    }
    if is_cancelled {
        groups.cancel_two(rt);
        thread::sleep(rt, Duration::from_millis(10 * PAUSE));
    }
    Ok(())
}

// Threads use the groups while all of a round happens. Returns how many turns they took.
fn used<W: Log + Threads + Wait + Clock + Copy + Send + Sync + Drop + 'static>(
    rt: &W,
    alloc: Global,
    site: &Site,
    groups: &Groups<W>,
    is_cancelled: bool,
) -> Result<u64, Error> {
    all_start(rt, alloc, groups)?;
    let tally = Arc::new(alloc, Tally::new())?;
    let users = start_users(rt, alloc, &groups.handles, &tally);
    let stirred = stirred(rt, alloc, site, groups, is_cancelled);
    tally.over.store(true, SeqCst);
    let are_right = all_right(rt, users);
    stirred?;
    if !are_right {
        Err(Fault::Wrong)?;
    }
    Ok(tally.turns.load(SeqCst))
}

// Drops the groups, and looks at what they leave.
fn left<W: Wait + Clock + Copy + Drop>(
    rt: &W,
    alloc: Global,
    site: &Site,
    groups: Groups<W>,
) -> Result<(), Error> {
    let left = groups.leave(rt, alloc, site)?;
    if left != [true; 5] {
        Err(Fault::Left(left))?;
    }
    Ok(())
}

// A round on new groups.
fn round<W: Log + Threads + Wait + Clock + Copy + Send + Sync + Drop + 'static>(
    rt: &W,
    alloc: Global,
    site: &Site,
    done: &mut Done,
) -> Result<(), Error> {
    let groups = Groups::new(*rt, alloc, site)?;
    let turns = used(rt, alloc, site, &groups, done.rounds % 2 == 0)?;
    done.rounds = done.rounds.saturating_add(1);
    done.turns = done.turns.saturating_add(turns);
    done.builds = done.builds.saturating_add(groups.builds());
    left(rt, alloc, site, groups)
}

// Updates each group, and waits until it serves that.
fn all_settle<W: Wait + Clock + Copy + Drop>(
    rt: &W,
    alloc: Global,
    groups: &Groups<W>,
) -> Result<(), Error> {
    for group in &groups.handles {
        stir(rt, alloc, &**group, 0)?;
        if !settles(rt, &**group) {
            Err(Fault::Wrong)?;
        }
    }
    Ok(())
}

// Lets groups serve what they were updated to. Returns the processor time that is taken in the ten seconds after that.
fn ticks_taken<
    W: Log + Threads + Wait + Clock + Files + AllocGlobal + Copy + Send + Sync + Drop + 'static,
>(rt: &W, alloc: Global, groups: &Groups<W>) -> Result<u64, Error> {
    all_start(rt, alloc, groups)?;
    all_settle(rt, alloc, groups)?;
    let before = Process::read(rt)?.ticks;
    thread::sleep(rt, Duration::from_secs(IDLE));
    Ok(Process::read(rt)?.ticks.saturating_sub(before))
}

// Groups that serve what they were updated to, and in which nothing happens for ten seconds.
fn idle<
    W: Log + Threads + Wait + Clock + Files + AllocGlobal + Copy + Send + Sync + Drop + 'static,
>(rt: &W, alloc: Global, site: &Site) -> Result<(), Error> {
    let groups = Groups::new(*rt, alloc, site)?;
    let taken = ticks_taken(rt, alloc, &groups)?;
    left(rt, alloc, site, groups)?;
    if taken >= IDLE_TICKS {
        Err(Fault::Busy(taken))?;
    }
    Ok(())
}

// How many seconds have passed since that reading of the clock.
fn seconds_since<W: Clock>(rt: &W, begun: Duration) -> u64 {
    let now = rt.monotonic().unwrap_or(begun);
    now.saturating_sub(begun).as_secs()
}

// Prints what was done in so many seconds, and how many KiB are resident.
fn print_done<W: Print>(
    rt: &W,
    seconds: u64,
    done: &Done,
    flips: u64,
    resident: u64,
) -> io::Result<()> {
    let (rounds, turns, builds) = (done.rounds, done.turns, done.builds);
    println!(rt;
        "{seconds} seconds: {rounds} rounds, {turns} turns of threads, {builds} builds, {flips} flips, {resident} KiB"
    )
}

// Rounds for so many seconds, with a line each minute.
fn rounds<
    W: Log
        + Threads
        + Wait
        + Clock
        + Files
        + Print
        + AllocGlobal
        + Copy
        + Send
        + Sync
        + Drop
        + 'static,
>(rt: &W, alloc: Global, site: &Site, seconds: u64) -> Result<Done, Error> {
    let begun = rt.monotonic().unwrap_or(Duration::from_secs(0));
    let mut minutes = 0;
    let mut done = Done {
        rounds: 0,
        turns: 0,
        builds: 0,
        after_a_minute: 0,
    };
    for _ in rt.forever() {
        round(rt, alloc, site, &mut done)?;
        let passed = seconds_since(rt, begun);
        if passed / MINUTE > minutes {
            minutes = passed / MINUTE;
            let now = resident(rt)?;
            if done.after_a_minute == 0 {
                done.after_a_minute = now;
            }
            print_done(rt, passed, &done, site.flipped.load(SeqCst), now)?;
        }
        if passed >= seconds {
            break;
        }
    }
    Ok(done)
}

// Waits, for ten seconds at most, until no thread but this one is left.
fn remains<W: Clock + Files + AllocGlobal>(rt: &W) -> Result<(), Error> {
    let mut threads = 0;
    for _ in 0..1000 {
        threads = Process::read(rt)?.threads;
        if threads == 1 {
            return Ok(());
        }
        thread::sleep(rt, Duration::from_millis(10));
    }
    Err(Fault::Threads(threads))?
}

// Soaks at a site.
fn soaked<
    W: Log
        + Threads
        + Wait
        + Clock
        + Files
        + Print
        + AllocGlobal
        + Copy
        + Send
        + Sync
        + Drop
        + 'static,
>(rt: &W, alloc: Global, site: &Site, seconds: u64) -> Result<(), Error> {
    let done = rounds(rt, alloc, site, seconds)?;
    println!(rt; "no answer was wrong, and every permit is back")?;
    remains(rt)?;
    let at_the_end = resident(rt)?;
    println!(rt; "no thread is left")?;
    idle(rt, alloc, site)?;
    remains(rt)?;
    println!(rt; "idle groups take less than a hundredth of a processor")?;
    if seconds < 2 * MINUTE {
        return Ok(());
    }
    let before = done.after_a_minute;
    if at_the_end > before.saturating_add(before / 20) {
        Err(Fault::Grown(before, at_the_end))?;
    }
    println!(rt; "resident: {before} KiB after a minute, {at_the_end} at the end")?;
    Ok(())
}

// A registry with its check.
fn checked<W: Wait>(rt: &W, registry: &Registry, flipped: &Arc<AtomicU64>) -> Result<(), Refusal> {
    let check = Flips {
        asked: AtomicU64::new(0),
        flipped: Arc::try_clone(flipped)?,
    };
    registry.set_health_check(rt, check)
}

/// Goes on for so many seconds, or until something is wrong.
pub fn run<
    W: Log
        + Threads
        + Wait
        + Clock
        + Files
        + Print
        + AllocGlobal
        + Copy
        + Send
        + Sync
        + Drop
        + 'static,
>(rt: &W, alloc: Global, seconds: u32) -> Result<(), Error> {
    let site = Site {
        gates: [
            Arc::new(alloc, SelectorRebuildGate::new(alloc)?)?,
            Arc::new(alloc, SelectorRebuildGate::new(alloc)?)?,
        ],
        registries: [
            Arc::new(alloc, HealthRegistry::new(alloc)?)?,
            Arc::new(alloc, HealthRegistry::new(alloc)?)?,
        ],
        flipped: Arc::new(alloc, AtomicU64::new(0))?,
    };
    for registry in &site.registries {
        checked(rt, &**registry, &site.flipped)?;
    }
    soaked(rt, alloc, &site, u64::from(seconds))
}
