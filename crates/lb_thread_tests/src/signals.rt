//! What a signal tells its watches, and a notifier its watch.
ghost use Rattle.std.specs.Prelude.{◌≡◌};

use crate::service_fixtures::Ticks;
use lb_background::event::Event;
use lb_background::ready::ready_pair;
use lb_background::shutdown::{ShutdownSignal, ShutdownWatch, shutdown_pair};
use std::alloc::Global;
use std::process::Abort;
use std::sync::Wait;
use std::thread;
use std::thread::join;
use std::time::{Clock, Duration};

const SHUTDOWN: Option<Event> = Some(Event::Shutdown);

const CLOSED: Option<Event> = Some(Event::Closed);

// What two watches of a signal return once this was sent, the first one also with the signal; and whether the other sees the end.
fn told(
    signal: &mut ShutdownSignal,
    watch: &ShutdownWatch,
    other: &ShutdownWatch,
    is_end: bool,
) -> ([Option<Event>; 3], bool)
    requires { signal.old.pair ≡ watch.now }
    ensures { signal.new.pair ≡ watch.now }
{
    signal.send(is_end);
    let events = [watch.event(), watch.event_beside(signal), other.event()];
    (events, other.is_shut())
}

// The latest that was sent counts; a signal whose latest was the end leaves the end.
#[test]
fn latest_counts(rt: HostRuntime) {
    let (mut signal, watch) = shutdown_pair(rt.alloc()).expect(&rt, "refused");
    let other = watch.try_clone().expect(&rt, "refused");
    let first = watch.event();
    let told = [
        told(&mut signal, &watch, &other, false),
        told(&mut signal, &watch, &other, true),
        told(&mut signal, &watch, &other, false),
        told(&mut signal, &watch, &other, true),
    ];
    drop(signal);
    let last = [watch.event(), other.event()];
    let (goes_on, ends) = (([None; 3], false), ([SHUTDOWN; 3], true));
    assert_eq!(rt;
        (first, told, last),
        (None, [goes_on, ends, goes_on, ends], [SHUTDOWN; 2])
    );
}

// What a watch tells of a signal that is gone and sent these before, and whether that is the end.
fn left<R: Abort>(rt: &R, alloc: Global, sent: &[bool]) -> (Option<Event>, bool) {
    let (mut signal, watch) = shutdown_pair(alloc).expect(rt, "refused");
    for is_end in sent {
        signal.send(*is_end);
    }
    drop(signal);
    (watch.event(), watch.is_shut())
}

// A signal that is gone is closed, unless its latest was the end.
#[test]
fn dropped_signal_is_closed(rt: HostRuntime) {
    let told = [
        left(&rt, rt.alloc(), &[]),
        left(&rt, rt.alloc(), &[true, false]),
        left(&rt, rt.alloc(), &[false, true]),
    ];
    assert_eq!(rt; told, [(CLOSED, false), (CLOSED, false), (SHUTDOWN, true)]);
}

// What a wait until 95 tells to one that heard this, and where its clock is then, which goes on by 10 from 0.
fn waited<R: Wait>(rt: &R, watch: &ShutdownWatch, heard: Option<Event>) -> (Option<Event>, u128) {
    let mut clock = Ticks { next: 0, step: 10 };
    let told = watch.wait_until(rt, &mut clock, 95, heard);
    (told, clock.next)
}

// A wait ends at its moment, and before it where something else was sent than was heard.
#[test]
fn wait_ends_at_its_moment(rt: HostRuntime) {
    let (signal, watch) = shutdown_pair(rt.alloc()).expect(&rt, "refused");
    let before = waited(&rt, &watch, None);
    drop(signal);
    let after = [waited(&rt, &watch, None), waited(&rt, &watch, CLOSED)];
    assert_eq!(rt;
        (before, after),
        ((None, 110), [(CLOSED, 10), (CLOSED, 110)])
    );
}

// Sends the end a little later.
fn send_later<R: Clock>(rt: &R, signal: &mut ShutdownSignal) {
    thread::sleep(rt, Duration::from_millis(20));
    signal.send(true);
}

// A watch with a stopped clock is woken by the signal of another thread.
#[test]
fn signal_wakes_a_watch(rt: HostRuntime) {
    let (mut signal, watch) = shutdown_pair(rt.alloc()).expect(&rt, "refused");
    let mut clock = Ticks { next: 0, step: 0 };
    let sends = &mut signal;
    let (_, event) = join(
        &rt,
        || send_later(&rt, sends),
        || watch.wait_until(&rt, &mut clock, 1, None),
    );
    assert_eq!(rt; event, SHUTDOWN);
}

// A notifier tells its watch for good; one that is dropped tells nothing.
#[test]
fn notifier_tells_once(rt: HostRuntime) {
    let (notifier, watch) = ready_pair(rt.alloc()).expect(&rt, "refused");
    let (dropped, other) = ready_pair(rt.alloc()).expect(&rt, "refused");
    let before = watch.is_ready();
    notifier.notify_ready();
    drop(dropped);
    let told = [before, watch.is_ready(), watch.is_ready(), other.is_ready()];
    assert_eq!(rt; told, [false, true, true, false]);
}
