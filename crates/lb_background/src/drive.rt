//! Drives a run over a port, from its start to its end.
ghost use Rattle.std.specs.Prelude.{◌≢◌, []};
ghost use Rattle.lb_background.specs.declared.event.Action.TheVariants as to;
ghost use Rattle.lb_background.specs.Driven.{Acts, ActsUnlessShut, CanDoAll, DrivenToEnd, Reads};

use crate::event::{Action, Awaited, Event};
use crate::machine::Machine;
use crate::port::RunPort;
use std::sync::Wait;

/// Drives a run to its end: does by the port what the run asks for, and gives the run the event that came of it.
///
/// Before anything is done, the port is asked whether the run is to end; where it is, the run gets that event instead.
pub fn drive<R: Wait, M: Machine + Drop, P: RunPort>(rt: &R, run: M, port: &mut P)
    requires fresh { M.is_after run [] }
    requires can { CanDoAll M.asks P.can_do }
    ensures { DrivenToEnd (Reads P.moments P.readings)
        (ActsUnlessShut P.looks (Acts P.updates P.checks P.tells P.waits)) (M.is_run (M.plan run)) port.old port.new }
{
    let mut run = run;
    let mut event = Event::Start;
    for _ in rt.forever() {
        let now = port.now();
        let reading = port.reading();
        let action = run.step(now, event, reading);
        if let Action::Return = action {
            return;
        }
        event = act(port, action);
    }
    unreachable!()
}

// Does what a run asks for, unless the run is to end; the event that came of it.
fn act<P: RunPort>(port: &mut P, action: Action) -> Event
    requires more { action ≢ to.Return }
    requires can { P.can_do action }
    ensures { ActsUnlessShut P.looks (Acts P.updates P.checks P.tells P.waits) port.old action result port.new }
{
    if port.is_shut() {
        return Event::Shutdown;
    }
    match action {
        Action::Update => Event::Updated(port.update()),
        Action::Check => {
            port.check();
            Event::Checked
        }
        Action::Ready => {
            port.tell_ready();
            Event::Told
        }
        Action::SleepUntil(moment) => port.wait(Awaited::Moment(moment)),
        Action::WaitTargets => port.wait(Awaited::Targets),
        Action::Hold => port.wait(Awaited::End),
        Action::Return => unreachable!(),
    }
}
