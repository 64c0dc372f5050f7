//! The signal by which services end, and the watches that read it and sleep until it changes. The state is one word that the signal alone
//! stores, so that neither it nor a watch takes a lock.
ghost use Rattle.std.specs.Prelude.{◌≡◌, ◌≤◌, false, IfErr, IfOk};
ghost use Rattle.lb_background.specs.Signals.{event_of, signal, told, word_of, EndsUntil, IsOfSignal};

use crate::event::Event;
use crate::line_rule::{Finds, OneSender, SignalMark, StoresSignal};
use atomic_table::{Seat, Table};
use lb_select_base::moments::MomentSource;
use lb_select_base::refusal::Refusal;
use std::alloc::Global;
use std::marker::Model;
use std::sync::{Arc, Wait};
use std::time::Duration;

// What the word of a line says: nothing, that the service is to end, or that the signal is gone.
const NOTHING: u64 = 0;

const SHUTDOWN: u64 = 1;

const CLOSED: u64 = 2;

// How long a watch sleeps at most before it reads the clock again.
const SECOND: u128 = 1_000_000_000;

// What a signal and its watches share.
#[derive(Drop)]
struct SignalWord {
    table: Table<(), SignalMark, (), OneSender, Global>,
    ghost one: { table.shared.table_id.words ≡ 1 },
}

/// The signal by which services end. Contracts see of which pair it is, and whether the latest that it sent is the end.
pub struct ShutdownSignal {
    line: Arc<SignalWord>,
    seat: Seat<(), SignalMark>,
}

impl Model for ShutdownSignal {
    ghost use Rattle.std.specs.Prelude.{◌≡◌, ◌≤◌, [], ◌==◌};
    ghost use Rattle.std.specs.Arc.{arc_value};
    ghost use Rattle.lb_background.specs.Signals.{SignalValue};

    ghost Value = { SignalValue };

    ghost use Rattle.lb_background.specs.Internal.Lines.{sender};

    ghost view = { λ s. record { pair = s.seat.table_id; latest = s.seat.me.0.says == 1 } };

    ghost invariant = { λ s. ((arc_value s.line).table.shared.table_id ≡ s.seat.table_id) × (s.seat.id ≡ 0)
        × (s.seat.me ≡ (sender s.seat.me.0.says, [])) × (s.seat.me.0.says ≤ 1) };
}

/// What a service looks at to see whether it is to end. Contracts see of which pair it is.
#[derive(Drop)]
pub struct ShutdownWatch {
    line: Arc<SignalWord>,
}

impl Model for ShutdownWatch {
    ghost use Rattle.std.specs.Arc.{arc_value};
    ghost use Rattle.atomic_table.specs.Seated.{TableId, table_id_coded};

    ghost Value = { TableId };

    ghost coded = { table_id_coded };

    ghost view = { λ w. (arc_value w.line).table.shared.table_id };
}

/// Returns a signal that has sent nothing, and a watch of it.
///
/// # Errors
///
/// `OutOfMemory` where memory is refused.
pub fn shutdown_pair(alloc: Global) -> Result<(ShutdownSignal, ShutdownWatch), Refusal>
    ensures pair { IfOk result (λ p. p.0 ≡ signal p.1 false) }
    ensures refused { IfErr result (λ e. e ≡ Refusal.OutOfMemory) }
{
    let (table, seat) = Table::of_words(alloc, &[NOTHING], &())?;
    let line = Arc::new(alloc, SignalWord { table })?;
    let watch = ShutdownWatch {
        line: Arc::try_clone(&line)?,
    };
    Ok((ShutdownSignal { line, seat }, watch))
}

impl ShutdownSignal {
    /// Sends the watches that services are to end, or with `false` that they aren't: the latest counts. It takes no memory.
    pub fn send(&mut self, ends: bool)
        ensures { self.new ≡ signal self.old.pair ends }
    {
        let line = &*self.line;
        let word = if ends { SHUTDOWN } else { NOTHING };
        line.table
            .shared
            .store::<StoresSignal>(&mut self.seat, 0, word);
        line.table.shared.wake_all(0);
    }
}

impl Drop for ShutdownSignal {
    // Unless services are to end, the watches find that no signal can come any more.
    fn drop(self) {
        let ShutdownSignal { line, mut seat } = self;
        let shared = &line.table.shared;
        if shared.peek(0) != SHUTDOWN {
            shared.store::<StoresSignal>(&mut seat, 0, CLOSED);
            shared.wake_all(0);
        }
    }
}

impl ShutdownWatch {
    /// Returns `Shutdown` where the latest that was sent is the end, else `Closed` where the signal is gone, else `None`.
    ///
    /// It takes no memory.
    pub fn event(&self) -> Option<Event>
        ensures { IsOfSignal result }
    {
        event_of(self.line.table.shared.peek(0))
    }

    /// Returns what `event` does, by the pair's own signal: `Shutdown` exactly where the latest that it sent is the end.
    ///
    /// It changes nothing.
    pub fn event_beside(&self, signal: &mut ShutdownSignal) -> Option<Event>
        requires { signal.old.pair ≡ self.now }
        ensures event { result ≡ told signal.old.latest }
        ensures same { signal.new ≡ signal.old }
    {
        event_of(self.line.table.shared.load::<Finds>(&mut signal.seat, 0))
    }

    /// Returns whether services are to end, without taking memory.
    pub fn is_shut(&self) -> bool {
        self.line.table.shared.peek(0) == SHUTDOWN
    }

    /// Waits until the watch's event differs from `heard`, or until the moment has come, and returns the event then.
    ///
    /// It reads the clock once a second at least. It takes no memory.
    pub fn wait_until<R: Wait, C: MomentSource>(
        &self,
        rt: &R,
        clock: &mut C,
        moment: u128,
        heard: Option<Event>,
    ) -> Option<Event>
        ensures event { IsOfSignal result }
        ensures until { EndsUntil C.reads moment heard clock.new result }
    {
        for _ in rt.forever() {
            let stands = self.event();
            let now = clock.now();
            if word_of(stands) != word_of(heard) || moment <= now {
                return stands;
            }
            self.sleep(rt, word_of(heard), moment - now);
        }
        unreachable!()
    }

    /// Returns a watch of the same signal.
    ///
    /// # Errors
    ///
    /// `OutOfMemory` where the count of watches is full.
    pub fn try_clone(&self) -> Result<ShutdownWatch, Refusal>
        ensures same { IfOk result (λ w. w ≡ self.now) }
        ensures refused { IfErr result (λ e. e ≡ Refusal.OutOfMemory) }
    {
        let line = Arc::try_clone(&self.line)?;
        Ok(ShutdownWatch { line })
    }

    // Sleeps for so many nanoseconds, a second at most, unless the word changes from this one.
    fn sleep<R: Wait>(&self, rt: &R, word: u64, nanos: u128)
        requires { word ≤ 2 }
    {
        let nanos = nanos.min(SECOND) as u64;
        let line = &*self.line;
        line.table
            .shared
            .park_timeout(rt, 0, word as u32, Duration::from_nanos(nanos));
    }
}

// What a word says.
fn event_of(word: u64) -> Option<Event>
    ensures { result ≡ event_of word }
{
    match word {
        NOTHING => None,
        SHUTDOWN => Some(Event::Shutdown),
        _ => Some(Event::Closed),
    }
}

// The word that says this; an event that isn't a signal's is none.
fn word_of(event: Option<Event>) -> u64
    ensures word { result ≡ word_of event }
    ensures most { result ≤ 2 }
{
    match event {
        Some(Event::Shutdown) => SHUTDOWN,
        Some(Event::Closed) => CLOSED,
        _ => NOTHING,
    }
}
