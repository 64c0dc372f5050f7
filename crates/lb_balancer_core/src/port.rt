//! A port: the calls of a group, each stated by one relation between the port before, the answer and the port after. Code over a port runs
//! over a plain group as over one behind locks. What an update calls, what a selection calls and what a worker calls are a trait each.
ghost use Rattle.std.specs.Prelude.{ℕ, Bool, List, Result, IfOk};
ghost use Rattle.lb_select_base.specs.Backends.{Member};
ghost use Rattle.lb_select_base.specs.Draws.{Draw};
ghost use Rattle.lb_select_base.specs.declared.refusal.Refusal.{Refusal};
ghost use Rattle.lb_health_view.specs.RegistrySide.{settings_of};
ghost use Rattle.lb_rebuild_core.specs.Values.{Task, BuiltValue, RetiredValue, PermitValue, ReaderValue};
ghost use Rattle.lb_rebuild_core.specs.declared.answers.Ask.{Ask};
ghost use Rattle.lb_rebuild_core.specs.declared.answers.Publication.{Publication};
ghost use Rattle.lb_rebuild_core.specs.declared.membership.Scheduled.{Scheduled};
ghost use Rattle.lb_balancer_core.specs.Builds.{refused_build};
ghost use Rattle.lb_balancer_core.specs.Calls.{IfJob, owed_of, ticket_drawn, random_drawn, load_drawn};

use crate::build::RefusedJob;
use lb_health_view::view::Settings;
use lb_rebuild_core::answers::{Ask, Publication};
use lb_rebuild_core::job::Built;
use lb_rebuild_core::membership::Scheduled;
use lb_rebuild_core::retired::{OwedPermit, Reader, Retired};
use lb_select_base::backend::Backend;
use lb_select_base::refusal::Refusal;
use lb_select_base::walk::BackendSelection;
use std::alloc::Global;
use std::collections::BTreeSet;

/// The call of a group that an update makes.
pub trait SchedulePort {
    // Port before, members, settings, moment, answer, port after; and so on for each call.
    ghost scheduled: { Self → List Member → List (Member × Bool) → ℕ → Result Scheduled Refusal → Self → Type 0 };

    /// Makes what was discovered the newest membership where it has other backends than the newest one, and sets the flags.
    fn schedule(
        &mut self,
        alloc: Global,
        discovered: BTreeSet<Backend>,
        settings: Settings,
        now: u128,
    ) -> Result<Scheduled, Refusal>
        ensures { scheduled self.old discovered.keys (settings_of settings.entries) now result self.new };
}

/// A port that takes back readers, each of which it gave out itself.
pub trait TakesReaders<R> {
    // Which of them are its own.
    ghost owns_reader: { Self → R → Type 0 };

    ghost left: { Self → R → Self → Type 0 };

    /// Takes a reader back.
    fn leave(&mut self, reader: R)
        requires { owns_reader self.old reader }
        ensures { left self.old reader self.new };
}

/// The calls of a group that a selection makes.
pub trait SelectPort<S: BackendSelection>: TakesReaders<Reader<S>> {
    ghost entered: { Self → ℕ → Result (ReaderValue S.Config) Refusal → Self → Type 0 };

    ghost readies: { Self → ReaderValue S.Config → Member → Bool → Self → Type 0 };

    ghost draws: { Self → ReaderValue S.Config → Draw → Self → Type 0 };

    /// Enters the selector that a slot serves.
    fn enter(&mut self, slot: usize) -> Result<Reader<S>, Refusal>
        ensures answer { entered self.old slot result self.new }
        ensures own { IfOk result (λ r. Self.owns_reader self.new r) };

    /// Returns whether a backend is ready in the snapshot that a reader entered.
    fn ready(&mut self, reader: &Reader<S>, backend: &Backend) -> bool
        requires { Self.owns_reader self.old reader.now }
        ensures { readies self.old reader.now backend.now result self.new };

    /// Returns the next ticket of the selector that a reader entered.
    fn ticket(&mut self, reader: &Reader<S>) -> u64
        ensures { draws self.old reader.now (ticket_drawn result) self.new };

    /// Returns the next random word for a reader.
    fn random(&mut self, reader: &Reader<S>) -> u64
        ensures { draws self.old reader.now (random_drawn result) self.new };

    /// Returns the load of a backend, for a reader.
    fn load(&self, reader: &Reader<S>, backend: &Backend) -> u64
        ensures { draws self.now reader.now (load_drawn backend.now result) self.now };

    // A reader stays the port's own while words are drawn for it and while backends are asked for.
    ghost draws_keep: { (p : Self) (r : ReaderValue S.Config) (d : Draw) (q : Self) → draws p r d q
        → Self.owns_reader p r → Self.owns_reader q r };

    ghost readies_keep: { (p : Self) (r : ReaderValue S.Config) (b : Member) (a : Bool) (q : Self) → readies p r b a q
        → Self.owns_reader p r → Self.owns_reader q r };
}

/// A port that takes back refused jobs and built selectors, of jobs that it gave out itself.
pub trait TakesBuilds<J, B> {
    // Which of them are its own.
    ghost owns_refused: { Self → J → Type 0 };

    ghost owns_built: { Self → B → Type 0 };

    // What taking one back leaves, and what it returns.
    ghost failed: { Self → J → ℕ → Self → Type 0 };

    ghost published: { Self → B → Publication → Self → Type 0 };

    /// Takes back a job whose build was refused, at the moment `now`.
    fn fail(&mut self, refused: J, now: u128)
        requires { owns_refused self.old refused }
        ensures { failed self.old refused now self.new };

    /// Takes a selector that was built, to be served where it is still wanted.
    fn publish(&mut self, built: B) -> Publication
        requires { owns_built self.old built }
        ensures { published self.old built result self.new };
}

/// The calls of a group that a worker makes.
pub trait WorkPort<S: BackendSelection>: TakesBuilds<RefusedJob<S>, Built<S>> {
    // Which jobs are its own.
    ghost owns_job: { Self → Task S.Config → Type 0 };

    ghost asked: { Self → ℕ → ℕ → Result (Ask S S.Config S.Walk) Refusal → Self → Type 0 };

    ghost taken: { Self → ℕ → Result RetiredValue Refusal → Self → Type 0 };

    ghost reported: { Self → ℕ → PermitValue → Self → Type 0 };

    // Whether the permit of a destroyed selector is owed to that slot.
    ghost owns_permit: { Self → ℕ → PermitValue → Type 0 };

    /// Asks for the build that a slot needs next.
    fn ask(&mut self, slot: usize, now: u128) -> Result<Ask<S>, Refusal>
        ensures answer { asked self.old slot now result self.new }
        ensures own { IfJob result (λ j. owns_job self.new j) };

    /// Takes a retired selector out of its slot, to be destroyed and then reported.
    fn take_retired(&mut self, slot: usize) -> Result<Retired<S>, Refusal>
        ensures answer { taken self.old slot result self.new }
        ensures own { IfOk result (λ r. owns_permit self.new slot (owed_of r)) };

    /// Takes the report that the selector which was taken out of that slot is destroyed.
    fn destroyed(&mut self, slot: usize, permit: OwedPermit)
        requires { owns_permit self.old slot permit }
        ensures { reported self.old slot permit self.new };

    // What is built of a job of its own is its own too, whenever the build ended.
    ghost built_of: { (p : Self) (t : Task S.Config) (ended : ℕ) → owns_job p t
        → Self.owns_built p (record { task = t; ended = ended }) };

    // And so is a job whose build was refused.
    ghost refused_of: { (p : Self) (t : Task S.Config) (e : Refusal) → owns_job p t → Self.owns_refused p (refused_build t e) };
}

/// The calls of a group with its registry and its gate. No lock is held between two of them.
pub trait GroupPort<S: BackendSelection>: SchedulePort + SelectPort<S> + WorkPort<S> {}
