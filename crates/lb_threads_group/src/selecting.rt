//! Selections of threads from a group that they share: in what a lane of the slot has, or else by the group's lock.
ghost use Rattle.std.specs.Prelude.{◌≡◌, Err, IfSome, MatchBool, None, Ok};
ghost use Rattle.lb_balancer_core.specs.Looks.{Answers, is_no_such};
ghost use Rattle.lb_select_base.specs.Copies.{AsCopied};
ghost use Rattle.lb_threads_group.specs.Kept.{IsEntry, SelectedFrom, SelectsUnder};

use crate::group::SharedGroup;
use crate::kept::Entry;
use crate::port::LockedPort;
use lb_balancer_core::select::find_for;
use lb_health_core::health_check::HealthCheck;
use lb_health_core::keys::KeyRule;
use lb_rebuild_core::retired::Reader;
use lb_select_base::backend::Backend;
use lb_select_base::refusal::Refusal;
use lb_select_base::select::copied_answer;
use lb_select_base::walk::BackendSelection;
use lb_threads_core::generators::SharedGenerator;
use lb_threads_core::lane::Seen;
use lb_threads_core::lanes::hint_of;
use std::alloc::Global;
use std::sync::Wait;
use std::sync::atomic::Ordering::SeqCst;

impl<S: BackendSelection, R: KeyRule + Drop, C: HealthCheck + Drop> SharedGroup<S, R, C> {
    /// Returns the first backend that `accept` takes among the distinct candidates of what the slot serves, or `None`.
    ///
    /// `accept` is asked with a backend and whether it is ready, while no lock is held. Only the first `max_iterations` candidates are
    /// looked at. It is `None` too where no such slot is there.
    ///
    /// A reader enters the slot for it. Then it leaves, or a lane of the slot keeps it for the selections that follow, in a cancelled group
    /// too. They take no lock but before the slot's first publication, where memory for words was refused, once `let_go` was called, where
    /// other threads keep all four lanes busy that a selection tries, and where a thread that publishes is stopped while it fills lanes.
    /// The worker that publishes fills lanes with readers of what it published, and empties those that had others. One that is read is
    /// emptied once that selection has ended, by the worker, which it wakes then, or by the next call that takes out what is retired.
    ///
    /// # Errors
    ///
    /// `OutOfMemory` where memory is refused, and `NumbersExhausted` where the slot's readers are at 18446744073709551615.
    pub fn select_with<W: Wait, F: Fn(&Backend, bool) -> bool>(
        &self,
        rt: &W,
        alloc: Global,
        slot: usize,
        key: &[u8],
        max_iterations: usize,
        accept: &F,
    ) -> Result<Option<Backend>, Refusal>
        requires { F.IsAlwaysCallable accept.now }
        ensures { SelectedFrom R.gives (λ b ready a. Answers F.Fn accept.now b ready a) max_iterations S.walks key.now self.now slot
            result }
    {
        self.select_at(rt, alloc, slot, hint_of(key), key, max_iterations, accept)
    }

    /// Returns what `select_with` returns, by the lane of this number, modulo the lanes that a slot has.
    ///
    /// Threads whose numbers differ share no lane, so that none waits for a word that another one writes.
    ///
    /// # Errors
    ///
    /// Those of `select_with`.
    pub fn select_at<W: Wait, F: Fn(&Backend, bool) -> bool>(
        &self,
        rt: &W,
        alloc: Global,
        slot: usize,
        lane: u64,
        key: &[u8],
        max_iterations: usize,
        accept: &F,
    ) -> Result<Option<Backend>, Refusal>
        requires { F.IsAlwaysCallable accept.now }
        ensures { SelectedFrom R.gives (λ b ready a. Answers F.Fn accept.now b ready a) max_iterations S.walks key.now self.now slot
            result }
    {
        let Some(seen) = self.seen_in_lane(slot, lane) else {
            return self.select_entering(rt, alloc, slot, lane, key, max_iterations, accept);
        };
        let Some(entry) = self.entry_of(&seen, slot) else {
            self.end_reading(seen);
            return self.select_entering(rt, alloc, slot, lane, key, max_iterations, accept);
        };
        let generator = seen.generator();
        match self.find_as(rt, alloc, entry, generator, key, max_iterations, accept) {
            Ok(Some(found)) => {
                // The step that ends the reading waits until the copy is written, so that is moved after it.
                let copy = found.copied(alloc);
                self.end_reading(seen);
                Ok(Some(copy?))
            }
            Ok(None) => {
                self.end_reading(seen);
                Ok(None)
            }
            Err(refusal) => {
                self.end_reading(seen);
                Err(refusal)
            }
        }
    }

    /// Returns the number of a lane for a thread of its own: 1, and two more with each call, wrapping.
    ///
    /// The first lane of a slot lies next to what every selection reads, and processors fetch lines of memory in pairs.
    pub fn own_lane(&self) -> u64 {
        let readers = self.marks.readers.fetch_add(1, SeqCst);
        readers.wrapping_mul(2).wrapping_add(1)
    }

    // Enters the slot, selects, and puts what was entered into the hint's lane.
    #[cold]
    #[inline(never)]
    fn select_entering<W: Wait, F: Fn(&Backend, bool) -> bool>(
        &self,
        rt: &W,
        alloc: Global,
        slot: usize,
        hint: u64,
        key: &[u8],
        max_iterations: usize,
        accept: &F,
    ) -> Result<Option<Backend>, Refusal>
        requires { F.IsAlwaysCallable accept.now }
        ensures { SelectedFrom R.gives (λ b ready a. Answers F.Fn accept.now b ready a) max_iterations S.walks key.now self.now slot
            result }
    {
        match self.enter_lane(rt, slot) {
            Ok(entry) => {
                let answer = self.select_as(rt, alloc, &entry, key, max_iterations, accept);
                self.keep(rt, hint, entry);
                answer
            }
            Err(refusal) => unentered(refusal),
        }
    }

    // What a lane has.
    pub(crate) fn entry_in<'s>(
        &self,
        seen: &'s Seen<'_, Entry<S, R, C>>,
    ) -> Option<&'s Entry<S, R, C>>
        requires { seen.now.hand.tag ≡ self.now }
        ensures { IfSome result (λ e. IsEntry self.now e.now.slot e.now.reader e.now.found) }
    {
        seen.value()
    }

    // What a lane has, where it is of this slot.
    fn entry_of<'s>(
        &self,
        seen: &'s Seen<'_, Entry<S, R, C>>,
        slot: usize,
    ) -> Option<&'s Entry<S, R, C>>
        requires { seen.now.hand.tag ≡ self.now }
        ensures { IfSome result (λ e. (e.now.slot ≡ slot) × IsEntry self.now e.now.slot e.now.reader e.now.found) }
    {
        match self.entry_in(seen) {
            Some(entry) if entry.slot == slot => Some(entry),
            _ => None,
        }
    }

    // Selects in what was entered.
    fn select_as<W: Wait, F: Fn(&Backend, bool) -> bool>(
        &self,
        rt: &W,
        alloc: Global,
        entry: &Entry<S, R, C>,
        key: &[u8],
        max_iterations: usize,
        accept: &F,
    ) -> Result<Option<Backend>, Refusal>
        requires accept { F.IsAlwaysCallable accept.now }
        requires kept { IsEntry self.now entry.now.slot entry.now.reader entry.now.found }
        ensures { SelectsUnder R.gives (λ b ready a. Answers F.Fn accept.now b ready a) max_iterations S.walks key.now self.now
            entry.now.reader result }
    {
        let generator = &self.generator;
        let found = self.find_as(rt, alloc, entry, generator, key, max_iterations, accept);
        copied_answer(alloc, found)
    }

    // Selects in what was entered, with random words of this generator, and gives what was found in place.
    fn find_as<'e, W: Wait, F: Fn(&Backend, bool) -> bool>(
        &self,
        rt: &W,
        alloc: Global,
        entry: &'e Entry<S, R, C>,
        generator: &'e SharedGenerator,
        key: &[u8],
        max_iterations: usize,
        accept: &F,
    ) -> Result<Option<&'e Backend>, Refusal>
        requires accept { F.IsAlwaysCallable accept.now }
        requires kept { IsEntry self.now entry.now.slot entry.now.reader entry.now.found }
        ensures { AsCopied (SelectsUnder R.gives (λ b ready a. Answers F.Fn accept.now b ready a) max_iterations S.walks key.now self.now
            entry.now.reader) result }
    {
        let mut port = LockedPort {
            group: self,
            rt,
            found: entry.words(),
            generator,
        };
        find_on(alloc, &mut port, &entry.reader, key, max_iterations, accept)
    }
}

// Selects for a reader by this port, and gives what was found in place.
fn find_on<
    'g,
    'r,
    'f,
    'e,
    S: BackendSelection,
    R: KeyRule + Drop,
    C: HealthCheck + Drop,
    W: Wait,
    F: Fn(&Backend, bool) -> bool,
>(
    alloc: Global,
    port: &mut LockedPort<'g, 'r, 'f, S, W, R, C>,
    reader: &'e Reader<S>,
    key: &[u8],
    max_iterations: usize,
    accept: &F,
) -> Result<Option<&'e Backend>, Refusal>
    requires accept { F.IsAlwaysCallable accept.now }
    requires own { reader.now.group ≡ port.old.group.now.core.group.id }
    ensures { AsCopied (SelectsUnder R.gives (λ b ready a. Answers F.Fn accept.now b ready a) max_iterations S.walks key.now
        port.old.group.now reader.now) result }
{
    find_for(alloc, port, reader, key, max_iterations, accept)
}

// What is selected where no reader entered.
fn unentered(refusal: Refusal) -> Result<Option<Backend>, Refusal>
    ensures { MatchBool (is_no_such refusal) (result ≡ Ok None) (result ≡ Err refusal) }
{
    match refusal {
        Refusal::NoSuch => Ok(None),
        refusal => Err(refusal),
    }
}
