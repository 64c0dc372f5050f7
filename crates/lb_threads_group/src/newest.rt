//! Readiness in the newest membership without a lock: its words, in lanes of their own, which each schedule fills.
ghost use Rattle.std.specs.Prelude.{◌≡◌, IfSome};
ghost use Rattle.std.specs.Arc.{arc_value};
ghost use Rattle.std.specs.List.{list_any};
ghost use Rattle.lb_select_base.specs.Backends.{same_member};
ghost use Rattle.lb_threads_group.specs.Found.{AreNewest, WereNewest};
ghost use Rattle.lb_threads_group.specs.Group.{IsState, NewestReadyUnder};
ghost use Rattle.lb_threads_group.specs.Shared.{SharedValue};

use crate::found::Found;
use crate::group::SharedGroup;
use crate::kept::{LOOKS, Site};
use counted_slot::Fits;
use lb_health_core::health_check::HealthCheck;
use lb_health_core::keys::KeyRule;
use lb_rebuild::watched::Watched;
use lb_select_base::backend::Backend;
use lb_select_base::walk::BackendSelection;
use lb_threads_core::lane::Seen;
use lb_threads_core::marks::spread_of;
use lb_threads_core::registry::{HealthRegistry, put_registry, take_registry};
use std::collections::BTreeSet;
use std::hint::spin_loop;
use std::sync::{Arc, Wait};

/// A membership that was the newest one of its group, and its words.
#[derive(Drop)]
pub struct Newest<S: BackendSelection, R: KeyRule + Drop, C> {
    members: Arc<BTreeSet<Backend>>,
    found: Arc<Found<S, R, C>>,
}

impl<S: BackendSelection, R: KeyRule + Drop, C> Fits for Newest<S, R, C> {
    ghost use Rattle.std.specs.Arc.{arc_value};
    ghost use Rattle.lb_threads_group.specs.Found.{AreNewest};

    type Tag = Site<S, R, C>;

    ghost fits = { λ site newest. AreNewest site (arc_value newest.found) (arc_value newest.members).keys };
}

impl<S: BackendSelection, R: KeyRule + Drop, C> Newest<S, R, C> {
    // The generation.
    fn generation(&self) -> u64 {
        (*self.found).generation()
    }

    // Whether a backend is ready in the newest membership, where the words say it of that one, or it isn't a member.
    fn ready(&self, backend: &Backend) -> Option<bool>
        ensures { (site : SharedValue S.Config R) → AreNewest site (arc_value self.now.found) (arc_value self.now.members).keys
            → IfSome result (NewestReadyUnder R.gives site backend.now) }
    {
        if let Some(ready) = (*self.found).newest_ready(backend, spread_of(backend)) {
            return Some(ready);
        }
        if lists(&self.members, backend) {
            return None;
        }
        Some(false)
    }
}

// Whether these members list a backend.
fn lists(members: &BTreeSet<Backend>, backend: &Backend) -> bool
    ensures { result ≡ list_any (same_member backend.now) members.now.keys }
{
    members.contains(backend)
}

impl<S: BackendSelection, R: KeyRule + Drop, C: HealthCheck + Drop> SharedGroup<S, R, C> {
    // Whether a backend is ready in the newest membership, where a lane has words of it that say so. It takes no lock.
    pub(crate) fn ready_by_words(&self, backend: &Backend) -> Option<bool>
        ensures { IfSome result (NewestReadyUnder R.gives self.now backend.now) }
    {
        // Lanes are turned to a generation before it is noted, so those that are read now have it, or a later one.
        let noted = self.noted_newest()?;
        let seen = self.newest_seen(spread_of(backend) >> 56)?;
        let newest = self.newest_in(&seen)?;
        if self.is_open() && newest.generation() >= noted {
            newest.ready(backend)
        } else {
            None
        }
    }

    // Reads what the hint's lane has on the side that readers use. Where they were turned meanwhile, it looks again: the lane may have been
    // filled by a later schedule, which isn't noted yet, and the next call would go by the one before.
    fn newest_seen(&self, hint: u64) -> Option<Seen<'_, Newest<S, R, C>>>
        ensures { IfSome result (λ s. s.hand.tag ≡ self.now) }
    {
        let _site = &self.site;
        let lanes = &self.newest;
        for _ in 0..LOOKS {
            let side = lanes.side();
            let seen = lanes.read(side, hint, &self.site);
            if lanes.is_used(side) && (seen.is_some() || !side.is_filling()) {
                return seen;
            }
            spin_loop();
        }
        None
    }

    // What a lane has.
    fn newest_in<'s>(&self, seen: &'s Seen<'_, Newest<S, R, C>>) -> Option<&'s Newest<S, R, C>>
        requires { seen.now.hand.tag ≡ self.now }
        ensures { IfSome result (λ n. AreNewest self.now (arc_value n.now.found) (arc_value n.now.members).keys) }
    {
        seen.value()
    }

    // Has words of the newest membership, if it has none yet, and turns `ready` to them. The caller has the group's lock, and notes the
    // newest generation after it. Where memory is refused, `ready` asks group and registry.
    pub(crate) fn show_newest<W: Wait>(&self, rt: &W, group: &Watched<S>)
        requires { IsState self.now.core group.now.core }
    {
        let place = self.slot_count();
        let generation = group.core().newest();
        if self.found_for(rt, place, generation).is_some() {
            return;
        }
        let Some(members) = self.newest_of(group, generation) else {
            return;
        };
        let Some(found) = self.new_found(rt, generation, &members, None) else {
            return;
        };
        self.expect_newest(rt, found);
        // What flags reach from now on.
        if let Some(found) = self.found_for(rt, place, generation) {
            self.note_all_of(rt, group, &*found);
            self.fill_newest(&members, &found);
        }
    }

    // Has flags write these words from now on.
    fn expect_newest<W: Wait>(&self, rt: &W, found: Arc<Found<S, R, C>>)
        requires { (arc_value found).site ≡ self.now }
    {
        if let Some(lock) = self.words_lock(self.slot_count()) {
            let mut held = lock.take(rt);
            let unneeded = held.value.expect(found, None);
            lock.put(held);
            drop(unneeded);
        }
    }

    // Has the words say what group and registry have of each member. Between two members it gives the group's lock back.
    pub(crate) fn note_members<W: Wait>(&self, rt: &W, found: &Found<S, R, C>)
        requires { found.now.site ≡ self.now }
    {
        for mark in found.marks() {
            if let Some(backend) = mark {
                self.note_one(rt, found, backend);
            }
        }
    }

    // Has the words say what group and registry have of a member.
    fn note_one<W: Wait>(&self, rt: &W, found: &Found<S, R, C>, backend: &Backend)
        requires { found.now.site ≡ self.now }
    {
        let _gate = &self.gate;
        let held = self.lock.take(rt);
        held.value.founded();
        self.note_in_group(rt, &held.value, found, backend);
        self.lock.put(held);
    }

    // Has the words say what group and registry have of each member. The caller has the group's lock.
    fn note_all_of<W: Wait>(&self, rt: &W, group: &Watched<S>, found: &Found<S, R, C>)
        requires own { found.now.site ≡ self.now }
        requires state { IsState self.now.core group.now.core }
    {
        for mark in found.marks() {
            if let Some(backend) = mark {
                self.note_in_group(rt, group, found, backend);
            }
        }
    }

    // Has the words say what group and registry have of a member. The caller has the group's lock.
    fn note_in_group<W: Wait>(
        &self,
        rt: &W,
        group: &Watched<S>,
        found: &Found<S, R, C>,
        backend: &Backend,
    )
        requires own { found.now.site ≡ self.now }
        requires state { IsState self.now.core group.now.core }
    {
        let registries: &HealthRegistry<R, C> = &*self.registry;
        let _gate = &self.gate;
        let cells = take_registry(registries, rt);
        found.note(group.core(), &cells.value, backend);
        put_registry(registries, cells);
    }

    // Turns `ready` to lanes that have these members and their words, and empties the others.
    fn fill_newest(&self, members: &Arc<BTreeSet<Backend>>, found: &Arc<Found<S, R, C>>)
        requires { AreNewest self.now (arc_value found.now) (arc_value members.now).keys }
    {
        let _site = &self.site;
        let lanes = &self.newest;
        lanes.begin_filling();
        let before = lanes.side();
        for lane in 0..lanes.count() {
            if let (Ok(members), Ok(found)) = (Arc::try_clone(members), Arc::try_clone(found)) {
                let newest = Newest { members, found };
                drop(lanes.renew(before.other(), lane as u64, newest, &self.site));
            }
        }
        lanes.end_filling(true);
        for lane in 0..lanes.count() {
            drop(lanes.clear(before, lane as u64, &self.site));
        }
    }
}
