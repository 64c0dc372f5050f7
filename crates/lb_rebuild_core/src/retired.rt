//! Selectors that are served or were, and the readers that are in them.
//! The gate's permit stays in the slot of a retired selector until it is destroyed and reported.
ghost use Rattle.std.specs.Prelude.{◌≡◌, ◌+◌, ◌%◌, ◌^◌};
ghost use Rattle.std.specs.Arc.{arc_value};
ghost use Rattle.std.specs.Fn.{FnReturnsAt};
ghost use Rattle.lb_select_base.specs.Backends.{same_member};
ghost use Rattle.lb_select_base.specs.Selections.{Selects};

use crate::gate::Permit;
use crate::place::SlotPlace;
use lb_select_base::backend::Backend;
use lb_select_base::refusal::Refusal;
use lb_select_base::select::select;
use lb_select_base::walk::BackendSelection;
use lb_select_base::words::WordSource;
use std::alloc::Global;
use std::marker::Model;
use std::snapshot::Snapshot;
use std::sync::Arc;

// A selector with the generation that it was built for, and the tickets drawn from its counter so far.
#[derive(Drop)]
pub(crate) struct ServedSelector<S: BackendSelection> {
    pub(crate) generation: u64,
    pub(crate) selector: Arc<S>,
    pub(crate) tickets: u64,
}

impl<S: BackendSelection> Model for ServedSelector<S> {
    ghost use Rattle.std.specs.Arc.{arc_value};
    ghost use Rattle.lb_rebuild_core.specs.Values.{ServingValue};

    ghost Value = { ServingValue S.Config };

    ghost view = { λ s. record {
      generation = s.generation;
      members = S.members (arc_value s.selector);
      config = S.built_with (arc_value s.selector);
      tickets = s.tickets;
    } };
}

impl<S: BackendSelection> ServedSelector<S> {
    // The next ticket of its counter, which wraps at 2^64.
    pub(crate) fn draw(&mut self) -> u64
        ensures { (result ≡ self.old.tickets) × (self.new ≡ record self.old { tickets = (self.old.tickets + 1) % 2 ^ 64 }) }
    {
        let ticket = self.tickets;
        self.tickets = ticket.wrapping_add(1);
        ticket
    }
}

/// A selector that is no longer served, and was taken out of its slot.
///
/// It cannot be dropped. Contracts see its group, its slot, its generation, and of which gate the permit is that its slot keeps for it.
pub struct Retired<S: BackendSelection> {
    pub(crate) place: SlotPlace,
    pub(crate) serving: ServedSelector<S>,
    pub(crate) permit: Snapshot<Permit>,
}

impl<S: BackendSelection> Model for Retired<S> {
    ghost use Rattle.lb_rebuild_core.specs.Values.{RetiredValue};

    ghost Value = { RetiredValue };

    ghost view = { λ r. record {
      group = r.place.group;
      slot = r.place.slot;
      generation = r.serving.generation;
      permit = r.permit.value;
    } };
}

impl<S: BackendSelection> Retired<S> {
    /// Returns the generation that it was built for.
    pub fn generation(&self) -> u64
        ensures { result ≡ self.now.generation }
    {
        let serving = &self.serving;
        serving.generation
    }

    /// Drops the selector, outside all locks, and returns what is to be reported.
    pub fn destroy(self) -> OwedPermit
        ensures { result ≡ record { group = self.group; slot = self.slot; gate = self.permit } }
    {
        let Retired {
            place,
            serving: _,
            permit,
        } = self;
        OwedPermit { place, permit }
    }
}

/// A selector was taken out of a slot and is destroyed. That is to be reported, for the slot's permit to go back; it cannot be dropped.
///
/// Contracts see the group and the slot that it is owed to, and of which gate the permit is.
pub struct OwedPermit {
    pub(crate) place: SlotPlace,
    pub(crate) permit: Snapshot<Permit>,
}

impl Model for OwedPermit {
    ghost use Rattle.lb_rebuild_core.specs.Values.{PermitValue};

    ghost Value = { PermitValue };

    ghost view = { λ p. record { group = p.place.group; slot = p.place.slot; gate = p.permit.value } };
}

impl OwedPermit {
    // Ends it for good, unreported.
    pub(crate) fn end(self) {
        let OwedPermit {
            place: _,
            permit: _,
        } = self;
    }
}

/// An entry into the selector that a slot served then. It is to be given back to the slot, and cannot be dropped.
///
/// Contracts see its group, the slot, the generation, and of which members and with which configuration the selector was built.
pub struct Reader<S: BackendSelection> {
    pub(crate) place: SlotPlace,
    pub(crate) generation: u64,
    pub(crate) selector: Arc<S>,
}

impl<S: BackendSelection> Model for Reader<S> {
    ghost use Rattle.std.specs.Arc.{arc_value};
    ghost use Rattle.lb_rebuild_core.specs.Values.{ReaderValue};

    ghost Value = { ReaderValue S.Config };

    ghost view = { λ r. record {
      group = r.place.group;
      slot = r.place.slot;
      generation = r.generation;
      members = S.members (arc_value r.selector);
      config = S.built_with (arc_value r.selector);
    } };
}

impl<S: BackendSelection> Reader<S> {
    /// Returns the slot that was entered.
    pub fn slot(&self) -> usize
        ensures { result ≡ self.now.slot }
    {
        let place = &self.place;
        place.slot
    }

    /// Returns the generation of the selector that was entered.
    pub fn generation(&self) -> u64
        ensures { result ≡ self.now.generation }
    {
        self.generation
    }

    /// Returns a borrow of the selector that was entered, which ends before the reader leaves.
    pub fn selector(&self) -> &S
        ensures members { S.members result.now ≡ self.now.members }
        ensures config { S.built_with result.now ≡ self.now.config }
    {
        &self.selector
    }

    /// Selects from the selector that was entered: the first backend that `accept` accepts of the distinct ones among the first
    /// `limit` candidates of its walk for `key`, or `None` where it accepts none of them. Refused for memory alone.
    pub fn select<W: WordSource, F: Fn(&Backend) -> bool>(
        &self,
        alloc: Global,
        key: &[u8],
        words: &mut W,
        limit: usize,
        accept: &F,
    ) -> Result<Option<Backend>, Refusal>
        requires { F.IsAlwaysCallable accept.now }
        ensures { Selects same_member (λ b r. FnReturnsAt F.Fn accept.now b r) limit W.gives
            (S.walks self.now.members self.now.config key.now) words.old result words.new }
    {
        select(alloc, &self.selector, key, words, limit, accept)
    }

    // Ends the reader for good.
    pub(crate) fn end(self) {
        let Reader {
            place: _,
            generation: _,
            selector: _,
        } = self;
    }
}
