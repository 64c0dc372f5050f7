//! The gate of selector rebuilds: it gives out one permit at a time, which stays in the slot of an extra selector until that selector
//! is destroyed: a slot with one so shows that the gate isn't free.
//! The permit carries the only writing seat of the gate's word, so two permits of one gate cannot both exist, whichever threads hold them.
ghost use Rattle.std.specs.Prelude.{◌≡◌, ◌≢◌, true, false, IfOk, IfErr, IfSome, IfNone};
ghost use Rattle.lb_rebuild_core.specs.Gate.{gate};

use crate::gate_rule::{GateMark, OneWriter, StoresGate};
use atomic_table::{Seat, Table};
use lb_select_base::refusal::Refusal;
use std::alloc::Global;
use std::marker::Model;

/// The right to one extra selector, from the grant of a gate until it is given back to the same gate.
///
/// It cannot be dropped: its owner gives it back, or passes it on. Contracts see which gate it is of.
pub struct Permit {
    seat: Seat<(), GateMark>,
}

impl Model for Permit {
    ghost use Rattle.std.specs.Prelude.{◌≡◌, []};
    ghost use Rattle.lb_rebuild_core.specs.Gate.{GateId, gate_id_coded};

    ghost Value = { GateId };

    ghost coded = { gate_id_coded };

    ghost use Rattle.lb_rebuild_core.specs.Internal.GateRule.{writer};

    ghost view = { λ p. p.seat.table_id };

    ghost invariant = { λ p. (p.seat.id ≡ 0) × (p.seat.me ≡ (writer 1, [])) };
}

/// A gate. It is free, or its permit is out.
///
/// Contracts see which gate it is, by a number that no other gate has, and whether its permit is out.
#[derive(Drop)]
pub struct GateCore {
    table: Table<(), GateMark, (), OneWriter, Global>,
    home: Option<Seat<(), GateMark>>,
}

impl Model for GateCore {
    ghost use Rattle.std.specs.Prelude.{◌≡◌, [], IfSome};
    ghost use Rattle.lb_rebuild_core.specs.Gate.{GateValue, is_absent};

    ghost Value = { GateValue };

    ghost use Rattle.lb_rebuild_core.specs.Internal.GateRule.{writer};

    ghost view = { λ g. record { id = g.table.shared.table_id; out = is_absent g.home } };

    ghost invariant = { λ g. (g.table.shared.table_id.words ≡ 1)
        × IfSome g.home (λ s. (s.table_id ≡ g.table.shared.table_id) × (s.id ≡ 0) × (s.me ≡ (writer 0, []))) };
}

impl GateCore {
    /// Returns a free gate that differs from every other gate.
    ///
    /// # Errors
    ///
    /// `OutOfMemory` where the memory for the gate's word is refused.
    pub fn new(alloc: Global) -> Result<GateCore, Refusal>
        ensures free { IfOk result (λ g. g.out ≡ false) }
        ensures refused { IfErr result (λ e. e ≡ Refusal.OutOfMemory) }
    {
        let (table, seat) = Table::of_words(alloc, &[0], &())?;
        Ok(GateCore {
            table,
            home: Some(seat),
        })
    }

    /// Grants the gate's permit and returns it, or `None` exactly where it is out. It takes no memory.
    pub fn grant(&mut self) -> Option<Permit>
        ensures some { IfSome result (λ p. (self.old.out ≡ false) × (p ≡ self.old.id) × (self.new ≡ gate self.old.id true)) }
        ensures none { IfNone result ((self.old.out ≡ true) × (self.new ≡ self.old)) }
    {
        let mut seat = self.home.take()?;
        self.table.shared.store::<StoresGate>(&mut seat, 0, 1);
        Some(Permit { seat })
    }

    /// Takes back the gate's own permit: the gate is free again.
    pub fn give_back(&mut self, permit: Permit)
        requires { permit ≡ self.old.id }
        ensures { self.new ≡ gate self.old.id false }
    {
        let Permit { mut seat } = permit;
        self.table.shared.store::<StoresGate>(&mut seat, 0, 0);
        self.home = Some(seat);
    }

    /// Shows that a gate whose permit is held elsewhere counts it as out. It changes nothing.
    pub fn is_out(&mut self, permit: &mut Permit)
        requires { permit.old ≡ self.old.id }
        ensures out { self.old.out ≡ true }
        ensures same { (self.new ≡ self.old) × (permit.new ≡ permit.old) }
    {
        if let Some(seat) = &mut self.home {
            seats_apart(seat, &mut permit.seat);
        }
    }
}

impl Permit {
    /// Shows that two permits that are held at once are of different gates. It takes no memory and changes neither.
    pub fn apart(a: &mut Permit, b: &mut Permit)
        ensures apart { a.old ≢ b.old }
        ensures same { (a.new ≡ a.old) × (b.new ≡ b.old) }
    {
        seats_apart(&mut a.seat, &mut b.seat);
    }

    // Ends the permit for good, as where a slot is dropped with a permit in it: its gate never grants again.
    pub(crate) fn end(self) {
        let Permit { seat: _ } = self;
    }
}

// A seat owns three quarters of its record under its table's name and its own number, so two seats of one number are of different tables.
pub(crate) fn seats_apart<S, V>(a: &mut Seat<S, V>, b: &mut Seat<S, V>)
    requires { a.old.id ≡ b.old.id }
    ensures { (a.old.table_id ≢ b.old.table_id) × (a.new ≡ a.old) × (b.new ≡ b.old) }
{}
