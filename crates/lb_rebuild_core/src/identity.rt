//! The identity of a group, by which it differs from every other one. Only clauses see it, and it has no bytes. It is the first seat of a
//! table of its own, and two seats of one number are never of one table.
ghost use Rattle.std.specs.Prelude.{◌≡◌, ◌≢◌, IfErr};

use crate::gate::seats_apart;
use atomic_table::{Seat, Table, TableRule};
use lb_select_base::refusal::Refusal;
use std::alloc::Global;
use std::marker::Model;

/// Which group it is. Contracts see something that no other identity has.
#[derive(Drop)]
pub struct Identity {
    seat: Seat<(), ()>,
}

impl Model for Identity {
    ghost use Rattle.std.specs.Prelude.{◌≡◌};
    ghost use Rattle.lb_rebuild_core.specs.Gate.{GroupId, group_id_coded};

    ghost Value = { GroupId };

    ghost coded = { group_id_coded };

    ghost view = { λ i. i.seat.table_id };

    ghost invariant = { λ i. i.seat.id ≡ 0 };
}

/// The rule of a table that says nothing: it is there for its seat alone.
struct Silent {}

impl TableRule<(), (), ()> for Silent {
    ghost holds = { λ _ _. Unit {0} };

    ghost first = { λ _. tt };
}

impl Identity {
    /// Returns an identity that differs from every other one.
    ///
    /// # Errors
    ///
    /// `OutOfMemory` where memory for the table is refused. What it takes is given back before it ends.
    pub fn new(alloc: Global) -> Result<Identity, Refusal>
        ensures { IfErr result (λ e. e ≡ Refusal.OutOfMemory) }
    {
        let (_table, seat): (Table<(), (), (), Silent, Global>, Seat<(), ()>) = Table::of_words(
            alloc,
            &[],
            &(),
        )?;
        Ok(Identity { seat })
    }

    /// Shows that two identities differ. It takes no memory and changes neither.
    pub fn apart(a: &mut Identity, b: &mut Identity)
        ensures apart { a.old ≢ b.old }
        ensures same { (a.new ≡ a.old) × (b.new ≡ b.old) }
    {
        seats_apart(&mut a.seat, &mut b.seat);
    }
}
