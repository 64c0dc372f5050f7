//! A new membership of a group: whether it differs from the newest, and an order for each slot.
//! What takes memory is made here before anything changes.
ghost use Rattle.std.specs.Prelude.{◌≡◌, map, length, IfOk};
ghost use Rattle.std.specs.Arc.{arc_value};
ghost use Rattle.std.specs.List.{list_all, list_any};
ghost use Rattle.lb_select_base.specs.Backends.{same_member};
ghost use Rattle.lb_select_base.specs.Memberships.{same_members as are_same};
ghost use Rattle.lb_rebuild_core.specs.Internal.Fresh.{turn_of};
ghost use Rattle.lb_rebuild_core.specs.Orders.{order_for, AreOrdered};
ghost use Rattle.lb_rebuild_core.specs.SlotSeen.{slot_value};

use crate::job::Order;
use crate::slot::Slot;
use lb_select_base::backend::Backend;
use lb_select_base::walk::BackendSelection;
use std::alloc::{AllocError, Global};
use std::collections::BTreeSet;
use std::marker::Model;
use std::sync::Arc;

/// What a membership did to a slot.
#[derive(Clone, Copy, Debug, PartialEq, Eq)]
pub enum SlotTurn {
    /// The slot had a flight or waited; it goes on, and is asked for the new membership later.
    Running,
    /// The slot had neither; it waits from now on until it is asked.
    Start,
}

/// The answer to a membership.
#[derive(Debug, Drop)]
pub struct Scheduled {
    /// The newest generation, from now on.
    pub generation: u64,
    /// Whether the membership was another one than the newest.
    pub changed: bool,
    /// What it did to each slot; nothing where it was the same.
    pub turns: Vec<SlotTurn>,
}

/// A changed membership of which a group has all at hand that takes memory. Nothing has changed yet.
///
/// Contracts see the generation, the members, what it finds each slot doing, and each slot's order.
#[derive(Drop)]
pub struct Prepared<C: Drop> {
    pub(crate) generation: u64,
    pub(crate) members: Arc<BTreeSet<Backend>>,
    pub(crate) turns: Vec<SlotTurn>,
    pub(crate) orders: Vec<Order<C>>,
}

impl<C: Drop> Model for Prepared<C> {
    ghost use Rattle.std.specs.Arc.{arc_value};
    ghost use Rattle.lb_rebuild_core.specs.Values.{PreparedValue};

    ghost Value = { PreparedValue C };

    ghost view = { λ p. record {
      generation = p.generation;
      members = (arc_value p.members).keys;
      turns = p.turns.items;
      orders = p.orders.items;
    } };
}

// Whether two memberships list the same backends, by identity.
pub(crate) fn same_members(discovered: &BTreeSet<Backend>, current: &BTreeSet<Backend>) -> bool
    ensures { result ≡ are_same discovered.now.keys current.now.keys }
{
    is_subset(discovered, current) && is_subset(current, discovered)
}

fn is_subset(backends: &BTreeSet<Backend>, others: &BTreeSet<Backend>) -> bool
    ensures { result ≡ list_all (λ x. list_any (same_member x) others.now.keys) backends.now.keys }
{
    backends.iter().all(|backend| others.contains(backend))
}

// A shared copy of a membership.
pub(crate) fn shared(
    alloc: Global,
    members: &BTreeSet<Backend>,
) -> Result<Arc<BTreeSet<Backend>>, AllocError>
    ensures { IfOk result (λ copy. (arc_value copy).keys ≡ members.now.keys) }
{
    let copy = Arc::new(alloc, members.clone()?)?;
    Ok(copy)
}

// What a new membership does to each slot, where `newest` is the generation before it.
pub(crate) fn turns_of<S: BackendSelection>(
    alloc: Global,
    slots: &[Slot<S>],
    newest: u64,
) -> Result<Vec<SlotTurn>, AllocError>
    ensures { IfOk result (λ turns. turns.items ≡ map (λ x. turn_of newest (slot_value x)) slots.now) }
{
    let mut turns = Vec::new(alloc);
    for slot in slots {
        turns.push(slot.turn(newest))?;
    }
    Ok(turns)
}

// An order for each slot, of a membership that is to be the newest.
pub(crate) fn orders_for<S: BackendSelection>(
    alloc: Global,
    slots: &[Slot<S>],
    generation: u64,
    members: &Arc<BTreeSet<Backend>>,
) -> Result<Vec<Order<S::Config>>, AllocError>
    ensures { IfOk result (λ orders. orders.items ≡ map (λ x. order_for generation (arc_value members.now).keys (slot_value x)) slots.now) }
{
    let mut orders = Vec::new(alloc);
    for slot in slots {
        let order = Order {
            generation,
            members: members.clone()?,
            config: slot.config.clone()?,
        };
        orders.push(order)?;
    }
    Ok(orders)
}

// Lets the orders wait, each in its slot; `newest` is the generation before theirs.
pub(crate) fn hand_out<S: BackendSelection>(
    slots: &mut Vec<Slot<S>>,
    newest: u64,
    mut orders: Vec<Order<S::Config>>,
)
    requires { length orders.items ≡ length slots.old.items }
    ensures { AreOrdered newest slots.old.items orders.items slots.new.items }
{
    while let Some(order) = orders.pop() {
        let slot = orders.len();
        slots[slot].order(newest, order);
    }
}
