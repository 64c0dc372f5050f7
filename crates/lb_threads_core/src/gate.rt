//! A gate of selector rebuilds that threads share. Permits are granted and given back under its lock, which is held for one call of a
//! group.
ghost use Rattle.std.specs.Prelude.{◌≡◌, IfErr, IfOk, IfSome};

use crate::lock::{KeyedLock, TakenValue};
use crate::rule::LockRule;
use crate::wakes::Wakes;
use lb_rebuild_core::gate::{GateCore, Permit};
use lb_select_base::refusal::Refusal;
use std::alloc::Global;
use std::marker::Model;
use std::snapshot::Snapshot;
use std::sync::Wait;

/// The gate under the lock is the one that the lock was made with.
pub struct OfGate {}

impl LockRule<GateCore, Snapshot<GateCore>> for OfGate {
    ghost holds = { λ key gate. gate.id ≡ key.value.id };
}

/// A gate behind a lock. Contracts see which gate it is and which lock.
pub struct SelectorRebuildGate {
    lock: KeyedLock<GateCore, Snapshot<GateCore>, OfGate>,
    wakes: Wakes,
}

impl Drop for SelectorRebuildGate {
    fn drop(self) {
        let SelectorRebuildGate { lock: _, wakes: _ } = self;
    }
}

impl Model for SelectorRebuildGate {
    ghost use Rattle.lb_threads_core.specs.Gates.{GateHandle};

    ghost Value = { GateHandle };

    ghost view = { λ g. record { id = g.lock.table.shared.key.value.id; lock = g.lock.table.shared.table_id } };
}

impl SelectorRebuildGate {
    /// Returns a free gate that differs from every other gate.
    ///
    /// # Errors
    ///
    /// `OutOfMemory` where memory is refused.
    pub fn new(alloc: Global) -> Result<SelectorRebuildGate, Refusal>
        ensures { IfErr result (λ e. e ≡ Refusal.OutOfMemory) }
    {
        SelectorRebuildGate::of(alloc, GateCore::new(alloc)?)
    }

    /// Returns this gate behind a lock, for threads.
    ///
    /// # Errors
    ///
    /// `OutOfMemory` where memory is refused.
    pub fn of(alloc: Global, gate: GateCore) -> Result<SelectorRebuildGate, Refusal>
        ensures same { IfOk result (λ g. g.id ≡ gate.id) }
        ensures refused { IfErr result (λ e. e ≡ Refusal.OutOfMemory) }
    {
        let key = Snapshot::of(&gate);
        let lock = KeyedLock::new(alloc, gate, &key)?;
        Ok(SelectorRebuildGate {
            lock,
            wakes: Wakes::new(),
        })
    }

    /// Returns what wakes the workers of all the gate's groups.
    pub fn wakes(&self) -> &Wakes {
        &self.wakes
    }

    /// Takes the gate's permit and returns it, or `None` where it is out. It takes no memory.
    pub fn grant<R: Wait>(&self, rt: &R) -> Option<Permit>
        ensures { IfSome result (λ p. p ≡ self.now.id) }
    {
        // `_lock` is for the prover alone: it shows it the lock's fact, and does nothing at run time.
        let _lock = &self.lock;
        let mut held = self.lock.take(rt);
        let permit = held.value.grant();
        self.lock.put(held);
        permit
    }

    /// Takes back the gate's own permit: the gate is free again.
    pub fn give_back<R: Wait>(&self, rt: &R, permit: Permit)
        requires { permit ≡ self.now.id }
    {
        let _lock = &self.lock;
        let mut held = self.lock.take(rt);
        held.value.give_back(permit);
        self.lock.put(held);
    }
}

/// Takes the gate itself out of its lock, for one call of a group; `put_gate` ends it.
///
/// The thread sleeps while another one has it. It is for the crates of this library: the crate that users take doesn't pass it on.
pub fn take_gate<R: Wait>(
    gate: &SelectorRebuildGate,
    rt: &R,
) -> TakenValue<GateCore, Snapshot<GateCore>>
    ensures gate { result.value.id ≡ gate.now.id }
    ensures here { result.seat.table_id ≡ gate.now.lock }
{
    gate.lock.take(rt)
}

/// Puts the gate back under its lock.
pub fn put_gate(gate: &SelectorRebuildGate, held: TakenValue<GateCore, Snapshot<GateCore>>)
    requires gate { held.value.id ≡ gate.now.id }
    requires here { held.seat.table_id ≡ gate.now.lock }
{
    gate.lock.put(held);
}
