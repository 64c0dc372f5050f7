//! Targets: which backends of the views are checked, one for each health key.
//! The first backend of a key is its target, by view and then in the order of the set.
ghost use Rattle.std.specs.Prelude.{◌≡◌, ◌++◌, List, [], map, filter, not, IfOk, OnOk, OnErr, Err};
ghost use Rattle.lb_select_base.specs.Backends.{Member};
ghost use Rattle.lb_health_core.specs.Keys.{IsRuleOf};
ghost use Rattle.lb_health_core.specs.Internal.Gathering.{Gathers};
ghost use Rattle.lb_health_core.specs.Targets.{Candidate, candidates_of, view_value, live, targets_in, target_keys};

use crate::keys::KeyRule;
use lb_select_base::backend::Backend;
use lb_select_base::refusal::Refusal;
use std::alloc::Global;
use std::collections::{BTreeMap, BTreeSet};

/// A view of a registry: its number, whether its removal waits, its membership.
#[derive(Drop)]
pub struct View {
    pub(crate) id: u64,
    pub(crate) marked: bool,
    pub(crate) members: BTreeSet<Backend>,
}

/// The place of a backend among the targets: by identity, then by the number of its view.
#[derive(Debug, Drop, PartialEq, Eq, PartialOrd, Ord)]
pub struct TargetPlace {
    pub(crate) backend: Backend,
    pub(crate) view: u64,
}

/// A backend that is checked, with the number of its cell and whether it is healthy.
#[derive(Debug, Drop)]
pub struct Target {
    pub backend: Backend,
    pub cell: u64,
    pub healthy: bool,
}

// What was gathered so far: the keys that have their target, and the targets in order.
#[derive(Drop)]
pub(crate) struct Gathered {
    pub(crate) taken: BTreeSet<Backend>,
    pub(crate) order: BTreeMap<TargetPlace, Backend>,
}

// Adds the backends of a view whose keys have no target yet.
fn gather<R: KeyRule>(
    alloc: Global,
    rule: &R,
    id: u64,
    members: &BTreeSet<Backend>,
    gathered: &mut Gathered,
) -> Result<(), Refusal>
    ensures ok { OnOk result ((key_of : Member → Member) (before : List Candidate) → IsRuleOf R.gives rule.now key_of
        → Gathers before gathered.old → Gathers (before ++ candidates_of key_of id members.now.keys) gathered.new) }
    ensures refused { OnErr result (result ≡ Err Refusal.OutOfMemory) }
{
    for backend in members {
        let key = rule.key(alloc, backend)?;
        if !gathered.taken.contains(&key) {
            let place = TargetPlace {
                backend: backend.clone()?,
                view: id,
            };
            gathered.taken.insert(key.clone()?)?;
            gathered.order.insert(place, key)?;
        }
    }
    Ok(())
}

// The targets of the views that no mark waits for, in order, with their keys.
pub(crate) fn live_order<R: KeyRule>(
    alloc: Global,
    rule: &R,
    views: &[View],
) -> Result<BTreeMap<TargetPlace, Backend>, Refusal>
    ensures ok { IfOk result (λ order. (key_of : Member → Member) → IsRuleOf R.gives rule.now key_of
        → order.entries ≡ targets_in key_of (live (map view_value views.now))) }
    ensures refused { OnErr result (result ≡ Err Refusal.OutOfMemory) }
{
    let mut gathered = Gathered {
        taken: BTreeSet::new(alloc),
        order: BTreeMap::new(alloc),
    };
    for view in views {
        if !view.marked {
            gather(alloc, rule, view.id, &view.members, &mut gathered)?;
        }
    }
    Ok(gathered.order)
}

// Their keys alone.
pub(crate) fn live_keys<R: KeyRule>(
    alloc: Global,
    rule: &R,
    views: &[View],
) -> Result<Vec<Backend>, Refusal>
    ensures ok { IfOk result (λ keys. (key_of : Member → Member) → IsRuleOf R.gives rule.now key_of
        → keys.items ≡ target_keys key_of (live (map view_value views.now))) }
    ensures refused { OnErr result (result ≡ Err Refusal.OutOfMemory) }
{
    let order = live_order(alloc, rule, views)?;
    let mut keys = Vec::new(alloc);
    keys.reserve(order.len())?;
    for key in order.into_values() {
        keys.push(key)?;
    }
    Ok(keys)
}
