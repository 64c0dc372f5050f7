//! Making a group from its parts.
ghost use Rattle.std.specs.Prelude.{◌≡◌, ◌+◌, ◌⊎◌, [], Some, None, map, length, IfErr, IfOk, IfSome, IfNone};
ghost use Rattle.std.specs.Arc.{arc_value};
ghost use Rattle.lb_select_base.specs.Refusals.{least};
ghost use Rattle.lb_rebuild_core.specs.GroupCalls.{IsMakingRefusal};
ghost use Rattle.lb_balancer_core.specs.SlotConfigs.{slot_configs};
ghost use Rattle.lb_threads_core.specs.Registry.{SeenIn};
ghost use Rattle.lb_threads_core.specs.View.{HasNumber, IsFull, IsMadeWithView};
ghost use Rattle.lb_balancer_group.specs.Made.{IsNewGroup};

use lb_balancer_core::configured::{Configured, SlotConfig};
use lb_balancer_core::slot_configs::least_cause;
use lb_health_core::health_check::HealthCheck;
use lb_health_core::keys::KeyRule;
use lb_rebuild_core::group::GroupCore;
use lb_select_base::refusal::Refusal;
use lb_select_base::walk::BackendSelection;
use lb_threads_core::gate::{SelectorRebuildGate, put_gate, take_gate};
use lb_threads_core::owner::ViewOwner;
use lb_threads_core::registry::{HealthRegistry, put_registry, take_registry};
use lb_threads_group::group::SharedGroup;
use rand_pcg::Pcg64;
use std::alloc::Global;
use std::sync::{Arc, Wait};

// A group with a view of its own in the registry; both locks are held for this one call.
pub(crate) fn make<S: BackendSelection, R: KeyRule + Drop, C: HealthCheck + Drop, W: Wait>(
    rt: &W,
    alloc: Global,
    registry: &HealthRegistry<R, C>,
    gate: &SelectorRebuildGate,
    configs: Vec<S::Config>,
) -> Result<GroupCore<S>, Refusal>
    ensures stands { IfOk result (λ g. IsNewGroup configs.items g) }
    ensures gate { IfOk result (λ g. g.group.gate ≡ gate.now.id) }
    ensures site { IfOk result (λ g. g.registry ≡ registry.now.start.id) }
    ensures slots { IfOk result (λ g. length g.group.slots ≡ length configs.items) }
    ensures view { IsMadeWithView R.gives registry.now.start (least (map (S.refusal []) configs.items)) result (λ g. g.view.id) }
    ensures refused { IsMakingRefusal (least (map (S.refusal []) configs.items)) result }
{
    let mut cells = take_registry(registry, rt);
    let held = take_gate(gate, rt);
    let made = GroupCore::new(alloc, &mut cells.value, &held.value, configs);
    put_gate(gate, held);
    put_registry(registry, cells);
    made
}

// The group behind its lock, for threads, and the owner of its view. Its random words are those of a generator that differs from view to
// view.
pub(crate) fn share<S: BackendSelection, R: KeyRule + Drop, C: HealthCheck + Drop, W: Wait>(
    rt: &W,
    alloc: Global,
    core: GroupCore<S>,
    registry: &Arc<HealthRegistry<R, C>>,
    gate: Arc<SelectorRebuildGate>,
) -> Result<(Arc<SharedGroup<S, R, C>>, ViewOwner), Refusal>
    requires gate { (arc_value gate).id ≡ core.group.gate }
    requires registry { (arc_value registry.now).start.id ≡ core.registry }
    ensures made { IfOk result (λ g. ((arc_value g.0).core ≡ core)
        × ((arc_value g.0).registry ≡ (arc_value registry.now).start)) }
    ensures words { IfOk result (λ g. (arc_value g.0).board.words ≡ length core.group.slots + 1) }
    ensures refused { IfErr result (λ e. e ≡ Refusal.OutOfMemory) }
{
    let generator = Pcg64::new(0, u128::from(core.id()));
    let view = registry.own_view(rt, alloc, core.id())?;
    let registry = Arc::try_clone(registry)?;
    let shared = SharedGroup::new(alloc, core, registry, gate, generator)?;
    Ok((Arc::new(alloc, shared)?, view))
}

// Why a group with these configurations is refused before memory is asked for: the least cause for which one of them gives no selector
// over no backends, and else that no number is left for a view.
pub(crate) fn first_cause<S: BackendSelection, R: KeyRule + Drop, C: HealthCheck + Drop, W: Wait>(
    rt: &W,
    alloc: Global,
    registry: &HealthRegistry<R, C>,
    configs: &[Option<S::Config>],
) -> Option<Refusal>
    ensures some { IfSome result (λ e. (least (map (S.refusal []) (slot_configs S.default_config configs.now)) ≡ Some e)
        ⊎ ((least (map (S.refusal []) (slot_configs S.default_config configs.now)) ≡ None) × (e ≡ Refusal.NumbersExhausted))) }
    ensures none { IfNone result (least (map (S.refusal []) (slot_configs S.default_config configs.now)) ≡ None) }
    ensures exhausted { IfSome result (λ e. least (map (S.refusal []) (slot_configs S.default_config configs.now)) ≡ None
        → SeenIn R.gives registry.now.start (IsFull R.gives)) }
    ensures left { IfNone result (SeenIn R.gives registry.now.start (HasNumber R.gives)) }
{
    match least_cause::<S>(alloc, configs) {
        Some(refusal) => Some(refusal),
        None if registry.is_full(rt) => Some(Refusal::NumbersExhausted),
        None => None,
    }
}

// The same configurations once more.
fn copies_of<S: BackendSelection>(
    alloc: Global,
    configs: &[SlotConfig<S>],
) -> Result<Vec<SlotConfig<S>>, Refusal>
    ensures same { IfOk result (λ c. c.items ≡ configs.now) }
    ensures refused { IfErr result (λ e. e ≡ Refusal.OutOfMemory) }
{
    let mut slots = Vec::new(alloc);
    for config in configs {
        slots.push(config.try_clone()?)?;
    }
    Ok(slots)
}

// A gate for one group.
pub(crate) fn own_gate(alloc: Global) -> Result<Arc<SelectorRebuildGate>, Refusal>
    ensures { IfErr result (λ e. e ≡ Refusal.OutOfMemory) }
{
    let gate = SelectorRebuildGate::new(alloc)?;
    Ok(Arc::new(alloc, gate)?)
}

// A new group over this gate, with a view of its own in the registry. Where no number is left for a view, that is the refusal, before one
// for memory.
pub(crate) fn opened<S: BackendSelection, R: KeyRule + Drop, C: HealthCheck + Drop, W: Wait>(
    rt: &W,
    alloc: Global,
    registry: &Arc<HealthRegistry<R, C>>,
    configs: &[SlotConfig<S>],
    gate: Arc<SelectorRebuildGate>,
) -> Result<(Arc<SharedGroup<Configured<S>, R, C>>, ViewOwner), Refusal>
    requires { least (map (S.refusal []) configs.now) ≡ None }
    ensures made { IfOk result (λ g. IsNewGroup configs.now (arc_value g.0).core) }
    ensures gate { IfOk result (λ g. (arc_value g.0).core.group.gate ≡ (arc_value gate).id) }
    ensures words { IfOk result (λ g. (arc_value g.0).board.words ≡ length configs.now + 1) }
    ensures registry { IfOk result (λ g. (arc_value g.0).registry ≡ (arc_value registry.now).start) }
    ensures view { IsMadeWithView R.gives (arc_value registry.now).start None result (λ g. (arc_value g.0).core.view.id) }
    ensures refused { IfErr result (λ e. (e ≡ Refusal.OutOfMemory) ⊎ (e ≡ Refusal.NumbersExhausted)) }
{
    let copies = match copies_of(alloc, configs) {
        Ok(copies) => copies,
        Err(_) if registry.is_full(rt) => return Err(Refusal::NumbersExhausted),
        Err(_) => return Err(Refusal::OutOfMemory),
    };
    let core: GroupCore<Configured<S>> = make(rt, alloc, &**registry, &*gate, copies)?;
    share(rt, alloc, core, registry, gate)
}
