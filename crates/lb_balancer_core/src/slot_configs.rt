//! The configurations of a group's slots, as they are given: why they make no group, and what its selectors are built with.
ghost use Rattle.std.specs.Prelude.{◌≡◌, [], map, IfErr, IfOk};
ghost use Rattle.lb_select_base.specs.Refusals.{least};
ghost use Rattle.lb_balancer_core.specs.SlotConfigs.{slot_configs};

use crate::configured::SlotConfig;
use lb_select_base::causes::{earlier, refusal_over};
use lb_select_base::refusal::Refusal;
use lb_select_base::walk::BackendSelection;
use std::alloc::Global;
use std::collections::BTreeSet;

/// Returns the least cause for which one of these configurations gives no selector over no backends, memory apart, or `None` where each
/// gives one.
///
/// It builds each selector and drops it.
pub fn least_cause<S: BackendSelection>(
    alloc: Global,
    configs: &[Option<S::Config>],
) -> Option<Refusal>
    ensures { result ≡ least (map (S.refusal []) (slot_configs S.default_config configs.now)) }
{
    let empty = BTreeSet::new(alloc);
    let mut found = None;
    for config in configs {
        found = earlier(found, refusal_over::<S>(alloc, &empty, config.as_ref()));
    }
    found
}

/// Returns the configurations of a group's slots. Refused `OutOfMemory` where memory is refused.
pub fn configs_of<S: BackendSelection>(
    alloc: Global,
    configs: Vec<Option<S::Config>>,
) -> Result<Vec<SlotConfig<S>>, Refusal>
    ensures made { IfOk result (λ c. c.items ≡ slot_configs S.default_config configs.items) }
    ensures refused { IfErr result (λ e. e ≡ Refusal.OutOfMemory) }
{
    let mut slots = Vec::new(alloc);
    for config in configs {
        slots.push(SlotConfig::new(alloc, config)?)?;
    }
    Ok(slots)
}
