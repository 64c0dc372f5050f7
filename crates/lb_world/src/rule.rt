//! The key rules of a world's registries: by identity or by address. No registry of a world has a caller's rule.
ghost use Rattle.std.specs.Prelude.{◌≡◌};

use lb_health_core::keys::{KeyRule, Rule};
use lb_health_core::registry::Registry;
use lb_select_base::backend::{Backend, Ext};
use lb_select_base::refusal::Refusal;
use std::alloc::Global;

/// The rule in the place of a caller's: address and weight, as `Rule::Identity`. No step makes a registry of it.
#[derive(Drop)]
pub struct ByIdentity;

impl KeyRule for ByIdentity {
    ghost use Rattle.lb_world.specs.Rules.{identity_gives};

    ghost gives = { identity_gives };

    fn key(&self, alloc: Global, backend: &Backend) -> Result<Backend, Refusal> {
        Ok(Backend {
            addr: backend.addr.clone()?,
            weight: backend.weight,
            ext: Ext::new(alloc),
        })
    }

    fn same(&self, backend: &Backend, other: &Backend) -> bool {
        backend == other
    }
}

/// A registry of a world.
pub type WorldRegistry = Registry<Rule<ByIdentity>>;
