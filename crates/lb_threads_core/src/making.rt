//! Makes registries that threads share, by their rule of keys.
ghost use Rattle.std.specs.Prelude.{◌≡◌, [], ℕ, IfErr, IfOk};
ghost use Rattle.lb_select_base.specs.Backends.{Member};
ghost use Rattle.lb_health_core.specs.Keys.{by_address, by_identity, by_number};
ghost use Rattle.lb_health_core.specs.Registry.{IsRegistryAfter};

use crate::keyed::{Equivalence, NoRule, Numbered, keyed_by_address, keyed_by_identity};
use crate::registry::HealthRegistry;
use lb_health_core::health_check::HealthCheck;
use lb_health_core::keys::{KeyRule, Rule};
use lb_health_core::registry::Registry;
use lb_select_base::refusal::Refusal;
use std::alloc::Global;

impl<C: HealthCheck + Drop> HealthRegistry<Rule<NoRule>, C> {
    /// Returns a registry that is keyed by identity: backends share a cell where their address and weight are the same.
    ///
    /// It has no views and no check.
    ///
    /// # Errors
    ///
    /// `OutOfMemory` where memory for the lock is refused.
    pub fn new(alloc: Global) -> Result<HealthRegistry<Rule<NoRule>, C>, Refusal>
        ensures made { IfOk result (λ h. IsRegistryAfter ⟦<Rule<NoRule> as KeyRule>⟧.gives by_identity [] h.start) }
        ensures refused { IfErr result (λ e. e ≡ Refusal.OutOfMemory) }
    {
        HealthRegistry::over(alloc, keyed_by_identity(alloc))
    }

    /// Returns a registry that is keyed by address: backends share a cell where their address is the same.
    ///
    /// It has no views and no check.
    ///
    /// # Errors
    ///
    /// `OutOfMemory` where memory for the lock is refused.
    pub fn by_address(alloc: Global) -> Result<HealthRegistry<Rule<NoRule>, C>, Refusal>
        ensures made { IfOk result (λ h. IsRegistryAfter ⟦<Rule<NoRule> as KeyRule>⟧.gives by_address [] h.start) }
        ensures refused { IfErr result (λ e. e ≡ Refusal.OutOfMemory) }
    {
        HealthRegistry::over(alloc, keyed_by_address(alloc))
    }
}

impl<E: Equivalence + Drop, C: HealthCheck + Drop> HealthRegistry<Rule<Numbered<E>>, C> {
    /// Returns a registry that is keyed by a caller's rule: backends share a cell where it gives them the same number.
    ///
    /// It has no views and no check. Where the rule may give a backend several numbers, nothing is known of who shares a cell.
    ///
    /// # Errors
    ///
    /// `OutOfMemory` where memory for the lock is refused.
    pub fn with_equivalence(
        alloc: Global,
        rule: E,
    ) -> Result<HealthRegistry<Rule<Numbered<E>>, C>, Refusal>
        ensures made { IfOk result (λ h. (number_of : Member → ℕ) → ((b : Member) (n : ℕ) → E.numbers rule b n → n ≡ number_of b)
            → IsRegistryAfter ⟦<Rule<Numbered<E>> as KeyRule>⟧.gives (λ b. by_number (number_of b)) [] h.start) }
        ensures refused { IfErr result (λ e. e ≡ Refusal.OutOfMemory) }
    {
        let rule = Rule::Equivalence(Numbered { rule });
        HealthRegistry::over(alloc, Registry::with_rule(alloc, rule))
    }
}
