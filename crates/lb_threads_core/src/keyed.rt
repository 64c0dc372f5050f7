//! Rules of keys for registries that threads share: none, and one that a caller's type gives by numbers. A locked registry's type depends
//! on its rule's contract, which a boxed function, as in `ByNumber`, has only as a parameter's; so a caller's rule is a type.
ghost use Rattle.std.specs.Prelude.{◌≡◌, [], ℕ, ⊤};
ghost use Rattle.lb_health_core.specs.Keys.{by_address, by_identity, by_number};
ghost use Rattle.lb_health_core.specs.Registry.{IsRegistryAfter};
ghost use Rattle.lb_select_base.specs.Backends.{Member};

use lb_health_core::keys::{KeyRule, Rule};
use lb_health_core::registry::Registry;
use lb_select_base::backend::{Backend, Ext, InetAddr, SocketAddr};
use lb_select_base::refusal::Refusal;
use std::alloc::Global;

/// The rule where a caller gives none: the key of a backend is its address and weight, as by `Rule::Identity`. A caller's rule is an
/// `Equivalence`, or a type with `KeyRule`; a type that contains one with `ByNumber` has to be generic over its rule.
#[derive(Drop)]
pub struct NoRule;

impl KeyRule for NoRule {
    ghost use Rattle.std.specs.Prelude.{◌≡◌};
    ghost use Rattle.lb_health_core.specs.Keys.{by_identity};

    ghost gives = { λ rule backend key. key ≡ by_identity backend };

    fn key(&self, alloc: Global, backend: &Backend) -> Result<Backend, Refusal> {
        Ok(Backend {
            addr: backend.addr.clone()?,
            weight: backend.weight,
            ext: Ext::new(alloc),
        })
    }

    fn same(&self, backend: &Backend, other: &Backend) -> bool {
        backend == other
    }
}

/// A caller's rule by which backends share a cell: those of one number do. It has to be a function of the backend.
pub trait Equivalence {
    /// Which numbers the rule may give a backend: any, for a rule that doesn't say. What is known of a registry by this rule is known where
    /// these are one number for each backend.
    ghost numbers: { Self → Member → ℕ → Type 0 } = { λ _ _ _. ⊤ };

    /// Returns the number of a backend.
    fn number(&self, backend: &Backend) -> u64
        ensures { numbers self.now backend.now result };
}

/// A caller's rule as a rule of keys: the key of a backend is that of its number.
#[derive(Drop)]
pub struct Numbered<E> {
    pub rule: E,
}

impl<E: Equivalence> KeyRule for Numbered<E> {
    ghost gives = { λ rule backend key. (n : ℕ) × E.numbers rule.rule backend n × (key ≡ by_number n) };

    fn key(&self, alloc: Global, backend: &Backend) -> Result<Backend, Refusal> {
        let number = self.rule.number(backend);
        Ok(Backend {
            addr: SocketAddr::Inet(InetAddr::V4([0, 0, 0, 0], 0)),
            weight: number as usize,
            ext: Ext::new(alloc),
        })
    }

    fn same(&self, backend: &Backend, other: &Backend) -> bool {
        self.rule.number(backend) == self.rule.number(other)
    }
}

/// A registry that is keyed by identity or by address.
pub type KeyedRegistry = Registry<Rule<NoRule>>;

/// Returns a registry without views, whose backends share a cell where their address and weight are the same.
///
/// It is `RegistryCore::new` for threads.
pub fn keyed_by_identity(alloc: Global) -> KeyedRegistry
    ensures { IsRegistryAfter ⟦<Rule<NoRule> as KeyRule>⟧.gives by_identity [] result }
{
    Registry::with_rule(alloc, Rule::Identity)
}

/// Returns a registry without views, whose backends share a cell where their address is the same.
///
/// It is `RegistryCore::by_address` for threads.
pub fn keyed_by_address(alloc: Global) -> KeyedRegistry
    ensures { IsRegistryAfter ⟦<Rule<NoRule> as KeyRule>⟧.gives by_address [] result }
{
    Registry::with_rule(alloc, Rule::Address)
}
