//! Health keys: the rule by which backends share a cell.
//! A key is a backend with nothing attached, so that keys compare and order as backends do.
ghost use Rattle.std.specs.Prelude.{◌≡◌, ℕ, IfOk, OnErr, Err};
ghost use Rattle.std.specs.Borrow.{Bor};
ghost use Rattle.lb_select_base.specs.AddressText.{bare_member};
ghost use Rattle.lb_select_base.specs.Backends.{Member};
ghost use Rattle.lb_select_base.specs.Seen.{address_seen};
ghost use Rattle.lb_health_core.specs.Keys.{by_number, rule_gives};

use lb_select_base::backend::{Backend, Ext, InetAddr, SocketAddr};
use lb_select_base::refusal::Refusal;
use std::alloc::Global;
use std::cmp::Ordering;

/// What a table of cells asks of its keys: a clone is the same key.
pub trait HealthKey: Ord + Clone + Drop {
    ghost use Rattle.std.specs.Prelude.{◌≡◌};

    ghost clone_is: { (a b : Self) → Self.is_clone a b → b ≡ a };
}

impl HealthKey for Backend {
    ghost clone_is = { λ a b h. h };
}

/// A rule that gives each backend its health key. Backends of one key share a cell.
pub trait KeyRule {
    ghost use Rattle.std.specs.Prelude.{◌≡◌, IfOk, OnErr};
    ghost use Rattle.lb_select_base.specs.Backends.{Member, same_member};
    ghost use Rattle.lb_health_core.specs.Keys.{IsRuleOf};

    ghost gives: { Self → Member → Member → Type 0 };

    /// Returns the key of a backend.
    ///
    /// Refused `OutOfMemory` where there is no room for it.
    fn key(&self, alloc: Global, backend: &Backend) -> Result<Backend, Refusal>
        ensures ok { IfOk result (λ k. gives self.now backend.now k) }
        ensures refused { OnErr result (result ≡ Err Refusal.OutOfMemory) };

    /// Returns whether two backends have one key, without taking memory.
    fn same(&self, backend: &Backend, other: &Backend) -> bool
        ensures { (key_of : Member → Member) → IsRuleOf gives self.now key_of
            → result ≡ same_member (key_of backend.now) (key_of other.now) };
}

/// A caller's rule: backends of one number share a cell. It has to be a function of the backend.
pub type Number = Box<dyn Fn(&Backend) -> u64 + Send + Sync + Drop>;

/// A caller's rule, which may always be called.
#[derive(Drop)]
pub struct ByNumber {
    number: Number,
    ghost callable: { Number.IsAlwaysCallable number },
}

impl ByNumber {
    /// Returns the rule by this function: backends of one number share a cell.
    pub fn new(number: Number) -> ByNumber
        requires { Number.IsAlwaysCallable number }
        ensures { result.number ≡ number }
    {
        ByNumber { number }
    }

    // The number of a backend.
    fn number_of(&self, backend: &Backend) -> u64
        ensures { (r : Bor Member) × (r.now ≡ backend.now) × Number.post self.now.number r result }
    {
        (self.number)(backend)
    }
}

/// The rule by which the backends of a registry share a cell.
#[derive(Drop)]
pub enum Rule<N = ByNumber> {
    /// Those of one address and weight.
    Identity,
    /// Those of one address.
    Address,
    /// Those that the caller's rule says.
    Equivalence(N),
}

// A backend with nothing attached.
fn bare(alloc: Global, addr: &SocketAddr, weight: usize) -> Result<Backend, Refusal>
    ensures ok { IfOk result (λ k. k ≡ bare_member weight (address_seen addr.now)) }
    ensures refused { OnErr result (result ≡ Err Refusal.OutOfMemory) }
{
    Ok(Backend {
        addr: addr.clone()?,
        weight,
        ext: Ext::new(alloc),
    })
}

impl KeyRule for ByNumber {
    ghost gives = { λ rule b k. (n : ℕ) × ((r : Bor Member) × (r.now ≡ b) × Number.post rule.number r n) × (k ≡ by_number n) };

    fn key(&self, alloc: Global, backend: &Backend) -> Result<Backend, Refusal> {
        let number = self.number_of(backend);
        let addr = SocketAddr::Inet(InetAddr::V4([0, 0, 0, 0], 0));
        bare(alloc, &addr, number as usize)
    }

    fn same(&self, backend: &Backend, other: &Backend) -> bool {
        self.number_of(backend) == self.number_of(other)
    }
}

impl<N: KeyRule> KeyRule for Rule<N> {
    ghost gives = { rule_gives N.gives };

    fn key(&self, alloc: Global, backend: &Backend) -> Result<Backend, Refusal> {
        match self {
            Rule::Identity => bare(alloc, &backend.addr, backend.weight),
            Rule::Address => bare(alloc, &backend.addr, 0),
            Rule::Equivalence(rule) => rule.key(alloc, backend),
        }
    }

    fn same(&self, backend: &Backend, other: &Backend) -> bool {
        match self {
            Rule::Identity => backend == other,
            Rule::Address => backend.addr.cmp(&other.addr) == Ordering::Equal,
            Rule::Equivalence(rule) => rule.same(backend, other),
        }
    }
}
