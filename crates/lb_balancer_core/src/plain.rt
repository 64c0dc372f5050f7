//! The plain group with what its calls borrow: its registry, its gate, random words and loads.
ghost use Rattle.std.specs.Prelude.{◌≡◌};

use lb_health_core::keys::{ByNumber, Rule};
use lb_health_core::registry::Registry;
use lb_rebuild_core::gate::GateCore;
use lb_rebuild_core::group::GroupCore;
use lb_select_base::loads::Loads;
use lb_select_base::walk::BackendSelection;
use rand_pcg::Pcg64;

/// A plain group, borrowed with its registry, its gate, a generator of random words and the loads of backends.
#[derive(Drop)]
pub struct PlainPort<'c, 'x, 'g, 'w, 'l, S: BackendSelection, R = Rule<ByNumber>, G = Pcg64> {
    pub core: &'c mut GroupCore<S>,
    pub registry: &'x mut Registry<R>,
    pub gate: &'g mut GateCore,
    pub generator: &'w mut G,
    pub loads: &'l Loads,
    ghost tied: { gate.now.id ≡ core.now.group.gate },
    ghost homed: { registry.now.id ≡ core.now.registry },
}
