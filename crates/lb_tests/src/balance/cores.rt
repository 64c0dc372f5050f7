//! A plain group that gets another gate.
ghost use Rattle.std.specs.Prelude.{◌≡◌, IfOk};

use crate::asserted::assert_same;
use crate::balance::balancers::Rows;
use crate::told::Ticks;
use lb_balancer_core::group_core::LoadBalancerGroupCore;
use lb_health_core::registry::RegistryCore;
use lb_health_view::discovery::DiscoverySource;
use lb_rebuild_core::answers::Ask;
use lb_rebuild_core::endings::end_job;
use lb_rebuild_core::gate::GateCore;
use lb_select::least::LeastConnections;
use lb_select_base::refusal::Refusal;
use lb_select_base::walk::BackendSelection;
use std::alloc::Global;
use std::process::Abort;

// Whether the gate's permit is out.
fn is_busy<S: BackendSelection>(ask: Ask<S>) -> bool {
    match ask {
        Ask::Busy => true,
        Ask::Job(job) => {
            end_job(job);
            false
        }
        Ask::Cancelled | Ask::Building | Ask::Nothing | Ask::NotDue(_) => false,
    }
}

type Group = LoadBalancerGroupCore<LeastConnections, Rows>;

// A group with one slot in this registry, on this gate.
fn group_on(alloc: Global, registry: &mut RegistryCore, gate: &GateCore) -> Result<Group, Refusal>
    ensures { IfOk result (λ g. g.group.registry ≡ registry.new.id) }
{
    let mut configs = Vec::new(alloc);
    configs.push(None)?;
    let source = DiscoverySource::Boxed(Rows::from(0));
    LoadBalancerGroupCore::from_backends_with_configs(alloc, registry, gate, source, configs)
}

// Whether the slot of a group that gets this gate asks it, while its permit is out.
fn finds_busy(
    alloc: Global,
    group: &mut Group,
    registry: &mut RegistryCore,
    gate: &mut GateCore,
) -> Result<bool, Refusal>
    requires { registry.old.id ≡ group.old.group.registry }
{
    if group.backend_generation() != 0 {
        return Ok(false);
    }
    group.with_rebuild_gate(gate);
    group.update(alloc, registry, &mut Ticks { next: 0 })?;
    let Some(permit) = gate.grant() else {
        return Ok(false);
    };
    let asked = group.group.ask(0, gate, 10);
    gate.give_back(permit);
    match asked {
        Ok(ask) => Ok(is_busy(ask)),
        Err(_) => Ok(false),
    }
}

// Whether a group that was made on one gate asks another one, which it gets.
fn asks_another_gate(alloc: Global, rt: &impl Abort) -> bool {
    let first = GateCore::new(alloc).expect(rt, "refused");
    let mut gate = GateCore::new(alloc).expect(rt, "refused");
    let mut registry = RegistryCore::new(alloc);
    let mut group = group_on(alloc, &mut registry, &first).expect(rt, "refused");
    finds_busy(alloc, &mut group, &mut registry, &mut gate).expect(rt, "refused")
}

#[test]
fn cores_of_gates(rt: HostRuntime) {
    assert_same(
        &rt,
        &asks_another_gate(rt.alloc(), &rt),
        &true,
        &"another gate",
    );
}
