//! An update of a group by its port: what a discovery found is scheduled.
ghost use Rattle.lb_balancer_core.specs.Through.{UpdatedThrough};

use crate::port::SchedulePort;
use lb_health_view::discovery::ServiceDiscovery;
use lb_select_base::moments::MomentSource;
use lb_select_base::refusal::Refusal;
use std::alloc::Global;

/// Discovers, and schedules once what was discovered, at the clock's second reading. Returns the newest generation after it.
///
/// # Errors
///
/// What the discovery is refused for, and then no call is made; and what the port refuses.
pub fn update_through<P: SchedulePort, D: ServiceDiscovery, K: MomentSource>(
    alloc: Global,
    port: &mut P,
    discovery: &D,
    clock: &mut K,
) -> Result<u64, Refusal>
    ensures { UpdatedThrough K.reads D.finds P.scheduled discovery.now clock.old port.old result clock.new port.new }
{
    let _start = clock.now();
    let (members, settings) = discovery.discover(alloc)?;
    let moment = clock.now();
    let scheduled = port.schedule(alloc, members, settings, moment)?;
    Ok(scheduled.generation)
}
