//! The observer of a check that was given none.
//! Its type holds no box, so that a check which `new` makes can be boxed itself.
use lb_health_core::health_check::HealthObserve;
use lb_select_base::backend::Backend;

/// An observer that does nothing.
#[derive(Clone, Copy, Debug)]
pub struct NoObserver;

impl HealthObserve for NoObserver {
    fn observe(&self, _target: &Backend, _healthy: bool) {}
}
