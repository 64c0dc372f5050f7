//! The backends that a walk has shown already, by their identity. Attachments are not kept: what is seen is an address and a weight.
ghost use Rattle.std.specs.Prelude.{◌≡◌, ◌||◌, false, is_none, IfOk, IfErr};
ghost use Rattle.lb_select_base.specs.Backends.{Member, same_member};
ghost use Rattle.lb_select_base.specs.Unique.{has_backend, has_come};

use crate::backend::Backend;
use std::alloc::{AllocError, Global};
use std::collections::BTreeSet;

/// The backends that came so far, by identity. A selection of one's own asks it for repeats, as `select` does.
#[derive(Drop)]
pub struct SeenBackends {
    alloc: Global,
    came: Option<Came>,
}

// Backends that came, with nothing attached. The last one is not in the set, so that a selection that turns down one backend alone puts
// nothing into it.
#[derive(Drop)]
pub(crate) struct Came {
    last: Backend,
    earlier: BTreeSet<Backend>,
}

impl Came {
    // Whether a backend of this identity is among them.
    fn contains(&self, backend: &Backend) -> bool
        ensures { result ≡ has_come self.now backend.now }
    {
        backend == &self.last || self.earlier.contains(backend)
    }
}

impl SeenBackends {
    /// Returns a list of no backends, without taking memory.
    pub fn new(alloc: Global) -> Self
        ensures { (q : Member) → has_backend result q ≡ false }
    {
        SeenBackends { alloc, came: None }
    }

    /// Returns whether no backend came yet.
    #[inline]
    pub fn is_empty(&self) -> bool
        ensures { result ≡ is_none self.now.came }
    {
        self.came.is_none()
    }

    /// Returns whether a backend of this identity came already.
    pub fn contains(&self, backend: &Backend) -> bool
        ensures { result ≡ has_backend self.now backend.now }
    {
        match &self.came {
            Some(came) => came.contains(backend),
            None => false,
        }
    }

    /// Notes that the backend came. Where memory is refused nothing changes.
    pub fn remember(&mut self, backend: &Backend) -> Result<(), AllocError>
        ensures remembered { IfOk result (λ _. (q : Member)
            → has_backend self.new q ≡ (has_backend self.old q || same_member q backend.now)) }
        ensures refused { IfErr result (λ _. (q : Member) → has_backend self.new q ≡ has_backend self.old q) }
    {
        let identity = backend.clone_identity(self.alloc)?;
        let Some(Came { last, mut earlier }) = self.came.take() else {
            self.came = Some(Came {
                last: identity,
                earlier: BTreeSet::new(self.alloc),
            });
            return Ok(());
        };
        if let Err(refused) = earlier.insert(last) {
            self.came = Some(Came {
                last: refused.value,
                earlier,
            });
            return Err(AllocError);
        }
        self.came = Some(Came {
            last: identity,
            earlier,
        });
        Ok(())
    }
}
