//! Where a value that went out of a group belongs: which group, and which of its slots. A job, a selector and a reader contain it, so that
//! contracts see whether what comes back is the group's own.
use crate::identity::Identity;
use std::marker::Model;
use std::snapshot::Snapshot;

/// A slot of a group.
#[derive(Drop)]
pub(crate) struct SlotPlace {
    pub(crate) group: Snapshot<Identity>,
    pub(crate) slot: usize,
}

impl Model for SlotPlace {
    ghost use Rattle.lb_rebuild_core.specs.Values.{PlaceValue};

    ghost Value = { PlaceValue };

    ghost view = { λ p. record { group = p.group.value; slot = p.slot } };
}
