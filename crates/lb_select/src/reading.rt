//! What a walk by least connections reads of a backend. It is a module of its own, since the selector's contracts name it.
ghost use Rattle.std.specs.Prelude.{◌<◌};

/// A backend of weight above 0, by its index in the set's order, and the load that was read for it.
#[derive(Clone, Copy)]
pub(crate) struct Reading {
    pub index: usize,
    pub weight: usize,
    pub load: u64,
    // so loads can be compared by their shares
    ghost weighs: { 0 < weight },
}
