//! What a gate's word and the views of its seats keep true between any two steps.
//! At most one seat is the writer's, the word says what the writer stored last, and the only kind of step is the writer's store.
ghost use Rattle.std.specs.Prelude.{◌≡◌, []};
ghost use Rattle.lb_rebuild_core.specs.Internal.GateRule.{SaysWord, writer};

use atomic_table::{Play, TableRule};

/// What a seat of a gate knows: whether it is the one that writes the word, and what the word says.
/// No value of this type is ever made; it is the type of the seats' views.
#[derive(Drop)]
pub struct GateMark {
    pub writes: bool,
    pub says: u64,
}

/// The rule of a gate's table: at most one view is the writer's, and it says the word.
pub struct OneWriter {}

impl TableRule<(), GateMark, ()> for OneWriter {
    ghost holds = { λ _ s. SaysWord s.words s.views };

    ghost first = { λ _. writer 0 };
}

/// The one kind of step: the writer stores a number, and then knows that the word is this number.
pub struct StoresGate {}

impl Play<(), GateMark> for StoresGate {
    ghost then = { λ _ _ n w. w ≡ (writer n, []) };
}
