//! What the word of a line and the views of its seats keep true between any two steps.
//! One seat at most is the sender's, and the word says what the sender stored last.
ghost use Rattle.std.specs.Prelude.{◌≡◌, []};
ghost use Rattle.lb_background.specs.Internal.Lines.{SaysWord, sender};

use atomic_table::{Play, TableRule};

/// What a seat of a line knows: whether it is the sender's, and what the word says.
/// No value of this type is ever made; it is the type of the seats' views.
#[derive(Drop)]
pub struct SignalMark {
    pub sends: bool,
    pub says: u64,
}

/// The rule of a line's table: at most one view is the sender's, and it says the word.
pub struct OneSender {}

impl TableRule<(), SignalMark, ()> for OneSender {
    ghost holds = { λ _ s. SaysWord s.words s.views };

    ghost first = { λ _. sender 0 };
}

/// The step that stores a number: the sender then knows that the word is this number.
pub struct StoresSignal {}

impl Play<(), SignalMark> for StoresSignal {
    ghost then = { λ _ _ n w. w ≡ (sender n, []) };
}

/// The step that reads the word by the sender's seat: it finds what the sender knows.
pub struct Finds {}

impl Play<(), SignalMark> for Finds {
    ghost then = { λ _ me n w. (n ≡ me.0.says) × (w ≡ me) };
}
