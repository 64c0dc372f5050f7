//! What the word, the place and the seats of a lock keep true between any two steps. The word is 0 while the value is there, and the
//! thread that changes it from 0 to 1 takes the value out.
ghost use Rattle.lb_threads_core.specs.Keyed.{FreeIsHome, Took};

use atomic_table::{Play, TableRule};
use std::marker::PhantomData;

/// What the value under a lock keeps, by the lock's key.
pub trait LockRule<T, K> {
    /// The fact about key and value: a thread that takes the value may use it, and has to prove it when the value is put back.
    ghost holds: { K → T → Type 0 };
}

/// The rule of a lock's table: where the word is 0, the value is there and keeps the lock's fact.
pub struct Locked<I> {
    of: PhantomData<I>,
}

impl<T, K, I: LockRule<T, K>> TableRule<Option<T>, K, K> for Locked<I> {
    ghost holds = { λ key s. FreeIsHome (I.holds key) s.words s.homes };

    ghost first = { λ key. key };
}

/// The step of a thread that tries to take the value: where it found 0, it has it. A seat's view is the key.
pub struct Takes<I> {
    of: PhantomData<I>,
}

impl<T, K, I: LockRule<T, K>> Play<Option<T>, K> for Takes<I> {
    ghost then = { λ _ me n w. Took (I.holds me.0) n w };
}

/// The step that puts the value back.
pub struct Gives {}

impl<T, K> Play<Option<T>, K> for Gives {
    ghost then = { λ _ _ _ _. Unit {0} };
}
