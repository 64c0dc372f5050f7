//! What threads share: a lock whose value keeps a fact about a key that is fixed when the lock is made, so that what a thread finds under
//! the lock is known to be the lock's own; the gate, the registry and the view of backends behind such locks; lanes, from which threads
//! read a value all the time without a lock; and words, each with a fact, that threads read and write by single steps. Of the value of
//! std's `Mutex` only the invariant of its type is known.
#![tactic(auto)]

pub mod backends;
pub mod cell_tables;
pub mod cell_words;
pub mod clock;
pub mod flag_words;
pub mod gate;
pub mod generators;
pub mod keyed;
pub mod lane;
pub mod lanes;
pub mod loads;
pub mod lock;
pub mod making;
pub mod marks;
pub mod numbers;
pub mod owner;
pub mod registry;
pub mod rule;
pub mod wakes;
pub mod word_rule;
pub mod words;
