//! Laws of weights over a whole turn of words, and of loads over a whole walk, over the definitions alone. Each function does nothing at
//! run time; its contract is the law.
ghost use Rattle.lb_select.specs.LeastLoads.{LeastVisitsAll};
ghost use Rattle.lb_select.specs.Shares.{WeightsAreExact, AllAreVisited, TicketsAreConsecutive, WalksAreDetermined};

use lb_select_base::algorithms::{FnvHasher, Random, RoundRobin};
use lb_select_base::walk::SelectionAlgorithm;
use lb_select_base::words::{CoreWords, WordSource};
use rand_core::Rng;

/// Over as many consecutive words as the weights sum to, each backend of a set is the first choice exactly as often as
/// its weight says.
pub fn weights_are_exact()
    ensures { WeightsAreExact }
{}

/// The first choice of a word, and the fallbacks of as many words after it as there are backends, include every backend of a set whose
/// weights sum to more than 0.
pub fn all_are_visited()
    ensures { AllAreVisited }
{}

/// The tickets of `CoreWords` are consecutive words as long as its counter does not wrap at 2^64: so a round of walks by
/// `RoundRobin` gives exact shares, and one walk visits every backend.
pub fn tickets_are_consecutive<R: Rng + Drop>()
    ensures { TicketsAreConsecutive ⟦<CoreWords<R> as WordSource>⟧.gives (λ w. w.tickets) }
{}

/// A walk's candidates are a function of the set, the key and what was drawn: by hashes of the set and the key alone,
/// since nothing is drawn.
pub fn walks_are_determined()
    ensures hashed { WalksAreDetermined ⟦<FnvHasher as SelectionAlgorithm>⟧.gives_word }
    ensures in_turn { WalksAreDetermined ⟦<RoundRobin as SelectionAlgorithm>⟧.gives_word }
    ensures at_random { WalksAreDetermined ⟦<Random as SelectionAlgorithm>⟧.gives_word }
{}

/// A whole walk by least connections gives each backend of weight above 0 once, and no other backend.
pub fn least_visits_all()
    ensures { LeastVisitsAll }
{}
