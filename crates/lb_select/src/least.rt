//! Selection by least connections: the backend whose load is least for its weight comes first.
//! Loads are read once, when a walk begins; from then on it reads nothing and takes no memory.
ghost use Rattle.std.specs.Prelude.{◌≡◌, ◌+◌, ◌<◌, ◌≤◌, length, false, Some, None, IfOk, MatchOption};
ghost use Rattle.std.specs.Option.{option_and_then, option_copied};
ghost use Rattle.std.specs.List.{slice_get};
ghost use Rattle.std.specs.List.Sorted.{IsPermutation, IsSortedBy, IsStrictlySortedBy};
ghost use Rattle.std.specs.Ordering.{is_lt};
ghost use Rattle.std.specs.Arc.{arc_value};
ghost use Rattle.lb_select_base.specs.Backends.{Member, member_cmp};
ghost use Rattle.lb_select_base.specs.Refusals.{Refuses};
ghost use Rattle.lb_select.specs.LeastLoads.{IsLeastWalk};
ghost use Rattle.lb_select.specs.LeastLaws.{least_undrawn, least_few_words, rest_starts, rest_ends};
ghost use Rattle.lb_select.specs.Readings.{reading_cmp, AreRead, IsArranged, IsInside, IsLeastRest, IsLeastStep};

use crate::reading::Reading;
use lb_select_base::backend::Backend;
use lb_select_base::refusal::Refusal;
use lb_select_base::walk::BackendSelection;
use lb_select_base::words::WordSource;
use std::alloc::{AllocError, Global};
use std::cmp::Ordering;
use std::collections::BTreeSet;
use std::marker::Model;
use std::sync::Arc;

/// A selector over a set of backends by their loads. Of the backends of weight above 0 each comes once: first the one whose
/// load is least for each unit of its weight, and of several of these the one that is first in the set. It draws no words.
#[derive(Drop)]
pub struct LeastConnections {
    alloc: Global,
    backends: Vec<Backend>,
}

impl Model for LeastConnections {
    ghost use Rattle.std.specs.Prelude.{List};
    ghost use Rattle.std.specs.List.Sorted.{IsStrictlySortedBy};
    ghost use Rattle.lb_select_base.specs.Backends.{Member, member_cmp};

    ghost Value = { List Member };

    ghost view = { λ s. s.backends.items };

    ghost invariant = { λ s. IsStrictlySortedBy member_cmp s.backends.items };
}

impl Reading {
    // By the load for each unit of weight, then by the index: products of 64 bits by 64 have room in 128.
    fn compare(&self, other: &Reading) -> Ordering
        ensures { result ≡ reading_cmp self.now other.now }
    {
        let this = u128::from(self.load) * other.weight as u128;
        let that = u128::from(other.load) * self.weight as u128;
        this.cmp(&that).then(self.index.cmp(&other.index))
    }
}

// Puts what was read in order, where it lies.
fn arrange(readings: &mut Vec<Reading>)
    ensures same { IsPermutation readings.old.items readings.new.items }
    ensures sorted { IsSortedBy (λ a b. is_lt (reading_cmp a b)) readings.new.items }
{
    readings.sort_unstable_by(|a, b| a.compare(b));
}

/// What a walk by least connections keeps from candidate to candidate.
#[derive(Drop)]
pub struct LeastWalk {
    // what was read, in order
    order: Vec<Reading>,
    // how many came already
    at: usize,
}

impl LeastConnections {
    // The selector of a set.
    fn of_set(alloc: Global, backends: &BTreeSet<Backend>) -> Result<LeastConnections, Refusal>
        ensures { Refuses None (λ s. s ≡ backends.now.keys) result }
    {
        let mut list = Vec::with_capacity(alloc, backends.len())?;
        for backend in backends {
            list.push(backend.clone()?)?;
        }
        Ok(LeastConnections {
            alloc,
            backends: list,
        })
    }

    // Reads the load of one backend, if it weighs anything.
    fn add_reading<W: WordSource>(
        &self,
        words: &W,
        index: usize,
        readings: &mut Vec<Reading>,
    ) -> Result<(), AllocError>
        requires inside { index < length self.now }
        requires so_far { AreRead (λ d. W.gives words.now d words.now) self.now index readings.old.items }
        ensures { IfOk result (λ _. AreRead (λ d. W.gives words.now d words.now) self.now (index + 1) readings.new.items) }
    {
        let backend = &self.backends[index];
        if backend.weight > 0 {
            let load = words.load(backend);
            readings.push(Reading {
                index,
                weight: backend.weight,
                load,
            })?;
        }
        Ok(())
    }

    // What is read for the backends of weight above 0, in the order of the candidates. Memory is taken before the first load.
    fn readings<W: WordSource>(&self, words: &W) -> Result<Vec<Reading>, AllocError>
        ensures inside { IfOk result (λ order. IsInside self.now order.items) }
        ensures order { IfOk result (λ order. IsArranged (λ d. W.gives words.now d words.now) self.now order.items) }
    {
        let count = self.backends.as_slice().len();
        let mut readings = Vec::with_capacity(self.alloc, count)?;
        for index in 0..count {
            self.add_reading(words, index, &mut readings)?;
        }
        arrange(&mut readings);
        Ok(readings)
    }

    // The backend at an index.
    fn get(&self, index: Option<usize>) -> Option<&Backend>
        ensures { option_copied result ≡ option_and_then (slice_get self.now) index }
    {
        self.backends.get(index?)
    }

    // The index of the next candidate in the set's order, or none after the last.
    fn advance(&self, walk: &mut LeastWalk) -> Option<usize>
        requires { IsInside self.now walk.old.order.items }
        ensures step { IsLeastStep self.now walk.old.order.items walk.old.at (option_and_then (slice_get self.now) result) walk.new.at }
        ensures order { walk.new.order.items ≡ walk.old.order.items }
    {
        let reading = *walk.order.get(walk.at)?;
        walk.at += 1;
        Some(reading.index)
    }
}

impl BackendSelection for LeastConnections {
    type Config = ();

    type Walk = LeastWalk;

    ghost walks = { λ ms config key. IsLeastWalk ms };

    ghost members = { λ s. s };

    ghost built_with = { λ s. tt };

    ghost refusal = { λ ms config. None };

    ghost default_config = { tt };

    ghost may_draw_random = { λ ms config. false };

    ghost fits = { λ s w. IsInside s w.order.items };

    ghost rest = { λ s w. IsLeastRest s w.order.items w.at };

    ghost undrawn = { λ ms config never key. least_undrawn ms };

    ghost few_words = { λ ms config key. least_few_words ms };

    ghost rest_starts = { λ s w. rest_starts s w.order.items w.at };

    ghost rest_ends = { λ s w. rest_ends s w.order.items w.at };

    fn build(alloc: Global, backends: &BTreeSet<Backend>) -> Result<Self, Refusal> {
        LeastConnections::of_set(alloc, backends)
    }

    fn build_with_config(
        alloc: Global,
        backends: &BTreeSet<Backend>,
        _config: &(),
    ) -> Result<Self, Refusal> {
        LeastConnections::of_set(alloc, backends)
    }

    fn start<W: WordSource>(&self, _key: &[u8], words: &mut W) -> Result<LeastWalk, Refusal> {
        let order = self.readings(words)?;
        Ok(LeastWalk { order, at: 0 })
    }

    fn step<'s, W: WordSource>(
        &'s self,
        walk: &mut LeastWalk,
        _words: &mut W,
    ) -> Option<&'s Backend> {
        let index = self.advance(walk);
        self.get(index)
    }

    fn draws_random(&self) -> bool {
        false
    }
}
