//! Which members of a generation are ready, as words that selections load: one has a member's cell and flag as they were found under the
//! locks, and the registry has one for the cell.
ghost use Rattle.std.specs.Prelude.{◌≡◌, ◌&&◌, IfOk, IfSome};
ghost use Rattle.std.specs.Arc.{arc_value};
ghost use Rattle.lb_balancer.specs.History.{FlaggedIn, JudgedIn};
ghost use Rattle.lb_threads_core.specs.CellWords.{WasHealthy};

use crate::origin::Origin;
use lb_health_core::keys::KeyRule;
use lb_select_base::backend::Backend;
use lb_select_base::walk::BackendSelection;
use lb_threads_core::cell_words::CellWords;
use lb_threads_core::flag_words::{FlagRule, FlagWords, Flagged};
use std::alloc::{AllocError, Global};
use std::collections::BTreeSet;
use std::marker::Model;
use std::snapshot::Snapshot;
use std::sync::Arc;

/// Of which balancer, and of which of its generations, words are.
#[derive(Drop)]
pub struct Generation<S: BackendSelection, D, R: KeyRule + Drop, C> {
    origin: Snapshot<Origin<S, D, R, C>>,
    number: u64,
}

impl<S: BackendSelection, D, R: KeyRule + Drop, C> Model for Generation<S, D, R, C> {
    ghost use Rattle.lb_balancer.specs.Kept.{GenerationValue};

    ghost Value = { GenerationValue D S.Config R };

    ghost view = { λ g. record { balancer = g.origin.value; number = g.number } };
}

/// Each word says which cell a member had while the generation was served, and whether it was enabled.
pub struct OfFlags {}

impl<S: BackendSelection, D, R: KeyRule + Drop, C> FlagRule<Generation<S, D, R, C>> for OfFlags {
    ghost use Rattle.lb_balancer.specs.FlaggedSame.{flagged-same};
    ghost use Rattle.lb_balancer.specs.History.{FlaggedIn};

    ghost told = { λ of b cell enabled _. FlaggedIn of.balancer of.number b cell enabled };

    ghost by_identity = { λ of b m cell enabled is_newest same told. flagged-same of.balancer of.number b m cell enabled same told };
}

/// Which members of a generation are ready. Contracts see of which balancer, and of which of its generations.
#[derive(Drop)]
pub struct Readiness<S: BackendSelection, D, R: KeyRule + Drop, C> {
    generation: u64,
    flags: FlagWords<Generation<S, D, R, C>, OfFlags>,
    cells: Arc<CellWords<R>>,
}

impl<S: BackendSelection, D, R: KeyRule + Drop, C> Model for Readiness<S, D, R, C> {
    ghost use Rattle.std.specs.Prelude.{◌≡◌};
    ghost use Rattle.std.specs.Arc.{arc_value};
    ghost use Rattle.lb_balancer.specs.Kept.{GenerationValue};

    ghost Value = { GenerationValue D S.Config R };

    ghost view = { λ r. r.flags };

    ghost invariant = { λ r. (r.flags.number ≡ r.generation) × (arc_value r.cells ≡ r.flags.balancer.registry) };
}

impl<S: BackendSelection, D, R: KeyRule + Drop, C> Readiness<S, D, R, C> {
    // Words for the members of a generation, which say nothing yet.
    pub(crate) fn new(
        alloc: Global,
        origin: &Origin<S, D, R, C>,
        generation: u64,
        members: &BTreeSet<Backend>,
        cells: Arc<CellWords<R>>,
    ) -> Result<Readiness<S, D, R, C>, AllocError>
        requires { arc_value cells ≡ origin.now.registry }
        ensures { IfOk result (λ r. r.balancer ≡ origin.now) }
    {
        let of = Generation {
            origin: Snapshot::of(origin),
            number: generation,
        };
        let flags = FlagWords::new(alloc, members, &of)?;
        Ok(Readiness {
            generation,
            flags,
            cells,
        })
    }

    // The generation.
    pub(crate) fn generation(&self) -> u64
        ensures { self.now.number ≡ result }
    {
        self.generation
    }

    // Whether a member whose identity has this number is ready, as the words say.
    #[inline]
    pub(crate) fn said(&self, backend: &Backend, spread: u64) -> Option<bool>
        ensures { IfSome result (JudgedIn R.gives self.now.balancer self.now.number backend.now) }
    {
        let flagged = self.flags.said(backend, spread)?;
        let healthy = self.cells.said(flagged.cell)?;
        Some(ready_of(flagged, healthy))
    }

    // Notes the cell and the flag of a member.
    pub(crate) fn note_flag(&self, backend: &Backend, flagged: Flagged)
        requires { FlaggedIn self.now.balancer self.now.number backend.now flagged.cell flagged.is_enabled }
    {
        self.flags.note(backend, flagged);
    }

    // Notes whether a cell is kept and healthy.
    pub(crate) fn note_health(&self, cell: u64, healthy: bool)
        requires { WasHealthy R.gives self.now.balancer.registry cell healthy }
    {
        self.cells.note(cell, healthy);
    }

    // The members that have a word.
    pub(crate) fn marks(&self) -> &[Option<Backend>] {
        self.flags.marks()
    }
}

// Whether a member with this cell and this flag is ready, where the cell is this healthy.
#[inline]
fn ready_of(flagged: Flagged, healthy: bool) -> bool
    ensures { result ≡ (flagged.is_enabled && healthy) }
{
    flagged.is_enabled && healthy
}
