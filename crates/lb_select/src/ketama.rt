//! The selector of consistent hashing: the points of all backends on one ring, and walks over their owners.
//! Its points are those of a `Ring`, with numbers in the place of addresses.
ghost use Rattle.std.specs.Prelude.{◌≡◌, ◌+◌, ◌<◌, option_and_then, slice_get, false, Some, None, ⊤};
ghost use Rattle.std.specs.Option.{option_copied};
ghost use Rattle.lb_select_base.specs.Refusals.{Refuses};
ghost use Rattle.lb_select.specs.Choices.{IsRingWalk, ring_refusal};
ghost use Rattle.lb_select.specs.Crc.{crc};
ghost use Rattle.lb_select.specs.Placed.{IsMove, IsStart, IsWalkFrom};
ghost use Rattle.lb_select.specs.RingLaws.{walk_starts, walk_ends, walk_undrawn, walk_few_words};
ghost use Rattle.lb_select.specs.Sorted.{SplitsAt};

use crate::crc::crc32;
use crate::fill::{Marks, POINTS_PER_WEIGHT, marks_of, members_of, weight_on_ring};
use crate::index::Index;
use crate::points::Points;
use crate::spread::points_of;
use lb_select_base::backend::Backend;
use lb_select_base::iter::Iter;
use lb_select_base::refusal::Refusal;
use lb_select_base::walk::BackendSelection;
use lb_select_base::words::WordSource;
use std::alloc::Global;
use std::collections::BTreeSet;
use std::marker::Model;

/// A selector by consistent hashing. Each internet backend has 160 points for each unit of its weight on a circle of 2^32
/// places; a key goes to the backend of the first point at or above its CRC, and on from there. Backends of weight 0 and Unix
/// addresses have no points. It draws no words.
#[derive(Drop)]
pub struct KetamaHashing {
    backends: Vec<Backend>,
    owners: Vec<usize>,
    points: Points<u32>,
    config: KetamaConfig,
}

/// Consistent hashing, by its plain name.
pub type Consistent = KetamaHashing;

/// What a ring is built with. `point_multiple` is ignored: each unit of weight has 160 points.
#[derive(Clone, Copy, Debug, Default)]
pub struct KetamaConfig {
    pub point_multiple: Option<u32>,
}

impl Model for KetamaHashing {
    ghost use Rattle.lb_select.specs.Placed.{Placed};

    ghost Value = { Placed };

    ghost use Rattle.lb_select.specs.PlacedSeen.{placed_seen, IsPlacedSeen};

    ghost view = { placed_seen };

    ghost invariant = { IsPlacedSeen };
}

/// What a walk over a ring keeps from candidate to candidate.
#[derive(Drop)]
pub struct RingWalk {
    // the index of the next point; past the last one the first comes again
    at: usize,
}

/// A walk over the owners of a ring's points, from a key's place upwards and round for ever. It holds the ring.
pub type OwnedNodeIterator = Iter<KetamaHashing>;

impl KetamaHashing {
    // The causes to refuse first, then what takes memory.
    fn of_set(
        alloc: Global,
        backends: &BTreeSet<Backend>,
        config: KetamaConfig,
    ) -> Result<KetamaHashing, Refusal>
        ensures { Refuses (ring_refusal backends.now.keys)
            (λ r. (r.members ≡ backends.now.keys) × (r.multiple ≡ config.point_multiple)) result }
    {
        let weight = weight_on_ring(backends).ok_or(Refusal::TooManyPoints)?;
        let backends = members_of(alloc, backends)?;
        let Marks { owners, chains } = marks_of(alloc, &backends)?;
        let entries = points_of(alloc, &chains, POINTS_PER_WEIGHT * weight)?;
        let index = Index::of(alloc, &entries)?;
        Ok(KetamaHashing {
            backends,
            owners,
            points: Points { entries, index },
            config,
        })
    }

    // The index of the point where a key's walk begins: how many points are below the key's place.
    fn start_of(&self, key: &[u8]) -> usize
        ensures below { SplitsAt (crc key.now) self.now.points result }
        ensures start { IsStart self.now key.now result }
    {
        self.points.first_from(crc32(key))
    }

    // The backend of an index, if there is one.
    fn get(&self, index: Option<usize>) -> Option<&Backend>
        ensures { option_copied result ≡ option_and_then (slice_get self.now.members) index }
    {
        self.backends.get(index?)
    }

    // The index, in the set's order, of the backend at the next point, or none on a ring without points.
    fn advance(&self, walk: &mut RingWalk) -> Option<usize>
        ensures { IsMove self.now walk.old.at (option_and_then (slice_get self.now.members) result) walk.new.at }
    {
        let at = self.points.turned(walk.at, 0)?;
        walk.at = at + 1;
        let owner = self.points.entries[at].1;
        Some(self.owners[owner as usize])
    }
}

impl BackendSelection for KetamaHashing {
    type Config = KetamaConfig;

    type Walk = RingWalk;

    ghost walks = { λ ms config. IsRingWalk ms };

    ghost members = { λ r. r.members };

    ghost built_with = { λ r. record { point_multiple = r.multiple } };

    ghost refusal = { λ ms config. ring_refusal ms };

    ghost default_config = { record { point_multiple = None } };

    ghost may_draw_random = { λ ms config. false };

    ghost fits = { λ r w. ⊤ };

    ghost rest = { λ r w. IsWalkFrom r w.at };

    ghost undrawn = { λ ms config h. walk_undrawn ms };

    ghost few_words = { λ ms config. walk_few_words ms };

    ghost rest_starts = { λ r w. walk_starts r w.at };

    ghost rest_ends = { λ r w. walk_ends r w.at };

    fn build(alloc: Global, backends: &BTreeSet<Backend>) -> Result<Self, Refusal> {
        let config = KetamaConfig {
            point_multiple: None,
        };
        KetamaHashing::of_set(alloc, backends, config)
    }

    fn build_with_config(
        alloc: Global,
        backends: &BTreeSet<Backend>,
        config: &KetamaConfig,
    ) -> Result<Self, Refusal> {
        KetamaHashing::of_set(alloc, backends, *config)
    }

    fn start<W: WordSource>(&self, key: &[u8], _words: &mut W) -> Result<RingWalk, Refusal> {
        let at = self.start_of(key);
        Ok(RingWalk { at })
    }

    fn step<'s, W: WordSource>(
        &'s self,
        walk: &mut RingWalk,
        _words: &mut W,
    ) -> Option<&'s Backend> {
        let index = self.advance(walk);
        self.get(index)
    }

    fn draws_random(&self) -> bool {
        false
    }
}
