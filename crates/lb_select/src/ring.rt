//! A ring that is made of points with their addresses.
//! It gives the owner of each candidate of a walk from any place.
ghost use Rattle.std.specs.Prelude.{◌≡◌, [], IsOkAnd, MatchOption};
ghost use Rattle.lb_select_base.specs.Seen.{address_seen};
ghost use Rattle.lb_select.specs.Circle.{IsRingOwner};
ghost use Rattle.lb_select.specs.Rings.{points_seen, Given, IsRingOf};

use crate::index::Index;
use crate::points::{Points, arrange, read_points};
use lb_select_base::backend::SocketAddr;
use lb_select_base::refusal::Refusal;
use std::marker::Model;

/// Points on a circle of 2^32 places, each with the one address that owns it.
#[derive(Drop)]
pub struct Ring {
    points: Points<SocketAddr>,
}

impl Model for Ring {
    ghost use Rattle.std.specs.Prelude.{List, ℕ};
    ghost use Rattle.lb_select_base.specs.Backends.{Address};
    ghost use Rattle.lb_select.specs.Buckets.{HasStarts};
    ghost use Rattle.lb_select.specs.Rings.{points_seen};
    ghost use Rattle.lb_select.specs.Sorted.{IsInOrder};

    ghost Value = { List (ℕ × Address) };

    ghost view = { λ r. points_seen r.points.entries.items };

    ghost invariant = { λ r. IsInOrder r.points.entries.items
        × HasStarts r.points.entries.items r.points.index.shift r.points.index.starts.items };
}

impl Ring {
    /// Returns the ring of these points. Of equal points the one of the least address stays.
    ///
    /// Nothing is refused: it is sorted in place, and where memory for its index is refused it has none, and is searched as a whole.
    pub fn of_points(points: Vec<(u32, SocketAddr)>) -> Result<Ring, Refusal>
        ensures { IsOkAnd result (λ r. IsRingOf (points_seen points.items) r) }
    {
        let mut points = points;
        arrange(&mut points, &[]);
        read_points(&points);
        let index = Index::of_or_none(*points.allocator(), &points);
        let entries = points;
        Ok(Ring {
            points: Points { entries, index },
        })
    }

    /// Returns the owner of candidate `j` from `place`, or `None` where there is no point.
    ///
    /// It owns the point that has exactly `j`, modulo the number of points, others nearer to the place, clockwise.
    pub fn owner(&self, place: u32, j: u64) -> Option<&SocketAddr>
        ensures { MatchOption result (self.now ≡ []) (λ a. IsRingOwner (Given self.now) place j (address_seen a.now)) }
    {
        let first = self.points.first_from(place);
        let at = self.points.turned(first, j)?;
        Some(&self.points.entries[at].1)
    }
}
