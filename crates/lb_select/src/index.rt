//! An index of points in order: where the points of each bucket of places begin. A search reads it at its place's bucket and looks
//! among the few points there, so that it touches three or four lines of memory however many points there are.
ghost use Rattle.std.specs.Prelude.{◌≡◌, ◌+◌, ◌^◌, ◌<◌, ◌≤◌, length, get_or, IfOk};
ghost use Rattle.std.specs.List.{AllWithin};
ghost use Rattle.lb_select.specs.Buckets.{bucket_of, BeginsAt, HasStarts, IsIndexOf};
ghost use Rattle.lb_select.specs.Sorted.{Rises, point_of, HasSmallPoints, IsInOrder, IsLeft, SplitsAt};

use std::alloc::{AllocError, Global};

// A bucket has no more places than two to this power.
const MOST_SHIFT: u32 = 31;

// In an index it has no fewer than two to this one.
const LEAST_SHIFT: u32 = 4;

// In an index a bucket has up to so many points, and half as many at least, where they are spread evenly: a quarter to half a byte a
// point.
const MOST_IN_BUCKET: usize = 16;

/// Where the points of each bucket begin, or nothing. The bucket of a place is its upper bits.
#[derive(Drop)]
pub(crate) struct Index {
    starts: Vec<u32>,
    shift: u32,
}

// How far a place is shifted to its bucket, so that of so many points few are in one; so far at least.
pub(crate) fn shift_of(count: usize, in_bucket: usize, least: u32) -> u32
    ensures { result < 32 }
{
    let mut shift = MOST_SHIFT;
    while shift > least && count >> (32 - shift) > in_bucket {
        shift -= 1;
    }
    shift
}

// How many entries are in the buckets below one, where the first ones are known to be.
fn start_from<T>(entries: &[(u32, T)], at: usize, shift: u32, bucket: usize) -> usize
    requires order { IsInOrder entries.now }
    requires shifts { shift < 32 }
    requires within { at ≤ length entries.now }
    requires below { AllWithin (λ e. bucket_of shift e.0 < bucket) entries.now 0 at }
    ensures { BeginsAt shift entries.now bucket result }
{
    let mut at = at;
    while at < entries.len() && ((entries[at].0 >> shift) as usize) < bucket {
        at += 1;
    }
    at
}

// The half where its last point is below the place, else 0. The difference borrows where it is, and the borrow is the mask: a branch would
// be predicted wrongly at every second point.
fn half_below(half: usize, point: u32, place: u32) -> usize
    ensures below { point < place → result ≡ half }
    ensures above { place ≤ point → result ≡ 0 }
{
    let borrow = u128::from(point).wrapping_sub(u128::from(place)) >> 64;
    half & borrow as usize
}

// How many points are below a place, found by halves of those that are left.
fn first_of_few<T>(entries: &[(u32, T)], place: u32, first: usize, size: usize) -> usize
    requires rises { Rises point_of entries.now }
    requires left { IsLeft place entries.now first size }
    ensures within { result ≤ length entries.now }
    ensures splits { SplitsAt place entries.now result }
{
    let mut first = first;
    let mut size = size;
    while size > 0 {
        let half = size - size / 2;
        let point = entries[first + half - 1].0;
        first += half_below(half, point, place);
        size -= half;
    }
    first
}

impl Index {
    /// Returns the index of points in order.
    pub(crate) fn of<T>(alloc: Global, entries: &[(u32, T)]) -> Result<Index, AllocError>
        requires { IsInOrder entries.now }
        ensures { IfOk result (λ r. IsIndexOf entries.now r.shift r.starts.items) }
    {
        let shift = shift_of(entries.len(), MOST_IN_BUCKET, LEAST_SHIFT);
        let buckets = (u32::MAX >> shift) as usize + 1;
        let mut starts = Vec::with_capacity(alloc, buckets)?;
        let mut at = 0usize;
        for bucket in 0..buckets {
            at = start_from(entries, at, shift, bucket);
            starts.push(at as u32)?;
        }
        Ok(Index { starts, shift })
    }

    /// Returns the index, or, where memory for it is refused, one that knows of no bucket: by that a search looks among all points.
    pub(crate) fn of_or_none<T>(alloc: Global, entries: &[(u32, T)]) -> Index
        requires { IsInOrder entries.now }
        ensures { HasStarts entries.now result.shift result.starts.items }
    {
        match Index::of(alloc, entries) {
            Ok(index) => index,
            Err(_) => Index {
                starts: Vec::new(alloc),
                shift: MOST_SHIFT,
            },
        }
    }

    // Where the points of a bucket begin and end; where one isn't known, where the list of this length does.
    #[inline(always)]
    fn bounds(&self, bucket: u32, len: usize) -> (usize, usize)
        ensures known { bucket < length self.now.starts.items → result.0 ≡ get_or self.now.starts.items bucket 0 }
        ensures unknown { length self.now.starts.items ≤ bucket → result.0 ≡ 0 }
        ensures ends { bucket + 1 < length self.now.starts.items → result.1 ≡ get_or self.now.starts.items (bucket + 1) 0 }
        ensures endless { length self.now.starts.items ≤ bucket + 1 → result.1 ≡ len }
    {
        let bucket = bucket as usize;
        if bucket + 1 < self.starts.len() {
            return (
                self.starts[bucket] as usize,
                self.starts[bucket + 1] as usize,
            );
        }
        match self.starts.get(bucket) {
            Some(first) => (*first as usize, len),
            None => (0, len),
        }
    }

    /// Returns how many points are below a place.
    pub(crate) fn first_from<T>(&self, entries: &[(u32, T)], place: u32) -> usize
        requires order { IsInOrder entries.now }
        requires starts { HasStarts entries.now self.now.shift self.now.starts.items }
        ensures within { result ≤ length entries.now }
        ensures splits { SplitsAt place entries.now result }
    {
        let (first, end) = self.bounds(place >> self.shift, entries.len());
        first_of_few(entries, place, first, end - first)
    }
}
