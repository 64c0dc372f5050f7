//! Partial sums, and the search among them for the interval that holds a place.
//! The one way to a sum is a reader's one call, which counts: each read is counted by its reader.
ghost use Rattle.std.specs.Prelude.{◌≡◌, ◌+◌, ◌-◌, ◌^◌, ◌<◌, ◌≤◌, ◌++◌, ◌∷◌, [], ℕ, List, Some, IfOk, IsTrue, length, slice_get};
ghost use Rattle.lb_select.specs.Sums.{NeverFalls, IsBelowLast, IsPlaceAt, HasBinaryDigits};

use std::alloc::{AllocError, Global};
use std::marker::Model;

/// Partial sums. Each is read by a reader alone.
#[derive(Drop)]
pub(crate) struct Sums {
    list: Vec<u64>,
}

impl Model for Sums {
    ghost use Rattle.std.specs.Prelude.{List, ℕ};

    ghost Value = { List ℕ };

    ghost view = { λ s. s.list.items };
}

impl Sums {
    /// Returns an empty list of sums, with room for so many.
    pub(crate) fn with_capacity(alloc: Global, count: usize) -> Result<Sums, AllocError>
        ensures { IfOk result (λ s. s ≡ []) }
    {
        let list = Vec::with_capacity(alloc, count)?;
        Ok(Sums { list })
    }

    /// Adds a sum at the end.
    pub(crate) fn push(&mut self, sum: u64) -> Result<(), AllocError>
        ensures { IfOk result (λ _. self.new ≡ self.old ++ sum ∷ []) }
    {
        self.list.push(sum)?;
        Ok(())
    }

    /// Returns how many sums there are.
    pub(crate) fn len(&self) -> usize
        ensures { result ≡ length self.now }
    {
        self.list.len()
    }

    /// Returns whether the sum at this index is the first one above a place, by at most two reads.
    #[inline]
    #[tactic(auto, using(crate::proofs::Nearby::place_at_first, crate::proofs::Nearby::place_at_later))]
    pub(crate) fn is_at(&self, index: usize, place: u64) -> bool
        requires { NeverFalls self.now }
        ensures { IsTrue result → IsPlaceAt self.now place index }
    {
        if index >= self.len() {
            return false;
        }
        let mut reader = self.reader();
        if reader.read(index) <= place {
            return false;
        }
        if index == 0 {
            return true;
        }
        reader.read(index - 1) <= place
    }

    /// Returns a reader of these sums, which has read none.
    pub(crate) fn reader(&self) -> SumReader<'_>
        ensures sums { result.sums.now ≡ self.now }
        ensures reads { result.reads ≡ 0 }
    {
        SumReader {
            sums: &self.list,
            reads: 0,
        }
    }
}

/// Partial sums that are read one by one.
pub(crate) trait ReadSums {
    // the sums
    ghost sums: { Self → List ℕ };

    // how often one was read
    ghost reads: { Self → ℕ };

    // The sum at an index; one read is counted.
    fn read(&mut self, index: usize) -> u64
        requires inside { index < length (sums self.old) }
        requires room { reads self.old + 1 < 2 ^ 32 }
        ensures value { slice_get (sums self.old) index ≡ Some result }
        ensures kept { sums self.new ≡ sums self.old }
        ensures counted { reads self.new ≡ reads self.old + 1 };
}

/// Reads sums, and counts how often it read one.
#[derive(Drop)]
pub(crate) struct SumReader<'a> {
    sums: &'a [u64],
    reads: u32,
}

impl<'a> SumReader<'a> {
    /// Returns how many sums were read.
    pub(crate) fn reads(&self) -> u32
        ensures { result ≡ self.now.reads }
    {
        self.reads
    }
}

impl<'a> ReadSums for SumReader<'a> {
    ghost sums = { λ r. r.sums.now };

    ghost reads = { λ r. r.reads };

    fn read(&mut self, index: usize) -> u64 {
        self.reads += 1;
        self.sums[index]
    }
}

// The half where its last sum is not above the place, else 0. The difference borrows where it is, and the borrow is the mask: a branch
// would be predicted wrongly at every second read.
fn half_past(half: usize, sum: u64, place: u64) -> usize
    ensures past { sum ≤ place → result ≡ half }
    ensures before { place < sum → result ≡ 0 }
{
    let borrow = u128::from(place).wrapping_sub(u128::from(sum)) >> 64;
    half & !(borrow as usize)
}

/// Returns the index of the first sum above a place, found by halves.
///
/// Each read halves what is left, so the number of reads is that of the binary digits of the last index, whatever the place.
pub(crate) fn index_of_place<R: ReadSums>(reader: &mut R, count: usize, place: u64) -> usize
    requires count { length (R.sums reader.old) ≡ count }
    requires rising { NeverFalls (R.sums reader.old) }
    requires below { IsBelowLast (R.sums reader.old) place }
    requires room { R.reads reader.old + count < 2 ^ 32 }
    ensures index { IsPlaceAt (R.sums reader.old) place result }
    ensures kept { R.sums reader.new ≡ R.sums reader.old }
    ensures reads { (k : ℕ) × HasBinaryDigits (count - 1) k × (R.reads reader.new ≡ R.reads reader.old + k) }
{
    let mut start = 0usize;
    let mut size = count;
    while size > 1 {
        let half = size / 2;
        let sum = reader.read(start + half - 1);
        start += half_past(half, sum, place);
        size -= half;
    }
    start
}
