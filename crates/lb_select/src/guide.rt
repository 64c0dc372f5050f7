//! Where a search among partial sums may begin, so that most places are found at once. Places lie in buckets, all as wide, and a guide
//! knows the backend that has the first place of each (H.-C. Chen, Y. Asau: On Generating Random Variates from an Empirical Distribution,
//! 1974).

use std::alloc::{AllocError, Global};

// How many binary digits more the number of buckets may have than that of the backends.
const MORE_DIGITS: u32 = 1;

/// Where the backends of places may be. No proof rests on it: who looks there sees whether it is right.
#[derive(Drop)]
pub(crate) struct Guide {
    // The bucket of a place is the place without so many of its last binary digits.
    shift: u32,
    // The index of the backend that has the first place of each bucket.
    starts: Vec<u16>,
}

// How many binary digits a number has.
fn digits_of(number: u64) -> u32 {
    64u32.wrapping_sub(number.leading_zeros())
}

// How many buckets have places below a sum.
fn buckets_below(sum: u64, shift: u32) -> usize {
    match sum.checked_sub(1) {
        Some(last) => (last.wrapping_shr(shift) as usize).saturating_add(1),
        None => 0,
    }
}

impl Guide {
    /// Returns a guide to so many backends with this total weight, which knows none of their places yet. It takes the memory for all.
    ///
    /// Refused where memory is refused.
    pub(crate) fn new(alloc: Global, total: u64, backends: usize) -> Result<Guide, AllocError> {
        let most = digits_of(backends as u64).saturating_add(MORE_DIGITS);
        let shift = digits_of(total.saturating_sub(1)).saturating_sub(most);
        let starts = Vec::with_capacity(alloc, buckets_below(total, shift))?;
        Ok(Guide { shift, starts })
    }

    /// Notes that the places below a sum that have no backend yet are those of the one at this index.
    ///
    /// Refused where memory is refused.
    pub(crate) fn cover(&mut self, index: usize, sum: u64) -> Result<(), AllocError> {
        let Ok(start) = u16::try_from(index) else {
            return Ok(());
        };
        for _ in self.starts.len()..buckets_below(sum, self.shift) {
            self.starts.push(start)?;
        }
        Ok(())
    }

    /// Returns the index of the backend that has the first place of a place's bucket: the place's own, or one before.
    #[inline]
    pub(crate) fn start(&self, place: u64) -> usize {
        match self.starts.get(place.wrapping_shr(self.shift) as usize) {
            Some(start) => usize::from(*start),
            None => 0,
        }
    }
}
