//! Random words that threads draw from one generator without a lock.

use std::sync::atomic::AtomicU64;
use std::sync::atomic::Ordering::SeqCst;

// What each draw adds to the state: 2^64 divided by the golden ratio, made odd.
const STEP: u64 = 0x9e37_79b9_7f4a_7c15;

/// A generator whose words threads draw by one step each: SplitMix64, whose state is a counter (G. Steele, D. Lea, C. Flood: Fast
/// Splittable Pseudorandom Number Generators, 2014).
#[derive(Drop)]
pub struct SharedGenerator {
    state: AtomicU64,
}

impl SharedGenerator {
    /// Returns a generator of this seed.
    pub fn new(seed: u64) -> SharedGenerator {
        SharedGenerator {
            state: AtomicU64::new(seed),
        }
    }

    /// Returns the next random word.
    #[inline]
    pub fn random(&self) -> u64 {
        mixed(self.state.fetch_add(STEP, SeqCst).wrapping_add(STEP))
    }

    /// Returns a generator of its own, which the next word of this one seeds.
    pub fn seeded(&self) -> SharedGenerator {
        SharedGenerator::new(self.random())
    }
}

// The word of a state.
#[inline]
fn mixed(state: u64) -> u64 {
    let word = (state ^ (state >> 30)).wrapping_mul(0xbf58_476d_1ce4_e5b9);
    let word = (word ^ (word >> 27)).wrapping_mul(0x94d0_49bb_1331_11eb);
    word ^ (word >> 31)
}
