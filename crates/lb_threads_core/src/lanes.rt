//! Lanes of one owner on two sides: threads read those of one, while the owner fills those of the other with what it serves next. All have
//! the owner's key, which each value fits.
ghost use Rattle.std.specs.Prelude.{◌≡◌, ◌/◌, All, IfOk, IfSome, vec_len};

use crate::generators::SharedGenerator;
use crate::lane::{Lane, Seen};
use crate::marks::SPREAD;
use counted_slot::{FREE, Fits, PRESENT};
use std::alloc::{AllocError, Global};
use std::hint::spin_loop;
use std::sync::atomic::AtomicU64;
use std::sync::atomic::Ordering::SeqCst;

// How many lanes a reader tries.
const TRIES: u64 = 4;

// In how many lanes readers look while they are filled.
const FILLED_FIRST: u64 = 8;

/// Lanes that threads share. Contracts see the key of each as its `slot`.
#[derive(Drop)]
pub struct Lanes<X: Fits + Drop> {
    // Those of one side have the even places, and those of the other the odd ones.
    pub(crate) lanes: Vec<Lane<X>>,
    // How often the owner began to fill a side, and how often it ended: odd while it fills one, and two more for each turn.
    turns: AtomicU64,
}

/// The side of lanes that readers used at some moment, or the other one.
#[derive(Clone, Copy)]
pub struct Side {
    turns: u64,
}

impl Side {
    // What the places of its lanes leave as remainder by 2.
    #[inline]
    fn parity(self) -> u64 {
        self.turns / 2 % 2
    }

    /// Returns whether the other side was being filled.
    pub fn is_filling(self) -> bool {
        self.turns % 2 == 1
    }

    /// Returns the other side.
    pub fn other(self) -> Side {
        Side {
            turns: self.turns.wrapping_add(2),
        }
    }
}

impl<X: Fits + Drop> Lanes<X> {
    /// Returns so many empty lanes, half of them on each side; best a power of two: of another number some serve no hint. The words of
    /// `seeds` seed their generators.
    ///
    /// Refused where memory is refused.
    pub fn new(
        alloc: Global,
        count: usize,
        key: &X::Tag,
        seeds: &SharedGenerator,
    ) -> Result<Lanes<X>, AllocError>
        ensures keyed { IfOk result (λ l. All (λ lane. lane.slot ≡ key.now) l.lanes.items) }
        ensures count { IfOk result (λ l. vec_len l.lanes ≡ count) }
    {
        let mut lanes = Vec::with_capacity(alloc, count)?;
        for _ in 0..count {
            lanes.push(Lane::new(key, seeds.random()))?;
        }
        let turns = AtomicU64::new(0);
        Ok(Lanes { lanes, turns })
    }

    /// Returns the side that readers use.
    #[inline]
    pub fn side(&self) -> Side {
        Side {
            turns: self.turns.load(SeqCst),
        }
    }

    /// Returns whether readers weren't turned since this was the side that they use.
    pub fn is_used(&self, side: Side) -> bool {
        self.side().turns / 2 == side.turns / 2
    }

    /// Returns where a reader looks again that found nothing on a side: on the one that readers use now, or in one of the other's first
    /// lanes, which are filled first, while they are filled. `None` where readers weren't turned since, and aren't now.
    pub fn look_again(&self, before: Side, hint: u64) -> Option<(Side, u64)> {
        let side = self.side();
        if side.is_filling() {
            spin_loop();
            return Some((side.other(), hint % FILLED_FIRST));
        }
        if side.turns == before.turns {
            return None;
        }
        Some((side, hint))
    }

    /// Begins to fill the side that readers don't use: who finds nothing on theirs looks again. One thread at a time fills, the first lanes
    /// first.
    pub fn begin_filling(&self) {
        self.turns.fetch_add(1, SeqCst);
    }

    /// Ends what `begin_filling` began, and turns readers to the other side where that is filled.
    pub fn end_filling(&self, is_filled: bool) {
        // Four steps make two turns, so that the side is the same.
        let steps = if is_filled { 1 } else { 3 };
        self.turns.fetch_add(steps, SeqCst);
    }

    // Where the lane of a hint is on a side.
    #[inline]
    fn place(&self, side: Side, hint: u64) -> usize {
        let place = hint.wrapping_mul(2) | side.parity();
        place as usize & self.lanes.len().wrapping_sub(1)
    }

    // The lane of a hint on a side, which has the key of all.
    #[inline]
    fn lane<'a>(&'a self, side: Side, hint: u64, key: &X::Tag) -> Option<&'a Lane<X>>
        requires { All (λ lane. lane.slot ≡ key.now) self.now.lanes.items }
        ensures { IfSome result (λ l. l.now.slot ≡ key.now) }
    {
        let _ = key;
        self.lanes.get(self.place(side, hint))
    }

    /// Reads what the hint's lane of a side has, or else what one of the next three has.
    ///
    /// `None` where all four are free, marked, or just taken.
    pub fn read<'a>(&'a self, side: Side, hint: u64, key: &X::Tag) -> Option<Seen<'a, X>>
        requires { All (λ lane. lane.slot ≡ key.now) self.now.lanes.items }
        ensures { IfSome result (λ s. s.hand.tag ≡ key.now) }
    {
        for step in 0..TRIES {
            let lane = self.lane(side, hint.wrapping_add(step), key)?;
            if let Some(seen) = lane.read() {
                return Some(seen);
            }
        }
        None
    }

    /// Gives the hint's lane of a side this value, and returns what isn't needed: the value that was there, or this one where the lane is
    /// read or taken.
    ///
    /// A lane that is read is marked, so that no new reader comes.
    pub fn renew(&self, side: Side, hint: u64, value: X, key: &X::Tag) -> Option<X>
        requires keyed { All (λ lane. lane.slot ≡ key.now) self.now.lanes.items }
        requires fits { X.fits key.now value }
        ensures { IfSome result (X.fits key.now) }
    {
        match self.lane(side, hint, key) {
            Some(lane) => lane.exchange(Some(value), PRESENT),
            None => Some(value),
        }
    }

    /// Empties the hint's lane of a side, and returns what was there.
    ///
    /// A lane that is read is marked, so that no new reader comes: its last reader, or `sweep`, empties it.
    pub fn clear(&self, side: Side, hint: u64, key: &X::Tag) -> Option<X>
        requires { All (λ lane. lane.slot ≡ key.now) self.now.lanes.items }
        ensures { IfSome result (X.fits key.now) }
    {
        match self.lane(side, hint, key) {
            Some(lane) => lane.exchange(None, FREE),
            None => None,
        }
    }

    /// Empties the hint's lane of a side where that is marked and isn't read any more, and returns what was there.
    pub fn sweep(&self, side: Side, hint: u64, key: &X::Tag) -> Option<X>
        requires { All (λ lane. lane.slot ≡ key.now) self.now.lanes.items }
        ensures { IfSome result (X.fits key.now) }
    {
        match self.lane(side, hint, key) {
            Some(lane) => lane.sweep(),
            None => None,
        }
    }

    /// Returns whether the hint's lane of a side has nothing, and no thread reads it.
    pub fn is_free(&self, side: Side, hint: u64) -> bool {
        match self.lanes.get(self.place(side, hint)) {
            Some(lane) => lane.is_free(),
            None => false,
        }
    }

    /// Returns how many lanes each side has.
    pub fn count(&self) -> usize
        ensures { result ≡ vec_len self.now.lanes / 2 }
    {
        self.lanes.len() / 2
    }
}

/// Returns the hint of a key, by its first and its last eight bytes: keys spread over the lanes, so that threads seldom meet in one.
pub fn hint_of(key: &[u8]) -> u64 {
    let ends = match (key.first_chunk::<8>(), key.last_chunk::<8>()) {
        (Some(first), Some(last)) => {
            u64::from_le_bytes(*first).rotate_left(23) ^ u64::from_le_bytes(*last)
        }
        _ => {
            let mut word = 0u64;
            for byte in key {
                word = word << 8 | u64::from(*byte);
            }
            word
        }
    };
    ends.wrapping_mul(SPREAD) >> 32
}
