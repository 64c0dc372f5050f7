//! One lane: a value that threads read in place, with a word that counts them. A thread that renews a lane which is read marks it: no new
//! reader comes then, and the last one empties it, or leaves that to `sweep`.
ghost use Rattle.std.specs.Prelude.{◌≡◌, ◌%◌, ◌<◌, IfSome};
ghost use Rattle.counted_slot.specs.Counting.{readers};

use crate::generators::SharedGenerator;
use counted_slot::{Claim, Counted, FREE, Fits, MARKED, MOST_READERS, ONE_READER, PRESENT, TAKEN};

// How often a reader tries one lane, since other readers change its word.
const READS: u32 = 3;

/// A value that may be there, with random words, and with so much room after it that its word shares a line of memory with no other lane.
/// Contracts see the key that each value of it fits, as `slot`.
#[derive(Drop)]
pub struct Lane<X: Fits + Drop> {
    // Right before the word of the slot, so that who counts itself there finds both in one line.
    generator: SharedGenerator,
    pub slot: Counted<Option<X>>,
    room: [u64; 7],
}

/// A value that is read in its lane. It is neither dropped nor exchanged while this lives.
pub struct Seen<'a, X: Fits + Drop> {
    pub(crate) lane: &'a Lane<X>,
    pub hand: Claim<'a, Option<X>>,
    ghost reads: { (hand.right ≡ 1) × (lane.now.slot ≡ hand.tag) },
}

fn state_of(word: u64) -> u64
    ensures { result ≡ word % 4 }
{
    word % 4
}

fn reader_count(word: u64) -> u64
    ensures { result ≡ readers word }
{
    word % 0x1_0000_0000 / 4
}

impl<X: Fits + Drop> Lane<X> {
    // An empty lane for values that fit this key, with the random words of this seed.
    pub(crate) fn new(key: &X::Tag, seed: u64) -> Lane<X>
        ensures { result.slot ≡ key.now }
    {
        Lane {
            generator: SharedGenerator::new(seed),
            slot: Counted::new(None, key),
            room: [0; 7],
        }
    }

    // Reads the value, where one is there and the lane isn't marked; `None` too where other readers come and go.
    //
    // At first it is taken to be there and unread, as it is mostly. A look before would fetch the word from other processors twice: once
    // to read it, and once to write it.
    pub(crate) fn read(&self) -> Option<Seen<'_, X>>
        ensures { IfSome result (λ s. s.hand.tag ≡ self.now.slot) }
    {
        let mut word = PRESENT;
        for _ in 0..READS {
            if state_of(word) != PRESENT || reader_count(word) >= MOST_READERS {
                return None;
            }
            let (found, hand) = self.slot.turn(word, word + ONE_READER);
            if found == word {
                return Some(Seen { lane: self, hand });
            }
            hand.done();
            word = found;
        }
        None
    }

    // Whether no value is there, and no thread reads or exchanges one.
    pub(crate) fn is_free(&self) -> bool {
        let word = self.slot.load();
        state_of(word) == FREE && reader_count(word) == 0
    }

    // Empties a marked lane that no thread reads any more, and returns what was there.
    pub(crate) fn sweep(&self) -> Option<X>
        ensures { IfSome result (X.fits self.now.slot) }
    {
        let word = self.slot.load();
        if state_of(word) == MARKED && reader_count(word) == 0 {
            return empty(&self.slot, word);
        }
        None
    }

    // Exchanges what is there for this, under the state `next`, where no thread reads it, and returns what was there. A lane that is read
    // is marked, and one that another thread has taken is left to it: then this value is returned.
    pub(crate) fn exchange(&self, value: Option<X>, next: u64) -> Option<X>
        requires fits { IfSome value (λ x. X.fits self.now.slot x) }
        requires state { next < 3 }
        ensures { IfSome result (λ x. X.fits self.now.slot x) }
    {
        for _ in 0..u64::MAX {
            let word = self.slot.load();
            if state_of(word) == TAKEN {
                return value;
            }
            if reader_count(word) == 0 {
                let (found, hand) = self.slot.turn(word, word - state_of(word) + TAKEN);
                if found == word {
                    return hand.put(value, next);
                }
                hand.done();
            } else if mark(&self.slot, word) {
                return value;
            }
        }
        value
    }
}

// Marks what is read. Returns whether it is marked, or was free all the same.
fn mark<X: Fits + Drop>(slot: &Counted<Option<X>>, word: u64) -> bool {
    if state_of(word) != PRESENT {
        return true;
    }
    let (found, hand) = slot.turn(word, word - PRESENT + MARKED);
    hand.done();
    found == word
}

// Empties a value that no thread reads, if its word is still this one, and returns what was there.
fn empty<X: Fits + Drop>(slot: &Counted<Option<X>>, word: u64) -> Option<X>
    requires { (word % 4 < 3) × (readers word ≡ 0) }
    ensures { IfSome result (X.fits slot.now) }
{
    let (found, hand) = slot.turn(word, word - state_of(word) + TAKEN);
    if found == word {
        return hand.put(None, FREE);
    }
    hand.done();
    None
}

impl<'a, X: Fits + Drop> Seen<'a, X> {
    /// Returns the value, which fits the lane's key.
    pub fn value(&self) -> Option<&X>
        ensures { IfSome result (λ x. X.fits self.now.hand.tag x.now) }
    {
        match self.hand.get() {
            Some(value) => Some(value),
            None => None,
        }
    }

    /// Returns the random words of the lane.
    #[inline]
    pub fn generator(&self) -> &SharedGenerator {
        &self.lane.generator
    }

    /// Ends the reading, and returns whether this was the last reader of a marked lane, which keeps its value then until it is swept.
    pub fn end(self) -> bool {
        let Self { lane: _, hand } = self;
        let word = hand.leave();
        state_of(word) == MARKED && reader_count(word) == 1
    }

    /// Ends the reading, and returns the value where this was the last reader of a marked lane, which is empty then.
    pub fn leave(self) -> Option<X>
        ensures { IfSome result (X.fits self.entry.hand.tag) }
    {
        let Self { lane, hand } = self;
        let word = hand.leave();
        if state_of(word) == MARKED && reader_count(word) == 1 {
            return empty(&lane.slot, word - ONE_READER);
        }
        None
    }
}

impl<'a, X: Fits + Drop> Drop for Seen<'a, X> {
    fn drop(self) {
        drop(self.leave());
    }
}
