//! The lock with a key, and what a thread has while it holds the lock.
//! A value that was taken cannot be forgotten: it has to be put back.
ghost use Rattle.std.specs.Prelude.{◌≡◌, ◌<◌, [], ◌∷◌, IfOk, IfSome, None};

use crate::rule::{Gives, LockRule, Locked, Takes};
use atomic_table::{Seat, Table};
use std::alloc::{AllocError, Global};
use std::hint::spin_loop;
use std::sync::Wait;

// What the lock's word says: the value is there; it is out; it is out, and a thread may sleep until it is back. A thread that has slept
// takes it with the last, since others may sleep on.
const FREE: u64 = 0;

const TAKEN: u64 = 1;

const AWAITED: u64 = 2;

// How often a thread looks at the word before it sleeps.
const LOOKS: u32 = 100;

/// A value that one thread at a time has, and a key that stays. Contracts name the key as `table.shared.key`, and the lock as
/// `table.shared.table_id`, which no other lock has.
pub struct KeyedLock<T: Drop, K, I: LockRule<T, K>> {
    pub table: Table<Option<T>, K, K, Locked<I>, Global>,
    ghost one: { (table.shared.table_id.words ≡ 1) × (table.shared.table_id.slots ≡ 1) },
}

impl<T: Drop, K: Drop, I: LockRule<T, K>> Drop for KeyedLock<T, K, I> {
    fn drop(self) {
        let KeyedLock { table: _ } = self;
    }
}

/// The value of a lock, taken out. Only `KeyedLock::put` ends it, so that a path which forgets the value does not compile.
pub struct TakenValue<T, K> {
    pub value: T,
    pub seat: Seat<Option<T>, K>,
    ghost out: { seat.me.1 ≡ (0, None) ∷ [] },
}

impl<T: Drop, K, I: LockRule<T, K>> KeyedLock<T, K, I> {
    /// Returns a lock with this value and this key, which no thread holds.
    ///
    /// # Errors
    ///
    /// `AllocError` where memory is refused; the value is dropped then.
    pub fn new(alloc: Global, value: T, key: &K) -> Result<KeyedLock<T, K, I>, AllocError>
        requires { I.holds key.now value }
        ensures { IfOk result (λ l. l.table.shared.key ≡ key.now) }
    {
        let mut slots = Vec::with_capacity(alloc, 1)?;
        slots.push_reserved(Some(value));
        match Table::new(alloc, &[0], slots, key) {
            Ok((table, _)) => Ok(KeyedLock { table }),
            Err(_) => Err(AllocError),
        }
    }

    /// Takes the value out and returns it, as soon as no other thread has it; until then the thread sleeps.
    pub fn take<R: Wait>(&self, rt: &R) -> TakenValue<T, K>
        ensures here { result.seat.table_id ≡ self.now.table.shared.table_id }
        ensures fact { I.holds self.now.table.shared.key result.value }
    {
        if let Some(held) = self.try_take(TAKEN) {
            return held;
        }
        for _ in rt.forever() {
            self.look();
            if let Some(held) = self.try_take(AWAITED) {
                return held;
            }
            self.table.shared.park(rt, 0, AWAITED as u32);
        }
        unreachable!()
    }

    // Takes the value where no other thread has it, and leaves this word.
    fn try_take(&self, word: u64) -> Option<TakenValue<T, K>>
        requires { 0 < word }
        ensures here { IfSome result (λ h. h.seat.table_id ≡ self.now.table.shared.table_id) }
        ensures fact { IfSome result (λ h. I.holds self.now.table.shared.key h.value) }
    {
        let (found, mut seat) = self.table.shared.swap_new_seat::<Takes<I>>(0, word);
        if found != FREE {
            return None;
        }
        let Some(value) = self.table.shared.exchange(&mut seat, 0, None) else {
            unreachable!()
        };
        Some(TakenValue { value, seat })
    }

    // Looks for a short while whether the value comes back.
    fn look(&self) {
        for _ in 0..LOOKS {
            if self.table.shared.peek(0) == FREE {
                return;
            }
            spin_loop();
        }
    }

    /// Puts the lock's own value back, changed or not, and wakes one thread that waits for it.
    pub fn put(&self, held: TakenValue<T, K>)
        requires here { held.seat.table_id ≡ self.now.table.shared.table_id }
        requires fact { I.holds self.now.table.shared.key held.value }
    {
        let TakenValue { value, mut seat } = held;
        self.table.shared.exchange(&mut seat, 0, Some(value));
        let word = self.table.shared.swap::<Gives>(&mut seat, 0, FREE);
        if word != TAKEN {
            self.table.shared.wake_one(0);
        }
    }
}
