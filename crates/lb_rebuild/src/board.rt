//! The board of a group's generations, and passes over it. Readings take no lock and never wait. A pass never falls: what it has once seen
//! it never sees less of.
ghost use Rattle.std.specs.Prelude.{◌≡◌, ◌≢◌, ◌≤◌, ◌<◌, ◌+◌, replicate, IfOk, IfErr, slice_index};
ghost use Rattle.lb_rebuild.specs.Pass.{IsLoad, IsLater, IsReadinessSeen, IsServedSeen, HaveMet, raised_words};

use crate::board_rule::{Comes, LoadsWord, Raises, Record, Rises};
use atomic_table::{Seat, Table};
use lb_select_base::refusal::Refusal;
use std::alloc::Global;
use std::marker::Model;
use std::sync::Wait;

/// The generations of a group as words: the newest one, and the one that each slot serves. Only the group's own pass raises them.
///
/// Contracts see which board it is, and how many words it has.
pub struct Board {
    table: Table<(), Record, usize, Rises, Global>,
    slots: usize,
}

impl Drop for Board {
    fn drop(self) {
        let Board { table: _, slots: _ } = self;
    }
}

impl Model for Board {
    ghost use Rattle.std.specs.Prelude.{◌≡◌, ◌<◌, ◌+◌, ◌^◌};
    ghost use Rattle.lb_rebuild.specs.Pass.{BoardId, board_id_coded};

    ghost Value = { BoardId };

    ghost coded = { board_id_coded };

    ghost view = { λ b. b.table.shared.table_id };

    ghost invariant = { λ b. (b.table.shared.table_id.words ≡ b.slots + 1) × (b.table.shared.key ≡ b.slots) × (b.slots + 1 < 2 ^ 64) };
}

/// A pass over a board: what one reader has seen of it so far. It has no bytes, and it is the reader's alone.
///
/// Contracts see its board, the greatest number that it has seen in each word, and how many loads it has made of each.
#[derive(Drop)]
pub struct GroupPass {
    seat: Seat<(), Record>,
}

impl Model for GroupPass {
    ghost use Rattle.std.specs.Prelude.{◌≡◌, [], false, length};
    ghost use Rattle.lb_rebuild.specs.Pass.{PassValue};

    ghost Value = { PassValue };

    ghost view = { λ p. record { board = p.seat.table_id; values = p.seat.me.0.values; loads = p.seat.me.0.loads } };

    ghost invariant = { λ p. (p.seat.me.1 ≡ []) × (p.seat.me.0.writes ≡ false)
        × (length p.seat.me.0.values ≡ p.seat.table_id.words) × (length p.seat.me.0.loads ≡ p.seat.table_id.words) };
}

/// The pass that writes a board, of which there is one. It has no bytes.
///
/// Contracts see its board, what it wrote in each word, which is what the words are, and how many steps it has made.
#[derive(Drop)]
pub struct WritingPass {
    seat: Seat<(), Record>,
}

impl Model for WritingPass {
    ghost use Rattle.std.specs.Prelude.{◌≡◌, [], true, length};
    ghost use Rattle.lb_rebuild.specs.Pass.{WriterValue, total};

    ghost Value = { WriterValue };

    ghost view = { λ p. record { board = p.seat.table_id; words = p.seat.me.0.values; steps = total p.seat.me.0.loads } };

    ghost invariant = { λ p. (p.seat.me.1 ≡ []) × (p.seat.me.0.writes ≡ true)
        × (length p.seat.me.0.values ≡ p.seat.table_id.words) × (length p.seat.me.0.loads ≡ p.seat.table_id.words) };
}

impl Board {
    /// Returns a board for so many slots, whose words are 0, and the one pass that writes it.
    ///
    /// # Errors
    ///
    /// `OutOfMemory` where memory is refused.
    pub fn new(alloc: Global, slots: usize) -> Result<(Board, WritingPass), Refusal>
        ensures words { IfOk result (λ b. b.0.words ≡ slots + 1) }
        ensures writer { IfOk result (λ b. b.1 ≡ record { board = b.0; words = replicate (slots + 1) 0; steps = 0 }) }
        ensures refused { IfErr result (λ e. e ≡ Refusal.OutOfMemory) }
    {
        let Some(count) = slots.checked_add(1) else {
            return Err(Refusal::OutOfMemory);
        };
        let words: Vec<u64> = vec![in alloc; 0; count]?;
        let (table, seat) = Table::of_words(alloc, &words, &slots)?;
        Ok((Board { table, slots }, WritingPass { seat }))
    }

    /// Returns a new pass, without a lock or memory.
    pub fn pass(&self) -> GroupPass
        ensures { result.board ≡ self.now }
    {
        let (_newest, seat) = self.table.shared.load_new_seat::<Comes>(0);
        GroupPass { seat }
    }

    /// Returns how many words there are: one for the newest generation, and one for each slot.
    pub fn word_count(&self) -> usize
        ensures { (result ≡ self.now.words) × (0 < result) }
    {
        self.slots + 1
    }

    fn load(&self, word: usize, pass: &mut GroupPass) -> u64
        requires here { pass.old.board ≡ self.now }
        requires word { word < self.now.words }
        ensures { IsLoad pass.old word result pass.new }
    {
        self.table.shared.load::<LoadsWord>(&mut pass.seat, word)
    }

    /// Returns the newest generation, by one load.
    ///
    /// It never waits, and takes no lock and no memory.
    pub fn backend_generation_as(&self, pass: &mut GroupPass) -> u64
        requires { pass.old.board ≡ self.now }
        ensures { IsLoad pass.old 0 result pass.new }
    {
        // For the prover alone: this shows it the board's invariant, and does nothing at run time.
        let _slots = self.slots;
        self.load(0, pass)
    }

    /// Returns the generation that a slot serves, by one load, or `None` without a load where no such slot is there.
    ///
    /// It never waits, and takes no lock and no memory.
    pub fn selector_generation_as(&self, slot: usize, pass: &mut GroupPass) -> Option<u64>
        requires { pass.old.board ≡ self.now }
        ensures { IsServedSeen self.now slot pass.old result pass.new }
    {
        if slot >= self.slots {
            return None;
        }
        Some(self.load(slot + 1, pass))
    }

    /// Returns whether each slot serves this generation or a later one; true where there is no slot.
    ///
    /// It loads each slot's word in turn, up to the first that is below. It never waits, and takes no lock and no memory.
    pub fn selectors_ready_for_as(&self, generation: u64, pass: &mut GroupPass) -> bool
        requires { pass.old.board ≡ self.now }
        ensures { IsReadinessSeen self.now generation pass.old result pass.new }
    {
        for slot in 0..self.slots {
            if self.load(slot + 1, pass) < generation {
                return false;
            }
        }
        true
    }

    /// Loads a word until it is at least `least`, and returns what the last load found.
    pub fn catch_up<R: Wait>(&self, rt: &R, word: usize, least: u64, pass: &mut GroupPass) -> u64
        requires here { pass.old.board ≡ self.now }
        requires word { word < self.now.words }
        ensures least { least ≤ result }
        ensures value { slice_index pass.new.values word ≡ result }
        ensures later { IsLater pass.old pass.new }
    {
        for _ in rt.forever() {
            let found = self.load(word, pass);
            if found >= least {
                return found;
            }
        }
        unreachable!()
    }

    /// Joins what two passes have seen: afterwards neither is below what either was, in any word.
    pub fn meet<R: Wait>(&self, rt: &R, pass: &mut GroupPass, other: &mut GroupPass)
        requires { (pass.old.board ≡ self.now) × (other.old.board ≡ self.now) }
        ensures { HaveMet self.now pass.old other.old pass.new other.new }
    {
        for word in 0..self.word_count() {
            let first = self.load(word, pass);
            let second = self.catch_up(rt, word, first, other);
            self.catch_up(rt, word, second, pass);
        }
    }

    /// Raises a word to a generation, unless it is there already, by one step.
    pub fn raise(&self, pass: &mut WritingPass, word: usize, generation: u64)
        requires here { pass.old.board ≡ self.now }
        requires word { word < self.now.words }
        requires led { word ≢ 0 → generation ≤ slice_index pass.old.words 0 }
        ensures { pass.new ≡ record {
          board = pass.old.board;
          words = raised_words pass.old.words word generation;
          steps = pass.old.steps + 1;
        } }
    {
        self.table
            .shared
            .fetch_max::<Raises>(&mut pass.seat, word, generation);
    }
}
