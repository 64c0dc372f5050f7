//! What the words of a board and the records of its passes keep true between any two steps, and the steps that there are.
//! A pass loads a word; the one pass that writes raises one by a maximum. Nothing else changes a word or a record.
ghost use Rattle.lb_rebuild.specs.BoardRule.{Kept, Loaded, Raised, Came, first_record};

use atomic_table::{Play, TableRule};
use std::collections::LinkedList;

/// What a pass has seen: for each word the greatest number and how many steps it made at it, and whether it is the one that writes.
/// The step of the pass that writes is a raise, that of any other a load.
/// No value of this type is ever made; it is the type of what passes know.
#[derive(Drop)]
pub struct Record {
    pub values: LinkedList<u64>,
    pub loads: LinkedList<u64>,
    pub writes: bool,
}

/// The rule of a board, by its number of slots: no pass is past a word, no served word is past the newest one, and the record of the
/// pass that writes is the words themselves.
pub struct Rises {}

impl TableRule<(), Record, usize> for Rises {
    ghost holds = { λ slots s. Kept slots s.words s.views };

    ghost first = { λ slots. first_record slots };
}

/// The step of a reading: a pass's value becomes the word, and it has made one load more of it.
pub struct LoadsWord {}

impl Play<(), Record> for LoadsWord {
    ghost then = { λ step v n w. Loaded step.word v n w };
}

/// The step of an update or of a publication: the pass that writes raises a word, and its own value with it.
pub struct Raises {}

impl Play<(), Record> for Raises {
    ghost then = { λ step v n w. Raised step.word step.first v w };
}

/// The load with which a new pass comes, which has seen nothing.
pub struct Comes {}

impl Play<(), Record> for Comes {
    ghost then = { λ step v n w. Came v w };
}
