//! The cells and the flags of a generation's backends, as words that threads share: one for each backend, which says what cell it has,
//! whether it is enabled, and whether that was found of the newest membership. A selection loads the word of its candidate and that of its
//! cell. Who sets a flag writes its word while the membership is locked, and so does who asks for a backend that has no word yet.
ghost use Rattle.std.specs.Prelude.{◌≡◌, ◌<◌, ◌%◌, ◌/◌, Bool, IfOk, IfSome, true, ℕ};
ghost use Rattle.lb_select_base.specs.Backends.{Member, same_member};
ghost use Rattle.lb_threads_core.specs.FlagWords.{said_as};

use crate::marks::{Marks, marks_of, place_by, place_of};
use crate::word_rule::WordRule;
use crate::words::KeyedWords;
use lb_select_base::backend::Backend;
use std::alloc::{AllocError, Global};
use std::collections::BTreeSet;
use std::marker::{Model, PhantomData};
use std::snapshot::Snapshot;

// What a word says of a backend that is disabled, and of one that is enabled.
const IS_DISABLED: u64 = 2;

const IS_ENABLED: u64 = 3;

// The same of the newest membership.
const IS_DISABLED_NOW: u64 = 6;

const IS_ENABLED_NOW: u64 = 7;

// A cell of this number and above isn't noted: all but the last three bits of a word are the cell's.
const CELLS: u64 = 0x2000_0000_0000_0000;

/// What is known of a backend whose cell and flag a word says.
pub trait FlagRule<K> {
    /// The fact about key, backend, cell, whether the backend is enabled, and whether that was found of the newest membership: who reads a
    /// word may use it, and who notes one has to prove it.
    ghost told: { K → Member → ℕ → Bool → Bool → Type 0 };

    // What is known of a backend is known of one of its identity.
    ghost by_identity: { (key : K) (b m : Member) (cell : ℕ) (enabled is_newest : Bool) → same_member b m ≡ true
        → told key m cell enabled is_newest → told key b cell enabled is_newest };
}

/// The key of words: what they are of, and the backend of each place.
#[derive(Drop)]
pub struct Subject<K> {
    of: Snapshot<K>,
    marks: Snapshot<Marks>,
}

/// Each word says of the backend that has its place which cell it has, and whether it is enabled.
pub struct SaidBy<I> {
    of: PhantomData<I>,
}

impl<K, I: FlagRule<K>> WordRule<Subject<K>> for SaidBy<I> {
    ghost use Rattle.lb_threads_core.specs.FlagWords.{SaysAt};

    ghost holds = { λ subject i w. SaysAt (I.told subject.of.value) subject.marks.value.items i w };
}

/// The cell of a backend, whether the backend is enabled, and whether that was found of the newest membership.
#[derive(Clone, Copy)]
pub struct Flagged {
    pub cell: u64,
    pub is_enabled: bool,
    pub is_newest: bool,
}

/// Cells and flags as words. Contracts see what the words are of.
#[derive(Drop)]
pub struct FlagWords<K, I: FlagRule<K>> {
    marks: Marks,
    words: KeyedWords<Subject<K>, SaidBy<I>>,
}

impl<K, I: FlagRule<K>> Model for FlagWords<K, I> {
    ghost use Rattle.std.specs.Prelude.{◌≡◌};

    ghost Value = { K };

    ghost view = { λ w. w.words.table.shared.key.of.value };

    ghost invariant = { λ w. w.words.table.shared.key.marks.value.items ≡ w.marks.items };
}

impl<K, I: FlagRule<K>> FlagWords<K, I> {
    /// Returns words of these backends, which say nothing yet.
    ///
    /// # Errors
    ///
    /// `AllocError` where memory is refused.
    pub fn new(
        alloc: Global,
        backends: &BTreeSet<Backend>,
        of: &K,
    ) -> Result<FlagWords<K, I>, AllocError>
        ensures { IfOk result (λ w. w ≡ of.now) }
    {
        let marks = marks_of(alloc, backends)?;
        let none: Vec<u64> = vec![in alloc; 0; marks.len()]?;
        let subject = Subject {
            of: Snapshot::of(of),
            marks: Snapshot::of(&marks),
        };
        let words = KeyedWords::new(alloc, &none, &subject)?;
        Ok(FlagWords { marks, words })
    }

    /// Returns what the word of a backend says, whose identity has this number (`marks::spread_of`), by one load.
    ///
    /// `None` where none says anything of it.
    #[inline]
    pub fn said(&self, backend: &Backend, spread: u64) -> Option<Flagged>
        ensures { IfSome result (λ f. I.told self.now backend.now f.cell f.is_enabled f.is_newest) }
    {
        let place = place_by(self.marks.as_slice(), backend, spread)?;
        said_by(self.words.load(place)?)
    }

    /// Notes the cell and the flag of a backend, or does nothing where no word is its.
    pub fn note(&self, backend: &Backend, flagged: Flagged)
        requires { I.told self.now backend.now flagged.cell flagged.is_enabled flagged.is_newest }
    {
        let Some(word) = word_of(flagged) else {
            return;
        };
        if let Some(place) = place_of(self.marks.as_slice(), backend) {
            self.words.store(place, word);
        }
    }

    /// Returns the backend of each place that has one.
    pub fn marks(&self) -> &[Option<Backend>] {
        self.marks.as_slice()
    }
}

// What a word says.
#[inline]
fn said_by(word: u64) -> Option<Flagged>
    ensures { IfSome result (λ f. (word % 8 ≡ said_as f.is_enabled f.is_newest) × (f.cell ≡ word / 8)) }
{
    let (is_enabled, is_newest) = match word % 8 {
        IS_ENABLED_NOW => (true, true),
        IS_DISABLED_NOW => (false, true),
        IS_ENABLED => (true, false),
        IS_DISABLED => (false, false),
        _ => return None,
    };
    Some(Flagged {
        cell: word / 8,
        is_enabled,
        is_newest,
    })
}

// The word that says so, if there is room in one.
fn word_of(flagged: Flagged) -> Option<u64>
    ensures { IfSome result (λ w. (w % 8 ≡ said_as flagged.is_enabled flagged.is_newest) × (w / 8 ≡ flagged.cell)) }
{
    if flagged.cell >= CELLS {
        return None;
    }
    let says = match (flagged.is_enabled, flagged.is_newest) {
        (true, true) => IS_ENABLED_NOW,
        (false, true) => IS_DISABLED_NOW,
        (true, false) => IS_ENABLED,
        (false, false) => IS_DISABLED,
    };
    Some(put_together(flagged.cell, says))
}

// A word of these two parts.
fn put_together(cell: u64, says: u64) -> u64
    requires { (cell < 0x2000_0000_0000_0000) × (says < 8) }
    ensures { (result % 8 ≡ says) × (result / 8 ≡ cell) }
{
    cell * 8 + says
}
