//! The owner of a view in a registry that threads share. Its drop takes no lock and no memory: it notes that the view has no owner,
//! and the registry looks at these notes when it is taken next.
ghost use Rattle.std.specs.Prelude.{ℕ, All, Bool, IfSome};
ghost use Rattle.std.specs.Arc.{arc_value};
ghost use Rattle.lb_threads_core.specs.Internal.Leaving.{IsNoteOf};

use std::sync::Arc;
use std::sync::atomic::AtomicBool;
use std::sync::atomic::Ordering::SeqCst;

// What the owner of a view and its registry share.
#[derive(Drop)]
pub(crate) struct ViewNote {
    // The number of the view.
    pub(crate) id: u64,
    // Whether the view's owner is gone.
    pub(crate) is_gone: AtomicBool,
}

/// The owner of a view. Where it is dropped, the next call of the registry marks the view for removal and releases its cells.
pub struct ViewOwner {
    pub(crate) note: Arc<ViewNote>,
    // Has the registry look at its notes.
    pub(crate) some_gone: Arc<AtomicBool>,
}

impl Drop for ViewOwner {
    fn drop(self) {
        let ViewOwner { note, some_gone } = self;
        note.is_gone.store(true, SeqCst);
        some_gone.store(true, SeqCst);
    }
}

impl ViewOwner {
    /// Returns the number of the view.
    pub fn id(&self) -> u64 {
        self.note.id
    }
}

// Takes out the note of a view whose owner is gone.
pub(crate) fn take_gone(notes: &mut Vec<Arc<ViewNote>>) -> Option<Arc<ViewNote>>
    ensures { (is_of : ℕ → Bool) → All (λ n. IsNoteOf is_of (arc_value n)) notes.old.items
        → All (λ n. IsNoteOf is_of (arc_value n)) notes.new.items × IfSome result (λ n. IsNoteOf is_of (arc_value n)) }
{
    for place in 0..notes.len() {
        if place < notes.len() && notes[place].is_gone.load(SeqCst) {
            return Some(notes.swap_remove(place));
        }
    }
    None
}
