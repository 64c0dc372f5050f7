//! What a world keeps between steps: the job or the built selector of each slot, and the readers. A job and a built selector stay here
//! between the steps that ask, build and publish.
ghost use Rattle.std.specs.Prelude.{◌≡◌, ◌≤◌, [], MatchOption, replicate, vec_capacity};
ghost use Rattle.lb_world.specs.Views.{nothing, building, built, NotBuilding, NotBuilt};
ghost use Rattle.lb_world.specs.Works.{work_value};

use lb_rebuild_core::endings::{end_built, end_job, end_reader};
use lb_rebuild_core::job::{Built, Job};
use lb_rebuild_core::retired::Reader;
use lb_select_base::walk::BackendSelection;
use std::marker::Model;
use std::mem;

// What is held for a slot.
pub(crate) enum Work<S: BackendSelection> {
    Nothing,
    Building(Job<S>),
    Built(Built<S>),
}

// Holds a slot's job or built selector between steps. It is made with the group, so that asking takes no memory.
pub(crate) struct InHand<S: BackendSelection> {
    pub(crate) work: Work<S>,
}

impl<S: BackendSelection> Model for InHand<S> {
    ghost use Rattle.lb_world.specs.Views.{WorkValue};
    ghost use Rattle.lb_world.specs.Works.{work_value};

    ghost Value = { WorkValue S.Config };

    ghost view = { λ p. work_value p.work };
}

impl<S: BackendSelection> InHand<S> {
    // Ends the work with the world.
    pub(crate) fn close(self) {
        let InHand { work } = self;
        match work {
            Work::Nothing => {}
            Work::Building(job) => end_job(job),
            Work::Built(built) => end_built(built),
        }
    }

    // Puts work where none is held.
    pub(crate) fn hold(&mut self, work: Work<S>)
        requires { self.old ≡ nothing }
        ensures { self.new ≡ work_value work }
    {
        match mem::replace(&mut self.work, work) {
            Work::Nothing => {}
            Work::Building(_job) => unreachable!(),
            Work::Built(_built) => unreachable!(),
        }
    }

    // Takes the job that is held; what is built stays.
    pub(crate) fn take_job(&mut self) -> Option<Job<S>>
        ensures { MatchOption result (NotBuilding self.old × (self.new ≡ self.old))
            (λ t. (self.old ≡ building t) × (self.new ≡ nothing)) }
    {
        match mem::replace(&mut self.work, Work::Nothing) {
            Work::Building(job) => Some(job),
            Work::Nothing => None,
            Work::Built(built) => {
                self.hold(Work::Built(built));
                None
            }
        }
    }

    // Takes the built selector that is held; a job stays.
    pub(crate) fn take_built(&mut self) -> Option<Built<S>>
        ensures { MatchOption result (NotBuilt self.old × (self.new ≡ self.old)) (λ b. (self.old ≡ built b) × (self.new ≡ nothing)) }
    {
        match mem::replace(&mut self.work, Work::Nothing) {
            Work::Built(built) => Some(built),
            Work::Nothing => None,
            Work::Building(job) => {
                self.hold(Work::Building(job));
                None
            }
        }
    }
}

// A place for each of so many slots, with nothing held, in a list that has room for them.
pub(crate) fn with_places<S: BackendSelection>(
    mut room: Vec<InHand<S>>,
    count: usize,
) -> Vec<InHand<S>>
    requires empty { room.items ≡ [] }
    requires fits { count ≤ vec_capacity room }
    ensures { result.items ≡ replicate count nothing }
{
    for _ in 0..count {
        room.push_reserved(InHand {
            work: Work::Nothing,
        });
    }
    room
}

// A reader with the number of its group.
pub(crate) struct OpenReader<S: BackendSelection> {
    pub(crate) group: usize,
    pub(crate) reader: Reader<S>,
}

impl<S: BackendSelection> Model for OpenReader<S> {
    ghost use Rattle.lb_world.specs.Views.{OpenReaderValue};

    ghost Value = { OpenReaderValue S.Config };

    ghost view = { λ r. record { group = r.group; reader = r.reader } };
}

impl<S: BackendSelection> OpenReader<S> {
    // The number of its group.
    pub(crate) fn group(&self) -> usize
        ensures { result ≡ self.now.group }
    {
        self.group
    }

    // The reader itself.
    pub(crate) fn reader(&self) -> &Reader<S>
        ensures { result.now ≡ self.now.reader }
    {
        &self.reader
    }

    // Ends the reader with the world.
    pub(crate) fn close(self) {
        let OpenReader { group: _, reader } = self;
        end_reader(reader);
    }
}
