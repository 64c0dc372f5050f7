//! A world whose selectors draw at random: scripts hand no words to a selection, so these are calls.
//! A selection of at most three candidates may draw four words.
use lb_select::selection::Random;
use lb_select_base::backend::Backend;
use lb_select_base::refusal::Refusal;
use lb_world::answer::Answer;
use lb_world::step::{CellKey, Listing, Step};
use lb_world::world::World;
use std::alloc::Global;

type Worlds = World<Random>;

/// What an answer says, with its number: of a backend its weight, of a refusal the refusal's.
#[derive(Clone, Copy, PartialEq, Eq)]
enum Said {
    Registry(u64),
    Gate(u64),
    Group(u64),
    Generation(u64),
    Build(u64),
    Built(u64),
    Published(u64),
    Selected(usize),
    Refused(u64),
    Another,
}

fn told(answer: Answer) -> Said {
    match answer {
        Answer::Registry(number) => Said::Registry(number),
        Answer::Gate(number) => Said::Gate(number),
        Answer::Group(number) => Said::Group(number),
        Answer::Generation(number) => Said::Generation(number),
        Answer::Build(number) => Said::Build(number),
        Answer::Built(number) => Said::Built(number),
        Answer::Published(number) => Said::Published(number),
        Answer::Backend(backend, _tickets) => Said::Selected(backend.weight),
        Answer::Refused(refusal) => Said::Refused(refusal.number()),
        _ => Said::Another,
    }
}

// A group of one slot over a new registry and a new gate, updated to one backend of weight 5.
fn made(alloc: Global, world: &mut Worlds) -> Result<[Said; 4], Refusal> {
    let mut configs = Vec::new(alloc);
    configs.push(())?;
    let backend = Backend::new_with_weight(alloc, "1.0.0.1:80", 5)?;
    let mut listings = Vec::new(alloc);
    listings.push(Listing {
        backend: Some(backend),
        mark: None,
    })?;
    let (rule, healthy) = (CellKey::Identity, true);
    let (registry, gate, group, now) = (0, 0, 0, 0);
    Ok([
        told(world.step(Step::Registry { rule, healthy })),
        told(world.step(Step::Gate)),
        told(world.step(Step::Group {
            registry,
            gate,
            configs,
        })),
        told(world.step(Step::Update {
            group,
            now,
            listings,
        })),
    ])
}

// Its build, and selections of three candidates by three words and by four, which are borrowed.
fn served(world: &mut Worlds) -> [Said; 5] {
    let (group, slot, now) = (0, 0, 0);
    [
        told(world.step(Step::Ask { group, slot, now })),
        told(world.step(Step::Build { group, slot, now })),
        told(world.step(Step::Publish { group, slot })),
        told(world.select(0, 0, b"k", 3, &[7, 8, 9])),
        told(world.select(0, 0, b"k", 3, &[7, 8, 9, 10])),
    ]
}

// Such a selection by a step, which owns the words.
fn selected(alloc: Global, world: &mut Worlds, words: &[u64]) -> Result<Said, Refusal> {
    let words = Vec::from_slice(alloc, words)?;
    Ok(told(world.step(Step::Select {
        group: 0,
        slot: 0,
        key: Vec::new(alloc),
        limit: 3,
        words,
    })))
}

type AllSaid = ([Said; 4], [Said; 5], [Said; 2]);

fn all_said(alloc: Global, world: &mut Worlds) -> Result<AllSaid, Refusal> {
    let made = made(alloc, world)?;
    let served = served(world);
    let few = selected(alloc, world, &[7, 8, 9])?;
    let enough = selected(alloc, world, &[7, 8, 9, 10])?;
    Ok((made, served, [few, enough]))
}

const WANTED: AllSaid = (
    [
        Said::Registry(0),
        Said::Gate(0),
        Said::Group(0),
        Said::Generation(1),
    ],
    [
        Said::Build(1),
        Said::Built(1),
        Said::Published(1),
        Said::Refused(16),
        Said::Selected(5),
    ],
    [Said::Refused(16), Said::Selected(5)],
);

#[test]
fn random_words_are_handed_in(rt: HostRuntime) {
    let mut world: Worlds = World::new(rt.alloc());
    assert!(rt; all_said(rt.alloc(), &mut world) == Ok(WANTED));
}
