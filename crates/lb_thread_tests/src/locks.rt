//! Locks, gates and generators that several threads use at once.
use lb_threads_core::gate::SelectorRebuildGate;
use lb_threads_core::generators::SharedGenerator;
use lb_threads_core::lock::KeyedLock;
use lb_threads_core::rule::LockRule;
use std::sync::Wait;
use std::thread;
use std::thread::{Threads, join};

// A lock that asks nothing of its value.
struct OfAny {}

impl LockRule<u64, ()> for OfAny {
    ghost holds = { λ _ _. Unit {0} };
}

// Adds one to the value so many times, taking the lock for each; how often that was.
fn add<R: Wait>(rt: &R, lock: &KeyedLock<u64, (), OfAny>, times: u64) -> u64 {
    for _ in 0..times {
        let mut held = lock.take(rt);
        held.value = held.value.wrapping_add(1);
        lock.put(held);
    }
    times
}

// What the lock contains.
fn total<R: Wait>(rt: &R, lock: &KeyedLock<u64, (), OfAny>) -> u64 {
    let held = lock.take(rt);
    let total = held.value;
    lock.put(held);
    total
}

// No addition is lost, whichever thread made it.
#[test]
fn every_addition_counts(rt: HostRuntime) {
    let lock = KeyedLock::new(rt.alloc(), 0, &()).expect(&rt, "refused");
    let shared = &lock;
    let added = thread::map_indices(&rt, rt.alloc(), 4, &|_| add(&rt, shared, 5000));
    let count = added.expect(&rt, "refused").len();
    assert_eq!(rt; (count, total(&rt, shared)), (4, 20_000));
}

// Grants the permit where it is there, and gives it back; whether it was there.
fn granted<R: Wait>(rt: &R, gate: &SelectorRebuildGate) -> bool {
    match gate.grant(rt) {
        Some(permit) => {
            gate.give_back(rt, permit);
            true
        }
        None => false,
    }
}

// Whether two other threads got the permit while it was held; none where it was not there.
fn granted_beside<R: Threads + Wait + Sync>(
    rt: &R,
    gate: &SelectorRebuildGate,
) -> Option<[bool; 2]> {
    let permit = gate.grant(rt)?;
    let (first, second) = join(rt, || granted(rt, gate), || granted(rt, gate));
    gate.give_back(rt, permit);
    Some([first, second])
}

// Of a gate whose permit is held, no other thread gets it; it does once the permit is back.
#[test]
fn one_permit_at_a_time(rt: HostRuntime) {
    let gate = SelectorRebuildGate::new(rt.alloc()).expect(&rt, "refused");
    let told = (granted_beside(&rt, &gate), granted(&rt, &gate));
    assert_eq!(rt; told, (Some([false; 2]), true));
}

// The first words of SplitMix64 by the seed 1234567, as its reference program prints them.
#[test]
fn words_of_a_generator(rt: HostRuntime) {
    let generator = SharedGenerator::new(1_234_567);
    let drawn = [
        generator.random(),
        generator.random(),
        generator.random(),
        generator.random(),
    ];
    let words = [
        6_457_827_717_110_365_317,
        3_203_168_211_198_807_973,
        9_817_491_932_198_370_423,
        4_593_380_528_125_082_431,
    ];
    assert_eq!(rt; drawn, words);
}
