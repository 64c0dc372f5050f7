//! Each built selector has a counter of tickets of its own, which begins at 0; a reader of a retired selector goes on in that one's.
use crate::groups::turns::turn;
use lb_crowd::calls::{AskedGroup, GroupWithReaders};
use lb_crowd::crowd::select_one;
use lb_crowd::group_asks;
use lb_crowd::turns::Still;
use pingora_load_balancing::discovery::{DiscoverySource, Static};
use pingora_load_balancing::port::Turn;
use pingora_load_balancing::{Backend, Refusal};
use std::alloc::Global;
use std::collections::BTreeSet;
use std::process::Abort;
use std::sync::Wait;

// A discovery of the first so many of these three.
fn first_ones(alloc: Global, count: usize) -> Result<DiscoverySource<Static>, Refusal> {
    let mut backends = BTreeSet::new(alloc);
    for address in ["1.0.0.1:80", "1.0.0.2:80", "1.0.0.3:80"]
        .iter()
        .take(count)
    {
        backends.insert(Backend::new(alloc, *address)?)?;
    }
    Ok(DiscoverySource::Static(Static::new(backends)))
}

// Updates a group to so many backends, and builds slot 0; whether that is published.
fn published<G: AskedGroup, W: Wait + Abort>(
    rt: &W,
    alloc: Global,
    group: &G,
    backends: usize,
) -> bool {
    let discovery = first_ones(alloc, backends).expect(rt, "refused");
    let updated = group_asks::update(rt, alloc, group, &discovery, &mut Still {});
    let generation = updated.expect(rt, "refused");
    turn(rt, alloc, group, 0) == Turn::Published(generation)
}

// Whether an answer is the backend at this address.
fn is_at<W: Abort>(
    rt: &W,
    alloc: Global,
    answer: Result<Option<Backend>, Refusal>,
    address: &str,
) -> bool {
    let expected = Backend::new(alloc, address).expect(rt, "refused");
    answer.expect(rt, "refused").as_ref() == Some(&expected)
}

/// A slot that serves by turns begins with the first backend of each selector that is built for it, while a reader of the one before goes
/// on where that one was.
pub fn tickets_of_each<G: GroupWithReaders, W: Wait + Abort>(rt: &W, alloc: Global, group: &G) {
    let first = published(rt, alloc, group, 3);
    let before = [
        is_at(rt, alloc, select_one(rt, alloc, group, 0), "1.0.0.1:80"),
        is_at(rt, alloc, select_one(rt, alloc, group, 0), "1.0.0.2:80"),
    ];
    let reader = group.enter(rt, 0).expect(rt, "refused");
    let second = published(rt, alloc, group, 2);
    let after = [
        is_at(rt, alloc, select_one(rt, alloc, group, 0), "1.0.0.1:80"),
        is_at(
            rt,
            alloc,
            group.select_in(rt, alloc, &reader, b"k", 1),
            "1.0.0.3:80",
        ),
        is_at(rt, alloc, select_one(rt, alloc, group, 0), "1.0.0.2:80"),
    ];
    group.leave(rt, reader);
    let last = turn(rt, alloc, group, 0);
    assert_eq!(rt;
        (first, before, second, after, last),
        (true, [true; 2], true, [true; 3], Turn::Nothing)
    );
}
