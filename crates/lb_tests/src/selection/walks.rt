//! Walks of weighted selectors at worked values, which come from the rules of FNV-1a and of the walks.
use crate::asserted::assert_row;
use crate::selection::fixtures::{is_text, set_of, walked, words_from};
use lb_select::selection::{FNVHash, RoundRobin};
use lb_select_base::refusal::Refusal;
use lb_select_base::words::CoreWords;
use rand_pcg::Pcg64;
use std::alloc::Global;

// Backends with their weights, the first ticket, the key that is hashed or none for walks in turn, how many candidates are taken of
// each walk, and which they are; and the next ticket then.
struct Row {
    members: &'static [(&'static str, usize)],
    ticket: u64,
    key: Option<&'static [u8]>,
    counts: &'static [usize],
    wanted: &'static str,
    next: u64,
}

const ROWS: &[Row] = &[
    Row {
        members: &[("1.1.1.1:80", 1), ("1.0.0.1:80", 10), ("1.0.0.255:80", 1)],
        ticket: 0,
        key: Some(b"test"),
        counts: &[11],
        wanted: "1.0.0.1:80 1.0.0.1:80 1.0.0.1:80 1.1.1.1:80 1.0.0.255:80 1.0.0.1:80 1.0.0.1:80 1.1.1.1:80 1.0.0.1:80 \
            1.0.0.255:80 1.1.1.1:80 ",
        next: 0,
    },
    // The candidates of one walk, and the first of each walk after it.
    Row {
        members: &[("1.1.1.1:80", 1), ("1.0.0.1:80", 8), ("1.0.0.255:80", 1)],
        ticket: 0,
        key: None,
        counts: &[5, 1, 1, 1, 1, 1, 1, 1],
        wanted: "1.0.0.1:80 1.0.0.255:80 1.1.1.1:80 1.0.0.1:80 1.0.0.255:80 1.0.0.1:80 1.0.0.1:80 1.0.0.1:80 1.0.0.255:80 \
            1.1.1.1:80 1.0.0.1:80 1.0.0.1:80 ",
        next: 12,
    },
    // A ticket that wraps.
    Row {
        members: &[("1.0.0.1:80", 1), ("1.0.0.2:80", 1), ("1.0.0.3:80", 1)],
        ticket: u64::MAX,
        key: None,
        counts: &[1, 1],
        wanted: "1.0.0.1:80 1.0.0.1:80 ",
        next: 1,
    },
    // A backend of weight 0 comes as a fallback alone.
    Row {
        members: &[("1.0.0.1:80", 0), ("1.0.0.2:80", 2)],
        ticket: 0,
        key: None,
        counts: &[3],
        wanted: "1.0.0.2:80 1.0.0.2:80 1.0.0.1:80 ",
        next: 3,
    },
    // Without any weight one ticket is drawn, and nothing comes.
    Row {
        members: &[("1.0.0.1:80", 0), ("1.0.0.2:80", 0)],
        ticket: 0,
        key: None,
        counts: &[2],
        wanted: "- - ",
        next: 1,
    },
];

// The candidates of the row's walks.
fn walks(alloc: Global, row: &Row, words: &mut CoreWords<Pcg64>) -> Result<String, Refusal> {
    let set = set_of(alloc, row.members)?;
    match row.key {
        Some(key) => walked::<FNVHash>(alloc, &set, words, key, row.counts),
        None => walked::<RoundRobin>(alloc, &set, words, b"", row.counts),
    }
}

#[test]
fn weighted_walks(rt: HostRuntime) {
    for row in ROWS {
        let mut words = words_from(row.ticket);
        let found = walks(rt.alloc(), row, &mut words);
        let is_wanted = is_text(&found, row.wanted) && words.tickets == row.next;
        assert_row(&rt, is_wanted, &row.wanted);
    }
}
