//! Selections by the library alone: `selects`, what one costs without a script's text. A line of standard input is a run,
//! `KIND BACKENDS WEIGHT SELECTIONS`; its answer is the sum of the addresses that were chosen, so that runs can be compared.
use crate::words::Usage;
use anyhow::Error;
use lb_crowd::members::member;
use lb_select::ketama::KetamaHashing;
use lb_select::least::LeastConnections;
use lb_select::selection::{FNVHash, RoundRobin};
use lb_select_base::backend::{Backend, InetAddr, SocketAddr};
use lb_select_base::refusal::Refusal;
use lb_select_base::select::select;
use lb_select_base::walk::BackendSelection;
use lb_select_base::words::CoreWords;
use rand_pcg::Pcg64;
use std::alloc::Global;
use std::collections::BTreeSet;
use std::sync::Arc;

// As many candidates as the scripts of bench/ look at; the first is accepted always.
const LIMIT: usize = 8;

// What a line asks for.
#[derive(Clone, Copy)]
struct Line<'a> {
    kind: &'a str,
    backends: u32,
    // of each backend; none where they are mixed
    weight: Option<usize>,
    selections: u64,
}

// The number that a backend was made of.
fn number_of(backend: &Backend) -> u64 {
    match &backend.addr {
        SocketAddr::Inet(InetAddr::V4(octets, _)) => u64::from(u32::from_be_bytes(*octets)),
        _ => 0,
    }
}

// The sum of the numbers of the backends that are selected under the keys of this many numbers.
fn selected<S: BackendSelection>(
    alloc: Global,
    backends: &BTreeSet<Backend>,
    words: &mut CoreWords<Pcg64>,
    selections: u64,
) -> Result<u64, Refusal> {
    let selector = Arc::new(alloc, S::build(alloc, backends)?)?;
    let mut sum = 0u64;
    for number in 0..selections {
        let key = number.to_le_bytes();
        let found = select(alloc, &selector, &key, words, LIMIT, &|_: &Backend| true)?;
        if let Some(backend) = found {
            sum = sum.wrapping_add(number_of(&backend));
        }
    }
    Ok(sum)
}

impl Line<'_> {
    // The run of a line's words. A weight that is no number means mixed ones.
    fn of(line: &str) -> Option<Line<'_>> {
        let mut words = line.split(' ');
        let kind = words.next()?;
        let backends = words.next()?.parse::<u32>().ok()?;
        let weight = words.next()?.parse::<usize>().ok();
        let selections = words.next()?.parse::<u64>().ok()?;
        Some(Line {
            kind,
            backends,
            weight,
            selections,
        })
    }

    // Adds its backends, whose loads are set where a kind goes by them. Mixed weights are from 1 to 10.
    fn fill(
        self,
        alloc: Global,
        backends: &mut BTreeSet<Backend>,
        words: &mut CoreWords<Pcg64>,
    ) -> Result<(), Refusal> {
        for number in 0..self.backends {
            let weight = self.weight.unwrap_or(number as usize % 10 + 1);
            let backend = member(alloc, 0, number, weight);
            if self.kind == "least" {
                words.set_load(alloc, &backend, (u64::from(number) + 3) * 7919 % 1000)?;
            }
            backends.insert(backend)?;
        }
        Ok(())
    }

    // Its answer from these backends; none where there is no such kind.
    fn sum(
        self,
        alloc: Global,
        backends: &BTreeSet<Backend>,
        words: &mut CoreWords<Pcg64>,
    ) -> Result<Option<u64>, Refusal> {
        let selections = self.selections;
        let sum = match self.kind {
            "fnv" => selected::<FNVHash>(alloc, backends, words, selections),
            "rr" => selected::<RoundRobin>(alloc, backends, words, selections),
            "ketama" => selected::<KetamaHashing>(alloc, backends, words, selections),
            "least" => selected::<LeastConnections>(alloc, backends, words, selections),
            _ => return Ok(None),
        };
        Ok(Some(sum?))
    }

    // Its answer.
    fn answer(self, alloc: Global) -> Result<Option<u64>, Refusal> {
        let mut backends = BTreeSet::new(alloc);
        let mut words = CoreWords::new(Pcg64::new(1, 2));
        self.fill(alloc, &mut backends, &mut words)?;
        self.sum(alloc, &backends, &mut words)
    }
}

// Prints a line with its answer.
fn answer<R: Print>(rt: &R, alloc: Global, line: &str) -> Result<(), Error> {
    let answered = match Line::of(line) {
        Some(run) => run.answer(alloc)?,
        None => None,
    };
    match answered {
        Some(sum) => Ok(println!(rt; "{line} {sum}")?),
        None => Err(Usage::UnknownRun)?,
    }
}

/// Answers the lines of standard input.
pub fn run<R: Input + Print>(rt: &R, alloc: Global) -> Result<(), Error> {
    for line in rt.lines(alloc) {
        answer(rt, alloc, line?.as_str())?;
    }
    Ok(())
}

/// Answers a short line of each kind.
pub fn few<R: Print>(rt: &R, alloc: Global) -> Result<(), Error> {
    let lines = [
        "fnv 10 1 100",
        "rr 10 mixed 100",
        "ketama 10 1 100",
        "least 10 mixed 100",
    ];
    for line in lines {
        answer(rt, alloc, line)?;
    }
    Ok(())
}
