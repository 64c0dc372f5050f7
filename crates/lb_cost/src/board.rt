//! How many readings of the newest generation threads make while updates go on: `board READERS READINGS [times]`. `bench/board` compares
//! it with plain loads of a word.
ghost use Rattle.std.specs.Prelude.{◌≡◌};

use crate::words::{number_at, print_line};
use anyhow::Error;
use lb_rebuild::board::{Board, GroupPass, WritingPass};
use lb_select_base::moments::MomentSource;
use lb_threads_core::clock::RuntimeClock;
use std::alloc::{AllocError, Global};
use std::sync::atomic::AtomicBool;
use std::sync::atomic::Ordering::SeqCst;
use std::thread;
use std::thread::{Threads, join};
use std::time::{Clock, Duration};

// One reading: 1 if it is above the one before, which is then this one.
fn rise(board: &Board, pass: &mut GroupPass, last: &mut u64) -> u64
    requires { pass.old.board ≡ board.now }
    ensures { pass.new.board ≡ board.now }
{
    let found = board.backend_generation_as(pass);
    let is_above = found > *last;
    *last = found;
    u64::from(is_above)
}

// Reads so many times, four times in each turn of the loop, so that it is not the loop that is measured; how often a reading was above the
// one before.
fn read_often(board: &Board, pass: GroupPass, times: u32) -> u64
    requires { pass.board ≡ board.now }
{
    let mut pass = pass;
    let mut last = 0;
    let mut rises: u64 = 0;
    for _ in 0..times / 4 {
        rises = rises.wrapping_add(rise(board, &mut pass, &mut last));
        rises = rises.wrapping_add(rise(board, &mut pass, &mut last));
        rises = rises.wrapping_add(rise(board, &mut pass, &mut last));
        rises = rises.wrapping_add(rise(board, &mut pass, &mut last));
    }
    rises
}

// Raises the newest generation every 50 microseconds, until the readers are done.
fn update_until<R: Clock>(rt: &R, board: &Board, writer: WritingPass, is_done: &AtomicBool)
    requires { writer.board ≡ board.now }
{
    let mut writer = writer;
    for generation in 0..u64::MAX {
        if is_done.load(SeqCst) {
            return;
        }
        let _words = board.word_count();
        board.raise(&mut writer, 0, generation);
        thread::sleep(rt, Duration::from_micros(50));
    }
}

// So many threads read, each by a pass of its own, and say then that they are done; how long that took, in nanoseconds.
fn read_all<R: Threads + Clock + Copy + Sync>(
    rt: &R,
    alloc: Global,
    board: &Board,
    readers: usize,
    times: u32,
    is_done: &AtomicBool,
) -> Result<u128, AllocError> {
    let mut clock = RuntimeClock::new(*rt);
    let start = clock.now();
    let reads = |_reader| read_often(board, board.pass(), times);
    let rises = thread::map_indices(rt, alloc, readers, &reads);
    let spent = clock.now().saturating_sub(start);
    is_done.store(true, SeqCst);
    rises?;
    Ok(spent)
}

/// Measures, and prints how many readings there were; with a third word the nanoseconds too.
pub fn run<R: Threads + Clock + Print + Copy + Sync>(
    rt: &R,
    alloc: Global,
    numbers: &[String],
) -> Result<(), Error> {
    let readers = number_at(numbers, 0, 2)?.min(64);
    let times = number_at(numbers, 1, 1000)?;
    let (board, writer) = Board::new(alloc, 1)?;
    let shared = &board;
    let is_done = AtomicBool::new(false);
    let done = &is_done;
    let (spent, ()) = join(
        rt,
        || read_all(rt, alloc, shared, readers as usize, times, done),
        move ||
            requires { writer.board ≡ shared.now }
        { update_until(rt, shared, writer, done) },
    );
    let spent = spent?;
    print_line(rt, "readings", u128::from(readers) * u128::from(times))?;
    if numbers.len() > 2 {
        print_line(rt, "nanoseconds", spent)?;
    }
    Ok(())
}
