//! A board and passes over it, which several threads use at once: no reading waits, falls, or is below that of a pass that was met.
ghost use Rattle.std.specs.Prelude.{◌≡◌};

use lb_rebuild::board::{Board, GroupPass, WritingPass};
use std::alloc::Global;
use std::thread;
use std::thread::{Threads, join};

const TIMES: u64 = 20_000;

// What the three readings of a pass tell.
#[derive(Clone, Copy, Debug, PartialEq, Eq)]
struct Readings {
    // The newest generation.
    newest: u64,
    // What the slot serves; none where it is not there.
    served: Option<u64>,
    // Whether all slots serve that generation.
    is_ready: bool,
}

// The three readings, by a function that may not wait.
fn all_readings(board: &Board, slot: usize, generation: u64, pass: &mut GroupPass) -> Readings
    requires { pass.old.board ≡ board.now }
    ensures { pass.new.board ≡ board.now }
{
    let newest = board.backend_generation_as(pass);
    let served = board.selector_generation_as(slot, pass);
    let is_ready = board.selectors_ready_for_as(generation, pass);
    Readings {
        newest,
        served,
        is_ready,
    }
}

// Reads so many times by a pass of its own; whether no reading was below an earlier one.
fn never_falls(board: &Board, times: u64) -> bool {
    let mut pass = board.pass();
    let mut newest = 0;
    let mut served = 0;
    for _ in 0..times {
        let found = all_readings(board, 0, newest, &mut pass);
        let now = found.served.unwrap_or(0);
        if found.newest < newest || now < served {
            return false;
        }
        newest = found.newest;
        served = now;
    }
    true
}

// Raises the newest generation so many times.
fn raises(board: &Board, writer: WritingPass, times: u64)
    requires { writer.board ≡ board.now }
{
    let mut writer = writer;
    for generation in 0..times {
        let _words = board.word_count();
        board.raise(&mut writer, 0, generation);
    }
}

// Four threads that read; whether no reading of any was below an earlier one.
fn four_read<R: Threads + Sync>(rt: &R, alloc: Global, board: &Board) -> bool {
    match thread::map_indices(rt, alloc, 4, &|_| never_falls(board, TIMES)) {
        Ok(told) => told.as_slice() == [true; 4].as_slice(),
        Err(_) => false,
    }
}

// No reading of a thread is below an earlier one of its pass, whatever is written meanwhile.
#[test]
fn four_readers_never_fall(rt: HostRuntime) {
    let (board, writer) = Board::new(rt.alloc(), 1).expect(&rt, "refused");
    let shared = &board;
    let host = &rt;
    let ((), never_fell) = join(
        host,
        move ||
            requires { writer.board ≡ shared.now }
        { raises(shared, writer, TIMES) },
        move || four_read(host, host.alloc(), shared),
    );
    assert!(rt; never_fell);
}

// What a board tells whose newest generation is 3 and whose one slot serves 2.
#[test]
fn readings_tell_the_words(rt: HostRuntime) {
    let (board, mut writer) = Board::new(rt.alloc(), 1).expect(&rt, "refused");
    let mut pass = board.pass();
    board.raise(&mut writer, 0, 3);
    board.raise(&mut writer, 1, 2);
    let told = [
        all_readings(&board, 0, 2, &mut pass),
        all_readings(&board, 7, 3, &mut pass),
    ];
    let wanted = [
        Readings {
            newest: 3,
            served: Some(2),
            is_ready: true,
        },
        Readings {
            newest: 3,
            served: None,
            is_ready: false,
        },
    ];
    assert_eq!(rt; told, wanted);
}

// A pass that met another one reads nothing below what that one read.
#[test]
fn passes_meet(rt: HostRuntime) {
    let (board, mut writer) = Board::new(rt.alloc(), 1).expect(&rt, "refused");
    let mut one = board.pass();
    let mut other = board.pass();
    for generation in 1..1000 {
        let _words = board.word_count();
        board.raise(&mut writer, 0, generation);
        let seen = board.backend_generation_as(&mut one);
        board.meet(&rt, &mut one, &mut other);
        assert!(rt; board.backend_generation_as(&mut other) >= seen);
    }
}
