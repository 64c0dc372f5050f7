//! When a slot may build again after failed builds.
//! The delay is ten milliseconds after the first failure of a generation, doubled at each further one, and one second at most.
ghost use Rattle.std.specs.Prelude.{◌≡◌, ◌<◌};
ghost use Rattle.lb_rebuild_core.specs.SlotsHistory.{retry_delay as delay_of, due_after};

const MILLISECOND: u128 = 1_000_000;

// The moment from which the next build is due, or 0 where none failed.
pub(crate) fn due(failures: u64, failed_at: u128) -> u128
    ensures { result ≡ due_after failures failed_at }
{
    if failures == 0 {
        return 0;
    }
    failed_at.saturating_add(retry_delay(failures))
}

// Nanoseconds.
fn retry_delay(failures: u64) -> u128
    requires { 0 < failures }
    ensures { result ≡ delay_of failures }
{
    let milliseconds = match failures {
        1 => 10,
        2 => 20,
        3 => 40,
        4 => 80,
        5 => 160,
        6 => 320,
        7 => 640,
        _ => 1000,
    };
    milliseconds * MILLISECOND
}
