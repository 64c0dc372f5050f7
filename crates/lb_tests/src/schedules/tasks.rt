//! The worked rows of schedules.
use lb_background::background::BackgroundSchedule;

// When a schedule without a next moment is next: 4294967295 seconds later.
const NEVER: u128 = 4294967295000000000;

const SECOND: u128 = 1000000000;

// What a schedule tells at a moment: whether an update and a check are due, and whether it is idle; the least next moment and that of
// the check; and whether the check is done once.
type Said = ((bool, bool, bool), (u128, Option<u128>, bool));

// A schedule that is made at 0 with an update and a check, whether both are finished at 0, when it is asked, and what it tells.
struct Row {
    update: Option<Option<u128>>,
    check: Option<Option<u128>>,
    is_finished: bool,
    now: u128,
    told: Said,
}

const ROWS: &[Row] = &[
    // without tasks it is idle
    Row {
        update: None,
        check: None,
        is_finished: true,
        now: 0,
        told: ((false, false, true), (NEVER, None, false)),
    },
    // an update that is done once
    Row {
        update: Some(None),
        check: None,
        is_finished: false,
        now: 0,
        told: ((true, false, false), (0, None, false)),
    },
    Row {
        update: Some(None),
        check: None,
        is_finished: true,
        now: 0,
        told: ((false, false, true), (NEVER, None, false)),
    },
    // a check that is done once
    Row {
        update: None,
        check: Some(None),
        is_finished: false,
        now: 0,
        told: ((false, true, false), (0, Some(0), true)),
    },
    Row {
        update: None,
        check: Some(None),
        is_finished: true,
        now: 0,
        told: ((false, false, true), (NEVER, None, true)),
    },
    // a check that is repeated is due again
    Row {
        update: None,
        check: Some(Some(5 * SECOND)),
        is_finished: true,
        now: 0,
        told: ((false, false, false), (5 * SECOND, Some(5 * SECOND), false)),
    },
    Row {
        update: None,
        check: Some(Some(5 * SECOND)),
        is_finished: true,
        now: 5 * SECOND,
        told: ((false, true, false), (5 * SECOND, Some(5 * SECOND), false)),
    },
    // the least next moment counts
    Row {
        update: Some(Some(10 * SECOND)),
        check: Some(Some(5 * SECOND)),
        is_finished: true,
        now: 0,
        told: ((false, false, false), (5 * SECOND, Some(5 * SECOND), false)),
    },
    Row {
        update: Some(Some(10 * SECOND)),
        check: Some(Some(5 * SECOND)),
        is_finished: true,
        now: 5 * SECOND,
        told: ((false, true, false), (5 * SECOND, Some(5 * SECOND), false)),
    },
    Row {
        update: Some(Some(10 * SECOND)),
        check: Some(Some(5 * SECOND)),
        is_finished: true,
        now: 10 * SECOND,
        told: ((true, true, false), (5 * SECOND, Some(5 * SECOND), false)),
    },
];

fn told(row: &Row) -> Said {
    let mut schedule = BackgroundSchedule::new(row.update, row.check, 0);
    if row.is_finished {
        schedule.update_finished_at(0);
        schedule.health_check_finished_at(0);
    }
    tells(&schedule, row.now)
}

fn tells(schedule: &BackgroundSchedule, now: u128) -> Said {
    let due = (
        schedule.update_is_due(now),
        schedule.health_check_is_due(now),
        schedule.is_idle(),
    );
    (
        due,
        (
            schedule.next(now),
            schedule.next_health_check(),
            schedule.health_check_is_once(),
        ),
    )
}

#[test]
fn schedules_tell(rt: HostRuntime) {
    for row in ROWS {
        assert!(rt; told(row) == row.told);
    }
}
