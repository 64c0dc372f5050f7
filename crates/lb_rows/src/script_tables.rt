//! The rows of scripts: those in data/ by the names of their files, and those that are made.
use crate::made::{Fill, Made};

/// The scripts in data/, `NAME.script` with `NAME.answers`.
pub(crate) const SCRIPTS: &[&str] = &[
    "a-reader-stays",
    "abandoned-build",
    "address-before-group",
    "back-by-its-setting",
    "bad-line",
    "cancelled-group",
    "cancelled-view",
    "cancelled-while-read",
    "carriage-return",
    "cells-by-address",
    "coalesced-and-superseded",
    "count-too-large",
    "counts-while-a-reader-stays",
    "empty",
    "empty-line",
    "empty-path",
    "entered-many-times",
    "first-path",
    "first-run",
    "flags-of-one-view",
    "fnv-hash",
    "fresh-cells",
    "greatest-weight",
    "large-weights",
    "least-connections",
    "loads-by-weight",
    "lost-build-fails",
    "lost-worker",
    "marks",
    "marks-elsewhere",
    "members-of-a-generation",
    "moment-too-large",
    "nine-delays",
    "no-line-feed",
    "no-weight",
    "not-utf8",
    "nothing-there",
    "nothing-there-at-all",
    "numbers",
    "old-cells",
    "old-stays-ready",
    "orders-of-loads",
    "reader-of-the-old",
    "readers",
    "readers-before-and-after",
    "readers-of-two-groups",
    "ready-ones",
    "refused-address",
    "ring",
    "ring-addresses",
    "ring-wraps",
    "same-identity",
    "second-fallback",
    "served-generation-judges",
    "settings-reach-the-newest",
    "slots-at-two-generations",
    "text-keys",
    "three-groups-two-gates",
    "tickets-of-selections",
    "tickets-restart",
    "too-many-points",
    "turns",
    "two-registries",
    "two-spaces",
    "two-weights-of-an-address",
    "unhealthy-start",
    "unhealthy-twice",
    "unix-paths",
    "verdict-of-another-word",
    "verdicts-of-two-registries",
    "wait-after-a-failure",
    "weight-too-large",
    "weights",
    "weights-while-a-build-is-held",
];

/// A script in data/ that is run a step at a time, and its answers to `counts` and `timing` after a build was given again.
pub(crate) struct Retried {
    pub(crate) name: &'static str,
    pub(crate) late: &'static [&'static [u8]],
}

/// The scripts that are run a step at a time.
pub(crate) const RETRIED: &[Retried] = &[
    Retried {
        name: "cancelled-while-read",
        late: &[
            b"counts newest 1 served 1 flight - waiting 0 published 1 coalesced 0 superseded 0 failed 1",
        ],
    },
    Retried {
        name: "cells-by-address",
        late: &[],
    },
    Retried {
        name: "coalesced-and-superseded",
        late: &[
            b"counts newest 3 served 3 flight - waiting 0 published 1 coalesced 1 superseded 1 failed 2",
            b"timing 3 10000002 1",
        ],
    },
    Retried {
        name: "counts-while-a-reader-stays",
        late: &[
            b"counts newest 3 served 0 flight - waiting 1 published 0 coalesced 2 superseded 0 failed 0",
        ],
    },
    Retried {
        name: "fresh-cells",
        late: &[],
    },
    Retried {
        name: "least-connections",
        late: &[],
    },
    Retried {
        name: "lost-build-fails",
        late: &[],
    },
    Retried {
        name: "reader-of-the-old",
        late: &[b"timing 1 10000005 1"],
    },
    Retried {
        name: "ring",
        late: &[],
    },
];

/// Which stream of a script fails.
#[derive(Clone, Copy)]
pub(crate) enum Fails {
    Nothing,
    /// The reader, after the script.
    Read,
    /// The writer, when it is flushed.
    Flush,
}

/// A script that is made, and its answers; where a flush fails, they may be cut.
pub(crate) struct MadeScript {
    pub(crate) name: &'static str,
    pub(crate) script: Made,
    pub(crate) fails: Fails,
    pub(crate) answers: &'static [u8],
}

// What comes before the backends of a group that is updated, and what comes after them.
const BEFORE_IN_TURN: &[u8] = b"registry identity\ngate\ngroup 0 0 rr 1\nupdate 0 0";

const BEFORE_RING: &[u8] = b"registry identity\ngate\ngroup 0 0 ketama 1\nupdate 0 0";

const BEFORE_LOADED: &[u8] = b"registry identity\ngate\ngroup 0 0 least 1\nupdate 0 0";

// A build, and an update to a few backends after it.
const BUILT_THEN_FEW: &[u8] = b"\nask 0 0 0\nbuild 0 0 0\nupdate 0 1 10.0.0.0:80/1\n\
    ask 0 0 1\nbuild 0 0 1\npublish 0 0\nselect 0 0 a 1\ntargets 0\n";

const SELECTED: &[u8] = b"\nask 0 0 0\nbuild 0 0 0\npublish 0 0\nselect 0 0 a 1\n";

const TOO_MANY_THEN_FEW: &[u8] =
    b"registry 0\ngate 0\ngroup 0\ngeneration 1\nbuild 1\nfailed 1 3 TooManyBackends\ngeneration 2\n\
    build 2\nbuilt 2\npublished 2\nbackend 10.0.0.0:80/1\ntargets 1 10.0.0.0:80/1=0:ok\n";

const FIRST_OF_MANY: &[u8] =
    b"registry 0\ngate 0\ngroup 0\ngeneration 1\nbuild 1\nbuilt 1\npublished 1\nbackend 10.0.0.0:80/1\n";

const NONE_OF_MANY: &[u8] =
    b"registry 0\ngate 0\ngroup 0\ngeneration 1\nbuild 1\nbuilt 1\npublished 1\nnone\n";

// What comes before a long key.
const KEY_HASHED: &[u8] = b"registry identity\ngate\ngroup 0 0 fnv 1\nupdate 0 0 1.0.0.1:80/1\n\
    ask 0 0 0\nbuild 0 0 0\npublish 0 0\nselect 0 0 ";

const KEY_IN_TURN: &[u8] = b"registry identity\ngate\ngroup 0 0 rr 1\nupdate 0 0 1.0.0.1:80/1\n\
    ask 0 0 0\nbuild 0 0 0\npublish 0 0\nselect 0 0 ";

const KEY_ON_RING: &[u8] = b"registry identity\ngate\ngroup 0 0 ketama 1\nupdate 0 0 1.0.0.1:80/1\n\
    ask 0 0 0\nbuild 0 0 0\npublish 0 0\nselect 0 0 ";

const KEY_LOADED: &[u8] = b"registry identity\ngate\ngroup 0 0 least 1\nupdate 0 0 1.0.0.1:80/1\n\
    ask 0 0 0\nbuild 0 0 0\npublish 0 0\nselect 0 0 ";

const KEY_SELECTED: &[u8] =
    b"registry 0\ngate 0\ngroup 0\ngeneration 1\nbuild 1\nbuilt 1\npublished 1\nbackend 1.0.0.1:80/1\n";

/// The scripts that are made.
pub(crate) const MADE_SCRIPTS: &[MadeScript] = &[
    MadeScript {
        name: "a line of 16777216 bytes",
        script: Made {
            before: b"",
            fill: Fill::Byte(b'a', 16777216),
            after: b"",
        },
        fails: Fails::Nothing,
        answers: b"error 1 BadLine\n",
    },
    MadeScript {
        name: "a line of 16777217 bytes",
        script: Made {
            before: b"",
            fill: Fill::Byte(b'a', 16777217),
            after: b"",
        },
        fails: Fails::Nothing,
        answers: b"error 1 LineTooLong\n",
    },
    MadeScript {
        name: "65536 backends, then one",
        script: Made {
            before: BEFORE_IN_TURN,
            fill: Fill::Backends(65536, 1),
            after: BUILT_THEN_FEW,
        },
        fails: Fails::Nothing,
        answers: TOO_MANY_THEN_FEW,
    },
    MadeScript {
        name: "65535 backends",
        script: Made {
            before: BEFORE_IN_TURN,
            fill: Fill::Backends(65535, 1),
            after: SELECTED,
        },
        fails: Fails::Nothing,
        answers: FIRST_OF_MANY,
    },
    MadeScript {
        name: "65536 backends by loads",
        script: Made {
            before: BEFORE_LOADED,
            fill: Fill::Backends(65536, 1),
            after: SELECTED,
        },
        fails: Fails::Nothing,
        answers: FIRST_OF_MANY,
    },
    MadeScript {
        name: "65536 backends without points",
        script: Made {
            before: BEFORE_RING,
            fill: Fill::Backends(65536, 0),
            after: SELECTED,
        },
        fails: Fails::Nothing,
        answers: NONE_OF_MANY,
    },
    MadeScript {
        name: "a key of 1000000 bytes",
        script: Made {
            before: KEY_HASHED,
            fill: Fill::Byte(b'a', 1000000),
            after: b" 1\n",
        },
        fails: Fails::Nothing,
        answers: KEY_SELECTED,
    },
    MadeScript {
        name: "a key of 1000000 bytes in turn",
        script: Made {
            before: KEY_IN_TURN,
            fill: Fill::Byte(b'a', 1000000),
            after: b" 1\n",
        },
        fails: Fails::Nothing,
        answers: KEY_SELECTED,
    },
    MadeScript {
        name: "a key of 1000000 bytes on a ring",
        script: Made {
            before: KEY_ON_RING,
            fill: Fill::Byte(b'a', 1000000),
            after: b" 1\n",
        },
        fails: Fails::Nothing,
        answers: KEY_SELECTED,
    },
    MadeScript {
        name: "a key of 1000000 bytes by loads",
        script: Made {
            before: KEY_LOADED,
            fill: Fill::Byte(b'a', 1000000),
            after: b" 1\n",
        },
        fails: Fails::Nothing,
        answers: KEY_SELECTED,
    },
    MadeScript {
        name: "a read that fails",
        script: Made {
            before: b"registry identity\ngate\ngro",
            fill: Fill::None,
            after: b"",
        },
        fails: Fails::Read,
        answers: b"registry 0\ngate 0\nerror 3 Read\n",
    },
    MadeScript {
        name: "a flush that fails",
        script: Made {
            before: b"gate\n",
            fill: Fill::None,
            after: b"",
        },
        fails: Fails::Flush,
        answers: b"gate 0\n",
    },
];
