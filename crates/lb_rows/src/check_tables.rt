//! The rows of answers to a check: those in data/ by the names of their files, those that are cut, and those that are made.
use crate::made::{Fill, Made};
use lb_health_core::error::CheckError;

/// What a check asks for.
#[derive(Clone, Copy)]
pub(crate) enum Asks {
    Get,
    Head,
}

/// What a check asks for and accepts: a status, or 200, with a body of so many bytes at most.
#[derive(Clone, Copy)]
pub(crate) struct Asked {
    pub(crate) asks: Asks,
    pub(crate) accept: Option<u16>,
    pub(crate) max_body_bytes: u64,
}

/// What a default check does.
pub(crate) const DEFAULT: Asked = Asked {
    asks: Asks::Get,
    accept: None,
    max_body_bytes: 1048576,
};

/// Answers in data/ to one check, `NAME.stream` with `NAME.answer`.
pub(crate) struct Check {
    pub(crate) asked: Asked,
    pub(crate) names: &'static [&'static str],
}

/// The answers in data/.
pub(crate) const CHECKS: &[Check] = &[
    Check {
        asked: DEFAULT,
        names: &[
            "body-by-length",
            "body-by-length-cut",
            "body-to-the-end",
            "chunk-above-limit",
            "chunk-cut",
            "chunk-line-ends-in-bare-feed",
            "chunk-line-of-4096",
            "chunk-line-of-4097",
            "chunk-runs-on",
            "chunk-size-of-17-digits",
            "chunked",
            "chunked-and-length",
            "chunked-before-1.1",
            "chunked-spelled-otherwise",
            "chunked-twice",
            "empty-lines-before-the-head",
            "fields-64",
            "fields-65",
            "interim",
            "length-above-limit",
            "length-in-spaces",
            "length-of-20-digits",
            "length-with-a-sign",
            "no-content",
            "no-head",
            "not-found",
            "nothing",
            "status-below-100",
            "trailer-with-a-bare-return",
            "trailers-cut",
            "trailers-of-65536",
            "trailers-of-65537",
            "two-lengths",
        ],
    },
    Check {
        asked: Asked {
            asks: Asks::Get,
            accept: None,
            max_body_bytes: 5,
        },
        names: &[
            "body-at-limit",
            "body-past-limit",
            "chunks-at-limit",
            "chunks-past-limit",
            "to-the-end-at-limit",
            "to-the-end-past-limit",
        ],
    },
    Check {
        asked: Asked {
            asks: Asks::Head,
            accept: None,
            max_body_bytes: 1048576,
        },
        names: &["head-alone"],
    },
    Check {
        asked: Asked {
            asks: Asks::Get,
            accept: Some(204),
            max_body_bytes: 1048576,
        },
        names: &["no-content-accepted", "refused-by-validator"],
    },
    Check {
        asked: Asked {
            asks: Asks::Get,
            accept: Some(304),
            max_body_bytes: 1048576,
        },
        names: &["not-modified-accepted"],
    },
];

/// Where a check is cut.
#[derive(Clone, Copy)]
pub(crate) enum Where {
    End,
    Read,
    Write,
}

/// How a default check fails where its message in data/, or the request, is cut after each number of bytes. A line feed that is
/// no part of the message comes last in the file.
pub(crate) struct Cut {
    pub(crate) name: &'static str,
    pub(crate) message: &'static str,
    pub(crate) at: Where,
    pub(crate) fault: CheckError,
}

/// The checks that are cut.
pub(crate) const CUTS: &[Cut] = &[
    Cut {
        name: "every beginning of body-by-length",
        message: "body-by-length",
        at: Where::End,
        fault: CheckError::EndInMessage,
    },
    Cut {
        name: "every failing read of body-by-length",
        message: "body-by-length",
        at: Where::Read,
        fault: CheckError::Read,
    },
    Cut {
        name: "every failing write of body-by-length",
        message: "body-by-length",
        at: Where::Write,
        fault: CheckError::Write,
    },
    Cut {
        name: "every beginning of chunked",
        message: "chunked",
        at: Where::End,
        fault: CheckError::EndInMessage,
    },
    Cut {
        name: "every failing read of chunked",
        message: "chunked",
        at: Where::Read,
        fault: CheckError::Read,
    },
    Cut {
        name: "every failing write of chunked",
        message: "chunked",
        at: Where::Write,
        fault: CheckError::Write,
    },
];

/// An answer that is made, and the line of its check.
pub(crate) struct MadeStream {
    pub(crate) name: &'static str,
    pub(crate) stream: Made,
    pub(crate) line: &'static [u8],
}

// A head without the rest of its last field, 39 bytes, and its end, 4 bytes.
const HEAD: &[u8] = b"HTTP/1.1 200 OK\r\nContent-Length: 0\r\na: ";

const END: &[u8] = b"\r\n\r\n";

/// The answers that are made.
pub(crate) const MADE_STREAMS: &[MadeStream] = &[
    MadeStream {
        name: "a head of 65536 bytes",
        stream: Made {
            before: HEAD,
            fill: Fill::Byte(b'x', 65493),
            after: END,
        },
        line: b"ok unread 0\n",
    },
    MadeStream {
        name: "a head of 65537 bytes",
        stream: Made {
            before: HEAD,
            fill: Fill::Byte(b'x', 65494),
            after: END,
        },
        line: b"HeadTooLarge unread 1\n",
    },
    MadeStream {
        name: "65537 empty lines",
        stream: Made {
            before: b"",
            fill: Fill::Byte(b'\n', 65537),
            after: b"",
        },
        line: b"HeadTooLarge unread 1\n",
    },
];
