//! The rows of checks over sockets of the own loopback: servers that each serve one connection, and passes over one backend.
use lb_health_core::error::CheckError;

/// Which check is run.
#[derive(Clone, Copy)]
pub(crate) enum By {
    Http,
    /// Over HTTP, with a validator that is no type of the library's: it accepts 301.
    HttpMoved,
    Tcp,
}

/// Where the check finds its server.
#[derive(Clone, Copy)]
pub(crate) enum Place {
    Port,
    /// The port is the check's own, and the backend names another.
    CheckPort,
    /// The listener at the port takes no connection, and holds as many as it can.
    FullPort,
    /// Nobody listens at the port.
    ClosedPort,
    /// A Unix socket in the folder that the program is run in.
    Path(&'static str),
    /// The same, and the check has a port of its own.
    PathAndPort(&'static str),
    /// Nobody made the socket.
    NoPath(&'static str),
}

/// What a server does with its connection once it has the request.
#[derive(Clone, Copy)]
pub(crate) enum Serves {
    /// Writes the bytes and closes.
    Answer(&'static [u8]),
    /// Writes the bytes one at a time and closes.
    Drops(&'static [u8]),
    /// Writes the bytes and then one each 100 ms, until the other side closes.
    Trickle(&'static [u8]),
    /// Waits until the other side closes.
    Silence,
    /// Takes no connection, which the system holds for it.
    Nothing,
}

/// A check of a server: the request has a field of so many bytes more, the whole check may take so long, in nanoseconds, and this comes
/// of it, within ten seconds.
pub(crate) struct Server {
    pub(crate) name: &'static str,
    pub(crate) by: By,
    pub(crate) place: Place,
    pub(crate) serves: Serves,
    pub(crate) field_bytes: usize,
    pub(crate) total_timeout: Option<u128>,
    pub(crate) outcome: Result<(), CheckError>,
}

/// A good answer, others of other statuses, and one that is cut.
const ANSWER: &[u8] = b"HTTP/1.1 200 OK\r\nContent-Length: 2\r\n\r\nok";

const MOVED: &[u8] = b"HTTP/1.1 301 Moved Permanently\r\nContent-Length: 0\r\n\r\n";

const UNAVAILABLE: &[u8] = b"HTTP/1.1 503 Service Unavailable\r\nContent-Length: 0\r\n\r\n";

const CUT: &[u8] = b"HTTP/1.1 200 OK\r\nContent-Length: 2\r\n\r\no";

const STATUS_LINE: &[u8] = b"HTTP/1.1 200 OK\r\n";

// More bytes of a request than sockets hold for a server that reads none.
const MANY_BYTES: usize = 16777216;

/// The checks of servers.
pub(crate) const SERVERS: &[Server] = &[
    Server {
        name: "a served answer",
        by: By::Http,
        place: Place::Port,
        serves: Serves::Answer(ANSWER),
        field_bytes: 0,
        total_timeout: None,
        outcome: Ok(()),
    },
    Server {
        name: "a served answer, byte by byte",
        by: By::Http,
        place: Place::Port,
        serves: Serves::Drops(ANSWER),
        field_bytes: 0,
        total_timeout: None,
        outcome: Ok(()),
    },
    Server {
        name: "a moved answer",
        by: By::Http,
        place: Place::Port,
        serves: Serves::Answer(MOVED),
        field_bytes: 0,
        total_timeout: None,
        outcome: Err(CheckError::Status(301)),
    },
    Server {
        name: "a moved answer, accepted by the caller's validator",
        by: By::HttpMoved,
        place: Place::Port,
        serves: Serves::Answer(MOVED),
        field_bytes: 0,
        total_timeout: None,
        outcome: Ok(()),
    },
    Server {
        name: "a good answer, not accepted by the caller's validator",
        by: By::HttpMoved,
        place: Place::Port,
        serves: Serves::Answer(ANSWER),
        field_bytes: 0,
        total_timeout: None,
        outcome: Err(CheckError::Rejected),
    },
    Server {
        name: "a server that closes in the body",
        by: By::Http,
        place: Place::Port,
        serves: Serves::Answer(CUT),
        field_bytes: 0,
        total_timeout: None,
        outcome: Err(CheckError::EndInMessage),
    },
    Server {
        name: "a server at another port",
        by: By::Http,
        place: Place::CheckPort,
        serves: Serves::Answer(ANSWER),
        field_bytes: 0,
        total_timeout: None,
        outcome: Ok(()),
    },
    Server {
        name: "a Unix socket that is not there",
        by: By::Http,
        place: Place::NoPath("absent.sock"),
        serves: Serves::Nothing,
        field_bytes: 0,
        total_timeout: None,
        outcome: Err(CheckError::Connect),
    },
    Server {
        name: "a server behind a Unix socket",
        by: By::Http,
        place: Place::Path("http.sock"),
        serves: Serves::Answer(ANSWER),
        field_bytes: 0,
        total_timeout: None,
        outcome: Ok(()),
    },
    Server {
        name: "a server behind a Unix socket, without a request",
        by: By::Tcp,
        place: Place::Path("tcp.sock"),
        serves: Serves::Nothing,
        field_bytes: 0,
        total_timeout: None,
        outcome: Ok(()),
    },
    Server {
        name: "a server behind a Unix socket, and a port of the check",
        by: By::Http,
        place: Place::PathAndPort("port.sock"),
        serves: Serves::Answer(ANSWER),
        field_bytes: 0,
        total_timeout: None,
        outcome: Ok(()),
    },
    Server {
        name: "a server that goes on for ever, byte by byte",
        by: By::Http,
        place: Place::Port,
        serves: Serves::Trickle(STATUS_LINE),
        field_bytes: 0,
        total_timeout: Some(1_000_000_000),
        outcome: Err(CheckError::Read),
    },
    Server {
        name: "a server that says nothing",
        by: By::Http,
        place: Place::Port,
        serves: Serves::Silence,
        field_bytes: 0,
        total_timeout: None,
        outcome: Err(CheckError::Read),
    },
    Server {
        name: "a server that reads nothing",
        by: By::Http,
        place: Place::Port,
        serves: Serves::Nothing,
        field_bytes: MANY_BYTES,
        total_timeout: None,
        outcome: Err(CheckError::Write),
    },
    Server {
        name: "a port that takes no more connections",
        by: By::Http,
        place: Place::FullPort,
        serves: Serves::Nothing,
        field_bytes: 0,
        total_timeout: Some(1_000_000_000),
        outcome: Err(CheckError::Connect),
    },
    Server {
        name: "a port that takes no more connections, without a request",
        by: By::Tcp,
        place: Place::FullPort,
        serves: Serves::Nothing,
        field_bytes: 0,
        total_timeout: None,
        outcome: Err(CheckError::Connect),
    },
    Server {
        name: "a closed port",
        by: By::Http,
        place: Place::ClosedPort,
        serves: Serves::Nothing,
        field_bytes: 0,
        total_timeout: None,
        outcome: Err(CheckError::Connect),
    },
    Server {
        name: "a closed port, without a request",
        by: By::Tcp,
        place: Place::ClosedPort,
        serves: Serves::Nothing,
        field_bytes: 0,
        total_timeout: None,
        outcome: Err(CheckError::Connect),
    },
];

/// Two passes of a check over a backend: whether it begins healthy, what a server answers at each pass where one listens, whether the
/// backend is ready after each, and how many flips the observer gets.
pub(crate) struct Pass {
    pub(crate) name: &'static str,
    pub(crate) by: By,
    pub(crate) listens: bool,
    pub(crate) starts_healthy: bool,
    pub(crate) answers: [&'static [u8]; 2],
    pub(crate) is_ready: [bool; 2],
    pub(crate) flips: u64,
}

/// The passes.
pub(crate) const PASSES: &[Pass] = &[
    Pass {
        name: "a closed port, by TCP",
        by: By::Tcp,
        listens: false,
        starts_healthy: true,
        answers: [ANSWER, ANSWER],
        is_ready: [false, false],
        flips: 1,
    },
    Pass {
        name: "an open port, by TCP",
        by: By::Tcp,
        listens: true,
        starts_healthy: true,
        answers: [ANSWER, ANSWER],
        is_ready: [true, true],
        flips: 0,
    },
    Pass {
        name: "a closed port, by HTTP",
        by: By::Http,
        listens: false,
        starts_healthy: true,
        answers: [ANSWER, ANSWER],
        is_ready: [false, false],
        flips: 1,
    },
    Pass {
        name: "a good answer, by HTTP",
        by: By::Http,
        listens: true,
        starts_healthy: true,
        answers: [ANSWER, ANSWER],
        is_ready: [true, true],
        flips: 0,
    },
    Pass {
        name: "a good answer, by HTTP, of a backend that begins unhealthy",
        by: By::Http,
        listens: true,
        starts_healthy: false,
        answers: [ANSWER, ANSWER],
        is_ready: [true, true],
        flips: 1,
    },
    Pass {
        name: "a bad answer and then a good one, by HTTP",
        by: By::Http,
        listens: true,
        starts_healthy: true,
        answers: [UNAVAILABLE, ANSWER],
        is_ready: [false, true],
        flips: 2,
    },
    Pass {
        name: "a good answer and then a bad one, by HTTP, of a backend that begins unhealthy",
        by: By::Http,
        listens: true,
        starts_healthy: false,
        answers: [ANSWER, UNAVAILABLE],
        is_ready: [true, false],
        flips: 2,
    },
];
