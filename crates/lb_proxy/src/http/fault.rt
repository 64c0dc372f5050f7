//! Why a message isn't passed on, and the status that its sender or the client gets.

/// Why a message isn't passed on.
#[derive(Clone, Copy, PartialEq, Eq)]
pub enum Fault {
    /// The request is malformed, or can be understood in two ways.
    BadRequest,
    /// The request didn't come in time.
    RequestTimeout,
    /// The head of the request is too long, or has too many fields.
    HeadTooLarge,
    /// The request has a transfer coding other than chunked, or asks for a tunnel.
    NotImplemented,
    /// The answer of the backend is malformed, or can be understood in two ways.
    BadGateway,
    /// No backend takes the request, or memory is short.
    Unavailable,
    /// The backend didn't answer in time.
    GatewayTimeout,
    /// The request is of another version than HTTP/1.0 and HTTP/1.1.
    VersionNotSupported,
}

impl Fault {
    /// Returns the status that says so.
    pub fn status(self) -> u16 {
        match self {
            Fault::BadRequest => 400,
            Fault::RequestTimeout => 408,
            Fault::HeadTooLarge => 431,
            Fault::NotImplemented => 501,
            Fault::BadGateway => 502,
            Fault::Unavailable => 503,
            Fault::GatewayTimeout => 504,
            Fault::VersionNotSupported => 505,
        }
    }
}
