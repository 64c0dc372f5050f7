//! Checks of backends over the network: one exchange of a request and an answer, as a whole and framed message or not at all.
//! The engine reads and writes any streams; the checks over sockets pass it theirs.
#![tactic(auto)]

mod body;
mod chunk;
mod chunk_line;
mod deadline;
mod engine;
mod framing;
mod head;
mod http_check;
pub mod laws;
mod line;
mod observer;
mod parts;
mod peer;
mod request;
mod tcp_check;
mod trailers;
mod validate;

pub use engine::check_over;
pub use http_check::{HttpHealthCheck, MAX_BODY_BYTES};
pub use observer::NoObserver;
pub use peer::{BasicPeer, HttpPeer};
pub use request::request_for;
pub use tcp_check::TcpHealthCheck;
pub use validate::{AcceptStatus, Validate};
