//! HTTP/1.1 as a proxy passes it on: heads read strictly, where a body ends, heads as they are written to the other side, and the proxy's
//! own short answers. What could be understood in two ways is refused. Nothing here opens a socket or starts a thread.
//!
//! `request::read_request` and `response::read_response` read a head at the front of what came, and answer `None` while it isn't whole.
//! They begin at the front each time, so they are to be called where a line feed came, or where `request::HEAD_LIMIT` bytes are there: a
//! head that isn't whole then is refused. `length` of a head says where its body begins. `body::Body` finds the end of the body in what
//! comes in pieces; its bytes are passed on as they came, chunks and trailers too. What is behind it is the next message.
//!
//! - A request that is refused gets `answer::short_answer`, its connection is closed, and nothing of it reaches a backend. Where its body
//!   turns out to be none, both connections are closed.
//! - An answer that is refused: the client gets a short answer where it has no byte of this one, and the backend's connection is closed.
//!   Where an answer's body turns out to be none, both are closed, so that the client sees the cut.
//! - An interim answer (`ResponseHead::is_interim`) is passed on to a client of HTTP/1.1 and left out for one of HTTP/1.0; the next head
//!   follows behind it.
//! - `RequestHead::asked` is what has to be kept of a request until its answer is passed on.
//! - A client's connection goes on where `ResponseHead::keeps_client` says so; that is given to `write::write_response`. A backend's
//!   connection may be used again where `ResponseHead::keeps` says so, both bodies are done and nothing came behind the answer.
//! - A request of HTTP/1.0 goes on as HTTP/1.0, so that no chunks come back.
//! - Where the backend's stream ends within a body, `Body::may_end` says whether the answer is whole.
//! - After an `Err` of what writes into a `Vec`, for memory, a part may be there: the connection is to be closed.

pub mod answer;
pub mod body;
pub mod fault;
pub mod field;
pub mod framing;
pub mod request;
pub mod response;
mod version;
pub mod write;
