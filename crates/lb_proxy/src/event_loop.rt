//! Event loops that relay connections between clients and backends, or the requests on them, over sockets that don't block. What selects a
//! backend, and what counts connections, is the caller's: a type with `Upstream`. What never changes is in `Settings`.

pub mod connection;
pub mod engine;
pub mod exchange;
pub mod heads;
pub mod inbox;
pub mod lane;
pub mod links;
pub mod listeners;
pub mod peer;
pub mod pump;
pub mod reach;
pub mod relays;
pub mod scene;
pub mod session;
pub mod settings;
pub mod spares;
pub mod stream;
pub mod tokens;
pub mod upstream;
pub mod web;
