//! A proxy of TCP and HTTP/1.1. It decides what a configuration says, what a pool's file spells, which attempt comes next, how bytes are
//! relayed, by which key a connection is selected, and how counts are written. `http` reads and writes heads, and finds where bodies end;
//! `event_loop` has the loops. No other module opens a socket, and none starts a thread.
#![tactic(auto)]

pub mod attempts;
pub mod config;
pub mod config_fault;
pub mod event_loop;
pub mod http;
pub mod key;
pub mod metrics;
pub mod mode;
pub mod pool_file;
pub mod position;
pub mod relay;
pub mod section;
