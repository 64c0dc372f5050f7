//! What a check of a backend is and why one fails; cells of health, which verdicts of checks change; and the registry that gives cells to
//! the targets of its views. Contracts describe a registry by the history of its calls, newest first: each thing that can be seen of it is
//! a short recursion over that list. Checks over TCP and HTTP are in `lb_health_http`, the passes that run them in `lb_health_view`.
#![tactic(auto)]

mod change;
pub mod error;
mod fresh;
pub mod health;
pub mod health_check;
pub mod keys;
pub mod laws;
mod numbering;
pub mod registry;
mod row;
mod stored;
mod table;
pub mod targets;
