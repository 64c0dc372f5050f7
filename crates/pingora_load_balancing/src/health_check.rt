//! Checks of backends, under the upstream crate's names: their trait, their faults, and the checks over TCP and HTTP.
//! An HTTP check is one exchange over any reader and writer (`check_over`); observers and summaries are type parameters.
//! A registry keeps one cell of health for each key: by identity (`HealthRegistry::new`), by address, or by numbers of the
//! caller's (`with_equivalence`).
pub use http::response::Parts;
pub use http::{Method, Request, StatusCode};
pub use lb_health::{
    AcceptStatus, BackendSummary, BasicPeer, BoxedCheck, ByNumber, CheckError, HealthCheck,
    HealthObserve, HealthObserveCallback, HttpHealthCheck, HttpPeer, IdentitySummary, KeyRule,
    MAX_BODY_BYTES, NoObserver, Number, Rule, TcpHealthCheck, Validate, check_over,
    identity_summary, request_for,
};
pub use lb_threads_core::keyed::{
    Equivalence, KeyedRegistry, NoRule, Numbered, keyed_by_address, keyed_by_identity,
};
