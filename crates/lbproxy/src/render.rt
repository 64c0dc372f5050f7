//! The texts of the status page.

use crate::shown::{Shown, ShownBackend, ShownPool};
use lb_proxy::metrics::{Label, MetricKind, push_head, push_value};
use std::alloc::{AllocError, Global};

// The page up to its tables: it is loaded again each second.
const PAGE: &str =
    "<!doctype html><meta charset=utf-8><meta http-equiv=refresh content=1><title>lbproxy</title>\
<style>body{font-family:monospace}td,th{padding:0 1em;text-align:right}td:first-child{text-align:left}</style>\n";

/// Returns a copy of the text.
pub fn text(alloc: Global, text: &str) -> Result<Vec<u8>, AllocError> {
    let mut body = Vec::new(alloc);
    body.extend_from_slice(text.as_bytes())?;
    Ok(body)
}

/// Returns the page for a person.
pub fn page_text(alloc: Global, shown: &Shown) -> Result<Vec<u8>, AllocError> {
    let mut body = text(alloc, PAGE)?;
    let Shown {
        live,
        total,
        requests,
        unserved,
        pools,
    } = shown;
    let line = format!(in alloc;
        "<p>{live} connections now, {total} so far, {requests} requests, {unserved} without a backend\n"
    )?;
    body.extend_from_slice(line.as_bytes())?;
    for pool in pools.iter() {
        push_pool(alloc, &mut body, pool)?;
    }
    Ok(body)
}

// The table of a pool.
fn push_pool(alloc: Global, body: &mut Vec<u8>, pool: &ShownPool) -> Result<(), AllocError> {
    body.extend_from_slice(b"<h2>")?;
    push_plain(body, pool.name.as_str())?;
    let generation = pool.generation;
    let line = format!(in alloc; "</h2>\n<p>generation {generation}; slots serve")?;
    body.extend_from_slice(line.as_bytes())?;
    for slot in pool.slots.iter() {
        let served = slot.generation;
        let failed = slot.failed;
        let line = format!(in alloc; " {served} ({failed} failed)")?;
        body.extend_from_slice(line.as_bytes())?;
    }
    if !pool.fault.is_empty() {
        body.extend_from_slice(b"; <b>file: ")?;
        push_plain(body, pool.fault.as_str())?;
        body.extend_from_slice(b"</b>")?;
    }
    push_rows(alloc, body, pool)
}

// The rows of a pool's table.
fn push_rows(alloc: Global, body: &mut Vec<u8>, pool: &ShownPool) -> Result<(), AllocError> {
    body.extend_from_slice(
        b"\n<table><tr><th>backend/weight<th>state<th>now<th>so far<th>requests<th>refused<th>bytes to it<th>bytes from it\n",
    )?;
    for backend in pool.backends.iter() {
        body.extend_from_slice(b"<tr><td>")?;
        push_plain(body, backend.address.as_str())?;
        push_cells(alloc, body, backend)?;
    }
    body.extend_from_slice(b"</table>\n")
}

// The cells of a backend, after its name.
fn push_cells(alloc: Global, body: &mut Vec<u8>, backend: &ShownBackend) -> Result<(), AllocError> {
    let state = state_of(backend);
    let live = backend.live;
    let total = backend.total;
    let requests = backend.requests;
    let refused = backend.refused;
    let sent = backend.sent;
    let received = backend.received;
    let line = format!(in alloc;
        "<td>{state}<td>{live}<td>{total}<td>{requests}<td>{refused}<td>{sent}<td>{received}\n"
    )?;
    body.extend_from_slice(line.as_bytes())
}

// The word for a backend's state.
fn state_of(backend: &ShownBackend) -> &'static str {
    if backend.ready { "ready" } else { "down" }
}

// Text without what HTML reads as its own.
fn push_plain(body: &mut Vec<u8>, text: &str) -> Result<(), AllocError> {
    for byte in text.as_bytes() {
        match *byte {
            b'<' => body.extend_from_slice(b"&lt;")?,
            b'&' => body.extend_from_slice(b"&amp;")?,
            other => body.push(other)?,
        }
    }
    Ok(())
}

/// Returns the same as JSON.
pub fn json_text(alloc: Global, shown: &Shown) -> Result<Vec<u8>, AllocError> {
    match serde_json::to_string(alloc, shown) {
        Ok(json) => text(alloc, json.as_str()),
        Err(_) => Err(AllocError),
    }
}

// What the metrics of backends say of one.
#[derive(Clone, Copy)]
enum Measure {
    Ready,
    Live,
    Total,
    Requests,
    Refused,
    Sent,
    Received,
}

// The metrics of backends, in order.
const OF_BACKENDS: &[(&str, MetricKind, Measure)] = &[
    ("lbproxy_backend_ready", MetricKind::Gauge, Measure::Ready),
    (
        "lbproxy_backend_connections",
        MetricKind::Gauge,
        Measure::Live,
    ),
    (
        "lbproxy_backend_connections_total",
        MetricKind::Counter,
        Measure::Total,
    ),
    (
        "lbproxy_backend_requests_total",
        MetricKind::Counter,
        Measure::Requests,
    ),
    (
        "lbproxy_backend_refused_total",
        MetricKind::Counter,
        Measure::Refused,
    ),
    (
        "lbproxy_backend_sent_bytes_total",
        MetricKind::Counter,
        Measure::Sent,
    ),
    (
        "lbproxy_backend_received_bytes_total",
        MetricKind::Counter,
        Measure::Received,
    ),
];

/// Returns the counts as Prometheus reads them.
pub fn metrics_text(alloc: Global, shown: &Shown) -> Result<Vec<u8>, AllocError> {
    let mut body = Vec::new(alloc);
    let of_proxy = [
        ("lbproxy_connections", MetricKind::Gauge, shown.live),
        (
            "lbproxy_connections_total",
            MetricKind::Counter,
            shown.total,
        ),
        (
            "lbproxy_requests_total",
            MetricKind::Counter,
            shown.requests,
        ),
        (
            "lbproxy_unserved_total",
            MetricKind::Counter,
            shown.unserved,
        ),
    ];
    for (name, kind, value) in &of_proxy {
        push_one(&mut body, name, *kind, *value)?;
    }
    for (name, kind, measure) in OF_BACKENDS {
        push_each(&mut body, shown, name, *kind, *measure)?;
    }
    Ok(body)
}

// A metric with one value.
fn push_one(
    body: &mut Vec<u8>,
    name: &str,
    kind: MetricKind,
    value: u64,
) -> Result<(), AllocError> {
    push_head(body, name, kind)?;
    push_value(body, name, &[], value)
}

// A metric with a value for each backend.
fn push_each(
    body: &mut Vec<u8>,
    shown: &Shown,
    name: &str,
    kind: MetricKind,
    measure: Measure,
) -> Result<(), AllocError> {
    push_head(body, name, kind)?;
    for pool in shown.pools.iter() {
        for backend in pool.backends.iter() {
            let labels = [
                Label {
                    name: "pool",
                    value: pool.name.as_str(),
                },
                Label {
                    name: "backend",
                    value: backend.address.as_str(),
                },
            ];
            push_value(body, name, &labels, measured(backend, measure))?;
        }
    }
    Ok(())
}

// What a metric says of the backend.
fn measured(backend: &ShownBackend, measure: Measure) -> u64 {
    match measure {
        Measure::Ready => u64::from(backend.ready),
        Measure::Live => backend.live,
        Measure::Total => backend.total,
        Measure::Requests => backend.requests,
        Measure::Refused => backend.refused,
        Measure::Sent => backend.sent,
        Measure::Received => backend.received,
    }
}
