//! The text of counts, as Prometheus reads it: lines of its text format.
ghost use Rattle.std.specs.Prelude.{◌≡◌, ◌++◌, ℕ, List, OnOk, flat_map};
ghost use Rattle.lb_proxy.specs.Metrics.{escaped, head_text, label_text, labels_text, more_labels, value_text, kind_text, unescaped};

use itoa::Buffer;
use std::alloc::AllocError;

/// Whether a metric only grows.
#[derive(Clone, Copy)]
pub enum MetricKind {
    Counter,
    Gauge,
}

/// A label: it makes a value of a metric differ from its other values.
#[derive(Clone, Copy)]
pub struct Label<'a> {
    pub name: &'a str,
    pub value: &'a str,
}

/// Appends the line that comes before the values of a metric.
pub fn push_head(text: &mut Vec<u8>, name: &str, kind: MetricKind) -> Result<(), AllocError>
    ensures { OnOk result (text.new.items ≡ text.old.items ++ head_text name.now kind) }
{
    text.extend_from_slice(b"# TYPE ")?;
    text.extend_from_slice(name.as_bytes())?;
    text.extend_from_slice(kind_text(kind))
}

/// Appends the line of a value.
///
/// A label may say anything: what would end it is escaped.
pub fn push_value(
    text: &mut Vec<u8>,
    name: &str,
    labels: &[Label<'_>],
    value: u64,
) -> Result<(), AllocError>
    ensures { OnOk result (text.new.items ≡ text.old.items ++ value_text name.now labels.now value) }
{
    text.extend_from_slice(name.as_bytes())?;
    text.extend_from_slice(b"{")?;
    push_labels(text, labels)?;
    text.extend_from_slice(b"} ")?;
    let mut buffer = Buffer::new();
    text.extend_from_slice(buffer.format(value).as_bytes())?;
    text.extend_from_slice(b"\n")
}

// How the line of a kind ends.
fn kind_text(kind: MetricKind) -> &'static [u8]
    ensures { result.now ≡ kind_text kind }
{
    match kind {
        MetricKind::Counter => b" counter\n",
        MetricKind::Gauge => b" gauge\n",
    }
}

// The labels, with commas between them.
fn push_labels(text: &mut Vec<u8>, labels: &[Label<'_>]) -> Result<(), AllocError>
    ensures { OnOk result (text.new.items ≡ text.old.items ++ labels_text labels.now) }
{
    match labels.split_first() {
        Some((first, others)) => {
            push_label(text, first)?;
            push_more(text, others)
        }
        None => Ok(()),
    }
}

// Further labels, each with a comma before it.
fn push_more(text: &mut Vec<u8>, labels: &[Label<'_>]) -> Result<(), AllocError>
    ensures { OnOk result (text.new.items ≡ text.old.items ++ more_labels labels.now) }
{
    for label in labels {
        text.extend_from_slice(b",")?;
        push_label(text, label)?;
    }
    Ok(())
}

// One label.
fn push_label(text: &mut Vec<u8>, label: &Label<'_>) -> Result<(), AllocError>
    ensures { OnOk result (text.new.items ≡ text.old.items ++ label_text label.now) }
{
    text.extend_from_slice(label.name.as_bytes())?;
    text.extend_from_slice(b"=\"")?;
    push_escaped(text, label.value.as_bytes())?;
    text.extend_from_slice(b"\"")
}

// What a label says, with a backslash before each quote and backslash, and `\n` for a line feed.
fn push_escaped(text: &mut Vec<u8>, value: &[u8]) -> Result<(), AllocError>
    ensures { OnOk result (text.new.items ≡ text.old.items ++ flat_map escaped value.now) }
{
    for byte in value {
        match *byte {
            b'"' => text.extend_from_slice(b"\\\"")?,
            b'\\' => text.extend_from_slice(b"\\\\")?,
            b'\n' => text.extend_from_slice(b"\\n")?,
            other => text.push(other)?,
        }
    }
    Ok(())
}

/// What a reader of the format makes of an escaped text is what the label says.
pub fn label_law()
    ensures { (value : List ℕ) → unescaped (flat_map escaped value) ≡ value }
{}
