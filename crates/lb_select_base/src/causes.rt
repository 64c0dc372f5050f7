//! The least cause for which a selector of one of several configurations cannot be built, memory apart.
//! A group asks for it before it takes memory for itself, so that a refusal for memory hides no other.
ghost use Rattle.std.specs.Prelude.{◌≡◌, Some, [], map, unwrap_or};
ghost use Rattle.std.specs.Option.{option_copied};
ghost use Rattle.lb_select_base.specs.Refusals.{least, earlier as earlier_of, memory_apart as apart};

use crate::backend::Backend;
use crate::refusal::Refusal;
use crate::walk::BackendSelection;
use std::alloc::Global;
use std::collections::BTreeSet;

/// Returns the least cause for which one of these configurations gives no selector over the empty set, or `None` where each gives one once
/// memory is there.
///
/// It builds each selector and drops it.
pub fn least_refusal<S: BackendSelection>(alloc: Global, configs: &[S::Config]) -> Option<Refusal>
    ensures { result ≡ least (map (S.refusal []) configs.now) }
{
    let empty = BTreeSet::new(alloc);
    let mut found = None;
    for config in configs {
        found = earlier(found, refusal_over::<S>(alloc, &empty, Some(config)));
    }
    found
}

/// Returns why there is no selector over this set with this configuration, or with the default one for `None`, memory apart.
///
/// It builds the selector and drops it.
pub fn refusal_over<S: BackendSelection>(
    alloc: Global,
    backends: &BTreeSet<Backend>,
    config: Option<&S::Config>,
) -> Option<Refusal>
    ensures { result ≡ apart (S.refusal backends.now.keys (unwrap_or (option_copied config.entry) S.default_config)) }
{
    let built = match config {
        Some(config) => S::build_with_config(alloc, backends, config),
        None => S::build(alloc, backends),
    };
    match built {
        Ok(_) => None,
        Err(refusal) => memory_apart(refusal),
    }
}

/// Returns this refusal as a cause, or `None` where it is for memory.
pub fn memory_apart(refusal: Refusal) -> Option<Refusal>
    ensures { result ≡ apart (Some refusal) }
{
    match refusal {
        Refusal::OutOfMemory => None,
        other => Some(other),
    }
}

/// Returns the one of the lesser number, or else the first.
pub fn earlier(first: Option<Refusal>, second: Option<Refusal>) -> Option<Refusal>
    ensures { result ≡ earlier_of first second }
{
    match (first, second) {
        (Some(first), Some(second)) if second.number() < first.number() => Some(second),
        (Some(first), _) => Some(first),
        (None, second) => second,
    }
}
