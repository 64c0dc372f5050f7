//! Passes that check the targets of a registry one by one. A verdict reaches the cell of its target; where that flips, the check's
//! observer is called, and then a line is logged.
ghost use Rattle.std.specs.Prelude.{◌≡◌, List, Result};
ghost use Rattle.lb_health_core.specs.declared.error.CheckError.{CheckError};
ghost use Rattle.lb_health_core.specs.Registry.{IsRegistryAfter, HoldsOf};
ghost use Rattle.lb_health_core.specs.RegistryEvents.{Event};
ghost use Rattle.lb_health_view.specs.Passes.{Reaches, Passes, IsPassed, AreKept, verdict_of};

use lb_health_core::error::CheckError;
use lb_health_core::health_check::HealthCheck;
use lb_health_core::keys::KeyRule;
use lb_health_core::registry::Registry;
use lb_health_core::targets::Target;
use lb_select_base::backend::Backend;
use lb_select_base::refusal::Refusal;
use log::{Log, info, warn};
use std::alloc::Global;

/// Applies the marks that wait, and then checks each target of the registry once, one after another.
///
/// Each verdict reaches the cell of its target.
///
/// # Errors
///
/// Those of `Registry::target_count`, before the first check.
pub fn run_health_check<R: KeyRule + Drop, C: HealthCheck, L: Log>(
    rt: &L,
    alloc: Global,
    registry: &mut Registry<R>,
    check: &C,
) -> Result<(), Refusal>
    ensures { IsPassed R.gives (C.answers check.now) (C.threshold check.now) registry.old result registry.new }
{
    let targets = registry.targets(alloc)?;
    check_all(rt, alloc, registry, check, targets.as_slice());
    Ok(())
}

// Checks each of the targets once. Their cells are kept all the while, so that each verdict reaches its cell.
fn check_all<R: KeyRule + Drop, C: HealthCheck, L: Log>(
    rt: &L,
    alloc: Global,
    registry: &mut Registry<R>,
    check: &C,
    targets: &[Target],
)
    ensures after { HoldsOf R.gives registry.old (λ key_of events. AreKept key_of targets.now events → (after : List Event)
        × Passes (C.answers check.now) (C.threshold check.now) targets.now events after
        × IsRegistryAfter R.gives key_of after registry.new) }
    ensures one { registry.new.id ≡ registry.old.id }
{
    for target in targets {
        check_one(rt, alloc, registry, check, target);
    }
}

// Checks a target, gives the verdict to its cell, and reports a flip.
fn check_one<R: KeyRule + Drop, C: HealthCheck, L: Log>(
    rt: &L,
    alloc: Global,
    registry: &mut Registry<R>,
    check: &C,
    target: &Target,
)
    ensures after { HoldsOf R.gives registry.old (λ key_of events. (answer : Result Unit CheckError)
        × C.answers check.now target.now.backend answer × (after : List Event)
        × Reaches key_of target.now.cell (verdict_of (C.threshold check.now) answer) events after
        × IsRegistryAfter R.gives key_of after registry.new) }
    ensures one { registry.new.id ≡ registry.old.id }
{
    let answer = ask_check(alloc, check, target);
    let flipped = registry.observe(target.cell, answer.healthy, answer.threshold);
    report_flip(rt, alloc, check, target, answer, flipped);
}

/// What a check answered about a target, as the cell of the target takes it.
#[derive(Drop)]
pub struct CheckAnswer {
    /// The answer itself.
    pub result: Result<(), CheckError>,
    /// Whether the answer is that the target is healthy.
    pub healthy: bool,
    /// How many such answers in a row flip the health of the target.
    pub threshold: usize,
}

/// Returns what the check answers about a target, with the check's threshold for it.
pub fn ask_check<C: HealthCheck>(alloc: Global, check: &C, target: &Target) -> CheckAnswer
    ensures answer { C.answers check.now target.now.backend result.result }
    ensures verdict { record { ok = result.healthy; threshold = result.threshold } ≡ verdict_of (C.threshold check.now) result.result }
{
    let result = check.check(alloc, &target.backend);
    let healthy = result.is_ok();
    let threshold = check.health_threshold(healthy);
    CheckAnswer {
        result,
        healthy,
        threshold,
    }
}

/// Reports to the check, and in a line of the log, where the cell's answer is that the health of the target flipped.
///
/// A cell that is kept no longer answers an `Err`, and is not reported.
pub fn report_flip<C: HealthCheck, L: Log>(
    rt: &L,
    alloc: Global,
    check: &C,
    target: &Target,
    answer: CheckAnswer,
    flipped: Result<bool, Refusal>,
) {
    if let Ok(true) = flipped {
        tell(rt, alloc, check, &target.backend, answer.result);
    }
}

// Reports to the check that the health of a backend flipped, and then logs it.
//
// The line is `.. becomes healthy`, or `.. becomes unhealthy` with the name of the fault. Where the summary is refused for memory, there
// is no line.
fn tell<C: HealthCheck, L: Log>(
    rt: &L,
    alloc: Global,
    check: &C,
    backend: &Backend,
    verdict: Result<(), CheckError>,
) {
    check.health_status_change(backend, verdict.is_ok());
    let Ok(summary) = check.backend_summary(alloc, backend) else {
        return;
    };
    match verdict {
        Ok(()) => info!(rt; "{summary} becomes healthy"),
        Err(fault) => {
            let name = fault.name();
            warn!(rt; "{summary} becomes unhealthy, {name}");
        }
    }
}
