//! What a registry and its view cost at a size: `health BACKENDS ROUNDS`. A round updates a view by that many backends, observes each cell,
//! asks of each backend whether it is ready, and lists the targets. `bench/health` takes the times.
use crate::words::{number_at, print_line};
use anyhow::Error;
use lb_crowd::members::members;
use lb_health_core::registry::RegistryCore;
use lb_health_view::view::{Settings, ViewCore};
use lb_select_base::refusal::Refusal;
use std::alloc::Global;

// What a round found.
#[derive(Clone, Copy)]
struct Found {
    flipped: usize,
    ready: usize,
    targets: usize,
}

// Updates a view by so many backends.
fn update(
    alloc: Global,
    registry: &mut RegistryCore,
    view: &mut ViewCore,
    count: u32,
) -> Result<(), Refusal> {
    let set = members(alloc, 10, count)?;
    view.update(
        alloc,
        registry,
        set,
        Settings::new(alloc),
        |lent| lent.len(),
    )?;
    Ok(())
}

// Finds every second one unhealthy, and asks of each whether it is ready.
fn observe(
    alloc: Global,
    registry: &mut RegistryCore,
    view: &ViewCore,
    count: u32,
) -> Result<Found, Refusal> {
    let mut flipped: usize = 0;
    for cell in 0..u64::from(count) {
        if registry.observe(cell, cell % 2 == 0, 1)? {
            flipped = flipped.wrapping_add(1);
        }
    }
    let listed = view.get_backend()?;
    let ready = listed
        .iter()
        .filter(|backend| view.ready(registry, *backend))
        .count();
    Ok(Found {
        flipped,
        ready,
        targets: registry.targets(alloc)?.len(),
    })
}

// A round on a registry of its own.
fn round(alloc: Global, count: u32) -> Result<Found, Refusal> {
    let mut registry = RegistryCore::new(alloc);
    let id = registry.register_view(alloc)?;
    let mut view = ViewCore::new(alloc, id)?;
    update(alloc, &mut registry, &mut view, count)?;
    observe(alloc, &mut registry, &view, count)
}

/// Measures, and prints what each round found.
pub fn run<R: Print>(rt: &R, alloc: Global, numbers: &[String]) -> Result<(), Error> {
    let count = number_at(numbers, 0, 1000)?;
    for _ in 0..number_at(numbers, 1, 1)? {
        let found = round(alloc, count)?;
        print_line(rt, "targets", found.targets as u128)?;
        print_line(rt, "flipped", found.flipped as u128)?;
        print_line(rt, "ready", found.ready as u128)?;
    }
    Ok(())
}
