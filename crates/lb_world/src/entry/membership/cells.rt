//! Whether numbers are left for the cells that the listings of an update start. They are counted without memory, and only where
//! the numbers that are left may not be enough.
ghost use Rattle.std.specs.Prelude.{◌≡◌, ◌↔◌, ◌≤◌, ◌^◌, ◌∷◌, ℕ, List, true, IsTrue};
ghost use Rattle.lb_world.specs.History.{members_in};
ghost use Rattle.lb_world.specs.Internal.Cells.{lists_key, new_keys, starts_cell};
ghost use Rattle.lb_world.specs.Rules.{key_gives};
ghost use Rattle.lb_world.specs.Internal.Calls.{some_and};
ghost use Rattle.lb_health_core.specs.Registry.{IsRegistryAfter};
ghost use Rattle.lb_health_core.specs.RegistryEvents.{Event, Applied, Updated, cells_given, has_view, views_after};
ghost use Rattle.lb_health_core.specs.Targets.{live};
ghost use Rattle.lb_select_base.specs.Backends.{Member, same_member};

use crate::rule::WorldRegistry;
use crate::step::Listing;
use lb_select_base::backend::Backend;

// Whether fewer numbers are left than a view's update to these backends starts cells.
pub(crate) fn lacks_numbers(registry: &WorldRegistry, listings: &[Listing]) -> bool
    ensures { (key_of : Member → Member) (events : List Event) (id : ℕ) → IsRegistryAfter key_gives key_of events registry.now
        → has_view id (views_after events) ≡ true
        → (IsTrue result ↔ (2 ^ 64 ≤ cells_given key_of (Updated id (members_in listings.now) ∷ Applied ∷ events))) }
{
    let left = registry.numbers_left();
    listings.len() as u64 > left && starting_count(registry, listings) > left
}

// How many cells the backends start.
fn starting_count(registry: &WorldRegistry, listings: &[Listing]) -> u64
    ensures { (key_of : Member → Member) (events : List Event) → IsRegistryAfter key_gives key_of events registry.now
        → result ≡ new_keys key_of (live (views_after events)) listings.now }
{
    let mut count = 0;
    for place in 0..listings.len() {
        if starts(registry, &listings[place], &listings[place + 1..]) {
            count += 1;
        }
    }
    count
}

// Whether a backend is there that starts a cell, and none of its key comes later.
fn starts(registry: &WorldRegistry, listing: &Listing, later: &[Listing]) -> bool
    ensures { (key_of : Member → Member) (events : List Event) → IsRegistryAfter key_gives key_of events registry.now
        → result ≡ starts_cell key_of (live (views_after events)) listing.now later.now }
{
    match &listing.backend {
        Some(backend) => !registry.has_key(backend) && !shares_key(registry, later, backend),
        None => false,
    }
}

// Whether one of the listed backends has the key of this one.
fn shares_key(registry: &WorldRegistry, listings: &[Listing], backend: &Backend) -> bool
    ensures { (key_of : Member → Member) (events : List Event) → IsRegistryAfter key_gives key_of events registry.now
        → result ≡ lists_key key_of (key_of backend.now) listings.now }
{
    for listing in listings {
        if has_same_key(registry, listing, backend) {
            return true;
        }
    }
    false
}

// Whether the listed backend is there, and has the key of this one.
fn has_same_key(registry: &WorldRegistry, listing: &Listing, backend: &Backend) -> bool
    ensures { (key_of : Member → Member) (events : List Event) → IsRegistryAfter key_gives key_of events registry.now
        → result ≡ some_and (λ b. same_member (key_of backend.now) (key_of b)) listing.now.backend }
{
    match &listing.backend {
        Some(other) => registry.same_key(backend, other),
        None => false,
    }
}
