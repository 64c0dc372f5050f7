//! Laws of views, as functions whose contracts state them. They do nothing at run time; no program needs to call one.
ghost use Rattle.std.specs.Prelude.{◌≡◌, ◌<◌, ◌↔◌, ◌∷◌, ℕ, Bool, List, true, IsTrue};
ghost use Rattle.lb_select_base.specs.Backends.{Member};
ghost use Rattle.lb_health_core.specs.Registry.{IsRegistryAfter};
ghost use Rattle.lb_health_core.specs.RegistryEvents.{Event, holds_cell};
ghost use Rattle.lb_health_view.specs.RegistrySide.{IsReady, view_updated, registry_updated};
ghost use Rattle.lb_health_view.specs.Snapshots.{SnapshotValue, IsAmong};
ghost use Rattle.lb_health_view.specs.ViewEvents.{ViewEvent, Set, generation_after, snapshots_after};
ghost use Rattle.lb_health_view.specs.Views.{IsViewAfter};

use crate::view::ViewCore;
use lb_health_core::keys::KeyRule;
use lb_health_core::registry::Registry;
use lb_select_base::backend::Backend;

/// A snapshot that is held lives on through an update of its view, with its members and its cells, and the registry goes on keeping these
/// cells for it.
pub fn updates_keep_held_snapshots()
    ensures view { (key_of : Member → Member) (views : List ViewEvent) (events : List Event) (id : ℕ) (members : List Member)
        (settings : List (Member × Bool)) (s : SnapshotValue) → IsAmong s (snapshots_after views) → 0 < s.holds
        → IsAmong s (snapshots_after (view_updated key_of id members settings events views)) }
    ensures registry { (key_of : Member → Member) (views : List ViewEvent) (events : List Event) (id : ℕ) (members : List Member)
        (s : SnapshotValue) → IsAmong s (snapshots_after views) → 0 < s.holds
        → (c : ℕ) → holds_cell key_of id s.generation c events ≡ true
        → holds_cell key_of id s.generation c (registry_updated key_of id members views events) ≡ true }
{}

/// A flag set in one view changes readiness in no other: after it, readiness in another view is by the same history of that view and of
/// the registry as before.
pub fn flags_are_of_one_view<R: KeyRule + Drop>(
    view: &mut ViewCore,
    other: &ViewCore,
    registry: &Registry<R>,
    backend: &Backend,
    enabled: bool,
    asked: &Backend,
) -> bool
    ensures view { (views : List ViewEvent) → IsViewAfter views view.old → IsViewAfter (Set backend.now enabled ∷ views) view.new }
    ensures other { (key_of : Member → Member) (others : List ViewEvent) (events : List Event) → IsViewAfter others other.now
        → IsRegistryAfter R.gives key_of events registry.now
        → (IsTrue result ↔ IsReady key_of others events (generation_after others) asked.now) }
{
    view.set_enable(backend, enabled);
    other.ready(registry, asked)
}
