//! What the listings of an update list: the membership, whether it is another one, and the flags that their marks set.
//! What compares takes no memory, and compares each backend with each.
ghost use Rattle.std.specs.Prelude.{◌≡◌, ◌&&◌, not, IfOk, IfErr};
ghost use Rattle.std.specs.List.{list_all, list_any};
ghost use Rattle.std.specs.BTreeMap.{insert_entry};
ghost use Rattle.lb_select_base.specs.Backends.{member_cmp, same_member};
ghost use Rattle.lb_health_core.specs.Keys.{by_identity};
ghost use Rattle.lb_select_base.specs.Memberships.{same_members};
ghost use Rattle.lb_world.specs.Internal.Calls.{none_or, some_and, set_marked, with_key};
ghost use Rattle.lb_health_view.specs.RegistrySide.{settings_of};
ghost use Rattle.lb_world.specs.History.{marked, members_in, settings_in};

use crate::step::Listing;
use lb_health_view::view::Settings;
use lb_select_base::backend::Backend;
use lb_select_base::laws::address_order_law;
use lb_select_base::refusal::Refusal;
use std::alloc::Global;
use std::collections::{BTreeMap, BTreeSet};

// Whether these backends are another membership than that one.
pub(crate) fn differs(listings: &[Listing], members: &BTreeSet<Backend>) -> bool
    ensures { result ≡ not (same_members (members_in listings.now) members.now.keys) }
{
    !lists_members(listings, members)
}

fn lists_members(listings: &[Listing], members: &BTreeSet<Backend>) -> bool
    ensures { result ≡ (list_all (λ l. none_or (λ x. list_any (same_member x) members.now.keys) l.backend) listings.now
        && list_all (λ y. list_any (λ l. some_and (same_member y) l.backend) listings.now) members.now.keys) }
{
    holds_all(members, listings) && lists_all(listings, members)
}

fn holds_all(members: &BTreeSet<Backend>, listings: &[Listing]) -> bool
    ensures { result ≡ list_all (λ l. none_or (λ x. list_any (same_member x) members.now.keys) l.backend) listings.now }
{
    listings.iter().all(|listing| holds(members, listing))
}

fn holds(members: &BTreeSet<Backend>, listing: &Listing) -> bool
    ensures { result ≡ none_or (λ x. list_any (same_member x) members.now.keys) listing.now.backend }
{
    match &listing.backend {
        Some(backend) => members.contains(backend),
        None => true,
    }
}

fn lists_all(listings: &[Listing], members: &BTreeSet<Backend>) -> bool
    ensures { result ≡ list_all (λ y. list_any (λ l. some_and (same_member y) l.backend) listings.now) members.now.keys }
{
    members.iter().all(|member| lists(listings, member))
}

fn lists(listings: &[Listing], backend: &Backend) -> bool
    ensures { result ≡ list_any (λ l. some_and (same_member backend.now) l.backend) listings.now }
{
    listings.iter().any(|listing| is_backend(listing, backend))
}

fn is_backend(listing: &Listing, backend: &Backend) -> bool
    ensures { result ≡ some_and (same_member backend.now) listing.now.backend }
{
    match &listing.backend {
        Some(other) => backend == other,
        None => false,
    }
}

// The set of the backends that are there; of several of one identity the first stays.
pub(crate) fn members_from(
    alloc: Global,
    listings: Vec<Listing>,
) -> Result<BTreeSet<Backend>, Refusal>
    ensures set { IfOk result (λ set. set.keys ≡ members_in listings.items) }
    ensures err { IfErr result (λ e. e ≡ Refusal.OutOfMemory) }
{
    let mut members = BTreeSet::new(alloc);
    for listing in listings {
        gather(&mut members, listing.backend)?;
    }
    Ok(members)
}

// Adds a backend that is there, where none of its identity is.
fn gather(members: &mut BTreeSet<Backend>, backend: Option<Backend>) -> Result<(), Refusal>
    ensures set { IfOk result (λ _. members.new.keys ≡ with_key backend members.old.keys) }
    ensures err { IfErr result (λ e. e ≡ Refusal.OutOfMemory) }
{
    if let Some(backend) = backend {
        members.insert(backend)?;
    }
    Ok(())
}

// The flags that the marks set; of several marks of one identity the last counts.
pub(crate) fn settings_from(alloc: Global, listings: &[Listing]) -> Result<Settings, Refusal>
    ensures settings { IfOk result (λ settings. settings_of settings.entries ≡ settings_in listings.now) }
    ensures err { IfErr result (λ e. e ≡ Refusal.OutOfMemory) }
{
    let mut settings = BTreeMap::new(alloc);
    for listing in listings {
        set_mark(&mut settings, listing)?;
    }
    Ok(settings)
}

// Sets the flag of a marked backend, over what was set before it.
fn set_mark(settings: &mut Settings, listing: &Listing) -> Result<(), Refusal>
    ensures set { IfOk result (λ _. settings_of settings.new.entries
        ≡ set_marked (marked listing.now.backend listing.now.mark) (settings_of settings.old.entries)) }
    ensures err { IfErr result (λ e. e ≡ Refusal.OutOfMemory) }
{
    let Some(backend) = &listing.backend else {
        return Ok(());
    };
    let Some(on) = listing.mark else {
        return Ok(());
    };
    set_flag(settings, backend, on)
}

// Sets the flag of an identity.
fn set_flag(settings: &mut Settings, backend: &Backend, on: bool) -> Result<(), Refusal>
    ensures set { IfOk result (λ _. settings_of settings.new.entries
        ≡ insert_entry member_cmp (settings_of settings.old.entries) (by_identity backend.now) on) }
    ensures err { IfErr result (λ e. e ≡ Refusal.OutOfMemory) }
{
    address_order_law();
    let addr = backend.addr.clone()?;
    settings.insert((addr, backend.weight), on)?;
    Ok(())
}
