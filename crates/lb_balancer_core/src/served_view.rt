//! A view with the selector that is built of its newest membership. Balancers stand on it: plain ones, and those that threads share. Their
//! calls build first and drop last; here nothing is built, and no selector is dropped, so that each call may be made under a lock.
ghost use Rattle.std.specs.Prelude.{◌≡◌, ◌⊎◌, List, IfOk, IfSome, OnErr, Err, true, unwrap_or};
ghost use Rattle.std.specs.Arc.{arc_value};
ghost use Rattle.lb_select_base.specs.Memberships.{same_members};
ghost use Rattle.lb_select_base.specs.Refusals.{Refuses};
ghost use Rattle.lb_health_core.specs.Registry.{KeepsHistory};
ghost use Rattle.lb_health_view.specs.Causes.{IsRegistryRefusal};
ghost use Rattle.lb_health_view.specs.Views.{IsFounded, IsViewAfter, HoldsOfBoth};
ghost use Rattle.lb_health_view.specs.RegistrySide.{HasCellIn, settings_of, view_updated};
ghost use Rattle.lb_health_view.specs.ViewEvents.{ViewEvent, generation_after, membership_after};
ghost use Rattle.lb_balancer_core.specs.Balancer.{IsJudged};
ghost use Rattle.lb_balancer_core.specs.ServedViews.{IsLeastCause, IsRenewed, SetsFlag, Takes, TakesIn};

use lb_health_core::keys::KeyRule;
use lb_health_core::registry::Registry;
use lb_health_view::view::{Settings, ViewCore};
use lb_select_base::backend::Backend;
use lb_select_base::refusal::Refusal;
use lb_select_base::walk::BackendSelection;
use std::alloc::Global;
use std::collections::BTreeSet;
use std::marker::Model;
use std::mem;
use std::sync::Arc;

/// A view, and the selector of its newest membership: the two change as one, or not at all. Contracts see the view by the history of its
/// events; each view has some history.
pub struct ServedView<S: BackendSelection> {
    view: ViewCore,
    selector: Arc<S>,
}

impl<S: BackendSelection> Drop for ServedView<S> {
    fn drop(self) {
        let ServedView {
            view: _,
            selector: _,
        } = self;
    }
}

impl<S: BackendSelection> Model for ServedView<S> {
    ghost use Rattle.std.specs.Prelude.{◌≡◌, List};
    ghost use Rattle.std.specs.Arc.{arc_value};
    ghost use Rattle.lb_health_view.specs.ViewEvents.{ViewEvent, membership_after};
    ghost use Rattle.lb_health_view.specs.Views.{IsViewAfter};
    ghost use Rattle.lb_balancer_core.specs.ServedViews.{ServedViewValue};

    ghost Value = { ServedViewValue S.Config };

    ghost view = { λ s. record {
      view = s.view;
      members = S.members (arc_value s.selector);
      config = S.built_with (arc_value s.selector);
    } };

    ghost invariant = { λ s. (views : List ViewEvent) × IsViewAfter views s.view
        × (S.members (arc_value s.selector) ≡ membership_after views) };
}

impl<S: BackendSelection> ServedView<S> {
    /// Returns this view with this selector of its newest membership.
    pub fn new(view: ViewCore, selector: Arc<S>) -> ServedView<S>
        requires { (views : List ViewEvent) × IsViewAfter views view × (S.members (arc_value selector) ≡ membership_after views) }
        ensures { result ≡ record {
          view = view;
          members = S.members (arc_value selector);
          config = S.built_with (arc_value selector);
        } }
    {
        ServedView { view, selector }
    }

    /// States that some history explains the view, so that what holds after each of its histories holds after one.
    ///
    /// Only for the prover: it does nothing at run time.
    pub fn founded(&self)
        ensures { IsFounded self.now.view }
    {
        // For the prover alone: this shows it the view's invariant, and does nothing at run time.
        let _view = &self.view;
    }

    /// Returns the number of the view in its registry.
    pub fn view_id(&self) -> u64
        ensures { result ≡ self.now.view.id }
    {
        self.view.id()
    }

    /// Returns the newest generation; 0 before the first membership.
    pub fn generation(&self) -> u64
        ensures { (views : List ViewEvent) → IsViewAfter views self.now.view → result ≡ generation_after views }
    {
        self.view.generation()
    }

    /// Returns a borrow of the newest membership.
    pub fn members(&self) -> &BTreeSet<Backend>
        ensures { (views : List ViewEvent) → IsViewAfter views self.now.view → result.now.keys ≡ membership_after views }
    {
        self.view.members()
    }

    /// Returns the newest membership.
    ///
    /// Refused `OutOfMemory` where std refuses one more owner.
    pub fn get_backend(&self) -> Result<Arc<BTreeSet<Backend>>, Refusal>
        ensures members { IfOk result (λ set. (views : List ViewEvent) → IsViewAfter views self.now.view
            → (arc_value set).keys ≡ membership_after views) }
        ensures newest { IfOk result (λ set. (arc_value set).keys ≡ self.now.members) }
        ensures refused { OnErr result (result ≡ Err Refusal.OutOfMemory) }
    {
        self.view.get_backend()
    }

    /// Returns a borrow of the selector, which is that of the newest membership.
    pub fn selector(&self) -> &Arc<S>
        ensures members { S.members (arc_value result.now) ≡ self.now.members }
        ensures config { S.built_with (arc_value result.now) ≡ self.now.config }
    {
        &self.selector
    }

    /// Returns whether the newest membership is this one, by identity, without taking memory.
    pub fn is_membership(&self, members: &BTreeSet<Backend>) -> bool
        ensures { result ≡ same_members members.now.keys self.now.members }
    {
        self.view.is_membership(members)
    }

    /// Takes settings of a discovery that gave the same membership.
    pub fn keep<R: KeyRule + Drop>(
        &mut self,
        alloc: Global,
        registry: &mut Registry<R>,
        members: BTreeSet<Backend>,
        settings: Settings,
    )
        requires { same_members members.keys self.old.members ≡ true }
        ensures updated { HoldsOfBoth R.gives self.old.view registry.old (λ key_of views events. IsViewAfter
            (view_updated key_of self.old.view.id members.keys (settings_of settings.entries) events views) self.new.view) }
        ensures registry { KeepsHistory R.gives registry.old registry.new }
        ensures took { Takes members.keys (settings_of settings.entries) self.old self.new }
        ensures taken { TakesIn members.keys (settings_of settings.entries) self.old self.new }
        ensures members { self.new.members ≡ self.old.members }
        ensures config { self.new.config ≡ self.old.config }
        ensures id { self.new.view.id ≡ self.old.view.id }
        ensures one_registry { registry.new.id ≡ registry.old.id }
    {
        let _ = self
            .view
            .update(alloc, registry, members, settings, |_members| ());
    }

    /// Shows another membership, and serves the selector that is built of it. Returns what isn't served then, and whether this selector is.
    ///
    /// The same membership changes nothing but flags. What is returned is what was served before, or what was built in vain.
    ///
    /// # Errors
    ///
    /// Those of `ViewCore::update`: view, selector and registry are then as before.
    pub fn renew<R: KeyRule + Drop>(
        &mut self,
        alloc: Global,
        registry: &mut Registry<R>,
        members: BTreeSet<Backend>,
        settings: Settings,
        selector: Arc<S>,
    ) -> (Arc<S>, Result<bool, Refusal>)
        requires members { S.members (arc_value selector) ≡ members.keys }
        requires config { S.built_with (arc_value selector) ≡ self.old.config }
        ensures { IsRenewed R.gives members.keys (settings_of settings.entries) self.old registry.old result.1 self.new registry.new }
    {
        match self
            .view
            .update(alloc, registry, members, settings, |_members| ())
        {
            Ok(Some(())) => (mem::replace(&mut self.selector, selector), Ok(true)),
            Ok(None) => (selector, Ok(false)),
            Err(refusal) => (selector, Err(refusal)),
        }
    }

    /// Returns the least cause for which view and registry refuse another membership, or `OutOfMemory` where none applies.
    ///
    /// It takes no memory.
    pub fn cause<R: KeyRule + Drop>(
        &self,
        registry: &Registry<R>,
        members: &BTreeSet<Backend>,
    ) -> Refusal
        ensures kind { (result ≡ Refusal.GenerationsExhausted) ⊎ IsRegistryRefusal result }
        ensures least { IsLeastCause R.gives self.now.view registry.now members.now.keys result }
    {
        self.view.cause(registry, members)
    }

    /// Returns whether a backend is ready in the newest membership, without taking memory.
    pub fn ready<R: KeyRule + Drop>(&self, registry: &Registry<R>, backend: &Backend) -> bool
        ensures { IsJudged R.gives self.now.view registry.now backend.now result }
    {
        self.view.ready(registry, backend)
    }

    /// Returns the number of the cell that a backend has in the newest membership, and whether the backend is enabled.
    ///
    /// `None` where the newest membership doesn't list it. It takes no memory.
    pub fn cell_and_flag(&self, backend: &Backend) -> Option<(u64, bool)>
        ensures { (views : List ViewEvent) → IsViewAfter views self.now.view
            → IfSome result (λ r. HasCellIn views (generation_after views) backend.now r.0 r.1) }
    {
        self.view.cell_and_flag(self.view.generation(), backend)
    }

    /// Enables or disables a backend that the newest membership lists, by identity; another is left alone.
    ///
    /// It takes no memory.
    pub fn set_enable(&mut self, backend: &Backend, enabled: bool)
        ensures view { SetsFlag backend.now enabled self.old self.new }
        ensures members { self.new.members ≡ self.old.members }
        ensures config { self.new.config ≡ self.old.config }
        ensures id { self.new.view.id ≡ self.old.view.id }
    {
        self.view.set_enable(backend, enabled);
    }
}

/// Returns the selector of a set, built by this configuration, or by the default one.
///
/// Refused for the cause for which there is no selector, and for memory only where there is none.
pub fn selector_of<S: BackendSelection>(
    alloc: Global,
    members: &BTreeSet<Backend>,
    config: &Option<S::Config>,
) -> Result<Arc<S>, Refusal>
    ensures { Refuses (S.refusal members.now.keys (unwrap_or config.now S.default_config))
        (λ s. (S.members (arc_value s) ≡ members.now.keys)
        × (S.built_with (arc_value s) ≡ unwrap_or config.now S.default_config)) result }
{
    let selector = match config {
        Some(config) => S::build_with_config(alloc, members, config)?,
        None => S::build(alloc, members)?,
    };
    let selector = Arc::new(alloc, selector)?;
    Ok(selector)
}
