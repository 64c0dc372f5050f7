//! What a balancer serves, as a plain value: a view with the selector of its newest membership, and the selector's words. Each call is
//! made under a lock; nothing is built and nothing is dropped here.
ghost use Rattle.std.specs.Prelude.{◌≡◌, List, ◌∷◌, IfOk, IfErr, OnErr, if◌then◌else◌, unwrap_or};
ghost use Rattle.std.specs.Arc.{arc_value};
ghost use Rattle.lb_select_base.specs.Refusals.{Refuses};
ghost use Rattle.lb_health_core.specs.Registry.{IsRegistryAfter};
ghost use Rattle.lb_health_core.specs.RegistryEvents.{Marked, Released};
ghost use Rattle.lb_health_view.specs.Views.{IsViewAfter, HoldsOfBoth};
ghost use Rattle.lb_health_view.specs.RegistrySide.{settings_of};
ghost use Rattle.lb_health_view.specs.ViewEvents.{ViewEvent, generation_after, membership_after};
ghost use Rattle.lb_balancer_core.specs.Balancer.{IsJudged};
ghost use Rattle.lb_balancer_core.specs.ServedViews.{IsRenewed};
ghost use Rattle.lb_balancer.specs.Shown.{AreUnready, ShowsView};

use crate::shown::{Shown, Version};
use lb_balancer_core::served_view::{ServedView, selector_of};
use lb_health_core::keys::KeyRule;
use lb_health_core::registry::Registry;
use lb_health_view::view::{Settings, ViewCore};
use lb_select_base::backend::Backend;
use lb_select_base::refusal::Refusal;
use lb_select_base::walk::BackendSelection;
use lb_select_base::words::SharedWords;
use lb_threads_core::loads::{LoadWords, SharedLoads};
use rand_pcg::Pcg64;
use std::alloc::Global;
use std::collections::BTreeSet;
use std::mem;
use std::sync::{Arc, Wait};

/// What selections draw of: words of a selector's own, and words for the loads of its members, where memory wasn't refused.
#[derive(Drop)]
pub struct DrawnWords {
    pub words: Arc<SharedWords>,
    pub loads: Option<Arc<LoadWords>>,
}

impl DrawnWords {
    // The words for the loads, once more.
    fn loads_again(&self) -> Option<Arc<LoadWords>> {
        match &self.loads {
            Some(words) => Arc::try_clone(words).ok(),
            None => None,
        }
    }
}

/// A selector with words of its own.
#[derive(Drop)]
pub struct BuiltSelector<S: BackendSelection> {
    pub selector: Arc<S>,
    pub drawn: DrawnWords,
}

/// A view with the selector of its newest membership, and that selector's words.
#[derive(Drop)]
pub struct Serving<S: BackendSelection> {
    pub(crate) served: ServedView<S>,
    pub(crate) drawn: DrawnWords,
}

impl<S: BackendSelection> Serving<S> {
    /// Returns what is served by this view with this selector of its newest membership.
    pub fn new(view: ViewCore, built: BuiltSelector<S>) -> Serving<S>
        requires { (views : List ViewEvent) × IsViewAfter views view × (S.members (arc_value built.selector) ≡ membership_after views) }
        ensures { result.served ≡ record {
          view = view;
          members = S.members (arc_value built.selector);
          config = S.built_with (arc_value built.selector);
        } }
    {
        let BuiltSelector { selector, drawn } = built;
        Serving {
            served: ServedView::new(view, selector),
            drawn,
        }
    }

    /// Returns what is served by this view and selector with words of its own, whose random ones are the generator's.
    ///
    /// Refused `OutOfMemory` where memory is refused.
    pub fn with_words(
        alloc: Global,
        served: ServedView<S>,
        generator: Pcg64,
    ) -> Result<Serving<S>, Refusal>
        ensures same { IfOk result (λ s. s.served ≡ served) }
        ensures refused { IfErr result (λ e. e ≡ Refusal.OutOfMemory) }
    {
        let words = Arc::new(alloc, SharedWords::new(generator))?;
        let drawn = DrawnWords { words, loads: None };
        Ok(Serving { served, drawn })
    }

    /// Has words of this number for the loads of the newest membership.
    pub fn take_loads<W: Wait>(&mut self, rt: &W, alloc: Global, loads: &SharedLoads, number: u64)
        ensures { self.new.served ≡ self.old.served }
    {
        self.drawn.loads = loads.words(rt, alloc, number, self.served.members());
    }

    /// Shows another membership, and serves the selector that is built of it. Returns what isn't served then, and whether this selector is.
    ///
    /// The same membership changes nothing but flags. What is returned is what was served before, or what was built in vain.
    ///
    /// # Errors
    ///
    /// Those of `ViewCore::update`: view, selector, words and registry are then as before.
    pub fn renew<R: KeyRule + Drop>(
        &mut self,
        alloc: Global,
        registry: &mut Registry<R>,
        members: BTreeSet<Backend>,
        settings: Settings,
        built: BuiltSelector<S>,
    ) -> (BuiltSelector<S>, Result<bool, Refusal>)
        requires members { S.members (arc_value built.selector) ≡ members.keys }
        requires config { S.built_with (arc_value built.selector) ≡ self.old.served.config }
        ensures view { IsRenewed R.gives members.keys (settings_of settings.entries) self.old.served registry.old result.1
            self.new.served registry.new }
        ensures drawn { IfOk result.1 (λ renewed. self.new.drawn ≡ (if renewed then built.drawn else self.old.drawn)) }
        ensures drawn_err { OnErr result.1 (self.new.drawn ≡ self.old.drawn) }
    {
        let BuiltSelector { selector, drawn } = built;
        let (selector, answer) = self
            .served
            .renew(alloc, registry, members, settings, selector);
        match answer {
            Ok(true) => {
                let drawn = mem::replace(&mut self.drawn, drawn);
                (BuiltSelector { selector, drawn }, answer)
            }
            _ => (BuiltSelector { selector, drawn }, answer),
        }
    }

    /// Marks the view for removal from the registry, and releases the cells of its newest generation.
    ///
    /// It takes no memory.
    pub fn leave<R: KeyRule + Drop>(&self, registry: &mut Registry<R>)
        ensures after { HoldsOfBoth R.gives self.now.served.view registry.old (λ key_of views events. IsRegistryAfter R.gives key_of
            (Released self.now.served.view.id (generation_after views) ∷ Marked self.now.served.view.id ∷ events) registry.new) }
        ensures one_registry { registry.new.id ≡ registry.old.id }
    {
        let id = self.served.view_id();
        registry.remove_view(id);
        registry.release(id, self.served.generation());
    }

    /// Returns what is served now, with these loads, and which members aren't ready by the registry as it is.
    ///
    /// Refused `OutOfMemory` where memory is refused.
    pub fn show<R: KeyRule + Drop>(
        &self,
        alloc: Global,
        registry: &Registry<R>,
        loads: &Arc<SharedLoads>,
        version: Version,
    ) -> Result<Shown<S>, Refusal>
        ensures shows { IfOk result (λ s. ShowsView self.now.served.view s) }
        ensures judged { IfOk result (λ s. AreUnready (IsJudged R.gives self.now.served.view registry.now) s.members s.unready) }
        ensures config { IfOk result (λ s. s.config ≡ self.now.served.config) }
        ensures refused { IfErr result (λ e. e ≡ Refusal.OutOfMemory) }
    {
        // For the prover alone: it does nothing at run time.
        self.served.founded();
        Ok(Shown {
            generation: self.served.generation(),
            members: self.served.get_backend()?,
            selector: Arc::try_clone(self.served.selector())?,
            words: Arc::try_clone(&self.drawn.words)?,
            loads: Arc::try_clone(loads)?,
            load_words: self.drawn.loads_again(),
            unready: unready_of(alloc, &self.served, registry)?,
            version,
        })
    }
}

/// Returns the selector of a set with words of its own, built by this configuration, or by the default one.
///
/// Refused for the cause for which there is no selector, and for memory only where there is none.
pub(crate) fn built_of<S: BackendSelection>(
    alloc: Global,
    members: &BTreeSet<Backend>,
    config: &Option<S::Config>,
    seed: u64,
) -> Result<BuiltSelector<S>, Refusal>
    ensures { Refuses (S.refusal members.now.keys (unwrap_or config.now S.default_config))
        (λ b. (S.members (arc_value b.selector) ≡ members.now.keys)
        × (S.built_with (arc_value b.selector) ≡ unwrap_or config.now S.default_config)) result }
{
    let selector = selector_of::<S>(alloc, members, config)?;
    let words = Arc::new(alloc, SharedWords::new(Pcg64::new(u128::from(seed), 1)))?;
    let drawn = DrawnWords { words, loads: None };
    Ok(BuiltSelector { selector, drawn })
}

// The members of a view's newest generation that aren't ready. No others are copied.
fn unready_of<S: BackendSelection, R: KeyRule + Drop>(
    alloc: Global,
    served: &ServedView<S>,
    registry: &Registry<R>,
) -> Result<BTreeSet<Backend>, Refusal>
    ensures judged { IfOk result (λ set. (views : List ViewEvent) → IsViewAfter views served.now.view
        → AreUnready (IsJudged R.gives served.now.view registry.now) (membership_after views) set.keys) }
    ensures refused { IfErr result (λ e. e ≡ Refusal.OutOfMemory) }
{
    let mut unready = BTreeSet::new(alloc);
    for backend in served.members() {
        if !served.ready(registry, backend) {
            unready.insert(backend.copied(alloc)?)?;
        }
    }
    Ok(unready)
}
