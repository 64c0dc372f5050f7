//! What a slot of a group serves: a selector that was built with the slot's configuration, or with the default one where it has none.
//! Contracts see no difference to the selector itself.
ghost use Rattle.std.specs.Prelude.{◌≡◌, IfErr, IfOk, option_map, unwrap_or};
ghost use Rattle.std.specs.Arc.{arc_value};

use lb_select_base::backend::Backend;
use lb_select_base::refusal::Refusal;
use lb_select_base::walk::BackendSelection;
use lb_select_base::words::WordSource;
use std::alloc::Global;
use std::collections::BTreeSet;
use std::marker::Model;
use std::sync::Arc;

/// The configuration of a slot. Contracts see the one that selectors are built with: the default one where none was given.
#[derive(Drop)]
pub struct SlotConfig<S: BackendSelection> {
    given: Option<Arc<S::Config>>,
}

impl<S: BackendSelection> Model for SlotConfig<S> {
    ghost use Rattle.std.specs.Prelude.{option_map, unwrap_or};
    ghost use Rattle.std.specs.Arc.{arc_value};

    ghost Value = { S.Config };

    ghost view = { λ c. unwrap_or (option_map arc_value c.given) S.default_config };
}

impl<S: BackendSelection> SlotConfig<S> {
    /// Returns the configuration of a slot that was given this one, or none. Refused `OutOfMemory` where memory is refused.
    pub fn new(alloc: Global, config: Option<S::Config>) -> Result<SlotConfig<S>, Refusal>
        ensures made { IfOk result (λ c. c ≡ unwrap_or config S.default_config) }
        ensures refused { IfErr result (λ e. e ≡ Refusal.OutOfMemory) }
    {
        let given = match config {
            Some(config) => Some(Arc::new(alloc, config)?),
            None => None,
        };
        Ok(SlotConfig { given })
    }

    /// Returns the same configuration once more. Refused `OutOfMemory` where std refuses one more owner.
    pub fn try_clone(&self) -> Result<SlotConfig<S>, Refusal>
        ensures same { IfOk result (λ c. c ≡ self.now) }
        ensures refused { IfErr result (λ e. e ≡ Refusal.OutOfMemory) }
    {
        let given = match &self.given {
            Some(config) => Some(Arc::try_clone(config)?),
            None => None,
        };
        Ok(SlotConfig { given })
    }
}

/// A selector of a slot, which is built with the slot's configuration.
#[derive(Drop)]
pub struct Configured<S: BackendSelection> {
    selector: S,
}

impl<S: BackendSelection> BackendSelection for Configured<S> {
    type Config = SlotConfig<S>;

    type Walk = S::Walk;

    ghost walks = { S.walks };

    ghost members = { λ s. S.members s.selector };

    ghost built_with = { λ s. S.built_with s.selector };

    ghost refusal = { S.refusal };

    ghost default_config = { S.default_config };

    ghost may_draw_random = { S.may_draw_random };

    ghost fits = { λ s w. S.fits s.selector w };

    ghost rest = { λ s w. S.rest s.selector w };

    ghost undrawn = { S.undrawn };

    ghost few_words = { S.few_words };

    ghost rest_starts = { λ s w. S.rest_starts s.selector w };

    ghost rest_ends = { λ s w. S.rest_ends s.selector w };

    fn build(alloc: Global, backends: &BTreeSet<Backend>) -> Result<Configured<S>, Refusal> {
        let selector = S::build(alloc, backends)?;
        Ok(Configured { selector })
    }

    fn build_with_config(
        alloc: Global,
        backends: &BTreeSet<Backend>,
        config: &SlotConfig<S>,
    ) -> Result<Configured<S>, Refusal> {
        let selector = match &config.given {
            Some(config) => S::build_with_config(alloc, backends, &**config)?,
            None => S::build(alloc, backends)?,
        };
        Ok(Configured { selector })
    }

    fn start<W: WordSource>(&self, key: &[u8], words: &mut W) -> Result<S::Walk, Refusal> {
        self.selector.start(key, words)
    }

    fn step<'s, W: WordSource>(&'s self, walk: &mut S::Walk, words: &mut W) -> Option<&'s Backend> {
        self.selector.step(walk, words)
    }

    fn draws_random(&self) -> bool {
        self.selector.draws_random()
    }
}
