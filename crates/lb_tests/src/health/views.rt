//! Rows of views, flags and readiness. A row has a registry of its own with two views, which its calls borrow.
use crate::asserted::assert_same;
use crate::health::registries::{Call as RegistryCall, answer};
use crate::selection::fixtures::set_of;
use crate::told::{Answer, DONE, Members, NO, Told, YES};
use lb_health_core::registry::RegistryCore;
use lb_health_view::view::{Settings, ViewCore};
use lb_select_base::backend::Backend;
use lb_select_base::refusal::Refusal;
use std::alloc::Global;
use std::process::Abort;

/// What a discovery sets: an address of weight 1, and whether it is enabled.
type Setting = Option<(&'static str, bool)>;

/// A call of the first of two views, where no other is named.
#[derive(Clone, Copy)]
enum Call {
    Registry(RegistryCall),
    /// Updates the view; how many members its callback was passed, or that it wasn't called.
    Update(Members, Setting),
    /// Updates the other view; how many members its callback was passed, or that it wasn't called.
    UpdateOther(Members),
    /// Updates the view, once more where memory was refused; whether nothing changed then.
    UpdateAtLast(Members),
    /// Enables or disables 1.0.0.1:80.
    SetEnable(bool),
    Hold(u64),
    Release(u64),
    /// Whether the backend of that address and weight is ready.
    IsReady(&'static str, usize),
    /// Whether 1.0.0.1:80 is ready in the other view.
    IsReadyInOther,
    /// Whether 1.0.0.1:80 is ready in the snapshot of this generation.
    IsReadyIn(u64),
    Generation,
    CountMembers,
    /// The numbers of the views are 1 and 2.
    AreNumbered,
}

// A registry with two views.
#[derive(Drop)]
struct Viewed {
    registry: RegistryCore,
    view: ViewCore,
    other: ViewCore,
}

impl Viewed {
    fn new(alloc: Global, rt: &impl Abort) -> Viewed {
        let mut registry = RegistryCore::new(alloc);
        let view = ViewCore::register(alloc, &mut registry).expect(rt, "refused");
        let other = ViewCore::register(alloc, &mut registry).expect(rt, "refused");
        Viewed {
            registry,
            view,
            other,
        }
    }

    fn answer(&mut self, alloc: Global, call: Call) -> Answer {
        match call {
            Call::Registry(call) => answer(alloc, &mut self.registry, call),
            Call::Update(members, setting) => self.update(alloc, members, setting),
            Call::UpdateOther(members) => {
                update(alloc, &mut self.registry, &mut self.other, members, None)
            }
            Call::UpdateAtLast(members) => self.update_at_last(alloc, members),
            Call::SetEnable(enabled) => {
                let backend = Backend::new(alloc, "1.0.0.1:80")?;
                self.view.set_enable(&backend, enabled);
                DONE
            }
            Call::Hold(generation) => hold(&mut self.view, generation),
            Call::Release(generation) => {
                self.view.release(&mut self.registry, generation);
                DONE
            }
            _ => self.read(alloc, call),
        }
    }

    // Makes a call that changes nothing.
    fn read(&self, alloc: Global, call: Call) -> Answer {
        match call {
            Call::IsReady(address, weight) => {
                let backend = Backend::new_with_weight(alloc, address, weight)?;
                Ok(Told::Flag(self.view.ready(&self.registry, &backend)))
            }
            Call::IsReadyInOther => {
                let backend = Backend::new(alloc, "1.0.0.1:80")?;
                Ok(Told::Flag(self.other.ready(&self.registry, &backend)))
            }
            Call::IsReadyIn(generation) => {
                let backend = Backend::new(alloc, "1.0.0.1:80")?;
                let ready = self.view.ready_in(&self.registry, generation, &backend);
                Ok(Told::Flag(ready))
            }
            Call::Generation => Ok(Told::Number(self.view.generation())),
            Call::CountMembers => Ok(Told::Length(self.view.get_backend()?.len())),
            Call::AreNumbered => Ok(Told::Flag(self.view.id() == 1 && self.other.id() == 2)),
            _ => DONE,
        }
    }

    fn update(&mut self, alloc: Global, members: Members, setting: Setting) -> Answer {
        update(alloc, &mut self.registry, &mut self.view, members, setting)
    }

    fn update_at_last(&mut self, alloc: Global, members: Members) -> Answer {
        let before = self.view.generation();
        if self.update(alloc, members, None).is_ok() {
            return YES;
        }
        let same = self.view.generation() == before;
        self.update(alloc, members, None)?;
        Ok(Told::Flag(same))
    }
}

// Updates a view; how many members the callback was passed, or that it wasn't called.
fn update(
    alloc: Global,
    registry: &mut RegistryCore,
    view: &mut ViewCore,
    members: Members,
    setting: Setting,
) -> Answer {
    let settings = settings_of(alloc, setting)?;
    let set = set_of(alloc, members)?;
    match view.update(alloc, registry, set, settings, |lent| lent.len())? {
        Some(count) => Ok(Told::Length(count)),
        None => DONE,
    }
}

fn settings_of(alloc: Global, setting: Setting) -> Result<Settings, Refusal> {
    let mut settings = Settings::new(alloc);
    if let Some((address, enabled)) = setting {
        let Backend { addr, .. } = Backend::new(alloc, address)?;
        settings.insert((addr, 1), enabled)?;
    }
    Ok(settings)
}

fn hold(view: &mut ViewCore, generation: u64) -> Answer {
    if !view.can_hold(generation) {
        return Err(Refusal::NumbersExhausted);
    }
    view.hold(generation);
    DONE
}

/// Calls and what they answer.
type Calls = &'static [(Call, Answer)];

/// A row: two lists of calls, the second after the first.
struct Row {
    name: &'static str,
    first: Calls,
    then: Calls,
}

const ONE: Members = &[("1.0.0.1:80", 1)];

const NEAR: Members = &[("1.0.0.1:80", 1), ("127.0.0.1:79", 1)];

// The view is at generation 3 then, and its backend left at 2 and came back; generation 1 is held, and was found unhealthy and
// disabled.
const COMES_BACK: Calls = &[
    (Call::Update(ONE, None), Ok(Told::Length(1))),
    (Call::Hold(1), DONE),
    (Call::Registry(RegistryCall::Observe(0, false, 1)), YES),
    (Call::SetEnable(false), DONE),
    (Call::Update(&[], None), Ok(Told::Length(0))),
    (Call::Update(ONE, None), Ok(Told::Length(1))),
];

const ROWS: &[Row] = &[
    // A discovery disables a backend; one that omits it leaves it so, and one that enables it does.
    Row {
        name: "flags of a discovery",
        first: &[
            (
                Call::Update(NEAR, Some(("127.0.0.1:79", false))),
                Ok(Told::Length(2)),
            ),
            (Call::Generation, Ok(Told::Number(1))),
            (Call::IsReady("1.0.0.1:80", 1), YES),
            (Call::IsReady("127.0.0.1:79", 1), NO),
        ],
        then: &[
            (Call::Update(NEAR, None), DONE),
            (Call::Generation, Ok(Told::Number(1))),
            (Call::IsReady("127.0.0.1:79", 1), NO),
            (Call::Update(NEAR, Some(("127.0.0.1:79", true))), DONE),
            (Call::IsReady("127.0.0.1:79", 1), YES),
        ],
    },
    // A setting of a backend that the membership lacks does nothing, now and later.
    Row {
        name: "settings of others do nothing",
        first: &[(
            Call::Update(ONE, Some(("127.0.0.1:79", false))),
            Ok(Told::Length(1)),
        )],
        then: &[
            (Call::Update(NEAR, None), Ok(Told::Length(2))),
            (Call::IsReady("127.0.0.1:79", 1), YES),
        ],
    },
    // The key came back to a fresh cell; the flag stayed, since generation 1 lists the backend. Readiness in generation 1 goes by
    // its own cell.
    Row {
        name: "readiness goes by the cells of the snapshot",
        first: COMES_BACK,
        then: &[
            (Call::Generation, Ok(Told::Number(3))),
            (Call::IsReady("1.0.0.1:80", 1), NO),
            (Call::SetEnable(true), DONE),
            (Call::IsReady("1.0.0.1:80", 1), YES),
            (Call::IsReadyIn(1), NO),
            (Call::Registry(RegistryCall::Observe(0, true, 1)), YES),
            (Call::IsReadyIn(1), YES),
            (Call::IsReadyIn(2), NO),
        ],
    },
    // The last release of a generation that isn't the newest ends it, and its cell is gone.
    Row {
        name: "released snapshots end",
        first: COMES_BACK,
        then: &[
            (Call::SetEnable(true), DONE),
            (Call::Release(1), DONE),
            (
                Call::Registry(RegistryCall::Observe(0, true, 1)),
                Err(Refusal::NoSuch),
            ),
            (Call::IsReadyIn(1), NO),
            (Call::IsReady("1.0.0.1:80", 1), YES),
            (Call::CountMembers, Ok(Told::Length(1))),
        ],
    },
    // A flag set in one view changes readiness in no other.
    Row {
        name: "settings of one view are its own",
        first: &[
            (Call::AreNumbered, YES),
            (Call::Update(ONE, None), Ok(Told::Length(1))),
            (Call::UpdateOther(ONE), Ok(Told::Length(1))),
        ],
        then: &[
            (Call::SetEnable(false), DONE),
            (Call::IsReady("1.0.0.1:80", 1), NO),
            (Call::IsReadyInOther, YES),
        ],
    },
    // Readiness is of an identity: a backend of another weight at its address is another one.
    Row {
        name: "readiness of one identity",
        first: &[
            (Call::Update(ONE, None), Ok(Told::Length(1))),
            (Call::IsReady("1.0.0.1:80", 1), YES),
            (
                Call::Update(&[("1.0.0.1:80", 2)], None),
                Ok(Told::Length(1)),
            ),
            (Call::IsReady("1.0.0.1:80", 1), NO),
            (Call::IsReady("1.0.0.1:80", 2), YES),
        ],
        then: &[
            (Call::Update(&[], None), Ok(Told::Length(0))),
            (Call::IsReady("1.0.0.1:80", 1), NO),
            (Call::IsReady("1.0.0.1:80", 2), NO),
        ],
    },
    // Two weights of one address have a flag each; a third, which isn't listed, isn't ready.
    Row {
        name: "weights of one address have their own flags",
        first: &[
            (
                Call::Update(&[("1.0.0.1:80", 1), ("1.0.0.1:80", 2)], None),
                Ok(Told::Length(2)),
            ),
            (Call::IsReady("1.0.0.1:80", 1), YES),
            (Call::IsReady("1.0.0.1:80", 2), YES),
            (Call::IsReady("1.0.0.1:80", 3), NO),
        ],
        then: &[
            (Call::SetEnable(false), DONE),
            (Call::IsReady("1.0.0.1:80", 1), NO),
            (Call::IsReady("1.0.0.1:80", 2), YES),
            (Call::IsReady("1.0.0.1:80", 3), NO),
        ],
    },
    // An update that is refused for memory leaves view and registry as they were, and succeeds when it is given again.
    Row {
        name: "refused updates change nothing",
        first: &[
            (Call::UpdateAtLast(ONE), YES),
            (Call::UpdateAtLast(NEAR), YES),
        ],
        then: &[
            (Call::Generation, Ok(Told::Number(2))),
            (
                Call::Registry(RegistryCall::CountTargets),
                Ok(Told::Length(2)),
            ),
            (Call::Registry(RegistryCall::IsReady(1)), YES),
            (Call::Registry(RegistryCall::IsReady(2)), NO),
        ],
    },
];

impl Viewed {
    fn plays(&mut self, alloc: Global, calls: Calls, name: &str, rt: &impl Abort) {
        for (call, wanted) in calls {
            assert_same(rt, &self.answer(alloc, *call), wanted, &name);
        }
    }

    fn plays_row(&mut self, alloc: Global, row: &Row, rt: &impl Abort) {
        self.plays(alloc, row.first, row.name, rt);
        self.plays(alloc, row.then, row.name, rt);
    }
}

#[test]
fn rows_of_views(rt: HostRuntime) {
    for row in ROWS {
        let mut viewed = Viewed::new(rt.alloc(), &rt);
        viewed.plays_row(rt.alloc(), row, &rt);
    }
}
