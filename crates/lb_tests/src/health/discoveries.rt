//! Discoveries of texts: a set that stays, and texts that are refused.
use crate::asserted::assert_same;
use lb_health_view::discovery::Static;
use lb_select_base::backend::Backend;
use lb_select_base::refusal::Refusal;
use std::alloc::Global;
use std::net::Net;

// How many backends the texts give, and whether 1.0.0.1:80 is among them.
fn found<N: Net>(alloc: Global, net: &N, texts: &[&str]) -> Result<(usize, bool), Refusal> {
    let found = Static::try_from_iter(alloc, net, texts.iter().copied())?;
    counted(alloc, &found)
}

fn counted(alloc: Global, found: &Static) -> Result<(usize, bool), Refusal> {
    let backend = Backend::new(alloc, "1.0.0.1:80")?;
    let set = found.get()?;
    Ok((set.len(), set.contains(&backend)))
}

// Texts, and what is found of them. Of several refusals the least number is answered, whatever the order of the texts.
const TEXTS: &[(&[&str], Result<(usize, bool), Refusal>)] = &[
    (&["1.1.1.1:80", "1.0.0.1:80"], Ok((2, true))),
    (&["[fe80::1%3]:80"], Err(Refusal::InvalidAddress)),
    (&["1.1.1.1"], Err(Refusal::Discovery)),
    (
        &["1.1.1.1", "[fe80::1%3]:80", "1.0.0.1:80"],
        Err(Refusal::InvalidAddress),
    ),
];

#[test]
fn discoveries_of_texts(rt: HostRuntime) {
    let alloc = rt.alloc();
    let none = counted(alloc, &Static::default(alloc));
    assert_same(&rt, &none, &Ok((0, false)), &"the default");
    for (texts, wanted) in TEXTS {
        assert_same(&rt, &found(alloc, &rt, texts), wanted, texts);
    }
}
