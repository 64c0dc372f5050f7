//! Printed values, a ring's configuration, an address to connect to, and selectors by their other names.
//! The texts are those that Rust's derives write for these types.
use crate::selection::fixtures::{is_text, push_address, set_of, walked, words_from};
use lb_select::ketama::{Consistent, KetamaConfig};
use lb_select::selection::FVNHash;
use lb_select_base::backend::Backend;
use lb_select_base::iter::Iter;
use lb_select_base::refusal::Refusal;
use lb_select_base::walk::{BackendIter, BackendSelection};
use std::alloc::Global;
use std::fmt::Debug;
use std::net::Net;
use std::sync::Arc;

// What `{:?}` writes of a value.
fn printed<T: Debug>(alloc: Global, value: &T) -> Result<String, Refusal> {
    Ok(format!(in alloc; "{value:?}")?)
}

// What is written of a configuration, of a copy and of a clone.
fn printed_configurations(alloc: Global, config: &KetamaConfig) -> Result<String, Refusal> {
    let copied = *config;
    let cloned = config.clone()?;
    Ok(format!(in alloc; "{config:?}, {copied:?}, {cloned:?}")?)
}

#[test]
fn debug_texts(rt: HostRuntime) {
    let alloc = rt.alloc();
    let default = printed(alloc, &KetamaConfig::default());
    let four = printed_configurations(
        alloc,
        &KetamaConfig {
            point_multiple: Some(4),
        },
    );
    let text =
        "KetamaConfig { point_multiple: Some(4) }, KetamaConfig { point_multiple: Some(4) }, KetamaConfig { point_multiple: Some(4) }";
    let told = [
        is_text(&default, "KetamaConfig { point_multiple: None }"),
        is_text(&four, text),
    ];
    assert_eq!(rt; told, [true; 2]);
}

// What `{:?}` writes of a backend that was made.
fn printed_backend(alloc: Global, made: Result<Backend, Refusal>) -> Result<String, Refusal> {
    printed(alloc, &made?)
}

#[test]
fn debug_texts_of_backends(rt: HostRuntime) {
    let alloc = rt.alloc();
    let inet = printed_backend(alloc, Backend::new_with_weight(alloc, "1.0.0.1:80", 3));
    let unix = printed_backend(alloc, Backend::unix(alloc, "/a\tb", 0));
    let told = [
        is_text(
            &inet,
            "Backend { addr: Inet(V4([1, 0, 0, 1], 80)), weight: 3, ext: {} }",
        ),
        is_text(
            &unix,
            "Backend { addr: Unix(\"/a\\tb\"), weight: 0, ext: {} }",
        ),
    ];
    assert_eq!(rt; told, [true; 2]);
}

// The socket addresses of a backend, with a space after each.
fn socket_addresses<N: Net>(
    alloc: Global,
    net: &N,
    made: Result<Backend, Refusal>,
) -> Result<String, Refusal> {
    let backend = made?;
    let mut text = String::new(alloc);
    push_addresses(alloc, net, &mut text, &backend)?;
    Ok(text)
}

fn push_addresses<N: Net>(
    alloc: Global,
    net: &N,
    text: &mut String,
    backend: &Backend,
) -> Result<(), Refusal> {
    for addr in backend.to_socket_addrs(net)? {
        let name = format!(in alloc; "{addr} ")?;
        text.push_str(name.as_str())?;
    }
    Ok(())
}

#[test]
fn backends_to_connect_to(rt: HostRuntime) {
    let alloc = rt.alloc();
    let inet = socket_addresses(alloc, &rt, Backend::new(alloc, "[2001:db8::1]:443"));
    let unix = socket_addresses(alloc, &rt, Backend::unix(alloc, "/a", 1));
    let told = [
        is_text(&inet, "[2001:db8::1]:443 "),
        unix.err() == Some(Refusal::InvalidAddress),
    ];
    assert_eq!(rt; told, [true; 2]);
}

const B1: (&str, usize) = ("1.1.1.1:80", 1);

const B2: (&str, usize) = ("1.0.0.1:80", 1);

const B3: (&str, usize) = ("1.0.0.255:80", 1);

const KEYS: &[&[u8]] = &[
    b"test0", b"test1", b"test2", b"test3", b"test4", b"test5", b"test6", b"test7", b"test8",
    b"test9",
];

// The first candidates of these keys on a ring with a configuration.
fn first_choices(alloc: Global, members: &[(&str, usize)]) -> Result<String, Refusal> {
    let config = KetamaConfig {
        point_multiple: Some(4),
    };
    let set = set_of(alloc, members)?;
    let ring = Arc::new(alloc, Consistent::build_with_config(alloc, &set, &config)?)?;
    let mut text = String::new(alloc);
    for key in KEYS {
        push_first(alloc, &mut text, &ring, key)?;
    }
    Ok(text)
}

fn push_first(
    alloc: Global,
    text: &mut String,
    ring: &Arc<Consistent>,
    key: &[u8],
) -> Result<(), Refusal> {
    let mut words = words_from(0);
    let mut walk = Iter::new(ring, key, &mut words)?;
    push_address(alloc, text, walk.next(&mut words))
}

// The first candidates of a key by the other spelling of `FNVHash`.
fn hashed(alloc: Global) -> Result<String, Refusal> {
    let set = set_of(
        alloc,
        &[("1.1.1.1:80", 1), ("1.0.0.1:80", 10), ("1.0.0.255:80", 1)],
    )?;
    walked::<FVNHash>(alloc, &set, &mut words_from(0), b"test", &[4])
}

const CHOICES_OF_THREE: &str =
    "1.0.0.1:80 1.1.1.1:80 1.1.1.1:80 1.1.1.1:80 1.1.1.1:80 1.0.0.255:80 1.1.1.1:80 1.0.0.255:80 1.1.1.1:80 1.0.0.1:80 ";

const CHOICES_OF_TWO: &str =
    "1.0.0.1:80 1.1.1.1:80 1.1.1.1:80 1.1.1.1:80 1.1.1.1:80 1.0.0.1:80 1.1.1.1:80 1.1.1.1:80 1.1.1.1:80 1.0.0.1:80 ";

// A multiple of points changes no choice.
#[test]
fn selectors_by_other_names(rt: HostRuntime) {
    let alloc = rt.alloc();
    let told = [
        is_text(&first_choices(alloc, &[B1, B2, B3]), CHOICES_OF_THREE),
        is_text(&first_choices(alloc, &[B1, B2]), CHOICES_OF_TWO),
        is_text(
            &hashed(alloc),
            "1.0.0.1:80 1.0.0.1:80 1.0.0.1:80 1.1.1.1:80 ",
        ),
    ];
    assert_eq!(rt; told, [true; 3]);
}
