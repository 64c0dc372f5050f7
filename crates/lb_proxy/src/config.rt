//! What a configuration says: the pools, the listeners, the check of backends and the limits, or the first fault with its place.
ghost use Rattle.std.specs.Prelude.{◌≡◌, ◌≢◌, ◌<◌, ◌⊎◌, codes, length, string_bytes, IfOk, IfErr, IfSome, IfNone};
ghost use Rattle.std.specs.List.{AllByRecursion};
ghost use Rattle.std.specs.Result.{result_map_both};
ghost use Rattle.lb_proxy.specs.Config.{part_of, said, selection_of, selection_in, IsPoolNamed, IsListen, IsBackend, AreBackends};
ghost use Rattle.lb_proxy.specs.Config.{IsWeighed, IsSource, IsPool, ArePools, HaveOwnNames, AreListens, IsStatus, IsConfig};
ghost use Rattle.lb_proxy.specs.Config.{IsCheck, IsCheckIn, IsKind, AreLimits, AreLimitsIn, begins_with_slash};
ghost use Rattle.lb_proxy.specs.Faults.{IsWrong, IsWrongInside, IsWrongCheck, IsWrongKind, IsWrongStatus, IsWrongLimits, IsWrongWord};
ghost use Rattle.lb_proxy.specs.Faults.{IsWrongBackend, AreWrongBackends, IsWrongSource, IsWrongPool, AreWrongPools};
ghost use Rattle.lb_proxy.specs.Faults.{IsWrongListen, AreWrongListens};
ghost use Rattle.lb_proxy.specs.declared.config_fault.Place.TheVariants.{Top, Status, Limits as LimitsPlace};
ghost use Rattle.toml.specs.Data.{as_str, as_table};
ghost use Rattle.toml.specs.View.{table_view, view};

use crate::config_fault::{Cause, Fault, Place};
use crate::key::OwnedKey;
use crate::mode::{Mode, read_key, read_mode};
use crate::section::Section;
use lb_select_base::backend::Backend;
use lb_select_base::refusal::Refusal;
use std::alloc::Global;
use std::net::SocketAddr;
use toml::{Table, Value};

/// How a listener selects among the backends of its pool.
#[derive(Clone, Copy)]
pub enum Selection {
    /// In turn, by weight.
    RoundRobin,
    /// By the FNV hash of the client's address, by weight.
    Fnv,
    /// By a Ketama ring and the client's address.
    Ketama,
    /// By the fewest connections for each unit of weight.
    Least,
    /// At random, by weight.
    Random,
}

/// What a check of a backend does.
pub enum CheckKind {
    /// It connects.
    Tcp,
    /// It asks this host for this path, and wants an answer with status 200.
    Http { host: String, path: String },
}

impl Drop for CheckKind {
    fn drop(self) {
        match self {
            CheckKind::Tcp => {}
            CheckKind::Http { host: _, path: _ } => {}
        }
    }
}

/// A check of backends. Times are in nanoseconds.
#[derive(Drop)]
pub struct CheckConfig {
    pub kind: CheckKind,
    pub every: u64,
    pub timeout: u64,
    pub rise: usize,
    pub fall: usize,
    pub parallel: bool,
}

/// Where the backends of a pool come from.
#[derive(Drop)]
pub enum PoolSource {
    Fixed(Vec<Backend>),
    File(String),
}

/// A pool of backends, with a check of its own or the one of all.
pub struct PoolConfig {
    pub name: String,
    pub source: PoolSource,
    pub check: Option<CheckConfig>,
}

impl PoolConfig {
    /// Returns the name and where the backends come from.
    pub fn into_parts(self) -> (String, PoolSource)
        ensures name { result.0 ≡ self.name }
        ensures source { result.1 ≡ self.source }
    {
        let PoolConfig {
            name,
            source,
            check: _,
        } = self;
        (name, source)
    }
}

impl Drop for PoolConfig {
    fn drop(self) {
        let PoolConfig {
            name: _,
            source: _,
            check: _,
        } = self;
    }
}

/// A listener, and the pool by its number.
#[derive(Drop)]
pub struct ListenConfig {
    pub address: SocketAddr,
    pub mode: Mode,
    pub pool: usize,
    pub selection: Selection,
    pub key: OwnedKey,
}

/// What all listeners share. Times are in nanoseconds.
#[derive(Clone, Copy)]
pub struct Limits {
    pub max_connections: u64,
    /// How many loops run; 0 is as many as processors.
    pub threads: u64,
    /// For one attempt to reach a backend.
    pub connect: u64,
    /// For something to happen on a connection.
    pub idle: u64,
    /// For an answer to begin once its request is sent.
    pub answer: u64,
    /// For connections to end once no more are taken.
    pub drain: u64,
}

/// A configuration. There is a pool, and a listener.
#[derive(Drop)]
pub struct Config {
    pub check: Option<CheckConfig>,
    pub status: Option<SocketAddr>,
    pub limits: Limits,
    pub pools: Vec<PoolConfig>,
    pub listens: Vec<ListenConfig>,
}

/// Returns the configuration that a table spells, or the first fault: no part, entry or field that is read
/// before it is wrong.
pub fn read_config<'t>(alloc: Global, table: &'t Table) -> Result<Config, Fault<'t>>
    ensures spelled { IfOk result (IsConfig (Top, table_view table.now)) }
    ensures fault { IfErr result (λ f. IsWrong (Top, table_view table.now) (said f)) }
{
    let top = Section::new(table, Place::Top);
    top.only(&["check", "status", "limits", "pool", "listen"])?;
    let check = read_check(alloc, &top, Place::Check)?;
    let status = read_status(&top)?;
    let limits = read_limits(&top)?;
    let pools = read_pools(alloc, &top)?;
    let listens = read_listens(alloc, &top, pools.as_slice())?;
    Ok(Config {
        check,
        status,
        limits,
        pools,
        listens,
    })
}

// The check of a part, at that place, where it has one.
fn read_check<'t>(
    alloc: Global,
    part: &Section<'t>,
    place: Place,
) -> Result<Option<CheckConfig>, Fault<'t>>
    ensures spelled { IfOk result (IsCheckIn (part_of part.now) place) }
    ensures fault { IfErr result (λ f. IsWrongInside IsWrongCheck (part_of part.now) (codes "check") place (said f)) }
{
    match part.table("check", place)? {
        None => Ok(None),
        Some(section) => Ok(Some(read_fields(alloc, &section)?)),
    }
}

// The check that a section spells.
fn read_fields<'t>(alloc: Global, section: &Section<'t>) -> Result<CheckConfig, Fault<'t>>
    ensures spelled { IfOk result (IsCheck (part_of section.now)) }
    ensures fault { IfErr result (λ f. IsWrongCheck (part_of section.now) (said f)) }
{
    section.only(&[
        "kind", "host", "path", "every", "timeout", "rise", "fall", "parallel",
    ])?;
    let kind = read_kind(alloc, section)?;
    let every = section.duration("every", 1_000_000_000)?;
    let timeout = section.duration("timeout", 1_000_000_000)?;
    let rise = section.count("rise", 1)?;
    let fall = section.count("fall", 1)?;
    let parallel = section.flag("parallel", true)?;
    Ok(CheckConfig {
        kind,
        every,
        timeout,
        rise,
        fall,
        parallel,
    })
}

// What the check does: it connects, unless the section says otherwise.
fn read_kind<'t>(alloc: Global, section: &Section<'t>) -> Result<CheckKind, Fault<'t>>
    ensures spelled { IfOk result (IsKind (part_of section.now)) }
    ensures fault { IfErr result (λ f. IsWrongKind (part_of section.now) (said f)) }
{
    match section.text("kind")? {
        None | Some("tcp") => Ok(CheckKind::Tcp),
        Some("http") => {
            let host = section.text("host")?.unwrap_or("localhost");
            let path = section.text("path")?.unwrap_or("/");
            if !begins_with_slash(path) {
                return Err(section.fault("path", Cause::NotPath));
            }
            let host = section.owned(alloc, "host", host)?;
            let path = section.owned(alloc, "path", path)?;
            Ok(CheckKind::Http { host, path })
        }
        Some(_) => Err(section.fault("kind", Cause::NotCheck)),
    }
}

// Whether a path begins with a slash.
fn begins_with_slash(path: &str) -> bool
    ensures { result ≡ begins_with_slash path.now }
{
    path.as_bytes().starts_with(b"/")
}

// Where the status page is, if anywhere.
fn read_status<'t>(top: &Section<'t>) -> Result<Option<SocketAddr>, Fault<'t>>
    ensures spelled { IfOk result (IsStatus (part_of top.now)) }
    ensures fault { IfErr result (λ f. IsWrongInside IsWrongStatus (part_of top.now) (codes "status") Status (said f)) }
{
    let Some(section) = top.table("status", Place::Status)? else {
        return Ok(None);
    };
    section.only(&["listen"])?;
    let address = section.address("listen")?;
    Ok(Some(address))
}

// The limits, those that are left out as they are without a section.
fn read_limits<'t>(top: &Section<'t>) -> Result<Limits, Fault<'t>>
    ensures spelled { IfOk result (AreLimitsIn (part_of top.now)) }
    ensures fault { IfErr result (λ f. IsWrongInside IsWrongLimits (part_of top.now) (codes "limits") LimitsPlace (said f)) }
{
    match top.table("limits", Place::Limits)? {
        Some(section) => limits_of(&section),
        None => Ok(Limits {
            max_connections: 10_000,
            threads: 0,
            connect: 1_000_000_000,
            idle: 300_000_000_000,
            answer: 60_000_000_000,
            drain: 10_000_000_000,
        }),
    }
}

// The limits of their section.
fn limits_of<'t>(section: &Section<'t>) -> Result<Limits, Fault<'t>>
    ensures spelled { IfOk result (AreLimits (part_of section.now)) }
    ensures fault { IfErr result (λ f. IsWrongLimits (part_of section.now) (said f)) }
{
    section.only(&[
        "max_connections",
        "threads",
        "connect",
        "idle",
        "answer",
        "drain",
    ])?;
    let max_connections = section.number("max_connections", 10_000)?;
    let threads = section.number("threads", 0)?;
    let connect = section.duration("connect", 1_000_000_000)?;
    let idle = section.duration("idle", 300_000_000_000)?;
    let answer = section.duration("answer", 60_000_000_000)?;
    let drain = section.duration("drain", 10_000_000_000)?;
    Ok(Limits {
        max_connections,
        threads,
        connect,
        idle,
        answer,
        drain,
    })
}

// The pools. There is one, and no two have one name.
fn read_pools<'t>(alloc: Global, top: &Section<'t>) -> Result<Vec<PoolConfig>, Fault<'t>>
    ensures pools { IfOk result (λ pools. ArePools (part_of top.now) pools.items) }
    ensures names { IfOk result (λ pools. HaveOwnNames pools.items) }
    ensures some { IfOk result (λ pools. 0 < length pools.items) }
    ensures fault { IfErr result (λ f. AreWrongPools (part_of top.now) (said f)) }
{
    let mut pools: Vec<PoolConfig> = Vec::new(alloc);
    let tables = top.list("pool")?;
    for number in 0..tables.len() {
        let section = top.entry("pool", &tables[number], Place::Pool(number))?;
        let pool = read_pool(alloc, &section)?;
        if pool_number(pools.as_slice(), pool.name.as_str()).is_some() {
            return Err(section.fault("name", Cause::SameName));
        }
        match pools.push(pool) {
            Ok(()) => {}
            Err(_) => return Err(section.fault("name", Cause::OutOfMemory)),
        }
    }
    if pools.is_empty() {
        return Err(top.fault("pool", Cause::Missing));
    }
    Ok(pools)
}

// One pool.
fn read_pool<'t>(alloc: Global, section: &Section<'t>) -> Result<PoolConfig, Fault<'t>>
    ensures spelled { IfOk result (IsPool (part_of section.now)) }
    ensures fault { IfErr result (λ f. IsWrongPool (part_of section.now) (said f)) }
{
    section.only(&["name", "backends", "file", "check"])?;
    let name = section.required("name")?;
    let name = section.owned(alloc, "name", name)?;
    let source = read_source(alloc, section)?;
    let check = read_check(alloc, section, section.place().check())?;
    Ok(PoolConfig {
        name,
        source,
        check,
    })
}

// Where its backends come from: a list or a file.
fn read_source<'t>(alloc: Global, section: &Section<'t>) -> Result<PoolSource, Fault<'t>>
    ensures spelled { IfOk result (IsSource (part_of section.now)) }
    ensures fault { IfErr result (λ f. IsWrongSource (part_of section.now) (said f)) }
{
    match (section.text("file")?, section.has("backends")) {
        (None, true) => Ok(PoolSource::Fixed(read_backends(alloc, section)?)),
        (Some(path), false) => Ok(PoolSource::File(section.owned(alloc, "file", path)?)),
        (Some(_), true) => Err(section.fault("file", Cause::TwoSources)),
        (None, false) => Err(section.fault("backends", Cause::Missing)),
    }
}

// The backends of a list.
fn read_backends<'t>(alloc: Global, section: &Section<'t>) -> Result<Vec<Backend>, Fault<'t>>
    ensures spelled { IfOk result (λ backends. AreBackends (part_of section.now) backends.items) }
    ensures fault { IfErr result (λ f. AreWrongBackends (part_of section.now) (said f)) }
{
    let mut backends = Vec::new(alloc);
    let values = section.list("backends")?;
    for number in 0..values.len() {
        let place = section.place().backend(number);
        let backend = read_backend(alloc, section, &values[number], place)?;
        match backends.push(backend) {
            Ok(()) => {}
            Err(_) => return Err(section.fault("backends", Cause::OutOfMemory)),
        }
    }
    Ok(backends)
}

// One backend: its address, or a table of address and weight, whose faults are at that place.
fn read_backend<'t>(
    alloc: Global,
    section: &Section<'t>,
    value: &'t Value,
    place: Place,
) -> Result<Backend, Fault<'t>>
    ensures spelled { IfOk result (IsBackend (view value.now)) }
    ensures fault { IfErr result (λ f. IsWrongBackend (part_of section.now) place (view value.now) (said f)) }
{
    let (text, weight) = backend_word(section, value, place)?;
    match Backend::from_text(alloc, text, weight) {
        Ok(backend) => Ok(backend),
        Err(Refusal::OutOfMemory) => Err(section.fault("backends", Cause::OutOfMemory)),
        Err(_) => Err(section.fault("backends", Cause::NotBackend)),
    }
}

// The text of a backend's address, and its weight.
fn backend_word<'t>(
    section: &Section<'t>,
    value: &'t Value,
    place: Place,
) -> Result<(&'t str, usize), Fault<'t>>
    ensures spelled { IfOk result (λ p. IsWeighed (as_str (view value.now)) (as_table (view value.now)) p.0.now p.1) }
    ensures fault { IfErr result (λ f. IsWrongWord (part_of section.now) place (view value.now) (said f)) }
{
    if let Some(text) = value.as_str() {
        return Ok((text, 1));
    }
    let Some(table) = value.as_table() else {
        return Err(section.fault("backends", Cause::NotBackend));
    };
    let entry = Section::new(table, place);
    entry.only(&["address", "weight"])?;
    let text = entry.required("address")?;
    let weight = entry.count("weight", 1)?;
    Ok((text, weight))
}

// The number of the pool of this name.
fn pool_number(pools: &[PoolConfig], name: &str) -> Option<usize>
    ensures some { IfSome result (λ number. IsPoolNamed pools.now name.now number) }
    ensures none { IfNone result (AllByRecursion (λ pool. string_bytes pool.name ≢ name.now) pools.now) }
{
    for number in 0..pools.len() {
        if pools[number].name.as_str() == name {
            return Some(number);
        }
    }
    None
}

// The listeners. There is one.
fn read_listens<'t>(
    alloc: Global,
    top: &Section<'t>,
    pools: &[PoolConfig],
) -> Result<Vec<ListenConfig>, Fault<'t>>
    ensures listens { IfOk result (λ listens. AreListens pools.now (part_of top.now) listens.items) }
    ensures some { IfOk result (λ listens. 0 < length listens.items) }
    ensures fault { IfErr result (λ f. AreWrongListens pools.now (part_of top.now) (said f)) }
{
    let mut listens = Vec::new(alloc);
    let tables = top.list("listen")?;
    for number in 0..tables.len() {
        let section = top.entry("listen", &tables[number], Place::Listen(number))?;
        let listen = read_listen(alloc, &section, pools)?;
        match listens.push(listen) {
            Ok(()) => {}
            Err(_) => return Err(section.fault("address", Cause::OutOfMemory)),
        }
    }
    if listens.is_empty() {
        return Err(top.fault("listen", Cause::Missing));
    }
    Ok(listens)
}

// One listener.
fn read_listen<'t>(
    alloc: Global,
    section: &Section<'t>,
    pools: &[PoolConfig],
) -> Result<ListenConfig, Fault<'t>>
    ensures spelled { IfOk result (IsListen pools.now (part_of section.now)) }
    ensures fault { IfErr result (λ f. IsWrongListen pools.now (part_of section.now) (said f)) }
{
    section.only(&["address", "mode", "pool", "select", "key"])?;
    let address = section.address("address")?;
    let mode = read_mode(section)?;
    let key = read_key(alloc, section, mode)?;
    let name = section.required("pool")?;
    let Some(pool) = pool_number(pools, name) else {
        return Err(section.fault("pool", Cause::NoSuchPool));
    };
    let selection = read_selection(section)?;
    Ok(ListenConfig {
        address,
        mode,
        pool,
        selection,
        key,
    })
}

// How it selects: in turn, unless the section says otherwise.
fn read_selection<'t>(section: &Section<'t>) -> Result<Selection, Fault<'t>>
    ensures { result_map_both (λ selection. selection) said result ≡ selection_in (part_of section.now) }
{
    let Some(word) = section.text("select")? else {
        return Ok(Selection::RoundRobin);
    };
    match selection_of(word) {
        Some(selection) => Ok(selection),
        None => Err(section.fault("select", Cause::NotSelection)),
    }
}

/// Returns how a listener with this word selects, or `None`.
pub fn selection_of(word: &str) -> Option<Selection>
    ensures { result ≡ selection_of word.now }
{
    match word {
        "rr" => Some(Selection::RoundRobin),
        "fnv" => Some(Selection::Fnv),
        "ketama" => Some(Selection::Ketama),
        "least" => Some(Selection::Least),
        "random" => Some(Selection::Random),
        _ => None,
    }
}
