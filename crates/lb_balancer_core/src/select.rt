//! A selection from a group by its port: a reader enters, its selector's walk is searched, and the reader leaves. Each call of the port is
//! one step, and other threads' steps may fall between.
ghost use Rattle.std.specs.Prelude.{◌≡◌};
ghost use Rattle.lb_select_base.specs.Copies.{AsCopied};
ghost use Rattle.lb_balancer_core.specs.Looks.{Answers, SelectsBy, SelectedThrough};

use crate::port::SelectPort;
use crate::words::ReaderWords;
use lb_rebuild_core::retired::Reader;
use lb_select_base::backend::Backend;
use lb_select_base::refusal::Refusal;
use lb_select_base::seen::SeenBackends;
use lb_select_base::select::copied_answer;
use lb_select_base::walk::BackendSelection;
use std::alloc::Global;

/// Returns the first backend that `accept` takes among the distinct candidates of what the slot serves, or `None`.
///
/// `accept` is asked with a backend and whether it is ready. Only the first `max_iterations` candidates are looked at. It is `None` too
/// where no such slot is there.
///
/// # Errors
///
/// `OutOfMemory` where memory is refused, and what the port refuses for the entry. A reader that has entered leaves in any case.
pub fn select_through<S: BackendSelection, P: SelectPort<S>, F: Fn(&Backend, bool) -> bool>(
    alloc: Global,
    port: &mut P,
    slot: usize,
    key: &[u8],
    max_iterations: usize,
    accept: &F,
) -> Result<Option<Backend>, Refusal>
    requires { F.IsAlwaysCallable accept.now }
    ensures { SelectedThrough (λ b ready a. Answers F.Fn accept.now b ready a) max_iterations P.draws P.readies P.entered
        P.left S.walks key.now port.old slot result port.new }
{
    match port.enter(slot) {
        Ok(reader) => {
            let answer = select_for(alloc, port, &reader, key, max_iterations, accept);
            port.leave(reader);
            answer
        }
        Err(Refusal::NoSuch) => Ok(None),
        Err(refusal) => Err(refusal),
    }
}

/// Returns the first backend that `accept` takes among the distinct candidates of a reader's selector, or `None`.
///
/// It is the part of `select_through` between the entry and the leaving, for a reader that stays in.
///
/// # Errors
///
/// `OutOfMemory` where memory is refused.
pub fn select_for<S: BackendSelection, P: SelectPort<S>, F: Fn(&Backend, bool) -> bool>(
    alloc: Global,
    port: &mut P,
    reader: &Reader<S>,
    key: &[u8],
    limit: usize,
    accept: &F,
) -> Result<Option<Backend>, Refusal>
    requires accept { F.IsAlwaysCallable accept.now }
    requires own { P.owns_reader port.old reader.now }
    ensures { SelectsBy (λ b ready a. Answers F.Fn accept.now b ready a) limit P.draws P.readies
        (S.walks reader.now.members reader.now.config key.now) port.old reader.now result port.new }
{
    let found = find_for(alloc, port, reader, key, limit, accept);
    copied_answer(alloc, found)
}

/// Returns what `select_for` returns, in place: `copied_answer` gives the copy.
///
/// # Errors
///
/// `OutOfMemory` where memory is refused.
pub fn find_for<'r, S: BackendSelection, P: SelectPort<S>, F: Fn(&Backend, bool) -> bool>(
    alloc: Global,
    port: &mut P,
    reader: &'r Reader<S>,
    key: &[u8],
    limit: usize,
    accept: &F,
) -> Result<Option<&'r Backend>, Refusal>
    requires accept { F.IsAlwaysCallable accept.now }
    requires own { P.owns_reader port.old reader.now }
    ensures { AsCopied (λ a. SelectsBy (λ b ready a. Answers F.Fn accept.now b ready a) limit P.draws P.readies
        (S.walks reader.now.members reader.now.config key.now) port.old reader.now a port.new) result }
{
    let mut words = ReaderWords { port, reader };
    first_accepted(alloc, &mut words, key, limit, accept)
}

// A reader's selector, borrowed for as long as the reader: the walk is then apart from the words, and counts no `Arc`.
fn lent_by<'r, S: BackendSelection>(reader: &'r Reader<S>) -> &'r S
    ensures members { S.members result.now ≡ reader.now.members }
    ensures config { S.built_with result.now ≡ reader.now.config }
{
    reader.selector()
}

// The first of the walk that is accepted, in place.
fn first_accepted<'p, 'r, S: BackendSelection, P: SelectPort<S>, F: Fn(&Backend, bool) -> bool>(
    alloc: Global,
    words: &mut ReaderWords<'p, 'r, S, P>,
    key: &[u8],
    limit: usize,
    accept: &F,
) -> Result<Option<&'r Backend>, Refusal>
    requires accept { F.IsAlwaysCallable accept.now }
    requires own { P.owns_reader words.old.port.now words.old.reader.now }
    ensures found { AsCopied (λ a. SelectsBy (λ b ready a. Answers F.Fn accept.now b ready a) limit P.draws P.readies
        (S.walks words.old.reader.now.members words.old.reader.now.config key.now) words.old.port.now words.old.reader.now
        a words.new.port.now) result }
    ensures same_reference { words.new.port.ghost_name ≡ words.old.port.ghost_name }
{
    let reader: &'r Reader<S> = words.reader;
    let of = lent_by(reader);
    let mut walk = of.start(key, words)?;
    let mut seen = SeenBackends::new(alloc);
    for _ in 0..limit {
        let Some(candidate) = of.step(&mut walk, words) else {
            return Ok(None);
        };
        if !seen.is_empty() && seen.contains(candidate) {
            continue;
        }
        let ready = words.port.ready(words.reader, candidate);
        if accept(candidate, ready) {
            return Ok(Some(candidate));
        }
        seen.remember(candidate)?;
    }
    // The candidate past the limit is drawn too, and not looked at.
    let _past = of.step(&mut walk, words);
    Ok(None)
}
