//! What a listener does with its connections, and by which key it selects.
ghost use Rattle.std.specs.Prelude.{◌≡◌, Ok, IfOk, IfErr};
ghost use Rattle.std.specs.Result.{result_map_both};
ghost use Rattle.lb_proxy.specs.Config.{part_of, said, mode_in, key_in};
ghost use Rattle.lb_proxy.specs.Faults.{IsWrongKey};
ghost use Rattle.lb_proxy.specs.Key.{owned_seen};

use crate::config_fault::{Cause, Fault};
use crate::key::{Key, OwnedKey};
use crate::section::Section;
use std::alloc::Global;

/// What a listener does with its connections.
#[derive(Clone, Copy)]
pub enum Mode {
    /// It relays the bytes of each to one backend.
    Tcp,
    /// It reads HTTP/1.1 from each, and selects a backend for each request.
    Http,
}

/// Returns the mode that the section of a listener spells: bytes are relayed, unless it says otherwise.
pub fn read_mode<'t>(section: &Section<'t>) -> Result<Mode, Fault<'t>>
    ensures { result_map_both (λ mode. mode) said result ≡ mode_in (part_of section.now) }
{
    match section.text("mode")? {
        None | Some("tcp") => Ok(Mode::Tcp),
        Some("http") => Ok(Mode::Http),
        Some(_) => Err(section.fault("mode", Cause::NotMode)),
    }
}

/// Returns the key that the section of a listener of this mode spells: the client's address, unless it says otherwise.
///
/// The target and the fields of requests are there in http mode alone.
pub fn read_key<'t>(alloc: Global, section: &Section<'t>, mode: Mode) -> Result<OwnedKey, Fault<'t>>
    ensures spelled { IfOk result (λ key. key_in (part_of section.now) mode ≡ Ok (owned_seen key)) }
    ensures fault { IfErr result (λ f. IsWrongKey (part_of section.now) mode (said f)) }
{
    let Some(text) = section.text("key")? else {
        return Ok(OwnedKey::Source);
    };
    match (Key::from_text(text), mode) {
        (Some(Key::Source), _) => Ok(OwnedKey::Source),
        (Some(Key::Uri), Mode::Http) => Ok(OwnedKey::Uri),
        (Some(Key::Header(name)), Mode::Http) => {
            Ok(OwnedKey::Header(section.owned(alloc, "key", name)?))
        }
        _ => Err(section.fault("key", Cause::NotKey)),
    }
}
