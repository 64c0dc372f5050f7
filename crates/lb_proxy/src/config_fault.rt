//! What is wrong with a configuration, and where.
ghost use Rattle.std.specs.Prelude.{◌≡◌};
ghost use Rattle.lb_proxy.specs.Config.{backend_place, check_place};

use std::fmt;
use thiserror::Error;

/// The part of a configuration that a fault is in. Numbers count from 0.
#[derive(Clone, Copy)]
pub enum Place {
    Top,
    Check,
    Status,
    Limits,
    Pool(usize),
    /// The check of a pool's own.
    PoolCheck(usize),
    Listen(usize),
    /// A backend that is a table.
    Backend { pool: usize, number: usize },
}

impl Place {
    /// Returns the place of a backend with this number, of the pool that is here; elsewhere there is none, and it is here.
    pub fn backend(self, number: usize) -> Place
        ensures { result ≡ backend_place self number }
    {
        match self {
            Place::Pool(pool) => Place::Backend { pool, number },
            Place::Top | Place::Check | Place::Status | Place::Limits => self,
            Place::PoolCheck(_) | Place::Listen(_) | Place::Backend { .. } => self,
        }
    }

    /// Returns the place of the check of what is here: of a pool, or of all pools.
    pub fn check(self) -> Place
        ensures { result ≡ check_place self }
    {
        match self {
            Place::Pool(number) => Place::PoolCheck(number),
            Place::Top | Place::Check | Place::Status | Place::Limits => Place::Check,
            Place::PoolCheck(_) | Place::Listen(_) | Place::Backend { .. } => Place::Check,
        }
    }
}

impl fmt::Display for Place {
    fn fmt<W: fmt::Write>(&self, f: &mut fmt::Formatter<W>) -> fmt::Result {
        match self {
            Place::Top => f.write_str("top"),
            Place::Check => f.write_str("[check]"),
            Place::Status => f.write_str("[status]"),
            Place::Limits => f.write_str("[limits]"),
            Place::Pool(number) => numbered(f, "[[pool]]", *number),
            Place::PoolCheck(number) => {
                numbered(f, "[[pool]]", *number)?;
                f.write_str(", check")
            }
            Place::Listen(number) => numbered(f, "[[listen]]", *number),
            Place::Backend { pool, number } => {
                numbered(f, "[[pool]]", *pool)?;
                numbered(f, ", backend", *number)
            }
        }
    }
}

// The name of a list's entry, with its number from 1 on.
fn numbered<W: fmt::Write>(f: &mut fmt::Formatter<W>, name: &str, number: usize) -> fmt::Result {
    let count = number.saturating_add(1);
    write!(f, "{name} number {count}")
}

/// Why a value is refused.
#[derive(Clone, Copy, Debug, PartialEq, Eq, Error)]
pub enum Cause {
    #[error("is missing")]
    Missing,
    #[error("isn't known here")]
    Unknown,
    #[error("is to be a text")]
    NotText,
    #[error("is to be a number from 0 on")]
    NotNumber,
    #[error("is to be true or false")]
    NotFlag,
    #[error("is to be a table")]
    NotTable,
    #[error("is to be a list")]
    NotList,
    #[error("is to be a list of tables")]
    NotTables,
    #[error("is to be a time: a number and ms, s, m or h, as \"500ms\"")]
    NotDuration,
    #[error("is to be an address, as \"127.0.0.1:8080\"")]
    NotAddress,
    #[error("has what is no backend: write \"IP:PORT\", \"unix:PATH\", or a table of address and weight")]
    NotBackend,
    #[error("is to begin with a slash")]
    NotPath,
    #[error("is to be tcp or http")]
    NotCheck,
    #[error("is to be tcp or http")]
    NotMode,
    #[error("is to be source, and in http mode it can be uri or header:NAME too")]
    NotKey,
    #[error("is to be rr, fnv, ketama, least or random")]
    NotSelection,
    #[error("is the name of an earlier pool too")]
    SameName,
    #[error("names no pool")]
    NoSuchPool,
    #[error("can't be there together with backends")]
    TwoSources,
    #[error("needs more memory than there is")]
    OutOfMemory,
}

/// A fault: the part, the name in it, and what is wrong with its value.
#[derive(Clone, Copy)]
pub struct Fault<'t> {
    pub place: Place,
    pub field: &'t str,
    pub cause: Cause,
}

impl fmt::Display for Fault<'_> {
    fn fmt<W: fmt::Write>(&self, f: &mut fmt::Formatter<W>) -> fmt::Result {
        let Fault {
            place,
            field,
            cause,
        } = self;
        write!(f, "{place}: {field} {cause}")
    }
}
