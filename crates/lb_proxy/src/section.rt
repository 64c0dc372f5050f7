//! A table of a configuration, with the place that its faults name.
ghost use Rattle.std.specs.Prelude.{◌≡◌, map, option_map, is_some, string_bytes, IfOk, IfErr, OnOk};
ghost use Rattle.std.specs.Result.{result_map_both};
ghost use Rattle.toml.specs.Data.{get_member, as_table};
ghost use Rattle.toml.specs.View.{table_view, view};
ghost use Rattle.lb_proxy.specs.Config.{part_of, said, text_of, required_of, number_of, flag_of, list_at, table_at, entry_by};
ghost use Rattle.lb_proxy.specs.Config.{IsAddressOf, IsNoAddress, natural, cut, units_of, duration_of, time_of};
ghost use Rattle.lb_proxy.specs.Config.{is_among, HasOnly, IsUnknown};
ghost use Rattle.lb_proxy.specs.declared.config_fault.Cause.TheVariants.{OutOfMemory};
ghost use Rattle.lb_proxy.specs.Position.{there, entry_there, part_at};

use crate::config_fault::{Cause, Fault, Place};
use crate::pool_file::weight_of;
use std::alloc::Global;
use std::net::SocketAddr;
use toml::{Table, Value};

/// A table of a configuration, and where it is.
#[derive(Clone, Copy)]
pub struct Section<'t> {
    table: &'t Table,
    place: Place,
}

impl<'t> Section<'t> {
    /// Returns the section of this table.
    pub fn new(table: &'t Table, place: Place) -> Section<'t>
        ensures { part_of result ≡ (place, table_view table.now) }
    {
        Section { table, place }
    }

    /// Returns where the section is.
    pub fn place(&self) -> Place
        ensures { result ≡ (part_of self.now).0 }
    {
        self.place
    }

    /// Returns a fault of a field of the section.
    pub fn fault(&self, field: &'t str, cause: Cause) -> Fault<'t>
        ensures { said result ≡ ((part_of self.now).0, field.now, cause) }
    {
        Fault {
            place: self.place,
            field,
            cause,
        }
    }

    /// Refuses a field that is none of these.
    pub fn only(&self, known: &[&str]) -> Result<(), Fault<'t>>
        ensures known { OnOk result (HasOnly (map (λ name. name.now) known.now) (part_of self.now)) }
        ensures unknown { IfErr result (λ f. IsUnknown (map (λ name. name.now) known.now) (part_of self.now) (said f)) }
    {
        for (name, _) in self.table.iter() {
            if !is_among(known, name.as_str()) {
                return Err(self.fault(name.as_str(), Cause::Unknown));
            }
        }
        Ok(())
    }

    // The value of a field.
    fn get(&self, field: &str) -> Option<&'t Value>
        ensures { option_map (λ value. view value.now) result ≡ get_member field.now (part_of self.now).1 }
    {
        self.table.get(field)
    }

    /// Returns whether there is such a field.
    pub fn has(&self, field: &str) -> bool
        ensures { result ≡ is_some (get_member field.now (part_of self.now).1) }
    {
        self.get(field).is_some()
    }

    /// Returns the text of a field.
    pub fn text(&self, field: &'static str) -> Result<Option<&'t str>, Fault<'t>>
        ensures { result_map_both (option_map (λ text. text.now)) said result ≡ text_of (part_of self.now) field.now }
    {
        let Some(value) = self.get(field) else {
            return Ok(None);
        };
        match value.as_str() {
            Some(text) => Ok(Some(text)),
            None => Err(self.fault(field, Cause::NotText)),
        }
    }

    /// Returns the text of a field that has to be there.
    pub fn required(&self, field: &'static str) -> Result<&'t str, Fault<'t>>
        ensures { result_map_both (λ text. text.now) said result ≡ required_of (part_of self.now) field.now }
    {
        match self.text(field)? {
            Some(text) => Ok(text),
            None => Err(self.fault(field, Cause::Missing)),
        }
    }

    /// Returns the number of a field, or this one where there is none.
    pub fn number(&self, field: &'static str, default: u64) -> Result<u64, Fault<'t>>
        ensures { result_map_both (λ number. number) said result ≡ number_of (part_of self.now) field.now default }
    {
        let Some(value) = self.get(field) else {
            return Ok(default);
        };
        match natural(value.as_integer()) {
            Some(number) => Ok(number),
            None => Err(self.fault(field, Cause::NotNumber)),
        }
    }

    /// Returns the number of a field, or this one where there is none.
    pub fn count(&self, field: &'static str, default: u64) -> Result<usize, Fault<'t>>
        ensures { result_map_both (λ number. number) said result ≡ number_of (part_of self.now) field.now default }
    {
        Ok(self.number(field, default)? as usize)
    }

    /// Returns the flag of a field, or this one where there is none.
    pub fn flag(&self, field: &'static str, default: bool) -> Result<bool, Fault<'t>>
        ensures { result_map_both (λ flag. flag) said result ≡ flag_of (part_of self.now) field.now default }
    {
        let Some(value) = self.get(field) else {
            return Ok(default);
        };
        match value.as_bool() {
            Some(flag) => Ok(flag),
            None => Err(self.fault(field, Cause::NotFlag)),
        }
    }

    /// Returns the time of a field in nanoseconds, or this one where there is none.
    pub fn duration(&self, field: &'static str, default: u64) -> Result<u64, Fault<'t>>
        ensures { result_map_both (λ time. time) said result ≡ time_of (part_of self.now) field.now default }
    {
        match self.text(field)? {
            None => Ok(default),
            Some(text) => match duration_of(text) {
                Some(nanoseconds) => Ok(nanoseconds),
                None => Err(self.fault(field, Cause::NotDuration)),
            },
        }
    }

    /// Returns the socket address of a field that has to be there.
    pub fn address(&self, field: &'static str) -> Result<SocketAddr, Fault<'t>>
        ensures spelled { IfOk result (IsAddressOf (part_of self.now) field.now) }
        ensures fault { IfErr result (λ f. IsNoAddress (part_of self.now) field.now (required_of (part_of self.now) field.now) (said f)) }
    {
        match self.required(field)?.parse::<SocketAddr>() {
            Ok(address) => Ok(address),
            Err(_) => Err(self.fault(field, Cause::NotAddress)),
        }
    }

    /// Returns the table of a field, as a section at that place.
    pub fn table(&self, field: &'static str, place: Place) -> Result<Option<Section<'t>>, Fault<'t>>
        ensures { result_map_both (option_map part_of) said result ≡ table_at (part_of self.now) field.now place }
    {
        let Some(value) = self.get(field) else {
            return Ok(None);
        };
        match value.as_table() {
            Some(table) => Ok(Some(Section { table, place })),
            None => Err(self.fault(field, Cause::NotTable)),
        }
    }

    /// Returns the list of a field, an empty one where there is none.
    #[tactic(auto, using(crate::proofs::ConfigLemmas::items_listed))]
    pub fn list(&self, field: &'static str) -> Result<&'t [Value], Fault<'t>>
        ensures { result_map_both (λ values. map view values.now) said result ≡ list_at (part_of self.now) field.now }
    {
        let Some(value) = self.get(field) else {
            return Ok(&[]);
        };
        match value.as_array() {
            Some(values) => Ok(values.as_slice()),
            None => Err(self.fault(field, Cause::NotList)),
        }
    }

    /// Returns the table that the list of a field has as an entry, as a section at that place.
    pub fn entry(
        &self,
        field: &'static str,
        value: &'t Value,
        place: Place,
    ) -> Result<Section<'t>, Fault<'t>>
        ensures { result_map_both part_of said result ≡ entry_by (part_of self.now) field.now place (as_table (view value.now)) }
    {
        match value.as_table() {
            Some(table) => Ok(Section { table, place }),
            None => Err(self.fault(field, Cause::NotTables)),
        }
    }

    // The table of a field, where it has one, as a section at that place.
    fn table_there(&self, field: &'static str, place: Place) -> Option<Section<'t>>
        ensures { option_map part_of result ≡ there (table_at (part_of self.now) field.now place) }
    {
        match self.table(field, place) {
            Ok(part) => part,
            Err(_) => None,
        }
    }

    // The entry of a field's list with this number, where it is a table, as a section at that place.
    fn entry_there(&self, field: &'static str, number: usize, place: Place) -> Option<Section<'t>>
        ensures { option_map part_of result ≡ entry_there (part_of self.now) field.now number place }
    {
        let Ok(values) = self.list(field) else {
            return None;
        };
        match values.get(number)?.as_table() {
            Some(table) => Some(Section { table, place }),
            None => None,
        }
    }

    /// Returns the part of a configuration at that place, where this is the whole of it.
    pub fn part_at(&self, place: Place) -> Option<Section<'t>>
        ensures { option_map part_of result ≡ part_at (part_of self.now) place }
    {
        match place {
            Place::Top => Some(*self),
            Place::Check => self.table_there("check", place),
            Place::Status => self.table_there("status", place),
            Place::Limits => self.table_there("limits", place),
            Place::Pool(number) => self.entry_there("pool", number, place),
            Place::PoolCheck(number) => {
                let pool = self.entry_there("pool", number, place)?;
                pool.table_there("check", place)
            }
            Place::Listen(number) => self.entry_there("listen", number, place),
            Place::Backend { pool, number } => {
                let pool = self.entry_there("pool", pool, place)?;
                pool.entry_there("backends", number, place)
            }
        }
    }

    /// Returns a copy of a field's text.
    pub fn owned(&self, alloc: Global, field: &'static str, text: &str) -> Result<String, Fault<'t>>
        ensures copy { IfOk result (λ copy. string_bytes copy ≡ text.now) }
        ensures memory { IfErr result (λ f. said f ≡ ((part_of self.now).0, field.now, OutOfMemory)) }
    {
        match text.to_string(alloc) {
            Ok(text) => Ok(text),
            Err(_) => Err(self.fault(field, Cause::OutOfMemory)),
        }
    }
}

// The number, where it is one from 0 on.
fn natural(number: Option<i64>) -> Option<u64>
    ensures { result ≡ natural number }
{
    let number = number?;
    if number < 0 {
        None
    } else {
        Some(number as u64)
    }
}

// Whether the name is one of these.
fn is_among(known: &[&str], name: &str) -> bool
    ensures { result ≡ is_among (map (λ name. name.now) known.now) name.now }
{
    known.contains(&name)
}

/// Returns the time that a text spells, in nanoseconds: a number and `ms`, `s`, `m` or `h`.
pub fn duration_of(text: &str) -> Option<u64>
    ensures { result ≡ duration_of text.now }
{
    if let Some(digits) = cut(text, "ms") {
        return times(digits, 1_000_000);
    }
    if let Some(digits) = cut(text, "s") {
        return times(digits, 1_000_000_000);
    }
    if let Some(digits) = cut(text, "m") {
        return times(digits, 60_000_000_000);
    }
    match cut(text, "h") {
        Some(digits) => times(digits, 3_600_000_000_000),
        None => None,
    }
}

// The text without this end, where it has it.
fn cut<'a>(text: &'a str, end: &str) -> Option<&'a str>
    ensures { option_map (λ rest. rest.now) result ≡ cut end.now text.now }
{
    text.strip_suffix(end)
}

// As many units as the digits say.
fn times(digits: &str, unit: u64) -> Option<u64>
    ensures { result ≡ units_of digits.now unit }
{
    match weight_of(digits) {
        Some(number) => (number as u64).checked_mul(unit),
        None => None,
    }
}
