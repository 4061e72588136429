//! A record, from its bytes.

ghost use Rattle.std.specs.Prelude.{◌≡◌, IfErr, IfOk, codes, option_and_then};
ghost use Rattle.serde_json.specs.Find.{get};
ghost use Rattle.serde_json.specs.View.{view};
ghost use Rattle.fleet_trace.specs.Told.{count_in, opening_in};
ghost use Rattle.fleet_site.specs.Record.{record_of};
ghost use Rattle.fleet_site.specs.Told.{Gives, IsSiteFault, Tells, is_first, lists_in, record_in};
ghost use Rattle.fleet_site.specs.declared.read.SiteFault.TheVariants.{NoMemory};

use crate::parts::{count_of, has_members, read_list};
use crate::record::SiteRecord;
use fleet_history::Opening;
use fleet_trace::{TraceFault, opening_told};
use serde_json::Value;
use std::alloc::{AllocError, Global};

/// Why bytes are no record.
#[derive(Clone, Copy, Debug, PartialEq, Eq)]
pub enum SiteFault {
    /// They are no JSON of a record's form.
    Shape,
    NoMemory,
}

impl From<AllocError> for SiteFault {
    ghost from_gives = { λ _ f. f ≡ NoMemory };

    fn from(_error: AllocError) -> SiteFault {
        SiteFault::NoMemory
    }
}

/// Whether the value has the number of the form's first version.
fn is_first(value: &Value) -> bool
    ensures { result ≡ is_first (option_and_then count_in (get (codes "version") (view value.now))) }
{
    match value.get("version").and_then(count_of) {
        None => false,
        Some(number) => number == 1,
    }
}

/// The opening that a value tells.
fn opening_of(alloc: Global, value: &Value) -> Result<Opening, SiteFault>
    ensures { Gives (λ o. o) result (option_and_then opening_in (get (codes "everyone") (view value.now))) }
{
    let Some(opening) = value.get("everyone") else {
        return Err(SiteFault::Shape);
    };
    match opening_told(alloc, opening) {
        Ok(opening) => Ok(opening),
        Err(TraceFault::NoMemory) => Err(SiteFault::NoMemory),
        Err(_) => Err(SiteFault::Shape),
    }
}

/// The record of that chapter and that map whose lists a value has.
fn lists_of(
    alloc: Global,
    chapter: u32,
    map: u64,
    everyone: Opening,
    value: &Value,
) -> Result<SiteRecord, SiteFault>
    ensures { Gives record_of result (lists_in chapter map everyone (view value.now)) }
{
    let Some(changes) = value.get("changes") else {
        return Err(SiteFault::Shape);
    };
    let Some(dropped) = value.get("dropped") else {
        return Err(SiteFault::Shape);
    };
    let Some(standings) = value.get("standings") else {
        return Err(SiteFault::Shape);
    };
    let changes = read_list(alloc, changes)?;
    let dropped = read_list(alloc, dropped)?;
    let standings = read_list(alloc, standings)?;
    Ok(SiteRecord {
        chapter,
        map,
        changes,
        dropped,
        standings,
        everyone,
    })
}

/// The record that a value tells.
fn record_in(alloc: Global, value: &Value) -> Result<SiteRecord, SiteFault>
    ensures { Gives record_of result (record_in (view value.now)) }
{
    if !has_members(value, 7) || !is_first(value) {
        return Err(SiteFault::Shape);
    }
    let Some(chapter) = value.get("chapter").and_then(count_of) else {
        return Err(SiteFault::Shape);
    };
    let Some(map) = value.get("map").and_then(Value::as_u64) else {
        return Err(SiteFault::Shape);
    };
    let everyone = opening_of(alloc, value)?;
    lists_of(alloc, chapter, map, everyone, value)
}

/// The record that bytes tell: JSON of the form that `write_site` writes. White space and the order of keys are free.
pub fn read_site(alloc: Global, bytes: &[u8]) -> Result<SiteRecord, SiteFault>
    ensures found { IfOk result (λ site. Tells bytes.now (record_of site)) }
    ensures fault { IfErr result (λ fault. IsSiteFault bytes.now fault) }
{
    match Value::from_slice(alloc, bytes) {
        Err(error) => {
            if error.is_memory() {
                Err(SiteFault::NoMemory)
            } else {
                Err(SiteFault::Shape)
            }
        }
        Ok(value) => record_in(alloc, &value),
    }
}
