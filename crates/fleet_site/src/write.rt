//! A record as text.

ghost use Rattle.std.specs.Prelude.{◌≡◌, ◌++◌, IfOk, OnOk, false, string_bytes};
ghost use Rattle.serde_json.specs.View.{view};
ghost use Rattle.serde_json.specs.Written.{compact_text, has_float};
ghost use Rattle.fleet_site.specs.Record.{record_of};
ghost use Rattle.fleet_site.specs.Text.{lists_text, record_text, rest_text};

use crate::parts::write_list;
use crate::record::SiteRecord;
use fleet_trace::push_opening;
use serde_json::Value;
use std::alloc::{AllocError, Global};

/// Adds a text and the text of a value.
fn push_value(
    alloc: Global,
    text: &mut String,
    before: &str,
    value: &Value,
) -> Result<(), AllocError>
    ensures { OnOk result (has_float (view value.now) ≡ false → string_bytes text.new ≡ string_bytes text.old ++ (before.now ++ compact_text (view value.now))) }
{
    let written = value.to_string(alloc)?;
    text.push_str(before)?;
    text.push_str(written.as_str())
}

/// Adds the changes, the chapter's number and what was dropped.
fn push_lists(alloc: Global, text: &mut String, site: &SiteRecord) -> Result<(), AllocError>
    ensures { OnOk result (string_bytes text.new ≡ string_bytes text.old ++ lists_text (record_of site.now)) }
{
    let changes = write_list(alloc, &site.changes)?;
    push_value(alloc, text, "{\"changes\":", &changes)?;
    push_value(alloc, text, ",\"chapter\":", &Value::from(site.chapter))?;
    let dropped = write_list(alloc, &site.dropped)?;
    push_value(alloc, text, ",\"dropped\":", &dropped)
}

/// Adds the map's checksum, how each robot takes part, and the version of the form.
fn push_rest(alloc: Global, text: &mut String, site: &SiteRecord) -> Result<(), AllocError>
    ensures { OnOk result (string_bytes text.new ≡ string_bytes text.old ++ rest_text (record_of site.now)) }
{
    push_value(alloc, text, ",\"map\":", &Value::from(site.map))?;
    let standings = write_list(alloc, &site.standings)?;
    push_value(alloc, text, ",\"standings\":", &standings)?;
    text.push_str(",\"version\":1}")
}

/// The text of a record. The error is out of memory.
pub fn write_site(alloc: Global, site: &SiteRecord) -> Result<String, AllocError>
    ensures { IfOk result (λ s. string_bytes s ≡ record_text (record_of site.now)) }
{
    let mut text = String::new(alloc);
    push_lists(alloc, &mut text, site)?;
    text.push_str(",\"everyone\":")?;
    push_opening(alloc, &mut text, &site.everyone)?;
    push_rest(alloc, &mut text, site)?;
    Ok(text)
}
