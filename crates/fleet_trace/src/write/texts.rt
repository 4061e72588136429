//! Texts of JSON values, added to a text one after the other.

ghost use Rattle.std.specs.Prelude.{◌≡◌, ◌++◌, Bool, false, map, OnOk, string_bytes};
ghost use Rattle.std.specs.List.{AllByRecursion};
ghost use Rattle.serde_json.specs.View.{items_of, view};
ghost use Rattle.serde_json.specs.Written.{comma_if, compact_text, has_float, items_text};

use super::values::WriteValue;
use serde_json::Value;
use std::alloc::{AllocError, Global};

/// Adds the text of a value.
pub(crate) fn push_value(alloc: Global, text: &mut String, value: &Value) -> Result<(), AllocError>
    ensures { OnOk result (has_float (view value.now) ≡ false
        → string_bytes text.new ≡ string_bytes text.old ++ compact_text (view value.now)) }
{
    let written = value.to_string(alloc)?;
    text.push_str(written.as_str())
}

/// A comma where something stands before.
fn comma(later: bool) -> &'static str
    ensures { result.now ≡ comma_if later }
{
    if later { "," } else { "" }
}

/// Adds the text of an item of a list, after a comma where it is not the first.
fn push_item<T: WriteValue>(
    alloc: Global,
    text: &mut String,
    later: bool,
    item: &T,
) -> Result<(), AllocError>
    ensures text { OnOk result (has_float (T.written item.now) ≡ false
        → string_bytes text.new ≡ string_bytes text.old ++ (comma_if later ++ compact_text (T.written item.now))) }
    ensures fits { OnOk result (T.fits item.now) }
{
    text.push_str(comma(later))?;
    let value = item.write_value(alloc)?;
    push_value(alloc, text, &value)
}

/// Adds the texts of the items, with a comma between two, and the bracket that ends their list. One item at a time
/// stands in memory as a value.
pub(crate) fn push_items<T: WriteValue>(
    alloc: Global,
    text: &mut String,
    items: &[T],
) -> Result<(), AllocError>
    ensures text { OnOk result (((x : _) → has_float (T.written x) ≡ false)
        → string_bytes text.new ≡ string_bytes text.old ++ items_text false (items_of (map T.written items.now))) }
    ensures fits { OnOk result (AllByRecursion T.fits items.now) }
{
    let mut later = false;
    for item in items {
        push_item(alloc, text, later, item)?;
        later = true;
    }
    text.push_str("]")
}
