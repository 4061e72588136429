//! A caller of `fleet_view`.

ghost use Rattle.std.specs.Prelude.{◌∷◌, [], IfOk};
ghost use Rattle.fleet_view.specs.View.{IsPage};

use fleet_view::{ViewFault, view_page};
use std::alloc::Global;

/// The page that replays one trace on a map.
pub fn page_of(alloc: Global, map: &[u8], trace: Vec<u8>) -> Result<Vec<u8>, ViewFault>
    ensures { IfOk result (λ page. IsPage map.now (trace.items ∷ []) page.items) }
{
    view_page(alloc, map, &[trace])
}
