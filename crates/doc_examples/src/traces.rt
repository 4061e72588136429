//! A caller of `fleet_trace`.

ghost use Rattle.std.specs.Prelude.{◌≡◌, ℕ, false, IfOk, IsTrue};
ghost use Rattle.std.specs.declared.alloc.Global.{Global};
ghost use Rattle.fleet_history.specs.Legal.{IsLegal};
ghost use Rattle.fleet_trace.specs.Judged.{IsFirstIllegal};
ghost use Rattle.fleet_trace.specs.Reads.{Tells};
ghost use Rattle.fleet_trace.specs.Trace.{Trace};

use fleet_grid::Grid;
use fleet_trace::{JudgeFault, TraceFault, judge, read_trace};
use std::alloc::Global;

/// Whether the text of a trace is a legal history on a map.
pub fn is_legal(alloc: Global, grid: &Grid, text: &[u8]) -> Result<bool, TraceFault>
    ensures legal { IfOk result (λ legal. IsTrue legal → (t : Trace Global) × Tells text.now t × IsLegal grid.now t.history) }
    ensures illegal { IfOk result (λ legal. legal ≡ false → (t : Trace Global) × Tells text.now t × (at : ℕ) × (rule : ℕ) × IsFirstIllegal grid.now t.history at rule) }
{
    let chapter = read_trace(alloc, text)?;
    match judge(alloc, grid, &chapter) {
        Ok(()) => Ok(true),
        Err(JudgeFault::Illegal { at: _, rule: _ }) => Ok(false),
        Err(JudgeFault::NoMemory) => Err(TraceFault::NoMemory),
    }
}
