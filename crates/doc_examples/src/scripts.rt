//! A caller of `fleet_script`.

ghost use Rattle.std.specs.Prelude.{◌≡◌, ◌≤◌, IfOk, length};
ghost use Rattle.fleet_script.specs.Script.{Plan};
ghost use Rattle.fleet_script.specs.Grammar.{IsScript, lines_in};

use fleet_script::{ScriptFault, read_script};
use std::alloc::Global;

/// The number of robots that a script has, from its text.
pub fn robots_in(alloc: Global, text: &[u8]) -> Result<usize, ScriptFault>
    requires { length text.now ≤ 16777216 }
    ensures { IfOk result (λ robots. (p : Plan) × IsScript (lines_in text.now) p × (robots ≡ length p.starts)) }
{
    let script = read_script(alloc, text)?;
    Ok(script.starts.len())
}
