//! What the program reads: files by their names, and standard input.

ghost use Rattle.std.specs.Prelude.{ℕ, List, Result};
ghost use Rattle.fleet_text.specs.declared.input.InputFault.{InputFault};
ghost use Rattle.errands_lib.specs.Inputs.{OpensBoth};

use fleet_text::InputFault;
use std::io::Read;

/// What the program reads from. `errands` has the files and the standard input of its process; a test has its own.
pub trait Inputs {
    type File: Read + Drop;

    type Input: Read + Drop;

    /// What is known of the inputs, a name and a result, if opening the file with this name gave the result.
    ghost opens: { Self → List ℕ → Result Self.File InputFault → Self → Type 0 };
    /// What is known of the inputs before, standard input, and the inputs after it was taken.
    ghost reads: { Self → Self.Input → Self → Type 0 };

    /// Opens the file of this name. `NoMemory` where memory ran out, `File` where it cannot be opened for any other
    /// reason.
    fn open(&mut self, name: &str) -> Result<Self::File, InputFault>
        ensures { opens self.old name.now result self.new };

    /// Standard input.
    fn input(&mut self) -> Self::Input
        ensures { reads self.old result self.new };
}

/// Opens two files in their order, the second only where the first could be.
pub(crate) fn open_both<I: Inputs>(
    inputs: &mut I,
    first: &str,
    second: &str,
) -> Result<(I::File, I::File), InputFault>
    ensures { OpensBoth I.opens first.now second.now inputs.old inputs.new result }
{
    let first = inputs.open(first)?;
    let second = inputs.open(second)?;
    Ok((first, second))
}
