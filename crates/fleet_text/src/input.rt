//! Reads whole files.

ghost use Rattle.std.specs.Prelude.{◌≡◌, ◌≤◌, ◌<◌, ◌^◌, vec_len, IfOk, IfSome};
ghost use Rattle.fleet_text.specs.Transfer.{bytes_of};

use std::alloc::{AllocError, Allocator};
use std::io::Read;

/// The greatest length of a file of `errands`.
const MOST_BYTES: usize = 16_777_216;

/// Why a file could not be read.
#[derive(Clone, Copy, Debug, PartialEq, Eq)]
pub enum InputFault {
    /// It could not be opened, a read failed, or it is too long.
    File,
    NoMemory,
}

impl From<AllocError> for InputFault {
    ghost use Rattle.std.specs.Prelude.{◌≡◌};
    ghost use Rattle.fleet_text.specs.declared.input.InputFault.TheVariants.{NoMemory};

    ghost from_gives = { λ _ e. e ≡ NoMemory };

    fn from(_error: AllocError) -> InputFault {
        InputFault::NoMemory
    }
}

/// Everything that the reader has. More than `most` bytes are the fault `File`.
pub fn read_up_to<A: Allocator + Copy, R: Read>(
    alloc: A,
    reader: &mut R,
    most: usize,
) -> Result<Vec<u8, A>, InputFault>
    requires { most < 2 ^ 32 }
    ensures whole { IfOk result (λ bytes. IfSome (R.remaining reader.old) (λ all. bytes.items ≡ all)) }
    ensures short { IfOk result (λ bytes. vec_len bytes ≤ most) }
{
    let mut bytes = Vec::new(alloc);
    let mut piece = [0u8; 4096];
    while bytes.len() <= most {
        match reader.read(&mut piece) {
            Err(_) => return Err(InputFault::File),
            Ok(0) => return Ok(bytes),
            Ok(count) => {
                if bytes.extend_from_slice(&piece[..count]).is_err() {
                    return Err(InputFault::NoMemory);
                }
            }
        }
    }
    Err(InputFault::File)
}

/// Everything that the reader has. More than 16,777,216 bytes are the fault `File`.
pub fn read_whole<A: Allocator + Copy, R: Read>(
    alloc: A,
    reader: &mut R,
) -> Result<Vec<u8, A>, InputFault>
    ensures whole { IfOk result (λ bytes. IfSome (R.remaining reader.old) (λ all. bytes.items ≡ all)) }
    ensures short { IfOk result (λ bytes. vec_len bytes ≤ 16777216) }
{
    read_up_to(alloc, reader, MOST_BYTES)
}

/// Everything that a second reader has, at most 16,777,216 bytes; nothing if there is none.
pub fn read_other<A: Allocator + Copy, R: Read>(
    alloc: A,
    reader: Option<&mut R>,
) -> Result<Vec<u8, A>, InputFault>
    ensures whole { IfOk result (λ bytes. IfSome (bytes_of R.remaining reader.entry) (λ all. bytes.items ≡ all)) }
    ensures short { IfOk result (λ bytes. vec_len bytes ≤ 16777216) }
{
    match reader {
        Some(reader) => read_whole(alloc, reader),
        None => Ok(Vec::new(alloc)),
    }
}
