//! Logs of executions.

ghost use Rattle.std.specs.Prelude.{◌≡◌, ◌++◌, true, IfOk, IfErr, codes, decimal, string_bytes};
ghost use Rattle.std.specs.List.{list_all};
ghost use Rattle.fleet_map.specs.Form.{HasSides};
ghost use Rattle.fleet_map.specs.Grammar.{view};
ghost use Rattle.fleet_view.specs.Runs.{runs_page};
ghost use Rattle.fleet_view.specs.Logs.{is_digit, is_small, is_log_byte, is_begun, is_log, log_run, IsLogPage, IsNoLogPage};

use crate::pair::RunFault;
use crate::runs::runs_page;
use fleet_map::{MapFault, MapText, read_map};
use std::alloc::{AllocError, Global};

fn is_digit(b: u8) -> bool
    ensures { result ≡ is_digit b }
{
    47 < b && b < 58
}

fn is_small(b: u8) -> bool
    ensures { result ≡ is_small b }
{
    96 < b && b < 123
}

fn is_log_byte(b: u8) -> bool
    ensures { result ≡ is_log_byte b }
{
    is_small(b) || is_digit(b) || b == b' ' || b == b'.' || b == b'-' || b == b'\n'
}

fn are_log_bytes(text: &[u8]) -> bool
    ensures { result ≡ list_all is_log_byte text.now }
{
    text.iter().all(|b| is_log_byte(*b))
}

fn is_begun(text: &[u8]) -> bool
    ensures { result ≡ is_begun text.now }
{
    match text.first() {
        Some(b) => *b == b'm' || is_digit(*b),
        None => false,
    }
}

/// Whether a text is taken for a log of an execution: it has small letters, digits, spaces, dots, hyphens and line ends
/// alone, and begins with `m`, as `move`, or with a digit, as a time.
pub fn is_log(text: &[u8]) -> bool
    ensures { result ≡ is_log text.now }
{
    is_begun(text) && are_log_bytes(text)
}

/// The line before a log of this length.
fn log_head(alloc: Global, long: usize) -> Result<String, AllocError>
    ensures { IfOk result (λ text. string_bytes text ≡ codes "log " ++ (decimal long ++ codes "\n")) }
{
    let text = format!(in alloc; "log {long}\n")?;
    Ok(text)
}

/// The text of a log.
pub(crate) fn log_run(alloc: Global, text: &[u8]) -> Result<Vec<u8>, AllocError>
    ensures { IfOk result (λ run. run.items ≡ log_run text.now) }
{
    let head = log_head(alloc, text.len())?;
    let mut out = Vec::from_slice(alloc, head.as_bytes())?;
    out.extend_from_slice(text)?;
    Ok(out)
}

/// The page of a log on a map that was read.
fn log_on(alloc: Global, floor: &MapText, text: &[u8]) -> Result<Vec<u8>, AllocError>
    requires { HasSides (view floor.now) }
    ensures { IfOk result (λ page. page.items ≡ runs_page (view floor.now) (log_run text.now)) }
{
    let made = log_run(alloc, text)?;
    runs_page(alloc, floor, &made)
}

/// The page of a log on a map. The log is shown as it is, whatever its lines say.
pub fn log_page(alloc: Global, bytes: &[u8], text: &[u8]) -> Result<Vec<u8>, RunFault>
    requires { is_log text.now ≡ true }
    ensures page { IfOk result (λ page. IsLogPage bytes.now text.now page.items) }
    ensures fault { IfErr result (IsNoLogPage bytes.now) }
{
    match read_map(alloc, bytes) {
        Ok(floor) => match log_on(alloc, &floor, text) {
            Ok(page) => Ok(page),
            Err(AllocError) => Err(RunFault::NoMemory),
        },
        Err(MapFault::NoMemory) => Err(RunFault::NoMemory),
        Err(fault) => Err(RunFault::Map(fault)),
    }
}
