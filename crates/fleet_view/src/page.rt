//! The page.

ghost use Rattle.std.specs.Prelude.{◌≡◌, ◌++◌, ◌*◌, length, map, OnOk, IfOk, string_bytes};
ghost use Rattle.fleet_map.specs.Form.{HasSides};
ghost use Rattle.fleet_map.specs.Grammar.{view};
ghost use Rattle.fleet_trace.specs.Trace.{trace_of};
ghost use Rattle.fleet_view.specs.declared.verdict.ChapterVerdict.TheVariants.{Illegal};
ghost use Rattle.fleet_view.specs.Page.{rows_text, chapters_text, page_text};
ghost use Rattle.fleet_view.specs.Verdicts.{verdict_text, verdicts_text};

use crate::ending::END;
use crate::frame::{HEAD, TRACES, VERDICTS};
use crate::script::TAIL;
use crate::verdict::ChapterVerdict;
use fleet_history::Chapter;
use fleet_map::MapText;
use fleet_trace::write_trace;
use std::alloc::{AllocError, Global};

/// The rows of a map, one line for each.
pub(crate) fn write_rows(
    out: &mut Vec<u8>,
    height: u32,
    width: u32,
    cells: &[u8],
) -> Result<(), AllocError>
    requires { length cells.now ≡ height * width }
    ensures { OnOk result (out.new.items ≡ out.old.items ++ rows_text height width cells.now) }
{
    let mut rest = cells;
    for row in 0..height {
        let (cut, after) = rest.split_at(width as usize);
        out.extend_from_slice(cut)?;
        out.push(b'\n')?;
        rest = after;
    }
    Ok(())
}

/// The line of a chapter whose entry `at` is the first that breaks a rule.
fn illegal_text(alloc: Global, at: u64, rule: u8) -> Result<String, AllocError>
    ensures { IfOk result (λ text. string_bytes text ≡ verdict_text (Illegal at rule)) }
{
    let text = format!(in alloc; "illegal {at} {rule}\n")?;
    Ok(text)
}

/// A verdict's line.
pub(crate) fn verdict_text(alloc: Global, verdict: ChapterVerdict) -> Result<String, AllocError>
    ensures { IfOk result (λ text. string_bytes text ≡ verdict_text verdict) }
{
    match verdict {
        ChapterVerdict::Legal => String::from_str(alloc, "legal\n"),
        ChapterVerdict::Illegal { at, rule } => illegal_text(alloc, at, rule),
    }
}

/// A line for each verdict.
fn write_verdicts(
    alloc: Global,
    out: &mut Vec<u8>,
    verdicts: &[ChapterVerdict],
) -> Result<(), AllocError>
    ensures { OnOk result (out.new.items ≡ out.old.items ++ verdicts_text verdicts.now) }
{
    for verdict in verdicts {
        let text = verdict_text(alloc, *verdict)?;
        out.extend_from_slice(text.as_bytes())?;
    }
    Ok(())
}

/// The text of each trace, one line for each.
fn write_chapters(alloc: Global, out: &mut Vec<u8>, chapters: &[Chapter]) -> Result<(), AllocError>
    ensures { OnOk result (out.new.items ≡ out.old.items ++ chapters_text (map trace_of chapters.now)) }
{
    for chapter in chapters {
        let text = write_trace(alloc, chapter)?;
        out.extend_from_slice(text.as_bytes())?;
        out.push(b'\n')?;
    }
    Ok(())
}

/// The page of a map and of chapters on it, with a verdict for each. The only error is that memory runs out.
pub fn page_of(
    alloc: Global,
    floor: &MapText,
    verdicts: &[ChapterVerdict],
    chapters: &[Chapter],
) -> Result<Vec<u8>, AllocError>
    requires { HasSides (view floor.now) }
    ensures { IfOk result (λ text. text.items ≡ page_text (view floor.now) verdicts.now (map trace_of chapters.now)) }
{
    let mut out = Vec::from_slice(alloc, HEAD.as_bytes())?;
    write_rows(&mut out, floor.height, floor.width, &floor.cells)?;
    out.extend_from_slice(VERDICTS.as_bytes())?;
    write_verdicts(alloc, &mut out, verdicts)?;
    out.extend_from_slice(TRACES.as_bytes())?;
    write_chapters(alloc, &mut out, chapters)?;
    out.extend_from_slice(TAIL.as_bytes())?;
    out.extend_from_slice(END.as_bytes())?;
    Ok(out)
}
