//! A small site, and the texts of what its fleet goes on with.

use fleet_history::Chapter;
use fleet_map::read_map;
use fleet_refit::{AfterFault, Change, Refit, RefitFault, Site};
use fleet_trace::{push_opening, read_trace};
use std::alloc::{Alloc, AllocError, Global};
use std::process::Abort;

/// A ring of eight cells round a wall: robot 0 on cell 0, robot 1 on cell 6, robot 2 on cell 2.
const MAP: &str = "type octile\nheight 3\nwidth 3\nmap\n...\n.@.\n...\n";

/// After seven ticks, robot 0 has waited three for cell 8 and goes to cell 2 after it; robot 1 has waited one for cell 0.
const OPENING: &str =
    "{\"chapter\":1,\"entries\":[],\"opening\":{\"clients\":[[3,3,3,false]],\"life\":100,\"queue\":4,\"robots\":[[0,false,3,[[0,1,8],[0,2,2]],[0,0],[0,0]],[6,false,1,[[0,3,0]],[0,0],[0,0]],[2,false,null,[],[0,0],[0,0]]],\"tick\":7},\"version\":2}";

/// The site of that map and that opening.
pub(crate) fn site(rt: &(impl Alloc<A = Global> + Abort)) -> Site {
    let map = read_map(rt.alloc(), MAP.as_bytes()).expect(rt, "a map");
    let chapter = read_trace(rt.alloc(), OPENING.as_bytes()).expect(rt, "a trace");
    assert!(rt; chapter.opening.robots.len() == 3);
    Site::new(map, &chapter.opening).expect(rt, "memory for a site")
}

/// What the site is after these changes.
pub(crate) fn refit_of(
    rt: &(impl Alloc<A = Global> + Abort),
    site: &Site,
    changes: &[Change],
) -> Refit {
    site.refit(rt.alloc(), changes)
        .expect(rt, "changes that can be made")
}

/// Why the changes are not made.
pub(crate) fn fault_of(
    rt: &(impl Alloc<A = Global> + Abort),
    site: &Site,
    changes: &[Change],
) -> Option<RefitFault> {
    match site.refit(rt.alloc(), changes) {
        Ok(_refit) => None,
        Err(fault) => Some(fault),
    }
}

/// The opening that the fleet goes on with.
pub(crate) fn opening_of(rt: &(impl Alloc<A = Global> + Abort), refit: &Refit) -> String {
    let mut text = String::new(rt.alloc());
    push_opening(rt.alloc(), &mut text, &refit.opening).expect(rt, "memory for a text");
    text
}

/// Writes a chapter without entries that begins with the opening of that text.
fn write_chapter(text: &mut String, opening: &str) -> Result<(), AllocError> {
    text.push_str("{\"chapter\":1,\"entries\":[],\"opening\":")?;
    text.push_str(opening)?;
    text.push_str(",\"version\":2}")
}

/// A chapter that begins with the opening of that text.
fn chapter_from(rt: &(impl Alloc<A = Global> + Abort), opening: &str) -> Chapter {
    let mut text = String::new(rt.alloc());
    write_chapter(&mut text, opening).expect(rt, "memory for a text");
    read_trace(rt.alloc(), text.as_bytes()).expect(rt, "a trace")
}

/// The site once its fleet has come to that opening.
pub(crate) fn after_of(rt: &(impl Alloc<A = Global> + Abort), site: &Site, opening: &str) -> Site {
    let chapter = chapter_from(rt, opening);
    site.after(rt.alloc(), &chapter.opening)
        .expect(rt, "as many robots as move")
}

/// Why the site does not go on from that opening.
pub(crate) fn after_fault(
    rt: &(impl Alloc<A = Global> + Abort),
    site: &Site,
    opening: &str,
) -> Option<AfterFault> {
    let chapter = chapter_from(rt, opening);
    match site.after(rt.alloc(), &chapter.opening) {
        Ok(_site) => None,
        Err(fault) => Some(fault),
    }
}
