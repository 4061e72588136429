//! The texts of records.

use fleet_grid::Grid;
use fleet_map::read_map;
use fleet_site::{SiteFault, SiteRecord, checksum, read_site, write_site};
use std::alloc::{Alloc, AllocError, Global};
use std::process::Abort;

/// Cell 8 became a wall, so robot 0's errand to it was dropped, and robot 1 is held.
pub(crate) const HELD: &str =
    "{\"changes\":[[\"block\",8],[\"hold\",1]],\"chapter\":2,\"dropped\":[[0,0,1,8]],\"everyone\":{\"clients\":[[3,3,3,false]],\"life\":100,\"queue\":4,\"robots\":[[0,false,0,[[0,2,2]],[0,0],[0,0]],[6,false,1,[[0,3,0]],[0,0],[0,0]],[2,false,null,[],[0,0],[0,0]]],\"tick\":7},\"map\":8628027799973768,\"standings\":[\"moving\",\"held\",\"moving\"],\"version\":1}";

/// Then robot 1 was let go, robot 3 came to cell 7, robot 0 left with errand 2, and errand 3 was cancelled.
pub(crate) const AGAIN: &str =
    "{\"changes\":[[\"free\",1],[\"join\",7,[0,0],[0,0]],[\"leave\",0],[\"cancel\",0,3]],\"chapter\":3,\"dropped\":[[0,0,2,2],[1,0,3,0]],\"everyone\":{\"clients\":[[3,3,3,false]],\"life\":100,\"queue\":4,\"robots\":[[0,false,null,[],[0,0],[0,0]],[6,false,null,[],[0,0],[0,0]],[2,false,null,[],[0,0],[0,0]],[7,false,null,[],[0,0],[0,0]]],\"tick\":7},\"map\":8628027800039817,\"standings\":[\"gone\",\"moving\",\"moving\",\"moving\"],\"version\":1}";

/// The record of a text.
pub(crate) fn record_of(rt: &(impl Alloc<A = Global> + Abort), text: &str) -> SiteRecord {
    read_site(rt.alloc(), text.as_bytes()).expect(rt, "a record")
}

/// The text with other words in place of these.
fn changed(alloc: Global, text: &str, old: &str, new: &str) -> Result<String, AllocError> {
    let mut changed = String::new(alloc);
    if let Some((before, after)) = text.split_once(old) {
        changed.push_str(before)?;
        changed.push_str(new)?;
        changed.push_str(after)?;
    }
    Ok(changed)
}

/// Why a record is none once words in it were changed.
fn fault_of(rt: &(impl Alloc<A = Global> + Abort), old: &str, new: &str) -> Option<SiteFault> {
    let text = changed(rt.alloc(), AGAIN, old, new).expect(rt, "memory for a text");
    match read_site(rt.alloc(), text.as_bytes()) {
        Ok(_record) => None,
        Err(fault) => Some(fault),
    }
}

/// The checksum of a map.
fn sum_of(rt: &(impl Alloc<A = Global> + Abort), text: &str) -> u64 {
    let map = read_map(rt.alloc(), text.as_bytes()).expect(rt, "a map");
    checksum(&Grid::new(map).expect(rt, "memory for a map"))
}

#[test]
fn what_is_read_is_written(rt: HostRuntime) {
    for text in [HELD, AGAIN] {
        let record = record_of(&rt, text);
        let again = write_site(rt.alloc(), &record).expect(&rt, "memory for a text");
        assert!(rt; again.as_str() == text);
    }
}

#[test]
fn texts_that_tell_no_record(rt: HostRuntime) {
    assert!(rt; fault_of(&rt, "\"version\":1", "\"version\":2") == Some(SiteFault::Shape));
    assert!(rt; fault_of(&rt, ",\"version\":1", "") == Some(SiteFault::Shape));
    assert!(rt; fault_of(&rt, "\"gone\"", "\"left\"") == Some(SiteFault::Shape));
    assert!(rt; fault_of(&rt, "[\"leave\",0]", "[\"leave\"]") == Some(SiteFault::Shape));
    assert!(rt; fault_of(&rt, "[1,0,3,0]", "[1,0,3]") == Some(SiteFault::Shape));
    assert!(rt; fault_of(&rt, "}", "") == Some(SiteFault::Shape));
    assert!(rt; fault_of(&rt, "\"version\":1", " \"version\" : 1 ") == None);
}

/// By hand, the sum of the sides is 65,537 times the height and the width; with each cell it is 257 times itself and 2 for floor,
/// 1 for a wall, modulo 9,007,199,254,740,881.
#[test]
fn checksums(rt: HostRuntime) {
    assert!(rt; sum_of(&rt, "type octile\nheight 1\nwidth 3\nmap\n...\n") == 1112514957834);
    assert!(rt; sum_of(&rt, "type octile\nheight 1\nwidth 2\nmap\nG@\n") == 4328785926);
}
