//! Lines that tell nothing.

use fleet_journal::{JournalFault, read_journal};
use std::alloc::Global;

const NO_VERSION: &str =
    "{\"chapter\":3,\"opening\":{\"clients\":[[0,0,0,false]],\"life\":9,\"queue\":1,\"robots\":[[0,false,null,[],[0,0],[0,9]]],\"tick\":5}}\n";

const FIRST_VERSION: &str =
    "{\"chapter\":3,\"opening\":{\"clients\":[[0,0,0,false]],\"life\":9,\"queue\":1,\"robots\":[[0,false,null,[],[0,0],[0,9]]],\"tick\":5},\"version\":1}\n";

const CUT_ENTRY: &str =
    "{\"chapter\":3,\"opening\":{\"clients\":[[0,0,0,false]],\"life\":9,\"queue\":1,\"robots\":[[0,false,null,[],[0,0],[0,9]]],\"tick\":5},\"version\":2}\n[\"shut\",0,7]\n[\"shut\",1\n[\"shut\",2,7]\n";

const BLANK_LINE: &str =
    "{\"chapter\":3,\"opening\":{\"clients\":[[0,0,0,false]],\"life\":9,\"queue\":1,\"robots\":[[0,false,null,[],[0,0],[0,9]]],\"tick\":5},\"version\":2}\n\n";

/// Why these bytes are no journal.
fn fault_of(alloc: Global, bytes: &[u8]) -> Option<JournalFault> {
    match read_journal(alloc, bytes) {
        Ok(_journal) => None,
        Err(fault) => Some(fault),
    }
}

#[test]
fn lines_that_open_nothing(rt: HostRuntime) {
    assert!(rt; fault_of(rt.alloc(), b"") == Some(JournalFault::Empty));
    assert!(rt; fault_of(rt.alloc(), b"{}") == Some(JournalFault::Empty));
    assert!(rt; fault_of(rt.alloc(), b"{}\n") == Some(JournalFault::Opening));
    assert!(rt; fault_of(rt.alloc(), b"\n") == Some(JournalFault::Opening));
    assert!(rt; fault_of(rt.alloc(), NO_VERSION.as_bytes()) == Some(JournalFault::Opening));
    assert!(rt; fault_of(rt.alloc(), FIRST_VERSION.as_bytes()) == Some(JournalFault::Opening));
}

#[test]
fn lines_that_are_no_entries(rt: HostRuntime) {
    assert!(rt; fault_of(rt.alloc(), CUT_ENTRY.as_bytes()) == Some(JournalFault::Entry(1)));
    assert!(rt; fault_of(rt.alloc(), BLANK_LINE.as_bytes()) == Some(JournalFault::Entry(0)));
}
