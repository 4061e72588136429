//! A journal that is cut after each of its bytes.

use crate::texts::JOURNAL;
use fleet_journal::{JournalFault, read_journal};

/// How many line feeds the bytes have.
fn feeds_in(bytes: &[u8]) -> usize {
    let mut count = 0;
    for byte in bytes {
        if *byte == b'\n' {
            count = usize::saturating_add(count, 1);
        }
    }
    count
}

/// How many bytes follow the last line feed.
fn after_feeds(bytes: &[u8]) -> usize {
    let mut count = 0;
    for byte in bytes {
        count = if *byte == b'\n' {
            0
        } else {
            usize::saturating_add(count, 1)
        };
    }
    count
}

#[test]
fn a_journal_may_be_cut_anywhere(rt: HostRuntime) {
    let bytes = JOURNAL.as_bytes();
    for end in 0..=bytes.len() {
        let cut = &bytes[..end];
        match read_journal(rt.alloc(), cut) {
            Ok(journal) => {
                assert!(rt; journal.chapter.entries.len() + 1 == feeds_in(cut));
                assert!(rt; journal.cut == after_feeds(cut));
            }
            Err(fault) => {
                assert!(rt; fault == JournalFault::Empty);
                assert!(rt; feeds_in(cut) == 0);
            }
        }
    }
}
