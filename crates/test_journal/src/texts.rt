//! Journals that are written and read.

use fleet_history::Chapter;
use fleet_journal::{push_entries, push_head, read_journal};
use fleet_trace::{read_trace, write_trace};
use std::alloc::Global;
use std::process::Abort;

/// A chapter as a trace.
pub(crate) const TRACE: &str =
    "{\"chapter\":3,\"entries\":[[\"take\",0,[\"go\",0,1],[\"accepted\",1]],[\"tick\",[1],[[0,0,1,0]],[]],[\"shut\",0,7]],\"opening\":{\"clients\":[[0,0,0,false]],\"life\":1000000,\"queue\":16,\"robots\":[[0,false,null,[],[0,0],[0,9]]],\"tick\":5},\"version\":2}";

/// The same chapter as a journal.
pub(crate) const JOURNAL: &str =
    "{\"chapter\":3,\"opening\":{\"clients\":[[0,0,0,false]],\"life\":1000000,\"queue\":16,\"robots\":[[0,false,null,[],[0,0],[0,9]]],\"tick\":5},\"version\":2}\n[\"take\",0,[\"go\",0,1],[\"accepted\",1]]\n[\"tick\",[1],[[0,0,1,0]],[]]\n[\"shut\",0,7]\n";

/// The chapter's journal.
fn journal_of(rt: &impl Abort, alloc: Global, chapter: &Chapter) -> String {
    let mut text = String::new(alloc);
    push_head(alloc, &mut text, chapter.number, &chapter.opening).expect(rt, "memory for a head");
    push_entries(alloc, &mut text, chapter.entries.as_slice()).expect(rt, "memory for entries");
    text
}

#[test]
fn a_chapter_is_written_line_by_line(rt: HostRuntime) {
    let chapter = read_trace(rt.alloc(), TRACE.as_bytes()).expect(&rt, "a trace");
    let text = journal_of(&rt, rt.alloc(), &chapter);
    assert!(rt; text.as_str() == JOURNAL);
}

#[test]
fn a_journal_is_read_as_its_chapter(rt: HostRuntime) {
    let journal = read_journal(rt.alloc(), JOURNAL.as_bytes()).expect(&rt, "a journal");
    assert!(rt; journal.cut == 0);
    let text = write_trace(rt.alloc(), &journal.chapter).expect(&rt, "memory for a trace");
    assert!(rt; text.as_str() == TRACE);
}
