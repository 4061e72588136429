//! Sentences that say what is at fault in a map and a script. Each names the fault that the grammar has there.

use fleet_explain::{Explanation, explain_head, explain_map, explain_script};
use std::alloc::{AllocError, Global};

/// A ring of eight cells.
pub(crate) const MAP: &str = "type octile\nheight 3\nwidth 3\nmap\n...\n.@.\n...\n";

/// The sentence about the script.
fn on_script(alloc: Global, script: &str) -> Result<String, AllocError> {
    if script.len() > 4096 {
        return Err(AllocError);
    }
    let explanation: Explanation = explain_script(alloc, MAP.as_bytes(), script.as_bytes())?;
    format!(in alloc; "{explanation}")
}

/// Whether the sentence on the script has these words.
fn says(alloc: Global, script: &str, words: &str) -> bool {
    match on_script(alloc, script) {
        Ok(sentence) => sentence.contains(words),
        Err(AllocError) => false,
    }
}

/// Whether the sentence on the header lines of a conversation is this one.
fn says_of_head(alloc: Global, head: &str, sentence: &str) -> bool {
    if head.len() > 4096 {
        return false;
    }
    let Ok(explanation) = explain_head(alloc, MAP.as_bytes(), head.as_bytes()) else {
        return false;
    };
    match format!(in alloc; "{explanation}") {
        Ok(text) => text.as_str() == sentence,
        Err(AllocError) => false,
    }
}

#[test]
fn heads_are_explained(rt: HostRuntime) {
    let alloc = rt.alloc();
    assert!(rt; says_of_head(alloc, "robots 0 8\nclients 2\n", "all in order"));
    assert!(rt;
        says_of_head(
            alloc,
            "clients 2\n",
            "all in order for `talk`, whose conversation has to give a line `robots CELL ..`; `live` needs it here"
        )
    );
    assert!(rt;
        says_of_head(
            alloc,
            "robots 0 8\n\npost 0 go 0 2\n",
            "the header lines: line 3: it is an event line, which belongs in the conversation and not in this file"
        )
    );
    assert!(rt;
        says_of_head(
            alloc,
            "clients 2\nclients 2\n",
            "the header lines: line 2: a line with the same first word stands above it, and one is allowed"
        )
    );
    assert!(rt;
        says_of_head(
            alloc,
            "robots 0 1 2 3 5 6 7 8 0 1 2 3 5 6 7 8 0\n",
            "the header lines: in its line `robots`, robots 0 and 8 both start on cell 0 (row 0, column 0)"
        )
    );
}

#[test]
fn scripts_are_explained(rt: HostRuntime) {
    let alloc = rt.alloc();
    let served = "robots 0 8\nclients 2\npost 1 go 0 1\ncollect 0\n";
    assert_eq!(rt;
        on_script(alloc, served).expect(&rt, "memory").as_str(),
        "all in order"
    );
    assert!(rt;
        says(
            alloc,
            "robots 0 8\npost 0 close\n\npost 1 close\n",
            "all in order for `run`; `serve` does not take line 4, which is no post or collect of a client below 1"
        )
    );
    assert!(rt; says(alloc, "robots 0 8\ntick\n", "does not take line 2"));
    assert!(rt; says(alloc, "robots 0 8\nteleport 3\n", "line 2"));
    assert!(rt; says(alloc, "clients 1\n", "robots"));
    assert!(rt;
        says(
            alloc,
            "robots 0 4\n",
            "robot 1 starts on cell 4 (row 1, column 1)"
        )
    );
    assert!(rt; says(alloc, "robots 0\nlane 0\ntick\n", "lane is 0"));
    assert!(rt;
        says(
            alloc,
            "robots 99999\n",
            "in its line `robots`, robot 0 starts on cell 99999, which is outside of the map: its cells are below 9"
        )
    );
}

#[test]
fn maps_are_explained(rt: HostRuntime) {
    let alloc = rt.alloc();
    let map = "type octile\nheight 1\nwidth 3\nmap\n..x\n";
    let explanation = explain_map(alloc, map.as_bytes()).expect(&rt, "memory");
    let sentence = format!(in alloc; "{explanation}").expect(&rt, "memory");
    assert!(rt; sentence.contains("row 0, column 2 has `x`"));
    let escape = "type octile\nheight 1\nwidth 3\nmap\n..\x1b\n";
    let explanation = explain_map(alloc, escape.as_bytes()).expect(&rt, "memory");
    let sentence = format!(in alloc; "{explanation}").expect(&rt, "memory");
    assert!(rt; sentence.contains("column 2 has byte 27, which"));
}
