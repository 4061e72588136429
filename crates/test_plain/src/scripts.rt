//! Scripts, bundles and their faults.

use fleet_book::{Event, Order};
use fleet_script::{EventLine, Repeat, Script, ScriptFault, event_line, read_script, split_bundle};
use std::alloc::Global;
use std::process::Abort;

/// The events of a script of each line.
const EACH: [Event; 6] = [
    Event::Post(1, Order::Go { robot: 0, cell: 7 }),
    Event::Take(1),
    Event::Tick,
    Event::Tick,
    Event::Give(1),
    Event::Collect(1),
];

fn check_each_line(rt: &impl Abort, script: &Script) {
    assert!(rt; script.starts.as_slice() == [0, 2].as_slice());
    assert!(rt; [script.clients, script.limits.lane, script.limits.queue] == [2, 3, 16]);
    assert!(rt; script.lines.as_slice() == [6, 7, 8, 8, 9, 10].as_slice());
    assert!(rt; script.events.as_slice() == EACH.as_slice());
}

#[test]
fn script_of_each_line(rt: HostRuntime) {
    let text =
        b"# a comment\n\n robots 0 2\t\nclients 2\r\nlane 3\npost 1 go 0 7\ntake 1\ntick 2\ngive 1\ncollect 1";
    let script = read_script(rt.alloc(), text).expect(&rt, "a script");
    check_each_line(&rt, &script);
}

/// The events of a script of closing lines.
const CLOSING: [Event; 2] = [Event::Post(1, Order::Close), Event::Shut(3)];

fn check_closing_lines(rt: &impl Abort, script: &Script) {
    assert!(rt; script.south);
    assert!(rt; script.events.as_slice() == CLOSING.as_slice());
}

#[test]
fn script_of_closing_lines(rt: HostRuntime) {
    let text = b"ties south\nrobots 0\npost 1 close\nshut 3\n";
    let script = read_script(rt.alloc(), text).expect(&rt, "a script");
    check_closing_lines(&rt, &script);
}

const TICKS: Repeat = Repeat {
    event: Event::Tick,
    times: 3,
};

const POST: Repeat = Repeat {
    event: Event::Post(1, Order::Go { robot: 0, cell: 7 }),
    times: 1,
};

/// Lines, and what each is: which may follow a head, and which may not.
const LINES: [(&[u8], EventLine); 6] = [
    (b"tick 3", EventLine::Events(TICKS)),
    (b"post 1 go 0 7", EventLine::Events(POST)),
    (b" \t", EventLine::Nothing),
    (b"# tick", EventLine::Nothing),
    (b"tick 0", EventLine::Other),
    (b"robots 0", EventLine::Other),
];

/// Lines read one by one, as a conversation reads them.
#[test]
fn lines_one_by_one(rt: HostRuntime) {
    for (line, found) in LINES {
        assert!(rt; event_line(line) == found);
    }
}

/// The faults of scripts and lanes as they are printed.
#[test]
fn faults_in_words(rt: HostRuntime) {
    let fault = format!(in rt.alloc(); "{}", ScriptFault::Line(3)).expect(&rt, "memory");
    assert!(rt; fault.as_str() == "line 3 may not stand where it does");
}

/// The line at which a script is refused.
fn refused_at(alloc: Global, text: &[u8]) -> Option<u32> {
    if text.len() > 16_777_216 {
        return None;
    }
    match read_script(alloc, text) {
        Err(ScriptFault::Line(line)) => Some(line),
        _ => None,
    }
}

/// Scripts, and the line at which each is refused.
const FAULTS: [(&[u8], Option<u32>); 10] = [
    (b"", Some(1)),
    (b"robots 0\ntick 0\n", Some(2)),
    (b"robots 0\ntick 1000001\n", Some(2)),
    (b"robots 0\nlife 111111111111111111111\n", Some(2)),
    (b"robots 0\nlife 18446744073709551616\n", Some(2)),
    (b"tick\nrobots 0\n", Some(2)),
    (
        b"robots 1 2 3 4 5 6 7 8 9 10 11 12 13 14 15 16 17\n",
        Some(1),
    ),
    (b"robots 0\nrobots 1\n", Some(2)),
    (b"robots 4294967296\n", Some(1)),
    (b"robots 0\n#\nwait\n", Some(3)),
];

/// Scripts of closing lines, and the line at which each is refused; `None` if it is read.
const CLOSING_FAULTS: [(&[u8], Option<u32>); 11] = [
    (b"ties south\nties plain\n", Some(2)),
    (b"ties east\nrobots 0\n", Some(1)),
    (b"robots 0\npost 0 close 0\n", Some(2)),
    (b"robots 0\npost 0 withdraw\n", Some(2)),
    (b"robots 0\npost 0 withdraw 1 2\n", Some(2)),
    (b"robots 0\npost 0 withdraw 18446744073709551615\n", None),
    (b"robots 0\nturns 1000000\n", None),
    (b"robots 0\nturns 0\n", Some(2)),
    (b"robots 0\nturns 1000001\n", Some(2)),
    (b"turns 1\nturns 1\n", Some(2)),
    (b"robots 0\nshut\n", Some(2)),
];

fn check_faults(rt: &impl Abort, alloc: Global, texts: &[(&[u8], Option<u32>)]) {
    for at in 0..texts.len() {
        let (text, line) = texts[at];
        assert!(rt; refused_at(alloc, text) == line);
    }
}

#[test]
fn script_faults(rt: HostRuntime) {
    check_faults(&rt, rt.alloc(), &FAULTS);
}

#[test]
fn faults_of_closing_lines(rt: HostRuntime) {
    check_faults(&rt, rt.alloc(), &CLOSING_FAULTS);
}

#[test]
fn bundle_in_two(rt: HostRuntime) {
    assert!(rt; split_bundle(b"a\r\nscript\r\nb") == Ok((b"a\r\n".as_slice(), b"b".as_slice())));
    assert!(rt; split_bundle(b"a\n script\nb\n") == Err(4));
    assert!(rt; split_bundle(b"") == Err(1));
}
