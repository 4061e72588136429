//! A sentence for each code. In it `#` stands for the first number of the fault, and `%` for the second.

ghost use Rattle.std.specs.Prelude.{◌≡◌, ◌≤◌, length};
ghost use Rattle.fleet_c.specs.Sentences.{call_text, fleet_text, open_text, step_text, trace_text, execution_text, shield_text, sentence_of};

/// What is wrong with a call, whatever it is.
fn call_text(code: u32) -> &'static str
    ensures text { result.now ≡ call_text code }
    ensures short { length result.now ≤ 120 }
{
    match code {
        0 => "done",
        1 => "out of memory",
        2 => "the handle is closed",
        3 => "the handle is open",
        4 => "there is no client of this number",
        5 => "there is no robot of this number",
        15 => "a list has not the length that the call asks for",
        16 => "a pointer is null",
        17 => "there is no kind of orders of this number",
        18 => "the cell is not roomy for the fleet's robots",
        _ => "the chapter has an entry: robots take turns from the beginning of a chapter on",
    }
}

/// What stands against a call, by the fleet.
fn fleet_text(code: u32) -> &'static str
    ensures text { result.now ≡ fleet_text code }
    ensures short { length result.now ≤ 120 }
{
    match code {
        6 => "the client's notices and unfinished errands leave no room for two more",
        7 => "the chapter has all the entries that it may have",
        8 => "all the ticks were made that may be made",
        9 => "the robot is shut already",
        10 => "this is the last chapter that there may be",
        11 => "all notices of the client were handed out",
        12 => "the mailbox cannot be made that large",
        13 => "the robot, or each robot, has no errand",
        _ => "the map has a bridge",
    }
}

/// Why no fleet is opened.
fn open_text(code: u32) -> &'static str
    ensures text { result.now ≡ open_text code }
    ensures short { length result.now ≤ 120 }
{
    match code {
        20 => {
            "the map: line # is missing or not in its form: the head is `type WORD`, `height N` and `width N`, and `map`"
        }
        21 => "the map: the height or the width is not from 1 to 1,024",
        22 => "the map: row # is missing or not as long as the width",
        23 => "the map: row #, column % has a byte that is no letter of a map",
        24 => "the map: line # comes after the last row and is not blank",
        30 => "a limit or the number of clients is out of its range",
        31 => "there are not 1 to 512 robots",
        32 => "robot # starts on a cell that is no floor",
        33 => "robots # and % both start on one cell",
        34 => {
            "the setup has not the size that this library reads: it was made with another header"
        }
        _ => "the rooms that were found on the map do not pass their checks: robots take no turns",
    }
}

/// What is wrong with a step, or with what is asked of a map.
fn step_text(code: u32) -> &'static str
    ensures text { result.now ≡ step_text code }
    ensures short { length result.now ≤ 120 }
{
    match code {
        40 => "more robots are named than the map has cells",
        41 => "before the step robot # is on no floor",
        42 => "before the step robots # and % are on one cell",
        43 => "the step has not a cell for each robot",
        44 => "robot # comes to no floor",
        45 => "robot # comes to a cell that is not next to its own",
        46 => "robots # and % come to one cell",
        47 => "robots # and % exchange their cells",
        48 => "the map has no bridge",
        _ => "the goal is no floor",
    }
}

/// Why no fleet goes on from a kept chapter.
fn trace_text(code: u32) -> &'static str
    ensures text { result.now ≡ trace_text code }
    ensures short { length result.now ≤ 120 }
{
    match code {
        50 => "the trace: it is not UTF-8, or not JSON, or nested deeper than 127",
        51 => "the trace: the number under `version` is not 1 or 2",
        52 => "the trace: it is JSON, but not in the form of a trace",
        53 => "the trace: entry # breaks rule %",
        54 => "the robots are not as many as the chapter's, or have other laws",
        55 => "the limits `queue` and `life` are not those of the chapter",
        56 => "within the limits no chapter follows",
        _ => "a robot has waited longer than it may",
    }
}

/// What an execution refuses.
fn execution_text(code: u32) -> &'static str
    ensures text { result.now ≡ execution_text code }
    ensures short { length result.now ≤ 120 }
{
    match code {
        60 => "there is no clearance of this number",
        61 => "the window of the execution has no step",
        62 => "two robots stand on one cell, or one stands on no cell of the map",
        63 => "a move is not reached that lies as many steps before the next one as the window has",
        64 => "the cells are no step, free of conflicts, from the placement that was planned last",
        65 => "no move may begin",
        _ => "the robot is not under way",
    }
}

/// What a shield refuses.
fn shield_text(code: u32) -> &'static str
    ensures text { result.now ≡ shield_text code }
    ensures short { length result.now ≤ 120 }
{
    match code {
        70 => "the map has another number of cells than the shield was made for",
        71 => "a list is not as long as the shield's number of robots asks",
        72 => "robot # stands beyond the map",
        73 => "robot # stands on a wall",
        74 => "robots # and % stand on one cell",
        75 => "place # of the order names no robot",
        76 => "place # of the order names a robot again",
        _ => "preference % of robot # is neither its cell nor next to it",
    }
}

/// The sentence for a code.
pub(crate) fn sentence_of(code: u32) -> &'static str
    ensures text { result.now ≡ sentence_of code }
    ensures short { length result.now ≤ 120 }
{
    if code < 6 || (15 <= code && code < 20) {
        call_text(code)
    } else if code < 15 {
        fleet_text(code)
    } else if (20 <= code && code < 25) || (30 <= code && code < 36) {
        open_text(code)
    } else if 40 <= code && code < 50 {
        step_text(code)
    } else if 50 <= code && code < 58 {
        trace_text(code)
    } else if 60 <= code && code < 67 {
        execution_text(code)
    } else if 70 <= code && code < 78 {
        shield_text(code)
    } else {
        "there is no such code"
    }
}
