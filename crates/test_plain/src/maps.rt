//! Maps worked out by hand, the corners of the grammar, and each allocation refused in turn.

use fleet_map::text::{first_line, first_word, is_blank_byte, number_up_to, trimmed_line};
use fleet_map::{MOST_SIDE, MapFault, read_map};
use std::alloc::{AllocError, Allocator, Global};
use std::fmt::Write;
use std::process::Abort;
use test_kit::Refusing;

/// Maps that are read: the text, the height, the width and the letters.
const MAPS: [(&[u8], u32, u32, &[u8]); 3] = [
    (
        b"type octile\r\nwidth 2\r\nheight 1\r\nmap\r\n.G ",
        1,
        2,
        b".G",
    ),
    // After the rows a single carriage return is one blank line.
    (b"type octile\nheight 1\nwidth 1\nmap\n.\r\n\r", 1, 1, b"."),
    // Tabs and leading zeros.
    (
        b"type\t \xff\x00  \t\nheight\t\t002 \nwidth 0000000000000000000000003\t\nmap \t\nG.S\t\n@TW \n\n \t",
        2,
        3,
        b"G.S@TW",
    ),
];

fn is_read_as(
    alloc: impl Allocator + Copy,
    text: &[u8],
    height: u32,
    width: u32,
    cells: &[u8],
) -> bool {
    match read_map(alloc, text) {
        Ok(map) => map.height == height && map.width == width && map.cells.as_slice() == cells,
        Err(_) => false,
    }
}

#[test]
fn maps_are_read(rt: HostRuntime) {
    for (text, height, width, cells) in MAPS {
        assert!(rt; is_read_as(rt.alloc(), text, height, width, cells));
    }
}

/// Texts that are no map, and their first fault.
const FAULTS: [(&[u8], MapFault); 18] = [
    (
        b"type octile\nheight 2\nwidth 3\nmap\n..\n....\n",
        MapFault::Row(0),
    ),
    (
        b"type octile\nheight 1\nheight 1\nmap\n.\n",
        MapFault::Header(3),
    ),
    (b"", MapFault::Header(1)),
    (b"type octile\nheight 0\nwidth 1\nmap\n", MapFault::Size),
    (
        b" type octile\nheight 1\nwidth 1\nmap\n.\n",
        MapFault::Header(1),
    ),
    (b"type\nheight 1\nwidth 1\nmap\n.\n", MapFault::Header(1)),
    (
        b"type octile four\nheight 1\nwidth 1\nmap\n.\n",
        MapFault::Header(1),
    ),
    (
        b"type oct\rile\nheight 1\nwidth 1\nmap\n.\n",
        MapFault::Header(1),
    ),
    (
        b"type octile\ndepth 1\nwidth 1\nmap\n.\n",
        MapFault::Header(2),
    ),
    (
        b"type octile\nheight 0\nwidth 1\n map\n.\n",
        MapFault::Header(4),
    ),
    (
        b"type octile\nheight 4294967297\nwidth 1\nmap\n.\n",
        MapFault::Size,
    ),
    (
        b"type octile\nheight 1\nwidth 18446744073709551617\nmap\n.\n",
        MapFault::Size,
    ),
    (
        b"type octile\nheight 2\nwidth 2\nmap\n.x\n.\n",
        MapFault::Cell(0, 1),
    ),
    (
        b"type octile\nheight 2\nwidth 2\nmap\n..\n...\n",
        MapFault::Row(1),
    ),
    // bad_cell_and_trailing: a letter that is none of the seven, and a line after the rows.
    (
        b"type octile\nheight 1\nwidth 2\nmap\n.x\n",
        MapFault::Cell(0, 1),
    ),
    (
        b"type octile\nheight 1\nwidth 1\nmap\n.\n\nx",
        MapFault::Trailing(7),
    ),
    (
        b"type octile\nheight 1\nwidth 1\nmap\n.\n \t\r\n\r\r\n",
        MapFault::Trailing(7),
    ),
    (b"\r", MapFault::Header(1)),
];

/// Whether a text has this fault.
fn is_faulty(alloc: impl Allocator + Copy, text: &[u8], fault: MapFault) -> bool {
    match read_map(alloc, text) {
        Ok(_) => false,
        Err(found) => found == fault,
    }
}

fn check_faults(rt: &impl Abort, alloc: Global, texts: &[(&[u8], MapFault)]) {
    for at in 0..texts.len() {
        let (text, fault) = texts[at];
        assert!(rt; is_faulty(alloc, text, fault));
    }
}

#[test]
fn map_faults(rt: HostRuntime) {
    check_faults(&rt, rt.alloc(), &FAULTS);
}

const WHOLE: &[u8] = b"type octile\nheight 1\nwidth 3\nmap\n...\n";

/// The fault of the first `kept` bytes of the whole map.
fn fault_of_front(kept: usize) -> Option<MapFault> {
    match kept {
        0..=5 => Some(MapFault::Header(1)),
        6..=19 => Some(MapFault::Header(2)),
        20..=27 => Some(MapFault::Header(3)),
        28..=31 => Some(MapFault::Header(4)),
        32..=35 => Some(MapFault::Row(0)),
        _ => None,
    }
}

/// Whether a prefix of the whole map has its fault, or is a map.
fn is_read_as_front(alloc: Global, front: &[u8]) -> bool {
    match fault_of_front(front.len()) {
        Some(fault) => is_faulty(alloc, front, fault),
        None => is_read_as(alloc, front, 1, 3, b"..."),
    }
}

#[test]
fn truncated_map(rt: HostRuntime) {
    assert!(rt; WHOLE.len() == 37);
    for kept in 0..=WHOLE.len() {
        assert!(rt; is_read_as_front(rt.alloc(), &WHOLE[..kept]));
    }
}

/// Writes a map of this many rows of this many cells.
fn write_floor(text: &mut String, height: u64, width: u64) -> Result<(), AllocError> {
    write!(text, "type octile\nheight {height}\nwidth {width}\nmap\n")?;
    for _ in 0..height {
        for _ in 0..width {
            text.push('.')?;
        }
        text.push('\n')?;
    }
    Ok(())
}

/// The sides and the number of cells of an open map that is read, or its fault.
fn read_sides(
    rt: &impl Abort,
    alloc: Global,
    height: u64,
    width: u64,
) -> Result<(u32, u32, usize), MapFault> {
    let mut text = String::new(alloc);
    write_floor(&mut text, height, width).expect(rt, "memory for a map");
    match read_map(alloc, text.as_bytes()) {
        Ok(map) => Ok((map.height, map.width, map.cells.len())),
        Err(fault) => Err(fault),
    }
}

#[test]
fn side_limits(rt: HostRuntime) {
    assert!(rt; MOST_SIDE == 1024);
    assert!(rt; read_sides(&rt, rt.alloc(), 1024, 1024) == Ok((1024, 1024, 1_048_576)));
    for (height, width) in [(1025, 1), (1, 1025), (0, 1), (1, 0)] {
        assert!(rt; read_sides(&rt, rt.alloc(), height, width) == Err(MapFault::Size));
    }
}

/// Whether a text was split into these parts.
fn is_split(parts: Option<(&[u8], &[u8])>, first: &[u8], rest: &[u8]) -> bool {
    match parts {
        Some(found) => found.0 == first && found.1 == rest,
        None => false,
    }
}

/// Texts, each with its first line and what comes after it.
const LINES: [(&[u8], &[u8], &[u8]); 2] = [(b"\r", b"", b""), (b" ab\tc \r\nd", b" ab\tc ", b"d")];

#[test]
fn lines_and_words(rt: HostRuntime) {
    for (text, first, rest) in LINES {
        assert!(rt; is_split(first_line(text), first, rest));
    }
    assert!(rt; trimmed_line(b" ab\tc ") == b" ab\tc".as_slice());
    assert!(rt; is_split(first_word(b" ab\tc "), b"ab", b"c "));
    assert!(rt; first_word(b" \t").is_none());
}

#[test]
fn numbers_and_blanks(rt: HostRuntime) {
    let whole = number_up_to(b"0017", 1025);
    let large = number_up_to(b"4294967297", 1025);
    assert!(rt; [whole, large, number_up_to(b"1-7", 1025)] == [Some(17), Some(1025), None]);
    assert!(rt; is_blank_byte(b'\t') && !is_blank_byte(b'\r'));
}

/// Whether a read meets a refused allocation. The next read with the same memory then gives the map.
fn is_refused(rt: &impl Abort, heap: impl Allocator + Copy) -> bool {
    let met = is_faulty(heap, WHOLE, MapFault::NoMemory);
    assert!(rt; !met || is_read_as(heap, WHOLE, 1, 3, b"..."));
    met
}

/// Each of the first allocations is refused in turn.
#[test]
fn refused_growths(rt: HostRuntime) {
    let mut refused = 0;
    for before in 0..8 {
        if is_refused(&rt, &Refusing::after(rt.alloc(), before)) {
            refused = before + 1;
        }
    }
    // A read grows once.
    assert!(rt; refused == 1);
    // A fault of the head is named without memory.
    let heap = Refusing::after(rt.alloc(), 0);
    assert!(rt; is_faulty(&heap, b"type octile\n", MapFault::Header(2)));
}
