//! What a call answers C, by number. bindings/c/nashirudder.h has the same names and numbers.

/// The call was carried out.
pub const DONE: u32 = 0;
/// Memory ran out.
pub const NO_MEMORY: u32 = 1;
/// The handle is closed.
pub const NOT_OPEN: u32 = 2;
/// The handle is open.
pub const ALREADY_OPEN: u32 = 3;
/// There is no client with this number.
pub const NO_CLIENT: u32 = 4;
/// There is no robot with this number.
pub const NO_ROBOT: u32 = 5;
/// The client's notices and unfinished errands leave no room for two more.
pub const MAILBOX_FULL: u32 = 6;
/// The chapter has all the entries that it may have.
pub const CHAPTER_FULL: u32 = 7;
/// All the ticks were made that may be made.
pub const CLOCK_SPENT: u32 = 8;
/// The robot is shut already.
pub const ALREADY_SHUT: u32 = 9;
/// This is the last chapter that there may be.
pub const BOOK_SPENT: u32 = 10;
/// All notices of the client were handed out.
pub const NO_NOTICE: u32 = 11;
/// The mailbox cannot be made that large.
pub const TOO_WIDE: u32 = 12;
/// The robot, or each robot, has no errand.
pub const IDLE: u32 = 13;
/// The map has a bridge.
pub const HAS_BRIDGE: u32 = 14;
/// The list does not have the required length.
pub const WRONG_LENGTH: u32 = 15;

/// A pointer is null that must not be. The header says it, before the library is called.
pub const NULL_POINTER: u32 = 16;
/// There is no kind of orders with this number.
pub const BAD_ORDER: u32 = 17;
/// The cell is not roomy for the fleet's robots. Of a fleet that goes on: that of an unfinished errand.
pub const NO_ROOM: u32 = 18;
/// The chapter has an entry.
pub const CHAPTER_BEGUN: u32 = 19;

/// The line of the map's head is missing or not in its form.
pub const MAP_HEADER: u32 = 20;
/// The map's height or width is not from 1 to 1,024.
pub const MAP_SIZE: u32 = 21;
/// The row of the map is missing or not as long as the width.
pub const MAP_ROW: u32 = 22;
/// The byte in that row and column is not a letter of a map.
pub const MAP_CELL: u32 = 23;
/// The line after the map's rows has more than blanks and tabs.
pub const MAP_TRAILING: u32 = 24;

/// A limit or the number of clients is out of its range.
pub const BAD_SETUP: u32 = 30;
/// There are not 1 to 512 robots.
pub const ROBOT_COUNT: u32 = 31;
/// The robot does not start on floor.
pub const START_BLOCKED: u32 = 32;
/// The two robots start on one cell.
pub const START_SHARED: u32 = 33;
/// The setup is not of this library's size: another header was used.
pub const WRONG_SIZE: u32 = 34;
/// The rooms that were found, in which robots would take turns, do not pass their checks.
pub const NO_TURNS: u32 = 35;

/// More robots are named than the map has cells.
pub const TOO_MANY: u32 = 40;
/// Before the step the robot is not on floor.
pub const FROM_BLOCKED: u32 = 41;
/// Before the step the two robots are on one cell.
pub const FROM_SHARED: u32 = 42;
/// The new cells are not as many as the old ones.
pub const TO_LENGTH: u32 = 43;
/// The robot leaves the floor.
pub const OFF_FLOOR: u32 = 44;
/// The robot neither stays nor crosses an edge.
pub const NOT_ADJACENT: u32 = 45;
/// The two robots come to one cell.
pub const VERTEX_CONFLICT: u32 = 46;
/// The two robots exchange their cells.
pub const SWAPPING_CONFLICT: u32 = 47;
/// The map has no bridge.
pub const NO_BRIDGE: u32 = 48;
/// The goal is not floor.
pub const GOAL_BLOCKED: u32 = 49;

/// The text is not UTF-8, not JSON, or nested deeper than 127.
pub const TRACE_NOT_JSON: u32 = 50;
/// The number under `version` is not 1 or 2.
pub const TRACE_VERSION: u32 = 51;
/// The text is JSON, but not in the form of a trace.
pub const TRACE_SHAPE: u32 = 52;
/// The chapter is not legal on the map: the entry, and the rule that it breaks.
pub const CHAPTER_ILLEGAL: u32 = 53;
/// The chapter's robots have other laws, or are not as many.
pub const LAWS_DIFFER: u32 = 54;
/// The chapter was made with another `queue` or `life`.
pub const LIMITS_DIFFER: u32 = 55;
/// Within the limits no chapter follows.
pub const CHAPTERS_SPENT: u32 = 56;
/// A robot has waited longer than it may.
pub const WAITED_TOO_LONG: u32 = 57;

/// There is no clearance with this number.
pub const BAD_CLEARANCE: u32 = 60;
/// The window of an execution has no step.
pub const BAD_WINDOW: u32 = 61;
/// Two robots stand on one cell, or one stands on a cell that is not on the map.
pub const NO_PLACEMENT: u32 = 62;
/// A move that lies a window of steps before the next step is not reached.
pub const WINDOW_FULL: u32 = 63;
/// The cells are no step, free of conflicts, from the placement that was planned last.
pub const NO_STEP: u32 = 64;
/// No move may begin.
pub const NO_MOVE: u32 = 65;
/// The robot is not under way.
pub const NOT_UNDER_WAY: u32 = 66;

/// The map has another number of cells than the shield was made for.
pub const SHIELD_MAP: u32 = 70;
/// The cells, the order, the preferences or the new cells are not as many as the shield's robots need.
pub const SHIELD_LENGTH: u32 = 71;
/// The robot stands beyond the map's last cell.
pub const SHIELD_OUTSIDE: u32 = 72;
/// The robot stands on a wall.
pub const SHIELD_WALL: u32 = 73;
/// The two robots stand on one cell.
pub const SHIELD_SHARED: u32 = 74;
/// The place of the order names no robot.
pub const SHIELD_UNKNOWN: u32 = 75;
/// The place of the order names a robot that an earlier one names.
pub const SHIELD_TWICE: u32 = 76;
/// The robot's preference at that place is neither its own cell nor a neighbour of it.
pub const SHIELD_FAR: u32 = 77;
