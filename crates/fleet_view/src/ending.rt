//! The end of the page's script. Written by `tools/view/embed --write` from `tools/view`.

/// The rest of the page.
pub(crate) const END: &str = r##"// ---- plans: their placements and conflicts

// the sign of 0 where a cell is told by six signs, and what stands before them
const FIRST_SIGN = 63;
const JUMP = 33;
const CELL_SIGNS = 6;
const LINE_END = 10;

// By how much the cell of a robot changes at each letter of a step.
function stepDeltas(width) {
  const deltas = new Int32Array(128);
  deltas[110] = -width;
  deltas[115] = width;
  deltas[119] = -1;
  deltas[101] = 1;
  return deltas;
}

function cellSignsAt(text, at) {
  let cell = 0;
  for (let place = 0; place < CELL_SIGNS; place += 1) cell = cell * 64 + text.charCodeAt(at + place) - FIRST_SIGN;
  return cell;
}

// How many robots the line at this place of the text has.
function countSteps(text, at) {
  let count = 0;
  for (let place = at; place < text.length && text.charCodeAt(place) !== LINE_END; place += 1) {
    if (text.charCodeAt(place) === JUMP) place += CELL_SIGNS;
    count += 1;
  }
  return count;
}

// The cells of all placements, one after the other, from a text with a line for each; and where these lines end. A robot is
// nowhere, at -1, where a placement has fewer cells than the first one.
function placementsOf(width, text, from, count) {
  const robots = countSteps(text, from);
  const cells = new Int32Array(robots * count).fill(-1);
  const before = new Int32Array(robots);
  const deltas = stepDeltas(width);
  let at = from;
  for (let time = 0; time < count; time += 1) {
    const start = time * robots;
    let robot = 0;
    for (let code = text.charCodeAt(at); code !== LINE_END && at < text.length; code = text.charCodeAt(at)) {
      if (robot < robots) before[robot] = code === JUMP ? cellSignsAt(text, at + 1) : before[robot] + deltas[code];
      at += code === JUMP ? 1 + CELL_SIGNS : 1;
      robot += 1;
    }
    at += 1;
    cells.set(before.subarray(0, robot), start);
    // what comes after a robot that was nowhere is told from cell 0
    before.fill(0, robot);
  }
  return { robots, cells, end: at };
}

// For each robot, the time from which on it stays on its last cell.
function timesDone(robots, cells) {
  const count = robots === 0 ? 0 : cells.length / robots;
  const done = new Int32Array(robots);
  let left = Array.from({ length: robots }, (_, robot) => robot);
  for (let time = count - 2; time >= 0 && left.length > 0; time -= 1) {
    left = left.filter((robot) => {
      if (cells[time * robots + robot] === cells[(count - 1) * robots + robot]) return true;
      done[robot] = time + 1;
      return false;
    });
  }
  return done;
}

// How many robots came to another cell, up to each time.
function movesUpTo(robots, cells) {
  const count = robots === 0 ? 1 : cells.length / robots;
  const moves = new Float64Array(count);
  for (let time = 1; time < count; time += 1) {
    let moved = 0;
    for (let at = time * robots; at < (time + 1) * robots; at += 1) if (cells[at] !== cells[at - robots]) moved += 1;
    moves[time] = moves[time - 1] + moved;
  }
  return moves;
}

// How many of these times have come, at each time up to the last.
function countUpTo(times, last) {
  const counts = new Uint32Array(last + 1);
  for (const time of times) counts[time] += 1;
  for (let time = 1; time <= last; time += 1) counts[time] += counts[time - 1];
  return counts;
}

const CONFLICT_TEXTS = {
  length: () => 'another number of cells than robots',
  'off-floor': (one) => `robot ${one} is on no floor`,
  'not-adjacent': (one) => `robot ${one} goes to a cell that is no neighbour`,
  vertex: (one, other) => `robots ${one} and ${other} are on one cell`,
  swap: (one, other) => `robots ${one} and ${other} exchange their cells`,
};

// A line `invalid TIME KIND ROBOT..`, as `fleet check --all` prints it.
function conflictOf(line) {
  const [, time, kind, ...robots] = line.split(' ');
  const numbers = robots.map(Number);
  return { frame: Number(time), robots: numbers, text: (CONFLICT_TEXTS[kind] ?? (() => kind))(...numbers) };
}

// ---- executions: logs of `fleet execute`

const LOG_LINE = /^(?:(\d+(?:\.\d+)?) )?(move (\d+) (\d+) (\d+) \d+|reached (\d+)|not-under-way (\d+)|done|bad-line \d+)$/;

// The events of a log, each with its time: what stands before its line, or else the number of events before it.
function logEvents(text) {
  const lines = linesOf(text).map((line) => LOG_LINE.exec(line.trim())).filter((found) => found !== null);
  const timed = lines.length > 0 && lines.every((found) => found[1] !== undefined);
  return lines.map((found, place) => {
    const [, time, word, ...numbers] = found;
    const [robot, from, to, reached, stray] = numbers.map((one) => (one === undefined ? undefined : Number(one)));
    return { time: timed ? Number(time) : place, kind: word.split(' ')[0], robot: robot ?? reached ?? stray, from, to };
  });
}

// The moves of each robot, in order. One that was not reached ends never.
function logMoves(events) {
  const moves = [];
  for (const { time, kind, robot, from, to } of events) {
    const own = moves[robot] ?? [];
    const last = own[own.length - 1];
    if (kind === 'move') {
      moves[robot] = [...own, { robot, from, to, begin: time, end: Infinity }];
    } else if (kind === 'reached' && last !== undefined && last.end === Infinity) {
      last.end = time;
    }
  }
  return Array.from(moves, (own) => own ?? []);
}

// For each move that was held up the robot that left its cell late: after the move's own robot was done with the one before.
function findHolders(moves, start) {
  const left = new Map();
  const ready = new Map();
  const inOrder = moves.flat().sort((one, other) => one.begin - other.begin);
  for (const move of inOrder) {
    move.ready = ready.get(move.robot) ?? start;
    const before = left.get(move.to);
    const late = before !== undefined && before.robot !== move.robot && (before.begin > move.ready || before.end > move.ready);
    move.holder = late && (before.end <= move.begin || before.begin > move.ready) ? before.robot : -1;
    // until the other one has come to its next cell; what holds it up after that no log says
    move.heldUntil = move.holder < 0 ? move.ready : Math.min(move.begin, before.end);
    left.set(move.from, move);
    ready.set(move.robot, move.end);
  }
}

function medianOf(numbers) {
  const sorted = [...numbers].sort((one, other) => one - other);
  return sorted[sorted.length >> 1] ?? 1;
}

// An execution under the clock of a page: a tick is as long as half of the moves take at most.
class LogRun {
  constructor(map, text) {
    const events = logEvents(text.slice(text.indexOf('\n') + 1));
    this.kind = 'log';
    this.moves = logMoves(events);
    this.robots = this.moves.length;
    this.start = Math.min(0, ...events.slice(0, 1).map(({ time }) => time));
    findHolders(this.moves, this.start);
    const ended = this.moves.flat().filter(({ end }) => end < Infinity);
    this.unit = medianOf(ended.map(({ begin, end }) => end - begin)) || 1;
    this.end = events.length === 0 ? 0 : events[events.length - 1].time;
    this.last = Math.ceil((this.end - this.start) / this.unit);
    this.conflicts = events.filter(({ kind }) => kind === 'not-under-way').map(({ time, robot }) => (
      { frame: Math.floor((time - this.start) / this.unit), robots: [robot], text: `a report named robot ${robot}, which was not under way` }
    ));
    this.conflictCount = this.conflicts.length;
    this.atFrame = byFrame(this.conflicts);
    // robots that never move are where the plan next to the log has them
    this.starts = new Int32Array(this.robots).fill(-1);
    this.moves.forEach((own, robot) => { if (own.length > 0) this.starts[robot] = own[0].from; });
    this.cells = new Int32Array(this.robots);
    this.next = new Int32Array(this.robots);
    this.seek(0);
  }

  // A plan's first placement has the robots that never move.
  beginOn(placement) {
    const count = Math.max(this.robots, placement.length);
    this.moves = Array.from({ length: count }, (_, robot) => this.moves[robot] ?? []);
    this.starts = Int32Array.from({ length: count }, (_, robot) => this.starts[robot] ?? -1);
    for (let robot = 0; robot < placement.length; robot += 1) if (this.starts[robot] < 0) this.starts[robot] = placement[robot];
    this.robots = count;
    this.cells = new Int32Array(count);
    this.next = new Int32Array(count);
    this.seek(this.frame);
  }

  timeOf(frame) {
    return Math.min(this.end, this.start + frame * this.unit);
  }

  // How many moves of a robot have begun at a time.
  begunAt(robot, time) {
    const own = this.moves[robot];
    let [low, high] = [0, own.length];
    while (low < high) {
      const middle = (low + high) >> 1;
      if (own[middle].begin <= time) low = middle + 1;
      else high = middle;
    }
    return low;
  }

  // From which cell a robot goes to which at a time, and how far it is.
  wayOf(robot, time) {
    const move = this.moves[robot][this.begunAt(robot, time) - 1];
    if (move === undefined) return [this.starts[robot], this.starts[robot], 0];
    if (move.end <= time) return [move.to, move.to, 0];
    // of a move that was not reached nobody knows how long it takes
    const part = move.end === Infinity ? 0.5 : (time - move.begin) / (move.end - move.begin);
    return [move.from, move.to, part];
  }

  seek(frame) {
    this.frame = Math.min(frame, this.last);
    const time = this.timeOf(this.frame);
    for (let robot = 0; robot < this.robots; robot += 1) [this.cells[robot], this.next[robot]] = this.wayOf(robot, time);
    this.holds = this.holdsAt(time);
  }

  // Pairs of a robot that stands ready and the one that holds it up.
  holdsAt(time) {
    const pairs = [];
    for (let robot = 0; robot < this.robots; robot += 1) {
      const next = this.moves[robot][this.begunAt(robot, time)];
      if (next !== undefined && next.holder >= 0 && next.ready <= time && time < next.heldUntil) pairs.push([robot, next.holder]);
    }
    return pairs;
  }

  goalOf(robot) {
    const own = this.moves[robot];
    return own.length === 0 ? this.starts[robot] : own[own.length - 1].to;
  }

  isIdle(robot) {
    const own = this.moves[robot];
    return own.length === 0 || own[own.length - 1].end <= this.timeOf(this.frame);
  }

  faultsAt(frame) {
    return this.atFrame.get(frame) ?? [];
  }

  pathOf(robot) {
    const cells = [this.starts[robot], ...this.moves[robot].map(({ to }) => to)];
    return { cells, here: this.begunAt(robot, this.timeOf(this.frame)) };
  }

  title() {
    return 'execution';
  }

  figures() {
    const time = this.timeOf(this.frame);
    const all = this.moves.flat();
    const [begun, reached] = [all.filter(({ begin }) => begin <= time).length, all.filter(({ end }) => end <= time).length];
    return [
      ['robots', this.robots], ['moves', all.length], ['time', Number(time.toFixed(3))], ['reached', reached],
      ['under way', begun - reached], ['held up', this.holds.length], ['ends at', Number(this.end.toFixed(3))],
    ];
  }
}

// ---- runs: plans and traces that are shown next to each other, each from its first tick on

function byFrame(conflicts) {
  const found = new Map();
  for (const conflict of conflicts) {
    if (!found.has(conflict.frame)) found.set(conflict.frame, []);
    found.get(conflict.frame).push(conflict);
  }
  return found;
}

// A plan, from its text: a line with the numbers of placements and of conflicts, then these.
class PlanRun {
  constructor(map, text) {
    const head = text.indexOf('\n');
    const [, placements, conflicts] = text.slice(0, head).split(' ').map(Number);
    const { robots, cells, end } = placementsOf(map.width, text, head + 1, placements);
    this.kind = 'plan';
    this.robots = robots;
    this.all = cells;
    this.last = Math.max(0, placements - 1);
    this.conflictCount = conflicts;
    this.conflicts = linesOf(text.slice(end)).map(conflictOf);
    this.atFrame = byFrame(this.conflicts);
    this.done = timesDone(robots, cells);
    this.moves = movesUpTo(robots, cells);
    this.doneCount = countUpTo(this.done, this.last);
    this.cost = this.done.reduce((sum, time) => sum + time, 0);
    this.span = this.done.reduce((most, time) => Math.max(most, time), 0);
    this.goals = this.placementAt(this.last);
    this.seek(0);
  }

  placementAt(frame) {
    return this.all.subarray(frame * this.robots, (frame + 1) * this.robots);
  }

  seek(frame) {
    this.frame = Math.min(frame, this.last);
    this.cells = this.placementAt(this.frame);
    this.next = this.placementAt(Math.min(this.frame + 1, this.last));
  }

  // A plan says no goals of its own here: they are the last cells.
  goalOf(robot) {
    return this.goals[robot];
  }

  isIdle(robot) {
    return this.frame >= this.done[robot];
  }

  faultsAt(frame) {
    return this.atFrame.get(frame) ?? [];
  }

  pathOf(robot, from, to) {
    const first = Math.max(0, from);
    const cells = [];
    for (let frame = first; frame <= Math.min(this.last, to); frame += 1) cells.push(this.all[frame * this.robots + robot]);
    return { cells, here: this.frame - first };
  }

  title() {
    return this.conflictCount === 0 ? 'plan, valid' : 'plan, not valid';
  }

  figures() {
    return [
      ['robots', this.robots], ['steps', this.last], ['at their last cell', this.doneCount[this.frame] ?? 0],
      ['moves so far', this.moves[this.frame]], ['sum of costs', this.cost], ['makespan', this.span],
      ['conflicts', this.conflictCount],
    ];
  }
}

// What is wrong in a replay, by frames: conflicts, and what the judge names if that is none.
function conflictsIn(replay) {
  const notes = replay.events.map((events, frame) => events.filter(isConflict).map(({ entry }) => (
    { frame, robots: entry[1].robots, text: entry[1].detail }
  )));
  const others = replay.faults.filter((fault) => fault.rule !== 4 && fault.at !== 0)
    .map((fault) => ({ frame: fault.frame, robots: fault.robots, text: faultText(fault) }));
  return [...notes.flat(), ...others].sort((one, other) => one.frame - other.frame);
}

// A trace, from its text: a line with the judge's verdict, then the trace.
class TraceRun {
  constructor(map, text) {
    const head = text.indexOf('\n');
    const verdicts = verdictsOf([text.slice('trace '.length, head)]);
    this.replay = new Replay(map, tracesOf(text.slice(head + 1)), verdicts);
    const { replay } = this;
    this.kind = 'trace';
    this.robots = replay.robots;
    this.last = replay.last;
    this.conflicts = conflictsIn(replay);
    this.conflictCount = this.conflicts.length;
    this.seek(0);
  }

  seek(frame) {
    const { replay } = this;
    this.frame = Math.min(frame, this.last);
    replay.seek(this.frame);
    this.cells = replay.state.cells;
    this.next = replay.cellsAfter();
  }

  goalOf(robot) {
    const queue = this.replay.state.queues[robot];
    return queue.length > 0 ? queue[0].cell : -1;
  }

  isIdle(robot) {
    return this.replay.state.queues[robot].length === 0;
  }

  faultsAt(frame) {
    return frame > this.last ? [] : this.replay.faultsAt(frame);
  }

  pathOf(robot, from, to) {
    return this.replay.pathOf(robot, from, to);
  }

  title() {
    const { chapters, faults } = this.replay;
    return `trace, chapter ${chapters[0].number}, ${faults.length === 0 ? 'legal' : faultText(faults[0])}`;
  }

  figures() {
    const { replay, frame } = this;
    const { arrivals, unfinished, wait } = replay;
    const rate = frame === 0 ? '\u2013' : (arrivals[frame] / frame).toFixed(3);
    return [
      ['robots', this.robots], ['ticks', this.last], ['arrivals', arrivals[frame]], ['arrivals a tick', rate],
      ['unfinished', unfinished[frame]], ['longest wait', wait[frame] < 0 ? '\u2013' : wait[frame]],
      ['moves so far', replay.moveStart[frame + 1]],
    ];
  }
}

// The texts of the runs that a page carries; none if it carries chapters. Each begins with a line `plan ..`, `trace ..` or `log ..`.
function runTextsOf(text) {
  const starts = [];
  for (let at = 0; /^(plan|trace|log) /.test(text.slice(at, at + 6)) && starts.length < 2;) {
    starts.push(at);
    at = endOfRun(text, at);
  }
  return starts.map((start, place) => text.slice(start, starts[place + 1] ?? text.length));
}

// A run ends after as many lines as its head says, a log after as many bytes.
function endOfRun(text, from) {
  const first = text.indexOf('\n', from);
  const head = text.slice(from, first).split(' ');
  if (head[0] === 'log') return first + 1 + Number(head[1]);
  let lines = head[0] === 'plan' ? 1 + Number(head[1]) + Math.min(Number(head[2]), MOST_CONFLICTS) : 2;
  let at = from;
  for (; lines > 0 && at >= 0; lines -= 1) at = text.indexOf('\n', at) + 1 || text.length;
  return at;
}

function runOf(map, text) {
  if (text.startsWith('plan ')) return new PlanRun(map, text);
  return text.startsWith('log ') ? new LogRun(map, text) : new TraceRun(map, text);
}

// The runs of these texts; a log gets the robots that never move from the plan next to it.
function runsOf(map, texts) {
  const runs = texts.map((text) => runOf(map, text));
  const plan = runs.find((run) => run.kind === 'plan');
  for (const run of runs) if (run.kind === 'log' && plan !== undefined) run.beginOn(plan.placementAt(0));
  return runs;
}

// The runs under one clock: each stands at its end when it is over.
class Course {
  constructor(runs) {
    this.runs = runs;
    this.last = Math.max(...runs.map((run) => run.last));
    this.robots = Math.max(...runs.map((run) => run.robots));
    this.state = { frame: 0 };
  }

  seek(frame) {
    this.state.frame = frame;
    for (const run of this.runs) run.seek(frame);
  }

  go() {
    this.seek(this.state.frame + 1);
  }

  faultsAt(frame) {
    return this.runs.flatMap((run) => run.faultsAt(frame));
  }
}

// ---- thousands of robots at once

// Discs in a picture of the canvas's size, which is written to the canvas as a whole: to draw each of them costs too much.
class Stamps {
  constructor(view) {
    this.view = view;
    this.canvas = document.createElement('canvas');
    this.pen = this.canvas.getContext('2d', { willReadFrequently: true });
  }

  // The map without robots as pixels, anew where the view or its colours have changed.
  readGround() {
    const { canvas, pen, view } = this;
    const { scale, left, top } = view.view;
    const key = `${scale} ${left} ${top} ${view.canvas.width} ${view.canvas.height}`;
    if (this.key === key && this.colours === view.colours) return;
    [this.key, this.colours] = [key, view.colours];
    canvas.width = view.canvas.width;
    canvas.height = view.canvas.height;
    const own = view.pen;
    view.pen = pen;
    view.drawGround(false);
    view.pen = own;
    const { width, height } = canvas;
    this.ground = new Uint32Array(pen.getImageData(0, 0, width, height).data.buffer);
    this.picture = pen.createImageData(width, height);
    this.pixels = new Uint32Array(this.picture.data.buffer);
    this.colourPixels = this.pixelsOf([...view.hues.map((hue) => hue.fill), view.colours.idle]);
    this.spans = this.spansOf(scale);
  }

  pixelsOf(colours) {
    const { pen } = this;
    colours.forEach((colour, place) => {
      pen.fillStyle = colour;
      pen.fillRect(place, 0, 1, 1);
    });
    return new Uint32Array(pen.getImageData(0, 0, colours.length, 1).data.buffer);
  }

  // For each row of a disc, from the middle, how far it reaches to both sides; a square where discs would be too small.
  spansOf(scale) {
    const { ratio } = this.view;
    const radius = Math.max(scale * (scale < LEAST_DISC * ratio ? 0.5 : 0.44), ratio);
    const high = Math.max(1, Math.floor(radius));
    const rows = Array.from({ length: 2 * high }, (_, row) => row - high);
    if (scale < LEAST_DISC * ratio) return rows.map((row) => [row, high]);
    return rows.map((row) => [row, Math.round(Math.sqrt(Math.max(0, radius * radius - (row + 0.5) * (row + 0.5))))]);
  }

  draw() {
    this.readGround();
    const { view, pixels, colourPixels } = this;
    const { run, xs, ys } = view;
    pixels.set(this.ground);
    for (let robot = 0; robot < run.robots; robot += 1) {
      // of a robot that is nowhere the place is no number
      if (!view.isOnCanvas(xs[robot], ys[robot])) continue;
      this.stamp(Math.round(xs[robot]), Math.round(ys[robot]), colourPixels[run.isIdle(robot) ? HUES : robot % HUES]);
    }
    view.pen.putImageData(this.picture, 0, 0);
  }

  stamp(x, y, colour) {
    const { pixels, spans } = this;
    const { width, height } = this.canvas;
    for (const [row, reach] of spans) {
      const line = y + row;
      if (line < 0 || line >= height) continue;
      const end = line * width + Math.min(width, x + reach);
      for (let at = line * width + Math.max(0, x - reach); at < end; at += 1) pixels[at] = colour;
    }
  }
}

// ---- a run on its canvas

// hues of robots; robots of one hue are drawn together
const HUES = 24;
// from this width of a cell on, in pixels, robots are discs, and below it squares
const LEAST_DISC = 7;
const HEADING = 0.6;
// more robots than this on the canvas are drawn at once, without numbers
const MOST_DISCS = 1500;
// the least height of a map, in pixels
const LEAST_RUN_HIGH = 60;

// A colour for each hue, and robots by their hues.
function hueColours(floor) {
  return Array.from({ length: HUES }, (_, hue) => robotColour(hue, floor));
}

class RunView extends MapFloor {
  constructor(canvas, map, run) {
    super(canvas, map);
    this.run = run;
    this.shows = { goals: false, lines: false };
    this.picked = null;
    this.pulse = 0;
    this.xs = new Float32Array(run.robots);
    this.ys = new Float32Array(run.robots);
    this.stamps = new Stamps(this);
    this.leastHigh = LEAST_RUN_HIGH;
  }

  // In one column each map may be as high as most of the window; else its figures and the time stay in sight.
  room() {
    const { innerHeight } = window;
    if (matchMedia('(max-width: 900px)').matches) return Math.max(LEAST_RUN_HIGH, innerHeight * 0.6);
    const figures = Array.from(document.querySelectorAll('.sides dl'), (list) => list.offsetHeight);
    const below = Math.max(...figures) + element('time').offsetHeight + 2 * BELOW;
    return Math.max(LEAST_HIGH, innerHeight - this.above() - below);
  }

  // Where the robots are drawn. One that is nowhere, or off the map, is not drawn.
  placeRobots(fraction) {
    const { run } = this;
    const part = Math.max(0, fraction);
    if (run.kind === 'log') {
      const time = run.timeOf(run.frame + part);
      for (let robot = 0; robot < run.robots; robot += 1) this.put(robot, ...run.wayOf(robot, time));
    } else {
      for (let robot = 0; robot < run.robots; robot += 1) this.put(robot, run.cells[robot], run.next[robot], part);
    }
  }

  // Puts a robot between two cells.
  put(robot, cell, next, part) {
    const { map, view, xs, ys } = this;
    const { width } = map;
    const cells = map.floor.length;
    if (cell < 0 || cell >= cells) {
      xs[robot] = NaN;
      return;
    }
    const other = next >= 0 && next < cells ? next : cell;
    const [column, row] = [cell % width, Math.floor(cell / width)];
    xs[robot] = view.left + (column + (other % width - column) * part + 0.5) * view.scale;
    ys[robot] = view.top + (row + (Math.floor(other / width) - row) * part + 0.5) * view.scale;
  }

  // From each robot that stands ready a line to the one that holds it up.
  drawHolds() {
    const { pen, view, run, xs, ys } = this;
    pen.strokeStyle = this.colours.mark;
    pen.lineWidth = Math.max(1.5 * this.ratio, Math.min(view.scale / 8, 5 * this.ratio));
    pen.setLineDash([pen.lineWidth, pen.lineWidth]);
    pen.beginPath();
    for (const [robot, holder] of run.holds) {
      pen.moveTo(xs[robot], ys[robot]);
      pen.lineTo(xs[holder], ys[holder]);
    }
    pen.stroke();
    pen.setLineDash([]);
  }

  isOnCanvas(x, y) {
    const { canvas, view } = this;
    return x > -view.scale && y > -view.scale && x < canvas.width + view.scale && y < canvas.height + view.scale;
  }

  robotAt(x, y, near) {
    let best = null;
    let least = Math.max(this.view.scale * 0.55, near * this.ratio);
    for (let robot = 0; robot < this.run.robots; robot += 1) {
      const far = Math.hypot(this.xs[robot] - x, this.ys[robot] - y);
      if (far < least) [best, least] = [robot, far];
    }
    return best;
  }

  countOnCanvas() {
    let count = 0;
    for (let robot = 0; robot < this.run.robots; robot += 1) if (this.isOnCanvas(this.xs[robot], this.ys[robot])) count += 1;
    return count;
  }

  draw(fraction) {
    const { run } = this;
    this.placeRobots(run.frame === run.last ? 0 : fraction);
    const many = this.countOnCanvas() > MOST_DISCS;
    const numbered = !many && this.view.scale >= LEAST_NUMBERED * this.ratio;
    if (many) this.stamps.draw();
    else this.drawGround(numbered);
    if (this.picked !== null && this.picked < run.robots) this.drawPath(this.picked);
    if (this.shows.lines) this.drawLines();
    if (this.shows.goals) this.drawGoals();
    if (!many) this.drawRobots();
    if (numbered) this.drawHeadings();
    if (numbered) this.drawNumbers();
    if (run.kind === 'log') this.drawHolds();
    this.drawPicked();
    this.drawFaults();
  }

  // Calls `put` with each robot that is on the canvas, those of one hue together, after `colour` with that hue.
  eachByHue(colour, put) {
    const { run, xs, ys } = this;
    for (let hue = 0; hue < HUES; hue += 1) {
      colour(hue);
      for (let robot = hue; robot < run.robots; robot += HUES) {
        if (this.isOnCanvas(xs[robot], ys[robot])) put(robot, xs[robot], ys[robot]);
      }
    }
  }

  drawRobots() {
    const { pen, view, run } = this;
    const disc = view.scale >= LEAST_DISC * this.ratio;
    const radius = Math.max(view.scale * (disc ? 0.42 : 0.5), 0.75 * this.ratio);
    const put = disc ? (x, y) => {
      pen.beginPath();
      pen.arc(x, y, radius, 0, 2 * Math.PI);
      pen.fill();
    } : (x, y) => pen.fillRect(x - radius, y - radius, 2 * radius, 2 * radius);
    const idle = [];
    this.eachByHue((hue) => { pen.fillStyle = this.hues[hue].fill; }, (robot, x, y) => {
      if (run.isIdle(robot)) idle.push(robot);
      else put(x, y);
    });
    pen.fillStyle = this.colours.idle;
    for (const robot of idle) put(this.xs[robot], this.ys[robot]);
  }

  // A ring round the picked robot.
  drawPicked() {
    const { pen, view, picked } = this;
    if (picked === null || !this.isOnCanvas(this.xs[picked], this.ys[picked])) return;
    pen.strokeStyle = this.colours.accent;
    pen.lineWidth = Math.max(2 * this.ratio, view.scale / 10);
    pen.beginPath();
    pen.arc(this.xs[picked], this.ys[picked], Math.max(view.scale * 0.62, 5 * this.ratio), 0, 2 * Math.PI);
    pen.stroke();
  }

  // A short line from each robot that moves, in the direction of its next cell.
  drawHeadings() {
    const { pen, view, run, map } = this;
    pen.strokeStyle = this.colours.ink;
    pen.lineWidth = Math.max(1, Math.min(view.scale / 12, 4 * this.ratio));
    pen.beginPath();
    for (let robot = 0; robot < run.robots; robot += 1) {
      const [from, to] = [run.cells[robot], run.next[robot]];
      const [x, y] = [this.xs[robot], this.ys[robot]];
      if (from === to || from < 0 || to < 0 || !this.isOnCanvas(x, y)) continue;
      const across = Math.sign(to % map.width - from % map.width);
      const down = Math.sign(Math.floor(to / map.width) - Math.floor(from / map.width));
      pen.moveTo(x + across * view.scale * 0.3, y + down * view.scale * 0.3);
      pen.lineTo(x + across * view.scale * HEADING, y + down * view.scale * HEADING);
    }
    pen.stroke();
  }

  drawNumbers() {
    const { pen, view, run } = this;
    const part = run.robots > 1000 ? 0.3 : run.robots > 100 ? 0.36 : 0.46;
    pen.font = `600 ${Math.max(view.scale * part, 5.5 * this.ratio).toFixed(1)}px system-ui, sans-serif`;
    pen.textAlign = 'center';
    pen.textBaseline = 'middle';
    this.eachByHue(() => {}, (robot, x, y) => {
      pen.fillStyle = run.isIdle(robot) ? this.colours.digitsOnIdle : this.hues[robot % HUES].digits;
      pen.fillText(String(robot), x, y);
    });
  }

  // The goals of all robots, or of the picked one.
  drawGoals() {
    const { pen, view, run } = this;
    const half = Math.max(view.scale * 0.38, this.ratio);
    pen.lineWidth = Math.max(1, Math.min(view.scale / 12, 5 * this.ratio));
    for (let robot = 0; robot < run.robots; robot += 1) {
      const goal = run.goalOf(robot);
      if (goal < 0 || run.isIdle(robot)) continue;
      if (this.picked !== null && this.picked !== robot) continue;
      const [x, y] = this.pointOf(goal);
      if (!this.isOnCanvas(x, y)) continue;
      pen.strokeStyle = this.hues[robot % HUES].fill;
      pen.strokeRect(x - half, y - half, 2 * half, 2 * half);
    }
  }

  drawLines() {
    const { pen, view, run } = this;
    pen.lineWidth = Math.max(1, Math.min(view.scale / 14, 5 * this.ratio));
    pen.globalAlpha = run.robots > 100 ? 0.25 : 0.45;
    this.eachByHue((hue) => { pen.strokeStyle = this.hues[hue].fill; }, (robot, x, y) => {
      const goal = run.goalOf(robot);
      if (goal < 0 || run.isIdle(robot)) return;
      if (this.picked !== null && this.picked !== robot) return;
      pen.beginPath();
      pen.moveTo(x, y);
      pen.lineTo(...this.pointOf(goal));
      pen.stroke();
    });
    pen.globalAlpha = 1;
  }

  // Where the picked robot was, and where it goes, dotted.
  drawPath(robot) {
    const { pen, view, run } = this;
    const { cells, here } = run.pathOf(robot, run.frame - PATH_FRAMES, run.frame + PATH_FRAMES);
    pen.strokeStyle = this.hues[robot % HUES].fill;
    pen.lineJoin = 'round';
    pen.lineWidth = Math.max(2 * this.ratio, Math.min(view.scale / 6, 8 * this.ratio));
    const along = (part, dashes, alpha) => {
      pen.setLineDash(dashes);
      pen.globalAlpha = alpha;
      pen.beginPath();
      for (const cell of part) if (cell >= 0) pen.lineTo(...this.pointOf(cell));
      pen.stroke();
    };
    along(cells.slice(0, here + 1), [], 0.5);
    along(cells.slice(here), [pen.lineWidth, pen.lineWidth * 1.5], 0.8);
    pen.setLineDash([]);
    pen.globalAlpha = 1;
  }

  // A frame round each robot that breaks a rule at this tick.
  drawFaults() {
    const { pen, view, run } = this;
    const half = Math.max(view.scale * (0.55 + 0.2 * this.pulse), 6 * this.ratio);
    pen.strokeStyle = this.colours.fault;
    pen.lineWidth = Math.max(2 * this.ratio, Math.min(view.scale / 8, 8 * this.ratio));
    for (const fault of run.faultsAt(run.frame)) {
      for (const robot of fault.robots) {
        const [x, y] = [this.xs[robot], this.ys[robot]];
        if (this.isOnCanvas(x, y)) pen.strokeRect(x - half, y - half, 2 * half, 2 * half);
      }
    }
  }
}

// ---- the page of runs: one or two, under one clock

const MOST_CONFLICT_ROWS = 200;

// All views at once, as the player draws them.
class Views {
  constructor(views) {
    this.views = views;
  }

  set pulse(part) {
    for (const view of this.views) view.pulse = part;
  }

  draw(fraction) {
    for (const view of this.views) view.draw(fraction);
  }
}

class RunsPage {
  constructor(map, runs) {
    this.map = map;
    this.runs = runs;
    this.replay = new Course(runs);
    this.picked = null;
    this.parts = runs.map((run, place) => this.partOf(run, place));
    element('sides').replaceChildren(...this.parts.map((part) => part.section));
    element('sides').classList.toggle('two', runs.length > 1);
    this.views = this.parts.map((part) => part.view);
    this.view = new Views(this.views);
    this.player = new Player(this);
    element('slider').max = String(this.replay.last);
    this.conflicts = runs.flatMap((run, place) => run.conflicts.map((conflict) => ({ place, ...conflict })))
      .sort((one, other) => one.frame - other.frame);
    this.describe();
    this.markConflicts();
    this.player.setSpeed(8);
    this.setShown('goals', this.replay.robots <= 100);
    this.setShown('lines', false);
    const asked = /(?:^#|&)t=(\d+)/.exec(location.hash);
    for (const { view, figures } of this.parts) showFigures(figures, view.run.figures());
    this.repaint();
    this.player.jump(asked === null ? 0 : Number(asked[1]));
  }

  // The map and the figures of a run.
  partOf(run, place) {
    const section = element('run-part').content.firstElementChild.cloneNode(true);
    const canvas = section.querySelector('canvas');
    const name = this.runs.length > 1 ? `${place === 0 ? 'A' : 'B'}: ${run.title()}` : run.title();
    section.querySelector('h2').textContent = name;
    section.setAttribute('aria-label', name);
    canvas.setAttribute('aria-label', `Robots on the map, ${name}`);
    const view = new RunView(canvas, this.map, run);
    new MapPointers(this.pointed(view), canvas);
    return { section, view, name, figures: section.querySelector('dl') };
  }

  // What the pointers of a map act on: its view, which the other follows.
  pointed(view) {
    const page = this;
    return {
      view,
      hovered: null,
      follow() {},
      draw() { page.showAlike(view); },
      pick(robot) { page.pick(robot); },
      tellHovered() { page.tellCell(view, this.hovered); },
    };
  }

  // All maps show what this one does.
  showAlike(view) {
    for (const other of this.views) if (other !== view) other.show(view.zoom, view.middle);
    this.draw();
  }

  describe() {
    const { map, runs, replay } = this;
    const sizes = [`${map.width} \u00d7 ${map.height} cells`, `${replay.robots} robots`, `${replay.last} ticks`];
    if (runs.length > 1) sizes.push('two runs');
    element('summary').textContent = sizes.join(' \u00b7 ');
    document.title = `Fleet: ${sizes.join(' \u00b7 ')}`;
    const { dataset } = document.body;
    dataset.runs = runs.map((run) => run.kind).join(' ');
    dataset.conflicts = runs.map((run) => run.conflictCount).join(' ');
    element('conflicts-card').hidden = this.conflicts.length === 0;
    const all = runs.reduce((sum, run) => sum + run.conflictCount, 0);
    const listed = all > this.conflicts.length ? `, the first ${this.conflicts.length} listed` : '';
    element('conflicts-count').textContent = `${all}${listed}`;
  }

  markConflicts() {
    const { last } = this.replay;
    const frames = [...new Set(this.conflicts.map(({ frame }) => frame))];
    const parts = new Set(frames.map((frame) => Math.round((last === 0 ? 0 : frame / last) * MOST_MARKS)));
    element('marks').replaceChildren(...[...parts].map((part) => {
      const mark = document.createElement('span');
      mark.className = 'fault';
      mark.style.setProperty('--part', String(part / MOST_MARKS));
      return mark;
    }));
  }

  repaint() {
    const colours = readColours(0);
    const hues = hueColours(luminanceOfHex(colours.floor));
    for (const view of this.views) {
      view.hues = hues;
      view.paintLetters(colours);
      view.resize();
    }
    this.draw();
  }

  draw() {
    this.view.draw(this.player.fraction);
    this.drawTexts();
  }

  drawTexts() {
    const { frame } = this.replay.state;
    if (this.drawnFrame === frame && this.player.playing) return;
    this.drawnFrame = frame;
    const clock = `tick ${frame} of ${this.replay.last}`;
    element('slider').value = String(frame);
    element('slider').setAttribute('aria-valuetext', clock);
    element('clock').textContent = clock;
    const now = performance.now();
    if (!this.player.playing || !(now - this.listed < 200)) {
      this.listed = now;
      for (const { view, figures } of this.parts) showFigures(figures, view.run.figures());
      this.listConflicts();
      this.tellPicked();
    }
    this.publish();
  }

  // The conflicts round the tick that is shown; a click on one goes to its tick.
  listConflicts() {
    const { frame } = this.replay.state;
    const first = firstFrom(this.conflicts, frame);
    const from = Math.max(0, Math.min(first - LISTED_BEFORE, this.conflicts.length - MOST_CONFLICT_ROWS));
    const items = this.conflicts.slice(from, from + MOST_CONFLICT_ROWS).map((conflict) => {
      const item = document.createElement('li');
      const button = document.createElement('button');
      button.type = 'button';
      button.dataset.frame = conflict.frame;
      const of = this.runs.length > 1 ? `${'AB'[conflict.place]}, ` : '';
      button.textContent = `${of}tick ${conflict.frame}: ${conflict.text}`;
      item.classList.toggle('now', conflict.frame === frame);
      item.append(button);
      return item;
    });
    const list = element('events');
    list.replaceChildren(...items);
    const near = items[Math.min(first - from, items.length - 1)];
    if (near !== undefined) list.scrollTop = near.offsetTop - list.offsetTop - list.clientHeight / 3;
  }

  // What the page shows, for tests and other tools.
  publish() {
    const { dataset } = document.body;
    const { frame } = this.replay.state;
    dataset.frame = frame;
    dataset.playing = this.player.playing;
    dataset.robot = this.picked ?? 'none';
    dataset.zoom = this.views[0].zoom.toFixed(2);
    if (this.player.playing) return;
    dataset.figures = this.parts.map(({ view }) => view.run.figures().map(([name, value]) => `${name} ${value}`).join(', ')).join('; ');
    dataset.cells = this.runs.map((run) => run.cells.slice(0, 1000).join(' ')).join(' / ');
    dataset.faults = this.runs.map((run) => run.faultsAt(frame).map((fault) => fault.robots.join(',')).join(' ')).join(' / ');
    history.replaceState(null, '', `#t=${frame}`);
  }

  announce() {
    this.say(`tick ${this.replay.state.frame}, ${this.replay.faultsAt(this.replay.state.frame).length} conflicts`);
  }

  say(text) {
    element('announce').textContent = text;
  }

  setShown(name, on) {
    for (const view of this.views) view.shows[name] = on;
    element(`show-${name}`).checked = on;
  }

  show(name, on) {
    this.setShown(name, on);
    this.draw();
  }

  zoomBy(factor) {
    const [view] = this.views;
    view.zoomAt(factor, view.canvas.width / 2, view.canvas.height / 2);
    this.showAlike(view);
  }

  pan(right, down) {
    const [view] = this.views;
    view.pan(right, down);
    this.showAlike(view);
  }

  showAll() {
    const [view] = this.views;
    view.fit();
    this.showAlike(view);
  }

  pick(robot) {
    this.picked = robot;
    for (const view of this.views) view.picked = robot;
    element('unpick').hidden = robot === null;
    this.draw();
    this.tellPicked();
  }

  pickNext(by) {
    const { robots } = this.replay;
    const from = this.picked === null ? (by > 0 ? -1 : 0) : this.picked;
    this.pick((from + by + robots) % robots);
  }

  tellPicked() {
    const { picked } = this;
    const texts = this.runs.filter((run) => picked !== null && picked < run.robots).map((run) => {
      const goal = run.goalOf(picked);
      const bound = goal < 0 ? 'no goal' : `goal ${cellName(this.map, goal)}`;
      return `cell ${cellName(this.map, run.cells[picked])}, ${bound}`;
    });
    element('picked').textContent = picked === null ? '' : `Robot ${picked}: ${texts.join('; ')}`;
  }

  tellCell(view, place) {
    const cell = place === null ? -1 : view.cellAt(...place);
    if (cell < 0) {
      element('hover').textContent = '';
      return;
    }
    const robots = [...view.run.cells.keys()].filter((robot) => view.run.cells[robot] === cell);
    element('hover').textContent = `cell ${cellName(this.map, cell)}${robots.length > 0 ? `: robot ${robots.join(', ')}` : ''}`;
  }

  // The tick before or after at which something is wrong.
  stepToConflict(direction) {
    const { frame } = this.replay.state;
    const frames = this.conflicts.map((conflict) => conflict.frame).filter((one) => (one - frame) * direction > 0);
    if (frames.length > 0) this.player.jump(direction > 0 ? frames[0] : frames[frames.length - 1]);
  }
}

function showFigures(list, figures) {
  list.replaceChildren(...figures.map(([name, value]) => {
    const part = document.createElement('div');
    const [term, told] = [document.createElement('dt'), document.createElement('dd')];
    term.textContent = name;
    told.textContent = String(value);
    part.append(term, told);
    return part;
  }));
}

// ---- keys and controls of the page of runs

function runKeysOf(page) {
  const toggle = (name) => () => page.show(name, !page.views[0].shows[name]);
  return {
    ' ': () => page.player.toggle(),
    ArrowRight: (far) => page.player.step(far),
    ArrowLeft: (far) => page.player.step(-far),
    Home: () => page.player.jump(0),
    End: () => page.player.jump(page.replay.last),
    n: () => page.stepToConflict(1),
    b: () => page.stepToConflict(-1),
    '<': () => page.player.changeSpeed(-1),
    '>': () => page.player.changeSpeed(1),
    '+': () => page.zoomBy(ZOOM),
    '=': () => page.zoomBy(ZOOM),
    '-': () => page.zoomBy(1 / ZOOM),
    0: () => page.showAll(),
    w: () => page.pan(0, -PAN),
    s: () => page.pan(0, PAN),
    a: () => page.pan(-PAN, 0),
    d: () => page.pan(PAN, 0),
    '[': () => page.pickNext(-1),
    ']': () => page.pickNext(1),
    Escape: () => page.pick(null),
    g: toggle('goals'),
    l: toggle('lines'),
  };
}

function listenToRunControls(page) {
  const clicks = {
    play: () => page.player.toggle(),
    back: () => page.player.step(-1),
    on: () => page.player.step(1),
    slower: () => page.player.changeSpeed(-1),
    faster: () => page.player.changeSpeed(1),
    'zoom-in': () => page.zoomBy(ZOOM),
    'zoom-out': () => page.zoomBy(1 / ZOOM),
    'zoom-fit': () => page.showAll(),
    unpick: () => page.pick(null),
  };
  for (const [name, click] of Object.entries(clicks)) element(name).addEventListener('click', click);
  element('slider').addEventListener('input', (event) => page.player.jump(Number(event.target.value)));
  for (const name of ['goals', 'lines']) {
    element(`show-${name}`).addEventListener('change', (event) => page.show(name, event.target.checked));
  }
  element('events').addEventListener('click', (event) => {
    const button = event.target.closest('button');
    if (button !== null) page.player.jump(Number(button.dataset.frame));
  });
}

function listenToRuns(page) {
  listenToKeys(runKeysOf(page));
  listenToRunControls(page);
  returnFocus();
  window.addEventListener('resize', () => page.repaint());
  document.addEventListener('visibilitychange', () => { page.player.then = performance.now(); });
  matchMedia('(prefers-color-scheme: dark)').addEventListener('change', () => page.repaint());
}

// ---- the beginning

// The page of runs takes the place of the page of chapters.
function startRuns(map, texts) {
  const runs = runsOf(map, texts);
  document.body.replaceChildren(element('runs-page').content);
  const shown = new RunsPage(map, runs);
  listenToRuns(shown);
  return shown;
}

function startChapters(map, traces) {
  const verdicts = verdictsOf(linesOf(element('verdicts').textContent));
  const shown = new Page(map, new Replay(map, tracesOf(traces), verdicts));
  listen(shown);
  shown.searchBound();
  return shown;
}

function start() {
  const map = mapOf(linesOf(element('map-rows').textContent));
  // the element's text begins after the line end that follows its tag
  const text = element('traces').textContent.slice(1);
  const runs = runTextsOf(text);
  const shown = runs.length > 0 ? startRuns(map, runs) : startChapters(map, text);
  document.body.dataset.loaded = Math.round(performance.now());
  return shown;
}

const page = start();
</script>
</body>
</html>
"##;
