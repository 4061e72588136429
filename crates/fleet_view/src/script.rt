//! The page's script. Written by `tools/view/embed --write` from `tools/view`.

/// The page after the traces, up to the parts of the script that are about runs.
pub(crate) const TAIL: &str = r##"</script>
<script>
'use strict';

// The replay of one or more traces on a map. Traces are chapters that follow one another. Frame 0 is the first opening,
// frame i what stands before the tick i + 1: the tick i and all orders and shuts since. From frame to frame only what
// changes is kept, and is done or undone, so that a long trace costs no copy of all cells for each tick.

// ---- reading what the page carries

function linesOf(text) {
  return text.split('\n').filter((line) => line.length > 0);
}

function mapOf(rows) {
  const height = rows.length;
  const width = height > 0 ? rows[0].length : 0;
  const letters = rows.join('');
  const floor = new Uint8Array(height * width);
  for (let cell = 0; cell < floor.length; cell += 1) {
    const letter = letters[cell];
    floor[cell] = letter === '.' || letter === 'G' || letter === 'S' ? 1 : 0;
  }
  return { height, width, letters, floor };
}

// The judge's verdicts: null for a legal chapter, else the entry at fault (0: the opening) and the rule that it breaks.
function verdictsOf(lines) {
  return lines.map((line) => {
    const [word, at, rule] = line.split(' ');
    return word === 'legal' ? null : { at: Number(at), rule: Number(rule) };
  });
}

function traceOf(line) {
  const trace = JSON.parse(line);
  // a clock may be greater than a number of this language tells exactly
  const clock = /"tick":(\d+)\},"version":\d+\}$/.exec(line.slice(-200));
  trace.clock = BigInt(clock === null ? 0 : clock[1]);
  return trace;
}

// One line after the other, since the texts of all traces together may be long.
function tracesOf(text) {
  const traces = [];
  for (let from = 0; from < text.length;) {
    let end = text.indexOf('\n', from);
    if (end < 0) end = text.length;
    if (end > from) traces.push(traceOf(text.slice(from, end)));
    from = end + 1;
  }
  return traces;
}

// ---- the map as a graph

// Calls `reach` with each neighbour of the cell that is on the map and floor.
function eachNeighbour(map, cell, reach) {
  const { width, floor } = map;
  const column = cell % width;
  if (cell >= width && floor[cell - width]) reach(cell - width);
  if (cell + width < floor.length && floor[cell + width]) reach(cell + width);
  if (column > 0 && floor[cell - 1]) reach(cell - 1);
  if (column + 1 < width && floor[cell + 1]) reach(cell + 1);
}

function countFloor(map) {
  return map.floor.reduce((count, floor) => count + floor, 0);
}

// Distances from one cell. The arrays are kept from search to search: `seen` says in which search a cell was reached.
class Distances {
  constructor(map) {
    this.map = map;
    this.search = 0;
    this.seen = new Int32Array(map.floor.length);
    this.far = new Int32Array(map.floor.length);
    this.queue = new Int32Array(map.floor.length);
  }

  // Searches from this cell, and returns the greatest distance.
  from(start) {
    const { map, seen, far, queue } = this;
    this.search += 1;
    const { search } = this;
    let head = 0;
    let tail = 0;
    if (map.floor[start]) {
      queue[0] = start;
      tail = 1;
      seen[start] = search;
      far[start] = 0;
    }
    while (head < tail) {
      const cell = queue[head];
      head += 1;
      const next = far[cell] + 1;
      eachNeighbour(map, cell, (other) => {
        if (seen[other] === search) return;
        seen[other] = search;
        far[other] = next;
        queue[tail] = other;
        tail += 1;
      });
    }
    return tail === 0 ? 0 : far[queue[tail - 1]];
  }

  // The distance of a cell from where the last search began; -1 if no walk joins them.
  of(cell) {
    return this.seen[cell] === this.search ? this.far[cell] : -1;
  }
}

// Whether some edge of the floor lies on no round: a search in depth with the lowest place that each cell's branch
// reaches.
function hasBridge(map) {
  const { width, floor } = map;
  const size = floor.length;
  const order = new Int32Array(size);
  const low = new Int32Array(size);
  const parent = new Int32Array(size).fill(-1);
  const tried = new Uint8Array(size);
  let count = 0;
  const neighbour = (cell, way) => {
    if (way === 0) return cell >= width ? cell - width : -1;
    if (way === 1) return cell + width < size ? cell + width : -1;
    if (way === 2) return cell % width > 0 ? cell - 1 : -1;
    return cell % width + 1 < width ? cell + 1 : -1;
  };
  for (let root = 0; root < size; root += 1) {
    if (!floor[root] || order[root] > 0) continue;
    let cell = root;
    count += 1;
    order[cell] = low[cell] = count;
    while (cell >= 0) {
      if (tried[cell] < 4) {
        const other = neighbour(cell, tried[cell]);
        tried[cell] += 1;
        if (other < 0 || !floor[other] || other === parent[cell]) continue;
        if (order[other] > 0) {
          low[cell] = Math.min(low[cell], order[other]);
        } else {
          parent[other] = cell;
          count += 1;
          order[other] = low[other] = count;
          cell = other;
        }
      } else {
        const above = parent[cell];
        if (above >= 0) {
          if (low[cell] > order[above]) return true;
          low[above] = Math.min(low[above], low[cell]);
        }
        cell = above;
      }
    }
  }
  return false;
}

// ---- bridges, and the cells that are not roomy

// An edge is a bridge if every walk between its ends crosses it. Each of its ends, with the cells that walks join to that
// end without crossing the bridge, is a side. A cell is roomy for `robots` if each side that it is on has as many cells.
class Roominess {
  constructor(map, robots) {
    this.map = map;
    this.robots = robots;
    const cells = map.floor.length;
    // each cell's place in the order of a search in depth, from 1; the least place that an edge outside the search's tree
    // reaches from the cell or below it; and how many cells are below it, itself with them
    this.place = new Int32Array(cells);
    this.least = new Int32Array(cells);
    this.below = new Int32Array(cells);
    this.parent = new Int32Array(cells).fill(-1);
    this.order = new Int32Array(cells);
    this.bridges = [];
    this.unroomy = new Uint8Array(cells);
    let placed = 0;
    for (let cell = 0; cell < cells; cell += 1) {
      if (map.floor[cell] && this.place[cell] === 0) placed = this.addPart(cell, placed);
    }
    this.bridges.sort((a, b) => a[0] - b[0] || a[1] - b[1]);
  }

  // Searches the part of the map that has a cell, and returns how many cells are placed then.
  addPart(first, before) {
    const { map, place, parent, order } = this;
    let placed = before;
    const enter = (cell) => {
      order[placed] = cell;
      placed += 1;
      place[cell] = placed;
    };
    enter(first);
    for (let cell = first; cell !== -1;) {
      let next = -1;
      eachNeighbour(map, cell, (other) => { if (place[other] === 0) next = other; });
      if (next === -1) {
        cell = parent[cell];
      } else {
        parent[next] = cell;
        enter(next);
        cell = next;
      }
    }
    this.measure(before, placed);
    this.mark(before, placed);
    return placed;
  }

  // From the last cell to the first: what lies below a cell is known before the cell.
  measure(from, to) {
    const { map, place, least, below, parent, order } = this;
    for (let at = to - 1; at >= from; at -= 1) {
      const cell = order[at];
      least[cell] = place[cell];
      below[cell] = 1;
      eachNeighbour(map, cell, (other) => {
        if (parent[other] === cell) {
          least[cell] = Math.min(least[cell], least[other]);
          below[cell] += below[other];
        } else if (parent[cell] !== other) {
          least[cell] = Math.min(least[cell], place[other]);
        }
      });
    }
  }

  // The cells below another one are a range of the order, so that a side is a range or all but one. `more` has at each place by how many
  // sides that are too small it differs from the place before.
  mark(from, to) {
    const { place, least, below, parent, order, robots } = this;
    const more = new Int32Array(to - from + 1);
    const add = (begin, end) => {
      more[begin] += 1;
      more[end] -= 1;
    };
    for (let at = from + 1; at < to; at += 1) {
      const cell = order[at];
      if (least[cell] !== place[cell]) continue;
      this.bridges.push([Math.min(cell, parent[cell]), Math.max(cell, parent[cell])]);
      const [begin, end] = [at - from, at - from + below[cell]];
      if (below[cell] < robots) add(begin, end);
      if (to - from - below[cell] < robots) {
        add(0, begin);
        add(end, to - from);
      }
    }
    let small = 0;
    for (let at = from; at < to; at += 1) {
      small += more[at - from];
      if (small > 0) this.unroomy[order[at]] = 1;
    }
  }
}

// ---- what is wrong with the entry that breaks a rule

// The rule and the entry are the judge's, which the page carries. Which robots and cells are at fault is found here.

const RULES = [
  '',
  'the opening is not in order',
  'there is no such client',
  'the verdict is not the one that is due',
  'the step is not free of conflicts',
  'the arrivals are not those that are due',
  'the farewells are not those that are due',
  'a stamp is outside of its law',
  'there is no such robot, or it is shut already',
];

const NO_DETAIL = { detail: '', robots: [], cells: [] };

// Of each robot: that its cell is no floor, or that another one, the first of them, is on it.
function* faultsOfPlaces(map, cells) {
  const first = new Map();
  for (let robot = 0; robot < cells.length; robot += 1) {
    const cell = cells[robot];
    if (!map.floor[cell]) {
      yield { detail: `robot ${robot} is on cell ${cell}, which is no floor`, robots: [robot], cells: [cell] };
    } else if (first.has(cell)) {
      const other = first.get(cell);
      yield { detail: `robots ${other} and ${robot} are on cell ${cell}`, robots: [other, robot], cells: [cell] };
    } else {
      first.set(cell, robot);
    }
  }
}

function isNear(map, one, other) {
  let near = one === other;
  eachNeighbour(map, one, (beside) => { near = near || beside === other; });
  return near;
}

// Of each robot: that it goes too far, or that it exchanges its cell with that of a later one.
function* faultsOfMoves(map, from, to) {
  const at = new Map();
  from.forEach((cell, robot) => at.set(cell, robot));
  for (let robot = 0; robot < to.length; robot += 1) {
    const [old, cell] = [from[robot], to[robot]];
    const cells = [old, cell];
    const other = at.get(cell);
    if (!isNear(map, old, cell)) {
      const detail = `robot ${robot} goes from cell ${old} to cell ${cell}, which is no neighbour`;
      yield { detail, robots: [robot], cells };
    } else if (other !== undefined && other > robot && old !== cell && to[other] === old) {
      const detail = `robots ${robot} and ${other} exchange the cells ${old} and ${cell}`;
      yield { detail, robots: [robot, other], cells };
    }
  }
}

function* faultsOfStep(map, from, to) {
  if (to.length !== from.length) {
    yield { ...NO_DETAIL, detail: `it has ${to.length} cells for ${from.length} robots` };
    return;
  }
  yield* faultsOfPlaces(map, to);
  yield* faultsOfMoves(map, from, to);
}

function firstOf(faults) {
  return faults.next().value ?? NO_DETAIL;
}

function detailOfOpening(map, opening) {
  return firstOf(faultsOfPlaces(map, opening.robots.map((robot) => robot[0])));
}

// The first robot of which one list tells and the other does not.
function firstOdd(due, shown, to, missing, extra) {
  const one = (robot, what) => ({
    detail: `robot ${robot} ${what}`,
    robots: [robot],
    cells: robot < to.length ? [to[robot]] : [],
  });
  const missed = due.find((robot) => !shown.includes(robot));
  if (missed !== undefined) return one(missed, missing);
  const wrong = shown.find((robot) => !due.includes(robot));
  if (wrong !== undefined) return one(wrong, extra);
  return { detail: '', robots: due, cells: due.map((robot) => to[robot]) };
}

function detailOfTick(replay, trace, entry, rule) {
  const { cells, queues, shut } = replay.state;
  const [, to, arrived, farewells] = entry;
  if (rule === 4) return firstOf(faultsOfStep(replay.map, cells, to));
  const due = [...to.keys()].filter((robot) => queues[robot].length > 0 && queues[robot][0].cell === to[robot]);
  if (rule === 5) {
    const shown = arrived.map((arrival) => arrival[0]);
    return firstOdd(due, shown, to, 'arrives there, which is not told', 'has no errand to that cell first');
  }
  if (rule === 6) {
    const leaving = due.filter((robot) => shut[robot] && queues[robot].length === 1);
    const shown = farewells.map((farewell) => farewell[0]);
    return firstOdd(leaving, shown, to, 'is shut and done, and has no farewell', 'has a farewell that is not due');
  }
  const laws = trace.opening.robots;
  const outside = (law, stamp) => stamp < law[0] || stamp > law[1];
  const odd = [
    ...arrived.filter((arrival) => outside(laws[arrival[0]][4], arrival[3])).map((arrival) => arrival[0]),
    ...farewells.filter((farewell) => outside(laws[farewell[0]][5], farewell[1])).map((farewell) => farewell[0]),
  ];
  const detail = odd.length > 0 ? `it is that of robot ${odd[0]}` : '';
  return { detail, robots: odd, cells: odd.map((robot) => to[robot]) };
}

// The entry follows what the replay's state is.
function detailOf(replay, trace, entry, verdict) {
  if (entry[0] === 'tick') return detailOfTick(replay, trace, entry, verdict.rule);
  const robot = entry[0] === 'shut' ? entry[1] : entry[2][0] === 'go' ? entry[2][1] : -1;
  const known = robot >= 0 && robot < replay.robots;
  const robots = known ? [robot] : [];
  return { detail: '', robots, cells: robots.map((one) => replay.state.cells[one]) };
}

function faultText(fault) {
  const where = fault.at === 0 ? 'in its opening' : `at entry ${fault.at}`;
  const detail = fault.detail === '' ? '' : `: ${fault.detail}`;
  return `illegal ${where}: it breaks rule ${fault.rule}, ${RULES[fault.rule] ?? 'unknown'}${detail}`;
}

// The most that are listed.
const MOST_CONFLICTS = 20000;

function conflictsText(count) {
  const listed = count > MOST_CONFLICTS ? `the first ${MOST_CONFLICTS}` : 'each';
  return `${count} conflict${count === 1 ? '' : 's'} in all: ${listed} among the events, with the tick.`;
}

const MOST_BANNERS = 5;

// The lines of the banner, with a jump to each fault.
function bannerLines(replay, jump) {
  const { faults, conflicts } = replay;
  const lines = faults.slice(0, MOST_BANNERS).map((fault) => {
    const line = document.createElement('p');
    const button = document.createElement('button');
    button.type = 'button';
    button.className = 'jump';
    button.textContent = `Show tick ${replay.clockAt(fault.frame)}`;
    button.addEventListener('click', () => jump(fault.frame));
    const of = replay.chapters.length > 1 ? `Chapter ${fault.chapter} is ` : 'This trace is ';
    line.append(`${of}${faultText(fault)}. `, button);
    return line;
  });
  if (faults.length > MOST_BANNERS) lines.push(`${faults.length - MOST_BANNERS} more chapters are illegal.`);
  if (conflicts > 0) lines.push(conflictsText(conflicts));
  return lines;
}

// ---- what stands at a frame, and how it changes

// A robot as an opening has it at this frame.
function openedRobot([, shut, wait, errands], frame) {
  return {
    queue: errands.map(([client, number, cell]) => ({ client, number, cell })),
    // the frame at which the wait began, as if it had been counted from the first opening on
    since: wait === null ? NaN : frame - wait,
    shut: shut ? 1 : 0,
  };
}

// What stands at the first frame.
function openedState(opening) {
  const robots = opening.robots.map((robot) => openedRobot(robot, 0));
  return {
    frame: 0,
    cells: Int32Array.from(opening.robots, (robot) => robot[0]),
    queues: robots.map((robot) => robot.queue),
    since: Float64Array.from(robots, (robot) => robot.since),
    shut: Uint8Array.from(robots, (robot) => robot.shut),
  };
}

function sameQueue(one, other) {
  return one.length === other.length && one.every((errand, place) => errand.client === other[place].client
    && errand.number === other[place].number && errand.cell === other[place].cell);
}

function exchange(state, event) {
  const { robot, other } = event;
  event.other = { queue: state.queues[robot], since: state.since[robot], shut: state.shut[robot] };
  state.queues[robot] = other.queue;
  state.since[robot] = other.since;
  state.shut[robot] = other.shut;
}

// An event is a change that can be done and undone, with the entry that it stands for.
const EVENTS = {
  join: {
    go(state, event) {
      const queue = state.queues[event.robot];
      queue.push(event.errand);
      if (queue.length === 1) state.since[event.robot] = event.frame;
    },
    back(state, event) {
      const queue = state.queues[event.robot];
      queue.pop();
      if (queue.length === 0) state.since[event.robot] = NaN;
    },
  },
  withdraw: {
    go(state, event) { state.queues[event.robot].splice(event.place, 1); },
    back(state, event) { state.queues[event.robot].splice(event.place, 0, event.errand); },
  },
  arrive: {
    go(state, event) {
      const queue = state.queues[event.robot];
      event.errand = queue.shift();
      event.since = state.since[event.robot];
      state.since[event.robot] = queue.length > 0 ? event.frame : NaN;
    },
    back(state, event) {
      if (event.errand !== undefined) state.queues[event.robot].unshift(event.errand);
      state.since[event.robot] = event.since;
    },
  },
  shut: {
    go(state, event) {
      event.before = state.shut[event.robot];
      state.shut[event.robot] = 1;
    },
    back(state, event) { state.shut[event.robot] = event.before; },
  },
  // a chapter opens with another queue, wait or shut of a robot than the one before it ends with
  reopen: { go: exchange, back: exchange },
  // a chapter begins, or an order that changes nothing
  note: { go() {}, back() {} },
};

function errandPlace(state, client, number) {
  for (let robot = 0; robot < state.queues.length; robot += 1) {
    const place = state.queues[robot].findIndex((errand) => errand.client === client && errand.number === number);
    if (place >= 0) return { robot, place };
  }
  return null;
}

function takeEvent(state, entry) {
  const { frame } = state;
  const [, client, order, verdict] = entry;
  if (verdict[0] === 'accepted' && order[0] === 'go' && order[1] < state.queues.length) {
    return { kind: 'join', frame, robot: order[1], errand: { client, number: verdict[1], cell: order[2] }, entry };
  }
  if (verdict[0] === 'withdrawn' && order[0] === 'withdraw') {
    const found = errandPlace(state, client, order[1]);
    if (found !== null) {
      return { kind: 'withdraw', frame, ...found, errand: state.queues[found.robot][found.place], entry };
    }
  }
  return { kind: 'note', frame, entry };
}

// ---- the replay

function countMoves(traces) {
  let moves = 0;
  let ticks = 0;
  for (const trace of traces) {
    let cells = trace.opening.robots.map((robot) => robot[0]);
    for (const entry of trace.entries) {
      if (entry[0] !== 'tick') continue;
      const to = entry[1];
      for (let robot = 0; robot < to.length; robot += 1) if (to[robot] !== cells[robot]) moves += 1;
      cells = to;
      ticks += 1;
    }
  }
  return { moves, ticks };
}

class Replay {
  // A verdict of the judge stands for each trace, in order; null says that it is legal.
  constructor(map, traces, verdicts) {
    const { moves, ticks } = countMoves(traces);
    this.map = map;
    this.last = ticks;
    this.robots = traces[0].opening.robots.length;
    this.moveStart = new Uint32Array(ticks + 2);
    this.moveRobot = new Uint16Array(moves);
    this.moveDelta = new Int32Array(moves);
    // by frame, a bit for each robot that stood still in the tick to it although it had an errand
    this.stoodBytes = Math.ceil(this.robots / 8);
    this.stood = new Uint8Array((ticks + 1) * this.stoodBytes);
    this.events = new Array(ticks + 1);
    this.arrivals = new Uint32Array(ticks + 1);
    this.unfinished = new Uint32Array(ticks + 1);
    this.idle = new Uint32Array(ticks + 1);
    this.wait = new Float64Array(ticks + 1);
    this.eldest = new Int32Array(ticks + 1);
    // by frame, the goal of the robot that was the eldest before the tick to this frame, and whence and where it went
    this.eldestGoal = new Int32Array(ticks + 1).fill(-1);
    this.eldestFrom = new Int32Array(ticks + 1);
    this.eldestTo = new Int32Array(ticks + 1);
    this.openings = [];
    this.chapters = [];
    this.faults = [];
    this.conflicts = 0;
    this.state = openedState(traces[0].opening);
    this.build(traces, verdicts);
    this.seek(0);
  }

  build(traces, verdicts) {
    let arrived = 0;
    traces.forEach((trace, place) => {
      const verdict = verdicts[place] ?? null;
      this.openChapter(trace, verdict);
      trace.entries.forEach((entry, number) => {
        const fault = verdict !== null && verdict.at === number + 1 ? detailOf(this, trace, entry, verdict) : null;
        if (entry[0] === 'tick') {
          const conflicts = verdict === null ? [] : [...faultsOfStep(this.map, this.state.cells, entry[1])];
          this.measure(arrived);
          this.addTick(entry);
          this.addConflicts(conflicts);
          arrived += entry[2].length;
        } else if (entry[0] === 'take') {
          this.push(takeEvent(this.state, entry));
        } else {
          this.push({ kind: this.kindFor('shut', entry[1]), frame: this.state.frame, robot: entry[1], entry });
        }
        if (fault !== null) this.addFault(trace, verdict, fault);
      });
      trace.entries = null;
    });
    this.measure(arrived);
  }

  openChapter(trace, verdict) {
    const { state } = this;
    const { frame } = state;
    this.chapters.push({ number: trace.chapter, frame, clock: trace.clock });
    if (this.chapters.length > 1) {
      this.push({ kind: 'note', frame, entry: ['chapter', trace.chapter] });
      for (let robot = 0; robot < this.robots; robot += 1) {
        const other = openedRobot(trace.opening.robots[robot] ?? [0, false, null, []], frame);
        const same = sameQueue(other.queue, state.queues[robot])
          && Object.is(other.since, state.since[robot]) && other.shut === state.shut[robot];
        if (!same) this.push({ kind: 'reopen', frame, robot, other, entry: ['reopened', robot] });
      }
    }
    this.openings.push({
      cells: state.cells.slice(),
      waits: Array.from(state.since, (since) => (since === since ? frame - since : null)),
      goals: state.queues.map((queue) => (queue.length > 0 ? queue[0].cell : -1)),
    });
    if (verdict !== null && verdict.at === 0) {
      this.addFault(trace, verdict, detailOfOpening(this.map, trace.opening));
      this.addConflicts([...faultsOfPlaces(this.map, trace.opening.robots.map((robot) => robot[0]))]);
    }
  }

  // Conflicts are looked for in illegal chapters alone.
  addConflicts(conflicts) {
    for (const conflict of conflicts) {
      this.conflicts += 1;
      if (this.conflicts > MOST_CONFLICTS) continue;
      this.push({ kind: 'note', frame: this.state.frame, entry: ['conflict', conflict] });
    }
  }

  addFault(trace, verdict, detail) {
    this.faults.push({ chapter: trace.chapter, ...verdict, frame: this.state.frame, ...detail });
  }

  // An illegal trace may tell of a robot that there is none of: nothing changes by that.
  kindFor(kind, robot) {
    return robot < this.robots ? kind : 'note';
  }

  push(event) {
    const { frame } = this.state;
    (this.events[frame] ??= []).push(event);
    EVENTS[event.kind].go(this.state, event);
  }

  addTick(entry) {
    const { state } = this;
    const [, to, arrived, farewells] = entry;
    const eldest = this.eldest[state.frame];
    state.frame += 1;
    const { frame } = state;
    if (eldest >= 0 && state.queues[eldest].length > 0) {
      this.eldestGoal[frame] = state.queues[eldest][0].cell;
      this.eldestFrom[frame] = state.cells[eldest];
      this.eldestTo[frame] = to[eldest] ?? state.cells[eldest];
    }
    this.addMoves(to);
    for (const arrival of arrived) {
      const event = { kind: this.kindFor('arrive', arrival[0]), frame, robot: arrival[0] };
      this.push({ ...event, entry: ['arrival', to[arrival[0]], ...arrival] });
    }
    for (const farewell of farewells) this.push({ kind: 'note', frame, entry: ['farewell', ...farewell] });
  }

  addMoves(to) {
    const { state } = this;
    let at = this.moveStart[state.frame];
    const count = Math.min(to.length, state.cells.length);
    for (let robot = 0; robot < count; robot += 1) {
      const delta = to[robot] - state.cells[robot];
      if (delta === 0) {
        if (state.queues[robot].length > 0) this.stood[state.frame * this.stoodBytes + (robot >> 3)] |= 1 << (robot & 7);
        continue;
      }
      this.moveRobot[at] = robot;
      this.moveDelta[at] = delta;
      at += 1;
      state.cells[robot] = to[robot];
    }
    this.moveStart[state.frame + 1] = at;
  }

  // the figures of the frame that the state is at
  measure(arrived) {
    const { state } = this;
    const { frame } = state;
    let unfinished = 0;
    let idle = 0;
    let eldest = -1;
    for (let robot = 0; robot < this.robots; robot += 1) {
      unfinished += state.queues[robot].length;
      if (state.queues[robot].length === 0) idle += 1;
      const since = state.since[robot];
      if (since === since && (eldest < 0 || since < state.since[eldest])) eldest = robot;
    }
    this.arrivals[frame] = arrived;
    this.unfinished[frame] = unfinished;
    this.idle[frame] = idle;
    this.eldest[frame] = eldest;
    this.wait[frame] = eldest < 0 ? -1 : frame - state.since[eldest];
  }

  go() {
    const { state } = this;
    state.frame += 1;
    for (let at = this.moveStart[state.frame]; at < this.moveStart[state.frame + 1]; at += 1) {
      state.cells[this.moveRobot[at]] += this.moveDelta[at];
    }
    for (const event of this.events[state.frame] ?? []) EVENTS[event.kind].go(state, event);
  }

  back() {
    const { state } = this;
    const events = this.events[state.frame] ?? [];
    for (let place = events.length - 1; place >= 0; place -= 1) EVENTS[events[place].kind].back(state, events[place]);
    for (let at = this.moveStart[state.frame]; at < this.moveStart[state.frame + 1]; at += 1) {
      state.cells[this.moveRobot[at]] -= this.moveDelta[at];
    }
    state.frame -= 1;
  }

  seek(frame) {
    while (this.state.frame < frame) this.go();
    while (this.state.frame > frame) this.back();
  }

  // Whose turn it is in the next tick; worked out once a frame.
  turnsNow() {
    if (this.stepTurns?.frame !== this.state.frame) this.stepTurns = stepTurns(this);
    return this.stepTurns;
  }

  // The robots' cells after the next tick.
  cellsAfter() {
    const { frame, cells } = this.state;
    const next = cells.slice();
    if (frame === this.last) return next;
    for (let at = this.moveStart[frame + 1]; at < this.moveStart[frame + 2]; at += 1) next[this.moveRobot[at]] += this.moveDelta[at];
    return next;
  }

  waitOf(robot) {
    const since = this.state.since[robot];
    return since === since ? this.state.frame - since : null;
  }

  chapterAt(frame) {
    let chapter = this.chapters[0];
    for (const next of this.chapters) if (next.frame <= frame) chapter = next;
    return chapter;
  }

  clockAt(frame) {
    const chapter = this.chapterAt(frame);
    return chapter.clock + BigInt(frame - chapter.frame);
  }

  // The frame at which the clock shows this tick.
  frameOf(clock) {
    const frame = clock - this.chapters[0].clock;
    if (frame <= 0n) return 0;
    return frame >= BigInt(this.last) ? this.last : Number(frame);
  }

  // What is wrong at a frame: what the judge names, and each conflict.
  faultsAt(frame) {
    const conflicts = (this.events[frame] ?? []).filter(isConflict).map((event) => event.entry[1]);
    return [...this.faults.filter((fault) => fault.frame === frame), ...conflicts];
  }

  arrivedAt(frame) {
    return (this.events[frame] ?? []).filter((event) => event.kind === 'arrive').map((event) => event.robot);
  }

  // The cells of a robot at the frames from one to another, the last one included.
  pathOf(robot, from, to) {
    const { frame } = this.state;
    const first = Math.max(0, from);
    const last = Math.min(this.last, to);
    const cells = [this.state.cells[robot]];
    for (let past = frame; past > first; past -= 1) cells.unshift(cells[0] - this.deltaOf(robot, past));
    for (let next = frame + 1; next <= last; next += 1) cells.push(cells[cells.length - 1] + this.deltaOf(robot, next));
    return { cells, here: frame - first };
  }

  // By how much the cell of a robot changes in the tick to a frame. The robots of a frame's moves rise.
  deltaOf(robot, frame) {
    let low = this.moveStart[frame];
    let high = this.moveStart[frame + 1];
    while (low < high) {
      const middle = (low + high) >> 1;
      if (this.moveRobot[middle] < robot) low = middle + 1;
      else high = middle;
    }
    return low < this.moveStart[frame + 1] && this.moveRobot[low] === robot ? this.moveDelta[low] : 0;
  }
}

// ---- whose turn it is in a step, and who pushes whom

// The robots in the order in which a step is planned: by their waits, the longest first, those without an errand last; of
// two alike the one with the lesser number.
function orderOf(waits) {
  const before = (one, other) => (waits[other] ?? -1) - (waits[one] ?? -1) || one - other;
  return Array.from(waits.keys()).sort(before);
}

// For each robot its place in the order, from 1.
function turnsOf(order) {
  const turns = new Int32Array(order.length);
  order.forEach((robot, place) => { turns[robot] = place + 1; });
  return turns;
}

// For each robot the one that pushes it in a step from some cells to others, else -1. A robot pushes the one whose cell it comes
// to, if that one had no cell yet: neither its turn had come, nor had it been pushed.
function pushesOf(cells, next, order) {
  const pushedBy = new Int32Array(cells.length).fill(-1);
  const placed = new Uint8Array(cells.length);
  const at = new Map();
  cells.forEach((cell, robot) => at.set(cell, robot));
  for (const first of order) {
    let robot = first;
    while (robot !== undefined && !placed[robot]) {
      placed[robot] = 1;
      const other = next[robot] === cells[robot] ? undefined : at.get(next[robot]);
      // one that stays was not pushed away: there is a conflict
      if (other === undefined || placed[other] || next[other] === cells[other]) break;
      pushedBy[other] = robot;
      robot = other;
    }
  }
  return pushedBy;
}

// The order at a replay's frame, and who pushes whom in the next tick; null after the last one, and where it breaks a rule.
function stepTurns(replay) {
  const { frame, cells } = replay.state;
  const waits = Array.from(cells, (_, robot) => replay.waitOf(robot));
  const order = orderOf(waits);
  const known = frame < replay.last && replay.faultsAt(frame + 1).length === 0;
  const next = known ? replay.cellsAfter() : null;
  return { frame, turns: turnsOf(order), next, pushedBy: known ? pushesOf(cells, next, order) : null };
}

function turnText({ turns, pushedBy }, robot) {
  const texts = [`Its turn is number ${turns[robot]} of ${turns.length}.`];
  if (pushedBy === null) return texts[0];
  if (pushedBy[robot] >= 0) texts.push(`Robot ${pushedBy[robot]} pushes it in the next tick.`);
  const pushed = pushedBy.indexOf(robot);
  if (pushed >= 0) texts.push(`It pushes robot ${pushed}.`);
  return texts.join(' ');
}

// ---- the bound on waits

// On a map without bridges no wait of a legal history reaches the number of robots times the greatest distance, if
// each tick advances (the eldest robot comes nearer to its goal, or is on it and stays) and the waits at the opening
// leave room for that. All of this is looked at before a bound is shown. The search works in slices, so that the page
// does not stand still: each of these is a generator, which returns its result and yields in between.

const MOST_CELLS = 6000;
const MOST_VISITS = 4e8;

// The greatest distance of two cells that a walk joins, at least 1.
function* greatestDistance(map, distances) {
  let greatest = 1;
  for (let cell = 0; cell < map.floor.length; cell += 1) {
    if (!map.floor[cell]) continue;
    greatest = Math.max(greatest, distances.from(cell));
    yield;
  }
  return greatest;
}

// The frame of a tick that does not advance; 0 if each advances, -1 if that takes too long to find out.
function* firstIdleTick(replay, distances, floorCount) {
  const byGoal = new Map();
  for (let frame = 1; frame <= replay.last; frame += 1) {
    const goal = replay.eldestGoal[frame];
    if (goal < 0) continue;
    if (!byGoal.has(goal)) byGoal.set(goal, []);
    byGoal.get(goal).push(frame);
  }
  if (byGoal.size * floorCount > MOST_VISITS) return -1;
  let first = 0;
  for (const [goal, frames] of byGoal) {
    distances.from(goal);
    for (const frame of frames) {
      const [from, to] = [replay.eldestFrom[frame], replay.eldestTo[frame]];
      const far = distances.of(from);
      const advances = far === 0 ? to === goal : far > 0 && distances.of(to) === far - 1;
      if (!advances && (first === 0 || frame < first)) first = frame;
    }
    yield;
  }
  return first;
}

// How many robots have waited longer than robot r, or as long with a lesser number.
function countBefore(waits, r) {
  return waits.filter((wait, other) => wait !== null && (wait > waits[r] || (wait === waits[r] && other < r))).length;
}

// Whether the waits at an opening leave room for the bound.
function leavesRoom(opening, far, distances) {
  const { waits, goals, cells } = opening;
  if (waits.every((wait) => wait === null || wait === 0)) return true;
  if (far === null) return false;
  let eldest = -1;
  waits.forEach((wait, robot) => {
    if (wait !== null && (eldest < 0 || wait > waits[eldest])) eldest = robot;
  });
  distances.from(goals[eldest]);
  const way = Math.max(1, distances.of(cells[eldest]));
  const most = waits.length * far;
  return waits.every((wait, robot) => wait === null || wait + way + countBefore(waits, robot) * far <= most);
}

// The bound, or null, and why in words.
function* findBound(map, replay) {
  const none = (why) => ({ bound: null, text: `No bound on waits is shown: ${why}.` });
  if (replay.faults.length > 0) return none(`chapter ${replay.faults[0].chapter} is illegal`);
  if (hasBridge(map)) return none('the map has a bridge, where robots may have to wait for ever');
  yield;
  const distances = new Distances(map);
  const floorCount = countFloor(map);
  const idle = yield* firstIdleTick(replay, distances, floorCount);
  if (idle < 0) return none('it would take too long to find out whether each tick advances');
  if (idle > 0) {
    return none(`in tick ${replay.clockAt(idle)} the robot that had waited longest came no nearer to its goal`);
  }
  const small = floorCount <= MOST_CELLS;
  const far = small ? yield* greatestDistance(map, distances) : null;
  if (!replay.openings.every((opening) => leavesRoom(opening, far, distances))) {
    return none('robots had waited too long when it began');
  }
  const factor = small ? far : Math.max(1, floorCount - 1);
  const bound = replay.robots * factor;
  const kind = small ? `the greatest distance, ${far}` : `the floor cells less one, ${factor}`;
  const sum = `that is ${replay.robots} robots times ${kind}`;
  return { bound, text: `Every wait is below ${bound}: ${sum}. The map has no bridge, and each tick advances.` };
}

// ---- colours

// The luminance of WCAG, from 0 to 1, of red, green and blue from 0 to 1.
function luminanceOf(channels) {
  const [red, green, blue] = channels.map((part) => (part <= 0.04045 ? part / 12.92 : ((part + 0.055) / 1.055) ** 2.4));
  return 0.2126 * red + 0.7152 * green + 0.0722 * blue;
}

function contrastOf(one, other) {
  return (Math.max(one, other) + 0.05) / (Math.min(one, other) + 0.05);
}

// The luminance of a colour that is written as #rrggbb.
function luminanceOfHex(text) {
  return luminanceOf([1, 3, 5].map((at) => Number.parseInt(text.slice(at, at + 2), 16) / 255));
}

// Red, green and blue of a hue in degrees; saturation and lightness are from 0 to 1.
function channelsOf(hue, saturation, lightness) {
  const reach = saturation * Math.min(lightness, 1 - lightness);
  return [0, 8, 4].map((n) => {
    const k = (n + hue / 30) % 12;
    return lightness - reach * Math.max(-1, Math.min(k - 3, 9 - k, 1));
  });
}

// The colour of digits on a ground: the one of more contrast.
function digitsOn(luminance) {
  return contrastOf(1, luminance) >= contrastOf(0, luminance) ? '#ffffff' : '#000000';
}

const COLOURS = [
  'page', 'card', 'ink', 'soft', 'line', 'floor', 'wall', 'shelf', 'grid', 'idle', 'accent', 'mark', 'fault', 'heat',
];
const SATURATION = 0.62;
const LEAST_CONTRAST = 3;

// A colour for each robot: hues far from one another, as light or dark as it takes to stand out from the floor.
function robotColour(robot, floor) {
  const hue = (robot * 137.508) % 360;
  const step = floor > 0.5 ? -0.02 : 0.02;
  let lightness = 0.46;
  let luminance = luminanceOf(channelsOf(hue, SATURATION, lightness));
  while (contrastOf(luminance, floor) < LEAST_CONTRAST) {
    lightness += step;
    luminance = luminanceOf(channelsOf(hue, SATURATION, lightness));
  }
  return { fill: `hsl(${hue.toFixed(1)} 62% ${Math.round(lightness * 100)}%)`, luminance, digits: digitsOn(luminance) };
}

function readColours(robots) {
  const style = getComputedStyle(document.documentElement);
  const colours = {};
  for (const name of COLOURS) {
    colours[name] = style.getPropertyValue(`--${name}`).trim();
  }
  const floor = luminanceOfHex(colours.floor);
  colours.robots = Array.from({ length: robots }, (_, robot) => robotColour(robot, floor));
  colours.digitsOnIdle = digitsOn(luminanceOfHex(colours.idle));
  return colours;
}

// The shades of heat as pixels: 255 steps of one colour, and nothing where no robot came.
function shadesOf(heat) {
  const [red, green, blue] = heat.split(',').map(Number);
  const bytes = new Uint8ClampedArray(256 * 4);
  for (let step = 1; step < 256; step += 1) bytes.set([red, green, blue, 30 + 180 * step / 255], 4 * step);
  return new Uint32Array(bytes.buffer);
}

// ---- where the map lies on its canvas

// the greatest width of a cell in pixels, and how far even a small map may be zoomed
const MOST_CELL = 120;
const LEAST_MOST_ZOOM = 4;
// the least height of the map, and the margins below it, in pixels
const LEAST_HIGH = 240;
const BELOW = 48;

class MapPlace {
  constructor(canvas, map) {
    this.canvas = canvas;
    this.map = map;
    // the zoom, 1 where the whole map is shown, and the place of the map that is in the middle, in cells
    this.zoom = 1;
    this.middle = { x: map.width / 2, y: map.height / 2 };
    this.leastHigh = LEAST_HIGH;
  }

  // How far down on the page the map begins.
  above() {
    return this.canvas.getBoundingClientRect().top + window.scrollY;
  }

  // How high the map may be: with its slider in the window; in one column it leaves room for what is told below it.
  room() {
    const isOneColumn = matchMedia('(max-width: 900px)').matches;
    const below = isOneColumn ? window.innerHeight * 0.25 : element('time').offsetHeight + BELOW;
    return Math.max(LEAST_HIGH, window.innerHeight - this.above() - below);
  }

  // The map is as high as it can be. Zoom and middle stay.
  resize() {
    const { height, width } = this.map;
    const room = this.canvas.clientWidth;
    const high = Math.max(this.leastHigh, Math.min(room * height / width, this.room()));
    this.ratio = window.devicePixelRatio || 1;
    this.canvas.style.height = `${high}px`;
    this.canvas.width = Math.round(room * this.ratio);
    this.canvas.height = Math.round(high * this.ratio);
    this.fitScale = Math.min(this.canvas.width / width, this.canvas.height / height);
    this.place();
  }

  // Where the map lies on the canvas. It cannot leave it: a side that is shown whole is centred.
  place() {
    const { height, width } = this.map;
    const { canvas, middle } = this;
    this.zoom = this.zoomWithin(this.zoom);
    const scale = this.fitScale * this.zoom;
    const within = (place, side, room) => {
      const half = room / scale / 2;
      return half >= side / 2 ? side / 2 : Math.min(Math.max(place, half), side - half);
    };
    middle.x = within(middle.x, width, canvas.width);
    middle.y = within(middle.y, height, canvas.height);
    this.view = { scale, left: canvas.width / 2 - middle.x * scale, top: canvas.height / 2 - middle.y * scale };
    // one finger scrolls the page while the whole map is shown, and moves the map when it is zoomed
    canvas.style.touchAction = this.zoom > 1 ? 'none' : 'pan-x pan-y';
  }

  show(zoom, middle) {
    this.zoom = zoom;
    this.middle = { ...middle };
    this.place();
  }

  zoomWithin(zoom) {
    return Math.min(Math.max(zoom, 1), Math.max(LEAST_MOST_ZOOM, MOST_CELL * this.ratio / this.fitScale));
  }

  fit() {
    this.zoom = 1;
    this.place();
  }

  // The point x, y of the canvas stays where it is.
  zoomAt(factor, x, y) {
    const { view } = this;
    const [column, row] = [(x - view.left) / view.scale, (y - view.top) / view.scale];
    this.zoom = this.zoomWithin(this.zoom * factor);
    const scale = this.fitScale * this.zoom;
    this.middle.x = column + (this.canvas.width / 2 - x) / scale;
    this.middle.y = row + (this.canvas.height / 2 - y) / scale;
    this.place();
  }

  drag(x, y) {
    this.middle.x -= x / this.view.scale;
    this.middle.y -= y / this.view.scale;
    this.place();
  }

  // Moves the view by parts of what is shown.
  pan(right, down) {
    this.drag(-right * this.canvas.width, -down * this.canvas.height);
  }

  cellAt(x, y) {
    const { height, width } = this.map;
    const column = Math.floor((x - this.view.left) / this.view.scale);
    const row = Math.floor((y - this.view.top) / this.view.scale);
    return column >= 0 && column < width && row >= 0 && row < height ? row * width + column : -1;
  }

  centre(cell) {
    const { width } = this.map;
    this.middle = { x: cell % width + 0.5, y: Math.floor(cell / width) + 0.5 };
    this.place();
  }

  // The middle of a cell on the canvas.
  pointOf(cell) {
    const { width } = this.map;
    const { view } = this;
    return [view.left + (cell % width + 0.5) * view.scale, view.top + (Math.floor(cell / width) + 0.5) * view.scale];
  }
}

// ---- the map without what is on it

class MapFloor extends MapPlace {
  constructor(canvas, map) {
    super(canvas, map);
    this.pen = canvas.getContext('2d');
  }

  // A canvas of one pixel a cell, which is drawn larger.
  cellCanvas() {
    const canvas = document.createElement('canvas');
    canvas.width = this.map.width;
    canvas.height = this.map.height;
    return canvas;
  }

  paintLetters(colours) {
    const { height, width, letters, floor } = this.map;
    this.colours = colours;
    this.ground = this.cellCanvas();
    const pen = this.ground.getContext('2d');
    pen.fillStyle = colours.floor;
    pen.fillRect(0, 0, width, height);
    for (let cell = 0; cell < floor.length; cell += 1) {
      if (floor[cell]) continue;
      pen.fillStyle = letters[cell] === 'T' || letters[cell] === 'W' ? colours.shelf : colours.wall;
      pen.fillRect(cell % width, Math.floor(cell / width), 1, 1);
    }
  }

  drawCells(canvas) {
    const { view, map } = this;
    this.pen.drawImage(canvas, view.left, view.top, map.width * view.scale, map.height * view.scale);
  }

  // What an extension draws between the floor and the lines of the map.
  drawOnFloor() {}

  drawGround(numbered) {
    const { pen, view, map, colours, canvas } = this;
    pen.setTransform(1, 0, 0, 1, 0, 0);
    pen.globalAlpha = 1;
    pen.fillStyle = colours.card;
    pen.fillRect(0, 0, canvas.width, canvas.height);
    pen.imageSmoothingEnabled = false;
    this.drawCells(this.ground);
    this.drawOnFloor();
    pen.strokeStyle = colours.line;
    pen.lineWidth = 1;
    pen.strokeRect(view.left, view.top, map.width * view.scale, map.height * view.scale);
    if (numbered) this.drawGrid();
  }

  drawGrid() {
    const { pen, view, colours } = this;
    const { height, width } = this.map;
    pen.strokeStyle = colours.grid;
    pen.lineWidth = 1;
    pen.beginPath();
    for (let column = 0; column <= width; column += 1) {
      const x = Math.round(view.left + column * view.scale) + 0.5;
      pen.moveTo(x, view.top);
      pen.lineTo(x, view.top + height * view.scale);
    }
    for (let row = 0; row <= height; row += 1) {
      const y = Math.round(view.top + row * view.scale) + 0.5;
      pen.moveTo(view.left, y);
      pen.lineTo(view.left + width * view.scale, y);
    }
    pen.stroke();
  }
}

// ---- heat: what robots did on each cell, in the last ticks up to a frame

const HEAT_KINDS = ['came', 'stood'];

// `came` counts the ticks in which a robot came to a cell, `stood` those in which one with an errand stayed on it.
class Heat {
  constructor(replay) {
    this.replay = replay;
    this.counts = new Uint32Array(replay.map.floor.length);
    this.choose('came', 0);
  }

  // `window` is the number of ticks that are counted, 0 for all.
  choose(kind, window) {
    this.kind = kind;
    this.window = window;
    this.frame = -1;
    this.startAnew();
  }

  // By count, how many cells have it; the greatest count; and the cells whose count changed, null for all.
  startAnew() {
    this.counts.fill(0);
    this.tally = [this.counts.length];
    this.most = 0;
    this.changed = null;
  }

  change(cell, by) {
    const before = this.counts[cell];
    const now = before + by;
    this.counts[cell] = now;
    this.tally[before] -= 1;
    this.tally[now] = (this.tally[now] ?? 0) + 1;
    if (now > this.most) this.most = now;
    while (this.most > 0 && this.tally[this.most] === 0) this.most -= 1;
    if (this.changed !== null) this.changed.push(cell);
  }

  // Counts what was done in the tick to a frame, after which robots are on these cells; by -1 it is no longer counted.
  count(frame, cells, by) {
    const { replay } = this;
    if (this.kind === 'came') {
      const end = replay.moveStart[frame + 1];
      for (let at = replay.moveStart[frame]; at < end; at += 1) this.change(cells[replay.moveRobot[at]], by);
      return;
    }
    const { stood, stoodBytes } = replay;
    for (let byte = 0; byte < stoodBytes; byte += 1) {
      let bits = stood[frame * stoodBytes + byte];
      for (let robot = byte * 8; bits !== 0; robot += 1, bits >>= 1) if (bits & 1) this.change(cells[robot], by);
    }
  }

  // Moves robots on these cells by the moves of the tick to a frame, or back by sign -1.
  move(frame, cells, sign) {
    const { moveStart, moveRobot, moveDelta } = this.replay;
    for (let at = moveStart[frame]; at < moveStart[frame + 1]; at += 1) cells[moveRobot[at]] += sign * moveDelta[at];
  }

  // Counts up to the frame that the replay is at: tick by tick, unless all ticks that are counted are fewer.
  follow() {
    const { frame } = this.replay.state;
    const counted = this.window === 0 ? frame : Math.min(this.window, frame);
    if (this.frame < 0 || Math.abs(frame - this.frame) > counted) this.countAnew(frame);
    while (this.frame < frame) this.goOn();
    while (this.frame > frame) this.goBack();
  }

  countAnew(frame) {
    const cells = this.replay.state.cells.slice();
    this.startAnew();
    this.frame = frame;
    this.cells = cells.slice();
    this.first = this.window === 0 ? 0 : Math.max(0, frame - this.window);
    for (let past = frame; past > this.first; past -= 1) {
      this.count(past, cells, 1);
      this.move(past, cells, -1);
    }
    // the cells of the robots before the first tick that is counted
    this.before = cells;
  }

  goOn() {
    this.frame += 1;
    this.move(this.frame, this.cells, 1);
    this.count(this.frame, this.cells, 1);
    if (this.window === 0 || this.frame - this.window <= this.first) return;
    this.first += 1;
    this.move(this.first, this.before, 1);
    this.count(this.first, this.before, -1);
  }

  goBack() {
    this.count(this.frame, this.cells, -1);
    this.move(this.frame, this.cells, -1);
    this.frame -= 1;
    if (this.window === 0 || this.first === 0) return;
    this.count(this.first, this.before, 1);
    this.move(this.first, this.before, -1);
    this.first -= 1;
  }
}

// ---- what lies under the robots: heat, bridges and cells that are not roomy

const ROOMY_STRENGTH = 0.3;
// a bridge's line, in cells
const BRIDGE_WIDTH = 0.14;

class MapGround extends MapFloor {
  constructor(canvas, replay) {
    super(canvas, replay.map);
    this.replay = replay;
    this.heat = new Heat(replay);
  }

  paintLetters(colours) {
    super.paintLetters(colours);
    this.heatCanvas = this.cellCanvas();
    this.heatPixels = this.heatCanvas.getContext('2d').createImageData(this.map.width, this.map.height);
    this.shades = shadesOf(colours.heat);
    this.paintedHeat = undefined;
  }

  drawOnFloor() {
    if (this.shows.heat) this.drawHeat();
    if (this.shows.roomy) this.drawRoomy();
  }

  // Once, when it is first asked for.
  findRoominess() {
    this.roominess ??= new Roominess(this.map, this.replay.robots);
    return this.roominess;
  }

  // The cells that are not roomy for the robots, and the bridges, each as a line between its two cells.
  drawRoomy() {
    const { pen, view, colours } = this;
    const { bridges, unroomy } = this.findRoominess();
    if (this.paintedRoomy !== colours) this.paintRoomy(unroomy);
    this.paintedRoomy = colours;
    pen.globalAlpha = ROOMY_STRENGTH;
    this.drawCells(this.roomyCanvas);
    pen.globalAlpha = 1;
    pen.strokeStyle = colours.fault;
    pen.lineWidth = Math.max(1, view.scale * BRIDGE_WIDTH);
    pen.beginPath();
    for (const [lower, upper] of bridges) {
      pen.moveTo(...this.pointOf(lower));
      pen.lineTo(...this.pointOf(upper));
    }
    pen.stroke();
  }

  paintRoomy(unroomy) {
    this.roomyCanvas = this.cellCanvas();
    const pen = this.roomyCanvas.getContext('2d');
    pen.fillStyle = this.colours.fault;
    unroomy.forEach((is, cell) => {
      if (is) pen.fillRect(cell % this.map.width, Math.floor(cell / this.map.width), 1, 1);
    });
  }

  drawHeat() {
    const { heat } = this;
    heat.follow();
    const painted = `${heat.kind} ${heat.window} ${heat.frame}`;
    if (this.paintedHeat !== painted) this.paintHeat();
    this.paintedHeat = painted;
    this.drawCells(this.heatCanvas);
  }

  // From frame to frame only cells whose count changed are painted, unless the greatest count, which is the scale, did.
  paintHeat() {
    const { heat } = this;
    const pixels = new Uint32Array(this.heatPixels.data.buffer);
    const most = Math.max(1, heat.most);
    const shades = Uint32Array.from({ length: most + 1 }, (_, count) => this.shades[Math.ceil(255 * Math.sqrt(count / most))]);
    if (heat.changed === null || this.mostHeat !== heat.most || this.paintedHeat === undefined) {
      for (let cell = 0; cell < pixels.length; cell += 1) pixels[cell] = shades[heat.counts[cell]];
    } else {
      for (const cell of heat.changed) pixels[cell] = shades[heat.counts[cell]];
    }
    heat.changed = [];
    this.mostHeat = heat.most;
    this.heatCanvas.getContext('2d').putImageData(this.heatPixels, 0, 0);
  }
}

// ---- the order of a step on the map: where robots go, who pushes whom, and whose turn it is

// the width of a cell from which on a robot's turn is written, in pixels
const LEAST_TURN = 26;

class MapTurns extends MapGround {
  // An arrow from one point to another.
  drawArrow(x, y, toX, toY, head) {
    const { pen } = this;
    const angle = Math.atan2(toY - y, toX - x);
    pen.beginPath();
    pen.moveTo(x, y);
    pen.lineTo(toX, toY);
    for (const side of [-0.5, 0.5]) {
      pen.moveTo(toX, toY);
      pen.lineTo(toX - head * Math.cos(angle + side), toY - head * Math.sin(angle + side));
    }
    pen.stroke();
  }

  // Lines from robots to their next cells, and arrows from robots to those that they push.
  drawSteps({ next, pushedBy }) {
    const { pen, view, colours, ratio, xs, ys } = this;
    if (next === null) return;
    const wide = Math.max(1.5 * ratio, Math.min(view.scale / 12, 5 * ratio));
    pen.lineCap = 'round';
    const pushers = new Set(pushedBy);
    pushedBy.forEach((pusher, robot) => {
      if (next[robot] === this.replay.state.cells[robot] || pushers.has(robot)) return;
      const [x, y] = this.pointOf(next[robot]);
      pen.strokeStyle = colours.ink;
      pen.lineWidth = wide;
      this.drawArrow(xs[robot], ys[robot], xs[robot] + (x - xs[robot]) * 0.85, ys[robot] + (y - ys[robot]) * 0.85, view.scale * 0.16);
    });
    pushedBy.forEach((pusher, robot) => {
      if (pusher < 0) return;
      pen.strokeStyle = colours.mark;
      pen.lineWidth = wide * 1.5;
      const [fromX, fromY] = [xs[pusher], ys[pusher]];
      this.drawArrow(fromX, fromY, fromX + (xs[robot] - fromX) * 0.8, fromY + (ys[robot] - fromY) * 0.8, view.scale * 0.24);
    });
    pen.lineCap = 'butt';
  }

  // The turn of each robot, above it.
  drawTurns() {
    const { pen, view, colours, ratio, replay } = this;
    const step = replay.turnsNow();
    this.drawSteps(step);
    if (view.scale < LEAST_TURN * ratio) return;
    const size = Math.min(view.scale * 0.24, 18 * ratio);
    pen.font = `600 ${size.toFixed(1)}px system-ui, sans-serif`;
    pen.textAlign = 'left';
    pen.textBaseline = 'top';
    step.turns.forEach((turn, robot) => {
      const [left, top] = [this.xs[robot] - view.scale * 0.47, this.ys[robot] - view.scale * 0.47];
      const text = `${turn}.`;
      pen.fillStyle = colours.card;
      pen.fillRect(left, top, pen.measureText(text).width + 4 * ratio, size + 3 * ratio);
      pen.fillStyle = colours.ink;
      pen.fillText(text, left + 2 * ratio, top + 2 * ratio);
    });
  }
}

// ---- the map on its canvas

const LEAST_NUMBERED = 9;
const PATH_FRAMES = 30;
// the radius of a robot in cells: small cells are filled
const RADIUS = 0.38;
const RADIUS_IN_SMALL_CELLS = 0.47;
const SMALL_CELL = 20;
// robots on one cell stand in a circle, and are drawn smaller
const CROWDED = 0.24;
const CROWDED_SIZE = 0.6;

class MapView extends MapTurns {
  constructor(canvas, replay) {
    super(canvas, replay);
    this.shows = { heat: false, goals: true, lines: true, roomy: false, turns: false };
    this.picked = null;
    this.follows = false;
    this.pulse = 0;
    this.other = new Int32Array(replay.robots);
    this.xs = new Float64Array(replay.robots);
    this.ys = new Float64Array(replay.robots);
    this.crowded = new Uint8Array(replay.robots);
    this.standing = new Uint16Array(replay.map.width * replay.map.height);
  }

  // The robot that is drawn nearest to a point of the canvas, if one is within that many pixels, or on the point's cell.
  robotAt(x, y, near) {
    let best = null;
    let least = Math.max(this.view.scale * 0.55, near * this.ratio);
    for (let robot = 0; robot < this.replay.robots; robot += 1) {
      const far = Math.hypot(this.xs[robot] - x, this.ys[robot] - y);
      if (far < least) [best, least] = [robot, far];
    }
    return best;
  }

  // The cells between which robots are drawn: those of this frame and of the next one, or of the one before where the
  // fraction is negative.
  placeRobots(fraction) {
    const { replay, other } = this;
    const { frame, cells } = replay.state;
    other.set(cells);
    const from = fraction < 0 ? frame : frame + 1;
    if (from <= replay.last) {
      const sign = fraction < 0 ? -1 : 1;
      for (let at = replay.moveStart[from]; at < replay.moveStart[from + 1]; at += 1) {
        other[replay.moveRobot[at]] += sign * replay.moveDelta[at];
      }
    }
    const part = Math.abs(fraction);
    if (this.follows && this.picked !== null) this.centreBetween(cells[this.picked], other[this.picked], part);
    for (let robot = 0; robot < replay.robots; robot += 1) {
      const [x, y] = this.pointOf(cells[robot]);
      const [nextX, nextY] = this.pointOf(other[robot]);
      this.xs[robot] = x + (nextX - x) * part;
      this.ys[robot] = y + (nextY - y) * part;
    }
    this.partCrowds(part < 0.5 ? cells : other);
  }

  // Only an illegal trace has two robots on one cell: they are drawn next to each other, so that each is to be seen.
  partCrowds(cells) {
    const { crowded, standing } = this;
    const crowds = new Map();
    for (const cell of cells) standing[cell] += 1;
    cells.forEach((cell, robot) => {
      crowded[robot] = standing[cell] > 1 ? 1 : 0;
      if (crowded[robot] === 1) crowds.set(cell, [...(crowds.get(cell) ?? []), robot]);
    });
    for (const cell of cells) standing[cell] = 0;
    for (const robots of crowds.values()) this.standInCircle(robots);
  }

  standInCircle(robots) {
    const far = CROWDED * this.view.scale;
    robots.forEach((robot, place) => {
      const angle = 2 * Math.PI * place / robots.length;
      this.xs[robot] -= far * Math.cos(angle);
      this.ys[robot] -= far * Math.sin(angle);
    });
  }

  radiusOf(robot) {
    const { view, ratio, crowded } = this;
    const part = view.scale < SMALL_CELL * ratio ? RADIUS_IN_SMALL_CELLS : RADIUS;
    return Math.max(view.scale * part, 2.4 * ratio) * (crowded[robot] === 1 ? CROWDED_SIZE : 1);
  }

  centreBetween(cell, other, part) {
    const { width } = this.replay.map;
    const between = (a, b) => a + (b - a) * part + 0.5;
    const [row, otherRow] = [Math.floor(cell / width), Math.floor(other / width)];
    this.middle = { x: between(cell % width, other % width), y: between(row, otherRow) };
    this.place();
  }

  draw(fraction) {
    const { picked } = this;
    this.placeRobots(fraction);
    this.drawGround(this.view.scale >= LEAST_NUMBERED * this.ratio);
    if (picked !== null) this.drawPath(picked);
    if (this.shows.lines) this.drawLines();
    this.drawRobots(fraction);
    if (this.shows.goals) this.drawGoals();
    if (this.shows.turns) this.drawTurns();
    if (picked !== null) this.drawQueue(picked);
    this.drawFaults();
  }

  // How strongly a robot is drawn: others than the picked one are dimmed.
  strengthOf(robot) {
    return this.picked === null || this.picked === robot ? 1 : 0.25;
  }

  // From each robot to its goal.
  drawLines() {
    const { pen, view, replay } = this;
    pen.lineWidth = Math.max(1, Math.min(view.scale / 14, 5 * this.ratio));
    for (let robot = 0; robot < replay.robots; robot += 1) {
      const queue = replay.state.queues[robot];
      if (queue.length === 0) continue;
      const [x, y] = this.pointOf(queue[0].cell);
      pen.strokeStyle = this.colours.robots[robot].fill;
      pen.globalAlpha = (replay.robots > 100 ? 0.25 : 0.45) * this.strengthOf(robot);
      pen.beginPath();
      pen.moveTo(this.xs[robot], this.ys[robot]);
      pen.lineTo(x, y);
      pen.stroke();
    }
    pen.globalAlpha = 1;
  }

  // A square for each robot's goal. Where several have one goal, each further square is smaller, within the one before.
  drawGoals() {
    const { pen, view, replay } = this;
    const half = Math.max(view.scale * 0.42, 2 * this.ratio);
    const line = Math.max(1.2, Math.min(view.scale / 12, 5 * this.ratio));
    pen.lineWidth = line;
    const shared = new Map();
    for (let robot = 0; robot < replay.robots; robot += 1) {
      const queue = replay.state.queues[robot];
      if (queue.length === 0) continue;
      const goal = queue[0].cell;
      const inner = shared.get(goal) ?? 0;
      shared.set(goal, inner + 1);
      const side = Math.max(half - inner * 1.6 * line, line);
      const [x, y] = this.pointOf(goal);
      pen.strokeStyle = this.colours.robots[robot].fill;
      pen.globalAlpha = this.strengthOf(robot);
      pen.strokeRect(x - side, y - side, 2 * side, 2 * side);
    }
    pen.globalAlpha = 1;
  }

  drawRobots(fraction) {
    const { pen, view, replay, colours } = this;
    const { frame, queues, shut } = replay.state;
    const numbered = view.scale >= LEAST_NUMBERED * this.ratio;
    const outlined = this.shows.heat || view.scale >= LEAST_NUMBERED * this.ratio;
    for (let robot = 0; robot < replay.robots; robot += 1) {
      const [x, y] = [this.xs[robot], this.ys[robot]];
      const radius = this.radiusOf(robot);
      const idle = queues[robot].length === 0;
      pen.globalAlpha = this.strengthOf(robot);
      pen.fillStyle = idle ? colours.idle : this.colours.robots[robot].fill;
      pen.beginPath();
      if (shut[robot]) pen.rect(x - radius * 0.88, y - radius * 0.88, radius * 1.76, radius * 1.76);
      else pen.arc(x, y, radius, 0, 2 * Math.PI);
      pen.fill();
      if (outlined) {
        pen.strokeStyle = colours.ink;
        pen.lineWidth = Math.max(1, Math.min(view.scale / 30, 2 * this.ratio));
        pen.stroke();
      }
      if (shut[robot]) this.drawBar(x, y, radius);
      if (numbered) this.drawNumber(robot, x, y, idle);
    }
    pen.globalAlpha = 1;
    this.drawRings(fraction, frame);
  }

  // Round the eldest, the picked one, and those that arrive.
  drawRings(fraction, frame) {
    const { pen, view, replay, colours } = this;
    pen.lineWidth = Math.max(1.5 * this.ratio, Math.min(view.scale / 12, 5 * this.ratio));
    const ring = (robot, colour, factor) => {
      pen.strokeStyle = colour;
      pen.beginPath();
      pen.arc(this.xs[robot], this.ys[robot], this.radiusOf(robot) * factor, 0, 2 * Math.PI);
      pen.stroke();
    };
    if (replay.eldest[frame] >= 0) ring(replay.eldest[frame], colours.ink, 1.2);
    if (this.picked !== null) ring(this.picked, colours.accent, 1.45);
    const part = Math.max(0, fraction);
    pen.globalAlpha = 1 - 0.7 * part;
    for (const robot of replay.arrivedAt(frame)) ring(robot, this.colours.robots[robot].fill, 1.4 + 0.5 * part);
    pen.globalAlpha = 1;
  }

  // The mark of a shut robot: a bar below its number.
  drawBar(x, y, radius) {
    const { pen, colours } = this;
    pen.fillStyle = colours.ink;
    pen.fillRect(x - radius * 0.88, y + radius * 0.62, radius * 1.76, radius * 0.3);
  }

  drawNumber(robot, x, y, idle) {
    const { pen, view, colours } = this;
    const small = view.scale < SMALL_CELL * this.ratio || this.crowded[robot] === 1;
    const part = (robot > 99 ? 0.34 : 0.46) + (small ? 0.08 : 0);
    const size = Math.max(view.scale * part, 5.5 * this.ratio) * (this.crowded[robot] === 1 ? CROWDED_SIZE : 1);
    pen.fillStyle = idle ? colours.digitsOnIdle : colours.robots[robot].digits;
    pen.font = `600 ${size.toFixed(1)}px system-ui, sans-serif`;
    pen.textAlign = 'center';
    pen.textBaseline = 'middle';
    pen.fillText(String(robot), x, y + view.scale * 0.02);
  }

  // Where the picked robot was, drawn whole, and where it goes, dotted.
  drawPath(robot) {
    const { pen, view, replay } = this;
    const { frame } = replay.state;
    const { cells, here } = replay.pathOf(robot, frame - PATH_FRAMES, frame + PATH_FRAMES);
    pen.strokeStyle = this.colours.robots[robot].fill;
    pen.lineJoin = 'round';
    pen.lineWidth = Math.max(2 * this.ratio, Math.min(view.scale / 6, 8 * this.ratio));
    const along = (part, dashes, alpha) => {
      pen.setLineDash(dashes);
      pen.globalAlpha = alpha;
      pen.beginPath();
      part.forEach((cell, place) => {
        const [x, y] = this.pointOf(cell);
        if (place === 0) pen.moveTo(x, y);
        else pen.lineTo(x, y);
      });
      pen.stroke();
    };
    along(cells.slice(0, here + 1), [], 0.35);
    along(cells.slice(here), [pen.lineWidth, pen.lineWidth * 1.5], 0.8);
    pen.setLineDash([]);
    pen.globalAlpha = 1;
  }

  // The errands of the picked robot after the first, numbered by their place in its queue.
  drawQueue(robot) {
    const { pen, view, replay } = this;
    const half = Math.max(view.scale * 0.3, 2 * this.ratio);
    pen.strokeStyle = this.colours.robots[robot].fill;
    pen.fillStyle = this.colours.robots[robot].fill;
    pen.lineWidth = Math.max(1, view.scale / 16);
    pen.font = `600 ${Math.max(view.scale * 0.34, 9 * this.ratio).toFixed(1)}px system-ui, sans-serif`;
    pen.textAlign = 'center';
    pen.textBaseline = 'middle';
    replay.state.queues[robot].slice(1).forEach((errand, place) => {
      const [x, y] = this.pointOf(errand.cell);
      pen.setLineDash([3 * this.ratio, 2 * this.ratio]);
      pen.strokeRect(x - half, y - half, 2 * half, 2 * half);
      pen.setLineDash([]);
      pen.fillText(String(place + 2), x, y - half - 5 * this.ratio);
    });
  }

  // The cells and robots of what is wrong at this frame.
  drawFaults() {
    const { pen, view, replay, colours } = this;
    pen.strokeStyle = colours.fault;
    pen.fillStyle = colours.fault;
    pen.lineWidth = Math.max(3 * this.ratio, Math.min(view.scale / 8, 8 * this.ratio));
    const half = Math.max(view.scale * (0.5 + 0.12 * this.pulse), 7 * this.ratio);
    for (const fault of replay.faultsAt(replay.state.frame)) {
      for (const cell of [...fault.cells, ...fault.robots.map((robot) => replay.state.cells[robot])]) {
        if (cell === undefined) continue;
        const [x, y] = this.pointOf(cell);
        pen.globalAlpha = 0.25 * this.pulse;
        pen.fillRect(x - half, y - half, 2 * half, 2 * half);
        pen.globalAlpha = 1;
        pen.strokeRect(x - half, y - half, 2 * half, 2 * half);
      }
    }
  }
}

// ---- charts

const WINDOW = 100;

// How many robots arrived in the last ticks, by frame.
function recentArrivals(arrivals) {
  return arrivals.map((count, frame) => count - arrivals[Math.max(0, frame - WINDOW)]);
}

// A chart tells the value of the frame under the pointer, and goes to it at a click.
class Chart {
  constructor(canvas, values, name) {
    this.canvas = canvas;
    this.values = values;
    this.name = name;
    this.limit = null;
    this.most = 1;
    for (const value of values) if (value > this.most) this.most = value;
  }

  // A line at the greatest value that is possible, if it is near enough to be drawn.
  setLimit(limit) {
    this.limit = limit !== null && limit <= 4 * this.most ? limit : null;
    if (this.limit !== null) this.most = Math.max(this.most, limit);
  }

  // The line, drawn once for its size and colours: by column the greatest value.
  paint(colours, ratio) {
    const { canvas, values } = this;
    this.ratio = ratio;
    this.colours = colours;
    canvas.width = Math.max(1, Math.round(canvas.clientWidth * ratio));
    canvas.height = Math.max(1, Math.round(canvas.clientHeight * ratio));
    this.line = document.createElement('canvas');
    this.line.width = canvas.width;
    this.line.height = canvas.height;
    const pen = this.line.getContext('2d');
    pen.strokeStyle = colours.line;
    pen.lineWidth = 1;
    pen.strokeRect(this.xOf(0), 0.5, canvas.width - this.xOf(0) - 1, this.yOf(0));
    if (this.limit !== null) {
      pen.strokeStyle = colours.mark;
      pen.setLineDash([4 * ratio, 3 * ratio]);
      pen.strokeRect(this.xOf(0), this.yOf(this.limit), canvas.width - this.xOf(0), 0);
      pen.setLineDash([]);
    }
    this.paintValues(pen);
    pen.fillStyle = colours.soft;
    pen.font = `${11 * ratio}px system-ui, sans-serif`;
    pen.textAlign = 'right';
    pen.fillText(String(this.most), 46 * ratio, 12 * ratio);
    pen.fillText('0', 46 * ratio, this.yOf(0));
    this.labelEnds(pen);
  }

  paintValues(pen) {
    const { values } = this;
    pen.strokeStyle = this.colours.accent;
    pen.lineWidth = 1.6 * this.ratio;
    pen.lineJoin = 'round';
    pen.beginPath();
    const columns = Math.min(values.length, this.canvas.width - Math.round(50 * this.ratio));
    for (let column = 0; column < columns; column += 1) {
      const from = Math.floor(column * values.length / columns);
      const to = Math.max(from + 1, Math.floor((column + 1) * values.length / columns));
      let most = 0;
      for (let at = from; at < to; at += 1) most = Math.max(most, values[at]);
      const y = this.yOf(most);
      if (column === 0) pen.moveTo(this.xOf(from), y);
      else pen.lineTo(this.xOf(from), y);
    }
    pen.stroke();
  }

  // The first and the last tick under the line.
  labelEnds(pen) {
    if (this.ends === undefined) return;
    pen.textAlign = 'left';
    pen.fillText(this.ends[0], this.xOf(0), this.canvas.height - 2 * this.ratio);
    pen.textAlign = 'right';
    pen.fillText(this.ends[1], this.canvas.width - 2, this.canvas.height - 2 * this.ratio);
  }

  xOf(at) {
    const left = 50 * this.ratio;
    return left + at / Math.max(1, this.values.length - 1) * (this.canvas.width - left - 2);
  }

  yOf(value) {
    const low = this.canvas.height - 14 * this.ratio;
    return low - value / this.most * (low - 3);
  }

  // The frame at a place of the page.
  frameAt(clientX) {
    const left = 50 * this.ratio;
    const x = (clientX - this.canvas.getBoundingClientRect().left) * this.ratio;
    const frame = Math.round((x - left) / Math.max(1, this.canvas.width - left - 2) * (this.values.length - 1));
    return Math.min(Math.max(frame, 0), this.values.length - 1);
  }

  draw(frame) {
    const pen = this.canvas.getContext('2d');
    pen.clearRect(0, 0, this.canvas.width, this.canvas.height);
    pen.drawImage(this.line, 0, 0);
    pen.strokeStyle = this.colours.mark;
    pen.lineWidth = this.ratio;
    pen.beginPath();
    pen.moveTo(this.xOf(frame), 0);
    pen.lineTo(this.xOf(frame), this.yOf(0));
    pen.stroke();
  }
}

// ---- texts next to the map

const REFUSALS = [
  '', 'client-closed', 'no-robot', 'robot-shut', 'no-cell', 'blocked', 'unreachable', 'queue-full', 'life-spent',
  'no-errand', 'too-late',
];
const MOST_ENTRIES = 200;

function cellName(map, cell) {
  return `${cell} (row ${Math.floor(cell / map.width)}, column ${cell % map.width})`;
}

function orderText(map, client, order) {
  if (order[0] === 'go') return `client ${client} sends robot ${order[1]} to cell ${cellName(map, order[2])}`;
  if (order[0] === 'withdraw') return `client ${client} withdraws its errand ${order[1]}`;
  return `client ${client} closes`;
}

function verdictText(verdict) {
  if (verdict[0] === 'accepted') return `accepted as errand ${verdict[1]}`;
  if (verdict[0] === 'refused') return `refused: ${REFUSALS[verdict[1]] ?? verdict[1]}`;
  return verdict[0];
}

// What the list of entries says of an event.
function noteOf(map, entry) {
  switch (entry[0]) {
    case 'take': return `${orderText(map, entry[1], entry[2])}: ${verdictText(entry[3])}`;
    case 'arrival': {
      const [, cell, robot, client, number, stamp] = entry;
      const where = cell === undefined ? 'it does not say where' : `cell ${cellName(map, cell)}`;
      return `robot ${robot} arrives at ${where}: errand ${number} of client ${client}, stamp ${stamp}`;
    }
    case 'farewell': return `robot ${entry[1]} takes its farewell with stamp ${entry[2]}`;
    case 'shut': {
      const farewell = entry.length > 2 ? `, and takes its farewell with stamp ${entry[2]}` : '';
      return `robot ${entry[1]} is shut${farewell}`;
    }
    case 'reopened': return `robot ${entry[1]} has another queue, wait or state than at the end of the chapter before`;
    case 'conflict': return entry[1].detail;
    default: return `chapter ${entry[1]} begins`;
  }
}

function isRefusal({ entry }) {
  return entry[0] === 'take' && entry[3][0] === 'refused';
}

function isConflict({ entry }) {
  return entry[0] === 'conflict';
}

function showEntries(list, replay) {
  const { frame } = replay.state;
  const events = replay.events[frame] ?? [];
  const items = events.slice(0, MOST_ENTRIES).map((event) => {
    const item = document.createElement('li');
    item.textContent = noteOf(replay.map, event.entry);
    item.classList.toggle('refused', isRefusal(event) || isConflict(event));
    return item;
  });
  if (events.length > MOST_ENTRIES || events.length === 0) {
    const item = document.createElement('li');
    item.className = 'soft';
    item.textContent = events.length === 0 ? 'none' : `and ${events.length - MOST_ENTRIES} more`;
    items.push(item);
  }
  list.replaceChildren(...items);
}

function stateText(shut, idle) {
  if (shut) return idle ? 'shut, done' : 'shut';
  return idle ? 'idle' : '';
}

function textCell(row) {
  const cell = document.createElement('td');
  row.append(cell);
  return cell;
}

class RobotTable {
  constructor(body, replay) {
    this.replay = replay;
    this.rows = Array.from({ length: replay.robots }, (_, robot) => {
      const row = document.createElement('tr');
      row.dataset.robot = robot;
      const name = document.createElement('th');
      name.scope = 'row';
      const button = document.createElement('button');
      button.type = 'button';
      button.className = 'pick';
      button.setAttribute('aria-pressed', 'false');
      const dot = document.createElement('span');
      dot.className = 'dot';
      button.append(dot, String(robot));
      name.append(button);
      row.append(name);
      body.append(row);
      const cells = Array.from({ length: 6 }, () => textCell(row));
      return { row, dot, button, cells, shown: [] };
    });
  }

  // Scrolls the table's own box, and nothing else, until the robot's row is in it.
  reveal(robot) {
    const { row } = this.rows[robot];
    const table = row.closest('table');
    const box = table.parentElement;
    const top = row.offsetTop - table.tHead.offsetHeight;
    const bottom = row.offsetTop + row.offsetHeight;
    if (top < box.scrollTop) box.scrollTop = top;
    else if (bottom > box.scrollTop + box.clientHeight) box.scrollTop = bottom - box.clientHeight;
  }

  // Only what changed is written.
  draw(colours, picked) {
    const { replay } = this;
    const { turns } = replay.turnsNow();
    const { cells, queues, shut, frame } = replay.state;
    for (let robot = 0; robot < replay.robots; robot += 1) {
      const { row, dot, button, cells: places, shown } = this.rows[robot];
      const queue = queues[robot];
      const idle = queue.length === 0;
      const wait = replay.waitOf(robot);
      const goal = idle ? '\u2013' : queue[0].cell;
      const texts = [cells[robot], goal, queue.length, wait ?? '\u2013', turns[robot], stateText(shut[robot], idle)];
      texts.forEach((text, place) => {
        if (shown[place] === text) return;
        shown[place] = text;
        places[place].textContent = text;
      });
      const colour = idle ? colours.idle : colours.robots[robot].fill;
      const marks = [colour, replay.eldest[frame] === robot, picked === robot];
      if (shown[6] !== marks[0]) dot.style.background = marks[0];
      if (shown[7] !== marks[1]) row.classList.toggle('eldest', marks[1]);
      if (shown[8] !== marks[2]) {
        row.classList.toggle('picked', marks[2]);
        button.setAttribute('aria-pressed', marks[2]);
      }
      [shown[6], shown[7], shown[8]] = marks;
    }
  }
}

const MOST_ERRANDS = 20;

// What is said of the picked robot.
function robotText(replay, robot) {
  const queue = replay.state.queues[robot];
  const wait = replay.waitOf(robot);
  const place = `Robot ${robot} is on cell ${cellName(replay.map, replay.state.cells[robot])}.`;
  if (queue.length === 0) return `${place} ${replay.state.shut[robot] ? 'It is shut, and done.' : 'It is idle.'}`;
  const errands = queue.map((errand) => `${errand.cell} (client ${errand.client}, errand ${errand.number})`);
  const more = queue.length > MOST_ERRANDS ? `, and ${queue.length - MOST_ERRANDS} more` : '';
  const cells = `${queue.length === 1 ? 'cell' : 'cells'} ${errands.slice(0, MOST_ERRANDS).join(', then ')}${more}`;
  return `${place} It has waited ${wait} tick${wait === 1 ? '' : 's'}, and is sent to ${cells}.`;
}

// ---- the list of all events

const MOST_LISTED = 200;
const LISTED_BEFORE = 20;

const EVENT_KINDS = {
  all: () => true,
  orders: (event) => event.entry[0] === 'take',
  refusals: isRefusal,
  arrivals: (event) => event.entry[0] === 'arrival',
  shuts: (event) => event.entry[0] === 'shut' || event.entry[0] === 'farewell',
  conflicts: isConflict,
  chapters: (event) => event.entry[0] === 'chapter' || event.entry[0] === 'reopened',
};

function clientOf({ entry }) {
  if (entry[0] === 'take') return entry[1];
  return entry[0] === 'arrival' ? entry[3] : null;
}

function robotsOf(event) {
  const { entry } = event;
  switch (entry[0]) {
    case 'take': return [entry[2][0] === 'go' ? entry[2][1] : event.robot];
    case 'arrival': return [entry[2]];
    case 'conflict': return entry[1].robots;
    case 'chapter': return [];
    default: return [entry[1]];
  }
}

// The events of a kind, of a client and of a robot, with their frames; null stands for all clients or robots.
function eventsOf(replay, { kind, client, robot }) {
  const found = [];
  replay.events.forEach((events, frame) => {
    for (const event of events) {
      if (!EVENT_KINDS[kind](event)) continue;
      if (client !== null && clientOf(event) !== client) continue;
      if (robot !== null && !robotsOf(event).includes(robot)) continue;
      found.push({ frame, event });
    }
  });
  return found;
}

// The place of the first of these events that comes at a frame or later.
function firstFrom(found, frame) {
  let [low, high] = [0, found.length];
  while (low < high) {
    const middle = (low + high) >> 1;
    if (found[middle].frame < frame) low = middle + 1;
    else high = middle;
  }
  return low;
}

// Lists the events round the frame that is shown. A click on one goes to its frame.
class EventList {
  constructor(replay, jump) {
    this.replay = replay;
    this.list = element('events');
    this.choices = ['kind', 'client', 'robot'].map((name) => element(`events-${name}`));
    const clients = new Set();
    for (const events of replay.events) for (const event of events ?? []) clients.add(clientOf(event));
    clients.delete(null);
    this.offer(this.choices[1], 'all clients', 'client', [...clients].sort((one, other) => one - other));
    this.offer(this.choices[2], 'all robots', 'robot', Array.from({ length: replay.robots }, (_, robot) => robot));
    for (const choice of this.choices) choice.addEventListener('change', () => this.choose());
    this.list.addEventListener('click', (event) => {
      const button = event.target.closest('button');
      if (button !== null) jump(Number(button.dataset.frame));
    });
    this.choose();
  }

  offer(choice, all, word, numbers) {
    const option = (value, text) => {
      const made = document.createElement('option');
      made.value = value;
      made.textContent = text;
      return made;
    };
    choice.replaceChildren(option('', all), ...numbers.map((number) => option(number, `${word} ${number}`)));
  }

  choose() {
    const [kind, client, robot] = this.choices.map((choice) => choice.value);
    const number = (text) => (text === '' ? null : Number(text));
    this.found = eventsOf(this.replay, { kind, client: number(client), robot: number(robot) });
    const count = this.found.length;
    element('events-count').textContent = `${count} event${count === 1 ? '' : 's'}`;
    document.body.dataset.events = count;
    this.draw();
  }

  draw() {
    const { frame } = this.replay.state;
    const first = firstFrom(this.found, frame);
    const from = Math.max(0, Math.min(first - LISTED_BEFORE, this.found.length - MOST_LISTED));
    const items = this.found.slice(from, from + MOST_LISTED).map((one) => this.itemOf(one, frame));
    this.list.replaceChildren(...items);
    const near = items[Math.min(first - from, items.length - 1)];
    if (near !== undefined) this.list.scrollTop = near.offsetTop - this.list.offsetTop - this.list.clientHeight / 3;
  }

  itemOf({ frame, event }, now) {
    const item = document.createElement('li');
    const button = document.createElement('button');
    button.type = 'button';
    button.dataset.frame = frame;
    button.textContent = `tick ${this.replay.clockAt(frame)}: ${noteOf(this.replay.map, event.entry)}`;
    item.classList.toggle('refused', isRefusal(event) || isConflict(event));
    item.classList.toggle('now', frame === now);
    item.append(button);
    return item;
  }
}

// ---- marks on the slider

const MOST_MARKS = 400;

// The marks of a replay: a kind and a part of its time, from 0 to 1. Marks of one kind that would lie on one another
// are one.
function marksOf(replay) {
  const { last } = replay;
  const kept = new Map();
  const add = (kind, frame) => {
    const part = last === 0 ? 0 : frame / last;
    const key = `${kind} ${Math.round(part * MOST_MARKS)}`;
    if (!kept.has(key)) kept.set(key, { kind, part });
  };
  for (const chapter of replay.chapters.slice(1)) add('chapter', chapter.frame);
  replay.events.forEach((events, frame) => {
    for (const event of events) {
      if (event.entry[0] === 'shut') add('shutting', frame);
      else if (isRefusal(event)) add('refusal', frame);
      else if (isConflict(event)) add('fault', frame);
    }
  });
  for (const fault of replay.faults) add('fault', fault.frame);
  return [...kept.values()];
}

function showMarks(place, replay) {
  place.replaceChildren(...marksOf(replay).map(({ kind, part }) => {
    const mark = document.createElement('span');
    mark.className = kind;
    mark.style.setProperty('--part', String(part));
    return mark;
  }));
}

// ---- time: which tick is shown, and play

const SPEEDS = [1, 2, 4, 8, 16, 30, 60, 120];
const GLIDE = 140;
const FLASH = 3000;

class Player {
  constructor(page) {
    this.page = page;
    this.playing = false;
    // how far robots are drawn on their way to the next tick, or from the one before where it is negative
    this.fraction = 0;
  }

  seek(frame) {
    this.fraction = 0;
    this.page.replay.seek(Math.min(Math.max(frame, 0), this.page.replay.last));
    this.page.draw();
    if (!this.playing) {
      this.page.announce();
      this.flash();
    }
  }

  jump(frame) {
    this.pause();
    this.seek(frame);
  }

  step(by) {
    this.jump(this.page.replay.state.frame + by);
  }

  // The next or the previous frame at which something arrives, is refused or is shut.
  stepToEvent(direction) {
    const telling = (event) => event.kind !== 'join' && event.kind !== 'withdraw';
    let frame = this.page.replay.state.frame + direction;
    const { last, events } = this.page.replay;
    while (frame > 0 && frame < last && !(events[frame] ?? []).some(telling)) frame += direction;
    this.jump(frame);
  }

  toggle() {
    if (this.playing) this.pause();
    else this.play();
  }

  play() {
    if (this.page.replay.state.frame === this.page.replay.last) this.page.replay.seek(0);
    this.playing = true;
    this.fraction = 0;
    this.counted = { frames: 0, since: performance.now() };
    this.then = performance.now();
    this.markPlaying();
    requestAnimationFrame((now) => this.animate(now));
  }

  // The replay stops at the nearer tick, and robots that are drawn on their way glide to their cells of that tick.
  pause() {
    if (!this.playing) return;
    this.playing = false;
    if (this.fraction >= 0.5 && this.page.replay.state.frame < this.page.replay.last) {
      this.page.replay.go();
      this.fraction -= 1;
    }
    this.markPlaying();
    this.page.draw();
    this.page.announce();
    this.flash();
    this.glide(performance.now(), this.fraction);
  }

  glide(since, from) {
    if (from === 0) return;
    const ease = (now) => {
      if (this.playing || this.fraction === 0) return;
      const left = Math.max(0, 1 - Math.max(0, now - since) / GLIDE);
      this.fraction = left > 0 ? from * left : 0;
      this.page.view.draw(this.fraction);
      if (left > 0) requestAnimationFrame(ease);
    };
    requestAnimationFrame(ease);
  }

  // The cells at fault flash for a while, unless the system asks for less motion.
  flash() {
    const { replay, view } = this.page;
    const { frame } = replay.state;
    view.pulse = 0;
    if (replay.faultsAt(frame).length === 0) return;
    if (matchMedia('(prefers-reduced-motion: reduce)').matches) return;
    const since = performance.now();
    this.flashing = since;
    const beat = (now) => {
      if (this.flashing !== since || this.playing || replay.state.frame !== frame) return;
      const past = Math.max(0, now - since);
      view.pulse = past >= FLASH ? 0 : (1 - Math.cos(past / 250 * Math.PI)) / 2;
      view.draw(this.fraction);
      if (past < FLASH) requestAnimationFrame(beat);
    };
    requestAnimationFrame(beat);
  }

  markPlaying() {
    const button = element('play');
    button.textContent = this.playing ? '\u275a\u275a' : '\u25b6';
    button.setAttribute('aria-label', this.playing ? 'Pause' : 'Play');
    document.body.dataset.playing = this.playing;
  }

  animate(now) {
    if (!this.playing) return;
    // a page that was hidden goes on from where it was
    this.fraction += Math.min(Math.max(0, now - this.then), 500) / 1000 * this.speed;
    this.then = now;
    while (this.fraction >= 1 && this.page.replay.state.frame < this.page.replay.last) {
      this.fraction -= 1;
      this.page.replay.go();
    }
    if (this.page.replay.state.frame === this.page.replay.last) {
      this.fraction = 0;
      this.pause();
      return;
    }
    this.page.draw();
    this.countFrame(now);
    requestAnimationFrame((next) => this.animate(next));
  }

  // Frames a second while the replay plays.
  countFrame(now) {
    const { counted } = this;
    counted.frames += 1;
    if (now - counted.since < 1000) return;
    document.body.dataset.rate = (counted.frames * 1000 / (now - counted.since)).toFixed(1);
    counted.frames = 0;
    counted.since = now;
  }

  setSpeed(speed) {
    this.speed = speed;
    element('speed').textContent = `${speed} tick${speed === 1 ? '' : 's'} a second`;
    document.body.dataset.speed = speed;
  }

  changeSpeed(by) {
    const place = Math.min(Math.max(SPEEDS.indexOf(this.speed) + by, 0), SPEEDS.length - 1);
    this.setSpeed(SPEEDS[place]);
    this.page.say(element('speed').textContent);
  }
}

// ---- the address: what is shown, as words after `#`

const SHOWN = ['heat', 'goals', 'lines', 'roomy', 'turns'];
// what is drawn if nothing is said
const SHOWN_FIRST = ['goals', 'lines'];
const ADDRESS_EVERY = 300;

// `t=140` is the tick at which the clock is 140, `robot=3` the picked robot, `zoom=2.5,10,7` shows the map 2.5 times as
// large with column 10, row 7 in the middle, and `heat=1&goals=0&lines=0&roomy=1&turns=1` says what is drawn. `heat=stood-100` is the
// heat of cells on which robots stood in the last 100 ticks.
class Address {
  constructor(page) {
    this.page = page;
  }

  read(hash = location.hash) {
    const { page } = this;
    const words = new URLSearchParams(hash.slice(1));
    for (const name of SHOWN) if (words.has(name)) page.setShown(name, words.get(name) === '1');
    const [kind, window] = (words.get('heat') ?? '').split('-');
    if (HEAT_KINDS.includes(kind) && /^(0|100|1000)$/.test(window)) page.chooseHeat(kind, Number(window));
    if (/^\d+$/.test(words.get('robot') ?? '')) page.setPicked(Number(words.get('robot')));
    const [zoom, x, y] = (words.get('zoom') ?? '').split(',').map(Number.parseFloat);
    if (zoom > 0) page.view.show(zoom, x >= 0 && y >= 0 ? { x, y } : page.view.middle);
    if (/^\d+$/.test(words.get('t') ?? '')) page.player.jump(page.replay.frameOf(BigInt(words.get('t'))));
    else page.draw();
  }

  text() {
    const { view, replay } = this.page;
    const words = [`t=${replay.clockAt(replay.state.frame)}`];
    if (view.picked !== null) words.push(`robot=${view.picked}`);
    const { zoom, middle } = view;
    if (zoom > 1) words.push(`zoom=${zoom.toFixed(2)},${middle.x.toFixed(1)},${middle.y.toFixed(1)}`);
    const others = SHOWN.filter((name) => view.shows[name] !== SHOWN_FIRST.includes(name));
    words.push(...others.map((name) => `${name}=${view.shows[name] ? this.shownText(name) : 0}`));
    return `#${words.join('&')}`;
  }

  shownText(name) {
    const { kind, window } = this.page.view.heat;
    return name === 'heat' && (kind !== 'came' || window !== 0) ? `${kind}-${window}` : 1;
  }

  // The address follows what is shown, a few times a second at most: browsers refuse more.
  follow() {
    if (this.timer !== undefined) return;
    this.timer = setTimeout(() => {
      this.timer = undefined;
      if (this.text() !== location.hash) history.replaceState(null, '', this.text());
    }, ADDRESS_EVERY);
  }

  async copy() {
    history.replaceState(null, '', this.text());
    try {
      await navigator.clipboard.writeText(location.href);
      this.page.tell('The link is copied.');
    } catch {
      this.page.tell('The browser does not let this page copy; the link is in the address line.');
    }
  }
}

// ---- what the page shows

const HEAT_TEXTS = { came: 'a robot came to the cell', stood: 'a robot with an errand stood on the cell' };

function element(name) {
  return document.getElementById(name);
}

class Page {
  constructor(map, replay) {
    this.map = map;
    this.replay = replay;
    this.hovered = null;
    this.player = new Player(this);
    this.address = new Address(this);
    this.view = new MapView(element('map'), replay);
    this.waitChart = new Chart(element('wait-chart'), replay.wait, 'longest wait');
    this.charts = [
      new Chart(element('arrivals-chart'), recentArrivals(replay.arrivals), `arrivals in ${WINDOW} ticks`),
      new Chart(element('idle-chart'), replay.idle, 'idle robots'),
      this.waitChart,
    ];
    this.table = new RobotTable(element('robots'), replay);
    this.events = new EventList(replay, (frame) => this.player.jump(frame));
    element('slider').max = String(replay.last);
    this.describe();
    this.showVerdict();
    this.player.setSpeed(8);
    this.repaint();
    this.address.read();
  }

  describe() {
    const { map, replay } = this;
    const { chapters } = replay;
    const [first, last] = [chapters[0].number, chapters[chapters.length - 1].number];
    const named = first === last ? `chapter ${first}` : `chapters ${first} to ${last}`;
    const sizes = [`${map.width} \u00d7 ${map.height} cells`, `${replay.robots} robots`, named, `${replay.last} ticks`];
    const text = sizes.join(' \u00b7 ');
    element('summary').textContent = text;
    document.title = `Fleet: ${text}`;
    for (const chart of this.charts) chart.ends = [`tick ${replay.clockAt(0)}`, `tick ${replay.clockAt(replay.last)}`];
  }

  // The judge's verdict: a line for each chapter that is illegal, with a jump to the tick, and a mark on the slider.
  showVerdict() {
    const { faults, conflicts } = this.replay;
    const { dataset } = document.body;
    dataset.verdict = faults.length === 0 ? 'legal' : 'illegal';
    dataset.faultFrames = faults.map((fault) => fault.frame).join(' ');
    dataset.conflicts = conflicts;
    dataset.faultRobots = faults.map((fault) => fault.robots.join(',')).join(' ');
    element('judged').textContent = faults.length === 0 ? 'judged legal' : '';
    element('verdict').hidden = faults.length === 0;
    element('verdict').replaceChildren(...bannerLines(this.replay, (frame) => this.player.jump(frame)));
    showMarks(element('marks'), this.replay);
  }

  // A new size or new colours.
  repaint() {
    const colours = readColours(this.replay.robots);
    this.colours = colours;
    this.view.paintLetters(colours);
    this.view.resize();
    for (const chart of this.charts) chart.paint(colours, this.view.ratio);
    this.draw();
  }

  draw() {
    this.view.draw(this.player.fraction);
    this.drawTexts();
    if (this.view.shows.heat) this.showScale();
  }

  // How many bridges there are, and how many cells are not roomy; in the legend the signs for both.
  tellRoomy(on) {
    for (const item of document.querySelectorAll('.of-roomy')) item.hidden = !on;
    if (!on) return;
    const { bridges, unroomy } = this.view.findRoominess();
    const count = unroomy.reduce((sum, is) => sum + is, 0);
    const of = `${count} of ${countFloor(this.map)} cells ${count === 1 ? 'is' : 'are'} not roomy for ${this.replay.robots} robots`;
    element('roomy-told').textContent = `${bridges.length} bridges; ${of}.`;
    document.body.dataset.bridges = bridges.map((ends) => ends.join('-')).join(' ');
    document.body.dataset.unroomy = [...unroomy.keys()].filter((cell) => unroomy[cell]).join(' ');
  }

  // The scale of the heat, from no robot to the most on one cell.
  showScale() {
    const { heat, mostHeat } = this.view;
    const text = `${mostHeat} time${mostHeat === 1 ? '' : 's'} ${HEAT_TEXTS[heat.kind]}`;
    if (element('heat-most').textContent !== text) element('heat-most').textContent = text;
    if (this.player.playing) return;
    let cells = '';
    for (let cell = 0; cell < heat.counts.length && cells.length < 2000; cell += 1) {
      if (heat.counts[cell] > 0) cells += ` ${cell}:${heat.counts[cell]}`;
    }
    document.body.dataset.heat = cells.trim();
  }

  // `window` is a number of ticks, 0 for all up to the one that is shown.
  chooseHeat(kind, window) {
    this.view.heat.choose(kind, window);
    element('heat-kind').value = kind;
    element('heat-window').value = String(window);
    this.setShown('heat', true);
  }

  // The texts of a frame. While the replay plays, the table and the lists are written a few times a second.
  drawTexts() {
    const { replay } = this;
    const { frame } = replay.state;
    if (this.drawnFrame === frame && this.player.playing) return;
    this.drawnFrame = frame;
    for (const chart of this.charts) chart.draw(frame);
    element('slider').value = String(frame);
    const clock = `tick ${replay.clockAt(frame)} of ${replay.clockAt(replay.last)}`;
    element('slider').setAttribute('aria-valuetext', clock);
    element('clock').textContent = clock;
    element('arrivals').textContent = replay.arrivals[frame];
    element('unfinished').textContent = replay.unfinished[frame];
    element('wait').textContent = replay.wait[frame] < 0 ? '\u2013' : replay.wait[frame];
    element('eldest').textContent = replay.eldest[frame] < 0 ? '\u2013' : replay.eldest[frame];
    this.tellHovered();
    const now = performance.now();
    if (!this.player.playing || !(now - this.listed < 200)) {
      this.listed = now;
      this.table.draw(this.colours, this.view.picked);
      showEntries(element('entries'), replay);
      this.events.draw();
      const { picked } = this.view;
      element('picked').textContent = picked === null ? '' : `${robotText(replay, picked)} ${turnText(replay.turnsNow(), picked)}`;
    }
    this.publish();
    this.address.follow();
  }

  // What the page shows, for tests and other tools.
  publish() {
    const { replay } = this;
    const { frame, cells, queues, shut } = replay.state;
    const { dataset } = document.body;
    dataset.frame = frame;
    dataset.clock = replay.clockAt(frame);
    dataset.chapter = replay.chapterAt(frame).number;
    dataset.arrivals = replay.arrivals[frame];
    dataset.unfinished = replay.unfinished[frame];
    dataset.wait = replay.wait[frame] < 0 ? 'none' : replay.wait[frame];
    dataset.eldest = replay.eldest[frame] < 0 ? 'none' : replay.eldest[frame];
    dataset.cells = cells.join(' ');
    dataset.goals = queues.map((queue) => (queue.length > 0 ? queue[0].cell : '-')).join(' ');
    dataset.queues = queues.map((queue) => queue.length).join(' ');
    dataset.shut = shut.join(' ');
    dataset.arrived = replay.arrivedAt(frame).join(' ');
    dataset.playing = this.player.playing;
    dataset.robot = this.view.picked ?? 'none';
    dataset.zoom = this.view.zoom.toFixed(2);
    dataset.middle = `${this.view.middle.x.toFixed(2)} ${this.view.middle.y.toFixed(2)}`;
    if (!this.player.playing) {
      dataset.waits = queues.map((_, robot) => replay.waitOf(robot) ?? '-').join(' ');
      dataset.moves = replay.moveStart[frame + 1];
      const { turns, pushedBy } = replay.turnsNow();
      dataset.turns = turns.join(' ');
      dataset.pushes = pushedBy === null ? 'unknown' : pushedBy.join(' ');
    }
  }

  // Works out the bound on waits, a few milliseconds at a time.
  searchBound() {
    const search = findBound(this.map, this.replay);
    const slice = () => {
      const end = performance.now() + 8;
      let step = search.next();
      while (!step.done && performance.now() < end) step = search.next();
      if (step.done) this.showBound(step.value);
      else setTimeout(slice, 0);
    };
    setTimeout(slice, 0);
  }

  showBound({ bound, text }) {
    element('bound').textContent = text;
    document.body.dataset.bound = bound ?? 'none';
    this.waitChart.setLimit(bound);
    this.waitChart.paint(this.colours, this.view.ratio);
    this.waitChart.draw(this.replay.state.frame);
  }

  announce() {
    const { replay } = this;
    const { frame } = replay.state;
    const fault = replay.faults.find((one) => one.frame === frame);
    const [arrivals, unfinished] = [replay.arrivals[frame], replay.unfinished[frame]];
    const said = `tick ${replay.clockAt(frame)}, ${arrivals} arrivals, ${unfinished} unfinished`;
    this.say(fault === undefined ? said : `${said}; ${faultText(fault)}`);
  }

  say(text) {
    element('announce').textContent = text;
  }

  // ---- view

  setShown(name, on) {
    this.view.shows[name] = on;
    element(`show-${name}`).checked = on;
    if (name === 'heat') element('heat-scale').hidden = !on;
    if (name === 'roomy') this.tellRoomy(on);
    if (name === 'turns') for (const item of document.querySelectorAll('.of-turns')) item.hidden = !on;
  }

  show(name, on) {
    this.setShown(name, on);
    this.draw();
  }

  zoomBy(factor) {
    const { canvas } = this.view;
    this.view.zoomAt(factor, canvas.width / 2, canvas.height / 2);
    this.draw();
  }

  pan(right, down) {
    this.follow(false);
    this.view.pan(right, down);
    this.draw();
  }

  showAll() {
    this.follow(false);
    this.view.fit();
    this.draw();
  }

  follow(on) {
    this.view.follows = on;
    element('follow').checked = on;
  }

  // Whether there is such a robot; null picks none.
  setPicked(robot) {
    const known = robot !== null && robot >= 0 && robot < this.replay.robots;
    this.view.picked = known ? robot : null;
    if (!known) this.follow(false);
    element('unpick').hidden = !known;
    return known;
  }

  pick(robot) {
    const known = this.setPicked(robot);
    this.draw();
    if (known) {
      this.table.reveal(robot);
      this.say(robotText(this.replay, robot));
    }
  }

  pickNext(by) {
    const { robots } = this.replay;
    const { picked } = this.view;
    const from = picked === null ? (by > 0 ? -1 : 0) : picked;
    this.pick((from + by + robots) % robots);
  }

  tellHovered() {
    const cell = this.hovered === null ? -1 : this.view.cellAt(...this.hovered);
    element('hover').textContent = cell < 0 ? '' : this.cellText(cell);
  }

  cellText(cell) {
    const robots = [];
    this.replay.state.cells.forEach((place, robot) => { if (place === cell) robots.push(robot); });
    const text = `cell ${cellName(this.map, cell)}`;
    return robots.length === 0 ? text : `${text}: robot${robots.length > 1 ? 's' : ''} ${robots.join(', ')}`;
  }

  // The cell in the middle of what is shown, for those who have no pointer.
  tellMiddle() {
    const { canvas } = this.view;
    const text = this.cellText(this.view.cellAt(canvas.width / 2, canvas.height / 2));
    element('hover').textContent = text;
    this.say(text);
  }

  savePicture() {
    element('map').toBlob((picture) => {
      const link = document.createElement('a');
      link.href = URL.createObjectURL(picture);
      link.download = `fleet_tick_${this.replay.clockAt(this.replay.state.frame)}.png`;
      link.click();
      setTimeout(() => URL.revokeObjectURL(link.href), 1000);
    }, 'image/png');
  }

  // A short message next to the map, for the eye and the ear.
  tell(text) {
    element('hover').textContent = text;
    this.say(text);
  }
}

// ---- keys, pointers and controls

const PAN = 0.2;
const ZOOM = 1.5;
// how far a pointer may move, in pixels, and still be a click
const CLICK = 6;
// how near to a robot, in pixels, a click or a tap picks it
const NEAR_POINTER = 10;
const NEAR_FINGER = 16;

function keysOf(page) {
  const toggle = (name) => () => page.show(name, !page.view.shows[name]);
  return {
    ' ': () => page.player.toggle(),
    ArrowRight: (far) => page.player.step(far),
    ArrowLeft: (far) => page.player.step(-far),
    Home: () => page.player.jump(0),
    End: () => page.player.jump(page.replay.last),
    n: () => page.player.stepToEvent(1),
    b: () => page.player.stepToEvent(-1),
    '<': () => page.player.changeSpeed(-1),
    '>': () => page.player.changeSpeed(1),
    '+': () => page.zoomBy(ZOOM),
    '=': () => page.zoomBy(ZOOM),
    '-': () => page.zoomBy(1 / ZOOM),
    0: () => page.showAll(),
    w: () => page.pan(0, -PAN),
    s: () => page.pan(0, PAN),
    a: () => page.pan(-PAN, 0),
    d: () => page.pan(PAN, 0),
    c: () => page.tellMiddle(),
    '[': () => page.pickNext(-1),
    ']': () => page.pickNext(1),
    Escape: () => page.pick(null),
    f: () => {
      page.follow(!page.view.follows);
      page.draw();
    },
    h: toggle('heat'),
    g: toggle('goals'),
    l: toggle('lines'),
    r: toggle('roomy'),
    p: toggle('turns'),
    j: () => {
      page.chooseHeat('stood', 100);
      page.draw();
    },
    y: () => page.address.copy(),
    '?': () => element('help').showModal(),
  };
}

function listenToKeys(keys) {
  window.addEventListener('keydown', (event) => {
    // on many keyboards [ and ] are typed with AltGr or Option
    const typed = event.key === '[' || event.key === ']';
    if (event.metaKey || ((event.ctrlKey || event.altKey) && !typed) || document.querySelector('dialog[open]') !== null) return;
    const key = keys[event.key] ?? keys[event.key.toLowerCase()];
    if (key === undefined) return;
    // a button or a box that has the focus keeps the space bar
    const own = event.target instanceof Element ? event.target.closest('button, select, input[type="checkbox"]') : null;
    if (own !== null && event.key === ' ') return;
    // and a menu its arrows and letters
    if (own instanceof HTMLSelectElement) return;
    event.preventDefault();
    key(event.shiftKey ? 10 : 1);
  });
}

// After a click on a control the keys are those of the map again. Who comes to a control by the tabulator key stays.
function returnFocus() {
  let byPointer = false;
  window.addEventListener('pointerdown', () => { byPointer = true; }, true);
  window.addEventListener('keydown', () => { byPointer = false; }, true);
  for (const name of ['click', 'change']) {
    window.addEventListener(name, () => {
      if (byPointer && document.querySelector('dialog[open]') === null) document.querySelector('canvas').focus({ preventScroll: true });
    });
  }
}

function listenToControls(page) {
  const clicks = {
    play: () => page.player.toggle(),
    back: () => page.player.step(-1),
    on: () => page.player.step(1),
    slower: () => page.player.changeSpeed(-1),
    faster: () => page.player.changeSpeed(1),
    'zoom-in': () => page.zoomBy(ZOOM),
    'zoom-out': () => page.zoomBy(1 / ZOOM),
    'zoom-fit': () => page.showAll(),
    unpick: () => page.pick(null),
    'copy-link': () => page.address.copy(),
    'save-picture': () => page.savePicture(),
    'show-help': () => element('help').showModal(),
  };
  for (const [name, click] of Object.entries(clicks)) element(name).addEventListener('click', click);
  element('slider').addEventListener('input', (event) => page.player.jump(Number(event.target.value)));
  for (const name of SHOWN) {
    element(`show-${name}`).addEventListener('change', (event) => page.show(name, event.target.checked));
  }
  for (const name of ['heat-kind', 'heat-window']) {
    element(name).addEventListener('change', () => {
      page.chooseHeat(element('heat-kind').value, Number(element('heat-window').value));
      page.draw();
    });
  }
  element('follow').addEventListener('change', (event) => {
    page.follow(event.target.checked);
    page.draw();
  });
  element('robots').addEventListener('click', (event) => {
    const row = event.target.closest('tr');
    if (row === null) return;
    const robot = Number(row.dataset.robot);
    page.pick(page.view.picked === robot ? null : robot);
  });
}

// One pointer moves the map, or picks a robot if it does not move; two zoom it.
class MapPointers {
  constructor(page, canvas) {
    this.page = page;
    this.canvas = canvas;
    this.held = new Map();
    this.moved = false;
    canvas.addEventListener('wheel', (event) => this.wheel(event), { passive: false });
    canvas.addEventListener('pointerdown', (event) => this.down(event));
    canvas.addEventListener('pointermove', (event) => this.move(event));
    canvas.addEventListener('pointerup', (event) => this.up(event, true));
    canvas.addEventListener('pointercancel', (event) => this.up(event, false));
    canvas.addEventListener('pointerleave', () => this.hover(null));
  }

  place(event) {
    const box = this.canvas.getBoundingClientRect();
    const { ratio } = this.page.view;
    return [(event.clientX - box.left) * ratio, (event.clientY - box.top) * ratio];
  }

  hover(place) {
    this.page.hovered = place;
    this.page.tellHovered();
  }

  wheel(event) {
    event.preventDefault();
    this.page.view.zoomAt(Math.exp(-event.deltaY / 400), ...this.place(event));
    this.page.draw();
  }

  down(event) {
    this.held.set(event.pointerId, this.place(event));
    this.moved = this.held.size > 1;
    this.start = this.place(event);
    this.canvas.setPointerCapture(event.pointerId);
    this.canvas.classList.add('held');
  }

  move(event) {
    const now = this.place(event);
    if (event.pointerType !== 'touch') this.hover(now);
    const before = this.held.get(event.pointerId);
    if (before === undefined) return;
    if (this.held.size === 1) this.drag(before, now);
    else this.pinch(event.pointerId, before, now);
    this.held.set(event.pointerId, now);
  }

  drag(before, now) {
    const far = Math.hypot(now[0] - this.start[0], now[1] - this.start[1]);
    if (!this.moved && far < CLICK * this.page.view.ratio) return;
    if (!this.moved) this.page.follow(false);
    const from = this.moved ? before : this.start;
    this.moved = true;
    this.page.view.drag(now[0] - from[0], now[1] - from[1]);
    this.page.draw();
  }

  // The other pointer stays where it is.
  pinch(id, before, now) {
    const other = [...this.held].find(([one]) => one !== id)[1];
    const apart = (place) => Math.max(1, Math.hypot(place[0] - other[0], place[1] - other[1]));
    const middle = [(now[0] + other[0]) / 2, (now[1] + other[1]) / 2];
    this.page.view.drag((now[0] - before[0]) / 2, (now[1] - before[1]) / 2);
    this.page.view.zoomAt(apart(now) / apart(before), ...middle);
    this.page.draw();
  }

  up(event, ended) {
    const place = this.held.get(event.pointerId);
    this.held.delete(event.pointerId);
    if (this.held.size > 0) return;
    this.canvas.classList.remove('held');
    if (!ended || place === undefined || this.moved) return;
    const near = event.pointerType === 'mouse' ? NEAR_POINTER : NEAR_FINGER;
    const robot = this.page.view.robotAt(...this.place(event), near);
    this.page.pick(robot === this.page.view.picked ? null : robot);
  }
}

// A click on a chart goes to its frame; the pointer tells its value.
function listenToCharts(page) {
  for (const chart of page.charts) {
    const { canvas } = chart;
    const told = canvas.parentElement.querySelector('.told');
    canvas.addEventListener('click', (event) => page.player.jump(chart.frameAt(event.clientX)));
    canvas.addEventListener('pointermove', (event) => {
      const frame = chart.frameAt(event.clientX);
      told.textContent = `tick ${page.replay.clockAt(frame)}: ${Math.max(0, chart.values[frame])}`;
    });
    canvas.addEventListener('pointerleave', () => { told.textContent = ''; });
  }
}

function listen(page) {
  listenToKeys(keysOf(page));
  listenToControls(page);
  listenToCharts(page);
  returnFocus();
  page.pointers = new MapPointers(page, element('map'));
  window.addEventListener('resize', () => page.repaint());
  window.addEventListener('hashchange', (event) => page.address.read(new URL(event.newURL).hash));
  document.addEventListener('visibilitychange', () => { page.player.then = performance.now(); });
  matchMedia('(prefers-color-scheme: dark)').addEventListener('change', () => page.repaint());
}

"##;
