//! What stands before and between the map, the verdicts and the traces. Written by `tools/view/embed --write` from
//! `tools/view`.

/// The page up to the map.
pub(crate) const HEAD: &str = r##"<!doctype html>
<html lang="en">
<head>
<meta charset="utf-8">
<title>Fleet</title>
<meta name="viewport" content="width=device-width, initial-scale=1">
<style>
:root {
  color-scheme: light dark;
  --page: #f4f5f8; --card: #ffffff; --ink: #1b2430; --soft: #5d6878; --line: #d9dee6;
  --floor: #ffffff; --wall: #6b7789; --shelf: #7f9488; --grid: #e6eaf0; --idle: #7b8696;
  --accent: #2563eb; --mark: #b43c0a; --fault: #d40000; --heat: 194, 65, 12;
}
@media (prefers-color-scheme: dark) {
  :root {
    --page: #11151b; --card: #191f28; --ink: #e7eaf0; --soft: #9aa5b5; --line: #2c3542;
    --floor: #1b222c; --wall: #68758a; --shelf: #5f7d6e; --grid: #262f3b; --idle: #9aa4b2;
    --accent: #7aa7ff; --mark: #fb923c; --fault: #ff5a52; --heat: 251, 146, 60;
  }
}
* { box-sizing: border-box; }
body { margin: 0; font: 14px/1.45 system-ui, sans-serif; background: var(--page); color: var(--ink); }
header { display: flex; flex-wrap: wrap; gap: 4px 20px; align-items: baseline; padding: 10px 16px 0; }
h1 { font-size: 19px; margin: 0; }
h2 { font-size: 13px; font-weight: 600; margin: 0 0 6px; color: var(--soft); }
p { margin: 0; }
.soft, header p { color: var(--soft); }
main { display: grid; grid-template-columns: minmax(0, 1fr) clamp(340px, 26vw, 480px); gap: 14px; padding: 10px 16px 14px; align-items: start; }
.column { display: flex; flex-direction: column; gap: 14px; min-width: 0; }
/* on a narrow screen one column: the map, its time, what is told of a cell and a robot, what is shown, the rest */
@media (max-width: 900px) {
  main { display: flex; flex-direction: column; align-items: stretch; }
  .column { display: contents; }
  .map { order: -4; }
  #time { order: -3; }
  .told-of { order: -2; }
  .choices { order: -1; }
}
main.runs .map { order: 0; }
main.runs { display: flex; flex-direction: column; align-items: stretch; }
.sides { display: grid; grid-template-columns: minmax(0, 1fr); gap: 14px; }
/* the time stays in sight where the maps are below each other */
@media (max-width: 900px) { main.runs #time { order: 0; position: sticky; bottom: 6px; z-index: 1; } }
@media (min-width: 901px) { .sides.two { grid-template-columns: repeat(2, minmax(0, 1fr)); } }
.card { background: var(--card); border: 1px solid var(--line); border-radius: 10px; padding: 12px; min-width: 0; }
.map canvas { display: block; width: 100%; border-radius: 6px; background: var(--floor); cursor: grab; }
.map canvas.held { cursor: grabbing; }
:focus-visible { outline: 2px solid var(--accent); outline-offset: 2px; }
.together { display: inline-flex; flex-wrap: wrap; gap: 4px; align-items: center; max-width: 100%; }
.together button { padding: 1px 9px; }
.together select { flex: 1 1 110px; min-width: 0; }
.banner { margin: 10px 16px 0; padding: 10px 14px; border: 2px solid var(--fault); border-radius: 10px; background: var(--card); }
.banner p + p { margin-top: 6px; }
.track { position: relative; display: flex; flex: 1; min-width: 120px; }
#marks span { position: absolute; top: -3px; bottom: -3px; left: calc(8px + (100% - 16px) * var(--part) - 1.5px); width: 3px; background: var(--fault); pointer-events: none; }
#marks .chapter { width: 1px; background: var(--soft); }
#marks .shutting { top: 50%; bottom: -3px; width: 2px; background: var(--ink); }
#marks .refusal { top: auto; bottom: -3px; height: 6px; width: 2px; background: var(--mark); }
#heat-scale { display: flex; gap: 8px; align-items: center; margin-top: 6px; font-size: 12.5px; }
#heat-scale[hidden] { display: none; }
.ramp { width: 120px; height: 10px; border: 1px solid var(--line); background: linear-gradient(to right, rgba(var(--heat), 0.12), rgba(var(--heat), 0.82)); }
#speed { min-width: 108px; text-align: center; font-variant-numeric: tabular-nums; }
.robot { display: flex; gap: 10px; align-items: start; justify-content: space-between; min-height: 2.9em; max-height: 7.3em; overflow: auto; margin-top: 4px; font-size: 13px; }
#unpick { flex: none; white-space: nowrap; }
.legend { display: flex; flex-wrap: wrap; gap: 4px 16px; margin: 8px 0 0; padding: 0; list-style: none; font-size: 12.5px; color: var(--soft); }
.legend li { display: inline-flex; gap: 6px; align-items: center; }
.sign { display: inline-block; width: 13px; height: 13px; flex: none; }
.sign.disc { border-radius: 50%; background: hsl(0 62% 46%); }
.sign.idle { background: var(--idle); }
.sign.shut { background: hsl(0 62% 46%); border-bottom: 4px solid var(--ink); }
.sign.goal { border: 2px solid hsl(0 62% 46%); }
.sign.eldest { outline: 2px solid var(--ink); outline-offset: 1px; }
.sign.arrives { outline: 2px solid hsl(0 62% 46%); outline-offset: 2px; }
.sign.mark { width: 2px; }
.sign.chapter { background: var(--soft); }
.sign.shutting { background: var(--ink); }
.sign.refusal { background: var(--mark); }
.sign.wall { background: var(--wall); }
.sign.shelf { background: var(--shelf); }
.sign.unroomy { background: var(--fault); opacity: 0.3; }
.sign.bridge { height: 2px; align-self: center; background: var(--fault); }
.sign.push { height: 4px; align-self: center; background: var(--mark); }
.legend li[hidden] { display: none; }
#roomy-told { margin: 6px 0 0; font-size: 12.5px; }
dialog { color: var(--ink); background: var(--card); border: 1px solid var(--line); border-radius: 10px; max-width: 560px; }
dialog::backdrop { background: rgb(0 0 0 / 45%); }
.keys th, .keys td { text-align: left; white-space: normal; padding: 4px 10px 4px 0; }
.keys th { color: var(--ink); white-space: nowrap; }
dialog form { margin-top: 10px; }
.told { float: right; font-weight: 400; }
.pick { padding: 0 6px; border-color: transparent; background: none; }
.bar { display: flex; flex-wrap: wrap; gap: 8px 14px; align-items: center; }
.bar + .bar { margin-top: 10px; }
.bar input[type="range"] { flex: 1; min-width: 120px; margin: 0; accent-color: var(--accent); }
#clock { font-variant-numeric: tabular-nums; min-width: 130px; text-align: right; }
#hover { min-height: 1.45em; font-variant-numeric: tabular-nums; }
#keys { margin-top: 8px; font-size: 12.5px; }
button, select { max-width: 100%; font: inherit; padding: 3px 11px; border: 1px solid var(--line); border-radius: 7px; background: var(--page); color: var(--ink); cursor: pointer; }
button:hover { border-color: var(--accent); }
label { display: inline-flex; gap: 5px; align-items: center; }
.figures { display: grid; grid-template-columns: 1fr 1fr; gap: 8px 12px; margin: 0; }
.figures dt { color: var(--soft); font-size: 12.5px; }
.figures dd { margin: 0; font-size: 22px; font-weight: 600; font-variant-numeric: tabular-nums; }
dl.wide { grid-template-columns: repeat(auto-fill, minmax(110px, 1fr)); margin-top: 10px; }
.wide dd { font-size: 17px; }
#bound { font-size: 12.5px; min-height: 2.9em; margin-top: 6px; }
.chart { cursor: pointer; display: block; width: 100%; height: 92px; }
.scroll { overflow: auto; max-height: 170px; margin: 0; padding: 0; }
.tall { max-height: 330px; }
#entries, #events { list-style: none; font-size: 12.5px; min-height: 3em; }
#events { margin-top: 8px; }
[aria-label="Events that are listed"] { margin-top: 0; gap: 6px; }
[aria-label="Events that are listed"] select { flex: 1 1 90px; min-width: 0; padding: 3px 4px; }
#entries li, #events li { padding: 2px 0; border-bottom: 1px solid var(--line); overflow-wrap: anywhere; }
#entries .refused, #events .refused { color: var(--mark); }
#events button { padding: 0; border: 0; background: none; text-align: left; color: inherit; }
#events button:hover { text-decoration: underline; }
#events .now { background: color-mix(in srgb, var(--accent) 14%, transparent); }
table { width: 100%; border-collapse: collapse; font-size: 12.5px; font-variant-numeric: tabular-nums; }
th, td { text-align: right; padding: 2px 6px; border-bottom: 1px solid var(--line); white-space: nowrap; }
th { color: var(--soft); font-weight: 500; }
thead th { position: sticky; top: 0; background: var(--card); }
td:last-child, th:last-child { text-align: left; }
tbody tr { cursor: pointer; }
tr.eldest > * { background: color-mix(in srgb, var(--accent) 14%, transparent); }
tr.picked > * { background: color-mix(in srgb, var(--accent) 30%, transparent); }
.dot { display: inline-block; width: 9px; height: 9px; border-radius: 50%; margin-right: 5px; }
.unseen { position: absolute; width: 1px; height: 1px; overflow: hidden; clip-path: inset(50%); }
/* fingers need larger controls */
@media (pointer: coarse) {
  button, select, label, .together button, .pick { min-width: 44px; min-height: 44px; }
  #events button { min-width: 0; }
  input[type="checkbox"] { width: 24px; height: 24px; }
  .bar input[type="range"] { height: 44px; }
}
</style>
</head>
<body>
<header>
<h1>Fleet</h1>
<p id="summary"></p>
<p id="judged"></p>
</header>
<section id="verdict" class="banner" aria-label="Verdict of the judge" hidden></section>
<main>
<div class="column">
<section class="card map" aria-label="Map">
<canvas id="map" tabindex="0" role="img" aria-label="Robots on the map" aria-describedby="keys"></canvas>
</section>
<section id="time" class="card" aria-label="Time">
<div class="bar" role="group" aria-label="Time">
<button type="button" id="play" aria-label="Play">&#9654;</button>
<button type="button" id="back" aria-label="One tick back">&#8249;</button>
<button type="button" id="on" aria-label="One tick on">&#8250;</button>
<span class="track"><input type="range" id="slider" min="0" max="0" value="0" step="1" aria-label="Tick"><span id="marks" aria-hidden="true"></span></span>
<span id="clock"></span>
</div>
</section>
</div>
<aside class="column">
<section class="card told-of" aria-label="Cell, robot and legend">
<p id="hover" class="soft"></p>
<p class="robot"><span id="picked"></span> <button type="button" id="unpick" hidden>all robots</button></p>
<ul class="legend" aria-label="Legend">
<li><span class="sign disc"></span>robot with an errand</li>
<li><span class="sign disc idle"></span>idle</li>
<li><span class="sign shut"></span>shut: takes no more errands</li>
<li><span class="sign goal"></span>goal, in its robot's colour</li>
<li><span class="sign disc eldest"></span>has waited longest</li>
<li><span class="sign disc arrives"></span>arrives</li>
<li><span class="sign wall"></span>wall</li>
<li><span class="sign shelf"></span>tree or water</li>
<li class="of-roomy" hidden><span class="sign unroomy"></span>not roomy for these robots</li>
<li class="of-roomy" hidden><span class="sign bridge"></span>bridge</li>
<li class="of-turns" hidden><span class="sign push"></span>pushes the robot at its end</li>
<li class="of-turns" hidden>1. comes first in the next step</li>
<li><span class="sign mark chapter"></span>a chapter begins</li>
<li><span class="sign mark shutting"></span>a robot is shut</li>
<li><span class="sign mark refusal"></span>an order is refused</li>
</ul>
</section>
<section class="card choices" aria-label="View">
<div class="bar" role="group" aria-label="What is shown">
<span class="together" role="group" aria-label="Speed">
<button type="button" id="slower" aria-label="Slower">&minus;</button>
<span id="speed"></span>
<button type="button" id="faster" aria-label="Faster">+</button>
</span>
<label title="Shades cells by what robots did there"><input type="checkbox" id="show-heat"> heat</label>
<span class="together" role="group" aria-label="Heat">
<select id="heat-kind" aria-label="What the heat shows"><option value="came">came to</option><option value="stood">stood on, with an errand</option></select>
<select id="heat-window" aria-label="Ticks that the heat is of"><option value="0">up to this tick</option><option value="1000">last 1000 ticks</option><option value="100">last 100 ticks</option></select>
</span>
<label title="The current goal of each robot"><input type="checkbox" id="show-goals" checked> goals</label>
<label title="From each robot to its goal"><input type="checkbox" id="show-lines" checked> lines</label>
<label title="Bridges, and the cells that are not roomy for these robots: errands there may block them all for ever"><input type="checkbox" id="show-roomy"> bridges</label>
<label title="In which order the next step is planned, by the robots' waits, where robots go, and which robot pushes which"><input type="checkbox" id="show-turns"> turns</label>
<label title="Keeps the picked robot in the middle"><input type="checkbox" id="follow"> follow</label>
<span class="together" role="group" aria-label="Zoom">
<button type="button" id="zoom-out" aria-label="Zoom out">&minus;</button>
<button type="button" id="zoom-in" aria-label="Zoom in">+</button>
<button type="button" id="zoom-fit" aria-label="Show the whole map">fit</button>
</span>
<span class="together">
<button type="button" id="copy-link">copy link</button>
<button type="button" id="save-picture">save picture</button>
<button type="button" id="show-help" aria-label="Keys">?</button>
</span>
</div>
<p id="keys" class="soft">Space plays, arrow keys go a tick back or on, + and &minus; zoom, W A S D move the map, [ and ] pick a robot, F follows it; ? shows all keys. A click on a robot picks it.</p>
<p id="roomy-told" class="soft of-roomy" hidden></p>
<p id="heat-scale" class="soft" hidden><span id="heat-least">0</span> <span class="ramp" aria-hidden="true"></span> <span id="heat-most"></span></p>
</section>
<section class="card" aria-label="Figures">
<dl class="figures">
<div title="Errands done up to this tick"><dt>arrivals</dt><dd id="arrivals"></dd></div>
<div title="Errands accepted and not yet done"><dt>unfinished</dt><dd id="unfinished"></dd></div>
<div title="Ticks since the last arrival of the robot that has waited longest, or since its queue was empty"><dt>longest wait</dt><dd id="wait"></dd></div>
<div title="The robot that has waited longest"><dt>eldest robot</dt><dd id="eldest"></dd></div>
</dl>
<p id="bound" class="soft"></p>
</section>
<section class="card"><h2>Arrivals in the last 100 ticks <span class="told"></span></h2><canvas id="arrivals-chart" class="chart" role="img" aria-label="Arrivals in the last 100 ticks, by tick"></canvas></section>
<section class="card"><h2>Idle robots <span class="told"></span></h2><canvas id="idle-chart" class="chart" role="img" aria-label="Idle robots by tick"></canvas></section>
<section class="card"><h2>Longest wait <span class="told"></span></h2><canvas id="wait-chart" class="chart" role="img" aria-label="Longest wait by tick"></canvas></section>
<section class="card"><h2>Entries up to the next tick</h2><ol id="entries" class="scroll" tabindex="0" aria-label="Entries up to the next tick"></ol></section>
<section class="card"><h2>All events <span id="events-count" class="told"></span></h2>
<div class="bar" role="group" aria-label="Events that are listed">
<select id="events-kind" aria-label="Kind"><option value="all">all kinds</option><option value="orders">orders</option><option value="refusals">refused orders</option><option value="arrivals">arrivals</option><option value="shuts">shuts and farewells</option><option value="conflicts">conflicts</option><option value="chapters">chapters</option></select>
<select id="events-client" aria-label="Client"></select>
<select id="events-robot" aria-label="Robot"></select>
</div>
<ol id="events" class="scroll tall" tabindex="0" aria-label="All events"></ol></section>
<section class="card"><h2>Robots</h2><div class="scroll tall" tabindex="0" role="region" aria-label="Robots"><table><thead><tr><th scope="col">robot</th><th scope="col">cell</th><th scope="col">goal</th><th scope="col">queue</th><th scope="col">wait</th><th scope="col" title="The place in the order in which the next step is planned">turn</th><th scope="col">state</th></tr></thead><tbody id="robots"></tbody></table></div></section>
</aside>
</main>
<dialog id="help" aria-label="Keys">
<h2>Keys</h2>
<table class="keys">
<tr><th>Space</th><td>play and pause</td></tr>
<tr><th>&#8592; &#8594;</th><td>a tick back or on; with Shift, ten ticks</td></tr>
<tr><th>Home End</th><td>the first and the last tick</td></tr>
<tr><th>B N</th><td>the tick before or after at which a robot arrives or is shut, or an order is refused</td></tr>
<tr><th>&lt; &gt;</th><td>slower, faster</td></tr>
<tr><th>+ &minus; 0</th><td>zoom in, zoom out, the whole map</td></tr>
<tr><th>W A S D</th><td>move the map up, left, down, right</td></tr>
<tr><th>C</th><td>tells the cell in the middle</td></tr>
<tr><th>[ ]</th><td>picks the robot before or after</td></tr>
<tr><th>F</th><td>keeps the picked robot in the middle</td></tr>
<tr><th>Esc</th><td>all robots again</td></tr>
<tr><th>H G L R</th><td>heat, goals, lines, bridges with the cells that are not roomy</td></tr>
<tr><th>P</th><td>turns: in which order the next step is planned, by waits, and which robot pushes which</td></tr>
<tr><th>J</th><td>jams: the heat of cells on which robots with an errand stood in the last 100 ticks</td></tr>
<tr><th>Y</th><td>copies the link to what is shown</td></tr>
<tr><th>?</th><td>shows this</td></tr>
</table>
<form method="dialog"><button>close</button></form>
</dialog>
<p id="announce" class="unseen" aria-live="polite"></p>
<template id="runs-page">
<header>
<h1>Fleet</h1>
<p id="summary"></p>
</header>
<main class="runs">
<div id="sides" class="sides"></div>
<section id="time" class="card" aria-label="Time">
<div class="bar" role="group" aria-label="Time">
<button type="button" id="play" aria-label="Play">&#9654;</button>
<button type="button" id="back" aria-label="One tick back">&#8249;</button>
<button type="button" id="on" aria-label="One tick on">&#8250;</button>
<span class="track"><input type="range" id="slider" min="0" max="0" value="0" step="1" aria-label="Tick"><span id="marks" aria-hidden="true"></span></span>
<span id="clock"></span>
</div>
</section>
<section class="card" aria-label="View">
<div class="bar" role="group" aria-label="What is shown">
<span class="together" role="group" aria-label="Speed">
<button type="button" id="slower" aria-label="Slower">&minus;</button>
<span id="speed"></span>
<button type="button" id="faster" aria-label="Faster">+</button>
</span>
<label title="The goal of each robot: of a plan its last cell"><input type="checkbox" id="show-goals"> goals</label>
<label title="From each robot to its goal"><input type="checkbox" id="show-lines"> lines</label>
<span class="together" role="group" aria-label="Zoom">
<button type="button" id="zoom-out" aria-label="Zoom out">&minus;</button>
<button type="button" id="zoom-in" aria-label="Zoom in">+</button>
<button type="button" id="zoom-fit" aria-label="Show the whole map">fit</button>
</span>
</div>
<p id="hover" class="soft"></p>
<p class="robot"><span id="picked"></span> <button type="button" id="unpick" hidden>all robots</button></p>
<p id="keys" class="soft">Space plays, arrow keys go a tick back or on, B and N to the conflict before or after, + and &minus; zoom, W A S D move the map, [ and ] pick a robot, G and L draw goals and lines. A click on a robot picks it. Grey: has no errand, or stays where it is until the end. A dashed line: waits for the robot at its end.</p>
</section>
<section id="conflicts-card" class="card" hidden><h2>Conflicts <span id="conflicts-count" class="told"></span></h2><ol id="events" class="scroll tall" tabindex="0" aria-label="Conflicts"></ol></section>
</main>
<template id="run-part"><section class="card map"><h2></h2><canvas tabindex="0" role="img" aria-describedby="keys"></canvas><dl class="figures wide"></dl></section></template>
<p id="announce" class="unseen" aria-live="polite"></p>
</template>
<script type="text/plain" id="map-rows">
"##;

/// What stands between the map and the verdicts.
pub(crate) const VERDICTS: &str = r##"</script>
<script type="text/plain" id="verdicts">
"##;

/// What stands between the verdicts and the traces.
pub(crate) const TRACES: &str = r##"</script>
<script type="text/plain" id="traces">
"##;
