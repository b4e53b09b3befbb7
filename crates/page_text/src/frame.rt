// What stands in every page before and behind its run. Made by tools/page.py of page/page.html: change that.

/// What stands before the run.
pub const HEAD: &str = r#"<!DOCTYPE html>
<html lang="en">
<head>
<meta charset="utf-8">
<meta name="viewport" content="width=device-width, initial-scale=1">
<title>A run of Rowandeck</title>
<style>
:root { --back: #fbfbfa; --panel: #ffffff; --ink: #1d2329; --soft: #66707a; --edge: #d8dde2; --lit: #fff3c4; --faint: #f1f4f6;
  --main: #3566b8; --again: #d9730d; --dead: #c22f3d; --wait: #b9c4d0; --good: #2c8a4b; --pick: #7a4fc4; }
:root[data-theme=dark] { --back: #14181d; --panel: #1b2127; --ink: #e3e8ed; --soft: #98a3ae; --edge: #343d46; --lit: #4b431c; --faint: #232a31;
  --main: #6f9fe8; --again: #f0953c; --dead: #f06570; --wait: #4a5560; --good: #5cc07d; --pick: #b08cf0; }
* { box-sizing: border-box; }
html, body { height: 100%; margin: 0; }
body { background: var(--back); color: var(--ink); font: 13px/1.45 system-ui, sans-serif; display: grid;
  grid-template: auto minmax(0, 1fr) 34% / minmax(240px, 23%) minmax(0, 1fr) minmax(280px, 27%); gap: 8px; padding: 8px;
  grid-template-areas: 'top top top' 'script cluster card' 'lanes lanes card'; }
header { grid-area: top; display: grid; gap: 6px; }
section { background: var(--panel); border: 1px solid var(--edge); border-radius: 6px; overflow: auto; padding: 8px 10px; min-width: 0; }
h2 { font-size: 12px; font-weight: 600; margin: 0 0 6px; color: var(--soft); }
#script { grid-area: script; } #cluster { grid-area: cluster; } #card { grid-area: card; } #lanes { grid-area: lanes; padding: 6px 10px; overflow: hidden; }
#story { font-size: 14px; } #story b { font-weight: 600; } #story .dead, .dead { color: var(--dead); } #story .again, .again { color: var(--again); }
.good { color: var(--good); } .soft { color: var(--soft); }
.bar { display: flex; gap: 6px; align-items: center; flex-wrap: wrap; } .bar input[type=range] { flex: 1; min-width: 160px; accent-color: var(--main); }
button, input[type=search], select { font: inherit; color: inherit; background: var(--panel); border: 1px solid var(--edge); border-radius: 5px;
  padding: 2px 8px; }
button:hover { border-color: var(--main); } button[aria-pressed=true] { background: var(--main); color: #fff; }
#at { min-width: 11em; font-variant-numeric: tabular-nums; text-align: right; }
code, pre, .mono { font: 12px/1.5 ui-monospace, 'DejaVu Sans Mono', monospace; }
#code { margin: 0 -10px; } #code div { padding: 0 10px; white-space: pre-wrap; padding-left: 46px; text-indent: -36px; }
#code i { display: inline-block; width: 26px; margin-right: 10px; text-indent: 0; text-align: right; color: var(--soft); font-style: normal; }
#code .on { background: var(--lit); } #code .runs { box-shadow: inset 3px 0 var(--main); }
#now { border-bottom: 1px solid var(--edge); margin-bottom: 8px; padding-bottom: 6px; max-height: 38%; overflow: auto; }
#now .what { font-weight: 600; }
.nodes { display: grid; grid-template-columns: repeat(auto-fill, minmax(290px, 1fr)); gap: 8px; align-items: start; }
.node { border: 1px solid var(--edge); border-radius: 6px; background: var(--faint); padding: 6px 8px; } .node.gone { opacity: .55; border-color: var(--dead); }
.node h3 { margin: 0 0 4px; font-size: 13px; display: flex; justify-content: space-between; gap: 6px; }
.worker { background: var(--panel); border: 1px solid var(--edge); border-left: 4px solid var(--wait); border-radius: 4px; padding: 2px 6px; margin: 3px 0; }
.worker.runs { border-left-color: var(--main); } .worker.redone { border-left-color: var(--again); }
.worker.gone { opacity: .5; border-left-color: var(--dead); }
.chip { display: inline-block; border: 1px solid var(--edge); background: var(--panel); border-radius: 9px; padding: 0 7px; margin: 1px 3px 1px 0; }
.chip.second { border-style: dashed; } .id { color: var(--main); cursor: pointer; } .id:hover { text-decoration: underline; }
.id.picked { color: var(--pick); font-weight: 600; }
.message { display: block; } ul { margin: 2px 0 8px; padding-left: 18px; } li { margin: 1px 0; }
#canvas { display: block; width: 100%; cursor: grab; } #lineage { width: 100%; margin-top: 4px; }
#lineage text { font: 11px system-ui, sans-serif; fill: var(--ink); }
#lineage .small { fill: var(--soft); font-size: 10px; } #lineage .redone { fill: var(--again); }
#lineage rect { fill: var(--faint); stroke: var(--main); rx: 4; } #lineage .again rect { stroke: var(--again); stroke-width: 2; }
#lineage .picked rect { fill: var(--lit); } #lineage path { fill: none; stroke: var(--soft); } #lineage g { cursor: pointer; }
@media (max-width: 900px) { body { display: block; height: auto; } section { margin-top: 8px; } #lanes { height: 300px; } }
</style>
</head>
<body>
<header>
  <div id="story"></div>
  <div class="bar">
    <button id="first" title="To the beginning (Home)">|&lt;</button><button id="back" title="One event back (left)">&lt;</button>
    <button id="play" title="Play (space)" aria-pressed="false">play</button>
    <button id="step" title="One event on (right)">&gt;</button><button id="last" title="To the end (End)">&gt;|</button>
    <input id="slider" type="range" min="0" value="0" aria-label="Event"><span id="at"></span>
    <button id="nextFault" title="Next death, loss, refusal or fault (f)">next fault</button>
    <button id="nextMessage" title="Next message of the chosen object (m)">its next message</button>
    <select id="function" title="A function of the script"></select><button id="nextEntry" title="Next entry of the function (e)">its next entry</button>
    <input id="search" type="search" placeholder="search: o1.2, Give, prints (/)" size="24">
    <button id="theme" title="Light or dark (t)">light / dark</button>
  </div>
</header>
<section id="script"><h2>The script</h2><div id="code" class="mono"></div><h2 style="margin-top:10px">What main printed, and its end</h2>
  <div id="prints" class="mono"></div></section>
<section id="cluster"><div id="now"></div><h2>The cluster behind this event</h2><div id="nodes" class="nodes"></div>
  <h2 style="margin-top:10px">Messages under way</h2><div id="way" class="mono"></div></section>
<section id="card"><div id="object"></div><h2>Made of, and in what</h2><svg id="lineage"></svg><div id="end"></div></section>
<section id="lanes"><h2>Attempts by worker <span class="soft">(wheel: zoom, drag: move, click: to that event)</span></h2><canvas id="canvas"></canvas></section>
<script id="run" type="application/json">"#;

/// What stands behind it.
pub const TAIL: &str = r#"</script>
<script>
'use strict';
// What a run's log says, and what follows of it by the rules of docs/protocol.md. Nothing but the JSON above is read.

// ---- the log, read once

const CHECKPOINTS = 200;

// A line that stands below an event: what happened to whom.
function readEntry(line) {
  const space = line.indexOf(' '), first = line.slice(0, space);
  const letter = line[0];
  if (letter === 'a') return readAct(line, first, space + 1);
  if (line.startsWith('main prints ')) return { kind: 'prints', attempt: 'a1.0#0', name: 'main', text: line.slice(12), line };
  if (line.startsWith('refused ')) return { kind: 'refused', text: line, line };
  const rest = line.slice(space + 1);
  const verb = rest.slice(0, rest.indexOf(' '));
  if (verb === 'opens') return { kind: 'opens', node: first, worker: rest.slice(6), line };
  if (verb === 'releases') return { kind: 'releases', object: rest.slice(9), line };
  if (verb === 'accepts') { const [attempt, name] = named(rest.slice(8)); return { kind: 'accepts', attempt, name, worker: first, line }; }
  if (verb === 'gives') {
    const colon = rest.indexOf(':');
    return { kind: 'gives up', object: rest.slice(9, colon), text: rest.slice(colon + 2), line };
  }
  if (verb === 'begins') {
    const colon = rest.indexOf(':'), end = colon < 0 ? rest.length : colon;
    const attempt = rest.slice(7, end).replace(' again', ''), call = colon < 0 ? '' : rest.slice(colon + 2);
    return { kind: 'begins', worker: first, attempt, name: call.slice(0, call.indexOf('(')), text: call, line };
  }
  return { kind: 'other', line };
}

// `a1.2#0 (f)`: the attempt, and its function.
function named(text) {
  const space = text.indexOf(' ');
  return space < 0 ? [text, ''] : [text.slice(0, space), text.slice(space + 2, text.length - 1)];
}

function readAct(line, attempt, from) {
  let name = '';
  if (line[from] === '(') { const close = line.indexOf(')', from); name = line.slice(from + 1, close); from = close + 2; }
  const rest = line.slice(from), colon = rest.indexOf(':');
  if (rest.startsWith('makes ')) {
    const objects = rest.slice(6, colon).split(', ');
    return { kind: 'makes', attempt, name, object: objects[0], objects, text: rest.slice(colon + 2), line };
  }
  if (rest.startsWith('gets ')) return { kind: 'gets', attempt, name, object: rest.slice(5, colon), text: rest.slice(colon + 2), line };
  if (rest.startsWith('ends with a fault at get ')) {
    return { kind: 'faults', attempt, name, object: rest.slice(25, colon), text: rest.slice(colon + 2), line };
  }
  return { kind: 'ends', attempt, name, text: rest.slice(10), line };
}

// `w1 sends message 3 to w2: Push(..)`
function readMessage(line, at, event) {
  const sender = line.slice(0, line.indexOf(' ')), to = line.indexOf(' to ', at), colon = line.indexOf(': ', to);
  const text = line.slice(colon + 2), open = text.indexOf('(');
  return { number: +line.slice(at + 15, to), from: sender, to: line.slice(to + 4, colon), kind: text.slice(0, open),
    words: text.slice(open + 1, -1), text, line, sent: event, delivered: 0 };
}

// The parts of a message's text up to the first list or call.
const parts = (message) => message.words.split(', ');

// The events with what came of each; number 0 is the opening.
function readLog(text) {
  const events = [{ number: 0, text: 'the run opens', kind: 'opening', args: [], entries: [], sent: [], refused: false }];
  const messages = [null];
  let event = events[0], from = 0;
  while (from < text.length) {
    let end = text.indexOf('\n', from);
    if (end < 0) end = text.length;
    const code = text.charCodeAt(from);
    if (code >= 48 && code <= 57) {
      event = readEvent(text.slice(from, end));
      events.push(event);
    } else {
      const line = text.slice(code === 32 ? from + 4 : from, end), at = line.indexOf(' ');
      if ((line[0] === 'w' || line[0] === 'n') && line.startsWith(' sends message ', at)) {
        const message = readMessage(line, at, event.number);
        event.sent.push(message);
        messages.push(message);
      } else {
        const entry = readEntry(line);
        if (entry.kind === 'refused') event.refused = true;
        event.entries.push(entry);
      }
    }
    from = end + 1;
  }
  return { events, messages };
}

// `7. claim 2: w2 takes job 3 (seat 1)`
function readEvent(line) {
  const dot = line.indexOf('. '), colon = line.indexOf(': '), seat = line.indexOf(' (seat ');
  const end = colon > 0 ? colon : seat > 0 ? seat : line.length, words = line.slice(dot + 2, end).split(' ');
  return { number: +line.slice(0, dot), text: line.slice(dot + 2), kind: words[0], args: words.slice(1), entries: [], sent: [], refused: false };
}

// ---- who and what there is, with where it stands in the log

const objectOf = (attempt) => 'o' + attempt.slice(1, attempt.indexOf('#'));
const ownerOf = (object) => 'w' + object.slice(1, object.indexOf('.'));
const idsIn = (text) => text.match(/\bo\d+\.\d+/g) || [];

// The contents with which an attempt ended, one for each result: what stands between the commas that are in no list.
function contentsIn(text) {
  const found = [];
  let depth = 0, from = 0;
  for (let at = 0; at < text.length; at++) {
    if (text[at] === '[') depth++;
    if (text[at] === ']') depth--;
    if (text[at] === ',' && depth === 0) { found.push(text.slice(from, at)); from = at + 2; }
  }
  return [...found, text.slice(from)];
}
const FAULTS = new Set(['kill', 'kill-node', 'lose', 'evict']);

class Run {
  constructor(data) {
    this.cluster = data.cluster;
    this.script = data.script;
    this.report = data.report;
    this.state = data.state;
    const { events, messages } = readLog(data.log);
    this.events = events;
    this.messages = messages;
    this.last = events.length - 1;
    this.attempts = new Map();
    this.objects = new Map();
    this.workers = new Map();
    this.deaths = new Map();
    this.births = new Map();
    this.pushed = new Set();
    this.answered = new Set();
    this.jobs = ['', ];
    this.prints = [];
    this.faults = [];
    this.mainEnd = null;
    this.places = new ScriptPlaces(data.script);
    for (let n = 1; n <= this.cluster.nodes; n++) this.addNode(n);
    for (const event of events) this.index(event);
    this.checkpoints = null;
    // A report has the lists of prints and of main's end whole.
    const lines = data.report.split('\n').filter((line) => line.startsWith('print '));
    this.prints.forEach((print, k) => { print.whole = lines[k] || print.text; });
  }

  addNode(n) { this.nodeCount = n; }

  index(event) {
    const at = event.number;
    if (!event.refused) {
      if (event.kind === 'claim') this.jobs.push('w' + event.args[0]);
      if (event.kind === 'deliver') this.arrives(event, this.messages[+event.args[0]]);
      if (event.kind === 'kill') this.deaths.set('w' + event.args[0], at);
      if (event.kind === 'join') this.addNode(this.nodeCount + 1);
      if (event.kind === 'kill-node') {
        const node = 'n' + event.args[0];
        this.deaths.set(node, at);
        for (const worker of this.workers.values()) if (worker.node === node && !this.deaths.has(worker.id)) this.deaths.set(worker.id, at);
      }
    }
    if (event.refused || FAULTS.has(event.kind)) this.faults.push(at);
    for (const entry of event.entries) this.indexEntry(at, entry);
    for (const message of event.sent) {
      const object = message.kind === 'Ask' && this.objects.get(objectOf(parts(message)[0]));
      if (object) object.asks.push(message);
      if (message.kind === 'Wait' || message.kind === 'Give') this.noteAnswer(message);
    }
  }

  indexEntry(at, entry) {
    const attempt = entry.attempt && this.attempts.get(entry.attempt);
    if (entry.kind === 'opens') this.workers.set(entry.worker, { id: entry.worker, node: entry.node, opened: at, attempts: [] });
    if (entry.kind === 'begins') this.begins(at, entry);
    if (entry.kind === 'makes') this.born(at, entry);
    if (entry.kind === 'gets' && attempt) attempt.gets.push({ at, object: entry.object, text: entry.text });
    if (entry.kind === 'faults') {
      if (attempt) attempt.fault = { at, object: entry.object, text: entry.text };
      this.faults.push(at);
    }
    if (entry.kind === 'ends' && attempt) attempt.end = { at, text: entry.text };
    if (entry.kind === 'accepts' && attempt) {
      attempt.accepted = at;
      const object = this.objects.get(objectOf(entry.attempt));
      if (object) object.accepted.push({ at, attempt: entry.attempt });
    }
    if (entry.kind === 'gives up') {
      this.faults.push(at);
      const object = this.objects.get(entry.object);
      if (object && !object.resolved) object.resolved = { at, text: entry.text };
    }
    if (entry.kind === 'releases') { const object = this.objects.get(entry.object); if (object && !object.released) object.released = at; }
    if (entry.kind === 'prints') this.prints.push({ at, text: 'print ' + entry.text });
    if (entry.attempt === 'a1.0#0' && (entry.kind === 'ends' || entry.kind === 'faults') && !this.mainEnd) {
      this.mainEnd = { at, fault: entry.kind === 'faults', text: entry.text };
    }
  }

  // The results of a call have its attempts in common, which are named by the first.
  born(at, entry) {
    const common = { born: at, by: entry.attempt, byName: entry.name, text: entry.text, needs: idsIn(entry.text), results: entry.objects, attempts: [],
      asks: [], accepted: [], call: /^remote\(\d+\) (\w+)/.exec(entry.text) };
    entry.objects.forEach((id, place) => this.objects.set(id, { ...common, id, place, usedBy: [], released: 0, resolved: null }));
    for (const id of common.needs) { const used = this.objects.get(id); if (used) used.usedBy.push(...entry.objects); }
    this.noteBirth(this.objects.get(entry.object));
  }

  // The objects that an attempt makes, and the one by which the attempts of an object's task are named.
  resultsOf(attempt) { const first = objectOf(attempt), object = this.objects.get(first); return object ? object.results : [first]; }
  taskOf(id) { const object = this.objects.get(id); return object ? object.results[0] : id; }

  // A Push begins its attempt where it is the first that reaches its worker alive.
  arrives(event, message) {
    if (!message) return;
    if (!message.delivered) message.delivered = event.number;
    if (message.kind !== 'Push' || this.deaths.has(message.to)) return;
    const attempt = parts(message)[0];
    event.begins = !this.pushed.has(attempt);
    this.pushed.add(attempt);
  }

  // An ask may be answered again: the answer that stands is said once more then, and nothing changes.
  noteAnswer(message) {
    const words = parts(message), ask = `${message.from} ${words[0]} ${words[1]}`, given = ask + ' given';
    message.isFirst = message.kind === 'Give' ? !this.answered.has(given) : !this.answered.has(ask);
    this.answered.add(ask);
    if (message.kind === 'Give') this.answered.add(given);
  }

  noteBirth(object) {
    const key = `${object.by} ${object.call ? object.call[1] : ''}`;
    if (!this.births.has(key)) this.births.set(key, []);
    this.births.get(key).push(object);
  }

  begins(at, entry) {
    const number = +entry.attempt.slice(entry.attempt.indexOf('#') + 1);
    const attempt = { id: entry.attempt, number, worker: entry.worker, name: entry.name, text: entry.text, begun: at, gets: [], end: null, fault: null,
      accepted: 0, again: '' };
    if (this.attempts.has(entry.attempt)) return;
    this.attempts.set(entry.attempt, attempt);
    const worker = this.workers.get(entry.worker), object = this.objects.get(objectOf(entry.attempt));
    if (worker) worker.attempts.push(attempt);
    if (object) object.attempts.push(attempt);
    if (object && number > 0) attempt.again = this.whyAgain(object, attempt);
  }

  // The break through which a task runs again: by the log, what became of its attempt before.
  whyAgain(object, attempt) {
    const before = this.attempts.get(attempt.id.replace(/#\d+$/, '#' + (attempt.number - 1)));
    if (!before) return 'the attempt before never began';
    const node = this.workers.get(before.worker).node, worker = this.deaths.get(before.worker), died = this.deaths.get(node);
    const lost = this.lostAt(object.results, node, before.end ? before.end.at : 0, attempt.begun), isOne = object.results.length === 1;
    if (lost) return `${node} lost its copy ${isOne ? '' : `of ${this.events[lost].args[1]} `}in event ${lost}`;
    if (died) {
      return `${node} died in event ${died}, ` + (before.end ? `and ${isOne ? 'the' : 'a'} result of ${before.id} with it` : `with ${before.id} on it`);
    }
    if (worker) return `${before.worker} died in event ${worker}, with ${before.id} on it`;
    return 'the attempt before broke';
  }

  lostAt(objects, node, from, until) {
    for (let at = until; at > from; at--) {
      const event = this.events[at];
      if (event.kind === 'lose' && !event.refused && 'n' + event.args[0] === node && objects.includes(event.args[1])) return at;
    }
    return 0;
  }

  waitingAtEnd() {
    if (!this.waiting) this.waiting = new Map([...this.state.matchAll(/^w\d+: (a\S+) .*waits for (o\d+\.\d+)/gm)].map((it) => [it[1], it[2]]));
    return this.waiting;
  }

  linesOf(entry) {
    const object = entry.kind === 'makes' && this.objects.get(this.taskOf(entry.object));
    return object ? this.places.ofBirth(object, this.births.get(`${object.by} ${object.call ? object.call[1] : ''}`)) : this.places.of(entry);
  }

  // What an attempt waits for: what it gets next, or by the program's tables where the log ends first.
  waitsFor(attempt, at) {
    const found = this.attempts.get(attempt);
    if (!found) return '';
    const get = firstAfter(found.gets, at);
    if (get) return get.object;
    if (found.fault && found.fault.at > at) return found.fault.object;
    return this.waitingAtEnd().get(attempt) || '';
  }

  // The events' states are kept each so many events, so that any is soon computed.
  stateAt(at, near) {
    if (!this.checkpoints) this.keepCheckpoints();
    let state = near && near.at <= at && at - near.at <= this.every ? near : this.checkpoints[Math.floor(at / this.every)].copy();
    while (state.at < at) state.apply(this.events[state.at + 1]);
    return state;
  }

  keepCheckpoints() {
    this.every = Math.max(32, Math.ceil(this.events.length / CHECKPOINTS));
    const state = new State(this);
    state.apply(this.events[0]);
    this.checkpoints = [state.copy()];
    for (let at = 1; at <= this.last; at++) {
      state.apply(this.events[at]);
      if (at % this.every === 0) this.checkpoints.push(state.copy());
    }
  }
}

// ---- what is alive behind an event

// The cells of a content as the log writes it: one for each integer, id, trap and list. A list that is cut has more than 8 items.
function isSmall(content) {
  if (content.includes(' items]')) return false;
  const lists = content.split('[').length - 1, atoms = content.replace(/\[\]/g, '').split(/[[\],]+/).filter((it) => it.trim() !== '').length;
  return lists + atoms <= 8;
}

const without = (list, it) => list.filter((other) => other !== it);
const numberOf = (id) => +id.slice(1);

class State {
  constructor(run) { this.run = run; this.at = -1; this.nodes = new Map(); this.workers = new Map(); this.flying = new Map(); }

  copy() {
    const other = new State(this.run);
    other.at = this.at;
    for (const [id, node] of this.nodes) {
      other.nodes.set(id, { ...node, primaries: new Set(node.primaries), leases: new Map(node.leases) });
    }
    for (const [id, worker] of this.workers) other.workers.set(id, { ...worker });
    other.flying = new Map(this.flying);
    return other;
  }

  addNode() {
    const id = 'n' + (this.nodes.size + 1);
    this.nodes.set(id, { id, alive: true, slots: this.run.cluster.slots, holders: [], answered: [], queue: [], idle: [], workers: [], leases: new Map(),
      primaries: new Set(), secondaries: [] });
  }

  node(id) { return this.nodes.get(id); }
  nodeOf(worker) { return this.nodes.get(this.workers.get(worker).node); }

  apply(event) {
    this.at = event.number;
    if (event.kind === 'opening') this.opens();
    if (!event.refused) this.happens(event);
    for (const entry of event.entries) this.enters(entry);
    if (event.kind === 'opening') this.mainBegins();
    if (event.kind === 'commit' && !event.refused) this.commits(event);
    for (const message of event.sent) this.sends(message);
  }

  opens() { for (let n = 1; n <= this.run.cluster.nodes; n++) this.addNode(); }

  mainBegins() {
    const main = this.workers.get('w1');
    if (!main) return;
    Object.assign(main, { attempt: 'a1.0#0', phase: 'ready' });
    this.nodes.get('n1').holders = ['w1'];
  }

  happens(event) {
    const [first, second] = event.args;
    if (event.kind === 'claim') Object.assign(this.workers.get('w' + first), { phase: 'out', job: /takes job (\d+)/.exec(event.text)[1] });
    if (event.kind === 'deliver') this.arrives(event, this.run.messages[+first]);
    if (event.kind === 'kill') this.dies('w' + first);
    if (event.kind === 'join') this.addNode();
    if (event.kind === 'evict') this.drop(this.node('n' + first), second, false);
    if (event.kind === 'lose') this.drop(this.node('n' + first), second, true);
    if (event.kind === 'kill-node') {
      const node = this.node('n' + first);
      node.workers.forEach((id) => { this.workers.get(id).alive = false; });
      Object.assign(node, { alive: false, holders: [], answered: [], queue: [], idle: [], primaries: new Set(), secondaries: [] });
    }
  }

  dies(id) {
    const worker = this.workers.get(id), node = this.node(worker.node);
    worker.alive = false;
    node.idle = without(node.idle, id);
    node.answered = without(node.answered, id);
    this.frees(node, id);
  }

  drop(node, object, all) {
    const of = (copy) => copy.startsWith(object + '#');
    node.secondaries = node.secondaries.filter((copy) => !of(copy));
    if (all) for (const copy of node.primaries) if (of(copy)) node.primaries.delete(copy);
  }

  arrives(event, message) {
    this.flying.delete(message.number);
    const words = parts(message), node = this.nodes.get(message.to);
    if (node) return void (node.alive && this.reaches(node, message, words));
    const worker = this.workers.get(message.to);
    if (!worker || !worker.alive) return;
    if (event.begins) Object.assign(worker, { attempt: words[0], phase: 'ready' });
    if (message.kind === 'Copy') this.brought = { worker: message.to, copy: words[0] + '#' + words[1] };
  }

  reaches(node, message, words) {
    const from = message.from, has = (list) => list.includes(from);
    if (message.kind === 'Back' && node.leases.get(from) === words[0] && this.workers.get(from).alive
      && !has(node.holders) && !has(node.answered) && !has(node.idle)) node.idle = [...node.idle, from];
    if (message.kind === 'Unhold' && words[0] === words[1]) this.drop(node, words[0], true);
    const copy = words[0] + '#' + words[1];
    if (message.kind === 'Fetch' && node.secondaries.includes(copy)) node.secondaries = [copy, ...without(node.secondaries, copy)];
  }

  // A slot that is given back goes to the first whose attempt was answered; else to an ask, which a Give tells.
  frees(node, id) {
    if (!node.holders.includes(id)) return;
    node.holders = without(node.holders, id);
    if (node.answered.length > 0) {
      node.holders = [...node.holders, node.answered[0]];
      node.answered = node.answered.slice(1);
    }
  }

  enters(entry) {
    if (entry.kind === 'opens') {
      this.workers.set(entry.worker, { id: entry.worker, node: entry.node, alive: true, attempt: '', phase: '', job: 0 });
      const node = this.node(entry.node);
      node.workers = [...node.workers, entry.worker];
    }
    const attempt = entry.attempt && this.run.attempts.get(entry.attempt), worker = attempt && this.workers.get(attempt.worker);
    if (!worker) return;
    const node = this.node(worker.node);
    if (entry.kind === 'makes' && entry.text.startsWith('put ')) node.primaries.add(entry.object + '#0');
    if (entry.kind === 'ends') {
      worker.phase = 'ended';
      const contents = contentsIn(entry.text);
      this.run.resultsOf(entry.attempt).forEach((id, k) => { if (!isSmall(contents[k] || '')) node.primaries.add(id + '#' + attempt.number); });
    }
    if (entry.kind === 'faults') { worker.phase = 'faulted'; this.frees(node, worker.id); }
    if (entry.kind === 'gets') this.gets(node, worker, entry);
  }

  gets(node, worker, entry) {
    const brought = this.brought;
    if (brought && brought.worker === worker.id && brought.copy.startsWith(entry.object + '#') && !node.primaries.has(brought.copy)) {
      node.secondaries = [brought.copy, ...without(node.secondaries, brought.copy)].slice(0, 16);
    }
    this.brought = null;
    worker.phase = 'ready';
    if (node.holders.includes(worker.id) || node.answered.includes(worker.id)) return;
    if (node.holders.length < node.slots) node.holders = [...node.holders, worker.id];
    else node.answered = [...node.answered, worker.id];
  }

  // Behind a commit the attempt goes on where its get was answered in the same event; else it waits or has stopped, and has no slot.
  commits(event) {
    const id = this.run.jobs[+event.args[0]], worker = this.workers.get(id);
    if (worker.phase === 'out') worker.phase = 'waits';
    if (worker.phase === 'waits' || worker.phase === 'ended') this.frees(this.node(worker.node), id);
  }

  sends(message) {
    this.flying.set(message.number, message);
    const node = this.nodes.get(message.from);
    if (!node) return;
    const words = parts(message), ask = words[0] + ', ' + words[1];
    if (message.kind === 'Wait' && message.isFirst) node.queue = [...node.queue, ask];
    if (message.kind === 'Give' && message.isFirst) {
      node.queue = without(node.queue, ask);
      node.idle = without(node.idle, words[2]);
      node.holders = [...node.holders, words[2]];
      node.leases.set(words[2], words[0]);
    }
  }

  // ---- the same in the words of `raysim state`

  title(attempt) {
    const found = this.run.attempts.get(attempt), object = this.run.objects.get(objectOf(attempt));
    const name = found ? found.name : object && object.call ? object.call[1] : '';
    return name ? `${attempt} (${name})` : attempt;
  }

  nodeLine(node) {
    if (!node.alive) return `${node.id}: dead`;
    const by = node.holders.length > 0 ? ' by ' + node.holders.join(' ') : '';
    return `${node.id}: alive, ${node.holders.length} of ${node.slots} slots taken${by}`;
  }

  workersLine(node) { return `${node.id}: workers` + node.workers.map((id) => ' ' + id).join(''); }
  answeredLine(node, worker) { return `${node.id}: ${worker} waits for a slot`; }
  askLine(node, ask) { return `${node.id}: ${this.title(ask.split(',')[0])} waits for a slot`; }

  copyLine(node, kind, copy) {
    const [object, number] = copy.split('#'), known = this.run.objects.get(object), isPut = known && !known.call;
    return `${node.id}: ${kind} copy of ${object}` + (isPut ? '' : ` by a${this.run.taskOf(object).slice(1)}#${number}`);
  }

  workerLine(worker) {
    if (!worker.alive) return `${worker.id}: dead, on ${worker.node}`;
    const node = this.node(worker.node), lease = node.leases.get(worker.id);
    const standing = worker.id === 'w1' ? 'driver' : node.idle.includes(worker.id) ? 'idle' : 'given to ' + (lease ? this.title(lease) : 'nobody');
    return `${worker.id}: alive, on ${worker.node}, ${standing}`;
  }

  runLine(worker) {
    if (!worker.alive || !worker.attempt) return '';
    const node = this.node(worker.node), has = node.holders.includes(worker.id);
    const says = { ready: has ? 'is ready' : `waits for a slot of ${node.id}`, out: `took job ${worker.job}`, ended: 'ended', faulted: 'ended with a fault' };
    const said = worker.phase === 'waits' ? 'waits for ' + this.run.waitsFor(worker.attempt, this.at) : says[worker.phase];
    return `${worker.id}: ${this.title(worker.attempt)} ${said}`;
  }

  // How an object stands, by the log alone: what only its owner's table knows, as that it is lost, isn't said.
  objectLine(id) {
    const object = this.run.objects.get(id), owner = ownerOf(id), died = this.run.deaths.get(owner);
    const head = `${id}: ${object.call ? 'made by ' + object.call[1] : 'put'}, `;
    if (died && died <= this.at) return head + `owner ${owner}, dead`;
    return head + `owner ${owner}, ` + this.objectStands(object);
  }

  objectStands(object) {
    if (object.released && object.released <= this.at) return 'released';
    if (object.resolved && object.resolved.at <= this.at) return 'resolved: ' + object.resolved.text;
    if (!object.call) return 'settled';
    const ask = last(object.asks, (it) => it.sent <= this.at), accepted = last(object.accepted, (it) => it.at <= this.at);
    const asked = ask ? parts(ask)[0] : '';
    if (accepted && (accepted.attempt === asked || this.isSpent(object))) return 'settled by ' + accepted.attempt;
    if (object.place > 0) return this.besideStands(object, accepted);
    const attempt = this.run.attempts.get(asked);
    if (attempt && attempt.begun <= this.at) return `pending: ${asked} began on ${attempt.worker}`;
    return ask ? `pending: ${asked} asked ${ask.to} for a worker` : '';
  }

  // A result of its task was given up: no attempt comes any more, and the other results stay as they are.
  isSpent(object) { return object.results.some((id) => { const { resolved } = this.run.objects.get(id); return resolved && resolved.at <= this.at; }); }

  // A further result: it may be there while another one, which was lost, is made again. Its owner keeps a small content.
  besideStands(object, accepted) {
    const coming = 'comes with ' + object.results[0];
    if (!accepted) return coming;
    const settled = 'settled by ' + accepted.attempt, copy = object.id + accepted.attempt.slice(accepted.attempt.indexOf('#'));
    if (isSmall(contentsIn(this.run.attempts.get(accepted.attempt).end.text)[object.place])) return settled;
    return [...this.nodes.values()].some((node) => node.primaries.has(copy) || node.secondaries.includes(copy)) ? settled : coming;
  }
}

// The last of a list in the order of the log that may count.
function last(list, may) {
  for (let at = list.length - 1; at >= 0; at--) if (may(list[at])) return list[at];
  return null;
}

// The first of a list in the order of the log that stands behind an event, found by halves.
function firstAfter(list, at) {
  let low = 0, high = list.length;
  while (low < high) { const middle = (low + high) >> 1; if (list[middle].at > at) high = middle; else low = middle + 1; }
  return list[low];
}

// ---- where things stand in the script

class ScriptPlaces {
  constructor(script) {
    this.lines = script.replace(/\n$/, '').split('\n');
    this.functions = new Map();
    let name = '';
    this.lines.forEach((line, at) => {
      const begins = /^\s*fn\s+(\w+)/.exec(line);
      if (begins) { name = begins[1]; this.functions.set(name, []); }
      if (name && !/^\s*#/.test(line)) this.functions.get(name).push(at);
    });
  }

  // The lines of a function that match, or else those of all: what it calls plainly runs as a part of it.
  within(name, pattern) {
    const has = (at) => pattern.test(this.lines[at]), own = (this.functions.get(name) || []).filter(has);
    return own.length > 0 ? own : [...this.functions.values()].flat().filter(has);
  }

  // Where an object may be made; `like` are those that its attempt made by the same call: as many as there are lines are made line by line.
  ofBirth(object, like) {
    const lines = this.within(object.byName, object.call ? new RegExp('\\bremote\\b.*\\b' + object.call[1] + '\\s*\\(') : /\bput\b/);
    return like.length === lines.length ? [lines[like.indexOf(object)]] : lines;
  }

  of(entry) {
    if (entry.kind === 'gets' || entry.kind === 'faults') return this.within(entry.name, /\bget\b/);
    if (entry.kind === 'prints') return this.within('main', /\bprint\b/);
    if (entry.kind === 'ends') return this.within(entry.name, /\breturn\b/);
    if (entry.kind === 'begins') return (this.functions.get(entry.name) || []).slice(0, 1);
    return [];
  }
}

// ---- the report, made of the log once more

function reportLines(run) {
  const lines = run.prints.map((it) => it.text), sections = [[], [], [], []];
  const end = run.mainEnd;
  const seen = new Set();
  const ended = (it) => (it.text.startsWith('trap ') ? it.text : 'value ' + it.text);
  lines.push('main ' + (!end ? 'open' : end.fault ? 'fault ' + end.text.replace(/ \(.*$/, '') : ended(end)));
  for (const event of run.events) {
    for (const entry of event.entries) {
      if (entry.kind === 'begins' && entry.attempt !== 'a1.0#0' && !seen.has(entry.line)) {
        const it = run.attempts.get(entry.attempt), state = it.accepted ? 'accepted' : it.end ? 'ended' : it.fault ? 'faulted' : 'open';
        seen.add(entry.line);
        sections[0].push(`attempt ${entry.attempt} ${entry.worker} ${state}`);
      }
      if (entry.kind === 'gives up') sections[1].push(`resolved ${entry.object} ${entry.text.replace(/ \(.*$/, '')}`);
      if (entry.kind === 'releases') sections[2].push(`released ${entry.object}`);
      if (entry.kind === 'refused') sections[3].push(`refused ${/^refused (\d+)/.exec(entry.text)[1]} ${event.text.replace(/ \(seat \d+\)$/, '')}`);
    }
  }
  return lines.concat(...sections);
}

// What makes an object; of several results, which one it is, behind the first.
const toldOf = (object) => object.text + (object.place > 0 ? `, result ${object.place + 1}` : '');

// The sentences of an object's card: what became of it up to an event, and why.
function sentences(run, id, at) {
  const object = run.objects.get(id), all = [];
  const say = (when, text) => { if (when <= at) all.push({ at: when, text }); };
  const lines = run.linesOf({ kind: 'makes', object: id }).map((line) => line + 1);
  const where = lines.length > 0 ? `, line ${lines.join(' or ')}` : '', others = without(object.results, id);
  const beside = others.length > 0 ? ` with ${others.join(', ')}` : '';
  say(object.born, `${object.by} (${object.byName}) made it${beside}${where}: ${toldOf(object)}`);
  for (const attempt of object.attempts) {
    const node = run.workers.get(attempt.worker).node, again = attempt.again ? ` again, since ${attempt.again}` : '';
    say(attempt.begun, `${attempt.id} began on ${attempt.worker} of ${node}${again}`);
    for (const get of attempt.gets) say(get.at, `${attempt.id} got ${get.object}: ${get.text}`);
    if (attempt.end) say(attempt.end.at, `${attempt.id} ended: ${attempt.end.text}`);
    if (attempt.fault) say(attempt.fault.at, `${attempt.id} ended with a fault at get ${attempt.fault.object}: ${attempt.fault.text}`);
    if (attempt.accepted) say(attempt.accepted, `${ownerOf(id)} accepted ${attempt.id}`);
    const died = run.deaths.get(attempt.worker);
    if (died && died >= attempt.begun) say(died, `${run.deaths.get(node) === died ? node : attempt.worker} died, where ${attempt.id} had run`);
  }
  if (object.resolved) say(object.resolved.at, `${ownerOf(id)} gave it up: ${object.resolved.text}`);
  if (object.released) say(object.released, `${ownerOf(id)} released it: nothing needed it any more`);
  return all.sort((a, b) => a.at - b.at);
}

// The objects in its arguments or its value, and those that its attempts got.
function madeOf(run, id) {
  const object = run.objects.get(id);
  return [...object.needs, ...object.attempts.flatMap((attempt) => attempt.gets.map((get) => get.object))];
}

// An object's family, in layers: what it was made of above it, what was made of it below.
function family(run, id, most) {
  const layers = new Map([[id, 0]]);
  const walk = (next, step, depth) => {
    let edge = [id];
    for (let level = 1; level <= depth && layers.size < most; level++) {
      const found = [];
      for (const it of edge) {
        for (const other of next(it)) {
          if (!layers.has(other) && run.objects.has(other) && layers.size < most) { layers.set(other, step * level); found.push(other); }
        }
      }
      edge = found;
    }
  };
  walk((it) => madeOf(run, it), -1, 6);
  walk((it) => run.objects.get(it).usedBy, 1, 4);
  return layers;
}

if (typeof module !== 'undefined') {
  module.exports = { Run, State, ScriptPlaces, readEntry, readEvent, readMessage, readLog, isSmall, contentsIn, reportLines, sentences, family, idsIn };
}

// ---- the view

const by = (id) => document.getElementById(id);
const written = new Map();
// Writes into an element, where that isn't what it has.
function put(id, text) {
  if (written.get(id) === text) return;
  written.set(id, text);
  by(id).innerHTML = text;
}

const escapeText = (text) => text.replace(/&/g, '&amp;').replace(/</g, '&lt;').replace(/>/g, '&gt;').replace(/"/g, '&quot;');

class View {
  constructor(run) {
    this.run = run;
    this.at = 0;
    this.picked = '';
    this.playing = 0;
    this.state = null;
    this.lanes = new Lanes(run, by('canvas'), (at) => this.go(at));
    by('slider').max = run.last;
    this.writeScript();
    this.writeStory();
    this.writeFunctions();
    this.listen();
    this.pick(this.firstPick(), true);
    this.readFragment();
  }

  // What is chosen at first: an object that was made again, else the first.
  firstPick() {
    for (const object of this.run.objects.values()) if (object.attempts.some((it) => it.again)) return object.id;
    const first = this.run.objects.keys().next();
    return first.done ? '' : first.value;
  }

  linked(text) {
    return escapeText(text).replace(/\bo\d+\.\d+/g, (id) => (this.run.objects.has(id)
      ? `<span class="id${id === this.picked ? ' picked' : ''}" data-object="${id}">${id}</span>` : id));
  }

  eventLink(at) { return `<span class="id" data-event="${at}">${at}</span>`; }

  writeStory() {
    const run = this.run, end = run.mainEnd, said = [];
    const answer = run.report.split('\n').find((line) => line.startsWith('main ')) || 'main open';
    said.push(`<b>${escapeText(answer.replace('main ', 'main: '))}</b>` + (end ? ` (event ${this.eventLink(end.at)})` : ''));
    const dead = [...run.deaths].filter(([id]) => id[0] === 'n' || !run.deaths.has(run.workers.get(id).node));
    for (const [id, at] of dead.slice(0, 6)) said.push(`<span class="dead">${id} died</span> in event ${this.eventLink(at)}`);
    if (dead.length > 6) said.push(`and ${dead.length - 6} more died`);
    const again = [...run.attempts.values()].filter((it) => it.again);
    if (again.length > 0) {
      const shown = again.slice(0, 6).map((it) => `${this.linked(run.resultsOf(it.id).join(', '))} (${it.name}, event ${this.eventLink(it.begun)})`);
      said.push('<span class="again">made again</span>: ' + shown.join(', ') + (again.length > 6 ? ` and ${again.length - 6} more` : ''));
    }
    const isSame = end && !end.fault && (dead.length > 0 || again.length > 0);
    if (isSame) said.push('<span class="good">the answer is the one of a run in which nothing fails</span>');
    by('story').innerHTML = said.join('; ') + '.';
  }

  writeScript() {
    by('code').innerHTML = this.run.places.lines.map((line, at) => `<div><i>${at + 1}</i>${escapeText(line) || ' '}</div>`).join('');
    this.rows = [...by('code').children];
    this.lit = [];
    this.nodeTexts = [];
  }

  writeFunctions() {
    by('function').innerHTML = [...this.run.places.functions.keys()].map((name) => `<option>${name}</option>`).join('');
  }

  go(at) {
    this.at = Math.max(0, Math.min(this.run.last, at));
    this.state = this.run.stateAt(this.at, this.state);
    this.show();
  }

  pick(id, quiet) {
    if (id && !this.run.objects.has(id)) return;
    this.picked = id;
    this.cardOf = '';
    if (!quiet) this.show();
  }

  show() {
    by('slider').value = this.at;
    by('at').textContent = `event ${this.at} of ${this.run.last}`;
    const event = this.run.events[this.at];
    this.showEvent(event);
    this.showScript(event);
    this.showPrints();
    this.showCluster();
    this.showCard();
    this.lanes.draw(this.at, this.picked);
    this.writeFragment();
  }

  showEvent(event) {
    const lines = [...event.entries.map((it) => it.line), ...event.sent.map((it) => it.line)];
    const number = event.number > 0 ? event.number + '. ' : '';
    put('now', `<div class="what">${this.linked(number + event.text)}</div>`
      + `<ul class="mono">${lines.slice(0, 40).map((line) => `<li>${this.linked(line)}</li>`).join('')}</ul>`
      + (lines.length > 40 ? `<span class="soft">and ${lines.length - 40} more lines</span>` : ''));
  }

  showScript(event) {
    for (const row of this.lit) row.className = '';
    this.lit = [];
    const light = (at, name) => { const row = this.rows[at]; if (row) { row.classList.add(name); this.lit.push(row); } };
    for (const worker of this.state.workers.values()) {
      const attempt = worker.alive && worker.phase === 'out' && this.run.attempts.get(worker.attempt);
      if (attempt) (this.run.places.functions.get(attempt.name) || []).forEach((at) => light(at, 'runs'));
    }
    for (const entry of event.entries) this.run.linesOf(entry).forEach((at) => light(at, 'on'));
  }

  showPrints() {
    const said = [];
    for (const print of this.run.prints) { if (print.at > this.at) break; said.push(print); }
    const lines = said.slice(-200).map((print) => `<div>${escapeText(print.whole)}</div>`), end = this.run.mainEnd;
    if (end && end.at <= this.at) lines.push(`<div class="${end.fault ? 'dead' : 'good'}">main ${end.fault ? 'fault ' : ''}${escapeText(end.text)}</div>`);
    put('prints', lines.join('') || '<span class="soft">nothing yet</span>');
  }

  showCluster() {
    const shown = [...this.state.nodes.values()].slice(0, 24).map((node) => this.nodeHtml(node));
    if (this.state.nodes.size > 24) shown.push(`<span class="soft">and ${this.state.nodes.size - 24} more nodes</span>`);
    this.putNodes(shown);
    const way = [];
    for (const message of this.state.flying.values()) { way.push(message); if (way.length === 60) break; }
    put('way', way.map((it) => `<span class="message"><b>${it.number}</b> ${it.from} &rarr; ${it.to}: ${this.linked(it.text)}</span>`).join('')
      + (this.state.flying.size > 60 ? `<span class="soft">and ${this.state.flying.size - 60} more</span>` : '') || '<span class="soft">none</span>');
  }

  // Only the nodes that changed are written.
  putNodes(shown) {
    const place = by('nodes');
    while (place.children.length > shown.length) place.lastElementChild.remove();
    shown.forEach((text, k) => {
      if (k >= place.children.length) place.insertAdjacentHTML('beforeend', text);
      else if (this.nodeTexts[k] !== text) place.children[k].outerHTML = text;
    });
    this.nodeTexts = shown;
  }

  nodeHtml(node) {
    const state = this.state, says = (line) => `data-says="${escapeText(line)}"`, most = 12;
    // The living first, then those that died last.
    const workers = node.workers.map((id) => state.workers.get(id)), living = workers.filter((it) => it.alive);
    const shown = workers.length <= most ? workers : living.slice(-most);
    let html = `<div class="node${node.alive ? '' : ' gone'}"><h3 ${says(state.nodeLine(node))}><span>${node.id}</span>`
      + (node.alive ? `<span class="soft">${node.holders.length} of ${node.slots} slots taken</span>` : '<span class="dead">dead</span>') + '</h3>'
      + `<span ${says(state.workersLine(node))}></span>`;
    for (const worker of shown) html += this.workerHtml(worker, node);
    if (shown.length < workers.length) html += `<div class="soft">and ${workers.length - shown.length} more workers</div>`;
    html += node.answered.map((id) => `<div class="soft" ${says(state.answeredLine(node, id))}>${id} waits for a slot</div>`).join('');
    const asks = (ask) => `<div class="soft" ${says(state.askLine(node, ask))}>${this.linked(state.title(ask.split(',')[0]))} waits for a slot</div>`;
    html += node.queue.slice(0, 20).map(asks).join('');
    return html + this.copiesHtml(node) + '</div>';
  }

  copiesHtml(node) {
    const chip = (kind, copy) => {
      const [object, number] = copy.split('#'), says = this.state.copyLine(node, kind, copy);
      return `<span class="chip ${kind === 'primary' ? '' : 'second'}" title="${kind} copy" data-says="${says}">`
        + `${this.linked(object)}${number === '0' ? '' : '#' + number}</span>`;
    };
    const first = [];
    for (const copy of node.primaries) { first.push(chip('primary', copy)); if (first.length === 40) break; }
    const all = first.concat(node.secondaries.map((copy) => chip('secondary', copy)));
    if (node.primaries.size > first.length) all.push(`<span class="soft">and ${node.primaries.size - first.length} more</span>`);
    return all.length > 0 ? `<div><span class="soft">copies</span> ${all.join('')}</div>` : '';
  }

  workerHtml(worker, node) {
    const state = this.state, attempt = this.run.attempts.get(worker.attempt), line = state.runLine(worker);
    const kind = !worker.alive ? 'gone' : attempt && attempt.again && worker.phase !== 'ended' ? 'redone' : node.holders.includes(worker.id) ? 'runs' : '';
    const head = worker.alive ? state.workerLine(worker).replace(/^\w+: alive, on n\d+, /, '') : 'dead';
    const run = line ? `<div data-says="${escapeText(line)}">${this.linked(line.replace(/^\w+: /, ''))}</div>` : '';
    return `<div class="worker ${kind}"><span data-says="${escapeText(state.workerLine(worker))}"><b>${worker.id}</b> `
      + `<span class="soft">${head}</span></span>${run}</div>`;
  }

  showCard() {
    const id = this.picked;
    if (!id) { by('object').innerHTML = '<h2>No object</h2><span class="soft">This run makes none.</span>'; return; }
    put('object', `<h2>The object ${id}</h2>` + this.standingHtml(this.run.objects.get(id)) + this.historyHtml(id));
    if (this.cardOf !== id) { this.cardOf = id; this.drawLineage(id); }
    const known = this.at === this.run.last ? this.run.state.split('\n').filter((line) => line.startsWith(id + ':')) : [];
    const lines = known.map((line) => `<div>${this.linked(line)}</div>`);
    put('end', known.length > 0 ? `<h2>What its owner knows at the end</h2><div class="mono">${lines.join('')}</div>` : '');
  }

  // How it stands, where copies are, and which objects have it.
  standingHtml(object) {
    if (object.born > this.at) return '<div class="soft">not yet made</div>';
    const line = this.state.objectLine(object.id), places = [];
    const isOf = (copy) => copy.startsWith(object.id + '#');
    for (const node of this.state.nodes.values()) {
      if ([...node.primaries].some(isOf)) places.push(`${node.id} (primary)`);
      if (node.secondaries.some(isOf)) places.push(`${node.id} (secondary)`);
    }
    const has = object.usedBy.map((other) => this.run.objects.get(other)).filter((it) => it.born <= this.at && !(it.released && it.released <= this.at));
    return `<div data-says="${escapeText(line)}"><b>${this.linked(line)}</b></div><div>copies in stores: ${places.join(', ') || 'none'}; `
      + `objects that have it: ${has.slice(0, 12).map((it) => this.linked(it.id)).join(', ') || 'none'}</div>`;
  }

  historyHtml(id) {
    const rows = sentences(this.run, id, this.at).slice(-40);
    return '<ul>' + rows.map((it) => `<li>${this.linked(it.text)} <span class="soft">(${this.eventLink(it.at)})</span></li>`).join('') + '</ul>';
  }

  drawLineage(id) {
    const layers = family(this.run, id, 36), rows = new Map(), spots = new Map();
    for (const [it, layer] of layers) { if (!rows.has(layer)) rows.set(layer, []); rows.get(layer).push(it); }
    const order = [...rows.keys()].sort((a, b) => a - b), wide = 118, high = 62;
    const columns = 3;
    let y = 8, html = '';
    for (const layer of order) {
      const row = rows.get(layer);
      row.forEach((it, k) => spots.set(it, { x: 6 + (k % columns) * wide, y: y + Math.floor(k / columns) * high }));
      y += Math.ceil(row.length / columns) * high;
    }
    for (const [it, spot] of spots) {
      for (const need of new Set(madeOf(this.run, it))) {
        const from = spots.get(need);
        if (from) html += `<path d="M${from.x + 53} ${from.y + 40} C${from.x + 53} ${from.y + 56} ${spot.x + 53} ${spot.y - 14} ${spot.x + 53} ${spot.y}"/>`;
      }
    }
    for (const [it, spot] of spots) html += this.lineageHtml(it, spot, it === id);
    by('lineage').setAttribute('viewBox', `0 0 ${columns * wide + 6} ${y}`);
    by('lineage').innerHTML = html;
  }

  lineageHtml(id, spot, isPicked) {
    const object = this.run.objects.get(id), again = last(object.attempts, (it) => it.again);
    const name = object.call ? object.call[1] : 'put', told = toldOf(object) + (again ? '\nagain, since ' + again.again : '');
    const call = (object.place > 0 ? `result ${object.place + 1} of ` : '') + object.text.replace(/^remote\(\d+\) /, '');
    const below = again ? 'again: ' + again.again.replace(/ in event.*$/, '').replace('the attempt before', 'it') : call;
    const text = (kind, y, said, most) => `<text class="${kind}" x="${spot.x + 7}" y="${spot.y + y}">${escapeText(said.slice(0, most))}</text>`;
    return `<g class="${again ? 'again' : ''} ${isPicked ? 'picked' : ''}" data-object="${id}"><title>${escapeText(told)}</title>`
      + `<rect x="${spot.x}" y="${spot.y}" width="106" height="40"/>`
      + text('', 16, `${id} ${name}`, 15) + text(again ? 'redone' : 'small', 31, below, 16) + '</g>';
  }

  // ---- to an event that is looked for

  find(may) {
    for (let step = 1; step <= this.run.last; step++) {
      const at = (this.at + step) % (this.run.last + 1);
      if (may(this.run.events[at])) return this.go(at);
    }
  }

  nextFault() {
    const faults = this.run.faults, at = faults.find((it) => it > this.at);
    if (faults.length > 0) this.go(at === undefined ? faults[0] : at);
  }

  nextMessage() {
    const own = 'a' + this.run.taskOf(this.picked).slice(1) + '#', ends = [',', ')', ']'];
    const has = (message) => ends.some((end) => message.text.includes(this.picked + end)) || message.text.includes(own);
    this.find((event) => event.sent.some(has) || (event.kind === 'deliver' && !event.refused && has(this.run.messages[+event.args[0]])));
  }

  nextEntry() { const name = by('function').value; this.find((event) => event.entries.some((it) => it.name === name)); }

  search(text) {
    const sought = text.toLowerCase();
    if (!sought) return;
    if (this.run.objects.has(sought)) this.pick(sought, true);
    const has = (line) => line.toLowerCase().includes(sought);
    this.find((event) => has(event.text) || event.entries.some((it) => has(it.line)) || event.sent.some((it) => has(it.line)));
    this.show();
  }

  play() {
    cancelAnimationFrame(this.playing);
    const button = by('play'), on = button.getAttribute('aria-pressed') !== 'true';
    button.setAttribute('aria-pressed', on);
    if (!on) return;
    if (this.at === this.run.last) this.go(0);
    const pace = this.run.last > 2000 ? 1 : 8;
    let frame = 0;
    const tick = () => {
      if (++frame % pace === 0) this.go(this.at + 1);
      if (this.at === this.run.last) return void button.setAttribute('aria-pressed', false);
      this.playing = requestAnimationFrame(tick);
    };
    this.playing = requestAnimationFrame(tick);
  }

  theme() {
    const root = document.documentElement;
    root.dataset.theme = root.dataset.theme === 'dark' ? 'light' : 'dark';
    this.lanes.paint();
    this.show();
  }

  // ---- a link to a moment

  writeFragment() {
    clearTimeout(this.linking);
    this.linking = setTimeout(() => history.replaceState(null, '', '#' + `event=${this.at}` + (this.picked ? `&object=${this.picked}` : '')), 200);
  }

  readFragment() {
    const words = new URLSearchParams(location.hash.slice(1)), at = words.get('event'), object = words.get('object');
    if (object) this.pick(object, true);
    this.go(at === null ? this.run.last : +at || 0);
  }

  listen() {
    const on = (id, what) => by(id).addEventListener('click', what);
    on('first', () => this.go(0));
    on('last', () => this.go(this.run.last));
    on('back', () => this.go(this.at - 1));
    on('step', () => this.go(this.at + 1));
    on('play', () => this.play());
    on('nextFault', () => this.nextFault());
    on('nextMessage', () => this.nextMessage());
    on('nextEntry', () => this.nextEntry());
    on('theme', () => this.theme());
    by('slider').addEventListener('input', () => this.go(+by('slider').value));
    by('search').addEventListener('keydown', (it) => { if (it.key === 'Enter') this.search(by('search').value.trim()); });
    document.addEventListener('click', (it) => {
      const object = it.target.closest('[data-object]'), event = it.target.closest('[data-event]');
      if (object) this.pick(object.dataset.object);
      else if (event) this.go(+event.dataset.event);
    });
    const keys = { ArrowLeft: () => this.go(this.at - 1), ArrowRight: () => this.go(this.at + 1), Home: () => this.go(0), End: () => this.go(this.run.last),
      ' ': () => this.play(), f: () => this.nextFault(), m: () => this.nextMessage(), e: () => this.nextEntry(), t: () => this.theme(),
      '/': () => by('search').focus(), '+': () => this.lanes.zoom(1.5), '-': () => this.lanes.zoom(1 / 1.5) };
    document.addEventListener('keydown', (it) => {
      if (it.ctrlKey || it.metaKey || it.altKey || /INPUT|SELECT/.test(it.target.tagName) && it.target.type !== 'range') return;
      if (keys[it.key]) { it.preventDefault(); keys[it.key](); }
    });
    window.addEventListener('hashchange', () => this.readFragment());
    window.addEventListener('resize', () => { this.lanes.paint(); this.show(); });
  }
}

// ---- swim lanes: attempts by worker, drawn on a canvas; only what is seen is drawn

class Lanes {
  constructor(run, canvas, go) {
    this.run = run;
    this.canvas = canvas;
    this.left = 0;
    this.right = run.last + 1;
    this.top = 0;
    this.rows = [...run.workers.values()].sort((a, b) => numberOf(a.node) - numberOf(b.node) || numberOf(a.id) - numberOf(b.id));
    this.spans = this.rows.map((worker) => worker.attempts.map((attempt) => this.spanOf(worker, attempt)));
    this.longest = this.spans.map((spans) => { let most = 0; return spans.map((it) => (most = Math.max(most, it.to))); });
    this.losses = run.events.filter((it) => it.kind === 'lose' && !it.refused).map((it) => ({ at: it.number, node: 'n' + it.args[0] }));
    this.paint();
    this.listen(go);
  }

  // From its beginning to its end, its worker's death or the log's end; the gets in between may wait.
  spanOf(worker, attempt) {
    const died = this.run.deaths.get(worker.id), end = attempt.end || attempt.fault;
    const to = end ? end.at : died && died >= attempt.begun ? died : this.run.last + 1;
    return { from: attempt.begun, to, attempt, isKilled: !end && Boolean(died) };
  }

  paint() {
    const style = getComputedStyle(document.documentElement), ink = (name) => style.getPropertyValue('--' + name).trim();
    this.ink = { text: ink('ink') };
    for (const name of ['main', 'again', 'dead', 'wait', 'edge', 'pick']) this.ink[name] = ink(name);
    const room = this.canvas.parentElement, ratio = window.devicePixelRatio || 1;
    this.width = room.clientWidth - 20;
    this.height = room.clientHeight - 36;
    this.canvas.width = this.width * ratio;
    this.canvas.height = this.height * ratio;
    this.canvas.style.height = this.height + 'px';
    this.ratio = ratio;
    this.shape = (this.shape || 0) + 1;
    this.kept = document.createElement('canvas');
    this.kept.width = this.canvas.width;
    this.kept.height = this.canvas.height;
    this.pen = this.kept.getContext('2d');
    this.pen.setTransform(ratio, 0, 0, ratio, 0, 0);
    this.high = Math.max(15, Math.min(28, this.height / Math.max(1, this.rows.length)));
  }

  x(at) { return 74 + (at - this.left) / (this.right - this.left) * (this.width - 78); }
  eventAt(x) { return this.left + (x - 74) / (this.width - 78) * (this.right - this.left); }

  zoom(by, x) {
    const middle = x === undefined ? (this.left + this.right) / 2 : this.eventAt(x), all = this.run.last + 1;
    const span = Math.max(4, Math.min(all, (this.right - this.left) / by)), part = (middle - this.left) / (this.right - this.left);
    this.move(middle - part * span, span);
  }

  move(left, span) {
    const all = this.run.last + 1;
    this.left = Math.max(0, Math.min(all - span, left));
    this.right = this.left + span;
    this.draw(this.at, this.picked);
  }

  // The lanes are kept as they were drawn last: a step moves the mark alone.
  draw(at, picked) {
    const seen = [this.left, this.right, this.top, picked, this.shape].join(' ');
    this.at = at;
    this.picked = picked;
    if (seen !== this.seen) { this.seen = seen; this.drawLanes(); }
    const pen = this.canvas.getContext('2d');
    pen.setTransform(1, 0, 0, 1, 0, 0);
    pen.clearRect(0, 0, this.canvas.width, this.canvas.height);
    pen.drawImage(this.kept, 0, 0);
    pen.scale(this.ratio, this.ratio);
    pen.fillStyle = this.ink.pick;
    pen.fillRect(this.x(at + 0.5) - 1, 0, 2, this.height);
  }

  drawLanes() {
    const pen = this.pen, ink = this.ink;
    pen.clearRect(0, 0, this.width, this.height);
    pen.font = '11px system-ui, sans-serif';
    pen.textBaseline = 'middle';
    const first = Math.max(0, Math.floor(this.top / this.high)), after = Math.min(this.rows.length, Math.ceil((this.top + this.height) / this.high));
    for (let row = first; row < after; row++) this.drawRow(row, row * this.high - this.top);
    for (const loss of this.losses) this.mark(this.x(loss.at + 0.5), ink.again);
    for (const [id, when] of this.run.deaths) if (id[0] === 'n') this.mark(this.x(when + 0.5), ink.dead);
  }

  mark(x, colour) {
    if (x < 74 || x > this.width) return;
    this.pen.fillStyle = colour;
    this.pen.globalAlpha = 0.5;
    this.pen.fillRect(x - 0.5, 0, 1, this.height);
    this.pen.globalAlpha = 1;
  }

  drawRow(row, y) {
    const pen = this.pen, ink = this.ink, worker = this.rows[row], spans = this.spans[row], longest = this.longest[row];
    if (row > 0 && this.rows[row - 1].node !== worker.node) { pen.fillStyle = ink.edge; pen.fillRect(0, y, this.width, 1); }
    // The spans of a worker stand in the order of their beginnings, so the first that may be seen is found by halves.
    let low = 0, high = spans.length;
    while (low < high) { const middle = (low + high) >> 1; if (longest[middle] < this.left) low = middle + 1; else high = middle; }
    let drawn = -1;
    for (let k = low; k < spans.length && spans[k].from <= this.right; k++) {
      const from = Math.max(74, this.x(spans[k].from)), to = Math.min(this.width, this.x(spans[k].to + 1));
      if (to < drawn + 0.7) continue;
      this.drawSpan(spans[k], Math.max(from, drawn), Math.max(to, from + 0.8), y);
      drawn = to;
    }
    const died = this.run.deaths.get(worker.id);
    pen.fillStyle = died ? ink.dead : ink.text;
    pen.fillText(`${worker.node} ${worker.id}`, 4, y + this.high / 2);
    if (died) this.cross(this.x(died + 0.5), y + this.high / 2);
  }

  drawSpan(span, from, to, y) {
    const pen = this.pen, ink = this.ink, high = this.high - 5, attempt = span.attempt;
    const isPicked = objectOf(attempt.id) === this.run.taskOf(this.picked);
    pen.fillStyle = attempt.again ? ink.again : ink.main;
    pen.globalAlpha = attempt.end || attempt.fault ? 0.75 : 0.4;
    pen.fillRect(from, y + 2, to - from, high);
    pen.globalAlpha = 1;
    if (isPicked) { pen.strokeStyle = ink.pick; pen.lineWidth = 2; pen.strokeRect(from, y + 2, to - from, high); }
    if (to - from > 14) this.drawWaits(attempt, span, y, high);
    if (to - from > 46) {
      const text = `${attempt.id} ${attempt.name}`, fits = Math.floor((to - from - 8) / 6);
      pen.fillStyle = ink.text;
      pen.fillText(text.length > fits ? text.slice(0, fits) : text, from + 4, y + 2 + high / 2);
    }
  }

  // Where it waited for a get, the lower part is grey.
  drawWaits(attempt, span, y, high) {
    this.pen.fillStyle = this.ink.wait;
    for (const wait of this.waitsOf(attempt, span)) {
      const from = Math.max(74, this.x(wait.from)), to = Math.min(this.width, this.x(wait.to));
      if (to > from) this.pen.fillRect(from, y + 2 + high * 0.65, to - from, high * 0.35);
    }
  }

  waitsOf(attempt, span) {
    if (attempt.waits) return attempt.waits;
    attempt.waits = [];
    for (const commit of this.commitsOf(attempt.worker)) {
      if (commit < span.from || commit > span.to || (attempt.end && attempt.end.at === commit)) continue;
      const same = firstAfter(attempt.gets, commit - 1);
      if (same && same.at === commit) continue;
      const next = firstAfter(attempt.gets, commit);
      attempt.waits.push({ from: commit, to: next ? next.at : span.to });
    }
    return attempt.waits;
  }

  commitsOf(worker) {
    if (!this.commits) {
      this.commits = new Map();
      for (const event of this.run.events) {
        if (event.kind !== 'commit' || event.refused) continue;
        const id = this.run.jobs[+event.args[0]];
        if (!this.commits.has(id)) this.commits.set(id, []);
        this.commits.get(id).push(event.number);
      }
    }
    return this.commits.get(worker) || [];
  }

  cross(x, y) {
    if (x < 74 || x > this.width) return;
    const pen = this.pen;
    pen.strokeStyle = this.ink.dead;
    pen.lineWidth = 2;
    pen.beginPath();
    pen.moveTo(x - 4, y - 4); pen.lineTo(x + 4, y + 4); pen.moveTo(x + 4, y - 4); pen.lineTo(x - 4, y + 4);
    pen.stroke();
  }

  listen(go) {
    let from = null, moved = false;
    this.canvas.addEventListener('wheel', (it) => {
      it.preventDefault();
      if (it.shiftKey) { this.scroll(it.deltaY); return; }
      this.zoom(it.deltaY < 0 ? 1.25 : 0.8, it.offsetX);
    }, { passive: false });
    this.canvas.addEventListener('pointerdown', (it) => {
      from = { x: it.offsetX, y: it.offsetY, left: this.left, top: this.top };
      moved = false;
      this.canvas.setPointerCapture(it.pointerId);
    });
    this.canvas.addEventListener('pointermove', (it) => {
      if (!from) return;
      if (Math.abs(it.offsetX - from.x) + Math.abs(it.offsetY - from.y) > 3) moved = true;
      const span = this.right - this.left;
      this.scroll(from.top + from.y - it.offsetY - this.top, true);
      this.move(from.left - (it.offsetX - from.x) / (this.width - 78) * span, span);
    });
    this.canvas.addEventListener('pointerup', (it) => {
      if (from && !moved) go(Math.floor(this.eventAt(it.offsetX)));
      from = null;
    });
  }

  scroll(by, quiet) {
    this.top = Math.max(0, Math.min(this.rows.length * this.high - this.height, this.top + by));
    if (!quiet) this.draw(this.at, this.picked);
  }
}

if (typeof document !== 'undefined') {
  if (window.matchMedia('(prefers-color-scheme: dark)').matches) document.documentElement.dataset.theme = 'dark';
  window.view = new View(new Run(JSON.parse(by('run').textContent)));
}
</script>
</body>
</html>
"#;
