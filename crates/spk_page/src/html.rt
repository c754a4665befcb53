//! The page, made by `tools/make-page` from tools/page_source/page.html.

/// What the page may do (CSP 3): be shown in its own style, run its own script, and ask where it came from.
pub(crate) const POLICY: &[u8] =
    b"default-src 'none'; style-src 'sha256-6b6O8hL3+/JEQgMDHXWtxrz06z1lguYfpsxQuteXIqE='; script-src 'sha256-7Tv1SRfPe9L8YvxdOSRc3pGwoTYsa1F6X7iezKazYyQ='; connect-src 'self'; base-uri 'none'; form-action 'none'; frame-ancestors 'none'";

/// The page.
const PAGE: &str = r##"<!doctype html>
<html lang="en">
<head>
<meta charset="utf-8">
<meta name="viewport" content="width=device-width, initial-scale=1">
<title>Sparkplug host</title>
<style>
:root {
  color-scheme: light dark;
  --bg: #f3f4f4; --card: #fff; --ink: #1b1f23; --soft: #566069; --line: #d0d5da; --hover: #eef1f3; --bar: #7b868f;
  --bad: #a3121c; --badbg: #fdecec; --warn: #8f4100; --warnbg: #fff4e5; --new: #2051b0; --newbg: #eaf1fd; --line-of: #41617f;
}
@media (prefers-color-scheme: dark) {
  :root {
    --bg: #15181b; --card: #1d2125; --ink: #e6e9ec; --soft: #a3adb6; --line: #363d44; --hover: #262b31; --bar: #7f8a94;
    --bad: #ff8a8a; --badbg: #371f21; --warn: #f3ab5e; --warnbg: #33261a; --new: #93b9ff; --newbg: #1e2939; --line-of: #8fb3d6;
  }
}
* { box-sizing: border-box; }
body {
  margin: 0; background: var(--bg); color: var(--ink); -webkit-text-size-adjust: 100%;
  font: 15px/1.45 system-ui, "Segoe UI", Roboto, "Noto Sans", "DejaVu Sans", sans-serif;
}
bdi { unicode-bidi: isolate; overflow-wrap: anywhere; }
.hidden { position: absolute; width: 1px; height: 1px; overflow: hidden; clip-path: inset(50%); white-space: nowrap; }
main, header, footer { max-width: 1180px; margin: 0 auto; padding: 0 16px; }
header { display: flex; gap: 12px; align-items: baseline; padding-top: 14px; }
h1 { font-size: 15px; margin: 0; font-weight: 600; }
#link { margin-left: auto; color: var(--soft); font-size: 13px; white-space: nowrap; }
#link.cut { color: var(--bad); font-weight: 600; }
#cut { display: none; background: var(--badbg); color: var(--bad); border: 1px solid var(--bad); border-radius: 8px; padding: 10px 14px; margin: 12px 0; font-weight: 600; }
body.cut #cut { display: block; }
body.cut .live { filter: grayscale(1); opacity: .65; }
#verdict { font-size: 26px; line-height: 1.25; font-weight: 650; margin: 14px 0 2px; letter-spacing: -.01em; }
.sub { color: var(--soft); margin: 0 0 10px; }
#bar { display: flex; height: 10px; border-radius: 5px; overflow: hidden; background: var(--line); margin: 8px 0 16px; gap: 2px; }
#bar i { display: block; min-width: 3px; background: var(--c); }
h2 { font-size: 13px; text-transform: uppercase; letter-spacing: .05em; color: var(--soft); margin: 22px 0 8px; font-weight: 600; }
.l-current { --c: var(--bar); --t: var(--soft); }
.l-lost, .l-silent, .l-down { --c: var(--warn); --t: var(--warn); --cb: var(--warnbg); }
.l-offline, .l-away { --c: var(--bad); --t: var(--bad); --cb: var(--badbg); }
.l-unborn { --c: var(--new); --t: var(--new); --cb: var(--newbg); }
#cards { display: grid; grid-template-columns: repeat(auto-fill, minmax(min(330px, 100%), 1fr)); gap: 10px; list-style: none; margin: 0; padding: 0; }
.card { display: flex; flex-direction: column; justify-content: flex-start; width: 100%; height: 100%; background: var(--card); color: inherit; font: inherit; text-align: left; cursor: pointer; border: 1px solid var(--line); border-left: 5px solid var(--c); border-radius: 8px; padding: 10px 14px; }
.card:hover { background: var(--hover); }
.card span { display: block; margin-top: 4px; }
.card .top { display: flex; gap: 4px 10px; justify-content: space-between; flex-wrap: wrap; margin: 0; }
.card .top b, .card .top em { font-weight: 650; font-style: normal; }
.card .top em { color: var(--t); }
.card .quiet { color: var(--soft); }
button:focus-visible, input:focus-visible, a:focus-visible, [tabindex]:focus-visible { outline: 2px solid var(--new); outline-offset: 2px; border-radius: 4px; }
.tools { display: flex; gap: 12px; align-items: center; margin: 0 0 8px; flex-wrap: wrap; color: var(--soft); }
.tools label { display: flex; gap: 6px; align-items: center; }
input[type=search] { font: inherit; padding: 6px 10px; border: 1px solid var(--soft); border-radius: 6px; background: var(--card); color: inherit; width: min(320px, 60vw); }
.table { background: var(--card); border: 1px solid var(--line); border-radius: 8px; overflow-x: auto; }
table { border-collapse: collapse; width: 100%; }
th { font-weight: 500; color: var(--soft); font-size: 12.5px; padding: 8px 10px; border-bottom: 1px solid var(--line); white-space: nowrap; text-align: right; }
td { padding: 6px 10px; text-align: right; border-bottom: 1px solid var(--line); font-variant-numeric: tabular-nums; white-space: nowrap; vertical-align: top; }
th:first-child, td:first-child, #t th:nth-child(2), #t td:nth-child(2) { text-align: left; white-space: normal; }
tbody:last-child tr:last-child > td { border-bottom: 0; }
#holes td.open { color: var(--warn); font-weight: 600; }
tr.g th { text-align: left; background: var(--bg); font-weight: 600; font-size: 13px; padding: 5px 10px; }
tr.n { cursor: pointer; }
tr.n:hover td { background: var(--hover); }
tr.n button { font: inherit; font-weight: 550; color: inherit; background: none; border: 0; padding: 0; cursor: pointer; text-align: left; }
tr.n button::before { content: "\25B8"; color: var(--soft); display: inline-block; width: 16px; }
tr.n button[aria-expanded=true]::before { content: "\25BE"; }
.pill { display: inline-block; padding: 0 8px; border-radius: 9px; font-size: 13px; font-weight: 600; color: var(--t); background: var(--cb, transparent); white-space: normal; }
.l-current .pill { padding: 0; font-weight: 400; }
td.zero { color: var(--soft); }
td.warn { color: var(--warn); font-weight: 600; }
tr.d > td { padding: 0 10px 12px 26px; white-space: normal; text-align: left; }
.why { margin: 8px 0 4px; max-width: 78ch; }
.facts { color: var(--soft); font-size: 13px; margin: 0 0 8px; }
table.m { max-width: 820px; }
table.m caption { text-align: left; font-weight: 600; padding: 10px 0 0; font-size: 14px; }
table.m caption em { font-style: normal; color: var(--warn); }
table.m td, table.m th { padding: 3px 10px 3px 0; font-size: 14px; text-align: left; white-space: normal; }
table.m td.v, table.m th.v { text-align: right; }
table.m td.v { font-weight: 600; max-width: 260px; overflow-wrap: anywhere; }
table.m td.a, table.m th.a { text-align: right; color: var(--soft); width: 110px; white-space: nowrap; }
table.m td.k { color: var(--soft); font-size: 13px; width: 80px; }
table.m td.p { width: 110px; }
table.m tr.stale td.v { color: var(--warn); font-weight: 500; text-decoration: underline dotted; text-underline-offset: 3px; }
svg { display: block; width: 96px; height: 18px; }
svg path { fill: none; stroke: var(--line-of); stroke-width: 1.4; }
.none { color: var(--soft); font-weight: 400; font-style: italic; }
#log { list-style: none; margin: 0; padding: 6px 0; max-height: 330px; overflow: auto; }
#log li { display: flex; gap: 12px; padding: 3px 12px; border-left: 3px solid var(--c, transparent); }
#log li.l-current { --c: transparent; }
#log time { color: var(--soft); font-variant-numeric: tabular-nums; flex: none; font-size: 13.5px; }
footer { color: var(--soft); font-size: 13px; margin: 18px auto 28px; }
footer a { color: inherit; }
@media (max-width: 760px) {
  main, header, footer { padding: 0 10px; }
  #verdict { font-size: 21px; }
  .x, table.m .k { display: none; }
  td, th { padding-left: 8px; padding-right: 8px; }
  tr.d > td { padding-left: 10px; max-width: 0; width: 100%; }
  table.m td.p { width: 66px; }
  svg { width: 60px; }
}
</style>
</head>
<body>
<header><h1>Sparkplug host</h1><span id="link" role="status">connecting</span></header>
<main>
<div id="cut" role="alert"></div>
<div class="live">
<p id="verdict" aria-live="polite">Waiting for the first view</p>
<p class="sub" id="sub"></p>
<div id="bar" aria-hidden="true"></div>
<section id="look" hidden aria-labelledby="look-h"><h2 id="look-h">Needs a look</h2><ul id="cards"></ul><p class="sub" id="more"></p></section>
<section id="holes" hidden aria-labelledby="holes-h"><h2 id="holes-h">Holes in the readings</h2>
<div class="table" tabindex="0" role="region" aria-labelledby="holes-h"><table><caption class="hidden">Stretches of time from which readings are missing</caption>
<thead><tr><th scope="col">Node</th><th scope="col">From</th><th scope="col">To</th><th scope="col" class="x">Lasted</th><th scope="col">Never came</th><th scope="col">Came, not used</th><th scope="col" class="x">Ended by</th></tr></thead>
<tbody id="hb"></tbody></table></div></section>
<section aria-labelledby="nodes-h"><h2 id="nodes-h">Nodes</h2>
<div class="tools"><label>Find <input type="search" id="q" placeholder="a node or a group"></label><label><input type="checkbox" id="only"> only what isn't current</label></div>
<div class="table" tabindex="0" role="region" aria-labelledby="nodes-h"><table id="t"><caption class="hidden">Nodes by group; each opens to its metrics</caption>
<thead><tr><th scope="col">Node</th><th scope="col">State</th><th scope="col" title="values that are current, of all">Current values</th><th scope="col" title="when a message of it was used last">Last used</th><th scope="col" class="x" title="when a birth of it was used last">Last birth</th><th scope="col" class="x" title="how often messages were lost">Gaps</th><th scope="col" class="x" title="messages that are known not to have come">Missing</th><th scope="col" class="x" title="messages that came and weren't used">Not used</th><th scope="col" class="x" title="rebirths that this host asked for">Asked</th></tr></thead>
</table></div></section>
<section aria-labelledby="log-h"><h2 id="log-h">What happened</h2>
<div class="table"><ol id="log" tabindex="0" aria-labelledby="log-h"></ol></div></section>
</div>
</main>
<footer><span id="foot"></span> <a href="/view">JSON</a> &middot; <a href="/metrics">Prometheus</a> &middot; <a href="/text">text</a></footer>
<script>
"use strict";
// Whatever comes from the network is shown by textContent, value and title alone: it never becomes markup.
const $ = id => document.getElementById(id);
const nodes = new Map(), rows = new Map(), opened = new Map(), lines = new Map(), groups = new Map(), askedAt = new Map();
const TYPES = ["", "Int8", "Int16", "Int32", "Int64", "UInt8", "UInt16", "UInt32", "UInt64", "Float", "Double", "Boolean", "String", "DateTime", "Text", "UUID", "DataSet", "Bytes", "File", "Template"];
const WORD = { current: "Current", lost: "Readings lost", offline: "Offline", unborn: "No birth yet", silent: "Silent", away: "Host was away" };
const RANK = { lost: 0, away: 1, offline: 2, silent: 3, unborn: 4, current: 5 };
const ENDED = { birth: "a birth", death: "its death", session: "the host's end" };
const MOST = 120;
let skew = 0, last = 0, head = null, logged = 0, planned = false, closed = [];
let due = new Set(), news = [];

const now = () => Date.now() + skew;
const count = (k, one, many) => k + " " + (k === 1 ? one : many);
function el(tag, cls, text) {
  const e = document.createElement(tag);
  if (cls) e.className = cls;
  if (text !== undefined) e.textContent = text;
  return e;
}
// A name from the network: in a box of its own direction, cut where it is long, with controls made visible.
function short(name) {
  const all = [...name.slice(0, 2 * MOST)];
  const text = all.slice(0, MOST).join("").replace(/[\u0000-\u001f\u007f-\u009f\u200e\u200f\u202a-\u202e\u2066-\u2069]/g, "\ufffd");
  return name.length > text.length + 1 || all.length > MOST ? text + "\u2026 (" + name.length + " characters)" : text || "(no name)";
}
function named(name) {
  const e = el("bdi", null, short(name));
  if (name.length > MOST) e.title = name.slice(0, 1000);
  return e;
}
function full(x) {
  const e = el("span");
  e.append(named(x.group), " / ", named(x.node));
  return e;
}
function clock(ms) {
  const d = new Date(ms), s = d.toTimeString().slice(0, 8);
  return now() - ms > 43200000 ? d.toLocaleDateString("sv") + " " + s : s;
}
function span(ms) {
  const s = Math.max(0, Math.round(ms / 1000));
  if (s < 100) return s + " s";
  if (s < 5400) return Math.round(s / 60) + " min";
  if (s < 172800) return Math.round(s / 3600) + " h";
  return Math.round(s / 86400) + " days";
}
const ago = ms => span(now() - ms);

function asked(x) {
  const at = askedAt.get(x.i);
  if (!at || at < x.since - 1) return x.counts.asked ? "" : "No rebirth was asked for.";
  return "A rebirth was asked for at " + clock(at) + ", and no birth has come.";
}
function lost(h) {
  const parts = [];
  if (h.missing) parts.push("at least " + count(h.missing, "message", "messages") + " never came");
  if (h.unused) parts.push(count(h.unused, "message", "messages") + " came and can't be used before a new birth");
  const text = parts.join(", ") || "messages are missing";
  return text[0].toUpperCase() + text.slice(1) + ". The values stand at " + clock(h.from) + ".";
}
function why(x) {
  if (x.look === "lost" && x.hole) return lost(x.hole);
  if (x.look === "lost") return "Messages were lost.";
  if (x.look === "offline") return "Its session ended (NDEATH)." + (x.used ? " The values stand at " + clock(x.used) + "." : "") + " It comes back with its next birth.";
  if (x.look === "away") return "This host had no session at the broker. What was published meanwhile isn't known, until the next birth.";
  if (x.look === "silent") return "Nothing of it came since " + clock(x.used) + ". It counts as current again with its next message.";
  if (x.look === "unborn") return "Messages came, but no birth since this host began: names and types aren't known, so no value can be shown.";
  if (x.down.length) return x.down.slice(0, 5).map(short).join(", ") + (x.down.length > 5 ? " and " + (x.down.length - 5) + " more" : "") + (x.down.length === 1 ? " is" : " are") + " offline; the rest of the node is current.";
  return "Each message since the birth at " + clock(x.born) + " was used, in order.";
}
const needs = x => x.look !== "current" || x.down.length > 0;

function verdict() {
  const t = head.totals, good = t.looks.current, bad = t.nodes - good;
  put($("verdict"), (!t.nodes ? "No node was heard yet" : bad ? good + " of " + t.nodes + " nodes are current" : t.nodes === 1 ? "The node is current" : "All " + t.nodes + " nodes are current")
    + (t.down ? ", " + count(t.down, "device is", "devices are") + " offline" : "") + (head.connected ? "" : "; there is no connection with a broker"));
  put($("sub"), count(t.current, "value is", "values are") + " current, of " + t.values + ". " + (t.gaps || t.missing || t.unused
    ? "Since this host began: " + [count(t.gaps, "gap", "gaps"), t.missing ? "at least " + count(t.missing, "message", "messages") + " missing" : "", t.unused ? t.unused + " came and not used" : ""].filter(x => x).join(", ") + "."
    : "No message is known to be lost since this host began."));
  const bar = $("bar");
  bar.textContent = "";
  for (const look of Object.keys(RANK)) if (t.looks[look]) {
    const i = el("i", "l-" + look);
    i.style.flex = String(t.looks[look]);
    bar.append(i);
  }
  document.title = (bad ? "(" + bad + ") " : "") + "Sparkplug host";
  put($("foot"), t.used + " messages used since " + new Date(head.began).toLocaleString("sv") + " \u00b7");
}
function show_node(i) {
  if (!opened.has(i)) toggle(i);
  const r = rows.get(i);
  if (!r) return;
  r.tr.hidden = false;
  r.tr.scrollIntoView({ block: "start" });
  r.button.focus();
}
function cards() {
  const list = [...nodes.values()].filter(needs).sort((a, b) => RANK[a.look] - RANK[b.look] || b.since - a.since), box = $("cards");
  const was = document.activeElement && document.activeElement.dataset ? document.activeElement.dataset.card : undefined;
  $("look").hidden = !list.length;
  box.textContent = "";
  for (const x of list.slice(0, 12)) {
    const li = el("li"), b = el("button", "card l-" + (x.look === "current" ? "down" : x.look)), top = el("span", "top"), name = el("b");
    name.append(full(x));
    top.append(name, el("em", null, x.look === "current" ? "Device offline" : WORD[x.look] + ", " + ago(x.since)));
    b.type = "button";
    b.dataset.card = x.i;
    b.append(top, el("span", null, why(x)));
    if (x.look === "lost" || x.look === "unborn") b.append(el("span", "quiet", asked(x)));
    b.onclick = () => show_node(x.i);
    li.append(b);
    box.append(li);
    if (was === String(x.i)) b.focus();
  }
  put($("more"), list.length > 12 ? "and " + (list.length - 12) + " more: tick \u201conly what isn't current\u201d below" : "");
}
function holes() {
  const list = [];
  for (const x of nodes.values()) if (x.hole) list.push([x, x.hole]);
  list.push(...closed);
  list.sort((a, b) => (a[1].until ? 1 : 0) - (b[1].until ? 1 : 0) || b[1].from - a[1].from);
  $("holes").hidden = !list.length;
  const box = $("hb");
  box.textContent = "";
  for (const [x, h] of list.slice(0, 12)) {
    const tr = el("tr"), first = el("td");
    first.append(full(x));
    tr.append(first, el("td", null, clock(h.from)), h.until ? el("td", null, clock(h.until)) : el("td", "open", "still open"), el("td", "x", span((h.until || now()) - h.from)),
      el("td", null, h.missing ? "at least " + h.missing : "not known"), el("td", null, String(h.unused)), el("td", "x", ENDED[h.end] || "\u2013"));
    box.append(tr);
  }
}
function put(e, text) {
  if (e.textContent !== text) e.textContent = text;
}
function number(td, k, bad) {
  put(td, String(k));
  const c = "x" + (k === 0 ? " zero" : bad ? " warn" : "");
  if (td.className !== c) td.className = c;
}
function group(name) {
  let body = groups.get(name);
  if (!body) {
    body = el("tbody");
    const tr = el("tr", "g"), th = el("th");
    th.scope = "rowgroup";
    th.colSpan = 9;
    th.append(named(name));
    tr.append(th);
    body.append(tr);
    groups.set(name, body);
    $("t").append(body);
  }
  return body;
}
function place(x) {
  let r = rows.get(x.i);
  if (r) return r;
  const tr = el("tr", "n"), td = [];
  for (let k = 0; k < 9; k++) {
    td.push(el("td", k > 3 ? "x" : ""));
    tr.append(td[k]);
  }
  const button = el("button");
  button.type = "button";
  button.setAttribute("aria-expanded", "false");
  button.append(named(x.node));
  td[0].append(button);
  td[1].append(el("span", "pill"));
  tr.onclick = () => toggle(x.i);
  tr.dataset.i = x.i;
  group(x.group).append(tr);
  r = { tr, td, button, seen: true, old: true };
  rows.set(x.i, r);
  watch.observe(tr);
  return r;
}
const watch = new IntersectionObserver(list => {
  for (const e of list) {
    const r = rows.get(+e.target.dataset.i);
    if (!r) continue;
    r.seen = e.isIntersecting;
    if (r.seen && r.old) show(r);
  }
}, { rootMargin: "300px" });
function row(x) {
  const r = place(x);
  r.x = x;
  if (r.seen) show(r);
  else r.old = true;
}
function show(r) {
  const x = r.x, d = r.td, c = "n l-" + x.look;
  r.old = false;
  if (r.tr.className !== c) r.tr.className = c;
  put(d[1].firstChild, WORD[x.look] + (x.look === "current" && x.down.length ? ", " + count(x.down.length, "device", "devices") + " offline" : ""));
  put(d[2], x.values.all ? x.values.current + " / " + x.values.all : "\u2013");
  d[2].className = x.values.current < x.values.all ? "warn" : "";
  age(r);
  put(d[4], x.born ? clock(x.born) : "never");
  number(d[5], x.counts.gaps, true);
  number(d[6], x.counts.missing, true);
  number(d[7], x.counts.unused, true);
  number(d[8], x.counts.asked, false);
}
function age(r) {
  put(r.td[3], r.x.used ? ago(r.x.used) : "never");
}
function filter() {
  const q = $("q").value.trim().toLowerCase(), only = $("only").checked;
  for (const r of rows.values()) {
    const x = r.x, hide = (q && !(x.group + " / " + x.node).toLowerCase().includes(q)) || (only && !needs(x));
    r.tr.hidden = hide;
    const o = opened.get(x.i);
    if (o) o.tr.hidden = hide;
  }
  for (const body of groups.values()) body.hidden = ![...body.children].some(tr => tr.className.startsWith("n") && !tr.hidden);
}
function toggle(i) {
  const r = rows.get(i), o = opened.get(i);
  r.button.setAttribute("aria-expanded", String(!o));
  if (o) {
    o.tr.remove();
    opened.delete(i);
    return;
  }
  const tr = el("tr", "d"), td = el("td");
  td.colSpan = 9;
  tr.append(td);
  r.tr.after(tr);
  tr.id = "d" + i;
  r.button.setAttribute("aria-controls", tr.id);
  opened.set(i, { tr, td, busy: false, again: false });
  fill(i);
}
async function fill(i) {
  const o = opened.get(i);
  if (!o) return;
  if (o.busy) {
    o.again = true;
    return;
  }
  o.busy = true;
  try {
    const answer = await fetch("/view?node=" + i);
    if (answer.ok) detail(o, await answer.json());
  } catch (e) {
    // the stream of events tells that there is no contact
  }
  o.busy = false;
  if (o.again) {
    o.again = false;
    setTimeout(fill, 400, i);
  }
}
// The shortest decimal that is the same Float.
function single(x) {
  for (let p = 1; p < 9; p++) {
    const y = Number(x.toPrecision(p));
    if (Math.fround(y) === x) return y;
  }
  return x;
}
function value(m) {
  const v = m.value;
  if (v === null) return ["null", true];
  if (typeof v === "object") return ["not read by this host", true];
  if (m.type === 13) {
    const d = new Date(Number(v));
    return [isNaN(d) ? v : d.toISOString().replace("T", " ").slice(0, 19)];
  }
  if (typeof v === "number" && m.type === 9) return [String(single(v))];
  if (typeof v === "string" && v.length > 400) return [v.slice(0, 400) + "\u2026 (" + v.length + " characters)"];
  return [String(v)];
}
// The values of a metric while its node is open, as a line.
function line(key, m) {
  if (typeof m.value !== "number") return null;
  let h = lines.get(key);
  if (!h) lines.set(key, h = []);
  const z = h[h.length - 1];
  if (!z || z[0] !== m.at) {
    h.push([m.at, m.value]);
    if (h.length > 90) h.shift();
  }
  if (h.length < 3) return null;
  let low = Infinity, high = -Infinity;
  for (const p of h) {
    low = Math.min(low, p[1]);
    high = Math.max(high, p[1]);
  }
  const w = 96 / (Math.max(now(), z[0]) - h[0][0] || 1), s = high > low ? 15 / (high - low) : 0, NS = "http://www.w3.org/2000/svg";
  const svg = document.createElementNS(NS, "svg"), path = document.createElementNS(NS, "path");
  let d = "";
  h.forEach((q, k) => {
    const x = ((q[0] - h[0][0]) * w).toFixed(1), y = (16.5 - (q[1] - low) * s).toFixed(1);
    d += k ? "H" + x + "V" + y : "M" + x + " " + y;
  });
  path.setAttribute("d", d + "H96");
  svg.setAttribute("viewBox", "0 0 96 18");
  svg.setAttribute("preserveAspectRatio", "none");
  svg.setAttribute("role", "img");
  svg.setAttribute("aria-label", h.length + " values from " + low + " to " + high);
  svg.append(path);
  return svg;
}
// How long ago a value was given.
function given(td) {
  put(td, ago(+td.dataset.at) + td.dataset.end);
}
function metrics(of, note, list, stale, key) {
  const table = el("table", "m"), caption = el("caption", null, ""), tr = el("tr"), thead = el("thead"), body = el("tbody");
  caption.append(of, note ? el("em", null, ", " + note) : "");
  for (const [text, cls] of [["Metric", ""], ["Type", "k"], ["While open", "p"], ["Value", "v"], ["Given", "a"]]) {
    const th = el("th", cls, text);
    th.scope = "col";
    tr.append(th);
  }
  thead.append(tr);
  table.append(caption, thead, body);
  for (const m of list) {
    const v = value(m), name = el("td"), c = el("td", "v"), p = el("td", "p"), drawn = line(key + m.name, m), tr = el("tr", stale ? "stale" : "");
    name.append(named(m.name));
    const text = el("bdi", v[1] ? "none" : "", v[0]);
    c.append(text);
    if (drawn) p.append(drawn);
    const a = el("td", "a", stale ? "stale" : "");
    if (m.at) {
      a.dataset.at = m.at;
      a.dataset.end = stale ? ", stale" : "";
      given(a);
    }
    tr.append(name, el("td", "k", TYPES[m.type] || (m.type === null ? "" : "type " + m.type)), p, c, a);
    body.append(tr);
  }
  return table;
}
function detail(o, w) {
  const x = w.row, td = o.td, stale = x.look !== "current";
  td.textContent = "";
  const extra = x.look === "lost" || x.look === "unborn" ? " " + asked(x) : "";
  td.append(el("p", "why", why(x) + extra));
  td.append(el("p", "facts", (x.born ? "Birth " + x.counts.births + " at " + clock(x.born) + ". " : "First heard at " + clock(x.since) + ". ") + count(x.counts.used, "message", "messages") + " used, " + count(x.counts.deaths, "death", "deaths")
    + (w.holes.length ? "; " + count(x.counts.holes, "hole", "holes") + " before, the last from " + clock(w.holes[0].from) + " to " + clock(w.holes[0].until) : "") + "."));
  if (!w.metrics.length && !w.devices.length) return;
  const own = el("span", null, "The node's own metrics");
  td.append(metrics(own, stale ? "stale" : "", w.metrics, stale, x.i + "\n\n"));
  for (const d of w.devices) {
    const name = el("span", null, "Device ");
    name.append(named(d.name));
    const bad = stale || !d.online || d.stale;
    td.append(metrics(name, d.online ? (bad ? "stale" : "") : "offline", d.metrics, bad, x.i + "\n" + d.name + "\n"));
  }
}
const SAID = {
  connected: ["", () => "There is a connection with a broker"],
  disconnected: ["offline", () => "There is no connection with a broker any more"],
  born: ["current", () => "was born"],
  born_again: ["current", () => "was born again"],
  mended: ["lost", e => "is followed again: readings are missing from " + clock(e.detail.from) + " to " + clock(e.detail.until || e.at) + (e.detail.missing ? "; at least " + count(e.detail.missing, "message", "messages") + " never came" : "") + (e.detail.unused ? "; " + e.detail.unused + " came and not used" : "")],
  lost: ["lost", () => "lost messages"],
  died: ["offline", () => "went offline"],
  asked: ["", () => "was asked for a rebirth"],
  device_born: ["current", e => "has its device " + short(e.detail) + " born"],
  device_died: ["lost", e => "has its device " + short(e.detail) + " offline"],
  refused: ["", e => "A message was refused (fault " + e.detail + ")"],
  turned_away: ["offline", e => "The broker turned this host away (code " + e.detail + ")"],
  not_subscribed: ["offline", () => "The broker refused the subscription"],
  ended: ["away", () => "This host's session is over"],
};
function logs(list) {
  const box = $("log");
  for (const e of list) {
    const said = SAID[e.what], x = e.i === null ? undefined : nodes.get(e.i);
    if (!said) continue;
    if (e.what === "asked") askedAt.set(e.i, e.at);
    if (e.what === "mended" && x) {
      closed.unshift([x, Object.assign({}, e.detail, { until: e.detail.until || e.at })]);
      if (closed.length > 50) closed.pop();
    }
    const li = el("li", said[0] ? "l-" + said[0] : ""), text = el("span");
    if (x) text.append(full(x), " ");
    text.append(said[1](e));
    li.append(el("time", null, clock(e.at)), text);
    box.prepend(li);
  }
  while (box.children.length > 200) box.lastChild.remove();
}
function take(d) {
  skew = d.now - Date.now();
  last = Date.now();
  head = d;
  live(true);
  for (const x of d.nodes) {
    nodes.set(x.i, x);
    due.add(x.i);
    if (opened.has(x.i)) fill(x.i);
  }
  for (const e of d.log) if (e.n > logged) {
    logged = e.n;
    news.push(e);
  }
  if (!planned) {
    planned = true;
    setTimeout(paint, rows.size > 200 ? 1000 : 0);
  }
}
function paint() {
  planned = false;
  for (const i of due) row(nodes.get(i));
  const some = due.size > 0, list = news;
  due = new Set();
  news = [];
  logs(list);
  verdict();
  cards();
  holes();
  if (some && ($("q").value || $("only").checked)) filter();
}
function live(ok) {
  document.body.classList.toggle("cut", !ok);
  $("link").classList.toggle("cut", !ok);
  put($("link"), ok ? "live" : "no contact");
  if (!ok) put($("cut"), last ? "This page has no contact with the host program since " + clock(last + skew) + ". All below is as of then." : "This page has no contact with the host program.");
}
function listen() {
  const s = new EventSource("/events");
  s.onmessage = e => {
    const d = JSON.parse(e.data);
    if (head && d.began !== head.began) location.reload();
    else take(d);
  };
  s.addEventListener("ping", () => {
    last = Date.now();
    live(true);
  });
  s.onerror = () => {
    live(false);
    if (s.readyState === EventSource.CLOSED) setTimeout(listen, 3000);
  };
}
$("q").oninput = filter;
$("only").onchange = filter;
addEventListener("beforeprint", () => {
  for (const r of rows.values()) if (r.old) show(r);
});
setInterval(() => {
  if (last && Date.now() - last > 35000) live(false);
  if (document.hidden || !head || document.body.classList.contains("cut")) return;
  for (const r of rows.values()) if (r.seen) age(r);
  for (const o of opened.values()) for (const td of o.td.querySelectorAll("td[data-at]")) given(td);
  if (head.totals.nodes > head.totals.looks.current || head.totals.down) {
    cards();
    holes();
  }
}, 1000);
listen();
</script>
</body>
</html>
"##;

/// The page: HTML with its style and its script, and nothing else to be loaded.
pub fn page() -> &'static str {
    PAGE
}
