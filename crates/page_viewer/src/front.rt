//! What stands before the record, as `tools/page_viewer` writes it from page.html.

/// What stands before the record, in parts.
pub fn front_parts() -> [&'static [u8]; 4] {
    [front_0(), front_1(), front_2(), front_3()]
}

fn front_0() -> &'static [u8] {
    b"\
<!DOCTYPE html>
<html lang=\"en\">
<head>
<meta charset=\"utf-8\">
<meta name=\"generator\" content=\"rinddecade page\">
<meta name=\"viewport\" content=\"width=device-width, initial-scale=1\">
<meta http-equiv=\"Content-Security-Policy\"
 content=\"default-src 'none'; script-src 'sha256-WiPBWZWEXt27SWiVOimoVGFN9hpsJPwFQpE0V/z3CR4='; style-src 'sha256-wapThz8t00+wbQqq1Z8kwdXJSBHDub0ckCF8ed4wABU='; base-uri 'none'; form-action 'none'\">
<title>A run, step by step</title>
<style>
:root {
  color-scheme: light dark;
  --paper: #ffffff; --ink: #1b1f24; --faint: #66707c; --band: #f3f5f7; --rule: #d3d9e0;
  --here: #fff0b3; --new: #cfeed8; --pick: #0060a0; --bad: #c03000; --bad-paper: #fdeae3; --heat: #eec27d; --heat-rest: #f8ead2;
  --round: #f0e442; --deep: #c9d2dc;
  --lane-0: #0072b2; --lane-1: #e69f00; --lane-2: #009e73; --lane-3: #cc79a7;
  --lane-4: #56b4e9; --lane-5: #d55e00; --lane-6: #000000; --lane-7: #999999;
}
@media (prefers-color-scheme: dark) {
  :root {
    --paper: #15181d; --ink: #e2e6ec; --faint: #98a2ae; --band: #1e2229; --rule: #3a414b;
    --here: #4d4210; --new: #1c4a2a; --pick: #6cb8f5; --bad: #ff8a5c; --bad-paper: #40190c; --heat: #7a5a20; --heat-rest: #3a2f1c;
    --round: #b5aa2a; --deep: #47515e;
    --lane-0: #3f9fe0; --lane-1: #f0ad1f; --lane-2: #21c795; --lane-3: #e39ac4;
    --lane-4: #8fd0f7; --lane-5: #ff7f2a; --lane-6: #f4f4f4; --lane-7: #a8a8a8;
  }
}
* { box-sizing: border-box }
html, body { height: 100%; margin: 0 }
body {
  display: grid; grid-template: auto minmax(0, 1fr) auto / minmax(18em, 48%) minmax(0, 1fr);
  background: var(--paper); color: var(--ink); font: 13px/1.45 system-ui, sans-serif;
}
header, footer { grid-column: 1 / 3; padding: .4em .9em }
header { border-bottom: 1px solid var(--rule) }
header > div { display: flex; flex-wrap: wrap; gap: .3em 1em; align-items: center }
h1 { font-size: 15px; margin: 0 }
button, input { font: inherit; color: inherit; background: var(--paper); border: 1px solid var(--rule); border-radius: 4px; padding: .1em .55em }
button { cursor: pointer }
button:hover, button[aria-pressed=true] { border-color: var(--pick); color: var(--pick) }
:focus-visible { outline: 2px solid var(--pick); outline-offset: 1px }
#step { width: 6.5em } #search { width: 11em }
#place, #calls, #round, #source, table, #end { font-family: ui-monospace, monospace }
#place { font-weight: 600 } #calls, #round, #gap, #end { color: var(--faint) } #end { margin-left: auto }
"
}

fn front_1() -> &'static [u8] {
    b"\
#fault { background: var(--bad-paper); color: var(--bad); border: 2px solid var(--bad); border-radius: 6px; padding: .35em .8em; margin-top: .4em }
#fault strong { font-size: 19px; display: block } [hidden] { display: none !important }
#marks button { padding: 0 .5em; font-size: 12px }
#source { overflow: auto; font-size: 13px; line-height: 1.55; border-right: 1px solid var(--rule); padding: .3em 0 }
#source > div { display: flex; white-space: pre; cursor: pointer; min-width: max-content }
#source > div:hover { background: var(--band) } #source > .never { color: var(--faint); cursor: default }
#source > .here { background: var(--here) } #source > .bad { background: var(--bad-paper) }
#source > .found .text { text-decoration: underline 2px var(--pick) }
#source span { flex: none }
.number, .count { text-align: right; padding-right: .6em; color: var(--faint); user-select: none }
.number { width: 3.4em } .count { width: 4.6em; font-size: 11px }
.heated .count { color: var(--ink); background: linear-gradient(to left, var(--heat) calc(var(--part) * var(--share)),
  var(--heat-rest) 0 var(--part), transparent 0) }
.share { display: none; width: 3.4em; padding-right: .8em; text-align: right; font-size: 11px; user-select: none } .heated .share { display: block }
.dots { display: inline-flex; gap: 2px; align-items: center; padding: 0 .6em 0 .3em }
.dot { width: 8px; height: 8px; border-radius: 50%; border: 2px solid transparent }
.many .dots { gap: 0 } .many .dot { width: 7px; height: 7px }
.dot.second { border-radius: 1px } .dot.waits { border-color: var(--own) } .dot.goes { border-color: var(--own); background: var(--own) }
.dot.faults { border-color: var(--bad); background: var(--bad); outline: 2px solid var(--bad); outline-offset: 1px }
.lane-0 { --own: var(--lane-0) } .lane-1 { --own: var(--lane-1) } .lane-2 { --own: var(--lane-2) } .lane-3 { --own: var(--lane-3) }
.lane-4 { --own: var(--lane-4) } .lane-5 { --own: var(--lane-5) } .lane-6 { --own: var(--lane-6) } .lane-7 { --own: var(--lane-7) }
#values { overflow: auto; padding: .3em .9em }
table { border-collapse: collapse; font-size: 12.5px; margin-bottom: .8em }
caption { text-align: left; white-space: nowrap; font: 12px system-ui, sans-serif; color: var(--faint) }
th, td { padding: 0 .5em; text-align: right; font-weight: normal; border-radius: 3px }
tbody th { text-align: left; font-weight: 600; white-space: nowrap } tbody th small { font-weight: normal; color: var(--faint) }
"
}

fn front_2() -> &'static [u8] {
    b"\
thead th { border-bottom: 3px solid var(--own, transparent) }
thead th.second { border-bottom-style: double }
td { cursor: pointer } td:hover { outline: 1px solid var(--pick) }
td.off { color: var(--faint) } td.new { background: var(--new) } td.pick { outline: 2px solid var(--pick) }
.parts td { font-size: 11.5px; padding: 0 .35em } .parts thead th { border: 0; color: var(--faint); font-size: 11px; padding: 0 .35em }
tbody th.index { font-weight: normal; color: var(--faint); font-size: 11px; text-align: right }
footer { border-top: 1px solid var(--rule) }
canvas { display: block; width: 100%; cursor: ew-resize; touch-action: none }
footer p { margin: .25em 0 0; color: var(--faint); font-size: 12px; min-height: 1.4em }
.unseen { position: absolute; top: 0; margin: 0; width: 1px; height: 1px; overflow: hidden; clip-path: inset(50%) }
kbd { font: 11px ui-monospace, monospace; border: 1px solid var(--rule); border-radius: 3px; padding: 0 .35em }
dialog { max-width: 42em; border: 1px solid var(--rule); border-radius: 8px; background: var(--paper); color: var(--ink) }
dl { display: grid; grid-template-columns: max-content 1fr; gap: .2em 1em; margin: .6em 0 } dd { margin: 0 }
@media (max-width: 760px) {
  html, body { height: auto }
  body { display: block }
  #source { border-right: 0; border-bottom: 1px solid var(--rule); max-height: 44vh }
  #values { max-height: none }
  header { position: sticky; top: 0; z-index: 1; background: var(--paper) }
  footer { position: sticky; bottom: 0; background: var(--paper) }
  #end { margin-left: 0 }
}
@media print {
  html, body { height: auto }
  body { display: block; font-size: 11px }
  #controls button, #controls input, #controls label, footer p, dialog { display: none }
  header, footer { position: static }
  #source, #values { overflow: visible; max-height: none; border: 0 }
  #source > div { min-width: 0; white-space: pre-wrap }
  * { print-color-adjust: exact; -webkit-print-color-adjust: exact }
}
</style>
</head>
<body>
<header>
<div id=\"controls\">
<h1 id=\"name\"></h1>
<span>
<button id=\"first\" title=\"Home\">|&lt;</button>
<button id=\"back\" title=\"Left\">&lt;</button>
<button id=\"play\" title=\"Space\" aria-pressed=\"false\">play</button>
<button id=\"on\" title=\"Right\">&gt;</button>
<button id=\"last\" title=\"End\">&gt;|</button>
</span>
<label>step <input id=\"step\" inputmode=\"numeric\" autocomplete=\"off\"></label><span id=\"of\"></span>
<label>search <input id=\"search\" type=\"search\" autocomplete=\"off\" spellcheck=\"false\"></label>
"
}

fn front_3() -> &'static [u8] {
    b"\
<button id=\"heat\" title=\"h\" aria-pressed=\"false\">heat</button>
<button id=\"mark\" title=\"m\">bookmark</button>
<button id=\"help\" title=\"?\">keys</button>
<span id=\"end\"></span>
</div>
<div><output id=\"place\"></output><span id=\"calls\"></span><span id=\"round\"></span><span id=\"gap\"></span><span id=\"marks\"></span></div>
<div id=\"fault\" role=\"alert\" hidden></div>
</header>
<section id=\"source\" aria-label=\"source\"></section>
<section id=\"values\" aria-label=\"values\"></section>
<footer>
<canvas id=\"time\" role=\"img\" aria-label=\"time, from left to right: lines, rounds, calls, and a row for each lane\"></canvas>
<p id=\"told\"></p>
<p class=\"unseen\" id=\"said\" role=\"status\" aria-live=\"polite\"></p>
</footer>
<dialog id=\"keys\"><form method=\"dialog\"><h2>Keys</h2><dl id=\"list\"></dl><button autofocus>close</button></form></dialog>
<noscript><p>This page shows a run by JavaScript, which is off here.</p></noscript>
<script type=\"application/json\" id=\"record\">"
}
