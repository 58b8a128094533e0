//! What stands behind the record, as `tools/page_viewer` writes it from page.html.

/// What stands behind the record, in parts.
pub fn rest_parts() -> [&'static [u8]; 14] {
    [
        rest_0(),
        rest_1(),
        rest_2(),
        rest_3(),
        rest_4(),
        rest_5(),
        rest_6(),
        rest_7(),
        rest_8(),
        rest_9(),
        rest_10(),
        rest_11(),
        rest_12(),
        rest_13(),
    ]
}

fn rest_0() -> &'static [u8] {
    b"\
</script>
<script>
\"use strict\";
// ---- the record
// A moment is where the program stood at first, or after a step. `moments` has a list for each: line, column, function, depth and lanes
// (lane 0 is the lowest bit), all 0 where the program has ended; what has changed since the moment before; and, where other calls are
// open than then, how many of those stay and the new ones. A change is [variable, part, value, value ..], of parts one after another, or
// [variable] where it is no longer there. `steps` has for each moment how many steps were done before it: where the page has but some of a
// run's moments, it leaves some out, and what has changed since the moment before is what all the steps between have made another.
const $ = id => document.getElementById(id);
const run = JSON.parse($(\"record\").textContent);
const { moments, variables, functions, width, first, steps } = run;
const lines = run.source.replace(/\\n$/, \"\").split(\"\\n\").map(text => text.replace(/\\r$/, \"\"));
const LAST = moments.length - 1;
const is_sampled = steps[LAST] !== LAST;
const UNIT = is_sampled ? \"moment\" : \"step\";
// How many steps stand between a moment and the next one.
const gap = at => at < LAST ? steps[at + 1] - steps[at] : 1;
const [LINE, COLUMN, FUNCTION, DEPTH, LANES, CHANGES, KEPT, CALLS] = [0, 1, 2, 3, 4, 5, 6, 7];
const [OF_DEPTH, NAME, TYPE, KIND, COUNT] = [0, 1, 2, 3, 4];
const has = (lanes, lane) => (lanes >> lane & 1) === 1;
const lanes_of = lanes => Array.from({ length: width }, (_, lane) => has(lanes, lane) ? 1 : 0).join(\"\");
const told_value = (variable, value) => variables[variable][TYPE] === \"bool\" ? String(value !== 0) : String(value);
const all_lanes = Array.from({ length: width }, (_, lane) => lane);
const deepest = moments.reduce((most, moment) => Math.max(most, moment[DEPTH]), 0);

// The calls that are open at each moment, the entry's first: [line, column, function].
const calls_at = [];
for (const moment of moments) {
  const before = calls_at[calls_at.length - 1] ?? [];
  calls_at.push(moment.length > KEPT ? [...before.slice(0, moment[KEPT]), ...moment[CALLS]] : before);
}

// ---- the values at a moment: those of some moments are kept, and the others are made from the one before
const EACH = Math.max(64, Math.ceil(moments.length / 200));
const kept = [];
const made = { at: -1, values: [] };

function change(values, changes) {
  for (const [variable, part, ...words] of changes) {
    if (part === undefined) {
      values[variable] = null;
    } else {
      const own = values[variable] ??= [];
      words.forEach((word, index) => own[part + index] = word);
    }
  }
"
}

fn rest_1() -> &'static [u8] {
    b"\
}

const copied = values => values.map(own => own && own.slice());

function values_at(at) {
  const from = Math.floor(at / EACH);
  if (made.at > at || made.at < from * EACH) {
    made.at = from * EACH;
    made.values = copied(kept[from]);
  }
  while (made.at < at) change(made.values, moments[++made.at][CHANGES]);
  return made.values;
}

{
  const values = variables.map(() => null);
  moments.forEach((moment, at) => {
    change(values, moment[CHANGES]);
    if (at % EACH === 0) kept.push(copied(values));
  });
}

// ---- when a line is the next step's, and which lanes were ever there
const times_of = lines.map(() => []);
const lanes_on = lines.map(() => 0);
const lane_steps_of = lines.map(() => 0);
const count_of = lanes => all_lanes.filter(lane => has(lanes, lane)).length;
moments.forEach((moment, at) => {
  const line = moment[LINE] - 1;
  if (line < 0 || line >= lines.length) return;
  times_of[line].push(at);
  lanes_on[line] |= moment[LANES];
  lane_steps_of[line] += count_of(moment[LANES]);
});
const hottest = times_of.reduce((most, times) => Math.max(most, times.length), 1);

// ---- the rounds of foreach forms
// Where the statement ends that begins at a place: [line, column] behind it. Comments are as blanks.
const code = lines.join(\"\\n\").replace(/\\/\\/.*|\\/\\*[^]*?\\*\\//g, text => text.replace(/[^\\n]/g, \" \"));
const starts = lines.reduce((found, line) => [...found, found[found.length - 1] + line.length + 1], [0]);

function end_of_statement(line, column) {
  let at = starts[line - 1] + column - 1;
  for (let open = 0; at < code.length; at++) {
    if (\"({[\".includes(code[at])) open++;
    if (\")}]\".includes(code[at])) open--;
    const is_end = code[at] === \";\" || code[at] === \"}\";
    if (open <= 0 && is_end && !/^\\s*(else|while)\\b/.test(code.slice(at + 1, at + 200))) break;
  }
  const before = code.slice(0, at + 1).split(\"\\n\");
  return [before.length, before[before.length - 1].length + 1];
}

// Each round: the moments from its step up to the next one that is not in it, its lanes, its number in its form, and in how many forms it is.
const rounds = [];
const rounds_in = moments.map(() => null); // The innermost round of a moment.

function find_rounds() {
  const forms = [];
  const ends = new Map();
  const is_in = (form, [line, column, , depth]) => depth > form.depth || (depth === form.depth && (line > form.line || (line === form.line
    && column >= form.column)) && (line < form.end[0] || (line === form.end[0] && column < form.end[1])));
  const close = (form, at) => { if (form.round) form.round.to = at; };
  moments.forEach((moment, at) => {
    const [line, column, , depth, lanes] = moment;
    while (forms.length && !is_in(forms[forms.length - 1], moment)) close(forms.pop(), at);
    if (line && /^foreach/.test(lines[line - 1]?.slice(column - 1) ?? \"\")) {
      const key = `${line}:${column}`;
      if (!ends.has(key)) ends.set(key, end_of_statement(line, column));
      let form = forms[forms.length - 1];
      if (form && form.line === line && form.column === column && form.depth === depth) {
        close(form, at);
        form.round = { from: at, to: LAST + 1, lanes, number: ++form.count.all, of: form.count, level: forms.length - 1, line };
        rounds.push(form.round);
      } else {
        forms.push({ line, column, depth, end: ends.get(key), round: null, count: { all: 0 } });
      }
    }
    rounds_in[at] = forms.map(form => form.round).filter(it => it).pop() ?? null;
  });
"
}

fn rest_2() -> &'static [u8] {
    b"\
}
if (!is_sampled) find_rounds(); // Of rounds of which some moments are left out, nothing is known.
const round_levels = rounds.reduce((most, round) => Math.max(most, round.level + 1), 0);

function round_text(at) {
  const round = rounds_in[at];
  if (!round) return \"\";
  const lanes = count_of(round.lanes);
  return `round ${round.number} of ${round.of.all} of line ${round.line}, ${lanes === width ? \"full\" : `${lanes} of ${width} lanes`}`;
}

// ---- the calls: from the first moment of each to the one behind it
const spans = [];
{
  const open = [];
  moments.forEach((moment, at) => {
    const deep = moment[DEPTH];
    while (open.length > Math.max(0, deep - 1)) open.pop().to = at;
    const calls = calls_at[at];
    while (open.length < deep - 1) {
      const depth = open.length + 2;
      const span = { from: at, to: LAST + 1, depth, name: functions[depth === deep ? moment[FUNCTION] : calls[depth - 1][2]] };
      open.push(span);
      spans.push(span);
    }
  });
}

// How many numbers of a list are less than one.
function rank(list, number) {
  let low = 0;
  let high = list.length;
  while (low < high) {
    const middle = (low + high) >> 1;
    if (list[middle] < number) low = middle + 1; else high = middle;
  }
  return low;
}
const before_in = (list, at) => list[rank(list, at) - 1];
const after_in = (list, at) => list[rank(list, at + 1)];

// The moments at which a part of a variable is new.
function changes_of(variable, part) {
  const found = [];
  moments.forEach((moment, at) => {
    for (const it of moment[CHANGES]) {
      if (it[0] === variable && (it.length === 1 || (it[1] <= part && part < it[1] + it.length - 2))) found.push(at);
    }
  });
  return found;
}

// For each lane the line where it was active last, in the frames that are there, as far back as no step is left out.
const FAR = 5000;
function stands(at) {
  const found = all_lanes.map(() => 0);
  let left = width;
  for (let i = at; i >= 0 && left > 0 && steps[at] - steps[i] === at - i && at - i < FAR; i--) {
    if (moments[i][DEPTH] > moments[at][DEPTH]) continue;
    for (const lane of all_lanes) {
      if (found[lane] === 0 && has(moments[i][LANES], lane)) {
        found[lane] = moments[i][LINE];
        left--;
      }
    }
  }
  return found;
}

// ---- where the reader is
const here = { at: 0, from: 0, to: Math.max(1, LAST), pick: null, marks: [], timer: null, heat: false, found: [] };
const number_of = at => first + steps[at];
"
}

fn rest_3() -> &'static [u8] {
    b"\
// The moment with this number; where it is left out the last one before it.
const at_number = number => Math.max(0, rank(steps, number - first + 1) - 1);

const HINT = `A click on a line goes to its next ${UNIT}, a click on a value to the step that wrote it; ? lists the keys.`;

function tell(text) {
  $(\"told\").textContent = text || HINT;
}

function go(at, text = \"\") {
  if (at === undefined || Number.isNaN(at)) return tell(\"There is none.\");
  here.at = Math.max(0, Math.min(LAST, Math.round(at)));
  if (here.at < here.from || here.at > here.to) look(here.at - (here.to - here.from) / 2, here.to - here.from);
  tell(text);
  show();
}

// Shows so many moments on the time line, from one on.
function look(from, count) {
  const wide = Math.max(Math.min(10, LAST), Math.min(Math.max(1, LAST), count));
  here.from = Math.max(0, Math.min(Math.max(1, LAST) - wide, from));
  here.to = here.from + wide;
}

function zoom(factor, middle = here.at) {
  const wide = (here.to - here.from) * factor;
  look(middle - (middle - here.from) * factor, wide);
  draw();
}

// The next moment, or the one before, in this frame or one below it; or below it only.
function beside(step, depth) {
  for (let at = here.at + step; at >= 0 && at <= LAST; at += step) if (moments[at][DEPTH] <= depth) return at;
}

function go_number(number) {
  if (Number.isNaN(number)) return go(undefined);
  const at = at_number(number);
  go(at, number > number_of(at) && at < LAST ? `Step ${number} is left out; this is the moment before it.` : \"\");
}

function go_line(line, back) {
  const times = times_of[line - 1] ?? [];
  if (times.length === 0) return tell(`No ${UNIT} of this page is on line ${line}.`);
  go(back ? before_in(times, here.at) : after_in(times, here.at) ?? times[0]);
}

const name_of = (variable, part) => variables[variable][NAME] + (variables[variable][KIND] === \"one\" ? \"\" : `[${part}]`);

function pick(variable, part) {
  here.pick = { variable, part, times: changes_of(variable, part), name: name_of(variable, part), strip: strip_of(variable) };
}

// The values of all parts of a variable that has several: [part, moment, moment behind, value].
function strip_of(variable) {
  const found = [];
  const open = new Map();
  const close = (part, at) => {
    const [from, value] = open.get(part) ?? [];
    if (from !== undefined) found.push([part, from, at, value]);
    open.delete(part);
  };
  if (variables[variable][KIND] === \"one\") return found;
  moments.forEach((moment, at) => {
    for (const [other, first, ...words] of moment[CHANGES]) {
      if (other !== variable) continue;
      if (first === undefined) for (const part of [...open.keys()]) close(part, at);
      words.forEach((word, index) => { close(first + index, at); open.set(first + index, [at, Number(word)]); });
    }
  });
  for (const part of [...open.keys()]) close(part, LAST + 1);
  return found;
"
}

fn rest_4() -> &'static [u8] {
    b"\
}

// Goes to the step that gave a value.
function who(variable, part) {
  pick(variable, part);
  const at = before_in(here.pick.times, here.at + 1);
  if (at === undefined || at === 0) {
    show();
    return tell(`${here.pick.name} has had this value from the start of this record.`);
  }
  const by = gap(at - 1) > 1 ? `in the ${gap(at - 1)} steps from here to the next moment` : `by line ${moments[at - 1][LINE]}, the step that is next here`;
  go(at - 1, `${here.pick.name} got its value ${by}. ] goes to after it.`);
}

function go_change(step) {
  if (!here.pick) return tell(\"No value is picked: click on one first.\");
  go(step < 0 ? before_in(here.pick.times, here.at) : after_in(here.pick.times, here.at), here.pick.name);
}

// ---- the source
function element(kind, name, text) {
  const made = document.createElement(kind);
  if (name) made.className = name;
  if (text !== undefined) made.textContent = text;
  return made;
}

const rows = lines.map((text, index) => {
  const row = element(\"div\", times_of[index].length ? \"\" : \"never\");
  const count = element(\"span\", \"count\", times_of[index].length ? `${times_of[index].length}x` : \"\");
  const dots = element(\"span\", \"dots\");
  for (const lane of all_lanes) dots.append(element(\"i\"));
  const share = times_of[index].length ? lane_steps_of[index] / (times_of[index].length * width) : 0;
  const percents = times_of[index].length ? `${Math.round(100 * share)}%` : \"\";
  row.append(element(\"span\", \"number\", index + 1), count, dots, element(\"span\", \"share\", percents), element(\"span\", \"text\", text));
  row.style.setProperty(\"--part\", `${Math.round(100 * Math.log1p(times_of[index].length) / Math.log1p(hottest))}%`);
  row.style.setProperty(\"--share\", share.toFixed(3));
  if (times_of[index].length) {
    const own = all_lanes.filter(lane => has(lanes_on[index], lane)).join(\" \");
    row.title = `${times_of[index].length} ${UNIT}s, by lanes ${own}, on average ${percents} of all lanes`;
  }
  row.tabIndex = -1;
  row.dataset.line = index + 1;
  return row;
});

const is_fault = run.end[0] === \"fault\";

function show_source(moment) {
  const places = stands(here.at);
  rows.forEach((row, index) => {
    const line = index + 1;
    const bad = is_fault && here.at === LAST && line === moment[LINE];
    const name = [times_of[index].length ? \"\" : \"never\", line === moment[LINE] ? \"here\" : \"\", bad ? \"bad\" : \"\", here.found.includes(index) ? \"found\" : \"\"];
    set_class(row, name.filter(it => it).join(\" \"));
    for (const lane of all_lanes) set_class(row.children[2].children[lane], dot_class(lane, line, moment, places, bad));
  });
  keep_in_sight(rows[moment[LINE] - 1]);
"
}

fn rest_5() -> &'static [u8] {
    b"\
}

// Scrolls the source where a line is not in sight with some lines around it.
const AROUND = 60;
function keep_in_sight(row) {
  const box = $(\"source\").getBoundingClientRect();
  const own = row?.getBoundingClientRect();
  if (own && (own.top < box.top + AROUND || own.bottom > box.bottom - AROUND)) {
    $(\"source\").scrollTop += own.top - box.top - Math.max(AROUND, box.height / 3);
  }
}

function dot_class(lane, line, moment, places, bad) {
  const own = `dot lane-${lane % 8}${lane > 7 ? \" second\" : \"\"}`;
  if (places[lane] !== line) return own;
  if (bad && lane === run.end[3]) return `${own} faults`;
  return line === moment[LINE] && has(moment[LANES], lane) ? `${own} goes` : `${own} waits`;
}

function set_class(it, name) {
  if (it.className !== name) it.className = name;
}

function search(text) {
  here.found = text ? lines.flatMap((line, index) => line.includes(text) ? [index] : []) : [];
  const next = here.found.find(index => index >= moments[here.at][LINE] - 1) ?? here.found[0];
  show_source(moments[here.at]);
  if (next !== undefined) rows[next].scrollIntoView({ block: \"center\" });
  tell(text ? `${here.found.length} lines have \"${text}\". Enter goes to the next step on one of them.` : \"\");
}

function go_found(back) {
  const times = here.found.map(index => back ? before_in(times_of[index], here.at) : after_in(times_of[index], here.at)).filter(at => at !== undefined);
  go(times.length ? (back ? Math.max(...times) : Math.min(...times)) : undefined);
}

// ---- the values
const PER_ROW = 16;
let table_key = \"\";
let cells = [];

// The variables that are there, the top frame's first and the file's last.
function seen(values) {
  const there = variables.flatMap((_, variable) => values[variable] ? [variable] : []);
  const rank_of = variable => 2 * variables[variable][OF_DEPTH] + (variables[variable][KIND] === \"elements\" ? 0 : 1);
  return there.sort((one, other) => rank_of(other) - rank_of(one) || one - other);
}

function frame_name(depth, moment) {
  if (depth === 0) return \"the file\";
  const call = calls_at[here.at][depth - 1];
  return call ? `${functions[call[2]]}, depth ${depth}, in its call on line ${call[0]}` : `${functions[moment[FUNCTION]]}, depth ${depth}`;
}

// A table of scalars, with a column for each lane, or of arrays.
function new_table(title, is_of_arrays) {
  const table = element(\"table\", is_of_arrays ? \"parts\" : \"\");
  table.append(element(\"caption\", \"\", title));
  const head = table.createTHead().insertRow();
  head.append(element(\"th\"));
  const columns = is_of_arrays ? Array.from({ length: PER_ROW }, (_, column) => column) : all_lanes;
  for (const column of columns) {
    const own = element(\"th\", is_of_arrays ? \"\" : `lane-${column % 8}${column > 7 ? \" second\" : \"\"}`, column);
    own.scope = \"col\";
    head.append(own);
  }
  table.createTBody();
  return table;
"
}

fn rest_6() -> &'static [u8] {
    b"\
}

function new_cell(variable, part, row) {
  const cell = row.insertCell();
  cell.title = name_of(variable, part);
  cell.dataset.variable = variable;
  cell.dataset.part = part;
  cell.tabIndex = -1;
  return cell;
}

// The rows of a variable: one for a scalar, one for each 16 elements of an array.
function new_rows(body, variable, count) {
  const [depth, name, type, kind, whole] = variables[variable];
  const own = [];
  for (let part = 0; part < Math.max(1, count); part += PER_ROW) {
    const row = body.insertRow();
    row.dataset.name = name;
    row.dataset.depth = depth;
    const title = element(\"th\", part ? \"index\" : \"\", part ? `[${part}]` : name);
    if (!part) title.append(element(\"small\", \"\", kind === \"elements\" ? ` ${type}[${whole}]` : ` ${type}`));
    title.scope = \"row\";
    row.append(title);
    for (let at = part; at < Math.min(part + PER_ROW, count); at++) own.push(new_cell(variable, at, row));
  }
  if (count < whole) {
    const row = body.insertRow();
    row.insertCell().textContent = `.. ${whole - count} elements more: --elements`;
    row.cells[0].colSpan = PER_ROW + 1;
  }
  return own;
}

function build_tables(there, values, moment) {
  const tables = new Map();
  cells = [];
  for (const variable of there) {
    const [depth, , , kind] = variables[variable];
    const is_of_arrays = kind === \"elements\";
    const key = `${depth} ${is_of_arrays}`;
    if (!tables.has(key)) tables.set(key, new_table(`${is_of_arrays ? \"arrays of \" : \"\"}${frame_name(depth, moment)}`, is_of_arrays));
    cells.push([variable, new_rows(tables.get(key).tBodies[0], variable, values[variable].length)]);
  }
  $(\"values\").replaceChildren(...tables.values());
  $(\"values\").scrollTop = 0;
}

// Where the tables are made anew, the value that the keys have chosen stays so, if it is still there.
function rebuild_tables(there, values, moment) {
  const { variable, part } = document.activeElement.dataset;
  build_tables(there, values, moment);
  if (part !== undefined) $(\"values\").querySelector(`[data-variable=\"${variable}\"][data-part=\"${part}\"]`)?.focus();
}

function show_values(moment) {
  const values = values_at(here.at);
  const there = seen(values);
  const key = `${there}|${calls_at[here.at]}|${moment[FUNCTION]}`;
  if (key !== table_key) rebuild_tables(there, values, moment);
  table_key = key;
  const fresh = new Set();
  if (here.at > 0) for (const it of moment[CHANGES]) for (let i = 2; i < it.length; i++) fresh.add(it[0] * 65536 + it[1] + i - 2);
  for (const [variable, own] of cells) {
    const off = variables[variable][KIND] === \"lanes\" && variables[variable][OF_DEPTH] === moment[DEPTH];
    own.forEach((cell, part) => {
      const text = told_value(variable, values[variable][part]);
      if (cell.textContent !== text) cell.textContent = text;
      const is_pick = here.pick && here.pick.variable === variable && here.pick.part === part;
      const name = [off && !has(moment[LANES], part) ? \"off\" : \"\", fresh.has(variable * 65536 + part) ? \"new\" : \"\", is_pick ? \"pick\" : \"\"];
      set_class(cell, name.filter(it => it).join(\" \"));
    });
  }
"
}

fn rest_7() -> &'static [u8] {
    b"\
}

// ---- what is told of a moment
// Why a step faults, as explain says it.
const WHY = {
  F1: \"The right side of / or % is 0 in this lane.\",
  F2: \"An index of this lane is outside the array, or outside the part of it that was passed; or a packed call has come to the array's end.\",
  F3: \"A call across lanes names a lane that is not there: less than 0, or not below the number of lanes.\",
  F4: \"The condition of an assert is false in this lane.\",
  F5: \"A function is called while 64 calls are not left yet, the entry being one of them.\",
};

function place_text(moment) {
  const [line, column, f, depth, lanes] = moment;
  return line ? `at ${line}:${column} ${functions[f]} depth ${depth} lanes ${lanes_of(lanes)}` : \"ended\";
}

function end_text() {
  if (is_fault) return `fault ${run.end[1]} ${run.end[2]} lane ${run.end[3]} at step ${number_of(LAST)}`;
  return run.end[0] === \"ended\" ? `ended after step ${number_of(LAST) - 1}` : `the record ends at step ${number_of(LAST)}: --most`;
}

function show_fault() {
  const shown = is_fault && here.at === LAST;
  $(\"fault\").hidden = !shown;
  if (shown && !$(\"fault\").firstChild) {
    const why = `${WHY[run.end[1]]} Nothing of this step was done.`;
    $(\"fault\").append(element(\"strong\", \"\", `${run.end[1]} ${run.end[2]} in lane ${run.end[3]}`), element(\"span\", \"\", why));
  }
}

function gap_text(at) {
  if (gap(at) === 1) return \"\";
  return `the next moment is ${gap(at)} steps on; ${gap(at) - 1} between are left out, and what they change is told as one`;
}

function changed_text(moment) {
  if (here.at === 0) return \"\";
  const names = moment[CHANGES].map(it => it.length === 1 ? `${variables[it[0]][NAME]} is gone`
    : it.slice(2, 10).map((word, index) => `${name_of(it[0], it[1] + index)} is ${told_value(it[0], word)}`).join(\", \"));
  return names.slice(0, 6).join(\"; \");
}

function show_marks() {
  $(\"marks\").replaceChildren(...here.marks.map(at => {
    const button = element(\"button\", \"\", `${number_of(at)}: line ${moments[at][LINE] || \"end\"}`);
    button.onclick = () => go(at);
    return button;
  }));
}

function show() {
  const moment = moments[here.at];
  if (document.activeElement !== $(\"step\")) $(\"step\").value = number_of(here.at);
  $(\"of\").textContent = `of ${number_of(LAST)}`;
  $(\"place\").textContent = place_text(moment);
  $(\"calls\").textContent = calls_at[here.at].slice().reverse().map(([line, , f]) => `< ${functions[f]} ${line}`).join(\" \");
  $(\"round\").textContent = round_text(here.at);
  $(\"gap\").textContent = gap_text(here.at);
  show_fault();
  show_source(moment);
  show_values(moment);
  show_marks();
  draw();
  $(\"said\").textContent = `step ${number_of(here.at)}, ${place_text(moment)}. ${changed_text(moment)} ${gap_text(here.at)}`;
  keep_address();
"
}

fn rest_8() -> &'static [u8] {
    b"\
}

// ---- the time line
const canvas = $(\"time\");
const ink = canvas.getContext(\"2d\");
const layer = document.createElement(\"canvas\");
const HIGH = { lines: 46, round: 7, call: 12, calls: 48, plot: 38, strip: 48, steps: 12 };
const LEFT = 64;
const lane_high = width > 8 ? 4 : width > 4 ? 6 : 8;
let layer_key = \"\";

const wide = () => Math.max(50, canvas.clientWidth - LEFT - 8);
const x_of = at => LEFT + (at - here.from) / (here.to - here.from) * wide();
const at_of = x => here.from + (x - LEFT) / wide() * (here.to - here.from);

// The bands from the top down: name, top and height.
function bands() {
  const found = [];
  let top = 4;
  const add = (name, high) => { found.push({ name, top, high }); top += high + 4; };
  add(\"lines\", HIGH.lines);
  if (round_levels) add(\"rounds\", HIGH.round * round_levels);
  if (deepest > 1) add(\"calls\", Math.min(HIGH.calls, HIGH.call * (deepest - 1)));
  add(\"lanes\", Math.max(1, width) * lane_high);
  if (here.pick) add(\"plot\", HIGH.plot);
  if (here.pick?.strip.length) add(\"parts\", Math.min(HIGH.strip, Math.max(12, 6 * strip_parts())));
  add(\"steps\", HIGH.steps);
  return { found, high: top };
}

const strip_parts = () => here.pick.strip.reduce((most, it) => Math.max(most, it[0] + 1), 1);

// Sums per pixel: how many moments fall on it, how many of them have each lane, and which lines are there.
function sums(count) {
  const sum = { all: new Uint32Array(count), lanes: all_lanes.map(() => new Uint32Array(count)), lines: new Uint8Array(count * HIGH.lines) };
  const stretch = count / (here.to - here.from);
  for (let at = Math.ceil(here.from); at <= here.to && at <= LAST; at++) {
    const moment = moments[at];
    const x = Math.min(count - 1, Math.floor((at - here.from) * stretch));
    const end = Math.min(count - 1, Math.max(x, Math.ceil((at + 1 - here.from) * stretch) - 1));
    const y = Math.round((moment[LINE] - 1) / Math.max(1, lines.length - 1) * (HIGH.lines - 3));
    for (let i = x; i <= end; i++) {
      sum.all[i]++;
      if (moment[LINE]) sum.lines[y * count + i] = 1;
      for (const lane of all_lanes) sum.lanes[lane][i] += moment[LANES] >> lane & 1;
    }
  }
  return sum;
}

function draw_layer(look, scale, high, found) {
  const count = Math.floor(wide());
  const sum = sums(count);
  const to = layer.getContext(\"2d\");
  layer.width = canvas.width;
  layer.height = canvas.height;
  to.scale(scale, scale);
  to.font = \"10px system-ui, sans-serif\";
  for (const band of found) {
    to.globalAlpha = 1;
    to.fillStyle = look.getPropertyValue(\"--faint\");
    const of_pick = { plot: here.pick?.name, parts: here.pick && `${variables[here.pick.variable][NAME]}[]` }[band.name];
    to.fillText((of_pick ?? band.name).slice(0, 10), 2, band.top + Math.min(band.high, 12) - 1);
    to.fillStyle = look.getPropertyValue(\"--band\");
    to.fillRect(LEFT, band.top, count, band.high);
    DRAWS[band.name](to, look, band, sum, count);
  }
"
}

fn rest_9() -> &'static [u8] {
    b"\
}

const DRAWS = {
  lines(to, look, band, sum, count) {
    to.fillStyle = look.getPropertyValue(\"--ink\");
    for (let y = 0; y < HIGH.lines; y++) for (let x = 0; x < count; x++) if (sum.lines[y * count + x]) to.fillRect(LEFT + x, band.top + y, 1, 2.5);
  },
  // A round is as high as many of the lanes do it, and every other one is paler.
  rounds(to, look, band) {
    to.fillStyle = look.getPropertyValue(\"--round\");
    const one = band.high / round_levels;
    for (const { from, to: end, lanes, number, level } of rounds) {
      to.globalAlpha = number % 2 ? 1 : .6;
      const high = (one - 1) * count_of(lanes) / width;
      draw_span(to, from, end, band.top + level * one + one - 1 - high, high);
    }
    to.globalAlpha = 1;
  },
  // A call with its name where there is room.
  calls(to, look, band) {
    const one = band.high / (deepest - 1);
    for (const { from, to: end, depth, name } of spans) {
      const top = band.top + (depth - 2) * one;
      to.fillStyle = look.getPropertyValue(\"--deep\");
      const room = draw_span(to, from, end, top, Math.max(1, one - 1));
      to.fillStyle = look.getPropertyValue(\"--ink\");
      if (one > 9 && room > 6 * name.length + 4) to.fillText(name, Math.max(LEFT, x_of(from)) + 3, top + one - 3);
    }
  },
  // A row for each part of the picked variable, the darker the greater its value.
  parts(to, look, band) {
    const numbers = here.pick.strip.map(it => it[3]);
    const [least, most] = numbers.reduce(([low, high], it) => [Math.min(low, it), Math.max(high, it)], [Infinity, -Infinity]);
    const one = band.high / strip_parts();
    to.fillStyle = look.getPropertyValue(\"--pick\");
    for (const [part, from, end, value] of here.pick.strip) {
      to.globalAlpha = .06 + .94 * (value - least) / Math.max(1, most - least);
      draw_span(to, from, end, band.top + part * one, Math.max(1, one - (one > 3 ? 1 : 0)));
    }
    to.globalAlpha = 1;
  },
  lanes(to, look, band, sum, count) {
    for (const lane of all_lanes) {
      to.fillStyle = look.getPropertyValue(`--lane-${lane % 8}`);
      for (let x = 0; x < count; x++) {
        if (!sum.lanes[lane][x]) continue;
        to.globalAlpha = .25 + .75 * sum.lanes[lane][x] / sum.all[x];
        to.fillRect(LEFT + x, band.top + lane * lane_high, 1, lane_high - 1);
      }
    }
    to.globalAlpha = 1;
  },
  plot(to, look, band) {
    draw_plot(to, look, band);
  },
  // The numbers of steps; a line over them where none is left out.
  steps(to, look, band, sum, count) {
    to.fillStyle = look.getPropertyValue(\"--faint\");
    const places = Math.max(1, Math.floor(count / 110));
    for (let i = 0; i < places; i++) {
      const at = Math.ceil(here.from + (here.to - here.from) * i / places);
      if (at <= LAST) to.fillText(String(number_of(at)), x_of(at) + 2, band.top + band.high - 2);
      if (at <= LAST) to.fillRect(x_of(at), band.top, 1, band.high);
    }
    if (is_sampled) for (const [from, end] of whole_parts) draw_span(to, from, end, band.top, 2);
  },
"
}

fn rest_10() -> &'static [u8] {
    b"\
};

// The parts of a time line in which no step is left out, from one moment to another.
const whole_parts = [];
for (let at = 0, from = 0; at < LAST; at++) {
  if (gap(at) > 1) from = at + 1; else if (at + 1 === LAST || gap(at + 1) > 1) whole_parts.push([from, at + 1]);
}

// Fills the part of a time line from one moment up to another, and tells how wide it is there.
function draw_span(to, from, end, top, high) {
  const [left, right] = [x_of(Math.max(here.from, from)), x_of(Math.min(here.to, end))];
  if (right <= left) return 0;
  const room = right - left;
  to.fillRect(left, top, Math.max(1, room - (room > 4 ? 1 : 0)), high);
  return room;
}

// The values of the picked part over time, the least at the bottom.
function draw_plot(to, look, band) {
  const points = plot_points();
  const numbers = points.map(point => point[1]).filter(it => it !== null);
  const [least, most] = numbers.reduce(([low, high], it) => [Math.min(low, it), Math.max(high, it)], [Infinity, -Infinity]);
  const y_of = value => band.top + band.high - 3 - (value - least) / Math.max(1, most - least) * (band.high - 6);
  to.fillStyle = look.getPropertyValue(\"--pick\");
  points.forEach(([at, value], index) => {
    const end = Math.min(here.to, index + 1 < points.length ? points[index + 1][0] : LAST + 1);
    const begin = Math.max(here.from, at);
    if (value === null || end < begin) return;
    to.fillRect(x_of(begin), y_of(value) - 1, Math.max(1, x_of(end) - x_of(begin)), 2);
  });
  if (numbers.length) {
    to.fillStyle = look.getPropertyValue(\"--faint\");
    to.fillText(String(most).slice(0, 10), 2, band.top + 22);
    to.fillText(String(least).slice(0, 10), 2, band.top + band.high - 1);
  }
}

// [moment, value] from each change of the picked part on, null where it is not there.
function plot_points() {
  const { variable, part, times } = here.pick;
  return times.map(at => {
    const it = moments[at][CHANGES].find(it => it[0] === variable && (it.length === 1 || (it[1] <= part && part < it[1] + it.length - 2)));
    return [at, it.length === 1 ? null : Number(it[2 + part - it[1]])];
  });
}

function draw() {
  const scale = devicePixelRatio || 1;
  const { found, high } = bands();
  const look = getComputedStyle(document.documentElement);
  const key = [here.from, here.to, canvas.clientWidth, scale, here.pick?.name, here.pick?.variable, look.getPropertyValue(\"--paper\")].join(\"|\");
  if (key !== layer_key) {
    layer_key = key;
    canvas.style.height = `${high}px`;
    canvas.width = canvas.clientWidth * scale;
    canvas.height = high * scale;
    draw_layer(look, scale, high, found);
  }
  ink.setTransform(1, 0, 0, 1, 0, 0);
  ink.clearRect(0, 0, canvas.width, canvas.height);
  ink.drawImage(layer, 0, 0);
  ink.scale(scale, scale);
  const mark = (at, colour, top, tall, thick) => {
    if (at < here.from || at > here.to) return;
    ink.fillStyle = look.getPropertyValue(colour);
    ink.fillRect(x_of(at) - thick / 2, top, thick, tall);
  };
  if (here.pick) for (const at of here.pick.times) mark(at, \"--pick\", 0, 3, 2);
  for (const at of here.marks) mark(at, \"--bad\", 0, high, 1);
  if (is_fault) mark(LAST, \"--bad\", 0, high, 3);
  mark(here.at, \"--ink\", 0, high, 2);
"
}

fn rest_11() -> &'static [u8] {
    b"\
}

// ---- the address: #40, with bookmarks #40,marks=3,17
let address_timer = null;
let known_address = location.hash; // What the page set or read last. Where another one stands there, it was typed, and is still to be read.

function address() {
  return `#${number_of(here.at)}${here.marks.length ? `,marks=${here.marks.map(number_of).join(\",\")}` : \"\"}`;
}

function keep_address() {
  clearTimeout(address_timer);
  address_timer = setTimeout(set_address, 200);
}

function set_address() {
  if (location.hash !== known_address) return;
  try { history.replaceState(null, \"\", address()); } catch { /* it is kept where it may be */ }
  known_address = location.hash;
}

function read_address(hash) {
  known_address = hash;
  const [, at, marks] = /^#(\\d+)?(?:,marks=([\\d,]+))?/.exec(hash) ?? [];
  const inside = number => number >= first && number <= number_of(LAST);
  const own = (marks ?? \"\").split(\",\").filter(it => it).map(Number).filter(inside).map(at_number);
  here.marks = [...new Set(own)].sort((one, other) => one - other);
  if (at === undefined) go(0); else go_number(Number(at));
}

function toggle_mark() {
  const there = here.marks.includes(here.at);
  here.marks = there ? here.marks.filter(at => at !== here.at) : [...here.marks, here.at].sort((one, other) => one - other);
  show();
  tell(there ? \"This bookmark is gone.\" : \"A bookmark is here; the address of the page keeps it.\");
}

// ---- keys
function play() {
  here.timer = here.timer ? void clearInterval(here.timer) : setInterval(() => here.at < LAST ? go(here.at + 1) : play(), 120);
  $(\"play\").textContent = here.timer ? \"stop\" : \"play\";
  $(\"play\").setAttribute(\"aria-pressed\", String(Boolean(here.timer)));
}

function heat() {
  here.heat = !here.heat;
  $(\"source\").classList.toggle(\"heated\", here.heat);
  $(\"heat\").setAttribute(\"aria-pressed\", String(here.heat));
  tell(here.heat ? \"The bars say how often a line's step was done, their dark part and the percents by how many of the lanes.\" : \"\");
}

const KEYS = [
  [\"ArrowRight\", \"Right\", `a ${UNIT} forward`, () => go(here.at + 1)],
  [\"ArrowLeft\", \"Left\", `a ${UNIT} back`, () => go(here.at - 1)],
  [\"ArrowDown\", \"Down\", `the next ${UNIT} on this line`, () => go_line(moments[here.at][LINE], false)],
  [\"ArrowUp\", \"Up\", `the ${UNIT} before on this line`, () => go_line(moments[here.at][LINE], true)],
  [\"PageDown\", \"Page Down\", `a hundred ${UNIT}s forward`, () => go(here.at + 100)],
  [\"PageUp\", \"Page Up\", `a hundred ${UNIT}s back`, () => go(here.at - 100)],
  [\"Home\", \"Home\", \"the first moment\", () => go(0)],
  [\"End\", \"End\", \"the last moment\", () => go(LAST)],
  [\"n\", \"n\", `over a call: the next ${UNIT} in this function or below`, () => go(beside(1, moments[here.at][DEPTH]))],
  [\"p\", \"p\", \"the same, back\", () => go(beside(-1, moments[here.at][DEPTH]))],
  [\"o\", \"o\", \"out of this call\", () => go(beside(1, moments[here.at][DEPTH] - 1))],
  [\"i\", \"i\", \"back to before this call\", () => go(beside(-1, moments[here.at][DEPTH] - 1))],
  [\"]\", \"]\", \"the next change of the picked value\", () => go_change(1)],
  [\"[\", \"[\", \"the change of the picked value before\", () => go_change(-1)],
  [\" \", \"Space\", \"plays the run, and stops\", play],
  [\"g\", \"g\", \"to the field of the step: type a number and Enter\", () => $(\"step\").select()],
  [\"/\", \"/\", \"searches the source: Enter goes to the next step on a line with the text, Shift Enter to the one before\", () => $(\"search\").select()],
  [\"l\", \"l\", \"to the lines: Up and Down choose one, Enter goes to its next step\", () => focus_line(moments[here.at][LINE])],
  [\"v\", \"v\", \"to the values: the arrows choose one, Enter goes to the step that wrote it\", () => cells[0]?.[1][0]?.focus()],
  [\"m\", \"m\", \"sets a bookmark here, or takes it away\", toggle_mark],
  [\".\", \".\", \"the next bookmark\", () => go(after_in(here.marks, here.at))],
  [\",\", \",\", \"the bookmark before\", () => go(before_in(here.marks, here.at))],
  [\"h\", \"h\", \"how often each line was the next step, and by how many of the lanes\", heat],
  [\"+\", \"+\", \"a shorter part of the time line\", () => zoom(.5)],
  [\"-\", \"-\", \"a longer part of it\", () => zoom(2)],
  [\"0\", \"0\", \"all of it\", () => { look(0, LAST); draw(); }],
  [\"Escape\", \"Escape\", \"back from a field, a line or a value to the run\", () => document.activeElement.blur()],
  [\"?\", \"?\", \"this list\", () => $(\"keys\").showModal()],
"
}

fn rest_12() -> &'static [u8] {
    b"\
];

function focus_line(line) {
  const row = rows[Math.max(0, Math.min(rows.length - 1, line - 1))];
  row.focus();
  row.scrollIntoView({ block: \"nearest\" });
}

// The cell beside one: in its row, or in the same column of another row.
function focus_cell(cell, right, down) {
  const all = [...$(\"values\").querySelectorAll(\"td[data-part]\")];
  if (right) return all[all.indexOf(cell) + right]?.focus();
  const lines_of_cells = [...new Set(all.map(it => it.parentElement))];
  const next = lines_of_cells[lines_of_cells.indexOf(cell.parentElement) + down];
  next?.cells[Math.min(cell.cellIndex, next.cells.length - 1)].focus();
}

// A key while a line or a value is chosen; whether it was one.
function chosen_key(event) {
  const at = document.activeElement;
  const [right, down] = { ArrowRight: [1, 0], ArrowLeft: [-1, 0], ArrowDown: [0, 1], ArrowUp: [0, -1] }[event.key] ?? [0, 0];
  if (at.dataset.part !== undefined && (right || down || event.key === \"Enter\")) {
    if (event.key === \"Enter\") who(Number(at.dataset.variable), Number(at.dataset.part)); else focus_cell(at, right, down);
    return true;
  }
  if (at.dataset.line !== undefined && (down || event.key === \"Enter\")) {
    if (event.key === \"Enter\") go_line(Number(at.dataset.line), event.shiftKey); else focus_line(Number(at.dataset.line) + down);
    return true;
  }
  return false;
}

function field_key(event) {
  if (event.key === \"Escape\") document.activeElement.blur();
  if (event.key !== \"Enter\") return;
  if (event.target === $(\"step\")) {
    $(\"step\").blur();
    go_number(Number($(\"step\").value));
  } else {
    go_found(event.shiftKey);
  }
}

addEventListener(\"keydown\", event => {
  if ($(\"keys\").open || event.ctrlKey || event.altKey || event.metaKey) return;
  if (event.target instanceof HTMLInputElement) return field_key(event);
  if (event.target instanceof HTMLButtonElement && (event.key === \" \" || event.key === \"Enter\")) return;
  if (chosen_key(event)) return event.preventDefault();
  const key = KEYS.find(it => it[0] === event.key);
  if (!key) return;
  event.preventDefault();
  key[3]();
});

// ---- clicks
$(\"source\").onclick = event => {
  const row = event.target.closest(\"[data-line]\");
  if (row) go_line(Number(row.dataset.line), event.shiftKey);
};
$(\"values\").onclick = event => {
  const cell = event.target.closest(\"[data-part]\");
  if (cell) who(Number(cell.dataset.variable), Number(cell.dataset.part));
};
"
}

fn rest_13() -> &'static [u8] {
    b"\
const drag = event => go(at_of(event.clientX - canvas.getBoundingClientRect().left));
canvas.onpointerdown = event => {
  canvas.setPointerCapture(event.pointerId);
  drag(event);
  canvas.onpointermove = drag;
};
canvas.onpointerup = () => { canvas.onpointermove = null; };
canvas.onwheel = event => {
  event.preventDefault();
  zoom(event.deltaY < 0 ? .8 : 1.25, at_of(event.clientX - canvas.getBoundingClientRect().left));
};
$(\"first\").onclick = () => go(0);
$(\"back\").onclick = () => go(here.at - 1);
$(\"play\").onclick = play;
$(\"on\").onclick = () => go(here.at + 1);
$(\"last\").onclick = () => go(LAST);
$(\"heat\").onclick = heat;
$(\"mark\").onclick = toggle_mark;
$(\"help\").onclick = () => $(\"keys\").showModal();
$(\"search\").oninput = () => search($(\"search\").value);
addEventListener(\"resize\", draw);
addEventListener(\"hashchange\", event => read_address(new URL(event.newURL).hash));
matchMedia(\"(prefers-color-scheme: dark)\").addEventListener(\"change\", draw);

// ---- the start
$(\"name\").textContent = run.name;
document.title = `${run.name}: a run, step by step`;
$(\"end\").textContent = end_text() + (is_sampled ? `, ${moments.length} of the moments` : \"\");
$(\"source\").append(...rows);
$(\"source\").classList.toggle(\"many\", width > 8);
for (const [, name, text] of KEYS) {
  const key = element(\"dt\");
  key.append(element(\"kbd\", \"\", name));
  $(\"list\").append(key, element(\"dd\", \"\", text));
}
read_address(location.hash);
</script>
</body>
</html>
"
}
