//! The debugger's commands, and what it is given. Written by `tools/transcripts/write_tests.py`.

/// Rows as `crate::row` reads them.
pub(crate) const ROWS: &str = "\
HistoryLimit@--history 4@uniform int t = 0;
export void go() {
t += 1;
t += 1;
t += 1;
t += 1;
t += 1;
t += 1;
}@@step 6
reverse-step
reverse-step
reverse-step
reverse-step
reverse-step
print t
step
undo
undo
step 4
reverse-step 9
@at 9:1 go depth 1 lanes 1111
at 8:1 go depth 1 lanes 1111
at 7:1 go depth 1 lanes 1111
at 6:1 go depth 1 lanes 1111
at 5:1 go depth 1 lanes 1111
C3 NoHistory
t = 2
at 6:1 go depth 1 lanes 1111
undone step: at 5:1 go depth 1 lanes 1111
C3 NoHistory
at 9:1 go depth 1 lanes 1111
history end: at 5:1 go depth 1 lanes 1111
$
BreakpointsAndWatches@@uniform int t = 0;
export void go() {
uniform int i = 0;
while (i < 3) {

t += i;
i += 1;
}
}@@break 5
continue
continue
print i
reverse-continue
print i
reverse-continue
break 900
delete 1
delete 1
watch t
continue
info breakpoints
continue
continue
@breakpoint 1 at line 6
breakpoint 1: at 6:1 go depth 1 lanes 1111
breakpoint 1: at 6:1 go depth 1 lanes 1111
i = 1
breakpoint 1: at 6:1 go depth 1 lanes 1111
i = 0
history end: at 3:1 go depth 1 lanes 1111
C7 NoLine
deleted 1
C10 NoSuchNumber
watch 2: t
watch 2: at 7:1 go depth 1 lanes 1111
2 watch t
watch 2: at 7:1 go depth 1 lanes 1111
ended
$
Pokes@@export void go() {
    int x = programIndex * 3;
    x += 1;
}@@step
set var x[3] = 50
set var x = 7
undo
print x
step
print x
reverse-step
reverse-step
step
print x
@at 3:5 go depth 1 lanes 1111
x[3] = 50
x = 7 7 7 7
undone poke: at 3:5 go depth 1 lanes 1111
x = 0 3 6 50
at 4:1 go depth 1 lanes 1111
x = 1 4 7 51
at 3:5 go depth 1 lanes 1111
at 2:5 go depth 1 lanes 1111
at 3:5 go depth 1 lanes 1111
x = 0 3 6 9
$
Recursion@@int f(int k) {
int r = k + 1;
if (k > 1) return r;
return f(r);
}
export void go() {
int x = f(programIndex);
int y = f(2);
}@@next
print x
next
reverse-next
reverse-step
print r
reverse-step 4
print k
info locals
reverse-finish
print r
finish
finish
finish
@at 8:1 go depth 1 lanes 1111
x = 3 3 3 4
at 9:1 go depth 1 lanes 1111
at 8:1 go depth 1 lanes 1111
at 5:1 f depth 2 lanes 1111
r = 1 2 3 4
at 3:1 f depth 4 lanes 1000
k = 2 0 0 0
r = 3 0 0 0
at 4:1 f depth 3 lanes 1000
r = 2 3 0 0
at 5:1 f depth 2 lanes 1111
at 8:1 go depth 1 lanes 1111
C6 Outermost
$
LibraryAcrossLanes@--width 8@uniform int a[4];
export void go() {
int v = programIndex + 1;
int w = rotate(v, -1);
int s = -1;
int t = -1;
uniform int n = 0;
if (programIndex == 1 || programIndex == 3) {
s = exclusive_scan_add(v);
t = rotate(v, 2);
n = packed_store_active(&a[1], v);
}
}@@break 11
continue
step
info locals
print a
@breakpoint 1 at line 11
breakpoint 1: at 11:1 go depth 1 lanes 01010000
at 13:1 go depth 1 lanes 11111111
v = 1 2 3 4 5 6 7 8
w = 8 1 2 3 4 5 6 7
s = -1 0 -1 2 -1 -1 -1 -1
t = -1 4 -1 0 -1 -1 -1 -1
n = 2
a = 0 2 4 0
$
CommandRefusals@@uniform int8 q = 1;
export void go() {
foreach (i = 0 ... 4)
q += 1;
}@@step 2
set var i = 3
set var q = 300
print z
xxxxxxxxxxxxxxxxxxxxxxxxxxxxxxxxxxxxxxxxxxxxxxxxxxxxxxxxxxxxxxxxxxxxxxxxxxxxxxxxxxxxxxxxxxxxxxxxxxxxxxxxxxxxxxxxxxxxxxxxxxxxxxxxxxxxxxxxxxxxxxxxxxxxxxxxxxxxxxxxxxxxxxxxxxxxxxxxxxxxxxxxxxxxxxxxxxxxxxxxxxxxxxxxxxxxxxxxxxxxxxxxxxxxxxxxxxxxxxxxxxxxxxxxxxxxxxxxx
finish
delete 3
break 6
watch i
print q
info breakpoints
undo
break 4
break 4
break 4
break 4
break 4
break 4
break 4
break 4
break 4
break 4
break 4
break 4
break 4
break 4
break 4
break 4
break 4
break 4
break 4
break 4
break 4
break 4
break 4
break 4
break 4
break 4
break 4
break 4
break 4
break 4
break 4
break 4
break 4
break 4
break 4
break 4
break 4
break 4
break 4
break 4
break 4
break 4
break 4
break 4
break 4
break 4
break 4
break 4
break 4
break 4
break 4
break 4
break 4
break 4
break 4
break 4
break 4
break 4
break 4
break 4
break 4
break 4
break 4
break 4
break 4
@at 4:1 go depth 1 lanes 1111
C9 Constant
C8 OutOfRange
C2 NoSuchName
C1 BadCommand
C6 Outermost
C10 NoSuchNumber
C7 NoLine
C2 NoSuchName
q = 1
none
undone step: at 3:1 go depth 1 lanes 1111
breakpoint 1 at line 4
breakpoint 2 at line 4
breakpoint 3 at line 4
breakpoint 4 at line 4
breakpoint 5 at line 4
breakpoint 6 at line 4
breakpoint 7 at line 4
breakpoint 8 at line 4
breakpoint 9 at line 4
breakpoint 10 at line 4
breakpoint 11 at line 4
breakpoint 12 at line 4
breakpoint 13 at line 4
breakpoint 14 at line 4
breakpoint 15 at line 4
breakpoint 16 at line 4
breakpoint 17 at line 4
breakpoint 18 at line 4
breakpoint 19 at line 4
breakpoint 20 at line 4
breakpoint 21 at line 4
breakpoint 22 at line 4
breakpoint 23 at line 4
breakpoint 24 at line 4
breakpoint 25 at line 4
breakpoint 26 at line 4
breakpoint 27 at line 4
breakpoint 28 at line 4
breakpoint 29 at line 4
breakpoint 30 at line 4
breakpoint 31 at line 4
breakpoint 32 at line 4
breakpoint 33 at line 4
breakpoint 34 at line 4
breakpoint 35 at line 4
breakpoint 36 at line 4
breakpoint 37 at line 4
breakpoint 38 at line 4
breakpoint 39 at line 4
breakpoint 40 at line 4
breakpoint 41 at line 4
breakpoint 42 at line 4
breakpoint 43 at line 4
breakpoint 44 at line 4
breakpoint 45 at line 4
breakpoint 46 at line 4
breakpoint 47 at line 4
breakpoint 48 at line 4
breakpoint 49 at line 4
breakpoint 50 at line 4
breakpoint 51 at line 4
breakpoint 52 at line 4
breakpoint 53 at line 4
breakpoint 54 at line 4
breakpoint 55 at line 4
breakpoint 56 at line 4
breakpoint 57 at line 4
breakpoint 58 at line 4
breakpoint 59 at line 4
breakpoint 60 at line 4
breakpoint 61 at line 4
breakpoint 62 at line 4
breakpoint 63 at line 4
breakpoint 64 at line 4
C11 TableFull
$
EntryArray@@export void go(uniform int n, uniform int a[]) {
foreach (i = 0 ... n) a[i] += n;
}@n = 3
a = 1 2 3@break 3
continue
print a
@breakpoint 1 at line 3
breakpoint 1: at 3:1 go depth 1 lanes 1111
a = 4 5 6
$
EntryArrayTooShort@@export void go(uniform int n, uniform int a[]) {
foreach (i = 0 ... n) a[i] += n;
}@n = 4
a = 1 2 3@continue
print a
@fault F2 Index lane 3: at 2:23 go depth 1 lanes 1111
a = 1 2 3
$
StepLimit@--steps 3@export void go() { for (;;) ; }@@continue
undo
@step limit: at 1:20 go depth 1 lanes 1111
undone step: at 1:20 go depth 1 lanes 1111
$
UniqueAndActive@@uniform int k = 0;
export void go() {
foreach_unique (v in programIndex & 1) {
k = k * 10 + v + 1;
}
foreach_active (j)
k += 1;
}@@step 2
step 2
step
print k
step 3
print k
@at 4:1 go depth 1 lanes 1010
at 4:1 go depth 1 lanes 0101
at 6:1 go depth 1 lanes 1111
k = 12
at 6:1 go depth 1 lanes 0100
k = 13
$
AssertFault@@export void go() { assert(programIndex < 3); }@@step
@fault F4 Assert lane 3: at 1:20 go depth 1 lanes 1111
$
LaneIndexFault@@export void go() { int x = extract(programIndex, 4); }@@step
@fault F3 LaneIndex lane 0: at 1:20 go depth 1 lanes 1111
$
CallDepthFault@@void r() { r(); }
export void go() { r(); }@@continue
@fault F5 CallDepth lane 0: at 1:12 r depth 64 lanes 1111
$
";
