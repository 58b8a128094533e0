//! Short circuits, inputs, parts of arrays, rounds and `switch`. Written by `tools/transcripts/write_tests.py`.

/// Rows as `crate::row` reads them.
pub(crate) const ROWS: &str = "\
ShortCircuit@@export void go() {
int y = programIndex - 1;
bool b = y != 0 && 6 / y > 2;
int z = y == 0 ? 0 : 7 % y;
uniform uint8 u = 300;
int w = 7 / y;
}@@step 4
print b
print z
print u
step
@at 6:1 go depth 1 lanes 1111
b = false false true true
z = 0 0 0 1
u = 44
fault F1 DivideByZero lane 1: at 6:1 go depth 1 lanes 1111
$
FirstFault@@export void go() { int q = 1 / (programIndex - 3) + 1 / programIndex; }@@step
@fault F1 DivideByZero lane 3: at 1:20 go depth 1 lanes 1111
$
ContinueInFor@@export void go() {
int x = 0;
for (int i = 0; i < 2; i++) {
if (programIndex == 0) continue;
x += 1;
}
}@@step 4
step
step
step 7
print x
@at 4:24 go depth 1 lanes 1000
at 5:1 go depth 1 lanes 0111
at 3:24 go depth 1 lanes 1111
at 7:1 go depth 1 lanes 1111
x = 0 2 2 2
$
InputRows@@uniform int8 t[3];
export void go(uniform int n, uniform int a[]) {
a[programIndex] += n;
t[n] = n;
int g = a[n];
}@n = 2
a = 5 6 7 8
t = 1@step 3
print a
print t
print g
@at 6:1 go depth 1 lanes 1111
a = 7 8 9 10
t = 1 0 2
g = 9 9 9 9
$
GatherFault@@uniform int8 t[3];
export void go(uniform int n, uniform int a[]) {
a[programIndex] += n;
t[n] = n;
int g = a[n];
}@n = 3
a = 5 6 7@step
print a
@fault F2 Index lane 3: at 3:1 go depth 1 lanes 1111
a = 5 6 7
$
UniformIndexFault@@uniform int8 t[3];
export void go(uniform int n, uniform int a[]) {
a[programIndex] += n;
t[n] = n;
int g = a[n];
}@n = 3
a = 5 6 7 8@step 2
@fault F2 Index lane 0: at 4:1 go depth 1 lanes 1111
$
PartsOfArrays@@uniform int m[3];
void put(uniform int v[], uniform int k) {
v[k] = 7;
}
export void go() {
put(&m[1], 1);
put(&m[3], 0);
}@@step
print v
step 2
print m
step 2
@at 3:1 put depth 2 lanes 1111
v = 0 0
at 7:1 go depth 1 lanes 1111
m = 0 0 7
fault F2 Index lane 0: at 3:1 put depth 2 lanes 1111
$
LastForeachIndex@@export void go() {
int n = 0;
foreach (i = 2147483646 ... 2147483647)
n = i;
}@@step 3
step
print n
@at 4:1 go depth 1 lanes 1000
at 5:1 go depth 1 lanes 1111
n = 2147483646 0 0 0
$
TilesOfEight@--width 8@uniform int a[9];
export void go() {
foreach_tiled (r = 0 ... 3, c = 0 ... 3)
a[r * 3 + c] = programIndex;
}@@step
step 2
step 2
print a
@at 3:1 go depth 1 lanes 11101110
at 3:1 go depth 1 lanes 11100000
at 5:1 go depth 1 lanes 11111111
a = 0 1 2 4 5 6 0 1 2
$
WatchAcrossPokes@@uniform int8 q = 1;
export void go() {
foreach (i = 0 ... 4)
q += 1;
}@@step 2
watch q
set var q = 9
step 5
reverse-step 2
print q
reverse-continue
reverse-continue
undo
@at 4:1 go depth 1 lanes 1111
watch 1: q
q = 9
watch 1: at 5:1 go depth 1 lanes 1111
watch 1: at 4:1 go depth 1 lanes 1111
q = 9
watch 1: at 3:1 go depth 1 lanes 1111
history end: at 3:1 go depth 1 lanes 1111
C3 NoHistory
$
Backtrace@@int f(int k) {
int r = k + 1;
if (k > 1) return r;
return f(r);
}
export void go() {
int x = f(programIndex);
int y = f(2);
}@@step 5
backtrace
continue
bt
@at 2:1 f depth 3 lanes 1100
at 2:1 f depth 3 lanes 1100
at 4:1 f depth 2 lanes 1100
at 7:1 go depth 1 lanes 1111
ended
ended
$
HistoryOfOne@--history 1@export void go() {
    int x = programIndex * 3;
    x += 1;
}@@step
set var x = 7
reverse-step
undo
undo
print x
@at 3:5 go depth 1 lanes 1111
x = 7 7 7 7
C3 NoHistory
undone poke: at 3:5 go depth 1 lanes 1111
C3 NoHistory
x = 0 3 6 9
$
PackedLoad@@uniform int m[4];
export void go() {
m[programIndex] = programIndex * 10;
if (programIndex & 1) {
int x = 1;
uniform int n = packed_load_active(&m[1], &x);
n = packed_load_active(&m[3], &x);
}
}@@step 4
print n
print x
step
@at 7:1 go depth 1 lanes 0101
n = 2
x = 0 10 0 20
fault F2 Index lane 3: at 7:1 go depth 1 lanes 0101
$
Switch@@export void go() {
int x = 0;
switch (programIndex) {
case 0: x += 1;
case 2: x += 10; break;
default: x += 100;
}
x += 1000;
}@@step 2
step
step
step
step
step
print x
reverse-step 7
@at 4:9 go depth 1 lanes 1000
at 5:9 go depth 1 lanes 1010
at 5:18 go depth 1 lanes 1010
at 6:10 go depth 1 lanes 0101
at 8:1 go depth 1 lanes 1111
at 9:1 go depth 1 lanes 1111
x = 1011 1100 1010 1100
at 2:1 go depth 1 lanes 1111
$
SwitchWithoutLabel@@export void go() { switch (programCount) { case 5: ; } }@@step
@at 1:56 go depth 1 lanes 1111
$
";
