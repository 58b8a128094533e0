//! Statements and expressions, forwards and back. Written by `tools/transcripts/write_tests.py`.

/// Rows as `crate::row` reads them.
pub(crate) const ROWS: &str = "\
StepAndBack@@export void go() {
    int x = programIndex * 3;
    x += 1;
}@@step
step
print x
reverse-step
print x
@at 3:5 go depth 1 lanes 1111
at 4:1 go depth 1 lanes 1111
x = 1 4 7 10
at 3:5 go depth 1 lanes 1111
x = 0 3 6 9
$
EmptyFunction@@export void go() { }@@step
step
reverse-step
reverse-step
@ended
C4 Ended
at 1:20 go depth 1 lanes 1111
C3 NoHistory
$
ElseLanes@@export void go() {
uniform int u = 0;
if (programIndex & 1)
u = 1;
else
u = 2;
}@@step 2
step
step
print u
@at 4:1 go depth 1 lanes 0101
at 6:1 go depth 1 lanes 1010
at 7:1 go depth 1 lanes 1111
u = 2
$
IfWithoutLanes@@export void go() {
uniform int u = 5;
if (programIndex > 9)
u = 1;
}@@step 2
print u
@at 5:1 go depth 1 lanes 1111
u = 5
$
BreakAndContinue@@export void go() {
int x = 0;
while (x < 2) {
x += 1;
if (programIndex == 1) break;
if (programIndex == 2) continue;
x += programIndex;
}
}@@step 4
step
step 2
step
step
step 6
print x
reverse-step 15
reverse-step
@at 5:24 go depth 1 lanes 0100
at 6:1 go depth 1 lanes 1011
at 7:1 go depth 1 lanes 1001
at 3:1 go depth 1 lanes 1011
at 4:1 go depth 1 lanes 1010
at 9:1 go depth 1 lanes 1111
x = 2 1 2 4
at 2:1 go depth 1 lanes 1111
C3 NoHistory
$
ReturnedLanesInForeach@@uniform int a[6];
export void go() {
int n = 0;
if (programIndex == 0) return;
foreach (i = 0 ... 6) {
if (i > 0) a[i] = i * 10;
n += 1;
}
n += 100;
}@@step 3
step
step 2
step 6
step
print n
print a
@at 5:1 go depth 1 lanes 0111
at 5:1 go depth 1 lanes 1111
at 6:12 go depth 1 lanes 0111
at 9:1 go depth 1 lanes 0111
at 10:1 go depth 1 lanes 1111
n = 2 102 101 101
a = 0 10 20 30 40 50
$
ForeachRange@@uniform int s = 0;
export void go() {
foreach (i = 3 ... 3) s += 1;
foreach (i = 0 ... 5) s += 1;
}@@step
step 3
step 2
print s
@at 4:1 go depth 1 lanes 1111
at 4:1 go depth 1 lanes 1000
at 5:1 go depth 1 lanes 1111
s = 2
$
Tiles@@uniform int a[9];
export void go() {
foreach_tiled (r = 0 ... 3, c = 0 ... 3)
a[r * 3 + c] = programIndex;
}@@step 3
step 2
step 2
step 2
print a
@at 3:1 go depth 1 lanes 1010
at 3:1 go depth 1 lanes 1100
at 3:1 go depth 1 lanes 1000
at 5:1 go depth 1 lanes 1111
a = 0 1 0 2 3 2 0 1 0
$
ScatterConflict@@uniform int a[4];
export void go() {
a[programIndex / 2] = programIndex;
}@@step
print a
reverse-step
print a
@at 4:1 go depth 1 lanes 1111
a = 1 3 0 0
at 3:1 go depth 1 lanes 1111
a = 0 0 0 0
$
InactiveDivision@@export void go() {
int x = 12;
int y = 2 - programIndex;
if (y != 0) x = x / y;
x = x / y;
}@@step 3
step
print x
step
undo
print x
@at 4:13 go depth 1 lanes 1101
at 5:1 go depth 1 lanes 1111
x = 6 12 12 -12
fault F1 DivideByZero lane 2: at 5:1 go depth 1 lanes 1111
undone step: at 4:13 go depth 1 lanes 1101
x = 12 12 12 12
$
WrappedTypes@@export void go() {
int8 a = 100;
int8 b = a + a;
int c = -2147483648;
int d = c / -1;
int e = 5 << 32;
unsigned int8 f = a << 1;
}@@step 6
info locals
@at 8:1 go depth 1 lanes 1111
a = 100 100 100 100
b = -56 -56 -56 -56
c = -2147483648 -2147483648 -2147483648 -2147483648
d = -2147483648 -2147483648 -2147483648 -2147483648
e = 5 5 5 5
f = 200 200 200 200
$
";
