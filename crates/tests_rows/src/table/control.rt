//! Control flow, calls and moves. Written by `tools/transcripts/write_tests.py`.

/// Rows as `crate::row` reads them.
pub(crate) const ROWS: &str = "\
DoEmptyBody@@export void go() {
int x = 0;
do { ; } while (programIndex > 9);
x = 1;
do ; while (x < 1);
}@@step
step
step
step
step
@at 3:10 go depth 1 lanes 1111
at 4:1 go depth 1 lanes 1111
at 5:6 go depth 1 lanes 1111
at 6:1 go depth 1 lanes 1111
ended
$
DoWithoutEnd@--steps 3@export void go() { do ; while (true); }@@continue
reverse-continue
@step limit: at 1:25 go depth 1 lanes 1111
history end: at 1:25 go depth 1 lanes 1111
$
ContinueInDo@@export void go() {
int n = 0;
do {
n += 1;
if (programIndex == 0) continue;
n += 10;
} while (n < 2);
}@@step 3
step
step
step
step 3
step
print n
reverse-step 10
@at 5:24 go depth 1 lanes 1000
at 6:1 go depth 1 lanes 0111
at 7:3 go depth 1 lanes 1111
at 4:1 go depth 1 lanes 1000
at 7:3 go depth 1 lanes 1000
at 8:1 go depth 1 lanes 1111
n = 2 11 11 11
at 2:1 go depth 1 lanes 1111
$
ContinueWithoutUpdate@@export void go() {
int x = 0;
for (int i = 0; i < 2; ) {
i += 1;
if (programIndex < i) continue;
x += 10;
}
x += programIndex;
}@@step
step
step 3
step
step
step 3
step
step 2
step
print x
@at 3:6 go depth 1 lanes 1111
at 3:1 go depth 1 lanes 1111
at 5:23 go depth 1 lanes 1000
at 6:1 go depth 1 lanes 0111
at 3:1 go depth 1 lanes 1111
at 5:23 go depth 1 lanes 1100
at 6:1 go depth 1 lanes 0011
at 8:1 go depth 1 lanes 1111
at 9:1 go depth 1 lanes 1111
x = 0 11 22 23
$
BreakBeforeSibling@@export void go() {
int x = 0;
for (int i = 0; i < 2; i++) {
while (x < 9) {
x += 1;
if (programIndex > i) break;
x += 3;
}
while (x < 2) x += 5;
}
}@@step 6
step
step 10
step
step 2
step 5
step
step 2
step 3
print x
@at 6:23 go depth 1 lanes 0111
at 7:1 go depth 1 lanes 1000
at 9:1 go depth 1 lanes 1111
at 9:15 go depth 1 lanes 0111
at 3:24 go depth 1 lanes 1111
at 6:23 go depth 1 lanes 0011
at 7:1 go depth 1 lanes 0100
at 9:1 go depth 1 lanes 1111
at 11:1 go depth 1 lanes 1111
x = 12 10 7 7
$
ReturnInLoops@@int f(int k) {
for (int i = 0; ; i++) {
while (true) {
if (i >= k) return i * 10;
break;
}
}
}
export void go() {
int x = f(programIndex / 2);
}@@step 6
step
step 4
step
step
print x
@at 5:1 f depth 2 lanes 0011
at 2:19 f depth 2 lanes 0011
at 4:13 f depth 2 lanes 0011
at 8:1 f depth 2 lanes 1111
at 11:1 go depth 1 lanes 1111
x = 0 0 10 10
$
CallInForeach@@uniform int s = 0;
void count(int v) {
if (v & 1) return;
s += reduce_add(v);
}
export void go() {
foreach (i = 0 ... 6)
count(i);
}@@step 3
step
step
step
step
step 4
backtrace
step
step
print s
@at 3:1 count depth 2 lanes 1111
at 3:12 count depth 2 lanes 0101
at 4:1 count depth 2 lanes 1010
at 5:1 count depth 2 lanes 1111
at 7:1 go depth 1 lanes 1100
at 4:1 count depth 2 lanes 1000
at 4:1 count depth 2 lanes 1000
at 8:1 go depth 1 lanes 1100
at 5:1 count depth 2 lanes 1100
at 9:1 go depth 1 lanes 1111
s = 6
$
ActiveInForeach@@uniform int order = 0;
export void go() {
foreach (i = 1 ... 4) {
if (i == 2) continue;
foreach_active (k) {
order = order * 10 + k + 1;
}
}
}@@step
step 2
step
step
step 2
step
print k
step
print order
@at 3:1 go depth 1 lanes 1110
at 4:13 go depth 1 lanes 0100
at 5:1 go depth 1 lanes 1010
at 5:1 go depth 1 lanes 1000
at 5:1 go depth 1 lanes 0010
at 6:1 go depth 1 lanes 0010
k = 2
at 9:1 go depth 1 lanes 1111
order = 13
$
DepthOfFrames@@void r(uniform int n) {
if (n > 1) r(n - 1);
}
export void go() {
r(63);
}@@break 3
continue
print n
delete 1
finish
@breakpoint 1 at line 3
breakpoint 1: at 3:1 r depth 64 lanes 1111
n = 1
deleted 1
at 3:1 r depth 63 lanes 1111
$
PokesBetweenSteps@@export void go() {
    int x = programIndex * 3;
    x += 1;
}@@step
set var x[1] = 9
step
set var x[0] = -1
print x
reverse-step
print x
undo
print x
step
print x
reverse-continue
undo
@at 3:5 go depth 1 lanes 1111
x[1] = 9
at 4:1 go depth 1 lanes 1111
x[0] = -1
x = -1 10 7 10
at 3:5 go depth 1 lanes 1111
x = 0 9 6 9
undone poke: at 3:5 go depth 1 lanes 1111
x = 0 3 6 9
at 4:1 go depth 1 lanes 1111
x = 1 4 7 10
history end: at 2:5 go depth 1 lanes 1111
C3 NoHistory
$
WatchedElements@@uniform int a[4];
int v = 0;
export void go() {
foreach (i = 0 ... 4)
a[3 - i] = i;
v = programIndex;
a[2] = 1;
a[2] = 5;
}@@watch a[2]
watch v[0]
watch v[3]
watch a
watch a[4]
watch v[4]
watch v
continue
continue
print v[3]
delete 3
reverse-continue
continue
continue
info breakpoints
continue
@watch 1: a[2]
watch 2: v[0]
watch 3: v[3]
C2 NoSuchName
C8 OutOfRange
C8 OutOfRange
watch 4: v
watch 1: at 6:1 go depth 1 lanes 1111
watch 3: at 7:1 go depth 1 lanes 1111
v[3] = 3
deleted 3
watch 4: at 6:1 go depth 1 lanes 1111
watch 4: at 7:1 go depth 1 lanes 1111
watch 1: at 9:1 go depth 1 lanes 1111
1 watch a[2]
2 watch v[0]
4 watch v
ended
$
LimitAndBreakpoint@--steps 2@uniform int t = 0;
export void go() {
t += 1;
t += 1;
t += 1;
t += 1;
}@@break 5
continue
reverse-step 2
delete
continue
step 2
continue
@breakpoint 1 at line 5
breakpoint 1: at 5:1 go depth 1 lanes 1111
at 3:1 go depth 1 lanes 1111
deleted all
step limit: at 5:1 go depth 1 lanes 1111
at 7:1 go depth 1 lanes 1111
ended
$
ShadowedNames@@export void go(uniform int p) {
int x = 1;
int y = 2;
{
int x = 30;
for (uniform int y = 4; y < 5; y++) {
x += y;
}
y = x;
}
x = y;
}@p = 7@info locals
step 2
info locals
step
info locals
step 2
info locals
set var x = 7
step
step 2
info locals
step
info locals
step
print x
print p
@none
at 5:1 go depth 1 lanes 1111
x = 1 1 1 1
y = 2 2 2 2
at 6:6 go depth 1 lanes 1111
y = 2 2 2 2
x = 30 30 30 30
at 7:1 go depth 1 lanes 1111
x = 30 30 30 30
y = 4
x = 7 7 7 7
at 6:32 go depth 1 lanes 1111
at 9:1 go depth 1 lanes 1111
y = 2 2 2 2
x = 11 11 11 11
at 11:1 go depth 1 lanes 1111
x = 1 1 1 1
y = 11 11 11 11
at 12:1 go depth 1 lanes 1111
x = 11 11 11 11
p = 7
$
NextOverCalls@@int f(int k) {
return k + 1;
}
export void go() {
int x = f(1);
int y = f(2);
}@@step 2
next 2
reverse-next
print x
@at 3:1 f depth 2 lanes 1111
at 7:1 go depth 1 lanes 1111
at 6:1 go depth 1 lanes 1111
x = 2 2 2 2
$
StepUpToLimit@--steps 3@export void go() { for (;;) ; }@@step 5
@step limit: at 1:20 go depth 1 lanes 1111
$
";
