//! The order of faults, rounds, constants and types. Written by `tools/transcripts/write_tests.py`.

/// Rows as `crate::row` reads them.
pub(crate) const ROWS: &str = "\
LibraryTypes@@int64 v = -5u;
export void go() {
bool b = programIndex > 1;
int8 p = -5;
uint16 a = 0;
int r = clamp(p, a, b);
uint8 f = 255;
int g = shuffle(b, b, 7) + f;
}@@step 6
print r
print g
print v
@at 9:1 go depth 1 lanes 1111
r = 0 0 0 0
g = 256 256 256 256
v = 4294967291 4294967291 4294967291 4294967291
$
ManyOperators@@export void go() { int x = 1 + 1 + 1 + 1 + 1 + 1 + 1 + 1 + 1 + 1 + 1 + 1 + 1 + 1 + 1 + 1 + 1 + 1 + 1 + 1 + 1 + 1 + 1 + 1 + 1 + 1 + 1 + 1 + 1 + 1 + 1 + 1 + 1 + 1 + 1 + 1 + 1 + 1 + 1 + 1 + 1 + 1 + 1 + 1 + 1 + 1 + 1 + 1 + 1 + 1 + 1 + 1 + 1 + 1 + 1 + 1 + 1 + 1 + 1 + 1 + 1 + 1 + 1 + 1 + 1 + 1 + 1 + 1 + 1 + 1 + 1 + 1 + 1 + 1 + 1 + 1 + 1 + 1 + 1 + 1 + 1 + 1 + 1 + 1 + 1 + 1 + 1 + 1 + 1 + 1 + 1 + 1 + 1 + 1 + 1 + 1 + 1 + 1 + 1 + 1 + 1 + 1 + 1 + 1 + 1 + 1 + 1 + 1 + 1 + 1 + 1 + 1 + 1 + 1 + 1 + 1 + 1 + 1 + 1 + 1 + 1 + 1 + 1 + 1 + 1 + 1 + 1 + 1 + 1 + 1 + 1 + 1 + 1 + 1 + 1 + 1 + 1 + 1 + 1 + 1 + 1 + 1 + 1 + 1 + 1 + 1 + 1 + 1 + 1 + 1 + 1 + 1 + 1 + 1 + 1 + 1 + 1 + 1 + 1 + 1 + 1 + 1 + 1 + 1 + 1 + 1 + 1 + 1 + 1 + 1 + 1 + 1 + 1 + 1 + 1 + 1 + 1 + 1 + 1 + 1 + 1 + 1 + 1 + 1 + 1 + 1 + 1 + 1 + 1 + 1 + 1 + 1 + 1 + 1 + 1 + 1 + 1 + 1 + 1 + 1 + 1 + 1 + 1 + 1 + 1 + 1 + 1 + 1 + 1 + 1 + 1 + 1 + 1 + 1 + 1 + 1 + 1 + 1 + 1 + 1 + 1 + 1 + 1 + 1 + 1 + 1 + 1 + 1 + 1 + 1 + 1 + 1 + 1 + 1 + 1 + 1 + 1 + 1 + 1 + 1 + 1 + 1 + 1 + 1 + 1 + 1 + 1 + 1 + 1 + 1 + 1 + 1 + 1 + 1 + 1 + 1 + 1; }@@step
print x
@at 1:1055 go depth 1 lanes 1111
x = 257 257 257 257
$
Results@@int f(int k) {
if (k == 1) return 10;
if (k == 2) return 20;
}
uniform int g(int k) {
if (k > 1) return 5;
if (k < 1) return 7;
}
export void go() {
int x = f(programIndex);
uniform int y = g(programIndex);
if (programIndex > 2) x = f(1);
if (programIndex == 1) { uniform int z = g(1); y = z; }
}@@next
print x
next
print y
next 2
print x
next 2
print z
next
print y
@at 11:1 go depth 1 lanes 1111
x = 0 10 20 0
at 12:1 go depth 1 lanes 1111
y = 7
at 13:1 go depth 1 lanes 1111
x = 0 10 20 10
at 13:48 go depth 1 lanes 0100
z = 0
at 14:1 go depth 1 lanes 1111
y = 0
$
FaultOrder@@uniform int a[2];
export void go() { a[programIndex * 9] = 1 / (programIndex - 2); }@@continue
print a
@fault F1 DivideByZero lane 2: at 2:20 go depth 1 lanes 1111
a = 0 0
$
FaultOrder@@uniform int a[2];
export void go() { a[programIndex * 9] /= 0; }@@continue
print a
@fault F2 Index lane 1: at 2:20 go depth 1 lanes 1111
a = 0 0
$
FaultOrder@@uniform int a[2];
export void go() { a[a[programIndex] / 0] = a[7]; }@@continue
print a
@fault F2 Index lane 2: at 2:20 go depth 1 lanes 1111
a = 0 0
$
FaultOrder@@uniform int a[2];
export void go() { bool b = programIndex > 0 && a[programIndex - 1] / 0 > 1; }@@continue
print a
@fault F2 Index lane 3: at 2:20 go depth 1 lanes 1111
a = 0 0
$
FaultOrder@@uniform int a[2];
export void go() { if (programIndex > 1) a[1 / a[0]] = 1; }@@continue
print a
@fault F1 DivideByZero lane 2: at 2:42 go depth 1 lanes 0011
a = 0 0
$
FaultOrder@@uniform int a[2];
export void go() { if (programIndex > 1) packed_store_active(&a[1], 5); }@@continue
print a
@fault F2 Index lane 3: at 2:42 go depth 1 lanes 0011
a = 0 0
$
FaultOrder@@uniform int a[2];
export void go() { packed_store_active(&a[3], 1 / 0); }@@continue
print a
@fault F2 Index lane 0: at 2:20 go depth 1 lanes 1111
a = 0 0
$
FaultOrder@@uniform int a[2];
export void go() { packed_store_active(&a[2], 1 / 0); }@@continue
print a
@fault F1 DivideByZero lane 0: at 2:20 go depth 1 lanes 1111
a = 0 0
$
FaultOrder@@uniform int a[2];
export void go() { int x = shuffle(programIndex, programIndex * 2); }@@continue
print a
@fault F3 LaneIndex lane 2: at 2:20 go depth 1 lanes 1111
a = 0 0
$
FaultOrder@@uniform int a[2];
export void go() { assert(programIndex != 3 && 1 / (programIndex - 2) != 5); }@@continue
print a
@fault F1 DivideByZero lane 2: at 2:20 go depth 1 lanes 1111
a = 0 0
$
ForeachRows@@uniform int a[10];
uniform int n = 0;
export void go() {
foreach (r = 0 ... 2, c = -1 ... 4) {
a[r * 5 + c + 1] = n;
n += 1;
}
}@@step
step 3
step
print r
print c
step 2
continue
print a
@at 4:1 go depth 1 lanes 1111
at 4:1 go depth 1 lanes 1000
at 5:1 go depth 1 lanes 1000
r = 0 0 0 0
c = 3 0 0 0
at 4:1 go depth 1 lanes 1111
ended
a = 0 0 0 0 1 2 2 2 2 3
$
TilesOfThree@@uniform int a[6];
uniform int n = 0;
export void go() {
foreach_tiled (p = 0 ... 2, r = 0 ... 1, c = 0 ... 3) {
a[p * 3 + c] = n;
n += 1;
}
}@@step
step 3
step 3
step 3
step
print p
step 2
print a
@at 4:1 go depth 1 lanes 1100
at 4:1 go depth 1 lanes 1000
at 4:1 go depth 1 lanes 1100
at 4:1 go depth 1 lanes 1000
at 5:1 go depth 1 lanes 1000
p = 1 0 0 0
at 8:1 go depth 1 lanes 1111
a = 0 0 1 2 2 3
$
TilesOfSixteen@--width 16@uniform int a[5];
export void go() {
foreach_tiled (r = 0 ... 5, c = 0 ... 3)
a[r] = programIndex;
}@@step
step 2
step 2
print a
@at 3:1 go depth 1 lanes 1110111011101110
at 3:1 go depth 1 lanes 1110000000000000
at 5:1 go depth 1 lanes 1111111111111111
a = 2 6 10 14 2
$
ConstantPokes@@const uniform int c = 3;
const uniform int k[2];
export void go(const uniform int p, const uniform int b[]) {
const int l = 4;
}@p = 1
b = 1@set var c = 1
set var c[0] = 1
set var k[1] = 1
set var k[2] = 1
set var k = 1
set var p = 2
set var b[0] = 1
set var b = 1
set var l = 1
step
set var l[0] = 1
set var l[4] = 1
set var l = 3000000000
undo
@C9 Constant
C2 NoSuchName
C9 Constant
C8 OutOfRange
C2 NoSuchName
C9 Constant
C9 Constant
C2 NoSuchName
C2 NoSuchName
at 5:1 go depth 1 lanes 1111
C9 Constant
C8 OutOfRange
C8 OutOfRange
undone step: at 4:1 go depth 1 lanes 1111
$
IndexVariables@@export void go() {
int n = 5;
foreach (i = 0 ... 2) {
n = i;
}
foreach_active (k)
foreach_unique (v in (int8)n) ;
}@@step 2
info locals
step
info locals
step
info locals
step 3
info locals
step
step 2
print k
print v
@at 3:1 go depth 1 lanes 1100
n = 5 5 5 5
at 4:1 go depth 1 lanes 1100
n = 5 5 5 5
i = 0 1 0 0
at 6:1 go depth 1 lanes 1111
n = 0 1 5 5
at 7:1 go depth 1 lanes 1000
n = 0 1 5 5
k = 0
at 6:1 go depth 1 lanes 0100
at 7:1 go depth 1 lanes 0100
k = 1
C2 NoSuchName
$
InactiveLanes@@export void go() {
int v = programIndex + 5;
int x = 0;
if (programIndex & 1) {
x = broadcast(9, 0);
x = broadcast(9, 1);
x = shift(v, 2);
x = shift(v, -1);
x = shift(v, 2147483647);
x = rotate(v, -2);
x = rotate(v, 5);
x = insert(v, 0, 3);
x = shuffle(v, v, 7);
x = extract(v, 2);
}
}@@step 4
print x
step
print x
step
print x
step
print x
step
print x
step
print x
step
print x
step
print x
step
print x
step
print x
@at 6:1 go depth 1 lanes 0101
x = 0 0 0 0
at 7:1 go depth 1 lanes 0101
x = 0 9 0 9
at 8:1 go depth 1 lanes 0101
x = 0 8 0 0
at 9:1 go depth 1 lanes 0101
x = 0 0 0 0
at 10:1 go depth 1 lanes 0101
x = 0 0 0 0
at 11:1 go depth 1 lanes 0101
x = 0 8 0 6
at 12:1 go depth 1 lanes 0101
x = 0 0 0 0
at 13:1 go depth 1 lanes 0101
x = 0 6 0 8
at 14:1 go depth 1 lanes 0101
x = 0 8 0 8
at 16:1 go depth 1 lanes 1111
x = 0 0 0 0
$
NarrowTypes@@export void go() {
uniform int16 a = reduce_add((int8)(programIndex + 125));
uniform uint64 b = reduce_add((uint32)4294967295);
int8 c = exclusive_scan_add((int8)60);
uint8 d = exclusive_scan_and((uint8)(7 << programIndex));
int8 e = (int8)(-128) >> 1;
uint16 f = (uint16)65535 >> 17;
int8 g = -(int8)(-128);
uint8 h = ~(uint8)1;
int i = -true;
bool j = 2;
int8 k = 200 % 7 - 3 / 2;
}@@step 11
info locals
@at 13:1 go depth 1 lanes 1111
a = 250
b = 17179869180
c = 0 60 120 -76
d = 255 7 6 4
e = -64 -64 -64 -64
f = 32767 32767 32767 32767
g = -128 -128 -128 -128
h = 254 254 254 254
i = -1 -1 -1 -1
j = true true true true
k = 3 3 3 3
$
Entry@@void a() { }
export void b() { int x = 1; }
export void c() { }@@step
@at 2:30 b depth 1 lanes 1111
$
Entry@--entry b@void a() { }
export void b() { int x = 1; }
export void c() { }@@backtrace
@at 2:19 b depth 1 lanes 1111
$
Entry@--entry c@void a() { }
export void b() { int x = 1; }
export void c() { }@@backtrace
@at 3:19 c depth 1 lanes 1111
$
Entry@--entry a@void a() { }
export void b() { int x = 1; }
export void c() { }@@step
@entry: E1 NoEntry
$
Entry@--entry d@void a() { }
export void b() { int x = 1; }
export void c() { }@@step
@entry: E1 NoEntry
$
";
