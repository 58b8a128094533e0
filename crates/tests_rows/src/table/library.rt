//! The calls of the library. Written by `tools/transcripts/write_tests.py`.

/// Rows as `crate::row` reads them.
pub(crate) const ROWS: &str = "\
LibraryReductions@@uniform int m;
export void go() {
int v = programIndex == 0 ? 5 : programIndex == 1 ? -2 : programIndex == 2 ? 7 : 3;
int w = programIndex + 1;
int p = programIndex == 1 ? 3 : 0;
int q = programIndex == 1 ? 7 : 1;
if (programIndex & 1) {
int64 r0 = reduce_add(v);
int64 r1 = reduce_min(v);
int64 r2 = reduce_max(v);
int64 r3 = reduce_equal(v);
;
w = 0;
}
}@@step 5
step
print r0
step
print r1
step
print r2
step
print r3
@at 8:1 go depth 1 lanes 0101
at 9:1 go depth 1 lanes 0101
r0 = 0 1 0 1
at 10:1 go depth 1 lanes 0101
r1 = 0 -2 0 -2
at 11:1 go depth 1 lanes 0101
r2 = 0 3 0 3
at 13:1 go depth 1 lanes 0101
r3 = 0 0 0 0
$
LibraryTests@@uniform int m;
export void go() {
int v = programIndex == 0 ? 5 : programIndex == 1 ? -2 : programIndex == 2 ? 7 : 3;
int w = programIndex + 1;
int p = programIndex == 1 ? 3 : 0;
int q = programIndex == 1 ? 7 : 1;
if (programIndex & 1) {
int64 r4 = any(v > 3);
int64 r5 = none(v > 3);
int64 r6 = all(v < 5);
int64 r7 = broadcast(v, 0);
;
w = 0;
}
}@@step 5
step
print r4
step
print r5
step
print r6
step
print r7
@at 8:1 go depth 1 lanes 0101
at 9:1 go depth 1 lanes 0101
r4 = 0 0 0 0
at 10:1 go depth 1 lanes 0101
r5 = 0 1 0 1
at 11:1 go depth 1 lanes 0101
r6 = 0 1 0 1
at 13:1 go depth 1 lanes 0101
r7 = 0 0 0 0
$
LibraryLanes@@uniform int m;
export void go() {
int v = programIndex == 0 ? 5 : programIndex == 1 ? -2 : programIndex == 2 ? 7 : 3;
int w = programIndex + 1;
int p = programIndex == 1 ? 3 : 0;
int q = programIndex == 1 ? 7 : 1;
if (programIndex & 1) {
int64 r8 = extract(v, 2);
int64 r9 = insert(v, 3, 9);
int64 r10 = lanemask();
int64 r11 = packmask(v > 0);
;
w = 0;
}
}@@step 5
step
print r8
step
print r9
step
print r10
step
print r11
@at 8:1 go depth 1 lanes 0101
at 9:1 go depth 1 lanes 0101
r8 = 0 0 0 0
at 10:1 go depth 1 lanes 0101
r9 = 0 -2 0 9
at 11:1 go depth 1 lanes 0101
r10 = 0 10 0 10
at 13:1 go depth 1 lanes 0101
r11 = 0 8 0 8
$
LibraryMasks@@uniform int m;
export void go() {
int v = programIndex == 0 ? 5 : programIndex == 1 ? -2 : programIndex == 2 ? 7 : 3;
int w = programIndex + 1;
int p = programIndex == 1 ? 3 : 0;
int q = programIndex == 1 ? 7 : 1;
if (programIndex & 1) {
int64 r12 = popcnt(v > 0);
int64 r13 = reduce_add((int16)32767) << 16;
int64 r14 = rotate(v, 2);
int64 r15 = shift(v, -2);
;
w = 0;
}
}@@step 5
step
print r12
step
print r13
step
print r14
step
print r15
@at 8:1 go depth 1 lanes 0101
at 9:1 go depth 1 lanes 0101
r12 = 0 1 0 1
at 10:1 go depth 1 lanes 0101
r13 = 0 -131072 0 -131072
at 11:1 go depth 1 lanes 0101
r14 = 0 3 0 -2
at 13:1 go depth 1 lanes 0101
r15 = 0 0 0 -2
$
LibraryShuffles@@uniform int m;
export void go() {
int v = programIndex == 0 ? 5 : programIndex == 1 ? -2 : programIndex == 2 ? 7 : 3;
int w = programIndex + 1;
int p = programIndex == 1 ? 3 : 0;
int q = programIndex == 1 ? 7 : 1;
if (programIndex & 1) {
int64 r16 = shuffle(v, p);
int64 r17 = shuffle(v, w, q);
int64 r18 = exclusive_scan_add(v);
int64 r19 = exclusive_scan_and(v);
;
w = 0;
}
}@@step 5
step
print r16
step
print r17
step
print r18
step
print r19
@at 8:1 go depth 1 lanes 0101
at 9:1 go depth 1 lanes 0101
r16 = 0 3 0 0
at 10:1 go depth 1 lanes 0101
r17 = 0 4 0 -2
at 11:1 go depth 1 lanes 0101
r18 = 0 0 0 -2
at 13:1 go depth 1 lanes 0101
r19 = 0 -1 0 -2
$
LibraryScans@@uniform int m;
export void go() {
int v = programIndex == 0 ? 5 : programIndex == 1 ? -2 : programIndex == 2 ? 7 : 3;
int w = programIndex + 1;
int p = programIndex == 1 ? 3 : 0;
int q = programIndex == 1 ? 7 : 1;
if (programIndex & 1) {
int64 r20 = exclusive_scan_or(v);
int64 r21 = popcnt(v);
int64 r22 = clamp(v, 0, 2);
int64 r23 = abs(v);
;
w = 0;
}
}@@step 5
step
print r20
step
print r21
step
print r22
step
print r23
@at 8:1 go depth 1 lanes 0101
at 9:1 go depth 1 lanes 0101
r20 = 0 0 0 -2
at 10:1 go depth 1 lanes 0101
r21 = 0 31 0 2
at 11:1 go depth 1 lanes 0101
r22 = 0 0 0 2
at 13:1 go depth 1 lanes 0101
r23 = 0 2 0 3
$
LibraryOneLane@@uniform int m;
export void go() {
int v = programIndex == 0 ? 5 : programIndex == 1 ? -2 : programIndex == 2 ? 7 : 3;
int w = programIndex + 1;
int p = programIndex == 1 ? 3 : 0;
int q = programIndex == 1 ? 7 : 1;
if (programIndex & 1) {
int64 r24 = min(v, 0);
;
w = 0;
}
}@@step 5
step
print r24
@at 8:1 go depth 1 lanes 0101
at 10:1 go depth 1 lanes 0101
r24 = 0 -2 0 0
$
";
