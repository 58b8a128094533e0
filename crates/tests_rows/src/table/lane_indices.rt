//! Lanes that are not there, by each set of lanes. Written by `tools/transcripts/write_tests.py`.

/// Rows as `crate::row` reads them.
pub(crate) const ROWS: &str = "\
LaneIndexFaults@@export void go() { int x = 0; if ((1 >> programIndex) & 1) x = shuffle(x, programIndex == 0 ? 4 : 0); }@@continue
undo
@fault F3 LaneIndex lane 0: at 1:60 go depth 1 lanes 1000
undone step: at 1:31 go depth 1 lanes 1111
$
LaneIndexFaults@@export void go() { int x = 0; if ((1 >> programIndex) & 1) x = shuffle(x, programIndex == 1 ? 4 : 0); }@@continue
@ended
$
LaneIndexFaults@@export void go() { int x = 0; if ((1 >> programIndex) & 1) x = shuffle(x, programIndex == 2 ? 4 : 0); }@@continue
@ended
$
LaneIndexFaults@@export void go() { int x = 0; if ((1 >> programIndex) & 1) x = shuffle(x, programIndex == 3 ? 4 : 0); }@@continue
@ended
$
LaneIndexFaults@@export void go() { int x = 0; if ((2 >> programIndex) & 1) x = shuffle(x, programIndex == 0 ? 4 : 0); }@@continue
@ended
$
LaneIndexFaults@@export void go() { int x = 0; if ((2 >> programIndex) & 1) x = shuffle(x, programIndex == 1 ? 4 : 0); }@@continue
undo
@fault F3 LaneIndex lane 1: at 1:60 go depth 1 lanes 0100
undone step: at 1:31 go depth 1 lanes 1111
$
LaneIndexFaults@@export void go() { int x = 0; if ((2 >> programIndex) & 1) x = shuffle(x, programIndex == 2 ? 4 : 0); }@@continue
@ended
$
LaneIndexFaults@@export void go() { int x = 0; if ((2 >> programIndex) & 1) x = shuffle(x, programIndex == 3 ? 4 : 0); }@@continue
@ended
$
LaneIndexFaults@@export void go() { int x = 0; if ((3 >> programIndex) & 1) x = shuffle(x, programIndex == 0 ? 4 : 0); }@@continue
undo
@fault F3 LaneIndex lane 0: at 1:60 go depth 1 lanes 1100
undone step: at 1:31 go depth 1 lanes 1111
$
LaneIndexFaults@@export void go() { int x = 0; if ((3 >> programIndex) & 1) x = shuffle(x, programIndex == 1 ? 4 : 0); }@@continue
undo
@fault F3 LaneIndex lane 1: at 1:60 go depth 1 lanes 1100
undone step: at 1:31 go depth 1 lanes 1111
$
LaneIndexFaults@@export void go() { int x = 0; if ((3 >> programIndex) & 1) x = shuffle(x, programIndex == 2 ? 4 : 0); }@@continue
@ended
$
LaneIndexFaults@@export void go() { int x = 0; if ((3 >> programIndex) & 1) x = shuffle(x, programIndex == 3 ? 4 : 0); }@@continue
@ended
$
LaneIndexFaults@@export void go() { int x = 0; if ((4 >> programIndex) & 1) x = shuffle(x, programIndex == 0 ? 4 : 0); }@@continue
@ended
$
LaneIndexFaults@@export void go() { int x = 0; if ((4 >> programIndex) & 1) x = shuffle(x, programIndex == 1 ? 4 : 0); }@@continue
@ended
$
LaneIndexFaults@@export void go() { int x = 0; if ((4 >> programIndex) & 1) x = shuffle(x, programIndex == 2 ? 4 : 0); }@@continue
undo
@fault F3 LaneIndex lane 2: at 1:60 go depth 1 lanes 0010
undone step: at 1:31 go depth 1 lanes 1111
$
LaneIndexFaults@@export void go() { int x = 0; if ((4 >> programIndex) & 1) x = shuffle(x, programIndex == 3 ? 4 : 0); }@@continue
@ended
$
LaneIndexFaults@@export void go() { int x = 0; if ((5 >> programIndex) & 1) x = shuffle(x, programIndex == 0 ? 4 : 0); }@@continue
undo
@fault F3 LaneIndex lane 0: at 1:60 go depth 1 lanes 1010
undone step: at 1:31 go depth 1 lanes 1111
$
LaneIndexFaults@@export void go() { int x = 0; if ((5 >> programIndex) & 1) x = shuffle(x, programIndex == 1 ? 4 : 0); }@@continue
@ended
$
LaneIndexFaults@@export void go() { int x = 0; if ((5 >> programIndex) & 1) x = shuffle(x, programIndex == 2 ? 4 : 0); }@@continue
undo
@fault F3 LaneIndex lane 2: at 1:60 go depth 1 lanes 1010
undone step: at 1:31 go depth 1 lanes 1111
$
LaneIndexFaults@@export void go() { int x = 0; if ((5 >> programIndex) & 1) x = shuffle(x, programIndex == 3 ? 4 : 0); }@@continue
@ended
$
LaneIndexFaults@@export void go() { int x = 0; if ((6 >> programIndex) & 1) x = shuffle(x, programIndex == 0 ? 4 : 0); }@@continue
@ended
$
LaneIndexFaults@@export void go() { int x = 0; if ((6 >> programIndex) & 1) x = shuffle(x, programIndex == 1 ? 4 : 0); }@@continue
undo
@fault F3 LaneIndex lane 1: at 1:60 go depth 1 lanes 0110
undone step: at 1:31 go depth 1 lanes 1111
$
LaneIndexFaults@@export void go() { int x = 0; if ((6 >> programIndex) & 1) x = shuffle(x, programIndex == 2 ? 4 : 0); }@@continue
undo
@fault F3 LaneIndex lane 2: at 1:60 go depth 1 lanes 0110
undone step: at 1:31 go depth 1 lanes 1111
$
LaneIndexFaults@@export void go() { int x = 0; if ((6 >> programIndex) & 1) x = shuffle(x, programIndex == 3 ? 4 : 0); }@@continue
@ended
$
LaneIndexFaults@@export void go() { int x = 0; if ((7 >> programIndex) & 1) x = shuffle(x, programIndex == 0 ? 4 : 0); }@@continue
undo
@fault F3 LaneIndex lane 0: at 1:60 go depth 1 lanes 1110
undone step: at 1:31 go depth 1 lanes 1111
$
LaneIndexFaults@@export void go() { int x = 0; if ((7 >> programIndex) & 1) x = shuffle(x, programIndex == 1 ? 4 : 0); }@@continue
undo
@fault F3 LaneIndex lane 1: at 1:60 go depth 1 lanes 1110
undone step: at 1:31 go depth 1 lanes 1111
$
LaneIndexFaults@@export void go() { int x = 0; if ((7 >> programIndex) & 1) x = shuffle(x, programIndex == 2 ? 4 : 0); }@@continue
undo
@fault F3 LaneIndex lane 2: at 1:60 go depth 1 lanes 1110
undone step: at 1:31 go depth 1 lanes 1111
$
LaneIndexFaults@@export void go() { int x = 0; if ((7 >> programIndex) & 1) x = shuffle(x, programIndex == 3 ? 4 : 0); }@@continue
@ended
$
LaneIndexFaults@@export void go() { int x = 0; if ((8 >> programIndex) & 1) x = shuffle(x, programIndex == 0 ? 4 : 0); }@@continue
@ended
$
LaneIndexFaults@@export void go() { int x = 0; if ((8 >> programIndex) & 1) x = shuffle(x, programIndex == 1 ? 4 : 0); }@@continue
@ended
$
LaneIndexFaults@@export void go() { int x = 0; if ((8 >> programIndex) & 1) x = shuffle(x, programIndex == 2 ? 4 : 0); }@@continue
@ended
$
LaneIndexFaults@@export void go() { int x = 0; if ((8 >> programIndex) & 1) x = shuffle(x, programIndex == 3 ? 4 : 0); }@@continue
undo
@fault F3 LaneIndex lane 3: at 1:60 go depth 1 lanes 0001
undone step: at 1:31 go depth 1 lanes 1111
$
LaneIndexFaults@@export void go() { int x = 0; if ((9 >> programIndex) & 1) x = shuffle(x, programIndex == 0 ? 4 : 0); }@@continue
undo
@fault F3 LaneIndex lane 0: at 1:60 go depth 1 lanes 1001
undone step: at 1:31 go depth 1 lanes 1111
$
LaneIndexFaults@@export void go() { int x = 0; if ((9 >> programIndex) & 1) x = shuffle(x, programIndex == 1 ? 4 : 0); }@@continue
@ended
$
LaneIndexFaults@@export void go() { int x = 0; if ((9 >> programIndex) & 1) x = shuffle(x, programIndex == 2 ? 4 : 0); }@@continue
@ended
$
LaneIndexFaults@@export void go() { int x = 0; if ((9 >> programIndex) & 1) x = shuffle(x, programIndex == 3 ? 4 : 0); }@@continue
undo
@fault F3 LaneIndex lane 3: at 1:60 go depth 1 lanes 1001
undone step: at 1:31 go depth 1 lanes 1111
$
LaneIndexFaults@@export void go() { int x = 0; if ((10 >> programIndex) & 1) x = shuffle(x, programIndex == 0 ? 4 : 0); }@@continue
@ended
$
LaneIndexFaults@@export void go() { int x = 0; if ((10 >> programIndex) & 1) x = shuffle(x, programIndex == 1 ? 4 : 0); }@@continue
undo
@fault F3 LaneIndex lane 1: at 1:61 go depth 1 lanes 0101
undone step: at 1:31 go depth 1 lanes 1111
$
LaneIndexFaults@@export void go() { int x = 0; if ((10 >> programIndex) & 1) x = shuffle(x, programIndex == 2 ? 4 : 0); }@@continue
@ended
$
LaneIndexFaults@@export void go() { int x = 0; if ((10 >> programIndex) & 1) x = shuffle(x, programIndex == 3 ? 4 : 0); }@@continue
undo
@fault F3 LaneIndex lane 3: at 1:61 go depth 1 lanes 0101
undone step: at 1:31 go depth 1 lanes 1111
$
LaneIndexFaults@@export void go() { int x = 0; if ((11 >> programIndex) & 1) x = shuffle(x, programIndex == 0 ? 4 : 0); }@@continue
undo
@fault F3 LaneIndex lane 0: at 1:61 go depth 1 lanes 1101
undone step: at 1:31 go depth 1 lanes 1111
$
LaneIndexFaults@@export void go() { int x = 0; if ((11 >> programIndex) & 1) x = shuffle(x, programIndex == 1 ? 4 : 0); }@@continue
undo
@fault F3 LaneIndex lane 1: at 1:61 go depth 1 lanes 1101
undone step: at 1:31 go depth 1 lanes 1111
$
LaneIndexFaults@@export void go() { int x = 0; if ((11 >> programIndex) & 1) x = shuffle(x, programIndex == 2 ? 4 : 0); }@@continue
@ended
$
LaneIndexFaults@@export void go() { int x = 0; if ((11 >> programIndex) & 1) x = shuffle(x, programIndex == 3 ? 4 : 0); }@@continue
undo
@fault F3 LaneIndex lane 3: at 1:61 go depth 1 lanes 1101
undone step: at 1:31 go depth 1 lanes 1111
$
LaneIndexFaults@@export void go() { int x = 0; if ((12 >> programIndex) & 1) x = shuffle(x, programIndex == 0 ? 4 : 0); }@@continue
@ended
$
LaneIndexFaults@@export void go() { int x = 0; if ((12 >> programIndex) & 1) x = shuffle(x, programIndex == 1 ? 4 : 0); }@@continue
@ended
$
LaneIndexFaults@@export void go() { int x = 0; if ((12 >> programIndex) & 1) x = shuffle(x, programIndex == 2 ? 4 : 0); }@@continue
undo
@fault F3 LaneIndex lane 2: at 1:61 go depth 1 lanes 0011
undone step: at 1:31 go depth 1 lanes 1111
$
LaneIndexFaults@@export void go() { int x = 0; if ((12 >> programIndex) & 1) x = shuffle(x, programIndex == 3 ? 4 : 0); }@@continue
undo
@fault F3 LaneIndex lane 3: at 1:61 go depth 1 lanes 0011
undone step: at 1:31 go depth 1 lanes 1111
$
LaneIndexFaults@@export void go() { int x = 0; if ((13 >> programIndex) & 1) x = shuffle(x, programIndex == 0 ? 4 : 0); }@@continue
undo
@fault F3 LaneIndex lane 0: at 1:61 go depth 1 lanes 1011
undone step: at 1:31 go depth 1 lanes 1111
$
LaneIndexFaults@@export void go() { int x = 0; if ((13 >> programIndex) & 1) x = shuffle(x, programIndex == 1 ? 4 : 0); }@@continue
@ended
$
LaneIndexFaults@@export void go() { int x = 0; if ((13 >> programIndex) & 1) x = shuffle(x, programIndex == 2 ? 4 : 0); }@@continue
undo
@fault F3 LaneIndex lane 2: at 1:61 go depth 1 lanes 1011
undone step: at 1:31 go depth 1 lanes 1111
$
LaneIndexFaults@@export void go() { int x = 0; if ((13 >> programIndex) & 1) x = shuffle(x, programIndex == 3 ? 4 : 0); }@@continue
undo
@fault F3 LaneIndex lane 3: at 1:61 go depth 1 lanes 1011
undone step: at 1:31 go depth 1 lanes 1111
$
LaneIndexFaults@@export void go() { int x = 0; if ((14 >> programIndex) & 1) x = shuffle(x, programIndex == 0 ? 4 : 0); }@@continue
@ended
$
LaneIndexFaults@@export void go() { int x = 0; if ((14 >> programIndex) & 1) x = shuffle(x, programIndex == 1 ? 4 : 0); }@@continue
undo
@fault F3 LaneIndex lane 1: at 1:61 go depth 1 lanes 0111
undone step: at 1:31 go depth 1 lanes 1111
$
LaneIndexFaults@@export void go() { int x = 0; if ((14 >> programIndex) & 1) x = shuffle(x, programIndex == 2 ? 4 : 0); }@@continue
undo
@fault F3 LaneIndex lane 2: at 1:61 go depth 1 lanes 0111
undone step: at 1:31 go depth 1 lanes 1111
$
LaneIndexFaults@@export void go() { int x = 0; if ((14 >> programIndex) & 1) x = shuffle(x, programIndex == 3 ? 4 : 0); }@@continue
undo
@fault F3 LaneIndex lane 3: at 1:61 go depth 1 lanes 0111
undone step: at 1:31 go depth 1 lanes 1111
$
LaneIndexFaults@@export void go() { int x = 0; if ((15 >> programIndex) & 1) x = shuffle(x, programIndex == 0 ? 4 : 0); }@@continue
undo
@fault F3 LaneIndex lane 0: at 1:61 go depth 1 lanes 1111
undone step: at 1:31 go depth 1 lanes 1111
$
LaneIndexFaults@@export void go() { int x = 0; if ((15 >> programIndex) & 1) x = shuffle(x, programIndex == 1 ? 4 : 0); }@@continue
undo
@fault F3 LaneIndex lane 1: at 1:61 go depth 1 lanes 1111
undone step: at 1:31 go depth 1 lanes 1111
$
LaneIndexFaults@@export void go() { int x = 0; if ((15 >> programIndex) & 1) x = shuffle(x, programIndex == 2 ? 4 : 0); }@@continue
undo
@fault F3 LaneIndex lane 2: at 1:61 go depth 1 lanes 1111
undone step: at 1:31 go depth 1 lanes 1111
$
LaneIndexFaults@@export void go() { int x = 0; if ((15 >> programIndex) & 1) x = shuffle(x, programIndex == 3 ? 4 : 0); }@@continue
undo
@fault F3 LaneIndex lane 3: at 1:61 go depth 1 lanes 1111
undone step: at 1:31 go depth 1 lanes 1111
$
";
