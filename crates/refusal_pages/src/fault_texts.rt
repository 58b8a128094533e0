//! The texts of the faults of a running program, as `tools/refusal_pages` writes them from docs/REFUSALS.md.

pub(crate) fn divide_by_zero_text() -> &'static [u8] {
    b"\
The right side of `/` or `%` is 0 in this lane.

    export void go() {
        int x = programIndex - 1;
        int y = 6 / x;
    }

    > continue
    fault F1 DivideByZero lane 1: at 3:5 go depth 1 lanes 1111
    > print x
    x = -1 0 1 2  (lane 1 has 0)

Cure: divide where it can be done, by an `if` or by `x == 0 ? 0 : 6 / x`,
which divides for the other lanes alone. `select` does not help: it evaluates
all its arguments. In ISPC the division is undefined.
"
}

pub(crate) fn index_text() -> &'static [u8] {
    b"\
An index of this lane is outside the array, or outside the part of it that was
passed; or a packed call has come to the array's end.

    uniform int a[4];
    export void go() {
        int sum = a[programIndex] + a[programIndex + 1];
    }

    > continue
    fault F2 Index lane 3: at 3:5 go depth 1 lanes 1111  (there is no element 4)
    > print a[4]
    C8 OutOfRange

Cure: keep the lanes out that have no element, by an `if`, or by the bounds of
a `foreach`. The part `&a[e]` begins at e, so its indices are smaller by e. An
array parameter of the entry has as many elements as the input gave it.
"
}

pub(crate) fn lane_index_text() -> &'static [u8] {
    b"\
A call across lanes names a lane that is not there: less than 0, or not below
the number of lanes.

    export void go() {
        int x = shuffle(programIndex, programIndex + 1);
    }

    > continue
    fault F3 LaneIndex lane 3: at 2:5 go depth 1 lanes 1111  (lane 3 asks for lane 4 of 4)

Cure: take the number modulo the lanes, `(programIndex + 1) % programCount`,
or call `rotate` or `shift`, which take any number.
"
}

pub(crate) fn assert_text() -> &'static [u8] {
    b"\
The condition of an `assert` is false in this lane.

    export void go() {
        int x = 2 - programIndex;
        assert(x >= 0);
    }

    > continue
    fault F4 Assert lane 3: at 3:5 go depth 1 lanes 1111
    > print x[3]
    x[3] = -1
    > reverse-step
    at 2:5 go depth 1 lanes 1111  (here it was computed)

Cure: what is asserted does not hold, so look for the statement that made it
so: `watch` a variable of the file and `reverse-continue`, or go back by
`reverse-next`. Lanes that do not reach the `assert` are not asked.
"
}

pub(crate) fn call_depth_text() -> &'static [u8] {
    b"\
A function is called while 64 calls are not left yet, the entry being one of
them.

    int down(int n) {
        int rest = down(n - 1);
        return rest;
    }
    export void go() {
        int x = down(3);
    }

    > continue
    fault F5 CallDepth lane 0: at 2:5 down depth 64 lanes 1111
    > print n
    n = -59 -59 -59 -59  (it was never tested)

Cure: end the recursion by a test, as `if (n < 1) return 0;`, or write it as a
loop, with an array for what each call has to keep. No option raises the 64.
`backtrace` shows the calls, `reverse-finish` goes back to where this one was
made.
"
}
