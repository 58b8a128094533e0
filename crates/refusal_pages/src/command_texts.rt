//! The texts of the refusals of commands, as `tools/refusal_pages` writes them from docs/REFUSALS.md.

pub(crate) fn bad_command_text() -> &'static [u8] {
    b"\
The line is none of the commands, or has more than 256 bytes.

    export void go() {
        int x = 3;
    }

    > step
    at 3:1 go depth 1 lanes 1111
    > print x + 1
    C1 BadCommand  (a name, an element or a lane, and no expression)
    > list
    C1 BadCommand
    > step 0
    C1 BadCommand  (numbers begin at 1)

Cure: docs/COMMANDS.md has all commands, their short forms, and what of GDB is
not there. No blank stands before a command, and none within a value.
"
}

pub(crate) fn no_such_name_text() -> &'static [u8] {
    b"\
No variable of this name can be seen here, or it cannot be named in this way.

    export void go() {
        uniform int u = 3;
        int x = 4;
    }

    > print x
    C2 NoSuchName  (x is not declared before its declaration is done)
    > step 2
    at 4:1 go depth 1 lanes 1111
    > print u[0]
    C2 NoSuchName  (a uniform value has no lanes)
    > watch x
    C2 NoSuchName  (a watch is on a variable of the file)
    > continue
    ended
    > print x
    C2 NoSuchName  (the program has ended, so no function has variables any more)

Cure: `info locals` shows what is in scope, and `backtrace` in which function.
The variables of a calling function are not seen from the called one: `finish`
or `reverse-finish` goes there. An array is set and watched element by
element. Where the program has ended, `reverse-step` goes back to its last
step, and there they are again.

At the prompt of `rinddecade debug` `watch` takes variables of functions too,
while their frame is there, and `up` selects the frame of the caller, whose
variables are seen then.
"
}

pub(crate) fn no_history_text() -> &'static [u8] {
    b"\
There is nothing to take back: the run is at its beginning, or at the oldest
state that is kept.

    export void go() {
        int x = 1;
        x = 2;
        x = 3;
    }

    $ ispc_cli go.ispc --history 2

    > step 3
    at 5:1 go depth 1 lanes 1111
    > reverse-step 2
    at 3:5 go depth 1 lanes 1111
    > reverse-step
    C3 NoHistory  (two events were kept, and are taken back)

Cure: keep more, by `--history` or by `set record full insn-number-max`, and
run once more: what was dropped is gone. Pokes count too; where only these are
kept, `undo` takes them back.
"
}

pub(crate) fn ended_text() -> &'static [u8] {
    b"\
The program has ended, so it goes no further.

    export void go() {
        int x = 1;
    }

    > continue
    ended
    > step
    C4 Ended
    > reverse-step
    at 3:1 go depth 1 lanes 1111  (the entry is not left yet)
    > step
    ended

Cure: go back, by `reverse-step` or `reverse-continue`. There is no `run`: to
begin again, take everything back, or call the program again.
"
}

pub(crate) fn outermost_text() -> &'static [u8] {
    b"\
`finish` and `reverse-finish` go to the caller of this function, and the entry
has none.

    export void go() {
        int x = 1;
    }

    > finish
    C6 Outermost

Cure: `continue` goes to the end of the entry, `reverse-continue` to its
beginning.
"
}

pub(crate) fn no_line_text() -> &'static [u8] {
    b"\
On this line, and on all that follow, stands no statement and no closing brace
of a function.

    export void go() {
        int x = 1;
    }
    // the end

    > break 4
    C7 NoLine
    > break 1
    breakpoint 1 at line 2  (the next line that has one)

Cure: give a smaller line.
"
}

pub(crate) fn out_of_range_text() -> &'static [u8] {
    b"\
The element or lane is not there, the value is outside the type of the
variable, or the history limit is above 65,536.

    export void go() {
        int8 x = 1;
    }

    > step
    at 3:1 go depth 1 lanes 1111
    > print x[4]
    C8 OutOfRange  (four lanes have the numbers 0 to 3)
    > set var x = 128
    C8 OutOfRange
    > set var x = -128
    x = -128 -128 -128 -128
    > set record full insn-number-max 65537
    C8 OutOfRange

Cure: give a value of the type; a poke does not wrap as an assignment does.
How many lanes there are is said by `--width`.
"
}

pub(crate) fn constant_text() -> &'static [u8] {
    b"\
A constant is not changed from outside either; the index variables of foreach
forms are constants.

    const uniform int most = 3;
    export void go() {
        int x = most;
    }

    > set var most = 4
    C9 Constant

Cure: take `const` out of the source, or set what was computed from it.
"
}

pub(crate) fn no_such_number_text() -> &'static [u8] {
    b"\
No breakpoint or watch has this number, or it has been deleted.

    export void go() {
        int x = 1;
    }

    > break 2
    breakpoint 1 at line 2
    > delete 2
    C10 NoSuchNumber  (the number of the breakpoint, and not of its line)

Cure: `info breakpoints` shows the numbers. `delete` alone deletes all, and is
never refused.
"
}

pub(crate) fn table_full_text() -> &'static [u8] {
    b"\
There are 64 breakpoints and watches, or their numbers have come to
10,000,000.

    export void go() {
        int x = 1;
    }

    > break 2, 64 times
    breakpoint N at line 2, N from 1 to 64
    > break 3
    C11 TableFull
    > delete 64
    deleted 64
    > break 3
    breakpoint 65 at line 3  (numbers are not used again)

Cure: delete one that is not needed.
"
}

pub(crate) fn memory_text() -> &'static [u8] {
    b"\
The system refused the memory for a history limit above the present one. The
limit and all that was kept are as before.

    export void go() {
        int x = 1;
    }

    $ ulimit -v 32768; ispc_cli go.ispc --width 16

    > step
    at 3:1 go depth 1 lanes 1111111111111111
    > set record full insn-number-max 65536
    C12 Memory
    > undo
    undone step: at 2:5 go depth 1 lanes 1111111111111111

Cure: ask for a smaller limit, or give the program more memory;
docs/COMMANDS.md says what a limit costs. A limit at or below the present one
needs none.
"
}
