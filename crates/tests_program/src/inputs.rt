//! Runs that begin with the rows of an input.
use crate::running::{AMPLE, Asked, OPTIONS, answers};
use crate::told::holds;
use std::alloc::Global;
use transcript::Ending;

/// A gather and a scatter of an array that the entry is given, and a store to an array of the file.
pub(crate) const SOURCE: &[u8] = b"uniform int8 t[3];\n\
    export void go(uniform int n, uniform int a[]) {\n\
    a[programIndex] += n;\n\
    t[n] = n;\n\
    int g = a[n];\n\
    }";

/// An entry that calls itself with the rest of its array.
const CALLS_ITSELF: &[u8] = b"export void go(uniform int n, uniform int a[]) {\n\
    if (n > 0) go(n - 1, &a[1]);\n\
    a[0] += n;\n\
    }";

/// A parameter of each integer type.
const EACH_TYPE: &[u8] =
    b"export void go(uniform int8 a, uniform uint8 b, uniform int16 c, uniform uint16 d, \
    uniform int e, uniform uint f, uniform int64 g, uniform uint64 h) { }";

const PRINT_EACH: &str = "print a\nprint b\nprint c\nprint d\nprint e\nprint f\nprint g\nprint h\n";

/// Whether a run of a source with this input gives these answers to these commands.
fn gives(alloc: Global, source: &[u8], input: &str, commands: &str, wanted: &str) -> bool {
    let asked = Asked {
        source,
        input: input.as_bytes(),
        commands: commands.as_bytes(),
    };
    let end = Ending::EndOfCommands;
    answers(alloc, asked, &OPTIONS, AMPLE, end, wanted.as_bytes())
}

// Inputs with commands and their answers.
const BEGUN: &[(&str, &str, &str)] = &[
    (
        "n = 2\na = 5 6 7 8\nt = 1",
        "print a\nprint t\nstep 3\nprint a\nprint t\nprint g\n",
        "a = 5 6 7 8\nt = 1 0 0\nat 6:1 go depth 1 lanes 1111\na = 7 8 9 10\nt = 1 0 2\ng = 9 9 9 9\n",
    ),
    (
        "n = 3\na = 5 6 7",
        "step\nprint a\n",
        "fault F2 Index lane 3: at 3:1 go depth 1 lanes 1111\na = 5 6 7\n",
    ),
    (
        "n = 3\na = 5 6 7 8",
        "step 2\n",
        "fault F2 Index lane 0: at 4:1 go depth 1 lanes 1111\n",
    ),
    (
        "a =\nn = 0",
        "print a\nprint a[0]\nstep\n",
        "a =\nC8 OutOfRange\nfault F2 Index lane 0: at 3:1 go depth 1 lanes 1111\n",
    ),
    (
        "t = 9 8 7\na = 1 2 3 4\nn = 1\n",
        "step 3\nset var a[3] = -1\nset var n = 7\nreverse-step 3\nprint a\nprint t\nprint n\n",
        "at 6:1 go depth 1 lanes 1111\na[3] = -1\nn = 7\nat 3:1 go depth 1 lanes 1111\na = 1 2 3 4\nt = 9 8 7\nn = 1\n",
    ),
];

#[test]
fn a_run_begins_with_the_rows_of_its_input(rt: HostRuntime) {
    for &(input, commands, wanted) in BEGUN {
        let is_so = gives(rt.alloc(), SOURCE, input, commands, wanted);
        holds(&rt, is_so, input);
    }
}

#[test]
fn an_entry_calls_itself_with_a_part_of_its_array(rt: HostRuntime) {
    let is_so = gives(
        rt.alloc(),
        CALLS_ITSELF,
        "n = 2\na = 5 6 7",
        "step 2\nprint a\nprint n\nfinish\nprint a\nstep\nprint a\n",
        "at 2:1 go depth 2 lanes 1111\na = 6 7\nn = 1\nat 3:1 go depth 1 lanes 1111\na = 5 7 7\nat 4:1 go depth 1 lanes 1111\na = 7 7 7\n",
    );
    holds(&rt, is_so, "an entry that calls itself");
}

// Inputs that say the same.
const ENDS_OF_LINES: &[&str] = &[
    "n = 2\na = 1 2",
    "n = 2\na = 1 2\n",
    "n = 2\r\na = 1 2\r\n",
    "n=2\na=1 2",
    "# what is added\n\n \t\nn = 2\n\na = 1 2\n\n",
    "\tn\t=\t0x2\t\n  a  =  1  2  ",
];

#[test]
fn lines_end_as_they_may(rt: HostRuntime) {
    for input in ENDS_OF_LINES {
        let wanted = "n = 2\na = 1 2\n";
        let is_so = gives(rt.alloc(), SOURCE, input, "print n\nprint a\n", wanted);
        holds(&rt, is_so, input);
    }
}

// The least and the greatest value of each parameter, and what is printed.
const ENDS_OF_TYPES: &[(&str, &str)] = &[
    (
        "a=-128\nb=0\nc=-32768\nd=0\ne=-2147483648\nf=0\ng=-9223372036854775808\nh=0",
        "a = -128\nb = 0\nc = -32768\nd = 0\ne = -2147483648\nf = 0\ng = -9223372036854775808\nh = 0\n",
    ),
    (
        "a=127\nb=255\nc=32767\nd=65535\ne=2147483647\nf=4294967295\ng=9223372036854775807\nh=18446744073709551615",
        "a = 127\nb = 255\nc = 32767\nd = 65535\ne = 2147483647\nf = 4294967295\ng = 9223372036854775807\nh = 18446744073709551615\n",
    ),
];

#[test]
fn parameters_hold_the_ends_of_their_types(rt: HostRuntime) {
    for &(input, wanted) in ENDS_OF_TYPES {
        let is_so = gives(rt.alloc(), EACH_TYPE, input, PRINT_EACH, wanted);
        holds(&rt, is_so, input);
    }
}
