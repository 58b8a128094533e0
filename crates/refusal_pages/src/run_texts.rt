//! The texts of the refusals of an entry, a script or an input, as `tools/refusal_pages` writes them from docs/REFUSALS.md.

pub(crate) fn no_entry_text() -> &'static [u8] {
    b"\
There is no exported function, or none with the name that `--entry` has.

    void go() { }
    export void other() { }

    $ ispc_cli go.ispc --entry go
    entry: E1 NoEntry

Cure: write `export` before the function. Without `--entry` the first exported
function runs. Other functions may call an exported one too.
"
}

pub(crate) fn no_script_text() -> &'static [u8] {
    b"\
No source file was named, so standard input should be a script: the source, a
line of just `%%`, and the command lines. It has no such line, or has more
than 1,048,576 bytes.

    export void go() { }

    $ ispc_cli < go.ispc
    script: E2 NoScript

Cure: name the file, `ispc_cli go.ispc`, or put a line of just `%%` behind the
source.
"
}

pub(crate) fn bad_line_text() -> &'static [u8] {
    b"\
The line is not of the form `name = values`, a scalar has not just one value,
the name is not one that an input can give, or it has had a line. An input
gives the parameters of the entry, and variables of the file that are uniform
and not constant.

    uniform int most = 9;
    export void go(uniform int count) { }

    count = 2
    least = 1

    $ ispc_cli go.ispc --input go.input
    input 2: I1 BadLine

Cure: compare the name with the parameters of the entry that runs. All values
of an array stand in one line, with blanks and no commas between them. Numbers
are decimal or begin with `0x`; lines that begin with `#` are skipped.
"
}

pub(crate) fn missing_text() -> &'static [u8] {
    b"\
A parameter of the entry has no line in the input, or no `--input` was given.
The name of the parameter stands behind.

    export void go(uniform int count, uniform int a[]) { }

    count = 2

    $ ispc_cli go.ispc --input go.input
    input: I2 Missing a

Cure: write a line `NAME = VALUE`, of an array with all its values, into a
file, and name that file by `--input FILE`. An array may be empty: `a =`.
Variables of the file need no line, and have what the source gives them, or 0.
"
}

pub(crate) fn range_text() -> &'static [u8] {
    b"\
A value of this line is outside the type of its variable.

    export void go(uniform int8 small) { }

    small = 128

    $ ispc_cli go.ispc --input go.input
    input 1: I3 Range

Cure: an input does not wrap as an assignment does. Give a value of the type,
here -128 to 127, or the parameter a wider type. A bool takes `true` and
`false`, 1 and 0.
"
}

pub(crate) fn too_large_text() -> &'static [u8] {
    b"\
The line has more values than its variable has elements, or the arrays of the
entry have more than 2^20 words in all; without a line number, the input has
more than 4,194,304 bytes.

    uniform int table[2];
    export void go() { }

    table = 1 2 3

    $ ispc_cli go.ispc --input go.input
    input 1: I4 TooLarge

Cure: give fewer values, or make the array longer. An array parameter of the
entry has as many elements as its line has values.
"
}
