//! The texts of the refusals of a source, as `tools/refusal_pages` writes them from docs/REFUSALS.md.

pub(crate) fn bad_byte_text() -> &'static [u8] {
    b"\
At this place stands a byte that begins no token of the language, or a comment
`/*` that is closed nowhere. A single point, quotation marks, `#`, `@`, `$`,
the backslash and letters outside ASCII begin no token.

    export void go() {
        int x = 1.5;
    }

    $ ispc_cli go.ispc
    2:14: S1 BadByte

Cure: there are whole numbers alone, no texts, and no preprocessor. Write the
number without its point, put a constant where a `#define` was, and close the
comment. Within comments any byte may stand.
"
}

pub(crate) fn bad_number_text() -> &'static [u8] {
    b"\
A number is spelled in a way that the language has not, or its value is above
2^64 - 1. The place is the number's first byte.

    export void go() {
        int x = 010;
    }

    $ ispc_cli go.ispc
    2:13: S2 BadNumber

Cure: a decimal number does not begin with 0, and there are no octal numbers;
`0x` and `0b` begin hexadecimal and binary ones. The suffixes are u and l: the
k, M and G of ISPC are to be written out, and a blank or mark goes between a
number and a name.
"
}

pub(crate) fn unexpected_text() -> &'static [u8] {
    b"\
Up to this token, or this end of the source, the text could have become a
source, and with it it cannot. What is wrong mostly stands before it.

    export void go() {
        int x = 1
        x += 1;
    }

    $ ispc_cli go.ispc
    3:5: S3 Unexpected

Cure: look at the end of the line before, for a semicolon or a bracket. A form
that the language has not, as `float`, `unmasked` or `struct`, is met here
too, often at the token behind the word: docs/LANGUAGE.md lists these.
`int a, b;` is written as two declarations, and a declaration in a `switch`
needs braces of its own.
"
}

pub(crate) fn too_deep_text() -> &'static [u8] {
    b"\
This token opens the 65th of nested things: blocks, parentheses, brackets,
unary operators, casts, the later parts of `?:`, bodies without braces.

    export void go() {
        int x = ~~~~~~~~~~~~~~~~~~~~~~~~~~~~~~~~~~~~~~~~~~~~~~~~~~~~~~~~~~~~~~~~1;
    }

    $ ispc_cli go.ispc
    2:76: S4 TooDeep

Cure: give a part of the expression a variable of its own, or a part of the
statements a function. A long chain of `else if` nests once for each `if`: a
`switch` does not.
"
}

pub(crate) fn unknown_name_text() -> &'static [u8] {
    b"\
No variable or function with this name is in scope here.

    export void go() {
        { int x = 1; }
        x = 2;
    }

    $ ispc_cli go.ispc
    3:5: S5 UnknownName

Cure: declare it before its use, in this block or in one around it. Functions
and variables of the file may stand anywhere in the source. A call may also
name a function of ISPC's library that is not in the table of
docs/LANGUAGE.md, as `sqrt` or `print`: what a variable holds is asked of the
debugger.
"
}

pub(crate) fn duplicate_text() -> &'static [u8] {
    b"\
The name has been given here before: to another variable of the same scope, to
a function with the same types and rates of parameters, or by the language, as
`programIndex` and the functions of its library. At a label the same value, or
`default`, stands twice in one `switch`.

    export void go() {
        int x = 1;
        int x = 2;
    }

    $ ispc_cli go.ispc
    3:9: S6 Duplicate

Cure: take another name, or assign to the first variable. Parameters are of
the scope of a function's outermost block. Neither another result nor `const`
makes another function.
"
}

pub(crate) fn rate_text() -> &'static [u8] {
    b"\
A value that may differ from lane to lane stands where one for the whole gang
is asked: in a uniform variable, a bound of `foreach`, a lane's number, the
result of a uniform function. Or an array, or a parameter or result of an
exported function, is not declared uniform.

    export void go() {
        uniform int u = programIndex;
    }

    $ ispc_cli go.ispc
    2:21: S7 Rate

Cure: leave out `uniform`, or make one value of the lanes' values:
`reduce_add`, `reduce_max`, `extract`, `any`, `all`. An element is varying
where its index is. An array is written `uniform int a[8]`.
"
}

pub(crate) fn type_text() -> &'static [u8] {
    b"\
A value or a variable of this kind cannot stand here: something constant is
changed, an array is taken as a value or a value as an array, an index or the
value of a `switch` is a bool, a `return` has a value in a void function or
none in another, something is void.

    export void go() {
        const int most = 3;
        most = 4;
    }

    $ ispc_cli go.ispc
    3:5: S8 Type

Cure: see what stands at the place. Index variables of foreach forms,
`programIndex` and `programCount` are constant: copy them into a variable.
Give an array an index. Make a number of a bool by a cast, `(int)b`. A label
has to be a value of the type behind its `switch`.
"
}

pub(crate) fn no_overload_text() -> &'static [u8] {
    b"\
No function of this name takes these arguments: their number is wrong, a
varying one stands for a uniform parameter, or an array stands where a value
is asked, or the other way round.

    int half(uniform int x) { return x / 2; }
    export void go() {
        int y = half(programIndex);
    }

    $ ispc_cli go.ispc
    3:13: S9 NoOverload

Cure: compare the arguments with the parameters. Any number converts to any
other, so it is the number of arguments, a rate, or an array: an array fits
where the elements have the same type, and a constant one fits a constant
parameter alone.
"
}

pub(crate) fn ambiguous_text() -> &'static [u8] {
    b"\
Several functions of this name take these arguments, and none of them fits
best.

    void f(int8 a, int16 b) { }
    void f(int16 a, int8 b) { }
    export void go() {
        f(1, 1);
    }

    $ ispc_cli go.ispc
    4:5: S10 Ambiguous

Cure: cast the arguments to the types of the one that is meant, here
`f((int8)1, (int16)1)`. A small literal is an int32; a bool has no sign, so
neither int32 nor unsigned int32 is nearer to it.
"
}

pub(crate) fn bad_control_text() -> &'static [u8] {
    b"\
A `break` or a `continue` has nothing to leave, a `return` stands within a
foreach form, a `break` would leave one, or a `foreach` or `foreach_tiled`
stands within another.

    export void go() {
        int x = programIndex;
        if (x > 1)
            break;
    }

    $ ispc_cli go.ispc
    4:9: S11 BadControl

Cure: in a foreach form `continue` ends the round for the lanes that reach it;
where a lane is to be done with all rounds, keep that in a variable and test
it. Instead of two nested `foreach` write one with two dimensions.
"
}

pub(crate) fn nested_call_text() -> &'static [u8] {
    b"\
A call that has to be a statement of its own stands inside an expression, or a
call of the library that is no statement stands alone as one. A function of
the source and a packed call are called as a statement, or whole behind `x =`,
a declaration's `=` or `return`; `assert` stands alone.

    int twice(int x) { return 2 * x; }
    export void go() {
        int y = twice(3) + 1;
    }

    $ ispc_cli go.ispc
    3:13: S12 NestedCall

Cure: give the result of each call a variable first, and go on with that. The
other calls of the library may stand anywhere in an expression.

- `a[i] = f(x);` is written `int t = f(x);` and `a[i] = t;`
- `x += f(y);` is written `int t = f(y);` and `x += t;`
- `y = 1 + f(x);` is written `int t = f(x);` and `y = 1 + t;`
- `y = f(g(x));` is written `int t = g(x);` and `y = f(t);`
- `if (f(x))` is written `bool t = f(x);` and `if (t)`; a loop's test is
computed anew at the end of its body
"
}

pub(crate) fn limit_text() -> &'static [u8] {
    b"\
A limit of the language is passed: docs/LANGUAGE.md has a table of them. The
place is that of the first token, operator, label or name past the limit, and
1:1 for a source of more than 65,536 bytes.

    int sum(int a, int b, int c, int d, int e, int f, int g, int h, int i) { return a; }
    export void go() { }

    $ ispc_cli go.ispc
    1:65: S13 Limit

Cure: no option raises a limit. Parameters go into an array, a long expression
into several, many variables into an array or into functions of their own; a
source that is too long loses its comments and blanks first.
"
}
