//! The ends of each type in an input. Written by `tools/transcripts/write_tests.py`.

/// Rows as `crate::row` reads them.
pub(crate) const ROWS: &str = "\
InputEnds@@uniform bool b;
uniform int8 c;
uniform int16 s;
uniform int i;
uniform int64 l;
uniform uint8 d;
uniform uint16 t;
uniform uint32 j;
uniform uint64 m;
export void go() { }@b = 0
c = -128
s = -32768
i = -2147483648
l = -9223372036854775808
d = 0
t = 0
j = 0
m = 0@print c
print s
print i
print l
@c = -128
s = -32768
i = -2147483648
l = -9223372036854775808
$
InputEnds@@uniform bool b;
uniform int8 c;
uniform int16 s;
uniform int i;
uniform int64 l;
uniform uint8 d;
uniform uint16 t;
uniform uint32 j;
uniform uint64 m;
export void go() { }@b = 1
c = 127
s = 32767
i = 2147483647
l = 9223372036854775807
d = 255
t = 65535
j = 4294967295
m = 18446744073709551615@print b
print c
print s
print i
print l
print d
print t
print j
print m
@b = true
c = 127
s = 32767
i = 2147483647
l = 9223372036854775807
d = 255
t = 65535
j = 4294967295
m = 18446744073709551615
$
InputEnds@@uniform bool b;
uniform int8 c;
uniform int16 s;
uniform int i;
uniform int64 l;
uniform uint8 d;
uniform uint16 t;
uniform uint32 j;
uniform uint64 m;
export void go() { }@b = 2@step
@input 1: I3 Range
$
InputEnds@@uniform bool b;
uniform int8 c;
uniform int16 s;
uniform int i;
uniform int64 l;
uniform uint8 d;
uniform uint16 t;
uniform uint32 j;
uniform uint64 m;
export void go() { }@b = -1@step
@input 1: I3 Range
$
InputEnds@@uniform bool b;
uniform int8 c;
uniform int16 s;
uniform int i;
uniform int64 l;
uniform uint8 d;
uniform uint16 t;
uniform uint32 j;
uniform uint64 m;
export void go() { }@c = 128@step
@input 1: I3 Range
$
InputEnds@@uniform bool b;
uniform int8 c;
uniform int16 s;
uniform int i;
uniform int64 l;
uniform uint8 d;
uniform uint16 t;
uniform uint32 j;
uniform uint64 m;
export void go() { }@c = -129@step
@input 1: I3 Range
$
InputEnds@@uniform bool b;
uniform int8 c;
uniform int16 s;
uniform int i;
uniform int64 l;
uniform uint8 d;
uniform uint16 t;
uniform uint32 j;
uniform uint64 m;
export void go() { }@s = 32768@step
@input 1: I3 Range
$
InputEnds@@uniform bool b;
uniform int8 c;
uniform int16 s;
uniform int i;
uniform int64 l;
uniform uint8 d;
uniform uint16 t;
uniform uint32 j;
uniform uint64 m;
export void go() { }@s = -32769@step
@input 1: I3 Range
$
InputEnds@@uniform bool b;
uniform int8 c;
uniform int16 s;
uniform int i;
uniform int64 l;
uniform uint8 d;
uniform uint16 t;
uniform uint32 j;
uniform uint64 m;
export void go() { }@i = 2147483648@step
@input 1: I3 Range
$
InputEnds@@uniform bool b;
uniform int8 c;
uniform int16 s;
uniform int i;
uniform int64 l;
uniform uint8 d;
uniform uint16 t;
uniform uint32 j;
uniform uint64 m;
export void go() { }@i = -2147483649@step
@input 1: I3 Range
$
InputEnds@@uniform bool b;
uniform int8 c;
uniform int16 s;
uniform int i;
uniform int64 l;
uniform uint8 d;
uniform uint16 t;
uniform uint32 j;
uniform uint64 m;
export void go() { }@l = 9223372036854775808@step
@input 1: I3 Range
$
InputEnds@@uniform bool b;
uniform int8 c;
uniform int16 s;
uniform int i;
uniform int64 l;
uniform uint8 d;
uniform uint16 t;
uniform uint32 j;
uniform uint64 m;
export void go() { }@l = -9223372036854775809@step
@input 1: I3 Range
$
InputEnds@@uniform bool b;
uniform int8 c;
uniform int16 s;
uniform int i;
uniform int64 l;
uniform uint8 d;
uniform uint16 t;
uniform uint32 j;
uniform uint64 m;
export void go() { }@d = 256@step
@input 1: I3 Range
$
InputEnds@@uniform bool b;
uniform int8 c;
uniform int16 s;
uniform int i;
uniform int64 l;
uniform uint8 d;
uniform uint16 t;
uniform uint32 j;
uniform uint64 m;
export void go() { }@d = -1@step
@input 1: I3 Range
$
InputEnds@@uniform bool b;
uniform int8 c;
uniform int16 s;
uniform int i;
uniform int64 l;
uniform uint8 d;
uniform uint16 t;
uniform uint32 j;
uniform uint64 m;
export void go() { }@t = 65536@step
@input 1: I3 Range
$
InputEnds@@uniform bool b;
uniform int8 c;
uniform int16 s;
uniform int i;
uniform int64 l;
uniform uint8 d;
uniform uint16 t;
uniform uint32 j;
uniform uint64 m;
export void go() { }@t = -1@step
@input 1: I3 Range
$
InputEnds@@uniform bool b;
uniform int8 c;
uniform int16 s;
uniform int i;
uniform int64 l;
uniform uint8 d;
uniform uint16 t;
uniform uint32 j;
uniform uint64 m;
export void go() { }@j = 4294967296@step
@input 1: I3 Range
$
InputEnds@@uniform bool b;
uniform int8 c;
uniform int16 s;
uniform int i;
uniform int64 l;
uniform uint8 d;
uniform uint16 t;
uniform uint32 j;
uniform uint64 m;
export void go() { }@j = -1@step
@input 1: I3 Range
$
InputEnds@@uniform bool b;
uniform int8 c;
uniform int16 s;
uniform int i;
uniform int64 l;
uniform uint8 d;
uniform uint16 t;
uniform uint32 j;
uniform uint64 m;
export void go() { }@m = 18446744073709551616@step
@input 1: I3 Range
$
InputEnds@@uniform bool b;
uniform int8 c;
uniform int16 s;
uniform int i;
uniform int64 l;
uniform uint8 d;
uniform uint16 t;
uniform uint32 j;
uniform uint64 m;
export void go() { }@m = -1@step
@input 1: I3 Range
$
";
