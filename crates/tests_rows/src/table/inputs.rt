//! Commands, and inputs with their refusals. Written by `tools/transcripts/write_tests.py`.

/// Rows as `crate::row` reads them.
pub(crate) const ROWS: &str = "\
CommandForms@@export void go() {
    int x = programIndex * 3;
    x += 1;
}@@
 \t\u{20}
 step
step 0
step 10000001
step 1 1
step1
Step
delete 0
finish 1
set record full insn-number-max 0
s\t001\u{20}
print x[4]
print x[10000001]
p x [ 03 ]
p x]
print 5
print int
print programIndex
set var x = 18446744073709551616
set var x = 18446744073709551615
set var x = - 5
set var x=-5
set  var x[0]=0x1F
set var x [1] = -0x10
set var x[2] = true
set var x[3] = 0X1
p x
b 900
info
step                                                                                                                                                                                                                                                           \u{20}
step                                                                                                                                                                                                                                                            \u{20}
quit
step
@C1 BadCommand
C1 BadCommand
C1 BadCommand
C1 BadCommand
C1 BadCommand
C1 BadCommand
C1 BadCommand
C1 BadCommand
C1 BadCommand
at 3:5 go depth 1 lanes 1111
C8 OutOfRange
C1 BadCommand
x[3] = 9
C1 BadCommand
C1 BadCommand
C2 NoSuchName
C2 NoSuchName
C1 BadCommand
C8 OutOfRange
C1 BadCommand
x = -5 -5 -5 -5
x[0] = 31
x[1] = -16
x[2] = 1
C1 BadCommand
x = 31 -16 1 -5
C7 NoLine
C1 BadCommand
at 4:1 go depth 1 lanes 1111
C1 BadCommand
$
InputForms@@uniform int t[2];
uniform bool w = true;
export void go(uniform int8 n, uniform bool b, uniform uint8 a[]) { }@# a comment

\tn=-128\u{20}
b = true
\u{20}
a =
t = 0xFf
w = 0@print n
print b
print a
print t
print w
print a[0]
step
print t[0]
@n = -128
b = true
a =
t = 255 0
w = false
C8 OutOfRange
ended
t[0] = 255
$
InputRefusals@@const uniform int c = 1;
int v = 1;
uniform int8 t[3];
export void go(uniform int n, uniform int a[]) {
foreach (i = 0 ... n) a[i] += n;
}@@step
@input: I2 Missing n
$
InputRefusals@@const uniform int c = 1;
int v = 1;
uniform int8 t[3];
export void go(uniform int n, uniform int a[]) {
foreach (i = 0 ... n) a[i] += n;
}@n = 1@step
@input: I2 Missing a
$
InputRefusals@@const uniform int c = 1;
int v = 1;
uniform int8 t[3];
export void go(uniform int n, uniform int a[]) {
foreach (i = 0 ... n) a[i] += n;
}@n = x@step
@input 1: I1 BadLine
$
InputRefusals@@const uniform int c = 1;
int v = 1;
uniform int8 t[3];
export void go(uniform int n, uniform int a[]) {
foreach (i = 0 ... n) a[i] += n;
}@n = 3000000000@step
@input 1: I3 Range
$
InputRefusals@@const uniform int c = 1;
int v = 1;
uniform int8 t[3];
export void go(uniform int n, uniform int a[]) {
foreach (i = 0 ... n) a[i] += n;
}@n = 1
n = 1@step
@input 2: I1 BadLine
$
InputRefusals@@const uniform int c = 1;
int v = 1;
uniform int8 t[3];
export void go(uniform int n, uniform int a[]) {
foreach (i = 0 ... n) a[i] += n;
}@t = 1 2 3 200@step
@input 1: I4 TooLarge
$
InputRefusals@@const uniform int c = 1;
int v = 1;
uniform int8 t[3];
export void go(uniform int n, uniform int a[]) {
foreach (i = 0 ... n) a[i] += n;
}@t = 1 2 3
n = -2147483649@step
@input 2: I3 Range
$
InputRefusals@@const uniform int c = 1;
int v = 1;
uniform int8 t[3];
export void go(uniform int n, uniform int a[]) {
foreach (i = 0 ... n) a[i] += n;
}@t = 128@step
@input 1: I3 Range
$
InputRefusals@@const uniform int c = 1;
int v = 1;
uniform int8 t[3];
export void go(uniform int n, uniform int a[]) {
foreach (i = 0 ... n) a[i] += n;
}@n =@step
@input 1: I1 BadLine
$
InputRefusals@@const uniform int c = 1;
int v = 1;
uniform int8 t[3];
export void go(uniform int n, uniform int a[]) {
foreach (i = 0 ... n) a[i] += n;
}@n = 1 2@step
@input 1: I1 BadLine
$
InputRefusals@@const uniform int c = 1;
int v = 1;
uniform int8 t[3];
export void go(uniform int n, uniform int a[]) {
foreach (i = 0 ... n) a[i] += n;
}@n 1@step
@input 1: I1 BadLine
$
InputRefusals@@const uniform int c = 1;
int v = 1;
uniform int8 t[3];
export void go(uniform int n, uniform int a[]) {
foreach (i = 0 ... n) a[i] += n;
}@n = -0x1@step
@input 1: I1 BadLine
$
InputRefusals@@const uniform int c = 1;
int v = 1;
uniform int8 t[3];
export void go(uniform int n, uniform int a[]) {
foreach (i = 0 ... n) a[i] += n;
}@n = 0X1@step
@input 1: I1 BadLine
$
InputRefusals@@const uniform int c = 1;
int v = 1;
uniform int8 t[3];
export void go(uniform int n, uniform int a[]) {
foreach (i = 0 ... n) a[i] += n;
}@z = 1@step
@input 1: I1 BadLine
$
InputRefusals@@const uniform int c = 1;
int v = 1;
uniform int8 t[3];
export void go(uniform int n, uniform int a[]) {
foreach (i = 0 ... n) a[i] += n;
}@c = 1@step
@input 1: I1 BadLine
$
InputRefusals@@const uniform int c = 1;
int v = 1;
uniform int8 t[3];
export void go(uniform int n, uniform int a[]) {
foreach (i = 0 ... n) a[i] += n;
}@v = 1@step
@input 1: I1 BadLine
$
InputRefusals@@const uniform int c = 1;
int v = 1;
uniform int8 t[3];
export void go(uniform int n, uniform int a[]) {
foreach (i = 0 ... n) a[i] += n;
}@ # n = 1@step
@input 1: I1 BadLine
$
InputRefusals@@const uniform int c = 1;
int v = 1;
uniform int8 t[3];
export void go(uniform int n, uniform int a[]) {
foreach (i = 0 ... n) a[i] += n;
}@t = 1 2 3 4 x@step
@input 1: I1 BadLine
$
InputRefusals@@const uniform int c = 1;
int v = 1;
uniform int8 t[3];
export void go(uniform int n, uniform int a[]) {
foreach (i = 0 ... n) a[i] += n;
}@t = 128 x@step
@input 1: I1 BadLine
$
InputRefusals@@const uniform int c = 1;
int v = 1;
uniform int8 t[3];
export void go(uniform int n, uniform int a[]) {
foreach (i = 0 ... n) a[i] += n;
}@n = 3000000000 1@step
@input 1: I1 BadLine
$
InputRefusals@@const uniform int c = 1;
int v = 1;
uniform int8 t[3];
export void go(uniform int n, uniform int a[]) {
foreach (i = 0 ... n) a[i] += n;
}@t = 128
z = 1@step
@input 1: I3 Range
$
InputRefusals@@const uniform int c = 1;
int v = 1;
uniform int8 t[3];
export void go(uniform int n, uniform int a[]) {
foreach (i = 0 ... n) a[i] += n;
}@z = 1
t = 128@step
@input 1: I1 BadLine
$
InputRefusals@@const uniform int c = 1;
int v = 1;
uniform int8 t[3];
export void go(uniform int n, uniform int a[]) {
foreach (i = 0 ... n) a[i] += n;
}@t = 1 2 3 4
z = 1@step
@input 1: I4 TooLarge
$
InputRefusals@@const uniform int c = 1;
int v = 1;
uniform int8 t[3];
export void go(uniform int n, uniform int a[]) {
foreach (i = 0 ... n) a[i] += n;
}@
# a = 1
n=true
@step
@input: I2 Missing a
$
";
