//! Sources that are refused. P stands for `export void go() { `.

use crate::reading::{is_refused, read};
use gang_model::RefusalNumber::{S3, S4, S13};
use std::test::*;

#[test]
fn stand_at_the_first_token_that_no_source_follows(rt: HostRuntime) -> Result<(), Fail> {
    for (source, line, col) in [
        ("export void go() { int x", 1, 25),
        ("export void go() { ", 1, 20),
        ("export void go() {\n", 2, 1),
        ("export", 1, 7),
        ("}", 1, 1),
        ("export const int x = 1;", 1, 8),
        ("inline const int f() { }", 1, 8),
        ("const int f() { }", 1, 12),
        ("export int x = 1;", 1, 14),
        ("inline int x;", 1, 13),
        ("int int x;", 1, 5),
        ("export const int int x;", 1, 8),
        ("int int export const x;", 1, 5),
        ("uniform varying int x;", 1, 9),
        ("static static int x;", 1, 8),
        ("unsigned bool x;", 1, 10),
        ("uniform x;", 1, 9),
        ("void f(void, int a) { }", 1, 12),
        ("void f(static int a) { }", 1, 8),
        ("void f(int a,) { }", 1, 14),
        ("int a[] = 1;", 1, 7),
        ("int a = -true;", 1, 10),
        ("int a = 1 + 1;", 1, 11),
    ] {
        assert!(rt; is_refused(rt.alloc(), source, S3, line, col), "{source}");
    }
    Ok(())
}

#[test]
fn stand_in_a_function(rt: HostRuntime) -> Result<(), Fail> {
    for (statement, col) in [
        ("static int x; }", 20),
        ("static int int x; }", 20),
        ("int int static x; }", 24),
        ("const export int x; }", 26),
        ("else x = 1; }", 20),
        ("case 1: x = 1; }", 20),
        ("1 = x; }", 20),
        ("f(x) = 1; }", 25),
        ("x; }", 21),
        ("x += }", 25),
        ("++1; }", 22),
        ("x++ 1; }", 24),
        ("break }", 26),
        ("return 1 }", 29),
        ("if 1 x = 1; }", 23),
        ("if (1) else x = 1; }", 27),
        ("do x = 1; while 1; }", 36),
        ("for (;;) }", 29),
        ("for (;; int x = 1) ; }", 28),
        ("foreach () ; }", 29),
        ("foreach (i = 0) ; }", 34),
        ("foreach_active (1) ; }", 36),
        ("foreach_unique (v = e) ; }", 38),
    ] {
        let source = format!(in rt.alloc(); "export void go() {{ {statement}")?;
        assert!(rt; is_refused(rt.alloc(), &source, S3, 1, col), "{statement}");
    }
    Ok(())
}

#[test]
fn stand_in_a_switch(rt: HostRuntime) -> Result<(), Fail> {
    for (statement, col) in [
        ("default: ; }", 20),
        ("switch 1 { } }", 27),
        ("switch (1) case 1: ; }", 31),
        ("switch (1) { x = 1; } }", 33),
        ("switch (1) { int x; } }", 33),
        ("switch (1) { case 1: int x; } }", 41),
        ("switch (1) { case 1: ; const int x = 1; } }", 43),
        ("switch (1) { case 1 ; } }", 40),
        ("switch (1) { case x: ; } }", 38),
        ("switch (1) { case true: ; } }", 38),
        ("switch (1) { case -: ; } }", 39),
        ("switch (1) { case - -1: ; } }", 40),
        ("switch (1) { case 1 + 1: ; } }", 40),
        ("switch (1) { default 1: ; } }", 41),
        ("switch (1) { case 1: { case 2: ; } } }", 43),
        ("switch (1) { case 1: if (1) default: ; } }", 48),
        ("switch (1) { case 1: ; ) } }", 43),
        ("switch (1) { case 1: ; ", 43),
    ] {
        let source = format!(in rt.alloc(); "export void go() {{ {statement}")?;
        assert!(rt; is_refused(rt.alloc(), &source, S3, 1, col), "{statement}");
    }
    Ok(())
}

#[test]
fn nestings_of_switches_end_at_64(rt: HostRuntime) -> Result<(), Fail> {
    let opened = "switch (1) { case 1: ".repeat(rt.alloc(), 63)?;
    let closed = "} ".repeat(rt.alloc(), 63)?;
    let source = format!(in rt.alloc(); "export void go() {{ {opened}x = 1; {closed}}}")?;
    let _tree = read(rt.alloc(), &source)?;
    // The parenthesis of one more opens the 65th nesting, and so does a block.
    let source = format!(in rt.alloc(); "export void go() {{ {opened}switch (1) ")?;
    assert!(rt; is_refused(rt.alloc(), &source, S4, 1, 1350));
    let source = format!(in rt.alloc(); "export void go() {{ {opened}{{ ")?;
    assert!(rt; is_refused(rt.alloc(), &source, S4, 1, 1343));
    // A body that is a `switch` is a nesting.
    let words = "do ".repeat(rt.alloc(), 64)?;
    let source = format!(in rt.alloc(); "export void go() {{ {words}switch (1) ")?;
    assert!(rt; is_refused(rt.alloc(), &source, S4, 1, 212));
    Ok(())
}

#[test]
fn labels_of_a_switch_end_at_256(rt: HostRuntime) -> Result<(), Fail> {
    let labels = "case 0: ".repeat(rt.alloc(), 256)?;
    // A `switch` in a `switch` has labels of its own.
    for inside in ["", "; ", "switch (1) { case 0: case 1: } "] {
        let source = format!(in rt.alloc();
            "export void go() {{ switch (1) {{ {labels}{inside}}} }}"
        )?;
        let _tree = read(rt.alloc(), &source)?;
    }
    for label in ["case 0: } }", "default: } }", "case", "default"] {
        let source = format!(in rt.alloc(); "export void go() {{ switch (1) {{ {labels}{label}")?;
        assert!(rt; is_refused(rt.alloc(), &source, S13, 1, 2081), "{label}");
    }
    for other in ["int x; } }", ") } }", ""] {
        let source = format!(in rt.alloc(); "export void go() {{ switch (1) {{ {labels}{other}")?;
        assert!(rt; is_refused(rt.alloc(), &source, S3, 1, 2081), "{other}");
    }
    Ok(())
}

#[test]
fn nestings_end_at_64(rt: HostRuntime) -> Result<(), Fail> {
    let parens = "(".repeat(rt.alloc(), 64)?;
    let source = format!(in rt.alloc(); "export void go() {{ int x = {parens}")?;
    assert!(rt; is_refused(rt.alloc(), &source, S4, 1, 91));
    let braces = "{".repeat(rt.alloc(), 64)?;
    let source = format!(in rt.alloc(); "export void go() {{ {braces}")?;
    assert!(rt; is_refused(rt.alloc(), &source, S4, 1, 83));
    // A body that is no block is a nesting: S4 where a statement begins there, else S3.
    let words = "do ".repeat(rt.alloc(), 64)?;
    let source = format!(in rt.alloc(); "export void go() {{ {words}; ")?;
    assert!(rt; is_refused(rt.alloc(), &source, S4, 1, 212));
    let source = format!(in rt.alloc(); "export void go() {{ {words}) ")?;
    assert!(rt; is_refused(rt.alloc(), &source, S3, 1, 212));
    let words = "do ".repeat(rt.alloc(), 63)?;
    let tests = "while (1); ".repeat(rt.alloc(), 63)?;
    let source = format!(in rt.alloc(); "export void go() {{ {words}; {tests}}}")?;
    let _tree = read(rt.alloc(), &source)?;
    Ok(())
}

#[test]
fn limits(rt: HostRuntime) -> Result<(), Fail> {
    assert!(rt;
        is_refused(
            rt.alloc(),
            "void f(int a, int b, int c, int d, int e, int f, int g, int h, int i) { }",
            S13,
            1,
            64
        )
    );
    assert!(rt;
        is_refused(
            rt.alloc(),
            "void f(int a, int b, int c, int d, int e, int f, int g, int h, i) { }",
            S3,
            1,
            64
        )
    );
    let dims =
        "export void go() { foreach (i = 0 ... 1, j = 0 ... 1, k = 0 ... 1, l = 0 ... 1) ; }";
    assert!(rt; is_refused(rt.alloc(), dims, S13, 1, 68));
    let sums = " + 1".repeat(rt.alloc(), 257)?;
    let source = format!(in rt.alloc(); "export void go() {{ int x = 1{sums}; }}")?;
    assert!(rt; is_refused(rt.alloc(), &source, S13, 1, 1054));
    let sums = " + 1".repeat(rt.alloc(), 256)?;
    let source = format!(in rt.alloc(); "export void go() {{ int x = 1{sums}; }}")?;
    let _tree = read(rt.alloc(), &source)?;
    Ok(())
}
