//! Sources that have a tree.

use crate::reading::{body, read};
use gang_model::{GlobalForm, Label, Literal, Spec};
use gang_types::{BinaryOp, IntType, Place, Rate};
use source_tree::{Item, Segment, Stmt};
use std::test::*;

#[test]
fn every_form_is_read(rt: HostRuntime) -> Result<(), Fail> {
    let source = "uniform int a[4]; static const uniform bool b = true;
        int8 c = -1u; unsigned d;
        inline static int f(void) { return 1; }
        export void go(uniform int a[], varying const int8 unsigned b) {
            ; { } const int x = 1; int y;
            x = 1; a[x] += 1; --x; x[2]++; f(1, &a, &a[2]);
            if (1) break; else { continue; }
            cif (x < 2) int z; while (1) cwhile (1) ;
            do x++; while (x); cdo { } while (1);
            for (;;) ; cfor (int i = 0; i < 4; ++i) { } for (x = 1; ; f()) ;
            foreach (i = 0 ... 4) ; foreach_tiled (i = 0 ... 4, j = 1 ... 2, k = 1 ... 3) { }
            foreach_active (i) x = 1;
            foreach_unique (v in x + 1) x = v;
            switch (x) { }
            return;
        }";
    let tree = read(rt.alloc(), source)?;
    assert_eq!(rt; tree.items.len(), 6);
    let go = body(&tree, 5).ok_or("no function")?;
    assert_eq!(rt; go.len(), 23);
    assert_eq!(rt; read(rt.alloc(), "")?.items.len(), 0);
    Ok(())
}

#[test]
fn eight_parameters_are_read(rt: HostRuntime) -> Result<(), Fail> {
    let source = "void f(int a, int b, int c, int d, int e, int f, int g, void h[]) { }";
    let tree = read(rt.alloc(), source)?;
    match tree.items.first() {
        Some(Item::Function(function)) => {
            assert_eq!(rt; function.params.len(), 8);
            assert_eq!(rt; function.place, Place { line: 1, col: 6 });
            assert_eq!(rt; function.closing, Place { line: 1, col: 69 });
            match function.params.last() {
                Some(last) => {
                    assert_eq!(rt; last.place, Place { line: 1, col: 62 });
                    assert!(rt; last.is_array);
                    assert_eq!(rt; last.spec.value_type, None);
                }
                None => return Err("no parameter")?,
            }
        }
        _ => return Err("no function")?,
    }
    Ok(())
}

fn has_else(stmt: &Stmt) -> Option<bool> {
    match stmt {
        Stmt::If { other, .. } => Some(other.is_some()),
        _ => None,
    }
}

fn inner(stmt: &Stmt) -> Option<&Stmt> {
    match stmt {
        Stmt::If { first, .. } => Some(first),
        Stmt::While { body, .. } => Some(body),
        _ => None,
    }
}

#[test]
fn else_belongs_to_the_nearest_if(rt: HostRuntime) -> Result<(), Fail> {
    let tree = read(rt.alloc(), "void f() { if (1) while (2) if (3) ; else ; }")?;
    let stmts = body(&tree, 0).ok_or("no function")?;
    assert_eq!(rt; stmts.len(), 1);
    let outer = stmts.first().ok_or("no statement")?;
    assert_eq!(rt; has_else(outer), Some(false));
    let nearest = inner(inner(outer).ok_or("no body")?).ok_or("no body")?;
    assert_eq!(rt; has_else(nearest), Some(true));
    Ok(())
}

#[test]
fn words_stand_in_any_order(rt: HostRuntime) -> Result<(), Fail> {
    let wanted = Spec {
        is_exported: false,
        is_static: true,
        is_inline: false,
        is_constant: true,
        rate: Some(Rate::Uniform),
        value_type: Some(IntType::Uint8),
    };
    for source in [
        "static const uniform uint8 x = -2ul;",
        "int8 uniform const static unsigned x = -2ul;",
        "unsigned static int8 const uniform x = -2ul;",
    ] {
        let tree = read(rt.alloc(), source)?;
        match tree.items.first() {
            Some(Item::Global(global)) => {
                assert_eq!(rt; global.spec, wanted);
                let initial = GlobalForm::Initial(Literal::Number {
                    is_negative: true,
                    value: 2,
                    is_unsigned: true,
                    is_long: true,
                });
                assert_eq!(rt; global.form, initial);
            }
            _ => return Err("no variable")?,
        }
    }
    Ok(())
}

#[test]
fn places_and_operators(rt: HostRuntime) -> Result<(), Fail> {
    let tree = read(
        rt.alloc(),
        "void f() {\n  a[1] <<= 2; --b; do ;\n while (1); int c; }",
    )?;
    let stmts = body(&tree, 0).ok_or("no function")?;
    match stmts {
        [
            Stmt::Change {
                place,
                operator,
                target,
                ..
            },
            Stmt::Increment {
                place: second,
                operator: less,
                target: b,
            },
            Stmt::Do { place: test, .. },
            Stmt::Declare {
                place: word,
                name_place,
                ..
            },
        ] => {
            assert_eq!(rt; *place, Place { line: 2, col: 3 });
            assert_eq!(rt; *operator, BinaryOp::Shl);
            assert_eq!(rt; target.name.as_slice(), b"a".as_slice());
            assert!(rt; target.index.is_some());
            assert_eq!(rt; *second, Place { line: 2, col: 15 });
            assert_eq!(rt; *less, BinaryOp::Sub);
            assert_eq!(rt; b.place, Place { line: 2, col: 17 });
            assert_eq!(rt; *test, Place { line: 3, col: 2 });
            assert_eq!(rt; *word, Place { line: 3, col: 13 });
            assert_eq!(rt; *name_place, Place { line: 3, col: 17 });
        }
        _ => return Err("other statements")?,
    }
    Ok(())
}

/// The segments of a `switch`.
fn segments(stmt: &Stmt) -> Option<&[Segment]> {
    match stmt {
        Stmt::Switch { segments, .. } => Some(segments),
        _ => None,
    }
}

/// What stands at a label: its column in the first line, its number, and how many statements.
fn shown(segment: &Segment) -> (u32, Option<Label>, usize) {
    (segment.place.col, segment.label, segment.body.len())
}

#[test]
fn segments_begin_at_their_labels(rt: HostRuntime) -> Result<(), Fail> {
    let tree = read(
        rt.alloc(),
        "void f() { switch (1) { default: case -2ul: ; ; case 0x10: { int x; } break; case -0: } }",
    )?;
    let stmts = body(&tree, 0).ok_or("no function")?;
    let segments = segments(stmts.first().ok_or("no statement")?).ok_or("no switch")?;
    match segments {
        [first, second, third, last] => {
            assert_eq!(rt; shown(first), (25, None, 0));
            let label = |is_negative, value| Some(Label { is_negative, value });
            assert_eq!(rt; shown(second), (34, label(true, 2), 2));
            assert_eq!(rt; shown(third), (49, label(false, 16), 2));
            assert_eq!(rt; shown(last), (78, label(true, 0), 0));
        }
        _ => return Err("other segments")?,
    }
    Ok(())
}

#[test]
fn default_stands_anywhere(rt: HostRuntime) -> Result<(), Fail> {
    for (labels, place) in [
        ("default: x = 1; case 1: case 2: ;", 0),
        ("case 1: x = 1; default: break; case 2: ;", 1),
        ("case 1: ; case 2: x = 1; default:", 2),
    ] {
        let source = format!(in rt.alloc(); "void f() {{ switch (x) {{ {labels} }} }}")?;
        let tree = read(rt.alloc(), &source)?;
        let stmts = body(&tree, 0).ok_or("no function")?;
        let segments = segments(stmts.first().ok_or("no statement")?).ok_or("no switch")?;
        assert_eq!(rt; segments.len(), 3);
        let default = segments.iter().position(|segment| segment.label.is_none());
        assert_eq!(rt; default, Some(place), "{labels}");
    }
    Ok(())
}

#[test]
fn a_label_belongs_to_the_innermost_switch(rt: HostRuntime) -> Result<(), Fail> {
    let tree = read(
        rt.alloc(),
        "void f() { switch (1) { case 1: switch (2) { default: ; case 2: ; } x = 1; case 3: } }",
    )?;
    let stmts = body(&tree, 0).ok_or("no function")?;
    let outer = segments(stmts.first().ok_or("no statement")?).ok_or("no switch")?;
    assert_eq!(rt; outer.len(), 2);
    let first = outer.first().ok_or("no segment")?;
    assert_eq!(rt; first.body.len(), 2);
    let inner = segments(first.body.first().ok_or("no statement")?).ok_or("no switch")?;
    assert_eq!(rt; inner.len(), 2);
    Ok(())
}
