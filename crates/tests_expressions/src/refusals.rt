//! Why texts are refused. The place of a refusal is its column in line 1.
use crate::placed::type_of;
use crate::told::holds;
use gang_model::{RefusalNumber, SourceRefusal};
use gang_types::Place;
use placed_expressions::ExpressionRefusal;
use std::alloc::Global;

const SOURCE: &str =
    "int32 f(int32 x) { return x; } uniform int32 table[4]; bool b; uniform int32 u; export void go() { }";

fn is_refused(alloc: Global, text: &str, wanted: ExpressionRefusal) -> bool {
    match type_of(alloc, SOURCE, 0, text) {
        Ok(_) => false,
        Err(refusal) => refusal == wanted,
    }
}

fn at(number: RefusalNumber, col: u32) -> SourceRefusal {
    let place = Place { line: 1, col };
    SourceRefusal { number, place }
}

const NO_TOKENS: &[(&str, RefusalNumber, u32)] = &[
    ("x + @", RefusalNumber::S1, 5),
    ("x + 12abc", RefusalNumber::S2, 5),
];

#[test]
fn texts_without_tokens_are_refused(rt: HostRuntime) {
    for &(text, number, col) in NO_TOKENS {
        let wanted = ExpressionRefusal::NoTokens(at(number, col));
        holds(&rt, is_refused(rt.alloc(), text, wanted), text);
    }
}

const NO_EXPRESSION: &[(&str, RefusalNumber, u32)] = &[
    ("", RefusalNumber::S3, 1),
    ("x +", RefusalNumber::S3, 4),
    ("x y", RefusalNumber::S3, 3),
    ("x + 1)", RefusalNumber::S3, 6),
    ("x = 1", RefusalNumber::S3, 3),
    ("x++", RefusalNumber::S3, 2),
    ("table[1", RefusalNumber::S3, 8),
];

#[test]
fn tokens_that_are_no_expression_are_refused(rt: HostRuntime) {
    for &(text, number, col) in NO_EXPRESSION {
        let wanted = ExpressionRefusal::NoExpression(at(number, col));
        holds(&rt, is_refused(rt.alloc(), text, wanted), text);
    }
}

const NO_VALUE: &[(&str, RefusalNumber, u32)] = &[
    ("nothing", RefusalNumber::S5, 1),
    ("x + nothing", RefusalNumber::S5, 5),
    ("programindex", RefusalNumber::S5, 1),
    ("table", RefusalNumber::S8, 1),
    ("u[0]", RefusalNumber::S8, 1),
    ("x + counts[3]", RefusalNumber::S5, 5),
    ("x + reduce_add(&counts[3])", RefusalNumber::S5, 17),
    ("programCount[0]", RefusalNumber::S8, 1),
    ("table[b]", RefusalNumber::S8, 7),
    ("table[any(b)]", RefusalNumber::S8, 7),
    ("(uniform int32)x", RefusalNumber::S7, 1),
    ("broadcast(x, x)", RefusalNumber::S7, 14),
    ("x + any()", RefusalNumber::S9, 5),
    ("g(x)", RefusalNumber::S9, 1),
    ("f(nothing)", RefusalNumber::S5, 3),
];

#[test]
fn expressions_without_a_value_are_refused(rt: HostRuntime) {
    for &(text, number, col) in NO_VALUE {
        let wanted = ExpressionRefusal::NoValue(at(number, col));
        holds(&rt, is_refused(rt.alloc(), text, wanted), text);
    }
}

const CALLS: &[(&str, u32)] = &[("f(x)", 1), ("x + f(x)", 5), ("u * (1 + go())", 10)];

#[test]
fn calls_of_functions_are_named(rt: HostRuntime) {
    for &(text, col) in CALLS {
        let wanted = ExpressionRefusal::CallsFunction(Place { line: 1, col });
        holds(&rt, is_refused(rt.alloc(), text, wanted), text);
    }
}

/// So many times a text.
fn times(
    alloc: Global,
    text: &str,
    count: usize,
    last: &str,
) -> Result<String, std::alloc::AllocError> {
    let mut all = String::new(alloc);
    for _ in 0..count {
        all.push_str(text)?;
    }
    all.push_str(last)?;
    Ok(all)
}

#[test]
fn limits_are_those_of_a_source(rt: HostRuntime) -> Result<(), std::alloc::AllocError> {
    let alloc = rt.alloc();
    let most = times(alloc, "1+", 256, "1")?;
    holds(
        &rt,
        type_of(alloc, SOURCE, 0, &most).is_ok(),
        "256 operators",
    );
    let past = times(alloc, "1+", 257, "1")?;
    let wanted = ExpressionRefusal::NoExpression(at(RefusalNumber::S13, 514));
    holds(&rt, is_refused(alloc, &past, wanted), "257 operators");
    let deep = times(alloc, "!", 64, "b")?;
    holds(&rt, type_of(alloc, SOURCE, 0, &deep).is_ok(), "64 nestings");
    let deeper = times(alloc, "!", 65, "b")?;
    let wanted = ExpressionRefusal::NoExpression(at(RefusalNumber::S4, 65));
    holds(&rt, is_refused(alloc, &deeper, wanted), "65 nestings");
    Ok(())
}
