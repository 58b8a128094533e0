//! How marks group, and where a refusal stands. Tokens stand in line 1, each one column after the last.

use crate::told::holds;
use gang_model::RefusalNumber::{S3, S4, S13};
use gang_model::{Infix, RefusalNumber, SourceRefusal, Spec};
use gang_types::{BinaryOp, IntType, Place, Rate, UnaryOp};
use ispc_lexer::Token;
use ispc_parser_expressions::{arguments, expression};
use ispc_parser_words::take_spec;
use source_answers::SourceFault;
use source_tree::{Arg, Expr};
use std::alloc::Global;

const END: Place = Place { line: 9, col: 9 };

// The tokens of a text, of which each stands one column after the last.
fn tokens(alloc: Global, text: &[u8]) -> Result<Vec<Token>, SourceFault> {
    let mut tokens = ispc_lexer::tokens(alloc, text)?;
    let mut col = 0u32;
    for token in &mut tokens {
        col = col.saturating_add(1);
        token.place = Place { line: 1, col };
    }
    Ok(tokens)
}

// A text so many times, and then another.
fn repeated(alloc: Global, first: &str, count: usize, rest: &str) -> Result<Vec<u8>, SourceFault> {
    let mut text = Vec::new(alloc);
    for _ in 0..count {
        text.extend_from_slice(first.as_bytes())?;
    }
    text.extend_from_slice(rest.as_bytes())?;
    Ok(text)
}

fn infix_text(operator: Infix) -> &'static [u8] {
    match operator {
        Infix::Op(BinaryOp::Add) => b"+",
        Infix::Op(BinaryOp::Sub) => b"-",
        Infix::Op(BinaryOp::Mul) => b"*",
        Infix::Op(BinaryOp::Div) => b"/",
        Infix::Op(BinaryOp::Rem) => b"%",
        Infix::Op(BinaryOp::And) => b"&",
        Infix::Op(BinaryOp::Or) => b"|",
        Infix::Op(BinaryOp::Xor) => b"^",
        Infix::Op(BinaryOp::Shl) => b"<<",
        Infix::Op(BinaryOp::Shr) => b">>",
        Infix::Op(BinaryOp::Less) => b"<",
        Infix::Op(BinaryOp::LessEqual) => b"<=",
        Infix::Op(BinaryOp::Greater) => b">",
        Infix::Op(BinaryOp::GreaterEqual) => b">=",
        Infix::Op(BinaryOp::Equal) => b"==",
        Infix::Op(BinaryOp::NotEqual) => b"!=",
        Infix::AndAlso => b"&&",
        Infix::OrElse => b"||",
    }
}

fn unary_text(operator: UnaryOp) -> &'static [u8] {
    match operator {
        UnaryOp::Negate => b"-",
        UnaryOp::Plus => b"+",
        UnaryOp::Not => b"!",
        UnaryOp::Complement => b"~",
    }
}

// Puts a text behind another; where memory is short it is not the one that is wanted.
fn put(out: &mut Vec<u8>, text: &[u8]) {
    let _ = out.extend_from_slice(text);
}

fn put_number(alloc: Global, out: &mut Vec<u8>, value: u64) {
    if let Ok(text) = format!(in alloc; "{value}") {
        put(out, text.as_bytes());
    }
}

/// Each operator with its operands in braces, parentheses as they are.
#[cycle(write)]
fn write_expr(alloc: Global, out: &mut Vec<u8>, expr: &Expr) {
    match expr {
        Expr::Number { number, .. } => put_number(alloc, out, number.value),
        Expr::Truth { value, .. } => put(out, if *value { b"true" } else { b"false" }),
        Expr::Name { name, .. } => put(out, name),
        Expr::Index { name, index, .. } => {
            put(out, name);
            write_between(alloc, out, b"[", index, b"]");
        }
        Expr::Call { name, args, .. } => {
            put(out, name);
            write_args(alloc, out, args);
        }
        Expr::Paren { inner, .. } => write_between(alloc, out, b"(", inner, b")"),
        Expr::Unary {
            operator,
            operand,
            ..
        } => {
            put(out, b"{");
            write_between(alloc, out, unary_text(*operator), operand, b"}");
        }
        Expr::Cast { operand, .. } => write_between(alloc, out, b"{cast ", operand, b"}"),
        Expr::Binary {
            operator,
            left,
            right,
        } => {
            write_between(alloc, out, b"{", left, infix_text(*operator));
            write_between(alloc, out, b"", right, b"}");
        }
        Expr::Choice {
            test,
            first,
            second,
        } => {
            write_between(alloc, out, b"{", test, b"?");
            write_between(alloc, out, b"", first, b":");
            write_between(alloc, out, b"", second, b"}");
        }
    }
}

/// Arguments in parentheses.
#[cycle(write)]
fn write_args(alloc: Global, out: &mut Vec<u8>, args: &[Arg]) {
    put(out, b"(");
    for arg in args {
        write_arg(alloc, out, arg);
    }
    put(out, b")");
}

#[cycle(write)]
fn write_between(alloc: Global, out: &mut Vec<u8>, before: &[u8], expr: &Expr, behind: &[u8]) {
    put(out, before);
    write_expr(alloc, out, expr);
    put(out, behind);
}

#[cycle(write)]
fn write_arg(alloc: Global, out: &mut Vec<u8>, arg: &Arg) {
    match arg {
        Arg::Value(value) => write_expr(alloc, out, value),
        Arg::Part { name, .. } => {
            put(out, b"&");
            put(out, name);
        }
        Arg::PartFrom { name, index, .. } => {
            put(out, b"&");
            put(out, name);
            write_between(alloc, out, b"[", index, b"]");
        }
    }
    put(out, b",");
}

// How an expression's marks group, and how many tokens are left after it.
const GROUPS: &[(&str, &str, usize)] = &[
    // From the left.
    ("a - b - c ;", "{{a-b}-c}", 1),
    // Each level binds tighter than the one before.
    (
        "a || a && a | a ^ a & a == a < a << a + a * - a",
        "{a||{a&&{a|{a^{a&{a=={a<{a<<{a+{a*{-a}}}}}}}}}}}",
        0,
    ),
    (
        "- a * a + a << a < a == a & a ^ a | a && a || a",
        "{{{{{{{{{{{-a}*a}+a}<<a}<a}==a}&a}^a}|a}&&a}||a}",
        0,
    ),
    // Marks of one level are told apart.
    ("a / a % a * a", "{{{a/a}%a}*a}", 0),
    ("a >> a << a", "{{a>>a}<<a}", 0),
    ("a > a <= a >= a", "{{{a>a}<=a}>=a}", 0),
    ("a != a == a", "{{a!=a}==a}", 0),
    ("! ~ + true", "{!{~{+true}}}", 0),
    // Choices group from the right.
    ("a ? b ? a : b : c ? a : b", "{a?{b?a:b}:{c?a:b}}", 0),
    // A cast takes a unary expression.
    ("( int8 uniform unsigned ) a + b", "{{cast a}+b}", 0),
    ("( a ) - b", "{(a)-b}", 0),
    // Calls have parts of arrays.
    (
        "a ( & b [ 1 ] , & c , b [ c ] ) + a ( )",
        "{a(&b[1],&c,b[c],)+a()}",
        0,
    ),
];

// Whether a text spells the expression, with so many tokens after it.
fn spells(alloc: Global, text: &str, wanted: &str, left: usize) -> Result<bool, SourceFault> {
    let tokens = tokens(alloc, text.as_bytes())?;
    let (expr, rest) = expression(alloc, 64, &tokens, END)?;
    let mut out = Vec::new(alloc);
    write_expr(alloc, &mut out, &expr);
    Ok(out.as_slice() == wanted.as_bytes() && rest.len() == left)
}

#[test]
fn marks_group_by_their_levels(rt: HostRuntime) {
    for &(text, wanted, left) in GROUPS {
        let is_so = spells(rt.alloc(), text, wanted, left) == Ok(true);
        holds(&rt, is_so, text);
    }
}

// The rate and the type of the cast at the left of the text's operator.
fn cast_at_left(
    alloc: Global,
    text: &str,
) -> Result<Option<(Option<Rate>, Option<IntType>)>, SourceFault> {
    let tokens = tokens(alloc, text.as_bytes())?;
    let (expr, _) = expression(alloc, 64, &tokens, END)?;
    Ok(match &expr {
        Expr::Binary { left, .. } => match &**left {
            Expr::Cast {
                rate,
                value_type,
                ..
            } => Some((*rate, *value_type)),
            _ => None,
        },
        _ => None,
    })
}

#[test]
fn a_cast_has_its_rate_and_its_type(rt: HostRuntime) {
    let found = cast_at_left(rt.alloc(), "( int8 uniform unsigned ) a + b");
    let wanted = Some((Some(Rate::Uniform), Some(IntType::Uint8)));
    holds(&rt, found == Ok(wanted), "a cast");
}

// A refusal of this number at the token.
fn at(number: RefusalNumber, col: u32) -> SourceFault {
    let place = Place { line: 1, col };
    SourceFault::Refused(SourceRefusal { number, place })
}

fn at_end() -> SourceFault {
    let number = S3;
    SourceFault::Refused(SourceRefusal { number, place: END })
}

// Why a text spells no expression.
fn refusal(alloc: Global, text: &[u8]) -> Option<SourceFault> {
    match tokens(alloc, text) {
        Ok(tokens) => expression(alloc, 64, &tokens, END).err(),
        Err(fault) => Some(fault),
    }
}

// Expressions that end too early.
const UNENDED: &[&str] = &["", "a +"];

// The first token at which nothing can follow.
const REFUSED: &[(&str, u32)] = &[
    ("a + )", 3),
    ("( a ;", 3),
    ("a [ b )", 4),
    ("a ( ,", 3),
    ("a ( b , )", 5),
    ("a ? b ;", 4),
    ("...", 1),
    ("& b", 1),
    // A cast has a rate and one type.
    ("( uniform ) a", 3),
    ("( int int ) a", 3),
    ("( int const ) a", 3),
    ("( varying uniform ) a", 3),
    ("( bool unsigned ) a", 3),
    ("( unsigned uint ) a", 3),
    ("( int a )", 3),
];

#[test]
fn refusals_stand_where_nothing_can_follow(rt: HostRuntime) {
    for text in UNENDED {
        let is_so = refusal(rt.alloc(), text.as_bytes()) == Some(at_end());
        holds(&rt, is_so, text);
    }
    for &(text, col) in REFUSED {
        let is_so = refusal(rt.alloc(), text.as_bytes()) == Some(at(S3, col));
        holds(&rt, is_so, text);
    }
}

// A text so many times and another, and why they spell no expression: 64 nestings and 256 operators are the most.
const LIMITS: &[(&str, usize, &str, Option<(RefusalNumber, u32)>)] = &[
    ("- ", 64, "a", None),
    ("- ", 65, "a", Some((S4, 65))),
    ("( ", 65, "a", Some((S4, 65))),
    ("( ", 64, "a [ b", Some((S4, 66))),
    ("( ", 64, "a ( )", Some((S4, 66))),
    ("( ", 64, "a ? b", Some((S4, 66))),
    ("( ", 64, "( int", Some((S4, 65))),
    ("a + ", 256, "a", None),
    ("a + ", 257, "a", Some((S13, 514))),
    ("a + ", 256, "a ? a : a", Some((S13, 514))),
    ("a + ", 256, "a [ a ]", Some((S13, 513))),
    ("a + ", 256, "( int ) a", Some((S13, 513))),
    ("a + ", 256, "( a )", None),
];

// Whether a text so many times and another are refused so.
fn is_limited(
    alloc: Global,
    first: &str,
    count: usize,
    rest: &str,
    wanted: Option<SourceFault>,
) -> Result<bool, SourceFault> {
    let text = repeated(alloc, first, count, rest)?;
    Ok(refusal(alloc, &text) == wanted)
}

#[test]
fn the_65th_nesting_and_the_257th_operator_are_refused(rt: HostRuntime) {
    for &(first, count, rest, refused) in LIMITS {
        let wanted = refused.map(|(number, col)| at(number, col));
        let is_so = is_limited(rt.alloc(), first, count, rest, wanted) == Ok(true);
        assert!(&rt; is_so, "{first} {count} times, and {rest}");
    }
}

// How many arguments two sums with 256 operators are, and how many tokens are left.
fn counts_of_two_sums(alloc: Global) -> Result<(usize, usize), SourceFault> {
    let mut text = repeated(alloc, "a + ", 256, "a , ")?;
    let second = repeated(alloc, "a + ", 256, "a ) ;")?;
    text.extend_from_slice(&second)?;
    let tokens = tokens(alloc, &text)?;
    let (args, rest) = arguments(alloc, 63, &tokens, END)?;
    Ok((args.len(), rest.len()))
}

#[test]
fn arguments_of_a_statement_count_alone(rt: HostRuntime) {
    holds(
        &rt,
        counts_of_two_sums(rt.alloc()) == Ok((2, 2)),
        "two sums",
    );
}

fn spec(alloc: Global, text: &str) -> Result<(Spec, usize), SourceFault> {
    let tokens = tokens(alloc, text.as_bytes())?;
    let (spec, rest) = take_spec(&tokens, END)?;
    Ok((spec, rest.len()))
}

const PLAIN: Spec = Spec {
    is_exported: false,
    is_static: false,
    is_inline: false,
    is_constant: false,
    rate: None,
    value_type: Some(IntType::Uint32),
};

const SPECS: &[(&str, Spec)] = &[
    (
        "unsigned uniform export int8 static const inline a",
        Spec {
            is_exported: true,
            is_static: true,
            is_inline: true,
            is_constant: true,
            rate: Some(Rate::Uniform),
            value_type: Some(IntType::Uint8),
        },
    ),
    ("unsigned a", PLAIN),
    ("int unsigned a", PLAIN),
    ("uint a", PLAIN),
    (
        "void a",
        Spec {
            value_type: None,
            ..PLAIN
        },
    ),
];

#[test]
fn the_words_of_a_spec_stand_in_any_order(rt: HostRuntime) {
    for &(text, wanted) in SPECS {
        holds(&rt, spec(rt.alloc(), text) == Ok((wanted, 1)), text);
    }
}

// What is no spec: the token at which it is refused.
const NO_SPECS: &[(&str, u32)] = &[("const int const a", 3), ("uniform a", 2), ("a", 1)];

#[test]
fn a_spec_has_one_type_and_each_word_once(rt: HostRuntime) {
    for &(text, col) in NO_SPECS {
        let is_so = spec(rt.alloc(), text) == Err(at(S3, col));
        holds(&rt, is_so, text);
    }
    holds(&rt, spec(rt.alloc(), "") == Err(at_end()), "no spec");
}
