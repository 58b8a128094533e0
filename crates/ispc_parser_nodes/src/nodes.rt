//! Nodes of expressions, each in a box, made of their children's boxes.
ghost use Rattle.std.specs.Prelude.{◌≡◌, IfOk};
ghost use Rattle.gang_model.specs.Source.Parsed.{ParsedNumber, ParsedBool, ParsedName, ParsedIndex, ParsedCall, ParsedParen, ParsedUnary, ParsedCast, ParsedBinary, ParsedChoice};
ghost use Rattle.source_tree.specs.Expressions.{expr_view, args_view};

use gang_model::Infix;
use gang_types::{IntType, Place, Rate, UnaryOp};
use ispc_lexer::Number;
use source_answers::boxed;
use source_tree::{Arg, Expr};
use std::alloc::{AllocError, Global};

fn in_box(alloc: Global, expr: Expr) -> Result<Box<Expr>, AllocError>
    ensures { IfOk result (λ node. node.value ≡ expr) }
{
    boxed(alloc, expr)
}

/// A number.
///
/// # Errors
///
/// Out of memory.
pub fn number(alloc: Global, place: Place, number: Number) -> Result<Box<Expr>, AllocError>
    ensures { IfOk result (λ node. expr_view node.value ≡ ParsedNumber place number.value number.is_unsigned number.is_long) }
{
    in_box(alloc, Expr::Number { place, number })
}

/// A truth value.
///
/// # Errors
///
/// Out of memory.
pub fn truth(alloc: Global, place: Place, value: bool) -> Result<Box<Expr>, AllocError>
    ensures { IfOk result (λ node. expr_view node.value ≡ ParsedBool place value) }
{
    in_box(alloc, Expr::Truth { place, value })
}

/// A name, whose bytes are copied.
///
/// # Errors
///
/// Out of memory.
pub fn name(alloc: Global, place: Place, name: &[u8]) -> Result<Box<Expr>, AllocError>
    ensures { IfOk result (λ node. expr_view node.value ≡ ParsedName place name.now) }
{
    let name = name.to_vec(alloc)?;
    in_box(alloc, Expr::Name { place, name })
}

/// An element of the array that a name stands for.
///
/// # Errors
///
/// Out of memory.
pub fn index(
    alloc: Global,
    place: Place,
    name: &[u8],
    index: Box<Expr>,
) -> Result<Box<Expr>, AllocError>
    ensures { IfOk result (λ node. expr_view node.value ≡ ParsedIndex place name.now (expr_view index.value)) }
{
    let name = name.to_vec(alloc)?;
    in_box(alloc, Expr::Index { place, name, index })
}

/// A call of the function that a name stands for.
///
/// # Errors
///
/// Out of memory.
pub fn call(
    alloc: Global,
    place: Place,
    name: &[u8],
    args: Vec<Arg>,
) -> Result<Box<Expr>, AllocError>
    ensures { IfOk result (λ node. expr_view node.value ≡ ParsedCall place name.now (args_view args.items)) }
{
    let name = name.to_vec(alloc)?;
    in_box(alloc, call_of(place, name, args))
}

fn call_of(place: Place, name: Vec<u8>, args: Vec<Arg>) -> Expr
    ensures { expr_view result ≡ ParsedCall place name.items (args_view args.items) }
{
    Expr::Call { place, name, args }
}

/// An expression in parentheses.
///
/// # Errors
///
/// Out of memory.
pub fn paren(alloc: Global, place: Place, inner: Box<Expr>) -> Result<Box<Expr>, AllocError>
    ensures { IfOk result (λ node. expr_view node.value ≡ ParsedParen place (expr_view inner.value)) }
{
    in_box(alloc, Expr::Paren { place, inner })
}

/// A unary operator with its operand.
///
/// # Errors
///
/// Out of memory.
pub fn unary(
    alloc: Global,
    place: Place,
    operator: UnaryOp,
    operand: Box<Expr>,
) -> Result<Box<Expr>, AllocError>
    ensures { IfOk result (λ node. expr_view node.value ≡ ParsedUnary place operator (expr_view operand.value)) }
{
    in_box(
        alloc,
        Expr::Unary {
            place,
            operator,
            operand,
        },
    )
}

/// A cast to a rate, where one is written, and to a type, `None` being `void`.
///
/// # Errors
///
/// Out of memory.
pub fn cast(
    alloc: Global,
    place: Place,
    rate: Option<Rate>,
    value_type: Option<IntType>,
    operand: Box<Expr>,
) -> Result<Box<Expr>, AllocError>
    ensures { IfOk result (λ node. expr_view node.value ≡ ParsedCast place rate value_type (expr_view operand.value)) }
{
    in_box(
        alloc,
        Expr::Cast {
            place,
            rate,
            value_type,
            operand,
        },
    )
}

/// A binary operator with its operands.
///
/// # Errors
///
/// Out of memory.
pub fn binary(
    alloc: Global,
    operator: Infix,
    left: Box<Expr>,
    right: Box<Expr>,
) -> Result<Box<Expr>, AllocError>
    ensures { IfOk result (λ node. expr_view node.value ≡ ParsedBinary operator (expr_view left.value) (expr_view right.value)) }
{
    in_box(
        alloc,
        Expr::Binary {
            operator,
            left,
            right,
        },
    )
}

/// A test with the values that it chooses from.
///
/// # Errors
///
/// Out of memory.
pub fn choice(
    alloc: Global,
    test: Box<Expr>,
    first: Box<Expr>,
    second: Box<Expr>,
) -> Result<Box<Expr>, AllocError>
    ensures { IfOk result (λ node. expr_view node.value ≡ ParsedChoice (expr_view test.value) (expr_view first.value) (expr_view second.value)) }
{
    in_box(
        alloc,
        Expr::Choice {
            test,
            first,
            second,
        },
    )
}
