//! Expressions and statements in boxes.
ghost use Rattle.std.specs.Prelude.{◌≡◌, IfOk};

use source_answers::boxed;
use std::alloc::{AllocError, Global};
use typed_tree::{Expr, Stmt};

/// An expression in a box.
///
/// # Errors
///
/// Out of memory.
pub fn boxed_expr(alloc: Global, expr: Expr) -> Result<Box<Expr>, AllocError>
    ensures value { IfOk result (λ place. place.value ≡ expr) }
{
    boxed(alloc, expr)
}

/// A statement in a box.
///
/// # Errors
///
/// Out of memory.
pub fn boxed_stmt(alloc: Global, stmt: Stmt) -> Result<Box<Stmt>, AllocError>
    ensures value { IfOk result (λ place. place.value ≡ stmt) }
{
    boxed(alloc, stmt)
}
