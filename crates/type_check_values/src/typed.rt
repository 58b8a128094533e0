//! Expressions with a type and a rate.
ghost use Rattle.std.specs.Prelude.{◌≡◌, IfOk};
ghost use Rattle.gang_model.specs.Types.Conversions as model;
ghost use Rattle.typed_tree.specs.Views.{expr_view};
ghost use Rattle.type_check_values.specs.Views.{typed_view};

use crate::boxes::boxed_expr;
use gang_types::{IntType, Rate};
use std::alloc::{AllocError, Global};
use typed_tree::Expr;

/// An expression with its type and rate.
#[derive(Drop)]
pub struct Typed {
    pub expr: Box<Expr>,
    pub value_type: IntType,
    pub rate: Rate,
}

impl Typed {
    /// The expression with its type and rate, in a box.
    ///
    /// # Errors
    ///
    /// Out of memory.
    pub fn new(
        alloc: Global,
        expr: Expr,
        value_type: IntType,
        rate: Rate,
    ) -> Result<Typed, AllocError>
        ensures typed { IfOk result (λ e. typed_view e ≡ model.typed (expr_view expr) value_type rate) }
    {
        let expr = boxed_expr(alloc, expr)?;
        Ok(Typed {
            expr,
            value_type,
            rate,
        })
    }
}
