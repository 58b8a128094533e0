//! What statements that hold others have before those.
ghost use Rattle.std.specs.Prelude.{◌≡◌, ◌+◌, ◌++◌, ◌∷◌, [], IfOk, OnOk, Some, length, map, option_map};
ghost use Rattle.gang_types.specs.declared.places.VarId.TheVariants.{Local};
ghost use Rattle.gang_model.specs.Running.Numbering as numbering;
ghost use Rattle.gang_model.specs.Source.Judged.{answer_of};
ghost use Rattle.gang_model.specs.Types.Statements as model;
ghost use Rattle.gang_model.specs.Types.Typing as typing;
ghost use Rattle.source_tree.specs.Expressions.{expr_view};
ghost use Rattle.source_tree.specs.Tree.{dim_view, stmt_view};
ghost use Rattle.typed_tree.specs.Views.{boxed_view, dimension_view};
ghost use Rattle.source_answers.specs.Answers.{Answers};
ghost use Rattle.source_answers.specs.Apart.{seen};
ghost use Rattle.type_check_values.specs.Views.{typed_view};
ghost use Rattle.type_check_scopes.specs.Entries.{declared_view};

use gang_model::RefusalNumber;
use gang_types::is_bool;
use source_answers::{Answer, SourceFault, fault_if, refuse, set_apart};
use source_tree::{Dim, Expr, Stmt};
use std::alloc::{AllocError, Global};
use type_check_expressions::{expression, first_of};
use type_check_parts::{
    advanced, declare_indices, dimensions, one_step, some_test, steps_in, test_of,
};
use type_check_scopes::{Declared, TypeScope};
use type_check_values::Typed;
use typed_tree::{Dimension, Expr as TypedExpr};

/// A test.
///
/// # Errors
///
/// Out of memory.
pub fn test_apart(
    alloc: Global,
    scope: &TypeScope,
    test: &Expr,
) -> Result<Answer<Box<TypedExpr>>, AllocError>
    ensures test { IfOk result (λ answer. answer_of (model.test_of scope.now.entries (Some (expr_view test.now))) ≡ seen boxed_view answer) }
{
    set_apart(test_of(alloc, scope, test))
}

/// A test that is a step by itself.
///
/// # Errors
///
/// Out of memory.
pub fn test_step(
    alloc: Global,
    scope: &TypeScope,
    test: &Expr,
    step: &mut usize,
) -> Result<Answer<Box<TypedExpr>>, AllocError>
    ensures test { IfOk result (λ answer. answer_of (model.test_of scope.now.entries (Some (expr_view test.now))) ≡ seen boxed_view answer) }
    ensures steps { OnOk result (step.new ≡ step.old + 1) }
{
    one_step(test_of(alloc, scope, test), step)
}

/// The number of a `for`'s update, which comes after the steps of its body. The body begins with the given step.
///
/// # Errors
///
/// Out of memory.
pub fn update_number(body: &Stmt, step: usize) -> Result<usize, AllocError>
    ensures number { IfOk result (λ number. number ≡ step + numbering.steps_in (stmt_view body.now)) }
{
    advanced(step, steps_in(body)?)
}

/// The test of a `for`; an empty one is true.
///
/// # Errors
///
/// Out of memory.
pub fn for_test(
    alloc: Global,
    scope: &TypeScope,
    test: &Option<Expr>,
) -> Result<Answer<Box<TypedExpr>>, AllocError>
    ensures test { IfOk result (λ answer. answer_of (model.test_of scope.now.entries (option_map expr_view test.now)) ≡ seen boxed_view answer) }
{
    set_apart(some_test(alloc, scope, test))
}

/// The dimensions of a `foreach`, its first step, whose index variables are declared then.
///
/// # Errors
///
/// Out of memory.
pub fn for_each_head(
    alloc: Global,
    dims: &[Dim],
    scope: &mut TypeScope,
    step: &mut usize,
) -> Result<Answer<Vec<Dimension>>, AllocError>
    ensures dimensions { IfOk result (λ answer. answer_of (model.dimensions scope.old.entries (length scope.old.locals) (map dim_view dims.now)) ≡ seen (λ ds. map dimension_view ds.items) answer) }
    ensures entries { OnOk result (scope.new.entries ≡ model.index_entries (length scope.old.locals) (map dim_view dims.now) scope.old.entries) }
    ensures locals { OnOk result (scope.new.locals ≡ scope.old.locals ++ model.index_variables (length scope.old.locals) (map dim_view dims.now)) }
    ensures steps { OnOk result (step.new ≡ step.old + 1) }
{
    *step = advanced(*step, 1)?;
    let dimensions = dimensions(alloc, scope, dims)?;
    declare_indices(alloc, dims, scope)?;
    Ok(dimensions)
}

/// The first step of a `foreach_active` or `foreach_unique`, whose index variable is declared then.
///
/// # Errors
///
/// Out of memory.
pub fn rounds_head(
    alloc: Global,
    name: &[u8],
    index: Declared,
    scope: &mut TypeScope,
    step: &mut usize,
) -> Result<(), AllocError>
    requires next { index.id ≡ Local (length scope.old.locals) }
    ensures entries { OnOk result (scope.new.entries ≡ declared_view name.now index ∷ scope.old.entries) }
    ensures locals { OnOk result (scope.new.locals ≡ scope.old.locals ++ (declared_view name.now index).variable ∷ []) }
    ensures steps { OnOk result (step.new ≡ step.old + 1) }
{
    *step = advanced(*step, 1)?;
    scope.declare(alloc, name, index)
}

/// The value of a `foreach_unique`.
///
/// # Errors
///
/// Out of memory.
pub fn value_apart(
    alloc: Global,
    scope: &TypeScope,
    value: &Expr,
) -> Result<Answer<Typed>, AllocError>
    ensures value { IfOk result (λ answer. answer_of (typing.expression (expr_view value.now) scope.now.entries) ≡ seen typed_view answer) }
{
    set_apart(expression(alloc, value, scope))
}

/// What a `switch` selects by: no bool.
fn selector_of(alloc: Global, scope: &TypeScope, selector: &Expr) -> Result<Typed, SourceFault>
    ensures { Answers typed_view result (model.selector scope.now.entries (expr_view selector.now)) }
{
    let value = expression(alloc, selector, scope)?;
    refuse(fault_if(
        is_bool(value.value_type),
        RefusalNumber::S8,
        first_of(selector),
    ))?;
    Ok(value)
}

/// What a `switch` selects by, its only step of its own.
///
/// # Errors
///
/// Out of memory.
pub fn selector_step(
    alloc: Global,
    scope: &TypeScope,
    selector: &Expr,
    step: &mut usize,
) -> Result<Answer<Typed>, AllocError>
    ensures selector { IfOk result (λ answer. answer_of (model.selector scope.now.entries (expr_view selector.now)) ≡ seen typed_view answer) }
    ensures steps { OnOk result (step.new ≡ step.old + 1) }
{
    one_step(selector_of(alloc, scope, selector), step)
}
