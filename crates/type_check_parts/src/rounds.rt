//! The rounds of `foreach`: its bounds and its index variables.
ghost use Rattle.std.specs.Prelude.{◌≡◌, ◌++◌, IfOk, OnErr, OnOk, length, map};
ghost use Rattle.gang_types.specs.declared.types.IntType.TheVariants as int_type;
ghost use Rattle.gang_types.specs.declared.types.Rate.TheVariants.{Uniform};
ghost use Rattle.source_tree.specs.Expressions.{expr_view};
ghost use Rattle.gang_model.specs.Source.Judged as judged;
ghost use Rattle.gang_model.specs.Source.Judged.{answer_of};
ghost use Rattle.gang_model.specs.Types.Statements as model;
ghost use Rattle.gang_model.specs.Types.Typing as typing;
ghost use Rattle.source_tree.specs.Tree.{dim_view};
ghost use Rattle.typed_tree.specs.Views.{dimension_view};
ghost use Rattle.source_answers.specs.Answers.{Answers};
ghost use Rattle.source_answers.specs.Apart.{seen};
ghost use Rattle.type_check_parts.specs.Indices.{FirstDeclared};
ghost use Rattle.type_check_parts.specs.Rows.{dimension_of, first_dimensions};

use crate::numbering::advanced;
use gang_types::{IntType, Rate, VarId};
use source_answers::{Answer, SourceFault, both, both_answers, set_apart};
use source_tree::Dim;
use std::alloc::{AllocError, Global};
use type_check_expressions::given_value;
use type_check_scopes::{TypeScope, index_variable};
use typed_tree::{Dimension, Var};

/// A dimension, whose bounds are uniform int32 and judged each by itself.
fn dimension(
    alloc: Global,
    scope: &TypeScope,
    number: usize,
    dim: &Dim,
) -> Result<Dimension, SourceFault>
    ensures { Answers dimension_view result (dimension_of scope.now.entries number (dim_view dim.now)) }
{
    let low = given_value(alloc, &dim.low, scope, IntType::Int32, Rate::Uniform);
    let high = given_value(alloc, &dim.high, scope, IntType::Int32, Rate::Uniform);
    let (low, high) = both(low, high)?;
    let index = Var {
        id: VarId::Local(number),
        value_type: IntType::Int32,
        rate: Rate::Varying,
    };
    Ok(Dimension { index, low, high })
}

/// The dimensions with one more after them.
fn one_more(
    first: Answer<Vec<Dimension>>,
    next: Answer<Dimension>,
) -> Result<Answer<Vec<Dimension>>, AllocError>
    ensures more { IfOk result (λ answer. seen (λ ds. map dimension_view ds.items) answer
        ≡ first_dimensions (seen (λ ds. map dimension_view ds.items) first) (seen dimension_view next)) }
{
    match both_answers(first, next) {
        Ok((mut dimensions, next)) => {
            dimensions.push(next)?;
            Ok(Ok(dimensions))
        }
        Err(fault) => Ok(Err(fault)),
    }
}

/// The dimensions, with index variables from the function's next variable on; each is judged by itself.
///
/// # Errors
///
/// Out of memory.
pub fn dimensions(
    alloc: Global,
    scope: &TypeScope,
    dims: &[Dim],
) -> Result<Answer<Vec<Dimension>>, AllocError>
    ensures dimensions { IfOk result (λ answer. answer_of (model.dimensions scope.now.entries (length scope.now.locals) (map dim_view dims.now)) ≡ seen (λ ds. map dimension_view ds.items) answer) }
{
    let mut typed: Answer<Vec<Dimension>> = Ok(Vec::new(alloc));
    let mut number = scope.next();
    for dim in dims {
        let next = set_apart(dimension(alloc, scope, number, dim))?;
        typed = one_more(typed, next)?;
        number = advanced(number, 1)?;
    }
    Ok(typed)
}

/// Declares the index variables.
///
/// # Errors
///
/// Out of memory; the first of them may be declared then, and nothing else has changed.
pub fn declare_indices(alloc: Global, dims: &[Dim], scope: &mut TypeScope) -> Result<(), AllocError>
    ensures entries { OnOk result (scope.new.entries ≡ model.index_entries (length scope.old.locals) (map dim_view dims.now) scope.old.entries) }
    ensures locals { OnOk result (scope.new.locals ≡ scope.old.locals ++ model.index_variables (length scope.old.locals) (map dim_view dims.now)) }
    ensures begun { OnErr result (FirstDeclared (map dim_view dims.now) scope.old.entries scope.new.entries scope.old.locals scope.new.locals) }
{
    for dim in dims {
        let id = VarId::Local(scope.next());
        let index = index_variable(id, IntType::Int32, Rate::Varying);
        scope.declare(alloc, &dim.name, index)?;
    }
    Ok(())
}
