//! Elements of arrays.
ghost use Rattle.std.specs.Prelude.{◌≡◌, ◌||◌, IfOk, Some, not};
ghost use Rattle.source_tree.specs.Expressions.{expr_view};
ghost use Rattle.gang_model.specs.Source.Judged.{least_fault, unless};
ghost use Rattle.gang_model.specs.Types.Typing as typing;
ghost use Rattle.source_answers.specs.Answers.{Answers};
ghost use Rattle.type_check_scopes.specs.Entries.{declared_view};
ghost use Rattle.type_check_values.specs.Views.{typed_view};

use crate::places::first_of;
use crate::values::refusal;
use gang_model::{RefusalNumber, SourceRefusal};
use gang_types::{IntType, Place, is_bool};
use source_answers::{SourceFault, fault_if, least, refuse};
use source_tree::Expr;
use std::alloc::{AllocError, Global};
use type_check_scopes::{Declared, TypeScope};
use type_check_values::Typed;
use typed_tree::Expr as TypedExpr;

/// Whether it is no array, or has elements of no value.
fn has_no_element(declared: Declared) -> bool
    ensures { result ≡ (not declared.is_array || declared.is_void) }
{
    !declared.is_array || declared.is_void
}

/// S8 at a name that is no array, or has elements of no value; S8 at an index that is bool.
fn element_fault(
    place: Place,
    name: &[u8],
    index: &Expr,
    value: &Typed,
    declared: Declared,
) -> Option<SourceRefusal>
    ensures { result ≡ least_fault (typing.element_faults place (expr_view index.now) (typed_view value.now) (Some (declared_view name.now declared))) }
{
    let no_element = fault_if(has_no_element(declared), RefusalNumber::S8, place);
    let bool_index = fault_if(
        is_bool(value.value_type),
        RefusalNumber::S8,
        first_of(index),
    );
    least(no_element, bool_index)
}

/// An element of a declared array.
fn element_value(
    alloc: Global,
    name: &[u8],
    index: Typed,
    declared: Declared,
) -> Result<Typed, AllocError>
    ensures element { IfOk result (λ e. typed_view e ≡ typing.element (typed_view index) (Some (declared_view name.now declared))) }
{
    let rate = index.rate;
    let expr = TypedExpr::Element {
        array: declared.id,
        index: index.expr,
    };
    Typed::new(alloc, expr, declared.value_type, rate)
}

/// The element of an array at an index with this value.
///
/// # Errors
///
/// S8 at what is indexed and is no array, or has elements of no value; S8 at an index that is bool. Out of memory.
pub(crate) fn element(
    alloc: Global,
    place: Place,
    name: &[u8],
    index: &Expr,
    value: Typed,
    scope: &TypeScope,
) -> Result<Typed, SourceFault>
    ensures { Answers typed_view result (unless (typing.element_faults place (expr_view index.now) (typed_view value) (typing.entry_of scope.now.entries name.now)) (typing.element (typed_view value) (typing.entry_of scope.now.entries name.now))) }
{
    match scope.find(name) {
        None => Err(refusal(RefusalNumber::S8, place)),
        Some(declared) => {
            refuse(element_fault(place, name, index, &value, declared))?;
            Ok(element_value(alloc, name, value, declared)?)
        }
    }
}
