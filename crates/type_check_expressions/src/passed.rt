//! What the arguments of calls pass.
ghost use Rattle.std.specs.Prelude.{◌≡◌, List, option_map};
ghost use Rattle.source_tree.specs.Expressions.{expr_view};
ghost use Rattle.gang_model.specs.Types.Conversions as model;
ghost use Rattle.gang_model.specs.Source.Judged.{Judged, least_fault};
ghost use Rattle.gang_model.specs.Types.Typing as typing;
ghost use Rattle.source_answers.specs.Answers.{Answers};
ghost use Rattle.type_check_scopes.specs.Entries.{entry_view};
ghost use Rattle.type_check_scopes.specs.Passings.{passing_view};
ghost use Rattle.type_check_values.specs.Views.{typed_view};
ghost use Rattle.type_check_expressions.specs.Arguments.{followed, index_faults, passings_view, view_indexed, view_of};

use crate::named::{entry_of, named_array};
use crate::places::{first_of, name_of};
use crate::values::refusal;
use gang_model::{RefusalNumber, SourceRefusal};
use gang_types::{IntType, Place, VarId, is_bool};
use source_answers::{SourceFault, both, fault_if, least, refuse};
use source_tree::Expr;
use type_check_scopes::{Entry, Passing, TypeScope, built_in, index_variable};
use type_check_values::{Typed, is_varying};

/// An argument without `&`, which has this value: an array's name is passed as the array, anything else as the value.
///
/// # Errors
///
/// Those of the value, if it is no array.
pub(crate) fn passed<'a>(
    expr: &'a Expr,
    value: Result<Typed, SourceFault>,
    scope: &TypeScope,
) -> Result<Passing<'a>, SourceFault>
    ensures { (judged : Judged model.Typed) → Answers typed_view value judged → Answers passing_view result (typing.passed (expr_view expr.now) (typing.array_of (typing.named_entry (expr_view expr.now) scope.now.entries)) judged) }
{
    match named_array(expr, scope) {
        Some(entry) => Ok(Passing::View {
            place: name_of(expr),
            entry,
            from: None,
        }),
        None => Ok(Passing::Scalar {
            place: first_of(expr),
            value: value?,
        }),
    }
}

/// What a name declares, else what is built in.
fn referred_entry<'a>(name: &'a [u8], scope: &TypeScope) -> Option<Entry<'a>>
    ensures { option_map entry_view result ≡ typing.or_built_in name.now (typing.entry_of scope.now.entries name.now) }
{
    match entry_of(name, scope) {
        Some(entry) => Some(entry),
        None => {
            let value = built_in(name)?;
            Some(Entry {
                name,
                declared: index_variable(VarId::Local(0), IntType::Int32, value.rate),
            })
        }
    }
}

/// `&x` as an argument.
///
/// # Errors
///
/// S5 if there is no x.
pub(crate) fn referred<'a>(
    place: Place,
    name: &'a [u8],
    scope: &TypeScope,
) -> Result<Passing<'a>, SourceFault>
    ensures { Answers passing_view result (typing.referred place (typing.or_built_in name.now (typing.entry_of scope.now.entries name.now))) }
{
    match referred_entry(name, scope) {
        None => Err(refusal(RefusalNumber::S5, place)),
        Some(entry) => Ok(Passing::Reference { place, entry }),
    }
}

/// The array in `&x[e]`.
///
/// # Errors
///
/// S8 at the name if it is no array.
pub(crate) fn viewed<'a>(
    place: Place,
    name: &'a [u8],
    scope: &TypeScope,
) -> Result<Entry<'a>, SourceFault>
    ensures { Answers entry_view result (typing.viewed place (typing.entry_of scope.now.entries name.now)) }
{
    match entry_of(name, scope) {
        None => Err(refusal(RefusalNumber::S8, place)),
        Some(entry) => {
            refuse(fault_if(!entry.declared.is_array, RefusalNumber::S8, place))?;
            Ok(entry)
        }
    }
}

fn view_index_fault(index: &Expr, value: &Typed) -> Option<SourceRefusal>
    ensures { result ≡ least_fault (index_faults (expr_view index.now) (typed_view value.now)) }
{
    let varying = fault_if(is_varying(value.rate), RefusalNumber::S7, first_of(index));
    let is_truth = fault_if(
        is_bool(value.value_type),
        RefusalNumber::S8,
        first_of(index),
    );
    least(varying, is_truth)
}

/// The index in `&a[e]`.
///
/// # Errors
///
/// Those of the index; else S7 at one that is varying, S8 at one that is bool.
pub(crate) fn view_index(
    index: &Expr,
    value: Result<Typed, SourceFault>,
) -> Result<Typed, SourceFault>
    ensures { (judged : Judged model.Typed) → Answers typed_view value judged → Answers typed_view result (view_indexed (expr_view index.now) judged) }
{
    let value = value?;
    refuse(view_index_fault(index, &value))?;
    Ok(value)
}

/// `&a[e]` as an argument.
///
/// # Errors
///
/// The lesser fault of the array and the index.
pub(crate) fn view_from<'a>(
    place: Place,
    array: Result<Entry<'a>, SourceFault>,
    index: Result<Typed, SourceFault>,
) -> Result<Passing<'a>, SourceFault>
    ensures { (of_array : Judged typing.Entry) (of_index : Judged model.Typed) → Answers entry_view array.entry of_array → Answers typed_view index of_index → Answers passing_view result (view_of place of_array of_index) }
{
    let (entry, index) = both(array, index)?;
    Ok(Passing::View {
        place,
        entry,
        from: Some(index.expr),
    })
}

/// The arguments so far, and one after them.
///
/// # Errors
///
/// The lesser fault of the two. Out of memory.
pub(crate) fn with_next<'a>(
    given: Result<Vec<Passing<'a>>, SourceFault>,
    next: Result<Passing<'a>, SourceFault>,
) -> Result<Vec<Passing<'a>>, SourceFault>
    ensures { (so_far : Judged (List typing.Passing)) (last : Judged typing.Passing) → Answers passings_view given.entry so_far → Answers passing_view next.entry last → Answers passings_view result (followed so_far last) }
{
    let (mut given, next) = both(given, next)?;
    given.push(next)?;
    Ok(given)
}
