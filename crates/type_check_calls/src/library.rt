//! Calls of `assert` and of the packed calls.
ghost use Rattle.std.specs.Prelude.{◌≡◌, ◌∷◌, [], IfOk, map};
ghost use Rattle.gang_model.specs.Types.Calls as calls;
ghost use Rattle.gang_model.specs.Types.LibraryTable.{Asserts, PackedLoads, PackedStores};
ghost use Rattle.ispc_names_scopes.specs.Names.{call_view};
ghost use Rattle.source_answers.specs.Answers.{Answers};
ghost use Rattle.type_check_scopes.specs.Entries.{entry_view};
ghost use Rattle.type_check_scopes.specs.Passings.{passing_view};
ghost use Rattle.typed_tree.specs.Views.{result_view, stmt_view};
ghost use Rattle.type_check_calls.specs.Calls.{called_view};

use crate::arguments::{only, pair};
use crate::calls::Called;
use crate::faults::refused;
use gang_model::RefusalNumber;
use gang_types::{IntType, Place, Rate};
use ispc_names_scopes::StatementCall;
use source_answers::{SourceFault, fault_if, refuse};
use std::alloc::{AllocError, Global};
use type_check_scopes::{Declared, Entry, Passing};
use type_check_values::{as_bool, as_type, is_varying};
use typed_tree::{ResultFor, Stmt, Var};

/// A packed call gives how many elements were stored or loaded.
fn packed(alloc: Global, stmt: Stmt) -> Result<Called, AllocError>
    ensures called { IfOk result (λ it. called_view it ≡ calls.packed (stmt_view stmt)) }
{
    Called::new(alloc, stmt, Some((IntType::Int32, Rate::Uniform)))
}

/// `assert(bool)`.
fn asserted(
    alloc: Global,
    place: Place,
    test: Passing,
    result_for: ResultFor,
    step: usize,
) -> Result<Called, SourceFault>
    ensures { Answers called_view result (calls.library_statement place Asserts (passing_view test.entry ∷ []) (result_view result_for) step) }
{
    match test {
        Passing::Scalar { value, .. } => {
            let test = as_bool(alloc, value)?;
            Ok(Called::new(alloc, Stmt::Check { step, test }, None)?)
        }
        _ => Err(refused(RefusalNumber::S9, place)),
    }
}

/// `packed_store_active(array, value)`.
fn packed_store(
    alloc: Global,
    place: Place,
    array: Passing,
    stored: Passing,
    result_for: ResultFor,
    step: usize,
) -> Result<Called, SourceFault>
    ensures { Answers called_view result (calls.library_statement place PackedStores (passing_view array.entry ∷ passing_view stored.entry ∷ []) (result_view result_for) step) }
{
    let refusal = Err(refused(RefusalNumber::S9, place));
    match (array, stored) {
        (
            Passing::View {
                place: at,
                entry,
                from,
            },
            Passing::Scalar { value, .. },
        ) => {
            refuse(fault_if(entry.declared.is_constant, RefusalNumber::S8, at))?;
            let stmt = Stmt::PackedStore {
                step,
                array: entry.declared.id,
                from,
                value: as_type(alloc, entry.declared.value_type, value)?,
                result_for,
            };
            Ok(packed(alloc, stmt)?)
        }
        (Passing::View { .. }, Passing::View { .. }) => refusal,
        (Passing::View { .. }, Passing::Reference { .. }) => refusal,
        (Passing::Scalar { .. }, _) => refusal,
        (Passing::Reference { .. }, _) => refusal,
    }
}

/// Whether a variable can take the elements of an array lane by lane: it is varying, and of their type.
fn takes_elements(variable: Entry, array: Entry) -> bool
    ensures { result ≡ calls.takes_elements (entry_view variable.entry) (entry_view array.entry) }
{
    let into = variable.declared;
    !(into.is_array || into.is_void)
        && into.value_type == array.declared.value_type
        && is_varying(into.rate)
}

/// `packed_load_active(array, &x)`.
fn packed_load(
    alloc: Global,
    place: Place,
    array: Passing,
    loaded: Passing,
    result_for: ResultFor,
    step: usize,
) -> Result<Called, SourceFault>
    ensures { Answers called_view result (calls.library_statement place PackedLoads (passing_view array.entry ∷ passing_view loaded.entry ∷ []) (result_view result_for) step) }
{
    let refusal = Err(refused(RefusalNumber::S9, place));
    match (array, loaded) {
        (
            Passing::View { entry, from, .. },
            Passing::Reference {
                place: at,
                entry: variable,
            },
        ) => {
            if !takes_elements(variable, entry) {
                return refusal;
            }
            refuse(fault_if(variable.declared.is_constant, RefusalNumber::S8, at))?;
            let stmt = Stmt::PackedLoad {
                step,
                array: entry.declared.id,
                from,
                into: Var {
                    id: variable.declared.id,
                    value_type: variable.declared.value_type,
                    rate: variable.declared.rate,
                },
                result_for,
            };
            Ok(packed(alloc, stmt)?)
        }
        (Passing::View { .. }, Passing::Scalar { .. }) => refusal,
        (Passing::View { .. }, Passing::View { .. }) => refusal,
        (Passing::Scalar { .. }, _) => refusal,
        (Passing::Reference { .. }, _) => refusal,
    }
}

fn assert_call(
    alloc: Global,
    place: Place,
    given: Vec<Passing>,
    result_for: ResultFor,
    step: usize,
) -> Result<Called, SourceFault>
    ensures { Answers called_view result (calls.library_statement place Asserts (map passing_view given.entry.items) (result_view result_for) step) }
{
    match only(given) {
        Some(test) => asserted(alloc, place, test, result_for, step),
        None => Err(refused(RefusalNumber::S9, place)),
    }
}

fn store_call(
    alloc: Global,
    place: Place,
    given: Vec<Passing>,
    result_for: ResultFor,
    step: usize,
) -> Result<Called, SourceFault>
    ensures { Answers called_view result (calls.library_statement place PackedStores (map passing_view given.entry.items) (result_view result_for) step) }
{
    match pair(given) {
        Some((array, value)) => packed_store(alloc, place, array, value, result_for, step),
        None => Err(refused(RefusalNumber::S9, place)),
    }
}

fn load_call(
    alloc: Global,
    place: Place,
    given: Vec<Passing>,
    result_for: ResultFor,
    step: usize,
) -> Result<Called, SourceFault>
    ensures { Answers called_view result (calls.library_statement place PackedLoads (map passing_view given.entry.items) (result_view result_for) step) }
{
    match pair(given) {
        Some((array, variable)) => packed_load(alloc, place, array, variable, result_for, step),
        None => Err(refused(RefusalNumber::S9, place)),
    }
}

/// A statement call of the library.
///
/// # Errors
///
/// S9 at its name for other arguments than it takes, S8 at a constant that it stores to. Out of memory.
pub(crate) fn library_statement(
    alloc: Global,
    place: Place,
    call: StatementCall,
    given: Vec<Passing>,
    result_for: ResultFor,
    step: usize,
) -> Result<Called, SourceFault>
    ensures { Answers called_view result (calls.library_statement place (call_view call) (map passing_view given.entry.items) (result_view result_for) step) }
{
    match call {
        StatementCall::Assert => assert_call(alloc, place, given, result_for, step),
        StatementCall::PackedStore => store_call(alloc, place, given, result_for, step),
        StatementCall::PackedLoad => load_call(alloc, place, given, result_for, step),
    }
}
