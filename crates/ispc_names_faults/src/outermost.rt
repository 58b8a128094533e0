//! The faults of names in functions.
ghost use Rattle.std.specs.Prelude.{◌≡◌, ◌||◌, IfOk, OnOk, is_some, map};
ghost use Rattle.std.specs.List.{flat_map};
ghost use Rattle.gang_model.specs.Source.Judged.{least_fault};
ghost use Rattle.gang_model.specs.Types.LibraryTable as table;
ghost use Rattle.gang_model.specs.Names.NameFaults as names;
ghost use Rattle.source_tree.specs.Tree.{function_view};

use crate::statements::body_fault;
use gang_model::{RefusalNumber, SourceRefusal};
use ispc_names_declarations::params_fault;
use ispc_names_expressions::in_function;
use ispc_names_scopes::{FunctionNames, Scopes, is_library_name, statement_call};
use source_answers::{fault_if, least};
use source_tree::Function;
use std::alloc::{AllocError, Global};

/// Whether a name is the library's.
fn is_of_library(name: &[u8]) -> bool
    ensures { result ≡ (table.is_library_name name.now || is_some (table.statement_call name.now)) }
{
    is_library_name(name) || statement_call(name).is_some()
}

/// The first fault of names in a function: a name of the library's, its parameters, and its body, which is in their scope.
fn function_fault(
    alloc: Global,
    function: &Function,
    functions: &FunctionNames,
    scopes: &mut Scopes,
) -> Result<Option<SourceRefusal>, AllocError>
    ensures fault { IfOk result (λ fault. fault ≡ least_fault (names.function_names functions.now scopes.old.environment (function_view function.now))) }
    ensures environment { OnOk result (scopes.new.environment ≡ scopes.old.environment) }
{
    let is_taken = is_of_library(&function.name);
    let own = fault_if(is_taken, RefusalNumber::S6, function.place);
    let mark = scopes.begin_function();
    let in_params = params_fault(alloc, &function.params, scopes)?;
    let in_body = body_fault(alloc, &function.body, in_function(), functions, scopes)?;
    scopes.leave(mark);
    Ok(least(own, least(in_params, in_body)))
}

/// The first fault of names in the functions of a source, whose variables are in scope.
pub(crate) fn functions_fault(
    alloc: Global,
    functions: &[&Function],
    known: &FunctionNames,
    scopes: &mut Scopes,
) -> Result<Option<SourceRefusal>, AllocError>
    ensures fault { IfOk result (λ fault. fault ≡ least_fault (flat_map (names.function_names known.now scopes.old.environment) (map (λ f. function_view f.now) functions.now))) }
{
    let mut first = None;
    for function in functions {
        first = least(first, function_fault(alloc, function, known, scopes)?);
    }
    Ok(first)
}
