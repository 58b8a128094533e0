//! The first fault of names of a tree.
ghost use Rattle.std.specs.Prelude.{◌≡◌, ◌++◌, IfOk, map};
ghost use Rattle.std.specs.List.{flat_map};
ghost use Rattle.gang_model.specs.Source.Judged.{least_fault};
ghost use Rattle.gang_model.specs.Names.NameFaults as names;
ghost use Rattle.gang_model.specs.Names.Scope.{file_bindings};
ghost use Rattle.gang_model.specs.Types.SourceRefusals.{names_refusal};
ghost use Rattle.source_tree.specs.Tree.{function_view, global_view, tree_view};
ghost use Rattle.ispc_names_faults.specs.NamesOfAll.{names_of_all};

use crate::outermost::functions_fault;
use gang_model::SourceRefusal;
use ispc_names_declarations::{
    add_names, declare_globals, functions_of, functions_twice_fault, globals_of,
    globals_twice_fault,
};
use ispc_names_scopes::{FunctionNames, Scopes};
use source_answers::least;
use source_tree::{Function, GlobalVariable, Tree};
use std::alloc::{AllocError, Global};

/// The first fault of names inside functions, where all functions and the file-scope variables are made known.
fn known_functions_fault(
    alloc: Global,
    globals: &[&GlobalVariable],
    functions: &[&Function],
    known: &mut FunctionNames,
    scopes: &mut Scopes,
) -> Result<Option<SourceRefusal>, AllocError>
    ensures fault { IfOk result (λ fault. fault ≡ least_fault (flat_map (names.function_names (known.old ++ map (λ f. f.name) (map (λ f. function_view f.now) functions.now))
        (file_bindings 0 (map (λ g. global_view g.now) globals.now) ++ scopes.old.environment)) (map (λ f. function_view f.now) functions.now))) }
{
    add_names(alloc, functions, known)?;
    declare_globals(alloc, globals, scopes)?;
    functions_fault(alloc, functions, known, scopes)
}

/// The first fault of names inside functions.
fn inside_functions(
    alloc: Global,
    globals: &[&GlobalVariable],
    functions: &[&Function],
) -> Result<Option<SourceRefusal>, AllocError>
    ensures fault { IfOk result (λ fault. fault ≡ least_fault (flat_map (names.function_names (map (λ f. f.name) (map (λ f. function_view f.now) functions.now)) (file_bindings 0 (map (λ g. global_view g.now) globals.now))) (map (λ f. function_view f.now) functions.now))) }
{
    let mut known = FunctionNames::new(alloc);
    let mut scopes = Scopes::new(alloc);
    known_functions_fault(alloc, globals, functions, &mut known, &mut scopes)
}

/// The first fault of names of file-scope variables and functions.
fn least_of_all(
    alloc: Global,
    globals: &[&GlobalVariable],
    functions: &[&Function],
) -> Result<Option<SourceRefusal>, AllocError>
    ensures fault { IfOk result (λ fault. fault ≡ least_fault (names_of_all (map (λ g. global_view g.now) globals.now) (map (λ f. function_view f.now) functions.now))) }
{
    let in_globals = globals_twice_fault(alloc, globals)?;
    let in_signatures = functions_twice_fault(alloc, functions)?;
    let in_functions = inside_functions(alloc, globals, functions)?;
    Ok(least(in_globals, least(in_signatures, in_functions)))
}

/// The first fault of names of a tree: the one with the first place, at one place the one with the least number. S5 is a name
/// that nothing declares, S6 one that its scope has already, S11 a statement and S12 a call that may not stand there.
///
/// # Errors
///
/// Out of memory.
pub fn names_fault(alloc: Global, tree: &Tree) -> Result<Option<SourceRefusal>, AllocError>
    ensures fault { IfOk result (λ fault. fault ≡ names_refusal (tree_view tree.now)) }
{
    let globals = globals_of(alloc, tree)?;
    let functions = functions_of(alloc, tree)?;
    least_of_all(alloc, &globals, &functions)
}
