//! The functions and the variables of a file.
ghost use Rattle.std.specs.Prelude.{◌≡◌, ◌++◌, ◌∷◌, ◌||◌, [], IfOk, OnOk, map};
ghost use Rattle.gang_model.specs.Source.Judged.{least_fault};
ghost use Rattle.gang_model.specs.Types.LibraryTable.{is_among};
ghost use Rattle.gang_model.specs.Names.NameFaults as names;
ghost use Rattle.gang_model.specs.Source.Parsed.{functions_in, globals_in};
ghost use Rattle.gang_model.specs.Names.Scope.{file_bindings, is_built_in};
ghost use Rattle.source_tree.specs.Tree.{function_view, global_view, item_view, tree_view};
ghost use Rattle.ispc_names_declarations.specs.NamesBefore.{later_globals};

use crate::declarations::is_built_in;
use gang_model::{RefusalNumber, SourceRefusal};
use ispc_names_scopes::{FunctionNames, Scopes};
use source_answers::{fault_if, least};
use source_tree::{Function, GlobalVariable, Item, Tree};
use std::alloc::{AllocError, Global};

/// Takes in an item that is a function.
fn take_function<'a>(item: &'a Item, functions: &mut Vec<&'a Function>) -> Result<(), AllocError>
    ensures taken { OnOk result (map (λ x. function_view x.now) functions.new.items ≡ map (λ x. function_view x.now) functions.old.items ++ functions_in (item_view item.now ∷ [])) }
{
    let Item::Function(function) = item else {
        return Ok(());
    };
    functions.push(function)?;
    Ok(())
}

/// The functions of a tree, in order.
///
/// # Errors
///
/// Out of memory.
pub fn functions_of(alloc: Global, tree: &Tree) -> Result<Vec<&Function>, AllocError>
    ensures functions { IfOk result (λ functions. map (λ f. function_view f.now) functions.items ≡ functions_in (tree_view tree.now)) }
{
    let mut functions = Vec::new(alloc);
    for item in &tree.items {
        take_function(item, &mut functions)?;
    }
    Ok(functions)
}

/// Takes in an item that is a file-scope variable.
fn take_global<'a>(item: &'a Item, globals: &mut Vec<&'a GlobalVariable>) -> Result<(), AllocError>
    ensures taken { OnOk result (map (λ x. global_view x.now) globals.new.items ≡ map (λ x. global_view x.now) globals.old.items ++ globals_in (item_view item.now ∷ [])) }
{
    let Item::Global(global) = item else {
        return Ok(());
    };
    globals.push(global)?;
    Ok(())
}

/// The file-scope variables of a tree, in order.
///
/// # Errors
///
/// Out of memory.
pub fn globals_of(alloc: Global, tree: &Tree) -> Result<Vec<&GlobalVariable>, AllocError>
    ensures globals { IfOk result (λ globals. map (λ g. global_view g.now) globals.items ≡ globals_in (tree_view tree.now)) }
{
    let mut globals = Vec::new(alloc);
    for item in &tree.items {
        take_global(item, &mut globals)?;
    }
    Ok(globals)
}

/// The names of functions, in order, after those that stand already.
///
/// # Errors
///
/// Out of memory.
pub fn add_names(
    alloc: Global,
    functions: &[&Function],
    known: &mut FunctionNames,
) -> Result<(), AllocError>
    ensures known { OnOk result (known.new ≡ known.old ++ map (λ f. f.name) (map (λ f. function_view f.now) functions.now)) }
{
    for function in functions {
        known.add(alloc, &function.name)?;
    }
    Ok(())
}

/// Declares the file-scope variables, which are then in scope everywhere, before what is declared already.
///
/// # Errors
///
/// Out of memory.
pub fn declare_globals(
    alloc: Global,
    globals: &[&GlobalVariable],
    scopes: &mut Scopes,
) -> Result<(), AllocError>
    ensures environment { OnOk result (scopes.new.environment ≡ file_bindings 0 (map (λ g. global_view g.now) globals.now) ++ scopes.old.environment) }
{
    for later in 0..globals.len() {
        let number = globals.len() - 1 - later;
        scopes.declare_in_file(alloc, &globals[number].name, number)?;
    }
    Ok(())
}

/// Whether a name stands before, or nothing may declare it.
fn is_taken(before: &FunctionNames, name: &[u8]) -> bool
    ensures { result ≡ (is_among name.now before.now || is_built_in name.now) }
{
    before.contains(name) || is_built_in(name)
}

/// The first fault of a file-scope variable with a name that stands before, where those before it count.
fn later_globals_fault(
    alloc: Global,
    globals: &[&GlobalVariable],
    before: &mut FunctionNames,
) -> Result<Option<SourceRefusal>, AllocError>
    ensures fault { IfOk result (λ fault. fault ≡ least_fault (later_globals (map (λ g. global_view g.now) globals.now) before.old)) }
{
    let mut first = None;
    for global in globals {
        let is_twice = is_taken(before, &global.name);
        first = least(first, fault_if(is_twice, RefusalNumber::S6, global.place));
        before.add(alloc, &global.name)?;
    }
    Ok(first)
}

/// The first fault of a file-scope variable with the name of one before it, or with one that nothing may declare.
///
/// # Errors
///
/// Out of memory.
pub fn globals_twice_fault(
    alloc: Global,
    globals: &[&GlobalVariable],
) -> Result<Option<SourceRefusal>, AllocError>
    ensures fault { IfOk result (λ fault. fault ≡ least_fault (names.globals_twice (map (λ g. global_view g.now) globals.now) [])) }
{
    let mut before = FunctionNames::new(alloc);
    later_globals_fault(alloc, globals, &mut before)
}
