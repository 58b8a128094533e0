//! Functions with all that they call.
ghost use Rattle.std.specs.Prelude.{◌≡◌, ◌↔◌, [], ◌∷◌, false, length, map, replicate, IfOk, IsTrue, Some};
ghost use Rattle.gang_model.specs.Source.Parsed.{functions_in};
ghost use Rattle.gang_model.specs.Types.Resolved.{program_of};
ghost use Rattle.gang_model.specs.Running.LanePure.{IsLanePure};
ghost use Rattle.gang_model.specs.Running.SeparateInstances.{HasSeparateLanes};
ghost use Rattle.source_tree.specs.Tree as written;
ghost use Rattle.source_tree.specs.Tree.{tree_view};
ghost use Rattle.typed_tree.specs.Views.{function_view, program_view};
ghost use Rattle.lane_pure.specs.Answers.{AreAnswers};
ghost use Rattle.lane_pure.specs.Found.{IsListed, with_impure};

use crate::callers::callers_of;
use crate::found::Found;
use crate::signatures::is_pure_function;
use gang_types::FuncId;
use source_tree::{Item, Tree};
use std::alloc::{AllocError, Global};
use typed_tree::{Function, Program};

/// Puts a function to those that were found, if it is not lane-pure by itself.
fn add_if_impure(
    found: &mut Found,
    number: usize,
    source: &source_tree::Function,
    function: &Function,
) -> Result<(), AllocError>
    requires { IsListed found.old.marks.items found.old.order.items }
    ensures marks { IfOk result (λ _. found.new.marks.items
        ≡ with_impure number (written.function_view source.now ∷ []) (function_view function.now ∷ []) found.old.marks.items) }
    ensures listed { IfOk result (λ _. IsListed found.new.marks.items found.new.order.items) }
{
    if is_pure_function(source, function) {
        return Ok(());
    }
    found.add(number)
}

/// The functions that are not lane-pure by themselves.
fn impure_by_themselves(
    alloc: Global,
    tree: &Tree,
    functions: &[Function],
) -> Result<Found, AllocError>
    requires { length (functions_in (tree_view tree.now)) ≡ length functions.now }
    ensures marks { IfOk result (λ found. found.marks.items
        ≡ with_impure 0 (functions_in (tree_view tree.now)) (map function_view functions.now) (replicate (length functions.now) false)) }
    ensures listed { IfOk result (λ found. IsListed found.marks.items found.order.items) }
{
    let mut found = Found::none(alloc, functions.len())?;
    let mut number = 0;
    for item in &tree.items {
        if let Item::Function(source) = item {
            add_if_impure(&mut found, number, source, &functions[number])?;
            number += 1;
        }
    }
    Ok(found)
}

/// For each function of a typed program, in order, whether it is lane-pure: it and every function that it reaches by calls has
/// varying parameters, locals and results alone, apart from array parameters, names no uniform scalar, stores to no array, has
/// no foreach form, and calls of the library only functions of one lane's values. Then each lane of a call of it does what it
/// does alone, in a gang of any width.
///
/// # Errors
///
/// Out of memory.
pub fn pure_functions(
    alloc: Global,
    tree: &Tree,
    program: &Program,
) -> Result<Vec<bool>, AllocError>
    requires { program_of (tree_view tree.now) ≡ Some (program_view program.now) }
    ensures { IfOk result (λ answers. AreAnswers (tree_view tree.now) (program_view program.now) answers.items) }
{
    let callers = callers_of(alloc, program)?;
    let mut found = impure_by_themselves(alloc, tree, &program.functions)?;
    found.add_callers(&callers)?;
    found.others(alloc)
}

/// Whether a function of a typed program, given by its number among the functions of the source, is lane-pure, as
/// `pure_functions` says of all of them. A number that no function has counts as lane-pure.
///
/// # Errors
///
/// Out of memory.
pub fn is_pure_in_lanes(
    alloc: Global,
    tree: &Tree,
    program: &Program,
    function: FuncId,
) -> Result<bool, AllocError>
    requires { program_of (tree_view tree.now) ≡ Some (program_view program.now) }
    ensures decides { IfOk result (λ is. IsTrue is ↔ IsLanePure (tree_view tree.now) (program_view program.now) function.0) }
    ensures separate { IfOk result (λ is. IsTrue is → HasSeparateLanes (tree_view tree.now) function.0) }
{
    let answers = pure_functions(alloc, tree, program)?;
    Ok(answers.get(function.0).copied().unwrap_or(true))
}
