//! The typed program of a tree.
ghost use Rattle.std.specs.Prelude.{IfOk};
ghost use Rattle.gang_model.specs.Types.Resolved.{judged_program};
ghost use Rattle.source_tree.specs.Tree.{tree_view};
ghost use Rattle.ispc_names.specs.Tables.{AreTablesOf};
ghost use Rattle.typed_tree.specs.Views.{program_view};
ghost use Rattle.source_answers.specs.Answers.{Answers};
ghost use Rattle.type_check_functions.specs.Bodies.{AreVariablesOf};

use crate::globals::{declared_globals, typed_globals};
use ispc_names_declarations::{functions_of, globals_of};
use ispc_names_table::StepScopes;
use source_answers::{SourceFault, both};
use source_tree::Tree;
use std::alloc::Global;
use type_check_functions::typed_functions;
use typed_tree::Program;

/// The typed program of a tree, whose functions have these steps. Each function has the variables that are declared in it, by their
/// numbers.
///
/// # Errors
///
/// The first of the faults S7 to S10 of its types. Out of memory.
pub fn typed_program(
    alloc: Global,
    tree: &Tree,
    tables: Vec<StepScopes>,
) -> Result<Program, SourceFault>
    requires { AreTablesOf (tree_view tree.now) tables.items }
    ensures program { Answers program_view result (judged_program (tree_view tree.now)) }
    ensures variables { IfOk result (λ program. AreVariablesOf (tree_view tree.now) program.functions.items) }
{
    let functions = functions_of(alloc, tree)?;
    let globals = globals_of(alloc, tree)?;
    let scope = declared_globals(alloc, &globals)?;
    let globals = typed_globals(alloc, &globals);
    let functions = typed_functions(alloc, &functions, tables, scope);
    let (globals, functions) = both(globals, functions)?;
    Ok(Program { functions, globals })
}
