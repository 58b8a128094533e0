//! The steps of a function.
ghost use Rattle.std.specs.Prelude.{◌≡◌, IfOk};
ghost use Rattle.gang_model.specs.Names.Bindings.{function_bindings};
ghost use Rattle.gang_model.specs.Source.Parsed.{ParsedSource};
ghost use Rattle.gang_model.specs.Names.Scope.{file_scope, standings_of};
ghost use Rattle.source_tree.specs.Tree.{function_view};
ghost use Rattle.ispc_names_table.specs.Scopes.{standings_view};
ghost use Rattle.ispc_names_steps.specs.Sites.{numbered};

use crate::declared::{Declared, declare_params};
use crate::returns::len_before_return;
use crate::statements::list_steps;
use ispc_names_table::{Standing, StepScopes};
use source_tree::Function;
use std::alloc::{AllocError, Global};

/// The steps of a function with what is in scope at each, and its variables: the parameters, then those of the body in the
/// order of the text. At the closing brace what is declared before the first `return` is in scope.
///
/// # Errors
/// Out of memory.
pub fn steps_of(alloc: Global, function: &Function) -> Result<StepScopes, AllocError>
    ensures steps { IfOk result (λ steps. (source : ParsedSource) → standings_view steps ≡ standings_of (file_scope source) (function_view function.now)) }
    ensures declared { IfOk result (λ steps. numbered 0 steps.declarations.items ≡ function_bindings (function_view function.now)) }
{
    let mut declared = Declared {
        declarations: Vec::new(alloc),
        innermost: None,
    };
    let mut standings = Vec::new(alloc);
    declare_params(alloc, &function.params, &mut declared)?;
    let (first, rest) = function.body.split_at(len_before_return(&function.body));
    list_steps(alloc, first, &mut declared, &mut standings)?;
    let innermost = declared.innermost;
    list_steps(alloc, rest, &mut declared, &mut standings)?;
    let place = function.closing;
    standings.push(Standing { place, innermost })?;
    Ok(StepScopes {
        declarations: declared.declarations,
        standings,
    })
}
