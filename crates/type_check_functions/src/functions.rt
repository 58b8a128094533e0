//! Functions.
ghost use Rattle.std.specs.Prelude.{◌≡◌, [], OnOk, IfOk, map};
ghost use Rattle.gang_model.specs.Source.Parsed.{ParsedSource, functions_in, globals_in};
ghost use Rattle.gang_model.specs.Types.Resolved as model;
ghost use Rattle.gang_model.specs.Names.Scope.{file_scope, standings_of};
ghost use Rattle.source_tree.specs.Tree as parsed;
ghost use Rattle.ispc_names.specs.Tables.{AreTablesOf};
ghost use Rattle.ispc_names_table.specs.Scopes.{standings_view};
ghost use Rattle.typed_tree.specs.Views as typed;
ghost use Rattle.source_answers.specs.Answers.{Answers};
ghost use Rattle.type_check_parts.specs.Makes.{IfAnswered};
ghost use Rattle.type_check_functions.specs.Bodies.{AreVariablesOf, body_view, declared_variables, judged_body, own_variables};

use crate::bodies::Body;
use crate::collected::Collected;
use crate::signatures::{result_of, signature_fault};
use gang_types::VarId;
use ispc_names_table::StepScopes;
use source_answers::{SourceFault, both, refuse, set_apart};
use source_tree::{Function as ParsedFunction, Param};
use std::alloc::{AllocError, Global};
use type_check_calls::Context;
use type_check_scopes::{TypeScope, declared_with};
use type_check_statements::typed_body;
use typed_tree::Function;

/// Declares the parameters, which are the function's first variables.
fn declare_params(alloc: Global, params: &[Param], scope: &mut TypeScope) -> Result<(), AllocError>
    requires { scope.old.locals ≡ [] }
    ensures entries { OnOk result (scope.new.entries ≡ model.param_entries 0 (map parsed.param_view params.now) scope.old.entries) }
    ensures locals { OnOk result (scope.new.locals ≡ model.param_variables 0 (map parsed.param_view params.now)) }
{
    for param in params {
        let id = VarId::Local(scope.next());
        let declared = declared_with(id, param.spec, param.is_array, true);
        scope.declare(alloc, &param.name, declared)?;
    }
    Ok(())
}

/// The body of a function, where the file-scope variables are in scope.
fn body_of(
    alloc: Global,
    functions: &[&ParsedFunction],
    function: &ParsedFunction,
    scope: &mut TypeScope,
) -> Result<Body, SourceFault>
    ensures body { Answers body_view result (judged_body (map (λ f. parsed.function_view f.now) functions.now) (parsed.function_view function.now) scope.old.entries) }
    ensures entries { IfAnswered result (scope.new.entries ≡ scope.old.entries) }
{
    let mark = scope.mark();
    scope.begin_function();
    declare_params(alloc, &function.params, scope)?;
    let context = Context {
        functions,
        result: result_of(function.spec),
    };
    let statements = set_apart(typed_body(alloc, &function.body, &context, scope))?;
    scope.leave(mark);
    Body::new(statements, scope.take_locals(alloc))
}

/// A function in the typed tree, where the file-scope variables are in scope.
fn typed_function(
    alloc: Global,
    functions: &[&ParsedFunction],
    function: &ParsedFunction,
    scopes: StepScopes,
    scope: &mut TypeScope,
) -> Result<Function, SourceFault>
    ensures function { (source : ParsedSource)
        → map (λ f. parsed.function_view f.now) functions.now ≡ functions_in source
        → scope.old.entries ≡ model.global_entries 0 (globals_in source)
        → standings_view scopes ≡ standings_of (file_scope source) (parsed.function_view function.now)
        → Answers typed.function_view result (model.judged_function source (parsed.function_view function.now)) }
    ensures variables { (source : ParsedSource)
        → map (λ f. parsed.function_view f.now) functions.now ≡ functions_in source
        → scope.old.entries ≡ model.global_entries 0 (globals_in source)
        → IfOk result (λ made. own_variables made ≡ declared_variables source (parsed.function_view function.now)) }
    ensures entries { IfAnswered result (scope.new.entries ≡ scope.old.entries) }
{
    let signature = refuse(signature_fault(function));
    let body = body_of(alloc, functions, function, scope);
    let (_, body) = both(signature, body)?;
    Ok(body.into_function(alloc, function, scopes)?)
}

/// The functions in the typed tree, where the file-scope variables are in scope.
///
/// # Errors
///
/// The first of their faults. Out of memory.
pub fn typed_functions(
    alloc: Global,
    functions: &[&ParsedFunction],
    tables: Vec<StepScopes>,
    mut scope: TypeScope,
) -> Result<Vec<Function>, SourceFault>
    ensures functions { (source : ParsedSource)
        → map (λ f. parsed.function_view f.now) functions.now ≡ functions_in source
        → scope.entries ≡ model.global_entries 0 (globals_in source)
        → AreTablesOf source tables.items
        → Answers (λ made. map typed.function_view made.items) result (model.judged_functions source (functions_in source)) }
    ensures variables { (source : ParsedSource)
        → map (λ f. parsed.function_view f.now) functions.now ≡ functions_in source
        → scope.entries ≡ model.global_entries 0 (globals_in source)
        → AreTablesOf source tables.items
        → IfOk result (λ made. AreVariablesOf source made.items) }
{
    let mut collected = Collected::new(alloc);
    for (function, scopes) in functions.iter().zip(tables) {
        let next = typed_function(alloc, functions, function, scopes, &mut scope);
        collected.add(next)?;
    }
    collected.into_functions()
}
