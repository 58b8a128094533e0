//! Bodies of functions.
ghost use Rattle.std.specs.Prelude.{◌≡◌, IfOk};
ghost use Rattle.source_tree.specs.Tree as parsed;
ghost use Rattle.ispc_names_table.specs.Scopes.{standings_view};
ghost use Rattle.typed_tree.specs.Views as typed;
ghost use Rattle.type_check_functions.specs.Bodies.{body_made, body_view, own_variables, with_body};

use crate::signatures::result_of;
use gang_types::{IntType, Rate};
use ispc_names_table::StepScopes;
use source_answers::{Answer, SourceFault};
use source_tree::Function as ParsedFunction;
use std::alloc::{AllocError, Global};
use typed_tree::{Function, Stmt, Variable};

/// A function's body, with the function's variables by their numbers.
pub(crate) struct Body {
    statements: Vec<Stmt>,
    variables: Vec<Variable>,
}

impl Drop for Body {
    fn drop(self) {
        let Self {
            statements: _,
            variables: _,
        } = self;
    }
}

impl Body {
    /// The body of these statements, or their fault.
    pub(crate) fn new(
        statements: Answer<Vec<Stmt>>,
        variables: Vec<Variable>,
    ) -> Result<Body, SourceFault>
        ensures { result ≡ body_made statements variables }
    {
        match statements {
            Ok(statements) => Ok(Body {
                statements,
                variables,
            }),
            Err(fault) => Err(SourceFault::Refused(fault)),
        }
    }

    /// The function with this body and what is in scope at its steps.
    pub(crate) fn into_function(
        self,
        alloc: Global,
        function: &ParsedFunction,
        scopes: StepScopes,
    ) -> Result<Function, AllocError>
        ensures variables { IfOk result (λ made. own_variables made ≡ (body_view self).1) }
        ensures typed { IfOk result (λ made. typed.function_view made ≡ with_body (parsed.function_view function.now) (body_view self) (standings_view scopes)) }
    {
        let no_result = (IntType::Int32, Rate::Uniform);
        let (result_type, result) = result_of(function.spec).unwrap_or(no_result);
        let name = function.name.to_vec(alloc)?;
        let Self {
            statements,
            variables,
        } = self;
        Ok(Function {
            name,
            result,
            result_type,
            body: statements,
            variables,
            scopes,
        })
    }
}
