//! The body of a function.
ghost use Rattle.std.specs.Prelude.{◌≡◌, length};
ghost use Rattle.gang_model.specs.Types.Statements as model;
ghost use Rattle.source_tree.specs.Tree as parsed;
ghost use Rattle.typed_tree.specs.Views.{stmts_view};
ghost use Rattle.type_check_calls.specs.Calls.{context_view};
ghost use Rattle.type_check_parts.specs.Makes.{IfAnswered, Makes};

use crate::statements::statements;
use source_answers::{SourceFault, joined};
use source_tree::Stmt as ParsedStmt;
use std::alloc::Global;
use type_check_calls::Context;
use type_check_scopes::TypeScope;
use typed_tree::Stmt;

/// The typed form of a function's body, whose steps are numbered from 0. Its variables come after the parameters.
///
/// # Errors
///
/// The first of its faults S5 and S7 to S10. Out of memory.
pub fn typed_body(
    alloc: Global,
    stmts: &[ParsedStmt],
    context: &Context,
    scope: &mut TypeScope,
) -> Result<Vec<Stmt>, SourceFault>
    ensures makes { Makes (λ made. stmts_view made.items) result scope.old.locals scope.new.locals (model.statements (parsed.stmts_view stmts.now) (context_view context.now) scope.old.entries (length scope.old.locals) 0) }
    ensures entries { IfAnswered result (scope.new.entries ≡ scope.old.entries) }
{
    let mut step = 0;
    let typed = statements(alloc, stmts, context, scope, &mut step)?;
    joined(typed)
}
