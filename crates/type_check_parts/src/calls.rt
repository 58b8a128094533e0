//! Calls that stand as statements.
ghost use Rattle.typed_tree.specs.Boxes.{boxed_stmt_view};
ghost use Rattle.source_answers.specs.Answers.{Answers};
ghost use Rattle.type_check_calls.specs.Calls.{context_view, whole_call_view};
ghost use Rattle.type_check_parts.specs.Beside.{call_statement};

use source_answers::SourceFault;
use std::alloc::Global;
use type_check_calls::{Context, WholeCall, call_of};
use type_check_scopes::TypeScope;
use typed_tree::{ResultFor, Stmt};

/// A call that stands as a statement.
///
/// # Errors
///
/// Its first fault. Out of memory.
pub fn called(
    alloc: Global,
    context: &Context,
    scope: &TypeScope,
    call: &WholeCall,
    step: usize,
) -> Result<Box<Stmt>, SourceFault>
    ensures { Answers boxed_stmt_view result (call_statement (context_view context.now) scope.now.entries (whole_call_view call.now) step) }
{
    let called = call_of(alloc, context, scope, call, ResultFor::Nothing, step)?;
    Ok(called.stmt)
}
