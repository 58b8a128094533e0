//! Statements that hold no others.
ghost use Rattle.std.specs.Prelude.{◌≡◌, ◌+◌, IfOk, OnOk, true, length};
ghost use Rattle.gang_model.specs.Running.Numbering.{steps_in};
ghost use Rattle.gang_model.specs.Types.Statements.{scope_after};
ghost use Rattle.source_tree.specs.Tree.{stmt_view};
ghost use Rattle.typed_tree.specs.Boxes.{boxed_stmt_view};
ghost use Rattle.source_answers.specs.Answers.{Answers};
ghost use Rattle.type_check_calls.specs.Calls.{context_view};
ghost use Rattle.type_check_parts.specs.Typed.{IsTypedStatement};
ghost use Rattle.type_check_statement_parts.specs.Singles.{is_simple, is_single, single};

use source_answers::{Answer, SourceFault};
use source_tree::Stmt as ParsedStmt;
use std::alloc::{AllocError, Global};
use type_check_calls::{Context, WholeCall};
use type_check_parts::{
    assignment, called, change, declare, increment, one_step, returning, unjudged,
};
use type_check_scopes::TypeScope;
use type_check_values::boxed_stmt;
use typed_tree::Stmt;

/// The typed form of a statement that is one step and declares nothing.
fn single_statement(
    alloc: Global,
    stmt: &ParsedStmt,
    context: &Context,
    scope: &TypeScope,
    step: usize,
) -> Result<Box<Stmt>, SourceFault>
    requires { is_single (stmt_view stmt.now) ≡ true }
    ensures { Answers boxed_stmt_view result (single (stmt_view stmt.now) (context_view context.now) scope.now.entries step) }
{
    match stmt {
        ParsedStmt::Assign { target, value, .. } => {
            assignment(alloc, context, scope, target, value, step)
        }
        ParsedStmt::Change {
            target,
            operator,
            value,
            ..
        } => change(alloc, scope, target, *operator, value, step),
        ParsedStmt::Increment {
            target,
            operator,
            ..
        } => increment(alloc, scope, target, *operator, step),
        ParsedStmt::Call { place, name, args } => {
            let call = WholeCall {
                place: *place,
                name,
                args,
            };
            called(alloc, context, scope, &call, step)
        }
        ParsedStmt::Break { .. } => unjudged(alloc, Stmt::Break { step }),
        ParsedStmt::Continue { .. } => unjudged(alloc, Stmt::Continue { step }),
        ParsedStmt::Return { place, value } => {
            returning(alloc, context, scope, *place, value, step)
        }
        _ => unreachable!(),
    }
}

/// The typed form of a statement that holds no other, which is in scope then as after any statement.
///
/// # Errors
///
/// Out of memory.
pub fn simple_statement(
    alloc: Global,
    stmt: &ParsedStmt,
    context: &Context,
    scope: &mut TypeScope,
    step: &mut usize,
) -> Result<Answer<Box<Stmt>>, AllocError>
    requires { is_simple (stmt_view stmt.now) ≡ true }
    ensures typed { IfOk result (λ answer. IsTypedStatement answer (stmt_view stmt.now) (context_view context.now) scope.old.entries scope.old.locals scope.new.locals step.old) }
    ensures after { OnOk result (scope.new.entries ≡ scope_after (stmt_view stmt.now) scope.old.entries (length scope.old.locals)) }
    ensures steps { OnOk result (step.new ≡ step.old + steps_in (stmt_view stmt.now)) }
{
    match stmt {
        ParsedStmt::Empty => {
            let empty = boxed_stmt(alloc, Stmt::Empty)?;
            Ok(Ok(empty))
        }
        ParsedStmt::Declare {
            spec,
            name_place,
            name,
            value,
            ..
        } => declare(alloc, *spec, *name_place, name, value, context, scope, step),
        _ => one_step(single_statement(alloc, stmt, context, scope, *step), step),
    }
}
