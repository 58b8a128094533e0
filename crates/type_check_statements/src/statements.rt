//! Statements.
ghost use Rattle.std.specs.Prelude.{◌≡◌, ◌+◌, ◌∷◌, IfOk, OnOk, length, map, suc, option_map};
ghost use Rattle.gang_types.specs.declared.places.Place.{Place};
ghost use Rattle.gang_types.specs.declared.places.VarId.TheVariants.{Local};
ghost use Rattle.source_tree.specs.Expressions.{expr_view};
ghost use Rattle.gang_model.specs.Running.Numbering.{steps_in, steps_in_all, steps_in_segments};
ghost use Rattle.gang_model.specs.Source.Parsed.{ParsedFor, ParsedForEach, ParsedForEachActive, ParsedForEachUnique, ParsedIf, ParsedIfElse, ParsedSwitch, ParsedWhile, ParsedDo};
ghost use Rattle.gang_model.specs.Names.Scope.{locals_in, locals_in_all, locals_in_segments};
ghost use Rattle.gang_model.specs.Types.Statements as model;
ghost use Rattle.source_tree.specs.Tree as parsed;
ghost use Rattle.typed_tree.specs.Boxes.{boxed_stmt_view};
ghost use Rattle.typed_tree.specs.Views.{segments_view, stmts_view};
ghost use Rattle.type_check_calls.specs.Calls.{context_view};
ghost use Rattle.type_check_scopes.specs.Entries.{declared_view};
ghost use Rattle.type_check_parts.specs.Typed.{IsTyped, IsTypedStatement, with_index};

use gang_types::{IntType, Rate, VarId};
use source_answers::{Answer, both_answers};
use source_tree::{Dim, Expr, Segment as ParsedSegment, Stmt as ParsedStmt};
use std::alloc::{AllocError, Global};
use type_check_calls::Context;
use type_check_parts::{advanced, variable_of};
use type_check_scopes::{Declared, TypeScope, index_variable};
use type_check_statement_parts::{
    block, body_first, choice, conditional, for_each_head, for_each_of, for_of, for_test,
    label_word, more_segments, more_statements, over_lanes, over_values, rounds_head,
    selector_step, simple_statement, switch_of, test_apart, test_step, type_of, update_number,
    value_apart, while_of,
};
use typed_tree::{Segment, Stmt};

/// The typed form of a statement. What it declares is in scope then, and the step is that of the next statement; so also where
/// it has a fault.
#[cycle(statement)]
pub(crate) fn statement(
    alloc: Global,
    stmt: &ParsedStmt,
    context: &Context,
    scope: &mut TypeScope,
    step: &mut usize,
) -> Result<Answer<Box<Stmt>>, AllocError>
    ensures typed { IfOk result (λ answer. IsTypedStatement answer (parsed.stmt_view stmt.now) (context_view context.now) scope.old.entries scope.old.locals scope.new.locals step.old) }
    ensures after { OnOk result (scope.new.entries ≡ model.scope_after (parsed.stmt_view stmt.now) scope.old.entries (length scope.old.locals)) }
    ensures steps { OnOk result (step.new ≡ step.old + steps_in (parsed.stmt_view stmt.now)) }
{
    match stmt {
        ParsedStmt::Block(stmts) => {
            let typed = statements(alloc, stmts, context, scope, step)?;
            block(alloc, typed)
        }
        ParsedStmt::If {
            test,
            first,
            other,
            ..
        } => match other {
            Some(other) => if_else(alloc, test, first, other, context, scope, step),
            None => if_only(alloc, test, first, context, scope, step),
        },
        ParsedStmt::While { test, body, .. } => {
            while_loop(alloc, test, body, context, scope, step)
        }
        ParsedStmt::Do { body, test, .. } => do_loop(alloc, body, test, context, scope, step),
        ParsedStmt::For {
            start,
            test,
            update,
            body,
            ..
        } => for_loop(alloc, start, test, update, body, context, scope, step),
        ParsedStmt::Switch {
            selector,
            segments,
            ..
        } => switch(alloc, segments, selector, context, scope, step),
        ParsedStmt::ForEach {
            is_tiled,
            dims,
            body,
            ..
        } => for_each(alloc, *is_tiled, dims, body, context, scope, step),
        ParsedStmt::ForEachActive { name, body, .. } => {
            for_each_active(alloc, name, body, context, scope, step)
        }
        ParsedStmt::ForEachUnique {
            name,
            value,
            body,
            ..
        } => for_each_unique(alloc, name, value, body, context, scope, step),
        ParsedStmt::Empty
        | ParsedStmt::Declare { .. }
        | ParsedStmt::Assign { .. }
        | ParsedStmt::Change { .. }
        | ParsedStmt::Increment { .. }
        | ParsedStmt::Call { .. }
        | ParsedStmt::Break { .. }
        | ParsedStmt::Continue { .. }
        | ParsedStmt::Return { .. } => simple_statement(alloc, stmt, context, scope, step),
    }
}

/// Statements in a scope of their own.
#[cycle(statement)]
pub(crate) fn statements(
    alloc: Global,
    stmts: &[ParsedStmt],
    context: &Context,
    scope: &mut TypeScope,
    step: &mut usize,
) -> Result<Answer<Vec<Stmt>>, AllocError>
    ensures typed { IfOk result (λ answer. IsTyped (λ made. stmts_view made.items) answer (model.statements (parsed.stmts_view stmts.now) (context_view context.now) scope.old.entries (length scope.old.locals) step.old)
        scope.old.locals scope.new.locals (locals_in_all (parsed.stmts_view stmts.now))) }
    ensures after { OnOk result (scope.new.entries ≡ scope.old.entries) }
    ensures steps { OnOk result (step.new ≡ step.old + steps_in_all (parsed.stmts_view stmts.now)) }
{
    let mark = scope.mark();
    let mut typed = Ok(Vec::new(alloc));
    for stmt in stmts {
        let next = statement(alloc, stmt, context, scope, step)?;
        typed = more_statements(typed, next)?;
    }
    scope.leave(mark);
    Ok(typed)
}

/// A statement that is a scope of its own.
#[cycle(statement)]
fn inner(
    alloc: Global,
    stmt: &ParsedStmt,
    context: &Context,
    scope: &mut TypeScope,
    step: &mut usize,
) -> Result<Answer<Box<Stmt>>, AllocError>
    ensures typed { IfOk result (λ answer. IsTypedStatement answer (parsed.stmt_view stmt.now) (context_view context.now) scope.old.entries scope.old.locals scope.new.locals step.old) }
    ensures after { OnOk result (scope.new.entries ≡ scope.old.entries) }
    ensures steps { OnOk result (step.new ≡ step.old + steps_in (parsed.stmt_view stmt.now)) }
{
    let mark = scope.mark();
    let answer = statement(alloc, stmt, context, scope, step)?;
    scope.leave(mark);
    Ok(answer)
}

/// `if` without `else`.
#[cycle(statement)]
fn if_only(
    alloc: Global,
    test: &Expr,
    first: &ParsedStmt,
    context: &Context,
    scope: &mut TypeScope,
    step: &mut usize,
) -> Result<Answer<Box<Stmt>>, AllocError>
    ensures typed { IfOk result (λ answer. (p : Place) → IsTyped boxed_stmt_view answer (model.statement (ParsedIf p (expr_view test.now) (parsed.stmt_view first.now)) (context_view context.now) scope.old.entries (length scope.old.locals) step.old)
        scope.old.locals scope.new.locals (locals_in (parsed.stmt_view first.now))) }
    ensures after { OnOk result (scope.new.entries ≡ scope.old.entries) }
    ensures steps { OnOk result (step.new ≡ step.old + (1 + steps_in (parsed.stmt_view first.now))) }
{
    let at = *step;
    let test = test_step(alloc, scope, test, step)?;
    let first = inner(alloc, first, context, scope, step)?;
    conditional(alloc, at, both_answers(test, first))
}

/// `if` with `else`.
#[cycle(statement)]
fn if_else(
    alloc: Global,
    test: &Expr,
    first: &ParsedStmt,
    other: &ParsedStmt,
    context: &Context,
    scope: &mut TypeScope,
    step: &mut usize,
) -> Result<Answer<Box<Stmt>>, AllocError>
    ensures typed { IfOk result (λ answer. (p : Place) → IsTyped boxed_stmt_view answer (model.statement (ParsedIfElse p (expr_view test.now) (parsed.stmt_view first.now) (parsed.stmt_view other.now)) (context_view context.now) scope.old.entries (length scope.old.locals) step.old)
        scope.old.locals scope.new.locals (locals_in (parsed.stmt_view first.now) + locals_in (parsed.stmt_view other.now))) }
    ensures after { OnOk result (scope.new.entries ≡ scope.old.entries) }
    ensures steps { OnOk result (step.new ≡ step.old + (1 + steps_in (parsed.stmt_view first.now) + steps_in (parsed.stmt_view other.now))) }
{
    let at = *step;
    let test = test_step(alloc, scope, test, step)?;
    let first = inner(alloc, first, context, scope, step)?;
    let other = inner(alloc, other, context, scope, step)?;
    choice(alloc, at, both_answers(test, both_answers(first, other)))
}

/// `while`.
#[cycle(statement)]
fn while_loop(
    alloc: Global,
    test: &Expr,
    body: &ParsedStmt,
    context: &Context,
    scope: &mut TypeScope,
    step: &mut usize,
) -> Result<Answer<Box<Stmt>>, AllocError>
    ensures typed { IfOk result (λ answer. (p : Place) → IsTyped boxed_stmt_view answer (model.statement (ParsedWhile p (expr_view test.now) (parsed.stmt_view body.now)) (context_view context.now) scope.old.entries (length scope.old.locals) step.old)
        scope.old.locals scope.new.locals (locals_in (parsed.stmt_view body.now))) }
    ensures after { OnOk result (scope.new.entries ≡ scope.old.entries) }
    ensures steps { OnOk result (step.new ≡ step.old + (steps_in (parsed.stmt_view body.now) + 1)) }
{
    let test = test_apart(alloc, scope, test)?;
    let body = inner(alloc, body, context, scope, step)?;
    while_of(alloc, test, body, step)
}

/// `do`.
#[cycle(statement)]
fn do_loop(
    alloc: Global,
    body: &ParsedStmt,
    test: &Expr,
    context: &Context,
    scope: &mut TypeScope,
    step: &mut usize,
) -> Result<Answer<Box<Stmt>>, AllocError>
    ensures typed { IfOk result (λ answer. (p : Place) → IsTyped boxed_stmt_view answer (model.statement (ParsedDo (parsed.stmt_view body.now) p (expr_view test.now)) (context_view context.now) scope.old.entries (length scope.old.locals) step.old)
        scope.old.locals scope.new.locals (locals_in (parsed.stmt_view body.now))) }
    ensures after { OnOk result (scope.new.entries ≡ scope.old.entries) }
    ensures steps { OnOk result (step.new ≡ step.old + (steps_in (parsed.stmt_view body.now) + 1)) }
{
    let body = inner(alloc, body, context, scope, step)?;
    let at = *step;
    let test = test_step(alloc, scope, test, step)?;
    body_first(alloc, at, both_answers(body, test))
}

/// `for`. The update is numbered after the body, and its variables come before the body's.
#[cycle(statement)]
fn for_loop(
    alloc: Global,
    start: &ParsedStmt,
    test: &Option<Expr>,
    update: &ParsedStmt,
    body: &ParsedStmt,
    context: &Context,
    scope: &mut TypeScope,
    step: &mut usize,
) -> Result<Answer<Box<Stmt>>, AllocError>
    ensures typed { IfOk result (λ answer. (p : Place) → IsTyped boxed_stmt_view answer (model.statement (ParsedFor p (parsed.stmt_view start.now) (option_map expr_view test.now) (parsed.stmt_view update.now) (parsed.stmt_view body.now)) (context_view context.now) scope.old.entries (length scope.old.locals) step.old)
        scope.old.locals scope.new.locals (locals_in (parsed.stmt_view start.now) + locals_in (parsed.stmt_view update.now) + locals_in (parsed.stmt_view body.now))) }
    ensures after { OnOk result (scope.new.entries ≡ scope.old.entries) }
    ensures steps { OnOk result (step.new ≡ step.old + (steps_in (parsed.stmt_view start.now) + steps_in (parsed.stmt_view body.now) + steps_in (parsed.stmt_view update.now) + 1)) }
{
    let mark = scope.mark();
    let start = statement(alloc, start, context, scope, step)?;
    let mut at = update_number(body, *step)?;
    let test = for_test(alloc, scope, test)?;
    let update = inner(alloc, update, context, scope, &mut at)?;
    let body = inner(alloc, body, context, scope, step)?;
    scope.leave(mark);
    *step = at;
    for_of(alloc, start, test, update, body, step)
}

/// `switch`. Where its selector has a fault the segments are typed all the same, so that their variables and steps are numbered,
/// but none of their faults counts.
#[cycle(statement)]
fn switch(
    alloc: Global,
    segments: &[ParsedSegment],
    selector: &Expr,
    context: &Context,
    scope: &mut TypeScope,
    step: &mut usize,
) -> Result<Answer<Box<Stmt>>, AllocError>
    ensures typed { IfOk result (λ answer. (p : Place) → IsTyped boxed_stmt_view answer (model.statement (ParsedSwitch p (expr_view selector.now) (parsed.segments_view segments.now)) (context_view context.now) scope.old.entries (length scope.old.locals) step.old)
        scope.old.locals scope.new.locals (locals_in_segments (parsed.segments_view segments.now))) }
    ensures after { OnOk result (scope.new.entries ≡ scope.old.entries) }
    ensures steps { OnOk result (step.new ≡ step.old + (1 + steps_in_segments (parsed.segments_view segments.now))) }
{
    let at = *step;
    let value = selector_step(alloc, scope, selector, step)?;
    let typed = typed_segments(alloc, type_of(&value), segments, context, scope, step)?;
    switch_of(alloc, at, value, typed)
}

/// The segments of a `switch` whose selector has this type.
#[cycle(statement)]
fn typed_segments(
    alloc: Global,
    selector_type: IntType,
    segments: &[ParsedSegment],
    context: &Context,
    scope: &mut TypeScope,
    step: &mut usize,
) -> Result<Answer<Vec<Segment>>, AllocError>
    ensures typed { IfOk result (λ answer. IsTyped (λ made. segments_view made.items) answer (model.segments_of (parsed.segments_view segments.now) selector_type (context_view context.now) scope.old.entries (length scope.old.locals) step.old)
        scope.old.locals scope.new.locals (locals_in_segments (parsed.segments_view segments.now))) }
    ensures after { OnOk result (scope.new.entries ≡ scope.old.entries) }
    ensures steps { OnOk result (step.new ≡ step.old + steps_in_segments (parsed.segments_view segments.now)) }
{
    let mut typed = Ok(Vec::new(alloc));
    for segment in segments {
        let label = label_word(segment.place, selector_type, segment.label);
        let body = statements(alloc, &segment.body, context, scope, step)?;
        typed = more_segments(typed, label, body)?;
    }
    Ok(typed)
}

/// `foreach` and `foreach_tiled`.
#[cycle(statement)]
fn for_each(
    alloc: Global,
    is_tiled: bool,
    dims: &[Dim],
    body: &ParsedStmt,
    context: &Context,
    scope: &mut TypeScope,
    step: &mut usize,
) -> Result<Answer<Box<Stmt>>, AllocError>
    ensures typed { IfOk result (λ answer. (p : Place) → IsTyped boxed_stmt_view answer (model.statement (ParsedForEach p is_tiled (map parsed.dim_view dims.now) (parsed.stmt_view body.now)) (context_view context.now) scope.old.entries (length scope.old.locals) step.old)
        scope.old.locals scope.new.locals (length dims.now + locals_in (parsed.stmt_view body.now))) }
    ensures after { OnOk result (scope.new.entries ≡ scope.old.entries) }
    ensures steps { OnOk result (step.new ≡ step.old + (steps_in (parsed.stmt_view body.now) + 2)) }
{
    let at = *step;
    let mark = scope.mark();
    let dimensions = for_each_head(alloc, dims, scope, step)?;
    let body = inner(alloc, body, context, scope, step)?;
    scope.leave(mark);
    for_each_of(alloc, at, is_tiled, dimensions, body, step)
}

/// The body of `foreach_active` or `foreach_unique`, in the scope of its index variable, with the steps of its head and rounds.
#[cycle(statement)]
fn rounds(
    alloc: Global,
    name: &[u8],
    index: Declared,
    body: &ParsedStmt,
    context: &Context,
    scope: &mut TypeScope,
    step: &mut usize,
) -> Result<Answer<Box<Stmt>>, AllocError>
    requires next { index.id ≡ Local (length scope.old.locals) }
    ensures typed { IfOk result (λ answer. IsTyped boxed_stmt_view answer (with_index (declared_view name.now index) (model.statement (parsed.stmt_view body.now) (context_view context.now) (declared_view name.now index ∷ scope.old.entries) (suc (length scope.old.locals)) (step.old + 1)))
        scope.old.locals scope.new.locals (1 + locals_in (parsed.stmt_view body.now))) }
    ensures after { OnOk result (scope.new.entries ≡ scope.old.entries) }
    ensures steps { OnOk result (step.new ≡ step.old + (steps_in (parsed.stmt_view body.now) + 2)) }
{
    let mark = scope.mark();
    rounds_head(alloc, name, index, scope, step)?;
    let body = inner(alloc, body, context, scope, step)?;
    scope.leave(mark);
    *step = advanced(*step, 1)?;
    Ok(body)
}

/// `foreach_active`.
#[cycle(statement)]
fn for_each_active(
    alloc: Global,
    name: &[u8],
    body: &ParsedStmt,
    context: &Context,
    scope: &mut TypeScope,
    step: &mut usize,
) -> Result<Answer<Box<Stmt>>, AllocError>
    ensures typed { IfOk result (λ answer. (p at : Place) → IsTyped boxed_stmt_view answer (model.statement (ParsedForEachActive p at name.now (parsed.stmt_view body.now)) (context_view context.now) scope.old.entries (length scope.old.locals) step.old)
        scope.old.locals scope.new.locals (1 + locals_in (parsed.stmt_view body.now))) }
    ensures after { OnOk result (scope.new.entries ≡ scope.old.entries) }
    ensures steps { OnOk result (step.new ≡ step.old + (steps_in (parsed.stmt_view body.now) + 2)) }
{
    let at = *step;
    let index = index_variable(VarId::Local(scope.next()), IntType::Int64, Rate::Uniform);
    let body = rounds(alloc, name, index, body, context, scope, step)?;
    over_lanes(alloc, at, variable_of(index), body)
}

/// `foreach_unique`. Where its value has a fault the body is typed all the same, so that its variables and steps are numbered,
/// but none of its faults counts.
#[cycle(statement)]
fn for_each_unique(
    alloc: Global,
    name: &[u8],
    value: &Expr,
    body: &ParsedStmt,
    context: &Context,
    scope: &mut TypeScope,
    step: &mut usize,
) -> Result<Answer<Box<Stmt>>, AllocError>
    ensures typed { IfOk result (λ answer. (p at : Place) → IsTyped boxed_stmt_view answer (model.statement (ParsedForEachUnique p at name.now (expr_view value.now) (parsed.stmt_view body.now)) (context_view context.now) scope.old.entries (length scope.old.locals) step.old)
        scope.old.locals scope.new.locals (1 + locals_in (parsed.stmt_view body.now))) }
    ensures after { OnOk result (scope.new.entries ≡ scope.old.entries) }
    ensures steps { OnOk result (step.new ≡ step.old + (steps_in (parsed.stmt_view body.now) + 2)) }
{
    let at = *step;
    let value = value_apart(alloc, scope, value)?;
    let value_type = type_of(&value);
    let index = index_variable(VarId::Local(scope.next()), value_type, Rate::Uniform);
    let body = rounds(alloc, name, index, body, context, scope, step)?;
    over_values(alloc, at, variable_of(index), value, body)
}
