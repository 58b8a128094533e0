//! The points of statements, made from the last step to the first: so it is known where lanes go on after a step.
ghost use Rattle.std.specs.Prelude.{◌≡◌, ◌≤◌, ◌+◌, length, IfOk};
ghost use Rattle.gang_model.specs.Types.Tree.{ForEach, Loop, Switch};
ghost use Rattle.gang_model.specs.Running.Step.{steps_of};
ghost use Rattle.typed_tree.specs.Views.{expr_view, rounds_view, segments_view, stmt_view, stmts_view};
ghost use Rattle.mask_lowering.specs.Lowering.{Lowered, ways_view};

use crate::point::{Point, put};
use crate::steps::lower_step;
use crate::ways::Ways;
use std::alloc::AllocError;
use typed_tree::{Expr, Rounds, Segment, Stmt};

/// Adds the points of a statement, the last first, and answers where lanes wait that have it to do. The function has `steps` steps, of
/// which those behind the statement have their points.
#[cycle(statement)]
fn lower_statement<'a>(
    points: &mut Vec<Point<'a>>,
    statement: &'a Stmt,
    steps: usize,
    ways: Ways,
) -> Result<usize, AllocError>
    requires { length points.old.items + steps_of (stmt_view statement.now) ≤ steps }
    ensures { IfOk result (Lowered steps points.old.items points.new.items (stmt_view statement.now) (ways_view ways)) }
{
    match statement {
        Stmt::Empty => Ok(ways.next),
        Stmt::Block(statements) => lower_statements(points, statements, steps, ways),
        Stmt::Then { first, rest } => {
            let next = lower_statement(points, rest, steps, ways)?;
            lower_statement(points, first, steps, ways.before_step(next))
        }
        Stmt::If {
            step,
            test,
            first,
            other,
        } => {
            let no = lower_statement(points, other, steps, ways)?;
            let yes = lower_statement(points, first, steps, ways)?;
            put(points, Point::Branch { test, yes, no })?;
            Ok(*step)
        }
        Stmt::Loop {
            step,
            test,
            update,
            body,
        } => lower_loop(points, body, update, test, *step, steps, ways),
        Stmt::BodyFirst { step, test, body } => {
            let place = points.len();
            put(points, Point::Go { next: *step })?;
            let yes = lower_statement(points, body, steps, ways.of_body(*step))?;
            let no = ways.next;
            points[place] = Point::Branch { test, yes, no };
            Ok(yes)
        }
        Stmt::Switch {
            step,
            selector,
            segments,
        } => lower_switch(points, segments, selector, *step, steps, ways),
        Stmt::ForEach { step, rounds, body } => {
            lower_for_each(points, body, rounds, *step, steps, ways)
        }
        _ => lower_step(points, statement, ways),
    }
}

/// The same of a loop whose test comes first. The test's point is set once it is known where the body begins.
#[cycle(statement)]
fn lower_loop<'a>(
    points: &mut Vec<Point<'a>>,
    body: &'a Stmt,
    update: &'a Stmt,
    test: &'a Expr,
    step: usize,
    steps: usize,
    ways: Ways,
) -> Result<usize, AllocError>
    requires { length points.old.items + steps_of (stmt_view body.now) + steps_of (stmt_view update.now) + 1 ≤ steps }
    ensures { IfOk result (Lowered steps points.old.items points.new.items (Loop step (expr_view test.now) (stmt_view update.now) (stmt_view body.now)) (ways_view ways)) }
{
    let place = points.len();
    put(points, Point::Go { next: step })?;
    let again = lower_statement(points, update, steps, ways.of_update(step))?;
    let yes = lower_statement(points, body, steps, ways.of_body(again))?;
    let no = ways.next;
    points[place] = Point::Branch { test, yes, no };
    Ok(step)
}

/// The same of a foreach form. The step of its rounds comes right before those that have their points.
#[cycle(statement)]
fn lower_for_each<'a>(
    points: &mut Vec<Point<'a>>,
    body: &'a Stmt,
    form: &'a Rounds,
    step: usize,
    steps: usize,
    ways: Ways,
) -> Result<usize, AllocError>
    requires { length points.old.items + steps_of (stmt_view body.now) + 2 ≤ steps }
    ensures { IfOk result (Lowered steps points.old.items points.new.items (ForEach step (rounds_view form.now) (stmt_view body.now)) (ways_view ways)) }
{
    let place = points.len();
    let rounds = steps - 1 - place;
    put(points, Point::Go { next: rounds })?;
    let body = lower_statement(points, body, steps, Ways::of_round(rounds))?;
    points[place] = Point::Turn { body };
    let next = ways.next;
    put(points, Point::Begin { form, rounds, next })?;
    Ok(step)
}

/// The same of a switch, whose segments run on into one another.
#[cycle(statement)]
fn lower_switch<'a>(
    points: &mut Vec<Point<'a>>,
    segments: &'a [Segment],
    selector: &'a Expr,
    step: usize,
    steps: usize,
    ways: Ways,
) -> Result<usize, AllocError>
    requires { length points.old.items + steps_of (segments_view segments.now) + 1 ≤ steps }
    ensures { IfOk result (Lowered steps points.old.items points.new.items (Switch step (expr_view selector.now) (segments_view segments.now)) (ways_view ways)) }
{
    let inner = ways.of_segments();
    let mut entries = Vec::with_capacity(*points.allocator(), segments.len())?;
    let mut begin = ways.next;
    for i in (0..segments.len()).rev() {
        begin = lower_statements(points, &segments[i].body, steps, inner.before_step(begin))?;
        entries.push(begin)?;
    }
    entries.reverse();
    let next = ways.next;
    put(
        points,
        Point::Choose {
            selector,
            segments,
            entries,
            next,
        },
    )?;
    Ok(step)
}

/// The same of statements in order.
#[cycle(statement)]
pub(crate) fn lower_statements<'a>(
    points: &mut Vec<Point<'a>>,
    statements: &'a [Stmt],
    steps: usize,
    ways: Ways,
) -> Result<usize, AllocError>
    requires { length points.old.items + steps_of (stmts_view statements.now) ≤ steps }
    ensures { IfOk result (Lowered steps points.old.items points.new.items (stmts_view statements.now) (ways_view ways)) }
{
    let mut next = ways.next;
    for i in (0..statements.len()).rev() {
        next = lower_statement(points, &statements[i], steps, ways.before_step(next))?;
    }
    Ok(next)
}
