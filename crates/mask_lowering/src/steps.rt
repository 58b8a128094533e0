//! The points of statements that are one step.
ghost use Rattle.std.specs.Prelude.{◌≡◌, ℕ, true, [], ◌∷◌, IfOk};
ghost use Rattle.typed_tree.specs.Views.{stmt_view};
ghost use Rattle.mask_states.specs.Points.{entry_of, points_of};
ghost use Rattle.mask_lowering.specs.PointViews.{point_view};
ghost use Rattle.mask_lowering.specs.Lowering.{Lowered, is_single, ways_view};

use crate::point::{Point, put};
use crate::ways::Ways;
use std::alloc::AllocError;
use typed_tree::Stmt;

/// The number of a statement's step, and its point.
fn step_point<'a>(statement: &'a Stmt, ways: Ways) -> (usize, Point<'a>)
    requires { is_single (stmt_view statement.now) ≡ true }
    ensures step { (next : ℕ) → result.0 ≡ entry_of (stmt_view statement.now) next }
    ensures point { points_of (stmt_view statement.now) (ways_view ways) ≡ point_view result.1 ∷ [] }
{
    match statement {
        Stmt::Declare { step, .. }
        | Stmt::Assign { step, .. }
        | Stmt::Change { step, .. }
        | Stmt::Check { step, .. } => {
            let next = ways.next;
            (*step, Point::Put { statement, next })
        }
        Stmt::Break { step } => {
            let next = ways.on_break.unwrap_or(ways.next);
            (*step, Point::Go { next })
        }
        Stmt::Continue { step } => {
            let next = ways.on_continue.unwrap_or(ways.next);
            (*step, Point::Go { next })
        }
        Stmt::Return { step, .. } => {
            let next = ways.on_return.unwrap_or(ways.next);
            (*step, Point::Put { statement, next })
        }
        Stmt::PackedStore {
            step,
            result_for,
            ..
        }
        | Stmt::PackedLoad {
            step,
            result_for,
            ..
        } => {
            let next = ways.after_result(*result_for);
            (*step, Point::Put { statement, next })
        }
        Stmt::Call {
            step,
            function,
            args,
            result_for,
        } => {
            let point = Point::Enter {
                function: *function,
                args,
                result_for: *result_for,
                next: ways.after_result(*result_for),
            };
            (*step, point)
        }
        Stmt::Empty
        | Stmt::Block(_)
        | Stmt::Then { .. }
        | Stmt::If { .. }
        | Stmt::Loop { .. }
        | Stmt::BodyFirst { .. }
        | Stmt::Switch { .. }
        | Stmt::ForEach { .. } => unreachable!(),
    }
}

/// The point of a statement without statements in it; answers the number of its step.
pub(crate) fn lower_step<'a>(
    points: &mut Vec<Point<'a>>,
    statement: &'a Stmt,
    ways: Ways,
) -> Result<usize, AllocError>
    requires { is_single (stmt_view statement.now) ≡ true }
    ensures { IfOk result (λ entry. (steps : ℕ) → Lowered steps points.old.items points.new.items (stmt_view statement.now) (ways_view ways) entry) }
{
    let (step, point) = step_point(statement, ways);
    put(points, point)?;
    Ok(step)
}
