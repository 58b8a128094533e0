//! The rounds of a foreach form: their step, and the variables that each of them sets.
ghost use Rattle.std.specs.Prelude.{◌≡◌, ◌==◌, map, min};
ghost use Rattle.gang_model.specs.Running.Step.{round_number, steps_of};
ghost use Rattle.typed_tree.specs.Views.{dimension_view, rounds_view, segments_view, stmt_view, stmts_view};
ghost use Rattle.variable_writes.specs.Steps.{greatest};
ghost use Rattle.variable_writes.specs.Writes as spec;

use crate::variables::is_same;
use gang_types::VarId;
use typed_tree::{Dimension, Rounds, Segment, Stmt};

/// Whether each round of a foreach form sets this variable.
pub(crate) fn sets_rounds(id: VarId, rounds: &Rounds) -> bool
    ensures { result ≡ spec.sets_rounds id (rounds_view rounds.now) }
{
    match rounds {
        Rounds::Rows(dimensions) | Rounds::Tiles(dimensions) => is_index(id, dimensions),
        Rounds::EachLane(index) => is_same(index.id, id),
        Rounds::EachValue { index, .. } => is_same(index.id, id),
    }
}

/// Whether this variable is an index of these dimensions.
fn is_index(id: VarId, dimensions: &[Dimension]) -> bool
    ensures { result ≡ spec.is_index id (map dimension_view dimensions.now) }
{
    for dimension in dimensions {
        if is_same(dimension.index.id, id) {
            return true;
        }
    }
    false
}

/// Whether this is the number of the rounds of the foreach form with this head and body.
pub(crate) fn is_round_number(number: usize, head: usize, body: &Stmt) -> bool
    ensures { result ≡ (round_number head (stmt_view body.now) == number) }
{
    number > head && number - head - 1 == steps_in(body)
}

/// How many steps a statement has, or the greatest number.
#[cycle(counting)]
fn steps_in(statement: &Stmt) -> usize
    ensures { result ≡ min (steps_of (stmt_view statement.now)) greatest }
{
    match statement {
        Stmt::Empty => 0,
        Stmt::Block(statements) => steps_in_all(statements),
        Stmt::Then { first, rest } => steps_in(first).saturating_add(steps_in(rest)),
        Stmt::If { first, other, .. } => steps_in(first)
            .saturating_add(steps_in(other))
            .saturating_add(1),
        Stmt::Loop { update, body, .. } => steps_in(body)
            .saturating_add(steps_in(update))
            .saturating_add(1),
        Stmt::BodyFirst { body, .. } => steps_in(body).saturating_add(1),
        Stmt::Switch { segments, .. } => steps_in_segments(segments).saturating_add(1),
        Stmt::ForEach { body, .. } => steps_in(body).saturating_add(2),
        _ => 1,
    }
}

/// The same of statements in order.
#[cycle(counting)]
fn steps_in_all(statements: &[Stmt]) -> usize
    ensures { result ≡ min (steps_of (stmts_view statements.now)) greatest }
{
    let mut steps: usize = 0;
    for statement in statements {
        steps = steps.saturating_add(steps_in(statement));
    }
    steps
}

/// The same of the segments of a switch.
#[cycle(counting)]
fn steps_in_segments(segments: &[Segment]) -> usize
    ensures { result ≡ min (steps_of (segments_view segments.now)) greatest }
{
    let mut steps: usize = 0;
    for segment in segments {
        steps = steps.saturating_add(steps_in_all(&segment.body));
    }
    steps
}
