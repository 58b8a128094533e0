//! How many variables a function has room for, walked in the order of the source.
ghost use Rattle.std.specs.Prelude.{◌≡◌, [], ◌∷◌, map};
ghost use Rattle.gang_model.specs.Source.Limits as limits;
ghost use Rattle.source_tree.specs.Tree.{stmt_view, stmts_view, segments_view, function_view, dim_view, param_view};
ghost use Rattle.source_limits.specs.Room.{room_after};

use gang_types::Place;
use source_tree::{Dim, Function, Param, Segment, Stmt};

/// The room after one variable.
fn after_name(place: Place, room: usize) -> Result<usize, Place>
    ensures { result ≡ room_after room (place ∷ []) }
{
    room.checked_sub(1).ok_or(place)
}

fn after_dims(dims: &[Dim], room: usize) -> Result<usize, Place>
    ensures { result ≡ room_after room (map (λ d. d.at) (map dim_view dims.now)) }
{
    if room < dims.len() {
        Err(dims[room].place)
    } else {
        Ok(room - dims.len())
    }
}

fn after_params(params: &[Param], room: usize) -> Result<usize, Place>
    ensures { result ≡ room_after room (map (λ p. p.at) (map param_view params.now)) }
{
    if room < params.len() {
        Err(params[room].place)
    } else {
        Ok(room - params.len())
    }
}

/// The room after a statement, or the place of the first variable that has none.
#[cycle(statement)]
fn after_statement(stmt: &Stmt, room: usize) -> Result<usize, Place>
    ensures { result ≡ room_after room (limits.declared_in (stmt_view stmt.now)) }
{
    match stmt {
        Stmt::Empty
        | Stmt::Assign { .. }
        | Stmt::Change { .. }
        | Stmt::Increment { .. }
        | Stmt::Call { .. }
        | Stmt::Break { .. }
        | Stmt::Continue { .. }
        | Stmt::Return { .. } => Ok(room),
        Stmt::Block(stmts) => after_statements(stmts, room),
        Stmt::Declare { name_place, .. } => after_name(*name_place, room),
        Stmt::If { first, other, .. } => {
            let room = after_statement(first, room)?;
            match other {
                Some(other) => after_statement(other, room),
                None => Ok(room),
            }
        }
        Stmt::While { body, .. } | Stmt::Do { body, .. } => after_statement(body, room),
        Stmt::For {
            start,
            update,
            body,
            ..
        } => {
            let room = after_statement(start, room)?;
            let room = after_statement(update, room)?;
            after_statement(body, room)
        }
        Stmt::Switch { segments, .. } => after_segments(segments, room),
        Stmt::ForEach { dims, body, .. } => {
            let room = after_dims(dims, room)?;
            after_statement(body, room)
        }
        Stmt::ForEachActive {
            name_place,
            body,
            ..
        }
        | Stmt::ForEachUnique {
            name_place,
            body,
            ..
        } => {
            let room = after_name(*name_place, room)?;
            after_statement(body, room)
        }
    }
}

#[cycle(statement)]
fn after_statements(stmts: &[Stmt], room: usize) -> Result<usize, Place>
    ensures { result ≡ room_after room (limits.declared_in_all (stmts_view stmts.now)) }
{
    let mut room = room;
    for stmt in stmts {
        room = after_statement(stmt, room)?;
    }
    Ok(room)
}

#[cycle(statement)]
fn after_segments(segments: &[Segment], room: usize) -> Result<usize, Place>
    ensures { result ≡ room_after room (limits.declared_in_segments (segments_view segments.now)) }
{
    let mut room = room;
    for segment in segments {
        room = after_statements(&segment.body, room)?;
    }
    Ok(room)
}

/// The room after a function's variables, or the place of the first one that has none.
pub(crate) fn after_function(function: &Function, room: usize) -> Result<usize, Place>
    ensures { result ≡ room_after room (limits.variables_of (function_view function.now)) }
{
    let room = after_params(&function.params, room)?;
    after_statements(&function.body, room)
}
