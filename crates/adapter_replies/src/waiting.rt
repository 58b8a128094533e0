//! The lanes that wait where a frame stands, and where a lane waits in it.
ghost use Rattle.std.specs.Prelude.{◌≡◌, IfSome, slice_get};
ghost use Rattle.gang_types.specs.Masks.{IsGangWidth};
ghost use Rattle.gang_model.specs.Debugger.Debugger.{Debugger, Setting, now};
ghost use Rattle.gang_model.specs.Debugger.Positions.{standing_at};
ghost use Rattle.typed_tree.specs.Views.{function_view, program_view};
ghost use Rattle.adapter_replies.specs.Waiting as spec;
ghost use Rattle.adapter_replies.specs.Waiting.{standing_place, position_lanes, shown_lanes, waits};

use crate::places::depth_of;
use debug_traits::{Position, RecordedMachine};
use gang_types::{Place, Spot};
use lane_places::LaneMachine;
use typed_tree::{Function, Program};

/// The widest gang.
const WIDEST: usize = 16;

/// Where the frame at a depth stands: the top one at its next step, another one at the call that it made.
pub(crate) fn standing<M: RecordedMachine>(machine: &M, depth: usize) -> Option<Position<'_>>
    ensures lanes { (s : Setting) (d : Debugger) → M.stands machine.now s d → position_lanes result ≡ shown_lanes (now s d) depth }
    ensures width { IfSome result (λ position. IsGangWidth position.width) }
{
    if depth == depth_of(machine) {
        machine.position()
    } else {
        machine.call(depth)
    }
}

/// Whether a lane of the gang is not active where a frame stands.
pub(crate) fn waits(position: Option<Position<'_>>, lane: usize) -> bool
    requires { IfSome position (λ at. IsGangWidth at.width) }
    ensures { result ≡ waits (position_lanes position.entry) lane }
{
    match position {
        None => false,
        Some(at) => lane < at.width && !at.lanes.has::<WIDEST>(lane),
    }
}

/// Where in the source a lane waits in the frame at a depth, if a step of the program is there.
pub(crate) fn lane_place<M: LaneMachine>(machine: &M, depth: usize, lane: usize) -> Option<Place>
    ensures { (s : Setting) (d : Debugger) → M.stands machine.now s d → result ≡ spec.lane_place s.program depth lane (now s d) }
{
    match machine.lane_spot(depth, lane) {
        None => None,
        Some(spot) => step_place(machine.program(), spot),
    }
}

/// The place of a step of a program, if it has the step.
fn step_place(program: &Program, spot: Spot) -> Option<Place>
    ensures { result ≡ standing_place (standing_at (program_view program.now) spot) }
{
    match program.functions.get(spot.function.0) {
        None => None,
        Some(function) => place_in(function, spot.number),
    }
}

/// The place of a step of a function, if it has the step.
fn place_in(function: &Function, number: usize) -> Option<Place>
    ensures { result ≡ standing_place (slice_get (function_view function.now).standings number) }
{
    match function.scopes.standings.get(number) {
        None => None,
        Some(standing) => Some(standing.place),
    }
}
