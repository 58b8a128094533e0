//! What a condition comes to where the top frame stands.
ghost use Rattle.std.specs.Prelude.{◌≡◌, ℕ, take};
ghost use Rattle.gang_types.specs.Lanes.{lanes_where, no_lane};
ghost use Rattle.gang_types.specs.Masks.{IsGangWidth, lanes_of};
ghost use Rattle.gang_model.specs.Debugger.Debugger.{Debugger, Setting, depth, now};
ghost use Rattle.gang_model.specs.Running.Lanes.{holds};
ghost use Rattle.conditional_stops.specs.Verdicts.{IsValueVerdict, IsVerdict};

use debug_traits::RecordedMachine;
use frame_expressions::{ExpressionMachine, LaneWords};
use frame_values::{NoValue, value_of_expression};
use gang_types::Mask;
use std::alloc::Global;

/// The widest gang.
const WIDEST: usize = 16;

/// Active lanes in which a condition holds, of a gang that has so many.
#[derive(Clone, Copy, Debug, PartialEq, Eq)]
pub struct HoldingLanes {
    pub lanes: Mask,
    pub width: usize,
}

/// What a condition comes to.
#[derive(Clone, Copy, Debug, PartialEq, Eq)]
pub enum Verdict {
    /// Its value is not 0 in these active lanes, of which there is one at least.
    Holds(HoldingLanes),
    /// Its value is 0 in each active lane.
    Fails,
    /// It has no value: it has no meaning where the program stands, there is no memory to read it, or its value has a fault.
    NoValue(NoValue),
}

/// What a condition comes to in the top frame. The machine is only read.
pub fn judge_condition<M: ExpressionMachine>(alloc: Global, text: &[u8], machine: &M) -> Verdict
    ensures { (s : Setting) (d : Debugger) → M.stands machine.now s d → IsVerdict text.now s d result }
{
    match value_of_expression(alloc, text, top_depth(machine), machine) {
        Ok(value) => verdict_of(&value.lanes),
        Err(why) => Verdict::NoValue(why),
    }
}

/// The depth of the top frame, 1 where the program has ended.
pub(crate) fn top_depth<M: RecordedMachine>(machine: &M) -> usize
    ensures { (s : Setting) (d : Debugger) → M.stands machine.now s d → depth (now s d) ≡ result }
{
    match machine.position() {
        Some(position) => position.depth,
        None => 1,
    }
}

/// What a condition with these words comes to.
fn verdict_of(found: &LaneWords) -> Verdict
    ensures { IsGangWidth found.now.width → IsValueVerdict (lanes_of found.now.width found.now.lanes) (take found.now.width found.now.words) result }
{
    let lanes = holding_lanes(found);
    if is_empty(lanes, found.width) {
        Verdict::Fails
    } else {
        Verdict::Holds(HoldingLanes {
            lanes,
            width: found.width,
        })
    }
}

/// The lanes whose word is not 0, of those that have one.
fn holding_lanes(found: &LaneWords) -> Mask
    ensures { IsGangWidth found.now.width → lanes_of found.now.width result ≡ lanes_where (lanes_of found.now.width found.now.lanes) (holds (take found.now.width found.now.words)) }
{
    found.lanes.where_true::<WIDEST>(found.words)
}

/// Whether no lane of a gang of so many is in a set.
fn is_empty(lanes: Mask, width: usize) -> bool
    ensures { IsGangWidth width → result ≡ no_lane (lanes_of width lanes) }
{
    match width {
        4 => lanes.is_empty::<4>(),
        8 => lanes.is_empty::<8>(),
        _ => lanes.is_empty::<WIDEST>(),
    }
}
