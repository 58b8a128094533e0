//! From the text of an expression to its value in a frame.
ghost use Rattle.std.specs.Prelude.{◌≡◌, ℕ, List, Some, IfErr, IfOk};
ghost use Rattle.gang_types.specs.declared.places.Spot.{Spot};
ghost use Rattle.gang_model.specs.Debugger.Debugger.{Debugger, Setting, now};
ghost use Rattle.debug_traits.specs.Frames.{spot_at};
ghost use Rattle.placed_expressions.specs.Placed.{IsPlaced};
ghost use Rattle.frame_values.specs.Values.{HasNoValue, IsValueOf};

use debug_traits::Fault;
use frame_expressions::{ExpressionMachine, LaneWords};
use gang_types::{IntType, Rate};
use placed_expressions::{ExpressionRefusal, PlacedExpression, place_expression};
use std::alloc::Global;

/// The value of an expression: its type, its rate, and a word for each lane that evaluates it. A uniform one has the same word in each.
#[derive(Clone, Copy, Debug, PartialEq, Eq)]
pub struct ExpressionValue {
    pub value_type: IntType,
    pub rate: Rate,
    pub lanes: LaneWords,
}

/// Why a text has no value where a frame stands.
#[derive(Clone, Copy, Debug, PartialEq, Eq)]
pub enum NoValue {
    /// There is no frame.
    NoFrame,
    /// The text has no meaning there, or memory ran out.
    Refused(ExpressionRefusal),
    /// The value has a fault.
    Fault(Fault),
}

/// The value of the expression that a text spells, where the frame at a depth stands, for the lanes that this frame shows. The entry's frame
/// is at depth 1. The machine is only read.
///
/// # Errors
///
/// The text has no value there: see [`NoValue`].
pub fn value_of_expression<M: ExpressionMachine>(
    alloc: Global,
    text: &[u8],
    depth: usize,
    machine: &M,
) -> Result<ExpressionValue, NoValue>
    ensures value { (s : Setting) (d : Debugger) → M.stands machine.now s d → IfOk result (IsValueOf text.now s d depth) }
    ensures none { (s : Setting) (d : Debugger) → M.stands machine.now s d → IfErr result (HasNoValue text.now s d depth) }
{
    let Some(spot) = machine.spot(depth) else {
        return Err(NoValue::NoFrame);
    };
    match place_expression(alloc, text, machine.program(), spot) {
        Ok(placed) => value_of_placed(&placed, depth, machine),
        Err(refusal) => Err(NoValue::Refused(refusal)),
    }
}

/// The value of an expression that is placed where the frame at a depth stands.
fn value_of_placed<M: ExpressionMachine>(
    placed: &PlacedExpression,
    depth: usize,
    machine: &M,
) -> Result<ExpressionValue, NoValue>
    ensures value { (text : List ℕ) (s : Setting) (d : Debugger) (spot : Spot) → M.stands machine.now s d → spot_at s.program depth (now s d) ≡ Some spot
        → IsPlaced text s.program spot placed.now → IfOk result (IsValueOf text s d depth) }
    ensures none { (text : List ℕ) (s : Setting) (d : Debugger) (spot : Spot) → M.stands machine.now s d → spot_at s.program depth (now s d) ≡ Some spot
        → IsPlaced text s.program spot placed.now → IfErr result (HasNoValue text s d depth) }
{
    match machine.evaluate(depth, &placed.code) {
        Ok(lanes) => Ok(ExpressionValue {
            value_type: placed.value_type,
            rate: placed.rate,
            lanes,
        }),
        Err(fault) => Err(NoValue::Fault(fault)),
    }
}
