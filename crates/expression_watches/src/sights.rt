//! What a watched expression shows where its frame stands.
ghost use Rattle.std.specs.Prelude.{◌≡◌, ◌≤◌, ℕ, true, Some, IfOk, OnOk};
ghost use Rattle.gang_types.specs.declared.places.Spot.{Spot};
ghost use Rattle.gang_types.specs.declared.types.IntType.{IntType};
ghost use Rattle.gang_types.specs.declared.types.Rate.{Rate};
ghost use Rattle.gang_types.specs.Masks.{lanes_of};
ghost use Rattle.gang_model.specs.Source.Parsed.{ParsedExpr};
ghost use Rattle.gang_model.specs.Debugger.Debugger.{Debugger, Setting, depth, now};
ghost use Rattle.typed_tree.specs.Views.{expr_view, program_view};
ghost use Rattle.debug_traits.specs.Frames.{spot_at, state_at};
ghost use Rattle.frame_expressions.specs.Lanes.{made_lanes};
ghost use Rattle.frame_expressions.specs.Meanings.{Means, entries_at};
ghost use Rattle.expression_watches.specs.Codes.{AreCodesOf, is_read, kept_at};
ghost use Rattle.expression_watches.specs.LaneSights.{without_lane};
ghost use Rattle.expression_watches.specs.Sights as spec;

use crate::codes::KeptCodes;
use crate::lanes::{LaneSight, WIDEST, lane_words};
use crate::placing::code_at;
use arrayvec::ArrayVec;
use debug_traits::RecordedMachine;
use expression_instructions::Instruction;
use frame_expressions::ExpressionMachine;
use gang_types::{FuncId, Mask, Spot};
use std::alloc::{AllocError, Global};
use typed_tree::Program;

/// The most bytes of the text of an expression that is watched.
pub const LONGEST_TEXT: usize = 256;

/// How often a value is asked for, each time without a lane more.
const TRIES: usize = 16;

/// An expression that is watched in a frame: the number of the watch, the depth of the frame, the step at which this stood when the watch was
/// set, and the text.
#[derive(Drop)]
pub struct ExpressionWatch {
    pub number: u32,
    pub depth: usize,
    pub set_at: Spot,
    pub text: ArrayVec<u8, LONGEST_TEXT>,
}

impl ExpressionWatch {
    /// A watch of a text in the frame at a depth, which stands at a step; none of a text that is too long.
    pub fn new(number: u32, depth: usize, set_at: Spot, text: &[u8]) -> Option<Self>
        ensures { result ≡ spec.watch_of number depth set_at text.now }
    {
        match ArrayVec::try_from(text) {
            Ok(text) => Some(ExpressionWatch {
                number,
                depth,
                set_at,
                text,
            }),
            Err(_) => None,
        }
    }
}

/// The blank in an unused place.
impl Default for ExpressionWatch {
    ghost is_default = { λ watch. watch.number ≡ 0 };

    fn default() -> Self {
        ExpressionWatch {
            number: 0,
            depth: 0,
            set_at: Spot {
                function: FuncId(0),
                number: 0,
            },
            text: ArrayVec::new(),
        }
    }
}

/// What a watched expression shows. The machine is only read.
///
/// # Errors
///
/// Out of memory.
pub fn expression_sight<M: ExpressionMachine>(
    alloc: Global,
    watch: &ExpressionWatch,
    machine: &M,
) -> Result<LaneSight, AllocError>
    ensures { (s : Setting) (d : Debugger) → M.stands machine.now s d → IfOk result (λ shown. shown.items ≡ spec.expression_sight s d watch.now) }
{
    let mut kept = KeptCodes::new(alloc);
    kept_sight(alloc, watch, &mut kept, machine)
}

/// What a watched expression shows, by the codes of its text that are kept. At a step where its frame has not stood before, the text is read, and
/// its code kept.
///
/// # Errors
///
/// Out of memory, where the text is read.
pub fn kept_sight<M: ExpressionMachine>(
    alloc: Global,
    watch: &ExpressionWatch,
    kept: &mut KeptCodes,
    machine: &M,
) -> Result<LaneSight, AllocError>
    ensures sight { (s : Setting) (d : Debugger) → M.stands machine.now s d → AreCodesOf s.program watch.now kept.old
        → IfOk result (λ shown. shown.items ≡ spec.expression_sight s d watch.now) }
    ensures codes { (s : Setting) (d : Debugger) → M.stands machine.now s d → AreCodesOf s.program watch.now kept.old → AreCodesOf s.program watch.now kept.new }
{
    if watch.depth > top_depth(machine) {
        return Ok(LaneSight::new());
    }
    match machine.spot(watch.depth) {
        Some(spot) => sight_at(alloc, watch, spot, kept, machine),
        None => Ok(LaneSight::new()),
    }
}

/// The depth of the top frame, 1 where the program has ended.
fn top_depth<M: RecordedMachine>(machine: &M) -> usize
    ensures { (s : Setting) (d : Debugger) → M.stands machine.now s d → depth (now s d) ≡ result }
{
    match machine.position() {
        Some(position) => position.depth,
        None => 1,
    }
}

/// What a watched expression shows where its frame stands at a step: nothing in another function than that where it was set.
///
/// # Errors
///
/// Out of memory.
fn sight_at<M: ExpressionMachine>(
    alloc: Global,
    watch: &ExpressionWatch,
    spot: Spot,
    kept: &mut KeptCodes,
    machine: &M,
) -> Result<LaneSight, AllocError>
    ensures sight { (s : Setting) (d : Debugger) → M.stands machine.now s d → spot_at s.program watch.now.depth (now s d) ≡ Some spot
        → AreCodesOf s.program watch.now kept.old → IfOk result (λ shown. shown.items ≡ spec.seen_at s d watch.now (Some spot)) }
    ensures codes { (s : Setting) (d : Debugger) → M.stands machine.now s d → AreCodesOf s.program watch.now kept.old → AreCodesOf s.program watch.now kept.new }
{
    if watch.set_at.function.0 != spot.function.0 {
        return Ok(LaneSight::new());
    }
    read_at(alloc, watch, spot.number, kept, machine.program())?;
    match kept.code(spot.number) {
        Some(code) => Ok(computed(machine, watch.depth, code)),
        None => Ok(LaneSight::new()),
    }
}

/// Reads the text of a watch for a step of the function where it was set, unless its code there is kept.
///
/// # Errors
///
/// Out of memory.
fn read_at(
    alloc: Global,
    watch: &ExpressionWatch,
    number: usize,
    kept: &mut KeptCodes,
    program: &Program,
) -> Result<(), AllocError>
    ensures codes { AreCodesOf (program_view program.now) watch.now kept.old → AreCodesOf (program_view program.now) watch.now kept.new }
    ensures read { OnOk result (is_read (kept_at kept.new.codes.items number) ≡ true) }
{
    if kept.is_read(number) {
        return Ok(());
    }
    let spot = Spot {
        function: watch.set_at.function,
        number,
    };
    let code = code_at(alloc, watch.text.as_slice(), watch.set_at, program, spot)?;
    kept.keep(number, code)
}

/// What an expression shows that this code computes, for the lanes for which the frame at a depth was made.
fn computed<M: ExpressionMachine>(machine: &M, depth: usize, code: &[Instruction]) -> LaneSight
    ensures { (s : Setting) (d : Debugger) (spot : Spot) (written : ParsedExpr) (type : IntType) (rate : Rate) → M.stands machine.now s d
        → spot_at s.program depth (now s d) ≡ Some spot → (means : Means written (entries_at s.program spot) type rate code.now)
        → result.items ≡ spec.in_gang (expr_view means.tree) (made_lanes depth (now s d)) (state_at depth (now s d)) }
{
    let mut left = Mask::all::<WIDEST>();
    for tried in 0..TRIES {
        match machine.evaluate_for(depth, left, code) {
            Ok(found) => return lane_words(&found),
            Err(fault) => left = but_for(left, fault.lane),
        }
    }
    LaneSight::new()
}

/// The lanes but for one.
fn but_for(lanes: Mask, lane: usize) -> Mask
    ensures { (w : ℕ) → w ≤ 16 → lanes_of w result ≡ without_lane lane (lanes_of w lanes) }
{
    if lane < WIDEST {
        lanes.without(Mask::only::<WIDEST>(lane))
    } else {
        lanes
    }
}
