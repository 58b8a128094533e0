//! A run, step by step, with its counts.
ghost use Rattle.std.specs.Prelude.{◌≡◌, ℕ, ◌<◌, ◌≤◌, ◌-◌, Bool, Option, IfOk, OnErr, [], drop, length, slice_get};
ghost use Rattle.debug_traits.specs.Frames.{frames_at};
ghost use Rattle.foreach_forms.specs.Forms.{forms_of};
ghost use Rattle.gang_model.specs.Debugger.Debugger.{Debugger, Setting, now};
ghost use Rattle.lane_counts.specs.Tallies.{HasFrames, IsBegun};
ghost use Rattle.lane_meetings.specs.Partings.{Measure, AreDistinct, HaveCounted, parted};
ghost use Rattle.lane_meetings.specs.Pending.{counted_with};
ghost use Rattle.lane_profile.specs.Counted.{HasCounted, HasCountedWhole, HasTouched, IsNext};
ghost use Rattle.lane_profile.specs.Ran.{HasBegun, HasRun};
ghost use Rattle.lane_profile.specs.Stands.{functions_of, name_of, stands_of};
ghost use Rattle.typed_tree.specs.Views.{program_view};

use crate::steps::{end_after, try_step};
use element_accesses::Accesses;
use foreach_forms::forms_of;
use frame_expressions::ExpressionMachine;
use lane_counts::{Gang, StepAt, Tally};
use lane_meetings::Meetings;
use lane_picture::StepsEnd;
use std::alloc::{AllocError, Global};
use typed_tree::Program;

/// Tries one step after another, so many at most, and counts each before it is tried. Of each of some accesses it counts what it touches at
/// the steps that are done, and of the steps where lanes part and where they meet again.
///
/// # Errors
///
/// Out of memory. A step that could not be counted was not tried.
pub fn count_run<M: ExpressionMachine>(
    alloc: Global,
    machine: &mut M,
    accesses: &mut Accesses,
    most_steps: u32,
) -> Result<(Tally, StepsEnd, Meetings), AllocError>
    ensures run { IfOk result (λ counted. (s : Setting) (d : Debugger) → M.stands machine.old s d
        → HasRun M.stands s most_steps d counted.1 machine.new) }
    ensures counted { IfOk result (λ counted. (s : Setting) (d : Debugger) → M.stands machine.old s d
        → HasCounted s.program most_steps (now s d) counted.0) }
    ensures whole { IfOk result (λ counted. (s : Setting) (d : Debugger) → M.stands machine.old s d → length s.first.frames ≤ 1
        → HasCountedWhole s.program most_steps (now s d) counted.0) }
    ensures accesses { IfOk result (λ counted. (s : Setting) (d : Debugger) → M.stands machine.old s d
        → HasTouched s.program most_steps (now s d) accesses.old accesses.new) }
    ensures meetings { IfOk result (λ counted. (s : Setting) (d : Debugger) → M.stands machine.old s d
        → HaveCounted (stands_of s.program most_steps (now s d)) counted.2.rows.rows.items) }
    ensures memory { OnErr result ((s : Setting) (d : Debugger) → M.stands machine.old s d
        → HasBegun M.stands s most_steps d machine.new) }
{
    let (tally, end, mut meetings) = count_steps(alloc, machine, accesses, most_steps)?;
    meetings.finish()?;
    Ok((tally, end, meetings))
}

/// Counts the steps; the partings whose lanes have not met again are still open.
fn count_steps<M: ExpressionMachine>(
    alloc: Global,
    machine: &mut M,
    accesses: &mut Accesses,
    most_steps: u32,
) -> Result<(Tally, StepsEnd, Meetings), AllocError>
    ensures run { IfOk result (λ counted. (s : Setting) (d : Debugger) → M.stands machine.old s d
        → HasRun M.stands s most_steps d counted.1 machine.new) }
    ensures counted { IfOk result (λ counted. (s : Setting) (d : Debugger) → M.stands machine.old s d
        → HasCounted s.program most_steps (now s d) counted.0) }
    ensures whole { IfOk result (λ counted. (s : Setting) (d : Debugger) → M.stands machine.old s d → length s.first.frames ≤ 1
        → HasCountedWhole s.program most_steps (now s d) counted.0) }
    ensures accesses { IfOk result (λ counted. (s : Setting) (d : Debugger) → M.stands machine.old s d
        → HasTouched s.program most_steps (now s d) accesses.old accesses.new) }
    ensures meetings { IfOk result (λ counted. (s : Setting) (d : Debugger) → M.stands machine.old s d
        → (measure : Measure) (chosen : ℕ → Option ℕ → Bool) → counted_with measure chosen counted.2 [] ≡ parted measure chosen (stands_of s.program most_steps (now s d))) }
    ensures distinct { IfOk result (λ counted. AreDistinct counted.2.rows.rows.items) }
    ensures memory { OnErr result ((s : Setting) (d : Debugger) → M.stands machine.old s d
        → HasBegun M.stands s most_steps d machine.new) }
{
    let mut tally = begun_at(alloc, machine)?;
    let mut meetings = Meetings::new(alloc);
    for _count in 0..most_steps {
        let Some(at) = next_step(machine) else {
            return Ok((tally, StepsEnd::Ended, meetings));
        };
        tally.note(alloc, at)?;
        meetings.note(at)?;
        accesses.note(at.depth, at.spot, machine);
        if let Some(end) = try_step(machine) {
            return Ok((tally, end, meetings));
        }
        accesses.keep();
    }
    let end = end_after(machine);
    Ok((tally, end, meetings))
}

/// A tally of the program's foreach forms before its first step, with the frames below the top one.
fn begun_at<M: ExpressionMachine>(alloc: Global, machine: &M) -> Result<Tally, AllocError>
    ensures begun { IfOk result IsBegun }
    ensures forms { IfOk result (λ tally. (s : Setting) (d : Debugger) → M.stands machine.now s d → tally.forms.forms.items ≡ forms_of s.program) }
    ensures frames { IfOk result (λ tally. (s : Setting) (d : Debugger) → M.stands machine.now s d → length s.first.frames ≤ 1
        → HasFrames tally (functions_of s.program (drop 1 (now s d).frames))) }
{
    let mut tally = Tally::new(alloc, forms_of(alloc, machine.program())?);
    for depth in 1..depth_of(machine) {
        enter_frame(alloc, depth, machine, &mut tally)?;
    }
    Ok(tally)
}

/// Puts the frame at a depth, below the top one, on those that a tally has.
fn enter_frame<M: ExpressionMachine>(
    alloc: Global,
    depth: usize,
    machine: &M,
    tally: &mut Tally,
) -> Result<(), AllocError>
    requires { IsBegun tally.old }
    ensures begun { IfOk result (λ _. IsBegun tally.new) }
    ensures forms { tally.new.forms.forms ≡ tally.old.forms.forms }
    ensures frames { IfOk result (λ _. (s : Setting) (d : Debugger) → M.stands machine.now s d → length s.first.frames ≤ 1 → 1 ≤ depth → depth < length (now s d).frames
        → HasFrames tally.old (functions_of s.program (frames_at (depth - 1) (now s d).frames)) → HasFrames tally.new (functions_of s.program (frames_at depth (now s d).frames))) }
{
    let Some(spot) = machine.spot(depth) else {
        return Ok(());
    };
    tally.enter(alloc, name_of(machine.program(), spot.function.0))?;
    Ok(())
}

/// The name of the function of a number.
pub fn name_of(program: &Program, number: usize) -> &[u8]
    ensures { result.now ≡ name_of (slice_get (program_view program.now).functions number) }
{
    let Some(function) = program.functions.get(number) else {
        return &[];
    };
    function.name.as_slice()
}

/// How many frames there are.
fn depth_of<M: ExpressionMachine>(machine: &M) -> usize
    ensures { (s : Setting) (d : Debugger) → M.stands machine.now s d → result ≡ length (now s d).frames }
{
    let Some(position) = machine.position() else {
        return 0;
    };
    position.depth
}

/// Where the next step stands, unless the program has ended.
pub fn next_step<M: ExpressionMachine>(machine: &M) -> Option<StepAt<'_>>
    ensures { (s : Setting) (d : Debugger) → M.stands machine.now s d → IsNext s.program (now s d) result }
{
    let position = machine.position()?;
    let spot = machine.spot(position.depth)?;
    Some(StepAt {
        line: position.place.line as usize,
        spot,
        function: position.function,
        depth: position.depth,
        gang: Gang::of(position.width),
        lanes: position.lanes,
    })
}
