//! The frames of a program.
ghost use Rattle.std.specs.Prelude.{◌≡◌, ◌∷◌, [], ◌++◌, ◌<◌, IfOk, map, string_bytes};
ghost use Rattle.gang_types.specs.Masks.{IsGangWidth, lanes_of};
ghost use Rattle.gang_model.specs.Debugger.Debugger.{Debugger, Setting, now};
ghost use Rattle.gang_model.specs.Texts.Text.{bits};
ghost use Rattle.adapter_replies.specs.Frames.{all_frames, call_told, frame_view, position_frame};
ghost use Rattle.adapter_replies.specs.Told.{AreFramesTold};

use crate::pages::paged;
use adapter_requests::{Filter, Frame, Page, Reply};
use debug_traits::{Position, RecordedMachine};
use gang_types::Mask;
use std::alloc::{AllocError, Global};

/// The widest gang.
const WIDEST: usize = 16;

/// The frames, the top one first; none of a program that has ended.
pub(crate) fn frames<M: RecordedMachine>(
    alloc: Global,
    machine: &M,
) -> Result<Vec<Frame>, AllocError>
    ensures { (s : Setting) (d : Debugger) → M.stands machine.now s d
        → IfOk result (λ frames. map frame_view frames.items ≡ all_frames s.program (now s d).frames) }
{
    let mut frames = Vec::new(alloc);
    let Some(top) = machine.position() else {
        return Ok(frames);
    };
    let mut depth = top.depth;
    frames.push(frame(alloc, &top, depth)?)?;
    while depth > 1 {
        depth -= 1;
        push_call(alloc, machine, depth, &mut frames)?;
    }
    Ok(frames)
}

/// So many of some frames from a place on, and how many there are.
pub(crate) fn frames_reply(
    alloc: Global,
    all: Vec<Frame>,
    start: Option<u64>,
    levels: Option<u64>,
) -> Result<Reply, AllocError>
    ensures { IfOk result (AreFramesTold start levels (map frame_view all.items)) }
{
    let total = all.len();
    let page = Page {
        start,
        count: levels,
        filter: Filter::All,
    };
    Ok(Reply::Frames {
        frames: paged(alloc, all, page)?,
        total,
    })
}

/// Puts the frame at a depth behind others, by the call that it made, if it made one.
fn push_call<M: RecordedMachine>(
    alloc: Global,
    machine: &M,
    depth: usize,
    frames: &mut Vec<Frame>,
) -> Result<(), AllocError>
    ensures { (s : Setting) (d : Debugger) → M.stands machine.now s d
        → IfOk result (λ _. map frame_view frames.new.items ≡ map frame_view frames.old.items ++ call_told s.program depth (now s d).frames) }
{
    match machine.call(depth) {
        None => Ok(()),
        Some(call) => {
            frames.push(frame(alloc, &call, depth)?)?;
            Ok(())
        }
    }
}

/// The frame at a depth, by where it stands.
fn frame(alloc: Global, position: &Position<'_>, depth: usize) -> Result<Frame, AllocError>
    requires { IsGangWidth position.now.width }
    ensures { IfOk result (λ frame. frame_view frame ≡ position_frame depth position.now) }
{
    let mut name = String::from_utf8_lossy(alloc, position.function)?;
    name.push_str(" [")?;
    push_lanes(&mut name, position.width, position.lanes)?;
    name.push_str("]")?;
    Ok(Frame {
        depth,
        name,
        line: position.place.line,
        column: position.place.col,
    })
}

/// Puts a digit for each lane of the gang behind a text, lane 0 first: 1 where it is in the set.
fn push_lanes(text: &mut String, width: usize, lanes: Mask) -> Result<(), AllocError>
    requires { IsGangWidth width }
    ensures { IfOk result (λ _. string_bytes text.new ≡ string_bytes text.old ++ bits (lanes_of width lanes)) }
{
    for lane in 0..width {
        text.push_str(lane_digit(lanes.has::<WIDEST>(lane)))?;
    }
    Ok(())
}

/// The digit of a lane.
fn lane_digit(is_active: bool) -> &'static str
    ensures { result.now ≡ bits (is_active ∷ []) }
{
    if is_active { "1" } else { "0" }
}
