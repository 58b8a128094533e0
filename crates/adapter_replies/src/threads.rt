//! The threads that an editor sees: the gang, or each of its lanes.
ghost use Rattle.std.specs.Prelude.{◌≡◌, ◌+◌, ◌++◌, ◌∷◌, [], ◌<◌, ◌^◌, IfOk, IfSome, map};
ghost use Rattle.gang_types.specs.Lanes.{has, lowest};
ghost use Rattle.gang_types.specs.Masks.{IsGangWidth, lanes_of};
ghost use Rattle.gang_model.specs.Debugger.Debugger.{Debugger, Setting, now};
ghost use Rattle.gang_model.specs.Debugger.Positions.{lanes_now};
ghost use Rattle.adapter_replies.specs.Frames.{all_frames, frame_view};
ghost use Rattle.adapter_replies.specs.Threads as spec;
ghost use Rattle.adapter_replies.specs.Threads.{IsStackTold, IsThreadTold};
ghost use Rattle.adapter_replies.specs.Told.{thread_view};
ghost use Rattle.adapter_replies.specs.Waiting.{position_lanes};

use crate::ends::has_ended;
use crate::frames::{frames, frames_reply};
use crate::replies::GANG;
use crate::waiting::{lane_place, standing, waits};
use adapter_requests::{Frame, Reply, Request, StopReason, Thread};
use debug_traits::{Position, RecordedMachine};
use lane_places::LaneMachine;
use std::alloc::{AllocError, Global};

/// The widest gang.
const WIDEST: usize = 16;

/// What the threads are that an editor sees.
#[derive(Clone, Copy, Debug, PartialEq, Eq)]
pub enum Threads {
    /// The gang is the one thread.
    Gang,
    /// Each lane of a gang of so many is a thread, whose number is one more than the lane's.
    Lanes(usize),
}

/// What a request is told that is one for threads, or for the frames of one, where each lane is a thread. A frame has the place where the
/// thread's lane waits in it. Other requests, those for frames once the program has ended, and all where the gang is the one thread, are
/// told what `reply_to` says.
///
/// # Errors
///
/// Out of memory.
pub fn thread_reply<M: LaneMachine>(
    alloc: Global,
    machine: &M,
    threads: Threads,
    request: &Request<'_>,
) -> Result<Option<Reply>, AllocError>
    ensures { (s : Setting) (d : Debugger) → M.stands machine.now s d → IfOk result (IsThreadTold s d threads request.now) }
{
    let Threads::Lanes(width) = threads else {
        return Ok(None);
    };
    match request {
        Request::Threads => {
            let made = lane_threads(alloc, machine.position(), width)?;
            Ok(Some(Reply::Threads(made)))
        }
        Request::StackTrace {
            thread,
            start,
            levels,
        } => { lane_stack(alloc, machine, lane_of(width, *thread), *start, *levels) }
        _ => Ok(None),
    }
}

/// The thread that a stop names: that of the lane that faults, or else of the lowest active lane; 1 where there is none, and where the
/// gang is the one thread.
pub fn stop_thread<M: RecordedMachine>(machine: &M, threads: Threads, reason: StopReason) -> u64
    ensures { (s : Setting) (d : Debugger) → M.stands machine.now s d → result ≡ spec.stop_thread threads (lanes_now (now s d)) reason }
{
    match threads {
        Threads::Gang => GANG,
        Threads::Lanes(width) => thread_or_first(width, stop_lane(machine.position(), reason)),
    }
}

/// The threads of the lanes of a gang of so many, lane 0 first, where the program stands here.
fn lane_threads(
    alloc: Global,
    position: Option<Position<'_>>,
    width: usize,
) -> Result<Vec<Thread>, AllocError>
    requires { IfSome position (λ at. IsGangWidth at.width) }
    ensures { IfOk result (λ threads. map thread_view threads.items ≡ spec.lane_threads (position_lanes position.entry) width) }
{
    let mut threads = Vec::new(alloc);
    for lane in 0..width {
        threads.push(lane_thread(alloc, position, lane)?)?;
    }
    Ok(threads)
}

/// The thread of a lane, where the program stands here.
fn lane_thread(
    alloc: Global,
    position: Option<Position<'_>>,
    lane: usize,
) -> Result<Thread, AllocError>
    requires width { IfSome position (λ at. IsGangWidth at.width) }
    requires few { lane + 1 < 2 ^ 64 }
    ensures { IfOk result (λ thread. thread_view thread ≡ spec.lane_thread (position_lanes position.entry) lane) }
{
    let marked = mark(waits(position, lane));
    Ok(Thread {
        id: lane as u64 + 1,
        name: format!(in alloc; "lane {lane}{marked}")?,
    })
}

/// What stands behind the name of what waits.
fn mark(waits: bool) -> &'static str
    ensures { result.now ≡ spec.mark waits }
{
    if waits { " (waits)" } else { "" }
}

/// The lane of a thread, if a gang of so many lanes has it.
fn lane_of(width: usize, thread: Option<u64>) -> Option<usize>
    ensures { result ≡ spec.lane_of width thread }
{
    match thread {
        Some(thread) if 1 <= thread && thread <= width as u64 => Some(thread as usize - 1),
        Some(_) | None => None,
    }
}

/// So many of the frames of a lane, or a refusal where no lane has the thread. At the end a lane has those of the gang.
fn lane_stack<M: LaneMachine>(
    alloc: Global,
    machine: &M,
    lane: Option<usize>,
    start: Option<u64>,
    levels: Option<u64>,
) -> Result<Option<Reply>, AllocError>
    ensures { (s : Setting) (d : Debugger) → M.stands machine.now s d → IfOk result (IsStackTold s d lane start levels) }
{
    match lane {
        None => {
            let text = String::from_str(alloc, "no thread has this number")?;
            Ok(Some(Reply::Refused(text)))
        }
        Some(_) if has_ended(machine) => Ok(None),
        Some(lane) => {
            let own = lane_frames(alloc, machine, lane)?;
            let reply = frames_reply(alloc, own, start, levels)?;
            Ok(Some(reply))
        }
    }
}

/// The frames that a lane is in, the top one first.
fn lane_frames<M: LaneMachine>(
    alloc: Global,
    machine: &M,
    lane: usize,
) -> Result<Vec<Frame>, AllocError>
    ensures { (s : Setting) (d : Debugger) → M.stands machine.now s d
        → IfOk result (λ own. map frame_view own.items ≡ spec.lane_frames s.program (now s d) lane (all_frames s.program (now s d).frames)) }
{
    let all = frames(alloc, machine)?;
    let mut own = Vec::new(alloc);
    for frame in all {
        push_own(machine, lane, frame, &mut own)?;
    }
    Ok(own)
}

/// Puts a frame behind others, if a lane is in it.
fn push_own<M: LaneMachine>(
    machine: &M,
    lane: usize,
    frame: Frame,
    own: &mut Vec<Frame>,
) -> Result<(), AllocError>
    ensures { (s : Setting) (d : Debugger) → M.stands machine.now s d
        → IfOk result (λ _. map frame_view own.new.items ≡ map frame_view own.old.items ++ spec.lane_frames s.program (now s d) lane (frame_view frame ∷ [])) }
{
    if is_in(machine, frame.depth, lane) {
        own.push(own_frame(machine, lane, frame)?)?;
    }
    Ok(())
}

/// Whether a lane is in the frame at a depth.
fn is_in<M: RecordedMachine>(machine: &M, depth: usize, lane: usize) -> bool
    ensures { (s : Setting) (d : Debugger) → M.stands machine.now s d → result ≡ spec.is_in (now s d) depth lane }
{
    depth == 1 || has_lane(machine.call(depth.saturating_sub(1)), lane)
}

/// Whether a lane is active where a frame stands.
fn has_lane(position: Option<Position<'_>>, lane: usize) -> bool
    requires { IfSome position (λ at. IsGangWidth at.width) }
    ensures { result ≡ has (position_lanes position.entry) lane }
{
    match position {
        None => false,
        Some(at) => lane < at.width && at.lanes.has::<WIDEST>(lane),
    }
}

/// A frame as a lane of it is told it, at the place where the lane waits there.
fn own_frame<M: LaneMachine>(machine: &M, lane: usize, frame: Frame) -> Result<Frame, AllocError>
    ensures { (s : Setting) (d : Debugger) → M.stands machine.now s d
        → IfOk result (λ own. frame_view own ≡ spec.own_frame s.program (now s d) lane (frame_view frame)) }
{
    let mut own = frame;
    let marked = mark(waits(standing(machine, own.depth), lane));
    own.name.push_str(marked)?;
    if let Some(place) = lane_place(machine, own.depth, lane) {
        own.line = place.line;
        own.column = place.col;
    }
    Ok(own)
}

/// The lane that a stop is about.
fn stop_lane(position: Option<Position<'_>>, reason: StopReason) -> usize
    requires { IfSome position (λ at. IsGangWidth at.width) }
    ensures { result ≡ spec.stop_lane (position_lanes position.entry) reason }
{
    match reason {
        StopReason::Exception { name: _, lane } => lane,
        _ => lowest_lane(position),
    }
}

/// The lowest lane that is active here.
fn lowest_lane(position: Option<Position<'_>>) -> usize
    requires { IfSome position (λ at. IsGangWidth at.width) }
    ensures { result ≡ lowest (position_lanes position.entry) }
{
    match position {
        None => 0,
        Some(at) => lowest_of(at),
    }
}

/// The lowest active lane of a position, or how many lanes there are where none is active.
fn lowest_of(position: Position<'_>) -> usize
    requires { IsGangWidth position.width }
    ensures { result ≡ lowest (lanes_of position.entry.width position.entry.lanes) }
{
    for lane in 0..position.width {
        if position.lanes.has::<WIDEST>(lane) {
            return lane;
        }
    }
    position.width
}

/// The thread of a lane of a gang of so many; the first one's, where the gang has no such lane.
fn thread_or_first(width: usize, lane: usize) -> u64
    ensures { result ≡ spec.thread_or_first width lane }
{
    if lane < width { lane as u64 + 1 } else { 1 }
}
