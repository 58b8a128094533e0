//! The frame of a program that has ended.
ghost use Rattle.std.specs.Prelude.{◌≡◌, ◌++◌, ◌⊎◌, IfOk, Some, map, option_map, slice_get, string_bytes};
ghost use Rattle.gang_model.specs.Debugger.Debugger as model;
ghost use Rattle.gang_model.specs.Debugger.Debugger.{Debugger, Setting, now};
ghost use Rattle.ispc_names_table.specs.declared.table.Standing.{Standing as GivenStanding};
ghost use Rattle.typed_tree.specs.Views.{function_view, program_view};
ghost use Rattle.adapter_requests.specs.declared.reply.Reply.TheVariants as reply;
ghost use Rattle.adapter_replies.specs.Ends as spec;
ghost use Rattle.adapter_replies.specs.Ends.{IsToldAtEnd, IsToldThen, end_name, ended_in, frame_at_end};
ghost use Rattle.adapter_replies.specs.Frames.{frame_view};
ghost use Rattle.adapter_replies.specs.Told.{AreFramesTold};

use crate::frames::frames_reply;
use adapter_requests::{Frame, Reply, Request};
use debug_traits::RecordedMachine;
use frame_expressions::ExpressionMachine;
use gang_types::Place;
use ispc_names_table::Standing;
use std::alloc::{AllocError, Global};
use typed_tree::{Function, Program};

/// The number of the outermost frame.
const OUTERMOST: usize = 1;

/// What is told in place of a reply, where the program began in the function of this number, if it is known. Once the program has ended, a
/// request for frames is told one: at the closing brace of that function, with the number of the outermost frame. Else it is the reply. That
/// memory is wanting is told too.
pub fn reply_at_end<M: ExpressionMachine>(
    alloc: Global,
    machine: &M,
    entry: Option<usize>,
    request: &Request<'_>,
    reply: Reply,
) -> Reply
    ensures { (s : Setting) (d : Debugger) → M.stands machine.now s d → IsToldAtEnd s d entry request.now reply result }
{
    if has_ended(machine) {
        reply_then(alloc, machine.program(), entry, request, reply)
    } else {
        reply
    }
}

/// Whether the program has ended.
pub(crate) fn has_ended<M: RecordedMachine>(machine: &M) -> bool
    ensures { (s : Setting) (d : Debugger) → M.stands machine.now s d → result ≡ model.has_ended (now s d) }
{
    match machine.position() {
        None => true,
        Some(_) => false,
    }
}

/// What is told in place of a reply, once a program has ended that began in the function of this number.
fn reply_then(
    alloc: Global,
    program: &Program,
    entry: Option<usize>,
    request: &Request<'_>,
    reply: Reply,
) -> Reply
    ensures { IsToldThen (program_view program.now) entry request.now reply result }
{
    match request {
        Request::StackTrace {
            thread: _,
            start,
            levels,
        } => stack_or_memory(alloc, program, entry, *start, *levels),
        _ => reply,
    }
}

/// So many of the frames of the end from a place on, or that there is no memory to tell them.
fn stack_or_memory(
    alloc: Global,
    program: &Program,
    entry: Option<usize>,
    start: Option<u64>,
    levels: Option<u64>,
) -> Reply
    ensures { (result ≡ reply.OutOfMemory) ⊎ AreFramesTold start levels (spec.end_frames (program_view program.now) entry) result }
{
    match end_stack(alloc, program, entry, start, levels) {
        Ok(reply) => reply,
        Err(_) => Reply::OutOfMemory,
    }
}

/// So many of the frames of the end from a place on, and how many there are.
fn end_stack(
    alloc: Global,
    program: &Program,
    entry: Option<usize>,
    start: Option<u64>,
    levels: Option<u64>,
) -> Result<Reply, AllocError>
    ensures { IfOk result (AreFramesTold start levels (spec.end_frames (program_view program.now) entry)) }
{
    let all = end_frames(alloc, program, entry)?;
    frames_reply(alloc, all, start, levels)
}

/// The frame of a program that has ended, where the function is known in which it began.
fn end_frames(
    alloc: Global,
    program: &Program,
    entry: Option<usize>,
) -> Result<Vec<Frame>, AllocError>
    ensures { IfOk result (λ frames. map frame_view frames.items ≡ spec.end_frames (program_view program.now) entry) }
{
    let mut frames = Vec::new(alloc);
    if let Some(entry) = entry {
        push_end(alloc, program.functions.get(entry), &mut frames)?;
    }
    Ok(frames)
}

/// Puts the frame of a program that has ended in a function behind others, if there is such a function.
fn push_end(
    alloc: Global,
    function: Option<&Function>,
    frames: &mut Vec<Frame>,
) -> Result<(), AllocError>
    ensures { IfOk result (λ _. map frame_view frames.new.items ≡ map frame_view frames.old.items ++ ended_in (option_map (λ f. function_view f.now) function.entry)) }
{
    match function {
        None => Ok(()),
        Some(function) => push_at(alloc, &function.name, closing_place(function), frames),
    }
}

/// Puts a frame at a place of a function behind others, if there is a place.
fn push_at(
    alloc: Global,
    name: &[u8],
    place: Option<Place>,
    frames: &mut Vec<Frame>,
) -> Result<(), AllocError>
    ensures { IfOk result (λ _. map frame_view frames.new.items ≡ map frame_view frames.old.items ++ frame_at_end name.now place) }
{
    match place {
        None => Ok(()),
        Some(place) => {
            frames.push(Frame {
                depth: OUTERMOST,
                name: end_name(alloc, name)?,
                line: place.line,
                column: place.col,
            })?;
            Ok(())
        }
    }
}

/// The name of a function, with the mark of the end.
fn end_name(alloc: Global, function: &[u8]) -> Result<String, AllocError>
    ensures { IfOk result (λ name. string_bytes name ≡ end_name function.now) }
{
    let mut name = String::from_utf8_lossy(alloc, function)?;
    name.push_str(" (ended)")?;
    Ok(name)
}

/// Where the closing brace of a function stands.
fn closing_place(function: &Function) -> Option<Place>
    ensures { result ≡ spec.closing_place (function_view function.now) }
{
    let standings = function.scopes.standings.as_slice();
    place_at(standings, standings.len().saturating_sub(1))
}

/// Where the step of a number stands.
fn place_at(standings: &[Standing], number: usize) -> Option<Place>
    ensures { result ≡ option_map (λ (s : GivenStanding). s.place) (slice_get standings.now number) }
{
    match standings.get(number) {
        None => None,
        Some(standing) => Some(standing.place),
    }
}
