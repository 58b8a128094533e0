//! What a request is told.
ghost use Rattle.std.specs.Prelude.{◌≡◌, ◌++◌, ℕ, List, IfOk, IfSome, None, Some, codes, option_map, string_bytes};
ghost use Rattle.gang_model.specs.Debugger.Debugger as model;
ghost use Rattle.gang_model.specs.Debugger.Debugger.{Debugger, Setting, depth, has_ended, now};
ghost use Rattle.gang_model.specs.Texts.Text.{text};
ghost use Rattle.debug_answers.specs.Meanings.{AreStops};
ghost use Rattle.adapter_replies.specs.Columns.{front};
ghost use Rattle.adapter_replies.specs.Completions.{frame_or};
ghost use Rattle.adapter_replies.specs.Frames.{all_frames};
ghost use Rattle.adapter_replies.specs.References.{is_frame, place_of, within};
ghost use Rattle.adapter_replies.specs.Variables.{told_now};
ghost use Rattle.adapter_replies.specs.declared.places.Place.TheVariants as place;
ghost use Rattle.adapter_replies.specs.declared.places.Scope.TheVariants.{Arguments, Locals};
ghost use Rattle.adapter_replies.specs.Told.{AreBreakpointsTold, AreCompletionsToldIn, AreFramesTold, AreScopesTold, AreThreadsTold, AreVariablesTold, IsAnswered, IsEvaluateTold, IsGotoTold, IsLookTold, IsMoveTold, IsToldOf, IsValueAnswered, MeansLast, call_places, call_scopes, fixed_reply, is_ended, refusal_text, shown_values, told_stop};

use crate::breakpoints::{breakpoints, functions, watches};
use crate::columns::front_of;
use crate::completions::completions;
use crate::ends::has_ended;
use crate::evaluating::{Line, done, looked_up};
use crate::exceptions::NO_FAULT;
use crate::forms::{Form, form_if};
use crate::frames::{frames, frames_reply};
use crate::locations::{goto_line, locations};
use crate::places::{Place, Scope, depth_of, is_frame, reference_of};
use crate::scopes::variables;
use crate::setting::{set_expression, set_variable};
use crate::stops::{goto_reason, stop_of};
use crate::texts::answer_text;
use crate::watchable::watchable;
use adapter_requests::{CallScopes, Page, Reply, Request, Scopes, Stop, StopReason, Thread};
use debug_answers::{Answer, NumberedStop, Refusal};
use debug_traits::{FramedMachine, RecordedMachine};
use frame_expressions::ExpressionMachine;
use std::alloc::{AllocError, Global};

/// The number of the thread that is the gang.
pub(crate) const GANG: u64 = 1;

/// Why a request for a frame is refused.
pub(crate) const NO_FRAME: &str = "no frame has this number now";

/// Why a request to stand still is refused.
const STANDS: &str = "the program stands still already: a move ends by itself";

/// What a request is told once its commands are done, by the machine, the breakpoints and watches, and the last answer.
///
/// # Errors
///
/// Out of memory.
pub fn reply_to<M: ExpressionMachine>(
    alloc: Global,
    machine: &M,
    stops: &[NumberedStop],
    request: &Request<'_>,
    is_program: bool,
    last: Option<Answer<'_>>,
) -> Result<Reply, AllocError>
    ensures stands { (s : Setting) (d : Debugger) → M.stands machine.now s d
        → IfOk result (IsToldOf s d last.entry request.now) }
    ensures answered { (s : Setting) (at d : Debugger) (meant : model.Answer) → M.stands machine.now s at → at.events ≡ d.events → AreStops s stops.now d.stops
        → MeansLast s d last.entry meant
        → IfOk result (λ told. IsAnswered last.entry (text s meant d) (shown_values (now s d) meant) request.now told) }
    ensures breakpoints { (s : Setting) (d : Debugger) (meant : List (ℕ × model.Stop)) → M.stands machine.now s d → AreStops s stops.now meant
        → IfOk result (AreBreakpointsTold s d is_program meant request.now) }
    ensures fixed { IfSome (fixed_reply request.now) (λ reply. IfOk result (λ told. told ≡ reply)) }
    ensures refused { IfSome (refusal_text request.now) (λ text. IfOk result (λ told. told_stop told ≡ Some (None, text))) }
{
    match request {
        Request::SetBreakpoints { .. }
        | Request::SetFunctionBreakpoints { .. }
        | Request::SetDataBreakpoints { .. }
        | Request::BreakpointLocations { .. }
        | Request::GotoTargets { .. } => placed(alloc, machine, stops, request, is_program),
        Request::SetVariable { .. } | Request::SetExpression { .. } | Request::Evaluate { .. } => {
            valued(alloc, machine, stops, request, last)
        }
        Request::Next
        | Request::StepIn
        | Request::StepOut
        | Request::Continue
        | Request::StepBack
        | Request::ReverseContinue => moved(alloc, machine, stops, last),
        Request::Goto { .. } => gone(alloc, machine, stops, last),
        Request::Threads
        | Request::StackTrace { .. }
        | Request::Scopes { .. }
        | Request::Variables { .. }
        | Request::Completions { .. }
        | Request::DataBreakpointInfo { .. } => looked(alloc, machine, request),
        Request::Initialize { .. }
        | Request::SetExceptionBreakpoints
        | Request::ConfigurationDone
        | Request::Terminate
        | Request::Disconnect
        | Request::ExceptionInfo
        | Request::Pause
        | Request::Launch(_)
        | Request::Restart
        | Request::Unknown(_) => plain(alloc, request),
    }
}

/// What a request is told that asks for breakpoints or watches, or for the lines on which there can be some or to which the program can
/// go; another one that it is done.
fn placed<M: ExpressionMachine>(
    alloc: Global,
    machine: &M,
    stops: &[NumberedStop],
    request: &Request<'_>,
    is_program: bool,
) -> Result<Reply, AllocError>
    ensures { (s : Setting) (d : Debugger) (meant : List (ℕ × model.Stop)) → M.stands machine.now s d → AreStops s stops.now meant
        → IfOk result (AreBreakpointsTold s d is_program meant request.now) }
{
    match request {
        Request::SetBreakpoints { source: _, lines } => {
            let made = breakpoints(alloc, machine, stops, lines, is_program)?;
            Ok(Reply::Breakpoints(made))
        }
        Request::SetFunctionBreakpoints { functions: asked } => Ok(Reply::Breakpoints(functions(
            alloc, machine, stops, asked,
        )?)),
        Request::SetDataBreakpoints { targets } => {
            Ok(Reply::Breakpoints(watches(alloc, machine, stops, targets)?))
        }
        Request::BreakpointLocations {
            source: _,
            first,
            last,
        } => {
            let lines = locations(alloc, machine, is_program, *first, *last)?;
            Ok(Reply::Locations(lines))
        }
        Request::GotoTargets { source: _, line } => {
            Ok(Reply::Targets(goto_line(machine, is_program, *line)))
        }
        _ => Ok(Reply::Done),
    }
}

/// What a request is told that sets a variable or evaluates, by the answer to its line; another one that it is done.
fn valued<M: ExpressionMachine>(
    alloc: Global,
    machine: &M,
    stops: &[NumberedStop],
    request: &Request<'_>,
    last: Option<Answer<'_>>,
) -> Result<Reply, AllocError>
    ensures stands { (s : Setting) (d : Debugger) → M.stands machine.now s d
        → IfOk result (IsEvaluateTold s d last.entry request.now) }
    ensures answered { (s : Setting) (at d : Debugger) (meant : model.Answer) → M.stands machine.now s at → at.events ≡ d.events → AreStops s stops.now d.stops
        → MeansLast s d last.entry meant
        → IfOk result (IsValueAnswered last.entry (text s meant d) (shown_values (now s d) meant) request.now) }
{
    match request {
        Request::SetVariable {
            reference,
            name,
            value: _,
            is_hexadecimal,
        } => set_variable(
            alloc,
            machine,
            stops,
            *reference,
            name,
            *is_hexadecimal,
            last,
        ),
        Request::SetExpression {
            expression,
            value: _,
            frame,
            is_hexadecimal,
        } => set_expression(
            alloc,
            machine,
            stops,
            *frame,
            expression,
            *is_hexadecimal,
            last,
        ),
        Request::Evaluate {
            expression,
            frame,
            context,
            is_hexadecimal,
        } => {
            let line = Line {
                context: *context,
                text: expression,
                is_hexadecimal: *is_hexadecimal,
            };
            match last {
                Some(answer) => done(alloc, machine, stops, *frame, line, answer),
                None => looked_up(alloc, machine, *frame, line),
            }
        }
        _ => Ok(Reply::Done),
    }
}

/// What a request is told that only looks; another one that it is done.
fn looked<M: ExpressionMachine>(
    alloc: Global,
    machine: &M,
    request: &Request<'_>,
) -> Result<Reply, AllocError>
    ensures { (s : Setting) (d : Debugger) → M.stands machine.now s d → IfOk result (IsLookTold s d request.now) }
{
    match request {
        Request::Threads => threads(alloc),
        Request::StackTrace {
            thread: _,
            start,
            levels,
        } => stack(alloc, machine, *start, *levels),
        Request::Scopes { frame } => scopes(alloc, machine, *frame),
        Request::Variables {
            reference,
            page,
            is_hexadecimal,
        } => shown(alloc, machine, form_if(*is_hexadecimal), *reference, *page),
        Request::Completions {
            text,
            column,
            frame,
        } => completed(alloc, machine, *frame, text.as_bytes(), *column),
        Request::DataBreakpointInfo {
            reference,
            frame,
            name,
        } => watchable(alloc, machine, *reference, *frame, name),
        _ => Ok(Reply::Done),
    }
}

/// What a request is told that has one reply always; another one that it is done.
fn plain(alloc: Global, request: &Request<'_>) -> Result<Reply, AllocError>
    ensures fixed { IfSome (fixed_reply request.now) (λ reply. IfOk result (λ told. told ≡ reply)) }
    ensures refused { IfSome (refusal_text request.now) (λ text. IfOk result (λ told. told_stop told ≡ Some (None, text))) }
{
    match request {
        Request::Initialize { .. } => Ok(Reply::Capabilities),
        Request::ExceptionInfo => refused(alloc, NO_FAULT),
        Request::Pause => refused(alloc, STANDS),
        Request::Launch(_) | Request::Restart => refused(alloc, "the program is launched already"),
        Request::Unknown(name) => unknown(alloc, name),
        _ => Ok(Reply::Done),
    }
}

/// The one thread: the gang.
fn threads(alloc: Global) -> Result<Reply, AllocError>
    ensures { IfOk result AreThreadsTold }
{
    let name = String::from_str(alloc, "gang")?;
    let mut threads = Vec::new(alloc);
    threads.push(Thread { id: GANG, name })?;
    Ok(Reply::Threads(threads))
}

/// The variables that a reference stands for, as a page asks for them, or a refusal where it stands for none now.
fn shown<M: FramedMachine>(
    alloc: Global,
    machine: &M,
    form: Form,
    reference: u64,
    page: Page,
) -> Result<Reply, AllocError>
    ensures { (s : Setting) (d : Debugger) → M.stands machine.now s d → IfOk result (AreVariablesTold (told_now form page s d reference)) }
{
    match variables(alloc, machine, form, reference, page)? {
        Some(variables) => Ok(Reply::Variables(variables)),
        None => refused(alloc, "nothing has this reference now"),
    }
}

/// So many frames from a place on, and how many there are.
fn stack<M: RecordedMachine>(
    alloc: Global,
    machine: &M,
    start: Option<u64>,
    levels: Option<u64>,
) -> Result<Reply, AllocError>
    ensures { (s : Setting) (d : Debugger) → M.stands machine.now s d → IfOk result (AreFramesTold start levels (all_frames s.program (now s d).frames)) }
{
    let all = frames(alloc, machine)?;
    frames_reply(alloc, all, start, levels)
}

/// The scopes of the frame of a number, or a refusal where there is no such frame.
fn scopes<M: RecordedMachine>(alloc: Global, machine: &M, frame: u64) -> Result<Reply, AllocError>
    ensures { (s : Setting) (d : Debugger) → M.stands machine.now s d → IfOk result (AreScopesTold (is_frame (depth (now s d)) frame) (has_ended (now s d)) frame) }
{
    let depth = frame as usize;
    if is_frame(depth_of(machine), depth) {
        Ok(Reply::Scopes(scopes_of(has_ended(machine), depth)))
    } else {
        refused(alloc, NO_FRAME)
    }
}

/// The names that can stand in a text before a column, in the frame of a number or in the top one.
fn completed<M: FramedMachine>(
    alloc: Global,
    machine: &M,
    frame: Option<u64>,
    text: &[u8],
    column: u64,
) -> Result<Reply, AllocError>
    ensures { (s : Setting) (d : Debugger) → M.stands machine.now s d
        → IfOk result (AreCompletionsToldIn s d (frame_or (depth (now s d)) frame) (front text.now column)) }
{
    let depth = frame_or(depth_of(machine), frame);
    completed_at(alloc, machine, depth, front_of(text, column))
}

/// The names that can stand at the end of a text in the frame at a depth, or a refusal where there is no such frame.
fn completed_at<M: FramedMachine>(
    alloc: Global,
    machine: &M,
    depth: usize,
    front: &[u8],
) -> Result<Reply, AllocError>
    ensures { (s : Setting) (d : Debugger) → M.stands machine.now s d → IfOk result (AreCompletionsToldIn s d depth front.now) }
{
    if !is_frame(depth_of(machine), depth) {
        return refused(alloc, NO_FRAME);
    }
    let names = completions(alloc, machine, depth, front)?;
    Ok(Reply::Completions(names))
}

/// The depth of the frame of a number, or of the top one.
pub(crate) fn frame_or(top: usize, frame: Option<u64>) -> usize
    ensures { result ≡ frame_or top frame }
{
    match frame {
        None => top,
        Some(frame) => frame as usize,
    }
}

/// The scopes of the frame at a depth, or of the one at the end of the program.
fn scopes_of(has_ended: bool, depth: usize) -> Scopes
    ensures call { option_map call_places result.call ≡ call_scopes has_ended depth }
    ensures file { place_of result.file ≡ place.File }
{
    Scopes {
        call: if has_ended {
            None
        } else {
            Some(call_scopes(depth))
        },
        file: reference_of(Place::File),
    }
}

/// The scopes of the call of the frame at a depth.
fn call_scopes(depth: usize) -> CallScopes
    ensures { call_places result ≡ (within (place.Variables Locals depth), within (place.Variables Arguments depth)) }
{
    CallScopes {
        locals: reference_of(Place::Variables {
            scope: Scope::Locals,
            depth,
        }),
        arguments: reference_of(Place::Variables {
            scope: Scope::Arguments,
            depth,
        }),
    }
}

/// The refusal of a request that is not known.
fn unknown(alloc: Global, name: &str) -> Result<Reply, AllocError>
    ensures { IfOk result (λ told. told_stop told ≡ Some (None, codes "no request " ++ name.now)) }
{
    Ok(Reply::Refused(format!(in alloc; "no request {name}")?))
}

/// A refusal by this text.
pub(crate) fn refused(alloc: Global, text: &str) -> Result<Reply, AllocError>
    ensures { IfOk result (λ told. told_stop told ≡ Some (None, text.now)) }
{
    Ok(Reply::Refused(String::from_str(alloc, text)?))
}

/// Where a command that moves has led, or why it was refused.
fn moved<M: RecordedMachine>(
    alloc: Global,
    machine: &M,
    stops: &[NumberedStop],
    last: Option<Answer<'_>>,
) -> Result<Reply, AllocError>
    ensures { (s : Setting) (at d : Debugger) (meant : model.Answer) → M.stands machine.now s at → at.events ≡ d.events → AreStops s stops.now d.stops
        → MeansLast s d last.entry meant → IfOk result (λ told. IsMoveTold last.entry (text s meant d) told) }
{
    let Some(answer) = last else {
        return Ok(Reply::Done);
    };
    if is_ended(&answer) {
        return Ok(Reply::Ended);
    }
    let text = answer_text(alloc, &answer, machine, stops)?;
    Ok(told(text, stop_of(&answer)))
}

/// Where going to a line has led, or why it was refused.
fn gone<M: RecordedMachine>(
    alloc: Global,
    machine: &M,
    stops: &[NumberedStop],
    last: Option<Answer<'_>>,
) -> Result<Reply, AllocError>
    ensures { (s : Setting) (at d : Debugger) (meant : model.Answer) → M.stands machine.now s at → at.events ≡ d.events → AreStops s stops.now d.stops
        → MeansLast s d last.entry meant → IfOk result (λ told. IsGotoTold last.entry (text s meant d) told) }
{
    let Some(answer) = last else {
        return Ok(Reply::Done);
    };
    let text = answer_text(alloc, &answer, machine, stops)?;
    Ok(told(text, goto_reason(&answer)))
}

/// Whether an answer refuses to move since the program has ended.
fn is_ended(answer: &Answer<'_>) -> bool
    ensures { result ≡ is_ended answer.now }
{
    matches!(answer, Answer::Refused(Refusal::Ended))
}

/// A stop, or a refusal where nothing moved.
fn told(text: String, reason: Option<StopReason>) -> Reply
    ensures { told_stop result ≡ Some (reason, string_bytes text) }
{
    match reason {
        Some(reason) => Reply::Moved(Stop { reason, text }),
        None => Reply::Refused(text),
    }
}
