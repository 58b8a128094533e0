//! How the program goes to a time of a line.
ghost use Rattle.std.specs.Prelude.{◌≡◌, ℕ, Some, [], ◌∷◌};
ghost use Rattle.gang_model.specs.Debugger.Debugger.{Debugger, DoDelete, Setting, do_command};
ghost use Rattle.debug_commands.specs.Views.{command_view};
ghost use Rattle.debug_session.specs.Sessions.{StandsFor};
ghost use Rattle.command_lists.specs.Lists.{HasDone};
ghost use Rattle.adapter_session.specs.Answered.{IsToldAt, IsToldGoing};
ghost use Rattle.adapter_session.specs.Going as spec;

use crate::answering::told;
use adapter_requests::{Reply, Request, Way};
use debug_answers::Answer;
use debug_commands::Command;
use debug_session::Session;
use frame_expressions::ExpressionMachine;
use std::alloc::Global;

/// The line and the time of it to which a request asks to go.
pub(crate) fn goto_of(request: &Request<'_>) -> Option<(u32, Way)>
    ensures { result ≡ spec.goto_of request.now }
{
    match request {
        Request::Goto { line, way } => Some((*line, *way)),
        _ => None,
    }
}

/// Goes to a time of a line, by a breakpoint that is made for it and deleted again, and says what the request is told.
pub(crate) fn go_to<M: ExpressionMachine>(
    alloc: Global,
    program: &str,
    session: &mut Session<M>,
    request: &Request<'_>,
    time: (u32, Way),
) -> Reply
    ensures done { (s : Setting) (d : Debugger) → StandsFor M.stands session.old s d → HasDone M.stands s (spec.goto_commands s d time) d session.new }
    ensures told { (s : Setting) (d : Debugger) → StandsFor M.stands session.old s d → IsToldGoing s program.now request.now d time result }
{
    let (line, way) = time;
    let answer = session.do_command(Command::Break(line));
    match made_number(&answer) {
        Some(number) => go_to_stop(alloc, program, session, request, way, number),
        None => told(alloc, program, session, request, Some(answer)),
    }
}

/// The breakpoint that was made.
fn made_number(answer: &Answer<'_>) -> Option<u32>
    ensures { result ≡ spec.given_number answer.now }
{
    match answer {
        Answer::BreaksAt { number, line: _ } => Some(*number),
        _ => None,
    }
}

/// Goes to a breakpoint that has been made, and deletes it.
fn go_to_stop<M: ExpressionMachine>(
    alloc: Global,
    program: &str,
    session: &mut Session<M>,
    request: &Request<'_>,
    way: Way,
    number: u32,
) -> Reply
    ensures done { (s : Setting) (d : Debugger) → StandsFor M.stands session.old s d
        → HasDone M.stands s (spec.move_of way ∷ DoDelete (Some number) ∷ []) d session.new }
    ensures told { (s : Setting) (d : Debugger) → StandsFor M.stands session.old s d
        → IsToldAt s program.now request.now result (Some number) (do_command s (spec.move_of way) d) }
{
    let answer = session.do_command(move_of(way));
    let reply = told(
        alloc,
        program,
        session,
        request,
        Some(reached(answer, number)),
    );
    delete(session, number);
    reply
}

/// Deletes a breakpoint.
fn delete<M: ExpressionMachine>(session: &mut Session<M>, number: u32)
    ensures { (s : Setting) (d : Debugger) → StandsFor M.stands session.old s d → HasDone M.stands s (DoDelete (Some number) ∷ []) d session.new }
{
    let _answer = session.do_command(Command::Delete(Some(number)));
}

/// On to the next time, or back to the last one.
fn move_of(way: Way) -> Command<'static>
    ensures { command_view result ≡ spec.move_of way }
{
    match way {
        Way::Forwards => Command::Continue,
        Way::Backwards => Command::ReverseContinue,
    }
}

/// The answer that a move is told by: at the breakpoint that was made the goal is reached.
fn reached<'a>(answer: Answer<'a>, number: u32) -> Answer<'a>
    ensures { result ≡ spec.reached (spec.is_at (Some number) answer.entry) answer.entry }
{
    if is_at(&answer, number) {
        Answer::Here
    } else {
        answer
    }
}

/// Whether a move stopped at a breakpoint that was made.
fn is_at(answer: &Answer<'_>, number: u32) -> bool
    ensures { result ≡ spec.is_at (Some number) answer.now }
{
    match answer {
        Answer::AtBreakpoint(at) => *at == number,
        _ => false,
    }
}
