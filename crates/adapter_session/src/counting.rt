//! How a program goes on to a stop that counts, and writes texts on the way.
ghost use Rattle.std.specs.Prelude.{◌≡◌};
ghost use Rattle.gang_model.specs.Debugger.Debugger.{Debugger, Setting};
ghost use Rattle.gang_model.specs.Texts.CommandText.{command_of};
ghost use Rattle.debug_session.specs.Sessions.{StandsFor};
ghost use Rattle.adapter_session.specs.Done as spec;
ghost use Rattle.adapter_session.specs.Done.{GoesToStop};
ghost use Rattle.adapter_session.specs.Requested as requested;
ghost use Rattle.adapter_session.specs.Terms.{terms_of};

use crate::answering::{Answered, told};
use crate::lines::is_console;
use crate::terms::Terms;
use adapter_requests::{Context, Request};
use conditional_stops::{Direction, MoveEnd, Verdict};
use debug_commands::{Command, read_command};
use debug_session::Session;
use frame_expressions::ExpressionMachine;
use log_points::continue_writing;
use std::alloc::Global;

/// The most stops that are passed for one request.
const MOST: u32 = 1_000_000;

/// Which way a request goes on, where conditions, counts or messages are there.
pub(crate) fn way_by(terms: &Terms, request: &Request<'_>) -> Option<Direction>
    ensures { result ≡ spec.way_by (terms_of terms.now) request.now }
{
    if terms.left.is_empty() {
        None
    } else {
        way_of(request)
    }
}

/// Which way a request goes on.
fn way_of(request: &Request<'_>) -> Option<Direction>
    ensures { result ≡ spec.way_of request.now }
{
    match request {
        Request::Continue => Some(Direction::Forward),
        Request::ReverseContinue => Some(Direction::Backward),
        Request::Evaluate {
            expression,
            frame: _,
            context,
            is_hexadecimal: _,
        } => way_of_line(*context, expression),
        _ => None,
    }
}

/// Which way a line of the console goes on.
fn way_of_line(context: Context, text: &str) -> Option<Direction>
    ensures { result ≡ spec.way_of_line (requested.is_console context) text.now }
{
    if !is_console(context) {
        return None;
    }
    way_of_command(text.as_bytes())
}

/// Which way the command of a line goes on.
fn way_of_command(text: &[u8]) -> Option<Direction>
    ensures { result ≡ spec.way_of_command (command_of text.now) }
{
    match read_command(text) {
        Some(Command::Continue) => Some(Direction::Forward),
        Some(Command::ReverseContinue) => Some(Direction::Backward),
        _ => None,
    }
}

/// Goes on to a stop that counts, or to what else ends that, writes texts on the way, and says what the request is told.
pub(crate) fn go_to_counted<M: ExpressionMachine>(
    alloc: Global,
    program: &str,
    terms: &mut Terms,
    session: &mut Session<M>,
    request: &Request<'_>,
    way: Direction,
) -> Answered
    ensures { (s : Setting) (d : Debugger) → StandsFor M.stands session.old s d
        → GoesToStop M.stands s program.now request.now way d (terms_of terms.old) result session.new (terms_of terms.new) }
{
    let Terms {
        asked: _,
        left,
        logs,
        functions: _,
        entry: _,
    } = terms;
    let wrote = continue_writing(alloc, way, MOST, logs, left, session);
    let answer = wrote.moved.end.answer();
    let reply = told(alloc, program, session, request, Some(answer));
    Answered {
        reply,
        verdict: verdict_of(wrote.moved.end),
        written: wrote.written,
    }
}

/// What the condition came to of a stop that counts.
fn verdict_of(end: MoveEnd<'_>) -> Option<Verdict>
    ensures { result ≡ spec.verdict_of end.entry }
{
    match end {
        MoveEnd::Stopped(counted) => counted.verdict,
        MoveEnd::Answered(_) | MoveEnd::MostPassed | MoveEnd::NoMemory => None,
    }
}
