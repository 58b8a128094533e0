//! The threads that the editor of a launch sees, and what is told of them.
ghost use Rattle.std.specs.Prelude.{◌≡◌, IfOk};
ghost use Rattle.gang_model.specs.Debugger.Debugger.{Debugger, Setting, now};
ghost use Rattle.gang_model.specs.Debugger.Positions.{lanes_now};
ghost use Rattle.debug_session.specs.Sessions.{StandsFor};
ghost use Rattle.adapter_replies.specs.Threads as replies;
ghost use Rattle.opened_texts.specs.Texts.{texts_of};
ghost use Rattle.adapter_server.specs.Threads as spec;
ghost use Rattle.adapter_server.specs.Threads.{IsToldAside};

use crate::opening::children_reply;
use adapter_replies::{Threads, exception_reply, stop_thread, thread_reply};
use adapter_requests::{Launch, Reply, Request, StopReason};
use debug_session::Session;
use debug_traits::RecordedMachine;
use lane_places::LaneMachine;
use opened_texts::OpenedTexts;
use std::alloc::{AllocError, Global};

/// How many lanes the gang of a launch has that says no number.
const WIDTH: u64 = 4;

/// What a request is told for which a session has nothing to do: one for the fault of the last stop, one for the lanes of an expression
/// that has a place among the texts, and, where each lane is a thread, one for threads or for the frames of one.
pub(crate) fn told_aside<M: LaneMachine>(
    alloc: Global,
    launch: &Launch<'_>,
    session: &Session<M>,
    stopped: StopReason,
    texts: &OpenedTexts,
    request: &Request<'_>,
) -> Result<Option<Reply>, AllocError>
    ensures { (s : Setting) (d : Debugger) → StandsFor M.stands session.now s d
        → IfOk result (IsToldAside s d (spec.threads_of launch.now) stopped (texts_of texts.now) request.now) }
{
    match request {
        Request::ExceptionInfo => {
            let reply = exception_reply(alloc, stopped)?;
            Ok(Some(reply))
        }
        Request::Variables {
            reference,
            page,
            is_hexadecimal,
        } => children_reply(alloc, session, texts, *reference, *is_hexadecimal, *page),
        _ => thread_reply(alloc, session.machine(), threads_of(launch), request),
    }
}

/// The thread that a stop of a session names.
pub(crate) fn thread_of<M: RecordedMachine>(
    launch: &Launch<'_>,
    session: &Session<M>,
    reason: StopReason,
) -> u64
    ensures { (s : Setting) (d : Debugger) → StandsFor M.stands session.now s d
        → result ≡ replies.stop_thread (spec.threads_of launch.now) (lanes_now (now s d)) reason }
{
    stop_thread(session.machine(), threads_of(launch), reason)
}

/// The threads that the editor of a launch sees.
fn threads_of(launch: &Launch<'_>) -> Threads
    ensures { result ≡ spec.threads_of launch.now }
{
    if launch.lane_threads {
        Threads::Lanes(launch.width.unwrap_or(WIDTH) as usize)
    } else {
        Threads::Gang
    }
}
