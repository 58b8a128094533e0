//! What an editor's requests do, and what they are answered.
use crate::ends::{Ended, end_of};
use crate::runs::session;
use crate::stops::end_of_verdict;
use adapter_replies::{
    Threads, answer_text, exception_reply, expression_variables, no_value_text, opened_expression,
    reply_at_end, reply_to, thread_reply,
};
use adapter_requests::{Context, Filter, LineBreakpoint, Page, Reply, Request, StopReason};
use adapter_session::{Answered, Terms, answer_request, command_lines, stop_at_beginning};
use conditional_stops::CountedStop;
use debug_answers::Answer;
use debug_commands::Command;
use debug_traits::RecordedMachine;
use frame_values::NoValue;
use gang_types::{FaultName, IntType};
use ispc_debugger::ProgramSession;
use std::alloc::Global;
use value_digits::{Digits, digits_text};

/// The name of the source.
const PROGRAM: &str = "it.ispc";

/// What holds where the program stands.
const CONDITION: &str = "n + t[1] > 0";

/// Makes the call of a name, if there is memory for what it is called on.
pub(crate) fn call(alloc: Global, name: &str) -> Option<Ended> {
    match name {
        "adapter_session::command_lines" => Some(list_lines(alloc, &session(alloc)?)),
        "adapter_session::answer_request" => Some(step(alloc, &mut session(alloc)?)),
        "adapter_session::stop_at_beginning" => begin(alloc),
        "adapter_replies::no_value_text" => Some(end_of(&no_value_text(alloc, NoValue::NoFrame))),
        "adapter_replies::reply_to" => Some(list_frames(alloc, &session(alloc)?)),
        "adapter_replies::reply_at_end" => Some(list_end(alloc, &mut session(alloc)?)),
        "adapter_replies::opened_expression" => Some(open_value(alloc, &session(alloc)?)),
        "adapter_replies::expression_variables" => Some(list_lanes(alloc, &session(alloc)?)),
        "adapter_replies::exception_reply" => Some(tell_fault(alloc)),
        "adapter_replies::answer_text" => Some(write_frames(alloc, &session(alloc)?)),
        "adapter_replies::thread_reply" => Some(list_threads(alloc, &session(alloc)?)),
        "value_digits::digits_text" => {
            let text = digits_text(alloc, Digits::Hexadecimal, IntType::Int32, 255);
            Some(end_of(&text))
        }
        _ => None,
    }
}

/// Does a request to step, which is done also where there is no memory to tell of it.
fn step(alloc: Global, session: &mut ProgramSession<4>) -> Ended {
    let mut terms = Terms::new();
    match answer_request(alloc, PROGRAM, &mut terms, session, &Request::StepIn) {
        Ok(
            Answered {
                reply: Reply::OutOfMemory,
                verdict: _,
                written: _,
            },
        ) => Ended::Memory,
        answered => end_of(&answered),
    }
}

/// Asks a breakpoint with a condition where the program stands.
fn begin(alloc: Global) -> Option<Ended> {
    let mut session = session(alloc)?;
    let mut terms = Terms::new();
    let asked = LineBreakpoint {
        line: session.machine().position()?.place.line,
        condition: Some(CONDITION),
        passes: 0,
        log: None,
    };
    let mut lines = Vec::new(alloc);
    lines.push(Ok(asked)).ok()?;
    let source = Some(PROGRAM);
    let request = Request::SetBreakpoints { source, lines };
    answer_request(alloc, PROGRAM, &mut terms, &mut session, &request).ok()?;
    let beginning = stop_at_beginning(alloc, &mut terms, &session);
    match beginning.first? {
        CountedStop {
            verdict: Some(verdict),
            reason: _,
        } => Some(end_of_verdict(verdict)),
        CountedStop {
            verdict: None,
            reason: _,
        } => Some(Ended::Otherwise),
    }
}

/// The lines of a request to step.
fn list_lines(alloc: Global, session: &ProgramSession<4>) -> Ended {
    let terms = Terms::new();
    end_of(&command_lines(alloc, PROGRAM, &terms, session, &Request::StepIn))
}

/// Replies the frames.
fn list_frames(alloc: Global, session: &ProgramSession<4>) -> Ended {
    let (machine, stops) = (session.machine(), session.stops());
    end_of(&reply_to(
        alloc,
        machine,
        stops,
        &Request::StackTrace {
            thread: None,
            start: None,
            levels: None,
        },
        true,
        None,
    ))
}

/// Replies the frame of a program that has ended.
fn list_end(alloc: Global, session: &mut ProgramSession<4>) -> Ended {
    session.do_command(Command::Continue);
    let request = Request::StackTrace {
        thread: None,
        start: None,
        levels: None,
    };
    match reply_at_end(alloc, session.machine(), Some(0), &request, Reply::Done) {
        Reply::Frames { .. } => Ended::Done,
        Reply::OutOfMemory => Ended::Memory,
        _ => Ended::Otherwise,
    }
}

/// Looks whether the value of an expression opens.
fn open_value(alloc: Global, session: &ProgramSession<4>) -> Ended {
    let request = Request::Evaluate {
        expression: CONDITION,
        frame: None,
        context: Context::Watch,
        is_hexadecimal: false,
    };
    let told = Reply::Evaluated {
        text: String::new(alloc),
        reason: None,
        reference: 0,
    };
    end_of(&opened_expression(alloc, session.machine(), &request, &told))
}

/// Replies the lanes of the value of an expression.
fn list_lanes(alloc: Global, session: &ProgramSession<4>) -> Ended {
    let page = Page {
        start: None,
        count: None,
        filter: Filter::All,
    };
    end_of(&expression_variables(
        alloc,
        session.machine(),
        1,
        CONDITION.as_bytes(),
        false,
        page,
    ))
}

/// Replies which fault the last stop was at.
fn tell_fault(alloc: Global) -> Ended {
    let stopped = StopReason::Exception {
        name: FaultName::Index,
        lane: 3,
    };
    end_of(&exception_reply(alloc, stopped))
}

/// Lists the lanes as threads.
fn list_threads(alloc: Global, session: &ProgramSession<4>) -> Ended {
    let threads = Threads::Lanes(4);
    end_of(&thread_reply(alloc, session.machine(), threads, &Request::Threads))
}

/// Writes the answer that lists the frames.
fn write_frames(alloc: Global, session: &ProgramSession<4>) -> Ended {
    let (machine, stops) = (session.machine(), session.stops());
    end_of(&answer_text(alloc, &Answer::ListsFrames, machine, stops))
}
