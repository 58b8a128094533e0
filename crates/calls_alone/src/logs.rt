//! Breakpoints that write a text.
use crate::ends::Ended;
use crate::runs::session;
use conditional_stops::{Conditions, Direction};
use debug_commands::Command;
use debug_traits::RecordedMachine;
use ispc_debugger::ProgramSession;
use log_points::{Logs, Written, continue_writing, write_here};
use std::alloc::Global;

/// The text, with the value of an expression.
const MESSAGE: &str = "n is {n + t[1]}";

/// Makes the call of a name, if there is memory for what it is called on.
pub(crate) fn call(alloc: Global, name: &str) -> Option<Ended> {
    match name {
        "log_points::write_here" => {
            let mut session = session(alloc)?;
            write(alloc, &mut logs(), &mut session)
        }
        "log_points::continue_writing" => {
            let mut session = session(alloc)?;
            Some(go_on(alloc, &mut logs(), &mut session))
        }
        _ => None,
    }
}

/// A breakpoint that writes a text, of the number 1.
fn logs() -> Logs {
    let mut logs = Logs::new(Conditions::new());
    logs.put(1, MESSAGE);
    logs
}

/// Writes the text where the program stands.
fn write(alloc: Global, logs: &mut Logs, session: &mut ProgramSession<4>) -> Option<Ended> {
    let line = session.machine().position()?.place.line;
    session.do_command(Command::Break(line));
    let mut written = Written::new(alloc);
    write_here(alloc, logs, session, &mut written);
    Some(end_of_texts(&written))
}

/// Goes on past the breakpoint.
fn go_on(alloc: Global, logs: &mut Logs, session: &mut ProgramSession<4>) -> Ended {
    session.do_command(Command::Break(10));
    let mut conditions = Conditions::new();
    let wrote = continue_writing(alloc, Direction::Forward, 9, logs, &mut conditions, session);
    end_of_texts(&wrote.written)
}

/// How the writing of texts ended.
fn end_of_texts(written: &Written) -> Ended {
    if written.is_cut {
        return Ended::Memory;
    }
    if written.texts.is_empty() {
        Ended::Otherwise
    } else {
        Ended::Done
    }
}
