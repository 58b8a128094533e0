//! Stops with conditions.
use crate::ends::{CallFault, Ended};
use crate::runs::session;
use conditional_stops::{
    Conditions, CountedStop, Direction, MoveEnd, Verdict, Watch, ask_breakpoints, continue_on,
    judge_condition, walk_on,
};
use debug_answers::{Answer, Refusal};
use debug_commands::{Command, read_command};
use debug_traits::RecordedMachine;
use ispc_debugger::ProgramSession;
use std::alloc::Global;

/// What holds where the program stands, and at its breakpoint.
const CONDITION: &[u8] = b"n + t[1] > 0";

/// Makes the call of a name, if there is memory for what it is called on.
pub(crate) fn call(alloc: Global, name: &str) -> Option<Ended> {
    match name {
        "conditional_stops::judge_condition" => {
            Some(end_of_verdict(judge_condition(alloc, CONDITION, session(alloc)?.machine())))
        }
        "conditional_stops::ask_breakpoints" => Some(ask(alloc, &mut session(alloc)?)),
        "conditional_stops::continue_on" => Some(go_on(alloc, &mut session(alloc)?)),
        "conditional_stops::walk_on" => Some(walk(alloc, &mut session(alloc)?)),
        _ => None,
    }
}

/// Asks a breakpoint with a condition where the program stands.
fn ask(alloc: Global, session: &mut ProgramSession<4>) -> Ended {
    let Some(line) = line_of(session) else {
        return Ended::Otherwise;
    };
    session.do_command(Command::Break(line));
    let mut conditions = Conditions::new();
    if conditions.set_condition(1, CONDITION).is_err() {
        return Ended::Otherwise;
    }
    match ask_breakpoints(alloc, &mut conditions, session) {
        Some(
            CountedStop {
                verdict: Some(verdict),
                ..
            },
        ) => end_of_verdict(verdict),
        _ => Ended::Otherwise,
    }
}

/// The line where the program stands.
fn line_of(session: &ProgramSession<4>) -> Option<u32> {
    Some(session.machine().position()?.place.line)
}

/// Goes on to a breakpoint with a condition, beside a watch of an element that stays as it is before.
fn go_on(alloc: Global, session: &mut ProgramSession<4>) -> Ended {
    let Some(mut conditions) = conditions(session) else {
        return Ended::Otherwise;
    };
    end_of_move(continue_on(alloc, Direction::Forward, 9, &mut conditions, session).end)
}

/// Goes there by single steps, beside the watch of a variable that is not there.
fn walk(alloc: Global, session: &mut ProgramSession<4>) -> Ended {
    let Some(mut conditions) = conditions(session) else {
        return Ended::Otherwise;
    };
    let watches = [Watch::default()];
    end_of_move(
        walk_on(
            alloc,
            Direction::Forward,
            99,
            &watches,
            &mut conditions,
            session,
        )
        .end,
    )
}

/// Makes a breakpoint and a watch, and gives the breakpoint its condition.
fn conditions(session: &mut ProgramSession<4>) -> Option<Conditions> {
    for line in [b"break 10".as_slice(), b"watch t[1]".as_slice()] {
        if let Some(command) = read_command(line) {
            session.do_command(command);
        }
    }
    let mut conditions = Conditions::new();
    conditions.set_condition(1, CONDITION).ok()?;
    Some(conditions)
}

/// How a move ended that goes on to a breakpoint whose condition holds.
fn end_of_move(end: MoveEnd<'_>) -> Ended {
    match end {
        MoveEnd::NoMemory | MoveEnd::Answered(Answer::Refused(Refusal::Memory)) => Ended::Memory,
        MoveEnd::Stopped(
            CountedStop {
                verdict: Some(verdict),
                ..
            },
        ) => end_of_verdict(verdict),
        _ => Ended::Otherwise,
    }
}

/// How the judging of a condition ended that holds.
pub(crate) fn end_of_verdict(verdict: Verdict) -> Ended {
    match verdict {
        Verdict::Holds(_) => Ended::Done,
        Verdict::NoValue(why) if why.is_memory() => Ended::Memory,
        Verdict::Fails | Verdict::NoValue(_) => Ended::Otherwise,
    }
}
