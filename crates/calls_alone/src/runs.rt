//! Runs of a source, from the words of a command line to a picture.
use crate::ends::{Ended, end_of, end_of_command};
use crate::samples::{INPUT, OPTIONS, SOURCE};
use debug_commands::Command;
use debug_traits::{FramedMachine, RecordedMachine};
use desk_options::read_verb;
use expression_watches::{ExpressionWatch, KeptCodes, expression_sight, judge_text, kept_sight};
use frame_expressions::ExpressionMachine;
use frame_values::value_of_expression;
use gang_machine::Machine;
use ispc_debugger::{ProgramSession, open_machine, open_session, open_whole_session, run};
use ispc_options::{read_options, wrong_arguments};
use lane_picture::{Form, Subject, draw};
use lane_report::report;
use prompt_texts::{Layout, lanes_at, told_variable};
use run_page::write_page;
use source_port::port;
use std::alloc::Global;
use tests_devices::{PieceReader, PieceWriter};
use undo_log::DeltaRing;

/// Makes the call of a name, if there is memory for what it is called on.
pub(crate) fn call(alloc: Global, name: &str) -> Option<Ended> {
    match name {
        "ispc_options::read_options" => {
            Some(end_of(&read_options(alloc, &["it.ispc", "--width", "8"])))
        }
        "ispc_options::wrong_arguments" => Some(end_of(&wrong_arguments(alloc, "it is wrong"))),
        "desk_options::read_verb" => {
            Some(end_of(&read_verb(alloc, &["picture", "it.ispc", "--watch", "x"])))
        }
        "lane_report::report" => Some(report_lanes(alloc)),
        "ispc_debugger::open_machine" => {
            Some(end_of(&open_machine::<4>(alloc, SOURCE, INPUT, &OPTIONS)))
        }
        "ispc_debugger::open_session" => {
            Some(end_of(&open_session::<4>(alloc, SOURCE, INPUT, &OPTIONS)))
        }
        "ispc_debugger::open_whole_session" => {
            Some(end_of(&open_whole_session::<4>(alloc, SOURCE, INPUT, &OPTIONS)))
        }
        "ispc_debugger::run" => Some(run_whole(alloc)),
        "debug_session::Session::do_command" => Some(grow(&mut session(alloc)?)),
        "lane_picture::draw" => Some(draw_picture(alloc, &mut session(alloc)?)),
        "run_page::write_page" => Some(write_run(alloc, &mut session(alloc)?)),
        "frame_values::value_of_expression" => Some(evaluate(alloc, &session(alloc)?)),
        "expression_watches::judge_text" => judge(alloc, &session(alloc)?),
        "expression_watches::expression_sight" => see(alloc, &session(alloc)?),
        "expression_watches::kept_sight" => see_kept(alloc, &session(alloc)?),
        "prompt_texts::told_variable" => tell_variable(alloc, &session(alloc)?),
        "source_port::port" => Some(end_of(&port(alloc, SOURCE))),
        _ => None,
    }
}

/// A session before the first step, if there is memory for it.
pub(crate) fn session(alloc: Global) -> Option<ProgramSession<4>> {
    open_session::<4>(alloc, SOURCE, INPUT, &OPTIONS).ok()
}

/// A machine before the first step, if there is memory for it.
pub(crate) fn machine(alloc: Global) -> Option<Machine<4, DeltaRing>> {
    open_machine::<4>(alloc, SOURCE, INPUT, &OPTIONS).ok()
}

/// Writes the report of the source.
fn report_lanes(alloc: Global) -> Ended {
    let mut writer = PieceWriter::new(512, 512);
    end_of(&report(alloc, SOURCE, &mut writer))
}

/// Runs the source, and does a step.
fn run_whole(alloc: Global) -> Ended {
    let mut reader = PieceReader::new(b"step\n", 512, 512);
    let mut writer = PieceWriter::new(512, 512);
    end_of(&run(alloc, SOURCE, INPUT, &OPTIONS, &mut reader, &mut writer))
}

/// Raises the history limit.
fn grow(session: &mut ProgramSession<4>) -> Ended {
    end_of_command(session.do_command(Command::SetHistory(6)))
}

/// Draws a picture of the run.
fn draw_picture(alloc: Global, session: &mut ProgramSession<4>) -> Ended {
    let subject = Subject {
        title: b"it.ispc",
        source: SOURCE,
        watched: None,
        first_number: 1,
        most_steps: 100,
        row_steps: 2,
        form: Form::Image,
    };
    let mut writer = PieceWriter::new(512, 512);
    end_of(&draw(alloc, session, &subject, &mut writer))
}

/// Writes the page of the run.
fn write_run(alloc: Global, session: &mut ProgramSession<4>) -> Ended {
    let subject = run_page::Subject {
        title: b"it.ispc",
        source: SOURCE,
        first_number: 1,
        most_steps: 100,
        most_words: 100,
        each: 1,
        around: &[],
    };
    let viewer = run_page::Viewer {
        front: &[b"<"],
        rest: &[b">"],
    };
    let mut writer = PieceWriter::new(512, 512);
    end_of(&write_page(alloc, session, &subject, &viewer, &mut writer))
}

/// The value of an expression where the program stands.
fn evaluate(alloc: Global, session: &ProgramSession<4>) -> Ended {
    end_of(&value_of_expression(alloc, b"n + t[1]", 1, session.machine()))
}

/// Whether a text means something where the program stands.
fn judge(alloc: Global, session: &ProgramSession<4>) -> Option<Ended> {
    let machine = session.machine();
    let spot = machine.spot(1)?;
    Some(end_of(&judge_text(alloc, b"n + t[1]", machine.program(), spot)))
}

/// What a watched expression shows where the program stands.
fn see(alloc: Global, session: &ProgramSession<4>) -> Option<Ended> {
    let machine = session.machine();
    let watch = ExpressionWatch::new(1, 1, machine.spot(1)?, b"n + t[1]")?;
    Some(end_of(&expression_sight(alloc, &watch, machine)))
}

/// The same, where no code is kept of it yet.
fn see_kept(alloc: Global, session: &ProgramSession<4>) -> Option<Ended> {
    let machine = session.machine();
    let watch = ExpressionWatch::new(1, 1, machine.spot(1)?, b"n + t[1]")?;
    let mut kept = KeptCodes::new(alloc);
    Some(end_of(&kept_sight(alloc, &watch, &mut kept, machine)))
}

/// What is told of an array where the program stands.
fn tell_variable(alloc: Global, session: &ProgramSession<4>) -> Option<Ended> {
    let machine = session.machine();
    let shown = machine.find_at(1, b"t")?;
    let layout = Layout {
        elements: 200,
        repeats: 10,
    };
    let lanes = lanes_at(1, machine);
    let told = told_variable(alloc, layout, shown, lanes, 0, shown.count, 1, machine);
    Some(end_of(&told))
}
