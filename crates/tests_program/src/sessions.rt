//! Sessions that another front end opens, and goes on with command by command.
use crate::running::OPTIONS;
use crate::runs::SOURCE;
use crate::told::holds;
use debug_commands::read_command;
use gang_model::{RefusalNumber, SourceRefusal};
use gang_types::Place;
use ispc_debugger::{Options, ProgramSession, Refusal, Width, open_session};
use std::alloc::Global;
use tests_devices::PieceWriter;
use transcript::write_answer;

/// Whether a session answers a command line so.
fn answers(session: &mut ProgramSession<8>, line: &[u8], wanted: &[u8]) -> bool {
    let Some(command) = read_command(line) else {
        return false;
    };
    let answer = session.do_command(command);
    let mut writer = PieceWriter::new(512, 512);
    write_answer(&answer, session, &mut writer).is_ok() && writer.bytes() == wanted
}

/// Whether a session of the source, with two events kept and at most three moves, answers each line so.
fn answers_each(alloc: Global, lines: &[(&[u8], &[u8])]) -> bool {
    let options = Options {
        width: Width::Eight,
        history: 2,
        steps: 3,
        ..OPTIONS
    };
    let Ok(mut session) = open_session::<8>(alloc, SOURCE, b"", &options) else {
        return false;
    };
    for (line, wanted) in lines {
        if !answers(&mut session, line, wanted) {
            return false;
        }
    }
    true
}

const LINES: &[(&[u8], &[u8])] = &[
    (b"step", b"at 3:5 go depth 1 lanes 11111111\n"),
    (b"print x", b"x = 0 3 6 9 12 15 18 21\n"),
    (b"set var x[7] = 1", b"x[7] = 1\n"),
    (b"step", b"at 4:1 go depth 1 lanes 11111111\n"),
    (b"print x", b"x = 1 4 7 10 13 16 19 2\n"),
    (b"undo", b"undone step: at 3:5 go depth 1 lanes 11111111\n"),
    (b"undo", b"undone poke: at 3:5 go depth 1 lanes 11111111\n"),
    (b"undo", b"C3 NoHistory\n"),
];

#[test]
fn a_session_has_the_width_and_the_limits_of_its_options(rt: HostRuntime) {
    holds(
        &rt,
        answers_each(rt.alloc(), LINES),
        "the lines of a session",
    );
}

/// Why no session of the source is opened, with this entry and this input.
fn refusal(alloc: Global, source: &[u8], entry: Option<&str>, input: &[u8]) -> Option<Refusal> {
    let options = Options { entry, ..OPTIONS };
    open_session::<4>(alloc, source, input, &options).err()
}

#[test]
fn no_session_of_what_is_refused(rt: HostRuntime) {
    let missing = refusal(rt.alloc(), SOURCE, Some("gone"), b"");
    holds(&rt, missing == Some(Refusal::NoEntry), "no entry");
    let unknown = refusal(rt.alloc(), b"export void go() { x = 1; }", None, b"n");
    let place = Place { line: 1, col: 20 };
    let number = RefusalNumber::S5;
    let refused = Refusal::Source(SourceRefusal { number, place });
    holds(&rt, unknown == Some(refused), "an unknown name");
    let row = refusal(rt.alloc(), SOURCE, None, b"n = 1");
    holds(
        &rt,
        matches!(&row, Some(Refusal::Input(_))),
        "a row of no variable",
    );
}
