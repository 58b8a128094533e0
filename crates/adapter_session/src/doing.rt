//! What command lines do to a session.
ghost use Rattle.std.specs.Prelude.{◌≡◌, map, string_bytes};
ghost use Rattle.gang_model.specs.Debugger.Debugger.{Debugger, Setting};
ghost use Rattle.debug_commands.specs.Views.{command_view};
ghost use Rattle.debug_session.specs.Sessions.{RepliesTo, StandsFor};
ghost use Rattle.adapter_session.specs.Doing.{Does, DoesIn, DoesLines, DoesLinesIn};
ghost use Rattle.adapter_session.specs.Requested as requested;
ghost use Rattle.adapter_session.specs.Requested.{set_there};

use debug_answers::{Answer, Refusal};
use debug_commands::{Command, read_command};
use debug_session::Session;
use debug_traits::{FramedMachine, RecordedMachine};

/// Does command lines, one after another; the last one's answer is told, if there is a line.
pub fn do_lines<'a, M: RecordedMachine>(
    session: &mut Session<M>,
    lines: &'a [String],
) -> Option<Answer<'a>>
    ensures { (s : Setting) (d : Debugger) → StandsFor M.stands session.old s d
        → DoesLines M.stands s (map string_bytes lines.now) d result session.new }
{
    let mut last = None;
    for line in lines {
        last = Some(do_line(session, line.as_bytes()));
    }
    last
}

/// Does a command line.
fn do_line<'a, M: RecordedMachine>(session: &mut Session<M>, line: &'a [u8]) -> Answer<'a>
    ensures { (s : Setting) (d : Debugger) → StandsFor M.stands session.old s d → Does M.stands s line.now d result session.new }
{
    match read_command(line) {
        Some(command) => session.do_command(command),
        None => Answer::Refused(Refusal::BadCommand),
    }
}

/// Does command lines, one after another, as [`do_lines`] does, but one that sets a value does so in the frame at a depth, if there is one.
pub(crate) fn do_lines_in<'a, M: FramedMachine>(
    session: &mut Session<M>,
    frame: Option<usize>,
    lines: &'a [String],
) -> Option<Answer<'a>>
    ensures { (s : Setting) (d : Debugger) → StandsFor M.stands session.old s d
        → DoesLinesIn M.stands s frame (map string_bytes lines.now) d result session.new }
{
    let mut last = None;
    for line in lines {
        last = Some(do_line_in(session, frame, line.as_bytes()));
    }
    last
}

/// Does a command line, in the frame at a depth where it sets a value.
fn do_line_in<'a, M: FramedMachine>(
    session: &mut Session<M>,
    frame: Option<usize>,
    line: &'a [u8],
) -> Answer<'a>
    ensures { (s : Setting) (d : Debugger) → StandsFor M.stands session.old s d → DoesIn M.stands s frame line.now d result session.new }
{
    match read_command(line) {
        Some(command) => do_in(session, frame, command),
        None => Answer::Refused(Refusal::BadCommand),
    }
}

/// Does a command, in the frame at a depth where it sets a value and there is one.
fn do_in<'a, M: FramedMachine>(
    session: &mut Session<M>,
    frame: Option<usize>,
    command: Command<'a>,
) -> Answer<'a>
    ensures { (s : Setting) (d : Debugger) → StandsFor M.stands session.old s d
        → RepliesTo M.may_want M.stands s (set_there frame (command_view command.entry)) d result session.new }
{
    match frame {
        Some(depth) => do_at(session, depth, command),
        None => session.do_command(command),
    }
}

/// Does a command, in the frame at a depth where it sets a value.
fn do_at<'a, M: FramedMachine>(
    session: &mut Session<M>,
    depth: usize,
    command: Command<'a>,
) -> Answer<'a>
    ensures { (s : Setting) (d : Debugger) → StandsFor M.stands session.old s d
        → RepliesTo M.may_want M.stands s (requested.set_at depth (command_view command.entry)) d result session.new }
{
    match command {
        Command::Set { target, value } => session.set_in(depth, target, value),
        _ => session.do_command(command),
    }
}
