//! A picture of a run, to a file or to standard output.
ghost use Rattle.std.specs.Prelude.{◌≡◌};
ghost use Rattle.ispc_options.specs.Ranges.{AreInRange};
ghost use Rattle.ispc_debugger.specs.Runs.{lanes_of};

use crate::files::{read_file, read_texts, reason};
use crate::overwriting::{Written, refuse_overwriting};
use crate::paging::{NOT_SO_FAR, goes_to_first};
use crate::refusing::{Texts, refuse, refuse_because, refuse_file, refuse_program, write_fault};
use crate::words_of_source::may_have_name;
use debug_commands::{Command, Target, read_command};
use debug_session::Session;
use debug_streams::StreamWriter;
use debug_traits::RecordedMachine;
use desk_options::{Picture, Program};
use ispc_debugger::{ProgramSession, open_session};
use ispc_options::Width;
use ispc_refusals::Refusal;
use lane_picture::{Form, PictureEnd, Subject, draw};
use std::alloc::AllocError;
use std::fs;
use std::io::{LineWriter, Write};
use std::process::ExitCode;

/// The most bytes of a file of commands.
const MOST_COMMANDS: usize = 1_048_576;

/// Why a target is not watched.
const NO_TARGET: &[u8] =
    b"--watch takes a variable, or a lane or an element of one as \"x[2]\", and not ";

const NOT_NAMED: &[u8] = b"--watch: the source has no variable ";

/// Why commands are not done.
const NO_COMMAND: &[u8] = b"--commands: no command of the debugger is spelled so: ";

/// What is drawn of a run: what the words ask for, the texts that they name, and what is watched.
#[derive(Clone, Copy)]
struct Plan<'a> {
    picture: &'a Picture<'a>,
    texts: Texts<'a>,
    commands: &'a [u8],
    watched: Option<Target<'a>>,
}

impl<'a> Plan<'a> {
    fn new(
        picture: &'a Picture<'a>,
        texts: Texts<'a>,
        commands: &'a [u8],
        watched: Option<Target<'a>>,
    ) -> Self {
        Plan {
            picture,
            texts,
            commands,
            watched,
        }
    }
}

/// Draws the run of a program. Its files are read first, the source before the input and this before the commands.
pub(crate) fn draw_picture(rt: &HostRuntime, picture: &Picture<'_>) -> ExitCode
    requires { AreInRange picture.now.program.options }
{
    if let Err(status) = refuse_overwriting(
        rt,
        Written::Picture,
        picture.to,
        &picture.program,
        picture.commands,
        picture.force,
    ) {
        return status;
    }
    let (source, input) = match read_texts(rt, picture.program.source, picture.program.input) {
        Ok(texts) => texts,
        Err(status) => return status,
    };
    let commands = match read_commands(rt, picture.commands) {
        Ok(commands) => commands,
        Err(status) => return status,
    };
    let texts = Texts::new(picture.program.source, source.as_slice(), input.as_slice());
    draw_texts(rt, picture, texts, commands.as_slice())
}

/// The command lines that a file has, none where no file is named; or the status where it cannot be read or has too many, or where a line
/// before one that quits spells no command.
pub(crate) fn read_commands(rt: &HostRuntime, path: Option<&str>) -> Result<Vec<u8>, ExitCode> {
    let commands = command_file(rt, path)?;
    match unknown_line(commands.as_slice()) {
        None => Ok(commands),
        Some(line) => Err(refuse_because(rt, NO_COMMAND, line)),
    }
}

/// The first line that spells no command, of those before one that quits.
fn unknown_line(lines: &[u8]) -> Option<&[u8]> {
    for line in lines.split(|byte| *byte == b'\n') {
        match read_command(line) {
            Some(Command::Quit) => return None,
            Some(_) => {}
            None => return Some(line),
        }
    }
    None
}

/// The bytes of a file of commands, none where no file is named; or the status where it cannot be read or has too many.
fn command_file(rt: &HostRuntime, path: Option<&str>) -> Result<Vec<u8>, ExitCode> {
    let Some(path) = path else {
        return Ok(Vec::new(rt.alloc()));
    };
    match read_file(rt, path, MOST_COMMANDS) {
        Ok(commands) if commands.len() > MOST_COMMANDS => Err(refuse_file(
            rt,
            b"cannot read ",
            path,
            b": there may be 1048576 bytes of commands at most",
        )),
        read => read,
    }
}

/// Draws what the words ask for.
fn draw_texts(
    rt: &HostRuntime,
    picture: &Picture<'_>,
    texts: Texts<'_>,
    commands: &[u8],
) -> ExitCode
    requires { AreInRange picture.now.program.options }
{
    let Ok(print) = line_of(rt, b"print ", picture.watch) else {
        return refuse(rt, &Refusal::Memory);
    };
    let watched = match (picture.watch, read_command(print.as_slice())) {
        (None, _) => None,
        (Some(_), Some(Command::Print(target))) => Some(target),
        (Some(named), _) => return refuse_because(rt, NO_TARGET, named.as_bytes()),
    };
    if let Some(target) = watched {
        match may_have_name(rt.alloc(), texts.source.text, target.name) {
            Ok(true) => {}
            Ok(false) => return refuse_because(rt, NOT_NAMED, target.name),
            Err(_) => return refuse(rt, &Refusal::Memory),
        }
    }
    let plan = Plan::new(picture, texts, commands, watched);
    let program = &picture.program;
    match program.options.width {
        Width::Four => draw_wide::<4>(rt, &plan, program),
        Width::Eight => draw_wide::<8>(rt, &plan, program),
        Width::Sixteen => draw_wide::<16>(rt, &plan, program),
    }
}

/// A command line of a word and what follows it.
fn line_of(rt: &HostRuntime, front: &[u8], rest: Option<&str>) -> Result<Vec<u8>, AllocError> {
    let mut line = Vec::from_slice(rt.alloc(), front)?;
    line.extend_from_slice(rest.unwrap_or("").as_bytes())?;
    Ok(line)
}

fn draw_wide<const W: usize>(rt: &HostRuntime, plan: &Plan<'_>, program: &Program<'_>) -> ExitCode
    requires width { W ≡ lanes_of program.now.options.width }
    requires range { AreInRange program.now.options }
{
    let (source, input) = (plan.texts.source.text, plan.texts.input.text);
    match open_session::<W>(rt.alloc(), source, input, &program.options) {
        Err(refusal) => refuse_program(rt, &refusal, program, plan.texts),
        Ok(mut session) => {
            do_lines(plan.commands, &mut session);
            if !goes_to_first::<W>(plan.picture.from, &mut session) {
                return refuse_because(rt, NOT_SO_FAR, b"");
            }
            draw_session::<W>(rt, plan, &mut session)
        }
    }
}

/// Does command lines, up to one that quits.
pub(crate) fn do_lines<M: RecordedMachine>(lines: &[u8], session: &mut Session<M>) {
    let mut begin = 0usize;
    for at in 0..lines.len().saturating_add(1) {
        if matches!(lines.get(at), None | Some(b'\n')) {
            match read_command(lines.get(begin..at).unwrap_or(&[])) {
                Some(Command::Quit) => return,
                Some(command) => {
                    let _ = session.do_command(command);
                }
                None => {}
            }
            begin = at.saturating_add(1);
        }
    }
}

/// Draws a session, to the file that is named or to standard output.
fn draw_session<const W: usize>(
    rt: &HostRuntime,
    plan: &Plan<'_>,
    session: &mut ProgramSession<W>,
) -> ExitCode {
    let Some(path) = plan.picture.to else {
        return draw_on::<W, _>(rt, plan, Form::Image, rt.stdout(), session);
    };
    let form = if path.ends_with(".html") {
        Form::Page
    } else {
        Form::Image
    };
    match fs::create(rt, path) {
        Ok(file) => draw_on::<W, _>(rt, plan, form, file, session),
        Err(fault) => refuse_file(rt, b"cannot write ", path, reason(fault.kind())),
    }
}

/// Draws a session on a writer.
fn draw_on<const W: usize, O: Write + Drop>(
    rt: &HostRuntime,
    plan: &Plan<'_>,
    form: Form,
    file: O,
    session: &mut ProgramSession<W>,
) -> ExitCode {
    let Ok(lines) = LineWriter::new(rt.alloc(), file) else {
        return refuse(rt, &Refusal::Memory);
    };
    let subject = Subject {
        title: plan.texts.source.name,
        source: plan.texts.source.text,
        watched: plan.watched,
        first_number: plan.picture.from,
        most_steps: plan.picture.most,
        row_steps: plan.picture.row,
        form,
    };
    let mut writer = StreamWriter::new(lines);
    match draw(rt.alloc(), session, &subject, &mut writer) {
        Err(_) => refuse(rt, &Refusal::Memory),
        Ok(PictureEnd::WriteFault) => write_fault(rt),
        Ok(_) => ExitCode::SUCCESS,
    }
}
