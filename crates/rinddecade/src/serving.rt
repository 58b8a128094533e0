//! An editor's requests, on the standard streams.
ghost use Rattle.std.specs.Prelude.{◌≡◌, ◌≤◌, IfSome};
ghost use Rattle.ispc_options.specs.Ranges.{AreInRange};
ghost use Rattle.ispc_debugger.specs.Runs.{lanes_of};

use crate::files::{SystemFiles, file_front};
use crate::refused_launches::{
    MOST_HISTORY, MOST_STEPS, Unread, number_text, refusal_text, unread_text,
};
use crate::refusing::{read_fault, refuse, write_fault};
use adapter_requests::Launch;
use adapter_server::{Connection, Ended, LaunchMessage, Served};
use adapter_session::Terms;
use debug_inputs::MOST_BYTES as MOST_INPUT;
use ispc_debugger::{WholeSession, open_whole_session};
use ispc_options::{Options, Width};
use ispc_refusals::Refusal;
use ispc_script::MOST_BYTES;
use std::alloc::AllocError;
use std::io::{Read, Write};
use std::process::ExitCode;

/// The most moves of one command, where a launch says nothing of them.
const STEPS: u32 = 1_000_000;

/// Serves the editor that is at standard input and output.
pub(crate) fn adapt(rt: &HostRuntime) -> ExitCode {
    let mut connection = Connection::new(rt.alloc(), rt.stdin(), rt.stdout());
    match serve_launches(rt, &mut connection) {
        Ended::Disconnected | Ended::EndOfInput => ExitCode::SUCCESS,
        Ended::Memory => refuse(rt, &Refusal::Memory),
        Ended::ReadFault => read_fault(rt),
        Ended::WriteFault => write_fault(rt),
    }
}

/// Serves one launch after another, until the connection ends.
fn serve_launches<R: Read + Drop, O: Write + Drop>(
    rt: &HostRuntime,
    connection: &mut Connection<R, O>,
) -> Ended {
    for _ in 0..u64::MAX {
        match serve_next(rt, connection) {
            Ok(Served::Restarts) => {}
            Ok(Served::Disconnected) => return Ended::Disconnected,
            Err(ended) => return ended,
        }
    }
    Ended::EndOfInput
}

/// Serves the next launch. A refused one is followed by another.
fn serve_next<R: Read + Drop, O: Write + Drop>(
    rt: &HostRuntime,
    connection: &mut Connection<R, O>,
) -> Result<Served, Ended> {
    let message = connection.await_launch()?;
    let Some(launch) = message.launch() else {
        return Err(Ended::Memory);
    };
    let Some(options) = options_of(&launch) else {
        let text = number_text(rt.alloc(), &launch)?;
        connection.refuse_launch(&message, text.as_str())?;
        return Ok(Served::Restarts);
    };
    match options.width {
        Width::Four => serve_wide::<4, R, O>(rt, connection, &message, &launch, &options),
        Width::Eight => serve_wide::<8, R, O>(rt, connection, &message, &launch, &options),
        Width::Sixteen => serve_wide::<16, R, O>(rt, connection, &message, &launch, &options),
    }
}

/// The source and the input of a launch, an empty one where it names none; or the one that is not read.
fn texts_of<'a>(rt: &HostRuntime, launch: &Launch<'a>) -> Result<(Vec<u8>, Vec<u8>), Unread<'a>> {
    let source = text_of(rt, launch.program, MOST_BYTES)?;
    match launch.input {
        None => Ok((source, Vec::new(rt.alloc()))),
        Some(path) => Ok((source, text_of(rt, path, MOST_INPUT)?)),
    }
}

/// The front of a file of a launch.
fn text_of<'a>(rt: &HostRuntime, path: &'a str, most: usize) -> Result<Vec<u8>, Unread<'a>> {
    match file_front(rt, path, most) {
        Ok(text) => Ok(text),
        Err(fault) => Err(Unread {
            path,
            kind: fault.kind(),
        }),
    }
}

/// The options of a launch, if its numbers are in their ranges.
fn options_of<'a>(launch: &Launch<'a>) -> Option<Options<'a>>
    ensures { IfSome result AreInRange }
{
    let width = match launch.width {
        None | Some(4) => Width::Four,
        Some(8) => Width::Eight,
        Some(16) => Width::Sixteen,
        Some(_) => return None,
    };
    let history = number_within(launch.history, MOST_HISTORY, MOST_HISTORY)?;
    let steps = number_within(launch.steps, STEPS, MOST_STEPS)?;
    Some(Options {
        width,
        history,
        steps,
        entry: launch.entry,
        lane_pure: false,
    })
}

/// A number from 1 to the most, or another one where none is given.
fn number_within(number: Option<u64>, other: u32, most: u32) -> Option<u32>
    requires least { 1 ≤ other }
    requires within { other ≤ most }
    ensures { IfSome result (λ n. (1 ≤ n) × (n ≤ most)) }
{
    match number {
        None => Some(other),
        Some(number) if 1 <= number && number <= u64::from(most) => Some(number as u32),
        Some(_) => None,
    }
}

/// Opens a program at a width, and serves the editor until it disconnects.
fn serve_wide<const W: usize, R: Read + Drop, O: Write + Drop>(
    rt: &HostRuntime,
    connection: &mut Connection<R, O>,
    message: &LaunchMessage,
    launch: &Launch<'_>,
    options: &Options<'_>,
) -> Result<Served, Ended>
    requires width { W ≡ lanes_of options.now.width }
    requires range { AreInRange options.now }
{
    match open_launch::<W>(rt, launch, options)? {
        Opened::Refused(text) => {
            connection.refuse_launch(message, text.as_str())?;
            Ok(Served::Restarts)
        }
        Opened::Session(session) => {
            serve_session::<W, R, O>(rt, connection, message, launch, options, session)
        }
    }
}

/// Serves a session, and those that are opened anew for it by what its files are then, until the editor disconnects.
fn serve_session<const W: usize, R: Read + Drop, O: Write + Drop>(
    rt: &HostRuntime,
    connection: &mut Connection<R, O>,
    message: &LaunchMessage,
    launch: &Launch<'_>,
    options: &Options<'_>,
    session: WholeSession<W>,
) -> Result<Served, Ended>
    requires width { W ≡ lanes_of options.now.width }
    requires range { AreInRange options.now }
{
    let files = SystemFiles { rt };
    let mut session = session;
    let mut terms = Terms::new();
    let mut served = connection.serve(message, &mut terms, &mut session, &files)?;
    for _ in 0..u64::MAX {
        if served == Served::Disconnected {
            break;
        }
        match open_launch::<W>(rt, launch, options)? {
            Opened::Refused(text) => {
                connection.refuse_restart(text.as_str())?;
                served = connection.go_on(message, &mut terms, &mut session, &files)?;
            }
            Opened::Session(mut next) => {
                served = connection.restart(message, &session, &mut terms, &mut next, &files)?;
                session = next;
            }
        }
    }
    Ok(Served::Disconnected)
}

/// What opening a program came to.
#[derive(Drop)]
enum Opened<const W: usize> {
    Session(WholeSession<W>),
    /// Why the program is refused.
    Refused(String),
}

/// Opens the program of a launch at a width, by what its files are now.
fn open_launch<const W: usize>(
    rt: &HostRuntime,
    launch: &Launch<'_>,
    options: &Options<'_>,
) -> Result<Opened<W>, AllocError>
    requires width { W ≡ lanes_of options.now.width }
    requires range { AreInRange options.now }
{
    let (source, input) = match texts_of(rt, launch) {
        Ok(texts) => texts,
        Err(unread) => return Ok(Opened::Refused(unread_text(rt.alloc(), unread)?)),
    };
    match open_whole_session::<W>(rt.alloc(), source.as_slice(), input.as_slice(), options) {
        Ok(session) => Ok(Opened::Session(session)),
        Err(refusal) => {
            let text = refusal_text(rt.alloc(), launch, source.as_slice(), &refusal)?;
            Ok(Opened::Refused(text))
        }
    }
}
