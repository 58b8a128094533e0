//! Compiles a program for gangs, and debugs it by commands, forwards and backwards; or reports its lane-pure functions.
#![tactic(auto)]

ghost use Rattle.ispc_options.specs.Ranges.{AreInRange};

use clap::error::{Error, ErrorKind};
use debug_inputs::MOST_BYTES as MOST_INPUT;
use debug_streams::{StreamReader, StreamWriter};
use ispc_debugger::run;
use ispc_options::{Options, Paths, read_options, wrong_arguments};
use ispc_refusals::{Refusal, write_refusal};
use ispc_script::{MOST_BYTES, split_script};
use lane_report::report;
use std::alloc::AllocError;
use std::io::{LineWriter, Read};
use std::process::ExitCode;
use std::{env, fs, io};
use transcript::Ending;

fn main(rt: HostRuntime) -> ExitCode {
    let owned = match arguments(&rt) {
        Ok(owned) => owned,
        Err(fault) if fault.kind() == io::ErrorKind::InvalidData => {
            return refuse_words(&rt, "invalid UTF-8 was detected in one or more arguments");
        }
        Err(_) => return refuse(&rt, &Refusal::Memory),
    };
    let words: Result<Vec<&str>, AllocError> = owned
        .iter()
        .skip(1)
        .map(|word| word.as_str())
        .collect(rt.alloc());
    let Ok(words) = words else {
        return refuse(&rt, &Refusal::Memory);
    };
    match read_options(rt.alloc(), words.as_slice()) {
        Err(fault) => refuse_arguments(&rt, &fault),
        Ok((options, paths)) => run_form(&rt, &options, &paths),
    }
}

/// The program's name and the words after it.
fn arguments(rt: &HostRuntime) -> io::Result<Vec<String>> {
    let arguments = env::args(rt)?.collect(rt.alloc())?;
    Ok(arguments)
}

/// The run, or the report, that the arguments ask for. A report has no input.
fn run_form(rt: &HostRuntime, options: &Options<'_>, paths: &Paths<'_>) -> ExitCode
    requires { AreInRange options.now }
{
    let input = if options.lane_pure { None } else { paths.input };
    match paths.source {
        None => run_script(rt, input, options),
        Some(path) => run_file(rt, path, input, options),
    }
}

/// Standard input has the source, a line `%%` and the commands. It is read after the input.
fn run_script(rt: &HostRuntime, input: Option<&str>, options: &Options<'_>) -> ExitCode
    requires { AreInRange options.now }
{
    let input = match read_input(rt, input) {
        Ok(input) => input,
        Err(status) => return status,
    };
    let text = match front(rt, rt.reader(), MOST_BYTES) {
        Ok(text) => text,
        Err(fault) => {
            return match fault.kind() {
                io::ErrorKind::OutOfMemory => refuse(rt, &Refusal::Memory),
                _ => finish(rt, Ok(Ending::ReadFault)),
            };
        }
    };
    match split_script(text.as_slice()) {
        None => refuse(rt, &Refusal::NoScript),
        Some((source, commands)) => answer(rt, source, &input, commands, options),
    }
}

/// A file has the source, and standard input the commands. The source is read before the input.
fn run_file(rt: &HostRuntime, path: &str, input: Option<&str>, options: &Options<'_>) -> ExitCode
    requires { AreInRange options.now }
{
    let source = match read_file(rt, path, MOST_BYTES) {
        Ok(source) => source,
        Err(status) => return status,
    };
    match read_input(rt, input) {
        Ok(input) => answer(rt, &source, &input, rt.reader(), options),
        Err(status) => status,
    }
}

/// The input that a file has, none where no file is named; or the status where it cannot be read.
fn read_input(rt: &HostRuntime, path: Option<&str>) -> Result<Vec<u8>, ExitCode> {
    match path {
        Some(path) => read_file(rt, path, MOST_INPUT),
        None => Ok(Vec::new(rt.alloc())),
    }
}

/// The front of a file, or the status where it cannot be read, which standard error is told.
fn read_file(rt: &HostRuntime, path: &str, most: usize) -> Result<Vec<u8>, ExitCode> {
    match file_front(rt, path, most) {
        Ok(text) => Ok(text),
        Err(fault) if fault.kind() == io::ErrorKind::OutOfMemory => {
            Err(refuse(rt, &Refusal::Memory))
        }
        Err(_) => {
            let _ = eprintln!(rt; "cannot read {path}");
            Err(ExitCode::from(2))
        }
    }
}

fn file_front(rt: &HostRuntime, path: &str, most: usize) -> io::Result<Vec<u8>> {
    let file = fs::File::open(rt, path)?;
    front(rt, file, most)
}

/// What a reader gives, up to one byte more than there may be. A longer text is refused for its length, whatever follows; of
/// a source too, which may have fewer bytes than a script.
fn front<R: Read + Drop>(rt: &HostRuntime, reader: R, most: usize) -> io::Result<Vec<u8>> {
    let mut text = Vec::new(rt.alloc());
    let most = (most as u64).saturating_add(1);
    reader.take(most).read_to_end(&mut text)?;
    Ok(text)
}

/// The answers to commands, or the report of a source, written line by line: each line goes out as it ends.
fn answer<R: Read + Drop>(
    rt: &HostRuntime,
    source: &[u8],
    input: &[u8],
    commands: R,
    options: &Options<'_>,
) -> ExitCode
    requires { AreInRange options.now }
{
    let Ok(lines) = LineWriter::new(rt.alloc(), rt.stdout()) else {
        return refuse(rt, &Refusal::Memory);
    };
    let mut writer = StreamWriter::new(lines);
    if options.lane_pure {
        return finish(rt, report(rt.alloc(), source, &mut writer));
    }
    let mut reader = StreamReader::new(commands);
    let end = run(rt.alloc(), source, input, options, &mut reader, &mut writer);
    finish(rt, end)
}

/// The status of a run, and what standard error has of it.
fn finish(rt: &HostRuntime, end: Result<Ending, Refusal>) -> ExitCode {
    match end {
        Ok(Ending::Quit | Ending::EndOfCommands) => ExitCode::SUCCESS,
        Err(refusal) => refuse(rt, &refusal),
        Ok(Ending::ReadFault) => {
            let _ = eprintln!(rt; "read fault");
            ExitCode::from(3)
        }
        Ok(Ending::WriteFault) => {
            let _ = eprintln!(rt; "write fault");
            ExitCode::from(4)
        }
    }
}

fn refuse(rt: &HostRuntime, refusal: &Refusal) -> ExitCode {
    let mut writer = StreamWriter::new(rt.stderr());
    let _ = write_refusal(refusal, &mut writer);
    ExitCode::from(2)
}

/// Refuses the arguments, and says why.
fn refuse_words(rt: &HostRuntime, message: &str) -> ExitCode {
    match wrong_arguments(rt.alloc(), message) {
        Ok(fault) => refuse_arguments(rt, &fault),
        Err(_) => refuse(rt, &Refusal::Memory),
    }
}

/// Prints a fault of the arguments, or the help that was asked for. Where standard output does not take the help, that is a write fault.
fn refuse_arguments(rt: &HostRuntime, fault: &Error) -> ExitCode {
    if fault.kind() == ErrorKind::OutOfMemory {
        return refuse(rt, &Refusal::Memory);
    }
    match fault.print(rt) {
        Err(_) if !fault.use_stderr() => finish(rt, Ok(Ending::WriteFault)),
        _ => ExitCode::from(fault.exit_code() as u8),
    }
}
