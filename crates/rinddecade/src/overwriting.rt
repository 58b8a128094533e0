//! Which files a picture or a page is written over.
use crate::files::{file_front, is_one_file};
use crate::refusing::refuse_because;
use desk_options::Program;
use std::fs;
use std::process::ExitCode;

/// What a picture begins with, alone and in a page.
const IMAGE: &[u8] = b"<svg xmlns=\"http://www.w3.org/2000/svg\" width=\"";

const PAGE: &[u8] = b"<!DOCTYPE html>\n<html lang=\"en\">\n<head><meta charset=\"utf-8\"/><title>";

/// And what stands near its front.
const STYLE: &[u8] = b"<style>\ntext{font:13px monospace;white-space:pre}\n.number{";

/// What a page of a run begins with.
const RUN_PAGE: &[u8] =
    b"<!DOCTYPE html>\n<html lang=\"en\">\n<head>\n<meta charset=\"utf-8\">\n<meta name=\"generator\" content=\"rinddecade page\">\n";

/// How much of a file is looked at.
const FRONT: usize = 16_384;

/// What is written.
#[derive(Clone, Copy, Debug, PartialEq, Eq)]
pub(crate) enum Written {
    Picture,
    RunPage,
}

/// Refuses to write a picture or a page over one of the files that it is made from, and over any other file that is none, unless
/// that is asked for.
pub(crate) fn refuse_overwriting(
    rt: &HostRuntime,
    written: Written,
    to: Option<&str>,
    program: &Program<'_>,
    commands: Option<&str>,
    force: bool,
) -> Result<(), ExitCode> {
    let Some(path) = to else {
        return Ok(());
    };
    if is_read(rt, path, program, commands) {
        return Err(refuse_because(rt, over_source(written), path.as_bytes()));
    }
    if force || !holds_other(rt, written, path) {
        return Ok(());
    }
    Err(refuse_because(rt, over_other(written), path.as_bytes()))
}

/// Whether a path leads to a file that is read: the source of a program, its input or the commands.
pub(crate) fn is_read(
    rt: &HostRuntime,
    path: &str,
    program: &Program<'_>,
    commands: Option<&str>,
) -> bool {
    let is_this = is_one_file(rt, path, program.source);
    is_this || is_named(rt, path, program.input) || is_named(rt, path, commands)
}

/// Whether a path leads to a file that is named, if one is.
fn is_named(rt: &HostRuntime, path: &str, named: Option<&str>) -> bool {
    match named {
        Some(named) => is_one_file(rt, path, named),
        None => false,
    }
}

fn over_source(written: Written) -> &'static [u8] {
    match written {
        Written::Picture => b"the picture would be written over what it is made from: ",
        Written::RunPage => b"the page would be written over what it is made from: ",
    }
}

fn over_other(written: Written) -> &'static [u8] {
    match written {
        Written::Picture => {
            b"only --force writes over a file that holds something other than a picture: "
        }
        Written::RunPage => {
            b"only --force writes over a file that holds something other than a page of a run: "
        }
    }
}

/// Whether there is a file of this path that holds something other than what is written.
fn holds_other(rt: &HostRuntime, written: Written, path: &str) -> bool {
    match fs::metadata(rt, path) {
        Ok(metadata) => metadata.is_file() && metadata.len() > 0 && !is_such(rt, written, path),
        Err(_) => false,
    }
}

fn is_such(rt: &HostRuntime, written: Written, path: &str) -> bool {
    match (file_front(rt, path, FRONT), written) {
        (Ok(front), Written::Picture) => {
            (front.starts_with(IMAGE) || front.starts_with(PAGE))
                && front.windows(STYLE.len()).any(|part| part == STYLE)
        }
        (Ok(front), Written::RunPage) => front.starts_with(RUN_PAGE),
        (Err(_), _) => false,
    }
}
