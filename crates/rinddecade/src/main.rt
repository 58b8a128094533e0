//! A debugger that people sit at and editors speak to, pictures of runs, and what refusals mean.
#![tactic(auto)]

ghost use Rattle.desk_options.specs.Ranges.{IsInRange};

mod advice;
mod counting;
mod debugging;
mod drawing;
mod explaining;
mod files;
mod overwriting;
mod paging;
mod places;
mod porting;
mod profiling;
mod refused_launches;
mod refusing;
mod serving;
mod terminal;
mod typed_lines;
mod words_of_source;
mod wrong_values;

use debugging::debug;
use desk_options::{Verb, read_verb};
use drawing::draw_picture;
use explaining::explain;
use ispc_refusals::Refusal;
use paging::page_run;
use porting::port_source;
use profiling::profile_run;
use refusing::{refuse, refuse_arguments, refuse_because};
use serving::adapt;
use std::alloc::AllocError;
use std::process::ExitCode;
use std::{env, io};

fn main(rt: HostRuntime) -> ExitCode {
    let owned = match words_of(&rt) {
        Ok(owned) => owned,
        Err(fault) if fault.kind() == io::ErrorKind::InvalidData => {
            return refuse_because(
                &rt,
                b"invalid UTF-8 was detected in one or more arguments",
                b"",
            );
        }
        Err(_) => return refuse(&rt, &Refusal::Memory),
    };
    let words: Result<Vec<&str>, AllocError> = owned
        .iter()
        .skip(1)
        .map(|word| word.as_str())
        .collect(rt.alloc());
    let Ok(words) = words else {
        return refuse(&rt, &Refusal::Memory);
    };
    match read_verb(rt.alloc(), words.as_slice()) {
        Err(fault) => refuse_arguments(&rt, words.as_slice(), &fault),
        Ok(verb) => do_verb(&rt, &verb),
    }
}

/// The program's name and the words after it.
fn words_of(rt: &HostRuntime) -> io::Result<Vec<String>> {
    let arguments = env::args(rt)?.collect(rt.alloc())?;
    Ok(arguments)
}

fn do_verb(rt: &HostRuntime, verb: &Verb<'_>) -> ExitCode
    requires { IsInRange verb.now }
{
    match verb {
        Verb::Debug(debugged) => debug(rt, debugged),
        Verb::Picture(picture) => draw_picture(rt, picture),
        Verb::Page(page) => page_run(rt, page),
        Verb::Profile(profile) => profile_run(rt, profile),
        Verb::Adapter => adapt(rt),
        Verb::Explain(explained) => explain(rt, explained.words.as_slice()),
        Verb::Port(ported) => port_source(rt, ported),
    }
}
